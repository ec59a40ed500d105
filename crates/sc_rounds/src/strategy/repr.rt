//! The prover whose tables are held in a representation of the field in which the transcript is
//! written.
ghost use Rattle.std.specs.Prelude.{◌≡◌, ◌↔◌, ℕ, ◌≤◌, None, Err, IfOk, IfErr, OnErr, IsTrue, map};
ghost use Rattle.sc_table.specs.Polys.{variables_of, table_of};
ghost use Rattle.sc_rounds.specs.Products.{numbers_of};
ghost use Rattle.sc_rounds.specs.Provers.{held_shown, number_if_some};
ghost use Rattle.sc_definitions.specs.Tables.{evaluation};
ghost use Rattle.sc_definitions.specs.ProverViews.{KeepsForm, IsTrueClaim};

use crate::held_product::HeldProduct;
use crate::product_polynomial::{ProductPolynomial, dot};
use crate::strategy::SumcheckProver;
use sc_challenger::Challenger;
use sc_field::{ExtensionField, Field, IntoTranscriptField, NoMemory};
use sc_table::{Point, Poly, VariableOrder};
use sc_transcript::{SumcheckData, SumcheckError};
use std::alloc::Global;
use std::marker::PhantomData;

/// A [`SumcheckProver`] whose two tables and claim are held in a field `R` that represents the
/// extension `EF`. Only the transcript sees `EF`: the two values of a message cross over before
/// they are absorbed, and each challenge crosses back before it is bound.
///
/// A representation keeps sums and products, so the messages, the challenges, the history, the
/// claims and the numbers of variables are those of a `SumcheckProver` on the tables of the
/// represented elements. What differs is what a multiplication costs.
#[derive(Drop)]
pub struct ReprSumcheckProver<F: Field, EF: ExtensionField<F>, R: IntoTranscriptField<EF>> {
    rounds: HeldProduct<R, R>,
    of: PhantomData<(F, EF)>,
    ghost true_sum: { IsTrueClaim R.ops
        (held_shown R.ops R.number rounds.poly rounds.held rounds.sum) },
}

impl<F: Field, EF: ExtensionField<F>, R: IntoTranscriptField<EF>> ReprSumcheckProver<F, EF, R> {
    ghost use Rattle.sc_transcript.specs.Batches.{LeavesBatch, HoldsBatch};
    ghost use Rattle.sc_rounds.specs.ProverViews.{
      shown_by,
      stored_by,
      image_shown_by,
      image_stored_by,
      image_prover_state_of,
      image_batch_of,
    };
    ghost use Rattle.sc_rounds.specs.Represented.{TablesAgree, tables_shown};

    /// A prover over `R` in the place of this one: with its tables, which are of values as
    /// [`SumcheckProver::basis`] tells, and its claim. A prover that is refused is given up.
    pub fn new(alloc: Global, prover: SumcheckProver<F, EF>) -> Result<Self, NoMemory>
        requires { (shown_by prover).basis ≡ evaluation }
        ensures shown { IfOk result (λ p. image_shown_by p ≡ shown_by prover) }

        // A challenge that is held is carried across.
        ensures stored { IfOk result (λ p. image_stored_by p ≡ stored_by prover) }
    {
        let HeldProduct { poly, held, sum } = prover.rounds;
        let (order, evals, weights) = poly.into_tables();
        let evals = represented(alloc, evals)?;
        let weights = represented(alloc, weights)?;
        let rounds = HeldProduct {
            poly: ProductPolynomial::new_unpacked(order, evals, weights),
            held: image_if_some(held),
            sum: R::from_element(sum),
        };
        Ok(ReprSumcheckProver {
            rounds,
            of: PhantomData,
        })
    }

    /// The prover on evaluations in `EF` and weights that are in `R` already, of as many variables,
    /// and a claim that is true, as [`ReprSumcheckProver::tables_agree`] tests.
    pub fn from_tables(
        alloc: Global,
        order: VariableOrder,
        evals: Poly<EF>,
        weights: Poly<R>,
        sum: EF,
    ) -> Result<Self, NoMemory>
        requires { TablesAgree EF.ops EF.number (λ x. R.to_number (R.number x)) evals weights
            (EF.number sum) }
        ensures shown { IfOk result (λ p. image_shown_by p ≡ tables_shown EF.number (λ x. R.to_number (R.number x)) order evals weights (EF.number sum)) }
        ensures outstanding { IfOk result (λ p. (image_stored_by p).held ≡ None) }
    {
        let evals = represented(alloc, evals)?;
        let poly = ProductPolynomial::new_unpacked(order, evals, weights);
        Ok(ReprSumcheckProver {
            rounds: HeldProduct::new(poly, R::from_element(sum)),
            of: PhantomData,
        })
    }

    /// Whether evaluations in `EF` and weights in `R` have as many variables, and the sum over all
    /// rows of evaluation times represented weight is this one. It takes no memory.
    pub fn tables_agree(evals: &Poly<EF>, weights: &Poly<R>, sum: EF) -> bool
        ensures { IsTrue result ↔ TablesAgree EF.ops EF.number (λ x. R.to_number (R.number x)) evals.now weights.now (EF.number sum) }
    {
        evals.num_variables() == weights.num_variables()
            && dot::<EF, R>(evals.as_slice(), weights.as_slice()).index() == sum.index()
    }

    /// The claim.
    pub fn claimed_sum(&self) -> EF
        ensures { EF.number result ≡ (image_shown_by self.now).claim }
    {
        self.rounds.sum.into_transcript()
    }

    /// How many variables are left. That of a challenge which is held is none of them.
    pub fn num_variables(&self) -> usize
        ensures { result ≡ (image_shown_by self.now).variables }
    {
        self.rounds.num_variables()
    }

    /// The challenge that is held.
    pub fn outstanding(&self) -> Option<EF>
        ensures { number_if_some EF.number result ≡ (image_stored_by self.now).held }
    {
        match self.rounds.held {
            Some(r) => Some(r.into_transcript()),
            None => None,
        }
    }

    /// Binds the challenge that is held. Where none is, nothing changes.
    pub fn settle(&mut self)
        ensures kept { image_shown_by self.new ≡ image_shown_by self.old }
        ensures settled { (image_stored_by self.new).held ≡ None }
    {
        self.rounds.settle();
    }

    /// The bound evaluations, as they are held, in memory of their own.
    pub fn evals(&mut self, alloc: Global) -> Result<Poly<R>, NoMemory>
        ensures kept { image_shown_by self.new ≡ image_shown_by self.old }
        ensures settled { (image_stored_by self.new).held ≡ None }
        ensures variables { IfOk result (λ p. variables_of p ≡ (image_shown_by self.old).variables) }
        ensures table { IfOk result (λ p. numbers_of (λ x. R.to_number (R.number x)) p ≡ (image_shown_by self.old).evals) }
    {
        self.rounds.settle();
        self.rounds.poly.evals(alloc)
    }

    /// The bound weights, as they are held, in memory of their own.
    pub fn weights(&mut self, alloc: Global) -> Result<Poly<R>, NoMemory>
        ensures kept { image_shown_by self.new ≡ image_shown_by self.old }
        ensures settled { (image_stored_by self.new).held ≡ None }
        ensures variables { IfOk result (λ p. variables_of p ≡ (image_shown_by self.old).variables) }
        ensures table { IfOk result (λ p. numbers_of (λ x. R.to_number (R.number x)) p ≡ (image_shown_by self.old).weights) }
    {
        self.rounds.settle();
        self.rounds.poly.weights(alloc)
    }

    /// Plays a batch of rounds, one for each of the next `folding_factor` variables, at a
    /// difficulty of at most the challenger's [`Challenger::max_bits`], and answers their
    /// challenges in drawing order.
    ///
    /// The refusals, and what stands after each, are those of
    /// [`SumcheckProver::compute_sumcheck_polynomials`] without a constraint.
    pub fn compute_sumcheck_polynomials<C: Challenger<F>>(
        &mut self,
        alloc: Global,
        sumcheck_data: &mut SumcheckData<F, EF>,
        challenger: &mut C,
        folding_factor: usize,
        pow_bits: usize,
    ) -> Result<Point<EF>, SumcheckError>
        requires variables { folding_factor ≤ (image_shown_by self.old).variables }
        requires difficulty { pow_bits ≤ (C.party challenger.old).rules.max_bits }
        ensures rules { (C.party challenger.new).rules ≡ (C.party challenger.old).rules }
        ensures form { KeepsForm (image_shown_by self.old) (image_shown_by self.new) }
        ensures batch { LeavesBatch (map EF.number)
            (image_batch_of self.old sumcheck_data.old (C.party challenger.old) folding_factor pow_bits)
            (image_prover_state_of self.new sumcheck_data.new (C.party challenger.new).history)
            result }

        // The last challenge is held, and the stored tables have all others bound. Where no round
        // is asked for, all that is kept stays.
        ensures holds { IfOk result (λ rs. HoldsBatch
            (image_batch_of self.old sumcheck_data.old (C.party challenger.old) folding_factor pow_bits)
            (image_stored_by self.old) (map EF.number rs) (image_stored_by self.new)) }
    {
        self.rounds
            .play_batch::<F, EF, C>(alloc, sumcheck_data, challenger, folding_factor, pow_bits)
    }
}

// The image of a value, if there is one.
fn image_if_some<EF: Field, R: IntoTranscriptField<EF>>(value: Option<EF>) -> Option<R>
    ensures { number_if_some (λ x. R.to_number (R.number x)) result
        ≡ number_if_some EF.number value }
{
    match value {
        Some(x) => Some(R::from_element(x)),
        None => None,
    }
}

// The table of the images of another table's entries.
fn represented<EF: Field, R: IntoTranscriptField<EF>>(
    alloc: Global,
    table: Poly<EF>,
) -> Result<Poly<R>, NoMemory>
    ensures variables { IfOk result (λ p. variables_of p ≡ variables_of table) }
    ensures images { IfOk result (λ p. table_of (λ x. R.to_number (R.number x)) p ≡ table_of EF.number table) }
{
    Ok(Poly::new(R::from_table(alloc, table.into_evals())?))
}
