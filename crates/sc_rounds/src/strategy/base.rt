//! The prover of a table of base elements, before its first round.
ghost use Rattle.std.specs.Prelude.{
  ◌≡◌,
  ◌↔◌,
  ◌<◌,
  ◌≤◌,
  ◌^◌,
  None,
  [],
  ◌∷◌,
  IfOk,
  IfErr,
  IsTrue,
  length,
  map,
  vec_capacity,
};
ghost use Rattle.sc_definitions.specs.Ring.{◌*⟨◌⟩◌};
ghost use Rattle.sc_definitions.specs.Tables.{IsOffered, entries, sum_below};
ghost use Rattle.sc_definitions.specs.Offers.{IsOffered-prop};
ghost use Rattle.sc_table.specs.Polys.{variables_of};
ghost use Rattle.sc_table.specs.Strategy.{basis_of, order_of};
ghost use Rattle.sc_definitions.specs.ProverViews.{KeepsForm, IsTrueClaim};
ghost use Rattle.sc_rounds.specs.BaseProducts.{based, BaseAgrees};

use crate::held_product::HeldProduct;
use crate::product_polynomial::ProductPolynomial;
use crate::strategy::SumcheckProver;
use sc_challenger::Challenger;
use sc_field::{Algebra, ExtensionField, Field, NoMemory, with_room};
use sc_table::{Basis, Point, Poly, RoundMessage, VariableOrder};
use sc_transcript::{ProverTranscript, SumcheckData, SumcheckError, SumcheckShape};
use std::alloc::Global;

/// A table of base elements, weights, and the claim that the sum over all rows of the entry's image
/// times the weight has a value, which is always true. It is what a [`SumcheckProver`] of the
/// images would be before its first round.
///
/// The images are never in memory: the first round is measured on the table as it is, and bound
/// into one of half as many rows.
#[derive(Drop)]
pub struct BaseProduct<'a, F: Field, EF: ExtensionField<F>> {
    basis: Basis,
    order: VariableOrder,
    evals: &'a [F],
    weights: Poly<EF>,
    sum: EF,
    ghost same: { length evals.now ≡ 2 ^ variables_of weights },
    ghost true_sum: { IsTrueClaim EF.ops
        (based (λ x. EF.embedding (F.number x)) EF.number basis order evals.now weights sum) },
    ghost offered: { IsOffered (basis_of basis) (order_of order) } by { IsOffered-prop (basis_of basis) (order_of order) },
}

impl<'a, F: Field, EF: ExtensionField<F>> BaseProduct<'a, F, EF> {
    ghost use Rattle.sc_definitions.specs.ProverStates.{IsRound};
    ghost use Rattle.sc_transcript.specs.Data.{wire_in};
    ghost use Rattle.sc_transcript.specs.Drivers.{Continues, HasRoundLeft, IsDone};
    ghost use Rattle.sc_transcript.specs.Transcripts.{driver_in};
    ghost use Rattle.sc_transcript.specs.Batches.{
      IsHalted,
      CountsOne,
      PlaysWhole,
      PlaysFrom,
      StopsFrom,
      BreaksOffAt,
    };
    ghost use Rattle.sc_definitions.specs.ProverViews.{message_shown, with_bound};
    ghost use Rattle.sc_rounds.specs.ProverViews.{shown_by, prover_state_of};
    ghost use Rattle.sc_rounds.specs.HeldProducts.{shown_in, setting_over, prover_state_over};
    ghost use Rattle.sc_rounds.specs.BaseViews.{base_shown, base_batch_of};

    /// The table, in a basis that is offered with this order, which has as many rows as the
    /// weights, with a claim that is true, as [`BaseProduct::tables_agree`] tests.
    pub fn new(
        basis: Basis,
        order: VariableOrder,
        evals: &'a [F],
        weights: Poly<EF>,
        sum: EF,
    ) -> Self
        // The projective basis only with prefix order.
        requires offered { IsOffered (basis_of basis) (order_of order) }
        requires agree { BaseAgrees EF.ops (λ x. EF.embedding (F.number x)) EF.number evals.now
            weights (EF.number sum) }
        ensures { base_shown result
            ≡ based (λ x. EF.embedding (F.number x)) EF.number basis order evals.now weights sum }
    {
        BaseProduct {
            basis,
            order,
            evals,
            weights,
            sum,
        }
    }

    /// Whether a table has as many rows as there are weights, and the sum over all rows of the
    /// entry's image times the weight is this one. It takes no memory.
    pub fn tables_agree(evals: &[F], weights: &Poly<EF>, sum: EF) -> bool
        ensures { IsTrue result ↔ BaseAgrees EF.ops (λ x. EF.embedding (F.number x)) EF.number
            evals.now weights.now (EF.number sum) }
    {
        evals.len() == weights.num_evals()
            && dot_images(evals, weights.as_slice()).index() == sum.index()
    }

    /// The claim.
    pub fn claimed_sum(&self) -> EF
        ensures { EF.number result ≡ (base_shown self.now).claim }
    {
        self.sum
    }

    /// Plays a batch of rounds, one or more, as [`SumcheckProver::compute_sumcheck_polynomials`]
    /// does on a table of the images, and answers what is left with their challenges. The last of
    /// these may be held.
    ///
    /// The refusals are those of that call, and `NoMemory` comes as well where there is none for
    /// the table of half as many rows. After a refusal the tables are given up; the data and the
    /// history are as after that call.
    pub fn compute_sumcheck_polynomials<C: Challenger<F>>(
        self,
        alloc: Global,
        sumcheck_data: &mut SumcheckData<F, EF>,
        challenger: &mut C,
        folding_factor: usize,
        pow_bits: usize,
    ) -> Result<(SumcheckProver<F, EF>, Point<EF>), SumcheckError>
        requires some { 0 < folding_factor }
        requires variables { folding_factor ≤ (base_shown self).variables }
        requires difficulty { pow_bits ≤ (C.party challenger.old).rules.max_bits }
        ensures rules { (C.party challenger.new).rules ≡ (C.party challenger.old).rules }
        ensures form { IfOk result
            (λ p. KeepsForm (base_shown self.entry) (shown_by p.0)) }
        ensures whole { IfOk result (λ p. PlaysWhole
            (base_batch_of self.entry sumcheck_data.old (C.party challenger.old) folding_factor pow_bits)
            (prover_state_of p.0 sumcheck_data.new (C.party challenger.new).history) (map EF.number p.1)) }
        ensures refused { IfErr result (BreaksOffAt
            (base_batch_of self.entry sumcheck_data.old (C.party challenger.old) folding_factor pow_bits)
            (C.party challenger.new).history (wire_in F.number EF.number sumcheck_data.new)) }
    {
        let shape = SumcheckShape::new(folding_factor, pow_bits, self.basis);
        let mut challenges = with_room(alloc, folding_factor)?;
        shape.seed::<F, EF, C>(alloc, challenger)?;
        let mut transcript = ProverTranscript::over(challenger, shape);
        match self.play(alloc, sumcheck_data, &mut transcript, &mut challenges) {
            Ok(rounds) => {
                transcript.finish();
                Ok((SumcheckProver { rounds }, Point::new(challenges)))
            }
            Err(error) => {
                transcript.abort();
                Err(error)
            }
        }
    }

    // Plays all rounds of a transcript that has one or more, and appends their challenges to a list
    // that has room for them.
    fn play<C: Challenger<F>>(
        self,
        alloc: Global,
        sumcheck_data: &mut SumcheckData<F, EF>,
        transcript: &mut ProverTranscript<'_, C, F, EF>,
        challenges: &mut Vec<EF>,
    ) -> Result<HeldProduct<F, EF>, SumcheckError>
        requires variables { (driver_in transcript.old).shape.num_rounds ≤
            (base_shown self).variables }
        requires some { HasRoundLeft (driver_in transcript.old) }
        requires none_played { (driver_in transcript.old).played ≡ 0 }
        requires empty { challenges.old.items ≡ [] }
        requires room { (driver_in transcript.old).shape.num_rounds ≤ vec_capacity challenges.old }
        ensures continues { Continues (driver_in transcript.old) (driver_in transcript.new) }
        ensures form { IfOk result (λ t. KeepsForm (base_shown self.entry) (shown_in t)) }
        ensures played { IfOk result (λ t. PlaysFrom
            (setting_over EF.extension EF.ops (base_shown self.entry) transcript.old)
            (prover_state_over EF.number (base_shown self.entry) transcript.old sumcheck_data.old)
            (prover_state_over EF.number (shown_in t) transcript.new sumcheck_data.new)
            (map EF.number challenges.new.items) (driver_in transcript.new)) }
        ensures stopped { IfErr result (StopsFrom
            (setting_over EF.extension EF.ops (base_shown self.entry) transcript.old)
            (prover_state_over EF.number (base_shown self.entry) transcript.old sumcheck_data.old)
            (driver_in transcript.new)
            (wire_in F.number EF.number sumcheck_data.new)) }
    {
        let (message, r) = self.round(sumcheck_data, transcript)?;
        challenges.push_reserved(r);
        let mut rest = self.bind(alloc, message, r)?;
        rest.play::<F, EF, C>(sumcheck_data, transcript, challenges)?;
        Ok(rest)
    }

    // Plays a round: appends the message of the tables to the data, and answers it with its
    // challenge. A variable is left.
    fn round<C: Challenger<F>>(
        &self,
        sumcheck_data: &mut SumcheckData<F, EF>,
        transcript: &mut ProverTranscript<'_, C, F, EF>,
    ) -> Result<(RoundMessage<EF>, EF), SumcheckError>
        requires variables { 0 < (base_shown self.now).variables }
        requires left { HasRoundLeft (driver_in transcript.old) }
        ensures continues { Continues (driver_in transcript.old) (driver_in transcript.new) }
        ensures counts { CountsOne (driver_in transcript.old) (driver_in transcript.new) result }
        ensures message { IfOk result (λ p. EF.number p.0.c_a ∷ EF.number p.0.c_inf ∷ []
            ≡ message_shown EF.ops (base_shown self.now)) }
        ensures round { IfOk result (λ p. IsRound
            (setting_over EF.extension EF.ops (base_shown self.now) transcript.old)
            (prover_state_over EF.number (base_shown self.now) transcript.old sumcheck_data.old)
            (prover_state_over EF.number (with_bound EF.ops (base_shown self.now) (EF.number p.1))
            transcript.new sumcheck_data.new) (EF.number p.1)) }
        ensures halted { IfErr result (IsHalted
            (setting_over EF.extension EF.ops (base_shown self.now) transcript.old)
            (prover_state_over EF.number (base_shown self.now) transcript.old sumcheck_data.old)
            (prover_state_over EF.number (base_shown self.now) transcript.new sumcheck_data.new)
            (driver_in transcript.old).played) }
    {
        let message = self.measure();
        let r = sumcheck_data.observe_and_sample(transcript, message.c_a, message.c_inf)?;
        Ok((message, r))
    }

    // The message of a round. A variable is left.
    fn measure(&self) -> RoundMessage<EF>
        requires { 0 < (base_shown self.now).variables }
        ensures { EF.number result.c_a ∷ EF.number result.c_inf ∷ []
            ≡ message_shown EF.ops (base_shown self.now) }
    {
        self.basis
            .sumcheck_coefficients::<F, EF>(self.order, self.evals, self.weights.as_slice())
    }

    // Binds the variable that comes next, and moves the claim to what the message of the tables
    // sends at `r`. The weights are bound in their place, and what they need no more is given back
    // before memory is taken for the evaluations.
    fn bind(
        self,
        alloc: Global,
        message: RoundMessage<EF>,
        r: EF,
    ) -> Result<HeldProduct<F, EF>, NoMemory>
        requires left { 0 < (base_shown self).variables }
        requires message { EF.number message.c_a ∷ EF.number message.c_inf ∷ []
            ≡ message_shown EF.ops (base_shown self) }
        ensures { IfOk result
            (λ t. shown_in t ≡ with_bound EF.ops (base_shown self.entry) (EF.number r)) }
    {
        let BaseProduct {
            basis,
            order,
            evals,
            mut weights,
            sum,
        } = self;
        basis.fix_var::<EF, EF>(order, &mut weights, r);
        weights.shrink_to_fit();
        let evals = basis.fix_var_slice::<F, EF>(alloc, order, evals, r)?;
        let sum = basis.reduce_claim(message.c_a, message.c_inf, r, sum);
        let poly = ProductPolynomial::new_in(basis, order, evals, weights);
        Ok(HeldProduct::new(poly, sum))
    }
}

// The sum of the products of the images of base elements and as many values.
fn dot_images<F: Field, EF: Algebra<F>>(evals: &[F], values: &[EF]) -> EF
    requires { length evals.now ≡ length values.now }
    ensures { EF.number result ≡ sum_below EF.ops (length evals.now)
        (λ b. entries (λ x. EF.embedding (F.number x)) evals.now b
        *⟨ EF.ops ⟩ entries EF.number values.now b) }
{
    let mut sum = EF::ZERO;
    for i in 0..evals.len() {
        sum = sum.add(values[i].mul_base(evals[i]));
    }
    sum
}
