//! The prover of a sumcheck.
ghost use Rattle.std.specs.Prelude.{
  ◌≡◌,
  ◌↔◌,
  ℕ,
  ◌<◌,
  ◌≤◌,
  ◌^◌,
  Err,
  IfOk,
  IfErr,
  OnErr,
  IsTrue,
  None,
  Some,
  [],
  ◌∷◌,
  length,
  map,
};
ghost use Rattle.std.specs.Borrow.{sem};
ghost use Rattle.std.specs.Io.BufRead.{Rests};
ghost use Rattle.sc_definitions.specs.Tables.{entries, rows_of, value_in};
ghost use Rattle.sc_table.specs.Polys.{variables_of};
ghost use Rattle.sc_table.specs.Strategy.{basis_of, order_of};
ghost use Rattle.sc_rounds.specs.Products.{sum_in, numbers_of};
ghost use Rattle.sc_rounds.specs.Provers.{shown_of, held_shown, number_if_some};
ghost use Rattle.sc_definitions.specs.ProverViews.{
  KeepsForm,
  honest_shown,
  with_bound,
  with_scaled,
  sum_with,
  IsTrueClaim,
  with_added,
};

use crate::held_product::HeldProduct;
use crate::product_polynomial::ProductPolynomial;
use sc_challenger::Challenger;
use sc_constraints::Constraint;
use sc_field::{ExtensionField, Field, NoMemory};
use sc_table::{Basis, Point, Poly, RoundMessage, VariableOrder};
use sc_transcript::{SumcheckData, SumcheckError};
use std::alloc::Global;

mod base;
mod repr;

pub use base::BaseProduct;
pub use repr::ReprSumcheckProver;

/// A prover: a pair of tables, and the claim that the sum over all rows of evaluation times weight
/// has a value, which is always true.
///
/// The last challenge of a batch is held: the tables are not bound at it before the next round
/// measures them, which does both in one pass, or before somebody asks what they are.
#[derive(Drop)]
pub struct SumcheckProver<F: Field, EF: ExtensionField<F>> {
    rounds: HeldProduct<F, EF>,
    ghost true_sum: { IsTrueClaim EF.ops
        (held_shown EF.ops EF.number rounds.poly rounds.held rounds.sum) },
}

impl<F: Field, EF: ExtensionField<F>> SumcheckProver<F, EF> {
    ghost use Rattle.sc_transcript.specs.Batches.{LeavesBatch, HoldsBatch};
    ghost use Rattle.sc_rounds.specs.HeldProducts.{Holds};
    ghost use Rattle.sc_rounds.specs.ProverViews.{
      shown_by,
      stored_by,
      IsTrueOf,
      IsNoneOrTrueOf,
      shown_with,
      stored_with,
      prover_state_of,
      batch_of,
    };
    ghost use Rattle.sc_rounds.specs.contracts.strategy.SumcheckProver.{the_row};

    /// A prover of a claim that is true, as [`SumcheckProver::sum_is_true`] tests.
    pub fn new(poly: ProductPolynomial<F, EF>, sum: EF) -> Self
        requires { EF.number sum ≡ sum_in EF.ops EF.number poly }
        ensures shown { shown_by result ≡ shown_of EF.number poly sum }
        ensures outstanding { (stored_by result).held ≡ None }
    {
        SumcheckProver {
            rounds: HeldProduct::new(poly, sum),
        }
    }

    /// Whether the sum over all rows of evaluation times weight is this one. It takes no memory.
    pub fn sum_is_true(poly: &ProductPolynomial<F, EF>, sum: EF) -> bool
        ensures { IsTrue result ↔ (EF.number sum ≡ sum_in EF.ops EF.number poly.now) }
    {
        sum.index() == poly.dot_product().index()
    }

    /// The claim.
    pub fn claimed_sum(&self) -> EF
        ensures number { EF.number result ≡ (shown_by self.now).claim }

        // It is the sum over all rows of evaluation times weight.
        ensures true_sum { IsTrueClaim EF.ops (shown_by self.now) }
    {
        self.rounds.sum
    }

    /// How many variables are left. That of a challenge which is held is none of them.
    pub fn num_variables(&self) -> usize
        ensures { result ≡ (shown_by self.now).variables }
    {
        self.rounds.num_variables()
    }

    /// What the entries of its tables are.
    pub fn basis(&self) -> Basis
        ensures { basis_of result ≡ (shown_by self.now).basis }
    {
        self.rounds.poly.basis()
    }

    /// The order in which rounds bind the variables.
    pub fn order(&self) -> VariableOrder
        ensures { order_of result ≡ (shown_by self.now).order }
    {
        self.rounds.poly.order()
    }

    /// The challenge that is held.
    pub fn outstanding(&self) -> Option<EF>
        ensures { number_if_some EF.number result ≡ (stored_by self.now).held }
    {
        self.rounds.held
    }

    /// Binds the challenge that is held. Where none is, nothing changes.
    pub fn settle(&mut self)
        ensures kept { shown_by self.new ≡ shown_by self.old }
        ensures settled { (stored_by self.new).held ≡ None }
    {
        self.rounds.settle();
    }

    /// The message of the next round, which binds a held challenge on the way. A variable is left.
    pub fn measure_round(&mut self) -> RoundMessage<EF>
        requires { 0 < (shown_by self.old).variables }
        ensures kept { shown_by self.new ≡ shown_by self.old }
        ensures settled { (stored_by self.new).held ≡ None }
        ensures message { EF.number result.c_a ∷ EF.number result.c_inf ∷ []
            ≡ honest_shown EF.ops (shown_by self.old) }
    {
        self.rounds.measure()
    }

    /// Moves the claim to what the message of [`SumcheckProver::measure_round`] sends at `r`, which
    /// is held. A variable is left, and no challenge is held.
    pub fn bind_round(&mut self, m: RoundMessage<EF>, r: EF)
        requires left { 0 < (shown_by self.old).variables }
        requires settled { (stored_by self.old).held ≡ None }
        requires message { EF.number m.c_a ∷ EF.number m.c_inf ∷ []
            ≡ honest_shown EF.ops (shown_by self.old) }
        ensures bound { shown_by self.new ≡ with_bound EF.ops (shown_by self.old) (EF.number r) }
        ensures holds { Holds (shown_by self.old) (EF.number r) (stored_by self.new) }
    {
        self.rounds.bind(m, r);
    }

    /// Multiplies the weights and the claim by a value. The evaluations stay.
    pub fn scale_weights_and_claim(&mut self, scale: EF)
        ensures scaled { shown_by self.new ≡ with_scaled EF.ops (shown_by self.old) (EF.number scale) }
        ensures settled { (stored_by self.new).held ≡ None }
    {
        self.rounds.scale(scale);
    }

    /// The bound evaluations, in memory of their own.
    pub fn evals(&mut self, alloc: Global) -> Result<Poly<EF>, NoMemory>
        ensures kept { shown_by self.new ≡ shown_by self.old }
        ensures settled { (stored_by self.new).held ≡ None }
        ensures variables { IfOk result (λ p. variables_of p ≡ (shown_by self.old).variables) }
        ensures table { IfOk result (λ p. numbers_of EF.number p ≡ (shown_by self.old).evals) }
    {
        self.rounds.settle();
        self.rounds.poly.evals(alloc)
    }

    /// The bound weights, in memory of their own.
    pub fn weights(&mut self, alloc: Global) -> Result<Poly<EF>, NoMemory>
        ensures kept { shown_by self.new ≡ shown_by self.old }
        ensures settled { (stored_by self.new).held ≡ None }
        ensures variables { IfOk result (λ p. variables_of p ≡ (shown_by self.old).variables) }
        ensures table { IfOk result (λ p. numbers_of EF.number p ≡ (shown_by self.old).weights) }
    {
        self.rounds.settle();
        self.rounds.poly.weights(alloc)
    }

    /// The value of the bound table of evaluations alone, in the prover's basis, at a point of as
    /// many coordinates as variables are left.
    pub fn eval(&mut self, point: &Point<EF>) -> EF
        requires { length point.now ≡ (shown_by self.old).variables }
        ensures kept { shown_by self.new ≡ shown_by self.old }
        ensures settled { (stored_by self.new).held ≡ None }
        ensures number { EF.number result
            ≡ value_in (shown_by self.old).basis EF.ops (rows_of (shown_by self.old).evals) (map EF.number point.now) }
    {
        self.rounds.settle();
        self.rounds.poly.eval(point)
    }

    /// Whether a constraint is on tables of as many variables as are left, and its batched claim is
    /// the sum over all rows of evaluation times its batched weights.
    pub fn constraint_is_true(
        &mut self,
        alloc: Global,
        c: &Constraint<F, EF>,
    ) -> Result<bool, NoMemory>
        ensures kept { shown_by self.new ≡ shown_by self.old }
        ensures settled { (stored_by self.new).held ≡ None }
        ensures exact { IfOk result (λ is_true. IsTrue is_true ↔ IsTrueOf self.old c.now) }
    {
        self.rounds.settle();
        let poly = &self.rounds.poly;
        if c.num_variables() != poly.num_variables() {
            return Ok(false);
        }
        let (evals, weights) = (poly.evals(alloc)?, poly.weights(alloc)?);
        let mut combined = ProductPolynomial::new_in(poly.basis(), poly.order(), evals, weights);
        let mut sum = self.rounds.sum;
        combined.combine(alloc, &mut sum, c)?;
        Ok(SumcheckProver::sum_is_true(&combined, sum))
    }

    /// The bound evaluations, row 0 first. Once they are given back the prover shows what it showed
    /// before, and holds no challenge.
    pub fn evals_view(&mut self) -> &[EF]
        ensures* kept { sem 𝓛 (Rests (the_row F.row EF.row _ _ _ _ _ _) self.entry
            (λ after. (shown_by after ≡ shown_by self.old) × ((stored_by after).held ≡ None))) }
        ensures numbers { map EF.number result.now ≡ (shown_by self.old).evals }
        ensures size { length result.now ≡ 2 ^ (shown_by self.old).variables }
    {
        self.rounds.settle();
        self.rounds.poly.evals_view()
    }

    /// Whether the sum over all rows of evaluation times these values, as many as there are rows,
    /// is this one. It takes no memory.
    pub fn delta_is_true(&mut self, weights_delta: &[EF], sum_delta: EF) -> bool
        requires { length weights_delta.now ≡ 2 ^ (shown_by self.old).variables }
        ensures kept { shown_by self.new ≡ shown_by self.old }
        ensures settled { (stored_by self.new).held ≡ None }
        ensures exact { IsTrue result ↔
            (EF.number sum_delta
            ≡ sum_with EF.ops (shown_by self.old) (entries EF.number weights_delta.now)) }
    {
        self.rounds.settle();
        self.rounds.poly.dot_with(weights_delta).index() == sum_delta.index()
    }

    /// Adds to the weights, row by row, as many values as there are rows, and to the claim their
    /// sum times the evaluations, as [`SumcheckProver::delta_is_true`] tests. The evaluations stay.
    pub fn accumulate_claim(&mut self, weights_delta: &[EF], sum_delta: EF)
        requires rows { length weights_delta.now ≡ 2 ^ (shown_by self.old).variables }
        requires sum { EF.number sum_delta
            ≡ sum_with EF.ops (shown_by self.old) (entries EF.number weights_delta.now) }
        ensures added { shown_by self.new
            ≡ with_added EF.ops (shown_by self.old) (entries EF.number weights_delta.now)
            (EF.number sum_delta) }
        ensures settled { (stored_by self.new).held ≡ None }
    {
        self.rounds.add(weights_delta, sum_delta);
    }

    /// Plays a batch of rounds, one for each of the next `folding_factor` variables, at a
    /// difficulty of at most the challenger's [`Challenger::max_bits`], and answers their
    /// challenges in drawing order. A constraint, which is true as
    /// [`SumcheckProver::constraint_is_true`] tests, is taken in before the first round.
    ///
    /// `NoWitness` names one of these rounds, and comes only where no element of the base field
    /// passes its test: the rounds before it are played, and the data has as many more. After
    /// `NoMemory` some rounds are played, from the first on, or none. The constraint is taken in
    /// whatever comes.
    pub fn compute_sumcheck_polynomials<C: Challenger<F>>(
        &mut self,
        alloc: Global,
        sumcheck_data: &mut SumcheckData<F, EF>,
        challenger: &mut C,
        folding_factor: usize,
        pow_bits: usize,
        constraint: Option<Constraint<F, EF>>,
    ) -> Result<Point<EF>, SumcheckError>
        requires variables { folding_factor ≤ (shown_by self.old).variables }
        requires difficulty { pow_bits ≤ (C.party challenger.old).rules.max_bits }
        requires constraint { IsNoneOrTrueOf self.old constraint }
        ensures rules { (C.party challenger.new).rules ≡ (C.party challenger.old).rules }
        ensures form { KeepsForm (shown_by self.old) (shown_by self.new) }
        ensures batch { LeavesBatch (map EF.number)
            (batch_of self.old constraint sumcheck_data.old (C.party challenger.old) folding_factor pow_bits)
            (prover_state_of self.new sumcheck_data.new (C.party challenger.new).history) result }

        // The last challenge is held, and the stored tables have all others bound. Where no round
        // is asked for, all that is kept stays, but for a constraint that is taken in.
        ensures holds { IfOk result (λ rs. HoldsBatch
            (batch_of self.old constraint sumcheck_data.old (C.party challenger.old) folding_factor pow_bits)
            (stored_with self.old constraint) (map EF.number rs) (stored_by self.new)) }
    {
        self.take_in_if_some(alloc, constraint);
        self.rounds
            .play_batch::<F, EF, C>(alloc, sumcheck_data, challenger, folding_factor, pow_bits)
    }

    // Takes in a constraint, if there is one, which is true.
    fn take_in_if_some(&mut self, alloc: Global, constraint: Option<Constraint<F, EF>>)
        requires { IsNoneOrTrueOf self.old constraint }
        ensures shown { shown_by self.new ≡ shown_with self.old constraint }
        ensures stored { stored_by self.new ≡ stored_with self.old constraint }
    {
        if let Some(constraint) = constraint {
            self.rounds.take_in(alloc, &constraint);
        }
    }
}
