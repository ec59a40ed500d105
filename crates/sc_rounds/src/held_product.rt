//! A pair of tables under a true claim, on which rounds are played one after the other.
ghost use Rattle.sc_challenger.specs.Parties.{channel_by};
ghost use Rattle.std.specs.Prelude.{
  ◌≡◌,
  ℕ,
  None,
  Some,
  ◌+◌,
  ◌<◌,
  ◌≤◌,
  ◌^◌,
  [],
  ◌∷◌,
  IfOk,
  IfErr,
  OnErr,
  length,
  map,
  vec_len,
  vec_capacity,
};
ghost use Rattle.sc_definitions.specs.Tables.{entries};
ghost use Rattle.sc_rounds.specs.Products.{variables_in, sum_in};
ghost use Rattle.sc_rounds.specs.Provers.{IsLeftFor, shown_of, held_shown};
ghost use Rattle.sc_definitions.specs.ProverViews.{KeepsForm, sum_with, IsTrueClaim, with_added};

use crate::product_polynomial::ProductPolynomial;
use sc_challenger::Challenger;
use sc_constraints::Constraint;
use sc_field::{ExtensionField, Field, IntoTranscriptField, with_room};
use sc_table::{Point, RoundMessage};
use sc_transcript::{ProverTranscript, SumcheckData, SumcheckError, SumcheckShape};
use std::alloc::Global;

/// A pair of tables, and the claim that the sum over all rows of evaluation times weight has a
/// value, which is always true.
///
/// The last challenge of the rounds is held: the next round binds the tables at it and measures
/// them in one pass. All that ask what the tables are settle it first.
#[derive(Drop)]
pub(crate) struct HeldProduct<F, EF: Field> {
    pub(crate) poly: ProductPolynomial<F, EF>,
    pub(crate) held: Option<EF>,
    pub(crate) sum: EF,
    pub ghost left: { IsLeftFor held (variables_in poly) },
    pub ghost true_sum: { IsTrueClaim EF.ops (held_shown EF.ops EF.number poly held sum) },
}

impl<F: Field, EF: ExtensionField<F>> HeldProduct<F, EF> {
    ghost use Rattle.sc_transcript.specs.Data.{wire_in};
    ghost use Rattle.sc_transcript.specs.Drivers.{Continues, HasRoundLeft};
    ghost use Rattle.sc_transcript.specs.Transcripts.{driver_in};
    ghost use Rattle.sc_transcript.specs.Batches.{
      Moves,
      CountsOne,
      LeavesBatch,
      HoldsBatch,
      GoesOn,
      HoldsIfMore,
    };
    ghost use Rattle.sc_rounds.specs.Provers.{stated, IsTrueConstraint, with_taken};
    ghost use Rattle.sc_definitions.specs.ProverViews.{
      message_shown,
      with_bound,
      with_scaled,
      setting_at,
      prover_state_at,
    };
    ghost use Rattle.sc_rounds.specs.HeldProducts.{
      pair_in,
      held_in,
      shown_in,
      image_in,
      image_stored_in,
      setting_over,
      prover_state_over,
      course_over,
      batch_asked,
      Holds,
    };

    // No challenge is held yet.
    pub(crate) fn new(poly: ProductPolynomial<F, EF>, sum: EF) -> Self
        requires { EF.number sum ≡ sum_in EF.ops EF.number poly }
        ensures shown { shown_in result ≡ shown_of EF.number poly sum }
        ensures none { held_in result ≡ None }
    {
        HeldProduct {
            poly,
            held: None,
            sum,
        }
    }

    // How many variables are left.
    pub(crate) fn num_variables(&self) -> usize
        ensures { result ≡ (shown_in self.now).variables }
    {
        let stored = self.poly.num_variables();
        match self.held {
            Some(_) => stored - 1,
            None => stored,
        }
    }

    // Binds a challenge that is held.
    pub(crate) fn settle(&mut self)
        ensures kept { shown_in self.new ≡ shown_in self.old }
        ensures settled { held_in self.new ≡ None }
    {
        if let Some(r) = self.held {
            self.held = None;
            self.poly.bind(r);
        }
    }

    // The message of a round. A variable is left.
    pub(crate) fn measure(&mut self) -> RoundMessage<EF>
        requires { 0 < (shown_in self.old).variables }
        ensures kept { shown_in self.new ≡ shown_in self.old }
        ensures settled { held_in self.new ≡ None }
        ensures message { EF.number result.c_a ∷ EF.number result.c_inf ∷ []
            ≡ message_shown EF.ops (shown_in self.old) }
    {
        match self.held {
            Some(r) => {
                self.held = None;
                self.poly.bind_and_measure(r)
            }
            None => self.poly.measure(),
        }
    }

    // Moves the claim to what the message sends at `r`, which is held. None is held before, a
    // variable is left, and the message is that of the tables.
    pub(crate) fn bind(&mut self, message: RoundMessage<EF>, r: EF)
        requires left { 0 < (shown_in self.old).variables }
        requires settled { held_in self.old ≡ None }
        requires message { EF.number message.c_a ∷ EF.number message.c_inf ∷ []
            ≡ message_shown EF.ops (shown_in self.old) }
        ensures bound { shown_in self.new ≡ with_bound EF.ops (shown_in self.old) (EF.number r) }
        ensures poly { pair_in self.new ≡ pair_in self.old }
        ensures held { held_in self.new ≡ Some r }
    {
        let basis = self.poly.basis();
        self.sum = basis.reduce_claim(message.c_a, message.c_inf, r, self.sum);
        self.held = Some(r);
    }

    // Adds values to the weights, row by row, and to the claim their sum times the evaluations.
    pub(crate) fn add(&mut self, delta: &[EF], sum_delta: EF)
        requires rows { length delta.now ≡ 2 ^ (shown_in self.old).variables }
        requires sum { EF.number sum_delta
            ≡ sum_with EF.ops (shown_in self.old) (entries EF.number delta.now) }
        ensures added { shown_in self.new
            ≡ with_added EF.ops (shown_in self.old) (entries EF.number delta.now)
            (EF.number sum_delta) }
        ensures settled { held_in self.new ≡ None }
    {
        self.settle();
        self.poly.add_weights(delta);
        self.sum = self.sum.add(sum_delta);
    }

    // Multiplies the weights and the claim by a value.
    pub(crate) fn scale(&mut self, scale: EF)
        ensures scaled { shown_in self.new ≡ with_scaled EF.ops (shown_in self.old) (EF.number scale) }
        ensures settled { held_in self.new ≡ None }
    {
        self.settle();
        self.poly.scale_weights(scale);
        self.sum = self.sum.mul(scale);
    }

    // Adds the batch of a true constraint to the weights and to the claim.
    pub(crate) fn take_in(&mut self, alloc: Global, constraint: &Constraint<F, EF>)
        requires { IsTrueConstraint EF.ops (shown_in self.old)
            (stated (λ x. EF.embedding (F.number x)) EF.number constraint.now) }
        ensures taken { shown_in self.new
            ≡ with_taken EF.ops (shown_in self.old)
            (Some (stated (λ x. EF.embedding (F.number x)) EF.number constraint.now)) }
        ensures settled { held_in self.new ≡ None }
    {
        self.settle();
        self.poly.combine(alloc, &mut self.sum, constraint).unwrap();
    }

    // Plays a round: appends the message of the tables to the data, and holds the challenge that is
    // drawn. Only the images of the two values and of the challenge are in the transcript, whose
    // field the entries' field represents.
    //
    // The refusals are those of `SumcheckData::observe_and_sample`, and leave what is shown, and
    // the data, as they were.
    pub(crate) fn round<G: Field, EG: ExtensionField<G>, C: Challenger<G>>(
        &mut self,
        sumcheck_data: &mut SumcheckData<G, EG>,
        transcript: &mut ProverTranscript<'_, C, G, EG>,
    ) -> Result<EG, SumcheckError>
    where
        EF: IntoTranscriptField<EG>,
        requires variables { 0 < (shown_in self.old).variables }
        requires left { HasRoundLeft (driver_in transcript.old) }
        ensures continues { Continues (driver_in transcript.old) (driver_in transcript.new) }
        ensures form { KeepsForm (shown_in self.old) (shown_in self.new) }
        ensures counts { CountsOne (driver_in transcript.old) (driver_in transcript.new) result }
        ensures round { Moves EG.number
            (setting_over EG.extension EG.ops (shown_in self.old) transcript.old)
            (prover_state_over EG.number
            (image_in EF.to_number self.old) transcript.old sumcheck_data.old)
            (prover_state_over EG.number
            (image_in EF.to_number self.new) transcript.new sumcheck_data.new)
            (driver_in transcript.old).played result }
        ensures kept { OnErr result (shown_in self.new ≡ shown_in self.old) }
        ensures holds { IfOk result
            (λ r. Holds (image_in EF.to_number self.old) (EG.number r)
            (image_stored_in EF.to_number self.new)) }
    {
        let message = self.measure();
        let c_a = message.c_a.into_transcript();
        let c_inf = message.c_inf.into_transcript();
        let drawn = match sumcheck_data.observe_and_sample(transcript, c_a, c_inf) {
            Ok(drawn) => drawn,
            Err(error) => return Err(error),
        };
        self.bind(message, EF::from_element(drawn));
        Ok(drawn)
    }

    // Plays so many rounds of a transcript as it has left, and appends their challenges to those of
    // the rounds before them, in a list that has room for all. It says what that leaves of all
    // these rounds, from wherever they began.
    pub(crate) fn play<G: Field, EG: ExtensionField<G>, C: Challenger<G>>(
        &mut self,
        sumcheck_data: &mut SumcheckData<G, EG>,
        transcript: &mut ProverTranscript<'_, C, G, EG>,
        challenges: &mut Vec<EG>,
    ) -> Result<(), SumcheckError>
    where
        EF: IntoTranscriptField<EG>,
        requires variables { (driver_in transcript.old).shape.num_rounds ≤
            (shown_in self.old).variables + (driver_in transcript.old).played }
        requires begun { (driver_in transcript.old).played ≤
            (driver_in transcript.old).shape.num_rounds }
        requires count { vec_len challenges.old ≡ (driver_in transcript.old).played }
        requires room { (driver_in transcript.old).shape.num_rounds ≤ vec_capacity challenges.old }
        ensures continues { Continues (driver_in transcript.old) (driver_in transcript.new) }
        ensures form { KeepsForm (shown_in self.old) (shown_in self.new) }
        ensures left { (shown_in self.new).variables + (driver_in transcript.new).played
            ≡ (shown_in self.old).variables + (driver_in transcript.old).played }
        ensures rounds { GoesOn
            (course_over EG.extension EG.ops EG.number
            (image_in EF.to_number self.old) transcript.old sumcheck_data.old challenges.old.items)
            (course_over EG.extension EG.ops EG.number
            (image_in EF.to_number self.new) transcript.new sumcheck_data.new challenges.new.items)
            (driver_in transcript.new) result }
        ensures holds { IfOk result (λ _. HoldsIfMore
            (course_over EG.extension EG.ops EG.number
            (image_in EF.to_number self.old) transcript.old sumcheck_data.old challenges.old.items)
            (image_stored_in EF.to_number self.old) (map EG.number challenges.new.items) (image_stored_in EF.to_number self.new)) }
    {
        for _round in challenges.len()..transcript.shape().num_rounds {
            match self.round::<G, EG, C>(sumcheck_data, transcript) {
                Ok(r) => challenges.push_reserved(r),
                Err(error) => return Err(error),
            }
        }
        Ok(())
    }

    // Seeds a transcript and plays a batch of so many rounds in it, as `play`, whose challenges it
    // answers.
    pub(crate) fn play_batch<G: Field, EG: ExtensionField<G>, C: Challenger<G>>(
        &mut self,
        alloc: Global,
        sumcheck_data: &mut SumcheckData<G, EG>,
        challenger: &mut C,
        rounds: usize,
        pow_bits: usize,
    ) -> Result<Point<EG>, SumcheckError>
    where
        EF: IntoTranscriptField<EG>,
        requires variables { rounds ≤ (shown_in self.old).variables }
        requires difficulty { pow_bits ≤ (C.party challenger.old).rules.max_bits }
        ensures rules { (C.party challenger.new).rules ≡ (C.party challenger.old).rules }
        ensures form { KeepsForm (shown_in self.old) (shown_in self.new) }
        ensures batch { LeavesBatch (map EG.number)
            (batch_asked (channel_by (C.party challenger.old) EG.extension G.ops.size pow_bits)
            EG.ops (image_in EF.to_number self.old) (C.party challenger.old)
            (wire_in G.number EG.number sumcheck_data.old) EG.DEGREE rounds)
            (prover_state_at (image_in EF.to_number self.new) (C.party challenger.new).history
            (wire_in G.number EG.number sumcheck_data.new)) result }
        ensures holds { IfOk result (λ rs. HoldsBatch
            (batch_asked (channel_by (C.party challenger.old) EG.extension G.ops.size pow_bits)
            EG.ops (image_in EF.to_number self.old) (C.party challenger.old)
            (wire_in G.number EG.number sumcheck_data.old) EG.DEGREE rounds)
            (image_stored_in EF.to_number self.old) (map EG.number rs) (image_stored_in EF.to_number self.new)) }
    {
        let shape = SumcheckShape::new(rounds, pow_bits, self.poly.basis());
        let mut challenges = with_room(alloc, rounds)?;
        shape.seed::<G, EG, C>(alloc, challenger)?;
        let mut transcript = ProverTranscript::over(challenger, shape);
        match self.play::<G, EG, C>(sumcheck_data, &mut transcript, &mut challenges) {
            Ok(()) => {
                transcript.finish();
                Ok(Point::new(challenges))
            }
            Err(error) => {
                transcript.abort();
                Err(error)
            }
        }
    }
}
