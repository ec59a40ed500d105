//! How rounds are built that begin on small values: the first ones are read off the grids of the
//! job's own table, and the others are played on what these leave of it.
ghost use Rattle.sc_audit.specs.Asked.{asked_for};
ghost use Rattle.std.specs.Prelude.{◌≡◌, ◌+◌, ◌≤◌, OnOk, length, map, vec_capacity};
ghost use Rattle.sc_definitions.specs.Problem.{Problem, claim_of};
ghost use Rattle.sc_table.specs.declared.strategy.Strategy.TheVariants.{SmallValue};
ghost use Rattle.sc_transcript.specs.Data.{wire_in};
ghost use Rattle.sc_transcript.specs.Drivers.{Continues};
ghost use Rattle.sc_transcript.specs.Transcripts.{driver_in};
ghost use Rattle.sc_rounds.specs.Products.{variables_in, sum_in};
ghost use Rattle.sc_rounds.specs.Provers.{shown_of};
ghost use Rattle.sc_rounds.specs.HeldProducts.{course_over};
ghost use Rattle.sc_transcript.specs.Batches.{GoesOn};
ghost use Rattle.sc_rounds.specs.ProverStates.{prover_state_in, prover_state_on};
ghost use Rattle.sc_svo.specs.Batches.{batch_in};
ghost use Rattle.sc_jobs.specs.Cases.{build};
ghost use Rattle.sc_jobs.specs.Fitting.{job_in, stated_in, AllTrue, IsAllowed};
ghost use Rattle.sc_audit.specs.Built.{LeavesBuild};
ghost use Rattle.sc_audit.specs.SmallRounds.{
  play_for,
  HasPlayed,
  LeavesDrawn,
  LeavesPlayed,
  rounds_for,
  LeavesRounds,
};
ghost use Rattle.sc_jobs.specs.Taken.{IsBatchOf};

use crate::common::refusal;
use crate::strategies::Built;
use sc_audit_errors::AuditError;
use sc_challenger::Challenger;
use sc_field::{ExtensionField, Field, with_room};
use sc_jobs::FittingJob;
use sc_rounds::{ProductPolynomial, ProverTranscript, SumcheckData, SumcheckError, SumcheckShape};
use sc_svo::SvoBatch;
use sc_table::{Basis, Point};
use std::alloc::Global;

// Builds the rounds of a job whose statements are true, in the transcript of a copy of the
// challenger. The first rounds are read off the grids of the job's batch.
pub(crate) fn small_value<F: Field, EF: ExtensionField<F>, C: Challenger<F>>(
    alloc: Global,
    fitting: &FittingJob<'_, F, EF>,
    batch: SvoBatch<F, EF>,
    challenger: &C,
) -> Result<Built<F, EF>, AuditError>
    requires difficulty { IsAllowed fitting.now (C.party challenger.now).rules }
    requires all_true { AllTrue fitting.now }
    requires batch { IsBatchOf EF.ops (stated_in fitting.now) (batch_in batch) }
    ensures { LeavesBuild F.number EF.number
        (asked_for (job_in fitting.now) (build (SmallValue (length (batch_in batch).grids)))
        (C.party challenger.now)) result }
{
    let mut claim = EF::ZERO;
    fitting.job.constraint.combine_evals(&mut claim);
    let mut copied = challenger.copy(alloc)?;
    let mut rounds = SumcheckData::new(alloc);
    let mut sum = claim;
    let (left, challenges) = match play_all(
        alloc,
        fitting,
        &batch,
        &mut rounds,
        &mut copied,
        &mut sum,
    ) {
        Ok(played) => played,
        Err(error) => return Err(refusal(error)),
    };
    let weight = left.weights(alloc)?.as_slice()[0];
    let eval = left.evals_view()[0];
    Ok(Built {
        claim,
        rounds,
        challenges,
        eval,
        weight,
        grids: batch.into_grids(),
    })
}

// Seeds a transcript and plays all rounds of a job in it: what is left of the table and of the
// weights, and the challenges. The claim is moved along the rounds.
fn play_all<F: Field, EF: ExtensionField<F>, C: Challenger<F>>(
    alloc: Global,
    fitting: &FittingJob<'_, F, EF>,
    batch: &SvoBatch<F, EF>,
    sumcheck_data: &mut SumcheckData<F, EF>,
    challenger: &mut C,
    sum: &mut EF,
) -> Result<(ProductPolynomial<F, EF>, Point<EF>), SumcheckError>
    requires batch { IsBatchOf EF.ops (stated_in fitting.now) (batch_in batch.now) }
    requires claim { EF.number sum.old ≡ claim_of EF.ops (stated_in fitting.now) }
    requires all_true { AllTrue fitting.now }
    requires difficulty { IsAllowed fitting.now (C.party challenger.old).rules }
    ensures { LeavesRounds
        (rounds_for (job_in fitting.now) (wire_in F.number EF.number sumcheck_data.old)
        (C.party challenger.old))
        (λ p. prover_state_in EF.number p.0 sum.new (C.party challenger.new).history
        (wire_in F.number EF.number sumcheck_data.new)) (λ p. map EF.number p.1)
        (C.party challenger.new).history (wire_in F.number EF.number sumcheck_data.new) result }
{
    let variables = fitting.job.constraint.num_variables();
    let shape = SumcheckShape::new(variables, fitting.job.pow_bits, fitting.job.basis);
    let mut challenges = with_room(alloc, variables)?;
    shape.seed::<F, EF, C>(alloc, challenger)?;
    let mut transcript = ProverTranscript::over(challenger, shape);
    match play(
        alloc,
        fitting,
        batch,
        sumcheck_data,
        &mut transcript,
        sum,
        &mut challenges,
    ) {
        Ok(left) => {
            transcript.finish();
            Ok((left, Point::new(challenges)))
        }
        Err(error) => {
            transcript.abort();
            Err(error)
        }
    }
}

// Plays all rounds of a transcript, which has one for each variable, and appends their challenges
// to a list that has room for them.
fn play<F: Field, EF: ExtensionField<F>, C: Challenger<F>>(
    alloc: Global,
    fitting: &FittingJob<'_, F, EF>,
    batch: &SvoBatch<F, EF>,
    sumcheck_data: &mut SumcheckData<F, EF>,
    transcript: &mut ProverTranscript<'_, C, F, EF>,
    sum: &mut EF,
    challenges: &mut Vec<EF>,
) -> Result<ProductPolynomial<F, EF>, SumcheckError>
    requires batch { IsBatchOf EF.ops (stated_in fitting.now) (batch_in batch.now) }
    requires claim { EF.number sum.old ≡ claim_of EF.ops (stated_in fitting.now) }
    requires all_true { AllTrue fitting.now }
    requires rounds { (driver_in transcript.old).shape.num_rounds
        ≡ (stated_in fitting.now).variables }
    requires fresh { HasPlayed 0 (driver_in transcript.old) challenges.old.items
        (vec_capacity challenges.old) }
    ensures continues { Continues (driver_in transcript.old) (driver_in transcript.new) }
    ensures played { LeavesPlayed
        (play_for EF.extension EF.number EF.ops (stated_in fitting.now)
        transcript.old sumcheck_data.old)
        (λ p. prover_state_on EF.number EF.number p sum.new transcript.new sumcheck_data.new)
        (map EF.number challenges.new.items) (driver_in transcript.new)
        (wire_in F.number EF.number sumcheck_data.new) result }
{
    play_small(alloc, batch, sumcheck_data, transcript, sum, challenges)?;
    let (evals, weights) = batch.residual_slice(alloc, &fitting.job.table, challenges.as_slice())?;
    let mut left = ProductPolynomial::new_unpacked(fitting.job.order, evals, weights);
    play_rest(&mut left, sumcheck_data, transcript, sum, challenges)?;
    Ok(left)
}

// Plays the small-value rounds of a transcript of which no round was played: each sends what is
// read off its grid. There is room for their challenges.
fn play_small<F: Field, EF: ExtensionField<F>, C: Challenger<F>>(
    alloc: Global,
    batch: &SvoBatch<F, EF>,
    sumcheck_data: &mut SumcheckData<F, EF>,
    transcript: &mut ProverTranscript<'_, C, F, EF>,
    sum: &mut EF,
    challenges: &mut Vec<EF>,
) -> Result<(), SumcheckError>
    requires within { length (batch_in batch.now).grids
        ≤ (driver_in transcript.old).shape.num_rounds }
    requires fresh { HasPlayed 0 (driver_in transcript.old) challenges.old.items
        (vec_capacity challenges.old) }
    ensures continues { Continues (driver_in transcript.old) (driver_in transcript.new) }
    ensures counts { OnOk result (HasPlayed (length (batch_in batch.now).grids)
        (driver_in transcript.new) challenges.new.items (vec_capacity challenges.new)) }

    // They are the first rounds of each problem that has this batch and this claim.
    ensures drawn { (p : Problem) → IsBatchOf EF.ops p (batch_in batch.now) →
        EF.number sum.old ≡ claim_of EF.ops p → LeavesDrawn
        (play_for EF.extension EF.number EF.ops p transcript.old sumcheck_data.old)
        (map EF.number challenges.new.items) (EF.number sum.new) (driver_in transcript.new)
        (wire_in F.number EF.number sumcheck_data.new) result }
{
    for _round in 0..batch.grids().rounds.len() {
        let message = batch.round_coefficients(alloc, challenges.as_slice())?;
        let r = sumcheck_data.observe_and_sample(transcript, message.c_a, message.c_inf)?;
        *sum = Basis::Evaluation.reduce_claim(message.c_a, message.c_inf, r, *sum);
        challenges.push_reserved(r);
    }
    Ok(())
}

// Plays so many rounds of a transcript as it has left on what is left of two tables, as many as
// there are variables, and appends their challenges to those of the rounds before them, in a list
// that has room for all. It says what that leaves of all these rounds, from wherever they began.
fn play_rest<F: Field, EF: ExtensionField<F>, C: Challenger<F>>(
    left: &mut ProductPolynomial<F, EF>,
    sumcheck_data: &mut SumcheckData<F, EF>,
    transcript: &mut ProverTranscript<'_, C, F, EF>,
    sum: &mut EF,
    challenges: &mut Vec<EF>,
) -> Result<(), SumcheckError>
    requires variables { (driver_in transcript.old).shape.num_rounds
        ≡ variables_in left.old + (driver_in transcript.old).played }
    requires sum { EF.number sum.old ≡ sum_in EF.ops EF.number left.old }
    requires begun { HasPlayed (driver_in transcript.old).played (driver_in transcript.old)
        challenges.old.items (vec_capacity challenges.old) }
    ensures continues { Continues (driver_in transcript.old) (driver_in transcript.new) }
    ensures left { variables_in left.new + (driver_in transcript.new).played
        ≡ variables_in left.old + (driver_in transcript.old).played }
    ensures rounds { GoesOn
        (course_over EF.extension EF.ops EF.number (shown_of EF.number left.old sum.old)
        transcript.old sumcheck_data.old challenges.old.items)
        (course_over EF.extension EF.ops EF.number (shown_of EF.number left.new sum.new)
        transcript.new sumcheck_data.new challenges.new.items)
        (driver_in transcript.new) result }
{
    for _round in challenges.len()..transcript.shape().num_rounds {
        match left.round(sumcheck_data, transcript, sum) {
            Ok(r) => challenges.push_reserved(r),
            Err(error) => return Err(error),
        }
    }
    Ok(())
}
