//! All rounds on tables with weights, played in a transcript.
ghost use Rattle.std.specs.Prelude.{◌≡◌, ◌<◌, ◌≤◌, [], map, vec_capacity, OnOk};
ghost use Rattle.sc_challenger.specs.Parties.{channel_by};
ghost use Rattle.sc_transcript.specs.Batches.{CountsOne};
ghost use Rattle.sc_transcript.specs.Drivers.{channel_of, Continues, HasRoundLeft, IsDone};
ghost use Rattle.sc_transcript.specs.Transcripts.{driver_in};
ghost use Rattle.sc_merged.specs.MergedViews.{left_in};
ghost use Rattle.sc_merged.specs.MergedPlays.{
  prover_state_in,
  LeavesRound,
  LeaveRounds,
  LeavesPlay,
};

use crate::tables::MergedTables;
use sc_challenger::Challenger;
use sc_field::{ExtensionField, Field, with_room};
use sc_table::{Basis, Point};
use sc_transcript::{ProverTranscript, SumcheckData, SumcheckError, SumcheckShape};
use std::alloc::Global;

impl<EF: Field> MergedTables<EF> {
    /// Plays all rounds, one for each variable that is left, at a difficulty of at most the
    /// challenger's [`Challenger::max_bits`], and answers their challenges in drawing order. Each
    /// round sends the message of the tables, appends it to the data, and binds all tables.
    ///
    /// [`SumcheckError::NoWitness`] names the round in which the difficulty is positive and no
    /// element of the base field passes; the history then ends with that round's message, and the
    /// tables are bound at the challenges before it. After [`SumcheckError::NoMemory`] all is as it
    /// was, or some of the rounds are played, from the first one on. No other refusal comes.
    pub fn play<F: Field, C: Challenger<F>>(
        &mut self,
        alloc: Global,
        sumcheck_data: &mut SumcheckData<F, EF>,
        challenger: &mut C,
        pow_bits: usize,
    ) -> Result<Point<EF>, SumcheckError>
    where
        EF: ExtensionField<F>,
        requires { pow_bits ≤ (C.party challenger.old).rules.max_bits }
        ensures rules { (C.party challenger.new).rules ≡ (C.party challenger.old).rules }
        ensures left { LeavesPlay (map EF.number) EF.ops
            (channel_by (C.party challenger.old) EF.extension F.ops.size pow_bits)
            (prover_state_in F.number EF.number self.old sumcheck_data.old
            (C.party challenger.old).history)
            (prover_state_in F.number EF.number self.new sumcheck_data.new
            (C.party challenger.new).history) result }
    {
        play_batch(alloc, self, sumcheck_data, challenger, pow_bits)
    }
}

// Seeds a transcript, and plays all rounds in it.
fn play_batch<F: Field, EF: ExtensionField<F>, C: Challenger<F>>(
    alloc: Global,
    tables: &mut MergedTables<EF>,
    sumcheck_data: &mut SumcheckData<F, EF>,
    challenger: &mut C,
    pow_bits: usize,
) -> Result<Point<EF>, SumcheckError>
    requires { pow_bits ≤ (C.party challenger.old).rules.max_bits }
    ensures rules { (C.party challenger.new).rules ≡ (C.party challenger.old).rules }
    ensures left { LeavesPlay (map EF.number) EF.ops
        (channel_by (C.party challenger.old) EF.extension F.ops.size pow_bits)
        (prover_state_in F.number EF.number tables.old sumcheck_data.old
        (C.party challenger.old).history)
        (prover_state_in F.number EF.number tables.new sumcheck_data.new
        (C.party challenger.new).history) result }
{
    let rounds = tables.num_variables();
    let shape = SumcheckShape::new(rounds, pow_bits, Basis::Evaluation);
    let mut challenges = with_room(alloc, rounds)?;
    shape.seed::<F, EF, C>(alloc, challenger)?;
    let mut transcript = ProverTranscript::over(challenger, shape);
    match play_rounds(tables, sumcheck_data, &mut transcript, &mut challenges) {
        Ok(()) => {
            transcript.finish();
            Ok(Point::new(challenges))
        }
        Err(error) => {
            transcript.abort();
            Err(error)
        }
    }
}

// Plays all rounds of a transcript, one for each variable, and appends their challenges to a list
// that has room for them.
fn play_rounds<F: Field, EF: ExtensionField<F>, C: Challenger<F>>(
    tables: &mut MergedTables<EF>,
    sumcheck_data: &mut SumcheckData<F, EF>,
    transcript: &mut ProverTranscript<'_, C, F, EF>,
    challenges: &mut Vec<EF>,
) -> Result<(), SumcheckError>
    requires variables { (driver_in transcript.old).shape.num_rounds ≡ left_in tables.old }
    requires none_played { (driver_in transcript.old).played ≡ 0 }
    requires empty { challenges.old.items ≡ [] }
    requires room { (driver_in transcript.old).shape.num_rounds ≤ vec_capacity challenges.old }
    ensures continues { Continues (driver_in transcript.old) (driver_in transcript.new) }
    ensures all { OnOk result (IsDone (driver_in transcript.new)) }
    ensures rounds { LeaveRounds EF.ops (channel_of EF.extension (driver_in transcript.old))
        (prover_state_in F.number EF.number tables.old sumcheck_data.old
        (driver_in transcript.old).history)
        (prover_state_in F.number EF.number tables.new sumcheck_data.new
        (driver_in transcript.new).history) (map EF.number challenges.new.items) result }
{
    for _round in 0..transcript.shape().num_rounds {
        match play_round(tables, sumcheck_data, transcript) {
            Ok(r) => challenges.push_reserved(r),
            Err(error) => return Err(error),
        }
    }
    Ok(())
}

// Plays the next round: sends the message of the tables, and binds them at the challenge.
fn play_round<F: Field, EF: ExtensionField<F>, C: Challenger<F>>(
    tables: &mut MergedTables<EF>,
    sumcheck_data: &mut SumcheckData<F, EF>,
    transcript: &mut ProverTranscript<'_, C, F, EF>,
) -> Result<EF, SumcheckError>
    requires variables { 0 < left_in tables.old }
    requires left { HasRoundLeft (driver_in transcript.old) }
    ensures continues { Continues (driver_in transcript.old) (driver_in transcript.new) }
    ensures counts { CountsOne (driver_in transcript.old) (driver_in transcript.new) result }
    ensures round { LeavesRound EF.number EF.ops
        (channel_of EF.extension (driver_in transcript.old))
        (prover_state_in F.number EF.number tables.old sumcheck_data.old
        (driver_in transcript.old).history)
        (prover_state_in F.number EF.number tables.new sumcheck_data.new
        (driver_in transcript.new).history) (driver_in transcript.old).played result }
{
    let message = tables.message();
    let r = match sumcheck_data.observe_and_sample(transcript, message.c_a, message.c_inf) {
        Ok(r) => r,
        Err(error) => return Err(error),
    };
    tables.bind(r);
    Ok(r)
}
