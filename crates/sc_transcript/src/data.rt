//! The data of a proof, and the verifier's replay of it.
ghost use Rattle.sc_challenger.specs.Parties.{channel_by};
ghost use Rattle.std.specs.Prelude.{◌≡◌, ◌≢◌, ◌↔◌, ◌⊎◌, ◌+◌, ◌<◌, ◌≤◌, [], ◌∷◌, Ok, Err, IfOk, IfErr, OnOk, OnErr, IsOk, IsSome, IsNone, IfSome, Some, length, map, vec_len};
ghost use Rattle.std.specs.List.{slice_get};
ghost use Rattle.std.specs.Option.{option_map_or};
ghost use Rattle.sc_definitions.specs.Rounds.{next_claim};
ghost use Rattle.sc_table.specs.Strategy.{basis_of};
ghost use Rattle.sc_transcript.specs.Shapes.{shape_of, pair_round};
ghost use Rattle.sc_transcript.specs.Causes.{cause_of};
ghost use Rattle.sc_transcript.specs.Drivers.{answer_as};
ghost use Rattle.sc_transcript.specs.Data.{rounds_of_data, wire_in, pair_replay};
ghost use Rattle.sc_transcript.specs.Replayed.{LeavesFrom, caller_state};

use crate::driver::RoundShape;
use crate::error::SumcheckError;
use crate::replay::{CameRounds, check_counts, replay};
use crate::rounds::witness_at;
use crate::transcript::{ProverTranscript, SumcheckShape};
use sc_challenger::Challenger;
use sc_field::{ExtensionField, Field, NoMemory, with_room};
use sc_table::{Basis, Point, RoundMessage};
use std::alloc::Global;

/// What a prover sends in the rounds of a sumcheck.
#[derive(Drop)]
pub struct SumcheckData<F, EF> {
    /// The two values of each round, the first round first.
    pub polynomial_evaluations: Vec<RoundMessage<EF>>,
    /// The witness of each round at a positive difficulty, and none without one.
    pub pow_witnesses: Vec<F>,
}

impl<F: Field, EF: ExtensionField<F>> SumcheckData<F, EF> {
    ghost use Rattle.sc_transcript.specs.Data.{spare_in};
    ghost use Rattle.sc_definitions.specs.Channels.{empty_wire};
    ghost use Rattle.sc_transcript.specs.Transcripts.{driver_in};
    ghost use Rattle.sc_transcript.specs.Drivers.{HasRoundLeft, PutsRound, RefusesRound, HasRoom};

    /// Data without rounds.
    pub fn new(alloc: Global) -> Self
        ensures { wire_in F.number EF.number result ≡ empty_wire }
    {
        SumcheckData {
            polynomial_evaluations: Vec::new(alloc),
            pow_witnesses: Vec::new(alloc),
        }
    }

    /// The two values of each round.
    pub fn polynomial_evaluations(&self) -> &[RoundMessage<EF>]
        ensures { result.now ≡ self.now.polynomial_evaluations.items }
    {
        &self.polynomial_evaluations
    }

    /// How many rounds there are.
    pub fn num_rounds(&self) -> usize
        ensures { result ≡ vec_len self.now.polynomial_evaluations }
    {
        self.polynomial_evaluations.len()
    }

    /// Makes room for this many more rounds. Room that was there stays, and where it was enough the answer is `Ok`. The rounds stay.
    pub fn reserve(&mut self, rounds: usize) -> Result<(), NoMemory>
        ensures kept { wire_in F.number EF.number self.new ≡ wire_in F.number EF.number self.old }
        ensures ok { OnOk result (rounds ≤ spare_in self.new) }
        ensures never_lowers { spare_in self.old ≤ spare_in self.new }
        ensures has_room { rounds ≤ spare_in self.old → IsOk result }
    {
        self.polynomial_evaluations.reserve(rounds)?;
        self.pow_witnesses.reserve(rounds)?;
        Ok(())
    }

    /// The same data, in memory of its own.
    pub fn copy(&self, alloc: Global) -> Result<Self, NoMemory>
        ensures { IfOk result (λ d. wire_in F.number EF.number d ≡ wire_in F.number EF.number self.now) }
    {
        Ok(SumcheckData {
            polynomial_evaluations: Vec::from_slice(alloc, &self.polynomial_evaluations)?,
            pow_witnesses: Vec::from_slice(alloc, &self.pow_witnesses)?,
        })
    }

    /// Plays a round of these values, appends it, and answers its challenge. What the values mean is the basis of the transcript's shape.
    ///
    /// The refusals are those of [`ProverTranscript::round`], and leave the data as it was. Where the data has room for a round and the challenger for
    /// its events, none of them is `NoMemory`, and the round takes no more room than that.
    pub fn observe_and_sample<C: Challenger<F>>(
        &mut self,
        transcript: &mut ProverTranscript<'_, C, F, EF>,
        c_a: EF,
        c_inf: EF,
    ) -> Result<EF, SumcheckError>
        requires { HasRoundLeft (driver_in transcript.old) }
        ensures puts { IfOk result (λ r. PutsRound EF.extension (driver_in transcript.old) (driver_in transcript.new) (EF.number c_a ∷ EF.number c_inf ∷ []) (EF.number r)
            (wire_in F.number EF.number self.old) (wire_in F.number EF.number self.new)) }
        ensures refused { IfErr result (λ e. RefusesRound EF.extension (driver_in transcript.old) (driver_in transcript.new) (EF.number c_a ∷ EF.number c_inf ∷ []) (cause_of e)) }
        ensures kept { OnErr result (wire_in F.number EF.number self.new ≡ wire_in F.number EF.number self.old) }
        ensures has_room { 1 ≤ spare_in self.old → HasRoom EF.DEGREE (driver_in transcript.old) → result ≢ Err SumcheckError.NoMemory }
        ensures room { OnOk result (spare_in self.old ≤ spare_in self.new + 1) }
        ensures room_kept { OnErr result (spare_in self.old ≤ spare_in self.new) }
    {
        self.reserve(1)?;
        let (challenge, witness) = transcript.round(c_a, c_inf)?;
        self.polynomial_evaluations
            .push_reserved(RoundMessage { c_a, c_inf });
        if let Some(witness) = witness {
            self.pow_witnesses.push_reserved(witness);
        }
        Ok(challenge)
    }

    /// Replays the rounds, as many as expected, at a difficulty of at most the challenger's [`Challenger::max_bits`], and answers their challenges in
    /// drawing order. Each round folds `claimed_sum` to the value of the sent polynomial at its challenge.
    ///
    /// `RoundCountMismatch` comes exactly where the data has another number of rounds, else `PowWitnessCountMismatch` exactly where it has not one witness
    /// a round at a positive difficulty and none without one; both before any event, and both leave everything as it was. `InvalidPowWitness` names the
    /// first round whose witness fails: the history ends with its test, and `claimed_sum` is folded as many times. After `NoMemory` the history is the
    /// old one followed by the events of some of the rounds, and `claimed_sum` is folded once for each of these.
    pub fn verify_rounds<C: Challenger<F>>(
        &self,
        alloc: Global,
        challenger: &mut C,
        claimed_sum: &mut EF,
        expected_rounds: usize,
        pow_bits: usize,
        basis: Basis,
    ) -> Result<Point<EF>, SumcheckError>
        requires { pow_bits ≤ (C.party challenger.old).rules.max_bits }
        ensures rules { (C.party challenger.new).rules ≡ (C.party challenger.old).rules }
        ensures left { LeavesFrom EF.number (pair_replay EF.ops (channel_by (C.party challenger.old) EF.extension F.ops.size pow_bits)
            EF.DEGREE (shape_of expected_rounds pow_bits basis) (wire_in F.number EF.number self.now))
            (caller_state (C.party challenger.old) claimed_sum.old) (caller_state (C.party challenger.new) claimed_sum.new)
            (answer_as (map EF.number) cause_of result) }
    {
        let shape = SumcheckShape::new(expected_rounds, pow_bits, basis);
        let batch = shape.batch();
        check_counts(
            batch,
            self.polynomial_evaluations.len(),
            self.pow_witnesses.len(),
        )?;
        // The room for the challenges is made first, so that its refusal leaves everything as it was.
        let challenges = with_room(alloc, expected_rounds)?;
        shape.seed::<F, EF, C>(alloc, challenger)?;
        let came = CameIn { data: self, basis };
        let drawn = replay::<F, EF, C, _>(&came, challenger, claimed_sum, batch, challenges)?;
        Ok(Point::new(drawn))
    }

    // The values of a round, and its witness if one came.
    fn round_at(&self, i: usize) -> (RoundMessage<EF>, Option<F>)
        requires { i < length (rounds_of_data F.number EF.number self.now) }
        ensures round { slice_get (rounds_of_data F.number EF.number self.now) i
            ≡ Some (pair_round (EF.number result.0.c_a) (EF.number result.0.c_inf) (option_map_or F.number result.1 0)) }
        ensures witness { i < vec_len self.now.pow_witnesses → IsSome result.1 }
    {
        (
            self.polynomial_evaluations[i],
            witness_at(&self.pow_witnesses, i),
        )
    }
}

// The rounds of data, as their replay reads them in a basis.
#[derive(Drop)]
struct CameIn<'a, F, EF> {
    data: &'a SumcheckData<F, EF>,
    basis: Basis,
}

impl<F: Field, EF: ExtensionField<F>> CameRounds<F, EF> for CameIn<'_, F, EF> {
    type Values = RoundMessage<EF>;

    ghost rounds = { λ s. rounds_of_data F.number EF.number s.data.now };

    ghost witnesses = { λ s. vec_len s.data.now.pow_witnesses };

    ghost width = { λ _. 2 };

    ghost next = { λ s. next_claim (basis_of s.basis) EF.ops };

    fn round_at(&self, i: usize) -> (RoundMessage<EF>, Option<F>) {
        self.data.round_at(i)
    }

    fn next_claim(&self, values: &RoundMessage<EF>, claim: EF, challenge: EF) -> EF {
        self.basis
            .reduce_claim(values.c_a, values.c_inf, challenge, claim)
    }
}

/// Replays the last rounds of a protocol, which may have none, and then may carry no data: for no rounds it answers an empty point, and reads neither the
/// data nor the challenger. `MissingSumcheckData` comes exactly where there are rounds and no data came, and leaves everything as it was; else it is
/// [`SumcheckData::verify_rounds`].
pub fn verify_final_sumcheck_rounds<F: Field, EF: ExtensionField<F>, C: Challenger<F>>(
    alloc: Global,
    final_sumcheck: Option<&SumcheckData<F, EF>>,
    challenger: &mut C,
    claimed_sum: &mut EF,
    rounds: usize,
    pow_bits: usize,
    basis: Basis,
) -> Result<Point<EF>, SumcheckError>
    requires { 0 < rounds → pow_bits ≤ (C.party challenger.old).rules.max_bits }
    ensures rules { (C.party challenger.new).rules ≡ (C.party challenger.old).rules }
    ensures none { rounds ≡ 0 → result ≡ Ok [] }
    ensures missing { result ≡ Err (SumcheckError.MissingSumcheckData rounds) ↔ ((0 < rounds) × IsNone final_sumcheck.entry) }
    ensures untouched { (rounds ≡ 0) ⊎ IsNone final_sumcheck.entry → ((C.party challenger.new).history ≡ (C.party challenger.old).history) × (claimed_sum.new ≡ claimed_sum.old) }
    ensures left { IfSome final_sumcheck.entry (λ d. 0 < rounds → LeavesFrom EF.number
        (pair_replay EF.ops (channel_by (C.party challenger.old) EF.extension F.ops.size pow_bits)
        EF.DEGREE (shape_of rounds pow_bits basis) (wire_in F.number EF.number d.now))
        (caller_state (C.party challenger.old) claimed_sum.old) (caller_state (C.party challenger.new) claimed_sum.new)
        (answer_as (map EF.number) cause_of result)) }
{
    if rounds == 0 {
        return Ok(Point::new(Vec::new(alloc)));
    }
    match final_sumcheck {
        None => Err(SumcheckError::MissingSumcheckData {
            expected_rounds: rounds,
        }),
        Some(found) => found.verify_rounds(alloc, challenger, claimed_sum, rounds, pow_bits, basis),
    }
}
