//! Rounds under way, whatever they send: how one is played, and how one that came is taken. Every
//! driver of a protocol plays its rounds by these.
ghost use Rattle.std.specs.Prelude.{◌≡◌, ◌+◌, ◌-◌, ◌*◌, ◌<◌, ◌≤◌, ◌^◌, [], ◌∷◌, ◌++◌, ℕ, List, None, length, map};
ghost use Rattle.std.specs.Prelude.{slice_index_or, IfOk, OnOk, OnErr, IsOk, IfSome, IsSome, Some, true, false};
ghost use Rattle.std.specs.Option.{option_map_or};
ghost use Rattle.sc_definitions.specs.declared.events.Event.{Event};
ghost use Rattle.sc_definitions.specs.Transcript.{sent, witness_events, round_of};
ghost use Rattle.sc_transcript.specs.Rounds.{events_of, LeavesFound, LeavesTested, LeavesSent, LeavesTaken};
ghost use Rattle.sc_challenger.specs.Parties.{Appends, Keeps, channel_by};

use crate::error::RoundError;
use sc_challenger::{Challenger, GrindError, grind, observe_ext, sample_ext};
use sc_field::{ExtensionField, Field, NoMemory};
use sc_table::RoundMessage;

/// The numbers that the rounds of a batch go by.
#[derive(Clone, Copy, Debug, PartialEq, Eq)]
pub struct BatchShape {
    /// How many rounds the batch has.
    pub num_rounds: usize,
    /// How many values each of them sends.
    pub width: usize,
    /// The difficulty of each round's test in bits, or 0 for no test.
    pub pow_bits: usize,
}

// Why the witness of a round is not taken.
#[derive(Clone, Copy)]
enum WitnessError {
    // The round has a test, and no witness came.
    Missing,
    // The witness fails the round's test.
    Invalid,
}

/// What a round sends, as its driver reads it: several values in order.
pub trait RoundValues<EF: Field> {
    // The values.
    ghost list: { Self → List EF };

    /// How many there are.
    fn count(&self) -> usize
        ensures { result ≡ length (list self.now) };

    /// One of them.
    fn at(&self, i: usize) -> EF
        requires { i < length (list self.now) }
        ensures { result ≡ slice_index_or (list self.now) i result };
}

impl<EF: Field> RoundValues<EF> for &[EF] {
    ghost list = { λ s. s.now };

    fn count(&self) -> usize {
        self.len()
    }

    fn at(&self, i: usize) -> EF {
        self[i]
    }
}

impl<EF: Field> RoundValues<EF> for RoundMessage<EF> {
    ghost list = { λ m. m.c_a ∷ m.c_inf ∷ [] };

    fn count(&self) -> usize {
        2
    }

    fn at(&self, i: usize) -> EF {
        if i == 0 { self.c_a } else { self.c_inf }
    }
}

/// The rounds of a batch under way, which a driver holds beside its challenger: the batch's
/// numbers, what the protocol keeps with them as its kind, and how many rounds were played. They
/// are played over the challenger that is passed, of which the difficulty is at most its
/// [`Challenger::max_bits`].
#[derive(Clone, Copy)]
pub struct Rounds<K> {
    shape: BatchShape,
    kind: K,
    // how many were played
    played: usize,
}

impl<K: Copy> Rounds<K> {
    ghost use Rattle.sc_transcript.specs.Drivers.{driver_at, answer_as, IsUnplayed, PlaysOrRefuses, TakesOrRejects};

    /// Those of a batch of which none was played.
    pub fn new(shape: BatchShape, kind: K) -> Self
        ensures { IsUnplayed shape kind result }
    {
        Rounds {
            shape,
            kind,
            played: 0,
        }
    }

    /// Plays a round: absorbs the values, at a positive difficulty appends the first witness that
    /// passes and its test, and draws the challenge.
    ///
    /// `NoWitness` comes exactly where the difficulty is positive and no element of the base field
    /// passes; the history then ends with the values. After `NoMemory` the history is as it was.
    /// After either the round is still to be played. Of fewer than 2^32 values a round, `NoMemory`
    /// comes only where the challenger has no room for its events.
    pub fn play<F: Field, EF: ExtensionField<F>, C: Challenger<F>, V: RoundValues<EF>>(
        &mut self,
        challenger: &mut C,
        values: &V,
    ) -> Result<(EF, Option<F>), RoundError>
        requires difficulty { self.old.shape.pow_bits ≤ (C.party challenger.old).rules.max_bits }
        requires left { self.old.played < self.old.shape.num_rounds }
        requires width { length (V.list values.now) ≡ self.old.shape.width }
        ensures { PlaysOrRefuses F.number EF.extension
            (driver_at C.party F.ops.size challenger.entry self.old)
            (driver_at C.party F.ops.size challenger.exit self.new)
            (map EF.number (V.list values.now)) (answer_as (λ x. (EF.number x.0, x.1)) (λ e. Some e) result) }
    {
        prove!(self.played < self.shape.num_rounds);
        let pow_bits = self.shape.pow_bits;
        make_room::<F, EF, C>(challenger, self.shape.width, pow_bits)?;
        observe_values::<F, EF, C, V>(challenger, values);
        let Some(sent) = send_rest::<F, EF, C>(challenger, pow_bits) else {
            return Err(RoundError::NoWitness { round: self.played });
        };
        self.played += 1;
        Ok(sent)
    }

    /// Takes a round that came: absorbs the values, at a positive difficulty tests the witness, and
    /// draws the challenge. At difficulty 0 a witness is ignored.
    ///
    /// `WrongWidth` comes exactly where there are more or fewer values than a round sends, before
    /// any event, and leaves the history as it was. `MissingWitness` comes exactly where the
    /// difficulty is positive and no witness came; the history then ends with the values.
    /// `InvalidWitness` comes exactly where the witness fails; the history then ends with its word
    /// and its test. After `NoMemory`, which comes as it does from [`Rounds::play`], the history is
    /// as it was. After each of them the round is still to be taken.
    pub fn take<F: Field, EF: ExtensionField<F>, C: Challenger<F>, V: RoundValues<EF>>(
        &mut self,
        challenger: &mut C,
        values: &V,
        witness: Option<F>,
    ) -> Result<EF, RoundError>
        requires difficulty { self.old.shape.pow_bits ≤ (C.party challenger.old).rules.max_bits }
        requires left { self.old.played < self.old.shape.num_rounds }
        ensures { TakesOrRejects F.number EF.extension
            (driver_at C.party F.ops.size challenger.entry self.old)
            (driver_at C.party F.ops.size challenger.exit self.new)
            (map EF.number (V.list values.now)) witness (answer_as EF.number (λ e. Some e) result) }
    {
        prove!(self.played < self.shape.num_rounds);
        let round = self.played;
        let BatchShape {
            num_rounds: _,
            width,
            pow_bits,
        } = self.shape;
        if values.count() != width {
            return Err(RoundError::WrongWidth {
                round,
                expected: width,
                actual: values.count(),
            });
        }
        make_room::<F, EF, C>(challenger, width, pow_bits)?;
        observe_values::<F, EF, C, V>(challenger, values);
        match take_rest::<F, EF, C>(challenger, witness, pow_bits) {
            Ok(challenge) => {
                self.played += 1;
                Ok(challenge)
            }
            Err(WitnessError::Missing) => Err(RoundError::MissingWitness {
                round,
                difficulty: pow_bits,
            }),
            Err(WitnessError::Invalid) => Err(RoundError::InvalidWitness {
                round,
                difficulty: pow_bits,
            }),
        }
    }

    /// What the protocol keeps with the batch.
    pub fn kind(&self) -> K
        ensures { result ≡ self.now.kind }
    {
        self.kind
    }

    /// How many rounds are still to be played.
    pub fn left(&self) -> usize
        requires { self.now.played ≤ self.now.shape.num_rounds }
        ensures { result ≡ self.now.shape.num_rounds - self.now.played }
    {
        self.shape.num_rounds - self.played
    }
}

// Makes room for the events of a round that sends so many values. More events than can be counted
// are never asked for.
fn make_room<F: Field, EF: ExtensionField<F>, C: Challenger<F>>(
    challenger: &mut C,
    values: usize,
    pow_bits: usize,
) -> Result<(), NoMemory>
    ensures kept { Keeps (C.party challenger.old) (C.party challenger.new) }
    ensures ok { OnOk result (events_of EF.DEGREE values pow_bits ≤ (C.party challenger.new).spare) }
    ensures has_room { values < 2 ^ 32 → events_of EF.DEGREE values pow_bits ≤ (C.party challenger.old).spare → IsOk result }
{
    let Some(events) = events_in_round(EF::DEGREE, values, pow_bits) else {
        return Err(NoMemory);
    };
    challenger.reserve(events)
}

// How many events a round appends that sends so many values of an extension of a degree, where a
// `usize` holds that many: it does for fewer than 2^32 values of a degree of at most 8.
fn events_in_round(degree: usize, values: usize, pow_bits: usize) -> Option<usize>
    ensures number { IfSome result (λ n. n ≡ events_of degree values pow_bits) }
    ensures some { degree ≤ 8 → values < 2 ^ 32 → IsSome result }
{
    let words = values.checked_add(1)?.checked_mul(degree)?;
    if pow_bits == 0 {
        Some(words)
    } else {
        words.checked_add(2)
    }
}

/// Absorbs values in order, each part after part. There is room for them, as
/// [`Challenger::reserve`] makes it, and no more is taken.
pub fn observe_values<F: Field, EF: ExtensionField<F>, C: Challenger<F>, V: RoundValues<EF>>(
    challenger: &mut C,
    values: &V,
)
    requires { length (V.list values.now) * EF.DEGREE ≤ (C.party challenger.old).spare }
    ensures { Appends (sent EF.extension (map EF.number (V.list values.now))) (length (V.list values.now) * EF.DEGREE)
        (C.party challenger.old) (C.party challenger.new) }
{
    for i in 0..values.count() {
        observe_ext::<F, EF, C>(challenger, values.at(i)).unwrap();
    }
}

// Ends a round whose values were absorbed: at a positive difficulty appends the first witness that
// passes and its test, and draws the challenge. There is room for these events, and no more is
// taken. The difficulty is at most the challenger's `max_bits`.
//
// The answer is the challenge and the witness, or none exactly where the difficulty is positive and
// no element of the base field passes; the history then ends with the values.
fn send_rest<F: Field, EF: ExtensionField<F>, C: Challenger<F>>(
    challenger: &mut C,
    pow_bits: usize,
) -> Option<(EF, Option<F>)>
    requires difficulty { pow_bits ≤ (C.party challenger.old).rules.max_bits }
    requires room { EF.DEGREE + length (witness_events pow_bits 0) ≤ (C.party challenger.old).spare }
    ensures rules { (C.party challenger.new).rules ≡ (C.party challenger.old).rules }
    ensures sent { (h : List Event) (values : List ℕ) → (C.party challenger.old).history ≡ h ++ sent EF.extension values
        → LeavesSent F.number EF.number (channel_by (C.party challenger.old) EF.extension F.ops.size pow_bits) h values result (C.party challenger.new).history }
    ensures spare { IsSome result → (C.party challenger.old).spare ≤ (C.party challenger.new).spare + (EF.DEGREE + length (witness_events pow_bits 0)) }
{
    let Ok(witness) = append_witness::<F, C>(challenger, pow_bits) else {
        return None;
    };
    let challenge = sample_ext::<F, EF, C>(challenger).unwrap();
    Some((challenge, witness))
}

// Ends a round that came and whose values were absorbed: at a positive difficulty tests the
// witness, and draws the challenge. At difficulty 0 a witness is ignored. There is room for these
// events, and no more is taken. The difficulty is at most the challenger's `max_bits`.
//
// `Missing` comes exactly where the difficulty is positive and no witness came; the history then
// ends with the values. `Invalid` comes exactly where the witness fails; the history then ends with
// its word and its test.
fn take_rest<F: Field, EF: ExtensionField<F>, C: Challenger<F>>(
    challenger: &mut C,
    witness: Option<F>,
    pow_bits: usize,
) -> Result<EF, WitnessError>
    requires difficulty { pow_bits ≤ (C.party challenger.old).rules.max_bits }
    requires room { EF.DEGREE + length (witness_events pow_bits 0) ≤ (C.party challenger.old).spare }
    ensures rules { (C.party challenger.new).rules ≡ (C.party challenger.old).rules }
    ensures taken { (h : List Event) (values : List ℕ) → (C.party challenger.old).history ≡ h ++ sent EF.extension values
        → LeavesTaken EF.number (channel_by (C.party challenger.old) EF.extension F.ops.size pow_bits) h
        (round_of values (option_map_or F.number witness 0)) witness result (C.party challenger.new).history }
    ensures spare { (C.party challenger.old).spare ≤ (C.party challenger.new).spare + (EF.DEGREE + length (witness_events pow_bits 0)) }
{
    test_witness::<F, C>(challenger, pow_bits, witness)?;
    Ok(sample_ext::<F, EF, C>(challenger).unwrap())
}

// At a positive difficulty the first witness that passes, appended with its test; at difficulty 0
// no witness. There is room for both events.
fn append_witness<F: Field, C: Challenger<F>>(
    challenger: &mut C,
    pow_bits: usize,
) -> Result<Option<F>, GrindError>
    requires at_most { pow_bits ≤ (C.party challenger.old).rules.max_bits }
    requires room { 0 < pow_bits → 2 ≤ (C.party challenger.old).spare }
    ensures rules { (C.party challenger.new).rules ≡ (C.party challenger.old).rules }
    ensures left { LeavesFound F.number (C.party challenger.old).rules F.ops.size pow_bits (C.party challenger.old).history result (C.party challenger.new).history }
    ensures spare { (C.party challenger.old).spare ≤ (C.party challenger.new).spare + length (witness_events pow_bits 0) }
{
    if pow_bits == 0 {
        return Ok(None);
    }
    let witness = grind::<F, C>(challenger, pow_bits)?;
    Ok(Some(witness))
}

// At a positive difficulty tests a witness that came, and appends it with its test. There is room
// for both events.
fn test_witness<F: Field, C: Challenger<F>>(
    challenger: &mut C,
    pow_bits: usize,
    witness: Option<F>,
) -> Result<(), WitnessError>
    requires at_most { pow_bits ≤ (C.party challenger.old).rules.max_bits }
    requires room { 0 < pow_bits → 2 ≤ (C.party challenger.old).spare }
    ensures rules { (C.party challenger.new).rules ≡ (C.party challenger.old).rules }
    ensures left { LeavesTested F.number (C.party challenger.old).rules pow_bits witness (C.party challenger.old).history result (C.party challenger.new).history }
    ensures spare { (C.party challenger.old).spare ≤ (C.party challenger.new).spare + length (witness_events pow_bits 0) }
{
    if pow_bits == 0 {
        return Ok(());
    }
    let Some(witness) = witness else {
        return Err(WitnessError::Missing);
    };
    if challenger.check_witness(pow_bits, witness).unwrap() {
        Ok(())
    } else {
        Err(WitnessError::Invalid)
    }
}

/// The witness of a round, if one came.
#[tactic(auto, using(crate::proofs::WitnessReads::reads))]
pub fn witness_at<F: Field>(witnesses: &[F], i: usize) -> Option<F>
    ensures number { option_map_or F.number result 0
        ≡ slice_index_or (map F.number witnesses.now) i 0 }
    ensures some { i < length witnesses.now → IsSome result }
{
    if i < witnesses.len() {
        Some(witnesses[i])
    } else {
        None
    }
}
