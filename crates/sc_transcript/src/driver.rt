//! The drivers of batches of rounds: one for the prover and one for the verifier, whatever the
//! protocol. A protocol adds its shape, which tells its seed and its errors, and where its rounds
//! send no slice, calls of its own that play them.
ghost use Rattle.std.specs.Prelude.{◌≡◌, ℕ, ◌+◌, ◌-◌, ◌≤◌, ◌++◌, List, Option, Some, length, map, IfOk, OnOk, OnErr};
ghost use Rattle.sc_definitions.specs.declared.events.Event.{Event};
ghost use Rattle.sc_definitions.specs.Events.{Extension};
ghost use Rattle.sc_definitions.specs.Seeds.{round_steps};
ghost use Rattle.sc_transcript.specs.Gains.{GainsSome};
ghost use Rattle.sc_transcript.specs.Rounds.{HasDifficulty};
ghost use Rattle.sc_challenger.specs.Parties.{MayAppend};

use crate::error::RoundError;
use crate::rounds::{BatchShape, Rounds};
use sc_challenger::{Challenger, Interaction, Kind, Label, Length};
use sc_field::{ExtensionField, Field, NoMemory};
use std::alloc::Global;
use std::marker::PhantomData;

/// The numbers that fix the transcript of a protocol's batch of rounds.
pub trait RoundShape: Copy {
    ghost use Rattle.sc_transcript.specs.declared.rounds.BatchShape.{BatchShape};

    // The numbers that its rounds go by.
    ghost numbers: { Self → BatchShape };

    /// The numbers that its rounds go by.
    fn batch(&self) -> BatchShape
        ensures { result ≡ numbers self.now };
}

/// A protocol whose rounds send a slice of values, as many as its batch is wide.
pub trait SliceShape: RoundShape {
    ghost use Rattle.sc_transcript.specs.declared.error.RoundError.{RoundError};

    /// Why the protocol refuses a round.
    type Error;

    // The error of a driver that one of the protocol's stands for at a difficulty, if it stands for
    // one.
    ghost cause: { ℕ → Self.Error → Option RoundError };

    /// The protocol's error for one of a driver. An error that tells a difficulty tells the
    /// shape's.
    fn refusal(&self, error: RoundError) -> Self::Error
        ensures { HasDifficulty (Self.numbers self.now).pow_bits error → cause (Self.numbers self.now).pow_bits result ≡ Some error };
}

/// A protocol whose batches begin with a claimed sum, after words that tell the batch from others.
pub trait ClaimedShape: SliceShape {
    // What stands before the rounds, by the parts of elements and the claimed sum.
    ghost prelude: { Self → Extension → ℕ → List Event };

    /// Absorbs what stands before the rounds. A refusal leaves the history as it was.
    fn begin<F: Field, EF: ExtensionField<F>, C: Challenger<F>>(
        &self,
        alloc: Global,
        challenger: &mut C,
        claimed_sum: EF,
    ) -> Result<(), NoMemory>
        ensures { MayAppend (prelude self.now EF.extension (EF.number claimed_sum))
            (length (prelude self.now EF.extension (EF.number claimed_sum)))
            (C.party challenger.old) (C.party challenger.new) result };
}

/// The side of a batch that plays its rounds.
pub struct ProverSide;

/// The side of a batch that takes the rounds that came.
pub struct VerifierSide;

/// A side of a batch of rounds. It borrows the challenger, and must be spent by
/// [`Transcript::finish`] or [`Transcript::abort`], which hand the challenger back as it then is.
pub struct Transcript<'a, C: Challenger<F>, F: Field, EF, S: RoundShape, P> {
    pub(crate) challenger: &'a mut C,
    pub(crate) rounds: Rounds<S>,
    of: PhantomData<(F, EF, P)>,
    ghost tested: { rounds.shape.pow_bits ≤ (C.party challenger.now).rules.max_bits },
    ghost counted: { rounds.played ≤ rounds.shape.num_rounds },
    ghost batched: { rounds.shape ≡ S.numbers rounds.kind },
}

impl<'a, C: Challenger<F>, F: Field, EF: ExtensionField<F>, S: RoundShape, P> Transcript<
    'a,
    C,
    F,
    EF,
    S,
    P,
> {
    ghost use Rattle.sc_transcript.specs.Transcripts.{driver_in, challenger_in};
    ghost use Rattle.sc_transcript.specs.Drivers.{IsLent, IsFresh, IsDone};

    /// A batch over a challenger that has absorbed already what stands before the rounds. It cannot
    /// fail: a caller that has to know what the refusal of a beginning leaves begins by the shape's
    /// own call, and goes on with this one.
    ///
    /// The difficulty is at most the challenger's [`Challenger::max_bits`].
    pub fn over(challenger: &'a mut C, shape: S) -> Self
        requires { (S.numbers shape).pow_bits ≤ (C.party challenger.old).rules.max_bits }
        ensures lent { IsLent challenger.entry (challenger_in result) }
        ensures fresh { IsFresh (S.numbers shape) shape (driver_in result) }
    {
        Transcript {
            challenger,
            rounds: Rounds::new(shape.batch(), shape),
            of: PhantomData,
        }
    }

    /// The numbers that the batch was begun with.
    pub fn shape(&self) -> S
        ensures shape { result ≡ (driver_in self.now).kind }
        ensures numbers { S.numbers result ≡ (driver_in self.now).shape }
    {
        self.rounds.kind()
    }

    /// How many rounds are still to be played.
    pub fn rounds_left(&self) -> usize
        ensures { result ≡ (driver_in self.now).shape.num_rounds - (driver_in self.now).played }
    {
        self.rounds.left()
    }

    /// Ends a batch of which every round was played. The challenger stays as it is.
    pub fn finish(self)
        requires { IsDone (driver_in self) }
        ensures { self.exit.0.now ≡ (challenger_in self.entry).now }
    {
        let Transcript {
            challenger: _,
            rounds: _,
            of: _,
        } = self;
    }

    /// Ends a batch that is broken off. The challenger stays as it is.
    pub fn abort(self)
        ensures { self.exit.0.now ≡ (challenger_in self.entry).now }
    {
        let Transcript {
            challenger: _,
            rounds: _,
            of: _,
        } = self;
    }
}

impl<'a, C: Challenger<F>, F: Field, EF: ExtensionField<F>, S: ClaimedShape, P> Transcript<
    'a,
    C,
    F,
    EF,
    S,
    P,
> {
    ghost use Rattle.sc_transcript.specs.Transcripts.{driver_in, unbegun};
    ghost use Rattle.sc_transcript.specs.Drivers.{IsBegun};

    /// Begins a batch: what stands before the rounds is absorbed. No more of the challenger's room
    /// is taken than that needs. Its contract says nothing of the challenger after `NoMemory`,
    /// since that is gone with the borrow: [`ClaimedShape::begin`] and then [`Transcript::over`]
    /// say all.
    ///
    /// The difficulty is at most the challenger's [`Challenger::max_bits`].
    pub fn new(
        alloc: Global,
        challenger: &'a mut C,
        shape: S,
        claimed_sum: EF,
    ) -> Result<Self, NoMemory>
        requires { (S.numbers shape).pow_bits ≤ (C.party challenger.old).rules.max_bits }
        ensures { IfOk result (λ t. IsBegun (S.prelude shape EF.extension (EF.number claimed_sum)) (unbegun t challenger.entry shape) (driver_in t)) }
    {
        shape.begin::<F, EF, C>(alloc, challenger, claimed_sum)?;
        Ok(Transcript::over(challenger, shape))
    }
}

impl<'a, C: Challenger<F>, F: Field, EF: ExtensionField<F>, S: SliceShape> Transcript<
    'a,
    C,
    F,
    EF,
    S,
    ProverSide,
> {
    ghost use Rattle.sc_transcript.specs.Transcripts.{driver_in};
    ghost use Rattle.sc_transcript.specs.Drivers.{HasRoundLeft, answer_as, PlaysOrRefuses};

    /// Plays a round: absorbs the values, as many as the batch is wide, at a positive difficulty
    /// appends the first witness that passes and its test, and draws the challenge.
    ///
    /// `NoWitness` comes exactly where the difficulty is positive and no element of the base field
    /// passes; the history then ends with the values. After `NoMemory` the history is as it was.
    /// After either the round is still to be played, and the driver is spent by
    /// [`Transcript::abort`].
    pub fn round(&mut self, evals: &[EF]) -> Result<(EF, Option<F>), S::Error>
        requires left { HasRoundLeft (driver_in self.old) }
        requires width { length evals.now ≡ (driver_in self.old).shape.width }
        ensures { PlaysOrRefuses F.number EF.extension (driver_in self.old) (driver_in self.new) (map EF.number evals.now)
            (answer_as (λ x. (EF.number x.0, x.1)) (S.cause (driver_in self.old).shape.pow_bits) result) }
    {
        match self.rounds.play(self.challenger, &evals) {
            Ok(sent) => Ok(sent),
            Err(error) => Err(self.shape().refusal(error)),
        }
    }
}

impl<'a, C: Challenger<F>, F: Field, EF: ExtensionField<F>, S: SliceShape> Transcript<
    'a,
    C,
    F,
    EF,
    S,
    VerifierSide,
> {
    ghost use Rattle.sc_transcript.specs.Transcripts.{driver_in};
    ghost use Rattle.sc_transcript.specs.Drivers.{HasRoundLeft, answer_as, TakesOrRejects};

    /// Takes a round: absorbs the values, at a positive difficulty tests the witness, and draws the
    /// challenge. At difficulty 0 a witness is ignored.
    ///
    /// An error of `WrongWidth` comes exactly where there are more or fewer values than the batch
    /// is wide, before any event, and leaves the history as it was. One of `MissingWitness` comes
    /// exactly where the difficulty is positive and no witness came; the history then ends with the
    /// values. One of `InvalidWitness` comes exactly where the witness fails; the history then ends
    /// with its word and its test. After `NoMemory` the history is as it was. After each of them
    /// the round is still to be taken, and the driver is spent by [`Transcript::abort`].
    pub fn round(&mut self, evals: &[EF], witness: Option<F>) -> Result<EF, S::Error>
        requires { HasRoundLeft (driver_in self.old) }
        ensures { TakesOrRejects F.number EF.extension (driver_in self.old) (driver_in self.new) (map EF.number evals.now) witness
            (answer_as EF.number (S.cause (driver_in self.old).shape.pow_bits) result) }
    {
        match self.rounds.take(self.challenger, &evals, witness) {
            Ok(challenge) => Ok(challenge),
            Err(error) => Err(self.shape().refusal(error)),
        }
    }
}

/// Appends the steps of a round that sends so many values of an extension of a degree: the values,
/// at a positive difficulty the witness, and the challenge. After `NoMemory` the list is what it was,
/// with the first few of them after it, fewer than all.
pub fn push_round_steps(
    steps: &mut Vec<Interaction>,
    degree: usize,
    values: usize,
    pow_bits: usize,
) -> Result<(), NoMemory>
    ensures steps { OnOk result (steps.new.items ≡ steps.old.items ++ round_steps degree values pow_bits) }
    ensures refused { OnErr result (GainsSome (round_steps degree values pow_bits) steps.old.items steps.new.items) }
{
    steps.push(Interaction {
        kind: Kind::Message,
        parts: degree,
        length: Length::Fixed(values),
        label: Label::RoundPoly,
    })?;
    if pow_bits > 0 {
        steps.push(Interaction {
            kind: Kind::Pow,
            parts: 1,
            length: Length::Fixed(pow_bits),
            label: Label::RoundPow,
        })?;
    }
    steps.push(Interaction {
        kind: Kind::Challenge,
        parts: degree,
        length: Length::Scalar,
        label: Label::RoundChallenge,
    })?;
    Ok(())
}
