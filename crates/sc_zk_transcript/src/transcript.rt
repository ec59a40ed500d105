//! The drivers of a masked transcript, for the prover and for the verifier.
ghost use Rattle.std.specs.Prelude.{◌≡◌, ◌<◌, ◌≤◌, [], All, IfOk, length, map};
ghost use Rattle.sc_definitions.specs.Events.{words};
ghost use Rattle.sc_zk_definitions.specs.MaskedTranscripts.{masked_seed, prelude_events};
ghost use Rattle.sc_zk_definitions.specs.MaskedTranscripts.{commitment_events, masks_events};
ghost use Rattle.sc_zk_transcript.specs.Shapes.{fixed_by, masked_batch};
ghost use Rattle.sc_zk_transcript.specs.Causes.{masked_cause};

use crate::head::{combine_masks, observe_claim};
use crate::shape::ZkSumcheckShape;
use crate::step::{ZkHead, ZkStep};
use sc_challenger::{Challenger, sample_ext};
use sc_field::{ExtensionField, Field, NoMemory};
use sc_transcript::SumcheckError;
use sc_transcript::driver::{ProverSide, RoundShape, VerifierSide};
use sc_transcript::rounds::Rounds;
use sc_zk_definitions::ZkPrelude;
use std::alloc::Global;
use std::marker::PhantomData;

/// A side of a masked batch. It borrows the challenger, and must be spent by
/// [`ZkTranscript::finish`] or [`ZkTranscript::abort`], which hand the challenger back as it then
/// is.
///
/// [`ZkTranscript::next_step`] tells which call is next. A refused call leaves the step as it was.
pub struct ZkTranscript<'a, C: Challenger<F>, F: Field, EF, P> {
    challenger: &'a mut C,
    head: ZkHead,
    rounds: Rounds<ZkSumcheckShape>,
    of: PhantomData<(F, EF, P)>,
    ghost tested: { rounds.shape.pow_bits ≤ (C.party challenger.now).rules.max_bits },
    ghost counted: { rounds.played ≤ rounds.shape.num_rounds },
    ghost batched: { rounds.shape ≡ masked_batch rounds.kind },
}

/// The prover's side of a masked batch.
pub type ZkProverTranscript<'a, C, F, EF> = ZkTranscript<'a, C, F, EF, ProverSide>;

/// The verifier's side of a masked batch.
pub type ZkVerifierTranscript<'a, C, F, EF> = ZkTranscript<'a, C, F, EF, VerifierSide>;

impl<'a, C: Challenger<F>, F: Field, EF: ExtensionField<F>, P> ZkTranscript<'a, C, F, EF, P> {
    ghost use Rattle.sc_transcript.specs.Drivers.{IsBegun, IsDone};
    ghost use Rattle.sc_zk_transcript.specs.ZkDrivers.{driver_in, challenger_in, unbegun, next_of};
    ghost use Rattle.sc_zk_transcript.specs.ZkDrivers.{drawn_after, LeavesStep};

    /// Begins a batch: the seed's words are observed, and the prelude is next. No more of the
    /// challenger's room is taken than they need. Its contract says nothing of the challenger after
    /// `NoMemory`, since that is gone with the borrow.
    ///
    /// The difficulty is at most the challenger's [`Challenger::max_bits`].
    pub fn new(
        alloc: Global,
        challenger: &'a mut C,
        shape: ZkSumcheckShape,
    ) -> Result<Self, NoMemory>
        requires { shape.pow_bits ≤ (C.party challenger.old).rules.max_bits }
        ensures head { IfOk result (λ t. (driver_in t).head ≡ ZkHead.Seed) }
        ensures begun { IfOk result
            (λ t. IsBegun (words (masked_seed EF.DEGREE (fixed_by shape)))
            (unbegun t challenger.entry shape) (driver_in t).rounds) }
    {
        shape.seed::<F, EF, C>(alloc, challenger)?;
        Ok(ZkTranscript {
            challenger,
            head: ZkHead::Seed,
            rounds: Rounds::new(shape.batch(), shape),
            of: PhantomData,
        })
    }

    /// The numbers that the batch was begun with.
    pub fn shape(&self) -> ZkSumcheckShape
        ensures shape { result ≡ (driver_in self.now).rounds.kind }
        ensures numbers { masked_batch result ≡ (driver_in self.now).rounds.shape }
    {
        self.rounds.kind()
    }

    /// The step that is next.
    pub fn next_step(&self) -> ZkStep
        ensures { result ≡ next_of (driver_in self.now) }
    {
        match self.head {
            ZkHead::Seed => ZkStep::Prelude,
            ZkHead::Prelude => ZkStep::Masks,
            ZkHead::Masks => {
                let left = self.rounds.left();
                if left == 0 {
                    ZkStep::Done
                } else {
                    ZkStep::Round(self.rounds.kind().num_rounds - left)
                }
            }
        }
    }

    /// Draws the challenge whose powers batch recorded claims; then the masks are next. It is the
    /// prelude of a shape of recorded claims. A refusal leaves the history as it was.
    pub fn batching_challenge(&mut self) -> Result<EF, NoMemory>
        requires next { next_of (driver_in self.old) ≡ ZkStep.Prelude }
        requires recorded { (driver_in self.old).rounds.kind.prelude ≡ ZkPrelude.RecordedClaims }
        ensures drawn { IfOk result (λ x. EF.number x
            ≡ drawn_after EF.extension (driver_in self.old) []) }
        ensures left { LeavesStep (prelude_events EF.extension ZkPrelude.RecordedClaims 0)
            ZkHead.Prelude (driver_in self.old) (driver_in self.new) result }
    {
        let challenge = sample_ext::<F, EF, C>(self.challenger)?;
        self.head = ZkHead::Prelude;
        Ok(challenge)
    }

    /// Observes the claim that is handed on; then the masks are next. It is the prelude of a shape
    /// of an inherited claim. A refusal leaves the history as it was.
    pub fn bind_claim(&mut self, claim: EF) -> Result<(), NoMemory>
        requires next { next_of (driver_in self.old) ≡ ZkStep.Prelude }
        requires inherited { (driver_in self.old).rounds.kind.prelude ≡ ZkPrelude.InheritedClaim }
        ensures { LeavesStep (prelude_events EF.extension ZkPrelude.InheritedClaim
            (EF.number claim)) ZkHead.Prelude (driver_in self.old) (driver_in self.new) result }
    {
        observe_claim::<F, EF, C>(self.challenger, claim)?;
        self.head = ZkHead::Prelude;
        Ok(())
    }

    /// Observes the words of the masks' commitment, 64 numbers below 16, and the masks' total, and
    /// draws the combination; then the first round is next, or the end where there is none. A
    /// refusal leaves the history as it was.
    pub fn masks(&mut self, words: &[u8], mu_tilde: EF) -> Result<EF, NoMemory>
        requires next { next_of (driver_in self.old) ≡ ZkStep.Masks }
        requires count { length words.now ≡ 64 }
        requires below { All (λ w. w < 16) words.now }
        ensures drawn { IfOk result (λ x. EF.number x
            ≡ drawn_after EF.extension (driver_in self.old)
            (commitment_events EF.extension words.now (EF.number mu_tilde))) }
        ensures left { LeavesStep (masks_events EF.extension words.now (EF.number mu_tilde))
            ZkHead.Masks (driver_in self.old) (driver_in self.new) result }
    {
        let combination = combine_masks::<F, EF, C>(self.challenger, words, mu_tilde)?;
        self.head = ZkHead::Masks;
        Ok(combination)
    }

    /// Ends a batch of which every round was played. The challenger stays as it is.
    pub fn finish(self)
        requires { next_of (driver_in self) ≡ ZkStep.Done }
        ensures { self.exit.0.now ≡ (challenger_in self.entry).now }
    {
        let ZkTranscript {
            challenger: _,
            head: _,
            rounds: _,
            of: _,
        } = self;
    }

    /// Ends a batch that is broken off. The challenger stays as it is.
    pub fn abort(self)
        ensures { self.exit.0.now ≡ (challenger_in self.entry).now }
    {
        let ZkTranscript {
            challenger: _,
            head: _,
            rounds: _,
            of: _,
        } = self;
    }
}

impl<'a, C: Challenger<F>, F: Field, EF: ExtensionField<F>> ZkTranscript<'a, C, F, EF, ProverSide> {
    ghost use Rattle.sc_transcript.specs.Drivers.{answer_as, PlaysOrRefuses};
    ghost use Rattle.sc_zk_transcript.specs.ZkDrivers.{driver_in, next_of, IsRound};

    /// Plays a round: absorbs the wire, as many values as the shape's wires have, at a positive
    /// difficulty appends the first witness that passes and its test, and draws the challenge.
    ///
    /// `NoWitness` comes exactly where the difficulty is positive and no element of the base field
    /// passes; the history then ends with the wire. After `NoMemory` the history is as it was.
    /// After either the round is still next, and the driver is spent by [`ZkTranscript::abort`].
    pub fn round(&mut self, wire: &[EF]) -> Result<(EF, Option<F>), SumcheckError>
        requires next { IsRound (next_of (driver_in self.old)) }
        requires width { length wire.now ≡ (driver_in self.old).rounds.shape.width }
        ensures head { (driver_in self.new).head ≡ (driver_in self.old).head }
        ensures round { PlaysOrRefuses F.number EF.extension (driver_in self.old).rounds
            (driver_in self.new).rounds (map EF.number wire.now)
            (answer_as (λ x. (EF.number x.0, x.1)) masked_cause result) }
    {
        Ok(self.rounds.play(self.challenger, &wire)?)
    }
}

impl<'a, C: Challenger<F>, F: Field, EF: ExtensionField<F>> ZkTranscript<
    'a,
    C,
    F,
    EF,
    VerifierSide,
> {
    ghost use Rattle.sc_transcript.specs.Drivers.{answer_as, TakesOrRejects};
    ghost use Rattle.sc_zk_transcript.specs.ZkDrivers.{driver_in, next_of, IsRound};

    /// Takes a round: absorbs the wire, at a positive difficulty tests the witness, and draws the
    /// challenge. At difficulty 0 a witness is ignored.
    ///
    /// `WireSizeMismatch` comes exactly where the wire has more or fewer values than the shape's
    /// wires, before any event, and leaves the history as it was. `MissingPowWitness` comes exactly
    /// where the difficulty is positive and no witness came; the history then ends with the wire.
    /// `InvalidPowWitness` comes exactly where the witness fails; the history then ends with its
    /// word and its test. After `NoMemory` the history is as it was. After each of them the round
    /// is still next, and the driver is spent by [`ZkTranscript::abort`].
    pub fn round(&mut self, wire: &[EF], witness: Option<F>) -> Result<EF, SumcheckError>
        requires { IsRound (next_of (driver_in self.old)) }
        ensures head { (driver_in self.new).head ≡ (driver_in self.old).head }
        ensures round { TakesOrRejects F.number EF.extension (driver_in self.old).rounds
            (driver_in self.new).rounds (map EF.number wire.now) witness
            (answer_as EF.number masked_cause result) }
    {
        Ok(self.rounds.take(self.challenger, &wire, witness)?)
    }
}
