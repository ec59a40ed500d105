//! The transcript of a batch of quadratic rounds, for the prover and for the verifier.
//!
//! A batch begins with a seed, which tells its protocol, its number of rounds, its difficulty and its basis from others. Each round then absorbs the
//! two values that it sends, at a positive difficulty a witness with its test, and draws a challenge. A batch of no rounds absorbs and draws nothing.
ghost use Rattle.std.specs.Prelude.{◌≡◌, ◌+◌, ◌≤◌, [], ◌∷◌, ◌++◌, length, IfOk, OnOk, OnErr};
ghost use Rattle.sc_definitions.specs.Events.{words};
ghost use Rattle.sc_definitions.specs.Seeds.{basis_byte, quadratic_separator, rounds_steps};
ghost use Rattle.sc_table.specs.Strategy.{basis_of};
ghost use Rattle.sc_transcript.specs.Shapes.{seed_of, batch_of};
ghost use Rattle.sc_challenger.specs.Parties.{MayAppend};

use crate::driver::{ProverSide, RoundShape, Transcript, VerifierSide, push_round_steps};
use crate::error::SumcheckError;
use crate::rounds::BatchShape;
use sc_challenger::{Challenger, DomainSeparator, InteractionPattern, Protocol};
use sc_field::{ExtensionField, Field, NoMemory};
use sc_table::{Basis, RoundMessage};
use std::alloc::Global;

// The version of the seed's format.
const VERSION: u8 = 1;

// How many values a round sends.
const VALUES_PER_ROUND: usize = 2;

/// The numbers that fix the transcript of a batch of rounds. Both sides take them from their own configuration, never from a proof.
#[derive(Clone, Copy, Debug, PartialEq, Eq)]
pub struct SumcheckShape {
    /// How many variables the batch binds, which is how many rounds it has.
    pub num_rounds: usize,
    /// The difficulty of each round's test in bits, or 0 for no test.
    pub pow_bits: usize,
    /// What the two values of a round mean.
    pub basis: Basis,
}

impl SumcheckShape {
    /// The shape of these three.
    pub fn new(num_rounds: usize, pow_bits: usize, basis: Basis) -> Self
        ensures { result ≡ record { num_rounds = num_rounds; pow_bits = pow_bits; basis = basis } }
    {
        SumcheckShape {
            num_rounds,
            pow_bits,
            basis,
        }
    }

    /// The steps of the batch, round after round: the two values, at a positive difficulty the witness, and the challenge.
    #[tactic(auto, using(crate::proofs::StepLaws::steps_more))]
    pub fn pattern<F: Field, EF: ExtensionField<F>>(
        &self,
        alloc: Global,
    ) -> Result<InteractionPattern, NoMemory>
        ensures { IfOk result (λ steps. steps ≡ rounds_steps EF.DEGREE 2 self.now.pow_bits self.now.num_rounds) }
    {
        let mut steps = Vec::new(alloc);
        for _round in 0..self.num_rounds {
            push_round_steps(&mut steps, EF::DEGREE, VALUES_PER_ROUND, self.pow_bits)?;
        }
        Ok(InteractionPattern::new(steps))
    }

    /// What tells this batch from others: version 1 of the format, the protocol `p3-sumcheck-quadratic`, the steps, and the basis as a label of one byte,
    /// 0 for values and 1 for coefficients.
    pub fn domain_separator<F: Field, EF: ExtensionField<F>>(
        &self,
        alloc: Global,
    ) -> Result<DomainSeparator, NoMemory>
        ensures { IfOk result (λ s. s ≡ quadratic_separator EF.DEGREE (basis_of self.now.basis) self.now.pow_bits self.now.num_rounds) }
    {
        let pattern = self.pattern::<F, EF>(alloc)?;
        let mut separator = DomainSeparator::new(VERSION, Protocol::Quadratic, pattern);
        separator.instance(alloc, &[basis_label(self.basis)])?;
        Ok(separator)
    }

    /// Observes the seed's words, or nothing for no rounds. A refusal leaves the history as it was.
    #[tactic(auto, using(crate::proofs::RoundWords::seed_none, crate::proofs::RoundWords::seed_some))]
    pub fn seed<F: Field, EF: ExtensionField<F>, C: Challenger<F>>(
        &self,
        alloc: Global,
        challenger: &mut C,
    ) -> Result<(), NoMemory>
        ensures { MayAppend (words (seed_of EF.DEGREE self.now)) (length (seed_of EF.DEGREE self.now)) (C.party challenger.old) (C.party challenger.new) result }
    {
        if self.num_rounds == 0 {
            return Ok(());
        }
        let separator = self.domain_separator::<F, EF>(alloc)?;
        separator.seed::<F, C>(alloc, challenger)
    }
}

impl RoundShape for SumcheckShape {
    ghost numbers = { batch_of };

    fn batch(&self) -> BatchShape {
        BatchShape {
            num_rounds: self.num_rounds,
            width: VALUES_PER_ROUND,
            pow_bits: self.pow_bits,
        }
    }
}

// The byte that a basis has in the seed.
fn basis_label(basis: Basis) -> u8
    ensures { result ≡ basis_byte (basis_of basis) }
{
    match basis {
        Basis::Evaluation => 0,
        Basis::Projective => 1,
    }
}

/// The prover's side of a batch of quadratic rounds.
pub type ProverTranscript<'a, C, F, EF> = Transcript<'a, C, F, EF, SumcheckShape, ProverSide>;

/// The verifier's side of a batch of quadratic rounds.
pub type VerifierTranscript<'a, C, F, EF> = Transcript<'a, C, F, EF, SumcheckShape, VerifierSide>;

impl<'a, C: Challenger<F>, F: Field, EF: ExtensionField<F>, P> Transcript<
    'a,
    C,
    F,
    EF,
    SumcheckShape,
    P,
> {
    ghost use Rattle.sc_transcript.specs.Transcripts.{driver_in, unbegun};
    ghost use Rattle.sc_transcript.specs.Drivers.{IsBegun};

    /// Begins a batch: the seed's words are observed, or nothing for no rounds. No more of the challenger's room is taken than they need. Its contract says
    /// nothing of the challenger after `NoMemory`, since that is gone with the borrow: [`SumcheckShape::seed`] and then [`Transcript::over`] say all.
    ///
    /// The difficulty is at most the challenger's [`Challenger::max_bits`].
    pub fn new(alloc: Global, challenger: &'a mut C, shape: SumcheckShape) -> Result<Self, NoMemory>
        requires { shape.pow_bits ≤ (C.party challenger.old).rules.max_bits }
        ensures { IfOk result (λ t. IsBegun (words (seed_of EF.DEGREE shape)) (unbegun t challenger.entry shape) (driver_in t)) }
    {
        shape.seed::<F, EF, C>(alloc, challenger)?;
        Ok(Transcript::over(challenger, shape))
    }
}

impl<'a, C: Challenger<F>, F: Field, EF: ExtensionField<F>> Transcript<
    'a,
    C,
    F,
    EF,
    SumcheckShape,
    ProverSide,
> {
    ghost use Rattle.sc_transcript.specs.Causes.{cause_of};
    ghost use Rattle.sc_transcript.specs.Transcripts.{driver_in};
    ghost use Rattle.sc_transcript.specs.Drivers.{HasRoundLeft, answer_as, PlaysOrRefuses};

    /// Plays a round: absorbs the two values, at a positive difficulty appends the first witness that passes and its test, and draws the challenge.
    ///
    /// `NoWitness` comes exactly where the difficulty is positive and no element of the base field passes; the history then ends with the two values.
    /// After `NoMemory` the history is as it was. After either the round is still to be played, and the driver is spent by [`Transcript::abort`].
    pub fn round(&mut self, c_a: EF, c_inf: EF) -> Result<(EF, Option<F>), SumcheckError>
        requires { HasRoundLeft (driver_in self.old) }
        ensures { PlaysOrRefuses F.number EF.extension (driver_in self.old) (driver_in self.new) (EF.number c_a ∷ EF.number c_inf ∷ [])
            (answer_as (λ x. (EF.number x.0, x.1)) cause_of result) }
    {
        Ok(
            self.rounds
                .play(self.challenger, &RoundMessage { c_a, c_inf })?,
        )
    }
}

impl<'a, C: Challenger<F>, F: Field, EF: ExtensionField<F>> Transcript<
    'a,
    C,
    F,
    EF,
    SumcheckShape,
    VerifierSide,
> {
    ghost use Rattle.sc_transcript.specs.Causes.{cause_of};
    ghost use Rattle.sc_transcript.specs.Transcripts.{driver_in};
    ghost use Rattle.sc_transcript.specs.Drivers.{HasRoundLeft, answer_as, TakesOrRejects};

    /// Takes a round: absorbs the two values, at a positive difficulty tests the witness, and draws the challenge. At difficulty 0 a witness is ignored.
    ///
    /// `MissingPowWitness` comes exactly where the difficulty is positive and no witness came; the history then ends with the two values.
    /// `InvalidPowWitness` comes exactly where the witness fails; the history then ends with its word and its test. After `NoMemory` the history is as
    /// it was. After each of them the round is still to be taken, and the driver is spent by [`Transcript::abort`].
    pub fn round(&mut self, c_a: EF, c_inf: EF, witness: Option<F>) -> Result<EF, SumcheckError>
        requires { HasRoundLeft (driver_in self.old) }
        ensures { TakesOrRejects F.number EF.extension (driver_in self.old) (driver_in self.new) (EF.number c_a ∷ EF.number c_inf ∷ []) witness
            (answer_as EF.number cause_of result) }
    {
        Ok(
            self.rounds
                .take(self.challenger, &RoundMessage { c_a, c_inf }, witness)?,
        )
    }
}
