//! The transcript of a batch of rounds of any degree, for the prover and for the verifier.
//!
//! A batch begins with a seed, which tells its protocol, its number of rounds, its degree and its
//! difficulty from others, and with the claimed sum. Each round then absorbs as many values as the
//! degree is, at a positive difficulty a witness with its test, and draws a challenge. A batch of
//! no rounds absorbs the seed and the claimed sum, too.
ghost use Rattle.std.specs.Prelude.{◌≡◌, [], ◌∷◌, ◌++◌, IfOk};
ghost use Rattle.sc_definitions.specs.declared.interactions.Kind.TheVariants.{Message};
ghost use Rattle.sc_definitions.specs.declared.interactions.Length.TheVariants.{Scalar};
ghost use Rattle.sc_definitions.specs.declared.interactions.Label.TheVariants.{ClaimedSum};
ghost use Rattle.sc_definitions.specs.Seeds.{degree_separator, rounds_steps, step};
ghost use Rattle.sc_degree.specs.Shapes.{prelude_of, generic_batch};
ghost use Rattle.sc_degree.specs.Causes.{generic_cause};

use crate::error::GenericDegreeError;
use sc_challenger::{
    Challenger, DomainSeparator, Interaction, InteractionPattern, Kind, Label, Length, Protocol,
    observe_ext,
};
use sc_field::{ExtensionField, Field, NoMemory};
use sc_transcript::RoundError;
use sc_transcript::driver::{
    ClaimedShape, ProverSide, RoundShape, SliceShape, Transcript, VerifierSide, push_round_steps,
};
use sc_transcript::rounds::BatchShape;
use std::alloc::Global;

// The version of the seed's format.
const VERSION: u8 = 1;

/// The numbers that fix the transcript of a batch of rounds. Both sides take them from their own
/// configuration, never from a proof.
#[derive(Clone, Copy, Debug, PartialEq, Eq)]
pub struct GenericDegreeShape {
    /// How many variables the batch binds, which is how many rounds it has.
    pub num_rounds: usize,
    /// The degree of the rounds' polynomials, which is how many values a round sends.
    pub degree: usize,
    /// The difficulty of each round's test in bits, or 0 for no test.
    pub pow_bits: usize,
}

impl GenericDegreeShape {
    /// The shape of these three.
    pub fn new(num_rounds: usize, degree: usize, pow_bits: usize) -> Self
        ensures { result
            ≡ record { num_rounds = num_rounds; degree = degree; pow_bits = pow_bits } }
    {
        GenericDegreeShape {
            num_rounds,
            degree,
            pow_bits,
        }
    }

    /// The steps of the batch: the claimed sum, and then, round after round, the values, at a
    /// positive difficulty the witness, and the challenge.
    #[tactic(auto, using(sc_transcript::proofs::StepLaws::steps_more))]
    pub fn pattern<F: Field, EF: ExtensionField<F>>(
        &self,
        alloc: Global,
    ) -> Result<InteractionPattern, NoMemory>
        ensures { IfOk result (λ steps. steps ≡ step Message EF.DEGREE Scalar ClaimedSum ∷ []
            ++ rounds_steps EF.DEGREE self.now.degree self.now.pow_bits self.now.num_rounds) }
    {
        let mut steps = Vec::new(alloc);
        steps.push(Interaction {
            kind: Kind::Message,
            parts: EF::DEGREE,
            length: Length::Scalar,
            label: Label::ClaimedSum,
        })?;
        for _round in 0..self.num_rounds {
            push_round_steps(&mut steps, EF::DEGREE, self.degree, self.pow_bits)?;
        }
        Ok(InteractionPattern::new(steps))
    }

    /// What tells this batch from others: version 1 of the format, the protocol
    /// `p3-sumcheck-generic-degree`, the steps, and an empty label, since the steps show all.
    pub fn domain_separator<F: Field, EF: ExtensionField<F>>(
        &self,
        alloc: Global,
    ) -> Result<DomainSeparator, NoMemory>
        ensures { IfOk result (λ s. s
            ≡ degree_separator EF.DEGREE self.now.degree self.now.pow_bits self.now.num_rounds) }
    {
        let pattern = self.pattern::<F, EF>(alloc)?;
        Ok(DomainSeparator::new(VERSION, Protocol::GenericDegree, pattern))
    }
}

impl RoundShape for GenericDegreeShape {
    ghost numbers = { generic_batch };

    fn batch(&self) -> BatchShape {
        BatchShape {
            num_rounds: self.num_rounds,
            width: self.degree,
            pow_bits: self.pow_bits,
        }
    }
}

impl SliceShape for GenericDegreeShape {
    type Error = GenericDegreeError;

    ghost cause = { generic_cause };

    fn refusal(&self, error: RoundError) -> GenericDegreeError {
        GenericDegreeError::from(error)
    }
}

impl ClaimedShape for GenericDegreeShape {
    ghost prelude = { λ shape E claimed. prelude_of E shape claimed };

    fn begin<F: Field, EF: ExtensionField<F>, C: Challenger<F>>(
        &self,
        alloc: Global,
        challenger: &mut C,
        claimed_sum: EF,
    ) -> Result<(), NoMemory> {
        let separator = self.domain_separator::<F, EF>(alloc)?;
        let seed = separator.seed_words(alloc)?;
        // The room for all comes first, so that no refusal leaves a part.
        challenger.reserve(seed.len() + EF::DEGREE)?;
        separator.seed::<F, C>(alloc, challenger)?;
        observe_ext::<F, EF, C>(challenger, claimed_sum).unwrap();
        Ok(())
    }
}

/// The prover's side of a batch of rounds of any degree.
pub type ProverTranscript<'a, C, F, EF> = Transcript<'a, C, F, EF, GenericDegreeShape, ProverSide>;

/// The verifier's side of a batch of rounds of any degree.
pub type VerifierTranscript<'a, C, F, EF> = Transcript<
    'a,
    C,
    F,
    EF,
    GenericDegreeShape,
    VerifierSide,
>;
