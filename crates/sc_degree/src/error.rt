//! What rounds of any degree refuse.
use sc_field::NoMemory;
use sc_transcript::RoundError;
use thiserror::Error;

/// Why a proof or a round was refused. Rounds are counted from 0.
#[derive(Clone, Copy, Debug, PartialEq, Eq, Error)]
pub enum GenericDegreeError {
    /// A degree of zero, of which a round would send nothing.
    #[error("the degree of a round is {degree}, and must be one or more")]
    InvalidDegree {
        degree: usize,
    },
    /// The proof has another number of rounds than the caller expects.
    #[error("expected {expected} rounds, but the proof has {actual}")]
    RoundCountMismatch {
        expected: usize,
        actual: usize,
    },
    /// The proof has another number of witnesses than one a round at a positive difficulty, and
    /// none at difficulty 0.
    #[error("expected {expected} witnesses, but the proof has {actual}")]
    PowWitnessCountMismatch {
        expected: usize,
        actual: usize,
    },
    /// A round sends another number of values than its degree.
    #[error("expected {expected} values in round {round}, but {actual} came")]
    PolyEvalCountMismatch {
        round: usize,
        expected: usize,
        actual: usize,
    },
    /// A round at a positive difficulty came without a witness.
    #[error("round {round} came without a witness")]
    MissingPowWitness {
        round: usize,
    },
    /// The witness of a round fails its test.
    #[error("the witness of round {round} does not pass")]
    InvalidPowWitness {
        round: usize,
    },
    /// No element of the base field passes the test of a round.
    #[error("no witness passes in round {round}")]
    NoWitness {
        round: usize,
    },
    /// A call wanted more memory than there was.
    #[error("out of memory")]
    NoMemory,
}

impl From<NoMemory> for GenericDegreeError {
    ghost use Rattle.std.specs.Prelude.{◌≡◌};
    ghost use Rattle.sc_degree.specs.declared.error.GenericDegreeError.TheVariants as errors;

    ghost from_gives = { λ _ e. e ≡ errors.NoMemory };

    fn from(_error: NoMemory) -> GenericDegreeError {
        GenericDegreeError::NoMemory
    }
}

impl From<RoundError> for GenericDegreeError {
    ghost use Rattle.std.specs.Prelude.{◌≡◌};
    ghost use Rattle.sc_degree.specs.Causes.{generic_told};

    ghost from_gives = { λ of e. e ≡ generic_told of };

    fn from(error: RoundError) -> GenericDegreeError {
        match error {
            RoundError::NoMemory => GenericDegreeError::NoMemory,
            RoundError::NoWitness { round } => GenericDegreeError::NoWitness { round },
            RoundError::MissingWitness { round, .. } => {
                GenericDegreeError::MissingPowWitness { round }
            }
            RoundError::InvalidWitness { round, .. } => {
                GenericDegreeError::InvalidPowWitness { round }
            }
            RoundError::WrongWidth {
                round,
                expected,
                actual,
            } => GenericDegreeError::PolyEvalCountMismatch {
                round,
                expected,
                actual,
            },
            RoundError::RoundCount { expected, actual } => {
                GenericDegreeError::RoundCountMismatch { expected, actual }
            }
            RoundError::WitnessCount { expected, actual } => {
                GenericDegreeError::PowWitnessCountMismatch { expected, actual }
            }
        }
    }
}
