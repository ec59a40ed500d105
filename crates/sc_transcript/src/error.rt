//! What rounds refuse, and what a sumcheck does.
ghost use Rattle.std.specs.Prelude.{◌≡◌};

use sc_field::NoMemory;
use thiserror::Error;

/// Why a round is not played or not taken, or why rounds that came are not replayed: what each protocol tells by an error of its own. Rounds are counted
/// from 0.
#[derive(Clone, Copy, Debug, PartialEq, Eq, Error)]
pub enum RoundError {
    /// Another number of rounds came than the batch has.
    #[error("expected {expected} rounds, but {actual} came")]
    RoundCount {
        expected: usize,
        actual: usize,
    },
    /// Another number of witnesses came than one a round at a positive difficulty, and none at difficulty 0.
    #[error("expected {expected} witnesses, but {actual} came")]
    WitnessCount {
        expected: usize,
        actual: usize,
    },
    /// Another number of values came than a round sends.
    #[error("expected {expected} values in round {round}, but {actual} came")]
    WrongWidth {
        round: usize,
        expected: usize,
        actual: usize,
    },
    /// No element of the base field passes the test of a round that is played.
    #[error("no witness passes in round {round}")]
    NoWitness {
        round: usize,
    },
    /// A round at a positive difficulty came without a witness.
    #[error("round {round} came without a witness for {difficulty} bits")]
    MissingWitness {
        round: usize,
        difficulty: usize,
    },
    /// The witness of a round that came fails its test.
    #[error("the witness of round {round} does not pass at {difficulty} bits")]
    InvalidWitness {
        round: usize,
        difficulty: usize,
    },
    /// A call wanted more memory than there was.
    #[error("out of memory")]
    NoMemory,
}

impl From<NoMemory> for RoundError {
    ghost use Rattle.sc_transcript.specs.declared.error.RoundError.TheVariants as rounds;

    ghost from_gives = { λ _ e. e ≡ rounds.NoMemory };

    fn from(_error: NoMemory) -> RoundError {
        RoundError::NoMemory
    }
}

/// Why a proof or a round was refused. The texts name what was expected and what came; rounds are counted from 0.
#[derive(Clone, Copy, Debug, PartialEq, Eq, Error)]
pub enum SumcheckError {
    /// The proof has another number of rounds than the caller expects.
    #[error("expected {expected} sumcheck rounds, but the proof has {actual}")]
    RoundCountMismatch {
        expected: usize,
        actual: usize,
    },
    /// There is no proof, although there are rounds.
    #[error("no sumcheck data came for {expected_rounds} expected rounds")]
    MissingSumcheckData {
        expected_rounds: usize,
    },
    /// The witness of a round fails its test.
    #[error("the witness of sumcheck round {round} does not pass at {difficulty} bits")]
    InvalidPowWitness {
        round: usize,
        difficulty: usize,
    },
    /// A round at a positive difficulty came without a witness.
    #[error("sumcheck round {round} came without a witness for {difficulty} bits")]
    MissingPowWitness {
        round: usize,
        difficulty: usize,
    },
    /// The proof has another number of witnesses than one a round at a positive difficulty, and none at difficulty 0.
    #[error("expected {expected} witnesses, but the proof has {actual}")]
    PowWitnessCountMismatch {
        expected: usize,
        actual: usize,
    },
    /// A masked round sends another number of values than its wire has.
    #[error("expected {expected} values on the wire of round {round}, but {actual} came")]
    WireSizeMismatch {
        round: usize,
        expected: usize,
        actual: usize,
    },
    /// Two is zero in the field, so that masks cannot be halved.
    #[error("masked rounds need a field in which two is not zero")]
    EvenCharacteristic,
    /// Masks are shorter than the three coefficients of a round.
    #[error("masks of {ell_zk} coefficients are shorter than the 3 that a round needs")]
    MaskTooShort {
        ell_zk: usize,
    },
    /// A masked batch has no rounds.
    #[error("a masked batch needs at least one round")]
    NoRounds,
    /// An opening has other numbers of values than were asked for.
    #[error("expected {expected_current} current and {expected_next} next values of table {table_idx}, but {actual_current} and {actual_next} came")]
    OpeningShapeMismatch {
        table_idx: usize,
        expected_current: usize,
        expected_next: usize,
        actual_current: usize,
        actual_next: usize,
    },
    /// No element of the base field passes the test of a round.
    #[error("no witness passes in sumcheck round {round}")]
    NoWitness {
        round: usize,
    },
    /// A call wanted more memory than there was.
    #[error("out of memory")]
    NoMemory,
}

impl From<NoMemory> for SumcheckError {
    ghost use Rattle.sc_transcript.specs.declared.error.SumcheckError.TheVariants as errors;

    ghost from_gives = { λ _ e. e ≡ errors.NoMemory };

    fn from(_error: NoMemory) -> SumcheckError {
        SumcheckError::NoMemory
    }
}

impl From<RoundError> for SumcheckError {
    ghost use Rattle.sc_transcript.specs.Causes.{told_as};

    ghost from_gives = { λ of e. e ≡ told_as of };

    fn from(error: RoundError) -> SumcheckError {
        match error {
            RoundError::RoundCount { expected, actual } => {
                SumcheckError::RoundCountMismatch { expected, actual }
            }
            RoundError::WitnessCount { expected, actual } => {
                SumcheckError::PowWitnessCountMismatch { expected, actual }
            }
            RoundError::WrongWidth {
                round,
                expected,
                actual,
            } => SumcheckError::WireSizeMismatch {
                round,
                expected,
                actual,
            },
            RoundError::NoWitness { round } => SumcheckError::NoWitness { round },
            RoundError::MissingWitness { round, difficulty } => {
                SumcheckError::MissingPowWitness { round, difficulty }
            }
            RoundError::InvalidWitness { round, difficulty } => {
                SumcheckError::InvalidPowWitness { round, difficulty }
            }
            RoundError::NoMemory => SumcheckError::NoMemory,
        }
    }
}
