//! What an audit of claims on tables refuses.
use sc_memory::NoMemory;
use thiserror::Error;

/// Why there is no report. The refusals are tested in this order, but that
/// [`MergeError::NoMemory`] may come before any other. Tables, claims and rounds are counted from
/// 0.
#[derive(Clone, Copy, Debug, PartialEq, Eq, Error)]
pub enum MergeError {
    /// This table, the first such one, has not one entry for each row of the variables. Where there
    /// are more than 16 variables, it is table 0 that is told.
    #[error("table {table} has {len} entries")]
    TableLength {
        table: usize,
        len: usize,
    },
    /// This claim, the first such one, names no table.
    #[error("claim {claim} is on table {table}, which is none")]
    ClaimTable {
        claim: usize,
        table: usize,
    },
    /// The point of this claim, the first such one, has not one coordinate for each variable.
    #[error("expected {expected} coordinates in claim {claim}, but it has {actual}")]
    ClaimArity {
        claim: usize,
        expected: usize,
        actual: usize,
    },
    /// The difficulty is above the challenger's greatest one.
    #[error("the difficulty of {bits} bits is above the greatest one, {bound}")]
    Difficulty {
        bits: usize,
        bound: usize,
    },
    /// The rounds are to be built, and this is the first claim that is false. Both values are
    /// numbers of elements.
    #[error("the value of claim {claim} is {actual}, but {claimed} is claimed")]
    FalseClaim {
        claim: usize,
        claimed: u64,
        actual: u64,
    },
    /// The proof has not one opening for each table.
    #[error("expected {expected} openings, but the proof has {actual}")]
    OpeningCount {
        expected: usize,
        actual: usize,
    },
    /// The proof has not one round for each variable.
    #[error("expected {expected} rounds, but the proof has {actual}")]
    RoundCountMismatch {
        expected: usize,
        actual: usize,
    },
    /// The proof has not one witness a round at a positive difficulty, or it has one at difficulty
    /// 0.
    #[error("expected {expected} witnesses, but the proof has {actual}")]
    PowWitnessCountMismatch {
        expected: usize,
        actual: usize,
    },
    /// The witness of this round of the proof, the first such one, fails its test.
    #[error("the witness of round {round} does not pass at {difficulty} bits")]
    InvalidPowWitness {
        round: usize,
        difficulty: usize,
    },
    /// The rounds are to be built, and no element of the base field passes the test of this round.
    #[error("no witness passes in round {round}")]
    NoWitness {
        round: usize,
    },
    /// A call wanted more memory than there was.
    #[error("out of memory")]
    NoMemory,
}

impl From<NoMemory> for MergeError {
    ghost use Rattle.std.specs.Prelude.{◌≡◌};
    ghost use Rattle.sc_openings.specs.declared.error.MergeError.TheVariants as errors;

    ghost from_gives = { λ _ e. e ≡ errors.NoMemory };

    fn from(_error: NoMemory) -> MergeError {
        MergeError::NoMemory
    }
}
