//! What an audit of a product of matrices refuses.
use sc_memory::NoMemory;
use thiserror::Error;

/// Why there is no report. The refusals are tested in this order, but that
/// [`MatmulError::NoMemory`] may come before any other. Rows, columns and rounds are counted from
/// 0.
#[derive(Clone, Copy, Debug, PartialEq, Eq, Error)]
pub enum MatmulError {
    /// A side of this matrix, which is 0 for the left one, 1 for the right one and 2 for the
    /// claimed one, is no power of two up to 128. Of several such matrices the first one is told.
    #[error("matrix {which} has {rows} rows and {cols} columns")]
    Side {
        which: usize,
        rows: usize,
        cols: usize,
    },
    /// The left matrix has another number of columns than the right one has rows.
    #[error("the left matrix has {left} columns, and the right one {right} rows")]
    Inner {
        left: usize,
        right: usize,
    },
    /// The claimed matrix, which has these sides, has others than the product.
    #[error("the claimed matrix has {rows} rows and {cols} columns")]
    Outer {
        rows: usize,
        cols: usize,
    },
    /// The difficulty is above the challenger's greatest one.
    #[error("the difficulty of {bits} bits is above the greatest one, {bound}")]
    Difficulty {
        bits: usize,
        bound: usize,
    },
    /// The rounds are to be built, and this is the first entry that is false, row by row. Both
    /// values are numbers of elements.
    #[error("the entry in row {row} and column {col} is {actual}, but {claimed} is claimed")]
    FalseEntry {
        row: usize,
        col: usize,
        claimed: u64,
        actual: u64,
    },
    /// The proof has not one round for each variable of the inner side.
    #[error("expected {expected} rounds, but the proof has {actual}")]
    RoundCountMismatch {
        expected: usize,
        actual: usize,
    },
    /// The proof has not one witness a round at a positive difficulty, or it has one at difficulty
    /// 0.
    #[error("expected {expected} witnesses, but the proof has {actual}")]
    PowWitnessCountMismatch {
        expected: usize,
        actual: usize,
    },
    /// The witness of this round of the proof, the first such one, fails its test.
    #[error("the witness of round {round} does not pass at {difficulty} bits")]
    InvalidPowWitness {
        round: usize,
        difficulty: usize,
    },
    /// The rounds are to be built, and no element of the base field passes the test of this round.
    #[error("no witness passes in round {round}")]
    NoWitness {
        round: usize,
    },
    /// A call wanted more memory than there was.
    #[error("out of memory")]
    NoMemory,
}

impl From<NoMemory> for MatmulError {
    ghost use Rattle.std.specs.Prelude.{◌≡◌};
    ghost use Rattle.sc_matmul.specs.declared.error.MatmulError.TheVariants as errors;

    ghost from_gives = { λ _ e. e ≡ errors.NoMemory };

    fn from(_error: NoMemory) -> MatmulError {
        MatmulError::NoMemory
    }
}
