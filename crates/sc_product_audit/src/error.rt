//! What an audit of rounds over a product refuses.
use sc_memory::NoMemory;
use thiserror::Error;

/// Why there is no report. The refusals are tested in this order, but that
/// [`ProductError::NoMemory`] may come before any other, and that of rounds which send too few or
/// too many values, or whose witness fails, the first one is told. Rounds are counted from 0.
#[derive(Clone, Copy, Debug, PartialEq, Eq, Error)]
pub enum ProductError {
    /// This is the first length that is no power of two up to 2^24, or another than that of the
    /// first table. Where there is no table it is 0.
    #[error("no table of {len} entries fits: each has 2^n, with one n of at most 24 for all")]
    TableLength {
        len: usize,
    },
    /// There are more tables than one less than the field of the challenges has elements, so that
    /// it lacks nodes for a round.
    #[error("{tables} tables are more than {bound}, one less than there are elements")]
    TableCount {
        tables: usize,
        bound: u64,
    },
    /// The difficulty is above the challenger's greatest one.
    #[error("the difficulty of {bits} bits is above the greatest one, {bound}")]
    Difficulty {
        bits: usize,
        bound: usize,
    },
    /// The proof has not one round for each variable.
    #[error("expected {expected} rounds, but the proof has {actual}")]
    RoundCountMismatch {
        expected: usize,
        actual: usize,
    },
    /// The proof has not one witness a round at a positive difficulty, or it has one at difficulty
    /// 0.
    #[error("expected {expected} witnesses, but the proof has {actual}")]
    PowWitnessCountMismatch {
        expected: usize,
        actual: usize,
    },
    /// A round of the proof sends not one value for each table.
    #[error("expected {expected} values in round {round}, but {actual} came")]
    PolyEvalCountMismatch {
        round: usize,
        expected: usize,
        actual: usize,
    },
    /// The witness of this round of the proof fails its test.
    #[error("the witness of round {round} does not pass at {difficulty} bits")]
    InvalidPowWitness {
        round: usize,
        difficulty: usize,
    },
    /// The rounds are to be built, and no element of the base field passes the test of this round.
    #[error("no witness passes in round {round}")]
    NoWitness {
        round: usize,
    },
    /// A call wanted more memory than there was.
    #[error("out of memory")]
    NoMemory,
}

impl From<NoMemory> for ProductError {
    ghost use Rattle.std.specs.Prelude.{◌≡◌};
    ghost use Rattle.sc_product_audit.specs.declared.error.ProductError.TheVariants as errors;

    ghost from_gives = { λ _ e. e ≡ errors.NoMemory };

    fn from(_error: NoMemory) -> ProductError {
        ProductError::NoMemory
    }
}
