//! What an audit refuses.
use sc_memory::NoMemory;
use thiserror::Error;

/// Why there is no report. The refusals are tested in this order, but that [`AuditError::NoMemory`]
/// may come before any other. Rounds and statements are counted from 0; a statement's number stands
/// still at 2^64 - 1.
#[derive(Clone, Copy, Debug, PartialEq, Eq, Error)]
pub enum AuditError {
    /// Table, difficulty and statements do not fit together.
    #[error("the job's shape is refused: {0}")]
    JobShape(ShapeFault),
    /// The strategy cannot build rounds of this job.
    #[error("the strategy does not fit the job: {0}")]
    StrategyUnfit(FitFault),
    /// The rounds are to be built, and this is the first statement that is false of the table. Both
    /// values are numbers of elements.
    #[error("statement {statement} claims the value {claimed}, but the true one is {actual}")]
    FalseClaim {
        statement: usize,
        claimed: u64,
        actual: u64,
    },
    /// No proof came, and the table has variables.
    #[error("no proof came for {expected_rounds} rounds")]
    MissingSumcheckData {
        expected_rounds: usize,
    },
    /// The proof has not one round for each variable.
    #[error("expected {expected} rounds, but the proof has {actual}")]
    RoundCountMismatch {
        expected: usize,
        actual: usize,
    },
    /// The proof has not one witness a round at a positive difficulty, or it has one at difficulty
    /// 0.
    #[error("expected {expected} witnesses, but the proof has {actual}")]
    PowWitnessCountMismatch {
        expected: usize,
        actual: usize,
    },
    /// This is the first round of the proof whose witness fails its test.
    #[error("the witness of round {round} does not pass at {difficulty} bits")]
    InvalidPowWitness {
        round: usize,
        difficulty: usize,
    },
    /// The rounds are to be built, and no element of the base field passes the test of this round.
    #[error("no witness passes in round {round}")]
    NoWitness {
        round: usize,
    },
    /// A call wanted more memory than there was.
    #[error("out of memory")]
    NoMemory,
}

/// Why a job's shape is refused.
#[derive(Clone, Copy, Debug, PartialEq, Eq, Error)]
pub enum ShapeFault {
    /// The table's length is no power of two up to 2^24.
    #[error("a table of {len} entries is none of 2^n entries with n at most 24")]
    TableLength { len: usize },
    /// The difficulty is above the challenger's greatest one.
    #[error("the difficulty of {bits} bits is above the greatest one, {bound}")]
    Difficulty { bits: usize, bound: usize },
    /// The statements are on tables of another number of variables than the table has.
    #[error("the table has {expected} variables, but the statements are on {actual}")]
    Arity { expected: usize, actual: usize },
    /// The table has coefficients, and rounds are to bind the last variable.
    #[error("rounds on coefficients bind the first variable")]
    ProjectiveSuffix,
}

/// Why a strategy does not fit a job. They are tested in this order, but of a select and a selector
/// the first statement is told.
#[derive(Clone, Copy, Debug, PartialEq, Eq, Error)]
pub enum FitFault {
    /// The table has coefficients, which the plain strategy alone takes.
    #[error("coefficients are built on by the plain strategy alone")]
    Projective,
    /// Small-value rounds are asked for no variable, or for more than the table has or than 12.
    #[error("{variables} variables are outside 1 to {bound}")]
    Variables { variables: usize, bound: usize },
    /// This statement is a select.
    #[error("statement {statement} is a select")]
    Select { statement: usize },
    /// This statement is a successor with a selector.
    #[error("statement {statement} has a selector")]
    Selector { statement: usize },
}

impl From<NoMemory> for AuditError {
    ghost use Rattle.std.specs.Prelude.{◌≡◌};
    ghost use Rattle.sc_audit_errors.specs.declared.error.AuditError.TheVariants as errors;

    ghost from_gives = { λ _ e. e ≡ errors.NoMemory };

    fn from(_error: NoMemory) -> AuditError {
        AuditError::NoMemory
    }
}
