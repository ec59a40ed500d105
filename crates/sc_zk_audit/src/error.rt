//! What an audit of masked rounds refuses.
use sc_audit_errors::ShapeFault;
use sc_memory::NoMemory;
use thiserror::Error;

/// Why there is no report. The refusals are tested in this order, but that
/// [`MaskedError::NoMemory`] may come before any other. Rounds and statements are counted from 0; a
/// statement's number stands still at 2^64 - 1.
#[derive(Clone, Copy, Debug, PartialEq, Eq, Error)]
pub enum MaskedError {
    /// Table, difficulty and statements do not fit together.
    #[error("the job's shape is refused: {0}")]
    JobShape(ShapeFault),
    /// There are more masks than the table has variables.
    #[error("{rounds} rounds are more than the table has variables, {bound}")]
    Rounds {
        rounds: usize,
        bound: usize,
    },
    /// Two is zero in the field, so that nothing can be halved.
    #[error("masked rounds need a field in which two is not zero")]
    EvenCharacteristic,
    /// Masks are shorter than the three coefficients of a round.
    #[error("masks of {ell_zk} coefficients are shorter than the 3 that a round needs")]
    MaskTooShort {
        ell_zk: usize,
    },
    /// There is no mask.
    #[error("masked rounds need at least one round")]
    NoRounds,
    /// This is the first statement that is false of the table. Both values are numbers of elements.
    #[error("statement {statement} claims the value {claimed}, but the true one is {actual}")]
    FalseClaim {
        statement: usize,
        claimed: u64,
        actual: u64,
    },
    /// No element of the base field passes the test of this round.
    #[error("no witness passes in round {round}")]
    NoWitness {
        round: usize,
    },
    /// A call wanted more memory than there was.
    #[error("out of memory")]
    NoMemory,
}

impl From<NoMemory> for MaskedError {
    ghost use Rattle.std.specs.Prelude.{◌≡◌};
    ghost use Rattle.sc_zk_audit.specs.declared.error.MaskedError.TheVariants as errors;

    ghost from_gives = { λ _ e. e ≡ errors.NoMemory };

    fn from(_error: NoMemory) -> MaskedError {
        MaskedError::NoMemory
    }
}
