//! Why there is no report on a table.
use sc_audit_errors::AuditError;
use sc_field::NoMemory;
use thiserror::Error;

/// Why there is no report on a table.
#[derive(Clone, Copy, Debug, PartialEq, Eq, Error)]
pub enum TableError {
    /// The points have not one coordinate for each value and variable.
    #[error("the points are not one for each value")]
    Points,
    /// A number is not that of an element of its field.
    #[error("a number is none of an element")]
    NotAnElement,
    /// The audit refuses.
    #[error("{0}")]
    Audit(AuditError),
}

impl From<NoMemory> for TableError {
    ghost use Rattle.std.specs.Prelude.{◌≡◌};
    ghost use Rattle.sc_audit_errors.specs.declared.error.AuditError.TheVariants as audit;
    ghost use Rattle.sumcheck_tables.specs.declared.error.TableError.TheVariants.{Audit};

    ghost from_gives = { λ _ e. e ≡ Audit audit.NoMemory };

    fn from(_error: NoMemory) -> TableError {
        TableError::Audit(AuditError::NoMemory)
    }
}
