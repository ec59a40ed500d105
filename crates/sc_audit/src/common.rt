//! What building and checking share.
ghost use Rattle.std.specs.Prelude.{◌≡◌};
ghost use Rattle.sc_jobs.specs.Audits.{refusal_by};

use sc_audit_errors::AuditError;
use sc_rounds::SumcheckError;

// What the replay or the prover refuses is refused by the audit.
pub(crate) fn refusal(error: SumcheckError) -> AuditError
    ensures { result ≡ refusal_by error }
{
    match error {
        SumcheckError::RoundCountMismatch { expected, actual } => {
            AuditError::RoundCountMismatch { expected, actual }
        }
        SumcheckError::PowWitnessCountMismatch { expected, actual } => {
            AuditError::PowWitnessCountMismatch { expected, actual }
        }
        SumcheckError::InvalidPowWitness { round, difficulty } => {
            AuditError::InvalidPowWitness { round, difficulty }
        }
        SumcheckError::NoWitness { round } => AuditError::NoWitness { round },
        // neither side refuses more, but for want of memory
        _ => AuditError::NoMemory,
    }
}
