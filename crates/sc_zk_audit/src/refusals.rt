//! What is answered to refusals of the parts.
ghost use Rattle.std.specs.Prelude.{◌≡◌};
ghost use Rattle.sc_zk_audit.specs.MaskedRefusals.{audit_told, run_told};

use crate::error::MaskedError;
use sc_audit_errors::AuditError;
use sc_transcript::SumcheckError;

// What the shape of a job is refused with.
pub(crate) fn audit_refusal(error: AuditError) -> MaskedError
    ensures { result ≡ audit_told error }
{
    match error {
        AuditError::JobShape(fault) => MaskedError::JobShape(fault),
        // no more is tested of a shape, but for want of memory
        _ => MaskedError::NoMemory,
    }
}

// What an unfit form of masks, or the rounds, are refused with.
pub(crate) fn run_refusal(error: SumcheckError) -> MaskedError
    ensures { result ≡ run_told error }
{
    match error {
        SumcheckError::EvenCharacteristic => MaskedError::EvenCharacteristic,
        SumcheckError::MaskTooShort { ell_zk } => MaskedError::MaskTooShort { ell_zk },
        SumcheckError::NoRounds => MaskedError::NoRounds,
        SumcheckError::NoWitness { round } => MaskedError::NoWitness { round },
        // neither side refuses more, but for want of memory
        _ => MaskedError::NoMemory,
    }
}
