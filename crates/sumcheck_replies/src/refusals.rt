//! The answer to what an audit refuses.
ghost use Rattle.std.specs.Prelude.{◌≡◌, ◌≢◌, IfOk};
ghost use Rattle.sumcheck_replies.specs.Refusals.{refusal_reply};

use crate::lines;
use crate::reply::Answer;
use sc_audit_errors::AuditError;
use sc_field::NoMemory;
use std::alloc::Global;

/// The refusal of a job or of its proof, in one line. Want of memory has no text.
pub fn refuse(alloc: Global, error: AuditError) -> Result<Answer, NoMemory>
    ensures { IfOk result (λ a. (a ≡ refusal_reply error) × (error ≢ AuditError.NoMemory)) }
{
    match error {
        AuditError::JobShape(fault) => {
            let why = lines::shape_fault_text(alloc, fault)?;
            Answer::refused(alloc, &why)
        }
        AuditError::StrategyUnfit(fault) => {
            let why = lines::fit_fault_text(alloc, fault)?;
            Answer::refused(alloc, &why)
        }
        AuditError::FalseClaim {
            statement,
            claimed,
            actual,
        } => {
            let why = lines::false_claim_text(alloc, statement, claimed, actual)?;
            Answer::refused(alloc, &why)
        }
        AuditError::MissingSumcheckData { expected_rounds } => {
            let why = lines::missing_text(alloc, expected_rounds)?;
            Answer::proof_refused(alloc, &why)
        }
        AuditError::RoundCountMismatch { expected, actual } => {
            let why = lines::rounds_text(alloc, expected, actual)?;
            Answer::proof_refused(alloc, &why)
        }
        AuditError::PowWitnessCountMismatch { expected, actual } => {
            let why = lines::witnesses_text(alloc, expected, actual)?;
            Answer::proof_refused(alloc, &why)
        }
        AuditError::InvalidPowWitness { round, difficulty } => {
            let why = lines::witness_text(alloc, round, difficulty)?;
            Answer::proof_refused(alloc, &why)
        }
        AuditError::NoWitness { round } => Answer::no_witness(alloc, round),
        AuditError::NoMemory => Err(NoMemory),
    }
}
