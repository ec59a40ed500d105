//! The answer to what is refused of claims on tables.
ghost use Rattle.std.specs.Prelude.{◌≡◌, ◌≢◌, IfOk};
ghost use Rattle.sumcheck_openings.specs.OpeningsReplies.{openings_refusal};

use crate::lines::{claim_arity_text, claim_table_text, opening_count_text, table_text};
use sc_field::NoMemory;
use sc_openings::MergeError;
use std::alloc::Global;
use sumcheck_replies::{Answer, lines};

/// The refusal of a job or of its proof, in one line. Want of memory has no text.
pub(crate) fn refuse_openings(alloc: Global, error: MergeError) -> Result<Answer, NoMemory>
    ensures { IfOk result (λ a. (a ≡ openings_refusal error) × (error ≢ MergeError.NoMemory)) }
{
    match error {
        MergeError::TableLength { table, len } => {
            let why = table_text(alloc, table, len)?;
            Answer::refused(alloc, &why)
        }
        MergeError::ClaimTable { claim, table } => {
            let why = claim_table_text(alloc, claim, table)?;
            Answer::refused(alloc, &why)
        }
        MergeError::ClaimArity {
            claim,
            expected: _,
            actual,
        } => {
            let why = claim_arity_text(alloc, claim, actual)?;
            Answer::refused(alloc, &why)
        }
        MergeError::Difficulty { bits, bound } => {
            let why = lines::difficulty_text(alloc, bits, bound)?;
            Answer::refused(alloc, &why)
        }
        MergeError::FalseClaim {
            claim,
            claimed,
            actual,
        } => {
            let why = lines::false_claim_text(alloc, claim, claimed, actual)?;
            Answer::refused(alloc, &why)
        }
        MergeError::OpeningCount { expected, actual } => {
            let why = opening_count_text(alloc, expected, actual)?;
            Answer::proof_refused(alloc, &why)
        }
        MergeError::RoundCountMismatch { expected, actual } => {
            let why = lines::rounds_text(alloc, expected, actual)?;
            Answer::proof_refused(alloc, &why)
        }
        MergeError::PowWitnessCountMismatch { expected, actual } => {
            let why = lines::witnesses_text(alloc, expected, actual)?;
            Answer::proof_refused(alloc, &why)
        }
        MergeError::InvalidPowWitness { round, difficulty } => {
            let why = lines::witness_text(alloc, round, difficulty)?;
            Answer::proof_refused(alloc, &why)
        }
        MergeError::NoWitness { round } => Answer::no_witness(alloc, round),
        MergeError::NoMemory => Err(NoMemory),
    }
}
