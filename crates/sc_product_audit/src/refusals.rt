//! What the refusal of rounds is answered as.
ghost use Rattle.std.specs.Prelude.{◌≡◌};
ghost use Rattle.sc_product_audit.specs.ProductPlays.{round_refusal};

use crate::error::ProductError;
use sc_degree::GenericDegreeError;

// What the prover or the replay refuses at a difficulty is refused by the audit.
pub(crate) fn refusal(error: GenericDegreeError, difficulty: usize) -> ProductError
    ensures { result ≡ round_refusal difficulty error }
{
    match error {
        GenericDegreeError::RoundCountMismatch { expected, actual } => {
            ProductError::RoundCountMismatch { expected, actual }
        }
        GenericDegreeError::PowWitnessCountMismatch { expected, actual } => {
            ProductError::PowWitnessCountMismatch { expected, actual }
        }
        GenericDegreeError::PolyEvalCountMismatch {
            round,
            expected,
            actual,
        } => ProductError::PolyEvalCountMismatch {
            round,
            expected,
            actual,
        },
        GenericDegreeError::InvalidPowWitness { round } => {
            ProductError::InvalidPowWitness { round, difficulty }
        }
        GenericDegreeError::NoWitness { round } => ProductError::NoWitness { round },
        // neither side refuses more, but for want of memory
        _ => ProductError::NoMemory,
    }
}
