//! What the refusal of rounds is answered as.
ghost use Rattle.std.specs.Prelude.{◌≡◌};
ghost use Rattle.sc_openings.specs.OpeningsPlays.{refusal_by};

use crate::error::MergeError;
use sc_transcript::SumcheckError;

// What the prover or the replay refuses is refused by the audit.
pub(crate) fn refusal(error: SumcheckError) -> MergeError
    ensures { result ≡ refusal_by error }
{
    match error {
        SumcheckError::RoundCountMismatch { expected, actual } => {
            MergeError::RoundCountMismatch { expected, actual }
        }
        SumcheckError::PowWitnessCountMismatch { expected, actual } => {
            MergeError::PowWitnessCountMismatch { expected, actual }
        }
        SumcheckError::InvalidPowWitness { round, difficulty } => {
            MergeError::InvalidPowWitness { round, difficulty }
        }
        SumcheckError::NoWitness { round } => MergeError::NoWitness { round },
        // neither side refuses more, but for want of memory
        _ => MergeError::NoMemory,
    }
}
