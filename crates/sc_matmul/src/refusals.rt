//! What the refusal of rounds is answered as.
ghost use Rattle.std.specs.Prelude.{◌≡◌};
ghost use Rattle.sc_matmul.specs.MatmulPlays.{refusal_by};

use crate::error::MatmulError;
use sc_transcript::SumcheckError;

// What the prover or the replay refuses is refused by the audit.
pub(crate) fn refusal(error: SumcheckError) -> MatmulError
    ensures { result ≡ refusal_by error }
{
    match error {
        SumcheckError::RoundCountMismatch { expected, actual } => {
            MatmulError::RoundCountMismatch { expected, actual }
        }
        SumcheckError::PowWitnessCountMismatch { expected, actual } => {
            MatmulError::PowWitnessCountMismatch { expected, actual }
        }
        SumcheckError::InvalidPowWitness { round, difficulty } => {
            MatmulError::InvalidPowWitness { round, difficulty }
        }
        SumcheckError::NoWitness { round } => MatmulError::NoWitness { round },
        // neither side refuses more, but for want of memory
        _ => MatmulError::NoMemory,
    }
}
