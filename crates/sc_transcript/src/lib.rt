//! The transcript of the quadratic sumcheck: what its rounds absorb and draw, what a proof holds of them, and how that is replayed.
//!
//! Each round sends the constant and the leading coefficient of a polynomial of degree 2, looks for a witness where the shape has a difficulty, and draws a
//! challenge. The prover's driver and the verifier's absorb the same; data is what the rounds have sent.
#![tactic(auto)]

mod data;
pub mod driver;
mod error;
mod laws;
pub mod replay;
pub mod rounds;
mod transcript;

pub use data::{SumcheckData, verify_final_sumcheck_rounds};
pub use error::{RoundError, SumcheckError};
pub use laws::shape_laws;
pub use transcript::{ProverTranscript, SumcheckShape, VerifierTranscript};
