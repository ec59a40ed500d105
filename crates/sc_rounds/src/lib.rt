//! The rounds of the quadratic sumcheck: what a prover sends, what a transcript absorbs, and what a verifier replays.
//!
//! A table f of n variables and weights w of as many carry the claim that the sum of f w over all rows is a given element. Each round sends the
//! constant and the leading coefficient of the polynomial that is left when every variable but one is summed out, draws a challenge, and binds the
//! variable there. After n rounds what is left of the claim is the product of the two values at the challenges.
#![tactic(auto)]

mod eval_constraints;
mod held_product;
mod laws;
mod product_polynomial;
mod strategy;
mod turns;

pub use eval_constraints::EvalConstraints;
pub use laws::{batch_in_step, placed_laws, replay_laws};
pub use product_polynomial::ProductPolynomial;
pub use sc_transcript::{
    ProverTranscript, SumcheckData, SumcheckError, SumcheckShape, VerifierTranscript, shape_laws,
    verify_final_sumcheck_rounds,
};
pub use strategy::{BaseProduct, ReprSumcheckProver, SumcheckProver};
pub use turns::{FoundTurn, find_turn};
