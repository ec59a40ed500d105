//! The transcript of masked rounds: its shape, and the drivers of its prover and its verifier.
//!
//! A masked batch begins with a seed, which tells its first step, its number of rounds, the length
//! of its masks and its difficulty from others. The first step draws the challenge that batches
//! recorded claims, or observes a claim that is handed on. Then the words of the masks' commitment
//! and the masks' total are observed, and the combination is drawn. Each round observes its wire,
//! at a positive difficulty a witness with its test, and draws a challenge.
#![tactic(auto)]

pub mod head;
mod laws;
mod shape;
mod step;
mod transcript;

pub use laws::shape_laws;
pub use sc_zk_definitions::ZkPrelude;
pub use shape::ZkSumcheckShape;
pub use step::ZkStep;
pub use transcript::{ZkProverTranscript, ZkTranscript, ZkVerifierTranscript};
