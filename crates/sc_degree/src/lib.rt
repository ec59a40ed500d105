//! Rounds of any degree: a sum over all rows of n variables is reduced, one variable a round, to a
//! value of one polynomial.
//!
//! Each round sends the values of its polynomial at node 0 and at the nodes from 2 to its degree;
//! the value at node 1 follows from the claim. A prover is a [`RoundProver`]; [`TableProduct`], the
//! product of several tables, is one. [`GenericDegreeProof::verify`] replays what was sent.
#![tactic(auto)]

mod coefficients;
mod error;
pub mod laws;
mod played;
mod proof;
mod prover;
mod table_product;
mod transcript;
mod turns;
mod util;

pub use error::GenericDegreeError;
pub use proof::GenericDegreeProof;
pub use prover::RoundProver;
pub use table_product::TableProduct;
pub use transcript::{GenericDegreeShape, ProverTranscript, VerifierTranscript};
pub use turns::{FoundTurn, find_turn};
pub use util::{RoundPolyInterpolator, nodes_distinct};
