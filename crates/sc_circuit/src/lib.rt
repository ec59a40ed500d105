//! Layered circuits: claimed outputs that are reduced, layer by layer, to a claim on the inputs.
#![tactic(auto)]

mod asked;
mod audit;
mod building;
mod built;
mod circuit;
mod error;
mod layer;
mod layers;
mod luck;
mod outputs;
mod phase;
mod plays;
mod proof;
mod reached;
mod refusals;
mod replay;
mod report;
mod rows;
mod shape;
mod turn;
mod values;
mod verdict;
mod walk;
mod weights;

pub use audit::audit_circuit;
pub use circuit::Circuit;
pub use error::CircuitError;
pub use proof::{CircuitProof, LayerProof};
pub use report::{CircuitReport, CircuitVerdict};
pub use sc_circuit_definitions::Gate;
