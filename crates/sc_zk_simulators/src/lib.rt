//! Simulators of masked rounds: they make, without tables and without a claim that is true, what a
//! prover sends under masks.
#![tactic(auto)]

mod in_step;
mod sending;
mod simulators;

pub use in_step::{SimulatedRun, simulation_in_step};
pub use simulators::{simulate_classic_unpacked_claim, simulate_recorded};
