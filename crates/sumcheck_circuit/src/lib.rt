//! Jobs of `circuit`: claimed outputs of a layered circuit, whose layers are built or checked, and
//! the report on them.
//!
//! Which job a value describes is `circuit_job_of` in `specs/CircuitJob.antt`, and what the numbers
//! of one that was read have is `CircuitJobFits`. What a job is answered is one function of the
//! definitions, `circuit_answer` in `specs/CircuitReplies.antt`, by what a call of `audit_circuit`
//! answers (`sc_circuit`). What is promised of each job is `CircuitPromise` in
//! `specs/PromisedCircuits.antt`.
#![tactic(auto)]

mod asked;
mod job;
mod kind;
mod lines;
mod reading;
mod refusals;
mod report;

pub use job::{CircuitJob, LayerGiven};
pub use kind::CircuitJobs;
pub use reading::read_circuit;
pub use report::{judge_circuit, show_circuit};
