//! Jobs of `veil`: the rounds of a table with true claims on it, played under masks, and the report
//! on them.
//!
//! Which job a value describes is `veil_job_of` in `specs/VeilJob.antt`, and what the numbers of
//! one that was read have is `VeilJobFits`. What a job is answered is one function of the
//! definitions, `veil_answer` in `specs/Veils.antt`, by what a call of `audit_masked` answers
//! (`sc_zk_audit`). What is promised of each job is `VeilPromise` in `specs/PromisedVeils.antt`.
#![tactic(auto)]

mod asked;
mod job;
mod kind;
mod lines;
mod masks;
mod reading;
mod report;

pub use job::{DrawnMasks, Masks, Veil, VeilJob, WrittenMasks};
pub use kind::VeilJobs;
pub use reading::read_veil;
pub use report::{judge_veil, show_veil};
