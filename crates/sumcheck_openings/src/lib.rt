//! Jobs of `openings`: claims on several tables, whose rounds and openings are built or checked,
//! and the report on them.
//!
//! Which job a value describes is `openings_job_of` in `specs/OpeningsJob.antt`, and what the
//! numbers of one that was read have is `OpeningsJobFits`. What a job is answered is one function
//! of the definitions, `openings_answer` in `specs/OpeningsReplies.antt`, by what a call of
//! `audit_openings` answers (`sc_openings`). What is promised of each job is `OpeningsPromise` in
//! `specs/PromisedOpenings.antt`.
#![tactic(auto)]

mod asked;
mod forms;
mod job;
mod kind;
mod lines;
mod reading;
mod refusals;
mod report;

pub use job::{ClaimGiven, OpeningsJob, ProofGiven};
pub use kind::OpeningsJobs;
pub use reading::read_openings;
pub use report::{judge_openings, show_openings};
