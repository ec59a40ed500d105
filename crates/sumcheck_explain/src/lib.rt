//! Jobs of `explain`: the masks that an observer's view of masked rounds tells.
//!
//! Which job a value describes is `explain_job_of` in `specs/ExplainJob.antt`, and what the numbers
//! of one that was read have is `ExplainJobFits`. What a job is answered is one function of the
//! definitions, `explain_answer` in `specs/Explains.antt`, by the masks that a call of
//! `explain_masks` finds (`sc_zk_views`). What is promised of each job is `ExplainPromise` in
//! `specs/PromisedMasks.antt`.
#![tactic(auto)]

mod asked;
mod job;
mod kind;
mod lines;
mod reading;
mod report;

pub use job::ExplainJob;
pub use kind::ExplainJobs;
pub use reading::read_explain;
pub use report::{judge_explain, show_masks};
