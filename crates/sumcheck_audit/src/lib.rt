//! Jobs of `audit`: a table with claims on it, whose rounds are built or checked, and the report on
//! them.
//!
//! Which job a value describes is one function of the definitions, `job_of` in `specs/Job.antt`, and
//! what the numbers of one that was read have is one relation, `JobFits`. What a job is answered is
//! `judge` in `specs/Report.antt`: the lines of a report, or the text of a refusal, as the answer of
//! an audit of it is (`answer_to` of `sc_jobs`). What is promised of each job is `JobPromise` in
//! `specs/CertifiedJobs.antt`.
#![tactic(auto)]

mod asked;
mod grids;
mod job;
mod kind;
mod reading;
mod report;
mod statements;

pub use asked::proof_data;
pub use job::{Job, Mode, Proof};
pub use kind::AuditJobs;
pub use reading::{ProofForm, read_job};
pub use report::{judge_job, say_verdict, show_report};
pub use statements::constraint_of;
