//! Jobs of `matmul`: a claimed product of two matrices, whose rounds are built or checked, and the
//! report on them.
//!
//! Which job a value describes is `matmul_job_of` in `specs/MatmulJob.antt`, and what the numbers
//! of one that was read have is `MatmulJobFits`. What a job is answered is one function of the
//! definitions, `matmul_answer` in `specs/MatmulReplies.antt`, by what a call of `audit_matmul`
//! answers (`sc_matmul`). What is promised of each job is `MatmulPromise` in
//! `specs/PromisedProducts.antt`.
#![tactic(auto)]

mod asked;
mod job;
mod kind;
mod lines;
mod reading;
mod report;

pub use job::MatmulJob;
pub use kind::MatmulJobs;
pub use reading::read_matmul;
pub use report::{judge_matmul, show_matmul};
