//! The jobs of `explain` as a kind.
ghost use Rattle.sumcheck_explain.specs.PromisedMasks.{explain_jobs};

use crate::job::ExplainJob;
use crate::reading::read_explain;
use crate::report::judge_explain;
use sc_field::NoMemory;
use serde_json::Value;
use std::alloc::Global;
use sumcheck_members::Unread;
use sumcheck_replies::{Answer, JobKind};

/// The jobs of `explain`.
pub struct ExplainJobs;

impl JobKind for ExplainJobs {
    type Job = ExplainJob;

    ghost jobs = { explain_jobs };

    fn read(alloc: Global, value: Value) -> Result<ExplainJob, Unread> {
        read_explain(alloc, value)
    }

    fn judge(alloc: Global, job: ExplainJob) -> Result<Answer, NoMemory> {
        judge_explain(alloc, job)
    }
}
