//! The jobs of `audit` as a kind.
ghost use Rattle.sumcheck_audit.specs.CertifiedJobs.{audit_jobs};
ghost use Rattle.sumcheck_audit.specs.Report.{job_asks};

use crate::job::Job;
use crate::reading::read_job;
use crate::report::{judge_job, judge_under};
use sc_challenger::Challenger;
use sc_field::{ExtensionField, Field, IntoTranscriptField, NoMemory};
use serde_json::Value;
use std::alloc::Global;
use sumcheck_members::{FieldName, Unread};
use sumcheck_replies::{Answer, FieldJobs, JobKind};

/// The jobs of `audit`.
pub struct AuditJobs;

impl JobKind for AuditJobs {
    type Job = Job;

    ghost jobs = { audit_jobs };

    fn read(alloc: Global, value: Value) -> Result<Job, Unread> {
        read_job(alloc, value)
    }

    fn judge(alloc: Global, job: Job) -> Result<Answer, NoMemory> {
        judge_job(alloc, job)
    }
}

impl FieldJobs for AuditJobs {
    type Job = Job;

    ghost asks = { job_asks };

    fn field(job: &Job) -> FieldName {
        job.stated.field
    }

    fn challenger(job: &Job) -> &sumcheck_members::Challenger {
        &job.stated.challenger
    }

    fn answer<F: Field, EF: ExtensionField<F>, R: IntoTranscriptField<EF>, C: Challenger<F>>(
        alloc: Global,
        job: Job,
        challenger: &mut C,
    ) -> Result<Answer, NoMemory> {
        judge_under::<F, EF, R, C>(alloc, job, challenger)
    }
}
