//! The jobs of `openings` as a kind.
ghost use Rattle.sumcheck_openings.specs.PromisedOpenings.{openings_jobs};
ghost use Rattle.sumcheck_openings.specs.OpeningsReplies.{openings_asks};

use crate::job::OpeningsJob;
use crate::reading::read_openings;
use crate::report::{answer_to, judge_openings};
use sc_challenger::Challenger;
use sc_field::{ExtensionField, Field, IntoTranscriptField, NoMemory};
use serde_json::Value;
use std::alloc::Global;
use sumcheck_members::{FieldName, Unread};
use sumcheck_replies::{Answer, FieldJobs, JobKind};

/// The jobs of `openings`.
pub struct OpeningsJobs;

impl JobKind for OpeningsJobs {
    type Job = OpeningsJob;

    ghost jobs = { openings_jobs };

    fn read(alloc: Global, value: Value) -> Result<OpeningsJob, Unread> {
        read_openings(alloc, value)
    }

    fn judge(alloc: Global, job: OpeningsJob) -> Result<Answer, NoMemory> {
        judge_openings(alloc, job)
    }
}

impl FieldJobs for OpeningsJobs {
    type Job = OpeningsJob;

    ghost asks = { openings_asks };

    fn field(job: &OpeningsJob) -> FieldName {
        job.field
    }

    fn challenger(job: &OpeningsJob) -> &sumcheck_members::Challenger {
        &job.challenger
    }

    fn answer<F: Field, EF: ExtensionField<F>, R: IntoTranscriptField<EF>, C: Challenger<F>>(
        alloc: Global,
        job: OpeningsJob,
        challenger: &mut C,
    ) -> Result<Answer, NoMemory> {
        answer_to::<F, EF, C>(alloc, job, challenger)
    }
}
