//! The jobs of `veil` as a kind.
ghost use Rattle.sumcheck_veil.specs.PromisedVeils.{veil_jobs};
ghost use Rattle.sumcheck_veil.specs.Veils.{veil_asks};

use crate::job::VeilJob;
use crate::reading::read_veil;
use crate::report::{answer_to, judge_veil};
use sc_challenger::Challenger;
use sc_field::{ExtensionField, Field, IntoTranscriptField, NoMemory};
use serde_json::Value;
use std::alloc::Global;
use sumcheck_members::{FieldName, Unread};
use sumcheck_replies::{Answer, FieldJobs, JobKind};

/// The jobs of `veil`.
pub struct VeilJobs;

impl JobKind for VeilJobs {
    type Job = VeilJob;

    ghost jobs = { veil_jobs };

    fn read(alloc: Global, value: Value) -> Result<VeilJob, Unread> {
        read_veil(alloc, value)
    }

    fn judge(alloc: Global, job: VeilJob) -> Result<Answer, NoMemory> {
        judge_veil(alloc, job)
    }
}

impl FieldJobs for VeilJobs {
    type Job = VeilJob;

    ghost asks = { veil_asks };

    fn field(job: &VeilJob) -> FieldName {
        job.stated.field
    }

    fn challenger(job: &VeilJob) -> &sumcheck_members::Challenger {
        &job.stated.challenger
    }

    fn answer<F: Field, EF: ExtensionField<F>, R: IntoTranscriptField<EF>, C: Challenger<F>>(
        alloc: Global,
        job: VeilJob,
        challenger: &mut C,
    ) -> Result<Answer, NoMemory> {
        answer_to::<F, EF, C>(alloc, job, challenger)
    }
}
