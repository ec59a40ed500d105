//! The jobs of `matmul` as a kind.
ghost use Rattle.sumcheck_matmul.specs.PromisedProducts.{matmul_jobs};
ghost use Rattle.sumcheck_matmul.specs.MatmulReplies.{matmul_asks};

use crate::job::MatmulJob;
use crate::reading::read_matmul;
use crate::report::{answer_to, judge_matmul};
use sc_challenger::Challenger;
use sc_field::{ExtensionField, Field, IntoTranscriptField, NoMemory};
use serde_json::Value;
use std::alloc::Global;
use sumcheck_members::{FieldName, Unread};
use sumcheck_replies::{Answer, FieldJobs, JobKind};

/// The jobs of `matmul`.
pub struct MatmulJobs;

impl JobKind for MatmulJobs {
    type Job = MatmulJob;

    ghost jobs = { matmul_jobs };

    fn read(alloc: Global, value: Value) -> Result<MatmulJob, Unread> {
        read_matmul(alloc, value)
    }

    fn judge(alloc: Global, job: MatmulJob) -> Result<Answer, NoMemory> {
        judge_matmul(alloc, job)
    }
}

impl FieldJobs for MatmulJobs {
    type Job = MatmulJob;

    ghost asks = { matmul_asks };

    fn field(job: &MatmulJob) -> FieldName {
        job.field
    }

    fn challenger(job: &MatmulJob) -> &sumcheck_members::Challenger {
        &job.challenger
    }

    fn answer<F: Field, EF: ExtensionField<F>, R: IntoTranscriptField<EF>, C: Challenger<F>>(
        alloc: Global,
        job: MatmulJob,
        challenger: &mut C,
    ) -> Result<Answer, NoMemory> {
        answer_to::<F, EF, C>(alloc, job, challenger)
    }
}
