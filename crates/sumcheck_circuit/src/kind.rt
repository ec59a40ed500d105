//! The jobs of `circuit` as a kind.
ghost use Rattle.sumcheck_circuit.specs.PromisedCircuits.{circuit_jobs};
ghost use Rattle.sumcheck_circuit.specs.CircuitReplies.{circuit_asks};

use crate::job::CircuitJob;
use crate::reading::read_circuit;
use crate::report::{answer_to, judge_circuit};
use sc_challenger::Challenger;
use sc_field::{ExtensionField, Field, IntoTranscriptField, NoMemory};
use serde_json::Value;
use std::alloc::Global;
use sumcheck_members::{FieldName, Unread};
use sumcheck_replies::{Answer, FieldJobs, JobKind};

/// The jobs of `circuit`.
pub struct CircuitJobs;

impl JobKind for CircuitJobs {
    type Job = CircuitJob;

    ghost jobs = { circuit_jobs };

    fn read(alloc: Global, value: Value) -> Result<CircuitJob, Unread> {
        read_circuit(alloc, value)
    }

    fn judge(alloc: Global, job: CircuitJob) -> Result<Answer, NoMemory> {
        judge_circuit(alloc, job)
    }
}

impl FieldJobs for CircuitJobs {
    type Job = CircuitJob;

    ghost asks = { circuit_asks };

    fn field(job: &CircuitJob) -> FieldName {
        job.field
    }

    fn challenger(job: &CircuitJob) -> &sumcheck_members::Challenger {
        &job.challenger
    }

    fn answer<F: Field, EF: ExtensionField<F>, R: IntoTranscriptField<EF>, C: Challenger<F>>(
        alloc: Global,
        job: CircuitJob,
        challenger: &mut C,
    ) -> Result<Answer, NoMemory> {
        answer_to::<F, EF, C>(alloc, job, challenger)
    }
}
