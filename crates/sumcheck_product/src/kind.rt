//! The jobs of `product` as a kind.
ghost use Rattle.sumcheck_product.specs.CertifiedProducts.{product_jobs};
ghost use Rattle.sumcheck_product.specs.Products.{product_asks};

use crate::job::ProductJob;
use crate::reading::read_product;
use crate::report::{answer_to, judge_product};
use sc_challenger::Challenger;
use sc_field::{ExtensionField, Field, IntoTranscriptField, NoMemory};
use serde_json::Value;
use std::alloc::Global;
use sumcheck_members::{FieldName, Unread};
use sumcheck_replies::{Answer, FieldJobs, JobKind};

/// The jobs of `product`.
pub struct ProductJobs;

impl JobKind for ProductJobs {
    type Job = ProductJob;

    ghost jobs = { product_jobs };

    fn read(alloc: Global, value: Value) -> Result<ProductJob, Unread> {
        read_product(alloc, value)
    }

    fn judge(alloc: Global, job: ProductJob) -> Result<Answer, NoMemory> {
        judge_product(alloc, job)
    }
}

impl FieldJobs for ProductJobs {
    type Job = ProductJob;

    ghost asks = { product_asks };

    fn field(job: &ProductJob) -> FieldName {
        job.field
    }

    fn challenger(job: &ProductJob) -> &sumcheck_members::Challenger {
        &job.challenger
    }

    fn answer<F: Field, EF: ExtensionField<F>, R: IntoTranscriptField<EF>, C: Challenger<F>>(
        alloc: Global,
        job: ProductJob,
        challenger: &mut C,
    ) -> Result<Answer, NoMemory> {
        answer_to::<F, EF, C>(alloc, job, challenger)
    }
}
