//! The prover of a job whose statements are true.
ghost use Rattle.std.specs.Prelude.{◌≡◌, ◌⊎◌, ◌≤◌, None, Some, IfOk, IfErr, OnOk, length, map};
ghost use Rattle.sc_jobs.specs.BuiltCases.{prover_for};
ghost use Rattle.sc_jobs.specs.Cases.{problem_in};
ghost use Rattle.sc_jobs.specs.Fitting.{AllTrue, stated_in};
ghost use Rattle.sc_jobs.specs.Stated.{shape_of};
ghost use Rattle.sc_rounds.specs.ProverViews.{shown_by};
ghost use Rattle.sc_zk_audit.specs.MaskedRefusals.{refusal_after};
ghost use Rattle.sc_zk_transcript.specs.Shapes.{IsFit, shape_made};

use crate::error::MaskedError;
use crate::refusals::audit_refusal;
use crate::shape::check_masks;
use sc_field::{ExtensionField, Field, NoMemory};
use sc_jobs::{FittingJob, Job};
use sc_rounds::{ProductPolynomial, SumcheckProver};
use sc_table::Poly;
use sc_zk_definitions::ZkPrelude;
use std::alloc::Global;

// The prover of a job, unless it or so many masks of this length are refused. The job is given up.
pub(crate) fn fitting_prover<F: Field, EF: ExtensionField<F>>(
    alloc: Global,
    job: Job<F, EF>,
    rounds: usize,
    mask_len: usize,
    max_bits: usize,
) -> Result<SumcheckProver<F, EF>, MaskedError>
    ensures refused { IfErr result (λ e. (e ≡ MaskedError.NoMemory)
        ⊎ (refusal_after (shape_of job max_bits) EF.ops (problem_in job) mask_len rounds
        ≡ Some e)) }
    ensures passed { OnOk result
        (refusal_after (shape_of job max_bits) EF.ops (problem_in job) mask_len rounds
        ≡ None) }
    ensures rounds { OnOk result (rounds ≤ (problem_in job).variables) }
    ensures difficulty { OnOk result (job.pow_bits ≤ max_bits) }
    ensures fit { OnOk result (IsFit F.ops
        (shape_made ZkPrelude.InheritedClaim rounds mask_len job.pow_bits)) }
    ensures shown { IfOk result (λ p. shown_by p ≡ prover_for EF.ops (problem_in job)) }
{
    let fitting = match FittingJob::of(&job, max_bits) {
        Ok(fitting) => fitting,
        Err(error) => return Err(audit_refusal(error)),
    };
    check_masks(&fitting, rounds, mask_len)?;
    let prover = prover_of(alloc, &fitting)?;
    Ok(prover)
}

// The prover of a job whose statements are true.
fn prover_of<F: Field, EF: ExtensionField<F>>(
    alloc: Global,
    fitting: &FittingJob<'_, F, EF>,
) -> Result<SumcheckProver<F, EF>, NoMemory>
    requires { AllTrue fitting.now }
    ensures { IfOk result (λ p. shown_by p ≡ prover_for EF.ops (stated_in fitting.now)) }
{
    let job = fitting.job;
    let (weights, claim) = job.constraint.combine_new(alloc)?;
    let evals = Poly::new(embedded(alloc, &job.table)?);
    let poly = ProductPolynomial::new_in(job.basis, job.order, evals, weights);
    Ok(SumcheckProver::new(poly, claim))
}

// The table of the images in the extension.
fn embedded<F: Field, EF: ExtensionField<F>>(
    alloc: Global,
    table: &[F],
) -> Result<Vec<EF>, NoMemory>
    ensures { IfOk result (λ v. map EF.number v.items
        ≡ map (λ x. EF.embedding (F.number x)) table.now) }
{
    let mut images = Vec::with_capacity(alloc, table.len())?;
    for x in table {
        images.push_reserved(EF::embed(*x));
    }
    Ok(images)
}
