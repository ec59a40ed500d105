//! Jobs whose statements claim their true values, which are put in place of what they claim.
ghost use Rattle.std.specs.Prelude.{◌≡◌, None, IfOk, IfErr, IfSome, OnOk, OnErr};
ghost use Rattle.sc_jobs.specs.Cases.{problem_in};
ghost use Rattle.sc_jobs.specs.Fitting.{job_in};
ghost use Rattle.sc_audit.specs.SmallRounds.{IsSimpleWay};
ghost use Rattle.sc_jobs.specs.Stated.{IsRestated, truly_stated, shape_of, RefusesShape};
ghost use Rattle.sc_audit.specs.Ways.{IsWayOf, IsBatchedFor};

use crate::ways::{Batched, Way, batch_of};
use sc_audit_errors::AuditError;
use sc_field::{ExtensionField, Field, NoMemory};
use sc_jobs::{FittingJob, Job, Mode, check_strategy};
use sc_table::{Basis, Strategy};
use std::alloc::Global;

// Puts their true values in place of what the statements of a job claim, whose shape is not refused
// at this greatest difficulty. The answer is the way of its build, where it is one whose strategy
// fits: small-value rounds have their batch, which the values come from.
pub(crate) fn state_truth<F: Field, EF: ExtensionField<F>>(
    alloc: Global,
    job: &mut Job<F, EF>,
    max_bits: usize,
) -> Result<Option<Way<F, EF>>, AuditError>
    ensures kept { IsRestated job.old job.new }
    ensures shape { OnOk result (shape_of job.old max_bits ≡ None) }
    ensures stated { OnOk result (problem_in job.new ≡ truly_stated EF.ops (problem_in job.old)) }
    ensures way { IfOk result (λ found. IfSome found (IsWayOf job.new)) }
    ensures refused { IfErr result (RefusesShape (shape_of job.old max_bits)) }
    ensures same { OnErr result (problem_in job.new ≡ problem_in job.old) }
{
    let found = small_values(alloc, &FittingJob::of(job, max_bits)?)?;
    match found {
        Some(batched) => {
            job.constraint.claim_values(&batched.actual);
            Ok(Some(Way::SmallValue(batched.batch)))
        }
        None => {
            job.constraint.claim_truth(&job.table);
            Ok(simple_way(job))
        }
    }
}

// The batch of a job's build, with the true values, where it is one by small-value rounds that fit.
fn small_values<F: Field, EF: ExtensionField<F>>(
    alloc: Global,
    fitting: &FittingJob<'_, F, EF>,
) -> Result<Option<Batched<F, EF>>, NoMemory>
    ensures { IfOk result (λ found. IfSome found (IsBatchedFor (job_in fitting.now))) }
{
    let Mode::Build(strategy) = &fitting.job.mode else {
        return Ok(None);
    };
    let Strategy::SmallValue { variables } = *strategy else {
        return Ok(None);
    };
    if check_strategy(fitting, *strategy).is_err() {
        return Ok(None);
    }
    Ok(Some(batch_of(alloc, fitting, variables)?))
}

// The way of a build that takes nothing, where its strategy fits.
fn simple_way<F: Field, EF: ExtensionField<F>>(job: &Job<F, EF>) -> Option<Way<F, EF>>
    ensures { IfSome result (IsSimpleWay job.now) }
{
    match &job.mode {
        Mode::Build(Strategy::Plain) => Some(Way::Plain),
        Mode::Build(Strategy::Represented) => match job.basis {
            Basis::Evaluation => Some(Way::Represented),
            Basis::Projective => None,
        },
        _ => None,
    }
}
