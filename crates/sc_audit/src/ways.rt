//! Which way the rounds of a job are built, where its statements are true.
ghost use Rattle.std.specs.Prelude.{◌≡◌, None, IfOk, length, map};
ghost use Rattle.sc_definitions.specs.Statements.{claimed_values, true_values};
ghost use Rattle.sc_table.specs.declared.strategy.Strategy.TheVariants.{SmallValue};
ghost use Rattle.sc_svo.specs.Batches.{batch_in};
ghost use Rattle.sc_jobs.specs.Fitting.{stated_in};
ghost use Rattle.sc_jobs.specs.Refusals.{strategy_refusal, false_refusal, refusal_in};
ghost use Rattle.sc_audit.specs.SmallRounds.{strategy_by, IsReady};
ghost use Rattle.sc_jobs.specs.Taken.{IsBatchOf, TestsClaims};

use sc_audit_errors::AuditError;
use sc_definitions::FalseClaim;
use sc_field::{ExtensionField, Field, NoMemory};
use sc_jobs::{FittingJob, claims_of, first_other};
use sc_svo::SvoBatch;
use sc_table::Strategy;
use std::alloc::Global;

// How rounds are built, with what that takes.
#[derive(Drop)]
pub(crate) enum Way<F: Field, EF: ExtensionField<F>> {
    // On the job's own table.
    Plain,
    // On the tables of the images in a representation.
    Represented,
    // The first rounds are read off the grids of this batch.
    SmallValue(SvoBatch<F, EF>),
}

// The way of a strategy that fits, unless a statement is false. The values that the statements are
// on are computed once: those of small-value rounds come with the batch.
pub(crate) fn way_of<F: Field, EF: ExtensionField<F>>(
    alloc: Global,
    fitting: &FittingJob<'_, F, EF>,
    strategy: Strategy,
) -> Result<Way<F, EF>, AuditError>
    requires { strategy_refusal (stated_in fitting.now) strategy ≡ None }
    ensures strategy { IfOk result (λ w. strategy_by w ≡ strategy) }
    ensures ready { IfOk result (λ w. IsReady EF.ops (stated_in fitting.now) w) }
    ensures tests { TestsClaims EF.ops (stated_in fitting.now) result }
{
    match strategy {
        Strategy::Plain => {
            check_claims(fitting)?;
            Ok(Way::Plain)
        }
        Strategy::Represented => {
            check_claims(fitting)?;
            Ok(Way::Represented)
        }
        Strategy::SmallValue { variables } => {
            let batch = true_batch(alloc, fitting, variables)?;
            Ok(Way::SmallValue(batch))
        }
    }
}

// Refuses the first statement that is false of a job's table.
fn check_claims<F: Field, EF: ExtensionField<F>>(
    fitting: &FittingJob<'_, F, EF>,
) -> Result<(), AuditError>
    ensures { TestsClaims EF.ops (stated_in fitting.now) result }
{
    refuse(fitting.job.constraint.first_false(&fitting.job.table))
}

// The batch of a job's statements, with the grids of the rounds for so many variables, unless a
// statement is false.
fn true_batch<F: Field, EF: ExtensionField<F>>(
    alloc: Global,
    fitting: &FittingJob<'_, F, EF>,
    variables: usize,
) -> Result<SvoBatch<F, EF>, AuditError>
    requires { strategy_refusal (stated_in fitting.now) (SmallValue variables) ≡ None }
    ensures batch { IfOk result
        (λ b. IsBatchOf EF.ops (stated_in fitting.now) (batch_in b)) }
    ensures rounds { IfOk result (λ b. length (batch_in b).grids ≡ variables) }
    ensures tests { TestsClaims EF.ops (stated_in fitting.now) result }
{
    let found = batch_of(alloc, fitting, variables)?;
    refuse(first_other(&found.claimed, &found.actual))?;
    Ok(found.batch)
}

// A batch, with the values that its statements claim, and those that are true.
#[derive(Drop)]
pub(crate) struct Batched<F: Field, EF: ExtensionField<F>> {
    pub(crate) batch: SvoBatch<F, EF>,
    claimed: Vec<EF>,
    pub(crate) actual: Vec<EF>,
}

// The batch of a job's statements, with the grids of the rounds for so many variables.
pub(crate) fn batch_of<F: Field, EF: ExtensionField<F>>(
    alloc: Global,
    fitting: &FittingJob<'_, F, EF>,
    variables: usize,
) -> Result<Batched<F, EF>, NoMemory>
    requires { strategy_refusal (stated_in fitting.now) (SmallValue variables) ≡ None }
    ensures batch { IfOk result
        (λ b. IsBatchOf EF.ops (stated_in fitting.now) (batch_in b.batch)) }
    ensures rounds { IfOk result (λ b. length (batch_in b.batch).grids ≡ variables) }
    ensures claimed { IfOk result (λ b. map EF.number b.claimed.items
        ≡ claimed_values (stated_in fitting.now).statements) }
    ensures actual { IfOk result (λ b. map EF.number b.actual.items ≡ true_values EF.ops
        (stated_in fitting.now).variables (stated_in fitting.now).table
        (stated_in fitting.now).statements) }
{
    let job = fitting.job;
    let claimed = claims_of(alloc, &job.constraint)?;
    let (batch, actual) = SvoBatch::with_values(
        alloc,
        job.order,
        &job.table,
        &claimed.claims,
        variables,
    )?;
    Ok(Batched {
        batch,
        claimed: claimed.values,
        actual,
    })
}

// Refuses a statement that is false, if there is one.
fn refuse(found: Option<FalseClaim>) -> Result<(), AuditError>
    ensures { refusal_in result ≡ false_refusal found }
{
    match found {
        Some(fault) => Err(AuditError::FalseClaim {
            statement: fault.statement,
            claimed: fault.claimed,
            actual: fault.actual,
        }),
        None => Ok(()),
    }
}
