//! The audit that a job asks for.
ghost use Rattle.std.specs.Prelude.{◌≡◌, ◌*◌, ◌<◌, All, IsTrue, IfOk, length};
ghost use Rattle.sc_statements.specs.EqStatements.{eq_arity, eq_statements};
ghost use Rattle.sc_jobs.specs.Cases as cases;
ghost use Rattle.sumcheck_replies.specs.Fields.{fields_over, sizes_over};
ghost use Rattle.sumcheck_tables.specs.Tables.{draws_below, has_elements, task_below};
ghost use Rattle.sumcheck_tables.specs.Tables.{AskSame, asked_with, value_claims};
ghost use Rattle.sumcheck_tables.specs.Tables as tables;
ghost use Rattle.sumcheck_tables.specs.Views.{case_in, draws_in, task_in};

use crate::job::{Draws, TableJob, TableMode};
use crate::numbers::{all_below, elements, messages, rounds_below};
use sc_audit::{Job, Mode};
use sc_constraints::{Constraint, EqStatement, Statements};
use sc_field::{ExtensionField, Field, NoMemory};
use sc_table::Point;
use sc_transcript::SumcheckData;
use std::alloc::Global;

/// Whether each value of a job has a point.
pub(crate) fn has_points(job: &TableJob<'_>) -> bool
    ensures { result ≡ tables.has_points (case_in job.now) }
{
    job.values.len().checked_mul(job.variables) == Some(job.points.len())
}

/// Whether each number of a job is that of an element of its field.
pub(crate) fn is_over<F: Field, EF: ExtensionField<F>>(job: &TableJob<'_>) -> bool
    ensures { result ≡ has_elements (sizes_over F.ops EF.ops) (case_in job.now) }
{
    all_below(job.table, F::size())
        && all_below(job.points, EF::size())
        && all_below(job.values, EF::size())
        && u64::from(job.batching) < EF::size()
        && are_drawn::<F>(job.draws)
        && is_done_over::<F, EF>(job.mode)
}

// The same of the numbers of draws.
fn are_drawn<F: Field>(draws: Draws<'_>) -> bool
    ensures { result ≡ draws_below F.ops.size (draws_in draws.entry) }
{
    match draws {
        Draws::Script(draws) => all_below(draws, F::size()),
        Draws::Hash => true,
    }
}

// The same of the numbers of what is done.
fn is_done_over<F: Field, EF: ExtensionField<F>>(mode: TableMode<'_>) -> bool
    ensures { result ≡ task_below (sizes_over F.ops EF.ops) (task_in mode.entry) }
{
    match mode {
        TableMode::Build(_) => true,
        TableMode::Check { rounds, witnesses } => {
            rounds_below(rounds, EF::size()) && all_below(witnesses, F::size())
        }
    }
}

/// The audit of the elements that a job names by their numbers.
pub(crate) fn audit_job<F: Field, EF: ExtensionField<F>>(
    alloc: Global,
    job: &TableJob<'_>,
) -> Result<Job<F, EF>, NoMemory>
    requires points { IsTrue (tables.has_points (case_in job.now)) }
    requires elements { IsTrue (has_elements (sizes_over F.ops EF.ops) (case_in job.now)) }
    ensures { IfOk result (λ asked. AskSame (cases.asked_of asked)
        (asked_with (fields_over F.ops EF.ops EF.extension EF.embedding) (case_in job.now))) }
{
    let claims = claims_of(alloc, job.points, job.values, job.variables)?;
    let groups = vec![in alloc; Statements::Eq(claims)]?;
    let batching = EF::element(u64::from(job.batching));
    Ok(Job {
        table: elements(alloc, job.table)?,
        constraint: Constraint::new(batching, job.variables, groups),
        order: job.order,
        basis: job.basis,
        pow_bits: job.bits,
        mode: audit_mode(alloc, job.mode)?,
    })
}

// What is done with it.
fn audit_mode<F: Field, EF: ExtensionField<F>>(
    alloc: Global,
    mode: TableMode<'_>,
) -> Result<Mode<F, EF>, NoMemory>
    requires { IsTrue (task_below (sizes_over F.ops EF.ops) (task_in mode)) }
    ensures { IfOk result (λ asked. cases.task_in F.number EF.number asked
        ≡ task_in mode.entry) }
{
    match mode {
        TableMode::Build(strategy) => Ok(Mode::Build(strategy)),
        TableMode::Check { rounds, witnesses } => Ok(Mode::Check(Some(SumcheckData {
            polynomial_evaluations: messages(alloc, rounds)?,
            pow_witnesses: elements(alloc, witnesses)?,
        }))),
    }
}

// The claims that a table has these values at points, which stand one after another.
fn claims_of<F: Field>(
    alloc: Global,
    points: &[u32],
    values: &[u32],
    variables: usize,
) -> Result<EqStatement<F>, NoMemory>
    requires count { length points.now ≡ length values.now * variables }
    requires points { All (λ n. n < F.ops.size) points.now }
    requires values { All (λ n. n < F.ops.size) values.now }
    ensures claims { IfOk result (λ s. eq_statements F.number s
        ≡ value_claims variables points.now values.now) }
    ensures arity { IfOk result (λ s. eq_arity s ≡ variables) }
{
    let mut statement = EqStatement::initialize(alloc, variables);
    let mut rest = points;
    for value in values {
        let (point, later) = rest.split_at(variables);
        let point = Point::new(elements(alloc, point)?);
        statement.add_evaluated_constraint(point, F::element(u64::from(*value)))?;
        rest = later;
    }
    Ok(statement)
}
