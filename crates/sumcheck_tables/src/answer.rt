//! The answer to a job.
ghost use Rattle.std.specs.Prelude.{◌≡◌, IsTrue, IfOk, []};
ghost use Rattle.sc_audit.specs.Asked.{asked_by};
ghost use Rattle.sc_jobs.specs.Audits.{HoldsIfBuilt};
ghost use Rattle.sc_jobs.specs.Cases as cases;
ghost use Rattle.sc_jobs.specs.Certified.{CertifiesLuck};
ghost use Rattle.sc_jobs.specs.Figures.{report_in};
ghost use Rattle.sc_jobs.specs.Results.{answer_to};
ghost use Rattle.sumcheck_replies.specs.Fields.{fields_over};
ghost use Rattle.sumcheck_tables.specs.Tables.{GivesTable, audited, draws_below, problem_of};
ghost use Rattle.sumcheck_tables.specs.Tables.{rules_of, table_answer};
ghost use Rattle.sumcheck_tables.specs.Views.{case_in, draws_in, task_in};

use crate::asked::{audit_job, has_points, is_over};
use crate::error::TableError;
use crate::job::{Draws, TableJob};
use crate::numbers::elements;
use sc_audit::{Job, Report, audit};
use sc_challenger::{Challenger, HashChallenger, ScriptedChallenger};
use sc_field::{ExtensionField, Field, IntoTranscriptField};
use std::alloc::Global;

/// Builds the rounds of a table, or checks those that are handed in, and reports on them. There is
/// no condition on the job: what does not fit is refused. Represented tables are in `R`.
pub fn audit_table<F: Field, EF: ExtensionField<F>, R: IntoTranscriptField<EF>>(
    alloc: Global,
    job: &TableJob<'_>,
) -> Result<Report<F, EF>, TableError>
    // The report on the numbers' rounds, or why there is none: an audit's answer, which is one
    // function of the job, want of memory aside.
    ensures given { GivesTable F.number EF.number
        (table_answer (fields_over F.ops EF.ops EF.extension EF.embedding) (case_in job.now))
        result }

    // The verdict on a build is that the claims hold.
    ensures holds { IfOk result (λ r. HoldsIfBuilt (task_in job.now.mode)
        (report_in F.number EF.number r).figures) }

    // Where the residual is right although a claim is false, a challenge is named lucky, and
    // certified.
    ensures certified { IfOk result (λ r. CertifiesLuck EF.ops
        (problem_of EF.embedding (case_in job.now)) (report_in F.number EF.number r).figures) }
{
    if !has_points(job) {
        return Err(TableError::Points);
    }
    if !is_over::<F, EF>(job) {
        return Err(TableError::NotAnElement);
    }
    let asked = audit_job(alloc, job)?;
    audit_drawn::<F, EF, R>(alloc, &asked, job.draws)
}

// The answer to an audit of these draws.
fn audit_drawn<F: Field, EF: ExtensionField<F>, R: IntoTranscriptField<EF>>(
    alloc: Global,
    asked: &Job<F, EF>,
    draws: Draws<'_>,
) -> Result<Report<F, EF>, TableError>
    requires { IsTrue (draws_below F.ops.size (draws_in draws)) }
    ensures given { GivesTable F.number EF.number (audited (answer_to
        (cases.asked_of asked.now (rules_of F.ops.size (draws_in draws.entry)) []))) result }
    ensures holds { IfOk result (λ r. HoldsIfBuilt
        (cases.task_in F.number EF.number asked.now.mode)
        (report_in F.number EF.number r).figures) }
    ensures certified { IfOk result (λ r. CertifiesLuck EF.ops (cases.problem_in asked.now)
        (report_in F.number EF.number r).figures) }
{
    match draws {
        Draws::Script(draws) => {
            let draws = elements(alloc, draws)?;
            let mut challenger: ScriptedChallenger<F> = ScriptedChallenger::new(
                alloc,
                draws,
                Vec::new(alloc),
            );
            audit_under::<F, EF, R, ScriptedChallenger<F>>(alloc, asked, &mut challenger)
        }
        Draws::Hash => {
            let mut challenger: HashChallenger<F> = HashChallenger::new(alloc);
            audit_under::<F, EF, R, HashChallenger<F>>(alloc, asked, &mut challenger)
        }
    }
}

// The answer to an audit under this challenger.
fn audit_under<F: Field, EF: ExtensionField<F>, R: IntoTranscriptField<EF>, C: Challenger<F>>(
    alloc: Global,
    asked: &Job<F, EF>,
    challenger: &mut C,
) -> Result<Report<F, EF>, TableError>
    ensures given { GivesTable F.number EF.number
        (audited (answer_to (asked_by asked.now (C.party challenger.old)))) result }
    ensures holds { IfOk result (λ r. HoldsIfBuilt
        (cases.task_in F.number EF.number asked.now.mode)
        (report_in F.number EF.number r).figures) }
    ensures certified { IfOk result (λ r. CertifiesLuck EF.ops (cases.problem_in asked.now)
        (report_in F.number EF.number r).figures) }
{
    match audit::<F, EF, R, C>(alloc, asked, challenger) {
        Ok(report) => Ok(report),
        Err(error) => Err(TableError::Audit(error)),
    }
}
