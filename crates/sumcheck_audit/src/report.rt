//! The answer to a job.
ghost use Rattle.sc_audit.specs.Asked.{asked_by};
ghost use Rattle.std.specs.Prelude.{◌≡◌, IfOk, string_bytes};
ghost use Rattle.sc_jobs.specs.Figures.{report_in, finding_in};
ghost use Rattle.sumcheck_members.specs.Elements.{sizes_of};
ghost use Rattle.sumcheck_audit.specs.Job.{JobFits};
ghost use Rattle.sumcheck_replies.specs.Fields.{fields_over, sizes_over};
ghost use Rattle.sumcheck_replies.specs.Refusals.{finding_reply};
ghost use Rattle.sumcheck_replies.specs.Reply.{Replies};
ghost use Rattle.sumcheck_audit.specs.CertifiedJobs.{JobPromise};
ghost use Rattle.sumcheck_audit.specs.Report.{case_reply};
ghost use Rattle.sumcheck_audit.specs.Report.{judge, judged_under, report_lines, report_reply};

use crate::asked::audit_job;
use crate::grids::push_grids;
use crate::job::Job;
use crate::kind::AuditJobs;
use sc_audit::{Job as AuditJob, Report, Verdict, audit};
use sc_challenger::Challenger;
use sc_field::{ExtensionField, Field, IntoTranscriptField, NoMemory};
use std::alloc::Global;
use sumcheck_replies::{Answer, Outcome, answer_named, lines, refuse};

/// The answer to a job: its report, or why there is none. The numbers are given up before the audit
/// begins.
///
/// So a build that is not refused holds, and where a proof lets a false statement through, a
/// challenge is named lucky, and certified.
pub fn judge_job(alloc: Global, job: Job) -> Result<Answer, NoMemory>
    requires { JobFits (sizes_of job.stated.field) job }
    ensures reply { Replies result (judge job) }
    ensures promised { JobPromise job }
{
    answer_named::<AuditJobs>(alloc, job)
}

/// The same under a challenger, over these fields. Represented tables are in `R`. The numbers are
/// given up before the audit begins.
pub(crate) fn judge_under<
    F: Field,
    EF: ExtensionField<F>,
    R: IntoTranscriptField<EF>,
    C: Challenger<F>,
>(alloc: Global, job: Job, challenger: &mut C) -> Result<Answer, NoMemory>
    requires { JobFits (sizes_over F.ops EF.ops) job }
    ensures { Replies result (judged_under (fields_over F.ops EF.ops EF.extension EF.embedding)
        job (C.party challenger.old).rules (C.party challenger.old).history) }
{
    let asked: AuditJob<F, EF> = audit_job(alloc, &job)?;
    drop(job);
    answer_of::<F, EF, R, C>(alloc, &asked, challenger)
}

// The answer to an audit.
fn answer_of<F: Field, EF: ExtensionField<F>, R: IntoTranscriptField<EF>, C: Challenger<F>>(
    alloc: Global,
    asked: &AuditJob<F, EF>,
    challenger: &mut C,
) -> Result<Answer, NoMemory>
    ensures { Replies result (case_reply report_lines
        (asked_by asked.now (C.party challenger.old))) }
{
    match audit::<F, EF, R, C>(alloc, asked, challenger) {
        Ok(report) => show_report(alloc, &report),
        Err(error) => refuse(alloc, error),
    }
}

/// The answer that shows a report, with its grids.
pub fn show_report<F: Field, EF: ExtensionField<F>>(
    alloc: Global,
    report: &Report<F, EF>,
) -> Result<Answer, NoMemory>
    ensures { Replies result (report_reply report_lines (report_in F.number EF.number report.now)) }
{
    let text = report_text(alloc, report)?;
    say_verdict(text, &report.verdict)
}

/// The answer of a report's lines, up to the verdict, and of its verdict.
pub fn say_verdict<EF: Field>(report: String, verdict: &Verdict<EF>) -> Result<Answer, NoMemory>
    ensures { Replies result
        (finding_reply (finding_in EF.number verdict.now) (string_bytes report)) }
{
    let mut text = report;
    match verdict {
        Verdict::Holds => {
            lines::push_holds(&mut text)?;
            Ok(Answer::new(Outcome::Holds, text))
        }
        Verdict::Refuted => {
            lines::push_refuted(&mut text)?;
            Ok(Answer::new(Outcome::Refuted, text))
        }
        Verdict::LuckyBatch { poly, vanishing } => {
            lines::push_lucky_batch(&mut text, poly.as_slice(), *vanishing)?;
            Ok(Answer::new(Outcome::Lucky, text))
        }
        Verdict::LuckyRound {
            round,
            poly,
            vanishing,
        } => {
            lines::push_lucky_round(&mut text, *round, poly.as_slice(), *vanishing)?;
            Ok(Answer::new(Outcome::Lucky, text))
        }
    }
}

// The lines of a report up to the verdict.
#[tactic(auto, unfolding(crate::specs::Report::figure_lines, crate::specs::Report::report_lines))]
fn report_text<F: Field, EF: ExtensionField<F>>(
    alloc: Global,
    report: &Report<F, EF>,
) -> Result<String, NoMemory>
    ensures { IfOk result (λ s. string_bytes s
        ≡ report_lines (report_in F.number EF.number report.now)) }
{
    let mut text = String::new(alloc);
    lines::push_claim(&mut text, report.claim.index())?;
    lines::push_rounds(
        &mut text,
        report.rounds.polynomial_evaluations(),
        &report.rounds.pow_witnesses,
        report.challenges.as_slice(),
    )?;
    lines::push_residual(&mut text, report.residual.index())?;
    lines::push_eval(&mut text, report.eval.index())?;
    lines::push_weight(&mut text, report.weight.index())?;
    push_grids(&mut text, &report.grids)?;
    Ok(text)
}
