//! The answer to a job of `openings`.
ghost use Rattle.std.specs.Prelude.{◌≡◌, ◌≤◌, IfOk, length, string_bytes};
ghost use Rattle.sc_openings.specs.OpeningsReports.{figures_in, finding_in};
ghost use Rattle.sumcheck_members.specs.Elements.{sizes_of};
ghost use Rattle.sumcheck_openings.specs.OpeningsJob.{OpeningsJobFits};
ghost use Rattle.sumcheck_openings.specs.OpeningsReplies.{figures_reply, openings_answer};
ghost use Rattle.sumcheck_openings.specs.OpeningsReplies.{openings_judged, openings_lines};
ghost use Rattle.sumcheck_openings.specs.PromisedOpenings.{OpeningsPromise};
ghost use Rattle.sumcheck_replies.specs.Fields.{fields_over, sizes_over};
ghost use Rattle.sumcheck_replies.specs.Refusals.{finding_reply};
ghost use Rattle.sumcheck_replies.specs.Reply.{Replies};

use crate::asked::{claims_of, proof_came};
use crate::job::OpeningsJob;
use crate::kind::OpeningsJobs;
use crate::lines::push_numbered;
use crate::refusals::refuse_openings;
use sc_challenger::Challenger;
use sc_field::{ExtensionField, Field, NoMemory};
use sc_openings::{MergeReport, MergeVerdict, audit_openings};
use std::alloc::Global;
use sumcheck_replies::{Answer, Outcome, answer_named, element_lists, lines};

/// The answer to a job of `openings`: its report, or why there is none. The numbers are given up
/// before the rounds begin.
///
/// So a build of true claims that fit holds, and where a proof lets a false claim through, a
/// challenge is named lucky, and certified.
pub fn judge_openings(alloc: Global, job: OpeningsJob) -> Result<Answer, NoMemory>
    requires { OpeningsJobFits (sizes_of job.field) job }
    ensures reply { Replies result (openings_answer job) }
    ensures promised { OpeningsPromise job }
{
    answer_named::<OpeningsJobs>(alloc, job)
}

/// The same under a challenger, over these fields. The numbers are given up before a round is
/// played.
pub(crate) fn answer_to<F: Field, EF: ExtensionField<F>, C: Challenger<F>>(
    alloc: Global,
    job: OpeningsJob,
    challenger: &mut C,
) -> Result<Answer, NoMemory>
    requires { OpeningsJobFits (sizes_over F.ops EF.ops) job }
    ensures { Replies result (openings_judged
        (fields_over F.ops EF.ops EF.extension EF.embedding) job
        (C.party challenger.old).rules (C.party challenger.old).history) }
{
    let tables = element_lists::<F>(alloc, job.tables.as_slice())?;
    let claims = claims_of::<EF>(alloc, job.claims.as_slice())?;
    let came = proof_came::<F, EF>(alloc, &job.mode)?;
    let variables = job.variables as usize;
    let bits = job.bits as usize;
    drop(job);
    match audit_openings(
        alloc,
        variables,
        &tables,
        &claims,
        bits,
        came.as_ref(),
        challenger,
    ) {
        Ok(report) => show_openings(alloc, &report),
        Err(error) => refuse_openings(alloc, error),
    }
}

/// The answer that shows a report on claims on tables.
pub fn show_openings<F: Field, EF: ExtensionField<F>>(
    alloc: Global,
    report: &MergeReport<F, EF>,
) -> Result<Answer, NoMemory>
    ensures { Replies result (figures_reply (figures_in F.number EF.number report.now)) }
{
    let text = report_text(alloc, report)?;
    say_verdict(text, &report.verdict)
}

// The answer of a report's lines, up to the verdict, and of its verdict.
fn say_verdict<EF: Field>(report: String, verdict: &MergeVerdict<EF>) -> Result<Answer, NoMemory>
    ensures { Replies result
        (finding_reply (finding_in EF.number verdict.now) (string_bytes report)) }
{
    let mut text = report;
    match verdict {
        MergeVerdict::Holds => {
            lines::push_holds(&mut text)?;
            Ok(Answer::new(Outcome::Holds, text))
        }
        MergeVerdict::Refuted => {
            lines::push_refuted(&mut text)?;
            Ok(Answer::new(Outcome::Refuted, text))
        }
        MergeVerdict::LuckyBatch { poly, vanishing } => {
            lines::push_lucky_batch(&mut text, poly.as_slice(), *vanishing)?;
            Ok(Answer::new(Outcome::Lucky, text))
        }
        MergeVerdict::LuckyRound {
            round,
            poly,
            vanishing,
        } => {
            lines::push_lucky_round(&mut text, *round, poly.as_slice(), *vanishing)?;
            Ok(Answer::new(Outcome::Lucky, text))
        }
    }
}

// The lines of a report up to the verdict.
#[tactic(auto, unfolding(crate::specs::OpeningsReplies::openings_lines))]
fn report_text<F: Field, EF: ExtensionField<F>>(
    alloc: Global,
    report: &MergeReport<F, EF>,
) -> Result<String, NoMemory>
    ensures { IfOk result (λ s. string_bytes s
        ≡ openings_lines (figures_in F.number EF.number report.now)) }
{
    let mut text = String::new(alloc);
    lines::push_claim(&mut text, report.claim.index())?;
    lines::push_rounds(
        &mut text,
        report.proof.rounds.polynomial_evaluations(),
        &report.proof.rounds.pow_witnesses,
        report.challenges.as_slice(),
    )?;
    lines::push_residual(&mut text, report.residual.index())?;
    push_numbered(&mut text, "open", &report.proof.openings)?;
    push_numbered(&mut text, "weight", report.weights.as_slice())?;
    Ok(text)
}
