//! The answer to a job of `matmul`.
ghost use Rattle.std.specs.Prelude.{◌≡◌, ◌≢◌, IfOk, string_bytes};
ghost use Rattle.sc_matmul.specs.MatmulReports.{figures_in, finding_in};
ghost use Rattle.sumcheck_members.specs.Elements.{sizes_of};
ghost use Rattle.sumcheck_matmul.specs.MatmulJob.{MatmulJobFits};
ghost use Rattle.sumcheck_matmul.specs.MatmulReplies.{figures_reply, matmul_answer, matmul_judged};
ghost use Rattle.sumcheck_matmul.specs.MatmulReplies.{matmul_finding_reply, matmul_lines};
ghost use Rattle.sumcheck_matmul.specs.MatmulReplies.{matmul_refusal};
ghost use Rattle.sumcheck_matmul.specs.PromisedProducts.{MatmulPromise};
ghost use Rattle.sumcheck_replies.specs.Fields.{fields_over, sizes_over};
ghost use Rattle.sumcheck_replies.specs.Reply.{Replies};

use crate::asked::{matrix_of, proof_came};
use crate::job::MatmulJob;
use crate::kind::MatmulJobs;
use crate::lines::{
    false_entry_text, inner_text, outer_text, push_left, push_lucky_point, push_point, push_right,
    side_text,
};
use sc_challenger::Challenger;
use sc_field::{ExtensionField, Field, NoMemory};
use sc_matmul::{MatmulError, MatmulReport, MatmulVerdict, audit_matmul};
use std::alloc::Global;
use sumcheck_replies::{Answer, Outcome, answer_named, lines};

/// The answer to a job of `matmul`: its report, or why there is none. The numbers are given up
/// before the rounds begin.
///
/// So a build of true entries whose sides fit holds, and where a proof lets a false entry through,
/// a challenge is named lucky, and certified.
pub fn judge_matmul(alloc: Global, job: MatmulJob) -> Result<Answer, NoMemory>
    requires { MatmulJobFits (sizes_of job.field) job }
    ensures reply { Replies result (matmul_answer job) }
    ensures promised { MatmulPromise job }
{
    answer_named::<MatmulJobs>(alloc, job)
}

/// The same under a challenger, over these fields. The numbers are given up before a round is
/// played.
pub(crate) fn answer_to<F: Field, EF: ExtensionField<F>, C: Challenger<F>>(
    alloc: Global,
    job: MatmulJob,
    challenger: &mut C,
) -> Result<Answer, NoMemory>
    requires { MatmulJobFits (sizes_over F.ops EF.ops) job }
    ensures { Replies result (matmul_judged
        (fields_over F.ops EF.ops EF.extension EF.embedding) job
        (C.party challenger.old).rules (C.party challenger.old).history) }
{
    let left = matrix_of::<F>(alloc, job.left.as_slice())?;
    let right = matrix_of::<F>(alloc, job.right.as_slice())?;
    let claimed = matrix_of::<F>(alloc, job.claimed.as_slice())?;
    let came = proof_came::<F, EF>(alloc, &job.mode)?;
    let bits = job.bits as usize;
    drop(job);
    match audit_matmul(
        alloc,
        &left,
        &right,
        &claimed,
        bits,
        came.as_ref(),
        challenger,
    ) {
        Ok(report) => show_matmul(alloc, &report),
        Err(error) => refuse_matmul(alloc, error),
    }
}

/// The answer that shows a report on a claimed product.
pub fn show_matmul<F: Field, EF: ExtensionField<F>>(
    alloc: Global,
    report: &MatmulReport<F, EF>,
) -> Result<Answer, NoMemory>
    ensures { Replies result (figures_reply (figures_in F.number EF.number report.now)) }
{
    let text = report_text(alloc, report)?;
    say_verdict(text, &report.verdict)
}

// The answer of a report's lines, up to the verdict, and of its verdict.
fn say_verdict<EF: Field>(report: String, verdict: &MatmulVerdict<EF>) -> Result<Answer, NoMemory>
    ensures { Replies result
        (matmul_finding_reply (finding_in EF.number verdict.now) (string_bytes report)) }
{
    let mut text = report;
    match verdict {
        MatmulVerdict::Holds => {
            lines::push_holds(&mut text)?;
            Ok(Answer::new(Outcome::Holds, text))
        }
        MatmulVerdict::Refuted => {
            lines::push_refuted(&mut text)?;
            Ok(Answer::new(Outcome::Refuted, text))
        }
        MatmulVerdict::LuckyPoint { poly, vanishing } => {
            push_lucky_point(&mut text, poly.as_slice(), *vanishing)?;
            Ok(Answer::new(Outcome::Lucky, text))
        }
        MatmulVerdict::LuckyRound {
            round,
            poly,
            vanishing,
        } => {
            lines::push_lucky_round(&mut text, *round, poly.as_slice(), *vanishing)?;
            Ok(Answer::new(Outcome::Lucky, text))
        }
    }
}

// The lines of a report up to the verdict.
#[tactic(auto, unfolding(crate::specs::MatmulReplies::matmul_lines))]
fn report_text<F: Field, EF: ExtensionField<F>>(
    alloc: Global,
    report: &MatmulReport<F, EF>,
) -> Result<String, NoMemory>
    ensures { IfOk result (λ s. string_bytes s
        ≡ matmul_lines (figures_in F.number EF.number report.now)) }
{
    let mut text = String::new(alloc);
    push_point(&mut text, report.point.index())?;
    lines::push_claim(&mut text, report.claim.index())?;
    lines::push_rounds(
        &mut text,
        report.rounds.polynomial_evaluations(),
        &report.rounds.pow_witnesses,
        report.challenges.as_slice(),
    )?;
    lines::push_residual(&mut text, report.residual.index())?;
    push_left(&mut text, report.left.index())?;
    push_right(&mut text, report.right.index())?;
    Ok(text)
}

// The refusal of a job or of its proof, in one line. Want of memory has no text.
fn refuse_matmul(alloc: Global, error: MatmulError) -> Result<Answer, NoMemory>
    ensures { IfOk result (λ a. (a ≡ matmul_refusal error) × (error ≢ MatmulError.NoMemory)) }
{
    match error {
        MatmulError::Side { which, rows, cols } => {
            let why = side_text(alloc, which, rows, cols)?;
            Answer::refused(alloc, &why)
        }
        MatmulError::Inner { left, right } => {
            let why = inner_text(alloc, left, right)?;
            Answer::refused(alloc, &why)
        }
        MatmulError::Outer { rows, cols } => {
            let why = outer_text(alloc, rows, cols)?;
            Answer::refused(alloc, &why)
        }
        MatmulError::Difficulty { bits, bound } => {
            let why = lines::difficulty_text(alloc, bits, bound)?;
            Answer::refused(alloc, &why)
        }
        MatmulError::FalseEntry {
            row,
            col,
            claimed,
            actual,
        } => {
            let why = false_entry_text(alloc, (row, col), claimed, actual)?;
            Answer::refused(alloc, &why)
        }
        MatmulError::RoundCountMismatch { expected, actual } => {
            let why = lines::rounds_text(alloc, expected, actual)?;
            Answer::proof_refused(alloc, &why)
        }
        MatmulError::PowWitnessCountMismatch { expected, actual } => {
            let why = lines::witnesses_text(alloc, expected, actual)?;
            Answer::proof_refused(alloc, &why)
        }
        MatmulError::InvalidPowWitness { round, difficulty } => {
            let why = lines::witness_text(alloc, round, difficulty)?;
            Answer::proof_refused(alloc, &why)
        }
        MatmulError::NoWitness { round } => Answer::no_witness(alloc, round),
        MatmulError::NoMemory => Err(NoMemory),
    }
}
