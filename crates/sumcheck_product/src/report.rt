//! The answer to a job of `product`.
ghost use Rattle.std.specs.Prelude.{◌≡◌, ◌≢◌, IfOk, string_bytes};
ghost use Rattle.sc_product_audit.specs.ProductReports.{reported_in, verdict_finding};
ghost use Rattle.sumcheck_members.specs.Elements.{sizes_of};
ghost use Rattle.sumcheck_product.specs.CertifiedProducts.{ProductPromise};
ghost use Rattle.sumcheck_product.specs.ProductJob.{ProductJobFits};
ghost use Rattle.sumcheck_product.specs.Products.{product_answer, product_judged, product_lines};
ghost use Rattle.sumcheck_product.specs.Products.{product_refusal, reported_reply};
ghost use Rattle.sumcheck_replies.specs.Fields.{fields_over, sizes_over};
ghost use Rattle.sumcheck_replies.specs.Refusals.{finding_reply};
ghost use Rattle.sumcheck_replies.specs.Reply.{Replies};

use crate::asked::asked_job;
use crate::job::ProductJob;
use crate::kind::ProductJobs;
use sc_challenger::Challenger;
use sc_field::{ExtensionField, Field, NoMemory};
use sc_product_audit::{ProductError, ProductReport, ProductVerdict, audit_product};
use std::alloc::Global;
use sumcheck_replies::{Answer, Outcome, answer_named, lines};

/// The answer to a job of `product`: its report, or why there is none. The numbers are given up
/// before the rounds begin.
///
/// So a build whose shape is not refused holds, and where a proof lets a false sum through, a
/// round's challenge is named lucky, and certified.
pub fn judge_product(alloc: Global, job: ProductJob) -> Result<Answer, NoMemory>
    requires { ProductJobFits (sizes_of job.field) job }
    ensures reply { Replies result (product_answer job) }
    ensures promised { ProductPromise job }
{
    answer_named::<ProductJobs>(alloc, job)
}

/// The same under a challenger, over these fields. The numbers are given up before a round is
/// played.
pub(crate) fn answer_to<F: Field, EF: ExtensionField<F>, C: Challenger<F>>(
    alloc: Global,
    job: ProductJob,
    challenger: &mut C,
) -> Result<Answer, NoMemory>
    requires { ProductJobFits (sizes_over F.ops EF.ops) job }
    ensures { Replies result (product_judged
        (fields_over F.ops EF.ops EF.extension EF.embedding) job
        (C.party challenger.old).rules (C.party challenger.old).history) }
{
    let asked = asked_job::<F, EF>(alloc, &job)?;
    drop(job);
    match audit_product::<F, EF, C>(alloc, asked, challenger) {
        Ok(report) => show_product(alloc, &report),
        Err(error) => refuse_product(alloc, error),
    }
}

/// The answer that shows a report on rounds over a product.
pub fn show_product<F: Field, EF: ExtensionField<F>>(
    alloc: Global,
    report: &ProductReport<F, EF>,
) -> Result<Answer, NoMemory>
    ensures { Replies result (reported_reply (reported_in F.number EF.number report.now)) }
{
    let text = report_text(alloc, report)?;
    say_verdict(text, &report.verdict)
}

// The answer of a report's lines, up to the verdict, and of its verdict.
fn say_verdict<EF: Field>(report: String, verdict: &ProductVerdict<EF>) -> Result<Answer, NoMemory>
    ensures { Replies result
        (finding_reply (verdict_finding EF.number verdict.now) (string_bytes report)) }
{
    let mut text = report;
    match verdict {
        ProductVerdict::Holds => {
            lines::push_holds(&mut text)?;
            Ok(Answer::new(Outcome::Holds, text))
        }
        ProductVerdict::Refuted => {
            lines::push_refuted(&mut text)?;
            Ok(Answer::new(Outcome::Refuted, text))
        }
        ProductVerdict::LuckyRound {
            round,
            poly,
            vanishing,
        } => {
            lines::push_lucky_round(&mut text, *round, poly.as_slice(), *vanishing)?;
            Ok(Answer::new(Outcome::Lucky, text))
        }
    }
}

// The lines of a report up to the verdict.
#[tactic(auto, unfolding(crate::specs::Products::product_lines))]
fn report_text<F: Field, EF: ExtensionField<F>>(
    alloc: Global,
    report: &ProductReport<F, EF>,
) -> Result<String, NoMemory>
    ensures { IfOk result (λ s. string_bytes s
        ≡ product_lines (reported_in F.number EF.number report.now).figures) }
{
    let mut text = String::new(alloc);
    lines::push_claim(&mut text, report.proof.claimed_sum.index())?;
    lines::push_values_rounds(
        &mut text,
        &report.proof.round_polys,
        &report.proof.pow_witnesses,
        report.challenges.as_slice(),
    )?;
    lines::push_residual(&mut text, report.residual.index())?;
    lines::push_product(&mut text, report.product.index())?;
    Ok(text)
}

// The refusal of a job or of its proof, in one line. Want of memory has no text.
fn refuse_product(alloc: Global, error: ProductError) -> Result<Answer, NoMemory>
    ensures { IfOk result (λ a. (a ≡ product_refusal error) × (error ≢ ProductError.NoMemory)) }
{
    match error {
        ProductError::TableLength { len } => {
            let why = lines::table_length_text(alloc, len)?;
            Answer::refused(alloc, &why)
        }
        ProductError::TableCount { tables, bound } => {
            let why = lines::table_count_text(alloc, tables, bound)?;
            Answer::refused(alloc, &why)
        }
        ProductError::Difficulty { bits, bound } => {
            let why = lines::difficulty_text(alloc, bits, bound)?;
            Answer::refused(alloc, &why)
        }
        ProductError::RoundCountMismatch { expected, actual } => {
            let why = lines::rounds_text(alloc, expected, actual)?;
            Answer::proof_refused(alloc, &why)
        }
        ProductError::PowWitnessCountMismatch { expected, actual } => {
            let why = lines::witnesses_text(alloc, expected, actual)?;
            Answer::proof_refused(alloc, &why)
        }
        ProductError::PolyEvalCountMismatch {
            round,
            expected,
            actual,
        } => {
            let why = lines::width_text(alloc, round, expected, actual)?;
            Answer::proof_refused(alloc, &why)
        }
        ProductError::InvalidPowWitness { round, difficulty } => {
            let why = lines::witness_text(alloc, round, difficulty)?;
            Answer::proof_refused(alloc, &why)
        }
        ProductError::NoWitness { round } => Answer::no_witness(alloc, round),
        ProductError::NoMemory => Err(NoMemory),
    }
}
