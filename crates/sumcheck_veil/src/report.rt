//! The answer to a job of `veil`.
ghost use Rattle.std.specs.Prelude.{◌≡◌, ◌≢◌, IfOk, string_bytes};
ghost use Rattle.sc_zk_audit.specs.MaskedReports.{masked_reported};
ghost use Rattle.sumcheck_members.specs.Elements.{sizes_of};
ghost use Rattle.sumcheck_replies.specs.Fields.{fields_over, sizes_over};
ghost use Rattle.sumcheck_replies.specs.Reply.{Replies};
ghost use Rattle.sumcheck_veil.specs.PromisedVeils.{VeilPromise};
ghost use Rattle.sumcheck_veil.specs.VeilJob.{VeilJobFits};
ghost use Rattle.sumcheck_veil.specs.Veils.{shown_reply, veil_answer, veil_judged};
ghost use Rattle.sumcheck_veil.specs.Veils.{veil_lines, veil_refusal};

use crate::asked::asked_job;
use crate::job::VeilJob;
use crate::kind::VeilJobs;
use crate::lines::{
    even_text, no_rounds_text, push_carried, push_eps, push_mask_residual, push_mu, push_scaled,
    rounds_bound_text, short_text,
};
use crate::masks::{code_of, length_of};
use sc_challenger::Challenger;
use sc_commitments::Sha2Mmcs;
use sc_field::{ExtensionField, Field, NoMemory};
use sc_zk_audit::{MaskedError, MaskedReport, audit_masked};
use std::alloc::Global;
use sumcheck_replies::{Answer, Outcome, answer_named, lines};

/// The answer to a job of `veil`: its report, or why there is none. The numbers are given up before
/// the rounds begin.
///
/// So a job that is not refused holds, unless a round at a difficulty has no witness, and what its
/// rounds leave is the sum of the three parts that its report names.
pub fn judge_veil(alloc: Global, job: VeilJob) -> Result<Answer, NoMemory>
    requires { VeilJobFits (sizes_of job.stated.field) job }
    ensures reply { Replies result (veil_answer job) }
    ensures promised { VeilPromise job }
{
    answer_named::<VeilJobs>(alloc, job)
}

/// The same under a challenger, over these fields. The numbers are given up before a round is
/// played.
pub(crate) fn answer_to<F: Field, EF: ExtensionField<F>, C: Challenger<F>>(
    alloc: Global,
    job: VeilJob,
    challenger: &mut C,
) -> Result<Answer, NoMemory>
    requires { VeilJobFits (sizes_over F.ops EF.ops) job }
    ensures { Replies result (veil_judged
        (fields_over F.ops EF.ops EF.extension EF.embedding) job
        (C.party challenger.old).rules (C.party challenger.old).history) }
{
    let code = code_of::<EF>(length_of(&job.veil.masks));
    let asked = asked_job::<F, EF>(alloc, &job, &code)?;
    drop(job);
    match audit_masked(alloc, asked, &code, &Sha2Mmcs::new(), challenger) {
        Ok(report) => show_veil(alloc, &report),
        Err(error) => refuse_veil(alloc, error),
    }
}

/// The answer that shows a report on masked rounds.
pub fn show_veil<F: Field, EF: ExtensionField<F>>(
    alloc: Global,
    report: &MaskedReport<F, EF>,
) -> Result<Answer, NoMemory>
    ensures { Replies result (shown_reply (masked_reported F.number EF.number report.now)) }
{
    let mut text = report_text(alloc, report)?;
    lines::push_holds(&mut text)?;
    Ok(Answer::new(Outcome::Holds, text))
}

// The lines of a report up to the verdict.
#[tactic(auto, unfolding(crate::specs::Veils::veil_lines))]
fn report_text<F: Field, EF: ExtensionField<F>>(
    alloc: Global,
    report: &MaskedReport<F, EF>,
) -> Result<String, NoMemory>
    ensures { IfOk result (λ s. string_bytes s
        ≡ veil_lines (masked_reported F.number EF.number report.now)) }
{
    let run = &report.run;
    let mut text = String::new(alloc);
    lines::push_claim(&mut text, report.claim.index())?;
    push_mu(&mut text, run.zk_data.mu_tilde.index())?;
    push_eps(&mut text, run.eps.index())?;
    lines::push_values_rounds(
        &mut text,
        &run.zk_data.round_coefficients,
        &run.zk_data.pow_witnesses,
        run.randomness.as_slice(),
    )?;
    lines::push_residual(&mut text, run.claimed_residual.index())?;
    push_scaled(&mut text, run.scaled.index())?;
    push_carried(&mut text, run.carried.index())?;
    push_mask_residual(&mut text, run.mask_residual.index())?;
    Ok(text)
}

// The refusal of a job, in one line. Want of memory has no text.
fn refuse_veil(alloc: Global, error: MaskedError) -> Result<Answer, NoMemory>
    ensures { IfOk result (λ a. (a ≡ veil_refusal error) × (error ≢ MaskedError.NoMemory)) }
{
    match error {
        MaskedError::JobShape(fault) => {
            let why = lines::shape_fault_text(alloc, fault)?;
            Answer::refused(alloc, &why)
        }
        MaskedError::Rounds { rounds, bound } => {
            let why = rounds_bound_text(alloc, rounds, bound)?;
            Answer::refused(alloc, &why)
        }
        MaskedError::EvenCharacteristic => {
            let why = even_text(alloc)?;
            Answer::refused(alloc, &why)
        }
        MaskedError::MaskTooShort { ell_zk } => {
            let why = short_text(alloc, ell_zk)?;
            Answer::refused(alloc, &why)
        }
        MaskedError::NoRounds => {
            let why = no_rounds_text(alloc)?;
            Answer::refused(alloc, &why)
        }
        MaskedError::FalseClaim {
            statement,
            claimed,
            actual,
        } => {
            let why = lines::false_claim_text(alloc, statement, claimed, actual)?;
            Answer::refused(alloc, &why)
        }
        MaskedError::NoWitness { round } => Answer::no_witness(alloc, round),
        MaskedError::NoMemory => Err(NoMemory),
    }
}
