//! Rounds that are built.
ghost use Rattle.sc_audit.specs.Asked.{asked_for};
ghost use Rattle.std.specs.Prelude.{◌≡◌, IfOk, None};
ghost use Rattle.sc_jobs.specs.Cases.{build};
ghost use Rattle.sc_jobs.specs.Fitting.{job_in, stated_in, AllTrue, IsAllowed};
ghost use Rattle.sc_jobs.specs.Audits.{Answers, AnswersTask};
ghost use Rattle.sc_audit.specs.Built.{LeavesBuild, kept_in};
ghost use Rattle.sc_jobs.specs.BuiltCases.{IsBuiltCase};
ghost use Rattle.sc_audit.specs.SmallRounds.{strategy_by, IsReady};

use crate::common::refusal;
use crate::small_value::small_value;
use crate::strategies::{Built, plain, represented};
use crate::ways::{Way, way_of};
use sc_audit_errors::AuditError;
use sc_challenger::Challenger;
use sc_field::{ExtensionField, Field, IntoTranscriptField};
use sc_jobs::{FittingJob, Report, Verdict, check_strategy};
use sc_table::Strategy;
use std::alloc::Global;

// Builds the rounds of a job of the right shape, unless the strategy does not fit it or a statement
// is false.
pub(crate) fn build<F: Field, EF: ExtensionField<F>, R: IntoTranscriptField<EF>, C: Challenger<F>>(
    alloc: Global,
    fitting: &FittingJob<'_, F, EF>,
    strategy: Strategy,
    challenger: &mut C,
) -> Result<Report<F, EF>, AuditError>
    requires { IsAllowed fitting.now (C.party challenger.old).rules }
    ensures rules { (C.party challenger.new).rules ≡ (C.party challenger.old).rules }
    ensures task { AnswersTask F.number EF.number
        (asked_for (job_in fitting.now) (build strategy) (C.party challenger.old)) result (C.party challenger.new).history }
    ensures holds { IfOk result (λ r. r.verdict ≡ Verdict.Holds) }
{
    check_strategy(fitting, strategy)?;
    let way = way_of(alloc, fitting, strategy)?;
    play::<F, EF, R, C>(alloc, fitting, way, challenger)
}

// Builds the rounds of a job whose statements are true on a copy of the challenger, and replays
// them on the challenger itself.
pub(crate) fn play<F: Field, EF: ExtensionField<F>, R: IntoTranscriptField<EF>, C: Challenger<F>>(
    alloc: Global,
    fitting: &FittingJob<'_, F, EF>,
    way: Way<F, EF>,
    challenger: &mut C,
) -> Result<Report<F, EF>, AuditError>
    requires difficulty { IsAllowed fitting.now (C.party challenger.old).rules }
    requires all_true { AllTrue fitting.now }
    requires ready { IsReady EF.ops (stated_in fitting.now) way }
    ensures rules { (C.party challenger.new).rules ≡ (C.party challenger.old).rules }
    ensures answers { Answers F.number EF.number None
        (asked_for (job_in fitting.now) (build (strategy_by way)) (C.party challenger.old)) result (C.party challenger.new).history }
    ensures holds { IfOk result (λ r. r.verdict ≡ Verdict.Holds) }
{
    let built = rounds_by::<F, EF, R, C>(alloc, fitting, way, challenger)?;
    replay(alloc, fitting, built, challenger)
}

// Builds the rounds of a job whose statements are true, in the transcript of a copy of the
// challenger.
fn rounds_by<F: Field, EF: ExtensionField<F>, R: IntoTranscriptField<EF>, C: Challenger<F>>(
    alloc: Global,
    fitting: &FittingJob<'_, F, EF>,
    way: Way<F, EF>,
    challenger: &C,
) -> Result<Built<F, EF>, AuditError>
    requires difficulty { IsAllowed fitting.now (C.party challenger.now).rules }
    requires all_true { AllTrue fitting.now }
    requires ready { IsReady EF.ops (stated_in fitting.now) way }
    ensures { LeavesBuild F.number EF.number
        (asked_for (job_in fitting.now) (build (strategy_by way)) (C.party challenger.now)) result }
{
    match way {
        Way::Plain => plain(alloc, fitting, challenger),
        Way::Represented => represented::<F, EF, R, C>(alloc, fitting, challenger),
        Way::SmallValue(batch) => small_value(alloc, fitting, batch, challenger),
    }
}

// Replays the rounds that were built of a job by some strategy on the challenger itself, and
// reports on them.
fn replay<F: Field, EF: ExtensionField<F>, C: Challenger<F>>(
    alloc: Global,
    fitting: &FittingJob<'_, F, EF>,
    built: Built<F, EF>,
    challenger: &mut C,
) -> Result<Report<F, EF>, AuditError>
    requires difficulty { IsAllowed fitting.now (C.party challenger.old).rules }
    requires all_true { AllTrue fitting.now }
    ensures rules { (C.party challenger.new).rules ≡ (C.party challenger.old).rules }
    ensures answers { (s : Strategy) → IsBuiltCase
        (asked_for (job_in fitting.now) (build s) (C.party challenger.old)) (kept_in F.number EF.number built) →
        Answers F.number EF.number None
        (asked_for (job_in fitting.now) (build s) (C.party challenger.old)) result (C.party challenger.new).history }
    ensures holds { IfOk result (λ r. r.verdict ≡ Verdict.Holds) }
{
    let Built {
        claim,
        rounds,
        challenges,
        eval,
        weight,
        grids,
    } = built;
    let mut residual = claim;
    if let Err(error) = rounds.verify_rounds(
        alloc,
        challenger,
        &mut residual,
        fitting.job.constraint.num_variables(),
        fitting.job.pow_bits,
        fitting.job.basis,
    ) {
        return Err(refusal(error));
    }
    Ok(Report {
        claim,
        rounds,
        challenges,
        residual,
        eval,
        weight,
        grids,
        verdict: Verdict::Holds,
    })
}
