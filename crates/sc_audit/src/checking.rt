//! Rounds of a proof that are checked.
ghost use Rattle.sc_audit.specs.Asked.{asked_for};
ghost use Rattle.std.specs.Prelude.{◌≡◌, IfOk, Err, Some, None, length, map};
ghost use Rattle.std.specs.Option.{option_map};
ghost use Rattle.sc_definitions.specs.Tables.{point_of};
ghost use Rattle.sc_definitions.specs.Problem.{claim_of, residual_of};
ghost use Rattle.sc_table.specs.Strategy.{order_of};
ghost use Rattle.sc_transcript.specs.Data.{messages_in, witnesses_in};
ghost use Rattle.sc_jobs.specs.Cases.{given_in, check};
ghost use Rattle.sc_jobs.specs.Fitting.{job_in, stated_in, IsAllowed};
ghost use Rattle.sc_jobs.specs.Figures.{figures_of};
ghost use Rattle.sc_jobs.specs.Audits.{AnswersTask};
ghost use Rattle.sc_jobs.specs.Checked.{LeavesReport};

use crate::common::refusal;
use crate::verdict::verdict_on;
use sc_audit_errors::AuditError;
use sc_challenger::Challenger;
use sc_field::{ExtensionField, Field, NoMemory};
use sc_jobs::{FittingJob, Report};
use sc_rounds::SumcheckData;
use sc_svo::Grids;
use sc_table::{Point, VariableOrder};
use std::alloc::Global;

// Checks the rounds of a proof for a job of the right shape. No proof has no rounds.
pub(crate) fn check<F: Field, EF: ExtensionField<F>, C: Challenger<F>>(
    alloc: Global,
    fitting: &FittingJob<'_, F, EF>,
    proof: &Option<SumcheckData<F, EF>>,
    challenger: &mut C,
) -> Result<Report<F, EF>, AuditError>
    requires { IsAllowed fitting.now (C.party challenger.old).rules }
    ensures rules { (C.party challenger.new).rules ≡ (C.party challenger.old).rules }
    ensures task { AnswersTask F.number EF.number
        (asked_for (job_in fitting.now) (check (option_map (given_in F.number EF.number) proof.now))
        (C.party challenger.old)) result (C.party challenger.new).history }
{
    match proof {
        Some(proof) => check_rounds(alloc, fitting, proof, challenger),
        None => check_none(alloc, fitting, challenger),
    }
}

// The same, where no proof came.
fn check_none<F: Field, EF: ExtensionField<F>, C: Challenger<F>>(
    alloc: Global,
    fitting: &FittingJob<'_, F, EF>,
    challenger: &mut C,
) -> Result<Report<F, EF>, AuditError>
    requires { IsAllowed fitting.now (C.party challenger.old).rules }
    ensures rules { (C.party challenger.new).rules ≡ (C.party challenger.old).rules }
    ensures task { AnswersTask F.number EF.number
        (asked_for (job_in fitting.now) (check None) (C.party challenger.old)) result (C.party challenger.new).history }
{
    let variables = fitting.job.constraint.num_variables();
    if variables > 0 {
        return Err(AuditError::MissingSumcheckData {
            expected_rounds: variables,
        });
    }
    check_rounds(alloc, fitting, &SumcheckData::new(alloc), challenger)
}

// Replays the rounds of a proof, and reports on them.
fn check_rounds<F: Field, EF: ExtensionField<F>, C: Challenger<F>>(
    alloc: Global,
    fitting: &FittingJob<'_, F, EF>,
    proof: &SumcheckData<F, EF>,
    challenger: &mut C,
) -> Result<Report<F, EF>, AuditError>
    requires { IsAllowed fitting.now (C.party challenger.old).rules }
    ensures rules { (C.party challenger.new).rules ≡ (C.party challenger.old).rules }
    ensures task { AnswersTask F.number EF.number
        (asked_for (job_in fitting.now) (check (Some (given_in F.number EF.number proof.now)))
        (C.party challenger.old)) result (C.party challenger.new).history }
{
    let job = fitting.job;
    let mut claim = EF::ZERO;
    job.constraint.combine_evals(&mut claim);
    let mut residual = claim;
    let challenges = match proof.verify_rounds(
        alloc,
        challenger,
        &mut residual,
        job.constraint.num_variables(),
        job.pow_bits,
        job.basis,
    ) {
        Ok(challenges) => challenges,
        Err(error) => return Err(refusal(error)),
    };
    report_on(alloc, fitting, proof, claim, residual, challenges)
}

// The report on rounds that were replayed: the claim that they began with, what they leave of it,
// and their challenges.
fn report_on<F: Field, EF: ExtensionField<F>>(
    alloc: Global,
    fitting: &FittingJob<'_, F, EF>,
    proof: &SumcheckData<F, EF>,
    claim: EF,
    residual: EF,
    challenges: Point<EF>,
) -> Result<Report<F, EF>, AuditError>
    requires messages { length (messages_in EF.number proof.now) ≡ (stated_in fitting.now).variables }
    requires count { length challenges ≡ (stated_in fitting.now).variables }
    requires claim { EF.number claim ≡ claim_of EF.ops (stated_in fitting.now) }
    requires residual { EF.number residual ≡ residual_of EF.ops (stated_in fitting.now) (messages_in EF.number proof.now) (map EF.number challenges) }
    ensures { LeavesReport F.number EF.number (figures_of EF.ops (stated_in fitting.now)
        (messages_in EF.number proof.now) (witnesses_in F.number proof.now) (map EF.number challenges)) result }
{
    let job = fitting.job;
    let point = point_at(alloc, job.order, &challenges)?;
    let eval: EF = job.basis.eval_slice(&job.table, point.as_slice());
    let weight = job.constraint.eval_at(job.basis, &point);
    let matched = residual.index() == eval.mul(weight).index();
    let verdict = verdict_on(alloc, fitting, proof, &challenges, matched)?;
    let rounds = proof.copy(alloc)?;
    Ok(Report {
        claim,
        rounds,
        challenges,
        residual,
        eval,
        weight,
        grids: Grids::empty(alloc),
        verdict,
    })
}

// The point that challenges in drawing order make.
fn point_at<EF: Field>(
    alloc: Global,
    order: VariableOrder,
    challenges: &Point<EF>,
) -> Result<Point<EF>, NoMemory>
    ensures { IfOk result (λ p. map EF.number p ≡ point_of (order_of order) (map EF.number challenges.now)) }
{
    match order {
        VariableOrder::Prefix => challenges.copy(alloc),
        VariableOrder::Suffix => challenges.reversed(alloc),
    }
}
