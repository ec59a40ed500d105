//! How the rounds of a job are built.
ghost use Rattle.sc_audit.specs.Asked.{asked_for};
ghost use Rattle.std.specs.Prelude.{◌≡◌, ◌∷◌, [], List, IfOk, map};
ghost use Rattle.sc_definitions.specs.declared.events.Event.{Event};
ghost use Rattle.sc_definitions.specs.Events.{Rules};
ghost use Rattle.sc_definitions.specs.Tables.{evaluation};
ghost use Rattle.sc_rounds.specs.ProverViews.{shown_by, image_shown_by};
ghost use Rattle.sc_rounds.specs.BaseViews.{base_shown};
ghost use Rattle.sc_table.specs.declared.strategy.Strategy.TheVariants.{Plain, Represented};
ghost use Rattle.sc_jobs.specs.Cases.{asked_to, build};
ghost use Rattle.sc_jobs.specs.Fitting.{job_in, stated_in, AllTrue, IsAllowed};
ghost use Rattle.sc_audit.specs.Built.{LeavesBuild};
ghost use Rattle.sc_jobs.specs.BuiltCases.{prover_for};

use crate::common::refusal;
use sc_audit_errors::AuditError;
use sc_challenger::Challenger;
use sc_field::{ExtensionField, Field, IntoTranscriptField, NoMemory};
use sc_jobs::FittingJob;
use sc_rounds::{BaseProduct, ProductPolynomial, ReprSumcheckProver, SumcheckData, SumcheckProver};
use sc_svo::Grids;
use sc_table::{Point, Poly};
use std::alloc::Global;

// Rounds that were built, with the claim that they began with, their challenges in drawing order,
// what the table and the weights are there, and the grids of small-value rounds.
#[derive(Drop)]
pub(crate) struct Built<F, EF> {
    pub(crate) claim: EF,
    pub(crate) rounds: SumcheckData<F, EF>,
    pub(crate) challenges: Point<EF>,
    pub(crate) eval: EF,
    pub(crate) weight: EF,
    pub(crate) grids: Grids<EF>,
}

// Builds the rounds of a job whose statements are true, in the transcript of a copy of the
// challenger. The first round is measured on the job's own table, and binds it into one of the
// extension's elements, of half as many rows.
pub(crate) fn plain<F: Field, EF: ExtensionField<F>, C: Challenger<F>>(
    alloc: Global,
    fitting: &FittingJob<'_, F, EF>,
    challenger: &C,
) -> Result<Built<F, EF>, AuditError>
    requires difficulty { IsAllowed fitting.now (C.party challenger.now).rules }
    requires all_true { AllTrue fitting.now }
    ensures { LeavesBuild F.number EF.number (asked_for (job_in fitting.now) (build Plain) (C.party challenger.now)) result }
{
    let variables = fitting.job.constraint.num_variables();
    if variables == 0 {
        return roundless(alloc, fitting);
    }
    let base = base_of(alloc, fitting)?;
    let claim = base.claimed_sum();
    let mut copied = challenger.copy(alloc)?;
    let mut rounds = SumcheckData::new(alloc);
    let (mut prover, challenges) = match base.compute_sumcheck_polynomials(
        alloc,
        &mut rounds,
        &mut copied,
        variables,
        fitting.job.pow_bits,
    ) {
        Ok(played) => played,
        Err(error) => return Err(refusal(error)),
    };
    let weight = prover.weights(alloc)?.as_slice()[0];
    let eval = prover.evals_view()[0];
    Ok(Built {
        claim,
        rounds,
        challenges,
        eval,
        weight,
        grids: Grids::empty(alloc),
    })
}

// The same where no variable is: no round is played, and what is left of the table and of the
// weights is their one entry.
fn roundless<F: Field, EF: ExtensionField<F>>(
    alloc: Global,
    fitting: &FittingJob<'_, F, EF>,
) -> Result<Built<F, EF>, AuditError>
    requires { (stated_in fitting.now).variables ≡ 0 }
    ensures { (R : Rules) (h : List Event) → LeavesBuild F.number EF.number
        (asked_to (job_in fitting.now) (build Plain) R h) result }
{
    let job = fitting.job;
    let (weights, claim) = job.constraint.combine_new(alloc)?;
    let eval = EF::embed(job.table[0]);
    let weight = weights.as_slice()[0];
    Ok(Built {
        claim,
        rounds: SumcheckData::new(alloc),
        challenges: Point::new(Vec::new(alloc)),
        eval,
        weight,
        grids: Grids::empty(alloc),
    })
}

// The same on the tables of the images in a representation, of a job whose table is of values.
pub(crate) fn represented<
    F: Field,
    EF: ExtensionField<F>,
    R: IntoTranscriptField<EF>,
    C: Challenger<F>,
>(
    alloc: Global,
    fitting: &FittingJob<'_, F, EF>,
    challenger: &C,
) -> Result<Built<F, EF>, AuditError>
    requires difficulty { IsAllowed fitting.now (C.party challenger.now).rules }
    requires all_true { AllTrue fitting.now }
    requires values { (stated_in fitting.now).basis ≡ evaluation }
    ensures { LeavesBuild F.number EF.number (asked_for (job_in fitting.now) (build Represented) (C.party challenger.now)) result }
{
    let mut prover: ReprSumcheckProver<F, EF, R> = ReprSumcheckProver::new(
        alloc,
        prover_of(alloc, fitting)?,
    )?;
    let claim = prover.claimed_sum();
    let mut copied = challenger.copy(alloc)?;
    let mut rounds = SumcheckData::new(alloc);
    let challenges = match prover.compute_sumcheck_polynomials(
        alloc,
        &mut rounds,
        &mut copied,
        fitting.job.constraint.num_variables(),
        fitting.job.pow_bits,
    ) {
        Ok(challenges) => challenges,
        Err(error) => return Err(refusal(error)),
    };
    let (eval, weight) = last_values(alloc, &mut prover)?;
    Ok(Built {
        claim,
        rounds,
        challenges,
        eval,
        weight,
        grids: Grids::empty(alloc),
    })
}

// What is left of the two tables of images where no variable is: the evaluation's element, and the
// weight's.
fn last_values<F: Field, EF: ExtensionField<F>, R: IntoTranscriptField<EF>>(
    alloc: Global,
    prover: &mut ReprSumcheckProver<F, EF, R>,
) -> Result<(EF, EF), NoMemory>
    requires { (image_shown_by prover.old).variables ≡ 0 }
    ensures eval { IfOk result (λ p. (image_shown_by prover.old).evals ≡ EF.number p.0 ∷ []) }
    ensures weight { IfOk result (λ p. (image_shown_by prover.old).weights ≡ EF.number p.1 ∷ []) }
{
    let weight = prover.weights(alloc)?.as_slice()[0].into_transcript();
    let eval = prover.evals(alloc)?.as_slice()[0].into_transcript();
    Ok((eval, weight))
}

// The table of a job whose statements are true, under their batched weights.
fn base_of<'a, F: Field, EF: ExtensionField<F>>(
    alloc: Global,
    fitting: &FittingJob<'a, F, EF>,
) -> Result<BaseProduct<'a, F, EF>, NoMemory>
    requires { AllTrue fitting.now }
    ensures { IfOk result
        (λ p. base_shown p ≡ prover_for EF.ops (stated_in fitting.now)) }
{
    let job = fitting.job;
    let (weights, claim) = job.constraint.combine_new(alloc)?;
    Ok(BaseProduct::new(job.basis, job.order, &job.table, weights, claim))
}

// The prover of a job whose statements are true.
fn prover_of<F: Field, EF: ExtensionField<F>>(
    alloc: Global,
    fitting: &FittingJob<'_, F, EF>,
) -> Result<SumcheckProver<F, EF>, NoMemory>
    requires { AllTrue fitting.now }
    ensures { IfOk result (λ p. shown_by p ≡ prover_for EF.ops (stated_in fitting.now)) }
{
    let job = fitting.job;
    let (weights, claim) = job.constraint.combine_new(alloc)?;
    let evals = Poly::new(embedded(alloc, &job.table)?);
    let poly = ProductPolynomial::new_in(job.basis, job.order, evals, weights);
    Ok(SumcheckProver::new(poly, claim))
}

// The table of the images in the extension.
pub(crate) fn embedded<F: Field, EF: ExtensionField<F>>(
    alloc: Global,
    table: &[F],
) -> Result<Vec<EF>, NoMemory>
    ensures { IfOk result (λ v. map EF.number v.items ≡ map (λ x. EF.embedding (F.number x)) table.now) }
{
    let mut images = Vec::with_capacity(alloc, table.len())?;
    for x in table {
        images.push_reserved(EF::embed(*x));
    }
    Ok(images)
}
