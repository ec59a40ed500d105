//! The verdict on rounds of a proof, and the first lucky challenge where they let a false statement
//! through.
ghost use Rattle.std.specs.Prelude.{◌≡◌, ◌≢◌, ◌↔◌, [], IfOk, IsTrue, length, map};
ghost use Rattle.sc_definitions.specs.Problem.{claim_of};
ghost use Rattle.sc_definitions.specs.TwoTables.{tables_in};
ghost use Rattle.sc_definitions.specs.Polynomials.{AllZero};
ghost use Rattle.sc_definitions.specs.Lucky.{batch_polynomial, luck_of, true_claim_of};
ghost use Rattle.sc_rounds.specs.Turns.{IsPairOf};
ghost use Rattle.sc_transcript.specs.Data.{messages_in};
ghost use Rattle.sc_jobs.specs.Fitting.{stated_in};
ghost use Rattle.sc_audit_errors.specs.Findings.{named};
ghost use Rattle.sc_jobs.specs.Figures.{finding_in, finding_by, false_claim_of};

use crate::strategies::embedded;
use sc_field::laws::{count_roots, poly_at};
use sc_field::{ExtensionField, Field, NoMemory};
use sc_jobs::{FittingJob, Verdict};
use sc_rounds::{ProductPolynomial, SumcheckData, find_turn};
use sc_table::{Point, Poly};
use std::alloc::Global;

// The verdict on rounds with their challenges, as their residual is right or not.
pub(crate) fn verdict_on<F: Field, EF: ExtensionField<F>>(
    alloc: Global,
    fitting: &FittingJob<'_, F, EF>,
    proof: &SumcheckData<F, EF>,
    challenges: &Point<EF>,
    matched: bool,
) -> Result<Verdict<EF>, NoMemory>
    requires messages { length (messages_in EF.number proof.now)
        ≡ (stated_in fitting.now).variables }
    requires challenges { length challenges.now ≡ (stated_in fitting.now).variables }
    ensures { IfOk result (λ v. finding_in EF.number v
        ≡ finding_by matched (false_claim_of EF.ops (stated_in fitting.now))
        (luck_of EF.ops (stated_in fitting.now) (messages_in EF.number proof.now)
        (map EF.number challenges.now))) }
{
    if !matched {
        return Ok(Verdict::Refuted);
    }
    // What each statement claims, less its true value: the table is gone through once for each,
    // whether one is false or not.
    let job = fitting.job;
    let poly = job.constraint.batch_polynomial(alloc, &job.table)?;
    if is_zero(poly.as_slice()) {
        return Ok(Verdict::Holds);
    }
    // At the challenge it is what the batched claim exceeds the true one by.
    if poly_at(poly.as_slice(), job.constraint.challenge()).index() == 0 {
        let vanishing = count_roots(poly.as_slice());
        return Ok(Verdict::LuckyBatch { poly, vanishing });
    }
    turn_on(alloc, fitting, proof, challenges)
}

// Whether all coefficients are zero.
fn is_zero<EF: Field>(coefficients: &[EF]) -> bool
    ensures { IsTrue result ↔ AllZero EF.ops (map EF.number coefficients.now) }
{
    for coefficient in coefficients {
        if coefficient.index() != 0 {
            return false;
        }
    }
    true
}

// The verdict where a statement is false and the batched claim is too: the challenge of the first
// round that made it true was lucky. Where none did, the rounds are refuted.
fn turn_on<F: Field, EF: ExtensionField<F>>(
    alloc: Global,
    fitting: &FittingJob<'_, F, EF>,
    proof: &SumcheckData<F, EF>,
    challenges: &Point<EF>,
) -> Result<Verdict<EF>, NoMemory>
    requires messages { length (messages_in EF.number proof.now)
        ≡ (stated_in fitting.now).variables }
    requires challenges { length challenges.now ≡ (stated_in fitting.now).variables }
    requires wrong { claim_of EF.ops (stated_in fitting.now)
        ≢ true_claim_of EF.ops (stated_in fitting.now) [] (stated_in fitting.now).variables }
    ensures { IfOk result (λ v. finding_in EF.number v ≡ named
        (luck_of EF.ops (stated_in fitting.now) (messages_in EF.number proof.now)
        (map EF.number challenges.now))) }
{
    let (pair, claim) = pair_of(alloc, fitting)?;
    let messages = proof.polynomial_evaluations();
    match find_turn(alloc, pair, claim, messages, challenges.as_slice())? {
        Some(turn) => {
            let vanishing = count_roots(turn.polynomial.as_slice());
            Ok(Verdict::LuckyRound {
                round: turn.round,
                poly: turn.polynomial,
                vanishing,
            })
        }
        None => Ok(Verdict::Refuted),
    }
}

// The table of a job with its batched weights, and the batched claim.
fn pair_of<F: Field, EF: ExtensionField<F>>(
    alloc: Global,
    fitting: &FittingJob<'_, F, EF>,
) -> Result<(ProductPolynomial<F, EF>, EF), NoMemory>
    ensures pair { IfOk result
        (λ p. IsPairOf EF.number (tables_in EF.ops (stated_in fitting.now))
        (stated_in fitting.now).variables p.0) }
    ensures claim { IfOk result
        (λ p. EF.number p.1 ≡ claim_of EF.ops (stated_in fitting.now)) }
{
    let job = fitting.job;
    let (weights, claim) = job.constraint.combine_new(alloc)?;
    let evals = Poly::new(embedded(alloc, &job.table)?);
    Ok((
        ProductPolynomial::new_in(job.basis, job.order, evals, weights),
        claim,
    ))
}
