//! A claimed product of two matrices from Rust: 64 by 64 entries in six rounds, an entry that is
//! false, and two that a chosen point lets through.
#![tactic(auto)]

mod matrices;

use matrices::{Claim, changed, true_claim};
use sc_challenger::{Challenger, HashChallenger, ScriptedChallenger};
use sc_field::{Field, NoMemory};
use sc_matmul::{MatmulError, MatmulReport, MatmulVerdict, SumcheckData, audit_matmul};
use sc_small_fields::F65537 as F;
use std::alloc::Global;

type Report = Result<MatmulReport<F, F>, MatmulError>;

fn main(rt: HostRuntime) -> anyhow::Result<()> {
    let alloc = rt.alloc();
    let claim = true_claim(alloc)?;
    let built = audit(alloc, &claim, None, &mut HashChallenger::new(alloc))?;
    let rounds = built.challenges.num_variables();
    println!(rt; "{rounds} rounds, as built: {}", built.verdict)?;

    // an entry is false: a build tells it, and true rounds do not fit
    let claim = changed(alloc, claim, 65, F::ONE)?;
    match audit(alloc, &claim, None, &mut HashChallenger::new(alloc)) {
        Ok(_) => println!(rt; "a false entry is not told")?,
        Err(error) => println!(rt; "with a false entry: {error}")?,
    }
    let report = audit(
        alloc,
        &claim,
        Some(&built.rounds),
        &mut HashChallenger::new(alloc),
    )?;
    println!(rt; "its rounds, handed in: {}", report.verdict)?;

    // under a script the point is known, and two entries can be chosen by it
    let claim = true_claim(alloc)?;
    let built = audit(alloc, &claim, None, &mut chosen(alloc)?)?;
    let claim = changed(alloc, claim, 0, F::element(2))?;
    let claim = changed(alloc, claim, 1, F::ONE.neg())?;
    let report = audit(alloc, &claim, Some(&built.rounds), &mut chosen(alloc)?)?;
    println!(rt; "at the chosen point: {}", report.verdict)?;
    if let MatmulVerdict::LuckyPoint { poly, .. } = &report.verdict {
        println!(rt; "its polynomial has {} coefficients", poly.len())?;
    }
    Ok(())
}

// The report on a claim without tests: its rounds are built, or those that came are checked.
fn audit<C: Challenger<F>>(
    alloc: Global,
    claim: &Claim,
    rounds: Option<&SumcheckData<F, F>>,
    challenger: &mut C,
) -> Report {
    audit_matmul(
        alloc,
        &claim.left,
        &claim.right,
        &claim.claimed,
        0,
        rounds,
        challenger,
    )
}

// A challenger whose first draw, the point, is 2.
fn chosen(alloc: Global) -> Result<ScriptedChallenger<F>, NoMemory> {
    let draws = vec![in alloc; F::element(2), F::element(3), F::element(5), F::element(7)]?;
    Ok(ScriptedChallenger::new(alloc, draws, Vec::new(alloc)))
}
