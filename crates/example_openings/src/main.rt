//! Claims on three tables from Rust, merged into one opening of each: a false claim, openings that
//! are false one by one, and two false claims that a chosen challenge lets through.
#![tactic(auto)]

mod columns;
mod openings;

use columns::{Claimed, VARIABLES, true_claims};
use openings::{exchange, weigh};
use sc_challenger::{Challenger, HashChallenger, ScriptedChallenger};
use sc_field::{Field, NoMemory};
use sc_openings::{MergeError, MergeProof, MergeReport, MergeVerdict, audit_openings};
use sc_small_fields::F65537 as F;
use std::alloc::Global;
use std::io;

type Hash = HashChallenger<F>;

type Report = Result<MergeReport<F, F>, MergeError>;

fn main(rt: HostRuntime) -> anyhow::Result<()> {
    let alloc = rt.alloc();
    let mut claimed = true_claims(alloc)?;
    let built = audit(alloc, &claimed, None, &mut Hash::new(alloc))?;
    let (claims, rounds) = (claimed.claims.len(), built.challenges.num_variables());
    println!(rt;
        "{claims} claims in {rounds} rounds, as built: {}",
        built.verdict
    )?;
    print_line(&rt, "the openings:", &built.proof.openings)?;

    // a claim is false: a build tells it, and true rounds do not fit
    claimed.add(3, F::ONE);
    match audit(alloc, &claimed, None, &mut Hash::new(alloc)) {
        Ok(_) => println!(rt; "a false claim is not told")?,
        Err(error) => println!(rt; "with a false claim: {error}")?,
    }
    let report = audit(alloc, &claimed, Some(&built.proof), &mut Hash::new(alloc))?;
    println!(rt; "its rounds, handed in: {}", report.verdict)?;

    // the claims are true again
    claimed.add(3, F::ONE.neg());
    false_openings(&rt, alloc, &claimed, built)?;
    lucky_claims(&rt, alloc, claimed)
}

// Two openings are false, but weigh as much as the true ones, so that the residual is right.
fn false_openings(
    rt: &impl Print,
    alloc: Global,
    claimed: &Claimed,
    mut built: MergeReport<F, F>,
) -> anyhow::Result<()> {
    exchange(&mut built.proof.openings, built.weights.as_slice());
    let report = audit(alloc, claimed, Some(&built.proof), &mut Hash::new(alloc))?;
    let weighed = weigh(&built.proof.openings, report.weights.as_slice()).index();
    let residual = report.residual.index();
    println!(rt;
        "the residual is {residual}, other openings weigh {weighed}: {}",
        report.verdict
    )?;
    Ok(())
}

// Two claims are false, but a script draws 2 for the challenge that merges all, and at 2 the
// polynomial of what they are false by is 4 * 2 - 2^3 = 0.
fn lucky_claims(rt: &impl Print, alloc: Global, mut claimed: Claimed) -> anyhow::Result<()> {
    let built = audit(alloc, &claimed, None, &mut chosen(alloc)?)?;
    claimed.add(1, F::element(4));
    claimed.add(3, F::ONE.neg());
    let report = audit(alloc, &claimed, Some(&built.proof), &mut chosen(alloc)?)?;
    println!(rt; "at the chosen challenge: {}", report.verdict)?;
    if let MergeVerdict::LuckyBatch { poly, .. } = &report.verdict {
        print_line(rt, "its polynomial:", poly.as_slice())?;
    }
    Ok(())
}

// The report on claims without tests: their rounds and openings are built, or those that came are
// checked.
fn audit<C: Challenger<F>>(
    alloc: Global,
    claimed: &Claimed,
    proof: Option<&MergeProof<F, F>>,
    challenger: &mut C,
) -> Report {
    let Claimed { columns, claims } = claimed;
    audit_openings(alloc, VARIABLES, columns, claims, 0, proof, challenger)
}

// A challenger whose first draw, the challenge that merges the claims, is 2.
fn chosen(alloc: Global) -> Result<ScriptedChallenger<F>, NoMemory> {
    let mut draws = vec![in alloc; F::element(2), F::element(3), F::element(5)]?;
    draws.push(F::element(7))?;
    draws.push(F::element(11))?;
    Ok(ScriptedChallenger::new(alloc, draws, Vec::new(alloc)))
}

// Prints elements after a text, in one line.
fn print_line(rt: &impl Print, text: &str, elements: &[F]) -> io::Result<()> {
    print!(rt; "{text}")?;
    for element in elements {
        print!(rt; " {}", element.index())?;
    }
    println!(rt;)
}
