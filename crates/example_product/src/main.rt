//! Rounds over the product of two tables from Rust: a proof that is built, and what checking says.
#![tactic(auto)]

use sc_challenger::HashChallenger;
use sc_field::Field;
use sc_product_audit::{ProductJob, ProductMode, ProductReport, audit_product};
use sc_small_fields::F65537 as F;
use std::alloc::Global;

type Hash = HashChallenger<F>;

fn main(rt: HostRuntime) -> anyhow::Result<()> {
    let alloc = rt.alloc();
    let report = audit(alloc, ProductMode::Build)?;
    let mut proof = report.proof;
    let sum = proof.claimed_sum.index();
    println!(rt; "sum {sum}, as built: {}", report.verdict)?;
    proof.claimed_sum = F::ZERO;
    let report = audit(alloc, ProductMode::Check(proof))?;
    println!(rt; "with another claim: {}", report.verdict)?;
    Ok(())
}

// The report on the tables 1, 2 and 3, 4, whose product is 3 and 8, without tests.
fn audit(alloc: Global, mode: ProductMode<F, F>) -> anyhow::Result<ProductReport<F, F>> {
    let first = vec![in alloc; F::ONE, F::element(2)]?;
    let second = vec![in alloc; F::element(3), F::element(4)]?;
    let job = ProductJob {
        tables: vec![in alloc; first, second]?,
        pow_bits: 0,
        mode,
    };
    Ok(audit_product(alloc, job, &mut Hash::new(alloc))?)
}
