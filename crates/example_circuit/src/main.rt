//! A layered circuit from Rust: a small permutation, as hashes are built on, evaluated by gates and
//! proved; and what is told of an output that is false.
#![tactic(auto)]

mod permutation;

use permutation::{permutation, permuted};
use sc_challenger::HashChallenger;
use sc_circuit::{Circuit, CircuitProof, CircuitReport, audit_circuit};
use sc_field::Field;
use sc_small_fields::F65537 as F;
use std::alloc::Global;

fn main(rt: HostRuntime) -> anyhow::Result<()> {
    let alloc = rt.alloc();
    let (circuit, start) = (permutation(alloc)?, [F::element(7), F::element(11)]);
    let [first, second] = permuted(start);
    let outputs = vec![in alloc; first, second, F::ZERO, F::ZERO]?;
    let built = audit(alloc, &circuit, start, &outputs, None)?;
    println!(rt; "{} layers, as built: {}", circuit.depth(), built.verdict)?;

    // an output is false: a build tells it, and true layers do not fit
    let outputs = vec![in alloc; first, second.add(F::ONE), F::ZERO, F::ZERO]?;
    match audit(alloc, &circuit, start, &outputs, None) {
        Ok(_) => println!(rt; "a false output is not told")?,
        Err(error) => println!(rt; "with a false output: {error}")?,
    }
    let report = audit(alloc, &circuit, start, &outputs, Some(&built.proof))?;
    println!(rt; "its layers, handed in: {}", report.verdict)?;
    Ok(())
}

// The report on claimed outputs of a circuit over two elements and two zeros, without tests: its
// layers are built, or those that came are checked.
fn audit(
    alloc: Global,
    circuit: &Circuit,
    start: [F; 2],
    outputs: &[F],
    came: Option<&CircuitProof<F, F>>,
) -> anyhow::Result<CircuitReport<F, F>> {
    let [first, second] = start;
    let inputs = vec![in alloc; first, second, F::ZERO, F::ZERO]?;
    if circuit.inputs() != inputs.len() {
        anyhow::bail!("the circuit has {} inputs", circuit.inputs());
    }
    let mut challenger = HashChallenger::new(alloc);
    Ok(audit_circuit(alloc, circuit, &inputs, outputs, 0, came, &mut challenger)?)
}
