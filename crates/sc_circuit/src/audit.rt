//! The call.
ghost use Rattle.std.specs.Prelude.{◌≡◌, IfOk, length, map};
ghost use Rattle.std.specs.Option.{option_map};
ghost use Rattle.sc_circuit_definitions.specs.CircuitFindings.{CertifiesCircuit};
ghost use Rattle.sc_circuit.specs.Views.{layers_in, inputs_in};
ghost use Rattle.sc_circuit.specs.CircuitJobs.{fields, claimed_of, case_of, proof_in};
ghost use Rattle.sc_circuit.specs.CircuitReports.{GivesResult, circuit_result, result_in};
ghost use Rattle.sc_circuit.specs.CircuitReports.{ShowsLayers};
ghost use Rattle.sc_circuit.specs.CircuitAudits.{HoldsWhereBuilt, LeavesHistory};

use crate::asked::Asked;
use crate::circuit::Circuit;
use crate::error::CircuitError;
use crate::plays::{build, check};
use crate::proof::CircuitProof;
use crate::refusals::{test_difficulty, test_outputs};
use crate::report::CircuitReport;
use sc_challenger::Challenger;
use sc_field::{ExtensionField, Field};
use std::alloc::Global;

/// Builds the layers of claimed outputs, where no proof came, or checks those of the proof, and
/// reports on them.
///
/// The transcript is the outputs and the draw of their challenge, and then for each layer, the
/// outputs' layer first, the seed of its rounds and its claim, the rounds, the two values, and the
/// draw that merges them. A build plays on a copy of the challenger, which takes its place once all
/// layers are built. A refusal leaves the challenger's history as it was, but for two: after
/// [`CircuitError::Layer`] it has the layers before that one, and of its rounds those before the
/// one that is refused, and the test of a witness that fails; after [`CircuitError::NoMemory`] it
/// has a part of the transcript, from the front on, or nothing.
///
/// It takes time linear in the gates and in the values of all layers, and memory for the values of
/// all layers and for three tables as long as the longest one.
///
/// # Conditions
///
/// There are as many inputs as [`Circuit::inputs`] tells.
///
/// # Errors
///
/// The first of [`CircuitError::OutputCount`], [`CircuitError::Difficulty`], of a build
/// [`CircuitError::FalseOutput`] and [`CircuitError::NoWitness`], and of a proof
/// [`CircuitError::LayerCount`] and [`CircuitError::Layer`], that there is a cause for.
pub fn audit_circuit<F: Field, EF: ExtensionField<F>, C: Challenger<F>>(
    alloc: Global,
    circuit: &Circuit,
    inputs: &[F],
    outputs: &[F],
    pow_bits: usize,
    proof: Option<&CircuitProof<F, EF>>,
    challenger: &mut C,
) -> Result<CircuitReport<F, EF>, CircuitError>
    requires { length inputs.now ≡ inputs_in circuit.now }
    ensures rules { (C.party challenger.new).rules ≡ (C.party challenger.old).rules }

    // The answer is one function of what is asked, want of memory aside.
    ensures result { GivesResult (circuit_result
        (case_of (fields F.ops EF.ops EF.embedding EF.extension) (claimed_of (layers_in circuit.now)
        (map F.number inputs.now) (map F.number outputs.now)) pow_bits (C.party challenger.old))
        (option_map (λ p. proof_in F.number EF.number p.now) proof.entry))
        (result_in F.number EF.number result) }

    // A report shows the layers that were built, or those of the proof, as they came.
    ensures shown { IfOk result (ShowsLayers F.number EF.number pow_bits) }

    // What it leaves of the history, by the answer.
    ensures history { LeavesHistory
        (case_of (fields F.ops EF.ops EF.embedding EF.extension) (claimed_of (layers_in circuit.now)
        (map F.number inputs.now) (map F.number outputs.now)) pow_bits (C.party challenger.old))
        (option_map (λ p. proof_in F.number EF.number p.now) proof.entry)
        (result_in F.number EF.number result) (C.party challenger.new).history }

    // A build of true outputs holds, unless a round at a difficulty has no witness.
    ensures holds { HoldsWhereBuilt
        (case_of (fields F.ops EF.ops EF.embedding EF.extension) (claimed_of (layers_in circuit.now)
        (map F.number inputs.now) (map F.number outputs.now)) pow_bits (C.party challenger.old))
        (option_map (λ p. proof_in F.number EF.number p.now) proof.entry)
        (result_in F.number EF.number result) }

    // Where all layers agree although an output is false, a challenge is named lucky, and
    // certified: by a polynomial that is not zero and vanishes there, and the number of its roots.
    ensures certified { IfOk (result_in F.number EF.number result) (CertifiesCircuit
        (case_of (fields F.ops EF.ops EF.embedding EF.extension) (claimed_of (layers_in circuit.now)
        (map F.number inputs.now) (map F.number outputs.now)) pow_bits (C.party challenger.old))) }
{
    test_outputs(circuit.outputs(), outputs.len())?;
    test_difficulty(pow_bits, challenger.max_bits())?;
    let asked = Asked {
        circuit,
        inputs,
        outputs,
        pow_bits,
    };
    match proof {
        None => build(alloc, &asked, challenger),
        Some(proof) => check(alloc, &asked, proof, challenger),
    }
}
