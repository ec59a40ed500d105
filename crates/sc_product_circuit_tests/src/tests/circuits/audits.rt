//! Claimed outputs of circuits, built and checked.
use super::built::{BUILT, IN_PARTS};
use super::checked::CHECKED;
use super::refused::REFUSED;
use super::shapes::Layer;
use super::{are_rows, circuit, doublings, turned};
use sc_challenger::{Challenger, Event};
use sc_circuit::{
    Circuit, CircuitError, CircuitProof, CircuitReport, CircuitVerdict, LayerProof, audit_circuit,
};
use sc_field::{ExtensionField, Field};
use sc_memory::{NoMemory, Row};
use sc_small_fields::{F257, F257x2, F65537};
use sc_tests_common::{elements, have_numbers, of, scripted};
use std::alloc::Global;
use std::process::Abort;

/// What is sent for a layer.
#[derive(Clone, Copy)]
pub struct Sent {
    pub rounds: &'static [&'static [u64]],
    pub witnesses: &'static [u64],
    pub left: u64,
    pub right: u64,
}

/// What layers say of the outputs: of a lucky challenge the layer, or the layer and the round, the
/// polynomial and the number of its roots.
#[derive(Clone, Copy)]
pub enum Found {
    Holds,
    Refuted(usize),
    Merge(usize, &'static [u64], u64),
    Round((usize, usize), &'static [u64], u64),
}

/// A report.
#[derive(Clone, Copy)]
pub struct Shown {
    pub claim: u64,
    pub sent: &'static [Sent],
    pub challenges: &'static [&'static [u64]],
    pub merges: &'static [u64],
    pub last: u64,
    pub found: Found,
}

/// What is asked, which is a build without a proof, the draws and the witnesses that pass, the
/// answer, and how many events are the history after it, with the last of them.
#[derive(Clone, Copy)]
pub struct Case {
    pub name: &'static str,
    pub layers: &'static [Layer],
    pub inputs: &'static [u64],
    pub outputs: &'static [u64],
    pub pow_bits: usize,
    pub proof: Option<&'static [Sent]>,
    pub draws: &'static [u64],
    pub good: &'static [&'static [u64]],
    pub answer: Result<Shown, CircuitError>,
    pub events: usize,
    pub last: &'static [Event],
}

fn layer_proof<F: Field, EF: ExtensionField<F>>(
    alloc: Global,
    sent: &Sent,
) -> Result<LayerProof<F, EF>, NoMemory> {
    let mut round_polys = Vec::new(alloc);
    for values in sent.rounds {
        let values = elements(alloc, *values)?;
        round_polys.push(values)?;
    }
    Ok(LayerProof {
        round_polys,
        pow_witnesses: elements(alloc, sent.witnesses)?,
        left: of(sent.left),
        right: of(sent.right),
    })
}

fn proof_of<F: Field, EF: ExtensionField<F>>(
    alloc: Global,
    sent: &[Sent],
) -> Result<CircuitProof<F, EF>, NoMemory> {
    let mut layers = Vec::new(alloc);
    for layer in sent {
        let layer = layer_proof(alloc, layer)?;
        layers.push(layer)?;
    }
    Ok(CircuitProof { layers })
}

// The answer to claimed outputs of a circuit; another number of inputs than the circuit's is
// refused as a width.
fn audited<F: Field, EF: ExtensionField<F>, C: Challenger<F>>(
    alloc: Global,
    circuit: &Circuit,
    inputs: &[F],
    outputs: &[F],
    pow_bits: usize,
    proof: Option<&CircuitProof<F, EF>>,
    challenger: &mut C,
) -> Result<CircuitReport<F, EF>, CircuitError> {
    if inputs.len() != circuit.inputs() {
        return Err(CircuitError::Width {
            layer: circuit.depth(),
            len: inputs.len(),
        });
    }
    audit_circuit(alloc, circuit, inputs, outputs, pow_bits, proof, challenger)
}

// The answer to a case whose layers are a circuit over as many inputs.
fn answered<F: Field, EF: ExtensionField<F>, C: Challenger<F>>(
    alloc: Global,
    case: &Case,
    challenger: &mut C,
) -> Result<CircuitReport<F, EF>, CircuitError> {
    let inputs = elements(alloc, case.inputs)?;
    let outputs = elements(alloc, case.outputs)?;
    let circuit = circuit(alloc, case.layers, inputs.len())?;
    let proof = match case.proof {
        None => None,
        Some(sent) => Some(proof_of(alloc, sent)?),
    };
    audited(
        alloc,
        &circuit,
        &inputs,
        &outputs,
        case.pow_bits,
        proof.as_ref(),
        challenger,
    )
}

fn is_found<EF: Field>(verdict: &CircuitVerdict<EF>, wanted: Found) -> bool {
    match (verdict, wanted) {
        (CircuitVerdict::Holds, Found::Holds) => true,
        (CircuitVerdict::Refuted { layer }, Found::Refuted(i)) => *layer == i,
        (
            CircuitVerdict::LuckyMerge {
                layer,
                poly,
                vanishing,
            },
            Found::Merge(i, numbers, roots),
        ) => *layer == i && have_numbers(poly.as_slice(), numbers) && *vanishing == roots,
        (
            CircuitVerdict::LuckyRound {
                layer,
                round,
                poly,
                vanishing,
            },
            Found::Round(place, numbers, roots),
        ) => {
            (*layer, *round) == place
                && have_numbers(poly.as_slice(), numbers)
                && *vanishing == roots
        }
        _ => false,
    }
}

fn is_sent<F: Field, EF: Field>(layer: &LayerProof<F, EF>, sent: &Sent) -> bool {
    layer.round_polys.len() == sent.rounds.len()
        && layer
            .round_polys
            .iter()
            .zip(sent.rounds)
            .all(|(values, wanted)| have_numbers(values, *wanted))
        && have_numbers(&layer.pow_witnesses, sent.witnesses)
        && layer.left.index() == sent.left
        && layer.right.index() == sent.right
}

fn are_sent<F: Field, EF: Field>(layers: &[LayerProof<F, EF>], sent: &[Sent]) -> bool {
    layers.len() == sent.len()
        && layers
            .iter()
            .zip(sent)
            .all(|(layer, wanted)| is_sent(layer, wanted))
}

fn is_shown<F: Field, EF: ExtensionField<F>>(report: &CircuitReport<F, EF>, shown: &Shown) -> bool {
    report.claim.index() == shown.claim
        && are_sent(&report.proof.layers, shown.sent)
        && are_rows(report.challenges.as_slice(), shown.challenges)
        && have_numbers(report.merges.as_slice(), shown.merges)
        && report.last.index() == shown.last
        && is_found(&report.verdict, shown.found)
}

fn is_answer<F: Field, EF: ExtensionField<F>>(
    answer: &Result<CircuitReport<F, EF>, CircuitError>,
    wanted: &Result<Shown, CircuitError>,
) -> bool {
    match (answer, wanted) {
        (Ok(report), Ok(shown)) => is_shown(report, shown),
        (Err(error), Err(refusal)) => *error == *refusal,
        _ => false,
    }
}

fn assert_scripted<F: Field, EF: ExtensionField<F>, A: Abort>(rt: &A, alloc: Global, case: &Case) {
    let mut challenger = scripted::<F>(alloc, case.draws, case.good).expect(rt, "an answer");
    let answer = answered::<F, EF, _>(alloc, case, &mut challenger);
    assert!(rt; is_answer(&answer, &case.answer), "{}", case.name);
    assert!(rt; challenger.events().len() == case.events, "{}", case.name);
    assert!(rt; challenger.events().ends_with(case.last), "{}", case.name);
}

#[test]
fn layers_that_are_built(rt: HostRuntime) {
    for case in &BUILT {
        assert_scripted::<F65537, F65537, _>(&rt, rt.alloc(), case);
    }
}

#[test]
fn layers_that_are_checked(rt: HostRuntime) {
    for case in &CHECKED {
        assert_scripted::<F65537, F65537, _>(&rt, rt.alloc(), case);
    }
}

#[test]
fn outputs_and_proofs_that_are_refused(rt: HostRuntime) {
    for case in &REFUSED {
        assert_scripted::<F65537, F65537, _>(&rt, rt.alloc(), case);
    }
}

#[test]
fn challenges_in_an_extension(rt: HostRuntime) {
    for case in &IN_PARTS {
        assert_scripted::<F257, F257x2, _>(&rt, rt.alloc(), case);
    }
}

// A report on outputs that are claimed of a circuit, built, and checked again.
fn twice(
    alloc: Global,
    circuit: &Circuit,
    inputs: &[u64],
    outputs: &[u64],
) -> Result<(CircuitReport<F65537, F65537>, CircuitReport<F65537, F65537>), CircuitError> {
    let inputs = elements(alloc, inputs)?;
    let outputs = elements(alloc, outputs)?;
    let draws = [5, 3, 11, 2, 7, 13, 4, 9];
    let mut prover = scripted::<F65537>(alloc, &draws, &[])?;
    let built = audited(alloc, circuit, &inputs, &outputs, 0, None, &mut prover)?;
    let mut verifier = scripted::<F65537>(alloc, &draws, &[])?;
    let proof = Some(&built.proof);
    let checked = audited(alloc, circuit, &inputs, &outputs, 0, proof, &mut verifier)?;
    Ok((built, checked))
}

fn both_hold(
    reports: &(CircuitReport<F65537, F65537>, CircuitReport<F65537, F65537>),
    depth: usize,
    rounds: usize,
) -> bool {
    let (built, checked) = reports;
    let layers = &built.proof.layers;
    layers.len() == depth
        && layers.iter().all(|layer| layer.round_polys.len() == rounds)
        && is_found(&built.verdict, Found::Holds)
        && is_found(&checked.verdict, Found::Holds)
        && built.last.index() == checked.last.index()
}

#[test]
fn depths_of_1_2_and_32(rt: HostRuntime) {
    let alloc = rt.alloc();
    // 2^32 is 1 modulo 65537
    for (depth, output) in [(1, 10), (2, 20), (32, 5)] {
        let circuit = doublings(alloc, depth).expect(&rt, "a circuit");
        let reports = twice(alloc, &circuit, &[5], &[output]).expect(&rt, "reports");
        assert!(&rt; both_hold(&reports, depth, 0), "depth {depth}");
    }
}

// Over ones, gate g is the product of two ones.
#[test]
fn widths_of_1_to_256(rt: HostRuntime) {
    let alloc = rt.alloc();
    let mut ones = Vec::new(alloc);
    ones.push(1).expect(&rt, "room");
    for variables in 0..9_usize {
        let len = 1_usize << variables;
        ones.resize(len, 1).expect(&rt, "room");
        let circuit = turned(alloc, len).expect(&rt, "a circuit");
        let reports = twice(alloc, &circuit, &ones, &ones).expect(&rt, "reports");
        assert!(&rt; both_hold(&reports, 1, 2 * variables), "width {len}");
    }
}
