//! What each refusal says.
use sc_circuit::CircuitError;
use sc_degree::GenericDegreeError;

static REFUSALS: [(CircuitError, &str); 10] = [
    (
        CircuitError::Depth { layers: 33 },
        "a circuit of 33 layers: it has from 1 to 32",
    ),
    (
        CircuitError::Width { layer: 2, len: 3 },
        "layer 2 has 3 values, which are no power of two up to 256",
    ),
    (
        CircuitError::Wire { layer: 1, gate: 4 },
        "gate 4 of layer 1 names a place past the layer below",
    ),
    (
        CircuitError::OutputCount {
            expected: 2,
            actual: 1,
        },
        "expected 2 outputs, but 1 came",
    ),
    (
        CircuitError::Difficulty {
            bits: 17,
            bound: 16,
        },
        "the difficulty of 17 bits is above the greatest one, 16",
    ),
    (
        CircuitError::FalseOutput {
            gate: 3,
            claimed: 5,
            actual: 7,
        },
        "output 3 is claimed to be 5, but it is 7",
    ),
    (
        CircuitError::LayerCount {
            expected: 2,
            actual: 0,
        },
        "expected 2 layers, but the proof has 0",
    ),
    (
        CircuitError::Layer {
            layer: 6,
            error: GenericDegreeError::InvalidPowWitness { round: 4 },
        },
        "layer 6: the witness of round 4 does not pass",
    ),
    (
        CircuitError::NoWitness { layer: 1, round: 2 },
        "no witness passes in round 2 of layer 1",
    ),
    (CircuitError::NoMemory, "out of memory"),
];

#[test]
fn a_refusal_has_a_text(rt: HostRuntime) {
    for (error, wanted) in &REFUSALS {
        let text = error.to_string(rt.alloc()).expect(&rt, "an answer");
        assert!(rt; text.as_str() == *wanted, "{text}");
    }
}
