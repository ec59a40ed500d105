//! Layers that make no circuit, and the refusal of each.
use sc_circuit::CircuitError;

/// The gates of a layer: whether each is a product, and the two places that it names.
pub type Layer = &'static [(bool, usize, usize)];

/// Layers over so many inputs, and why they make no circuit.
#[derive(Clone, Copy)]
pub struct Refused {
    pub name: &'static str,
    pub layers: &'static [Layer],
    pub inputs: usize,
    pub error: CircuitError,
}

const ONE: Layer = &[(true, 0, 1)];

const TWO: Layer = &[(true, 0, 1), (false, 1, 1)];

const THREE: Layer = &[(true, 0, 1), (false, 1, 1), (false, 0, 0)];

/// In the order in which they are tested: each but the last ones has a later refusal's cause too.
pub const REFUSED: [Refused; 10] = [
    Refused {
        name: "no layer, over a width that does not fit",
        layers: &[],
        inputs: 3,
        error: CircuitError::Depth { layers: 0 },
    },
    Refused {
        name: "a layer of three gates, over another width that does not fit",
        layers: &[THREE],
        inputs: 3,
        error: CircuitError::Width { layer: 0, len: 3 },
    },
    Refused {
        name: "a second layer of three gates, after a gate whose place is none",
        layers: &[&[(true, 0, 7)], THREE],
        inputs: 2,
        error: CircuitError::Width { layer: 1, len: 3 },
    },
    Refused {
        name: "a layer without gates",
        layers: &[ONE, &[]],
        inputs: 2,
        error: CircuitError::Width { layer: 1, len: 0 },
    },
    Refused {
        name: "three inputs",
        layers: &[ONE, TWO],
        inputs: 3,
        error: CircuitError::Width { layer: 2, len: 3 },
    },
    Refused {
        name: "no inputs",
        layers: &[ONE],
        inputs: 0,
        error: CircuitError::Width { layer: 1, len: 0 },
    },
    Refused {
        name: "a power of two that is too large",
        layers: &[ONE],
        inputs: 512,
        error: CircuitError::Width { layer: 1, len: 512 },
    },
    Refused {
        name: "a first place past the layer below, before a second one",
        layers: &[
            &[(true, 0, 1), (false, 2, 0)],
            &[(true, 0, 2), (true, 0, 0)],
        ],
        inputs: 2,
        error: CircuitError::Wire { layer: 0, gate: 1 },
    },
    Refused {
        name: "a second place past the layer below",
        layers: &[TWO, &[(true, 0, 1), (true, 1, 2)]],
        inputs: 2,
        error: CircuitError::Wire { layer: 1, gate: 1 },
    },
    Refused {
        name: "a place past a layer below of one gate",
        layers: &[ONE, ONE],
        inputs: 2,
        error: CircuitError::Wire { layer: 0, gate: 0 },
    },
];
