//! A permutation of pairs of elements: four rounds, each of which raises both to the fifth power
//! and then mixes them; and the circuit that computes it.
use sc_circuit::{Circuit, Gate};
use sc_field::Field;
use sc_small_fields::F65537 as F;
use std::alloc::Global;

// How many rounds there are.
const ROUNDS: usize = 4;

// A layer by its gates: whether each is a product, or else a sum, and its two places below.
type Layer = &'static [(bool, usize, usize)];

// A round from its outputs down. Places 2 and after hold zeros, and a sum with a zero hands a value
// on.
static ROUND: [Layer; 5] = [
    // x + y and x + 2 y, of x + y and y
    &[(false, 0, 2), (false, 0, 1), (false, 2, 3), (false, 2, 3)],
    &[(false, 0, 1), (false, 1, 2), (false, 2, 3), (false, 2, 3)],
    // the fifth powers, of the fourth ones and the elements
    &[(true, 0, 2), (true, 1, 3), (false, 4, 5), (false, 4, 5)],
    &[
        (true, 0, 0),
        (true, 1, 1),
        (false, 2, 4),
        (false, 3, 4),
        (false, 4, 5),
        (false, 4, 5),
        (false, 4, 5),
        (false, 4, 5),
    ],
    // the squares, and the elements
    &[
        (true, 0, 0),
        (true, 1, 1),
        (false, 0, 2),
        (false, 1, 2),
        (false, 2, 3),
        (false, 2, 3),
        (false, 2, 3),
        (false, 2, 3),
    ],
];

/// The circuit of the permutation, over the pair and two zeros; so are its outputs.
pub fn permutation(alloc: Global) -> anyhow::Result<Circuit> {
    let mut layers = Vec::new(alloc);
    for place in 0..ROUNDS * ROUND.len() {
        layers.push(gates_of(alloc, ROUND[place % ROUND.len()])?)?;
    }
    Ok(Circuit::new(layers, 4)?)
}

// The gates of a layer.
fn gates_of(alloc: Global, layer: Layer) -> anyhow::Result<Vec<Gate>> {
    let mut gates = Vec::new(alloc);
    for (product, left, right) in layer {
        gates.push(Gate {
            product: *product,
            left: *left,
            right: *right,
        })?;
    }
    Ok(gates)
}

/// The permuted pair, computed without the circuit.
pub fn permuted(start: [F; 2]) -> [F; 2] {
    let [mut x, mut y] = start;
    for _ in 0..ROUNDS {
        let (mixed, other) = (x.exp_u64(5).add(y.exp_u64(5)), y.exp_u64(5));
        x = mixed;
        y = mixed.add(other);
    }
    [x, y]
}
