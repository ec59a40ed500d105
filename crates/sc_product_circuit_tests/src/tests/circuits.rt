//! Layered circuits, by values by hand.
mod audits;
mod built;
mod checked;
mod refused;
mod shapes;
mod texts;

use sc_circuit::{Circuit, CircuitError, Gate};
use sc_field::Field;
use sc_memory::{NoMemory, Row};
use sc_small_fields::{F257, F65537};
use sc_tests_common::{elements, have_numbers};
use shapes::REFUSED;
use std::alloc::Global;

// The gates of a layer: whether each is a product, and the two places that it names.
fn gates(alloc: Global, layer: &[(bool, usize, usize)]) -> Result<Vec<Gate>, NoMemory> {
    let mut gates = Vec::new(alloc);
    for (product, left, right) in layer {
        gates.push(Gate {
            product: *product,
            left: *left,
            right: *right,
        })?;
    }
    Ok(gates)
}

// The circuit of these layers over so many inputs.
fn circuit(
    alloc: Global,
    layers: &[&[(bool, usize, usize)]],
    inputs: usize,
) -> Result<Circuit, CircuitError> {
    let mut made = Vec::new(alloc);
    for layer in layers {
        let gates = gates(alloc, layer)?;
        made.push(gates).map_err(NoMemory::from)?;
    }
    Circuit::new(made, inputs)
}

// The values of all layers over inputs of these numbers; there are none where there is another
// number of inputs.
fn values<F: Field>(
    alloc: Global,
    circuit: &Circuit,
    inputs: &[u64],
) -> Result<Vec<Row<F>>, NoMemory> {
    let inputs = elements(alloc, inputs)?;
    if inputs.len() != circuit.inputs() {
        return Ok(Vec::new(alloc));
    }
    circuit.evaluate(alloc, &inputs)
}

// Whether rows have these numbers.
fn are_rows<F: Field>(rows: &[Row<F>], numbers: &[&[u64]]) -> bool {
    rows.len() == numbers.len()
        && rows
            .iter()
            .zip(numbers)
            .all(|(row, wanted)| have_numbers(row.as_slice(), *wanted))
}

#[test]
fn layers_that_make_no_circuit(rt: HostRuntime) {
    for case in &REFUSED {
        match circuit(rt.alloc(), case.layers, case.inputs) {
            Ok(_) => assert!(&rt; false, "{}", case.name),
            Err(error) => assert!(&rt; error == case.error, "{}", case.name),
        }
    }
}

// So many layers, each of one gate that doubles the value below.
fn doublings(alloc: Global, depth: usize) -> Result<Circuit, CircuitError> {
    let mut layers = Vec::new(alloc);
    for _layer in 0..depth {
        let gates = gates(alloc, &[(false, 0, 0)])?;
        layers.push(gates).map_err(NoMemory::from)?;
    }
    Circuit::new(layers, 1)
}

#[test]
fn as_many_layers_as_there_may_be(rt: HostRuntime) {
    let alloc = rt.alloc();
    let deep = doublings(alloc, 32).expect(&rt, "a circuit");
    assert!(&rt; deep.depth() == 32 && deep.inputs() == 1 && deep.outputs() == 1);
    // 2^16 is 65536, the opposite of 1, and 2^32 is 1
    let rows = values::<F65537>(alloc, &deep, &[5]).expect(&rt, "values");
    assert!(&rt;
        rows.len() == 33
            && have_numbers(rows[0].as_slice(), &[5])
            && have_numbers(rows[16].as_slice(), &[65532])
            && have_numbers(rows[31].as_slice(), &[10])
    );
    match doublings(alloc, 33) {
        Ok(_) => assert!(&rt; false),
        Err(error) => assert!(&rt; error == CircuitError::Depth { layers: 33 }),
    }
}

#[test]
fn values_of_all_layers(rt: HostRuntime) {
    let alloc = rt.alloc();
    let layers: [&[(bool, usize, usize)]; 2] = [
        &[(false, 0, 1), (true, 1, 0)],
        &[(true, 0, 1), (false, 2, 3)],
    ];
    let two = circuit(alloc, &layers, 4).expect(&rt, "a circuit");
    assert!(&rt; two.depth() == 2 && two.inputs() == 4 && two.outputs() == 2);
    let rows = values::<F65537>(alloc, &two, &[3, 5, 7, 2]).expect(&rt, "values");
    assert!(&rt; are_rows(&rows, &[&[24, 135], &[15, 9], &[3, 5, 7, 2]]));
    // modulo 257: 30 * 20 is 86, 200 + 100 is 43, and 86 * 43 is 100
    let rows = values::<F257>(alloc, &two, &[30, 20, 200, 100]).expect(&rt, "values");
    assert!(&rt; are_rows(&rows, &[&[129, 100], &[86, 43], &[30, 20, 200, 100]]));
}

// A layer of as many gates as inputs: gate g is the product of place g and of the last but g.
fn turned(alloc: Global, len: usize) -> Result<Circuit, CircuitError> {
    let mut layer = Vec::new(alloc);
    for left in 0..len {
        let gate = Gate {
            product: true,
            left,
            right: len - 1 - left,
        };
        layer.push(gate).map_err(NoMemory::from)?;
    }
    let mut layers = Vec::new(alloc);
    layers.push(layer).map_err(NoMemory::from)?;
    Circuit::new(layers, len)
}

// Over the inputs 1, 2, and so on, gate g is (g + 1) (len - g), at most 128 * 129.
#[test]
fn every_width_that_there_may_be(rt: HostRuntime) {
    let alloc = rt.alloc();
    for k in 0..9_usize {
        let len = 1_usize << k;
        let wide = turned(alloc, len).expect(&rt, "a circuit");
        assert!(&rt; wide.outputs() == len);
        let mut inputs = Vec::new(alloc);
        let mut wanted = Vec::new(alloc);
        for g in 0..len {
            inputs.push(g as u64 + 1).expect(&rt, "room");
            wanted
                .push((g as u64 + 1) * (len - g) as u64)
                .expect(&rt, "room");
        }
        let rows = values::<F65537>(alloc, &wide, &inputs).expect(&rt, "values");
        assert!(&rt;
            rows.len() == 2
                && have_numbers(rows[0].as_slice(), &wanted)
                && have_numbers(rows[1].as_slice(), &inputs)
        );
    }
}
