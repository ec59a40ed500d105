//! Whether layers and inputs make a circuit.
ghost use Rattle.std.specs.Prelude.{◌≡◌, ◌<◌, ◌≤◌, map, length, drop};
ghost use Rattle.std.specs.Result.{result_err};
ghost use Rattle.sc_circuit_definitions.specs.Circuits.{layer_variables, top_width};
ghost use Rattle.sc_circuit.specs.Shapes.{depth_fault, width_fault, widths_fault};
ghost use Rattle.sc_circuit.specs.Shapes.{gates_fault, wires_fault};

use crate::error::CircuitError;
use sc_circuit_definitions::Gate;

// The most layers of gates.
const MOST_LAYERS: usize = 32;

// The most variables that the values of a layer have.
const MOST_VARIABLES: usize = 8;

// How many variables a layer of so many values has, or one more than the most where they are no
// power of two, or more.
pub(crate) fn variables_of(len: usize) -> usize
    ensures { result ≡ layer_variables len }
{
    for k in 0..MOST_VARIABLES + 1 {
        if len == 1 << k {
            return k;
        }
    }
    MOST_VARIABLES + 1
}

// There are layers, but not too many.
pub(crate) fn test_depth(layers: &[Vec<Gate>]) -> Result<(), CircuitError>
    ensures { result_err result ≡ depth_fault (map (λ gates. gates.items) layers.now) }
{
    if layers.is_empty() || layers.len() > MOST_LAYERS {
        return Err(CircuitError::Depth {
            layers: layers.len(),
        });
    }
    Ok(())
}

// Each layer has as many values as it may, the inputs being the last.
pub(crate) fn test_widths(layers: &[Vec<Gate>], inputs: usize) -> Result<(), CircuitError>
    ensures { result_err result
        ≡ widths_fault 0 (map (λ gates. gates.items) layers.now) inputs }
{
    for layer in 0..layers.len() {
        test_width(layer, layers[layer].len())?;
    }
    test_width(layers.len(), inputs)
}

// A layer of so many values has as many as it may.
fn test_width(layer: usize, len: usize) -> Result<(), CircuitError>
    ensures { result_err result ≡ width_fault layer len }
{
    if variables_of(len) > MOST_VARIABLES {
        return Err(CircuitError::Width { layer, len });
    }
    Ok(())
}

// Each gate names places of the layer below.
pub(crate) fn test_wires(layers: &[Vec<Gate>], inputs: usize) -> Result<(), CircuitError>
    ensures { result_err result ≡ wires_fault 0 (map (λ gates. gates.items) layers.now) inputs }
{
    for layer in 0..layers.len() {
        let below = width_from(layers, layer + 1, inputs);
        test_places(layer, below, layers[layer].as_slice())?;
    }
    Ok(())
}

// How many values the first layer from this one on has, the inputs being the last.
pub(crate) fn width_from(layers: &[Vec<Gate>], layer: usize, inputs: usize) -> usize
    ensures { result ≡ top_width (drop layer (map (λ gates. gates.items) layers.now)) inputs }
{
    if layer < layers.len() {
        layers[layer].len()
    } else {
        inputs
    }
}

// Each gate of a layer names places below `below`.
fn test_places(layer: usize, below: usize, gates: &[Gate]) -> Result<(), CircuitError>
    ensures { result_err result ≡ gates_fault layer below 0 gates.now }
{
    for (index, gate) in gates.iter().enumerate() {
        if gate.left >= below || gate.right >= below {
            return Err(CircuitError::Wire { layer, gate: index });
        }
    }
    Ok(())
}
