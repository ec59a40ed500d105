//! A layered circuit.
ghost use Rattle.std.specs.Prelude.{◌≡◌, IfOk, None, length, map};
ghost use Rattle.sc_circuit.specs.Shapes.{circuit_fault};

use crate::error::CircuitError;
use crate::layers::Stack;
use crate::shape::{test_depth, test_widths, test_wires};
use crate::values::values_over;
use sc_circuit_definitions::Gate;
use sc_field::Field;
use sc_memory::{NoMemory, Row, with_room};
use std::alloc::Global;

/// Layers of gates, the outputs first, over inputs.
///
/// There are from 1 to 32 layers of gates, and each of them, and the inputs, has 2^k values with k
/// at most 8. A gate is the sum or the product of two values of the layer below.
#[derive(Drop)]
pub struct Circuit {
    layers: Vec<Vec<Gate>>,
    inputs: usize,
    ghost fits: { circuit_fault (map (λ gates. gates.items) layers.items) inputs ≡ None },
}

impl Circuit {
    ghost use Rattle.sc_circuit_definitions.specs.Circuits.{all_values, top_width};
    ghost use Rattle.sc_circuit.specs.Stacks.{stack_layers};
    ghost use Rattle.sc_circuit.specs.Views.{layers_in, inputs_in, MakesCircuit};

    /// The circuit of these layers over so many inputs.
    ///
    /// # Errors
    ///
    /// The first of [`CircuitError::Depth`], [`CircuitError::Width`] and [`CircuitError::Wire`]
    /// that there is a cause for, in this order, each for the first layer and gate.
    pub fn new(layers: Vec<Vec<Gate>>, inputs: usize) -> Result<Circuit, CircuitError>
        ensures { MakesCircuit (map (λ gates. gates.items) layers.items) inputs result }
    {
        test_depth(&layers)?;
        test_widths(&layers, inputs)?;
        test_wires(&layers, inputs)?;
        Ok(Circuit { layers, inputs })
    }

    /// How many layers of gates there are.
    pub fn depth(&self) -> usize
        ensures { result ≡ length (layers_in self.now) }
    {
        self.layers.len()
    }

    /// How many inputs there are.
    pub fn inputs(&self) -> usize
        ensures { result ≡ inputs_in self.now }
    {
        self.inputs
    }

    /// How many outputs there are.
    pub fn outputs(&self) -> usize
        ensures { result ≡ top_width (layers_in self.now) (inputs_in self.now) }
    {
        self.layers[0].len()
    }

    // All layers, numbered from 0 on.
    pub(crate) fn stack(&self) -> Stack<'_>
        ensures layers { stack_layers result ≡ layers_in self.now }
        ensures inputs { result.inputs ≡ inputs_in self.now }
        ensures first { result.first ≡ 0 }
    {
        Stack {
            layers: self.layers.as_slice(),
            inputs: self.inputs,
            first: 0,
        }
    }

    /// The values of each layer over these inputs, the outputs first, and then the inputs.
    ///
    /// # Conditions
    ///
    /// There are as many inputs as [`Circuit::inputs`] tells.
    pub fn evaluate<F: Field>(&self, alloc: Global, inputs: &[F]) -> Result<Vec<Row<F>>, NoMemory>
        requires { length inputs.now ≡ inputs_in self.now }
        ensures { IfOk result (λ rows. map (λ row. map F.number row) rows.items
            ≡ all_values F.ops (layers_in self.now) (map F.number inputs.now)) }
    {
        let mut rows = with_room(alloc, self.layers.len() + 1)?;
        rows.push(Row::new(Vec::from_slice(alloc, inputs)?))?;
        let mut layer = self.layers.len();
        while layer > 0 {
            layer -= 1;
            let below = rows[rows.len() - 1].as_slice();
            let values = values_over(alloc, self.layers[layer].as_slice(), below)?;
            rows.push(Row::new(values))?;
        }
        rows.reverse();
        Ok(rows)
    }
}
