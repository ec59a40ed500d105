//! What is asked of a circuit.
ghost use Rattle.std.specs.Prelude.{◌≡◌, length};
ghost use Rattle.sc_circuit_definitions.specs.Circuits.{top_width};
ghost use Rattle.sc_circuit.specs.Views.{layers_in, inputs_in};

use crate::circuit::Circuit;

// Claimed outputs of a circuit over inputs, as many of both as it has, and the difficulty of
// rounds.
#[derive(Drop)]
pub(crate) struct Asked<'a, F> {
    pub circuit: &'a Circuit,
    pub inputs: &'a [F],
    pub outputs: &'a [F],
    pub pow_bits: usize,
    ghost inputs_fit: { length inputs.now ≡ inputs_in circuit.now },
    ghost outputs_fit: { length outputs.now
        ≡ top_width (layers_in circuit.now) (inputs_in circuit.now) },
}
