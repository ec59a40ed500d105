//! The replay of layers, one after the other.
ghost use Rattle.std.specs.Prelude.{◌≡◌, ℕ, ◌+◌, ◌<◌, ◌≤◌, ◌^◌, List, length, map};
ghost use Rattle.sc_challenger.specs.Parties.{channel_by};
ghost use Rattle.sc_circuit_definitions.specs.Circuits.{IsWidth, PlacesBelow};
ghost use Rattle.sc_circuit_definitions.specs.Circuits.{top_width, IsCircuit};
ghost use Rattle.sc_circuit_definitions.specs.CircuitPlays.{CircuitCase};
ghost use Rattle.sc_circuit.specs.Runs.{layer_in, run_by};
ghost use Rattle.sc_circuit.specs.Steps.{LeavesLayer};
ghost use Rattle.sc_circuit.specs.Replays.{case_over, LeavesLayers};
ghost use Rattle.sc_circuit.specs.Stacks.{rounds_above, step_of, start_by, task_of, IsReachedBy};

use crate::error::CircuitError;
use crate::proof::LayerProof;
use crate::reached::Reached;
use crate::replay::replay_layer;
use crate::shape::{variables_of, width_from};
use sc_challenger::Challenger;
use sc_circuit_definitions::Gate;
use sc_degree::GenericDegreeError;
use sc_field::{ExtensionField, Field};
use std::alloc::Global;

// A layer of gates, by its number, over a layer of so many values.
#[derive(Clone, Copy)]
pub(crate) struct LayerOver<'a> {
    pub layer: usize,
    pub gates: &'a [Gate],
    pub below: usize,
}

// Layers of gates, numbered from `first` on, over so many inputs.
#[derive(Clone, Copy)]
pub(crate) struct Stack<'a> {
    pub layers: &'a [Vec<Gate>],
    pub inputs: usize,
    pub first: usize,
}

// Replays what came for a layer under the claim that was reached, and goes on to the layer below.
pub(crate) fn replay_next<F: Field, EF: ExtensionField<F>, C: Challenger<F>>(
    alloc: Global,
    over: LayerOver<'_>,
    came: &LayerProof<F, EF>,
    pow_bits: usize,
    reached: &mut Reached<EF>,
    challenger: &mut C,
) -> Result<(), CircuitError>
    requires width { IsWidth over.below }
    requires places { PlacesBelow over.below over.gates.now }
    requires weights { length over.gates.now ≤ length reached.old.weights.items }
    requires difficulty { pow_bits ≤ (C.party challenger.old).rules.max_bits }
    ensures rules { (C.party challenger.new).rules ≡ (C.party challenger.old).rules }
    ensures left { LeavesLayer EF.number (step_of
        (run_by EF.ops (C.party challenger.old) EF.extension F.ops.size pow_bits
        (rounds_above over.entry.below) (EF.number reached.old.claim)) over.entry
        (layer_in F.number EF.number came.now)) reached.old reached.new result
        (C.party challenger.new).history }
{
    let k = variables_of(over.below);
    let replayed = match replay_layer(alloc, came, reached.claim, k + k, pow_bits, challenger) {
        Ok(replayed) => replayed,
        Err(GenericDegreeError::NoMemory) => return Err(CircuitError::NoMemory),
        Err(error) => {
            return Err(CircuitError::Layer {
                layer: over.layer,
                error,
            });
        }
    };
    let values = (came.left, came.right);
    reached.take(alloc, over.layer, over.gates, k, values, &replayed)?;
    Ok(())
}

// Replays what came for these layers, which are numbered from `layer` on and stand over so many
// inputs, each under the claim that was reached.
pub(crate) fn replay_from<F: Field, EF: ExtensionField<F>, C: Challenger<F>>(
    alloc: Global,
    stack: Stack<'_>,
    came: &[LayerProof<F, EF>],
    pow_bits: usize,
    reached: &mut Reached<EF>,
    challenger: &mut C,
) -> Result<(), CircuitError>
    requires circuit { IsCircuit (map (λ gates. gates.items) stack.layers.now) stack.inputs }
    requires count { length came.now ≡ length stack.layers.now }
    requires few { stack.first + length came.now < 2 ^ 64 }
    requires weights { length reached.old.weights.items
        ≡ top_width (map (λ gates. gates.items) stack.layers.now) stack.inputs }
    requires difficulty { pow_bits ≤ (C.party challenger.old).rules.max_bits }
    ensures rules { (C.party challenger.new).rules ≡ (C.party challenger.old).rules }
    ensures left { (q : CircuitCase) (w : ℕ → ℕ) (drawn : ℕ) (excess : List ℕ)
        → IsReachedBy EF.number q stack.entry reached.old w → LeavesLayers EF.number
        (task_of (case_over q EF.ops
        (channel_by (C.party challenger.old) EF.extension F.ops.size pow_bits)) stack.entry
        (map (layer_in F.number EF.number) came.now)
        (start_by (C.party challenger.old) (EF.number reached.old.claim) w drawn excess))
        reached.old reached.new result (C.party challenger.new).history }
{
    let [gates, layers @ ..] = stack.layers else {
        return Ok(());
    };
    let [first, more @ ..] = came else {
        return Ok(());
    };
    let below = width_from(layers, 0, stack.inputs);
    let over = LayerOver {
        layer: stack.first,
        gates: gates.as_slice(),
        below,
    };
    replay_next(alloc, over, first, pow_bits, reached, challenger)?;
    let rest = Stack {
        layers,
        inputs: stack.inputs,
        first: stack.first + 1,
    };
    replay_from(alloc, rest, more, pow_bits, reached, challenger)
}
