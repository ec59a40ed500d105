//! The build of layers, one after the other.
ghost use Rattle.std.specs.Prelude.{◌≡◌, ℕ, ◌+◌, ◌<◌, ◌≤◌, ◌^◌, List, length, map};
ghost use Rattle.std.specs.Prelude.{◌∷◌, ◌++◌, [], OnOk};
ghost use Rattle.sc_definitions.specs.Tables.{entries, rows_of};
ghost use Rattle.sc_challenger.specs.Parties.{IsCopyOf, channel_by};
ghost use Rattle.sc_circuit_definitions.specs.Circuits.{IsWidth, PlacesBelow};
ghost use Rattle.sc_circuit_definitions.specs.Circuits.{top_width, IsCircuit};
ghost use Rattle.sc_circuit_definitions.specs.CircuitPlays.{CircuitCase};
ghost use Rattle.sc_circuit.specs.Runs.{run_by};
ghost use Rattle.sc_circuit.specs.CircuitJobs.{fields};
ghost use Rattle.sc_circuit.specs.Refusals.{build_refusal};
ghost use Rattle.sc_circuit.specs.Stacks.{rounds_above, start_by, stack_layers, IsReachedBy};
ghost use Rattle.sc_circuit.specs.BuiltLayers.{build_of, LeavesBuildStep, case_in, lower_values};
ghost use Rattle.sc_circuit.specs.BuiltLayers.{HasWidths, build_task, LeavesBuilds};

use crate::building::build_layer;
use crate::error::CircuitError;
use crate::layers::{LayerOver, Stack, replay_next};
use crate::proof::LayerProof;
use crate::reached::Reached;
use crate::replay::merge_values;
use crate::values::images;
use sc_challenger::Challenger;
use sc_degree::GenericDegreeError;
use sc_field::{ExtensionField, Field};
use sc_memory::{NoMemory, Row};
use std::alloc::Global;

// The layers that were built, and what their replay has reached.
#[derive(Drop)]
pub(crate) struct Building<F, EF> {
    pub built: Vec<LayerProof<F, EF>>,
    pub reached: Reached<EF>,
}

// Builds a layer over the values below, under the claim that was reached, and goes on to the layer
// below by a replay of it. The prover is a challenger that stands where the other one does, before
// and after: so no history is copied for a layer.
fn build_next<F: Field, EF: ExtensionField<F>, C: Challenger<F>>(
    alloc: Global,
    over: LayerOver<'_>,
    below: &[F],
    pow_bits: usize,
    reached: &mut Reached<EF>,
    prover: &mut C,
    challenger: &mut C,
) -> Result<LayerProof<F, EF>, CircuitError>
    requires width { IsWidth over.below }
    requires places { PlacesBelow over.below over.gates.now }
    requires weights { length over.gates.now ≤ length reached.old.weights.items }
    requires below { length below.now ≡ over.below }
    requires difficulty { pow_bits ≤ (C.party challenger.old).rules.max_bits }
    requires same { IsCopyOf (C.party challenger.old) (C.party prover.old) }
    ensures rules { (C.party challenger.new).rules ≡ (C.party challenger.old).rules }
    ensures in_step { OnOk result (IsCopyOf (C.party challenger.new) (C.party prover.new)) }
    ensures left { LeavesBuildStep F.number EF.number (build_of
        (run_by EF.ops (C.party challenger.old) EF.extension F.ops.size pow_bits
        (rounds_above over.entry.below) (EF.number reached.old.claim)) over.entry
        (entries EF.number reached.old.weights.items)
        (rows_of (map EF.embedding (map F.number below.now)))) reached.old reached.new result
        (C.party challenger.new).history }
{
    let values = images::<F, EF>(alloc, below)?;
    let weights = reached.weights.as_slice();
    match build_layer(
        alloc,
        over,
        weights,
        &values,
        reached.claim,
        pow_bits,
        prover,
    ) {
        Ok(layer) => {
            replay_next(alloc, over, &layer, pow_bits, reached, challenger)?;
            let _merge = merge_values(prover, layer.left, layer.right)?;
            Ok(layer)
        }
        Err(error) => Err(build_refusal(over.layer, error)),
    }
}

// Why a layer is not built. An honest prover is refused for no more than these.
fn build_refusal(layer: usize, error: GenericDegreeError) -> CircuitError
    ensures { result ≡ build_refusal layer error }
{
    match error {
        GenericDegreeError::NoWitness { round } => CircuitError::NoWitness { layer, round },
        GenericDegreeError::InvalidDegree { .. }
        | GenericDegreeError::RoundCountMismatch { .. }
        | GenericDegreeError::PowWitnessCountMismatch { .. }
        | GenericDegreeError::PolyEvalCountMismatch { .. }
        | GenericDegreeError::MissingPowWitness { .. }
        | GenericDegreeError::InvalidPowWitness { .. }
        | GenericDegreeError::NoMemory => CircuitError::NoMemory,
    }
}

// Puts a layer after those that were built.
fn put_layer<F: Drop, EF: Drop>(
    built: &mut Vec<LayerProof<F, EF>>,
    layer: LayerProof<F, EF>,
) -> Result<(), NoMemory>
    ensures { OnOk result (built.new.items ≡ built.old.items ++ layer ∷ []) }
{
    built.push(layer)?;
    Ok(())
}

// Builds these layers over the values of the layers below them, each under the claim that was
// reached, and puts them after those that were built. The prover stands where the challenger does.
pub(crate) fn build_from<F: Field, EF: ExtensionField<F>, C: Challenger<F>>(
    alloc: Global,
    stack: Stack<'_>,
    below: &[Row<F>],
    pow_bits: usize,
    building: &mut Building<F, EF>,
    prover: &mut C,
    challenger: &mut C,
) -> Result<(), CircuitError>
    requires circuit { IsCircuit (stack_layers stack) stack.inputs }
    requires widths { HasWidths (stack_layers stack) stack.inputs
        (map (λ row. length row) below.now) }
    requires few { stack.first + length stack.layers.now < 2 ^ 64 }
    requires weights { length building.old.reached.weights.items
        ≡ top_width (stack_layers stack) stack.inputs }
    requires difficulty { pow_bits ≤ (C.party challenger.old).rules.max_bits }
    requires same { IsCopyOf (C.party challenger.old) (C.party prover.old) }
    ensures rules { (C.party challenger.new).rules ≡ (C.party challenger.old).rules }
    ensures left { (q : CircuitCase) (w : ℕ → ℕ) (drawn : ℕ) (excess : List ℕ)
        → IsReachedBy EF.number q stack.entry building.old.reached w
        → map (λ row. map F.number row) below.now
        ≡ lower_values F.ops (stack_layers stack.entry) q.inputs
        → LeavesBuilds F.number EF.number (build_task
        (case_in (fields F.ops EF.ops EF.embedding EF.extension) q
        (channel_by (C.party challenger.old) EF.extension F.ops.size pow_bits)) stack.entry
        (start_by (C.party challenger.old) (EF.number building.old.reached.claim) w drawn excess))
        building.old building.new result (C.party challenger.new).history }
{
    let [gates, layers @ ..] = stack.layers else {
        return Ok(());
    };
    let [values, deeper @ ..] = below else {
        return Ok(());
    };
    let over = LayerOver {
        layer: stack.first,
        gates: gates.as_slice(),
        below: values.len(),
    };
    let reached = &mut building.reached;
    let layer = build_next(
        alloc,
        over,
        values.as_slice(),
        pow_bits,
        reached,
        prover,
        challenger,
    )?;
    put_layer(&mut building.built, layer)?;
    let rest = Stack {
        layers,
        inputs: stack.inputs,
        first: stack.first + 1,
    };
    build_from(alloc, rest, deeper, pow_bits, building, prover, challenger)
}
