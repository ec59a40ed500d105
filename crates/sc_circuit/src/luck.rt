//! The first lucky challenge of layers that were replayed, all of which agree although an output is
//! false.
ghost use Rattle.std.specs.Prelude.{◌≡◌, ℕ, ◌+◌, ◌<◌, ◌≤◌, ◌^◌, [], All, IfOk, length, map};
ghost use Rattle.std.specs.Prelude.{option_map, take, drop};
ghost use Rattle.sc_definitions.specs.Lucky.{in_batch, luck_in, first_turn};
ghost use Rattle.sc_definitions.specs.Ring.{◌+⟨◌⟩◌, ◌-⟨◌⟩◌, ◌*⟨◌⟩◌};
ghost use Rattle.sc_definitions.specs.Roots.{root_count};
ghost use Rattle.sc_definitions.specs.Tables.{entries, value};
ghost use Rattle.sc_degree.specs.Turns.{product_turn, messages_in};
ghost use Rattle.sc_circuit_definitions.specs.Circuits.{layer_variables, IsWidth, PlacesBelow};
ghost use Rattle.sc_circuit_definitions.specs.Circuits.{top_width, IsCircuit, merged_weight};
ghost use Rattle.sc_circuit_definitions.specs.CircuitPlays.{CircuitCase, LayerStart};
ghost use Rattle.sc_circuit_definitions.specs.CircuitFindings.{lucky, named};
ghost use Rattle.sc_circuit_definitions.specs.LayerRounds.{gate_tables, layer_course};
ghost use Rattle.sc_circuit.specs.BuiltLayers.{case_in, HasWidths};
ghost use Rattle.sc_circuit.specs.CircuitJobs.{fields};
ghost use Rattle.sc_circuit.specs.CircuitReports.{finding_in};
ghost use Rattle.sc_circuit.specs.LuckyLayers.{AreFull, IsPlayedFrom, played_luck, StartsBelow};
ghost use Rattle.sc_circuit.specs.Runs.{layer_in};
ghost use Rattle.sc_circuit.specs.Stacks.{rounds_above, stack_layers};
ghost use Rattle.sc_circuit.specs.Steps.{AreSame};

use crate::building::values_at;
use crate::layer::LayerProver;
use crate::layers::{LayerOver, Stack};
use crate::proof::LayerProof;
use crate::report::CircuitVerdict;
use crate::shape::variables_of;
use crate::turn::{RoundsLeft, turn_from};
use crate::values::{images, values_over};
use crate::weights::{merged_weights, weighted};
use sc_degree::{FoundTurn, RoundPolyInterpolator};
use sc_field::laws::count_roots;
use sc_field::{ExtensionField, Field};
use sc_memory::{NoMemory, Row, with_room};
use std::alloc::Global;

// Layers that were replayed: their gates, the values of the first of them, those of each layer
// below, what came for each, the challenges of its rounds, and the one that merges its two values.
#[derive(Clone, Copy)]
pub(crate) struct PlayedLayers<'a, F, EF> {
    pub stack: Stack<'a>,
    pub values: &'a [F],
    pub below: &'a [Row<F>],
    pub came: &'a [LayerProof<F, EF>],
    pub challenges: &'a [Row<EF>],
    pub merges: &'a [EF],
}

// Where a layer begins: its claim, the weights of its values, and the polynomial whose value at the
// challenge that made the claim is what this exceeds the true one by.
#[derive(Drop)]
pub(crate) struct Begun<EF> {
    pub claim: EF,
    pub weights: Vec<EF>,
    pub excess: Vec<EF>,
}

// The verdict that names the first lucky challenge of these layers and of the inputs, if one is:
// the challenge that made a claim which is the true one, or that of the first round after which a
// layer's claim is.
pub(crate) fn luck_from<F: Field, EF: ExtensionField<F>>(
    alloc: Global,
    played: PlayedLayers<'_, F, EF>,
    begun: Begun<EF>,
) -> Result<CircuitVerdict<EF>, NoMemory>
    requires circuit { IsCircuit (stack_layers played.stack) played.stack.inputs }
    requires values { length played.values.now
        ≡ top_width (stack_layers played.stack) played.stack.inputs }
    requires widths { HasWidths (stack_layers played.stack) played.stack.inputs
        (map (λ row. length row) played.below.now) }
    requires weights { length begun.weights.items ≡ length played.values.now }
    requires full { AreFull played.stack.inputs (stack_layers played.stack)
        (map (layer_in F.number EF.number) played.came.now)
        (map (λ rs. map EF.number rs) played.challenges.now)
        (map EF.number played.merges.now) }
    requires few { played.stack.first + length played.stack.layers.now < 2 ^ 64 }
    ensures { IfOk result (λ v. (q : CircuitCase) (at : LayerStart) → IsPlayedFrom F.number
        EF.number (case_in (fields F.ops EF.ops EF.embedding EF.extension) q q.channel)
        played.entry begun at
        → finding_in EF.number v ≡ named (played_luck F.number EF.number
        (case_in (fields F.ops EF.ops EF.embedding EF.extension) q q.channel) played.entry at)) }
{
    let first = played.stack.first;
    let truth = weighted(played.values, &begun.weights);
    if begun.claim.index() == truth.index() {
        return Ok(lucky_merge(first, begun.excess));
    }
    let [gates, layers @ ..] = played.stack.layers else {
        return Ok(CircuitVerdict::Refuted { layer: 0 });
    };
    let [values, below @ ..] = played.below else {
        return Ok(CircuitVerdict::Refuted { layer: 0 });
    };
    let [layer, came @ ..] = played.came else {
        return Ok(CircuitVerdict::Refuted { layer: 0 });
    };
    let [drawn, challenges @ ..] = played.challenges else {
        return Ok(CircuitVerdict::Refuted { layer: 0 });
    };
    let [merge, merges @ ..] = played.merges else {
        return Ok(CircuitVerdict::Refuted { layer: 0 });
    };
    let over = LayerOver {
        layer: first,
        gates: gates.as_slice(),
        below: values.len(),
    };
    let images = images::<F, EF>(alloc, values.as_slice())?;
    let rounds = RoundsLeft {
        first: 0,
        messages: layer.round_polys.as_slice(),
        challenges: drawn.as_slice(),
    };
    if let Some(turn) = layer_turn(alloc, over, &images, &begun, rounds)? {
        return Ok(lucky_round(first, turn));
    }
    let next = begin_below(alloc, over.below, &images, layer, drawn.as_slice(), *merge)?;
    let stack = Stack {
        layers,
        inputs: played.stack.inputs,
        first: first + 1,
    };
    let rest = PlayedLayers {
        stack,
        values: values.as_slice(),
        below,
        came,
        challenges,
        merges,
    };
    luck_from(alloc, rest, next)
}

// The verdict that the challenge was lucky that made the claim of a layer.
fn lucky_merge<EF: Field>(layer: usize, excess: Vec<EF>) -> CircuitVerdict<EF>
    ensures { finding_in EF.number result ≡ lucky (record {
      stage = layer;
      luck = in_batch (map EF.number excess.items)
          (root_count EF.ops (map EF.number excess.items));
    }) }
{
    let poly = Row::new(excess);
    let vanishing = count_roots(poly.as_slice());
    CircuitVerdict::LuckyMerge {
        layer,
        poly,
        vanishing,
    }
}

// The verdict that the challenge of a round was.
fn lucky_round<EF: Field>(layer: usize, turn: FoundTurn<EF>) -> CircuitVerdict<EF>
    ensures { finding_in EF.number result ≡ lucky (record {
      stage = layer;
      luck = luck_in EF.ops (product_turn EF.number turn);
    }) }
{
    let FoundTurn { round, polynomial } = turn;
    let vanishing = count_roots(polynomial.as_slice());
    CircuitVerdict::LuckyRound {
        layer,
        round,
        poly: polynomial,
        vanishing,
    }
}

// The first round of a layer over these values after which its claim is the true one, if there is
// one.
fn layer_turn<EF: Field>(
    alloc: Global,
    over: LayerOver<'_>,
    below: &[EF],
    begun: &Begun<EF>,
    rounds: RoundsLeft<'_, EF>,
) -> Result<Option<FoundTurn<EF>>, NoMemory>
    requires width { IsWidth over.below }
    requires places { PlacesBelow over.below over.gates.now }
    requires few { length over.gates.now ≤ 256 }
    requires weights { length over.gates.now ≡ length begun.now.weights.items }
    requires below { length below.now ≡ over.below }
    requires messages { length rounds.messages.now ≡ rounds_above over.below }
    requires challenges { length rounds.challenges.now ≡ rounds_above over.below }
    requires widths { All (λ m. length m.items ≡ 2) rounds.messages.now }
    requires first { rounds.first ≡ 0 }
    ensures { IfOk result (λ found. option_map (product_turn EF.number) found ≡ first_turn
        (layer_course EF.ops (gate_tables EF.ops (layer_variables over.entry.below)
        (entries EF.number begun.now.weights.items) (entries EF.number below.now)
        over.entry.gates.now)) 0 (EF.number begun.now.claim)
        (messages_in EF.number rounds.entry.messages.now) []
        (map EF.number rounds.entry.challenges.now)) }
{
    let nodes = RoundPolyInterpolator::new(alloc, 2)?;
    let k = variables_of(over.below);
    let weights = begun.weights.as_slice();
    let values = values_over(alloc, over.gates, below)?;
    let truth = weighted::<EF, EF>(&values, weights);
    let mut prover = LayerProver::new(alloc, over.gates, weights, below, k)?;
    turn_from(alloc, &nodes, &mut prover, begun.claim, truth, rounds)
}

// Where the layer below begins, of so many values, which are these, after what came for a layer
// with these challenges and the one that merges its two values.
fn begin_below<F: Field, EF: ExtensionField<F>>(
    alloc: Global,
    width: usize,
    values: &[EF],
    came: &LayerProof<F, EF>,
    challenges: &[EF],
    merge: EF,
) -> Result<Begun<EF>, NoMemory>
    requires width { IsWidth width }
    requires values { length values.now ≡ width }
    requires halves { length challenges.now ≡ rounds_above width }
    ensures { IfOk result (λ b. StartsBelow EF.ops EF.number width (entries EF.number values.now)
        (record {
          variables = layer_variables width;
          challenges = map EF.number challenges.now;
          left = EF.number came.now.left;
          right = EF.number came.now.right;
          merge = EF.number merge;
        }) b) }
{
    let k = variables_of(width);
    let (left, right) = values_at(values, k, challenges);
    let mut excess = with_room(alloc, 2)?;
    excess.push_reserved(came.left.sub(left));
    excess.push_reserved(came.right.sub(right));
    Ok(Begun {
        claim: came.left.add(merge.mul(came.right)),
        weights: merged_weights(alloc, challenges, k, merge)?,
        excess,
    })
}
