//! The lines of a report on a circuit, and the texts of its refusals.
ghost use Rattle.std.specs.Prelude.{◌≡◌, IfOk, OnOk, map, string_bytes};
ghost use Rattle.sc_definitions.specs.Lucky.{in_batch, in_round};
ghost use Rattle.sc_circuit.specs.Runs.{layer_in};
ghost use Rattle.sumcheck_replies.specs.Lines.{Adds, lines_by};
ghost use Rattle.sumcheck_circuit.specs.CircuitLines.{depth_text, false_output_text, input_line};
ghost use Rattle.sumcheck_circuit.specs.CircuitLines.{layer_lines, layer_round_line, layers_lines};
ghost use Rattle.sumcheck_circuit.specs.CircuitLines.{layer_round_text, layer_width_text};
ghost use Rattle.sumcheck_circuit.specs.CircuitLines.{layers_text, lucky_layer_line};
ghost use Rattle.sumcheck_circuit.specs.CircuitLines.{lucky_layer_name};
ghost use Rattle.sumcheck_circuit.specs.CircuitLines.{lucky_merge_name, merge_part, outputs_text};
ghost use Rattle.sumcheck_circuit.specs.CircuitLines.{refuted_layer_line, wire_text};

use sc_circuit::LayerProof;
use sc_field::{Field, NoMemory};
use sc_table::Row;
use std::alloc::{AllocError, Global};
use sumcheck_replies::lines::{push_end, push_layer, push_values, push_values_round, round_text};
use sumcheck_replies::number_at;

/// The lines of layers, as far as there are proofs, challenges and merges, the first layer first.
pub(crate) fn push_layers<F: Field, EF: Field>(
    text: &mut String,
    layers: &[LayerProof<F, EF>],
    challenges: &[Row<EF>],
    merges: &[EF],
) -> Result<(), NoMemory>
    ensures { OnOk result (Adds text.old text.new (layers_lines 0
        (map (layer_in F.number EF.number) layers.now)
        (map (λ rs. map EF.number rs) challenges.now) (map EF.number merges.now))) }
{
    let count = layers.len().min(challenges.len()).min(merges.len());
    for i in 0..count {
        let layer = &layers[i];
        push_rounds(text, i, layer, challenges[i].as_slice())?;
        push_layer(text, i)?;
        push_merge(
            text,
            layer.left.index(),
            layer.right.index(),
            merges[i].index(),
        )?;
    }
    Ok(())
}

// The lines of the rounds of a layer, as far as there are messages and challenges, with as many
// witnesses as there are.
fn push_rounds<F: Field, EF: Field>(
    text: &mut String,
    layer: usize,
    proof: &LayerProof<F, EF>,
    challenges: &[EF],
) -> Result<(), NoMemory>
    ensures { OnOk result (Adds text.old text.new (lines_by (layer_round_line layer) 0
        (layer_in F.number EF.number proof.now).wire.messages
        (layer_in F.number EF.number proof.now).wire.witnesses (map EF.number challenges.now))) }
{
    for j in 0..proof.round_polys.len().min(challenges.len()) {
        let witness = number_at(&proof.pow_witnesses, j);
        push_layer(text, layer)?;
        push_values_round(
            text,
            j,
            &proof.round_polys[j],
            witness,
            challenges[j].index(),
        )?;
    }
    Ok(())
}

// The end of the line of a layer's two values, and of the challenge that merges them.
#[tactic(auto, unfolding(crate::specs::CircuitLines::merge_part))]
fn push_merge(text: &mut String, left: u64, right: u64, merge: u64) -> Result<(), AllocError>
    ensures { OnOk result (Adds text.old text.new (merge_part left right merge)) }
{
    write!(text, "left {left} right {right} merge {merge}\n")
}

/// The line of the claim on the inputs.
#[tactic(auto, unfolding(crate::specs::CircuitLines::input_line))]
pub(crate) fn push_input(text: &mut String, x: u64) -> Result<(), AllocError>
    ensures { OnOk result (Adds text.old text.new (input_line x)) }
{
    write!(text, "input {x}\n")
}

/// The verdict that a layer does not agree.
#[tactic(auto, unfolding(crate::specs::CircuitLines::refuted_layer_line))]
pub(crate) fn push_refuted_layer(text: &mut String, layer: usize) -> Result<(), AllocError>
    ensures { OnOk result (Adds text.old text.new (refuted_layer_line layer)) }
{
    write!(text, "verdict refuted layer {layer}\n")
}

/// The verdict that the challenge was lucky that made the claim of a layer: at how many elements
/// the polynomial vanishes, and its coefficients, the constant first.
pub(crate) fn push_lucky_merge<EF: Field>(
    text: &mut String,
    layer: usize,
    poly: &[EF],
    vanishing: u64,
) -> Result<(), NoMemory>
    ensures { OnOk result (Adds text.old text.new
        (lucky_layer_line layer (in_batch (map EF.number poly.now) vanishing))) }
{
    push_lucky_merge_name(text, layer, vanishing)?;
    push_values(text, poly)?;
    push_end(text)?;
    Ok(())
}

// The beginning of that line, up to the coefficients.
#[tactic(auto, unfolding(crate::specs::CircuitLines::lucky_merge_name))]
fn push_lucky_merge_name(text: &mut String, layer: usize, vanishing: u64) -> Result<(), AllocError>
    ensures { OnOk result (Adds text.old text.new (lucky_merge_name layer vanishing)) }
{
    write!(
        text,
        "verdict lucky-merge layer {layer} vanishing {vanishing} poly"
    )
}

/// The same of the challenge of a round of a layer.
pub(crate) fn push_lucky_layer<EF: Field>(
    text: &mut String,
    place: (usize, usize),
    poly: &[EF],
    vanishing: u64,
) -> Result<(), NoMemory>
    ensures { OnOk result (Adds text.old text.new (lucky_layer_line place.0
        (in_round place.1 (map EF.number poly.now) vanishing))) }
{
    let (layer, round) = place;
    push_lucky_layer_name(text, layer, round, vanishing)?;
    push_values(text, poly)?;
    push_end(text)?;
    Ok(())
}

// The beginning of that line, up to the coefficients.
#[tactic(auto, unfolding(crate::specs::CircuitLines::lucky_layer_name))]
fn push_lucky_layer_name(
    text: &mut String,
    layer: usize,
    round: usize,
    vanishing: u64,
) -> Result<(), AllocError>
    ensures { OnOk result (Adds text.old text.new (lucky_layer_name layer round vanishing)) }
{
    write!(
        text,
        "verdict lucky-round layer {layer} round {round} vanishing {vanishing} poly"
    )
}

/// Another number of layers than there may be.
#[tactic(auto, unfolding(crate::specs::CircuitLines::depth_text))]
pub(crate) fn depth_text(alloc: Global, layers: usize) -> Result<String, AllocError>
    ensures { IfOk result (λ s. string_bytes s ≡ depth_text layers) }
{
    format!(in alloc; "circuit depth {layers}")
}

/// A layer of a length that does not fit.
#[tactic(auto, unfolding(crate::specs::CircuitLines::layer_width_text))]
pub(crate) fn layer_width_text(
    alloc: Global,
    layer: usize,
    len: usize,
) -> Result<String, AllocError>
    ensures { IfOk result (λ s. string_bytes s ≡ layer_width_text layer len) }
{
    format!(in alloc; "circuit width layer {layer} len {len}")
}

/// A gate that names a place past the layer below.
#[tactic(auto, unfolding(crate::specs::CircuitLines::wire_text))]
pub(crate) fn wire_text(alloc: Global, layer: usize, gate: usize) -> Result<String, AllocError>
    ensures { IfOk result (λ s. string_bytes s ≡ wire_text layer gate) }
{
    format!(in alloc; "circuit wire layer {layer} gate {gate}")
}

/// Another number of outputs than the first layer has.
#[tactic(auto, unfolding(crate::specs::CircuitLines::outputs_text))]
pub(crate) fn outputs_text(
    alloc: Global,
    expected: usize,
    actual: usize,
) -> Result<String, AllocError>
    ensures { IfOk result (λ s. string_bytes s ≡ outputs_text expected actual) }
{
    format!(in alloc; "circuit outputs expected {expected} actual {actual}")
}

/// An output by its gate, with the claimed value and the true one.
#[tactic(auto, unfolding(crate::specs::CircuitLines::false_output_text))]
pub(crate) fn false_output_text(
    alloc: Global,
    gate: usize,
    claimed: u64,
    actual: u64,
) -> Result<String, AllocError>
    ensures { IfOk result (λ s. string_bytes s ≡ false_output_text gate claimed actual) }
{
    format!(in alloc; "false-output {gate} claimed {claimed} true {actual}")
}

/// How many layers a proof should have, and how many it has.
#[tactic(auto, unfolding(crate::specs::CircuitLines::layers_text))]
pub(crate) fn layers_text(
    alloc: Global,
    expected: usize,
    actual: usize,
) -> Result<String, AllocError>
    ensures { IfOk result (λ s. string_bytes s ≡ layers_text expected actual) }
{
    format!(in alloc; "layers expected {expected} actual {actual}")
}

/// A round of a layer, as the place of something.
pub(crate) fn layer_round_text(
    alloc: Global,
    layer: usize,
    round: usize,
) -> Result<String, AllocError>
    ensures { IfOk result (λ s. string_bytes s ≡ layer_round_text layer round) }
{
    let mut text = String::new(alloc);
    push_layer(&mut text, layer)?;
    let place = round_text(alloc, round)?;
    text.push_str(&place)?;
    Ok(text)
}
