//! The answer to what is refused of a circuit.
ghost use Rattle.std.specs.Prelude.{◌≡◌, ◌≢◌, IfOk, string_bytes};
ghost use Rattle.sumcheck_circuit.specs.CircuitReplies.{circuit_refusal, layer_refusal};
ghost use Rattle.sumcheck_circuit.specs.CircuitReplies.{rounds_refusal_text};

use crate::lines::{
    depth_text, false_output_text, layer_round_text, layer_width_text, layers_text, outputs_text,
    wire_text,
};
use sc_circuit::CircuitError;
use sc_degree::GenericDegreeError;
use sc_field::NoMemory;
use std::alloc::Global;
use sumcheck_replies::{Answer, lines};

/// The refusal of a job of a difficulty, or of its proof, in one line. Want of memory has no text.
pub(crate) fn refuse_circuit(
    alloc: Global,
    bits: usize,
    error: CircuitError,
) -> Result<Answer, NoMemory>
    ensures { IfOk result (λ a.
        (a ≡ circuit_refusal bits error) × (error ≢ CircuitError.NoMemory)) }
{
    match error {
        CircuitError::Depth { layers } => {
            let why = depth_text(alloc, layers)?;
            Answer::refused(alloc, &why)
        }
        CircuitError::Width { layer, len } => {
            let why = layer_width_text(alloc, layer, len)?;
            Answer::refused(alloc, &why)
        }
        CircuitError::Wire { layer, gate } => {
            let why = wire_text(alloc, layer, gate)?;
            Answer::refused(alloc, &why)
        }
        CircuitError::OutputCount { expected, actual } => {
            let why = outputs_text(alloc, expected, actual)?;
            Answer::refused(alloc, &why)
        }
        CircuitError::Difficulty { bits, bound } => {
            let why = lines::difficulty_text(alloc, bits, bound)?;
            Answer::refused(alloc, &why)
        }
        CircuitError::FalseOutput {
            gate,
            claimed,
            actual,
        } => {
            let why = false_output_text(alloc, gate, claimed, actual)?;
            Answer::refused(alloc, &why)
        }
        CircuitError::LayerCount { expected, actual } => {
            let why = layers_text(alloc, expected, actual)?;
            Answer::proof_refused(alloc, &why)
        }
        CircuitError::Layer { layer, error } => refuse_layer(alloc, bits, layer, error),
        CircuitError::NoWitness { layer, round } => {
            let place = layer_round_text(alloc, layer, round)?;
            Answer::no_witness_at(alloc, &place)
        }
        CircuitError::NoMemory => Err(NoMemory),
    }
}

// The refusal of the rounds of a layer.
fn refuse_layer(
    alloc: Global,
    bits: usize,
    layer: usize,
    error: GenericDegreeError,
) -> Result<Answer, NoMemory>
    ensures { IfOk result (λ a. a ≡ layer_refusal bits layer error) }
{
    let rounds = rounds_text(alloc, bits, error)?;
    let mut why = String::new(alloc);
    lines::push_layer(&mut why, layer)?;
    why.push_str(&rounds)?;
    Answer::proof_refused(alloc, &why)
}

// Why rounds at a difficulty are refused, in the words that stand after the layer.
fn rounds_text(alloc: Global, bits: usize, error: GenericDegreeError) -> Result<String, NoMemory>
    ensures { IfOk result (λ s. string_bytes s ≡ rounds_refusal_text bits error) }
{
    match error {
        GenericDegreeError::RoundCountMismatch { expected, actual } => {
            Ok(lines::rounds_text(alloc, expected, actual)?)
        }
        GenericDegreeError::PowWitnessCountMismatch { expected, actual } => {
            Ok(lines::witnesses_text(alloc, expected, actual)?)
        }
        GenericDegreeError::PolyEvalCountMismatch {
            round,
            expected,
            actual,
        } => Ok(lines::width_text(alloc, round, expected, actual)?),
        GenericDegreeError::InvalidPowWitness { round } => {
            Ok(lines::witness_text(alloc, round, bits)?)
        }
        // no layer is refused for these
        GenericDegreeError::InvalidDegree { .. }
        | GenericDegreeError::MissingPowWitness { .. }
        | GenericDegreeError::NoWitness { .. }
        | GenericDegreeError::NoMemory => Err(NoMemory),
    }
}
