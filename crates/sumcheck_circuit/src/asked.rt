//! The circuit that a job asks about, and the proof that came.
ghost use Rattle.std.specs.Prelude.{◌≡◌, All, IfOk, map};
ghost use Rattle.std.specs.Option.{option_map};
ghost use Rattle.sc_circuit.specs.CircuitJobs.{proof_in};
ghost use Rattle.sc_circuit.specs.Runs.{layer_in};
ghost use Rattle.sumcheck_members.specs.Modes.{CheckFits};
ghost use Rattle.sumcheck_circuit.specs.CircuitJob.{LayerFits};
ghost use Rattle.sumcheck_circuit.specs.CircuitReplies.{came_given, layer_given};
ghost use Rattle.sumcheck_replies.specs.Fields.{sizes_over};

use crate::job::LayerGiven;
use sc_circuit::{CircuitProof, Gate, LayerProof};
use sc_field::{ExtensionField, Field, NoMemory};
use sc_table::Row;
use std::alloc::Global;
use sumcheck_members::BuildOrCheck;
use sumcheck_replies::{element_lists, elements};

/// The gates of each layer, in lists of their own.
pub(crate) fn gate_lists(alloc: Global, layers: &[Row<Gate>]) -> Result<Vec<Vec<Gate>>, NoMemory>
    ensures { IfOk result (λ v. map (λ gates. gates.items) v.items ≡ layers.now) }
{
    let mut found = Vec::with_capacity(alloc, layers.len())?;
    for gates in layers {
        found.push(Vec::from_slice(alloc, gates.as_slice())?)?;
    }
    Ok(found)
}

/// The proof that is checked, if one is, of elements with its numbers.
pub(crate) fn proof_came<F: Field, EF: ExtensionField<F>>(
    alloc: Global,
    mode: &BuildOrCheck<Row<LayerGiven>>,
) -> Result<Option<CircuitProof<F, EF>>, NoMemory>
    requires { CheckFits (All (LayerFits (sizes_over F.ops EF.ops))) mode.now }
    ensures { IfOk result (λ came. option_map (proof_in F.number EF.number) came
        ≡ came_given mode.now) }
{
    match mode {
        BuildOrCheck::Build => Ok(None),
        BuildOrCheck::Check(layers) => Ok(Some(CircuitProof {
            layers: layer_proofs(alloc, layers.as_slice())?,
        })),
    }
}

// What came for each layer.
fn layer_proofs<F: Field, EF: ExtensionField<F>>(
    alloc: Global,
    layers: &[LayerGiven],
) -> Result<Vec<LayerProof<F, EF>>, NoMemory>
    requires { All (LayerFits (sizes_over F.ops EF.ops)) layers.now }
    ensures { IfOk result (λ v. map (layer_in F.number EF.number) v.items
        ≡ map layer_given layers.now) }
{
    let mut found = Vec::with_capacity(alloc, layers.len())?;
    for layer in layers {
        let proof = layer_proof(alloc, layer)?;
        found.push(proof)?;
    }
    Ok(found)
}

// What came for a layer.
fn layer_proof<F: Field, EF: ExtensionField<F>>(
    alloc: Global,
    layer: &LayerGiven,
) -> Result<LayerProof<F, EF>, NoMemory>
    requires { LayerFits (sizes_over F.ops EF.ops) layer.now }
    ensures { IfOk result (λ l. layer_in F.number EF.number l ≡ layer_given layer.now) }
{
    Ok(LayerProof {
        round_polys: element_lists(alloc, layer.rounds.as_slice())?,
        pow_witnesses: elements(alloc, layer.witnesses.as_slice())?,
        left: EF::element(layer.left),
        right: EF::element(layer.right),
    })
}
