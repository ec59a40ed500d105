//! The verdict on layers that were replayed.
ghost use Rattle.std.specs.Prelude.{◌≡◌, IfOk, length, map};
ghost use Rattle.sc_challenger.specs.Parties.{Party};
ghost use Rattle.sc_circuit_definitions.specs.Circuits.{all_values};
ghost use Rattle.sc_circuit_definitions.specs.CircuitFindings.{circuit_figures, named};
ghost use Rattle.sc_circuit.specs.Views.{layers_in, inputs_in};
ghost use Rattle.sc_circuit.specs.Runs.{layer_in, sent_of};
ghost use Rattle.sc_circuit.specs.CircuitJobs.{fields, case_by};
ghost use Rattle.sc_circuit.specs.CircuitReports.{figures_in, finding_in, ShowsLayers};
ghost use Rattle.sc_circuit.specs.LuckyLayers.{AreFull};
ghost use Rattle.sc_circuit.specs.ReplayedCircuits.{IsReplayedIn, replayed_layers, replayed_luck};

use crate::asked::Asked;
use crate::luck::{Begun, PlayedLayers, luck_from};
use crate::proof::{CircuitProof, LayerProof};
use crate::reached::{Reached, first_of};
use crate::refusals::test_values;
use crate::report::{CircuitReport, CircuitVerdict};
use crate::turn::difference;
use crate::values::images;
use crate::weights::{power_weights, weighted};
use sc_field::{ExtensionField, Field};
use sc_memory::{NoMemory, Row};
use std::alloc::Global;

// Layers that were replayed: the challenge of the outputs and the claim that it makes, what came
// for each layer, and what the replay has reached.
#[derive(Drop)]
pub(crate) struct Replayed<F, EF> {
    pub challenge: EF,
    pub claim: EF,
    pub layers: Vec<LayerProof<F, EF>>,
    pub reached: Reached<EF>,
}

// The report on layers that were replayed. The values are those of each layer and the inputs.
pub(crate) fn report_on<F: Field, EF: ExtensionField<F>>(
    alloc: Global,
    asked: &Asked<'_, F>,
    values: &[Row<F>],
    replayed: Replayed<F, EF>,
) -> Result<CircuitReport<F, EF>, NoMemory>
    requires values { map (λ row. map F.number row) values.now
        ≡ all_values F.ops (layers_in asked.now.circuit.now) (map F.number asked.now.inputs.now) }
    requires weights { length replayed.reached.weights.items ≡ length asked.now.inputs.now }
    requires full { AreFull (inputs_in asked.now.circuit.now) (layers_in asked.now.circuit.now)
        (replayed_layers F.number EF.number replayed)
        (map (λ rs. map EF.number rs) replayed.reached.challenges.items)
        (map EF.number replayed.reached.merges.items) }
    ensures figures { IfOk result (λ r. (p : Party) → IsReplayedIn F.number EF.number
        (case_by (fields F.ops EF.ops EF.embedding EF.extension) F.number asked.now p) replayed
        → figures_in F.number EF.number r ≡ circuit_figures
        (case_by (fields F.ops EF.ops EF.embedding EF.extension) F.number asked.now p)
        (map sent_of (replayed_layers F.number EF.number replayed))) }
    ensures shown { IfOk result (λ r. map (layer_in F.number EF.number) r.proof.layers.items
        ≡ replayed_layers F.number EF.number replayed) }
{
    let verdict = verdict_on(alloc, asked, values, &replayed)?;
    let Replayed {
        challenge: _,
        claim,
        layers,
        reached,
    } = replayed;
    Ok(CircuitReport {
        claim,
        proof: CircuitProof { layers },
        challenges: Row::new(reached.challenges),
        merges: Row::new(reached.merges),
        last: reached.claim,
        verdict,
    })
}

// What layers that were replayed say of the outputs.
fn verdict_on<F: Field, EF: ExtensionField<F>>(
    alloc: Global,
    asked: &Asked<'_, F>,
    values: &[Row<F>],
    replayed: &Replayed<F, EF>,
) -> Result<CircuitVerdict<EF>, NoMemory>
    requires values { map (λ row. map F.number row) values.now
        ≡ all_values F.ops (layers_in asked.now.circuit.now) (map F.number asked.now.inputs.now) }
    requires weights { length replayed.now.reached.weights.items ≡ length asked.now.inputs.now }
    requires full { AreFull (inputs_in asked.now.circuit.now) (layers_in asked.now.circuit.now)
        (replayed_layers F.number EF.number replayed.now)
        (map (λ rs. map EF.number rs) replayed.now.reached.challenges.items)
        (map EF.number replayed.now.reached.merges.items) }
    ensures { IfOk result (λ v. (p : Party) → IsReplayedIn F.number EF.number
        (case_by (fields F.ops EF.ops EF.embedding EF.extension) F.number asked.now p) replayed.now
        → finding_in EF.number v ≡ (circuit_figures
        (case_by (fields F.ops EF.ops EF.embedding EF.extension) F.number asked.now p)
        (map sent_of (replayed_layers F.number EF.number replayed.now))).finding) }
{
    let reached = &replayed.reached;
    let sum = weighted(asked.inputs, &reached.weights);
    let depth = asked.circuit.depth();
    if let Some(layer) = first_of(reached.disagreement, depth, reached.claim, sum) {
        return Ok(CircuitVerdict::Refuted { layer });
    }
    if test_values(asked.outputs, values[0].as_slice()).is_ok() {
        return Ok(CircuitVerdict::Holds);
    }
    luck_on(alloc, asked, values, replayed)
}

// The verdict that names the first lucky challenge, where all layers agree although an output is
// false.
fn luck_on<F: Field, EF: ExtensionField<F>>(
    alloc: Global,
    asked: &Asked<'_, F>,
    values: &[Row<F>],
    replayed: &Replayed<F, EF>,
) -> Result<CircuitVerdict<EF>, NoMemory>
    requires values { map (λ row. map F.number row) values.now
        ≡ all_values F.ops (layers_in asked.now.circuit.now) (map F.number asked.now.inputs.now) }
    requires full { AreFull (inputs_in asked.now.circuit.now) (layers_in asked.now.circuit.now)
        (replayed_layers F.number EF.number replayed.now)
        (map (λ rs. map EF.number rs) replayed.now.reached.challenges.items)
        (map EF.number replayed.now.reached.merges.items) }
    ensures { IfOk result (λ v. (p : Party) → IsReplayedIn F.number EF.number
        (case_by (fields F.ops EF.ops EF.embedding EF.extension) F.number asked.now p) replayed.now
        → finding_in EF.number v ≡ named (replayed_luck F.number EF.number
        (case_by (fields F.ops EF.ops EF.embedding EF.extension) F.number asked.now p)
        replayed.now)) }
{
    let (shown, actual) = (asked.outputs, values[0].as_slice());
    let claimed = images::<F, EF>(alloc, shown)?;
    let true_ones = images::<F, EF>(alloc, actual)?;
    let begun = Begun {
        claim: replayed.claim,
        weights: power_weights(alloc, replayed.challenge, shown.len())?,
        excess: difference(alloc, &claimed, &true_ones)?,
    };
    let played = PlayedLayers {
        stack: asked.circuit.stack(),
        values: actual,
        below: &values[1..],
        came: replayed.layers.as_slice(),
        challenges: replayed.reached.challenges.as_slice(),
        merges: replayed.reached.merges.as_slice(),
    };
    luck_from(alloc, played, begun)
}
