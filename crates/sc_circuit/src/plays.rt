//! Layers that are built or checked, and the report on them.
ghost use Rattle.std.specs.Prelude.{◌≡◌, ◌≤◌, None, Some, IfOk, map};
ghost use Rattle.sc_circuit.specs.CircuitAudits.{IsAnswered};
ghost use Rattle.sc_circuit.specs.CircuitJobs.{fields, case_by, proof_in};
ghost use Rattle.sc_circuit.specs.CircuitReports.{result_in, ShowsLayers};
ghost use Rattle.sc_circuit.specs.Runs.{layer_in};

use crate::asked::Asked;
use crate::built::{Building, build_from};
use crate::error::CircuitError;
use crate::layers::replay_from;
use crate::outputs::{begin, draw_challenge};
use crate::proof::{CircuitProof, LayerProof};
use crate::refusals::{test_layers, test_values};
use crate::replay::copied_values;
use crate::report::CircuitReport;
use crate::verdict::{Replayed, report_on};
use sc_challenger::Challenger;
use sc_field::{ExtensionField, Field};
use sc_memory::{NoMemory, with_room};
use std::alloc::Global;

// Builds the layers of claimed outputs, unless one of these is false. Each layer is built on one
// challenger, and then replayed on another one, which stands where the first does. Both are copies,
// until all layers are built.
pub(crate) fn build<F: Field, EF: ExtensionField<F>, C: Challenger<F>>(
    alloc: Global,
    asked: &Asked<'_, F>,
    challenger: &mut C,
) -> Result<CircuitReport<F, EF>, CircuitError>
    requires { asked.now.pow_bits ≤ (C.party challenger.old).rules.max_bits }
    ensures rules { (C.party challenger.new).rules ≡ (C.party challenger.old).rules }
    ensures answered { IsAnswered (case_by (fields F.ops EF.ops EF.embedding EF.extension) F.number
        asked.now (C.party challenger.old)) None (result_in F.number EF.number result)
        (C.party challenger.new).history }
    ensures shown { IfOk result (ShowsLayers F.number EF.number asked.now.pow_bits) }
{
    let evaluated = asked.circuit.evaluate(alloc, asked.inputs)?;
    let values = evaluated.as_slice();
    test_values(asked.outputs, values[0].as_slice())?;
    let mut playing = challenger.copy(alloc)?;
    let challenge = draw_challenge::<F, EF, C>(asked, &mut playing)?;
    let reached = begin(alloc, asked.outputs, challenge)?;
    let claim = reached.claim;
    let mut building = Building {
        built: Vec::new(alloc),
        reached,
    };
    let stack = asked.circuit.stack();
    let mut prover = playing.copy(alloc)?;
    build_from(
        alloc,
        stack,
        &values[1..],
        asked.pow_bits,
        &mut building,
        &mut prover,
        &mut playing,
    )?;
    let Building { built, reached } = building;
    let replayed = Replayed {
        challenge,
        claim,
        layers: built,
        reached,
    };
    let report = report_on(alloc, asked, values, replayed)?;
    *challenger = playing;
    Ok(report)
}

// Checks the layers of a proof.
pub(crate) fn check<F: Field, EF: ExtensionField<F>, C: Challenger<F>>(
    alloc: Global,
    asked: &Asked<'_, F>,
    proof: &CircuitProof<F, EF>,
    challenger: &mut C,
) -> Result<CircuitReport<F, EF>, CircuitError>
    requires { asked.now.pow_bits ≤ (C.party challenger.old).rules.max_bits }
    ensures rules { (C.party challenger.new).rules ≡ (C.party challenger.old).rules }
    ensures answered { IsAnswered (case_by (fields F.ops EF.ops EF.embedding EF.extension) F.number
        asked.now (C.party challenger.old)) (Some (proof_in F.number EF.number proof.now))
        (result_in F.number EF.number result) (C.party challenger.new).history }
    ensures shown { IfOk result (ShowsLayers F.number EF.number asked.now.pow_bits) }
{
    test_layers(asked.circuit.depth(), proof.layers.len())?;
    let layers = copied(alloc, &proof.layers)?;
    let values = asked.circuit.evaluate(alloc, asked.inputs)?;
    let challenge = draw_challenge::<F, EF, C>(asked, challenger)?;
    let mut reached = begin(alloc, asked.outputs, challenge)?;
    let claim = reached.claim;
    let stack = asked.circuit.stack();
    replay_from(
        alloc,
        stack,
        &layers,
        asked.pow_bits,
        &mut reached,
        challenger,
    )?;
    let replayed = Replayed {
        challenge,
        claim,
        layers,
        reached,
    };
    Ok(report_on(alloc, asked, &values, replayed)?)
}

// The same layers again.
fn copied<F: Field, EF: Field>(
    alloc: Global,
    layers: &[LayerProof<F, EF>],
) -> Result<Vec<LayerProof<F, EF>>, NoMemory>
    ensures { IfOk result (λ v. map (layer_in F.number EF.number) v.items
        ≡ map (layer_in F.number EF.number) layers.now) }
{
    let mut found = with_room(alloc, layers.len())?;
    for layer in layers {
        found.push(copy_of(alloc, layer)?)?;
    }
    Ok(found)
}

// The same layer again.
fn copy_of<F: Field, EF: Field>(
    alloc: Global,
    layer: &LayerProof<F, EF>,
) -> Result<LayerProof<F, EF>, NoMemory>
    ensures { IfOk result (λ l. layer_in F.number EF.number l
        ≡ layer_in F.number EF.number layer.now) }
{
    Ok(LayerProof {
        round_polys: copied_values(alloc, &layer.round_polys)?,
        pow_witnesses: Vec::from_slice(alloc, &layer.pow_witnesses)?,
        left: layer.left,
        right: layer.right,
    })
}
