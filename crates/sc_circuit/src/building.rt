//! The build of a layer.
ghost use Rattle.std.specs.Prelude.{◌≡◌, ◌+◌, ◌≤◌, ◌^◌, length, map, take, drop};
ghost use Rattle.sc_definitions.specs.Tables.{entries, value};
ghost use Rattle.sc_circuit_definitions.specs.Circuits.{layer_variables, IsWidth, PlacesBelow};
ghost use Rattle.sc_circuit_definitions.specs.LayerRounds.{gate_tables};
ghost use Rattle.sc_circuit.specs.Runs.{run_by};
ghost use Rattle.sc_circuit.specs.Builds.{LeavesBuild};

use crate::layer::LayerProver;
use crate::layers::LayerOver;
use crate::proof::LayerProof;
use crate::shape::variables_of;
use sc_challenger::Challenger;
use sc_degree::{GenericDegreeError, GenericDegreeProof, RoundProver};
use sc_field::{ExtensionField, Field};
use sc_table::eval_slice;
use std::alloc::Global;

// Builds the rounds of a layer of gates, which have these weights, over the values below, under a
// claim, and the two values that the layer below has at their challenges.
pub(crate) fn build_layer<F: Field, EF: ExtensionField<F>, C: Challenger<F>>(
    alloc: Global,
    over: LayerOver<'_>,
    weights: &[EF],
    below: &[EF],
    claim: EF,
    pow_bits: usize,
    challenger: &mut C,
) -> Result<LayerProof<F, EF>, GenericDegreeError>
    requires width { IsWidth over.below }
    requires places { PlacesBelow over.below over.gates.now }
    requires weights { length over.gates.now ≤ length weights.now }
    requires below { length below.now ≡ over.below }
    requires difficulty { pow_bits ≤ (C.party challenger.old).rules.max_bits }
    ensures rules { (C.party challenger.new).rules ≡ (C.party challenger.old).rules }
    ensures left { LeavesBuild F.number EF.number
        (run_by EF.ops (C.party challenger.old) EF.extension F.ops.size pow_bits
        (layer_variables over.entry.below + layer_variables over.entry.below) (EF.number claim))
        (gate_tables EF.ops (layer_variables over.entry.below) (entries EF.number weights.now)
        (entries EF.number below.now) over.entry.gates.now) result
        (C.party challenger.new).history }
{
    let k = variables_of(over.below);
    let mut prover = LayerProver::new(alloc, over.gates, weights, below, k)?;
    let (proof, challenges) = prover.prove(alloc, challenger, k + k, 2, pow_bits, claim)?;
    let (left, right) = values_at(below, k, challenges.as_slice());
    let GenericDegreeProof {
        claimed_sum: _,
        round_polys,
        pow_witnesses,
    } = proof;
    Ok(LayerProof {
        round_polys,
        pow_witnesses,
        left,
        right,
    })
}

// The values of a layer of so many variables at the two halves of a point.
pub(crate) fn values_at<EF: Field>(below: &[EF], variables: usize, point: &[EF]) -> (EF, EF)
    requires below { length below.now ≡ 2 ^ variables }
    requires point { length point.now ≡ variables + variables }
    ensures left { EF.number result.0 ≡ value EF.ops (entries EF.number below.now)
        (take variables (map EF.number point.now)) }
    ensures right { EF.number result.1 ≡ value EF.ops (entries EF.number below.now)
        (drop variables (map EF.number point.now)) }
{
    let left = eval_slice::<EF, EF>(below, &point[..variables]);
    let right = eval_slice::<EF, EF>(below, &point[variables..]);
    (left, right)
}
