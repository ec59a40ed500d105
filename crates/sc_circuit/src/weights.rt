//! The weights of a layer's values, and what its rounds sum at their challenges.
ghost use Rattle.std.specs.Prelude.{◌≡◌, ℕ, ◌+◌, ◌<◌, ◌≤◌, ◌^◌, All, IfOk, length, map};
ghost use Rattle.std.specs.Prelude.{if◌then◌else◌, take, drop};
ghost use Rattle.sc_definitions.specs.Ring.{power, ◌+⟨◌⟩◌, ◌*⟨◌⟩◌};
ghost use Rattle.sc_definitions.specs.Tables.{entries, equality_weight};
ghost use Rattle.sc_circuit_definitions.specs.Circuits.{is_same_kind, weighted_sum};
ghost use Rattle.sc_circuit_definitions.specs.Circuits.{merged_weight};
ghost use Rattle.sc_circuit.specs.Steps.{AreSame};
ghost use Rattle.sc_circuit.specs.Weights.{gates_sum};

use crate::rows::zeros;
use sc_circuit_definitions::Gate;
use sc_field::{ExtensionField, Field};
use sc_memory::{NoMemory, with_room};
use sc_table::{add_equality, add_scaled};
use std::alloc::Global;

// So many powers of a challenge, from 1 on.
pub(crate) fn power_weights<EF: Field>(
    alloc: Global,
    challenge: EF,
    len: usize,
) -> Result<Vec<EF>, NoMemory>
    ensures len { IfOk result (λ weights. length weights.items ≡ len) }
    ensures powers { IfOk result (λ weights. (g : ℕ) → g < len
        → entries EF.number weights.items g ≡ power EF.ops (EF.number challenge) g) }
{
    let mut weights = with_room(alloc, len)?;
    let mut power = EF::ONE;
    for _gate in 0..len {
        weights.push(power)?;
        power = challenge.mul(power);
    }
    Ok(weights)
}

// The equality weights of a point of a few coordinates.
pub(crate) fn equality_weights<EF: Field>(alloc: Global, point: &[EF]) -> Result<Vec<EF>, NoMemory>
    requires { length point.now ≤ 8 }
    ensures len { IfOk result (λ weights. length weights.items ≡ 2 ^ length point.now) }
    ensures weights { IfOk result (λ weights. (b : ℕ) → b < 2 ^ length point.now
        → entries EF.number weights.items b ≡ equality_weight EF.ops (map EF.number point.now) b) }
{
    let mut weights = zeros(alloc, 1 << point.len())?;
    add_equality(weights.as_mut_slice(), point, EF::ONE);
    Ok(weights)
}

// The weights of the values below a layer: the equality weights of the first half of its
// challenges, and those of the second half, each times the challenge that merges them.
pub(crate) fn merged_weights<EF: Field>(
    alloc: Global,
    challenges: &[EF],
    variables: usize,
    merge: EF,
) -> Result<Vec<EF>, NoMemory>
    requires few { variables ≤ 8 }
    requires halves { length challenges.now ≡ variables + variables }
    ensures len { IfOk result (λ weights. length weights.items ≡ 2 ^ variables) }
    ensures weights { IfOk result (λ weights. AreSame (2 ^ variables)
        (entries EF.number weights.items) (merged_weight EF.ops (EF.number merge)
        (take variables (map EF.number challenges.now))
        (drop variables (map EF.number challenges.now)))) }
{
    let mut first = equality_weights(alloc, &challenges[..variables])?;
    let second = equality_weights(alloc, &challenges[variables..])?;
    add_scaled::<EF, EF>(first.as_mut_slice(), &second, merge);
    Ok(first)
}

// The images of a layer's values, each times its weight, in sum.
pub(crate) fn weighted<F: Field, EF: ExtensionField<F>>(values: &[F], weights: &[EF]) -> EF
    requires same { length values.now ≡ length weights.now }
    requires few { length values.now ≤ 256 }
    ensures { EF.number result ≡ weighted_sum EF.ops (entries EF.number weights.now)
        (map EF.embedding (map F.number values.now)) }
{
    EF::dot_base(values, weights)
}

// What the rounds of a layer sum at their challenges, by one walk over its gates: with the
// equality weights of the challenges of both halves, and the values below there.
pub(crate) fn gates_value<EF: Field>(
    gates: &[Gate],
    weights: &[EF],
    first: &[EF],
    second: &[EF],
    left: EF,
    right: EF,
) -> EF
    requires weights { length gates.now ≤ length weights.now }
    requires left { All (λ gate. gate.left < length first.now) gates.now }
    requires right { All (λ gate. gate.right < length second.now) gates.now }
    ensures { EF.number result ≡ gates_sum EF.ops (entries EF.number weights.now)
        (record { first = entries EF.number first.now; second = entries EF.number second.now })
        gates.now (EF.number left) (EF.number right) }
{
    let mut sums = EF::ZERO;
    let mut products = EF::ZERO;
    for (index, gate) in gates.iter().enumerate() {
        let share = weights[index].mul(first[gate.left]).mul(second[gate.right]);
        sums = sums.add(share_of(*gate, false, share));
        products = products.add(share_of(*gate, true, share));
    }
    sums.mul(left.add(right)).add(products.mul(left.mul(right)))
}

// The share of a gate, if it is a product, or else a sum, and zero if it is not.
fn share_of<EF: Field>(gate: Gate, product: bool, share: EF) -> EF
    ensures { EF.number result
        ≡ (if is_same_kind gate.product product then EF.number share else 0) }
{
    if gate.product == product {
        share
    } else {
        EF::ZERO
    }
}
