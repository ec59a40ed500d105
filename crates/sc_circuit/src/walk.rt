//! Walks over the gates of a layer, which make the tables of its rounds.
ghost use Rattle.std.specs.Prelude.{◌≡◌, ℕ, ◌==◌, ◌<◌, ◌≤◌, All, length, if◌then◌else◌};
ghost use Rattle.sc_definitions.specs.Ring.{◌+⟨◌⟩◌};
ghost use Rattle.sc_definitions.specs.Tables.{entries};
ghost use Rattle.sc_circuit_definitions.specs.LayerPhases.{shares_at, factor_share, rest_share};
ghost use Rattle.sc_circuit.specs.Phases.{given_factor, given_rest};
ghost use Rattle.sc_circuit.specs.Phases.{second_factor_share, second_rest_share};

use sc_circuit_definitions::Gate;
use sc_field::Field;

// Adds what each gate gives at its first place to the factors and to the rests, by its weight and
// the value below at its second place.
pub(crate) fn add_first_shares<EF: Field>(
    factors: &mut [EF],
    rests: &mut [EF],
    gates: &[Gate],
    weights: &[EF],
    below: &[EF],
)
    requires rests { length rests.old ≡ length factors.old }
    requires weights { length gates.now ≤ length weights.now }
    requires left { All (λ gate. gate.left < length factors.old) gates.now }
    requires right { All (λ gate. gate.right < length below.now) gates.now }
    ensures factors { (x : ℕ) → x < length factors.old → entries EF.number factors.new x
        ≡ entries EF.number factors.old x +⟨ EF.ops ⟩ shares_at EF.ops (λ gate. gate.left)
        (factor_share EF.ops (entries EF.number weights.now) (entries EF.number below.now))
        0 gates.now x }
    ensures rests { (x : ℕ) → x < length factors.old → entries EF.number rests.new x
        ≡ entries EF.number rests.old x +⟨ EF.ops ⟩ shares_at EF.ops (λ gate. gate.left)
        (rest_share EF.ops (entries EF.number weights.now) (entries EF.number below.now))
        0 gates.now x }
{
    for (index, gate) in gates.iter().enumerate() {
        let value = below[gate.right];
        add_share(
            factors,
            rests,
            gate.left,
            gate.product,
            weights[index],
            value,
        );
    }
}

// Adds what each gate gives at its second place to the factors and to the rests, by its weight
// times that of its first place, and the value below at the first challenges.
pub(crate) fn add_second_shares<EF: Field>(
    factors: &mut [EF],
    rests: &mut [EF],
    gates: &[Gate],
    weights: &[EF],
    points: &[EF],
    value: EF,
)
    requires rests { length rests.old ≡ length factors.old }
    requires weights { length gates.now ≤ length weights.now }
    requires left { All (λ gate. gate.left < length points.now) gates.now }
    requires right { All (λ gate. gate.right < length factors.old) gates.now }
    ensures factors { (x : ℕ) → x < length factors.old → entries EF.number factors.new x
        ≡ entries EF.number factors.old x +⟨ EF.ops ⟩ shares_at EF.ops (λ gate. gate.right)
        (second_factor_share EF.ops (entries EF.number weights.now)
        (entries EF.number points.now) (EF.number value)) 0 gates.now x }
    ensures rests { (x : ℕ) → x < length factors.old → entries EF.number rests.new x
        ≡ entries EF.number rests.old x +⟨ EF.ops ⟩ shares_at EF.ops (λ gate. gate.right)
        (second_rest_share EF.ops (entries EF.number weights.now)
        (entries EF.number points.now) (EF.number value)) 0 gates.now x }
{
    for (index, gate) in gates.iter().enumerate() {
        let weight = weights[index].mul(points[gate.left]);
        add_share(factors, rests, gate.right, gate.product, weight, value);
    }
}

// Adds what a gate of this weight gives at a place to the factors and to the rests, by the value
// below at its other place.
fn add_share<EF: Field>(
    factors: &mut [EF],
    rests: &mut [EF],
    place: usize,
    product: bool,
    weight: EF,
    value: EF,
)
    requires factors { place < length factors.old }
    requires rests { place < length rests.old }
    ensures factors { (x : ℕ) → entries EF.number factors.new x
        ≡ entries EF.number factors.old x +⟨ EF.ops ⟩ (if x == place
        then given_factor EF.ops product (EF.number weight) (EF.number value) else 0) }
    ensures rests { (x : ℕ) → entries EF.number rests.new x
        ≡ entries EF.number rests.old x +⟨ EF.ops ⟩ (if x == place
        then given_rest EF.ops product (EF.number weight) (EF.number value) else 0) }
{
    if product {
        factors[place] = factors[place].add(weight.mul(value));
    } else {
        factors[place] = factors[place].add(weight);
        rests[place] = rests[place].add(weight.mul(value));
    }
}
