//! Quadratics by their values.

ghost use Rattle.std.specs.Prelude.{◌≡◌, ℕ, ◌+◌, ◌-◌, ◌*◌, ◌^◌, ◌<◌, ◌≤◌, [], ◌∷◌, length, map};
ghost use Rattle.std.specs.Prelude.{IfOk, vec_len, vec_capacity};
ghost use Rattle.sc_definitions.specs.Ring.{◌+⟨◌⟩◌, ◌-⟨◌⟩◌, ◌*⟨◌⟩◌};
ghost use Rattle.sc_definitions.specs.Polynomials.{poly_at};
ghost use Rattle.sc_definitions.specs.Rounds.{extrapolated};
ghost use Rattle.sc_definitions.specs.Tables.{entries};
ghost use Rattle.sc_definitions.specs.Grids.{digit_of, digit_weight, place_weight};

use crate::poly::push_weighted;
use sc_field::{Field, NoMemory};
use std::alloc::Global;

/// The weights at `r` of a quadratic's value at 0, its value at 1 and its leading coefficient:
/// 1 - r, r and r (r - 1).
///
/// They do not sum to one.
pub fn lagrange_weights_01inf<F: Field>(r: F) -> (F, F, F)
    ensures of_zero { F.number result.0 ≡ 1 -⟨ F.ops ⟩ F.number r }
    ensures of_one { F.number result.1 ≡ F.number r }
    ensures of_leading { F.number result.2 ≡ F.number r *⟨ F.ops ⟩ (F.number r -⟨ F.ops ⟩ 1) }

    // The sum of the three, each times its weight, is the quadratic at `r`.
    ensures sum { (e0 e1 e_inf : ℕ) →
        e0 *⟨ F.ops ⟩ F.number result.0 +⟨ F.ops ⟩ e1 *⟨ F.ops ⟩ F.number result.1 +⟨ F.ops ⟩ e_inf *⟨ F.ops ⟩ F.number result.2
        ≡ extrapolated F.ops e0 e1 e_inf (F.number r) }
{
    (F::ONE.sub(r), r, r.mul(r.sub(F::ONE)))
}

/// The quadratic with the values `e0` at 0 and `e1` at 1 and the leading coefficient `e_inf`, at `r`:
/// e0 (1 - r) + e1 r + e_inf r (r - 1).
pub fn extrapolate_01inf<F: Field>(e0: F, e1: F, e_inf: F, r: F) -> F
    ensures value { F.number result
        ≡ extrapolated F.ops (F.number e0) (F.number e1) (F.number e_inf) (F.number r) }
    ensures at_zero { F.number r ≡ 0 → F.number result ≡ F.number e0 }
    ensures at_one { F.number r ≡ 1 → F.number result ≡ F.number e1 }

    // By coefficients, the constant first: the leading one is `e_inf`.
    ensures coefficients { F.number result
        ≡ poly_at F.ops (F.number e0 ∷ F.number e1 -⟨ F.ops ⟩ F.number e0 -⟨ F.ops ⟩ F.number e_inf ∷ F.number e_inf ∷ []) (F.number r) }
{
    // The slope from 0 to r, so that two products are enough.
    let slope = e1.sub(e0).add(e_inf.mul(r.sub(F::ONE)));
    e0.add(slope.mul(r))
}

/// The weights, at at most 40 challenges, of the places of a grid, as many as three to the power of
/// the number of challenges. Place number k has a digit to the base 3 for each challenge, the lowest
/// for the first one, and its weight is the product of the digits' weights.
///
/// The digits 0, 1 and 2 stand for a value at 0, one at 1 and a leading coefficient, and weigh as
/// [`lagrange_weights_01inf`] has it. Memory is taken once, for the whole list, and `NoMemory` says
/// that there is not as much.
pub fn lagrange_weights_01inf_multi<F: Field>(alloc: Global, rs: &[F]) -> Result<Vec<F>, NoMemory>
    requires { length rs.now ≤ 40 }
    ensures size { IfOk result (λ v. length v.items ≡ 3 ^ length rs.now) }
    ensures weights { IfOk result (λ v. (k : ℕ) → k < 3 ^ length rs.now →
        entries F.number v.items k ≡ place_weight F.ops (map F.number rs.now) k) }
{
    let mut weights = Vec::with_capacity(alloc, 3usize.pow(rs.len() as u32))?;
    weights.push_reserved(F::ONE);
    for r in rs {
        push_digits(&mut weights, *r);
    }
    Ok(weights)
}

// The weights with one more challenge, whose digit is higher than the others: those of its digit 0,
// of its digit 1 and of its digit 2, one list after the other. There is room for all.
fn push_digits<F: Field>(weights: &mut Vec<F>, r: F)
    requires { 3 * vec_len weights.old ≤ vec_capacity weights.old }
    ensures room { vec_capacity weights.new ≡ vec_capacity weights.old }
    ensures size { length weights.new.items ≡ 3 * length weights.old.items }
    ensures digits { (d k : ℕ) → d < 3 → k < length weights.old.items →
        entries F.number weights.new.items (d * length weights.old.items + k)
        ≡ entries F.number weights.old.items k
        *⟨ F.ops ⟩ digit_weight F.ops (digit_of d) (F.number r) }
{
    let third = weights.len();
    push_weighted(weights, r);
    push_multiples(weights, third, r.sub(F::ONE));
}

// The items with multiples after them, of those from the given one on. There is room for these.
fn push_multiples<F: Field>(items: &mut Vec<F>, from: usize, factor: F)
    requires from { from ≤ vec_len items.old }
    requires room { vec_len items.old + (vec_len items.old - from) ≤ vec_capacity items.old }
    ensures room { vec_capacity items.new ≡ vec_capacity items.old }
    ensures size { length items.new.items
        ≡ length items.old.items + (length items.old.items - from) }
    ensures kept { (b : ℕ) → b < length items.old.items →
        entries F.number items.new.items b ≡ entries F.number items.old.items b }
    ensures added { (b : ℕ) → b < length items.old.items - from →
        entries F.number items.new.items (length items.old.items + b)
        ≡ entries F.number items.old.items (from + b) *⟨ F.ops ⟩ F.number factor }
{
    for k in from..items.len() {
        let multiple = items[k].mul(factor);
        items.push_reserved(multiple);
    }
}
