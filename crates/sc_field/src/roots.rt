//! Values of polynomials by their coefficients, and their roots, counted.
ghost use Rattle.std.specs.Prelude.{◌≡◌, ℕ, ◌+◌, ◌≤◌, ◌==◌, if◌then◌else◌, map};
ghost use Rattle.sc_definitions.specs.Polynomials.{poly_at};
ghost use Rattle.sc_definitions.specs.Roots.{count_below, root_count, IsLastPlace};

use crate::field::Field;

/// The value at `x` of the polynomial with these coefficients, the constant first.
pub fn poly_at<F: Field>(coeffs: &[F], x: F) -> F
    ensures { F.number result ≡ poly_at F.ops (map F.number coeffs.now) (F.number x) }
{
    let mut value = F::ZERO;
    for i in 0..coeffs.len() {
        value = value.mul(x).add(coeffs[coeffs.len() - 1 - i]);
    }
    value
}

/// How many elements are roots of the polynomial with these coefficients: each element is tried.
/// Of a polynomial that is not zero there are no more than its degree.
pub fn count_roots<F: Field>(coeffs: &[F]) -> u64
    ensures count { result ≡ root_count F.ops (map F.number coeffs.now) }
    ensures bounded { (p : ℕ) → IsLastPlace F.ops (map F.number coeffs.now) p → result ≤ p }
{
    let fours = F::size() / 4;
    let mut count = 0;
    for i in 0..fours {
        count += roots_among_four(coeffs, 4 * i);
    }
    for i in 4 * fours..F::size() {
        count += one_for_zero(poly_at(coeffs, F::element(i)));
    }
    count
}

// How many of four elements, from the given number on, are roots.
fn roots_among_four<F: Field>(coeffs: &[F], from: u64) -> u64
    requires { from + 4 ≤ F.ops.size }
    ensures few { result ≤ 4 }
    ensures more { count_below (from + 4) (λ x. poly_at F.ops (map F.number coeffs.now) x == 0)
        ≡ result + count_below from (λ x. poly_at F.ops (map F.number coeffs.now) x == 0) }
{
    let (a, b) = (F::element(from), F::element(from + 1));
    let (c, d) = (F::element(from + 2), F::element(from + 3));
    let values = values_at_four(coeffs, (a, b, c, d));
    one_for_zero(values.0)
        + one_for_zero(values.1)
        + one_for_zero(values.2)
        + one_for_zero(values.3)
}

// The values at four elements side by side: no product waits for that of another element.
fn values_at_four<F: Field>(coeffs: &[F], xs: (F, F, F, F)) -> (F, F, F, F)
    ensures first { F.number result.0 ≡ poly_at F.ops (map F.number coeffs.now) (F.number xs.0) }
    ensures second { F.number result.1 ≡ poly_at F.ops (map F.number coeffs.now) (F.number xs.1) }
    ensures third { F.number result.2 ≡ poly_at F.ops (map F.number coeffs.now) (F.number xs.2) }
    ensures fourth { F.number result.3 ≡ poly_at F.ops (map F.number coeffs.now) (F.number xs.3) }
{
    let (mut a, mut b, mut c, mut d) = (F::ZERO, F::ZERO, F::ZERO, F::ZERO);
    for i in 0..coeffs.len() {
        let next = coeffs[coeffs.len() - 1 - i];
        a = a.mul(xs.0).add(next);
        b = b.mul(xs.1).add(next);
        c = c.mul(xs.2).add(next);
        d = d.mul(xs.3).add(next);
    }
    (a, b, c, d)
}

fn one_for_zero<F: Field>(value: F) -> u64
    ensures one { result ≡ (if F.number value == 0 then 1 else 0) }
    ensures few { result ≤ 1 }
{
    if value.index() == 0 { 1 } else { 0 }
}
