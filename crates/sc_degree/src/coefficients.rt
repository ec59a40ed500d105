//! Polynomials by their coefficients, the constant first.
ghost use Rattle.std.specs.Prelude.{◌≡◌, ◌<◌, ◌≤◌, ◌^◌, IfOk, length, map};
ghost use Rattle.sc_definitions.specs.Polynomials.{poly_minus};
ghost use Rattle.sc_degree.specs.Coefficients.{plus_multiple, times_line};

use sc_field::{Field, NoMemory};
use std::alloc::Global;

/// X less an element times a polynomial.
pub(crate) fn times_line<EF: Field>(
    alloc: Global,
    coeffs: &[EF],
    at: EF,
) -> Result<Vec<EF>, NoMemory>
    requires { length coeffs.now < 2 ^ 63 }
    ensures { IfOk result (λ v. map EF.number v.items
        ≡ times_line EF.ops (EF.number at) 0 (map EF.number coeffs.now)) }
{
    let mut product = Vec::with_capacity(alloc, coeffs.len() + 1)?;
    let mut before = EF::ZERO;
    for i in 0..coeffs.len() {
        let coefficient = coeffs[i];
        product.push_reserved(before.sub(at.mul(coefficient)));
        before = coefficient;
    }
    product.push_reserved(before);
    Ok(product)
}

/// A polynomial with a multiple of another one, of no fewer coefficients, added.
pub(crate) fn plus_multiple<EF: Field>(
    alloc: Global,
    coeffs: &[EF],
    others: &[EF],
    share: EF,
) -> Result<Vec<EF>, NoMemory>
    requires { length coeffs.now ≤ length others.now }
    ensures { IfOk result (λ v. map EF.number v.items ≡ plus_multiple EF.ops (EF.number share)
        (map EF.number coeffs.now) (map EF.number others.now)) }
{
    let mut sum = Vec::with_capacity(alloc, coeffs.len())?;
    for i in 0..coeffs.len() {
        sum.push_reserved(coeffs[i].add(share.mul(others[i])));
    }
    Ok(sum)
}

/// A polynomial less another one, of no fewer coefficients.
pub(crate) fn difference<EF: Field>(
    alloc: Global,
    coeffs: &[EF],
    others: &[EF],
) -> Result<Vec<EF>, NoMemory>
    requires { length coeffs.now ≤ length others.now }
    ensures { IfOk result (λ v. map EF.number v.items
        ≡ poly_minus EF.ops (map EF.number coeffs.now) (map EF.number others.now)) }
{
    let mut less = Vec::with_capacity(alloc, coeffs.len())?;
    for i in 0..coeffs.len() {
        less.push_reserved(coeffs[i].sub(others[i]));
    }
    Ok(less)
}
