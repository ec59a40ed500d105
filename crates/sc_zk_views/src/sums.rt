//! Sums and multiples of values.
ghost use Rattle.std.specs.Prelude.{◌≡◌, ◌++◌, OnOk, map};
ghost use Rattle.sc_definitions.specs.Polynomials.{poly_scaled};
ghost use Rattle.sc_zk_definitions.specs.Masks.{endpoint, sum_of};
ghost use Rattle.sc_commitments.specs.Matrices.{numbers_in};

use sc_field::{Field, NoMemory};

/// The sum of values.
pub(crate) fn sum<EF: Field>(values: &[EF]) -> EF
    ensures { EF.number result ≡ sum_of EF.ops (map EF.number values.now) }
{
    let mut sum = EF::ZERO;
    let mut left = values.len();
    while left > 0 {
        left -= 1;
        sum = values[left].add(sum);
    }
    sum
}

/// The endpoint of a mask: twice its constant and its other coefficients.
pub(crate) fn endpoint_of<EF: Field>(mask: &[EF]) -> EF
    ensures { EF.number result ≡ endpoint EF.ops (map EF.number mask.now) }
{
    if mask.is_empty() {
        return EF::ZERO;
    }
    mask[0].add(sum(mask))
}

/// Appends values times a factor.
pub(crate) fn push_scaled<EF: Field>(
    list: &mut Vec<EF>,
    factor: EF,
    values: &[EF],
) -> Result<(), NoMemory>
    ensures { OnOk result (numbers_in EF.number list.new
        ≡ numbers_in EF.number list.old ++ poly_scaled EF.ops (EF.number factor)
        (map EF.number values.now)) }
{
    for value in values {
        list.push(factor.mul(*value))?;
    }
    Ok(())
}
