//! The wire of a masked round.
ghost use Rattle.std.specs.Prelude.{◌≡◌, ◌-◌, ◌≤◌, ◌++◌, IfOk, OnOk, length, map};
ghost use Rattle.sc_definitions.specs.Polynomials.{poly_scaled};
ghost use Rattle.sc_zk_definitions.specs.Masks.{piece};
ghost use Rattle.sc_commitments.specs.Matrices.{numbers_in};
ghost use Rattle.sc_zk_rounds.specs.Assembled.{Assembles};

use sc_field::{Field, NoMemory};
use std::alloc::Global;

/// What is sent of a round: `factor` is two to the power of how many masks are after the round's,
/// and `constant` what the other masks make: the factor times the earlier ones at their challenges,
/// and the total of the later ones. The mask has three coefficients at least.
pub fn masked_wire<EF: Field>(
    alloc: Global,
    factor: EF,
    constant: EF,
    mask: &[EF],
    eps: EF,
    c0: EF,
    c_inf: EF,
) -> Result<Vec<EF>, NoMemory>
    requires { 3 ≤ length mask.now }
    ensures wire { IfOk result (λ v. Assembles EF.ops (EF.number factor) (EF.number constant)
        (map EF.number mask.now) (EF.number eps) (piece (EF.number c0) (EF.number c_inf))
        (numbers_in EF.number v)) }
    ensures count { IfOk result (λ v. length v.items ≡ length mask.now - 1) }
{
    let mut wire = Vec::new(alloc);
    wire.push(factor.mul(mask[0]).add(constant).add(eps.mul(c0)))?;
    wire.push(factor.mul(mask[2]).add(eps.mul(c_inf)))?;
    push_scaled(&mut wire, factor, &mask[3..])?;
    Ok(wire)
}

// Appends elements times a factor.
fn push_scaled<EF: Field>(wire: &mut Vec<EF>, factor: EF, values: &[EF]) -> Result<(), NoMemory>
    ensures { OnOk result (numbers_in EF.number wire.new
        ≡ numbers_in EF.number wire.old ++ poly_scaled EF.ops (EF.number factor)
        (map EF.number values.now)) }
{
    for value in values {
        wire.push(factor.mul(*value))?;
    }
    Ok(())
}
