//! The values of masks at challenges.
ghost use Rattle.std.specs.Prelude.{◌≡◌, ◌≤◌, IfOk, length, map};
ghost use Rattle.sc_zk_definitions.specs.Masks.{masks_at, powers_below};
ghost use Rattle.sc_commitments.specs.Matrices.{numbers_in, lists_in};
ghost use Rattle.sc_zk_rounds.specs.Values.{AreOfLength, first_length, CovectorsTell};

use sc_field::laws::poly_at;
use sc_field::{Field, NoMemory};
use std::alloc::Global;

/// The sum of the masks, each at its challenge. There are as many challenges as masks.
pub fn mask_residual<EF: Field>(masks: &[Vec<EF>], gammas: &[EF]) -> EF
    requires { length masks.now ≡ length gammas.now }
    ensures { EF.number result
        ≡ masks_at EF.ops (lists_in EF.number masks.now) (map EF.number gammas.now) }
{
    let mut sum = EF::ZERO;
    for i in 0..gammas.len() {
        sum = sum.add(poly_at(&masks[i], gammas[i]));
    }
    sum
}

/// For each challenge its first powers, as many as the masks have coefficients, from the power 0
/// on: by [`covector_laws`] the sum of a mask's coefficients times these is its value at the
/// challenge. There are as many challenges as masks, and the masks have one length.
pub fn mask_residual_covectors<EF: Field>(
    alloc: Global,
    masks: &[Vec<EF>],
    gammas: &[EF],
) -> Result<Vec<Vec<EF>>, NoMemory>
    requires count { length masks.now ≡ length gammas.now }
    requires same { AreOfLength (first_length masks.now) masks.now }
    ensures { IfOk result (λ v. lists_in EF.number v.items
        ≡ map (powers_below EF.ops (first_length masks.now)) (map EF.number gammas.now)) }
{
    let mask_len = match masks {
        [first, ..] => first.len(),
        [] => 0,
    };
    mask_residual_covectors_from_shape(alloc, masks.len(), mask_len, gammas)
}

/// The same by the number of masks and their length. There are as many challenges as masks.
pub fn mask_residual_covectors_from_shape<EF: Field>(
    alloc: Global,
    mask_count: usize,
    mask_len: usize,
    gammas: &[EF],
) -> Result<Vec<Vec<EF>>, NoMemory>
    requires { mask_count ≡ length gammas.now }
    ensures { IfOk result (λ v. lists_in EF.number v.items
        ≡ map (powers_below EF.ops mask_len) (map EF.number gammas.now)) }
{
    let mut covectors = Vec::new(alloc);
    for gamma in gammas {
        covectors.push(powers_of(alloc, *gamma, mask_len)?)?;
    }
    Ok(covectors)
}

// The first powers of an element.
fn powers_of<EF: Field>(alloc: Global, x: EF, count: usize) -> Result<Vec<EF>, NoMemory>
    ensures { IfOk result (λ v. numbers_in EF.number v ≡ powers_below EF.ops count (EF.number x)) }
{
    let mut powers = Vec::new(alloc);
    for i in 0..count {
        powers.push(x.exp_u64(i as u64))?;
    }
    Ok(powers)
}

/// The sum of masks of one length at their challenges is the sum, over all of them, of the
/// coefficients times the challenges' powers.
pub fn covector_laws<EF: Field>()
    ensures { CovectorsTell EF.ops }
{}
