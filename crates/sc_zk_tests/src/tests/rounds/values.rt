//! Masks at challenges, and the wire of a round, by hand.

ghost use Rattle.std.specs.Prelude.{◌≡◌, ◌≤◌, IfOk, length};

use sc_field::{Field, NoMemory};
use sc_small_fields::{F257x2, F65537};
use sc_tests_common::{elements, have_numbers, of};
use sc_zk_rounds::{
    ZkSumcheckData, covector_laws, mask_residual, mask_residual_covectors,
    mask_residual_covectors_from_shape, masked_wire,
};
use std::alloc::Global;

// Two masks of three coefficients, and their challenges.
static MASKS: [[u64; 3]; 2] = [[2, 3, 5], [7, 11, 13]];

static GAMMAS: [u64; 2] = [17, 19];

// Whether the sum of the masks at their challenges is this number, and their covectors are these,
// asked for by the masks and by their shape.
fn values_are<F: Field>(
    alloc: Global,
    sum: u64,
    covectors: &[[u64; 3]; 2],
) -> Result<bool, NoMemory> {
    let first: Vec<F> = elements(alloc, &MASKS[0])?;
    let second: Vec<F> = elements(alloc, &MASKS[1])?;
    let gammas: Vec<F> = elements(alloc, &GAMMAS)?;
    if gammas.len() != 2 || first.len() != 3 || second.len() != 3 {
        return Ok(false);
    }
    let mut masks = Vec::new(alloc);
    masks.push(first)?;
    masks.push(second)?;
    let residual = mask_residual(&masks, &gammas);
    let by_masks = mask_residual_covectors(alloc, &masks, &gammas)?;
    let by_shape = mask_residual_covectors_from_shape(alloc, 2, 3, &gammas)?;
    let agree = by_masks.iter().zip(&by_shape).zip(covectors).all(|(
        (ours, theirs),
        numbers,
    )| have_numbers(ours, numbers) && have_numbers(theirs, numbers));
    Ok(agree && by_masks.len() == 2 && by_shape.len() == 2 && residual.index() == sum)
}

// 2 + 3 17 + 5 289 = 1498, and 7 + 11 19 + 13 361 = 4909.
#[test]
fn masks_at_their_challenges(rt: HostRuntime) {
    covector_laws::<F65537>();
    let covectors = [[1, 17, 289], [1, 19, 361]];
    assert!(rt; values_are::<F65537>(rt.alloc(), 6407, &covectors) == Ok(true));
    // The same modulo 257, since the elements are of the base field.
    let reduced = [[1, 17, 32], [1, 19, 104]];
    assert!(rt; values_are::<F257x2>(rt.alloc(), 239, &reduced) == Ok(true));
}

// Whether a round of this mask has this wire, by the factor, the constant, the combination and the
// plain pair.
fn wire_is<F: Field>(
    alloc: Global,
    mask: &[u64],
    factor: u64,
    constant: u64,
    wire: &[u64],
) -> Result<bool, NoMemory> {
    let mask: Vec<F> = elements(alloc, mask)?;
    if mask.len() < 3 {
        return Ok(false);
    }
    let made = masked_wire::<F>(
        alloc,
        of(factor),
        of(constant),
        &mask,
        of(31),
        of(7),
        of(13),
    )?;
    Ok(have_numbers(&made, wire))
}

// The polynomial of the last round is 2 + 31 7, 3, and 5 + 31 13; with two masks after it, all of
// the mask is taken four times, and the constant has a part of the others.
#[test]
fn wires_of_masked_rounds(rt: HostRuntime) {
    assert!(rt;
        wire_is::<F65537>(rt.alloc(), &[2, 3, 5], 1, 0, &[219, 408]) == Ok(true)
            && wire_is::<F65537>(rt.alloc(), &[1, 2, 3, 4, 5], 4, 100, &[321, 415, 16, 20])
                == Ok(true)
    );
}

#[test]
fn new_data_is_empty(rt: HostRuntime) {
    let data = ZkSumcheckData::<F65537, F257x2>::new(rt.alloc());
    assert!(rt;
        data.mu_tilde.index() == 0
            && data.round_coefficients.is_empty()
            && data.pow_witnesses.is_empty()
    );
}
