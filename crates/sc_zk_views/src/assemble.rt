//! The view of masks.
ghost use Rattle.std.specs.Prelude.{◌≡◌, ◌≢◌, ◌≤◌, IfOk, length, map};
ghost use Rattle.sc_definitions.specs.Ring.{◌+⟨◌⟩◌};
ghost use Rattle.sc_zk_definitions.specs.Masks.{endpoint, masked_rounds, wire_of};
ghost use Rattle.sc_zk_definitions.specs.Views.{view_of, later_endpoints};
ghost use Rattle.sc_commitments.specs.Matrices.{numbers_in, lists_in};
ghost use Rattle.sc_zk_views.specs.Sums.{AreMaskSums};
ghost use Rattle.sc_zk_views.specs.Views.{MasksFit, ViewFits, pieces_in, rows_in, view_in};

use crate::mask_sums::{MaskSums, one_half};
use crate::sums::{endpoint_of, sum};
use crate::view::{PlainPiece, RealView};
use sc_field::{Field, NoMemory};
use sc_table::Row;
use std::alloc::Global;

/// The view of masks, one for each round, and the endpoints of all of them but the first: `plain`
/// are the plain pieces of the rounds, `eps` what these are multiplied by, and `gammas` the
/// challenges. [`crate::explain_masks`] finds the masks again.
///
/// # Conditions
///
/// There is one mask at least, and as many plain pieces and challenges as masks. The masks have one
/// length, which is three or more. Two is not zero in the field.
///
/// # Errors
///
/// [`NoMemory`] alone.
pub fn assemble_masks<EF: Field>(
    alloc: Global,
    eps: EF,
    plain: &[PlainPiece<EF>],
    gammas: &[EF],
    masks: &[Vec<EF>],
) -> Result<(RealView<EF>, Row<EF>), NoMemory>
    requires fit { MasksFit plain.now gammas.now masks.now }
    requires two { 1 +⟨ EF.ops ⟩ 1 ≢ 0 }
    ensures view { IfOk result (λ r. view_in EF.number r.0
        ≡ view_of EF.ops (EF.number eps) (lists_in EF.number masks.now)
        (map EF.number gammas.now) (pieces_in EF.number plain.now)) }
    ensures ends { IfOk result (λ r. map EF.number r.1
        ≡ later_endpoints EF.ops (lists_in EF.number masks.now)) }
    ensures fits { IfOk result (λ r. ViewFits plain.now gammas.now r.0 r.1) }
{
    let ends = all_endpoints(alloc, &masks[1..])?;
    let sums = before_first(masks, &ends);
    let wires = all_wires(alloc, eps, plain, gammas, masks, sums)?;
    let view = RealView {
        mu_tilde: sums.total(),
        wires: Row::new(wires),
    };
    Ok((view, Row::new(ends)))
}

// What is known before the first round, by the endpoints of all masks but the first.
fn before_first<EF: Field>(masks: &[Vec<EF>], later: &[EF]) -> MaskSums<EF>
    requires some { 1 ≤ length masks.now }
    requires ends { map EF.number later.now
        ≡ later_endpoints EF.ops (lists_in EF.number masks.now) }
    requires two { 1 +⟨ EF.ops ⟩ 1 ≢ 0 }
    ensures sums { AreMaskSums EF.ops EF.number (1 +⟨ EF.ops ⟩ 1)
        (map (endpoint EF.ops) (lists_in EF.number masks.now)) result }
    ensures done { EF.number result.done ≡ 0 }
{
    let half = one_half::<EF>();
    let all = endpoint_of(&masks[0]).add(sum(later));
    MaskSums::new(EF::TWO, half, half, masks.len(), all)
}

// The endpoints of masks.
fn all_endpoints<EF: Field>(alloc: Global, masks: &[Vec<EF>]) -> Result<Vec<EF>, NoMemory>
    ensures { IfOk result (λ v. numbers_in EF.number v
        ≡ map (endpoint EF.ops) (lists_in EF.number masks.now)) }
{
    let mut ends = Vec::new(alloc);
    for mask in masks {
        ends.push(endpoint_of(mask))?;
    }
    Ok(ends)
}

// The wires of all rounds, by powers of two before the first.
fn all_wires<EF: Field>(
    alloc: Global,
    eps: EF,
    plain: &[PlainPiece<EF>],
    gammas: &[EF],
    masks: &[Vec<EF>],
    before: MaskSums<EF>,
) -> Result<Vec<Row<EF>>, NoMemory>
    requires fit { MasksFit plain.now gammas.now masks.now }
    requires sums { AreMaskSums EF.ops EF.number (1 +⟨ EF.ops ⟩ 1)
        (map (endpoint EF.ops) (lists_in EF.number masks.now)) before }
    ensures { IfOk result (λ v. rows_in EF.number v.items
        ≡ map wire_of (masked_rounds EF.ops (EF.number eps) (EF.number before.done)
        (lists_in EF.number masks.now) (map EF.number gammas.now)
        (pieces_in EF.number plain.now))) }
{
    let mut sums = before;
    let mut wires = Vec::new(alloc);
    for i in 0..masks.len() {
        let mask = &masks[i];
        sums = sums.without(endpoint_of(mask));
        let wire = sums.wire(alloc, mask, eps, plain[i])?;
        wires.push(Row::new(wire))?;
        sums = sums.past(mask, gammas[i]);
    }
    Ok(wires)
}
