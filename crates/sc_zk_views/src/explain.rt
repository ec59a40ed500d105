//! The masks that explain a view.
ghost use Rattle.std.specs.Prelude.{◌≡◌, ◌≢◌, ◌≤◌, ◌∷◌, suc, List, ℕ, IfOk};
ghost use Rattle.std.specs.Prelude.{get_or, length, map};
ghost use Rattle.sc_definitions.specs.Ring.{◌+⟨◌⟩◌};
ghost use Rattle.sc_zk_definitions.specs.Explained.{explained};
ghost use Rattle.sc_zk_definitions.specs.Views.{view_of, later_endpoints, AreListsOf};
ghost use Rattle.sc_commitments.specs.Matrices.{lists_in};
ghost use Rattle.sc_zk_views.specs.Views.{MasksFit, ViewFits, pieces_in, view_in, width_of};

use crate::mask_sums::{MaskSums, one_half};
use crate::sums::sum;
use crate::view::{PlainPiece, RealView};
use sc_field::{Field, NoMemory};
use std::alloc::Global;

/// The one list of masks that has this view, and these endpoints of all masks but the first:
/// `plain` are the plain pieces of the rounds, `eps` what these are multiplied by, and `gammas` the
/// challenges. There is such a list for each view and all endpoints, whatever is masked.
///
/// # Conditions
///
/// There is one wire at least, and as many plain pieces and challenges as wires, and one endpoint
/// fewer. The wires have one length, which is two or more. Two is not zero in the field.
///
/// # Errors
///
/// [`NoMemory`] alone.
pub fn explain_masks<EF: Field>(
    alloc: Global,
    eps: EF,
    plain: &[PlainPiece<EF>],
    gammas: &[EF],
    view: &RealView<EF>,
    endpoints: &[EF],
) -> Result<Vec<Vec<EF>>, NoMemory>
    requires fit { ViewFits plain.now gammas.now view.now endpoints.now }
    requires two { 1 +⟨ EF.ops ⟩ 1 ≢ 0 }
    ensures explains { IfOk result (λ v. view_of EF.ops (EF.number eps)
        (lists_in EF.number v.items) (map EF.number gammas.now) (pieces_in EF.number plain.now)
        ≡ view_in EF.number view.now) }
    ensures ends { IfOk result (λ v. later_endpoints EF.ops (lists_in EF.number v.items)
        ≡ map EF.number endpoints.now) }
    ensures count { IfOk result (λ v. length v.items ≡ length view.now.wires) }
    ensures shape { IfOk result (λ v. AreListsOf EF.ops (suc (width_of view.now.wires))
        (lists_in EF.number v.items)) }
    ensures fits { IfOk result (λ v. MasksFit plain.now gammas.now v.items) }
    ensures only { IfOk result (λ v. (ts : List (List ℕ)) → length ts ≡ length view.now.wires
        → AreListsOf EF.ops (suc (width_of view.now.wires)) ts
        → view_of EF.ops (EF.number eps) ts (map EF.number gammas.now)
        (pieces_in EF.number plain.now) ≡ view_in EF.number view.now
        → later_endpoints EF.ops ts ≡ map EF.number endpoints.now
        → ts ≡ lists_in EF.number v.items) }
{
    explained_masks(alloc, eps, plain, gammas, view, endpoints)
}

// The same, as it is computed: a mask's coefficients but the linear one are read off its wire, and
// that one off its endpoint.
fn explained_masks<EF: Field>(
    alloc: Global,
    eps: EF,
    plain: &[PlainPiece<EF>],
    gammas: &[EF],
    view: &RealView<EF>,
    endpoints: &[EF],
) -> Result<Vec<Vec<EF>>, NoMemory>
    requires fit { ViewFits plain.now gammas.now view.now endpoints.now }
    requires two { 1 +⟨ EF.ops ⟩ 1 ≢ 0 }
    ensures { IfOk result (λ v. lists_in EF.number v.items
        ≡ explained EF.ops (EF.number eps) (view_in EF.number view.now)
        (map EF.number endpoints.now) (map EF.number gammas.now)
        (pieces_in EF.number plain.now)) }
{
    let half = one_half::<EF>();
    let all = half.exp_u64(endpoints.len() as u64).mul(view.mu_tilde);
    let first = all.sub(sum(endpoints));
    let wires = view.wires.as_slice();
    let mut sums = MaskSums::new(half, EF::TWO, half, wires.len(), all);
    let mut masks = Vec::new(alloc);
    for i in 0..wires.len() {
        let end = endpoint_at(first, endpoints, i);
        sums = sums.without(end);
        let mask = sums.mask(alloc, wires[i].as_slice(), end, eps, plain[i])?;
        sums = sums.past(&mask, gammas[i]);
        masks.push(mask)?;
    }
    Ok(masks)
}

// Endpoint number i of all: the first one, or one of the others.
fn endpoint_at<EF: Field>(first: EF, others: &[EF], i: usize) -> EF
    requires { i ≤ length others.now }
    ensures { EF.number result ≡ get_or (EF.number first ∷ map EF.number others.now) i 0 }
{
    if i == 0 { first } else { others[i - 1] }
}
