//! Views of masks and the masks that explain them, by figures by hand and from a script that sums
//! over all bits and is no part of this.
ghost use Rattle.std.specs.Prelude.{◌≡◌, IfOk, length};

use sc_field::{Field, NoMemory};
use sc_small_fields::{F257x2, F65537};
use sc_table::Row;
use sc_tests_common::{elements, have_numbers, of};
use sc_zk_transcript::ZkSumcheckShape;
use sc_zk_views::{PlainPiece, RealView, assemble_masks, explain_masks};
use std::alloc::Global;

// Two masked rounds, and what is seen of them.
#[derive(Clone, Copy)]
struct Figure {
    eps: u64,
    plain: [(u64, u64); 2],
    gammas: [u64; 2],
    masks: [[u64; 4]; 2],
    mu: u64,
    wires: [[u64; 3]; 2],
    endpoint: u64,
}

// The masks are 2 + 3 X + 5 X^2 + 7 X^3 and 1 + 4 X + 9 X^2 + 16 X^3, with the endpoints 19 and 31:
// the total is twice their sum. The first wire begins with 2 2 + 31 + 31 7, the second one with
// 1 + 84 + 31 11, since the first mask is 84 at 2.
const CUBIC: Figure = Figure {
    eps: 31,
    plain: [(7, 13), (11, 17)],
    gammas: [2, 3],
    masks: [[2, 3, 5, 7], [1, 4, 9, 16]],
    mu: 100,
    wires: [[252, 413, 14], [426, 536, 16]],
    endpoint: 31,
};

// The same modulo 257, since the elements are of the base field.
const REDUCED: Figure = Figure {
    wires: [[252, 156, 14], [169, 22, 16]],
    ..CUBIC
};

// A plain piece of these numbers.
fn piece<F: Field>(numbers: (u64, u64)) -> PlainPiece<F> {
    PlainPiece {
        c0: of(numbers.0),
        c_inf: of(numbers.1),
    }
}

// The plain pieces of these numbers.
fn pieces<F: Field>(alloc: Global, numbers: &[(u64, u64)]) -> Result<Vec<PlainPiece<F>>, NoMemory>
    ensures { IfOk result (λ v. length v.items ≡ length numbers.now) }
{
    let pieces = numbers.iter().map(|pair| piece(*pair)).collect(alloc)?;
    Ok(pieces)
}

// Whether the masks of a figure have its view and its endpoint.
fn assembles<F: Field>(alloc: Global, figure: &Figure) -> Result<bool, NoMemory> {
    if ZkSumcheckShape::new_inherited(2, 4, 0)
        .validate::<F>()
        .is_err()
    {
        return Ok(false);
    }
    let plain: Vec<PlainPiece<F>> = pieces(alloc, &figure.plain)?;
    let gammas: Vec<F> = elements(alloc, &figure.gammas)?;
    let first: Vec<F> = elements(alloc, &figure.masks[0])?;
    let second: Vec<F> = elements(alloc, &figure.masks[1])?;
    let masks = vec![in alloc; first, second]?;
    let (view, ends) = assemble_masks(alloc, of(figure.eps), &plain, &gammas, &masks)?;
    Ok(is_view(&view, figure) && have_numbers(ends.as_slice(), &[figure.endpoint]))
}

// Whether a view is a figure's.
fn is_view<F: Field>(view: &RealView<F>, figure: &Figure) -> bool {
    let wires = view.wires.as_slice();
    view.mu_tilde.index() == figure.mu
        && wires.len() == 2
        && have_numbers(wires[0].as_slice(), &figure.wires[0])
        && have_numbers(wires[1].as_slice(), &figure.wires[1])
}

// Whether the view and the endpoint of a figure are explained by its masks.
fn explains<F: Field>(alloc: Global, figure: &Figure) -> Result<bool, NoMemory> {
    if ZkSumcheckShape::new_inherited(2, 4, 0)
        .validate::<F>()
        .is_err()
    {
        return Ok(false);
    }
    let plain: Vec<PlainPiece<F>> = pieces(alloc, &figure.plain)?;
    let gammas: Vec<F> = elements(alloc, &figure.gammas)?;
    let first: Vec<F> = elements(alloc, &figure.wires[0])?;
    let second: Vec<F> = elements(alloc, &figure.wires[1])?;
    let wires = vec![in alloc; Row::new(first), Row::new(second)]?;
    let view = RealView {
        mu_tilde: of(figure.mu),
        wires: Row::new(wires),
    };
    let ends: Vec<F> = elements(alloc, &[figure.endpoint])?;
    let masks = explain_masks(alloc, of(figure.eps), &plain, &gammas, &view, &ends)?;
    Ok(
        masks.len() == 2
            && have_numbers(&masks[0], &figure.masks[0])
            && have_numbers(&masks[1], &figure.masks[1]),
    )
}

#[test]
fn two_cubic_masks(rt: HostRuntime) {
    assert!(rt;
        assembles::<F65537>(rt.alloc(), &CUBIC) == Ok(true)
            && explains::<F65537>(rt.alloc(), &CUBIC) == Ok(true)
            && assembles::<F257x2>(rt.alloc(), &REDUCED) == Ok(true)
            && explains::<F257x2>(rt.alloc(), &REDUCED) == Ok(true)
    );
}

// One mask that is 2 + 3 X + 5 X^2 over 7 + 13 X^2, which is taken 31 times: the round's polynomial
// is 219 + 3 X + 408 X^2, and the endpoint is 12.
fn one_mask<F: Field>(alloc: Global) -> Result<bool, NoMemory> {
    if ZkSumcheckShape::new_inherited(1, 3, 0)
        .validate::<F>()
        .is_err()
    {
        return Ok(false);
    }
    let plain: Vec<PlainPiece<F>> = pieces(alloc, &[(7, 13)])?;
    let gammas: Vec<F> = elements(alloc, &[2])?;
    let masks: Vec<Vec<F>> = vec![in alloc; elements(alloc, &[2, 3, 5])?]?;
    let (view, ends) = assemble_masks(alloc, of(31), &plain, &gammas, &masks)?;
    let wires = view.wires.as_slice();
    Ok(
        view.mu_tilde.index() == 12
            && ends.len() == 0
            && wires.len() == 1
            && have_numbers(wires[0].as_slice(), &[219, 408]),
    )
}

#[test]
fn a_mask_of_three_coefficients(rt: HostRuntime) {
    assert!(rt; one_mask::<F65537>(rt.alloc()) == Ok(true));
}

// Two masks without a plain part: the wires are both 21 and 6, and the endpoints 7 and 19.
fn two_masks<F: Field>(alloc: Global) -> Result<bool, NoMemory> {
    if ZkSumcheckShape::new_inherited(2, 3, 0)
        .validate::<F>()
        .is_err()
    {
        return Ok(false);
    }
    let plain: Vec<PlainPiece<F>> = pieces(alloc, &[(0, 0), (0, 0)])?;
    let gammas: Vec<F> = elements(alloc, &[2, 3])?;
    let first: Vec<F> = elements(alloc, &[21, 6])?;
    let second: Vec<F> = elements(alloc, &[21, 6])?;
    let wires = vec![in alloc; Row::new(first), Row::new(second)]?;
    let view = RealView {
        mu_tilde: of(52),
        wires: Row::new(wires),
    };
    let ends: Vec<F> = elements(alloc, &[19])?;
    let masks = explain_masks(alloc, F::ONE, &plain, &gammas, &view, &ends)?;
    Ok(
        masks.len() == 2
            && have_numbers(&masks[0], &[1, 2, 3])
            && have_numbers(&masks[1], &[4, 5, 6]),
    )
}

#[test]
fn masks_without_a_plain_part(rt: HostRuntime) {
    assert!(rt; two_masks::<F65537>(rt.alloc()) == Ok(true));
}

// Whether masks of these numbers come back from their view, and their view from them.
fn come_back<F: Field>(alloc: Global, masks: &[[u64; 5]; 3]) -> Result<bool, NoMemory> {
    if ZkSumcheckShape::new_inherited(3, 5, 0)
        .validate::<F>()
        .is_err()
    {
        return Ok(false);
    }
    let plain: Vec<PlainPiece<F>> = pieces(alloc, &[(7, 65013), (11, 600), (0, 29)])?;
    let gammas: Vec<F> = elements(alloc, &[5000, 3, 65000])?;
    let lists: Vec<Vec<F>> = vec![in alloc;
        elements(alloc, &masks[0])?,
        elements(alloc, &masks[1])?,
        elements(alloc, &masks[2])?,
    ]?;
    let eps = of(40001);
    let (view, ends) = assemble_masks(alloc, eps, &plain, &gammas, &lists)?;
    let found = explain_masks(alloc, eps, &plain, &gammas, &view, ends.as_slice())?;
    let (again, later) = assemble_masks(alloc, eps, &plain, &gammas, &found)?;
    Ok(
        are_lists(&found, masks)
            && again.mu_tilde == view.mu_tilde
            && later.as_slice() == ends.as_slice()
            && are_rows(again.wires.as_slice(), view.wires.as_slice()),
    )
}

fn are_lists<F: Field>(lists: &[Vec<F>], numbers: &[[u64; 5]; 3]) -> bool {
    lists.len() == 3
        && lists
            .iter()
            .zip(numbers)
            .all(|(list, numbers)| have_numbers(list, numbers))
}

fn are_rows<F: Field>(ours: &[Row<F>], theirs: &[Row<F>]) -> bool {
    ours.len() == theirs.len()
        && ours
            .iter()
            .zip(theirs)
            .all(|(ours, theirs)| ours.as_slice() == theirs.as_slice())
}

#[test]
fn masks_come_back_from_their_view(rt: HostRuntime) {
    let masks = [
        [2, 3, 5, 7, 11],
        [65000, 1, 0, 40000, 9],
        [31, 60000, 2, 5, 0],
    ];
    assert!(rt;
        come_back::<F65537>(rt.alloc(), &masks) == Ok(true)
            && come_back::<F257x2>(rt.alloc(), &masks) == Ok(true)
    );
}
