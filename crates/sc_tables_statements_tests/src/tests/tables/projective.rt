//! Tables of coefficients: their values, and their first variable bound. Figures by hand.

use super::{elements, four};
use sc_field::{Field, NoMemory};
use sc_small_fields::{F257, F257x2, F65537};
use sc_table::{
    Basis, Point, Poly, VariableOrder, eval_slice_projective, fix_prefix_var_slice_projective,
};
use sc_tests_common::{have_numbers, of};
use std::alloc::Global;

// 1 + 2 y + 3 x + 4 x y at x = 3 and y = 4.
#[test]
fn coefficients_at_a_point(rt: HostRuntime) {
    let poly = four(rt.alloc()).expect(&rt, "an answer");
    assert!(rt; poly.num_variables() == 2);
    let z = Point::new(elements(rt.alloc(), &[3, 4]).expect(&rt, "an answer"));
    let at: F65537 = poly.eval_projective(&z);
    assert!(rt; at.index() == 66);
}

// It is 10 + 14 y at x = 3, and 66 at y = 4.
#[test]
fn bound_coefficients(rt: HostRuntime) {
    let mut poly = four(rt.alloc()).expect(&rt, "an answer");
    assert!(rt; poly.num_variables() == 2);
    poly.fix_prefix_var_projective_mut(F65537::element(3));
    assert!(rt; have_numbers(poly.as_slice(), &[10, 14]));
    poly.fix_prefix_var_projective_mut(F65537::element(4));
    assert!(rt; have_numbers(poly.as_slice(), &[66]));
    let nowhere = Point::new(Vec::new(rt.alloc()));
    let left: F65537 = poly.eval_projective(&nowhere);
    assert!(rt; left.index() == 66);
}

// The square of element 257 is 3, so that 4 x y is 12 + 4 x at x = 257 and y = 258.
#[test]
fn coefficients_at_elements_of_an_extension(rt: HostRuntime) {
    let one = [of::<F257>(1), of(2), of(3), of(4)];
    let z: [F257x2; 2] = [of(257), of(258)];
    let at: F257x2 = eval_slice_projective(&one, &z);
    assert!(rt; at.index() == 15 + 9 * 257);
    let last: F257x2 = eval_slice_projective(&one[2..], &z[..1]);
    assert!(rt; last.index() == 3 + 4 * 257);
}

// The table 1, 2, 3, 4 over the extension.
fn four_images(alloc: Global) -> Result<Poly<F257x2>, NoMemory> {
    Ok(Poly::new(super::four_of(alloc)?))
}

// A table over the extension is bound at an element of the base field.
#[test]
fn bound_coefficients_of_an_extension(rt: HostRuntime) {
    let mut poly = four_images(rt.alloc()).expect(&rt, "an answer");
    assert!(rt; poly.num_variables() == 2);
    poly.fix_prefix_var_projective_mut(of::<F257>(5));
    assert!(rt; have_numbers(poly.as_slice(), &[16, 22]));
}

// Coefficients of the base field, bound at an element of the extension, in memory of their own.
#[test]
fn coefficients_bound_apart(rt: HostRuntime) {
    let evals = [of::<F257>(1), of(2), of(3), of(4)];
    let r: F257x2 = of(257);
    let bound = fix_prefix_var_slice_projective(rt.alloc(), &evals, r).expect(&rt, "an answer");
    assert!(rt;
        have_numbers(bound.as_slice(), &[1 + 3 * 257, 2 + 4 * 257])
            && have_numbers(&evals, &[1, 2, 3, 4])
    );
}

#[test]
fn orders_that_a_basis_is_offered_with(rt: HostRuntime) {
    let (prefix, suffix) = (VariableOrder::Prefix, VariableOrder::Suffix);
    assert!(rt;
        Basis::Evaluation.is_offered(prefix)
            && Basis::Evaluation.is_offered(suffix)
            && Basis::Projective.is_offered(prefix)
            && !Basis::Projective.is_offered(suffix)
    );
}

#[test]
fn values_and_coefficients_by_basis(rt: HostRuntime) {
    let evals = [of::<F65537>(1), of(2), of(3), of(4)];
    let z: [F65537; 2] = [of(3), of(4)];
    let values: F65537 = Basis::Evaluation.eval_slice(&evals, &z);
    let coefficients: F65537 = Basis::Projective.eval_slice(&evals, &z);
    assert!(rt; have_numbers(&[values, coefficients], &[11, 66]));
}

// In the evaluation basis 1 + 2 r and 2 + 2 r by halves, and 1 + r and 3 + r by neighbours.
#[test]
fn tables_bound_by_basis(rt: HostRuntime) {
    let (prefix, suffix) = (VariableOrder::Prefix, VariableOrder::Suffix);
    let mut by_halves = four(rt.alloc()).expect(&rt, "an answer");
    let mut by_neighbours = four(rt.alloc()).expect(&rt, "an answer");
    let mut of_coefficients = four(rt.alloc()).expect(&rt, "an answer");
    assert!(rt;
        by_halves.num_variables() == 2
            && by_neighbours.num_variables() == 2
            && of_coefficients.num_variables() == 2
    );
    Basis::Evaluation.fix_var(prefix, &mut by_halves, F65537::element(3));
    Basis::Evaluation.fix_var(suffix, &mut by_neighbours, F65537::element(3));
    Basis::Projective.fix_var(prefix, &mut of_coefficients, F65537::element(3));
    assert!(rt;
        have_numbers(by_halves.as_slice(), &[7, 8])
            && have_numbers(by_neighbours.as_slice(), &[4, 6])
            && have_numbers(of_coefficients.as_slice(), &[10, 14])
    );
}

#[test]
fn slices_bound_by_basis(rt: HostRuntime) {
    let evals = [of::<F257>(1), of(2), of(3), of(4)];
    let r: F257x2 = of(257);
    let values = Basis::Evaluation
        .fix_var_slice(rt.alloc(), VariableOrder::Suffix, &evals, r)
        .expect(&rt, "an answer");
    let coefficients = Basis::Projective
        .fix_var_slice(rt.alloc(), VariableOrder::Prefix, &evals, r)
        .expect(&rt, "an answer");
    assert!(rt;
        have_numbers(values.as_slice(), &[1 + 257, 3 + 257])
            && have_numbers(coefficients.as_slice(), &[1 + 3 * 257, 2 + 4 * 257])
    );
}
