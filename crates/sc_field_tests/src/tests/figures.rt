//! Operations on elements by their numbers, and what they give.
use sc_field::Field;
use sc_field::laws::field_laws;
use std::process::Abort;

// An operation on the elements of these numbers.
#[derive(Clone, Copy, Debug)]
pub(super) enum Operation {
    Sum(u64, u64),
    Difference(u64, u64),
    Product(u64, u64),
    Opposite(u64),
    Double(u64),
    Square(u64),
    // The element, and how many factors of it.
    Power(u64, u64),
    // The node of this number, which is below 16.
    Node(usize),
}

use Operation::{Difference, Double, Node, Opposite, Power, Product, Square, Sum};

// What is known of a field by hand, each element by its number.
pub(super) struct Figures {
    // The size, and the numbers of zero, one and two.
    pub(super) constants: (u64, u64, u64, u64),
    pub(super) results: &'static [(Operation, u64)],
    // Elements with their inverses, where they have one.
    pub(super) inverses: &'static [(u64, Option<u64>)],
    // Whether two elements are equal.
    pub(super) equal: &'static [(u64, u64, bool)],
}

// The element of this number, where that is below the size.
fn of<F: Field>(number: u64) -> F {
    field_laws::<F>();
    F::element(number % F::size())
}

fn constants<F: Field>() -> (u64, u64, u64, u64) {
    (F::size(), F::ZERO.index(), F::ONE.index(), F::TWO.index())
}

fn result_of<F: Field>(operation: Operation) -> u64 {
    let result: F = match operation {
        Sum(a, b) => of::<F>(a).add(of(b)),
        Difference(a, b) => of::<F>(a).sub(of(b)),
        Product(a, b) => of::<F>(a).mul(of(b)),
        Opposite(a) => of::<F>(a).neg(),
        Double(a) => of::<F>(a).double(),
        Square(a) => of::<F>(a).square(),
        Power(a, exponent) => of::<F>(a).exp_u64(exponent),
        Node(i) => F::interpolation_node(i % 16),
    };
    result.index()
}

fn inverse_of<F: Field>(number: u64) -> Option<u64> {
    match of::<F>(number).inverse() {
        Some(inverse) => Some(inverse.index()),
        None => None,
    }
}

fn assert_results<F: Field, A: Abort>(rt: &A, results: &[(Operation, u64)]) {
    for (operation, result) in results {
        assert!(rt; result_of::<F>(*operation) == *result, "{operation:?}");
    }
}

fn assert_inverses<F: Field, A: Abort>(rt: &A, inverses: &[(u64, Option<u64>)]) {
    for (number, inverse) in inverses {
        assert!(rt;
            inverse_of::<F>(*number) == *inverse,
            "the inverse of {number}"
        );
    }
}

fn assert_equal<F: Field, A: Abort>(rt: &A, pairs: &[(u64, u64, bool)]) {
    for (a, b, are_equal) in pairs {
        assert!(rt; (of::<F>(*a) == of::<F>(*b)) == *are_equal, "{a} and {b}");
    }
}

// Tells of the first figure that the field does not have.
pub(super) fn assert_figures<F: Field, A: Abort>(rt: &A, figures: &Figures) {
    assert!(rt; constants::<F>() == figures.constants);
    assert_results::<F, A>(rt, figures.results);
    assert_inverses::<F, A>(rt, figures.inverses);
    assert_equal::<F, A>(rt, figures.equal);
}
