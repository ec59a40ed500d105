//! The extension of the integers modulo 257 by u, where `u^2 = 3`, against figures by hand. Number
//! a + 257 b is a + b u.
use super::figures::Operation::{Difference, Double, Opposite, Power, Product, Square, Sum};
use super::figures::{Figures, assert_figures};
use sc_field::{Algebra, ExtensionField, Field};
use sc_small_fields::{F257, F257x2};

// u u is 3, (2 + u) (2 - u) is 1, and (10 + 20 u) (30 + 40 u) is 2700 + 1000 u: 130 + 229 u. So 2 + u
// and 2 - u are inverse to each other, and u/3 inverts u. The power 257 turns the sign of u, and the
// power 66048 of all but zero is one.
static PAIRS: Figures = Figures {
    constants: (66049, 0, 1, 2),
    results: &[
        (Sum(257, 257), 514),
        (Sum(66048, 66048), 65790),
        (Sum(12345, 54321), 617),
        (Difference(12345, 54321), 24330),
        (Difference(100, 25700), 40449),
        (Difference(257, 257), 0),
        (Opposite(12345), 53961),
        (Opposite(257), 65792),
        (Opposite(0), 0),
        (Double(257), 514),
        (Product(257, 257), 3),
        (Product(2 + 257, 2 + 257 * 256), 1),
        (Product(10 + 257 * 20, 30 + 257 * 40), 130 + 257 * 229),
        (Product(66048, 66048), 518),
        (Product(100, 25700), 60138),
        (Product(123 + 257 * 45, 67 + 257 * 89), 21798),
        (Product(12345, 54321), 62584),
        (Product(66048, 2), 65790),
        (Square(257), 3),
        (Power(257, 2), 3),
        (Power(257, 3), 771),
        (Power(2 + 257, 5), 53818),
        (Power(12345, 67), 21041),
        (Power(94 + 257 * 211, 257), 94 + 257 * 46),
        (Power(5150, 66048), 1),
        (Power(0, 0), 1),
        (Power(0, 4), 0),
    ],
    inverses: &[
        (1, Some(1)),
        (2, Some(129)),
        (257, Some(22102)),
        (259, Some(65794)),
        (5150, Some(62458)),
        (12345, Some(58746)),
        (66048, Some(33025)),
        (514, Some(11051)),
        (0, None),
    ],
    equal: &[
        (1288, 1288, true),
        (1288, 3 + 257 * 6, false),
        (1288, 4 + 257 * 5, false),
    ],
};

// Elements by their parts, and their numbers.
static PARTS: [(u64, u64, u64); 2] = [(3, 5, 1288), (256, 256, 66048)];

// An element by its number, a part of another, and the numbers of the element with it as first and as
// second part.
static REPLACED: [(u64, u64, u64, u64); 2] = [
    (1288, 9, 9 + 257 * 5, 3 + 257 * 9),
    (1288, 256, 1541, 3 + 257 * 256),
];

// The element a + b u.
fn of(a: u64, b: u64) -> F257x2 {
    F257x2::from_parts(&[F257::element(a % 257), F257::element(b % 257)])
}

// The element of this number.
fn at(number: u64) -> F257x2 {
    F257x2::element(number % 66049)
}

// The numbers of the two parts.
fn parts(x: F257x2) -> (u64, u64) {
    let first: F257 = x.part(0);
    let second: F257 = x.part(1);
    (first.index(), second.index())
}

#[test]
fn has_its_figures(rt: HostRuntime) {
    assert_figures::<F257x2, HostRuntime>(&rt, &PAIRS);
}

#[test]
fn numbers_its_parts(rt: HostRuntime) {
    assert!(rt; <F257x2 as ExtensionField<F257>>::DEGREE == 2);
    for (a, b, number) in &PARTS {
        assert!(rt; of(*a, *b).index() == *number && parts(at(*number)) == (*a, *b));
    }
}

#[test]
fn replaces_one_part(rt: HostRuntime) {
    for (number, put, first, second) in &REPLACED {
        let part = F257::element(*put % 257);
        assert!(rt;
            at(*number).with_part(0, part).index() == *first
                && at(*number).with_part(1, part).index() == *second
        );
    }
    let (degree, first, put) = super::first_part_put(at(1288), F257::element(256));
    assert!(rt; (degree, first.index(), put.index()) == (2, 3, 1541));
}

// 4 (2 + 3 u) + 7 (5 + 6 u) is 43 + 54 u.
#[test]
fn is_over_the_integers(rt: HostRuntime) {
    let embedded: F257x2 = Algebra::embed(F257::element(200));
    let scaled = of(10, 20).mul_base(F257::element(100));
    let combined = super::combined(of(2, 3), F257::element(4), of(5, 6), F257::element(7));
    assert!(rt; (embedded.index(), parts(scaled), parts(combined)) == (200, (229, 201), (43, 54)));
}
