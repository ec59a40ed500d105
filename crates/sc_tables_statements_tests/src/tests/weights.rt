//! Figures over the integers modulo 65537, worked out apart from the crate: each row's weight
//! straight from its definition, the sum over all rows of entry times weight, and the sums of weight
//! times the equality weight of a point and times the product of the coordinates whose digit is 1.

mod blocks;

ghost use Rattle.std.specs.Prelude.{◌≡◌, ◌≤◌, IfOk};
ghost use Rattle.sc_definitions.specs.Statements.{arity_of};
ghost use Rattle.sc_table.specs.Polys.{variables_of};

use sc_field::{Field, NoMemory};
use sc_small_fields::F65537;
use sc_table::{Basis, Poly, VariableOrder};
use sc_tests_common::{elements, of, point};
use sc_weights::{NextConstraint, RowWeights, Selector};
use std::alloc::Global;
use std::process::Abort;

// A table of n variables has the first 2^n of these entries, and the point the first n of these
// coordinates.
const ENTRIES: [u64; 8] = [1, 2, 3, 4, 9, 7, 12, 5];

const COORDINATES: [u64; 3] = [3, 4, 5];

// The weights at the rows, the sum of entries times weights, and the value of the weights at the
// point, as values and as coefficients.
type Wanted<'a> = (&'a [u64], u64, u64, u64);

// Points, and what their equality weights are.
static EQUALITY: [(&[u64], Wanted<'static>); 5] = [
    (&[], (&[1], 1, 1, 1)),
    (&[5], (&[65533, 5], 6, 23, 11)),
    (&[0, 1], (&[0, 1, 0, 0], 2, 65529, 4)),
    (&[2, 3], (&[2, 65534, 65533, 6], 8, 144, 50)),
    (
        &[2, 3, 7],
        (
            &[65525, 14, 18, 65516, 24, 65509, 65501, 42],
            65321,
            8496,
            1450,
        ),
    ),
];

// Selectors, points, and what their successor weights are where the slot stands first. Of a point
// of one coordinate every weight goes to the last row.
static SLOT_FIRST: [(&[u64], &[u64], Wanted<'static>); 8] = [
    (&[], &[], (&[1], 1, 1, 1)),
    (&[], &[2, 3], (&[0, 2, 65534, 2], 3, 35, 23)),
    (&[5], &[7], (&[0, 65533, 0, 5], 12, 92, 44)),
    (&[2, 3], &[], (&[2, 65534, 65533, 6], 8, 144, 50)),
    (
        &[],
        &[2, 3, 7],
        (&[0, 65525, 14, 18, 65516, 24, 65509, 6], 65300, 64773, 677),
    ),
    (
        &[5],
        &[2, 3],
        (&[0, 65529, 12, 65529, 0, 10, 65522, 10], 65465, 1334, 418),
    ),
    (
        &[2, 3],
        &[7],
        (&[0, 2, 0, 65534, 0, 65533, 0, 6], 65531, 720, 250),
    ),
    (
        &[2, 3, 7],
        &[],
        (
            &[65525, 14, 18, 65516, 24, 65509, 65501, 42],
            65321,
            8496,
            1450,
        ),
    ),
];

// The same where it stands last.
static SLOT_LAST: [(&[u64], &[u64], Wanted<'static>); 8] = [
    (&[], &[], (&[1], 1, 1, 1)),
    (&[], &[2, 3], (&[0, 2, 65534, 2], 3, 35, 23)),
    (&[5], &[7], (&[0, 0, 65533, 5], 8, 96, 48)),
    (&[2, 3], &[], (&[2, 65534, 65533, 6], 8, 144, 50)),
    (
        &[],
        &[2, 3, 7],
        (&[0, 65525, 14, 18, 65516, 24, 65509, 6], 65300, 64773, 677),
    ),
    (
        &[5],
        &[2, 3],
        (&[0, 0, 65529, 10, 12, 65522, 65529, 10], 65510, 1435, 483),
    ),
    (
        &[2, 3],
        &[7],
        (&[0, 0, 0, 0, 2, 65534, 65533, 6], 65516, 759, 273),
    ),
    (
        &[2, 3, 7],
        &[],
        (
            &[65525, 14, 18, 65516, 24, 65509, 65501, 42],
            65321,
            8496,
            1450,
        ),
    ),
];

// Scalars, numbers of variables, and what the powers weigh. The power 0 of zero is one; 65536 is
// the opposite of one.
static POWERS: [(u64, usize, Wanted<'static>); 6] = [
    (0, 0, (&[1], 1, 1, 1)),
    (0, 2, (&[1, 0, 0, 0], 1, 6, 1)),
    (7, 1, (&[1, 7], 15, 19, 22)),
    (2, 2, (&[1, 2, 4, 8], 49, 50, 117)),
    (65536, 2, (&[1, 65536, 1, 65536], 65535, 65530, 65525)),
    (
        7,
        3,
        (
            &[1, 7, 49, 343, 2401, 16807, 52112, 37099],
            34113,
            25774,
            37445,
        ),
    ),
];

// Points, and what the products of their coordinates weigh.
static PRODUCTS: [(&[u64], Wanted<'static>); 5] = [
    (&[], (&[1], 1, 1, 1)),
    (&[5], (&[1, 5], 11, 13, 16)),
    (&[0, 3], (&[1, 3, 0, 0], 7, 65519, 13)),
    (&[2, 3], (&[1, 3, 2, 6], 37, 36, 91)),
    (&[2, 3, 7], (&[1, 7, 3, 21, 2, 14, 6, 42], 506, 1116, 3276)),
];

// An entry with three times its weight.
fn added(entry: u64, weight: u64) -> F65537 {
    of::<F65537>(entry).add(of::<F65537>(3).mul(of(weight)))
}

// That the rows are the entries with three times the weights.
fn are_added(rows: &[F65537], weights: &[u64]) -> bool {
    rows.len() == weights.len()
        && rows
            .iter()
            .zip(ENTRIES.iter().zip(weights))
            .all(|(row, (entry, weight))| *row == added(*entry, *weight))
}

// The table of n variables.
fn table(alloc: Global, n: usize) -> Result<Poly<F65537>, NoMemory>
    requires { n ≤ 3 }
    ensures { IfOk result (λ p. variables_of p ≡ n) }
{
    Ok(Poly::new(elements(alloc, &ENTRIES[..1 << n])?))
}

// That weights of n variables are the wanted ones.
fn agrees<W: RowWeights<F65537>>(
    alloc: Global,
    weights: &W,
    n: usize,
    wanted: Wanted,
) -> Result<bool, NoMemory>
    requires { arity_of n (W.kind weights.now) ≡ n }
{
    if n > 3 {
        return Ok(false);
    }
    let (at_rows, sum, there, as_coefficients) = wanted;
    let mut table = table(alloc, n)?;
    let true_value: F65537 = weights.true_value(table.as_slice());
    weights.add_to(&mut table, of(3));
    let point = point(alloc, &COORDINATES[..n])?;
    let value = weights.value_at(Basis::Evaluation, &point).index();
    let coefficient_value = weights.value_at(Basis::Projective, &point).index();
    Ok(
        true_value.index() == sum
            && (value, coefficient_value) == (there, as_coefficients)
            && are_added(table.as_slice(), at_rows),
    )
}

fn equality(alloc: Global, coords: &[u64], wanted: Wanted) -> Result<bool, NoMemory> {
    agrees(alloc, &point(alloc, coords)?, coords.len(), wanted)
}

fn successor(
    alloc: Global,
    var_order: VariableOrder,
    selector: &[u64],
    coords: &[u64],
    wanted: Wanted,
) -> Result<bool, NoMemory> {
    let constraint = NextConstraint {
        selector: point(alloc, selector)?,
        point: point(alloc, coords)?,
        var_order,
    };
    let n = selector.len().saturating_add(coords.len());
    agrees(alloc, &constraint, n, wanted)
}

fn powers(alloc: Global, var: u64, n: usize, wanted: Wanted) -> Result<bool, NoMemory> {
    agrees(alloc, &Selector::Scalar(of(var)), n, wanted)
}

fn products(alloc: Global, coords: &[u64], wanted: Wanted) -> Result<bool, NoMemory> {
    let z = point(alloc, coords)?;
    agrees(alloc, &Selector::Direct(&z), coords.len(), wanted)
}

#[test]
fn equality_weights(rt: HostRuntime) {
    for (coords, wanted) in &EQUALITY {
        assert!(rt;
            equality(rt.alloc(), coords, *wanted) == Ok(true),
            "{coords:?}"
        );
    }
}

// That the successor weights of each row are the wanted ones.
fn assert_successors<A: Abort>(
    rt: &A,
    alloc: Global,
    var_order: VariableOrder,
    rows: &[(&[u64], &[u64], Wanted)],
) {
    for (selector, coords, wanted) in rows {
        let agrees = successor(alloc, var_order, selector, coords, *wanted);
        assert!(rt; agrees == Ok(true), "{selector:?} {coords:?}");
    }
}

#[test]
fn successor_weights_in_a_slot_that_stands_first(rt: HostRuntime) {
    assert_successors(&rt, rt.alloc(), VariableOrder::Prefix, &SLOT_FIRST);
}

#[test]
fn successor_weights_in_a_slot_that_stands_last(rt: HostRuntime) {
    assert_successors(&rt, rt.alloc(), VariableOrder::Suffix, &SLOT_LAST);
}

#[test]
fn powers_of_a_scalar(rt: HostRuntime) {
    for (var, n, wanted) in &POWERS {
        assert!(rt;
            powers(rt.alloc(), *var, *n, *wanted) == Ok(true),
            "{var} {n}"
        );
    }
}

#[test]
fn products_of_coordinates(rt: HostRuntime) {
    for (coords, wanted) in &PRODUCTS {
        assert!(rt;
            products(rt.alloc(), coords, *wanted) == Ok(true),
            "{coords:?}"
        );
    }
}
