//! Grids against plain sums over all rows, of tables of one to four variables, and three by hand.

ghost use Rattle.std.specs.Prelude.{◌≡◌, ◌^◌, ◌<◌, ◌≤◌, length, IfOk};
ghost use Rattle.sc_table.specs.Polys.{variables_of};

use super::claims::{KINDS, Kinds, claims, images, values, weights};
use super::{are_grids, claim};
use VariableOrder::{Prefix, Suffix};
use sc_field::{ExtensionField, Field, NoMemory};
use sc_small_fields::{F257, F257x2, F65537};
use sc_svo::SvoBatch;
use sc_table::{Poly, VariableOrder};
use sc_tests_common::{elements, have_numbers, table};
use std::alloc::Global;

// The digit that stands for infinity, beside 0 and 1.
const INFINITY: usize = 2;

// The value of a table at a digit for each of its variables: at infinity it is the value at 1 less
// that at 0.
fn value_at<F: Field>(table: &[F], digits: &[usize]) -> F
    requires { length table.now ≡ 2 ^ length digits.now }
{
    match digits {
        [] => table[0],
        [digit, rest @ ..] => {
            let (low, high) = table.split_at(table.len() / 2);
            match *digit {
                0 => value_at(low, rest),
                1 => value_at(high, rest),
                _ => value_at(high, rest).sub(value_at(low, rest)),
            }
        }
    }
}

// A digit for each of four variables, in the order in which they are bound, at a place of a round's
// grid: of the variables before the round's own, the first has the place's lowest digit to the base
// 3; those after it have a row's bits.
fn digits_of(round: usize, place: usize, own: usize, row: usize) -> [usize; 4] {
    let mut digits = [own; 4];
    let (mut places, mut rows) = (place, row);
    for i in 0..4 {
        if i < round {
            digits[i] = places % 3;
            places /= 3;
        }
        if round < i {
            digits[i] = rows % 2;
            rows /= 2;
        }
    }
    digits
}

// The product of the values of two tables of n variables at a digit for each, in the order in which
// they are bound.
fn product<F: Field>(
    order: VariableOrder,
    evals: &[F],
    weights: &[F],
    n: usize,
    digits: [usize; 4],
) -> F
    requires few { n ≤ 4 }
    requires evals { length evals.now ≡ 2 ^ n }
    requires weights { length weights.now ≡ 2 ^ n }
{
    let mut at = digits;
    let at = &mut at[..n];
    match order {
        Prefix => {}
        Suffix => at.reverse(),
    }
    value_at(evals, at).mul(value_at(weights, at))
}

// The value at a place of a round's grid with the round's own variable at a digit: the sum over the
// rows of the variables after it, of which a table of n variables has n - 1 - round.
fn plain_value<F: Field>(
    order: VariableOrder,
    evals: &[F],
    weights: &[F],
    n: usize,
    round: usize,
    place: usize,
    own: usize,
) -> F
    requires few { n ≤ 4 }
    requires round { round < n }
    requires evals { length evals.now ≡ 2 ^ n }
    requires weights { length weights.now ≡ 2 ^ n }
{
    let rows = 1_usize << (n - 1 - round);
    let mut sum = F::ZERO;
    for row in 0..rows {
        let digits = digits_of(round, place, own, row);
        sum = sum.add(product(order, evals, weights, n, digits));
    }
    sum
}

// Whether a round's list with its own variable at a digit has these values.
fn list_agrees<F: Field>(
    order: VariableOrder,
    evals: &[F],
    weights: &[F],
    n: usize,
    round: usize,
    own: usize,
    values: &[F],
) -> bool
    requires few { n ≤ 4 }
    requires round { round < n }
    requires evals { length evals.now ≡ 2 ^ n }
    requires weights { length weights.now ≡ 2 ^ n }
{
    for place in 0..values.len() {
        if values[place] != plain_value(order, evals, weights, n, round, place, own) {
            return false;
        }
    }
    let places = match round {
        0 => 1,
        1 => 3,
        2 => 9,
        _ => 27,
    };
    values.len() == places
}

// Whether the grids of all n rounds on a table of n variables, with two claims, and the values that
// the claims are on, are plain sums.
fn grids_agree<F: Field, EF: ExtensionField<F>>(
    alloc: Global,
    order: VariableOrder,
    n: usize,
    kinds: Kinds,
) -> Result<bool, NoMemory>
    requires some { 0 < n }
    requires few { n ≤ 4 }
{
    let table: Poly<F> = table(alloc, n, 12345)?;
    let claims = claims::<EF>(alloc, n, kinds)?;
    let (batch, found) = SvoBatch::<F, EF>::with_values(
        alloc,
        order,
        table.as_slice(),
        &claims,
        n,
    )?;
    let evals: Poly<EF> = images(alloc, &table, n)?;
    let wanted = values(alloc, &evals, n, kinds)?;
    let weights = weights(alloc, n, kinds)?;
    let (f, w) = (evals.as_slice(), weights.as_slice());
    let rounds = batch.grids().rounds.as_slice();
    let mut agree = rounds.len() == n && have_numbers(&found, &wanted);
    for round in 0..n {
        let grid = &rounds[round];
        agree = agree
            && list_agrees(order, f, w, n, round, 0, grid.zero.as_slice())
            && list_agrees(order, f, w, n, round, INFINITY, grid.infinity.as_slice());
    }
    Ok(agree)
}

// The same for claims of each kind.
fn kinds_agree<F: Field, EF: ExtensionField<F>>(
    alloc: Global,
    order: VariableOrder,
    n: usize,
) -> Result<bool, NoMemory>
    requires some { 0 < n }
    requires few { n ≤ 4 }
{
    for kinds in &KINDS {
        if !grids_agree::<F, EF>(alloc, order, n, *kinds)? {
            return Ok(false);
        }
    }
    Ok(true)
}

#[test]
fn grids_are_plain_sums(rt: HostRuntime) {
    for n in 1..5 {
        for order in [Prefix, Suffix] {
            assert!(rt;
                kinds_agree::<F65537, F65537>(rt.alloc(), order, n) == Ok(true),
                "{n} {order:?}"
            );
            assert!(rt;
                kinds_agree::<F257, F257x2>(rt.alloc(), order, n) == Ok(true),
                "{n} {order:?}"
            );
        }
    }
}

// An order, a table of three variables, and a claim's point: both tables have the same value at the
// same values of the variables in the order in which they are bound.
type Three = (VariableOrder, &'static [u64], &'static [u64]);

static THREE: [Three; 2] = [
    (Prefix, &[1, 2, 3, 5, 8, 13, 21, 34], &[1, 0, 2]),
    (Suffix, &[1, 8, 3, 21, 2, 13, 5, 34], &[2, 0, 1]),
];

// The point's weights are -1 and 2 where the variables bound first and second are 1 and 0, and 0
// elsewhere. So the first grid is 0, and -(8 - 1) + 2 * (13 - 2). The second one has
// -8 + 2 * 13 and -(8 - 1) + 2 * (13 - 2) at 0, and (21 - 8) - 2 * (34 - 13) and
// (21 - 8 - (3 - 1)) - 2 * (34 - 13 - (5 - 2)) at infinity. In the third one, the digits (1, 0),
// (infinity, 0), (1, infinity) and (infinity, infinity) have -8, -(8 - 1), 21 - 8 and
// 21 - 8 - (3 - 1) at 0, and at infinity 3 times 13 - 8, 4, -8 and -7.
static GRIDS_OF_THREE: [(&[u64], &[u64]); 3] = [
    (&[0], &[15]),
    (&[0, 18, 15], &[0, 65508, 65512]),
    (
        &[0, 65529, 65530, 0, 0, 0, 0, 13, 11],
        &[0, 15, 12, 0, 0, 0, 0, 65513, 65516],
    ),
];

// The table of three variables with these rows.
fn eight(alloc: Global, rows: &[u64]) -> Result<Poly<F65537>, NoMemory>
    requires { length rows.now ≡ 8 }
    ensures { IfOk result (λ p. variables_of p ≡ 3) }
{
    Ok(Poly::new(elements(alloc, rows)?))
}

fn three_agree(alloc: Global, wanted: &Three) -> Result<bool, NoMemory> {
    let (order, numbers, coordinates) = *wanted;
    if numbers.len() != 8 || coordinates.len() != 3 {
        return Ok(false);
    }
    let table = eight(alloc, numbers)?;
    let claims = [claim(alloc, coordinates, false, 1)?];
    let batch = SvoBatch::<F65537, F65537>::new(alloc, order, &table, &claims, 3)?;
    Ok(are_grids(batch.grids(), &GRIDS_OF_THREE))
}

#[test]
fn grids_of_three_variables(rt: HostRuntime) {
    for wanted in &THREE {
        assert!(rt; three_agree(rt.alloc(), wanted) == Ok(true), "{wanted:?}");
    }
}
