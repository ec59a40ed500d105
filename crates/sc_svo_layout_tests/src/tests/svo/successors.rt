//! Values through the successor map, by hand over the integers modulo 65537, of the table
//! 1, 2, 3, 4 at the point (2, 3), and the three parts of its weights.
//!
//! The equality weights of the point are 2, -3, -4 and 6. So its successor weights are 0, 2, -3 and
//! -4 + 6, and the value is 2 * 2 - 3 * 3 + 4 * 2.

ghost use Rattle.std.specs.Prelude.{◌≡◌, ◌≤◌, length, IfOk};
ghost use Rattle.sc_definitions.specs.Tables.{suffix};
ghost use Rattle.sc_table.specs.Polys.{variables_of, table_of};
ghost use Rattle.sc_partials.specs.Partials.{IsPartial};
ghost use Rattle.sc_svo.specs.Points.{point_in, near_in, order_in};

use super::super::four;
use super::{are_grids, claim, point_in_parts};
use VariableOrder::{Prefix, Suffix};
use sc_field::{ExtensionField, Field, NoMemory};
use sc_small_fields::{F257x2, F65537};
use sc_svo::{NextPartials, NextSvoPartials, SvoBatch, SvoPoint};
use sc_table::{Point, Poly, VariableOrder};
use sc_tests_common::{elements, have_numbers, of, point};
use std::alloc::Global;

// The sums of the parts that are done and carried, and of the last row's part.
type Tables = (&'static [u64], &'static [u64], &'static [u64]);

// An order, how many coordinates are those of small-value rounds, and the tables of each round.
type Rounds = (VariableOrder, usize, &'static [Tables]);

// The table whole, and nothing.
const WHOLE: &[u64] = &[1, 2, 3, 4];

const NOTHING: &[u64] = &[0, 0, 0, 0];

// In prefix order the coordinate 3 is summed over, with the weights -2 and 3, of the rows 1, 2 and
// 3, 4. A step from 0 is done within it: -2 * 2 and -2 * 4. One from 1 is carried on, and comes to
// 0: 3 * 1 and 3 * 3. The last row stays: 3 * 2 and 3 * 4.
//
// In suffix order the coordinate 2 is summed over, with the weights -1 and 2, of the rows 1, 3 and
// 2, 4. Where the step was done before it, it is no step here: -1 + 2 * 3 and -2 + 2 * 4. Where it
// is carried in, it is one from 0: -1 * 3 and -1 * 4. The last row stays: 2 * 3 and 2 * 4.
//
// Where nothing is summed over there is one row: each step from it is carried on, or stays, and
// none is done within it.
static ROUNDS: [Rounds; 6] = [
    (Prefix, 0, &[]),
    (Prefix, 1, &[(&[65533, 65529], &[3, 9], &[6, 12])]),
    (
        Prefix,
        2,
        &[
            (&[65533, 65529], &[3, 9], &[6, 12]),
            (NOTHING, WHOLE, WHOLE),
        ],
    ),
    (Suffix, 0, &[]),
    (Suffix, 1, &[(&[5, 6], &[65534, 65533], &[6, 8])]),
    (
        Suffix,
        2,
        &[(&[5, 6], &[65534, 65533], &[6, 8]), (WHOLE, NOTHING, WHOLE)],
    ),
];

fn are_parts(parts: &NextPartials<F65537>, wanted: &Tables) -> bool {
    have_numbers(parts.done(), wanted.0)
        && have_numbers(parts.carry(), wanted.1)
        && have_numbers(parts.omega(), wanted.2)
}

// Whether the value is 3, and the rounds have these tables.
fn is_answer(value: F65537, found: &NextSvoPartials<F65537>, wanted: &[Tables]) -> bool {
    let rounds = found.rounds();
    value.index() == 3
        && rounds.len() == wanted.len()
        && rounds
            .iter()
            .zip(wanted)
            .all(|(parts, tables)| are_parts(parts, tables))
}

// Whether the value and the tables are these in prefix order.
fn prefix_agrees(alloc: Global, l0: usize, wanted: &[Tables]) -> Result<bool, NoMemory>
    requires { l0 ≤ 2 }
{
    let point = point_in_parts(alloc, Prefix, l0)?;
    let (value, found) = point.eval_next_prefix(alloc, &four(alloc)?)?;
    Ok(is_answer(value, &found, wanted))
}

// The partial table of the last round that may be given in suffix order.
fn compressed<F: Field, EF: ExtensionField<F>>(
    alloc: Global,
    point: &SvoPoint<F, EF>,
    table: &Poly<F>,
) -> Result<Poly<EF>, NoMemory>
    requires order { order_in point.now ≡ suffix }
    requires arity { variables_of table.now ≡ length (point_in point.now) }
    ensures { IfOk result (IsPartial suffix EF.ops EF.number
        (λ b. EF.embedding (table_of F.number table.now b)) (point_in point.now)
        (near_in point.now)) }
{
    point.z_split().compress_prefix(alloc, table.as_slice())
}

// In suffix order, with that table and without.
fn suffix_agrees(alloc: Global, l0: usize, wanted: &[Tables]) -> Result<bool, NoMemory>
    requires { l0 ≤ 2 }
{
    let point = point_in_parts(alloc, Suffix, l0)?;
    let table = four(alloc)?;
    let given = compressed(alloc, &point, &table)?;
    let (value, found) = point.eval_next_suffix(alloc, &table, None)?;
    let (again, others) = point.eval_next_suffix(alloc, &table, Some(&given))?;
    Ok(is_answer(value, &found, wanted) && is_answer(again, &others, wanted))
}

// The same of the table's slice, in the given order.
fn slice_agrees(
    alloc: Global,
    order: VariableOrder,
    l0: usize,
    wanted: &[Tables],
) -> Result<bool, NoMemory>
    requires { l0 ≤ 2 }
{
    let point = point_in_parts(alloc, order, l0)?;
    let (value, found) = point.eval_next_slice(alloc, four(alloc)?.as_slice())?;
    Ok(is_answer(value, &found, wanted))
}

fn rounds_agree(alloc: Global, wanted: &Rounds) -> Result<bool, NoMemory> {
    let (order, l0, tables) = *wanted;
    if l0 > 2 {
        return Ok(false);
    }
    let by_poly = match order {
        Prefix => prefix_agrees(alloc, l0, tables)?,
        Suffix => suffix_agrees(alloc, l0, tables)?,
    };
    Ok(by_poly && slice_agrees(alloc, order, l0, tables)?)
}

#[test]
fn a_successor_at_a_point_in_parts(rt: HostRuntime) {
    for wanted in &ROUNDS {
        assert!(rt; rounds_agree(rt.alloc(), wanted) == Ok(true), "{wanted:?}");
    }
}

// ---- residuals

// An order, a scale, the rows that are added to, and what they become where the coordinate that is
// bound is 5. The weights there are -4 * 0 - 5 * 3 and -4 * 2 + 5 * 2 in prefix order, and
// -4 * 0 + 5 * 2 and 4 * 3 + 5 * 2 in suffix order.
type Bound = (VariableOrder, u64, [u64; 2], [u64; 2]);

static BOUND: [Bound; 4] = [
    (Prefix, 1, [0, 0], [65522, 2]),
    (Suffix, 1, [0, 0], [10, 22]),
    (Prefix, 3, [7, 11], [65499, 17]),
    (Suffix, 3, [7, 11], [37, 77]),
];

fn bound_agree(alloc: Global, wanted: &Bound) -> Result<bool, NoMemory> {
    let (order, scale, old, new) = *wanted;
    let at = point(alloc, &[5])?;
    let scale: F65537 = of(scale);
    let mut rows: [F65537; 2] = [of(old[0]), of(old[1])];
    match order {
        Prefix => {
            let point = point_in_parts(alloc, Prefix, 1)?;
            point.accumulate_next_prefix_into(&mut rows, &at, scale);
        }
        Suffix => {
            let point = point_in_parts(alloc, Suffix, 1)?;
            point.accumulate_next_suffix_into(&mut rows, &at, scale);
        }
    }
    Ok(have_numbers(&rows, &new))
}

#[test]
fn successor_weights_of_a_point_that_is_bound_in_part(rt: HostRuntime) {
    for wanted in &BOUND {
        assert!(rt; bound_agree(rt.alloc(), wanted) == Ok(true), "{wanted:?}");
    }
}

// ---- the three parts of a point's weights

// The coordinates of a point, and the parts of its weights.
type Weights = (&'static [u64], Tables);

static WEIGHTS: [Weights; 2] = [
    (&[], (&[0], &[1], &[1])),
    (
        &[2, 3],
        (&[0, 2, 65534, 65533], &[6, 0, 0, 0], &[0, 0, 0, 6]),
    ),
];

fn weights_agree(alloc: Global, wanted: &Weights) -> Result<bool, NoMemory> {
    let (coordinates, tables) = *wanted;
    if coordinates.len() > 2 {
        return Ok(false);
    }
    let z: Vec<F65537> = elements(alloc, coordinates)?;
    Ok(are_parts(&NextPartials::from_point(alloc, &z)?, &tables))
}

#[test]
fn parts_of_weights(rt: HostRuntime) {
    for wanted in &WEIGHTS {
        assert!(rt; weights_agree(rt.alloc(), wanted) == Ok(true), "{wanted:?}");
    }
}

#[test]
fn parts_that_are_zero(rt: HostRuntime) {
    let one = NextPartials::zero(rt.alloc(), 0).expect(&rt, "an answer");
    assert!(rt; are_parts(&one, &(&[0], &[0], &[0])));
    let four = NextPartials::zero(rt.alloc(), 2).expect(&rt, "an answer");
    assert!(rt; are_parts(&four, &(NOTHING, NOTHING, NOTHING)));
}

// The coordinates of which the first ones are taken.
const COORDINATES: [u64; 4] = [12345, 300, 40321, 7];

// The digits of a row of four variables, the highest first.
fn digits_of(row: usize) -> [u64; 4] {
    [
        (row / 8 % 2) as u64,
        (row / 4 % 2) as u64,
        (row / 2 % 2) as u64,
        (row % 2) as u64,
    ]
}

// Whether the parts of the weights of n coordinates are at each row the answers for the row's
// digits.
fn parts_agree<EF: Field>(alloc: Global, n: usize) -> Result<bool, NoMemory>
    requires { n ≤ 4 }
{
    let z: Vec<EF> = elements(alloc, &COORDINATES[..n])?;
    let parts = NextPartials::from_point(alloc, &z)?;
    let rows = 1_usize << n;
    let mut agree = parts.done().len() == rows
        && parts.carry().len() == rows
        && parts.omega().len() == rows;
    for row in 0..rows {
        let digits: Vec<EF> = elements(alloc, &digits_of(row)[4 - n..])?;
        let (carry, done, omega) = Point::eval_next(&z, &digits);
        agree = agree
            && parts.done().get(row) == Some(&done)
            && parts.carry().get(row) == Some(&carry)
            && parts.omega().get(row) == Some(&omega);
    }
    Ok(agree)
}

#[test]
fn parts_are_the_answers_at_rows(rt: HostRuntime) {
    for n in 1..5 {
        assert!(rt; parts_agree::<F65537>(rt.alloc(), n) == Ok(true), "{n}");
        assert!(rt; parts_agree::<F257x2>(rt.alloc(), n) == Ok(true), "{n}");
    }
}

// ---- a batch of one claim

// An order, and the grids of the table with the successor weights 0, 2, -3 and 2: of each round,
// the values at 0 and at infinity. In prefix order the first has 2 * 2, and 2 * -3 + 2 * 0; the
// second has 0, 3 * -3 and 2 * -3 at 0, and 1 * 2, 1 * 5 and 0 at infinity. In suffix order the
// first has 3 * -3, and 1 * 2 + 1 * 5; the second has 0, 2 * 2 and 1 * 2 at 0, and 2 * -3, 2 * 0
// and 0 at infinity.
type Lists = (VariableOrder, &'static [(&'static [u64], &'static [u64])]);

static GRIDS: [Lists; 2] = [
    (
        Prefix,
        &[(&[4], &[65531]), (&[0, 65528, 65531], &[2, 5, 0])],
    ),
    (Suffix, &[(&[65528], &[7]), (&[0, 4, 2], &[65531, 0, 0])]),
];

fn grids_agree(alloc: Global, wanted: &Lists) -> Result<bool, NoMemory> {
    let (order, lists) = *wanted;
    let claims = [claim(alloc, &[2, 3], true, 1)?];
    let table = four(alloc)?;
    let (batch, values) = SvoBatch::<F65537, F65537>::with_values(
        alloc,
        order,
        table.as_slice(),
        &claims,
        2,
    )?;
    Ok(have_numbers(&values, &[3]) && are_grids(batch.grids(), lists))
}

#[test]
fn grids_of_a_successor(rt: HostRuntime) {
    for wanted in &GRIDS {
        assert!(rt; grids_agree(rt.alloc(), wanted) == Ok(true), "{wanted:?}");
    }
}
