//! Figures by hand over the integers modulo 65537, of the table 1, 2, 3, 4.

ghost use Rattle.std.specs.Prelude.{◌≡◌, ◌≤◌, length, IfOk};
ghost use Rattle.sc_table.specs.Strategy.{order_of};
ghost use Rattle.sc_svo.specs.Batches.{batch_in};
ghost use Rattle.sc_svo.specs.Points.{point_in, near_in, order_in};

mod claims;
mod grids;
mod rounds;
mod successors;

use super::four;
use VariableOrder::{Prefix, Suffix};
use sc_field::{Field, NoMemory};
use sc_small_fields::F65537;
use sc_svo::{EqPartials, EqSvoPartials, Grids, SvoBatch, SvoClaim, SvoPoint};
use sc_table::VariableOrder;
use sc_tests_common::{are_pairs, have_numbers, of, point};
use std::alloc::Global;

// ---- a batch

// The claim on the value at the point of these numbers, or on the one through the successor map,
// times a coefficient.
fn claim<EF: Field>(
    alloc: Global,
    coords: &[u64],
    successor: bool,
    coefficient: u64,
) -> Result<SvoClaim<EF>, NoMemory>
    ensures { IfOk result (λ c. length c.point ≡ length coords.now) }
{
    Ok(SvoClaim {
        point: point(alloc, coords)?,
        successor,
        coefficient: of(coefficient),
    })
}

// The batch of the claim at (0, 1), times 1, with two rounds in prefix order.
fn batch_of_four(alloc: Global) -> Result<SvoBatch<F65537, F65537>, NoMemory>
    ensures variables { IfOk result (λ s. (batch_in s).variables ≡ 2) }
    ensures rounds { IfOk result (λ s. length (batch_in s).grids ≡ 2) }
{
    let claims = [claim(alloc, &[0, 1], false, 1)?];
    SvoBatch::new(alloc, Prefix, &four(alloc)?, &claims, 2)
}

// Of each round, the values at 0 and at infinity.
static GRIDS: [(&[u64], &[u64]); 2] = [(&[2], &[65535]), (&[0, 0, 0], &[1, 0, 0])];

fn are_grids(grids: &Grids<F65537>, wanted: &[(&[u64], &[u64])]) -> bool {
    let rounds = grids.rounds.as_slice();
    rounds.len() == wanted.len()
        && rounds.iter().zip(wanted).all(|(grid, (zero, infinity))| {
            have_numbers(grid.zero.as_slice(), zero)
                && have_numbers(grid.infinity.as_slice(), infinity)
        })
}

#[test]
fn grids_of_two_rounds(rt: HostRuntime) {
    let batch = batch_of_four(rt.alloc()).expect(&rt, "an answer");
    assert!(rt;
        are_grids(batch.grids(), &GRIDS)
            && are_grids(&batch.into_grids(), &GRIDS)
            && are_grids(&Grids::empty(rt.alloc()), &[])
    );
}

#[test]
fn messages_read_off_grids(rt: HostRuntime) {
    let batch = batch_of_four(rt.alloc()).expect(&rt, "an answer");
    let first = batch
        .round_coefficients(rt.alloc(), &[])
        .expect(&rt, "an answer");
    let second = batch
        .round_coefficients(rt.alloc(), &[of(3)])
        .expect(&rt, "an answer");
    assert!(rt; are_pairs(&[first, second], &[(2, 65535), (0, 65535)]));
}

#[test]
fn tables_that_the_rounds_leave(rt: HostRuntime) {
    let batch = batch_of_four(rt.alloc()).expect(&rt, "an answer");
    let table = four(rt.alloc()).expect(&rt, "an answer");
    let (evals, weights) = batch
        .residual(rt.alloc(), &table, &[of(3), of(4)])
        .expect(&rt, "an answer");
    assert!(rt;
        have_numbers(evals.as_slice(), &[11]) && have_numbers(weights.as_slice(), &[65529])
    );
}

#[test]
fn a_claim_copied(rt: HostRuntime) {
    for successor in [false, true] {
        let first: SvoClaim<F65537> = claim(rt.alloc(), &[2, 3], successor, 5).expect(
            &rt,
            "an answer",
        );
        let second = first.copy(rt.alloc()).expect(&rt, "an answer");
        assert!(rt;
            have_numbers(second.point.as_slice(), &[2, 3])
                && (second.successor, second.coefficient.index()) == (successor, 5)
        );
    }
}

// ---- a point

// The point (2, 3), of which so many coordinates are those of small-value rounds.
fn point_in_parts(
    alloc: Global,
    order: VariableOrder,
    l0: usize,
) -> Result<SvoPoint<F65537, F65537>, NoMemory>
    requires { l0 ≤ 2 }
    ensures order { IfOk result (λ p. order_in p ≡ order_of order) }
    ensures point { IfOk result (λ p. length (point_in p) ≡ 2) }
    ensures near { IfOk result (λ p. length (near_in p) ≡ l0) }
{
    SvoPoint::new_unpacked(alloc, l0, &point(alloc, &[2, 3])?, order)
}

// An order, the coordinates of small-value rounds, and the partial tables, the last of which is the
// table itself where no variable is left to others.
type Parts = (VariableOrder, &'static [u64], &'static [&'static [u64]]);

static PARTS: [Parts; 6] = [
    (Prefix, &[], &[]),
    (Prefix, &[2], &[&[4, 6]]),
    (Prefix, &[2, 3], &[&[4, 6], &[1, 2, 3, 4]]),
    (Suffix, &[], &[]),
    (Suffix, &[3], &[&[5, 6]]),
    (Suffix, &[2, 3], &[&[5, 6], &[1, 2, 3, 4]]),
];

fn are_partials(partials: &EqSvoPartials<F65537>, wanted: &[&[u64]]) -> bool {
    let tables = partials.rounds();
    tables.len() == wanted.len()
        && tables
            .iter()
            .zip(wanted)
            .all(|(one, numbers)| have_numbers(one.table(), numbers))
}

// Whether the table has the value 8 at the point in these parts, and these partial tables.
fn parts_agree(alloc: Global, wanted: &Parts) -> Result<bool, NoMemory> {
    let (order, near, partials) = *wanted;
    if near.len() > 2 {
        return Ok(false);
    }
    let table = four(alloc)?;
    let point = point_in_parts(alloc, order, near.len())?;
    let (value, found) = point.eval(alloc, &table)?;
    let (again, others) = point.eval_slice(alloc, table.as_slice())?;
    Ok(
        (value.index(), again.index()) == (8, 8)
            && are_partials(&found, partials)
            && are_partials(&others, partials)
            && have_numbers(point.z_svo().as_slice(), near)
            && point.z_split().num_variables() == 2 - near.len()
            && (point.num_variables(), point.num_variables_svo()) == (2, near.len())
            && point.var_order() == order,
    )
}

#[test]
fn a_table_at_a_point_in_parts(rt: HostRuntime) {
    for wanted in &PARTS {
        assert!(rt; parts_agree(rt.alloc(), wanted) == Ok(true), "{wanted:?}");
    }
}

// The equality weight of the bound coordinate at 5 is 14 or 23, and the others are -2 and 3, or -1
// and 2.
#[test]
fn weights_of_a_point_that_is_bound_in_part(rt: HostRuntime) {
    for (order, wanted) in [(Prefix, [65509, 42]), (Suffix, [65514, 46])] {
        let bound = point(rt.alloc(), &[5]).expect(&rt, "an answer");
        let mut rows = [F65537::ZERO, F65537::ZERO];
        let point = point_in_parts(rt.alloc(), order, 1).expect(&rt, "an answer");
        point.accumulate_into(&mut rows, &bound, F65537::ONE);
        assert!(rt; have_numbers(&rows, &wanted));
    }
}

#[test]
fn a_partial_table_of_zeros(rt: HostRuntime) {
    let zeros = EqPartials::<F65537>::zero(rt.alloc(), 2).expect(&rt, "an answer");
    assert!(rt; have_numbers(zeros.table(), &[0; 4]));
}
