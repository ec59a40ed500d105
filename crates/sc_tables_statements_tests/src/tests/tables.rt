//! Figures by hand over the integers modulo 65537.

ghost use Rattle.std.specs.Prelude.{◌≡◌, suc, ◌^◌, length, IfOk};

mod kernels;
mod projective;
mod split_eq;

use sc_field::{Algebra, Field, NoMemory};
use sc_small_fields::{F257, F257x2, F65537};
use sc_table::{
    Basis, Point, Poly, RoundMessage, VariableOrder, extrapolate_01inf, fix_prefix_var_slice,
    fix_suffix_var_slice, lagrange_weights_01inf, strategy_laws, sumcheck_coefficients_prefix,
    sumcheck_coefficients_prefix_projective, sumcheck_coefficients_suffix,
};
use sc_tests_common::{have_numbers, of};
use std::alloc::Global;

// The elements of these numbers.
fn elements(alloc: Global, numbers: &[u64]) -> Result<Vec<F65537>, NoMemory>
    ensures { IfOk result (λ v. length v.items ≡ length numbers.now) }
{
    sc_tests_common::elements(alloc, numbers)
}

fn message(c_a: u64, c_inf: u64) -> RoundMessage<F65537> {
    RoundMessage {
        c_a: of(c_a),
        c_inf: of(c_inf),
    }
}

// The table 1, 2, 3, 4.
fn four(alloc: Global) -> Result<Poly<F65537>, NoMemory> {
    Ok(Poly::new(elements(alloc, &[1, 2, 3, 4])?))
}

#[test]
fn a_table_gives_its_values_away(rt: HostRuntime) {
    let evals = four(rt.alloc()).expect(&rt, "an answer").into_evals();
    assert!(rt; have_numbers(&evals, &[1, 2, 3, 4]));
}

#[test]
fn a_point_copied_and_reversed(rt: HostRuntime) {
    let z = Point::new(elements(rt.alloc(), &[2, 3]).expect(&rt, "an answer"));
    assert!(rt;
        have_numbers(
            z.copy(rt.alloc()).expect(&rt, "an answer").as_slice(),
            &[2, 3]
        ) && have_numbers(
            z.reversed(rt.alloc()).expect(&rt, "an answer").as_slice(),
            &[3, 2]
        ) && have_numbers(z.as_slice(), &[2, 3])
    );
}

// The point (2, 3) split there.
fn splits(alloc: Global, k: usize, front: &[u64], back: &[u64]) -> Result<bool, NoMemory> {
    let z = Point::new(elements(alloc, &[2, 3])?);
    let parts = z.split_at(alloc, k.min(z.num_variables()))?;
    Ok(have_numbers(parts.0.as_slice(), front) && have_numbers(parts.1.as_slice(), back))
}

#[test]
fn a_point_split(rt: HostRuntime) {
    for (k, front, back) in [
        (0, [].as_slice(), [2, 3].as_slice()),
        (1, &[2], &[3]),
        (2, &[2, 3], &[]),
    ] {
        assert!(rt; splits(rt.alloc(), k, front, back) == Ok(true), "{k}");
    }
}

#[test]
fn equality_weights_of_two_points(rt: HostRuntime) {
    let z = Point::new(elements(rt.alloc(), &[0, 1]).expect(&rt, "an answer"));
    let x = elements(rt.alloc(), &[3, 4]).expect(&rt, "an answer");
    assert!(rt; z.num_variables() == 2);
    let weight = Point::eval_eq(z.as_slice(), &x);
    assert!(rt; weight.index() == 65529);
    let empty: [F65537; 0] = [];
    assert!(rt; Point::eval_eq(&empty, &empty).index() == 1);
}

#[test]
fn equality_weights_of_a_point(rt: HostRuntime) {
    let one = F65537::ONE;
    let seven = F65537::element(7);
    let (two, three) = (F65537::element(2), F65537::element(3));
    let weights = Poly::new_from_point(rt.alloc(), &[two, three], one).expect(&rt, "an answer");
    assert!(rt; have_numbers(weights.as_slice(), &[2, 65534, 65533, 6]));
    let scaled = Poly::new_from_point(rt.alloc(), &[], seven).expect(&rt, "an answer");
    assert!(rt; have_numbers(scaled.as_slice(), &[7]));
    let row = Poly::new_from_point(rt.alloc(), &[F65537::ZERO, one], one).expect(&rt, "an answer");
    assert!(rt; have_numbers(row.as_slice(), &[0, 1, 0, 0]) && row.num_variables() == 2);
}

#[test]
fn a_table_at_a_point(rt: HostRuntime) {
    let table = four(rt.alloc()).expect(&rt, "an answer");
    assert!(rt; table.num_evals() == 4 && table.num_variables() == 2);
    let z = Point::new(elements(rt.alloc(), &[3, 4]).expect(&rt, "an answer"));
    let at: F65537 = table.eval(&z);
    assert!(rt; at.index() == 11);
}

#[test]
fn a_bound_table(rt: HostRuntime) {
    let mut table = four(rt.alloc()).expect(&rt, "an answer");
    assert!(rt; table.num_variables() == 2);
    table.fix_prefix_var_mut(F65537::element(3));
    assert!(rt; have_numbers(table.as_slice(), &[7, 8]));
    table.fix_prefix_var_mut(F65537::element(4));
    assert!(rt; have_numbers(table.as_slice(), &[11]));
    let nowhere = Point::new(Vec::new(rt.alloc()));
    let left: F65537 = table.eval(&nowhere);
    assert!(rt; left.index() == 11);
}

// 1 + (2 - 1) * 3 and 3 + (4 - 3) * 3, and then 4 + (6 - 4) * 4.
#[test]
fn a_table_bound_from_its_last_variable(rt: HostRuntime) {
    let mut table = four(rt.alloc()).expect(&rt, "an answer");
    assert!(rt; table.num_variables() == 2);
    table.fix_suffix_var_mut(F65537::element(3));
    assert!(rt; have_numbers(table.as_slice(), &[4, 6]));
    table.fix_suffix_var_mut(F65537::element(4));
    assert!(rt; have_numbers(table.as_slice(), &[12]) && table.num_variables() == 0);
}

#[test]
fn a_table_bound_in_each_order(rt: HostRuntime) {
    let mut table = four(rt.alloc()).expect(&rt, "an answer");
    assert!(rt; table.num_variables() == 2);
    VariableOrder::Prefix.fix_var(&mut table, F65537::element(3));
    assert!(rt; have_numbers(table.as_slice(), &[7, 8]));
    VariableOrder::Suffix.fix_var(&mut table, F65537::element(4));
    assert!(rt; have_numbers(table.as_slice(), &[11]));
    let mut table = four(rt.alloc()).expect(&rt, "an answer");
    assert!(rt; table.num_variables() == 2);
    VariableOrder::Suffix.fix_var(&mut table, F65537::element(3));
    assert!(rt; have_numbers(table.as_slice(), &[4, 6]));
    VariableOrder::Prefix.fix_var(&mut table, F65537::element(4));
    assert!(rt; have_numbers(table.as_slice(), &[12]));
}

// The elements 1, 2, 3, 4.
fn four_of<B: Field>(alloc: Global) -> Result<Vec<B>, NoMemory>
    ensures { IfOk result (λ v. length v.items ≡ 2 ^ suc 1) }
{
    sc_tests_common::elements(alloc, &[1, 2, 3, 4])
}

// Whether binding the variable that comes next in an order at `r` leaves these numbers of the table
// 1, 2, 3, 4 of base elements, which stays.
fn slice_binds<B: Field, A: Algebra<B>>(
    alloc: Global,
    order: VariableOrder,
    r: u64,
    left: &[u64],
) -> Result<bool, NoMemory> {
    let evals: Vec<B> = four_of(alloc)?;
    let mut bound: Poly<A> = order.fix_var_slice(alloc, &evals, of(r))?;
    let whole = have_numbers(bound.as_slice(), left) && have_numbers(&evals, &[1, 2, 3, 4]);
    bound.shrink_to_fit();
    Ok(whole && have_numbers(bound.as_slice(), left) && bound.num_variables() == 1)
}

// The same of each of the two calls that it chooses from.
fn slices_bind<B: Field, A: Algebra<B>>(
    alloc: Global,
    r: u64,
    by_halves: &[u64],
    by_neighbours: &[u64],
) -> Result<bool, NoMemory> {
    let evals: Vec<B> = four_of(alloc)?;
    let prefix: Poly<A> = fix_prefix_var_slice(alloc, &evals, of(r))?;
    let suffix: Poly<A> = fix_suffix_var_slice(alloc, &evals, of(r))?;
    Ok(
        have_numbers(prefix.as_slice(), by_halves)
            && have_numbers(suffix.as_slice(), by_neighbours)
            && slice_binds::<B, A>(alloc, VariableOrder::Prefix, r, by_halves)?
            && slice_binds::<B, A>(alloc, VariableOrder::Suffix, r, by_neighbours)?,
    )
}

// At 3 the lines are 1 + 2 * 3 and 2 + 2 * 3 over the halves, and 1 + 3 and 3 + 3 over neighbours.
// At 3 + u, which has the number 260, they are 7 + 2 u and 8 + 2 u, and 4 + u and 6 + u.
#[test]
fn a_slice_bound_in_each_order(rt: HostRuntime) {
    let own = slices_bind::<F65537, F65537>(rt.alloc(), 3, &[7, 8], &[4, 6]);
    assert!(rt; own == Ok(true));
    let extended = slices_bind::<F257, F257x2>(rt.alloc(), 260, &[521, 522], &[261, 263]);
    assert!(rt; extended == Ok(true));
}

#[test]
fn tables_of_zeros_and_copies(rt: HostRuntime) {
    let zeros = Poly::<F65537>::zero(rt.alloc(), 2).expect(&rt, "an answer");
    assert!(rt; have_numbers(zeros.as_slice(), &[0, 0, 0, 0]));
    let copied = four(rt.alloc())
        .expect(&rt, "an answer")
        .copy(rt.alloc())
        .expect(&rt, "an answer");
    assert!(rt; have_numbers(copied.as_slice(), &[1, 2, 3, 4]) && copied.num_variables() == 2);
}

// Row 2 has the digits 1 and 0.
#[test]
fn a_written_value_is_the_tables(rt: HostRuntime) {
    let mut table = four(rt.alloc()).expect(&rt, "an answer");
    assert!(rt; table.num_variables() == 2);
    table.as_mut_slice()[2] = F65537::element(50);
    assert!(rt; have_numbers(table.as_slice(), &[1, 2, 50, 4]));
    let row = Point::new(elements(rt.alloc(), &[1, 0]).expect(&rt, "an answer"));
    let at: F65537 = table.eval(&row);
    assert!(rt; at.index() == 50);
}

#[test]
fn a_quadratic_by_its_values(rt: HostRuntime) {
    let (one, two) = (F65537::ONE, F65537::TWO);
    assert!(rt;
        extrapolate_01inf(one, two, one, F65537::element(3)).index() == 10
            && extrapolate_01inf(one, two, one, F65537::element(4)).index() == 17
    );
}

#[test]
fn weights_of_a_quadratics_values(rt: HostRuntime) {
    let (of_zero, of_one, of_leading) = lagrange_weights_01inf(F65537::element(5));
    assert!(rt; have_numbers(&[of_zero, of_one, of_leading], &[65533, 5, 20]));
    let (of_zero, of_one, of_leading) = lagrange_weights_01inf(F65537::element(7));
    assert!(rt; have_numbers(&[of_zero, of_one, of_leading], &[65531, 7, 42]));
}

#[test]
fn messages_of_two_tables(rt: HostRuntime) {
    let evals = elements(rt.alloc(), &[1, 2, 3, 4]).expect(&rt, "an answer");
    let weights = elements(rt.alloc(), &[5, 6, 7, 8]).expect(&rt, "an answer");
    let (f, w) = (evals.as_slice(), weights.as_slice());
    let sent = [
        sumcheck_coefficients_prefix(f, w),
        sumcheck_coefficients_suffix(f, w),
        sumcheck_coefficients_prefix_projective(f, w),
    ];
    assert!(rt; sent == [message(17, 8), message(26, 2), message(132, 53)]);
}

#[test]
fn messages_by_basis_and_order(rt: HostRuntime) {
    let evals = elements(rt.alloc(), &[1, 2, 3, 4]).expect(&rt, "an answer");
    let weights = elements(rt.alloc(), &[5, 6, 7, 8]).expect(&rt, "an answer");
    let (f, w) = (evals.as_slice(), weights.as_slice());
    let (prefix, suffix) = (VariableOrder::Prefix, VariableOrder::Suffix);
    let by_order = [
        prefix.sumcheck_coefficients(f, w),
        suffix.sumcheck_coefficients(f, w),
    ];
    assert!(rt; by_order == [message(17, 8), message(26, 2)]);
    let by_basis = [
        Basis::Evaluation.sumcheck_coefficients(prefix, f, w),
        Basis::Evaluation.sumcheck_coefficients(suffix, f, w),
        Basis::Projective.sumcheck_coefficients(prefix, f, w),
    ];
    assert!(rt; by_basis == [message(17, 8), message(26, 2), message(132, 53)]);
}

// Of one variable both orders send the same: 1 * 3 and (2 - 1)(4 - 3), or 3 * 7 and 2 * 4.
#[test]
fn messages_of_small_tables(rt: HostRuntime) {
    let evals = elements(rt.alloc(), &[1, 2]).expect(&rt, "an answer");
    let weights = elements(rt.alloc(), &[3, 4]).expect(&rt, "an answer");
    let (f, w) = (evals.as_slice(), weights.as_slice());
    let of_one_variable = [
        sumcheck_coefficients_prefix(f, w),
        sumcheck_coefficients_suffix(f, w),
        sumcheck_coefficients_prefix_projective(f, w),
    ];
    assert!(rt; of_one_variable == [message(3, 1), message(3, 1), message(21, 8)]);
    let empty: [F65537; 0] = [];
    let of_no_rows = [
        sumcheck_coefficients_prefix(&empty, &empty),
        sumcheck_coefficients_suffix(&empty, &empty),
        sumcheck_coefficients_prefix_projective(&empty, &empty),
    ];
    assert!(rt; of_no_rows == [message(0, 0); 3]);
}

// The projective rounds: 2 + 4 X at 3, and then 10 X + 14 X^2 at 4.
#[test]
fn claims_after_rounds(rt: HostRuntime) {
    let of = |number: u64| -> F65537 { F65537::element(number % 65537) };
    let (values, coefficients) = (Basis::Evaluation, Basis::Projective);
    let claims = [
        values.reduce_claim(of(5), of(1), of(2), of(5)),
        values.reduce_claim(of(1), of(2), of(5), of(7)),
        coefficients.reduce_claim(of(6), of(0), of(3), of(2)),
        coefficients.reduce_claim(of(24), of(14), of(4), of(14)),
    ];
    assert!(rt; have_numbers(&claims, &[65534, 66, 14, 264]));
}

#[test]
fn bases_orders_and_messages_compared(rt: HostRuntime) {
    strategy_laws::<F65537>();
    assert!(rt;
        Basis::default() == Basis::Evaluation
            && Basis::Evaluation != Basis::Projective
            && VariableOrder::Suffix == VariableOrder::Suffix
            && VariableOrder::Prefix != VariableOrder::Suffix
    );
    assert!(rt;
        message(1, 2) == message(1, 2)
            && message(1, 2) != message(3, 2)
            && message(1, 2) != message(1, 3)
    );
}

// That the successor weights of the point of these numbers are the wanted ones.
fn successor_weights_are(alloc: Global, coords: &[u64], weights: &[u64]) -> Result<bool, NoMemory> {
    let z = elements(alloc, coords)?;
    if z.len() > 40 {
        return Ok(false);
    }
    let table = Poly::new_next_from_point(alloc, &z)?;
    Ok(table.num_variables() == coords.len() && have_numbers(table.as_slice(), weights))
}

// The figures from here on were worked out apart from the crate: the equality weights of all rows
// straight from their definition, each moved to the row after it, and the last one left where it
// is; sums over all rows of them; and each power times its equality weight.
static SUCCESSOR_WEIGHTS: [(&[u64], &[u64]); 6] = [
    (&[], &[1]),
    (&[5], &[0, 1]),
    (&[2, 3], &[0, 2, 65534, 2]),
    (&[1, 1], &[0, 0, 0, 1]),
    (&[2, 3, 4], &[0, 65531, 8, 9, 65525, 12, 65521, 6]),
    (&[1, 0, 1], &[0, 0, 0, 0, 0, 0, 1, 0]),
];

static SUCCESSOR_SUMS: [(&[u64], &[u64], [u64; 3]); 7] = [
    (&[], &[], [1, 0, 1]),
    (&[2], &[3], [65533, 65534, 6]),
    (&[2, 3], &[0, 0], [6, 0, 0]),
    (&[2, 3], &[0, 1], [0, 2, 0]),
    (&[2, 3], &[1, 1], [0, 65533, 6]),
    (&[2, 3], &[4, 5], [72, 65475, 120]),
    (&[2, 3, 4], &[5, 6, 7], [62657, 59537, 5040]),
];

// The power 0 of zero is one, so its table has one in row 0 alone.
static POWERS: [(u64, &[u64], u64); 7] = [
    (3, &[], 1),
    (0, &[], 1),
    (0, &[3, 4], 6),
    (7, &[5], 31),
    (2, &[3, 4], 50),
    (3, &[2, 5, 7], 33478),
    (65536, &[2, 3, 4], 65530),
];

#[test]
fn successor_weights_of_a_point(rt: HostRuntime) {
    for (coords, weights) in &SUCCESSOR_WEIGHTS {
        assert!(rt;
            successor_weights_are(rt.alloc(), coords, weights) == Ok(true),
            "{coords:?}"
        );
    }
}

// That the three sums of the successor's value are the wanted ones.
fn successor_sums_are(
    alloc: Global,
    z: &[u64],
    x: &[u64],
    sums: [u64; 3],
) -> Result<bool, NoMemory> {
    let (z, x) = (elements(alloc, z)?, elements(alloc, x)?);
    if z.len() != x.len() {
        return Ok(false);
    }
    let (carry, done, omega) = Point::eval_next(&z, &x);
    Ok(have_numbers(&[carry, done, omega], &sums))
}

#[test]
fn successor_sums_of_two_points(rt: HostRuntime) {
    for (z, x, sums) in &SUCCESSOR_SUMS {
        assert!(rt;
            successor_sums_are(rt.alloc(), z, x, *sums) == Ok(true),
            "{z:?} {x:?}"
        );
    }
}

// The value at the point of these numbers of the table of a scalar's powers.
fn powers_at(alloc: Global, var: u64, x: &[u64]) -> Result<u64, NoMemory> {
    let value: F65537 = Point::eval_select(F65537::element(var % 65537), &elements(alloc, x)?);
    Ok(value.index())
}

#[test]
fn powers_at_a_point(rt: HostRuntime) {
    for (var, x, value) in &POWERS {
        assert!(rt; powers_at(rt.alloc(), *var, x) == Ok(*value), "{var} {x:?}");
    }
}
