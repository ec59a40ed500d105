//! Successor and selecting statements, and batches of all kinds: figures by hand over the integers modulo 65537.

ghost use Rattle.std.specs.Prelude.{◌≡◌, ◌≤◌, [], All};
ghost use Rattle.sc_statements.specs.NextStatements.{next_arity};
ghost use Rattle.sc_statements.specs.SelectStatements.{select_arity, points_of};
ghost use Rattle.sc_constraints.specs.Groups.{group_arity};
ghost use Rattle.sc_constraints.specs.Constraints.{constraint_arity};
ghost use Rattle.sc_table.specs.Polys.{variables_of};

use super::{elements, four, point, table};
use sc_constraints::{
    Claim, Constraint, NextStatement, SelectStatement, StatementList, Statements, Weights,
};
use sc_field::Field;
use sc_small_fields::F65537;
use sc_table::{Basis, Point, Poly, VariableOrder};
use sc_tests_common::{have_numbers, of};
use std::process::Abort;

// A value that is claimed through the successor map.
pub(super) struct Successor {
    selector: &'static [u64],
    has_selector: bool,
    coords: &'static [u64],
    claimed: u64,
    order: VariableOrder,
    // The true value of the table 1, 2, 3, 4.
    actual: u64,
}

// At (2, 3).
static ONE_VALUE: [Successor; 1] = [Successor {
    selector: &[],
    has_selector: false,
    coords: &[2, 3],
    claimed: 3,
    order: VariableOrder::Prefix,
    actual: 3,
}];

// The same, and at 7 in the slot of a selector at 5.
pub(super) static TWO_VALUES: [Successor; 2] = [
    Successor {
        selector: &[],
        has_selector: false,
        coords: &[2, 3],
        claimed: 3,
        order: VariableOrder::Prefix,
        actual: 3,
    },
    Successor {
        selector: &[5],
        has_selector: true,
        coords: &[7],
        claimed: 5,
        order: VariableOrder::Suffix,
        actual: 8,
    },
];

// At 7 in the slot of a selector at 5 that stands first.
static FIRST_SLOT: [Successor; 1] = [Successor {
    selector: &[5],
    has_selector: true,
    coords: &[7],
    claimed: 12,
    order: VariableOrder::Prefix,
    actual: 12,
}];

// The statement of these values on two variables. One on another number is left out.
pub(super) fn successors<R: Abort + AllocGlobal>(
    rt: &R,
    values: &[Successor],
) -> NextStatement<F65537>
    ensures { next_arity result ≡ 2 }
{
    let mut statement = NextStatement::initialize(rt.alloc(), 2);
    for value in values {
        let (slot, rest) = (point(rt, value.selector), point(rt, value.coords));
        if slot.num_variables() + rest.num_variables() == 2 {
            statement
                .add_evaluated_constraint(slot, rest, of(value.claimed), value.order)
                .expect(rt, "a statement");
        }
    }
    statement
}

fn assert_values<R: Abort + AllocGlobal>(
    rt: &R,
    statement: &NextStatement<F65537>,
    table: &Poly<F65537>,
    values: &[Successor],
)
    requires { variables_of table.now ≡ next_arity statement.now }
{
    assert!(rt; statement.len() == values.len());
    for (i, value) in values.iter().enumerate() {
        let actual: F65537 = statement
            .true_value(rt.alloc(), i, table)
            .expect(rt, "a value");
        let told = (
            statement.has_selector(i),
            have_numbers(statement.point(i).as_slice(), value.coords),
            statement.claimed_value(i).index(),
            actual.index(),
        );
        assert!(rt; told == (value.has_selector, true, value.claimed, value.actual));
    }
}

// Asserts what is told of these values, and whether all are true of the table 1, 2, 3, 4.
fn assert_successors<R: Abort + AllocGlobal>(rt: &R, values: &[Successor], hold: bool) {
    let table = four(rt);
    let statement = successors(rt, values);
    assert_values(rt, &statement, &table, values);
    let told = (
        statement.num_variables(),
        statement.is_empty(),
        statement.verify(rt.alloc(), &table).expect(rt, "an answer"),
    );
    assert!(rt; told == (2, false, hold));
}

#[test]
fn a_value_through_the_successor_map(rt: HostRuntime) {
    assert_successors(&rt, &ONE_VALUE, true);
}

#[test]
fn a_false_value_through_the_successor_map(rt: HostRuntime) {
    assert_successors(&rt, &TWO_VALUES, false);
}

#[test]
fn a_selector_that_stands_first(rt: HostRuntime) {
    assert_successors(&rt, &FIRST_SLOT, true);
    let mut weights = Poly::zero(rt.alloc(), 2).expect(&rt, "a table");
    let mut sum = F65537::ZERO;
    let combined = successors(&rt, &FIRST_SLOT).combine(
        rt.alloc(),
        &mut weights,
        &mut sum,
        of(9),
        0,
    );
    assert!(rt;
        (combined, sum.index()) == (Ok(()), 12)
            && have_numbers(weights.as_slice(), &[0, 65533, 0, 5])
    );
}

#[test]
fn successor_statements_are_batched(rt: HostRuntime) {
    let statement = successors(&rt, &TWO_VALUES);
    let mut weights = table(&rt, 2, &[10, 20, 30, 40]);
    let mut sum = F65537::ZERO;
    statement.combine_evals(&mut sum, of(2), 1);
    let first = sum.index();
    let combined = statement.combine(rt.alloc(), &mut weights, &mut sum, of(2), 1);
    assert!(rt;
        (combined, first, sum.index()) == (Ok(()), 26, 52)
            && have_numbers(weights.as_slice(), &[10, 24, 8, 64])
    );
}

// Asserts that the weights at a row are these.
fn assert_weights<S: StatementList<F65537>, R: Abort + AllocGlobal>(
    rt: &R,
    weights: Weights<'_, S, F65537>,
    numbers: &[u64],
) {
    let weights: Vec<F65537> = weights.collect(rt.alloc()).expect(rt, "weights");
    assert!(rt; have_numbers(&weights, numbers));
}

#[test]
fn successor_weights_at_a_row(rt: HostRuntime) {
    let (statement, row) = (successors(&rt, &TWO_VALUES), point(&rt, &[1, 0]));
    assert_weights(&rt, statement.weights_at(&row), &[65534, 65533]);
}

// Asserts how many statements there are, whether there is none, whether they hold scalars and direct points, and whether all are true of the table
// 1, 2, 3, 4.
fn assert_told<R: Abort + AllocGlobal>(
    rt: &R,
    statement: &SelectStatement<F65537, F65537>,
    wanted: (usize, bool, bool, bool, bool),
)
    requires { select_arity statement.now ≡ 2 }
{
    let told = (
        statement.len(),
        statement.is_empty(),
        statement.holds_scalars(),
        statement.holds_points(),
        statement
            .verify(rt.alloc(), &four(rt))
            .expect(rt, "an answer"),
    );
    assert!(rt; (told, statement.num_variables()) == (wanted, 2));
}

// The values 49 and 1 that the scalars 2 and 0 select.
pub(super) fn two_scalars<R: Abort + AllocGlobal>(rt: &R) -> SelectStatement<F65537, F65537>
    ensures arity { select_arity result ≡ 2 }
    ensures kind { points_of result ≡ [] }
{
    SelectStatement::new(rt.alloc(), 2, elements(rt, &[2, 0]), elements(rt, &[49, 1]))
}

#[test]
fn scalars_select(rt: HostRuntime) {
    let mut statement = two_scalars(&rt);
    assert_told(&rt, &statement, (2, false, true, false, true));
    assert!(rt; statement.add_constraint(of(3), of(141)) == Ok(()));
    assert_told(&rt, &statement, (3, false, true, false, false));
    assert_third(&rt, &statement);
    assert_last(&rt, &statement);
}

// The values 1 and 49 that the scalars 0 and 2 select, with 10 and 100 as their coefficients: 10 times the weights 1, 0, 0, 0 and 100 times the
// weights 1, 2, 4, 8 come to what is there.
#[test]
fn scalars_are_batched(rt: HostRuntime) {
    let statement: SelectStatement<F65537, F65537> = SelectStatement::new(
        rt.alloc(),
        2,
        elements(&rt, &[0, 2]),
        elements(&rt, &[1, 49]),
    );
    let mut weights = table(&rt, 2, &[1, 2, 3, 4]);
    let mut sum = of(5);
    let combined = statement.combine(rt.alloc(), &mut weights, &mut sum, of(10), 1);
    assert!(rt;
        (combined, sum.index()) == (Ok(()), 4915)
            && have_numbers(weights.as_slice(), &[111, 202, 403, 804])
    );
}

// Asserts the claimed value and the true one of the last of three statements.
fn assert_third<R: Abort + AllocGlobal>(rt: &R, statement: &SelectStatement<F65537, F65537>)
    requires { select_arity statement.now ≡ 2 }
{
    assert!(rt; statement.len() == 3);
    let actual = statement
        .true_value(rt.alloc(), 2, &four(rt))
        .expect(rt, "a value");
    assert!(rt; (statement.claimed_value(2).index(), actual.index()) == (141, 142));
}

// Asserts the last of three scalars and its value.
fn assert_last<R: Abort + AllocGlobal>(rt: &R, statement: &SelectStatement<F65537, F65537>) {
    let pairs: Vec<(&F65537, &F65537)> = statement.iter().collect(rt.alloc()).expect(rt, "pairs");
    assert!(rt; pairs.len() == 3 && (pairs[2].0.index(), pairs[2].1.index()) == (3, 141));
}

// The statement of a value that the direct point (0, 3) selects.
pub(super) fn a_direct_point<R: Abort + AllocGlobal>(
    rt: &R,
    claimed: u64,
) -> SelectStatement<F65537, F65537>
    ensures { select_arity result ≡ 2 }
{
    let mut statement = SelectStatement::initialize(rt.alloc(), 2);
    statement
        .add_point_constraint(point(rt, &[0, 3]), of(claimed))
        .expect(rt, "a statement");
    statement
}

#[test]
fn direct_points_select(rt: HostRuntime) {
    let none = SelectStatement::initialize(rt.alloc(), 2);
    assert_told(&rt, &none, (0, true, false, false, true));
    let (right, wrong) = (a_direct_point(&rt, 7), a_direct_point(&rt, 8));
    assert_told(&rt, &right, (1, false, false, true, true));
    assert_told(&rt, &wrong, (1, false, false, true, false));
    assert_direct(&rt, &wrong, (8, 7));
}

// Asserts the claimed value and the true one of the only statement.
fn assert_direct<R: Abort + AllocGlobal>(
    rt: &R,
    statement: &SelectStatement<F65537, F65537>,
    values: (u64, u64),
)
    requires { select_arity statement.now ≡ 2 }
{
    assert!(rt; statement.len() == 1);
    let actual = statement
        .true_value(rt.alloc(), 0, &four(rt))
        .expect(rt, "a value");
    assert!(rt; (statement.claimed_value(0).index(), actual.index()) == values);
}

#[test]
fn direct_points_are_batched(rt: HostRuntime) {
    let statement = a_direct_point(&rt, 7);
    let mut weights = Poly::zero(rt.alloc(), 2).expect(&rt, "a table");
    let mut sum = F65537::ZERO;
    let combined = statement.combine(rt.alloc(), &mut weights, &mut sum, of(5), 0);
    statement.combine_evals(&mut sum, of(5), 1);
    assert!(rt;
        (combined, sum.index()) == (Ok(()), 42) && have_numbers(weights.as_slice(), &[1, 3, 0, 0])
    );
}

#[test]
fn a_direct_points_weight_at_a_row(rt: HostRuntime) {
    let (statement, row) = (a_direct_point(&rt, 7), point(&rt, &[3, 4]));
    assert_weights(&rt, statement.weights_at(&row), &[65519]);
}

// The value 3 through the successor map at (2, 3), and 49 that the scalar 2 selects.
fn both_kinds<R: Abort + AllocGlobal>(rt: &R) -> Vec<Statements<F65537, F65537>>
    ensures { All (λ s. group_arity s ≡ 2) result.items }
{
    let mut select = SelectStatement::initialize(rt.alloc(), 2);
    select
        .add_constraint(of(2), of(49))
        .expect(rt, "a statement");
    let successor = successors(rt, &ONE_VALUE);
    vec![in rt.alloc(); Statements::Next(successor), Statements::Select(select)].expect(
        rt, "groups",
    )
}

// Asserts from which power on a batch is made, its claim and its weights.
fn assert_batch<R: Abort + AllocGlobal>(
    rt: &R,
    constraint: &Constraint<F65537, F65537>,
    told: (usize, u64),
    numbers: &[u64],
)
    requires { constraint_arity constraint.now ≤ 40 }
{
    let (weights, claim) = constraint.combine_new(rt.alloc()).expect(rt, "a batch");
    assert!(rt;
        (constraint.initial_power(), claim.index()) == told
            && have_numbers(weights.as_slice(), numbers)
    );
}

#[test]
fn groups_of_several_kinds_are_batched(rt: HostRuntime) {
    let constraint = Constraint::new(of(10), 2, both_kinds(&rt));
    assert_batch(&rt, &constraint, (0, 493), &[10, 22, 37, 82]);
    let point = point(&rt, &[3, 4]);
    let at = constraint.eval_at(Basis::Evaluation, &point).index();
    let of_coefficients = constraint.eval_at(Basis::Projective, &point).index();
    assert!(rt;
        (at, of_coefficients) == (535, 1193) && constraint.first_false(four(&rt).as_slice()) == None
    );
}

#[test]
fn a_claim_that_is_there_has_the_coefficient_one(rt: HostRuntime) {
    let constraint = Constraint::new_with_existing_claim(of(10), 2, both_kinds(&rt));
    assert_batch(&rt, &constraint, (1, 4930), &[100, 220, 370, 820]);
}

#[test]
fn a_claim_carries_its_payload(rt: HostRuntime) {
    let claim = Claim::new(7, of::<F65537>(3), 'x');
    let told = (*claim.point(), claim.eval().index(), *claim.payload());
    assert!(rt; told == (7, 3, 'x'));
}
