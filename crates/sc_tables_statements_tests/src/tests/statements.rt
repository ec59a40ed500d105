//! Equality statements, and their batches: figures by hand over the integers modulo 65537.

ghost use Rattle.std.specs.Prelude.{◌≡◌, ◌^◌, ◌↔◌, length, map, IsTrue};
ghost use Rattle.sc_definitions.specs.Statements.{AllTrueOf, batched_by_powers};
ghost use Rattle.sc_definitions.specs.Tables.{evaluation};
ghost use Rattle.sc_table.specs.Polys.{variables_of, table_of};
ghost use Rattle.sc_statements.specs.EqStatements.{eq_arity, eq_statements};
ghost use Rattle.sc_statements.specs.Weights.{weight_values};

mod batches;
mod claimed;
mod kinds;

use sc_constraints::EqStatement;
use sc_constraints::laws::row_laws;
use sc_field::{Field, NoMemory};
use sc_small_fields::F65537;
use sc_table::{Point, Poly};
use sc_tests_common::{have_numbers, of};
use std::alloc::Global;
use std::process::Abort;

// The elements of these numbers.
fn elements<R: Abort + AllocGlobal>(rt: &R, numbers: &[u64]) -> Vec<F65537>
    ensures { length result.items ≡ length numbers.now }
{
    sc_tests_common::elements(rt.alloc(), numbers).expect(rt, "elements")
}

// The point of these numbers.
fn point<R: Abort + AllocGlobal>(rt: &R, numbers: &[u64]) -> Point<F65537>
    ensures { length result ≡ length numbers.now }
{
    Point::new(elements(rt, numbers))
}

// The table of these values, as many as 2^n.
pub(crate) fn table<R: Abort + AllocGlobal>(rt: &R, n: usize, values: &[u64]) -> Poly<F65537>
    requires { length values.now ≡ 2 ^ n }
    ensures { variables_of result ≡ n }
{
    Poly::new(elements(rt, values))
}

// The table 1, 2, 3, 4.
fn four<R: Abort + AllocGlobal>(rt: &R) -> Poly<F65537>
    ensures { variables_of result ≡ 2 }
{
    table(rt, 2, &[1, 2, 3, 4])
}

// The statements of these values at points.
pub(crate) fn claims<const N: usize, R: Abort + AllocGlobal>(
    rt: &R,
    claims: &[([u64; N], u64)],
) -> EqStatement<F65537>
    ensures { eq_arity result ≡ N }
{
    let mut statement = EqStatement::initialize(rt.alloc(), N);
    for (coords, value) in claims {
        statement
            .add_evaluated_constraint(point(rt, coords), of(*value))
            .expect(rt, "a statement");
    }
    statement
}

// That each statement is true, by the points and values that the iterator gives.
fn all_true<EF: Field>(statement: &EqStatement<EF>, table: &Poly<EF>) -> bool
    requires { variables_of table.now ≡ eq_arity statement.now }
    ensures { IsTrue result ↔ AllTrueOf EF.ops (eq_arity statement.now) (table_of EF.number table.now) (eq_statements EF.number statement.now) }
{
    for (point, eval) in statement.iter() {
        let actual: EF = table.eval(point);
        if actual != *eval {
            return false;
        }
    }
    true
}

// The weights at a point, batched by the powers of a challenge.
fn batched_at<EF: Field>(statement: &EqStatement<EF>, row: &Point<EF>, challenge: EF) -> EF
    requires { length row.now ≡ eq_arity statement.now }
    ensures { EF.number result
        ≡ batched_by_powers EF.ops (EF.number challenge) 0 (weight_values evaluation EF.ops (map EF.number row.now) (eq_statements EF.number statement.now)) }
{
    let mut sum = EF::ZERO;
    let mut coefficient = EF::ONE;
    for weight in statement.weights_at(row) {
        sum = sum.add(coefficient.mul(weight));
        coefficient = coefficient.mul(challenge);
    }
    sum
}

// Asserts how many statements there are, on how many variables, whether there is none, and by either way whether all are true.
fn assert_told<A: Abort>(
    rt: &A,
    statement: &EqStatement<F65537>,
    table: &Poly<F65537>,
    told: (usize, usize, bool),
    hold: bool,
)
    requires { variables_of table.now ≡ eq_arity statement.now }
{
    assert!(rt;
        (
            statement.len(),
            statement.num_variables(),
            statement.is_empty()
        ) == told
            && (statement.verify(table), all_true(statement, table)) == (hold, hold)
    );
}

// Asserts that the claimed values and the true ones are these.
fn assert_values<A: Abort>(
    rt: &A,
    statement: &EqStatement<F65537>,
    table: &Poly<F65537>,
    values: &[(u64, u64)],
)
    requires { variables_of table.now ≡ eq_arity statement.now }
{
    assert!(rt; statement.len() == values.len());
    for (i, value) in values.iter().enumerate() {
        let actual: F65537 = statement.true_value(i, table);
        assert!(rt; (statement.claimed_value(i).index(), actual.index()) == *value);
    }
}

// Asserts that the weights at each of these rows are these, and that their batch under the challenge 2 is this.
fn assert_weights<R: Abort + AllocGlobal>(
    rt: &R,
    statement: &EqStatement<F65537>,
    rows: &[([u64; 2], &[u64], u64)],
)
    requires { eq_arity statement.now ≡ 2 }
{
    for (coords, weights, batch) in rows {
        let row = point(rt, coords);
        let at: Vec<F65537> = statement
            .weights_at(&row)
            .collect(rt.alloc())
            .expect(rt, "weights");
        assert!(rt;
            have_numbers(&at, *weights) && batched_at(statement, &row, of(2)).index() == *batch
        );
    }
}

// Claims of the table 1, 2, 3, 4, of which the second is true or not.
static RIGHT: [([u64; 2], u64); 2] = [([0, 1], 2), ([2, 3], 8)];

static WRONG: [([u64; 2], u64); 2] = [([0, 1], 2), ([2, 3], 9)];

// One claim, and two that are put after it.
static FIRST: [([u64; 2], u64); 1] = [([0, 1], 2)];

static FURTHER: [([u64; 2], u64); 2] = [([2, 3], 8), ([1, 1], 4)];

#[test]
fn true_statements_are_told(rt: HostRuntime) {
    assert_told(&rt, &claims(&rt, &RIGHT), &four(&rt), (2, 2, false), true);
}

#[test]
fn false_statements_are_told(rt: HostRuntime) {
    let (wrong, table) = (claims(&rt, &WRONG), four(&rt));
    assert_told(&rt, &wrong, &table, (2, 2, false), false);
    assert_values(&rt, &wrong, &table, &[(2, 2), (9, 8)]);
}

// Rows, and the weights of the two claims there.
static WEIGHTS: [([u64; 2], &[u64], u64); 2] = [
    ([0, 1], &[1, 65534], 65532),
    ([3, 4], &[65529, 144], 280),
];

#[test]
fn weights_at_rows_and_elsewhere(rt: HostRuntime) {
    row_laws::<F65537>();
    assert_weights(&rt, &claims(&rt, &RIGHT), &WEIGHTS);
}

// A row, and the weights of the three claims there.
static THREE_WEIGHTS: [([u64; 2], &[u64], u64); 1] = [([0, 1], &[1, 65534, 0], 65532)];

#[test]
fn statements_are_put_behind_others(rt: HostRuntime) {
    let mut statement = claims(&rt, &FIRST);
    assert!(rt; statement.concatenate(&claims(&rt, &FURTHER)) == Ok(()));
    let table = four(&rt);
    assert_told(&rt, &statement, &table, (3, 2, false), true);
    assert_values(&rt, &statement, &table, &[(2, 2), (8, 8), (4, 4)]);
    assert_weights(&rt, &statement, &THREE_WEIGHTS);
}

static SUMMED: [([u64; 2], u64); 2] = [([0, 1], 3), ([2, 3], 5)];

#[test]
fn claims_are_summed_from_the_shift_on(rt: HostRuntime) {
    let mut sum = F65537::ZERO;
    claims(&rt, &SUMMED).combine_evals(&mut sum, of(2), 1);
    assert!(rt; sum.index() == 26);
}

// Statements that are taken into weights and a sum, and what these are then.
struct Step {
    // Whether the weights are added to those that are there.
    adds: bool,
    challenge: u64,
    shift: usize,
    sum: u64,
    weights: &'static [u64],
}

fn take(
    alloc: Global,
    statement: &EqStatement<F65537>,
    weights: &mut Poly<F65537>,
    sum: &mut F65537,
    step: &Step,
) -> Result<(), NoMemory>
    requires { variables_of weights.old ≡ eq_arity statement.now }
    ensures { variables_of weights.new ≡ variables_of weights.old }
{
    let challenge = of(step.challenge);
    if step.adds {
        statement.combine_hypercube::<F65537, true>(alloc, weights, sum, challenge, step.shift)
    } else {
        statement.combine_hypercube::<F65537, false>(alloc, weights, sum, challenge, step.shift)
    }
}

// Asserts that each step gives its sum and its weights; the answer is the sum after the last.
fn sum_of_steps<R: Abort + AllocGlobal>(
    rt: &R,
    statement: &EqStatement<F65537>,
    table: Poly<F65537>,
    sum: u64,
    steps: &[Step],
) -> F65537
    requires { variables_of table ≡ eq_arity statement.now }
{
    let mut weights = table;
    let mut sum = of(sum);
    for step in steps {
        let taken = take(rt.alloc(), statement, &mut weights, &mut sum, step);
        assert!(rt;
            (taken, sum.index()) == (Ok(()), step.sum)
                && have_numbers(weights.as_slice(), step.weights)
        );
    }
    sum
}

static TURNED: [([u64; 2], u64); 2] = [([2, 3], 8), ([0, 1], 2)];

static WRITTEN_AND_ADDED: [Step; 2] = [
    Step {
        adds: false,
        challenge: 2,
        shift: 1,
        sum: 124,
        weights: &[4, 65535, 65529, 12],
    },
    Step {
        adds: true,
        challenge: 2,
        shift: 0,
        sum: 136,
        weights: &[6, 65534, 65525, 18],
    },
];

#[test]
fn weights_are_written_or_added(rt: HostRuntime) {
    let table = table(&rt, 2, &[9, 8, 7, 6]);
    sum_of_steps(&rt, &claims(&rt, &TURNED), table, 100, &WRITTEN_AND_ADDED);
}

static NONE: [([u64; 1], u64); 0] = [];

static NOTHING: [Step; 2] = [
    Step {
        adds: true,
        challenge: 9,
        shift: 0,
        sum: 5,
        weights: &[3, 4],
    },
    Step {
        adds: false,
        challenge: 9,
        shift: 0,
        sum: 5,
        weights: &[3, 4],
    },
];

#[test]
fn no_statement_changes_nothing(rt: HostRuntime) {
    let (none, table) = (claims(&rt, &NONE), table(&rt, 1, &[3, 4]));
    assert_told(&rt, &none, &table, (0, 1, true), true);
    let mut sum = sum_of_steps(&rt, &none, table, 5, &NOTHING);
    none.combine_evals(&mut sum, of(9), 0);
    assert!(rt; sum.index() == 5);
}

static POINT: [([u64; 0], u64); 1] = [([], 7)];

static ONE_ROW: [Step; 1] = [Step {
    adds: false,
    challenge: 5,
    shift: 1,
    sum: 36,
    weights: &[5],
}];

#[test]
fn no_variable_is_one_row(rt: HostRuntime) {
    let (statement, table) = (claims(&rt, &POINT), table(&rt, 0, &[7]));
    assert_told(&rt, &statement, &table, (1, 0, false), true);
    sum_of_steps(&rt, &statement, table, 1, &ONE_ROW);
}
