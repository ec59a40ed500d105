//! Statements of all kinds that claim other values: the true ones of the table 1, 2, 3, 4 are
//! figures by hand over the integers modulo 65537.

ghost use Rattle.std.specs.Prelude.{◌≡◌, All, length};
ghost use Rattle.sc_constraints.specs.Constraints.{constraint_arity, constraint_statements};
ghost use Rattle.sc_constraints.specs.Groups.{group_arity};

use super::kinds::{TWO_VALUES, a_direct_point, successors, two_scalars};
use super::{claims, elements, four, point};
use sc_constraints::{Constraint, StatementList, Statements};
use sc_field::{ExtensionField, Field};
use sc_small_fields::F65537;
use sc_table::Basis;
use sc_tests_common::of;
use std::process::Abort;

// Claims at points.
static POINTS: [([u64; 2], u64); 2] = [([0, 1], 5), ([2, 3], 6)];

// What seven statements claim first, and the values that are true of the table.
static FIRST: [u64; 7] = [5, 6, 3, 5, 49, 1, 9];

static TRUE: [u64; 7] = [2, 8, 3, 8, 49, 1, 7];

static GIVEN: [u64; 7] = [11, 12, 13, 14, 15, 16, 17];

// What each of the seven claims first, less its true value, after a zero for the power 0.
static EXCESSES: [u64; 8] = [0, 3, 65535, 0, 65534, 0, 0, 2];

// Two values at points, two through the successor map, two that scalars select, and one that a
// direct point selects.
fn groups<R: Abort + AllocGlobal>(rt: &R) -> Vec<Statements<F65537, F65537>>
    ensures { All (λ s. group_arity s ≡ 2) result.items }
{
    vec![in rt.alloc();
        Statements::Eq(claims(rt, &POINTS)),
        Statements::Next(successors(rt, &TWO_VALUES)),
        Statements::Select(two_scalars(rt)),
        Statements::Select(a_direct_point(rt, 9)),
    ]
    .expect(rt, "groups")
}

// Their batch under the challenge 10, from the power 1 on.
fn seven<R: Abort + AllocGlobal>(rt: &R) -> Constraint<F65537, F65537>
    ensures { constraint_arity result ≡ 2 }
{
    Constraint::new_with_existing_claim(of(10), 2, groups(rt))
}

// How many statements there are.
fn count<F: Field, EF: ExtensionField<F>, A: Abort>(rt: &A, constraint: &Constraint<F, EF>) -> usize
    ensures { result ≡ length (constraint_statements (λ x. EF.embedding (F.number x)) EF.number
        constraint.now) }
{
    let mut count: usize = 0;
    for group in constraint.statements() {
        count = count.checked_add(group.len()).expect(rt, "a count");
    }
    count
}

// Appends what the statements of a group claim.
fn push_claims<S: StatementList<F65537>, A: Abort>(rt: &A, group: &S, told: &mut Vec<u64>) {
    for i in 0..group.count() {
        told.push(group.claim_at(i).index()).expect(rt, "a claim");
    }
}

// Asserts what the statements claim, and that all else is as it was made.
fn assert_claims<R: Abort + AllocGlobal>(
    rt: &R,
    constraint: &Constraint<F65537, F65537>,
    wanted: &[u64],
) {
    let mut told = Vec::new(rt.alloc());
    for group in constraint.statements() {
        match group {
            Statements::Eq(group) => push_claims(rt, group, &mut told),
            Statements::Next(group) => push_claims(rt, group, &mut told),
            Statements::Select(group) => push_claims(rt, group, &mut told),
        }
    }
    assert!(rt; told.as_slice() == wanted);
    let kept = (
        constraint.num_variables(),
        constraint.challenge().index(),
        constraint.initial_power(),
    );
    assert!(rt; kept == (2, 10, 1));
}

#[test]
fn statements_claim_given_values(rt: HostRuntime) {
    let mut constraint = seven(&rt);
    assert_claims(&rt, &constraint, &FIRST);
    let weight = constraint.eval_at(Basis::Evaluation, &point(&rt, &[3, 4]));
    let values = elements(&rt, &GIVEN);
    assert!(rt; count(&rt, &constraint) == values.len());
    constraint.claim_values(&values);
    assert_claims(&rt, &constraint, &GIVEN);
    assert!(rt; constraint.eval_at(Basis::Evaluation, &point(&rt, &[3, 4])) == weight);
}

#[test]
fn statements_claim_their_true_values(rt: HostRuntime) {
    let (mut constraint, table) = (seven(&rt), four(&rt));
    let weight = constraint.eval_at(Basis::Evaluation, &point(&rt, &[3, 4]));
    constraint.claim_truth(table.as_slice());
    assert_claims(&rt, &constraint, &TRUE);
    assert!(rt;
        constraint.first_false(table.as_slice()) == None
            && constraint.eval_at(Basis::Evaluation, &point(&rt, &[3, 4])) == weight
    );
}

#[test]
fn the_polynomial_of_a_batch_is_what_is_claimed_too_much(rt: HostRuntime) {
    let (constraint, table) = (seven(&rt), four(&rt));
    let polynomial = constraint
        .batch_polynomial(rt.alloc(), table.as_slice())
        .expect(&rt, "a polynomial");
    assert!(rt; polynomial.as_slice() == elements(&rt, &EXCESSES).as_slice());
}
