//! Batches of statements in groups: figures by hand over the integers modulo 65537.

ghost use Rattle.std.specs.Prelude.{◌≡◌};
ghost use Rattle.sc_constraints.specs.Constraints.{constraint_arity};

use super::{claims, table};
use sc_constraints::{Constraint, Statements};
use sc_definitions::FalseClaim;
use sc_field::Field;
use sc_small_fields::F65537;
use sc_tests_common::{have_numbers, of};
use std::process::Abort;

// Groups of one claim and of two.
static ONE: [([u64; 1], u64); 1] = [([0], 4)];

static TWO: [([u64; 1], u64); 2] = [([1], 1), ([5], 2)];

// Both groups under the challenge 3.
fn three_claims<R: Abort + AllocGlobal>(rt: &R) -> Constraint<F65537, F65537>
    ensures { constraint_arity result ≡ 1 }
{
    let groups = vec![in rt.alloc();
        Statements::Eq(claims(rt, &ONE)),
        Statements::Eq(claims(rt, &TWO)),
    ]
    .expect(rt, "groups");
    Constraint::new(of(3), 1, groups)
}

#[test]
fn powers_go_on_over_groups(rt: HostRuntime) {
    let constraint = three_claims(&rt);
    let mut weights = table(&rt, 1, &[10, 20]);
    let mut sum = of(100);
    let combined = constraint.combine(rt.alloc(), &mut weights, &mut sum);
    let first = sum.index();
    constraint.combine_evals(&mut sum);
    assert!(rt;
        (combined, first, sum.index()) == (Ok(()), 125, 150)
            && have_numbers(weights.as_slice(), &[65512, 68])
    );
}

#[test]
fn a_batch_is_made_anew(rt: HostRuntime) {
    let constraint = three_claims(&rt);
    let (weights, claim) = constraint.combine_new(rt.alloc()).expect(&rt, "a batch");
    assert!(rt; claim.index() == 25 && have_numbers(weights.as_slice(), &[65502, 48]));
}

#[test]
fn powers_of_the_challenge(rt: HostRuntime) {
    let powers: Vec<F65537> = three_claims(&rt)
        .challenge_powers(1)
        .take(3)
        .collect(rt.alloc())
        .expect(&rt, "powers");
    assert!(rt; have_numbers(&powers, &[3, 9, 27]));
}

// How many statements each group has, on how many variables, and whether there is none.
static GROUPS: [(usize, usize, bool); 2] = [(1, 1, false), (2, 1, false)];

#[test]
fn groups_are_kept_in_order(rt: HostRuntime) {
    let constraint = three_claims(&rt);
    let told = (
        constraint.num_variables(),
        constraint.initial_power(),
        constraint.challenge().index(),
        constraint.statements().len(),
    );
    assert!(rt; told == (1, 0, 3, 2));
    for (group, told) in constraint.statements().iter().zip(&GROUPS) {
        assert!(rt; (group.len(), group.num_variables(), group.is_empty()) == *told);
    }
}

// Tables, and the first of three statements that is false of each.
static FALSE: [([u64; 2], Option<FalseClaim>); 2] = [
    (
        [4, 1],
        Some(FalseClaim {
            statement: 2,
            claimed: 2,
            actual: 65526,
        }),
    ),
    (
        [4, 2],
        Some(FalseClaim {
            statement: 1,
            claimed: 1,
            actual: 2,
        }),
    ),
];

#[test]
fn false_statements_are_numbered_over_groups(rt: HostRuntime) {
    let constraint = three_claims(&rt);
    for (values, found) in &FALSE {
        assert!(rt; constraint.first_false(table(&rt, 1, values).as_slice()) == *found);
    }
}

static RIGHT: [([u64; 1], u64); 1] = [([1], 2)];

#[test]
fn no_statement_is_false_of_a_table(rt: HostRuntime) {
    let groups = vec![in rt.alloc(); Statements::Eq(claims(&rt, &RIGHT))].expect(&rt, "groups");
    let constraint = Constraint::<F65537, F65537>::new(of(3), 1, groups);
    assert!(rt; constraint.first_false(table(&rt, 1, &[1, 2]).as_slice()) == None);
}
