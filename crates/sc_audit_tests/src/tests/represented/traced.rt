//! Builds over a field whose values tell by which products they were made. The figures are from a script that is no part of this.
//!
//! A value carries a flag, which here the challenges have at first, and a count of the products with the flag that it was made by. Each value of a
//! folded table has a challenge as a factor, so the values of a round show whether they were made from folded tables, and the weight of a product
//! shows in which of two fields: the one of the table counts 1 for each, and the representation 10.
//!
//! The counts can't tell tables that are folded anew, from the first ones on, before each round, from tables that are folded once more.

use super::super::{Figures, Finding, TWO_ROUNDS};
use super::{Case, assert_case};
use sc_audit::Strategy;
use sc_definitions::Event::{Draw, Word};
use sc_field::Field;
use sc_small_fields::F65537;
use sc_table::{RoundMessage, VariableOrder};
use sc_tests_common::{Counted, Image, Traced};
use std::alloc::Global;
use std::process::Abort;

const PLAIN: Case = Case {
    name: "counts of a plain build",
    table: &[1, 2, 3, 5],
    variables: 2,
    claims: &[(&[2, 3], 14)],
    order: VariableOrder::Prefix,
    strategy: Strategy::Plain,
    draws: &[3, 4],
    answer: Ok(Figures {
        claim: 14,
        rounds: &[(65533, 15), (65425, 160)],
        witnesses: &[],
        challenges: &[3, 4],
        residual: 3312,
        eval: 23,
        weight: 144,
        finding: Finding::Holds,
    }),
    grids: &[],
    seed: &TWO_ROUNDS,
    events: &[Word(65533), Word(15), Draw, Word(65425), Word(160), Draw],
};

const REPRESENTED: Case = Case {
    name: "counts of a represented build",
    strategy: Strategy::Represented,
    ..PLAIN
};

const SMALL: Case = Case {
    name: "counts of a small-value build",
    strategy: Strategy::SmallValue { variables: 2 },
    grids: &[(&[65533], &[15]), (&[2, 65525, 65525], &[65532, 20, 15])],
    ..PLAIN
};

// Builds, and the counts of the two values of each round, the value at 0 first.
static BUILDS: [(Case, &[(u64, u64)]); 2] = [
    (PLAIN, &[(0, 0), (3, 5)]),
    (REPRESENTED, &[(0, 0), (30, 50)]),
];

// Draws of these numbers, with the flag and count 0.
fn flagged<R: Abort + AllocGlobal>(rt: &R, draws: &[u64]) -> Vec<Traced> {
    draws
        .iter()
        .map(|number| Counted {
            value: F65537::element(*number % 65537),
            has_flag: true,
            count: 0,
        })
        .collect(rt.alloc())
        .expect(rt, "draws")
}

// Whether the two values of each round have these counts.
fn have_counts(messages: &[RoundMessage<Traced>], counts: &[(u64, u64)]) -> bool {
    messages.len() == counts.len()
        && messages.iter().zip(counts).all(|(message, count)| (
            message.c_a.count,
            message.c_inf.count,
        ) == *count)
}

// Asserts that a build's report and history are as its case says, and its values have these counts.
fn assert_counts<R: Abort + AllocGlobal>(rt: &R, case: &Case, counts: &[(u64, u64)]) {
    let draws = flagged(rt, case.draws);
    let answer = assert_case::<Traced, Traced, Image, R>(rt, case, draws);
    let report = answer.expect(rt, "a report");
    let name = case.name;
    assert!(rt;
        have_counts(report.rounds.polynomial_evaluations(), counts),
        "{name}: counts"
    );
}

#[test]
fn rounds_are_made_from_folded_tables_in_their_field(rt: HostRuntime) {
    for (case, counts) in &BUILDS {
        assert_counts(&rt, case, *counts);
    }
}

// The two values of a round are weighted alike, each of a grid of as many nodes.
#[test]
fn both_values_of_a_round_are_read_off_grids(rt: HostRuntime) {
    let draws = flagged(&rt, SMALL.draws);
    let answer = assert_case::<Traced, Traced, Image, HostRuntime>(&rt, &SMALL, draws);
    let report = answer.expect(&rt, "a report");
    let messages = report.rounds.polynomial_evaluations();
    assert!(rt; messages.len() == 2, "rounds");
    let (zero, infinity) = (messages[1].c_a.count, messages[1].c_inf.count);
    assert!(rt; zero == infinity, "counts of the second round");
    assert!(rt; zero >= 4, "a count of the second round");
}
