//! What small-value builds are refused for, and the lines of grids.
use super::{Case, Refusal, assert_cases, assert_refused};
use sc_audit::{Grid, Grids, Report, Verdict};
use sc_rounds::SumcheckData;
use sc_small_fields::F65537;
use sc_table::{RoundMessage, Row};
use sc_tests_common::{elements, of, point};
use std::alloc::Global;
use std::process::Abort;
use sumcheck_run::{Outcome, show_report};

// ---- Refusals

// The table of the first job, built by two small-value rounds; GROUPS are its statements.
const SMALL: &str =
    r#"{"field":"65537","challenger":{"draws":[3,4],"witnesses":[]},"order":"prefix","bits":0,
    "table":[1,2,3,4],"variables":2,"groups":[GROUPS],"batching":10,
    "mode":{"build":{"small-value":2}}}"#;

// What stands for the groups of that job, and why it is refused.
static UNFIT: [Refusal; 10] = [
    (
        "GROUPS",
        r#"{"kind":"eq","claims":[{"point":[0,1],"value":2}]},
        {"kind":"select","scalars":[{"at":2,"value":49}]}"#,
        "strategy-unfit select 1",
    ),
    (
        "GROUPS",
        r#"{"kind":"select","scalars":[]},{"kind":"select","points":[{"at":[0,3],"value":7}]}"#,
        "strategy-unfit select 0",
    ),
    (
        "GROUPS",
        r#"{"kind":"next",
        "claims":[{"selector":[5],"point":[7],"order":"suffix","value":8}]}"#,
        "strategy-unfit selector 0",
    ),
    (
        "GROUPS",
        r#"{"kind":"next",
        "claims":[{"selector":[],"point":[2,3],"order":"suffix","value":4}]}"#,
        "false-claim 0 claimed 4 true 3",
    ),
    // a statement that does not fit stands after one that does
    (
        "GROUPS",
        r#"{"kind":"next",
        "claims":[{"selector":[],"point":[2,3],"order":"prefix","value":3},
            {"selector":[5,6],"point":[],"order":"prefix","value":1}]},
        {"kind":"select","scalars":[{"at":2,"value":49}]}"#,
        "strategy-unfit selector 1",
    ),
    // the first claim is false
    (
        "GROUPS",
        r#"{"kind":"eq","claims":[{"point":[0,1],"value":3}]},
        {"kind":"select","scalars":[{"at":2,"value":49}]}"#,
        "strategy-unfit select 1",
    ),
    (
        "GROUPS",
        r#"{"kind":"eq","claims":[{"point":[0,1],"value":3}]},
        {"kind":"next","claims":[{"selector":[],"point":[2,3],"order":"prefix","value":4}]}"#,
        "false-claim 0 claimed 3 true 2",
    ),
    (
        "GROUPS",
        r#"{"kind":"eq","claims":[{"point":[0,1],"value":2}]},
        {"kind":"next","claims":[{"selector":[],"point":[2,3],"order":"prefix","value":3},
            {"selector":[],"point":[2,3],"order":"prefix","value":4}]}"#,
        "false-claim 2 claimed 4 true 3",
    ),
    // its value is true
    (
        "GROUPS",
        r#"{"kind":"next",
        "claims":[{"selector":[5],"point":[7],"order":"prefix","value":12}]}"#,
        "strategy-unfit selector 0",
    ),
    (
        "GROUPS",
        r#"{"kind":"eq","claims":[{"point":[0,1],"value":3}]}"#,
        "false-claim 0 claimed 3 true 2",
    ),
];

#[test]
fn statements_that_small_value_rounds_do_not_take(rt: HostRuntime) {
    assert_refused(&rt, rt.alloc(), SMALL, &UNFIT);
}

// A successor on the table of the first job, built by so many small-value rounds.
const SUCCESSOR: &str =
    r#"{"field":"65537","challenger":{"draws":[3,4],"witnesses":[]},"order":"prefix","bits":0,
    "table":[1,2,3,4],"variables":2,"groups":[{"kind":"next",
    "claims":[{"selector":[],"point":[2,3],"order":"prefix","value":3}]}],"batching":1,
    "mode":{"build":{"small-value":2}}}"#;

const SUCCESSOR_SUFFIX: &str =
    r#"{"field":"65537","challenger":{"draws":[3,4],"witnesses":[]},"order":"suffix","bits":0,
    "table":[1,2,3,4],"variables":2,"groups":[{"kind":"next",
    "claims":[{"selector":[],"point":[2,3],"order":"prefix","value":3}]}],"batching":1,
    "mode":{"build":{"small-value":1}}}"#;

// Both, with their reports.
static SUCCESSORS: [Case; 2] = [
    (
        SUCCESSOR,
        0,
        "claim 3
round 0: 4 65531 challenge 3
round 1: 65474 11 challenge 4
residual 385
eval 11
weight 35
grid 0 zero 4
grid 0 infinity 65531
grid 1 zero 0 65528 65531
grid 1 infinity 2 5 0
verdict holds
",
    ),
    (
        SUCCESSOR_SUFFIX,
        0,
        "claim 3
round 0: 65528 7 challenge 3
round 1: 24 12 challenge 4
residual 360
eval 12
weight 30
grid 0 zero 65528
grid 0 infinity 7
verdict holds
",
    ),
];

#[test]
fn small_value_rounds_take_successors(rt: HostRuntime) {
    assert_cases(&rt, rt.alloc(), &SUCCESSORS);
}

// A job with a scalar, built by no small-value round; TABLE is its table.
const NO_ROUND: &str =
    r#"{"field":"65537","challenger":{"draws":[],"witnesses":[]},"order":"prefix","bits":0,
    "table":TABLE,"variables":2,"groups":[{"kind":"select","scalars":[{"at":2,"value":49}]}],
    "batching":1,"mode":{"build":{"small-value":0}}}"#;

// Tables, and why a job with them is refused.
static TABLES: [Refusal; 3] = [
    ("TABLE", "[1,2,3]", "job-shape table-length 3"),
    ("TABLE", "[1,2]", "job-shape variables 2 expected 1"),
    ("TABLE", "[1,2,3,4]", "strategy-unfit variables 0 bound 2"),
];

#[test]
fn the_shape_is_refused_before_the_strategy(rt: HostRuntime) {
    assert_refused(&rt, rt.alloc(), NO_ROUND, &TABLES);
}

// ---- Grids

// The values of a round's grid at 0, and those at infinity.
type Lists = (&'static [u64], &'static [u64]);

fn row<A: Abort>(rt: &A, alloc: Global, numbers: &[u64]) -> Row<F65537> {
    Row::new(elements(alloc, numbers).expect(rt, "memory"))
}

fn grids_of<A: Abort>(rt: &A, alloc: Global, lists: &[Lists]) -> Grids<F65537> {
    let mut rounds = Vec::new(alloc);
    for (zero, infinity) in lists {
        let grid = Grid {
            zero: row(rt, alloc, *zero),
            infinity: row(rt, alloc, *infinity),
        };
        rounds.push(grid).expect(rt, "memory");
    }
    Grids {
        rounds: Row::new(rounds),
    }
}

// The report on the first job, with these grids.
fn report_with<A: Abort>(rt: &A, alloc: Global, lists: &[Lists]) -> Report<F65537, F65537> {
    let messages = vec![in alloc;
        RoundMessage {
            c_a: of(2),
            c_inf: of(65535)
        },
        RoundMessage {
            c_a: of(0),
            c_inf: of(65535)
        },
    ];
    Report {
        claim: of(2),
        rounds: SumcheckData {
            polynomial_evaluations: messages.expect(rt, "memory"),
            pow_witnesses: Vec::new(alloc),
        },
        challenges: point(alloc, &[3, 4]).expect(rt, "memory"),
        residual: of(65449),
        eval: of(11),
        weight: of(65529),
        grids: grids_of(rt, alloc, lists),
        verdict: Verdict::Holds,
    }
}

// The lines before those of grids.
const FIGURES: &str = "claim 2
round 0: 2 65535 challenge 3
round 1: 0 65535 challenge 4
residual 65449
eval 11
weight 65529
";

// Grids, and their lines.
static GRIDS: [(&[Lists], &str); 3] = [
    (&[], ""),
    (
        &[(&[2], &[65535])],
        "grid 0 zero 2\ngrid 0 infinity 65535\n",
    ),
    (
        &[(&[2], &[65535]), (&[0, 0, 0], &[1, 0, 0])],
        "grid 0 zero 2\ngrid 0 infinity 65535\ngrid 1 zero 0 0 0\ngrid 1 infinity 1 0 0\n",
    ),
];

#[test]
fn a_report_has_its_grids_before_the_verdict(rt: HostRuntime) {
    for (lists, lines) in &GRIDS {
        let report = report_with(&rt, rt.alloc(), *lists);
        let answer = show_report(rt.alloc(), &report).expect(&rt, "memory");
        let text = format!(in rt.alloc(); "{FIGURES}{lines}verdict holds\n").expect(&rt, "memory");
        assert!(rt; answer.outcome() == Outcome::Holds);
        assert!(rt; answer.text() == text.as_bytes(), "{lines}");
    }
}
