//! Small-value rounds of statements on values through the successor map.
use super::seventeen::F17;
use super::{Case, Figures, Finding, Last, PREFIX, Task, assert_all};
use sc_audit::{AuditError, FitFault, Strategy};
use sc_definitions::Event::{Draw, Word};
use sc_small_fields::F65537;
use sc_table::VariableOrder;

// One successor alone, over the integers modulo 65537, under a plain build.
const ALONE: Case = Case {
    name: "a successor in prefix order",
    table: &[1, 2, 3, 4],
    claims: &[],
    last: Last::Successor(&[], &[2, 3], 3),
    batching: 1,
    draws: &[3, 4],
    answer: Ok(Figures {
        claim: 3,
        rounds: &[(4, 65531), (65474, 11)],
        witnesses: &[],
        challenges: &[3, 4],
        residual: 385,
        eval: 11,
        weight: 35,
        finding: Finding::Holds,
    }),
    events: &[Word(4), Word(65531), Draw, Word(65474), Word(11), Draw],
    ..PREFIX
};

const ALONE_SUFFIX: Case = Case {
    name: "a successor in suffix order",
    order: VariableOrder::Suffix,
    answer: Ok(Figures {
        claim: 3,
        rounds: &[(65528, 7), (24, 12)],
        witnesses: &[],
        challenges: &[3, 4],
        residual: 360,
        eval: 12,
        weight: 30,
        finding: Finding::Holds,
    }),
    events: &[Word(65528), Word(7), Draw, Word(24), Word(12), Draw],
    ..ALONE
};

// A build and the same on small values: they have one report, the grids aside.
static LARGE: [Case; 5] = [
    ALONE,
    Case {
        name: "a successor in prefix order on small values",
        task: Task::Build(Strategy::SmallValue { variables: 2 }),
        grids: &[(&[4], &[65531]), (&[0, 65528, 65531], &[2, 5, 0])],
        ..ALONE
    },
    Case {
        name: "a successor in prefix order with the first round on small values",
        task: Task::Build(Strategy::SmallValue { variables: 1 }),
        grids: &[(&[4], &[65531])],
        ..ALONE
    },
    ALONE_SUFFIX,
    Case {
        name: "a successor in suffix order on small values",
        task: Task::Build(Strategy::SmallValue { variables: 2 }),
        grids: &[(&[65528], &[7]), (&[0, 4, 2], &[65531, 0, 0])],
        ..ALONE_SUFFIX
    },
];

// Two values at points, in two groups, and a successor after them, modulo 17.
const MIXED: Case = Case {
    name: "two kinds in prefix order",
    claims: &[(&[2, 5], 14)],
    further: &[(&[11, 3], 15)],
    last: Last::Successor(&[], &[6, 13], 4),
    answer: Ok(Figures {
        claim: 2,
        rounds: &[(8, 7), (9, 15)],
        witnesses: &[],
        challenges: &[8, 12],
        residual: 10,
        eval: 10,
        weight: 1,
        finding: Finding::Holds,
    }),
    events: &[Word(8), Word(7), Draw, Word(9), Word(15), Draw],
    ..PREFIX
};

const MIXED_SUFFIX: Case = Case {
    name: "two kinds in suffix order",
    order: VariableOrder::Suffix,
    answer: Ok(Figures {
        claim: 2,
        rounds: &[(8, 0), (2, 16)],
        witnesses: &[],
        challenges: &[8, 12],
        residual: 2,
        eval: 14,
        weight: 5,
        finding: Finding::Holds,
    }),
    events: &[Word(8), Word(0), Draw, Word(2), Word(16), Draw],
    ..MIXED
};

// The same on small values.
pub(super) const MIXED_SMALL: Case = Case {
    name: "two kinds in prefix order on small values",
    task: Task::Build(Strategy::SmallValue { variables: 2 }),
    grids: &[(&[8], &[7]), (&[14, 11, 14], &[16, 1, 0])],
    ..MIXED
};

static TWO_KINDS: [Case; 5] = [
    MIXED,
    MIXED_SMALL,
    MIXED_SUFFIX,
    Case {
        name: "two kinds in suffix order on small values",
        task: Task::Build(Strategy::SmallValue { variables: 2 }),
        grids: &[(&[8], &[0]), (&[14, 11, 16], &[14, 10, 0])],
        ..MIXED_SUFFIX
    },
    Case {
        name: "two kinds in suffix order with the first round on small values",
        task: Task::Build(Strategy::SmallValue { variables: 1 }),
        grids: &[(&[8], &[0])],
        ..MIXED_SUFFIX
    },
];

// A false successor alone, after a history with a draw, to which nothing is appended.
const FALSE: Case = Case {
    name: "a false successor on small values",
    claims: &[],
    last: Last::Successor(&[], &[2, 5], 3),
    task: Task::Build(Strategy::SmallValue { variables: 2 }),
    draws: &[13, 8, 12],
    past: &[Word(3), Word(16), Draw],
    answer: Err(AuditError::FalseClaim {
        statement: 0,
        claimed: 3,
        actual: 16,
    }),
    seed: &[],
    events: &[],
    ..PREFIX
};

static REFUSED: [Case; 6] = [
    FALSE,
    Case {
        name: "a false successor behind true values at points",
        claims: &[(&[2, 5], 14)],
        further: &[(&[11, 3], 15)],
        answer: Err(AuditError::FalseClaim {
            statement: 2,
            claimed: 3,
            actual: 16,
        }),
        ..FALSE
    },
    Case {
        name: "a false value at a point before a false successor",
        claims: &[(&[2, 5], 14)],
        further: &[(&[11, 3], 16)],
        answer: Err(AuditError::FalseClaim {
            statement: 1,
            claimed: 16,
            actual: 15,
        }),
        ..FALSE
    },
    Case {
        name: "a successor with a selector, of its true value",
        last: Last::Successor(&[5], &[7], 6),
        answer: Err(AuditError::StrategyUnfit(FitFault::Selector { statement: 0 })),
        ..FALSE
    },
    Case {
        name: "a successor with a selector, of another value",
        last: Last::Successor(&[5], &[7], 0),
        answer: Err(AuditError::StrategyUnfit(FitFault::Selector { statement: 0 })),
        ..FALSE
    },
    Case {
        name: "a successor with a selector behind a false value at a point",
        claims: &[(&[2, 5], 13)],
        last: Last::Successor(&[5], &[7], 6),
        answer: Err(AuditError::StrategyUnfit(FitFault::Selector { statement: 1 })),
        ..FALSE
    },
];

#[test]
fn small_value_rounds_of_successors_are_those_of_a_plain_build(rt: HostRuntime) {
    assert_all::<F65537, HostRuntime>(&rt, &LARGE);
    assert_all::<F17, HostRuntime>(&rt, &TWO_KINDS);
}

#[test]
fn small_value_rounds_of_false_successors_are_refused(rt: HostRuntime) {
    assert_all::<F17, HostRuntime>(&rt, &REFUSED);
}
