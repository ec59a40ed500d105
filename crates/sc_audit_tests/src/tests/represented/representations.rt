//! Rounds that are built on a representation, without one and on small values, with figures from a script that is no part of this.
use super::super::{BASIS, Figures, Finding, HEAD, TWO_ROUNDS};
use super::{CHALLENGE_OF_TWO, Case, VALUES_OF_TWO, assert_over};
use sc_audit::laws::build_laws;
use sc_audit::{AuditError, Strategy};
use sc_definitions::Event::{Draw, Word};
use sc_sixteen::{Poly16, Tower16};
use sc_small_fields::{F257, F257x2};
use sc_table::VariableOrder;

// Over the field of 16 elements that is made by `w^2 = w + 1` and `y^2 = y + w`.
const SIXTEEN: Case = Case {
    name: "16 elements",
    table: &[1, 2, 3, 4],
    variables: 2,
    claims: &[(&[0, 1], 2)],
    order: VariableOrder::Prefix,
    strategy: Strategy::Plain,
    draws: &[2, 4],
    answer: Ok(Figures {
        claim: 2,
        rounds: &[(2, 6), (0, 6)],
        witnesses: &[],
        challenges: &[2, 4],
        residual: 1,
        eval: 5,
        weight: 12,
        finding: Finding::Holds,
    }),
    grids: &[],
    seed: &TWO_ROUNDS,
    events: &[Word(2), Word(6), Draw, Word(0), Word(6), Draw],
};

const SIXTEEN_SUFFIX: Case = Case {
    name: "16 elements in suffix order",
    order: VariableOrder::Suffix,
    answer: Ok(Figures {
        claim: 2,
        rounds: &[(0, 3), (0, 15)],
        witnesses: &[],
        challenges: &[2, 4],
        residual: 5,
        eval: 3,
        weight: 10,
        finding: Finding::Holds,
    }),
    events: &[Word(0), Word(3), Draw, Word(0), Word(15), Draw],
    ..SIXTEEN
};

// The claimed value is that of another row.
const SIXTEEN_FALSE: Case = Case {
    name: "a false claim on 16 elements",
    claims: &[(&[0, 1], 3)],
    answer: Err(AuditError::FalseClaim {
        statement: 0,
        claimed: 3,
        actual: 2,
    }),
    seed: &[],
    events: &[],
    ..SIXTEEN
};

static SIXTEEN_BUILDS: [Case; 9] = [
    SIXTEEN,
    SIXTEEN_SUFFIX,
    SIXTEEN_FALSE,
    Case {
        strategy: Strategy::Represented,
        ..SIXTEEN
    },
    Case {
        strategy: Strategy::Represented,
        ..SIXTEEN_SUFFIX
    },
    Case {
        strategy: Strategy::Represented,
        ..SIXTEEN_FALSE
    },
    Case {
        strategy: Strategy::SmallValue { variables: 2 },
        grids: &[(&[2], &[6]), (&[0, 0, 0], &[3, 0, 4])],
        ..SIXTEEN
    },
    Case {
        strategy: Strategy::SmallValue { variables: 2 },
        grids: &[(&[0], &[3]), (&[0, 2, 3], &[0, 6, 4])],
        ..SIXTEEN_SUFFIX
    },
    Case {
        strategy: Strategy::SmallValue { variables: 2 },
        ..SIXTEEN_FALSE
    },
];

#[test]
fn images_in_another_field_change_no_report(rt: HostRuntime) {
    assert_over::<Tower16, Tower16, Poly16, HostRuntime>(&rt, &SIXTEEN_BUILDS);
}

const ONE_ROUND_OF_TWO: [&str; 5] = [
    HEAD,
    "0000000000000002",
    VALUES_OF_TWO,
    CHALLENGE_OF_TWO,
    BASIS,
];

const TWO_ROUNDS_OF_TWO: [&str; 7] = [
    HEAD,
    "0000000000000004",
    VALUES_OF_TWO,
    CHALLENGE_OF_TWO,
    VALUES_OF_TWO,
    CHALLENGE_OF_TWO,
    BASIS,
];

// A table of integers modulo 257, with statements in the extension by `u^2 = 3`. Element number a + 257 b is a + b u.
const PAIRS: Case = Case {
    name: "an extension of degree 2",
    table: &[1, 2],
    variables: 1,
    claims: &[(&[257], 258)],
    order: VariableOrder::Prefix,
    strategy: Strategy::Plain,
    draws: &[2, 1],
    answer: Ok(Figures {
        claim: 258,
        rounds: &[(65793, 770)],
        witnesses: &[],
        challenges: &[259],
        residual: 2848,
        eval: 260,
        weight: 519,
        finding: Finding::Holds,
    }),
    grids: &[],
    seed: &ONE_ROUND_OF_TWO,
    events: &[Word(1), Word(256), Word(256), Word(2), Draw, Draw],
};

const PAIRS_SUFFIX: Case = Case {
    name: "an extension of degree 2 in suffix order",
    table: &[3, 5, 8, 200],
    variables: 2,
    claims: &[(&[775, 25707], 5452)],
    order: VariableOrder::Suffix,
    draws: &[2, 1, 9, 6],
    answer: Ok(Figures {
        claim: 5452,
        rounds: &[(46505, 54814), (24226, 51296)],
        witnesses: &[],
        challenges: &[259, 1551],
        residual: 62305,
        eval: 43129,
        weight: 63758,
        finding: Finding::Holds,
    }),
    seed: &TWO_ROUNDS_OF_TWO,
    events: &[
        Word(245),
        Word(180),
        Word(73),
        Word(213),
        Draw,
        Draw,
        Word(68),
        Word(94),
        Word(153),
        Word(199),
        Draw,
        Draw,
    ],
    ..PAIRS
};

const PAIRS_FALSE: Case = Case {
    name: "a false claim in an extension of degree 2",
    claims: &[(&[257], 259)],
    answer: Err(AuditError::FalseClaim {
        statement: 0,
        claimed: 259,
        actual: 258,
    }),
    seed: &[],
    events: &[],
    ..PAIRS
};

static PAIR_BUILDS: [Case; 9] = [
    PAIRS,
    PAIRS_SUFFIX,
    PAIRS_FALSE,
    Case {
        strategy: Strategy::Represented,
        ..PAIRS
    },
    Case {
        strategy: Strategy::Represented,
        ..PAIRS_SUFFIX
    },
    Case {
        strategy: Strategy::Represented,
        ..PAIRS_FALSE
    },
    Case {
        strategy: Strategy::SmallValue { variables: 1 },
        grids: &[(&[65793], &[770])],
        ..PAIRS
    },
    Case {
        strategy: Strategy::SmallValue { variables: 2 },
        grids: &[
            (&[46505], &[54814]),
            (&[47215, 49879, 1976], &[45017, 66033, 45426]),
        ],
        ..PAIRS_SUFFIX
    },
    Case {
        strategy: Strategy::SmallValue { variables: 1 },
        ..PAIRS_FALSE
    },
];

#[test]
fn an_extension_may_represent_itself(rt: HostRuntime) {
    assert_over::<F257, F257x2, F257x2, HostRuntime>(&rt, &PAIR_BUILDS);
}

#[test]
fn builds_agree_by_law(_rt: HostRuntime) {
    build_laws();
}
