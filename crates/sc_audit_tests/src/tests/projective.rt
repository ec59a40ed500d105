//! Tables of coefficients. Figures over the integers modulo 65537 are by hand; those over the
//! integers modulo 17 are from a script that is no part of this, by sums over all rows of the
//! original table.
use super::seventeen::F17;
use super::{
    CHALLENGE, COEFFICIENTS, Case, Figures, Finding, HEAD, Last, PREFIX, Task, VALUES, WITNESS,
    assert_all,
};
use sc_audit::{AuditError, FitFault, ShapeFault, Strategy};
use sc_definitions::Event::{Draw, Test, Word};
use sc_small_fields::F65537;
use sc_table::{Basis, VariableOrder};

// The seeds of rounds on coefficients: of one, of two, of three, and of two with a test each.
const ONE_ROUND: [&str; 5] = [HEAD, "0000000000000002", VALUES, CHALLENGE, COEFFICIENTS];

const TWO_ROUNDS: [&str; 7] = [
    HEAD,
    "0000000000000004",
    VALUES,
    CHALLENGE,
    VALUES,
    CHALLENGE,
    COEFFICIENTS,
];

const THREE_ROUNDS: [&str; 9] = [
    HEAD,
    "0000000000000006",
    VALUES,
    CHALLENGE,
    VALUES,
    CHALLENGE,
    VALUES,
    CHALLENGE,
    COEFFICIENTS,
];

const TWO_TESTED_ROUNDS: [&str; 9] = [
    HEAD,
    "0000000000000006",
    VALUES,
    WITNESS,
    CHALLENGE,
    VALUES,
    WITNESS,
    CHALLENGE,
    COEFFICIENTS,
];

// The coefficients 1, 2, 3, 4 of 1, y, x and x y, of which that of y is claimed to be 2. The first
// round is of 2 + 4 X, whose value at 1 is 6; at 3 the table is 10 + 14 y and the weight y, so that
// the second is of 10 Y + 14 Y^2. At (3, 4) the table is 66 and the weight 4.
const HAND: Case = Case {
    name: "rounds by hand",
    table: &[1, 2, 3, 4],
    claims: &[(&[0, 1], 2)],
    batching: 1,
    basis: Basis::Projective,
    draws: &[3, 4],
    answer: Ok(Figures {
        claim: 2,
        rounds: &[(6, 0), (24, 14)],
        witnesses: &[],
        challenges: &[3, 4],
        residual: 264,
        eval: 66,
        weight: 4,
        finding: Finding::Holds,
    }),
    seed: &TWO_ROUNDS,
    events: &[Word(6), Word(0), Draw, Word(24), Word(14), Draw],
    ..PREFIX
};

// Of 1 + 2 x the constant is claimed to be 5. The round sends 5, which is more by 4 - 2 X.
const ONE: Case = Case {
    name: "a round that made a false constant true",
    table: &[1, 2],
    variables: 1,
    claims: &[(&[0], 5)],
    task: Task::Check(&[(5, 0)], &[]),
    draws: &[2],
    answer: Ok(Figures {
        claim: 5,
        rounds: &[(5, 0)],
        witnesses: &[],
        challenges: &[2],
        residual: 5,
        eval: 5,
        weight: 1,
        finding: Finding::LuckyRound(0, &[4, 65535, 0], 1),
    }),
    seed: &ONE_ROUND,
    events: &[Word(5), Word(0), Draw],
    ..HAND
};

// Under the claim 5 the first round sends 8 + 11 X - 3 X^2, which is more by (3 - X) (2 + 3 X).
const FIRST: Case = Case {
    name: "a first round that made a false claim true",
    claims: &[(&[0, 1], 5)],
    task: Task::Check(&[(16, 65534), (24, 14)], &[]),
    answer: Ok(Figures {
        claim: 5,
        rounds: &[(16, 65534), (24, 14)],
        witnesses: &[],
        challenges: &[3, 4],
        residual: 264,
        eval: 66,
        weight: 4,
        finding: Finding::LuckyRound(0, &[6, 7, 65534], 2),
    }),
    events: &[Word(16), Word(65534), Draw, Word(24), Word(14), Draw],
    ..HAND
};

// The first round leaves 8, where 14 is true. The second sends 4 + 49 Y + 4 Y^2, which is more by
// (4 - Y) (1 + 10 Y).
const SECOND: Case = Case {
    name: "a second round that made a false claim true",
    task: Task::Check(&[(6, 0), (57, 4)], &[]),
    answer: Ok(Figures {
        claim: 5,
        rounds: &[(6, 0), (57, 4)],
        witnesses: &[],
        challenges: &[3, 4],
        residual: 264,
        eval: 66,
        weight: 4,
        finding: Finding::LuckyRound(1, &[4, 39, 65527], 2),
    }),
    events: &[Word(6), Word(0), Draw, Word(57), Word(4), Draw],
    ..FIRST
};

// Of 1 + 2 x both coefficients are claimed, 4 and 1, which under 3 are 7 as 1 and 2 are. Round and
// residual are true: (1 + 2 X) (1 + 3 X).
const BATCH: Case = Case {
    name: "two false claims whose batch is true",
    claims: &[(&[0], 4), (&[1], 1)],
    batching: 3,
    task: Task::Check(&[(12, 6)], &[]),
    draws: &[5],
    answer: Ok(Figures {
        claim: 7,
        rounds: &[(12, 6)],
        witnesses: &[],
        challenges: &[5],
        residual: 176,
        eval: 11,
        weight: 16,
        finding: Finding::LuckyBatch(&[3, 65536], 1),
    }),
    events: &[Word(12), Word(6), Draw],
    ..ONE
};

static BY_HAND: [Case; 7] = [
    HAND,
    Case {
        name: "a proof by hand",
        task: Task::Check(&[(6, 0), (24, 14)], &[]),
        ..HAND
    },
    ONE,
    FIRST,
    SECOND,
    Case {
        name: "a false claim that no round made true",
        task: Task::Check(&[(6, 0), (57, 5)], &[]),
        answer: Ok(Figures {
            claim: 5,
            rounds: &[(6, 0), (57, 5)],
            witnesses: &[],
            challenges: &[3, 4],
            residual: 279,
            eval: 66,
            weight: 4,
            finding: Finding::Refuted,
        }),
        events: &[Word(6), Word(0), Draw, Word(57), Word(5), Draw],
        ..FIRST
    },
    BATCH,
];

// Two true claims.
const TWO: Case = Case {
    name: "two claims",
    basis: Basis::Projective,
    answer: Ok(Figures {
        claim: 6,
        rounds: &[(5, 8), (3, 8)],
        witnesses: &[],
        challenges: &[8, 12],
        residual: 10,
        eval: 16,
        weight: 7,
        finding: Finding::Holds,
    }),
    seed: &TWO_ROUNDS,
    events: &[Word(5), Word(8), Draw, Word(3), Word(8), Draw],
    ..PREFIX
};

const TESTED: Case = Case {
    name: "two claims with tests",
    pow_bits: 1,
    good: &[&[5, 9], &[6]],
    answer: Ok(Figures {
        claim: 6,
        rounds: &[(5, 8), (3, 8)],
        witnesses: &[5, 6],
        challenges: &[8, 12],
        residual: 10,
        eval: 16,
        weight: 7,
        finding: Finding::Holds,
    }),
    seed: &TWO_TESTED_ROUNDS,
    events: &[
        Word(5),
        Word(8),
        Word(5),
        Test(1),
        Draw,
        Word(3),
        Word(8),
        Word(6),
        Test(1),
        Draw,
    ],
    ..TWO
};

const SELECTED: Case = Case {
    name: "two claims and the powers of a scalar",
    last: Last::Select(2, 10),
    answer: Ok(Figures {
        claim: 13,
        rounds: &[(8, 12), (1, 10)],
        witnesses: &[],
        challenges: &[8, 12],
        residual: 2,
        eval: 16,
        weight: 15,
        finding: Finding::Holds,
    }),
    events: &[Word(8), Word(12), Draw, Word(1), Word(10), Draw],
    ..TWO
};

const SUCCEEDED: Case = Case {
    name: "two claims and a successor",
    last: Last::Successor(&[], &[6, 13], 4),
    answer: Ok(Figures {
        claim: 2,
        rounds: &[(14, 11), (6, 2)],
        witnesses: &[],
        challenges: &[8, 12],
        residual: 4,
        eval: 16,
        weight: 13,
        finding: Finding::Holds,
    }),
    events: &[Word(14), Word(11), Draw, Word(6), Word(2), Draw],
    ..TWO
};

const THREE: Case = Case {
    name: "three variables",
    table: &[3, 14, 15, 9, 2, 6, 5, 11],
    variables: 3,
    claims: &[(&[2, 5, 1], 5)],
    further: &[(&[11, 3, 7], 3)],
    draws: &[8, 12, 5],
    answer: Ok(Figures {
        claim: 0,
        rounds: &[(9, 5), (7, 8), (7, 14)],
        witnesses: &[],
        challenges: &[8, 12, 5],
        residual: 9,
        eval: 9,
        weight: 1,
        finding: Finding::Holds,
    }),
    seed: &THREE_ROUNDS,
    events: &[
        Word(9),
        Word(5),
        Draw,
        Word(7),
        Word(8),
        Draw,
        Word(7),
        Word(14),
        Draw,
    ],
    ..TWO
};

// A table of one coefficient has no round, so that its basis is in no seed.
const CONSTANT: Case = Case {
    name: "a constant",
    table: &[7],
    variables: 0,
    claims: &[(&[], 7)],
    batching: 1,
    answer: Ok(Figures {
        claim: 7,
        rounds: &[],
        witnesses: &[],
        challenges: &[],
        residual: 7,
        eval: 7,
        weight: 1,
        finding: Finding::Holds,
    }),
    seed: &[],
    events: &[],
    ..TWO
};

static BY_SUMS: [Case; 11] = [
    TWO,
    TESTED,
    SELECTED,
    SUCCEEDED,
    THREE,
    CONSTANT,
    Case {
        name: "a proof of two claims",
        task: Task::Check(&[(5, 8), (3, 8)], &[]),
        ..TWO
    },
    Case {
        name: "a proof of two claims with tests",
        task: Task::Check(&[(5, 8), (3, 8)], &[5, 6]),
        ..TESTED
    },
    Case {
        name: "a proof of the powers of a scalar",
        task: Task::Check(&[(8, 12), (1, 10)], &[]),
        ..SELECTED
    },
    Case {
        name: "a proof of a successor",
        task: Task::Check(&[(14, 11), (6, 2)], &[]),
        ..SUCCEEDED
    },
    Case {
        name: "a proof on three variables",
        task: Task::Check(&[(9, 5), (7, 8), (7, 14)], &[]),
        ..THREE
    },
];

#[test]
fn rounds_on_coefficients(rt: HostRuntime) {
    assert_all::<F65537, HostRuntime>(&rt, &BY_HAND);
    assert_all::<F17, HostRuntime>(&rt, &BY_SUMS);
}

// Coefficients in suffix order, with a false claim and a strategy that does not take them.
const SUFFIX: Case = Case {
    name: "coefficients in suffix order",
    claims: &[(&[2, 5], 9)],
    order: VariableOrder::Suffix,
    task: Task::Build(Strategy::Represented),
    answer: Err(AuditError::JobShape(ShapeFault::ProjectiveSuffix)),
    seed: &[],
    events: &[],
    ..TWO
};

// Coefficients on a representation, with a false claim.
const REPRESENTED: Case = Case {
    name: "coefficients on a representation",
    order: VariableOrder::Prefix,
    answer: Err(AuditError::StrategyUnfit(FitFault::Projective)),
    ..SUFFIX
};

static REFUSED: [Case; 8] = [
    SUFFIX,
    Case {
        name: "a proof of coefficients in suffix order",
        task: Task::Check(&[(5, 8), (3, 8)], &[]),
        ..SUFFIX
    },
    Case {
        name: "a constant in suffix order",
        table: &[7],
        variables: 0,
        claims: &[(&[], 7)],
        ..SUFFIX
    },
    Case {
        name: "coefficients in suffix order under statements on fewer variables",
        variables: 1,
        answer: Err(AuditError::JobShape(ShapeFault::Arity {
            expected: 2,
            actual: 1,
        })),
        ..SUFFIX
    },
    REPRESENTED,
    Case {
        name: "coefficients on small values",
        task: Task::Build(Strategy::SmallValue { variables: 2 }),
        ..REPRESENTED
    },
    Case {
        name: "coefficients on small values for no variable",
        task: Task::Build(Strategy::SmallValue { variables: 0 }),
        ..REPRESENTED
    },
    Case {
        name: "coefficients and a false claim",
        task: Task::Build(Strategy::Plain),
        answer: Err(AuditError::FalseClaim {
            statement: 0,
            claimed: 9,
            actual: 14,
        }),
        ..REPRESENTED
    },
];

#[test]
fn refusals_of_coefficients(rt: HostRuntime) {
    assert_all::<F17, HostRuntime>(&rt, &REFUSED);
}
