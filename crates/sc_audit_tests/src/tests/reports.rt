//! Rounds that are built or checked.
use super::seventeen::F17;
use super::{
    Case, Figures, Finding, Lists, ONE_ROUND, PREFIX, TWO_TESTED_ROUNDS, Task, assert_all,
    assert_audit, challenger, job,
};
use sc_audit::{AuditError, FitFault, Mode, Strategy, audit};
use sc_challenger::ScriptedChallenger;
use sc_definitions::Event::{Draw, Test, Word};
use sc_field::Field;
use sc_small_fields::F65537;
use sc_table::VariableOrder;
use std::process::Abort;

// In suffix order, with the claims in two groups.
pub(super) const SUFFIX: Case = Case {
    name: "suffix order",
    claims: &[(&[2, 5], 14)],
    further: &[(&[11, 3], 15)],
    order: VariableOrder::Suffix,
    answer: Ok(Figures {
        claim: 6,
        rounds: &[(2, 13), (9, 3)],
        witnesses: &[],
        challenges: &[8, 12],
        residual: 12,
        eval: 14,
        weight: 13,
        finding: Finding::Holds,
    }),
    events: &[Word(2), Word(13), Draw, Word(9), Word(3), Draw],
    ..PREFIX
};

// Over the integers modulo 65537.
pub(super) const LARGE_PREFIX: Case = Case {
    name: "prefix order modulo 65537",
    table: &[1, 2, 3, 4],
    claims: &[(&[0, 1], 2)],
    batching: 1,
    draws: &[3, 4],
    answer: Ok(Figures {
        claim: 2,
        rounds: &[(2, 65535), (0, 65535)],
        witnesses: &[],
        challenges: &[3, 4],
        residual: 65449,
        eval: 11,
        weight: 65529,
        finding: Finding::Holds,
    }),
    events: &[Word(2), Word(65535), Draw, Word(0), Word(65535), Draw],
    ..PREFIX
};

pub(super) const LARGE_SUFFIX: Case = Case {
    name: "suffix order modulo 65537",
    order: VariableOrder::Suffix,
    answer: Ok(Figures {
        claim: 2,
        rounds: &[(0, 1), (12, 65531)],
        witnesses: &[],
        challenges: &[3, 4],
        residual: 65429,
        eval: 12,
        weight: 65528,
        finding: Finding::Holds,
    }),
    events: &[Word(0), Word(1), Draw, Word(12), Word(65531), Draw],
    ..LARGE_PREFIX
};

// The first case with a test of one bit each round.
const TESTED: Case = Case {
    name: "prefix order with tests",
    pow_bits: 1,
    good: &[&[5, 9], &[6]],
    answer: Ok(Figures {
        claim: 6,
        rounds: &[(15, 7), (5, 11)],
        witnesses: &[5, 6],
        challenges: &[8, 12],
        residual: 7,
        eval: 10,
        weight: 16,
        finding: Finding::Holds,
    }),
    seed: &TWO_TESTED_ROUNDS,
    events: &[
        Word(15),
        Word(7),
        Word(5),
        Test(1),
        Draw,
        Word(5),
        Word(11),
        Word(6),
        Test(1),
        Draw,
    ],
    ..PREFIX
};

// The same on a representation, which the field is of itself.
const REPRESENTED: Case = Case {
    name: "prefix order on a representation",
    task: Task::Build(Strategy::Represented),
    ..PREFIX
};

const REPRESENTED_SUFFIX: Case = Case {
    name: "suffix order on a representation",
    task: Task::Build(Strategy::Represented),
    ..SUFFIX
};

pub(super) const REPRESENTED_TESTED: Case = Case {
    name: "prefix order with tests on a representation",
    task: Task::Build(Strategy::Represented),
    ..TESTED
};

// The rounds for so many variables, from the first on, are read off their grids.
const SMALL_GRIDS: [Lists; 2] = [(&[15], &[7]), (&[14, 5, 16], &[13, 0, 0])];

pub(super) const SMALL: Case = Case {
    name: "prefix order on small values",
    task: Task::Build(Strategy::SmallValue { variables: 2 }),
    grids: &SMALL_GRIDS,
    ..PREFIX
};

pub(super) const SMALL_SUFFIX: Case = Case {
    name: "suffix order on small values",
    task: Task::Build(Strategy::SmallValue { variables: 2 }),
    grids: &[(&[2], &[13]), (&[14, 1, 13], &[16, 8, 0])],
    ..SUFFIX
};

pub(super) const SMALL_TESTED: Case = Case {
    name: "prefix order with tests on small values",
    task: Task::Build(Strategy::SmallValue { variables: 2 }),
    grids: &SMALL_GRIDS,
    ..TESTED
};

const SMALL_FIRST: Case = Case {
    name: "prefix order with the first round on small values",
    task: Task::Build(Strategy::SmallValue { variables: 1 }),
    grids: &[(&[15], &[7])],
    ..PREFIX
};

const LARGE_SMALL: Case = Case {
    name: "prefix order modulo 65537 on small values",
    task: Task::Build(Strategy::SmallValue { variables: 2 }),
    grids: &[(&[2], &[65535]), (&[0, 0, 0], &[1, 0, 0])],
    ..LARGE_PREFIX
};

const LARGE_SMALL_SUFFIX: Case = Case {
    name: "suffix order modulo 65537 on small values",
    task: Task::Build(Strategy::SmallValue { variables: 2 }),
    grids: &[(&[0], &[1]), (&[0, 2, 1], &[0, 65535, 0])],
    ..LARGE_SUFFIX
};

// Rounds that were built, of which one was altered.
const ALTERED_FIRST: Case = Case {
    name: "another value at 0 in the first round",
    task: Task::Check(&[(4, 7), (5, 11)], &[]),
    answer: Ok(Figures {
        claim: 6,
        rounds: &[(4, 7), (5, 11)],
        witnesses: &[],
        challenges: &[8, 12],
        residual: 15,
        eval: 10,
        weight: 16,
        finding: Finding::Refuted,
    }),
    events: &[Word(4), Word(7), Draw, Word(5), Word(11), Draw],
    ..PREFIX
};

const ALTERED_LAST: Case = Case {
    name: "another leading coefficient in the last round",
    task: Task::Check(&[(2, 13), (9, 4)], &[]),
    answer: Ok(Figures {
        claim: 6,
        rounds: &[(2, 13), (9, 4)],
        witnesses: &[],
        challenges: &[8, 12],
        residual: 8,
        eval: 14,
        weight: 13,
        finding: Finding::Refuted,
    }),
    events: &[Word(2), Word(13), Draw, Word(9), Word(4), Draw],
    ..SUFFIX
};

const ALTERED_TESTED: Case = Case {
    name: "another leading coefficient behind which the witnesses pass",
    task: Task::Check(&[(15, 8), (5, 11)], &[5, 6]),
    answer: Ok(Figures {
        claim: 6,
        rounds: &[(15, 8), (5, 11)],
        witnesses: &[5, 6],
        challenges: &[8, 12],
        residual: 16,
        eval: 10,
        weight: 16,
        finding: Finding::Refuted,
    }),
    events: &[
        Word(15),
        Word(8),
        Word(5),
        Test(1),
        Draw,
        Word(5),
        Word(11),
        Word(6),
        Test(1),
        Draw,
    ],
    ..TESTED
};

// A false claim over the integers modulo 65537, and a round under which the residual is right at
// the challenge 2: what it sends, 5 - 6 X + X^2, less the true 1 - X^2 is 2 (X - 1) (X - 2).
pub(super) const LUCKY_ROUND: Case = Case {
    name: "a round that made a false claim true",
    table: &[1, 2],
    variables: 1,
    claims: &[(&[0], 5)],
    batching: 1,
    task: Task::Check(&[(5, 1)], &[]),
    draws: &[2],
    answer: Ok(Figures {
        claim: 5,
        rounds: &[(5, 1)],
        witnesses: &[],
        challenges: &[2],
        residual: 65534,
        eval: 3,
        weight: 65536,
        finding: Finding::LuckyRound(0, &[4, 65531, 2], 2),
    }),
    seed: &ONE_ROUND,
    events: &[Word(5), Word(1), Draw],
    ..LARGE_PREFIX
};

const UNLUCKY_ROUND: Case = Case {
    name: "the same round at another challenge",
    draws: &[3],
    answer: Ok(Figures {
        claim: 5,
        rounds: &[(5, 1)],
        witnesses: &[],
        challenges: &[3],
        residual: 65533,
        eval: 4,
        weight: 65535,
        finding: Finding::Refuted,
    }),
    ..LUCKY_ROUND
};

// Two false claims whose batch is true under the challenge 3, and the round of an honest prover:
// one claims 3 more than the true value and the other 1 less, which makes 3 - X.
pub(super) const LUCKY_BATCH: Case = Case {
    name: "two false claims whose batch is true",
    claims: &[(&[0], 4), (&[1], 1)],
    batching: 3,
    task: Task::Check(&[(1, 2)], &[]),
    draws: &[5],
    answer: Ok(Figures {
        claim: 7,
        rounds: &[(1, 2)],
        witnesses: &[],
        challenges: &[5],
        residual: 66,
        eval: 6,
        weight: 11,
        finding: Finding::LuckyBatch(&[3, 65536], 1),
    }),
    events: &[Word(1), Word(2), Draw],
    ..LUCKY_ROUND
};

const UNLUCKY_BATCH: Case = Case {
    name: "the same claims under another challenge",
    batching: 4,
    answer: Ok(Figures {
        claim: 8,
        rounds: &[(1, 2)],
        witnesses: &[],
        challenges: &[5],
        residual: 71,
        eval: 6,
        weight: 16,
        finding: Finding::Refuted,
    }),
    ..LUCKY_BATCH
};

// A table of one row.
const POINT: Case = Case {
    name: "no proof",
    table: &[7],
    variables: 0,
    claims: &[(&[], 7)],
    task: Task::CheckNone,
    answer: Ok(Figures {
        claim: 7,
        rounds: &[],
        witnesses: &[],
        challenges: &[],
        residual: 7,
        eval: 7,
        weight: 1,
        finding: Finding::Holds,
    }),
    seed: &[],
    events: &[],
    ..PREFIX
};

static POINTS: [Case; 10] = [
    POINT,
    Case {
        name: "no proof behind a history",
        past: &[Word(3), Word(16), Draw],
        ..POINT
    },
    Case {
        name: "a proof of no rounds",
        task: Task::Check(&[], &[]),
        ..POINT
    },
    Case {
        name: "a build",
        task: Task::Build(Strategy::Plain),
        ..POINT
    },
    Case {
        name: "a build on a representation",
        task: Task::Build(Strategy::Represented),
        ..POINT
    },
    Case {
        name: "a build on small values",
        task: Task::Build(Strategy::SmallValue { variables: 1 }),
        answer: Err(AuditError::StrategyUnfit(FitFault::Variables {
            variables: 1,
            bound: 0,
        })),
        ..POINT
    },
    Case {
        name: "a difficulty",
        pow_bits: 1,
        ..POINT
    },
    Case {
        name: "a false claim",
        claims: &[(&[], 6)],
        answer: Ok(Figures {
            claim: 6,
            rounds: &[],
            witnesses: &[],
            challenges: &[],
            residual: 6,
            eval: 7,
            weight: 1,
            finding: Finding::Refuted,
        }),
        ..POINT
    },
    Case {
        name: "two false claims whose batch is true",
        claims: &[(&[], 6), (&[], 6)],
        batching: 16,
        answer: Ok(Figures {
            claim: 0,
            rounds: &[],
            witnesses: &[],
            challenges: &[],
            residual: 0,
            eval: 7,
            weight: 0,
            finding: Finding::LuckyBatch(&[16, 16], 1),
        }),
        ..POINT
    },
    Case {
        name: "a proof of one round",
        past: &[Word(3), Word(16), Draw],
        task: Task::Check(&[(5, 1)], &[]),
        answer: Err(AuditError::RoundCountMismatch {
            expected: 0,
            actual: 1,
        }),
        ..POINT
    },
];

// The least witness that passes comes last in its list.
const TURNED: Case = Case {
    name: "a list in another order",
    good: &[&[9, 5], &[6]],
    ..TESTED
};

// The rounds with tests as a proof.
pub(super) const HANDED_IN: Case = Case {
    name: "the first witnesses that pass",
    task: Task::Check(&[(15, 7), (5, 11)], &[5, 6]),
    ..TESTED
};

const OTHER_WITNESS: Case = Case {
    name: "another witness that passes",
    task: Task::Check(&[(15, 7), (5, 11)], &[9, 6]),
    answer: Ok(Figures {
        claim: 6,
        rounds: &[(15, 7), (5, 11)],
        witnesses: &[9, 6],
        challenges: &[8, 12],
        residual: 7,
        eval: 10,
        weight: 16,
        finding: Finding::Holds,
    }),
    events: &[
        Word(15),
        Word(7),
        Word(9),
        Test(1),
        Draw,
        Word(5),
        Word(11),
        Word(6),
        Test(1),
        Draw,
    ],
    ..TESTED
};

const FAILS_SECOND: Case = Case {
    name: "a witness that fails in the second round",
    good: &[&[5], &[7]],
    answer: Err(AuditError::InvalidPowWitness {
        round: 1,
        difficulty: 1,
    }),
    events: &[
        Word(15),
        Word(7),
        Word(5),
        Test(1),
        Draw,
        Word(5),
        Word(11),
        Word(6),
        Test(1),
    ],
    ..HANDED_IN
};

const FAILS_FIRST: Case = Case {
    name: "a witness that fails in the first round",
    task: Task::Check(&[(15, 7), (5, 11)], &[6, 6]),
    answer: Err(AuditError::InvalidPowWitness {
        round: 0,
        difficulty: 1,
    }),
    events: &[Word(15), Word(7), Word(6), Test(1)],
    ..FAILS_SECOND
};

// The same after a history with a draw.
static BEHIND: [Case; 4] = [
    Case {
        name: "rounds that are built",
        draws: &[13, 8, 12],
        past: &[Word(3), Word(16), Draw],
        ..PREFIX
    },
    Case {
        name: "rounds that are built on a representation",
        task: Task::Build(Strategy::Represented),
        draws: &[13, 8, 12],
        past: &[Word(3), Word(16), Draw],
        ..PREFIX
    },
    Case {
        name: "rounds that are built on small values",
        draws: &[13, 8, 12],
        past: &[Word(3), Word(16), Draw],
        ..SMALL
    },
    Case {
        name: "a witness that fails",
        draws: &[13, 8, 12],
        past: &[Word(3), Word(16), Draw],
        ..FAILS_SECOND
    },
];

static HONEST: [Case; 4] = [PREFIX, SUFFIX, REPRESENTED, REPRESENTED_SUFFIX];

static LARGE_HONEST: [Case; 2] = [LARGE_PREFIX, LARGE_SUFFIX];

static SMALL_VALUES: [Case; 4] = [SMALL, SMALL_SUFFIX, SMALL_TESTED, SMALL_FIRST];

static LARGE_SMALL_VALUES: [Case; 2] = [LARGE_SMALL, LARGE_SMALL_SUFFIX];

static BUILT: [Case; 4] = [PREFIX, SUFFIX, TESTED, REPRESENTED_TESTED];

static ALTERED: [Case; 3] = [ALTERED_FIRST, ALTERED_LAST, ALTERED_TESTED];

static LUCKY: [Case; 4] = [LUCKY_ROUND, UNLUCKY_ROUND, LUCKY_BATCH, UNLUCKY_BATCH];

static WITNESSES: [Case; 5] = [TESTED, REPRESENTED_TESTED, TURNED, HANDED_IN, OTHER_WITNESS];

static FAILS: [Case; 2] = [FAILS_SECOND, FAILS_FIRST];

#[test]
fn honest_rounds_are_built_in_either_order(rt: HostRuntime) {
    assert_all::<F17, HostRuntime>(&rt, &HONEST);
    assert_all::<F65537, HostRuntime>(&rt, &LARGE_HONEST);
}

#[test]
fn small_value_rounds_are_those_of_a_plain_build(rt: HostRuntime) {
    assert_all::<F17, HostRuntime>(&rt, &SMALL_VALUES);
    assert_all::<F65537, HostRuntime>(&rt, &LARGE_SMALL_VALUES);
}

// Asserts that each of these builds has its report and its history again where its rounds are checked.
fn assert_again<F: Field, R: Abort + AllocGlobal>(rt: &R, cases: &[Case]) {
    for case in cases {
        let mut job = job::<F, R>(rt, case);
        let mut first = challenger::<F, R>(rt, case);
        let report = audit::<F, F, F, ScriptedChallenger<F>>(rt.alloc(), &job, &mut first).expect(
            rt, "a report",
        );
        job.mode = Mode::Check(Some(report.rounds));
        assert_audit::<F, R>(rt, case, &job, challenger(rt, case));
    }
}

#[test]
fn rounds_that_were_built_hold_when_they_are_checked(rt: HostRuntime) {
    assert_again::<F17, HostRuntime>(&rt, &BUILT);
    assert_again::<F65537, HostRuntime>(&rt, &LARGE_HONEST);
}

#[test]
fn altered_rounds_are_refuted(rt: HostRuntime) {
    assert_all::<F17, HostRuntime>(&rt, &ALTERED);
}

#[test]
fn a_lucky_challenge_is_named_with_what_shows_it(rt: HostRuntime) {
    assert_all::<F65537, HostRuntime>(&rt, &LUCKY);
}

#[test]
fn no_rounds_need_no_proof_and_no_seed(rt: HostRuntime) {
    assert_all::<F17, HostRuntime>(&rt, &POINTS);
}

#[test]
fn a_positive_difficulty_takes_a_witness_each_round(rt: HostRuntime) {
    assert_all::<F17, HostRuntime>(&rt, &WITNESSES);
}

#[test]
fn the_history_ends_with_the_test_that_fails(rt: HostRuntime) {
    assert_all::<F17, HostRuntime>(&rt, &FAILS);
}

#[test]
fn everything_comes_behind_the_history_that_there_was(rt: HostRuntime) {
    assert_all::<F17, HostRuntime>(&rt, &BEHIND);
}
