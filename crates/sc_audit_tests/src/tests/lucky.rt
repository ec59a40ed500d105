//! Which challenge let a false claim through. Figures are by hand over the integers modulo 65537,
//! and over the field of sixteen elements from a script that is no part of this, by sums over all
//! rows of the original table.
use super::reports::{LARGE_PREFIX, LARGE_SUFFIX, LUCKY_BATCH, LUCKY_ROUND};
use super::{
    Case, Figures, Finding, ONE_ROUND, PREFIX, Task, assert_all, assert_audit, challenger, job,
    statements,
};
use sc_constraints::{Constraint, Statements};
use sc_definitions::Event::{Draw, Word};
use sc_field::Field;
use sc_sixteen::Tower16;
use sc_small_fields::F65537;
use sc_table::VariableOrder;
use std::process::Abort;

// Behind the first round the claim is -4, where -16 is true. The second sends 12 - 29 X + X^2, and
// (7 + X) (-2 X) is true, which makes 3 (X - 1) (X - 4).
const SECOND: Case = Case {
    name: "a second round that made a false claim true",
    claims: &[(&[0, 1], 5)],
    task: Task::Check(&[(5, 1), (12, 1)], &[]),
    answer: Ok(Figures {
        claim: 5,
        rounds: &[(5, 1), (12, 1)],
        witnesses: &[],
        challenges: &[3, 4],
        residual: 65449,
        eval: 11,
        weight: 65529,
        finding: Finding::LuckyRound(1, &[12, 65522, 3], 2),
    }),
    events: &[Word(5), Word(1), Draw, Word(12), Word(1), Draw],
    ..LARGE_PREFIX
};

// The second round sends 8 - 17 X - 3 X^2 under -4, and (4 + 2 X) (3 - 3 X) is true, which makes
// (3 X + 1) (X - 4).
const SECOND_SUFFIX: Case = Case {
    name: "a second round in suffix order",
    claims: &[(&[0, 1], 5)],
    task: Task::Check(&[(5, 1), (8, 65534)], &[]),
    answer: Ok(Figures {
        claim: 5,
        rounds: &[(5, 1), (8, 65534)],
        witnesses: &[],
        challenges: &[3, 4],
        residual: 65429,
        eval: 12,
        weight: 65528,
        finding: Finding::LuckyRound(1, &[65533, 65526, 3], 2),
    }),
    events: &[Word(5), Word(1), Draw, Word(8), Word(65534), Draw],
    ..LARGE_SUFFIX
};

// The batched claim is true, and what the round sends is more than the true polynomial by
// (X - 5) (X - 4/9), so that its challenge is lucky too: the first one is named.
const BATCH_AND_ROUND: Case = Case {
    name: "two false claims whose batch is true, and a false round",
    task: Task::Check(&[(14567, 3)], &[]),
    answer: Ok(Figures {
        claim: 7,
        rounds: &[(14567, 3)],
        witnesses: &[],
        challenges: &[5],
        residual: 66,
        eval: 6,
        weight: 11,
        finding: Finding::LuckyBatch(&[3, 65536], 1),
    }),
    events: &[Word(14567), Word(3), Draw],
    ..LUCKY_BATCH
};

// One false claim after a claim that is there already, under the challenge 0: what it claims too
// much, 4, stands after a zero, since powers begin at 1.
const EXISTING: Case = Case {
    name: "a false claim behind an existing one, at the challenge 0",
    task: Task::Check(&[(0, 0)], &[]),
    answer: Ok(Figures {
        claim: 0,
        rounds: &[(0, 0)],
        witnesses: &[],
        challenges: &[2],
        residual: 0,
        eval: 3,
        weight: 0,
        finding: Finding::LuckyBatch(&[0, 4], 1),
    }),
    events: &[Word(0), Word(0), Draw],
    ..LUCKY_ROUND
};

static LARGE: [Case; 3] = [SECOND, SECOND_SUFFIX, BATCH_AND_ROUND];

// ---- Over the field of sixteen elements, whose sums are those of bits without a carry.

// Its value at 0 is claimed to be 5, but is 1.
pub(super) const ONE_VARIABLE: Case = Case {
    name: "a round over sixteen elements",
    table: &[1, 2],
    variables: 1,
    claims: &[(&[0], 5)],
    batching: 1,
    task: Task::Check(&[(9, 3)], &[]),
    draws: &[2],
    answer: Ok(Figures {
        claim: 5,
        rounds: &[(9, 3)],
        witnesses: &[],
        challenges: &[2],
        residual: 0,
        eval: 0,
        weight: 3,
        finding: Finding::LuckyRound(0, &[8, 4, 0], 1),
    }),
    seed: &ONE_ROUND,
    events: &[Word(9), Word(3), Draw],
    ..PREFIX
};

const UNLUCKY: Case = Case {
    name: "another round at the same challenge",
    task: Task::Check(&[(5, 3)], &[]),
    answer: Ok(Figures {
        claim: 5,
        rounds: &[(5, 3)],
        witnesses: &[],
        challenges: &[2],
        residual: 12,
        eval: 0,
        weight: 3,
        finding: Finding::Refuted,
    }),
    events: &[Word(5), Word(3), Draw],
    ..ONE_VARIABLE
};

// Two claims, of which the true values are 7 and 12. Their batch claims 11, and 10 is true.
pub(super) const TWO_VARIABLES: Case = Case {
    name: "the second round alone",
    claims: &[(&[2, 5], 1), (&[11, 3], 7)],
    task: Task::Check(&[(1, 1), (1, 13)], &[]),
    answer: Ok(Figures {
        claim: 11,
        rounds: &[(1, 1), (1, 13)],
        witnesses: &[],
        challenges: &[8, 12],
        residual: 4,
        eval: 8,
        weight: 3,
        finding: Finding::LuckyRound(1, &[13, 8, 1], 2),
    }),
    events: &[Word(1), Word(1), Draw, Word(1), Word(13), Draw],
    ..PREFIX
};

// Behind the first round all is honest.
const FIRST: Case = Case {
    name: "the first round alone",
    task: Task::Check(&[(1, 11), (12, 12)], &[]),
    answer: Ok(Figures {
        claim: 11,
        rounds: &[(1, 11), (12, 12)],
        witnesses: &[],
        challenges: &[8, 12],
        residual: 4,
        eval: 8,
        weight: 3,
        finding: Finding::LuckyRound(0, &[11, 9, 8], 2),
    }),
    events: &[Word(1), Word(11), Draw, Word(12), Word(12), Draw],
    ..TWO_VARIABLES
};

// What the second round sends is more than the true polynomial by 13 + 5 X + 5 X^2, which vanishes
// at 12.
const BOTH: Case = Case {
    name: "both rounds",
    task: Task::Check(&[(1, 11), (1, 9)], &[]),
    answer: Ok(Figures {
        claim: 11,
        rounds: &[(1, 11), (1, 9)],
        witnesses: &[],
        challenges: &[8, 12],
        residual: 4,
        eval: 8,
        weight: 3,
        finding: Finding::LuckyRound(0, &[11, 9, 8], 2),
    }),
    events: &[Word(1), Word(11), Draw, Word(1), Word(9), Draw],
    ..TWO_VARIABLES
};

pub(super) const TWO_SUFFIX: Case = Case {
    name: "the second round alone in suffix order",
    order: VariableOrder::Suffix,
    task: Task::Check(&[(1, 1), (1, 2)], &[]),
    answer: Ok(Figures {
        claim: 11,
        rounds: &[(1, 1), (1, 2)],
        witnesses: &[],
        challenges: &[8, 12],
        residual: 15,
        eval: 12,
        weight: 14,
        finding: Finding::LuckyRound(1, &[11, 7, 12], 2),
    }),
    events: &[Word(1), Word(1), Draw, Word(1), Word(2), Draw],
    ..TWO_VARIABLES
};

const FIRST_SUFFIX: Case = Case {
    name: "the first round alone in suffix order",
    task: Task::Check(&[(1, 15), (10, 14)], &[]),
    answer: Ok(Figures {
        claim: 11,
        rounds: &[(1, 15), (10, 14)],
        witnesses: &[],
        challenges: &[8, 12],
        residual: 15,
        eval: 12,
        weight: 14,
        finding: Finding::LuckyRound(0, &[5, 6, 7], 2),
    }),
    events: &[Word(1), Word(15), Draw, Word(10), Word(14), Draw],
    ..TWO_SUFFIX
};

// What the second round sends is more than the true polynomial by 11 + 15 X + 15 X^2.
const BOTH_SUFFIX: Case = Case {
    name: "both rounds in suffix order",
    task: Task::Check(&[(1, 15), (1, 1)], &[]),
    answer: Ok(Figures {
        claim: 11,
        rounds: &[(1, 15), (1, 1)],
        witnesses: &[],
        challenges: &[8, 12],
        residual: 15,
        eval: 12,
        weight: 14,
        finding: Finding::LuckyRound(0, &[5, 6, 7], 2),
    }),
    events: &[Word(1), Word(15), Draw, Word(1), Word(1), Draw],
    ..TWO_SUFFIX
};

// Three false claims, in two groups. What they claim too much makes 6 + 11 X + 2 X^2, which
// vanishes at 9 and 15. The rounds are those of an honest prover.
const BATCH: Case = Case {
    name: "a batch of three claims",
    further: &[(&[6, 13], 10)],
    batching: 9,
    task: Task::Check(&[(1, 1), (3, 14)], &[]),
    answer: Ok(Figures {
        claim: 11,
        rounds: &[(1, 1), (3, 14)],
        witnesses: &[],
        challenges: &[8, 12],
        residual: 8,
        eval: 8,
        weight: 1,
        finding: Finding::LuckyBatch(&[6, 11, 2], 2),
    }),
    events: &[Word(1), Word(1), Draw, Word(3), Word(14), Draw],
    ..TWO_VARIABLES
};

const BATCH_SUFFIX: Case = Case {
    name: "a batch of three claims in suffix order",
    order: VariableOrder::Suffix,
    task: Task::Check(&[(15, 11), (1, 9)], &[]),
    answer: Ok(Figures {
        claim: 11,
        rounds: &[(15, 11), (1, 9)],
        witnesses: &[],
        challenges: &[8, 12],
        residual: 11,
        eval: 12,
        weight: 12,
        finding: Finding::LuckyBatch(&[6, 11, 2], 2),
    }),
    events: &[Word(15), Word(11), Draw, Word(1), Word(9), Draw],
    ..BATCH
};

static SIXTEEN: [Case; 10] = [
    ONE_VARIABLE,
    UNLUCKY,
    TWO_VARIABLES,
    FIRST,
    BOTH,
    TWO_SUFFIX,
    FIRST_SUFFIX,
    BOTH_SUFFIX,
    BATCH,
    BATCH_SUFFIX,
];

static BEHIND: Case = EXISTING;

#[test]
fn the_first_lucky_challenge_is_named(rt: HostRuntime) {
    assert_all::<F65537, HostRuntime>(&rt, &LARGE);
    assert_all::<Tower16, HostRuntime>(&rt, &SIXTEEN);
}

#[test]
fn a_batch_behind_an_existing_claim_has_leading_zeros(rt: HostRuntime) {
    let mut job = job::<F65537, HostRuntime>(&rt, &BEHIND);
    let claims = statements(&rt, 1, BEHIND.claims);
    let groups = vec![in rt.alloc(); Statements::Eq(claims)].expect(&rt, "groups");
    job.constraint = Constraint::new_with_existing_claim(F65537::ZERO, 1, groups);
    let challenger = challenger::<F65537, HostRuntime>(&rt, &BEHIND);
    assert_audit::<F65537, HostRuntime>(&rt, &BEHIND, &job, challenger);
}
