//! Strategies against a false claim over the field of sixteen elements. Each list of challenges is
//! tried. How many let the claim through are figures from a script that is no part of this, by the
//! definition: what the rounds leave of the claim is the table's value times the weights'.
use super::lucky::{ONE_VARIABLE, TWO_SUFFIX, TWO_VARIABLES};
use super::{Case, Pair, elements, job, messages};
use sc_audit::laws::false_claim_lists;
use sc_audit::{Mode, Verdict, audit};
use sc_challenger::ScriptedChallenger;
use sc_rounds::SumcheckData;
use sc_sixteen::Tower16;
use std::process::Abort;

// A prover of the claim of a case, which is false, by its strategy: what it sends first, and then
// after each first challenge; it sends zeros where that says nothing. And how many lists of
// challenges let the claim through by the first round, and how many by the second.
#[derive(Clone, Copy)]
struct FalseProver {
    name: &'static str,
    case: Case,
    first: Pair,
    then: &'static [Pair],
    through: (u64, u64),
}

static ONE: [FalseProver; 4] = [
    FalseProver {
        name: "zeros",
        case: ONE_VARIABLE,
        first: (0, 0),
        then: &[],
        through: (0, 0),
    },
    FalseProver {
        name: "a round with one root",
        case: ONE_VARIABLE,
        first: (9, 3),
        then: &[],
        through: (1, 0),
    },
    FalseProver {
        name: "the rounds of the table 5, 2, of which the claim is true",
        case: ONE_VARIABLE,
        first: (5, 7),
        then: &[],
        through: (1, 0),
    },
    // The most of all 256 pairs.
    FalseProver {
        name: "as many as can be",
        case: ONE_VARIABLE,
        first: (0, 1),
        then: &[],
        through: (2, 0),
    },
];

const ZEROS: FalseProver = FalseProver {
    name: "zeros",
    case: TWO_VARIABLES,
    first: (0, 0),
    then: &[],
    through: (0, 16),
};

const NEVER: FalseProver = FalseProver {
    name: "one pair, which no list lets through",
    case: TWO_VARIABLES,
    first: (14, 1),
    then: &[(14, 1); 16],
    through: (0, 0),
};

const CONSTANT: FalseProver = FalseProver {
    name: "one pair",
    case: TWO_VARIABLES,
    first: (7, 4),
    then: &[(7, 4); 16],
    through: (4, 24),
};

const BY_CHALLENGE: FalseProver = FalseProver {
    name: "the challenge r and 15 - r",
    case: TWO_VARIABLES,
    first: (0, 5),
    then: &[
        (0, 15),
        (1, 14),
        (2, 13),
        (3, 12),
        (4, 11),
        (5, 10),
        (6, 9),
        (7, 8),
        (8, 7),
        (9, 6),
        (10, 5),
        (11, 4),
        (12, 3),
        (13, 2),
        (14, 1),
        (15, 0),
    ],
    through: (2, 16),
};

const OTHER_TABLE: FalseProver = FalseProver {
    name: "the rounds of the table 13, 14, 15, 9, of which the batched claim is true",
    case: TWO_VARIABLES,
    first: (11, 12),
    then: &[
        (10, 0),
        (15, 8),
        (4, 11),
        (1, 3),
        (0, 2),
        (5, 10),
        (14, 9),
        (11, 1),
        (11, 0),
        (14, 8),
        (5, 11),
        (0, 3),
        (1, 2),
        (4, 10),
        (15, 9),
        (10, 1),
    ],
    through: (18, 26),
};

// A first pair with two roots; after these the true rounds, and else pairs with two roots. No
// strategy has more lists.
const MOST: FalseProver = FalseProver {
    name: "as many as can be",
    case: TWO_VARIABLES,
    first: (0, 5),
    then: &[
        (0, 1),
        (0, 0),
        (0, 1),
        (0, 0),
        (0, 0),
        (0, 0),
        (0, 1),
        (7, 7),
        (0, 3),
        (0, 1),
        (0, 0),
        (0, 1),
        (0, 5),
        (0, 0),
        (0, 0),
        (0, 11),
    ],
    through: (32, 28),
};

const OTHER_SUFFIX: FalseProver = FalseProver {
    name: "the same rounds of another table in suffix order",
    case: TWO_SUFFIX,
    first: (5, 8),
    then: &[
        (10, 4),
        (1, 8),
        (7, 7),
        (12, 11),
        (13, 0),
        (6, 12),
        (0, 3),
        (11, 15),
        (3, 15),
        (8, 3),
        (14, 12),
        (5, 0),
        (4, 11),
        (15, 7),
        (9, 8),
        (2, 4),
    ],
    through: (16, 28),
};

const MOST_SUFFIX: FalseProver = FalseProver {
    name: "as many as can be in suffix order",
    case: TWO_SUFFIX,
    first: (0, 1),
    then: &[
        (0, 0),
        (0, 3),
        (0, 3),
        (0, 0),
        (0, 1),
        (0, 2),
        (0, 1),
        (0, 4),
        (0, 0),
        (0, 0),
        (0, 0),
        (15, 0),
        (9, 6),
        (0, 6),
        (0, 2),
        (0, 1),
    ],
    through: (32, 28),
};

const IN_THE_OTHER_ORDER: FalseProver = FalseProver {
    name: "the most in prefix order, in suffix order",
    case: TWO_SUFFIX,
    through: (0, 15),
    ..MOST
};

static TWO: [FalseProver; 9] = [
    ZEROS,
    NEVER,
    CONSTANT,
    BY_CHALLENGE,
    OTHER_TABLE,
    MOST,
    OTHER_SUFFIX,
    MOST_SUFFIX,
    IN_THE_OTHER_ORDER,
];

// The challenges of a list, by its number: the digits to the base 16, the lowest first.
fn challenges_of<R: Abort + AllocGlobal>(rt: &R, variables: usize, number: u64) -> Vec<u64> {
    let mut challenges = Vec::new(rt.alloc());
    let mut left = number;
    for _ in 0..variables {
        challenges.push(left % 16).expect(rt, "a challenge");
        left /= 16;
    }
    challenges
}

// What a prover sends after a first challenge.
fn second(prover: &FalseProver, first: u64) -> Pair {
    match prover.then.get(first as usize) {
        Some(pair) => *pair,
        None => (0, 0),
    }
}

// What a prover sends against these challenges, of which there are one or two.
fn rounds_against<R: Abort + AllocGlobal>(
    rt: &R,
    prover: &FalseProver,
    challenges: &[u64],
) -> SumcheckData<Tower16, Tower16> {
    let mut pairs = Vec::new(rt.alloc());
    pairs.push(prover.first).expect(rt, "a pair");
    if challenges.len() == 2 {
        pairs
            .push(second(prover, challenges[0]))
            .expect(rt, "a pair");
    }
    SumcheckData {
        polynomial_evaluations: messages(rt, pairs.as_slice()),
        pow_witnesses: Vec::new(rt.alloc()),
    }
}

// The verdict on what a prover sends against a list of challenges, by its number.
fn verdict_on<R: Abort + AllocGlobal>(
    rt: &R,
    prover: &FalseProver,
    number: u64,
) -> Verdict<Tower16> {
    let mut job = job::<Tower16, R>(rt, &prover.case);
    let challenges = challenges_of(rt, prover.case.variables, number);
    job.mode = Mode::Check(Some(rounds_against(rt, prover, challenges.as_slice())));
    let draws = elements(rt, challenges.as_slice());
    let mut challenger = ScriptedChallenger::new(rt.alloc(), draws, Vec::new(rt.alloc()));
    let report = audit::<Tower16, Tower16, Tower16, ScriptedChallenger<Tower16>>(
        rt.alloc(),
        &job,
        &mut challenger,
    ).expect(rt, "a report");
    report.verdict
}

// How many lists of challenges let the claim through by the first round, and by the second.
fn through<R: Abort + AllocGlobal>(rt: &R, prover: &FalseProver, lists: u64) -> (u64, u64) {
    let mut first: u64 = 0;
    let mut second: u64 = 0;
    for number in 0..lists {
        match verdict_on(rt, prover, number) {
            Verdict::Refuted => {}
            Verdict::LuckyRound { round, .. } => {
                if round == 0 {
                    first = first.saturating_add(1);
                } else {
                    second = second.saturating_add(1);
                }
            }
            _ => panic!(rt; "a false claim that holds, or a lucky batch"),
        }
    }
    (first, second)
}

// Asserts how many of so many lists let the claim through, and that these are no more than a bound.
fn assert_through<R: Abort + AllocGlobal>(rt: &R, provers: &[FalseProver], lists: u64, bound: u64) {
    for prover in provers {
        let (first, second) = through(rt, prover, lists);
        let name = prover.name;
        assert!(rt; (first, second) == prover.through, "{name}");
        assert!(rt; first.saturating_add(second) <= bound, "{name}: bound");
    }
}

// At most 2 n 16^(n-1) of the 16^n lists, for n variables.
#[test]
fn as_many_lists_let_a_false_claim_through_as_the_definition_says(rt: HostRuntime) {
    false_claim_lists::<Tower16>();
    assert_through(&rt, &ONE, 16, 2);
    assert_through(&rt, &TWO, 256, 64);
}
