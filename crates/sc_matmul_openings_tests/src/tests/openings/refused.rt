//! Tables, claims and proofs that are refused.
use super::checked::{FALSE_CLAIMS, LUCKY_CLAIMS};
use super::figures::{
    BUILT, FIRST, NO_ROUNDS, ONE_ROW, ONE_TESTED_ROUND, SECOND, TRUE_PROOF, TWO_ROUNDS_PROOF,
    TWO_TESTED_ROUNDS, TWO_VARIABLES,
};
use super::{Case, Claim, Proof};
use sc_challenger::Event;
use sc_openings::MergeError;

// The history of a refusal before an event is empty.
pub const UNTOUCHED: Case = Case {
    events: 0,
    first: &[],
    last: &[],
    ..BUILT
};

const NO_TABLE: Claim = Claim {
    table: 2,
    point: &[0],
    successor: false,
    value: 1,
};

const NO_COORDINATE: Claim = Claim {
    point: &[],
    ..FIRST
};

const TWO_COORDINATES: Claim = Claim {
    point: &[0, 1],
    successor: true,
    ..SECOND
};

const TWO_BITS: Case = Case {
    pow_bits: 2,
    good: &[&[5]],
    ..UNTOUCHED
};

pub static REFUSED: [Case; 24] = [
    Case {
        name: "17 variables",
        variables: 17,
        tables: &[&[1, 2], &[3]],
        claims: &[NO_TABLE],
        answer: Err(MergeError::TableLength { table: 0, len: 2 }),
        ..UNTOUCHED
    },
    Case {
        name: "the most variables that a number can tell",
        variables: usize::MAX,
        answer: Err(MergeError::TableLength { table: 0, len: 2 }),
        ..UNTOUCHED
    },
    Case {
        name: "no row",
        variables: 0,
        tables: &[&[5], &[]],
        answer: Err(MergeError::TableLength { table: 1, len: 0 }),
        ..UNTOUCHED
    },
    Case {
        name: "a length of the second table, before all claims",
        tables: &[&[1, 2], &[3], &[]],
        claims: &[NO_TABLE, NO_COORDINATE],
        pow_bits: 17,
        answer: Err(MergeError::TableLength { table: 1, len: 1 }),
        ..UNTOUCHED
    },
    Case {
        name: "a claim on no table, before an arity",
        claims: &[NO_COORDINATE, NO_TABLE, NO_TABLE],
        pow_bits: 17,
        answer: Err(MergeError::ClaimTable { claim: 1, table: 2 }),
        ..UNTOUCHED
    },
    Case {
        name: "two coordinates, before the difficulty",
        claims: &[FIRST, TWO_COORDINATES, NO_COORDINATE],
        pow_bits: 17,
        answer: Err(MergeError::ClaimArity {
            claim: 1,
            expected: 1,
            actual: 2,
        }),
        ..UNTOUCHED
    },
    Case {
        name: "no coordinate",
        claims: &[NO_COORDINATE],
        answer: Err(MergeError::ClaimArity {
            claim: 0,
            expected: 1,
            actual: 0,
        }),
        ..UNTOUCHED
    },
    Case {
        name: "a difficulty above the greatest one, before a false claim",
        claims: &FALSE_CLAIMS,
        pow_bits: 17,
        answer: Err(MergeError::Difficulty {
            bits: 17,
            bound: 16,
        }),
        ..UNTOUCHED
    },
    Case {
        name: "a difficulty above the greatest one, before the counts",
        pow_bits: 17,
        proof: Some(NO_ROUNDS),
        answer: Err(MergeError::Difficulty {
            bits: 17,
            bound: 16,
        }),
        ..UNTOUCHED
    },
    Case {
        name: "two false claims",
        claims: &LUCKY_CLAIMS,
        answer: Err(MergeError::FalseClaim {
            claim: 0,
            claimed: 3,
            actual: 1,
        }),
        ..UNTOUCHED
    },
    Case {
        name: "a false next row",
        claims: &[
            FIRST,
            Claim {
                table: 1,
                point: &[0],
                successor: true,
                value: 3,
            },
        ],
        answer: Err(MergeError::FalseClaim {
            claim: 1,
            claimed: 3,
            actual: 4,
        }),
        ..UNTOUCHED
    },
    Case {
        name: "a false claim, before a round without a witness",
        claims: &FALSE_CLAIMS,
        good: &[&[]],
        answer: Err(MergeError::FalseClaim {
            claim: 0,
            claimed: 2,
            actual: 1,
        }),
        ..TWO_BITS
    },
    Case {
        name: "three openings",
        proof: Some(Proof {
            openings: &[4, 6, 0],
            ..TRUE_PROOF
        }),
        answer: Err(MergeError::OpeningCount {
            expected: 2,
            actual: 3,
        }),
        ..UNTOUCHED
    },
    Case {
        name: "one opening, before the rounds",
        proof: Some(NO_ROUNDS),
        answer: Err(MergeError::OpeningCount {
            expected: 2,
            actual: 1,
        }),
        ..UNTOUCHED
    },
    Case {
        name: "no round, before the witnesses",
        proof: Some(Proof {
            rounds: &[],
            witnesses: &[5],
            ..TRUE_PROOF
        }),
        answer: Err(MergeError::RoundCountMismatch {
            expected: 1,
            actual: 0,
        }),
        ..UNTOUCHED
    },
    Case {
        name: "two rounds, before the witnesses",
        proof: Some(Proof {
            rounds: &[(1, 1), (1, 1)],
            ..TRUE_PROOF
        }),
        answer: Err(MergeError::RoundCountMismatch {
            expected: 1,
            actual: 2,
        }),
        ..TWO_BITS
    },
    Case {
        name: "a round for no variable",
        proof: Some(Proof {
            rounds: &[(1, 1)],
            ..NO_ROUNDS
        }),
        answer: Err(MergeError::RoundCountMismatch {
            expected: 0,
            actual: 1,
        }),
        events: 0,
        first: &[],
        last: &[],
        ..ONE_ROW
    },
    Case {
        name: "a witness without a difficulty",
        proof: Some(Proof {
            witnesses: &[5],
            ..TRUE_PROOF
        }),
        answer: Err(MergeError::PowWitnessCountMismatch {
            expected: 0,
            actual: 1,
        }),
        ..UNTOUCHED
    },
    Case {
        name: "a difficulty without a witness",
        proof: Some(TRUE_PROOF),
        answer: Err(MergeError::PowWitnessCountMismatch {
            expected: 1,
            actual: 0,
        }),
        ..TWO_BITS
    },
    Case {
        name: "two witnesses, before the test of the first",
        proof: Some(Proof {
            witnesses: &[6, 6],
            ..TRUE_PROOF
        }),
        answer: Err(MergeError::PowWitnessCountMismatch {
            expected: 1,
            actual: 2,
        }),
        ..TWO_BITS
    },
    // the history ends with the test
    Case {
        name: "a witness that does not pass",
        proof: Some(Proof {
            witnesses: &[6],
            ..TRUE_PROOF
        }),
        answer: Err(MergeError::InvalidPowWitness {
            round: 0,
            difficulty: 2,
        }),
        events: 3 + ONE_TESTED_ROUND + 4,
        first: &[Event::Word(1), Event::Word(4), Event::Draw],
        last: &[
            Event::Word(1),
            Event::Word(1),
            Event::Word(6),
            Event::Test(2),
        ],
        ..TWO_BITS
    },
    Case {
        name: "no witness passes",
        good: &[&[]],
        answer: Err(MergeError::NoWitness { round: 0 }),
        ..TWO_BITS
    },
    Case {
        name: "a witness of the second round that does not pass",
        proof: Some(Proof {
            witnesses: &[5, 6],
            ..TWO_ROUNDS_PROOF
        }),
        answer: Err(MergeError::InvalidPowWitness {
            round: 1,
            difficulty: 2,
        }),
        events: 3 + TWO_TESTED_ROUNDS + 9,
        last: &[
            Event::Word(42),
            Event::Word(65529),
            Event::Word(6),
            Event::Test(2),
        ],
        ..TWO_TESTS
    },
    Case {
        name: "no witness passes in the second round",
        good: &[&[5], &[]],
        answer: Err(MergeError::NoWitness { round: 1 }),
        events: 0,
        first: &[],
        last: &[],
        ..TWO_TESTS
    },
];

const TWO_TESTS: Case = Case {
    pow_bits: 2,
    good: &[&[5], &[7]],
    ..TWO_VARIABLES
};
