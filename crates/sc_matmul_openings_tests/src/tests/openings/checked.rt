//! The figures of tests on rounds and openings that are handed in.
use super::figures::{
    BUILT, FIRST, NEXT_ROW, NO_ROUNDS, ONE_ROUND, ONE_ROW, ROW, SECOND, TRUE_PROOF, TRUE_SHOWN,
    TWO_ROUNDS_PROOF, TWO_ROUNDS_SHOWN, TWO_VARIABLES,
};
use super::{Case, Claim, Found, Proof, Shown};
use sc_challenger::Event;

// The values 3 and 3 differ from the true ones by 2 and -1, and 2 - 2 = 0 at the challenge 2.
pub const LUCKY_CLAIMS: [Claim; 2] = [Claim { value: 3, ..FIRST }, Claim { value: 3, ..SECOND }];

// Only the first value is false.
pub const FALSE_CLAIMS: [Claim; 2] = [Claim { value: 2, ..FIRST }, SECOND];

const HANDED_IN: Case = Case {
    name: "the rounds and openings that are built",
    proof: Some(TRUE_PROOF),
    ..BUILT
};

const LUCKY_BATCH: Case = Case {
    name: "a lucky batch",
    claims: &LUCKY_CLAIMS,
    answer: Ok(Shown {
        found: Found::Batch(&[2, 65536], 1),
        ..TRUE_SHOWN
    }),
    first: &[Event::Word(3), Event::Word(3), Event::Draw],
    ..HANDED_IN
};

const OTHER_PROOF: Proof = Proof {
    openings: &[4, 7],
    ..TRUE_PROOF
};

// -2 * 7 + 6 * 7 = 28 is the residual, although neither opening is the table's value
const SAME_SUM: Proof = Proof {
    openings: &[7, 7],
    ..TRUE_PROOF
};

const LUCKY_PROOF: Proof = Proof {
    rounds: &[(1, 32769)],
    ..TRUE_PROOF
};

pub static CHECKED: [Case; 12] = [
    HANDED_IN,
    LUCKY_BATCH,
    Case {
        name: "another opening",
        proof: Some(OTHER_PROOF),
        answer: Ok(Shown {
            proof: OTHER_PROOF,
            found: Found::Refuted,
            ..TRUE_SHOWN
        }),
        last: &[Event::Word(4), Event::Word(7)],
        ..LUCKY_BATCH
    },
    Case {
        name: "other openings of the same sum",
        proof: Some(SAME_SUM),
        answer: Ok(Shown {
            proof: SAME_SUM,
            found: Found::Refuted,
            ..TRUE_SHOWN
        }),
        last: &[Event::Word(7), Event::Word(7)],
        ..LUCKY_BATCH
    },
    // The claim is 2 + 2 * 4 = 10, and the round sends 1 + (10 - 2 - 32769) X + 32769 X^2, which is
    // 1 + 3 * 24 + 6 * 32769 = 28 at 3. Less the true 1 + 6 X + X^2 it is -32767 X + 32768 X^2,
    // with the roots 0 and 3.
    Case {
        name: "a lucky round",
        claims: &FALSE_CLAIMS,
        proof: Some(LUCKY_PROOF),
        answer: Ok(Shown {
            claim: 10,
            proof: LUCKY_PROOF,
            found: Found::Round(0, &[0, 32770, 32768], 2),
            ..TRUE_SHOWN
        }),
        first: &[Event::Word(2), Event::Word(4), Event::Draw],
        last: &[
            Event::Word(32769),
            Event::Draw,
            Event::Word(4),
            Event::Word(6),
        ],
        ..HANDED_IN
    },
    // 1 + (10 - 2 - 1) 3 + 9 = 31
    Case {
        name: "a false claim under the true round",
        claims: &FALSE_CLAIMS,
        answer: Ok(Shown {
            claim: 10,
            residual: 31,
            found: Found::Refuted,
            ..TRUE_SHOWN
        }),
        first: &[Event::Word(2), Event::Word(4), Event::Draw],
        ..HANDED_IN
    },
    Case {
        name: "no variable, and a false claim",
        claims: &[Claim {
            table: 0,
            point: &[],
            successor: false,
            value: 6,
        }],
        proof: Some(NO_ROUNDS),
        answer: Ok(Shown {
            claim: 6,
            proof: NO_ROUNDS,
            challenges: &[],
            residual: 6,
            weights: &[1],
            found: Found::Refuted,
        }),
        last: &[Event::Word(6), Event::Draw, Event::Word(5)],
        ..ONE_ROW
    },
    // 2 - 2 = 0 at the challenge 2
    Case {
        name: "no variable, and a lucky batch",
        tables: &[&[5], &[7]],
        claims: &[
            Claim {
                table: 0,
                point: &[],
                successor: false,
                value: 7,
            },
            Claim {
                table: 1,
                point: &[],
                successor: true,
                value: 6,
            },
        ],
        proof: Some(NO_ROUNDS_OF_TWO),
        answer: Ok(Shown {
            claim: 19,
            proof: NO_ROUNDS_OF_TWO,
            challenges: &[],
            residual: 19,
            weights: &[1, 2],
            found: Found::Batch(&[2, 65536], 1),
        }),
        events: 5,
        last: &[
            Event::Word(7),
            Event::Word(6),
            Event::Draw,
            Event::Word(5),
            Event::Word(7),
        ],
        ..ONE_ROW
    },
    // the residual 0 is 0 * 4 + 0 * 7
    Case {
        name: "no claims, and another opening",
        claims: &[],
        proof: Some(Proof {
            rounds: &[(0, 0)],
            ..OTHER_PROOF
        }),
        answer: Ok(Shown {
            claim: 0,
            proof: Proof {
                rounds: &[(0, 0)],
                ..OTHER_PROOF
            },
            residual: 0,
            weights: &[0, 0],
            found: Found::Refuted,
            ..TRUE_SHOWN
        }),
        events: 1 + ONE_ROUND + 5,
        first: &[Event::Draw],
        last: &[Event::Draw, Event::Word(4), Event::Word(7)],
        ..HANDED_IN
    },
    // The values are false by 0, 2 and -1, and 2 X - X^2 has the roots 0 and 2.
    Case {
        name: "a lucky batch with a true claim",
        claims: &[
            FIRST,
            Claim {
                table: 1,
                point: &[0],
                successor: false,
                value: 5,
            },
            Claim {
                table: 0,
                point: &[1],
                successor: false,
                value: 1,
            },
        ],
        proof: Some(Proof {
            rounds: &[(7, 1)],
            ..TRUE_PROOF
        }),
        answer: Ok(Shown {
            claim: 15,
            proof: Proof {
                rounds: &[(7, 1)],
                ..TRUE_PROOF
            },
            residual: 16,
            weights: &[10, 65533],
            found: Found::Batch(&[0, 2, 65536], 2),
            ..TRUE_SHOWN
        }),
        events: 4 + ONE_ROUND + 5,
        first: &[Event::Word(1), Event::Word(5), Event::Word(1), Event::Draw],
        last: &[
            Event::Word(7),
            Event::Word(1),
            Event::Draw,
            Event::Word(4),
            Event::Word(6),
        ],
        ..HANDED_IN
    },
    LUCKY_SECOND_ROUND,
    // The first round leaves the true claim, and the second one, which is true, no lucky challenge.
    Case {
        name: "a lucky round before a true one",
        proof: Some(LUCKY_FIRST_PROOF),
        answer: Ok(Shown {
            claim: 9,
            proof: LUCKY_FIRST_PROOF,
            found: Found::Round(0, &[0, 32770, 32768], 2),
            ..TWO_ROUNDS_SHOWN
        }),
        last: &[
            Event::Word(42),
            Event::Word(65529),
            Event::Draw,
            Event::Word(12),
        ],
        ..LUCKY_SECOND_ROUND
    },
];

const NO_ROUNDS_OF_TWO: Proof = Proof {
    openings: &[5, 7],
    ..NO_ROUNDS
};

const LUCKY_SECOND_PROOF: Proof = Proof {
    rounds: &[(2, 2), (43735, 65529)],
    ..TWO_ROUNDS_PROOF
};

const LUCKY_FIRST_PROOF: Proof = Proof {
    rounds: &[(2, 32770), (42, 65529)],
    ..TWO_ROUNDS_PROOF
};

// The first value is 3, and the claim 3 + 2 * 3 = 9, which the true first round leaves false. The
// constant of the second one is such that it leaves the true residual at 5: what it sends more than
// the true one is 43693 + 43691 X, with the one root 5.
const LUCKY_SECOND_ROUND: Case = Case {
    name: "a lucky round after a true one",
    claims: &[Claim { value: 3, ..ROW }, NEXT_ROW],
    proof: Some(LUCKY_SECOND_PROOF),
    answer: Ok(Shown {
        claim: 9,
        proof: LUCKY_SECOND_PROOF,
        found: Found::Round(1, &[43693, 43691, 0], 1),
        ..TWO_ROUNDS_SHOWN
    }),
    first: &[Event::Word(3), Event::Word(3), Event::Draw],
    last: &[
        Event::Word(43735),
        Event::Word(65529),
        Event::Draw,
        Event::Word(12),
    ],
    ..TWO_VARIABLES
};
