//! The figures of the tests.
use super::{Case, Claim, Found, Proof, Shown};
use sc_challenger::Event;

// How many words the seed of one round has, without a test and with one, and that of two rounds.
pub const ONE_ROUND: usize = 248;

pub const ONE_TESTED_ROUND: usize = 318;

pub const TWO_ROUNDS: usize = 402;

pub const TWO_TESTED_ROUNDS: usize = 542;

// A claim on the first table, and one on the second. At the challenge 2 they are 1 + 2 * 4 = 9. The
// weights are 1 and 0 on the first table, 0 and 2 on the second.
//
// Round 0 sends 1 * 1 + 3 * 0 = 1 and (2 - 1) (0 - 1) + (4 - 3) (2 - 0) = 1. At the challenge 3 the
// tables are 1 + 3 = 4 and 3 + 3 = 6, the weights -2 and 6, and -2 * 4 + 6 * 6 = 28.
pub const FIRST: Claim = Claim {
    table: 0,
    point: &[0],
    successor: false,
    value: 1,
};

pub const SECOND: Claim = Claim {
    table: 1,
    point: &[1],
    successor: false,
    value: 4,
};

pub const TRUE_PROOF: Proof = Proof {
    rounds: &[(1, 1)],
    witnesses: &[],
    openings: &[4, 6],
};

pub const TRUE_SHOWN: Shown = Shown {
    claim: 9,
    proof: TRUE_PROOF,
    challenges: &[3],
    residual: 28,
    weights: &[65535, 6],
    found: Found::Holds,
};

pub const BUILT: Case = Case {
    name: "a claim on each of two tables",
    variables: 1,
    tables: &[&[1, 2], &[3, 4]],
    claims: &[FIRST, SECOND],
    pow_bits: 0,
    proof: None,
    draws: &[2, 3],
    good: &[],
    answer: Ok(TRUE_SHOWN),
    events: 3 + ONE_ROUND + 5,
    first: &[Event::Word(1), Event::Word(4), Event::Draw],
    last: &[
        Event::Word(1),
        Event::Word(1),
        Event::Draw,
        Event::Word(4),
        Event::Word(6),
    ],
};

// Of one row each: no round is played, and the one weight is 1, of next rows too.
pub const ONE_ROW: Case = Case {
    name: "no variable",
    variables: 0,
    tables: &[&[5]],
    claims: &[Claim {
        table: 0,
        point: &[],
        successor: false,
        value: 5,
    }],
    answer: Ok(Shown {
        claim: 5,
        proof: NO_ROUNDS,
        challenges: &[],
        residual: 5,
        weights: &[1],
        found: Found::Holds,
    }),
    events: 3,
    first: &[],
    last: &[Event::Word(5), Event::Draw, Event::Word(5)],
    ..BUILT
};

pub const NO_ROUNDS: Proof = Proof {
    rounds: &[],
    witnesses: &[],
    openings: &[5],
};

pub static PLAYED: [Case; 11] = [
    BUILT,
    ONE_ROW,
    Case {
        name: "no variable, and the next row",
        claims: &[Claim {
            table: 0,
            point: &[],
            successor: true,
            value: 5,
        }],
        ..ONE_ROW
    },
    Case {
        name: "a test with its least witness",
        pow_bits: 1,
        good: &[&[9, 5]],
        answer: Ok(Shown {
            proof: Proof {
                witnesses: &[5],
                ..TRUE_PROOF
            },
            ..TRUE_SHOWN
        }),
        events: 3 + ONE_TESTED_ROUND + 7,
        last: &[
            Event::Word(5),
            Event::Test(1),
            Event::Draw,
            Event::Word(4),
            Event::Word(6),
        ],
        ..BUILT
    },
    Case {
        name: "a test of 16 bits",
        pow_bits: 16,
        good: &[&[5]],
        answer: Ok(Shown {
            proof: Proof {
                witnesses: &[5],
                ..TRUE_PROOF
            },
            ..TRUE_SHOWN
        }),
        events: 3 + ONE_TESTED_ROUND + 7,
        last: &[
            Event::Word(5),
            Event::Test(16),
            Event::Draw,
            Event::Word(4),
            Event::Word(6),
        ],
        ..BUILT
    },
    // nothing is claimed, and the tables are opened
    Case {
        name: "no claims",
        claims: &[],
        answer: Ok(Shown {
            claim: 0,
            proof: Proof {
                rounds: &[(0, 0)],
                ..TRUE_PROOF
            },
            residual: 0,
            weights: &[0, 0],
            ..TRUE_SHOWN
        }),
        events: 1 + ONE_ROUND + 5,
        first: &[Event::Draw],
        last: &[Event::Draw, Event::Word(4), Event::Word(6)],
        ..BUILT
    },
    // The claim is 1 + 2 * 3 + 4 * 2 = 15, the weights are 1 and 4, and 2 and 0. Round 0 sends
    // 1 + 2 * 3 = 7 and 1 * 3 + 1 * -2 = 1; at 3 the weights are 10 and -4.
    Case {
        name: "a claim on the second table between two on the first",
        claims: &[
            FIRST,
            Claim {
                table: 1,
                point: &[0],
                successor: false,
                value: 3,
            },
            Claim {
                table: 0,
                point: &[1],
                successor: false,
                value: 2,
            },
        ],
        answer: Ok(Shown {
            claim: 15,
            proof: Proof {
                rounds: &[(7, 1)],
                ..TRUE_PROOF
            },
            residual: 16,
            weights: &[10, 65533],
            ..TRUE_SHOWN
        }),
        events: 4 + ONE_ROUND + 5,
        first: &[Event::Word(1), Event::Word(3), Event::Word(2), Event::Draw],
        last: &[
            Event::Word(7),
            Event::Word(1),
            Event::Draw,
            Event::Word(4),
            Event::Word(6),
        ],
        ..BUILT
    },
    // The row after the first is the second: the weights are 0 and 1.
    Case {
        name: "a next row of one table",
        tables: &[&[1, 2]],
        claims: &[Claim {
            table: 0,
            point: &[0],
            successor: true,
            value: 2,
        }],
        answer: Ok(Shown {
            claim: 2,
            proof: Proof {
                rounds: &[(0, 1)],
                witnesses: &[],
                openings: &[4],
            },
            residual: 12,
            weights: &[3],
            ..TRUE_SHOWN
        }),
        events: 2 + ONE_ROUND + 4,
        first: &[Event::Word(2), Event::Draw],
        last: &[Event::Word(0), Event::Word(1), Event::Draw, Event::Word(4)],
        ..BUILT
    },
    TWO_VARIABLES,
    Case {
        name: "two tests",
        pow_bits: 2,
        good: &[&[9, 5], &[7]],
        answer: Ok(Shown {
            proof: Proof {
                witnesses: &[5, 7],
                ..TWO_ROUNDS_PROOF
            },
            ..TWO_ROUNDS_SHOWN
        }),
        events: 3 + TWO_TESTED_ROUNDS + 11,
        last: &[Event::Word(7), Event::Test(2), Event::Draw, Event::Word(12)],
        ..TWO_VARIABLES
    },
    // reckoned by sums over all rows
    Case {
        name: "points that are no rows",
        variables: 2,
        tables: &[&[1, 2, 3, 4], &[5, 6, 7, 9]],
        claims: &[
            Claim {
                table: 0,
                point: &[2, 3],
                successor: true,
                value: 3,
            },
            Claim {
                table: 1,
                point: &[4, 5],
                successor: false,
                value: 38,
            },
            Claim {
                table: 1,
                point: &[6, 7],
                successor: true,
                value: 65526,
            },
        ],
        draws: &[2, 3, 5],
        answer: Ok(Shown {
            claim: 35,
            proof: Proof {
                rounds: &[(664, 65061), (59270, 2315)],
                witnesses: &[],
                openings: &[12, 31],
            },
            challenges: &[3, 5],
            residual: 6811,
            weights: &[46, 2316],
            found: Found::Holds,
        }),
        events: 4 + TWO_ROUNDS + 8,
        first: &[
            Event::Word(3),
            Event::Word(38),
            Event::Word(65526),
            Event::Draw,
        ],
        last: &[Event::Draw, Event::Word(12), Event::Word(31)],
        ..BUILT
    },
];

// The weights are 0, 1, 2 and 0: those of row 1, and twice those of the row after it. Round 0 sends
// 1 * 0 + 2 * 1 = 2 and 2 * 2 + 2 * -1 = 2. At 3 the rows are 7 and 8 with the weights 6 and -2;
// round 1 sends 42 and 1 * -8. At 5 the opening is 12 and the weight -34.
pub const TWO_VARIABLES: Case = Case {
    name: "a row and a next row of two variables",
    variables: 2,
    tables: &[&[1, 2, 3, 4]],
    claims: &[ROW, NEXT_ROW],
    draws: &[2, 3, 5],
    answer: Ok(TWO_ROUNDS_SHOWN),
    events: 3 + TWO_ROUNDS + 7,
    first: &[Event::Word(2), Event::Word(3), Event::Draw],
    last: &[
        Event::Word(42),
        Event::Word(65529),
        Event::Draw,
        Event::Word(12),
    ],
    ..BUILT
};

pub const ROW: Claim = Claim {
    table: 0,
    point: &[0, 1],
    successor: false,
    value: 2,
};

pub const NEXT_ROW: Claim = Claim {
    successor: true,
    value: 3,
    ..ROW
};

pub const TWO_ROUNDS_PROOF: Proof = Proof {
    rounds: &[(2, 2), (42, 65529)],
    witnesses: &[],
    openings: &[12],
};

pub const TWO_ROUNDS_SHOWN: Shown = Shown {
    claim: 8,
    proof: TWO_ROUNDS_PROOF,
    challenges: &[3, 5],
    residual: 65129,
    weights: &[65503],
    found: Found::Holds,
};
