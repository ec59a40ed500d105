//! The figures of the tests.
use super::{Case, Found, Proof, Shown, Sides};
use sc_challenger::Event;
use sc_matmul::MatmulError;

// How many words the seed of one round has, without a test and with one.
const ONE_ROUND: usize = 248;

const ONE_TESTED_ROUND: usize = 318;

// The product of [1 2; 3 4] and [5 6; 7 8] is [19 22; 43 50]. At the point 2 the claim is
// 19 + 2 * 22 + 4 * 43 + 8 * 50 = 635. The left table is 1 + 4 * 3 = 13 and 2 + 4 * 4 = 18, the
// right one 5 + 2 * 6 = 17 and 7 + 2 * 8 = 23.
//
// Round 0 sends 13 * 17 = 221 and (18 - 13) (23 - 17) = 30. At the challenge 3 the tables are
// 13 + 3 * 5 = 28 and 17 + 3 * 6 = 35, and their product is 980.
const LEFT: Sides = Sides {
    rows: 2,
    cols: 2,
    entries: &[1, 2, 3, 4],
};

const RIGHT: Sides = Sides {
    rows: 2,
    cols: 2,
    entries: &[5, 6, 7, 8],
};

const PRODUCT: Sides = Sides {
    rows: 2,
    cols: 2,
    entries: &[19, 22, 43, 50],
};

const TRUE_PROOF: Proof = Proof {
    rounds: &[(221, 30)],
    witnesses: &[],
};

const TRUE_SHOWN: Shown = Shown {
    point: 2,
    claim: 635,
    proof: TRUE_PROOF,
    challenges: &[3],
    residual: 980,
    left: 28,
    right: 35,
    found: Found::Holds,
};

const BUILT: Case = Case {
    name: "two matrices of two rows",
    left: LEFT,
    right: RIGHT,
    claimed: PRODUCT,
    pow_bits: 0,
    proof: None,
    draws: &[2, 3],
    good: &[],
    answer: Ok(TRUE_SHOWN),
    events: 13 + ONE_ROUND + 3,
    last: &[Event::Word(221), Event::Word(30), Event::Draw],
};

// Of one entry each: no round is played, and the tables are the two entries.
const ONE_ENTRY: Case = Case {
    name: "one entry each",
    left: Sides {
        rows: 1,
        cols: 1,
        entries: &[3],
    },
    right: Sides {
        rows: 1,
        cols: 1,
        entries: &[4],
    },
    claimed: Sides {
        rows: 1,
        cols: 1,
        entries: &[12],
    },
    answer: Ok(Shown {
        point: 2,
        claim: 12,
        proof: NO_ROUNDS,
        challenges: &[],
        residual: 12,
        left: 3,
        right: 4,
        found: Found::Holds,
    }),
    events: 4,
    last: &[Event::Word(3), Event::Word(4), Event::Word(12), Event::Draw],
    ..BUILT
};

const NO_ROUNDS: Proof = Proof {
    rounds: &[],
    witnesses: &[],
};

pub static PLAYED: [Case; 4] = [
    BUILT,
    ONE_ENTRY,
    Case {
        name: "a test with its least witness",
        pow_bits: 1,
        good: &[&[9, 5]],
        answer: Ok(Shown {
            proof: Proof {
                witnesses: &[5],
                ..TRUE_PROOF
            },
            ..TRUE_SHOWN
        }),
        events: 13 + ONE_TESTED_ROUND + 5,
        last: &[Event::Word(30), Event::Word(5), Event::Test(1), Event::Draw],
        ..BUILT
    },
    // The product of [1 2] and [5 6; 7 8] is [19 22], and the claim 19 + 2 * 22 = 63. The tables
    // are 1 and 2, and 17 and 23; at 3 they are 4 and 35.
    Case {
        name: "one row",
        left: Sides {
            rows: 1,
            cols: 2,
            entries: &[1, 2],
        },
        claimed: Sides {
            rows: 1,
            cols: 2,
            entries: &[19, 22],
        },
        answer: Ok(Shown {
            claim: 63,
            proof: Proof {
                rounds: &[(17, 6)],
                witnesses: &[],
            },
            residual: 140,
            left: 4,
            ..TRUE_SHOWN
        }),
        events: 9 + ONE_ROUND + 3,
        last: &[Event::Word(17), Event::Word(6), Event::Draw],
        ..BUILT
    },
];

// Each entry of the first row is one off, so that the point 2 does not tell.
const LUCKY_ENTRIES: Sides = Sides {
    entries: &[21, 21, 43, 50],
    ..PRODUCT
};

const FALSE_ENTRY: Sides = Sides {
    entries: &[20, 22, 43, 50],
    ..PRODUCT
};

const HANDED_IN: Case = Case {
    name: "the rounds that are built",
    proof: Some(TRUE_PROOF),
    ..BUILT
};

pub static CHECKED: [Case; 6] = [
    HANDED_IN,
    Case {
        name: "a lucky point",
        claimed: LUCKY_ENTRIES,
        answer: Ok(Shown {
            found: Found::Point(&[2, 65536, 0, 0], 1),
            ..TRUE_SHOWN
        }),
        ..HANDED_IN
    },
    // The round sends 221 and 65533, so that the claim after it is
    // 221 + (635 - 442 + 4) 3 - 4 * 9 = 776.
    Case {
        name: "another round",
        proof: Some(OTHER_PROOF),
        answer: Ok(Shown {
            proof: OTHER_PROOF,
            residual: 776,
            found: Found::Refuted,
            ..TRUE_SHOWN
        }),
        last: &[Event::Word(221), Event::Word(65533), Event::Draw],
        ..HANDED_IN
    },
    // The claim is 636, and the round sends 221 + (636 - 442 - 32798) X + 32798 X^2, which is
    // 221 + 6 * 32798 + 582 = 980 at 3, since 6 * 32798 is 177 and three times the field's size.
    // Less the true 221 + 163 X + 30 X^2 it is -32767 X + 32768 X^2, with the roots 0 and 3.
    Case {
        name: "a lucky round",
        claimed: FALSE_ENTRY,
        proof: Some(LUCKY_PROOF),
        answer: Ok(Shown {
            claim: 636,
            proof: LUCKY_PROOF,
            found: Found::Round(0, &[0, 32770, 32768], 2),
            ..TRUE_SHOWN
        }),
        last: &[Event::Word(221), Event::Word(32798), Event::Draw],
        ..HANDED_IN
    },
    // 221 + (636 - 442 - 30) 3 + 30 * 9 = 983
    Case {
        name: "a false entry under the true round",
        claimed: FALSE_ENTRY,
        answer: Ok(Shown {
            claim: 636,
            residual: 983,
            found: Found::Refuted,
            ..TRUE_SHOWN
        }),
        ..HANDED_IN
    },
    Case {
        name: "one entry each, and a false one",
        proof: Some(NO_ROUNDS),
        claimed: Sides {
            rows: 1,
            cols: 1,
            entries: &[13],
        },
        answer: Ok(Shown {
            point: 2,
            claim: 13,
            proof: NO_ROUNDS,
            challenges: &[],
            residual: 13,
            left: 3,
            right: 4,
            found: Found::Refuted,
        }),
        last: &[Event::Word(13), Event::Draw],
        ..ONE_ENTRY
    },
];

const OTHER_PROOF: Proof = Proof {
    rounds: &[(221, 65533)],
    witnesses: &[],
};

const LUCKY_PROOF: Proof = Proof {
    rounds: &[(221, 32798)],
    witnesses: &[],
};

// The history of a refusal before an event is empty.
const UNTOUCHED: Case = Case {
    events: 0,
    last: &[],
    ..BUILT
};

const WIDE: Sides = Sides {
    rows: 2,
    cols: 3,
    entries: &[],
};

const TALL: Sides = Sides {
    rows: 4,
    cols: 2,
    entries: &[],
};

const TWO_BITS: Case = Case {
    pow_bits: 2,
    good: &[&[5]],
    ..UNTOUCHED
};

pub static REFUSED: [Case; 17] = [
    Case {
        name: "three columns on the left, before all else",
        left: WIDE,
        right: WIDE,
        claimed: WIDE,
        pow_bits: 17,
        answer: Err(MatmulError::Side {
            which: 0,
            rows: 2,
            cols: 3,
        }),
        ..UNTOUCHED
    },
    Case {
        name: "no row on the left",
        left: Sides {
            rows: 0,
            cols: 2,
            entries: &[],
        },
        answer: Err(MatmulError::Side {
            which: 0,
            rows: 0,
            cols: 2,
        }),
        ..UNTOUCHED
    },
    Case {
        name: "256 rows on the right",
        right: Sides {
            rows: 256,
            cols: 2,
            entries: &[],
        },
        claimed: WIDE,
        answer: Err(MatmulError::Side {
            which: 1,
            rows: 256,
            cols: 2,
        }),
        ..UNTOUCHED
    },
    Case {
        name: "three columns of the claimed one, before the inner sides",
        right: TALL,
        claimed: WIDE,
        answer: Err(MatmulError::Side {
            which: 2,
            rows: 2,
            cols: 3,
        }),
        ..UNTOUCHED
    },
    Case {
        name: "other inner sides, before the outer ones",
        right: TALL,
        claimed: TALL,
        pow_bits: 17,
        answer: Err(MatmulError::Inner { left: 2, right: 4 }),
        ..UNTOUCHED
    },
    Case {
        name: "other outer sides, before the difficulty",
        claimed: TALL,
        pow_bits: 17,
        answer: Err(MatmulError::Outer { rows: 4, cols: 2 }),
        ..UNTOUCHED
    },
    Case {
        name: "too many columns of the claimed one",
        claimed: Sides {
            rows: 2,
            cols: 4,
            entries: &[],
        },
        answer: Err(MatmulError::Outer { rows: 2, cols: 4 }),
        ..UNTOUCHED
    },
    Case {
        name: "a difficulty above the greatest one, before a false entry",
        claimed: FALSE_ENTRY,
        pow_bits: 17,
        answer: Err(MatmulError::Difficulty {
            bits: 17,
            bound: 16,
        }),
        ..UNTOUCHED
    },
    Case {
        name: "a difficulty above the greatest one, before the counts",
        pow_bits: 17,
        proof: Some(NO_ROUNDS),
        answer: Err(MatmulError::Difficulty {
            bits: 17,
            bound: 16,
        }),
        ..UNTOUCHED
    },
    Case {
        name: "two false entries",
        claimed: LUCKY_ENTRIES,
        answer: Err(MatmulError::FalseEntry {
            row: 0,
            col: 0,
            claimed: 21,
            actual: 19,
        }),
        ..UNTOUCHED
    },
    Case {
        name: "a false entry in the last row",
        claimed: Sides {
            entries: &[19, 22, 44, 50],
            ..PRODUCT
        },
        answer: Err(MatmulError::FalseEntry {
            row: 1,
            col: 0,
            claimed: 44,
            actual: 43,
        }),
        ..UNTOUCHED
    },
    Case {
        name: "no round, before the witnesses",
        proof: Some(Proof {
            rounds: &[],
            witnesses: &[5],
        }),
        answer: Err(MatmulError::RoundCountMismatch {
            expected: 1,
            actual: 0,
        }),
        ..UNTOUCHED
    },
    Case {
        name: "a round for one entry each",
        proof: Some(TRUE_PROOF),
        answer: Err(MatmulError::RoundCountMismatch {
            expected: 0,
            actual: 1,
        }),
        events: 0,
        last: &[],
        ..ONE_ENTRY
    },
    Case {
        name: "a witness without a difficulty",
        proof: Some(Proof {
            witnesses: &[5],
            ..TRUE_PROOF
        }),
        answer: Err(MatmulError::PowWitnessCountMismatch {
            expected: 0,
            actual: 1,
        }),
        ..UNTOUCHED
    },
    Case {
        name: "a difficulty without a witness",
        proof: Some(TRUE_PROOF),
        answer: Err(MatmulError::PowWitnessCountMismatch {
            expected: 1,
            actual: 0,
        }),
        ..TWO_BITS
    },
    // the history ends with the test
    Case {
        name: "a witness that does not pass",
        proof: Some(Proof {
            witnesses: &[6],
            ..TRUE_PROOF
        }),
        answer: Err(MatmulError::InvalidPowWitness {
            round: 0,
            difficulty: 2,
        }),
        events: 13 + ONE_TESTED_ROUND + 4,
        last: &[
            Event::Word(221),
            Event::Word(30),
            Event::Word(6),
            Event::Test(2),
        ],
        ..TWO_BITS
    },
    Case {
        name: "no witness passes",
        good: &[&[]],
        answer: Err(MatmulError::NoWitness { round: 0 }),
        ..TWO_BITS
    },
];

// The same over elements of two parts: the draws are 2 and 3, each with the second part 0, and the
// figures are those above, modulo 257. Elements have the number of their first part then.
pub static IN_PARTS: [Case; 2] = [
    Case {
        name: "challenges of two parts",
        draws: &[2, 0, 3, 0],
        answer: Ok(Shown {
            claim: 121,
            residual: 209,
            ..TRUE_SHOWN
        }),
        events: 14 + ONE_ROUND + 6,
        last: &[
            Event::Word(221),
            Event::Word(0),
            Event::Word(30),
            Event::Word(0),
            Event::Draw,
            Event::Draw,
        ],
        ..BUILT
    },
    Case {
        name: "a lucky point of two parts",
        claimed: LUCKY_ENTRIES,
        proof: Some(TRUE_PROOF),
        draws: &[2, 0, 3, 0],
        answer: Ok(Shown {
            claim: 121,
            residual: 209,
            found: Found::Point(&[2, 256, 0, 0], 1),
            ..TRUE_SHOWN
        }),
        events: 14 + ONE_ROUND + 6,
        last: &[Event::Word(30), Event::Word(0), Event::Draw, Event::Draw],
        ..BUILT
    },
];
