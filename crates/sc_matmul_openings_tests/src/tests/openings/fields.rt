//! Cases over other fields, and under the hash challenger.
use super::checked::LUCKY_CLAIMS;
use super::figures::{
    BUILT, ONE_ROUND, TRUE_PROOF, TRUE_SHOWN, TWO_ROUNDS, TWO_TESTED_ROUNDS, TWO_VARIABLES,
};
use super::{Case, Claim, Found, Proof, Shown};
use sc_challenger::Event;

// The figures of the first two cases are those of elements of one part, modulo 257: the draws are 2
// and 3, each with the second part 0, so that elements have the number of their first part. Those
// of the others are reckoned by sums over all rows.
pub static IN_PARTS: [Case; 5] = [
    Case {
        name: "challenges of two parts",
        draws: &[2, 0, 3, 0],
        answer: Ok(Shown {
            weights: &[255, 6],
            ..TRUE_SHOWN
        }),
        events: 6 + ONE_ROUND + 10,
        first: &[
            Event::Word(1),
            Event::Word(0),
            Event::Word(4),
            Event::Word(0),
            Event::Draw,
            Event::Draw,
        ],
        last: &[
            Event::Draw,
            Event::Draw,
            Event::Word(4),
            Event::Word(0),
            Event::Word(6),
            Event::Word(0),
        ],
        ..BUILT
    },
    Case {
        name: "a lucky batch of two parts",
        claims: &LUCKY_CLAIMS,
        proof: Some(TRUE_PROOF),
        draws: &[2, 0, 3, 0],
        answer: Ok(Shown {
            weights: &[255, 6],
            found: Found::Batch(&[2, 256], 1),
            ..TRUE_SHOWN
        }),
        events: 6 + ONE_ROUND + 10,
        first: &[
            Event::Word(3),
            Event::Word(0),
            Event::Word(3),
            Event::Word(0),
            Event::Draw,
            Event::Draw,
        ],
        last: &[Event::Word(6), Event::Word(0)],
        ..BUILT
    },
    PARTS,
    // The values are false by -g and 1, where g = 2 + 3 u merges them.
    Case {
        name: "a lucky batch with second parts",
        claims: &[
            Claim {
                value: 779,
                ..PARTS_ROW
            },
            Claim {
                value: 49109,
                ..PARTS_NEXT_ROW
            },
        ],
        proof: Some(PARTS_PROOF),
        answer: Ok(Shown {
            found: Found::Batch(&[65533, 1], 1),
            ..PARTS_SHOWN
        }),
        first: &[Event::Word(8), Event::Word(3)],
        ..PARTS
    },
    // the first value is false by u
    Case {
        name: "a lucky round with second parts",
        claims: &[
            Claim {
                value: 1809,
                ..PARTS_ROW
            },
            PARTS_NEXT_ROW,
        ],
        proof: Some(PARTS_LUCKY_PROOF),
        answer: Ok(Shown {
            claim: 50344,
            proof: PARTS_LUCKY_PROOF,
            found: Found::Round(1, &[0, 28625, 38987], 2),
            ..PARTS_SHOWN
        }),
        first: &[Event::Word(10), Event::Word(7)],
        ..PARTS
    },
];

// The points are (2 + 3 u, 5) and (7, 1 + 11 u), and the draws 2 + 3 u, 5 + 7 u and 11 + 13 u.
const PARTS_ROW: Claim = Claim {
    table: 0,
    point: &[773, 5],
    successor: false,
    value: 1552,
};

const PARTS_NEXT_ROW: Claim = Claim {
    table: 1,
    point: &[7, 2828],
    successor: true,
    value: 49108,
};

const PARTS_PROOF: Proof = Proof {
    rounds: &[(988, 38688), (17255, 39197)],
    witnesses: &[],
    openings: &[6961, 43530],
};

const PARTS_LUCKY_PROOF: Proof = Proof {
    rounds: &[(988, 38688), (17255, 11878)],
    ..PARTS_PROOF
};

const PARTS_SHOWN: Shown = Shown {
    claim: 50087,
    proof: PARTS_PROOF,
    challenges: &[1804, 3352],
    residual: 62879,
    weights: &[31690, 27303],
    found: Found::Holds,
};

const PARTS: Case = Case {
    name: "second parts",
    variables: 2,
    tables: &[&[1, 2, 3, 4], &[5, 6, 7, 9]],
    claims: &[PARTS_ROW, PARTS_NEXT_ROW],
    draws: &[2, 3, 5, 7, 11, 13],
    answer: Ok(PARTS_SHOWN),
    events: 6 + TWO_ROUNDS + 16,
    first: &[
        Event::Word(10),
        Event::Word(6),
        Event::Word(21),
        Event::Word(191),
        Event::Draw,
        Event::Draw,
    ],
    last: &[
        Event::Draw,
        Event::Draw,
        Event::Word(22),
        Event::Word(27),
        Event::Word(97),
        Event::Word(169),
    ],
    ..BUILT
};

// At the challenge 1 the claim is 1 + 4 = 5, where a sum is the exclusive or. Round 0 sends 1 and
// (2 + 1) (0 + 1) + (4 + 3) (1 + 0) = 3 + 7 = 4. At the challenge 1 the openings are the second
// rows. The other figures are reckoned by sums over all rows.
pub static OF_SIXTEEN: [Case; 4] = [
    Case {
        name: "sixteen elements",
        draws: &[1, 1],
        answer: Ok(Shown {
            claim: 5,
            proof: Proof {
                rounds: &[(1, 4)],
                witnesses: &[],
                openings: &[2, 4],
            },
            challenges: &[1],
            residual: 4,
            weights: &[0, 1],
            found: Found::Holds,
        }),
        last: &[Event::Draw, Event::Word(2), Event::Word(4)],
        ..BUILT
    },
    SIXTEEN,
    // the values are false by the challenge 7 that merges them, and by 1
    Case {
        name: "a lucky batch of sixteen elements",
        claims: &[
            Claim {
                value: 4,
                ..SIXTEEN_ROW
            },
            Claim {
                value: 14,
                ..SIXTEEN_NEXT_ROW
            },
        ],
        proof: Some(SIXTEEN_PROOF),
        answer: Ok(Shown {
            found: Found::Batch(&[7, 1], 1),
            ..SIXTEEN_SHOWN
        }),
        first: &[Event::Word(4), Event::Word(14), Event::Draw],
        ..SIXTEEN
    },
    // the first value is false by 5
    Case {
        name: "a lucky round of sixteen elements",
        claims: &[
            Claim {
                value: 6,
                ..SIXTEEN_ROW
            },
            SIXTEEN_NEXT_ROW,
        ],
        proof: Some(SIXTEEN_LUCKY_PROOF),
        answer: Ok(Shown {
            claim: 13,
            proof: SIXTEEN_LUCKY_PROOF,
            found: Found::Round(0, &[0, 12, 9], 2),
            ..SIXTEEN_SHOWN
        }),
        first: &[Event::Word(6), Event::Word(15), Event::Draw],
        ..SIXTEEN
    },
];

const SIXTEEN_ROW: Claim = Claim {
    table: 0,
    point: &[6, 11],
    successor: false,
    value: 3,
};

const SIXTEEN_NEXT_ROW: Claim = Claim {
    table: 1,
    point: &[13, 2],
    successor: true,
    value: 15,
};

const SIXTEEN_PROOF: Proof = Proof {
    rounds: &[(11, 6), (13, 3)],
    witnesses: &[],
    openings: &[7, 1],
};

const SIXTEEN_LUCKY_PROOF: Proof = Proof {
    rounds: &[(11, 15), (13, 3)],
    ..SIXTEEN_PROOF
};

const SIXTEEN_SHOWN: Shown = Shown {
    claim: 8,
    proof: SIXTEEN_PROOF,
    challenges: &[9, 13],
    residual: 12,
    weights: &[12, 9],
    found: Found::Holds,
};

const SIXTEEN: Case = Case {
    name: "two rounds of sixteen elements",
    variables: 2,
    tables: &[&[1, 7, 12, 5], &[9, 3, 14, 8]],
    claims: &[SIXTEEN_ROW, SIXTEEN_NEXT_ROW],
    draws: &[7, 9, 13],
    answer: Ok(SIXTEEN_SHOWN),
    events: 3 + TWO_ROUNDS + 8,
    first: &[Event::Word(3), Event::Word(15), Event::Draw],
    last: &[Event::Draw, Event::Word(7), Event::Word(1)],
    ..BUILT
};

// The draws and the witnesses follow from the whole history, and so from the words of the seed. The
// figures are reckoned with SHA-256 of another program.
pub static HASHED: [Case; 2] = [
    HASH_BUILT,
    Case {
        name: "a proof under the hash challenger",
        proof: Some(HASH_PROOF),
        ..HASH_BUILT
    },
];

const HASH_PROOF: Proof = Proof {
    rounds: &[(2, 1451), (42815, 24956)],
    witnesses: &[38, 6],
    openings: &[17393],
};

const HASH_BUILT: Case = Case {
    name: "tests of 3 bits under the hash challenger",
    pow_bits: 3,
    answer: Ok(Shown {
        claim: 34950,
        proof: HASH_PROOF,
        challenges: &[36225, 10479],
        residual: 37484,
        weights: &[25651],
        found: Found::Holds,
    }),
    events: 3 + TWO_TESTED_ROUNDS + 11,
    last: &[
        Event::Word(6),
        Event::Test(3),
        Event::Draw,
        Event::Word(17393),
    ],
    ..TWO_VARIABLES
};

pub static HASHED_IN_PARTS: [Case; 2] = [
    HASH_PARTS_BUILT,
    Case {
        name: "a proof in parts under the hash challenger",
        proof: Some(HASH_PARTS_PROOF),
        ..HASH_PARTS_BUILT
    },
];

const HASH_PARTS_PROOF: Proof = Proof {
    rounds: &[(18569, 64635), (35259, 5637)],
    witnesses: &[11, 13],
    openings: &[8928, 6981],
};

const HASH_PARTS_BUILT: Case = Case {
    name: "parts under the hash challenger",
    pow_bits: 3,
    answer: Ok(Shown {
        claim: 32089,
        proof: HASH_PARTS_PROOF,
        challenges: &[1474, 6236],
        residual: 63588,
        weights: &[33529, 48491],
        found: Found::Holds,
    }),
    events: 6 + TWO_TESTED_ROUNDS + 20,
    last: &[
        Event::Word(190),
        Event::Word(34),
        Event::Word(42),
        Event::Word(27),
    ],
    ..PARTS
};
