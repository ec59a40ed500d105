//! The figures of the tests.
use super::{Case, Found, Proof, Shown};
use sc_challenger::Event;
use sc_product_audit::ProductError;

// How many words the seed of no rounds has, and those of two rounds without a test and with one.
const NO_ROUNDS: usize = 176;

const TWO_ROUNDS: usize = 484;

const TWO_TESTED_ROUNDS: usize = 624;

// The tables are 1 + 2 X + Y and 5 + 2 X + Y. Their product is 5, 12, 21 and 32 in its rows, 70 in
// sum.
//
// Round 0: with X = 0 the rows are 5 + 12 = 17 in sum, with X = 2 they are 45 + 60 = 105. At the
// challenge 3 the tables are 7 + Y and 11 + Y. Round 1: their product is 77 at 0 and 9 * 13 = 117
// at 2, and at the challenge 4 it is 11 * 15 = 165.
const TABLES: &[&[u64]] = &[&[1, 2, 3, 4], &[5, 6, 7, 8]];

const TRUE_PROOF: Proof = Proof {
    claimed: 70,
    rounds: &[&[17, 105], &[77, 117]],
    witnesses: &[],
};

const TRUE_SHOWN: Shown = Shown {
    proof: TRUE_PROOF,
    challenges: &[3, 4],
    residual: 165,
    product: 165,
    found: Found::Holds,
};

const BUILT: Case = Case {
    name: "two tables",
    tables: TABLES,
    pow_bits: 0,
    proof: None,
    draws: &[3, 4],
    good: &[],
    answer: Ok(TRUE_SHOWN),
    events: TWO_ROUNDS + 7,
    last: &[
        Event::Word(70),
        Event::Word(17),
        Event::Word(105),
        Event::Draw,
        Event::Word(77),
        Event::Word(117),
        Event::Draw,
    ],
};

const TESTED: Case = Case {
    name: "two tables with tests, each with its least witness",
    pow_bits: 1,
    good: &[&[9, 5], &[6]],
    answer: Ok(Shown {
        proof: Proof {
            witnesses: &[5, 6],
            ..TRUE_PROOF
        },
        ..TRUE_SHOWN
    }),
    events: TWO_TESTED_ROUNDS + 11,
    last: &[
        Event::Word(117),
        Event::Word(6),
        Event::Test(1),
        Event::Draw,
    ],
    ..BUILT
};

// A case that leaves the history empty.
const UNPLAYED: Case = Case {
    events: 0,
    last: &[],
    ..BUILT
};

pub(super) static PLAYED: [Case; 6] = [
    BUILT,
    TESTED,
    Case {
        name: "one table, of which a round sends its value at 0",
        tables: &[&[1, 2, 3, 4]],
        answer: Ok(Shown {
            proof: Proof {
                claimed: 10,
                rounds: &[&[3], &[7]],
                witnesses: &[],
            },
            challenges: &[3, 4],
            residual: 11,
            product: 11,
            found: Found::Holds,
        }),
        events: TWO_ROUNDS + 5,
        last: &[
            Event::Word(10),
            Event::Word(3),
            Event::Draw,
            Event::Word(7),
            Event::Draw,
        ],
        ..BUILT
    },
    Case {
        name: "no variables at a difficulty",
        tables: &[&[7], &[6]],
        pow_bits: 3,
        answer: Ok(Shown {
            proof: Proof {
                claimed: 42,
                rounds: &[],
                witnesses: &[],
            },
            challenges: &[],
            residual: 42,
            product: 42,
            found: Found::Holds,
        }),
        events: NO_ROUNDS + 1,
        last: &[Event::Word(42)],
        ..BUILT
    },
    Case {
        name: "no witness in the second round",
        pow_bits: 1,
        good: &[&[9, 5]],
        answer: Err(ProductError::NoWitness { round: 1 }),
        ..UNPLAYED
    },
    Case {
        name: "no witness in the first round",
        pow_bits: 1,
        answer: Err(ProductError::NoWitness { round: 0 }),
        ..UNPLAYED
    },
];

const GIVEN: Case = Case {
    name: "a proof",
    proof: Some(TRUE_PROOF),
    ..BUILT
};

const GIVEN_TESTED: Case = Case {
    name: "a proof with a witness that is not the least",
    proof: Some(Proof {
        witnesses: &[9, 6],
        ..TRUE_PROOF
    }),
    answer: Ok(Shown {
        proof: Proof {
            witnesses: &[9, 6],
            ..TRUE_PROOF
        },
        ..TRUE_SHOWN
    }),
    ..TESTED
};

// The second round's values 77, 96 and 118 are those of 77 + 35/2 Y + 3/2 Y^2, which is 171 at 4.
const STRAYING: Proof = Proof {
    rounds: &[&[17, 105], &[77, 118]],
    ..TRUE_PROOF
};

// The first round's values 20, 53 and 104 are those of 20 + 24 X + 9 X^2, and the true ones those
// of 17 + 28 X + 8 X^2: these are 3 - 4 X + X^2 less, which is 0 at 1 and at 3. With the second
// round 89, 84 and 95 the claim goes on from the true 173 to 89 + (84 - 89 - 8) 4 + 8 * 16 = 165.
const TURNED: Proof = Proof {
    claimed: 73,
    rounds: &[&[20, 104], &[89, 95]],
    witnesses: &[],
};

// Two tables of one variable, 1 + X and 3 + X, whose product is 3 + 4 X + X^2.
const SHORT: Case = Case {
    name: "a lucky challenge in the only round",
    tables: &[&[1, 2], &[3, 4]],
    proof: Some(SHORT_PROOF),
    draws: &[5],
    answer: Ok(Shown {
        proof: SHORT_PROOF,
        challenges: &[5],
        residual: 48,
        product: 48,
        found: Found::Lucky(0, &[5, 65536, 0], 1),
    }),
    events: NO_ROUNDS + 154 + 4,
    last: &[
        Event::Word(20),
        Event::Word(8),
        Event::Word(18),
        Event::Draw,
    ],
    ..BUILT
};

// The values 8, 12 and 18 are those of 8 + 3 X + X^2, 5 - X more than the true polynomial.
const SHORT_PROOF: Proof = Proof {
    claimed: 20,
    rounds: &[&[8, 18]],
    witnesses: &[],
};

pub(super) static CHECKED: [Case; 7] = [
    GIVEN,
    GIVEN_TESTED,
    Case {
        name: "a second round that strays",
        proof: Some(STRAYING),
        answer: Ok(Shown {
            proof: STRAYING,
            residual: 171,
            found: Found::Refuted,
            ..TRUE_SHOWN
        }),
        last: &[Event::Word(77), Event::Word(118), Event::Draw],
        ..GIVEN
    },
    Case {
        name: "a lucky challenge in the first of two rounds",
        proof: Some(TURNED),
        answer: Ok(Shown {
            proof: TURNED,
            found: Found::Lucky(0, &[3, 65533, 1], 2),
            ..TRUE_SHOWN
        }),
        last: &[Event::Word(89), Event::Word(95), Event::Draw],
        ..GIVEN
    },
    SHORT,
    // at 6 the values send 8 + 18 + 36, and the product is 7 * 9
    Case {
        name: "the same at another challenge",
        draws: &[6],
        answer: Ok(Shown {
            proof: SHORT_PROOF,
            challenges: &[6],
            residual: 62,
            product: 63,
            found: Found::Refuted,
        }),
        ..SHORT
    },
    Case {
        name: "a false sum without variables",
        tables: &[&[7], &[6]],
        proof: Some(Proof {
            claimed: 41,
            rounds: &[],
            witnesses: &[],
        }),
        answer: Ok(Shown {
            proof: Proof {
                claimed: 41,
                rounds: &[],
                witnesses: &[],
            },
            challenges: &[],
            residual: 41,
            product: 42,
            found: Found::Refuted,
        }),
        events: NO_ROUNDS + 1,
        last: &[Event::Word(41)],
        ..BUILT
    },
];

pub(super) static REFUSED: [Case; 12] = [
    Case {
        name: "no tables, and a difficulty above the bound",
        tables: &[],
        pow_bits: 17,
        answer: Err(ProductError::TableLength { len: 0 }),
        ..UNPLAYED
    },
    Case {
        name: "a first table of three rows",
        tables: &[&[1, 2, 3], &[3, 4]],
        answer: Err(ProductError::TableLength { len: 3 }),
        ..UNPLAYED
    },
    Case {
        name: "a second table of another length",
        tables: &[&[1, 2], &[3, 4], &[5]],
        answer: Err(ProductError::TableLength { len: 1 }),
        ..UNPLAYED
    },
    Case {
        name: "an empty table",
        tables: &[&[1], &[]],
        answer: Err(ProductError::TableLength { len: 0 }),
        ..UNPLAYED
    },
    Case {
        name: "a difficulty above the bound, and no rounds",
        pow_bits: 17,
        proof: Some(Proof {
            rounds: &[],
            ..TRUE_PROOF
        }),
        answer: Err(ProductError::Difficulty {
            bits: 17,
            bound: 16,
        }),
        ..UNPLAYED
    },
    Case {
        name: "one round for two variables, and a witness without a test",
        proof: Some(Proof {
            claimed: 70,
            rounds: &[&[17, 105]],
            witnesses: &[9],
        }),
        answer: Err(ProductError::RoundCountMismatch {
            expected: 2,
            actual: 1,
        }),
        ..UNPLAYED
    },
    Case {
        name: "a witness without a test, and a round of one value",
        proof: Some(Proof {
            claimed: 70,
            rounds: &[&[17], &[77, 117]],
            witnesses: &[9],
        }),
        answer: Err(ProductError::PowWitnessCountMismatch {
            expected: 0,
            actual: 1,
        }),
        ..UNPLAYED
    },
    Case {
        name: "one witness for two tests",
        pow_bits: 1,
        proof: Some(Proof {
            witnesses: &[9],
            ..TRUE_PROOF
        }),
        answer: Err(ProductError::PowWitnessCountMismatch {
            expected: 2,
            actual: 1,
        }),
        ..UNPLAYED
    },
    Case {
        name: "a second round of one value",
        proof: Some(Proof {
            rounds: &[&[17, 105], &[77]],
            ..TRUE_PROOF
        }),
        answer: Err(ProductError::PolyEvalCountMismatch {
            round: 1,
            expected: 2,
            actual: 1,
        }),
        events: TWO_ROUNDS + 4,
        last: &[
            Event::Word(70),
            Event::Word(17),
            Event::Word(105),
            Event::Draw,
        ],
        ..BUILT
    },
    Case {
        name: "a first round of three values",
        proof: Some(Proof {
            rounds: &[&[17, 105, 0], &[77, 117]],
            ..TRUE_PROOF
        }),
        answer: Err(ProductError::PolyEvalCountMismatch {
            round: 0,
            expected: 2,
            actual: 3,
        }),
        events: TWO_ROUNDS + 1,
        last: &[Event::Word(70)],
        ..BUILT
    },
    Case {
        name: "a second witness that fails",
        proof: Some(Proof {
            witnesses: &[9, 7],
            ..TRUE_PROOF
        }),
        answer: Err(ProductError::InvalidPowWitness {
            round: 1,
            difficulty: 1,
        }),
        events: TWO_TESTED_ROUNDS + 10,
        last: &[
            Event::Draw,
            Event::Word(77),
            Event::Word(117),
            Event::Word(7),
            Event::Test(1),
        ],
        ..TESTED
    },
    Case {
        name: "a first witness that fails before a round of one value",
        proof: Some(Proof {
            rounds: &[&[17, 105], &[77]],
            witnesses: &[6, 6],
            ..TRUE_PROOF
        }),
        answer: Err(ProductError::InvalidPowWitness {
            round: 0,
            difficulty: 1,
        }),
        events: TWO_TESTED_ROUNDS + 5,
        last: &[
            Event::Word(70),
            Event::Word(17),
            Event::Word(105),
            Event::Word(6),
            Event::Test(1),
        ],
        ..TESTED
    },
];

// Over the extension of 257 elements by u with u^2 = 3, of which a + b u has the number a + 257 b.
//
// The tables u + (1 - u) X and 2 + (u - 1) X have the product 2 u at 0, 1 + u at 1, and (2 - u) 2 u
// = 251 + 4 u at 2. At the challenge 5 + 7 u they are -16 + 3 u and 18 - 2 u, whose product is 208
// + 86 u.
const PARTED: Shown = Shown {
    proof: Proof {
        claimed: 772,
        rounds: &[&[514, 1279]],
        witnesses: &[],
    },
    challenges: &[1804],
    residual: 22310,
    product: 22310,
    found: Found::Holds,
};

// The figures of three tables are the model's. The challenges are 3 + 100 u and 4 + 200 u.
const THREE: Shown = Shown {
    proof: Proof {
        claimed: 251,
        rounds: &[&[73, 41, 87], &[159, 48392, 35642]],
        witnesses: &[],
    },
    challenges: &[25703, 51404],
    residual: 39919,
    product: 39919,
    found: Found::Holds,
};

const THREE_TURNED: Proof = Proof {
    claimed: 394,
    rounds: &[&[73, 41, 87], &[46249, 20720, 15459]],
    witnesses: &[],
};

pub(super) static IN_PARTS: [Case; 3] = [
    Case {
        name: "tables of elements with two parts",
        tables: &[&[257, 1], &[2, 258]],
        draws: &[5, 7],
        answer: Ok(PARTED),
        events: NO_ROUNDS + 154 + 8,
        last: &[
            Event::Word(3),
            Event::Word(0),
            Event::Word(2),
            Event::Word(251),
            Event::Word(4),
            Event::Draw,
            Event::Draw,
        ],
        ..BUILT
    },
    Case {
        name: "three tables",
        tables: &[&[1, 2, 3, 4], &[5, 6, 7, 8], &[250, 9, 10, 256]],
        draws: &[3, 100, 4, 200],
        answer: Ok(THREE),
        events: TWO_ROUNDS + 18,
        last: &[Event::Word(176), Event::Word(138), Event::Draw, Event::Draw],
        ..BUILT
    },
    Case {
        name: "a lucky challenge in the second round",
        tables: &[&[1, 2, 3, 4], &[5, 6, 7, 8], &[250, 9, 10, 256]],
        proof: Some(THREE_TURNED),
        draws: &[3, 100, 4, 200],
        answer: Ok(Shown {
            proof: THREE_TURNED,
            found: Found::Lucky(1, &[46090, 54640, 3951, 9], 1),
            ..THREE
        }),
        events: TWO_ROUNDS + 18,
        last: &[Event::Word(39), Event::Word(60), Event::Draw, Event::Draw],
        ..BUILT
    },
];

// Three tables of two variables at a difficulty of 8 bits; all of it is the model's.
const HASHED_PROOF: Proof = Proof {
    claimed: 812,
    rounds: &[&[165, 1545, 2979], &[48599, 51641, 54293]],
    witnesses: &[127, 2],
};

const HASHED_SHOWN: Shown = Shown {
    proof: HASHED_PROOF,
    challenges: &[382, 24206],
    residual: 63856,
    product: 63856,
    found: Found::Holds,
};

const HASHED_BUILD: Case = Case {
    name: "a build",
    tables: &[&[1, 2, 3, 4], &[5, 6, 7, 8], &[9, 10, 11, 13]],
    pow_bits: 8,
    answer: Ok(HASHED_SHOWN),
    ..BUILT
};

pub(super) static HASHED: [Case; 2] = [
    HASHED_BUILD,
    Case {
        name: "its proof",
        proof: Some(HASHED_PROOF),
        ..HASHED_BUILD
    },
];
