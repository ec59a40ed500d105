//! As many tables, claims and variables as there may be, and more variables. The figures are
//! reckoned by sums over all rows.
use super::figures::{BUILT, ONE_ROUND, TRUE_SHOWN};
use super::refused::UNTOUCHED;
use super::{Case, Claim, Found, Proof, Shown, assert_answer, audited, claims, tables};
use sc_challenger::Event;
use sc_field::{Field, NoMemory};
use sc_openings::{MergeError, OpeningClaim};
use sc_small_fields::F65537;
use sc_tests_common::{of, point as point_of, scripted};
use std::alloc::Global;
use std::process::Abort;

// The openings of 64 tables, of which number j has the rows j and 3 j + 1, at 3.
const OPENINGS: [u64; 64] = [
    3, 10, 17, 24, 31, 38, 45, 52, 59, 66, 73, 80, 87, 94, 101, 108, 115, 122, 129, 136, 143, 150,
    157, 164, 171, 178, 185, 192, 199, 206, 213, 220, 227, 234, 241, 248, 255, 262, 269, 276, 283,
    290, 297, 304, 311, 318, 325, 332, 339, 346, 353, 360, 367, 374, 381, 388, 395, 402, 409, 416,
    423, 430, 437, 444,
];

// The weights at 3 where the claims are merged by the powers of 2.
const WEIGHTS: [u64; 64] = [
    8, 6, 72, 184, 48, 1056, 2432, 384, 12288, 27136, 3072, 63487, 16380, 24576, 32749, 32727,
    65534, 65351, 65145, 65513, 63809, 61921, 65345, 49793, 32769, 64001, 55299, 34821, 53249,
    57364, 32808, 32770, 168, 346, 12, 1464, 3008, 96, 12672, 25984, 768, 43519, 26621, 6144,
    16370, 8163, 49152, 32647, 65289, 65531, 64505, 63433, 65489, 56801, 47745, 65153, 57346,
    46595, 62465, 34826, 49172, 40961, 32848, 32930,
];

const TABLES: Case = Case {
    name: "64 tables, with a claim on each",
    answer: Ok(Shown {
        claim: 43486,
        proof: Proof {
            rounds: &[(63311, 21179)],
            witnesses: &[],
            openings: &OPENINGS,
        },
        challenges: &[3],
        residual: 6514,
        weights: &WEIGHTS,
        found: Found::Holds,
    }),
    events: 65 + ONE_ROUND + 67,
    first: &[Event::Word(2), Event::Word(4), Event::Word(22)],
    last: &[Event::Word(430), Event::Word(437), Event::Word(444)],
    ..BUILT
};

const CLAIMS: Case = Case {
    name: "4096 claims on two tables",
    answer: Ok(Shown {
        claim: 25831,
        proof: Proof {
            rounds: &[(65303, 51662)],
            witnesses: &[],
            openings: &[4, 6],
        },
        residual: 60950,
        weights: &[29305, 34313],
        ..TRUE_SHOWN
    }),
    events: 4097 + ONE_ROUND + 5,
    first: &[Event::Word(2), Event::Word(4), Event::Word(3)],
    last: &[Event::Draw, Event::Word(4), Event::Word(6)],
    ..BUILT
};

// Entry i of the table is i.
const ROWS: Case = Case {
    name: "16 variables",
    variables: 16,
    claims: &[
        Claim {
            table: 0,
            point: &[3, 1, 4, 1, 5, 9, 2, 6, 5, 3, 5, 8, 9, 7, 9, 3],
            successor: false,
            value: 43735,
        },
        Claim {
            table: 0,
            point: &[2, 7, 1, 8, 2, 8, 1, 8, 2, 8, 4, 5, 9, 0, 4, 5],
            successor: true,
            value: 40483,
        },
    ],
    draws: &[
        2, 3, 5, 7, 11, 13, 17, 19, 23, 29, 31, 37, 41, 43, 47, 53, 59,
    ],
    answer: Ok(Shown {
        claim: 59164,
        proof: Proof {
            rounds: &[
                (28170, 32763),
                (45732, 16329),
                (24351, 57170),
                (18617, 50963),
                (37188, 44423),
                (61104, 62793),
                (57191, 22021),
                (46942, 29797),
                (30456, 19431),
                (5399, 65221),
                (59620, 43682),
                (16452, 26780),
                (51784, 12480),
                (49907, 23860),
                (1666, 3846),
                (25757, 14226),
            ],
            witnesses: &[],
            openings: &[22820],
        },
        challenges: &[3, 5, 7, 11, 13, 17, 19, 23, 29, 31, 37, 41, 43, 47, 53, 59],
        residual: 4651,
        weights: &[43300],
        found: Found::Holds,
    }),
    events: 3 + SIXTEEN_ROUNDS + 49,
    first: &[Event::Word(43735), Event::Word(40483), Event::Draw],
    last: &[
        Event::Word(25757),
        Event::Word(14226),
        Event::Draw,
        Event::Word(22820),
    ],
    ..BUILT
};

// How many words the seed of 16 rounds has.
const SIXTEEN_ROUNDS: usize = 2558;

// The second table is the first one of a wrong length.
const MORE_VARIABLES: Case = Case {
    name: "17 variables, and as many rows",
    variables: 17,
    claims: &[],
    answer: Err(MergeError::TableLength {
        table: 0,
        len: 131072,
    }),
    ..UNTOUCHED
};

// The true claim at a point of the table that has these two rows, on next rows at each third point.
fn true_claim<F: Field>(
    alloc: Global,
    table: usize,
    point: u64,
    rows: [u64; 2],
) -> Result<OpeningClaim<F>, NoMemory> {
    let [first, second] = rows;
    let (first, second, successor) = (of(first), of(second), point % 3 == 0);
    let value = if successor {
        second
    } else {
        F::add(first, F::mul(F::sub(second, first), of(point)))
    };
    Ok(OpeningClaim {
        table,
        point: point_of(alloc, &[point])?,
        successor,
        value,
    })
}

// The table of this many entries, of which number i is i.
fn counted<F: Field>(alloc: Global, rows: u64) -> Result<Vec<F>, NoMemory> {
    let mut table = Vec::new(alloc);
    for row in 0..rows {
        table.push(of(row))?;
    }
    Ok(table)
}

fn assert_built<A: Abort>(
    rt: &A,
    alloc: Global,
    case: &Case,
    tables: &[Vec<F65537>],
    claims: &[OpeningClaim<F65537>],
) {
    let mut challenger = scripted::<F65537>(alloc, case.draws, case.good).expect(rt, "an answer");
    let answer = audited(alloc, case, tables, claims, &mut challenger);
    assert_answer(rt, case, &answer, challenger.events());
}

#[test]
fn as_many_tables_as_a_job_has(rt: HostRuntime) {
    let alloc = rt.alloc();
    let (mut tables, mut claims) = (Vec::new(alloc), Vec::new(alloc));
    for number in 0..64u64 {
        let rows = [number, 3 * number + 1];
        let claim = true_claim(alloc, number as usize, number + 2, rows);
        claims
            .push(claim.expect(&rt, "memory"))
            .expect(&rt, "memory");
        tables
            .push(vec![in alloc; of(rows[0]), of(rows[1])].expect(&rt, "memory"))
            .expect(&rt, "memory");
    }
    assert_built(&rt, alloc, &TABLES, &tables, &claims);
}

#[test]
fn as_many_claims_as_a_job_has(rt: HostRuntime) {
    let alloc = rt.alloc();
    let tables = tables::<F65537>(alloc, CLAIMS.tables).expect(&rt, "memory");
    let mut claims = Vec::new(alloc);
    for number in 0..4096u64 {
        let first = 1 + 2 * (number % 2);
        let claim = true_claim(alloc, (number % 2) as usize, number, [first, first + 1]);
        claims
            .push(claim.expect(&rt, "memory"))
            .expect(&rt, "memory");
    }
    assert_built(&rt, alloc, &CLAIMS, &tables, &claims);
}

#[test]
fn as_many_variables_as_a_table_has(rt: HostRuntime) {
    let alloc = rt.alloc();
    let table = counted(alloc, 65536).expect(&rt, "memory");
    let tables = vec![in alloc; table].expect(&rt, "memory");
    let claims = claims(alloc, ROWS.claims).expect(&rt, "memory");
    assert_built(&rt, alloc, &ROWS, &tables, &claims);
}

#[test]
fn more_variables(rt: HostRuntime) {
    let alloc = rt.alloc();
    let (table, short) = (counted(alloc, 131072), counted(alloc, 3));
    let tables = vec![in alloc; table.expect(&rt, "memory"), short.expect(&rt, "memory")];
    let tables = tables.expect(&rt, "memory");
    assert_built(&rt, alloc, &MORE_VARIABLES, &tables, &[]);
}
