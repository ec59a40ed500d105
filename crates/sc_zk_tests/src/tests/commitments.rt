//! Draws, codes and commitments. The figures were computed in Python, with its hashlib and with a
//! ChaCha of eight rounds that was written apart from the one here.
use rand_chacha::ChaCha8Rng;
use rand_core::{Rng, SeedableRng};
use sc_commitments::{
    DrawElement, Mmcs, NodeCode, RowMajorMatrix, Sha2Mmcs, ZkEncoding, draw_list, sample_masks,
};
use sc_field::{Field, NoMemory};
use sc_memory::Row;
use sc_sixteen::Tower16;
use sc_small_fields::{F257x2, F65537};
use sc_tests_common::{elements, have_numbers};
use std::alloc::Global;
use std::process::Abort;

// The first draws of the generator below, over the fields of 65,537, 66,049 and 16 elements.
static DRAWS: [u64; 10] = [
    2100, 24567, 21740, 62263, 39099, 43410, 15277, 61880, 8936, 20626,
];

static DRAWS_OF_PAIRS: [u64; 5] = [31550, 19657, 14105, 33779, 59588];

static DRAWS_OF_SIXTEEN: [u64; 10] = [9, 6, 3, 14, 8, 3, 10, 10, 2, 4];

// The generator whose seed is the number 7 in 8 bytes, the highest first, and 24 zeros.
fn generator() -> ChaCha8Rng {
    let mut seed = [0; 32];
    seed[7] = 7;
    ChaCha8Rng::from_seed(seed)
}

// Draws so many elements one by one.
fn drawn<EF: DrawElement, G: Rng>(
    alloc: Global,
    count: usize,
    rng: &mut G,
) -> Result<Vec<EF>, NoMemory> {
    let mut list = Vec::new(alloc);
    for _place in 0..count {
        list.push(EF::draw(rng))?;
    }
    Ok(list)
}

// Whether these are the first draws over a field, one by one and as a list; a list of none and a
// list of the others are drawn from one generator.
fn are_drawn<EF: DrawElement, A: Abort>(rt: &A, alloc: Global, numbers: &[u64]) -> bool {
    let count = numbers.len();
    let single: Vec<EF> = drawn(alloc, count, &mut generator()).expect(rt, "room for draws");
    let mut rng = generator();
    let none: Vec<EF> = draw_list(alloc, 0, &mut rng).expect(rt, "room for no draw");
    let list: Vec<EF> = draw_list(alloc, count, &mut rng).expect(rt, "room for draws");
    have_numbers(&single, numbers) && none.is_empty() && have_numbers(&list, numbers)
}

#[test]
fn draws_elements(rt: HostRuntime) {
    assert!(rt;
        are_drawn::<F65537, _>(&rt, rt.alloc(), &DRAWS)
            && are_drawn::<F257x2, _>(&rt, rt.alloc(), &DRAWS_OF_PAIRS)
            && are_drawn::<Tower16, _>(&rt, rt.alloc(), &DRAWS_OF_SIXTEEN)
    );
}

// The matrix of these numbers, row by row.
fn matrix<EF: Field, A: Abort>(
    rt: &A,
    alloc: Global,
    numbers: &[u64],
    width: usize,
) -> RowMajorMatrix<EF> {
    let values = elements(alloc, numbers).expect(rt, "room for a matrix");
    RowMajorMatrix {
        values: Row::new(values),
        width,
    }
}

// The numbers of values, a width, and how many rows these make.
static HEIGHTS: [(&[u64], usize, usize); 6] = [
    (&[1, 2, 3, 4, 5, 6], 3, 2),
    (&[1, 2, 3, 4, 5, 6], 2, 3),
    (&[1, 2, 3, 4, 5, 6, 7], 3, 2),
    (&[1, 2], 3, 0),
    (&[1, 2], 0, 0),
    (&[], 4, 0),
];

#[test]
fn counts_rows(rt: HostRuntime) {
    for (numbers, width, height) in &HEIGHTS {
        let made: RowMajorMatrix<F65537> = matrix(&rt, rt.alloc(), *numbers, *width);
        assert!(rt; made.height() == *height);
    }
}

// The words of a matrix's commitment, and what is kept of the matrix.
fn committed<EF: Field, M: Mmcs<EF>>(
    alloc: Global,
    mmcs: &M,
    m: RowMajorMatrix<EF>,
) -> Result<(Vec<u8>, M::ProverData), NoMemory> {
    let (commitment, kept) = mmcs.commit_matrix(alloc, m)?;
    Ok((mmcs.words(alloc, commitment)?, kept))
}

// Words as hexadecimal digits.
fn digits(alloc: Global, words: &[u8]) -> Result<String, NoMemory> {
    let mut text = String::new(alloc);
    for word in words {
        text.push(char::from_digit(*word as u32, 16).unwrap_or('-'))?;
    }
    Ok(text)
}

// The numbers of values, a width, and the SHA-256 of the height, the width and the values.
static COMMITMENTS: [(&[u64], usize, &str); 4] = [
    (
        &[1, 2, 3, 4, 5, 65536],
        3,
        "31b3dd18eb011e2eba57bb1d0cb0f76730221811a7ed2e77ff87fdbae121f393",
    ),
    (
        &[],
        0,
        "374708fff7719dd5979ec875d56cd2286f6d3cf7ec317a3b25632aab28ec37bb",
    ),
    // a value after the last row
    (
        &[1, 2, 3, 4, 5, 6, 7],
        3,
        "68b72c358c033e548f7d0c03cde2315fd6eef753788fab73aec84935a0016f59",
    ),
    // a value in no row
    (
        &[9],
        0,
        "708f89d8f098438ea7da1dcea95d9a6f0530edfe13dd51fdd787d13f91e455a1",
    ),
];

#[test]
fn commits_to_matrices(rt: HostRuntime) {
    for (numbers, width, wanted) in &COMMITMENTS {
        let made: RowMajorMatrix<F65537> = matrix(&rt, rt.alloc(), *numbers, *width);
        let (words, kept) = committed(rt.alloc(), &Sha2Mmcs::new(), made).expect(
            &rt,
            "room for a commitment",
        );
        let text = digits(rt.alloc(), &words).expect(&rt, "room for digits");
        assert!(rt; text.as_str() == *wanted, "{text}");
        assert!(rt; have_numbers(kept.values.as_slice(), *numbers) && kept.width == *width);
    }
}

// The values of 1 + 2 X + 7 X^2, 3 + 4 X + 8 X^2 and 5 + 65536 X + 9 X^2, modulo 65537, at the
// nodes from 0 to 5.
static VALUES: [u64; 18] = [
    1, 3, 5, 10, 15, 13, 33, 43, 39, 70, 87, 83, 121, 147, 145, 186, 223, 225,
];

#[test]
fn encodes_given_lists(rt: HostRuntime) {
    let alloc = rt.alloc();
    let list = |numbers: &[u64]| elements::<F65537>(alloc, numbers).expect(&rt, "room for a list");
    let messages = [list(&[1, 2]), list(&[3, 4]), list(&[5, 65536])];
    let randomness = [list(&[7]), list(&[8]), list(&[9])];
    let code = NodeCode::<F65537>::new(2, 1, 6);
    let made = code
        .encode_batch_with_randomness(alloc, &messages, &randomness)
        .expect(&rt, "room for codewords");
    assert!(rt;
        have_numbers(made.values.as_slice(), &VALUES) && (made.width, made.height()) == (3, 6)
    );
}

// Draws so many masks by an encoding and encodes them: the masks, the randomness and the matrix.
fn drawn_and_encoded<EF: Field, Enc: ZkEncoding<EF>, G: Rng>(
    alloc: Global,
    encoding: &Enc,
    count: usize,
    rng: &mut G,
) -> Result<(Vec<Vec<EF>>, Vec<Vec<EF>>, RowMajorMatrix<EF>), NoMemory> {
    let (masks, randomness) = sample_masks(alloc, encoding, count, rng)?;
    let matrix = encoding.encode_batch_with_randomness(alloc, &masks, &randomness)?;
    Ok((masks, randomness, matrix))
}

// The three lengths of an encoding.
fn lengths<EF: Field, Enc: ZkEncoding<EF>>(encoding: &Enc) -> (usize, usize, usize) {
    (
        encoding.message_len(),
        encoding.randomness_len(),
        encoding.codeword_len(),
    )
}

// The codewords of the masks 2100, 24567, 21740 and 62263, 39099, 43410 with the randomness
// 15277, 61880 and 8936, 20626, position by position.
static CODEWORDS: [u64; 20] = [
    2100, 62263, 60027, 43260, 5287, 60235, 60038, 57359, 30985, 15068, 30287, 15600, 16798, 46384,
    58215, 40, 3393, 2064, 6641, 17606,
];

static CODEWORDS_COMMITTED: &str =
    "f1a8a395789f9ac88067092f0b7e874c7499946c7d309a9ae288a9c457b6970c";

#[test]
fn draws_encodes_and_commits(rt: HostRuntime) {
    let alloc = rt.alloc();
    let code = NodeCode::<F65537>::new(3, 2, 10);
    assert!(rt; lengths::<F65537, _>(&code) == (3, 2, 10));
    let (masks, randomness, made) = drawn_and_encoded(alloc, &code, 2, &mut generator()).expect(
        &rt,
        "room for codewords",
    );
    assert!(rt;
        (masks.len(), randomness.len()) == (2, 2)
            && have_numbers(&masks[0], &DRAWS[..3])
            && have_numbers(&masks[1], &DRAWS[3..6])
            && have_numbers(&randomness[0], &DRAWS[6..8])
            && have_numbers(&randomness[1], &DRAWS[8..])
    );
    assert!(rt; have_numbers(made.values.as_slice(), &CODEWORDS));
    let (words, _kept) = committed(alloc, &Sha2Mmcs::new(), made).expect(
        &rt,
        "room for a commitment",
    );
    let text = digits(alloc, &words).expect(&rt, "room for digits");
    assert!(rt; text.as_str() == CODEWORDS_COMMITTED, "{text}");
}
