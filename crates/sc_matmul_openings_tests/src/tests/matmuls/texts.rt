//! What each refusal says.
use sc_matmul::MatmulError;

static REFUSALS: [(MatmulError, &str); 10] = [
    (
        MatmulError::Side {
            which: 1,
            rows: 3,
            cols: 4,
        },
        "matrix 1 has 3 rows and 4 columns",
    ),
    (
        MatmulError::Inner { left: 2, right: 4 },
        "the left matrix has 2 columns, and the right one 4 rows",
    ),
    (
        MatmulError::Outer { rows: 8, cols: 2 },
        "the claimed matrix has 8 rows and 2 columns",
    ),
    (
        MatmulError::Difficulty {
            bits: 17,
            bound: 16,
        },
        "the difficulty of 17 bits is above the greatest one, 16",
    ),
    (
        MatmulError::FalseEntry {
            row: 1,
            col: 2,
            claimed: 5,
            actual: 7,
        },
        "the entry in row 1 and column 2 is 7, but 5 is claimed",
    ),
    (
        MatmulError::RoundCountMismatch {
            expected: 2,
            actual: 1,
        },
        "expected 2 rounds, but the proof has 1",
    ),
    (
        MatmulError::PowWitnessCountMismatch {
            expected: 5,
            actual: 6,
        },
        "expected 5 witnesses, but the proof has 6",
    ),
    (
        MatmulError::InvalidPowWitness {
            round: 7,
            difficulty: 12,
        },
        "the witness of round 7 does not pass at 12 bits",
    ),
    (
        MatmulError::NoWitness { round: 9 },
        "no witness passes in round 9",
    ),
    (MatmulError::NoMemory, "out of memory"),
];

#[test]
fn a_refusal_has_a_text(rt: HostRuntime) {
    for (error, wanted) in &REFUSALS {
        let text = error.to_string(rt.alloc()).expect(&rt, "an answer");
        assert!(rt; text.as_str() == *wanted, "{text}");
    }
}
