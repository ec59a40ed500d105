//! What each refusal says.
use sc_product_audit::ProductError;

static REFUSALS: [(ProductError, &str); 9] = [
    (
        ProductError::TableLength { len: 3 },
        "no table of 3 entries fits: each has 2^n, with one n of at most 24 for all",
    ),
    (
        ProductError::TableCount {
            tables: 257,
            bound: 256,
        },
        "257 tables are more than 256, one less than there are elements",
    ),
    (
        ProductError::Difficulty {
            bits: 17,
            bound: 16,
        },
        "the difficulty of 17 bits is above the greatest one, 16",
    ),
    (
        ProductError::RoundCountMismatch {
            expected: 2,
            actual: 1,
        },
        "expected 2 rounds, but the proof has 1",
    ),
    (
        ProductError::PowWitnessCountMismatch {
            expected: 5,
            actual: 8,
        },
        "expected 5 witnesses, but the proof has 8",
    ),
    (
        ProductError::PolyEvalCountMismatch {
            round: 3,
            expected: 4,
            actual: 6,
        },
        "expected 4 values in round 3, but 6 came",
    ),
    (
        ProductError::InvalidPowWitness {
            round: 7,
            difficulty: 12,
        },
        "the witness of round 7 does not pass at 12 bits",
    ),
    (
        ProductError::NoWitness { round: 9 },
        "no witness passes in round 9",
    ),
    (ProductError::NoMemory, "out of memory"),
];

#[test]
fn a_refusal_has_a_text(rt: HostRuntime) {
    for (error, wanted) in &REFUSALS {
        let text = error.to_string(rt.alloc()).expect(&rt, "an answer");
        assert!(rt; text.as_str() == *wanted, "{text}");
    }
}
