//! What each refusal says.
use sc_transcript::SumcheckError;

static REFUSALS: [(SumcheckError, &str); 12] = [
    (
        SumcheckError::RoundCountMismatch {
            expected: 2,
            actual: 1,
        },
        "expected 2 sumcheck rounds, but the proof has 1",
    ),
    (
        SumcheckError::MissingSumcheckData { expected_rounds: 3 },
        "no sumcheck data came for 3 expected rounds",
    ),
    (
        SumcheckError::InvalidPowWitness {
            round: 7,
            difficulty: 9,
        },
        "the witness of sumcheck round 7 does not pass at 9 bits",
    ),
    (
        SumcheckError::MissingPowWitness {
            round: 4,
            difficulty: 6,
        },
        "sumcheck round 4 came without a witness for 6 bits",
    ),
    (
        SumcheckError::PowWitnessCountMismatch {
            expected: 5,
            actual: 8,
        },
        "expected 5 witnesses, but the proof has 8",
    ),
    (
        SumcheckError::WireSizeMismatch {
            round: 1,
            expected: 4,
            actual: 2,
        },
        "expected 4 values on the wire of round 1, but 2 came",
    ),
    (
        SumcheckError::EvenCharacteristic,
        "masked rounds need a field in which two is not zero",
    ),
    (
        SumcheckError::MaskTooShort { ell_zk: 2 },
        "masks of 2 coefficients are shorter than the 3 that a round needs",
    ),
    (
        SumcheckError::NoRounds,
        "a masked batch needs at least one round",
    ),
    (
        SumcheckError::OpeningShapeMismatch {
            table_idx: 9,
            expected_current: 1,
            expected_next: 2,
            actual_current: 3,
            actual_next: 4,
        },
        "expected 1 current and 2 next values of table 9, but 3 and 4 came",
    ),
    (
        SumcheckError::NoWitness { round: 6 },
        "no witness passes in sumcheck round 6",
    ),
    (SumcheckError::NoMemory, "out of memory"),
];

#[test]
fn a_refusal_names_what_was_expected(rt: HostRuntime) {
    for (error, wanted) in &REFUSALS {
        let text = error.to_string(rt.alloc()).expect(&rt, "an answer");
        assert!(rt; text.as_str() == *wanted, "{text}");
    }
}
