//! What each refusal says.
use sc_degree::GenericDegreeError;

static REFUSALS: [(GenericDegreeError, &str); 8] = [
    (
        GenericDegreeError::InvalidDegree { degree: 0 },
        "the degree of a round is 0, and must be one or more",
    ),
    (
        GenericDegreeError::RoundCountMismatch {
            expected: 2,
            actual: 1,
        },
        "expected 2 rounds, but the proof has 1",
    ),
    (
        GenericDegreeError::PowWitnessCountMismatch {
            expected: 5,
            actual: 8,
        },
        "expected 5 witnesses, but the proof has 8",
    ),
    (
        GenericDegreeError::PolyEvalCountMismatch {
            round: 3,
            expected: 4,
            actual: 6,
        },
        "expected 4 values in round 3, but 6 came",
    ),
    (
        GenericDegreeError::MissingPowWitness { round: 4 },
        "round 4 came without a witness",
    ),
    (
        GenericDegreeError::InvalidPowWitness { round: 7 },
        "the witness of round 7 does not pass",
    ),
    (
        GenericDegreeError::NoWitness { round: 9 },
        "no witness passes in round 9",
    ),
    (GenericDegreeError::NoMemory, "out of memory"),
];

#[test]
fn a_refusal_has_a_text(rt: HostRuntime) {
    for (error, wanted) in &REFUSALS {
        let text = error.to_string(rt.alloc()).expect(&rt, "an answer");
        assert!(rt; text.as_str() == *wanted, "{text}");
    }
}
