//! What each refusal says.
use sc_openings::MergeError;

static REFUSALS: [(MergeError, &str); 11] = [
    (
        MergeError::TableLength { table: 1, len: 3 },
        "table 1 has 3 entries",
    ),
    (
        MergeError::ClaimTable { claim: 4, table: 2 },
        "claim 4 is on table 2, which is none",
    ),
    (
        MergeError::ClaimArity {
            claim: 1,
            expected: 3,
            actual: 2,
        },
        "expected 3 coordinates in claim 1, but it has 2",
    ),
    (
        MergeError::Difficulty {
            bits: 17,
            bound: 16,
        },
        "the difficulty of 17 bits is above the greatest one, 16",
    ),
    (
        MergeError::FalseClaim {
            claim: 1,
            claimed: 5,
            actual: 7,
        },
        "the value of claim 1 is 7, but 5 is claimed",
    ),
    (
        MergeError::OpeningCount {
            expected: 2,
            actual: 3,
        },
        "expected 2 openings, but the proof has 3",
    ),
    (
        MergeError::RoundCountMismatch {
            expected: 2,
            actual: 1,
        },
        "expected 2 rounds, but the proof has 1",
    ),
    (
        MergeError::PowWitnessCountMismatch {
            expected: 5,
            actual: 6,
        },
        "expected 5 witnesses, but the proof has 6",
    ),
    (
        MergeError::InvalidPowWitness {
            round: 7,
            difficulty: 12,
        },
        "the witness of round 7 does not pass at 12 bits",
    ),
    (
        MergeError::NoWitness { round: 9 },
        "no witness passes in round 9",
    ),
    (MergeError::NoMemory, "out of memory"),
];

#[test]
fn a_refusal_has_a_text(rt: HostRuntime) {
    for (error, wanted) in &REFUSALS {
        let text = error.to_string(rt.alloc()).expect(&rt, "an answer");
        assert!(rt; text.as_str() == *wanted, "{text}");
    }
}
