//! What each refusal says.
use sc_audit::{AuditError, FitFault, ShapeFault};

static TEXTS: [(AuditError, &str); 13] = [
    (
        AuditError::JobShape(ShapeFault::TableLength { len: 3 }),
        "the job's shape is refused: a table of 3 entries is none of 2^n entries with n at most 24",
    ),
    (
        AuditError::JobShape(ShapeFault::Difficulty {
            bits: 17,
            bound: 16,
        }),
        "the job's shape is refused: the difficulty of 17 bits is above the greatest one, 16",
    ),
    (
        AuditError::JobShape(ShapeFault::Arity {
            expected: 2,
            actual: 1,
        }),
        "the job's shape is refused: the table has 2 variables, but the statements are on 1",
    ),
    (
        AuditError::StrategyUnfit(FitFault::Variables {
            variables: 3,
            bound: 2,
        }),
        "the strategy does not fit the job: 3 variables are outside 1 to 2",
    ),
    (
        AuditError::StrategyUnfit(FitFault::Select { statement: 1 }),
        "the strategy does not fit the job: statement 1 is a select",
    ),
    (
        AuditError::StrategyUnfit(FitFault::Selector { statement: 4 }),
        "the strategy does not fit the job: statement 4 has a selector",
    ),
    (
        AuditError::FalseClaim {
            statement: 0,
            claimed: 5,
            actual: 1,
        },
        "statement 0 claims the value 5, but the true one is 1",
    ),
    (
        AuditError::MissingSumcheckData { expected_rounds: 2 },
        "no proof came for 2 rounds",
    ),
    (
        AuditError::RoundCountMismatch {
            expected: 2,
            actual: 1,
        },
        "expected 2 rounds, but the proof has 1",
    ),
    (
        AuditError::PowWitnessCountMismatch {
            expected: 2,
            actual: 3,
        },
        "expected 2 witnesses, but the proof has 3",
    ),
    (
        AuditError::InvalidPowWitness {
            round: 1,
            difficulty: 9,
        },
        "the witness of round 1 does not pass at 9 bits",
    ),
    (
        AuditError::NoWitness { round: 7 },
        "no witness passes in round 7",
    ),
    (AuditError::NoMemory, "out of memory"),
];

#[test]
fn a_refusal_says_what_it_refuses(rt: HostRuntime) {
    for (error, wanted) in &TEXTS {
        let text = error.to_string(rt.alloc()).expect(&rt, "a text");
        assert!(rt; text.as_str() == *wanted, "{text}");
    }
}
