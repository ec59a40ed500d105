//! What is refused before a round is played, each after a history.
use super::seventeen::F17;
use super::{Case, Last, PREFIX, Task, assert_all};
use sc_audit::{AuditError, FitFault, ShapeFault, Strategy};
use sc_definitions::Event::{Draw, Word};
use std::process::Abort;

// Nothing is appended to the history, which has a draw.
const REFUSED: Case = Case {
    name: "small values for no variable",
    task: Task::Build(Strategy::SmallValue { variables: 0 }),
    draws: &[13, 8, 12],
    past: &[Word(3), Word(16), Draw],
    answer: Err(AuditError::StrategyUnfit(FitFault::Variables {
        variables: 0,
        bound: 2,
    })),
    seed: &[],
    events: &[],
    ..PREFIX
};

// Rounds that are to be built.
const BUILD: Case = Case {
    task: Task::Build(Strategy::Plain),
    ..REFUSED
};

// The second claim and the third are false.
const FALSE: Case = Case {
    name: "false claims",
    claims: &[(&[2, 5], 14)],
    further: &[(&[11, 3], 16), (&[1, 0], 2)],
    answer: Err(AuditError::FalseClaim {
        statement: 1,
        claimed: 16,
        actual: 15,
    }),
    ..BUILD
};

// A select after a claim, in small-value rounds. Its value is false.
const SELECT: Case = Case {
    name: "a select in small-value rounds",
    claims: &[(&[2, 5], 14)],
    last: Last::Select(2, 0),
    task: Task::Build(Strategy::SmallValue { variables: 2 }),
    answer: Err(AuditError::StrategyUnfit(FitFault::Select { statement: 1 })),
    ..REFUSED
};

// A proof of one round.
const FEW_ROUNDS: Case = Case {
    name: "a round too few",
    task: Task::Check(&[(15, 7)], &[]),
    answer: Err(AuditError::RoundCountMismatch {
        expected: 2,
        actual: 1,
    }),
    ..REFUSED
};

static REFUSALS: [Case; 25] = [
    REFUSED,
    Case {
        name: "small values for more variables than there are",
        task: Task::Build(Strategy::SmallValue { variables: 3 }),
        answer: Err(AuditError::StrategyUnfit(FitFault::Variables {
            variables: 3,
            bound: 2,
        })),
        ..REFUSED
    },
    SELECT,
    Case {
        name: "small values for no variable and a select",
        last: Last::Select(2, 0),
        ..REFUSED
    },
    Case {
        name: "small values for no variable and a successor",
        last: Last::Successor(&[], &[2, 5], 0),
        ..REFUSED
    },
    Case {
        name: "an empty table",
        table: &[],
        answer: Err(AuditError::JobShape(ShapeFault::TableLength { len: 0 })),
        ..BUILD
    },
    Case {
        name: "a table of three rows",
        table: &[3, 14, 15],
        answer: Err(AuditError::JobShape(ShapeFault::TableLength { len: 3 })),
        ..BUILD
    },
    Case {
        name: "a difficulty above the greatest one",
        pow_bits: 17,
        answer: Err(AuditError::JobShape(ShapeFault::Difficulty {
            bits: 17,
            bound: 16,
        })),
        ..BUILD
    },
    Case {
        name: "statements on fewer variables",
        variables: 1,
        answer: Err(AuditError::JobShape(ShapeFault::Arity {
            expected: 2,
            actual: 1,
        })),
        ..BUILD
    },
    Case {
        name: "statements on more variables",
        variables: 3,
        answer: Err(AuditError::JobShape(ShapeFault::Arity {
            expected: 2,
            actual: 3,
        })),
        ..BUILD
    },
    FALSE,
    Case {
        name: "false claims at the greatest difficulty",
        pow_bits: 16,
        ..FALSE
    },
    Case {
        name: "false claims under a representation",
        task: Task::Build(Strategy::Represented),
        ..FALSE
    },
    Case {
        name: "false claims in small-value rounds",
        task: Task::Build(Strategy::SmallValue { variables: 2 }),
        ..FALSE
    },
    Case {
        name: "no proof",
        task: Task::CheckNone,
        answer: Err(AuditError::MissingSumcheckData { expected_rounds: 2 }),
        ..REFUSED
    },
    FEW_ROUNDS,
    Case {
        name: "a round too many",
        task: Task::Check(&[(15, 7), (5, 11), (0, 0)], &[]),
        answer: Err(AuditError::RoundCountMismatch {
            expected: 2,
            actual: 3,
        }),
        ..REFUSED
    },
    Case {
        name: "a witness without a difficulty",
        task: Task::Check(&[(15, 7), (5, 11)], &[5]),
        answer: Err(AuditError::PowWitnessCountMismatch {
            expected: 0,
            actual: 1,
        }),
        ..REFUSED
    },
    Case {
        name: "a witness too few",
        pow_bits: 1,
        task: Task::Check(&[(15, 7), (5, 11)], &[5]),
        answer: Err(AuditError::PowWitnessCountMismatch {
            expected: 2,
            actual: 1,
        }),
        ..REFUSED
    },
    Case {
        name: "a witness too many",
        pow_bits: 1,
        task: Task::Check(&[(15, 7), (5, 11)], &[5, 6, 7]),
        answer: Err(AuditError::PowWitnessCountMismatch {
            expected: 2,
            actual: 3,
        }),
        ..REFUSED
    },
    Case {
        name: "no witness passes in the first round",
        pow_bits: 1,
        answer: Err(AuditError::NoWitness { round: 0 }),
        ..BUILD
    },
    Case {
        name: "no witness passes in the second round",
        pow_bits: 1,
        good: &[&[5]],
        answer: Err(AuditError::NoWitness { round: 1 }),
        ..BUILD
    },
    Case {
        name: "no witness passes in the second round under a representation",
        pow_bits: 1,
        task: Task::Build(Strategy::Represented),
        good: &[&[5]],
        answer: Err(AuditError::NoWitness { round: 1 }),
        ..BUILD
    },
    Case {
        name: "no witness passes in the second small-value round",
        pow_bits: 1,
        task: Task::Build(Strategy::SmallValue { variables: 2 }),
        good: &[&[5]],
        answer: Err(AuditError::NoWitness { round: 1 }),
        ..BUILD
    },
    Case {
        name: "no witness passes behind a small-value round",
        pow_bits: 1,
        task: Task::Build(Strategy::SmallValue { variables: 1 }),
        good: &[&[5]],
        answer: Err(AuditError::NoWitness { round: 1 }),
        ..BUILD
    },
];

#[test]
fn a_refusal_leaves_the_history_as_it_was(rt: HostRuntime) {
    assert_all::<F17, HostRuntime>(&rt, &REFUSALS);
}

// The faults of a shape, each mended in the next row: a name, the table, the difficulty, how many variables the statements are on, and what is told. Of
// the last row the shape fits.
static SHAPES: [(&str, &[u64], usize, usize, Option<ShapeFault>); 4] = [
    (
        "all faults",
        &[3, 14, 15],
        17,
        1,
        Some(ShapeFault::TableLength { len: 3 }),
    ),
    (
        "all faults but of the table's length",
        &[3, 14, 15, 9],
        17,
        1,
        Some(ShapeFault::Difficulty {
            bits: 17,
            bound: 16,
        }),
    ),
    (
        "a fault of the number of variables and a later one",
        &[3, 14, 15, 9],
        1,
        1,
        Some(ShapeFault::Arity {
            expected: 2,
            actual: 1,
        }),
    ),
    ("a later fault alone", &[3, 14, 15, 9], 1, 2, None),
];

// What is done at fault, and what is told of it where the shape fits.
static FAULTS: [(Task, AuditError); 7] = [
    (
        Task::Build(Strategy::SmallValue { variables: 3 }),
        AuditError::StrategyUnfit(FitFault::Variables {
            variables: 3,
            bound: 2,
        }),
    ),
    (
        Task::Build(Strategy::SmallValue { variables: 1 }),
        AuditError::FalseClaim {
            statement: 0,
            claimed: 9,
            actual: 14,
        },
    ),
    (
        Task::Build(Strategy::Represented),
        AuditError::FalseClaim {
            statement: 0,
            claimed: 9,
            actual: 14,
        },
    ),
    (
        Task::Build(Strategy::Plain),
        AuditError::FalseClaim {
            statement: 0,
            claimed: 9,
            actual: 14,
        },
    ),
    (
        Task::CheckNone,
        AuditError::MissingSumcheckData { expected_rounds: 2 },
    ),
    (
        Task::Check(&[(15, 7)], &[7, 7, 7]),
        AuditError::RoundCountMismatch {
            expected: 2,
            actual: 1,
        },
    ),
    (
        Task::Check(&[(15, 7), (5, 11)], &[7, 7, 7]),
        AuditError::PowWitnessCountMismatch {
            expected: 2,
            actual: 3,
        },
    ),
];

// Claims on one variable and on two, of which those are left that are on as many as the case says; all are false, and no witness passes.
static FALSE_EITHER_WAY: Case = Case {
    claims: &[(&[2], 5), (&[2, 5], 9)],
    ..REFUSED
};

// Which of two faults comes first.
fn first(fault: AuditError, shape_fault: Option<ShapeFault>) -> AuditError {
    match shape_fault {
        Some(shape_fault) => AuditError::JobShape(shape_fault),
        None => fault,
    }
}

// Asserts the first fault of a shape with each fault.
fn assert_first<R: Abort + AllocGlobal>(
    rt: &R,
    shape: &(
        &'static str,
        &'static [u64],
        usize,
        usize,
        Option<ShapeFault>,
    ),
) {
    for (task, fault) in &FAULTS {
        let case = Case {
            name: shape.0,
            table: shape.1,
            pow_bits: shape.2,
            variables: shape.3,
            task: *task,
            answer: Err(first(*fault, shape.4)),
            ..FALSE_EITHER_WAY
        };
        assert_all::<F17, R>(rt, &[case]);
    }
}

#[test]
fn the_first_fault_is_told(rt: HostRuntime) {
    for shape in &SHAPES {
        assert_first(&rt, shape);
    }
}

// Tables of the greatest length, of the next one and of the next power of two.
static LONG: [Case; 3] = [
    Case {
        name: "2^24 rows",
        rows: 16777216,
        answer: Err(AuditError::JobShape(ShapeFault::Arity {
            expected: 24,
            actual: 2,
        })),
        ..BUILD
    },
    Case {
        name: "2^24 rows and one",
        rows: 16777217,
        answer: Err(AuditError::JobShape(ShapeFault::TableLength { len: 16777217 })),
        ..BUILD
    },
    Case {
        name: "2^25 rows",
        rows: 33554432,
        answer: Err(AuditError::JobShape(ShapeFault::TableLength { len: 33554432 })),
        ..BUILD
    },
];

#[test]
fn a_table_of_more_than_two_to_the_24_rows_is_refused(rt: HostRuntime) {
    assert_all::<F17, HostRuntime>(&rt, &LONG);
}
