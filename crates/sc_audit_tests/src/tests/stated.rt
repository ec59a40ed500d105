//! Jobs whose statements are made to claim their true values. What they claim first is false; what
//! is answered then, and what they claim, are figures from a script that is no part of this.
use super::reports::{HANDED_IN, REPRESENTED_TESTED, SMALL, SMALL_SUFFIX, SMALL_TESTED, SUFFIX};
use super::seventeen::F17;
use super::successors::MIXED_SMALL;
use super::{Case, Claim, Last, PREFIX, Task, assert_audit, assert_case, challenger, job};
use sc_audit::{AuditError, FitFault, Job, ShapeFault, Strategy, audit_true};
use sc_challenger::ScriptedChallenger;
use sc_constraints::{StatementList, Statements};
use sc_definitions::Event::{Draw, Word};
use sc_field::Field;
use std::process::Abort;

// Claims at the points of the cases, of which the second is false, or both are.
const SECOND_FALSE: &[Claim] = &[(&[2, 5], 14), (&[11, 3], 0)];

const BOTH_FALSE: &[Claim] = &[(&[2, 5], 13), (&[11, 3], 16)];

// A case, and what the statements of its job claim afterwards.
struct Stated {
    case: Case,
    values: &'static [u64],
}

static BUILT: [Stated; 7] = [
    Stated {
        case: Case {
            claims: BOTH_FALSE,
            ..PREFIX
        },
        values: &[14, 15],
    },
    Stated {
        case: Case {
            claims: &[(&[2, 5], 14)],
            further: &[(&[11, 3], 2)],
            ..SUFFIX
        },
        values: &[14, 15],
    },
    Stated {
        case: Case {
            claims: BOTH_FALSE,
            ..REPRESENTED_TESTED
        },
        values: &[14, 15],
    },
    Stated {
        case: Case {
            claims: BOTH_FALSE,
            ..SMALL
        },
        values: &[14, 15],
    },
    Stated {
        case: Case {
            claims: &[(&[2, 5], 0)],
            further: &[(&[11, 3], 15)],
            ..SMALL_SUFFIX
        },
        values: &[14, 15],
    },
    Stated {
        case: Case {
            claims: SECOND_FALSE,
            draws: &[13, 8, 12],
            past: &[Word(3), Word(16), Draw],
            ..SMALL_TESTED
        },
        values: &[14, 15],
    },
    Stated {
        case: Case {
            claims: &[(&[2, 5], 0)],
            further: &[(&[11, 3], 16)],
            last: Last::Successor(&[], &[6, 13], 0),
            ..MIXED_SMALL
        },
        values: &[14, 15, 4],
    },
];

// Rounds with their witnesses as a proof.
static CHECKED: [Stated; 1] = [Stated {
    case: Case {
        claims: BOTH_FALSE,
        ..HANDED_IN
    },
    values: &[14, 15],
}];

// Nothing is appended to the history. A strategy that does not fit leaves the true values, and a
// shape that is refused the claims as they were.
const REFUSED: Case = Case {
    name: "a select in small-value rounds",
    claims: &[(&[2, 5], 13)],
    last: Last::Select(2, 0),
    task: Task::Build(Strategy::SmallValue { variables: 2 }),
    draws: &[13, 8, 12],
    past: &[Word(3), Word(16), Draw],
    answer: Err(AuditError::StrategyUnfit(FitFault::Select { statement: 1 })),
    seed: &[],
    events: &[],
    ..PREFIX
};

static NOT_AUDITED: [Stated; 3] = [
    Stated {
        case: REFUSED,
        values: &[14, 10],
    },
    Stated {
        case: Case {
            name: "a difficulty above the greatest one",
            pow_bits: 17,
            answer: Err(AuditError::JobShape(ShapeFault::Difficulty {
                bits: 17,
                bound: 16,
            })),
            ..REFUSED
        },
        values: &[13, 0],
    },
    Stated {
        case: Case {
            name: "statements on fewer variables",
            variables: 1,
            claims: &[(&[2], 13)],
            answer: Err(AuditError::JobShape(ShapeFault::Arity {
                expected: 2,
                actual: 1,
            })),
            ..REFUSED
        },
        values: &[13, 0],
    },
];

// Appends what the statements of a group claim.
fn push_claims<F: Field, S: StatementList<F>, A: Abort>(rt: &A, group: &S, told: &mut Vec<u64>) {
    for i in 0..group.count() {
        told.push(group.claim_at(i).index()).expect(rt, "a claim");
    }
}

// Asserts what the statements of a job claim.
fn assert_claims<F: Field, R: Abort + AllocGlobal>(rt: &R, job: &Job<F, F>, wanted: &Stated) {
    let mut told = Vec::new(rt.alloc());
    for group in job.constraint.statements() {
        match group {
            Statements::Eq(group) => push_claims(rt, group, &mut told),
            Statements::Next(group) => push_claims(rt, group, &mut told),
            Statements::Select(group) => push_claims(rt, group, &mut told),
        }
    }
    let name = wanted.case.name;
    assert!(rt; told.as_slice() == wanted.values, "{name}: claims");
}

// Asserts that each job is answered as its case says, the history that it leaves, what its
// statements claim then, and that what it has become is answered alike.
fn assert_stated<F: Field, R: Abort + AllocGlobal>(rt: &R, all: &[Stated]) {
    for stated in all {
        let case = &stated.case;
        let mut job = job::<F, R>(rt, case);
        let mut first = challenger::<F, R>(rt, case);
        let answer = audit_true::<F, F, F, ScriptedChallenger<F>>(rt.alloc(), &mut job, &mut first);
        assert_case(rt, &answer, first.events(), case);
        assert_claims(rt, &job, stated);
        assert_audit::<F, R>(rt, case, &job, challenger(rt, case));
    }
}

#[test]
fn builds_of_true_values(rt: HostRuntime) {
    assert_stated::<F17, HostRuntime>(&rt, &BUILT);
}

#[test]
fn a_proof_is_checked_against_true_values(rt: HostRuntime) {
    assert_stated::<F17, HostRuntime>(&rt, &CHECKED);
}

#[test]
fn refused_jobs_claim_true_values_where_their_shape_fits(rt: HostRuntime) {
    assert_stated::<F17, HostRuntime>(&rt, &NOT_AUDITED);
}
