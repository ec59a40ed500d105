//! Builds on representations, and over fields that differ from those of the tables, with figures
//! from a script that is no part of this.
mod representations;
mod traced;

use super::{Claim, Figures, Lists, assert_answer, assert_history, elements, statements};
use sc_audit::{AuditError, Job, Mode, Report, Strategy, audit};
use sc_challenger::{Challenger, ScriptedChallenger};
use sc_constraints::{Constraint, EqStatement, Statements};
use sc_definitions::Event;
use sc_field::{ExtensionField, Field, IntoTranscriptField};
use sc_table::{Basis, VariableOrder};
use sc_tests_common::of;
use std::process::Abort;

// A job that builds rounds: a table, and claims, which are batched under the challenge 1 with a
// group of none after them; a challenger's draws; and what is answered, with the grids of a report,
// and appended to the history: the words of a seed, each a hexadecimal digit, and events after
// them.
#[derive(Clone, Copy)]
struct Case {
    name: &'static str,
    table: &'static [u64],
    variables: usize,
    claims: &'static [Claim],
    order: VariableOrder,
    strategy: Strategy,
    draws: &'static [u64],
    answer: Result<Figures, AuditError>,
    grids: &'static [Lists],
    seed: &'static [&'static str],
    events: &'static [Event],
}

// The message and the challenge of an extension of degree 2, in the bytes of a seed.
const VALUES_OF_TWO: &str =
    "010000000000000002010000000000000002000000000000000a726f756e645f706f6c79";

const CHALLENGE_OF_TWO: &str =
    "020000000000000002000000000000000001000000000000000f726f756e645f6368616c6c656e6765";

// A case's statements.
fn constraint<F: Field, EF: ExtensionField<F>, R: Abort + AllocGlobal>(
    rt: &R,
    case: &Case,
) -> Constraint<F, EF> {
    let groups = vec![in rt.alloc();
        Statements::Eq(statements(rt, case.variables, case.claims)),
        Statements::Eq(EqStatement::initialize(rt.alloc(), case.variables)),
    ]
    .expect(rt, "groups");
    Constraint::new(of(1), case.variables, groups)
}

// A case's job.
fn job<F: Field, EF: ExtensionField<F>, R: Abort + AllocGlobal>(rt: &R, case: &Case) -> Job<F, EF> {
    Job {
        table: elements(rt, case.table),
        constraint: constraint(rt, case),
        order: case.order,
        basis: Basis::Evaluation,
        pow_bits: 0,
        mode: Mode::Build(case.strategy),
    }
}

// Asserts that a case is answered as it says with these draws, and the history that it leaves; the
// answer comes back.
fn assert_case<F, EF, I, R>(rt: &R, case: &Case, draws: Vec<F>) -> Result<Report<F, EF>, AuditError>
where
    F: Field,
    EF: ExtensionField<F>,
    I: IntoTranscriptField<EF>,
    R: Abort + AllocGlobal,
{
    let job = job::<F, EF, R>(rt, case);
    let mut challenger = ScriptedChallenger::new(rt.alloc(), draws, Vec::new(rt.alloc()));
    let answer = audit::<F, EF, I, ScriptedChallenger<F>>(rt.alloc(), &job, &mut challenger);
    assert_answer(rt, &answer, &case.answer, case.grids, case.name);
    assert_history(
        rt,
        challenger.events(),
        &[],
        case.seed,
        case.events,
        case.name,
    );
    answer
}

// Asserts the same of each case and its own draws.
fn assert_over<F, EF, I, R>(rt: &R, cases: &[Case])
where
    F: Field,
    EF: ExtensionField<F>,
    I: IntoTranscriptField<EF>,
    R: Abort + AllocGlobal,
{
    for case in cases {
        let draws = elements(rt, case.draws);
        let _answer = assert_case::<F, EF, I, R>(rt, case, draws);
    }
}
