//! Whole audits, with figures from a script that is no part of this.
ghost use Rattle.std.specs.Prelude.{◌≡◌};
ghost use Rattle.sc_statements.specs.EqStatements.{eq_arity};
ghost use Rattle.sc_constraints.specs.Groups.{group_arity};
ghost use Rattle.sc_statements.specs.NextStatements.{next_arity};
ghost use Rattle.sc_statements.specs.SelectStatements.{select_arity};

mod lucky;
mod projective;
mod refusals;
mod reports;
mod represented;
mod seventeen;
mod stated;
mod strategies;
mod successors;
mod texts;

use sc_audit::{AuditError, Grid, Job, Mode, Report, Strategy, Verdict, audit};
use sc_challenger::{Challenger, Event, ScriptedChallenger};
use sc_constraints::{Constraint, EqStatement, NextStatement, SelectStatement, Statements};
use sc_definitions::Event::{Draw, Test, Word};
use sc_field::{ExtensionField, Field};
use sc_rounds::SumcheckData;
use sc_table::{Basis, Point, RoundMessage, VariableOrder};
use sc_tests_common::{are_pairs, have_numbers, of};
use std::process::Abort;

// A point, and the value that is claimed there.
type Claim = (&'static [u64], u64);

// The two values that a round sends.
type Pair = (u64, u64);

// The values of a grid, those at 0 and those at infinity.
type Lists = (&'static [u64], &'static [u64]);

// A group after two groups of claims: none, a scalar that selects a value, or a value through the
// successor map at a selector and a point, in the order of the rounds.
#[derive(Clone, Copy)]
enum Last {
    Nothing,
    Select(u64, u64),
    Successor(&'static [u64], &'static [u64], u64),
}

// What is done: rounds are built, or those of a proof, and its witnesses, are checked.
#[derive(Clone, Copy)]
enum Task {
    Build(Strategy),
    CheckNone,
    Check(&'static [Pair], &'static [u64]),
}

// What rounds say of the statements. Of a lucky challenge the coefficients of the polynomial that
// shows it, and how many roots that has; of a round's its number before them.
#[derive(Clone, Copy)]
enum Finding {
    Holds,
    Refuted,
    LuckyBatch(&'static [u64], u64),
    LuckyRound(usize, &'static [u64], u64),
}

// The figures of a report, its grids aside.
#[derive(Clone, Copy)]
struct Figures {
    claim: u64,
    rounds: &'static [Pair],
    witnesses: &'static [u64],
    challenges: &'static [u64],
    residual: u64,
    eval: u64,
    weight: u64,
    finding: Finding,
}

// A job, whose table is filled up to `rows` rows with zeros and whose claims are two groups, with
// one after them; a challenger, by its draws, the witnesses that pass and its history; and what is
// answered, with the grids of a report, and appended to the history: the words of a seed, each a
// hexadecimal digit, and events after them.
#[derive(Clone, Copy)]
struct Case {
    name: &'static str,
    table: &'static [u64],
    rows: usize,
    variables: usize,
    claims: &'static [Claim],
    further: &'static [Claim],
    last: Last,
    batching: u64,
    order: VariableOrder,
    basis: Basis,
    pow_bits: usize,
    task: Task,
    draws: &'static [u64],
    good: &'static [&'static [u64]],
    past: &'static [Event],
    answer: Result<Figures, AuditError>,
    grids: &'static [Lists],
    seed: &'static [&'static str],
    events: &'static [Event],
}

// ---- The bytes of seeds, over a field as its own extension; each digit is a word.

// version 1, and the protocol's name after its length
const HEAD: &str = "01000000000000001570332d73756d636865636b2d717561647261746963";

// a message of values of one part, fixed, two of them, and its label after the label's length
const VALUES: &str = "010000000000000001010000000000000002000000000000000a726f756e645f706f6c79";

// a witness of one part, fixed, one bit
const WITNESS: &str = "0300000000000000010100000000000000010000000000000009726f756e645f706f77";

// a challenge of one part, one value
const CHALLENGE: &str =
    "020000000000000001000000000000000001000000000000000f726f756e645f6368616c6c656e6765";

// a label of one byte, the basis, of values and of coefficients
const BASIS: &str = "000000000000000100";

const COEFFICIENTS: &str = "000000000000000101";

// the seeds of one round and of two, without a test and with one, have their number of steps after
// the head
const ONE_ROUND: [&str; 5] = [HEAD, "0000000000000002", VALUES, CHALLENGE, BASIS];

const TWO_ROUNDS: [&str; 7] = [
    HEAD,
    "0000000000000004",
    VALUES,
    CHALLENGE,
    VALUES,
    CHALLENGE,
    BASIS,
];

const TWO_TESTED_ROUNDS: [&str; 9] = [
    HEAD,
    "0000000000000006",
    VALUES,
    WITNESS,
    CHALLENGE,
    VALUES,
    WITNESS,
    CHALLENGE,
    BASIS,
];

// The rounds of a table of two variables over the integers modulo 17, with two true claims.
const PREFIX: Case = Case {
    name: "prefix order",
    table: &[3, 14, 15, 9],
    rows: 0,
    variables: 2,
    claims: &[(&[2, 5], 14), (&[11, 3], 15)],
    further: &[],
    last: Last::Nothing,
    batching: 4,
    order: VariableOrder::Prefix,
    basis: Basis::Evaluation,
    pow_bits: 0,
    task: Task::Build(Strategy::Plain),
    draws: &[8, 12],
    good: &[],
    past: &[],
    answer: Ok(Figures {
        claim: 6,
        rounds: &[(15, 7), (5, 11)],
        witnesses: &[],
        challenges: &[8, 12],
        residual: 7,
        eval: 10,
        weight: 16,
        finding: Finding::Holds,
    }),
    grids: &[],
    seed: &TWO_ROUNDS,
    events: &[Word(15), Word(7), Draw, Word(5), Word(11), Draw],
};

// The elements of these numbers.
fn elements<F: Field, R: Abort + AllocGlobal>(rt: &R, numbers: &[u64]) -> Vec<F> {
    sc_tests_common::elements(rt.alloc(), numbers).expect(rt, "elements")
}

// The statements of these claims. One on another number of variables is left out.
fn statements<F: Field, R: Abort + AllocGlobal>(
    rt: &R,
    variables: usize,
    claims: &[Claim],
) -> EqStatement<F>
    ensures { eq_arity result ≡ variables }
{
    let mut statements = EqStatement::initialize(rt.alloc(), variables);
    for (coords, value) in claims {
        let point = Point::new(elements(rt, *coords));
        if point.num_variables() == variables {
            statements
                .add_evaluated_constraint(point, of(*value))
                .expect(rt, "a statement");
        }
    }
    statements
}

// The statement that a scalar selects a value.
fn select<F: Field, R: Abort + AllocGlobal>(
    rt: &R,
    variables: usize,
    scalar: u64,
    value: u64,
) -> SelectStatement<F, F>
    ensures { select_arity result ≡ variables }
{
    let mut statement = SelectStatement::initialize(rt.alloc(), variables);
    statement
        .add_constraint(of(scalar), of(value))
        .expect(rt, "a select");
    statement
}

// The statement of a value through the successor map, in an order. One on another number of
// variables is left out.
fn successor<F: Field, R: Abort + AllocGlobal>(
    rt: &R,
    variables: usize,
    selector: &[u64],
    point: &[u64],
    value: u64,
    order: VariableOrder,
) -> NextStatement<F>
    ensures { next_arity result ≡ variables }
{
    let mut statement = NextStatement::initialize(rt.alloc(), variables);
    let selector = Point::new(elements(rt, selector));
    let point = Point::new(elements(rt, point));
    if variables.checked_sub(selector.num_variables()) == Some(point.num_variables()) {
        statement
            .add_evaluated_constraint(selector, point, of(value), order)
            .expect(rt, "a successor");
    }
    statement
}

// A case's last group.
fn last_group<F: Field, R: Abort + AllocGlobal>(rt: &R, case: &Case) -> Statements<F, F>
    ensures { group_arity result ≡ case.now.variables }
{
    match case.last {
        Last::Nothing => Statements::Eq(EqStatement::initialize(rt.alloc(), case.variables)),
        Last::Select(scalar, value) => {
            Statements::Select(select(rt, case.variables, scalar, value))
        }
        Last::Successor(selector, point, value) => {
            Statements::Next(successor(rt, case.variables, selector, point, value, case.order))
        }
    }
}

// The messages of these rounds.
fn messages<F: Field, R: Abort + AllocGlobal>(rt: &R, rounds: &[Pair]) -> Vec<RoundMessage<F>> {
    rounds
        .iter()
        .map(|pair| RoundMessage {
            c_a: of(pair.0),
            c_inf: of(pair.1),
        })
        .collect(rt.alloc())
        .expect(rt, "messages")
}

// A case's mode.
fn mode<F: Field, R: Abort + AllocGlobal>(rt: &R, task: Task) -> Mode<F, F> {
    match task {
        Task::Build(strategy) => Mode::Build(strategy),
        Task::CheckNone => Mode::Check(None),
        Task::Check(rounds, witnesses) => Mode::Check(Some(SumcheckData {
            polynomial_evaluations: messages(rt, rounds),
            pow_witnesses: elements(rt, witnesses),
        })),
    }
}

// A case's table.
fn table<F: Field, R: Abort + AllocGlobal>(rt: &R, case: &Case) -> Vec<F> {
    let mut table: Vec<F> = elements(rt, case.table);
    if table.len() < case.rows {
        table.resize(case.rows, F::ZERO).expect(rt, "a table");
    }
    table
}

// A case's statements.
fn constraint<F: Field, R: Abort + AllocGlobal>(rt: &R, case: &Case) -> Constraint<F, F> {
    let groups = vec![in rt.alloc();
        Statements::Eq(statements(rt, case.variables, case.claims)),
        Statements::Eq(statements(rt, case.variables, case.further)),
        last_group(rt, case),
    ]
    .expect(rt, "groups");
    Constraint::new(of(case.batching), case.variables, groups)
}

// A case's job.
fn job<F: Field, R: Abort + AllocGlobal>(rt: &R, case: &Case) -> Job<F, F> {
    Job {
        table: table(rt, case),
        constraint: constraint(rt, case),
        order: case.order,
        basis: case.basis,
        pow_bits: case.pow_bits,
        mode: mode(rt, case.task),
    }
}

// Observes and draws as a history without a test says.
fn play<F: Field, A: Abort>(rt: &A, challenger: &mut ScriptedChallenger<F>, past: &[Event]) {
    for event in past {
        match event {
            Word(number) => challenger.observe(of(*number)).expect(rt, "a word"),
            Draw => {
                challenger.sample().expect(rt, "a draw");
            }
            Test(_) => {}
        }
    }
}

// Lists of the elements of these numbers.
fn lists<F: Field, R: Abort + AllocGlobal>(rt: &R, numbers: &[&[u64]]) -> Vec<Vec<F>> {
    let mut lists = Vec::new(rt.alloc());
    for list in numbers {
        lists.push(elements(rt, *list)).expect(rt, "a list");
    }
    lists
}

// A case's challenger.
fn challenger<F: Field, R: Abort + AllocGlobal>(rt: &R, case: &Case) -> ScriptedChallenger<F> {
    let (draws, good) = (elements(rt, case.draws), lists(rt, case.good));
    let mut challenger = ScriptedChallenger::new(rt.alloc(), draws, good);
    play(rt, &mut challenger, case.past);
    challenger
}

// Whether a verdict says this.
fn is_verdict<F: Field>(verdict: &Verdict<F>, wanted: &Finding) -> bool {
    match (verdict, wanted) {
        (Verdict::Holds, Finding::Holds) => true,
        (Verdict::Refuted, Finding::Refuted) => true,
        (Verdict::LuckyBatch { poly, vanishing }, Finding::LuckyBatch(coefficients, roots)) => {
            have_numbers(poly.as_slice(), *coefficients) && *vanishing == *roots
        }
        (
            Verdict::LuckyRound {
                round,
                poly,
                vanishing,
            },
            Finding::LuckyRound(place, coefficients, roots),
        ) => {
            *round == *place && have_numbers(poly.as_slice(), *coefficients) && *vanishing == *roots
        }
        _ => false,
    }
}

// Whether grids have these values.
fn are_grids<F: Field>(grids: &[Grid<F>], wanted: &[Lists]) -> bool {
    grids.len() == wanted.len()
        && grids.iter().zip(wanted).all(|(grid, lists)| {
            have_numbers(grid.zero.as_slice(), lists.0)
                && have_numbers(grid.infinity.as_slice(), lists.1)
        })
}

// Asserts that a report has these figures.
fn assert_figures<F: Field, EF: ExtensionField<F>, A: Abort>(
    rt: &A,
    report: &Report<F, EF>,
    wanted: &Figures,
    name: &str,
) {
    let values = (
        report.claim.index(),
        report.residual.index(),
        report.eval.index(),
        report.weight.index(),
    );
    let figures = (wanted.claim, wanted.residual, wanted.eval, wanted.weight);
    assert!(rt; values == figures, "{name}: claim, residual, eval, weight");
    let are_lists = are_pairs(report.rounds.polynomial_evaluations(), wanted.rounds)
        && have_numbers(&report.rounds.pow_witnesses, wanted.witnesses)
        && have_numbers(report.challenges.as_slice(), wanted.challenges)
        && is_verdict(&report.verdict, &wanted.finding);
    assert!(rt; are_lists, "{name}: rounds, witnesses, challenges, verdict");
}

// Asserts that an answer is as wanted, with these grids in a report.
fn assert_answer<F: Field, EF: ExtensionField<F>, A: Abort>(
    rt: &A,
    answer: &Result<Report<F, EF>, AuditError>,
    wanted: &Result<Figures, AuditError>,
    grids: &[Lists],
    name: &str,
) {
    match (answer, wanted) {
        (Ok(report), Ok(figures)) => {
            assert_figures(rt, report, figures, name);
            let found = report.grids.rounds.as_slice();
            assert!(rt; are_grids(found, grids), "{name}: grids");
        }
        (Err(error), Err(refusal)) => assert!(rt; error == refusal, "{name}"),
        (Ok(_), Err(_)) => panic!(rt; "{name}: a report"),
        (Err(error), Ok(_)) => panic!(rt; "{name}: {error}"),
    }
}

// Appends a word for each hexadecimal digit.
fn push_digits<A: Abort>(rt: &A, events: &mut Vec<Event>, digits: &str) {
    for digit in digits.chars() {
        let word = Word(digit.to_digit(16).unwrap_or(16) as u64);
        events.push(word).expect(rt, "a word");
    }
}

// Asserts that these events are a past, the words of a seed, and events after them.
fn assert_history<R: Abort + AllocGlobal>(
    rt: &R,
    events: &[Event],
    past: &[Event],
    seed: &[&str],
    after: &[Event],
    name: &str,
) {
    let mut wanted = Vec::from_slice(rt.alloc(), past).expect(rt, "a history");
    for digits in seed {
        push_digits(rt, &mut wanted, *digits);
    }
    for event in after {
        wanted.push(*event).expect(rt, "an event");
    }
    assert!(rt; events == wanted.as_slice(), "{name}: history");
}

// Asserts that an answer, and the history after it, are those of a case.
fn assert_case<F: Field, R: Abort + AllocGlobal>(
    rt: &R,
    answer: &Result<Report<F, F>, AuditError>,
    events: &[Event],
    case: &Case,
) {
    assert_answer(rt, answer, &case.answer, case.grids, case.name);
    assert_history(rt, events, case.past, case.seed, case.events, case.name);
}

// Asserts that a job is answered as a case says, and the history that it leaves.
fn assert_audit<F: Field, R: Abort + AllocGlobal>(
    rt: &R,
    case: &Case,
    job: &Job<F, F>,
    challenger: ScriptedChallenger<F>,
) {
    let mut challenger = challenger;
    let answer = audit::<F, F, F, ScriptedChallenger<F>>(rt.alloc(), job, &mut challenger);
    assert_case(rt, &answer, challenger.events(), case);
}

// Asserts the same of each case's own job and challenger.
fn assert_all<F: Field, R: Abort + AllocGlobal>(rt: &R, cases: &[Case]) {
    for case in cases {
        assert_audit::<F, R>(rt, case, &job(rt, case), challenger(rt, case));
    }
}
