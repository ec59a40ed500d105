//! The job that a recipe makes, and the report on it in short.
ghost use Rattle.sc_audit.specs.Asked.{asked_by};
ghost use Rattle.std.specs.Prelude.{◌≡◌, ◌≤◌, [], ◌∷◌, None, length, map};
ghost use Rattle.std.specs.Prelude.{string_bytes, IfOk};
ghost use Rattle.sc_definitions.specs.Statements.{claims, equality, successor};
ghost use Rattle.sc_definitions.specs.Tables.{prefix};
ghost use Rattle.sc_jobs.specs.Cases.{asked_of};
ghost use Rattle.sc_jobs.specs.Figures.{report_in};
ghost use Rattle.sc_jobs.specs.Refusals.{shape_refusal};
ghost use Rattle.sc_jobs.specs.Stated.{asked_truly};
ghost use Rattle.sc_transcript.specs.Data.{pair_of};
ghost use Rattle.sumcheck_replies.specs.Reply.{Replies};
ghost use Rattle.sumcheck_audit.specs.Claimed.{EqStates, NextStates};
ghost use Rattle.sumcheck_make.specs.Made.{PartsFit, asked_about, made_reply, parts_in};
ghost use Rattle.sumcheck_make.specs.Made.{sum_of, summary_lines};
ghost use Rattle.sumcheck_audit.specs.Report.{AskSame, case_reply, report_reply};
ghost use Rattle.sumcheck_make.specs.Values.{AreParts, last_of, number_of};
ghost use Rattle.sumcheck_make.specs.Recipes.{IsMade};

use crate::recipe::Recipe;
use crate::values::Values;
use sc_audit::{Job, Mode, Report, audit_true};
use sc_challenger::{Challenger, ScriptedChallenger};
use sc_constraints::{Constraint, EqStatement, NextStatement, Statements};
use sc_field::{ExtensionField, Field, IntoTranscriptField, NoMemory};
use sc_small_fields::F65537;
use sc_table::{Basis, Point, RoundMessage, Strategy, VariableOrder};
use std::alloc::Global;
use sumcheck_audit::say_verdict;
use sumcheck_replies::{Answer, Outcome, lines, refuse};

// How many statements there are, one in each of two groups.
const STATEMENTS: usize = 2;

/// The reply to a recipe: the report in short on the job that it makes. It always holds.
pub fn make(alloc: Global, recipe: Recipe) -> Result<Answer, NoMemory>
    requires { IsMade recipe }
    ensures reply { Replies result (made_reply recipe) }
    ensures holds { (made_reply recipe).outcome ≡ Outcome.Holds }
{
    let n = recipe.variables;
    let mut values = Values::new(recipe.number);
    let parts = take_parts(alloc, &mut values, n)?;
    let draws = values.take(alloc, n)?;
    let mut job = job_of(alloc, parts, recipe.strategy)?;
    let mut challenger = ScriptedChallenger::new(alloc, draws, Vec::new(alloc));
    answer_in_short::<F65537, F65537, F65537, ScriptedChallenger<F65537>>(
        alloc,
        1 << n,
        &mut job,
        &mut challenger,
    )
}

// ---- Its values

// A table, a point, another one, and a batching challenge.
#[derive(Drop)]
struct Parts<F> {
    table: Vec<F>,
    point: Vec<F>,
    successor: Vec<F>,
    batching: F,
}

// Those of a job of `n` variables, in the order of the values.
fn take_parts(alloc: Global, values: &mut Values, n: usize) -> Result<Parts<F65537>, NoMemory>
    requires { n ≤ 24 }
    ensures { IfOk result (λ p. AreParts (last_of values.old) (parts_in number_of p) n
        (last_of values.new)) }
{
    let table = values.take(alloc, 1 << n)?;
    let point = values.take(alloc, n)?;
    let successor = values.take(alloc, n)?;
    let batching = values.advance();
    Ok(Parts {
        table,
        point,
        successor,
        batching,
    })
}

// ---- The job

// The audit of a build on a table, with statements on its values at the two points. They claim
// zero, until they claim their true values.
fn job_of<F: Field>(
    alloc: Global,
    parts: Parts<F>,
    strategy: Strategy,
) -> Result<Job<F, F>, NoMemory>
    requires { PartsFit (parts_in F.number parts) }
    ensures { IfOk result (λ j. AskSame (λ R h. asked_truly (asked_of j R h))
        (asked_about F.ops (parts_in F.number parts) strategy)) }
{
    let variables = parts.point.len();
    let equality = equality_at(alloc, variables, parts.point)?;
    let successor = successor_at(alloc, variables, parts.successor)?;
    let mut groups = Vec::with_capacity(alloc, STATEMENTS)?;
    groups.push(Statements::Eq(equality))?;
    groups.push(Statements::Next(successor))?;
    Ok(Job {
        constraint: Constraint::new(parts.batching, variables, groups),
        table: parts.table,
        order: VariableOrder::Prefix,
        basis: Basis::Evaluation,
        pow_bits: 0,
        mode: Mode::Build(strategy),
    })
}

// The one statement on the value of a table of so many variables at a point. It claims zero.
fn equality_at<F: Field>(
    alloc: Global,
    variables: usize,
    coords: Vec<F>,
) -> Result<EqStatement<F>, NoMemory>
    requires { length coords.items ≡ variables }
    ensures { IfOk result (EqStates F.number variables
        (claims (equality (map F.number coords.items)) 0 ∷ [])) }
{
    let mut statement = EqStatement::initialize(alloc, variables);
    statement.add_evaluated_constraint(Point::new(coords), F::ZERO)?;
    Ok(statement)
}

// The same of the value through the successor map.
fn successor_at<F: Field>(
    alloc: Global,
    variables: usize,
    coords: Vec<F>,
) -> Result<NextStatement<F>, NoMemory>
    requires { length coords.items ≡ variables }
    ensures { IfOk result (NextStates F.number variables
        (claims (successor prefix [] (map F.number coords.items)) 0 ∷ [])) }
{
    let mut statement = NextStatement::initialize(alloc, variables);
    statement.add_evaluated_constraint(
        Point::new(Vec::new(alloc)),
        Point::new(coords),
        F::ZERO,
        VariableOrder::Prefix,
    )?;
    Ok(statement)
}

// ---- The report

// The answer to an audit of a table of so many rows, whose statements claim their true values then,
// with its report in short. Its shape is not refused.
fn answer_in_short<F: Field, EF: ExtensionField<F>, R: IntoTranscriptField<EF>, C: Challenger<F>>(
    alloc: Global,
    rows: usize,
    job: &mut Job<F, EF>,
    challenger: &mut C,
) -> Result<Answer, NoMemory>
    requires { shape_refusal (asked_by job.old (C.party challenger.old))
        ≡ None }
    ensures { Replies result (case_reply (summary_lines rows 2 EF.ops)
        (asked_truly (asked_by job.old (C.party challenger.old)))) }
{
    match audit_true::<F, EF, R, C>(alloc, job, challenger) {
        Ok(report) => show_in_short(alloc, rows, &report),
        Err(error) => refuse(alloc, error),
    }
}

// The answer that shows a report on a table of so many rows in short.
fn show_in_short<F: Field, EF: ExtensionField<F>>(
    alloc: Global,
    rows: usize,
    report: &Report<F, EF>,
) -> Result<Answer, NoMemory>
    ensures { Replies result (report_reply (summary_lines rows 2 EF.ops)
        (report_in F.number EF.number report.now)) }
{
    let text = summary(alloc, rows, report)?;
    say_verdict(text, &report.verdict)
}

// The lines of a report in short up to the verdict.
#[tactic(auto, unfolding(crate::specs::Made::summary_lines))]
fn summary<F: Field, EF: ExtensionField<F>>(
    alloc: Global,
    rows: usize,
    report: &Report<F, EF>,
) -> Result<String, NoMemory>
    ensures { IfOk result (λ s. string_bytes s
        ≡ summary_lines rows 2 EF.ops (report_in F.number EF.number report.now)) }
{
    let sent = sent_sum(report.rounds.polynomial_evaluations());
    let mut text = String::new(alloc);
    lines::push_counts(&mut text, rows, STATEMENTS)?;
    lines::push_claim(&mut text, report.claim.index())?;
    lines::push_pairs(&mut text, sent.index())?;
    lines::push_residual(&mut text, report.residual.index())?;
    Ok(text)
}

// The sum of all values that rounds sent.
fn sent_sum<EF: Field>(messages: &[RoundMessage<EF>]) -> EF
    ensures { EF.number result
        ≡ sum_of EF.ops (map (sum_of EF.ops) (map (pair_of EF.number) messages.now)) }
{
    let mut sum = EF::ZERO;
    for message in messages {
        sum = sum.add(message.c_a.add(message.c_inf));
    }
    sum
}
