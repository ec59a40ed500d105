//! Tables, claims and rounds as numbers in the caller's memory, modulo 65537.
ghost use Rattle.std.specs.Prelude.{◌≡◌, map};
ghost use Rattle.sc_jobs.specs.Figures.{report_in, finding_in};
ghost use Rattle.sc_table.specs.Strategy.{basis_of, order_of};
ghost use Rattle.sc_transcript.specs.Data.{pair_of};
ghost use Rattle.sumcheck_members.specs.declared.job.FieldName.TheVariants as names;
ghost use Rattle.sumcheck_replies.specs.Fields.{fields_of};
ghost use Rattle.sumcheck_tables.specs.Tables.{table_answer};
ghost use Rattle.sumcheck_tables.specs.Views.{case_in, draws_in, numbers_in, task_in};
ghost use Rattle.sumcheck_c.specs.TypedCalls.{basis_by, case_by, draws_by, error_code, found_of};
ghost use Rattle.sumcheck_c.specs.TypedCalls.{finding_code, fronted, left_of, order_by};
ghost use Rattle.sumcheck_c.specs.TypedCalls.{built_in, left_in, polynomial_of, TellsBuild, TellsCheck};

use crate::handed::OUT_OF_MEMORY;
use sc_audit::{AuditError, Report, Verdict};
use sc_field::Field;
use sc_small_fields::F65537;
use sc_table::{Basis, RoundMessage, VariableOrder};
use std::alloc::Global;
use sumcheck_tables::{Draws, RoundNumbers, TableError, TableJob, TableMode, audit_table};

/// How the rounds of a table are played.
#[repr(C)]
#[derive(Clone, Copy)]
pub struct TableTerms {
    /// How many variables the table has, which is how many coordinates a point has.
    pub variables: usize,
    /// The difficulty of each round's test in bits, or 0 for no test.
    pub bits: usize,
    /// The element whose powers batch the claims.
    pub batching: u32,
    /// Whether a round binds the last variable that is left, in place of the first.
    pub suffix: bool,
    /// Whether the entries are coefficients, in place of values.
    pub coefficients: bool,
    /// Whether challenges are drawn from digests of what was observed, in place of a script.
    pub hash: bool,
}

/// What rounds are found to be.
#[repr(C)]
#[derive(Clone, Copy)]
pub struct Found {
    /// 0: the claims hold. 1: the rounds are refuted. 2: the batching challenge is lucky. 3: that
    /// of a round is.
    pub verdict: u32,
    /// The lucky round, counted from 0, and else 0.
    pub round: usize,
    /// At how many elements the polynomial of a lucky challenge vanishes, and else 0.
    pub vanishing: u64,
    /// How many coefficients it has, and else 0.
    pub coefficients: usize,
}

/// The figures of a report.
#[repr(C)]
#[derive(Clone, Copy)]
pub struct TableFigures {
    /// The batched claim.
    pub claim: u32,
    /// What the rounds leave of it.
    pub residual: u32,
    /// The value of the table at the challenges.
    pub eval: u32,
    /// The value of the batched weights there.
    pub weight: u32,
    /// What the rounds are found to be.
    pub found: Found,
}

/// The job of these numbers on these terms.
pub(crate) fn job_by<'a>(
    terms: &TableTerms,
    table: &'a [u32],
    points: &'a [u32],
    values: &'a [u32],
    draws: &'a [u32],
    mode: TableMode<'a>,
) -> TableJob<'a>
    ensures { case_in result ≡ case_by terms.now table.now points.now values.now draws.now
        (task_in mode.entry) }
{
    TableJob {
        table,
        variables: terms.variables,
        points,
        values,
        batching: terms.batching,
        order: order(terms.suffix),
        basis: basis(terms.coefficients),
        bits: terms.bits,
        draws: drawn(terms.hash, draws),
        mode,
    }
}

// The order of rounds.
fn order(suffix: bool) -> VariableOrder
    ensures { order_of result ≡ order_by suffix }
{
    if suffix {
        VariableOrder::Suffix
    } else {
        VariableOrder::Prefix
    }
}

// What the entries are.
fn basis(coefficients: bool) -> Basis
    ensures { basis_of result ≡ basis_by coefficients }
{
    if coefficients {
        Basis::Projective
    } else {
        Basis::Evaluation
    }
}

// Where challenges come from.
fn drawn(hash: bool, draws: &[u32]) -> Draws<'_>
    ensures { draws_in result ≡ draws_by hash draws.now }
{
    if hash {
        Draws::Hash
    } else {
        Draws::Script(draws)
    }
}

/// Audits a job, and leaves what a check tells.
pub(crate) fn check(
    alloc: Global,
    job: &TableJob<'_>,
    figures: &mut TableFigures,
    challenges: &mut [u32],
    polynomial: &mut [u32],
) -> u8
    ensures { TellsCheck (table_answer (fields_of names.F65537) (case_in job.now))
        (left_in figures.old challenges.old polynomial.old)
        (left_in figures.new challenges.new polynomial.new)
        result }
{
    match audit_table::<F65537, F65537, F65537>(alloc, job) {
        Ok(report) => tell(&report, figures, challenges, polynomial),
        Err(error) => status_of(error),
    }
}

/// Audits a job, and leaves what a build tells.
pub(crate) fn build(
    alloc: Global,
    job: &TableJob<'_>,
    rounds: &mut [RoundNumbers],
    witnesses: &mut [u32],
    figures: &mut TableFigures,
    challenges: &mut [u32],
    polynomial: &mut [u32],
) -> u8
    ensures { TellsBuild (table_answer (fields_of names.F65537) (case_in job.now))
        (built_in (left_in figures.old challenges.old polynomial.old) rounds.old witnesses.old)
        (built_in (left_in figures.new challenges.new polynomial.new) rounds.new witnesses.new)
        result }
{
    match audit_table::<F65537, F65537, F65537>(alloc, job) {
        Ok(report) => {
            put_rounds(report.rounds.polynomial_evaluations(), rounds);
            put_numbers(&report.rounds.pow_witnesses, witnesses);
            tell(&report, figures, challenges, polynomial)
        }
        Err(error) => status_of(error),
    }
}

// Leaves the figures of a report, with its challenges and the polynomial of a lucky one, and
// answers its status.
fn tell(
    report: &Report<F65537, F65537>,
    figures: &mut TableFigures,
    challenges: &mut [u32],
    polynomial: &mut [u32],
) -> u8
    ensures left { left_in figures.new challenges.new polynomial.new ≡ left_of
        (report_in ⟦<F65537 as Field>⟧.number ⟦<F65537 as Field>⟧.number report.now).figures
        (left_in figures.old challenges.old polynomial.old) }
    ensures status { result
        ≡ finding_code (finding_in ⟦<F65537 as Field>⟧.number report.now.verdict) }
{
    put_numbers(report.challenges.as_slice(), challenges);
    *figures = TableFigures {
        claim: number_of(report.claim),
        residual: number_of(report.residual),
        eval: number_of(report.eval),
        weight: number_of(report.weight),
        found: tell_found(&report.verdict, polynomial),
    };
    match &report.verdict {
        Verdict::Holds => 0,
        _ => 1,
    }
}

// What a verdict says by numbers, and the polynomial of a lucky challenge.
fn tell_found(verdict: &Verdict<F65537>, polynomial: &mut [u32]) -> Found
    ensures found { result ≡ found_of (finding_in ⟦<F65537 as Field>⟧.number verdict.now) }
    ensures polynomial { polynomial.new ≡ fronted
        (polynomial_of (finding_in ⟦<F65537 as Field>⟧.number verdict.now)) polynomial.old }
{
    match verdict {
        Verdict::Holds => plain(0),
        Verdict::Refuted => plain(1),
        Verdict::LuckyBatch { poly, vanishing } => {
            put_numbers(poly.as_slice(), polynomial);
            Found {
                verdict: 2,
                round: 0,
                vanishing: *vanishing,
                coefficients: poly.as_slice().len(),
            }
        }
        Verdict::LuckyRound {
            round,
            poly,
            vanishing,
        } => {
            put_numbers(poly.as_slice(), polynomial);
            Found {
                verdict: 3,
                round: *round,
                vanishing: *vanishing,
                coefficients: poly.as_slice().len(),
            }
        }
    }
}

// A verdict that names no challenge.
fn plain(verdict: u32) -> Found
    ensures { result ≡ record { verdict = verdict; round = 0; vanishing = 0; coefficients = 0 } }
{
    Found {
        verdict,
        round: 0,
        vanishing: 0,
        coefficients: 0,
    }
}

// The status of a refusal: that of a refused job, of a refused proof, of no witness or of want of
// memory.
fn status_of(error: TableError) -> u8
    ensures { result ≡ error_code error }
{
    match error {
        TableError::Points => 3,
        TableError::NotAnElement => 3,
        TableError::Audit(error) => match error {
            AuditError::JobShape(_) => 3,
            AuditError::StrategyUnfit(_) => 3,
            AuditError::FalseClaim { .. } => 3,
            AuditError::MissingSumcheckData { .. } => 4,
            AuditError::RoundCountMismatch { .. } => 4,
            AuditError::PowWitnessCountMismatch { .. } => 4,
            AuditError::InvalidPowWitness { .. } => 4,
            AuditError::NoWitness { .. } => 5,
            AuditError::NoMemory => OUT_OF_MEMORY,
        },
    }
}

// The number of an element.
fn number_of(x: F65537) -> u32
    ensures { result ≡ ⟦<F65537 as Field>⟧.number x }
{
    x.index() as u32
}

// Puts the numbers of elements at the front of `out`, as many as there is room for.
fn put_numbers(elements: &[F65537], out: &mut [u32])
    ensures { out.new ≡ fronted (map ⟦<F65537 as Field>⟧.number elements.now) out.old }
{
    let n = elements.len().min(out.len());
    for i in 0..n {
        out[i] = number_of(elements[i]);
    }
}

// Puts the numbers of rounds there.
fn put_rounds(messages: &[RoundMessage<F65537>], out: &mut [RoundNumbers])
    ensures { map numbers_in out.new
        ≡ fronted (map (pair_of ⟦<F65537 as Field>⟧.number) messages.now) (map numbers_in out.old) }
{
    let n = messages.len().min(out.len());
    for i in 0..n {
        out[i] = RoundNumbers {
            first: number_of(messages[i].c_a),
            leading: number_of(messages[i].c_inf),
        };
    }
}
