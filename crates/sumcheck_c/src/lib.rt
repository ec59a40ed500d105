//! The program as a library for other languages: the reply to a command, from memory to memory.
//!
//! A function of this crate is called from C, or from what calls C. It takes a command's word and
//! the bytes of a job where the program takes a command line and standard input, and puts the text
//! into the caller's memory where the program writes to standard output. Status and text are those
//! of `run`, by the same definitions: `reply_of` in `sumcheck_run` is the reply, and `IsHanded` in
//! `specs/Handed.antt` says how it is handed over. Nothing is kept from one call to the next.
//!
//! Two functions take tables, points and rounds as numbers modulo 65537 in place of a text, and
//! leave numbers: their answers are those of `sumcheck_tables`, by `table_answer`, and `TellsCheck`
//! and `TellsBuild` in `specs/TypedCalls.antt` say what is left.
//!
//! Of a slice C passes the address of its first element and then their number, and of a `Global`
//! nothing. Nothing checks a C caller. What it owes, and the functions of the heap that it has to
//! define, are said in `include/tunaprow.h`.
#![tactic(auto)]

ghost use Rattle.std.specs.Prelude.{◌≡◌, [], Some, map};
ghost use Rattle.sc_jobs.specs.Cases.{build, check};
ghost use Rattle.sc_table.specs.declared.strategy.Strategy.TheVariants.{Plain};
ghost use Rattle.sumcheck_members.specs.declared.job.FieldName.TheVariants as names;
ghost use Rattle.sumcheck_replies.specs.Fields.{fields_of};
ghost use Rattle.sumcheck_run.specs.Program.{CommandPromise, reply_of};
ghost use Rattle.sumcheck_run.specs.Run.{TellsUsage};
ghost use Rattle.sumcheck_run.specs.declared.command.Command.{Command};
ghost use Rattle.sumcheck_tables.specs.Tables.{table_answer};
ghost use Rattle.sumcheck_tables.specs.Views.{given_of};
ghost use Rattle.sumcheck_c.specs.Commands.{make_command, word_command};
ghost use Rattle.sumcheck_c.specs.Handed.{IsHanded};
ghost use Rattle.sumcheck_c.specs.TypedCalls.{TellsBuild, TellsCheck, built_in, case_by, left_in};

mod handed;
mod line;
mod streams;
mod tables;

use sc_table::Strategy;
use std::alloc::Global;
use sumcheck_tables::{RoundNumbers, TableMode};
pub use tables::{Found, TableFigures, TableTerms};

/// Answers a command that reads a job: puts the reply to the job at the front of `out`, and ends
/// with its status.
///
/// `word` names the command, as `audit`, and `job` has the bytes of the job, at most 67,108,864 of
/// them: a longer one is refused. Sizes are counted in bytes. `written` becomes the size of what
/// was put into `out`, and `needed` that of the whole text.
///
/// The statuses: 0 a report that holds, or what is told without a verdict; 1 another report; 2 the
/// word is no command; 3 a refused job; 4 a refused proof; 5 a build without a witness. 7: `out` is
/// too short, and a call with `needed` bytes has room. 8: out of memory.
#[unsafe(no_mangle)]
pub extern "C" fn tunaprow_reply(
    alloc: Global,
    word: &[u8],
    job: &[u8],
    out: &mut [u8],
    written: &mut usize,
    needed: &mut usize,
) -> u8
    // The reply to the command and the job, whole where `out` has room; there is no other status.
    ensures handed { IsHanded (reply_of (word_command word.now) job.now)
        out.old out.new written.new needed.new result }

    // Status 2 exactly where the word is no command, a short `out` and want of memory aside.
    ensures usage { TellsUsage (word_command word.now) result }

    // Where the job is short enough and of the command's kind, the reply is that to the job, and
    // the job has what the kind promises: a job that is not refused is reported on, a build holds,
    // and a challenge that lets a false statement through is certified.
    ensures promised { (command : Command) → word_command word.now ≡ Some command
        → CommandPromise command job.now }
{
    match line::of_word(alloc, word) {
        Ok(line) => handed::answer(alloc, &line, job, out, written, needed),
        Err(_) => handed::nothing(written, needed),
    }
}

/// Makes a job, builds its rounds and reports on them in short, as the command `make` does: puts
/// the report at the front of `out`, and ends with its status.
///
/// The job has 2^`variables` entries, from 1 to 24 variables, and `number`, at most 65,536, begins
/// its values. `strategy` is one of `plain`, `represented` and `small-value`. `written`, `needed`
/// and the statuses are as at [`tunaprow_reply`]; 2 is told where one of these three is another.
#[unsafe(no_mangle)]
pub extern "C" fn tunaprow_make(
    alloc: Global,
    variables: u64,
    number: u64,
    strategy: &[u8],
    out: &mut [u8],
    written: &mut usize,
    needed: &mut usize,
) -> u8
    // The report on the job that is made, or usage; there is no other status.
    ensures handed { IsHanded (reply_of (make_command variables number strategy.now) [])
        out.old out.new written.new needed.new result }

    // Status 2 exactly where these are no command, a short `out` and want of memory aside.
    ensures usage { TellsUsage (make_command variables number strategy.now) result }

    // The reply to a job that is made says that it holds.
    ensures promised { (command : Command)
        → make_command variables number strategy.now ≡ Some command → CommandPromise command [] }
{
    match line::of_make(alloc, variables, number, strategy) {
        Ok(line) => handed::answer(alloc, &line, b"", out, written, needed),
        Err(_) => handed::nothing(written, needed),
    }
}

/// Checks rounds of a table modulo 65537 that are handed in, and leaves the figures of the report.
///
/// `terms` says how many variables the table has and how rounds are played, as [`TableTerms`] does.
/// `table` has an entry for each row, row 0 first; the first variable belongs to the highest bit of
/// a row. `points` has one point for each of `values`, which are claimed there: one after another,
/// of as many coordinates as there are variables, that of the highest row bit first. Challenge
/// number d is entry number d of `draws`, and 0 past the end, unless the terms say that it is drawn
/// from digests; with a script no witness passes a test. `rounds` has a round for each variable,
/// and `witnesses` a witness for each round at a difficulty and none without one. Numbers are below
/// 65537.
///
/// The statuses are those of the program: 0 a report that holds; 1 another report; 3 a refused job,
/// also where a number is 65537 or more, or the points are not one for each value; 4 refused
/// rounds; 8 out of memory. After 0 and 1 `figures` has the report's figures, and the challenges
/// and the polynomial of a lucky one stand at the front of `challenges` and `polynomial`, as much
/// of each as there is room for. After any other status all three are as they were.
#[unsafe(no_mangle)]
pub extern "C" fn tunaprow_check_65537<'a>(
    alloc: Global,
    terms: &TableTerms,
    table: &'a [u32],
    points: &'a [u32],
    values: &'a [u32],
    draws: &'a [u32],
    rounds: &'a [RoundNumbers],
    witnesses: &'a [u32],
    figures: &mut TableFigures,
    challenges: &mut [u32],
    polynomial: &mut [u32],
) -> u8
    // The answer of an audit of these numbers is told; there is no other status.
    ensures { TellsCheck
        (table_answer (fields_of names.F65537)
        (case_by terms.now table.now points.now values.now draws.now
        (check (Some (given_of rounds.now witnesses.now)))))
        (left_in figures.old challenges.old polynomial.old)
        (left_in figures.new challenges.new polynomial.new)
        result }
{
    let mode = TableMode::Check { rounds, witnesses };
    let job = tables::job_by(terms, table, points, values, draws, mode);
    tables::check(alloc, &job, figures, challenges, polynomial)
}

/// Builds the rounds of a table modulo 65537, on tables of the field, and leaves them with the
/// figures of their report.
///
/// All is as at [`tunaprow_check_65537`], but that rounds are left in place of read: each round's
/// two numbers at the front of `rounds`, and its witness, at a difficulty, at the front of
/// `witnesses`, as many as there is room for. A build of claims that are true holds, and one of a
/// false claim is refused. Status 5: no element passes the test of a round. After another status
/// than 0 both are as they were.
#[unsafe(no_mangle)]
pub extern "C" fn tunaprow_build_65537<'a>(
    alloc: Global,
    terms: &TableTerms,
    table: &'a [u32],
    points: &'a [u32],
    values: &'a [u32],
    draws: &'a [u32],
    rounds: &mut [RoundNumbers],
    witnesses: &mut [u32],
    figures: &mut TableFigures,
    challenges: &mut [u32],
    polynomial: &mut [u32],
) -> u8
    // The answer of a build from these numbers is told; there is no other status.
    ensures { TellsBuild
        (table_answer (fields_of names.F65537)
        (case_by terms.now table.now points.now values.now draws.now (build Plain)))
        (built_in (left_in figures.old challenges.old polynomial.old) rounds.old witnesses.old)
        (built_in (left_in figures.new challenges.new polynomial.new) rounds.new witnesses.new)
        result }
{
    let mode = TableMode::Build(Strategy::Plain);
    let job = tables::job_by(terms, table, points, values, draws, mode);
    tables::build(
        alloc, &job, rounds, witnesses, figures, challenges, polynomial,
    )
}
