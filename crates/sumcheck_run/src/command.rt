//! The command line.
ghost use Rattle.std.specs.Prelude.{◌≡◌, ◌≢◌, ℕ, ◌<◌, ◌^◌, MatchOption, decimal};
ghost use Rattle.sumcheck_run.specs.Program.{command_in, kind_named, reads_input};
ghost use Rattle.sumcheck_run.specs.Words.{CommandFits, recipe_of, strategy_of, written_below};

use itoa::Buffer;
use sc_table::Strategy;
use sumcheck_make::Recipe;

// The greatest number of variables of a job that is made, and how many numbers begin one.
const MOST_VARIABLES: u64 = 24;

const NUMBERS: u64 = 65537;

// The greatest number of variables that the small-value rounds of such a job bind.
const MOST_SMALL: usize = 8;

/// The kinds of jobs that an input may describe, each by the one word of its command.
#[derive(Clone, Copy, Debug, PartialEq, Eq)]
pub enum Kind {
    /// A table with claims on it. Its rounds are built, or those of the proof that came with it are
    /// checked, and reported on.
    Audit,
    /// Rounds over the product of several tables, built or checked in the same way.
    Product,
    /// A table with claims on it, whose rounds are played under masks, and reported on.
    Veil,
    /// What an observer sees of masked rounds. The masks that explain it are told.
    Explain,
    /// Two matrices and what is claimed to be their product. The rounds of the claim are built or
    /// checked, and reported on.
    Matmul,
    /// A layered circuit, its inputs and what is claimed to be its outputs. The layers' rounds are
    /// built or checked, and reported on.
    Circuit,
    /// Several tables and claims on them, merged into one opening of each table. The rounds and
    /// openings are built or checked, and reported on.
    Openings,
}

/// What the program is asked for.
#[derive(Clone, Copy, Debug, PartialEq, Eq)]
pub enum Command {
    /// Replies to the job of a kind that the input describes.
    Judge(Kind),
    /// Makes a job, builds its rounds, and reports on them in short.
    Make(Recipe),
}

/// The command that the words after the program's name are, if they are one.
pub fn read_command(words: &[String]) -> Option<Command>
    ensures command { result ≡ command_in words.now }
    ensures fits { CommandFits result }
{
    match words {
        [name] => match read_kind(name.as_str()) {
            Some(kind) => Some(Command::Judge(kind)),
            None => None,
        },
        [name, variables, number, strategy] if name.as_str() == "make" => {
            match read_recipe(variables.as_str(), number.as_str(), strategy.as_str()) {
                Some(recipe) => Some(Command::Make(recipe)),
                None => None,
            }
        }
        _ => None,
    }
}

// The kind of jobs that a word names, if it names one.
fn read_kind(word: &str) -> Option<Kind>
    ensures { result ≡ kind_named word.now }
{
    if word == "audit" {
        Some(Kind::Audit)
    } else if word == "product" {
        Some(Kind::Product)
    } else if word == "veil" {
        Some(Kind::Veil)
    } else if word == "explain" {
        Some(Kind::Explain)
    } else if word == "matmul" {
        Some(Kind::Matmul)
    } else if word == "circuit" {
        Some(Kind::Circuit)
    } else if word == "openings" {
        Some(Kind::Openings)
    } else {
        None
    }
}

// The recipe that three words write, if they do.
fn read_recipe(variables: &str, number: &str, strategy: &str) -> Option<Recipe>
    ensures { result ≡ recipe_of variables.now number.now strategy.now }
{
    let variables = read_number(variables, MOST_VARIABLES + 1)? as usize;
    let number = read_number(number, NUMBERS)?;
    if variables == 0 {
        return None;
    }
    let strategy = read_strategy(strategy, variables)?;
    Some(Recipe {
        variables,
        number,
        strategy,
    })
}

// The number below a bound that a word writes in decimal digits, without a sign or a leading zero,
// if it does.
fn read_number(word: &str, bound: u64) -> Option<u64>
    ensures { result ≡ written_below bound word.now }
{
    let number = read_decimal(word)?;
    if number < bound { Some(number) } else { None }
}

// The number whose own spelling the word is, if it is one below 2^64.
fn read_decimal(word: &str) -> Option<u64>
    ensures { MatchOption result ((n : ℕ) → n < 2 ^ 64 → word.now ≢ decimal n)
        (λ n. word.now ≡ decimal n) }
{
    match word.parse::<u64>() {
        Ok(number) => {
            // any other spelling that can be parsed has a sign or a leading zero
            if Buffer::new().format(number) == word {
                Some(number)
            } else {
                None
            }
        }
        Err(_) => None,
    }
}

// The strategy that a word names for a job of so many variables, if it names one.
fn read_strategy(word: &str, variables: usize) -> Option<Strategy>
    ensures { result ≡ strategy_of variables word.now }
{
    if word == "plain" {
        Some(Strategy::Plain)
    } else if word == "represented" {
        Some(Strategy::Represented)
    } else if word == "small-value" {
        Some(Strategy::SmallValue {
            variables: variables.min(MOST_SMALL),
        })
    } else {
        None
    }
}

/// Whether a command reads the input.
pub fn needs_input(command: Option<Command>) -> bool
    ensures { result ≡ reads_input command }
{
    matches!(command, Some(Command::Judge(_)))
}
