//! The lines of a report on claims on tables, and the texts of its refusals.
ghost use Rattle.std.specs.Prelude.{◌≡◌, IfOk, OnOk, map, string_bytes};
ghost use Rattle.sumcheck_openings.specs.OpeningsLines.{claim_arity_text, claim_table_text};
ghost use Rattle.sumcheck_openings.specs.OpeningsLines.{numbered_line, numbered_lines};
ghost use Rattle.sumcheck_openings.specs.OpeningsLines.{opening_count_text, table_text};
ghost use Rattle.sumcheck_replies.specs.Lines.{Adds};

use sc_field::{Field, NoMemory};
use std::alloc::{AllocError, Global};

/// A line for each value, with a name and the value's place.
pub(crate) fn push_numbered<EF: Field>(
    text: &mut String,
    name: &str,
    values: &[EF],
) -> Result<(), NoMemory>
    ensures { OnOk result (Adds text.old text.new
        (numbered_lines name.now 0 (map EF.number values.now))) }
{
    for i in 0..values.len() {
        push_numbered_line(text, name, i, values[i].index())?;
    }
    Ok(())
}

// One of these lines.
#[tactic(auto, unfolding(crate::specs::OpeningsLines::numbered_line))]
fn push_numbered_line(text: &mut String, name: &str, i: usize, x: u64) -> Result<(), AllocError>
    ensures { OnOk result (Adds text.old text.new (numbered_line name.now i x)) }
{
    write!(text, "{name} {i}: {x}\n")
}

/// A table of a length that does not fit.
#[tactic(auto, unfolding(crate::specs::OpeningsLines::table_text))]
pub(crate) fn table_text(alloc: Global, table: usize, len: usize) -> Result<String, AllocError>
    ensures { IfOk result (λ s. string_bytes s ≡ table_text table len) }
{
    format!(in alloc; "openings table {table} length {len}")
}

/// A claim that names no table.
#[tactic(auto, unfolding(crate::specs::OpeningsLines::claim_table_text))]
pub(crate) fn claim_table_text(
    alloc: Global,
    claim: usize,
    table: usize,
) -> Result<String, AllocError>
    ensures { IfOk result (λ s. string_bytes s ≡ claim_table_text claim table) }
{
    format!(in alloc; "openings claim {claim} table {table}")
}

/// A claim whose point has another number of coordinates than there are variables.
#[tactic(auto, unfolding(crate::specs::OpeningsLines::claim_arity_text))]
pub(crate) fn claim_arity_text(
    alloc: Global,
    claim: usize,
    coordinates: usize,
) -> Result<String, AllocError>
    ensures { IfOk result (λ s. string_bytes s ≡ claim_arity_text claim coordinates) }
{
    format!(in alloc; "openings claim {claim} variables {coordinates}")
}

/// How many openings a proof should have, and how many it has.
#[tactic(auto, unfolding(crate::specs::OpeningsLines::opening_count_text))]
pub(crate) fn opening_count_text(
    alloc: Global,
    expected: usize,
    actual: usize,
) -> Result<String, AllocError>
    ensures { IfOk result (λ s. string_bytes s ≡ opening_count_text expected actual) }
{
    format!(in alloc; "openings expected {expected} actual {actual}")
}
