//! The lines of a report on a claimed product, and the texts of its refusals.
ghost use Rattle.std.specs.Prelude.{◌≡◌, IfOk, OnOk, map, string_bytes};
ghost use Rattle.sumcheck_replies.specs.Lines.{Adds};
ghost use Rattle.sumcheck_matmul.specs.MatmulLines.{false_entry_text, inner_text, left_line};
ghost use Rattle.sumcheck_matmul.specs.MatmulLines.{lucky_point_line, lucky_point_name};
ghost use Rattle.sumcheck_matmul.specs.MatmulLines.{outer_text, point_line, right_line, side_name};
ghost use Rattle.sumcheck_matmul.specs.MatmulLines.{side_text};

use sc_field::{Field, NoMemory};
use std::alloc::{AllocError, Global};
use sumcheck_replies::lines::{push_end, push_values};

/// The line of the point.
#[tactic(auto, unfolding(crate::specs::MatmulLines::point_line))]
pub(crate) fn push_point(text: &mut String, x: u64) -> Result<(), AllocError>
    ensures { OnOk result (Adds text.old text.new (point_line x)) }
{
    write!(text, "point {x}\n")
}

/// The line of the left table's value at the challenges.
#[tactic(auto, unfolding(crate::specs::MatmulLines::left_line))]
pub(crate) fn push_left(text: &mut String, x: u64) -> Result<(), AllocError>
    ensures { OnOk result (Adds text.old text.new (left_line x)) }
{
    write!(text, "left {x}\n")
}

/// The line of the right table's value at the challenges.
#[tactic(auto, unfolding(crate::specs::MatmulLines::right_line))]
pub(crate) fn push_right(text: &mut String, x: u64) -> Result<(), AllocError>
    ensures { OnOk result (Adds text.old text.new (right_line x)) }
{
    write!(text, "right {x}\n")
}

/// The verdict that the point was lucky: at how many elements the polynomial vanishes, and its
/// coefficients, the constant first.
pub(crate) fn push_lucky_point<EF: Field>(
    text: &mut String,
    poly: &[EF],
    vanishing: u64,
) -> Result<(), NoMemory>
    ensures { OnOk result (Adds text.old text.new
        (lucky_point_line (map EF.number poly.now) vanishing)) }
{
    push_lucky_point_name(text, vanishing)?;
    push_values(text, poly)?;
    push_end(text)?;
    Ok(())
}

// The beginning of that line, up to the coefficients.
#[tactic(auto, unfolding(crate::specs::MatmulLines::lucky_point_name))]
fn push_lucky_point_name(text: &mut String, vanishing: u64) -> Result<(), AllocError>
    ensures { OnOk result (Adds text.old text.new (lucky_point_name vanishing)) }
{
    write!(text, "verdict lucky-point vanishing {vanishing} poly")
}

/// A matrix with a side that does not fit: which it is, and both its sides.
#[tactic(auto, unfolding(crate::specs::MatmulLines::side_text))]
pub(crate) fn side_text(
    alloc: Global,
    which: usize,
    rows: usize,
    cols: usize,
) -> Result<String, AllocError>
    ensures { IfOk result (λ s. string_bytes s ≡ side_text which rows cols) }
{
    let name = side_name(which);
    format!(in alloc; "matmul side {name} {rows} {cols}")
}

// The word for a matrix by its number.
fn side_name(which: usize) -> &'static str
    ensures { result.now ≡ side_name which }
{
    if which == 0 {
        "left"
    } else if which == 1 {
        "right"
    } else {
        "claimed"
    }
}

/// Two matrices that have no product: the columns of the left one, and the rows of the right one.
#[tactic(auto, unfolding(crate::specs::MatmulLines::inner_text))]
pub(crate) fn inner_text(alloc: Global, left: usize, right: usize) -> Result<String, AllocError>
    ensures { IfOk result (λ s. string_bytes s ≡ inner_text left right) }
{
    format!(in alloc; "matmul inner {left} {right}")
}

/// The sides of a claimed matrix that are not those of the product.
#[tactic(auto, unfolding(crate::specs::MatmulLines::outer_text))]
pub(crate) fn outer_text(alloc: Global, rows: usize, cols: usize) -> Result<String, AllocError>
    ensures { IfOk result (λ s. string_bytes s ≡ outer_text rows cols) }
{
    format!(in alloc; "matmul outer {rows} {cols}")
}

/// An entry by its row and column, with the claimed value and the true one.
#[tactic(auto, unfolding(crate::specs::MatmulLines::false_entry_text))]
pub(crate) fn false_entry_text(
    alloc: Global,
    place: (usize, usize),
    claimed: u64,
    actual: u64,
) -> Result<String, AllocError>
    ensures { IfOk result (λ s. string_bytes s
        ≡ false_entry_text place.0 place.1 claimed actual) }
{
    let (row, col) = place;
    format!(in alloc; "false-entry {row} {col} claimed {claimed} true {actual}")
}
