//! The lines of grids.
ghost use Rattle.std.specs.Prelude.{OnOk, map};
ghost use Rattle.sc_svo.specs.Grids.{grids_shown};
ghost use Rattle.sumcheck_replies.specs.Lines.{Adds, grid_line, grid_lines};

use sc_audit::Grids;
use sc_field::{Field, NoMemory};
use sumcheck_replies::lines;

/// Two lines for the grid of each round: the values with the round's variable at 0, and then those
/// with it at infinity.
pub(crate) fn push_grids<EF: Field>(text: &mut String, grids: &Grids<EF>) -> Result<(), NoMemory>
    ensures { OnOk result (Adds text.old text.new (grid_lines 0 (grids_shown EF.number grids.now))) }
{
    let rounds = grids.rounds.as_slice();
    for i in 0..rounds.len() {
        let grid = &rounds[i];
        push_grid(text, i, "zero", grid.zero.as_slice())?;
        push_grid(text, i, "infinity", grid.infinity.as_slice())?;
    }
    Ok(())
}

// The line of one list of a round's grid.
fn push_grid<EF: Field>(
    text: &mut String,
    i: usize,
    place: &str,
    values: &[EF],
) -> Result<(), NoMemory>
    ensures { OnOk result (Adds text.old text.new (grid_line i place.now (map EF.number values.now))) }
{
    lines::push_grid_name(text, i, place)?;
    lines::push_values(text, values)?;
    lines::push_end(text)?;
    Ok(())
}
