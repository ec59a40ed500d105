//! The grids of small-value rounds.

ghost use Rattle.std.specs.Prelude.{◌≡◌, [], IfOk};
ghost use Rattle.sc_partials.specs.Sums.{sums_shown};
ghost use Rattle.sc_svo.specs.Grids.{grids_shown};

use sc_field::{Field, NoMemory, with_room};
use sc_memory::Row;
use sc_partials::Sums;
use std::alloc::Global;

/// The grid of one round. Round l, counted from 1, has 3^(l - 1) values in each list, one for each
/// choice of a digit 0, 1 or infinity for each of the variables that were bound before, the first
/// of them fastest.
#[derive(Drop)]
pub struct Grid<EF> {
    /// The values with the round's own variable at 0.
    pub zero: Row<EF>,
    /// The values with it at infinity.
    pub infinity: Row<EF>,
}

/// The grids of the rounds that were built from small values, the first round first.
#[derive(Drop)]
pub struct Grids<EF> {
    /// One grid a round.
    pub rounds: Row<Grid<EF>>,
}

impl<EF> Grids<EF> {
    /// The grids of no round.
    pub fn empty(alloc: Global) -> Self
        ensures { result.rounds ≡ [] }
    {
        Grids {
            rounds: Row::new(Vec::new(alloc)),
        }
    }
}

// The grids that the sums are.
pub(crate) fn into_grids<EF: Field>(
    alloc: Global,
    sums: Vec<Sums<EF>>,
) -> Result<Grids<EF>, NoMemory>
    ensures { IfOk result (λ s. grids_shown EF.number s ≡ sums_shown EF.number sums.items) }
{
    let mut rounds = with_room(alloc, sums.len())?;
    for sum in sums {
        let Sums { zero, infinity } = sum;
        rounds.push(Grid {
            zero: Row::new(zero),
            infinity: Row::new(infinity),
        })?;
    }
    Ok(Grids {
        rounds: Row::new(rounds),
    })
}
