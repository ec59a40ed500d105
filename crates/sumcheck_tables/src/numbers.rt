//! Numbers as elements of a field.
ghost use Rattle.std.specs.Prelude.{◌≡◌, ◌<◌, All, IfOk, map};
ghost use Rattle.std.specs.List.{list_all};
ghost use Rattle.sc_transcript.specs.Data.{pair_of};
ghost use Rattle.sumcheck_tables.specs.Tables.{are_below};
ghost use Rattle.sumcheck_tables.specs.Views.{numbers_in};

use crate::job::RoundNumbers;
use sc_field::{Field, NoMemory};
use sc_table::RoundMessage;
use std::alloc::Global;

/// Whether each number is below a size. It looks at all of them, since a loop that is left early is
/// not compiled to lanes.
pub(crate) fn all_below(numbers: &[u32], size: u64) -> bool
    ensures { result ≡ are_below size numbers.now }
{
    let mut below = true;
    for n in numbers {
        below &= u64::from(*n) < size;
    }
    below
}

/// Whether each number of each round is below a size.
pub(crate) fn rounds_below(rounds: &[RoundNumbers], size: u64) -> bool
    ensures { result ≡ list_all (are_below size) (map numbers_in rounds.now) }
{
    for round in rounds {
        if !round_below(round, size) {
            return false;
        }
    }
    true
}

// Whether both numbers of a round are.
fn round_below(round: &RoundNumbers, size: u64) -> bool
    ensures { result ≡ are_below size (numbers_in round.now) }
{
    u64::from(round.first) < size && u64::from(round.leading) < size
}

/// The elements with these numbers, which are below the field's size.
pub(crate) fn elements<F: Field>(alloc: Global, numbers: &[u32]) -> Result<Vec<F>, NoMemory>
    requires { All (λ n. n < F.ops.size) numbers.now }
    ensures { IfOk result (λ v. map F.number v.items ≡ numbers.now) }
{
    let mut found = Vec::with_capacity(alloc, numbers.len())?;
    for n in numbers {
        found.push_reserved(F::element(u64::from(*n)));
    }
    Ok(found)
}

/// The messages of the two values with these numbers.
pub(crate) fn messages<F: Field>(
    alloc: Global,
    rounds: &[RoundNumbers],
) -> Result<Vec<RoundMessage<F>>, NoMemory>
    requires { All (λ r. (r.first < F.ops.size) × (r.leading < F.ops.size)) rounds.now }
    ensures { IfOk result (λ v. map (pair_of F.number) v.items ≡ map numbers_in rounds.now) }
{
    let mut found = Vec::with_capacity(alloc, rounds.len())?;
    for round in rounds {
        found.push(RoundMessage {
            c_a: F::element(u64::from(round.first)),
            c_inf: F::element(u64::from(round.leading)),
        })?;
    }
    Ok(found)
}
