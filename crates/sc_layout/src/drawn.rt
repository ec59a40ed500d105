//! The events of an opening: a point is drawn, and values are observed.
ghost use Rattle.std.specs.Prelude.{◌≡◌, ◌+◌, ◌*◌, ◌≤◌, ◌<◌, ◌^◌, ◌++◌, IfOk, IfSome, length, map};
ghost use Rattle.sc_definitions.specs.Transcript.{sent};
ghost use Rattle.sc_challenger.specs.Parties.{MayAppend};
ghost use Rattle.sc_layout.specs.Openings.{drawn_point, point_events};

use sc_challenger::{Challenger, sample_ext};
use sc_field::{ExtensionField, Field, NoMemory, with_room};
use sc_table::Point;
use sc_transcript::rounds::observe_values;
use std::alloc::Global;

// Draws a point of so many coordinates, the first one first. A refusal leaves the history as it
// was.
pub(crate) fn draw_point<F: Field, EF: ExtensionField<F>, C: Challenger<F>>(
    alloc: Global,
    challenger: &mut C,
    variables: usize,
) -> Result<Point<EF>, NoMemory>
    requires few { variables ≤ 40 }
    ensures drawn { IfOk result (λ p. map EF.number p ≡ drawn_point (C.party challenger.old).rules
        EF.extension (C.party challenger.old).history variables) }
    ensures size { IfOk result (λ p. length p ≡ variables) }
    ensures left { MayAppend (point_events EF.extension variables) (variables * EF.DEGREE)
        (C.party challenger.old) (C.party challenger.new) result }
{
    let mut coordinates = with_room(alloc, variables)?;
    challenger.reserve(variables * EF::DEGREE)?;
    for _place in 0..variables {
        coordinates.push_reserved(sample_ext::<F, EF, C>(challenger).unwrap());
    }
    Ok(Point::new(coordinates))
}

// Observes the values of an opening: those at its point, and then those through the successor map.
// A refusal leaves the history as it was.
pub(crate) fn observe_opening<F: Field, EF: ExtensionField<F>, C: Challenger<F>>(
    challenger: &mut C,
    current: &[EF],
    next: &[EF],
) -> Result<(), NoMemory>
    ensures { MayAppend (sent EF.extension (map EF.number current.now ++ map EF.number next.now))
        ((length current.now + length next.now) * EF.DEGREE)
        (C.party challenger.old) (C.party challenger.new) result }
{
    let Some(events) = words_of(EF::DEGREE, current.len(), next.len()) else {
        return Err(NoMemory);
    };
    challenger.reserve(events)?;
    observe_values::<F, EF, C, _>(challenger, &current);
    observe_values::<F, EF, C, _>(challenger, &next);
    Ok(())
}

// How many words so many values have, and so many more, of a degree, where a `usize` holds that
// many.
fn words_of(degree: usize, some: usize, more: usize) -> Option<usize>
    ensures { IfSome result (λ n. n ≡ (some + more) * degree) }
{
    some.checked_add(more)?.checked_mul(degree)
}
