//! Values made of those that stand some places before them.
ghost use Rattle.std.specs.Prelude.{◌≡◌, ◌+◌, ◌*◌, ◌%◌, ◌≤◌, length, take, vec_capacity};
ghost use Rattle.sumcheck_make.specs.Values.{GoOn, number_of};

use sc_field::Field;
use sc_small_fields::F65537;

/// How many places stand between a value and the one that it is made of.
pub(crate) const STRIDE: usize = 8;

// How many values get their places at once, with zeros in them: so few that these are still near
// when the values are written over them.
const PIECE: usize = 256;

/// Appends values to some that stand one after the other, until there are so many. Each is made of
/// the one that stands eight places before it, so that a value need not wait for the one before it.
pub(crate) fn push_rest(taken: &mut Vec<F65537>, count: usize)
    requires some { 8 ≤ length taken.old.items }
    requires more { length taken.old.items ≤ count }
    requires room { count ≤ vec_capacity taken.old }
    ensures size { length taken.new.items ≡ count }
    ensures values { GoOn taken.old.items taken.new.items }
{
    while taken.len() < count {
        let more = PIECE.min(count - taken.len());
        push_piece(taken, more);
    }
}

// Appends so many values.
fn push_piece(taken: &mut Vec<F65537>, more: usize)
    requires some { 8 ≤ length taken.old.items }
    requires room { length taken.old.items + more ≤ vec_capacity taken.old }
    ensures size { length taken.new.items ≡ length taken.old.items + more }
    ensures room { vec_capacity taken.old ≤ vec_capacity taken.new }
    ensures values { GoOn taken.old.items taken.new.items }
{
    let from = taken.len();
    // there is room
    let _filled = taken.resize(from + more, F65537::ZERO);
    write_rest(taken.as_mut_slice(), from);
}

// Writes the values from a place on.
fn write_rest(rows: &mut [F65537], from: usize)
    requires some { 8 ≤ from }
    requires within { from ≤ length rows.old }
    ensures size { length rows.new ≡ length rows.old }
    ensures values { GoOn (take from rows.old) rows.new }
{
    for k in from..rows.len() {
        rows[k] = value_behind(rows[k - STRIDE]);
    }
}

// The value that stands eight places after a value: 75^8 is 9345 modulo 65537, and 74 times the
// sum of the lower powers is 9344.
fn value_behind(value: F65537) -> F65537
    ensures { number_of result ≡ (9345 * number_of value + 9344) % 65537 }
{
    let behind = (9345 * (value.index() as u32) + 9344) % 65537;
    F65537::element(behind as u64)
}
