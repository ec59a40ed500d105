//! Tables at the digits of their variables, and the products of two of them.

ghost use Rattle.std.specs.Prelude.{◌≡◌, ℕ, suc, ◌+◌, ◌*◌, ◌^◌, ◌<◌, ◌≤◌, length, IfOk, OnOk};
ghost use Rattle.sc_definitions.specs.Tables.{entries};
ghost use Rattle.sc_table.specs.Strategy.{order_of};
ghost use Rattle.sc_definitions.specs.Grids.{low_row, high_row};
ghost use Rattle.sc_partials.specs.Staged.{HasDifferences, HasDigits, HasDigit, IsStaged};

use sc_field::{Field, NoMemory};
use sc_table::VariableOrder;
use std::alloc::Global;

// The values of a table at the digits 0, 1 and infinity of the `before` variables that are bound
// first, of which the first one has the lowest digit, and at 0 and 1 of the one after them, which
// comes last: 2 * 3^before values.
pub(crate) fn staged<EF: Field>(
    alloc: Global,
    order: VariableOrder,
    table: &[EF],
    before: usize,
) -> Result<Vec<EF>, NoMemory>
    requires few { before ≤ 12 }
    requires size { length table.now ≡ 2 ^ suc before }
    ensures { IfOk result (λ v. IsStaged EF.number EF.ops (order_of order)
        (entries EF.number table.now) before 1 v.items) }
{
    let mut values = Vec::from_slice(alloc, table)?;
    let mut places = 1;
    for i in 0..before {
        values = with_digit(alloc, order, &values, 1 << (before - i), places)?;
        places *= 3;
    }
    Ok(values)
}

// The values at the digits of one variable more, where so many places stand for the digits of those
// before it, and so many rows for the variables after it.
fn with_digit<EF: Field>(
    alloc: Global,
    order: VariableOrder,
    values: &[EF],
    rows: usize,
    places: usize,
) -> Result<Vec<EF>, NoMemory>
    requires size { length values.now ≡ (rows + rows) * places }
    requires some { 0 < places }
    requires few { length values.now < 2 ^ 60 }
    ensures { (m : ℕ) → rows ≡ 2 ^ m → IfOk result (λ v. HasDigit EF.number EF.ops
        (order_of order) m places values.now v.items) }
{
    let mut wider = Vec::with_capacity(alloc, 3 * (rows * places))?;
    for row in 0..rows {
        let (low, high) = pair_of(order, row, rows);
        let at_zero = &values[low * places..low * places + places];
        let at_one = &values[high * places..high * places + places];
        push_digits(&mut wider, at_zero, at_one)?;
    }
    Ok(wider)
}

// The two rows of a table that make a row where the variable that comes next is bound: with it at 0
// and at 1. So many rows are left.
pub(crate) fn pair_of(order: VariableOrder, row: usize, rows: usize) -> (usize, usize)
    requires low { row < rows }
    requires few { rows < 2 ^ 62 }
    ensures low { result.0 ≡ low_row (order_of order) row }
    ensures high { (m : ℕ) → rows ≡ 2 ^ m → result.1 ≡ high_row (order_of order) m row }
    ensures within { result.0 < result.1 }
    ensures below { result.1 < rows + rows }
{
    match order {
        VariableOrder::Prefix => (row, rows + row),
        VariableOrder::Suffix => (2 * row, 2 * row + 1),
    }
}

// Appends the values at 0, those at 1, and those at infinity, which are the differences.
fn push_digits<EF: Field>(values: &mut Vec<EF>, low: &[EF], high: &[EF]) -> Result<(), NoMemory>
    requires { length low.now ≡ length high.now }
    ensures { OnOk result (HasDigits EF.number EF.ops low.now high.now values.old.items
        values.new.items) }
{
    values.extend_from_slice(low)?;
    values.extend_from_slice(high)?;
    push_differences(values, low, high)
}

// Appends what each value of `high` is more than that of `low`.
fn push_differences<EF: Field>(
    values: &mut Vec<EF>,
    low: &[EF],
    high: &[EF],
) -> Result<(), NoMemory>
    requires { length low.now ≡ length high.now }
    ensures { OnOk result (HasDifferences EF.number EF.ops low.now high.now values.old.items
        (length low.now) values.new.items) }
{
    for k in 0..low.len() {
        values.push(high[k].sub(low[k]))?;
    }
    Ok(())
}
