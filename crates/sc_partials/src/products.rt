//! The products of two tables of one, two or three variables at the digits, written out.

ghost use Rattle.std.specs.Prelude.{◌≡◌, ℕ, ◌+◌, ◌*◌, ◌/◌, ◌%◌, ◌<◌, ◌≤◌, [], ◌∷◌, length};
ghost use Rattle.sc_definitions.specs.Ring.{◌*⟨◌⟩◌};
ghost use Rattle.sc_definitions.specs.Tables.{Order, entries, rows_of};
ghost use Rattle.sc_definitions.specs.Grids.{Digit, digit_zero, infinity, digit_of};
ghost use Rattle.sc_definitions.specs.Grids.{grid_value, grid_list};
ghost use Rattle.sc_table.specs.Strategy.{order_of};
ghost use Rattle.sc_partials.specs.Products.{pair_at, square_at, cube_at};
ghost use Rattle.sc_partials.specs.Products.{IsPairLess, HasRows, Gains};

use sc_field::Field;
use sc_table::VariableOrder;

// The values of a table with a variable at 0 and at 1.
#[derive(Clone, Copy)]
struct Pair<EF> {
    low: EF,
    high: EF,
}

// The pairs of a table's first variable, with the second one at 0 and at 1.
#[derive(Clone, Copy)]
struct Square<EF> {
    low: Pair<EF>,
    high: Pair<EF>,
}

// The squares of a table's first two variables, with the third one at 0 and at 1.
#[derive(Clone, Copy)]
struct Cube<EF> {
    low: Square<EF>,
    high: Square<EF>,
}

// Adds the products of two tables of one variable to a grid's values at 0 and at infinity.
pub(crate) fn add_of_one<EF: Field>(
    table: &[EF],
    weights: &[EF],
    at_zero: &mut [EF],
    at_infinity: &mut [EF],
)
    requires table { length table.now ≡ 2 }
    requires weights { length weights.now ≡ 2 }
    requires at_zero { length at_zero.old ≡ 1 }
    requires at_infinity { length at_infinity.old ≡ 1 }
    ensures at_zero { (order : Order) → Gains EF.number EF.ops 0 1 (rows_of (grid_list order
        EF.ops (entries EF.number table.now) (entries EF.number weights.now) digit_zero 0 0))
        at_zero.old at_zero.new }
    ensures at_infinity { (order : Order) → Gains EF.number EF.ops 0 1 (rows_of (grid_list order
        EF.ops (entries EF.number table.now) (entries EF.number weights.now) infinity 0 0))
        at_infinity.old at_infinity.new }
{
    let (x, y) = (pair_of(table), pair_of(weights));
    add_product(at_zero, 0, x.low, y.low);
    add_product(at_infinity, 0, x.high.sub(x.low), y.high.sub(y.low));
}

// The same of two variables.
pub(crate) fn add_of_two<EF: Field>(
    order: VariableOrder,
    table: &[EF],
    weights: &[EF],
    at_zero: &mut [EF],
    at_infinity: &mut [EF],
)
    requires table { length table.now ≡ 4 }
    requires weights { length weights.now ≡ 4 }
    requires at_zero { length at_zero.old ≡ 3 }
    requires at_infinity { length at_infinity.old ≡ 3 }
    ensures at_zero { Gains EF.number EF.ops 0 3 (rows_of (grid_list (order_of order)
        EF.ops (entries EF.number table.now) (entries EF.number weights.now) digit_zero 1 0))
        at_zero.old at_zero.new }
    ensures at_infinity { Gains EF.number EF.ops 0 3 (rows_of (grid_list (order_of order)
        EF.ops (entries EF.number table.now) (entries EF.number weights.now) infinity 1 0))
        at_infinity.old at_infinity.new }
{
    let (x, y) = (square_of(order, table), square_of(order, weights));
    add_pairs(at_zero, 0, x.low, y.low);
    add_pairs(
        at_infinity,
        0,
        pair_less(x.high, x.low),
        pair_less(y.high, y.low),
    );
}

// The same of three variables.
pub(crate) fn add_of_three<EF: Field>(
    order: VariableOrder,
    table: &[EF],
    weights: &[EF],
    at_zero: &mut [EF],
    at_infinity: &mut [EF],
)
    requires table { length table.now ≡ 8 }
    requires weights { length weights.now ≡ 8 }
    requires at_zero { length at_zero.old ≡ 9 }
    requires at_infinity { length at_infinity.old ≡ 9 }
    ensures at_zero { Gains EF.number EF.ops 0 9 (rows_of (grid_list (order_of order)
        EF.ops (entries EF.number table.now) (entries EF.number weights.now) digit_zero 2 0))
        at_zero.old at_zero.new }
    ensures at_infinity { Gains EF.number EF.ops 0 9 (rows_of (grid_list (order_of order)
        EF.ops (entries EF.number table.now) (entries EF.number weights.now) infinity 2 0))
        at_infinity.old at_infinity.new }
{
    let (x, y) = (cube_of(order, table), cube_of(order, weights));
    add_squares(at_zero, x.low, y.low);
    add_squares(
        at_infinity,
        square_less(x.high, x.low),
        square_less(y.high, y.low),
    );
}

// A table of one variable.
fn pair_of<EF: Field>(values: &[EF]) -> Pair<EF>
    requires { length values.now ≡ 2 }
    ensures { (order : Order) (d : Digit) → pair_at EF.number EF.ops d result
        ≡ grid_value order EF.ops (entries EF.number values.now) (d ∷ []) 0 0 }
{
    Pair {
        low: values[0],
        high: values[1],
    }
}

// A table of two variables.
fn square_of<EF: Field>(order: VariableOrder, values: &[EF]) -> Square<EF>
    requires { length values.now ≡ 4 }
    ensures { (d e : Digit) → square_at EF.number EF.ops d e result
        ≡ grid_value (order_of order) EF.ops (entries EF.number values.now) (d ∷ e ∷ []) 0 0 }
{
    match order {
        VariableOrder::Prefix => square_in(values, 0, 2, 1),
        VariableOrder::Suffix => square_in(values, 0, 1, 2),
    }
}

// A table of three variables.
fn cube_of<EF: Field>(order: VariableOrder, values: &[EF]) -> Cube<EF>
    requires { length values.now ≡ 8 }
    ensures { (d e c : Digit) → cube_at EF.number EF.ops d e c result
        ≡ grid_value (order_of order) EF.ops (entries EF.number values.now) (d ∷ e ∷ c ∷ [])
        0 0 }
{
    match order {
        VariableOrder::Prefix => Cube {
            low: square_in(values, 0, 4, 2),
            high: square_in(values, 1, 4, 2),
        },
        VariableOrder::Suffix => Cube {
            low: square_in(values, 0, 1, 2),
            high: square_in(values, 4, 1, 2),
        },
    }
}

// The square in a table whose first row is the given one, where the rows with the first and with
// the second variable at 1 are so many further.
fn square_in<EF: Field>(values: &[EF], from: usize, first: usize, second: usize) -> Square<EF>
    requires { from + first + second < length values.now }
    ensures { HasRows EF.number (entries EF.number values.now) from first second result }
{
    Square {
        low: Pair {
            low: values[from],
            high: values[from + first],
        },
        high: Pair {
            low: values[from + second],
            high: values[from + first + second],
        },
    }
}

// The values of a pair less those of another.
fn pair_less<EF: Field>(high: Pair<EF>, low: Pair<EF>) -> Pair<EF>
    ensures { IsPairLess EF.number EF.ops high low result }
{
    Pair {
        low: high.low.sub(low.low),
        high: high.high.sub(low.high),
    }
}

// The values of a square less those of another.
fn square_less<EF: Field>(high: Square<EF>, low: Square<EF>) -> Square<EF>
    ensures low { IsPairLess EF.number EF.ops high.low low.low result.low }
    ensures high { IsPairLess EF.number EF.ops high.high low.high result.high }
{
    Square {
        low: pair_less(high.low, low.low),
        high: pair_less(high.high, low.high),
    }
}

// Adds the products of two squares at the nine digits of both variables, of which the first one has
// the lowest.
fn add_squares<EF: Field>(sums: &mut [EF], x: Square<EF>, y: Square<EF>)
    requires { length sums.old ≡ 9 }
    ensures { Gains EF.number EF.ops 0 9 (λ k.
        square_at EF.number EF.ops (digit_of (k % 3)) (digit_of (k / 3)) x
        *⟨ EF.ops ⟩ square_at EF.number EF.ops (digit_of (k % 3)) (digit_of (k / 3)) y)
        sums.old sums.new }
{
    add_pairs(sums, 0, x.low, y.low);
    add_pairs(sums, 3, x.high, y.high);
    add_pairs(sums, 6, pair_less(x.high, x.low), pair_less(y.high, y.low));
}

// Adds the products of two pairs at the three digits, from a place on.
fn add_pairs<EF: Field>(sums: &mut [EF], from: usize, x: Pair<EF>, y: Pair<EF>)
    requires { from + 3 ≤ length sums.old }
    ensures { Gains EF.number EF.ops from 3 (λ k. pair_at EF.number EF.ops (digit_of k) x
        *⟨ EF.ops ⟩ pair_at EF.number EF.ops (digit_of k) y) sums.old sums.new }
{
    add_product(sums, from, x.low, y.low);
    add_product(sums, from + 1, x.high, y.high);
    add_product(sums, from + 2, x.high.sub(x.low), y.high.sub(y.low));
}

// Adds the product of two values to the sum at a place.
fn add_product<EF: Field>(sums: &mut [EF], place: usize, x: EF, y: EF)
    requires { place < length sums.old }
    ensures { Gains EF.number EF.ops place 1 (λ k. EF.number x *⟨ EF.ops ⟩ EF.number y)
        sums.old sums.new }
{
    sums[place] = sums[place].add(x.mul(y));
}
