//! The sums of a table over the variables that are bound last, under the parts of a point's
//! successor weights, for each round.

ghost use Rattle.std.specs.Prelude.{◌≡◌, ℕ, suc, ◌^◌, ◌<◌, ◌≤◌, ◌+◌, true, List, length, map, set};
ghost use Rattle.std.specs.Prelude.{IfOk, OnErr};
ghost use Rattle.sc_definitions.specs.Ring.{◌+⟨◌⟩◌, ◌*⟨◌⟩◌};
ghost use Rattle.sc_definitions.specs.Tables.{entries};
ghost use Rattle.sc_definitions.specs.Shifts.{only_at};
ghost use Rattle.sc_definitions.specs.Parts.{Equal, part_weight, tables_by};
ghost use Rattle.sc_table.specs.Polys.{variables_of, table_of};
ghost use Rattle.sc_table.specs.Strategy.{order_of};
ghost use Rattle.sc_partials.specs.Partials.{other_order, opened, GrowsBy};
ghost use Rattle.sc_partials.specs.NextPartials.{parts_in, next_tables_in, HasRows, AreOf};
ghost use Rattle.sc_partials.specs.NextPartials.{HaveRows, AreNextPartials};
ghost use Rattle.sc_partials.specs.NextPartials.{NextLeaves, NextLeavesSome};
ghost use Rattle.sc_partials.specs.NextPartials.{half_row, part_fewer, rows_by, closing_sum};

use crate::partials::{last_kept, sum_over};
use crate::staged::pair_of;
use sc_field::{Field, NoMemory};
use sc_table::{Poly, VariableOrder};
use std::alloc::Global;

/// Three tables over the variables that a round keeps: of each of their rows, sums over all others,
/// under the parts of a point's successor weights there.
///
/// A successor weight is done within the variables that are summed over, or carried into those
/// that are kept, or it is that of the last row, which is its own next.
#[derive(Drop)]
pub struct NextPartials<EF> {
    /// The sums of the part that is done.
    pub done: Poly<EF>,
    /// The sums of the part that is carried.
    pub carry: Poly<EF>,
    /// The sums of the last row's part.
    pub omega: Poly<EF>,
}

impl<EF: Field> NextPartials<EF> {
    /// The tables of `l` variables, at most 40, that are zero in each row; `NoMemory` where there
    /// is no memory for them.
    pub fn zero(alloc: Global, l: usize) -> Result<Self, NoMemory>
        requires { l ≤ 40 }
        ensures { IfOk result (λ p. parts_in EF.number p ≡ tables_by l (λ part b. 0)) }
    {
        Ok(NextPartials {
            done: Poly::zero(alloc, l)?,
            carry: Poly::zero(alloc, l)?,
            omega: Poly::zero(alloc, l)?,
        })
    }

    /// The parts of the successor weights of `z` at each row, which are the answers of
    /// [`sc_table::Point::eval_next`] for `z` and the row's digits: at most 40 coordinates.
    /// `NoMemory` where there is no memory for the tables.
    pub fn from_point(alloc: Global, z: &[EF]) -> Result<Self, NoMemory>
        requires { length z.now ≤ 40 }
        ensures { IfOk result (λ p. parts_in EF.number p
            ≡ tables_by (length z.now) (λ part. part_weight EF.ops part (map EF.number z.now))) }
    {
        let equal = Poly::new_from_point(alloc, z, EF::ONE)?;
        NextPartials::of_weights(alloc, &equal)
    }

    /// The sums of the part that is done, as many as rows of the kept variables.
    pub fn done(&self) -> &[EF]
        ensures { map EF.number result.now ≡ (parts_in EF.number self.now).done }
    {
        self.done.as_slice()
    }

    /// The sums of the part that is carried.
    pub fn carry(&self) -> &[EF]
        ensures { map EF.number result.now ≡ (parts_in EF.number self.now).carry }
    {
        self.carry.as_slice()
    }

    /// The sums of the last row's part.
    pub fn omega(&self) -> &[EF]
        ensures { map EF.number result.now ≡ (parts_in EF.number self.now).omega }
    {
        self.omega.as_slice()
    }

    /// The parts of the successor weights of a point, by its equality weights, where all of them
    /// are times one factor: at most 40 variables. `NoMemory` where there is no memory for the
    /// tables.
    pub fn of_weights(alloc: Global, equal: &Poly<EF>) -> Result<Self, NoMemory>
        requires { variables_of equal.now ≤ 40 }
        ensures { (x : ℕ) (zs : List ℕ) →
            HasRows EF.number (length zs) (λ b. x *⟨ EF.ops ⟩ part_weight EF.ops Equal zs b) equal.now
            → IfOk result (HaveRows EF.number (length zs)
            (λ part b. x *⟨ EF.ops ⟩ part_weight EF.ops part zs b)) }
    {
        let (weights, variables) = (equal.as_slice(), equal.num_variables());
        let last = weights.len() - 1;
        let mut moved = Vec::with_capacity(alloc, weights.len())?;
        moved.push(EF::ZERO)?;
        moved.extend_from_slice(&weights[..last])?;
        Ok(NextPartials {
            done: Poly::new(moved),
            carry: alone(alloc, variables, 0, weights[last])?,
            omega: alone(alloc, variables, last, weights[last])?,
        })
    }
}

// The table of so many variables that has a value at one row, and zero at the others.
fn alone<EF: Field>(
    alloc: Global,
    variables: usize,
    row: usize,
    value: EF,
) -> Result<Poly<EF>, NoMemory>
    requires few { variables ≤ 40 }
    requires row { row < 2 ^ variables }
    ensures { IfOk result (HasRows EF.number variables (only_at row (λ b. EF.number value))) }
{
    let mut rows = Poly::zero(alloc, variables)?.into_evals();
    write(&mut rows, row, value);
    Ok(Poly::new(rows))
}

// Writes an item over the one at its place.
fn write<X: Copy>(items: &mut [X], place: usize, item: X)
    requires { place < length items.old }
    ensures { items.new ≡ set items.old place item }
{
    items[place] = item;
}

/// The tables of the small-value rounds, the first round first: round l, counted from 1, keeps the
/// first l variables in binding order.
#[derive(Drop)]
pub struct NextSvoPartials<EF> {
    rounds: Vec<NextPartials<EF>>,
}

impl<EF> NextSvoPartials<EF> {
    /// Three tables a round.
    pub fn rounds(&self) -> &[NextPartials<EF>]
        ensures { result.now ≡ next_tables_in self.now }
    {
        &self.rounds
    }

    /// The tables of these rounds, the first round first.
    pub fn new(rounds: Vec<NextPartials<EF>>) -> Self
        ensures { result.rounds ≡ rounds }
    {
        NextSvoPartials { rounds }
    }
}

/// Appends the tables of all rounds up to that of `tables`, which keeps as many variables as there
/// are coordinates in `kept`, and answers the value through the successor map. What the list held
/// stays at its front.
///
/// `NoMemory` comes where there is none for the tables of the rounds before, or for the list; the
/// list has then gained the tables of the first few rounds, fewer than all, or none.
pub fn push_next_partials<EF: Field>(
    alloc: Global,
    order: VariableOrder,
    tables: NextPartials<EF>,
    kept: &[EF],
    rounds: &mut Vec<NextPartials<EF>>,
) -> Result<EF, NoMemory>
    requires { AreOf (length kept.now) tables }
    ensures rounds { (f : ℕ → ℕ) (zs : List ℕ) →
        AreNextPartials (order_of order) EF.ops EF.number f zs (map EF.number kept.now) tables
        → IfOk result (NextLeaves EF.ops EF.number (opened (order_of order) f zs)
        (length kept.now) rounds.old.items rounds.new.items) }
    ensures refused { (f : ℕ → ℕ) (zs : List ℕ) →
        AreNextPartials (order_of order) EF.ops EF.number f zs (map EF.number kept.now) tables
        → OnErr result (NextLeavesSome EF.ops EF.number (opened (order_of order) f zs)
        (length kept.now) rounds.old.items rounds.new.items) }
    ensures kept { GrowsBy (length kept.now) rounds.old.items rounds.new.items }
{
    if kept.is_empty() {
        return Ok(closed(order, &tables));
    }
    let (z, rest) = last_kept(order, kept);
    let next = fewer(alloc, order, &tables, z)?;
    let value = push_next_partials(alloc, order, next, rest, rounds)?;
    rounds.push(tables)?;
    Ok(value)
}

// The value through the successor map, by the tables that keep no variable.
fn closed<EF: Field>(order: VariableOrder, tables: &NextPartials<EF>) -> EF
    ensures { EF.number result
        ≡ closing_sum (order_of order) EF.ops (rows_by EF.number tables.now) }
{
    let omega = tables.omega.as_slice()[0];
    match order {
        VariableOrder::Prefix => tables.done.as_slice()[0].add(omega),
        VariableOrder::Suffix => tables.carry.as_slice()[0].add(omega),
    }
}

// The tables of the round that keeps one variable less: the last one in the order, whose coordinate
// is `z`, joins those that are summed over.
fn fewer<EF: Field>(
    alloc: Global,
    order: VariableOrder,
    tables: &NextPartials<EF>,
    z: EF,
) -> Result<NextPartials<EF>, NoMemory>
    requires { (m : ℕ) × AreOf (suc m) tables.now }
    ensures { (m : ℕ) → AreOf (suc m) tables.now → IfOk result (HaveRows EF.number m
        (part_fewer (order_of order) EF.ops m (EF.number z) (rows_by EF.number tables.now))) }
{
    let not_z = EF::ONE.sub(z);
    let line = sum_over(alloc, order, &tables.done, z)?;
    let carried = half_of(alloc, order, &tables.carry, false, z)?;
    let omega = half_of(alloc, order, &tables.omega, true, z)?;
    match order {
        VariableOrder::Prefix => Ok(NextPartials {
            done: with_half(order, line, &tables.carry, not_z),
            carry: carried,
            omega,
        }),
        VariableOrder::Suffix => Ok(NextPartials {
            done: line,
            carry: with_half(order, carried, &tables.done, not_z),
            omega,
        }),
    }
}

// A factor times the rows of a table where its last variable in the order is 1, or where it is 0.
fn half_of<EF: Field>(
    alloc: Global,
    order: VariableOrder,
    table: &Poly<EF>,
    at_one: bool,
    factor: EF,
) -> Result<Poly<EF>, NoMemory>
    requires { 0 < variables_of table.now }
    ensures { (m : ℕ) → variables_of table.now ≡ suc m → IfOk result (HasRows EF.number m
        (λ a. EF.number factor *⟨ EF.ops ⟩ table_of EF.number table.now
        (half_row (order_of order) at_one m a))) }
{
    let half = table.num_evals() / 2;
    let mut rows = Vec::with_capacity(alloc, half)?;
    for a in 0..half {
        let row = half_row(order, at_one, a, half);
        rows.push_reserved(factor.mul(table.as_slice()[row]));
    }
    Ok(Poly::new(rows))
}

// Sums to which a factor times the rows of a table were added where its last variable in the order
// is 1.
fn with_half<EF: Field>(
    order: VariableOrder,
    sums: Poly<EF>,
    table: &Poly<EF>,
    factor: EF,
) -> Poly<EF>
    requires { variables_of table.now ≡ suc (variables_of sums) }
    ensures { HasRows EF.number (variables_of sums) (λ a. table_of EF.number sums a
        +⟨ EF.ops ⟩ EF.number factor *⟨ EF.ops ⟩ table_of EF.number table.now
        (half_row (order_of order) true (variables_of sums) a)) result }
{
    let mut rows = sums.into_evals();
    add_half(order, &mut rows, table.as_slice(), factor);
    Poly::new(rows)
}

// Adds a factor times the rows of a table where its last variable in the order is 1.
fn add_half<EF: Field>(order: VariableOrder, rows: &mut [EF], table: &[EF], factor: EF)
    requires half { length table.now ≡ length rows.old + length rows.old }
    requires few { length table.now < 2 ^ 63 }
    ensures { (m : ℕ) → length rows.old ≡ 2 ^ m → (a : ℕ) → a < 2 ^ m →
        entries EF.number rows.new a ≡ entries EF.number rows.old a +⟨ EF.ops ⟩ EF.number factor
        *⟨ EF.ops ⟩ entries EF.number table.now (half_row (order_of order) true m a) }
{
    let half = rows.len();
    for a in 0..half {
        let high = half_row(order, true, a, half);
        rows[a] = rows[a].add(factor.mul(table[high]));
    }
}

// The row of a table where its last variable in the order is 1, or where it is 0, of so many rows of
// the others.
fn half_row(order: VariableOrder, at_one: bool, row: usize, rows: usize) -> usize
    requires low { row < rows }
    requires few { rows < 2 ^ 62 }
    ensures row { (m : ℕ) → rows ≡ 2 ^ m → result ≡ half_row (order_of order) at_one m row }
    ensures below { result < rows + rows }
{
    let (low, high) = pair_of(other(order), row, rows);
    if at_one { high } else { low }
}

// The order that binds the variables from the other end.
fn other(order: VariableOrder) -> VariableOrder
    ensures { order_of result ≡ other_order (order_of order) }
{
    match order {
        VariableOrder::Prefix => VariableOrder::Suffix,
        VariableOrder::Suffix => VariableOrder::Prefix,
    }
}
