//! The sums of a table over the variables that are bound last, for each round.

ghost use Rattle.std.specs.Prelude.{◌≡◌, ℕ, ◌^◌, ◌<◌, ◌≤◌, List, length, map};
ghost use Rattle.std.specs.Prelude.{IfOk, OnErr};
ghost use Rattle.sc_definitions.specs.Tables.{rows_of};
ghost use Rattle.sc_table.specs.Polys.{IsFixedOf, variables_of, table_of};
ghost use Rattle.sc_table.specs.Strategy.{order_of};
ghost use Rattle.sc_partials.specs.Partials.{numbers_in, tables_in, other_order, LastOf, opened};
ghost use Rattle.sc_partials.specs.Partials.{IsPartial, Leaves, LeavesSome, GrowsBy};

use sc_field::{Field, NoMemory};
use sc_table::{Poly, VariableOrder, fix_prefix_var_slice, fix_suffix_var_slice};
use std::alloc::Global;

/// A table over the variables that a round keeps: of each of their rows, the sum over all others,
/// under the equality weights of a point there.
#[derive(Drop)]
pub struct EqPartials<EF> {
    table: Poly<EF>,
}

impl<EF: Field> EqPartials<EF> {
    /// The table of `l` variables, at most 40, that is zero in each row; `NoMemory` where there is
    /// no memory for it.
    pub fn zero(alloc: Global, l: usize) -> Result<Self, NoMemory>
        requires { l ≤ 40 }
        ensures size { IfOk result (λ p. length (numbers_in EF.number p) ≡ 2 ^ l) }
        ensures zeros { IfOk result (λ p. (a : ℕ) → a < 2 ^ l → rows_of (numbers_in EF.number p) a ≡ 0) }
    {
        Ok(EqPartials {
            table: Poly::zero(alloc, l)?,
        })
    }

    /// The sums, as many as rows of the kept variables.
    pub fn table(&self) -> &[EF]
        ensures { map EF.number result.now ≡ numbers_in EF.number self.now }
    {
        self.table.as_slice()
    }
}

/// The partial tables of the small-value rounds, the first round first: round l, counted from 1,
/// keeps the first l variables in binding order.
#[derive(Drop)]
pub struct EqSvoPartials<EF> {
    rounds: Vec<EqPartials<EF>>,
}

impl<EF> EqSvoPartials<EF> {
    /// One table a round.
    pub fn rounds(&self) -> &[EqPartials<EF>]
        ensures { result.now ≡ tables_in self.now }
    {
        &self.rounds
    }

    /// The tables of these rounds, the first round first.
    pub fn new(rounds: Vec<EqPartials<EF>>) -> Self
        ensures { result.rounds ≡ rounds }
    {
        EqSvoPartials { rounds }
    }
}

/// Appends the partial tables of all rounds up to that of `table`, which keeps as many variables as
/// there are coordinates in `kept`, and answers the sum over all variables. What the list held stays
/// at its front.
///
/// `NoMemory` comes where there is none for the tables of the rounds before, or for the list; the
/// list has then gained the tables of the first few rounds, fewer than all, or none.
pub fn push_partials<EF: Field>(
    alloc: Global,
    order: VariableOrder,
    table: Poly<EF>,
    kept: &[EF],
    rounds: &mut Vec<EqPartials<EF>>,
) -> Result<EF, NoMemory>
    requires { variables_of table ≡ length kept.now }
    ensures rounds { (f : ℕ → ℕ) (zs : List ℕ) →
        IsPartial (order_of order) EF.ops EF.number f zs (map EF.number kept.now) table
        → IfOk result (Leaves EF.ops EF.number (opened (order_of order) f zs) (length kept.now)
        rounds.old.items rounds.new.items) }
    ensures refused { (f : ℕ → ℕ) (zs : List ℕ) →
        IsPartial (order_of order) EF.ops EF.number f zs (map EF.number kept.now) table
        → OnErr result (LeavesSome EF.ops EF.number (opened (order_of order) f zs)
        (length kept.now) rounds.old.items rounds.new.items) }
    ensures kept { GrowsBy (length kept.now) rounds.old.items rounds.new.items }
{
    if kept.is_empty() {
        return Ok(table.as_slice()[0]);
    }
    let (z, rest) = last_kept(order, kept);
    let next = sum_over(alloc, order, &table, z)?;
    let value = push_partials(alloc, order, next, rest, rounds)?;
    rounds.push(EqPartials { table })?;
    Ok(value)
}

// Of the coordinates of the variables that are kept, one or more, that of the one which is bound
// last, and the others.
pub(crate) fn last_kept<EF: Copy>(order: VariableOrder, kept: &[EF]) -> (EF, &[EF])
    requires { 0 < length kept.now }
    ensures { LastOf (order_of order) kept.now result.0 result.1.now }
{
    match order {
        VariableOrder::Prefix => {
            let last = kept.len() - 1;
            (kept[last], &kept[..last])
        }
        VariableOrder::Suffix => (kept[0], &kept[1..]),
    }
}

// A table summed over the variable that is bound last, under the equality weights of a coordinate:
// it is bound there.
pub(crate) fn sum_over<EF: Field>(
    alloc: Global,
    order: VariableOrder,
    table: &Poly<EF>,
    z: EF,
) -> Result<Poly<EF>, NoMemory>
    requires { 0 < variables_of table.now }
    ensures { IfOk result (IsFixedOf (other_order (order_of order)) EF.ops EF.number (EF.number z)
        (table_of EF.number table.now) (2 ^ variables_of table.now)) }
{
    match order {
        VariableOrder::Prefix => fix_suffix_var_slice(alloc, table.as_slice(), z),
        VariableOrder::Suffix => fix_prefix_var_slice(alloc, table.as_slice(), z),
    }
}
