//! The sums that grids are made of, as they are added up.

ghost use Rattle.std.specs.Prelude.{◌≡◌, ℕ, suc, ◌-◌, ◌^◌, ◌<◌, ◌≤◌, length};
ghost use Rattle.std.specs.Prelude.{IfOk, OnErr, OnOk};
ghost use Rattle.sc_definitions.specs.Ring.{◌+⟨◌⟩◌, ◌-⟨◌⟩◌, ◌*⟨◌⟩◌};
ghost use Rattle.sc_definitions.specs.Tables.{Order, entries};
ghost use Rattle.sc_definitions.specs.Grids.{grid_of, grids_of};
ghost use Rattle.sc_table.specs.Strategy.{order_of};
ghost use Rattle.sc_partials.specs.Sums.{IsSumSized, AddsGrid, sums_shown};

use crate::products::{add_of_one, add_of_three, add_of_two};
use crate::staged::staged;
use sc_field::{Field, NoMemory, with_room};
use sc_table::VariableOrder;
use std::alloc::Global;

/// The two lists of a round's grid, as they are added up: round l, counted from 1, has 3^(l - 1)
/// values in each, one for each choice of a digit 0, 1 or infinity for each of the variables that
/// were bound before, the first of them fastest.
#[derive(Drop)]
pub struct Sums<EF> {
    /// The values with the round's own variable at 0.
    pub zero: Vec<EF>,
    /// The values with it at infinity.
    pub infinity: Vec<EF>,
}

/// The grids of so many rounds, at most 12, each value zero; `NoMemory` where there is no memory
/// for them.
pub fn empty_sums<EF: Field>(alloc: Global, rounds: usize) -> Result<Vec<Sums<EF>>, NoMemory>
    requires { rounds ≤ 12 }
    ensures { (order : Order) (n : ℕ) (f : ℕ → ℕ) → IfOk result (λ v.
        sums_shown EF.number v.items ≡ grids_of order EF.ops n f (λ b. 0) rounds) }
{
    let mut sums = with_room(alloc, rounds)?;
    let mut places = 1;
    for i in 0..rounds {
        sums.push(zeros(alloc, places)?)?;
        places *= 3;
    }
    Ok(sums)
}

// A grid of so many places, each value zero.
fn zeros<EF: Field>(alloc: Global, places: usize) -> Result<Sums<EF>, NoMemory>
    ensures size { IfOk result (λ s. length s.zero.items ≡ places) }
    ensures infinity_size { IfOk result (λ s. length s.infinity.items ≡ places) }
    ensures zero { IfOk result (λ s. (k : ℕ) → entries EF.number s.zero.items k ≡ 0) }
    ensures infinity { IfOk result (λ s. (k : ℕ) → entries EF.number s.infinity.items k ≡ 0) }
{
    let mut zero = Vec::new(alloc);
    zero.resize(places, EF::ZERO)?;
    let infinity = Vec::from_slice(alloc, &zero)?;
    Ok(Sums { zero, infinity })
}

/// Adds the grid of a table and of weights, of one variable more than the `before` that come before
/// the grid's own, at most 12. `NoMemory` comes where there is none for their values at the digits,
/// which are made from three variables before on; the sums are then as they were.
pub fn add_products<EF: Field>(
    alloc: Global,
    order: VariableOrder,
    table: &[EF],
    weights: &[EF],
    before: usize,
    sums: &mut Sums<EF>,
) -> Result<(), NoMemory>
    requires few { before ≤ 12 }
    requires table { length table.now ≡ 2 ^ suc before }
    requires weights { length weights.now ≡ 2 ^ suc before }
    requires sums { IsSumSized before sums.old }
    ensures added { OnOk result (AddsGrid EF.number EF.ops before (grid_of (order_of order) EF.ops
        (entries EF.number table.now) (entries EF.number weights.now) before 0) sums.old sums.new) }
    ensures refused { OnErr result (sums.new ≡ sums.old) }
{
    match before {
        0 => add_of_one(table, weights, &mut sums.zero, &mut sums.infinity),
        1 => add_of_two(order, table, weights, &mut sums.zero, &mut sums.infinity),
        2 => add_of_three(order, table, weights, &mut sums.zero, &mut sums.infinity),
        _ => return add_staged(alloc, order, table, weights, before, sums),
    }
    Ok(())
}

// The same of tables of any number of variables, by way of their values at the digits.
fn add_staged<EF: Field>(
    alloc: Global,
    order: VariableOrder,
    table: &[EF],
    weights: &[EF],
    before: usize,
    sums: &mut Sums<EF>,
) -> Result<(), NoMemory>
    requires few { before ≤ 12 }
    requires table { length table.now ≡ 2 ^ suc before }
    requires weights { length weights.now ≡ 2 ^ suc before }
    requires sums { IsSumSized before sums.old }
    ensures added { OnOk result (AddsGrid EF.number EF.ops before (grid_of (order_of order) EF.ops
        (entries EF.number table.now) (entries EF.number weights.now) before 0) sums.old sums.new) }
    ensures refused { OnErr result (sums.new ≡ sums.old) }
{
    let table = staged(alloc, order, table, before)?;
    let weights = staged(alloc, order, weights, before)?;
    let places = sums.zero.len();
    let (table_0, table_1) = table.split_at(places);
    let (weights_0, weights_1) = weights.split_at(places);
    add_values(&mut sums.zero, table_0, weights_0);
    add_differences(&mut sums.infinity, table_0, table_1, weights_0, weights_1);
    Ok(())
}

// Adds the product of two values to each sum.
fn add_values<EF: Field>(sums: &mut [EF], xs: &[EF], ys: &[EF])
    requires first { length sums.old ≡ length xs.now }
    requires second { length sums.old ≡ length ys.now }
    ensures { (k : ℕ) → k < length sums.old → entries EF.number sums.new k
        ≡ entries EF.number sums.old k
        +⟨ EF.ops ⟩ entries EF.number xs.now k *⟨ EF.ops ⟩ entries EF.number ys.now k }
{
    for k in 0..sums.len() {
        sums[k] = sums[k].add(xs[k].mul(ys[k]));
    }
}

// Adds the product of two differences, each of the value at 1 less that at 0, to each sum.
fn add_differences<EF: Field>(sums: &mut [EF], x0: &[EF], x1: &[EF], y0: &[EF], y1: &[EF])
    requires first { length sums.old ≡ length x0.now }
    requires second { length sums.old ≡ length x1.now }
    requires third { length sums.old ≡ length y0.now }
    requires fourth { length sums.old ≡ length y1.now }
    ensures { (k : ℕ) → k < length sums.old → entries EF.number sums.new k
        ≡ entries EF.number sums.old k
        +⟨ EF.ops ⟩ (entries EF.number x1.now k -⟨ EF.ops ⟩ entries EF.number x0.now k)
        *⟨ EF.ops ⟩ (entries EF.number y1.now k -⟨ EF.ops ⟩ entries EF.number y0.now k) }
{
    for k in 0..sums.len() {
        sums[k] = sums[k].add(x1[k].sub(x0[k]).mul(y1[k].sub(y0[k])));
    }
}
