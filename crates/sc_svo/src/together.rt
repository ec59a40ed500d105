//! The grids of a table with weights that stand in a table of their own: those of all claims,
//! added up.

ghost use Rattle.std.specs.Prelude.{◌≡◌, ℕ, suc, ◌+◌, ◌*◌, ◌^◌, ◌<◌, ◌≤◌, List, length, IfOk, OnOk};
ghost use Rattle.sc_definitions.specs.Tables.{entries};
ghost use Rattle.sc_definitions.specs.Grids.{grid_of};
ghost use Rattle.sc_table.specs.Strategy.{order_of};
ghost use Rattle.sc_partials.specs.Partials.{opened};
ghost use Rattle.sc_partials.specs.Sums.{IsSumSized, AreSumsSized, AddsGrid, AddsWeights};
ghost use Rattle.sc_svo.specs.Grids.{most_rounds, row_at};

use crate::claims::SvoClaim;
use sc_field::{Algebra, ExtensionField, Field, NoMemory};
use sc_partials::{Sums, add_products};
use sc_table::VariableOrder;
use std::alloc::Global;

// Whether the grids of the weights of all claims, added up, take fewer products than the grids of
// each claim, of a table of so many rows. Each claim has its value by a pass over the table either
// way. By itself it takes two products for each place of a round's grid, and six where its value is
// the one through the successor map. Together the claims take a pass each to add their weights up,
// and two products for each place of a round's grid at each choice of the variables after it.
pub(crate) fn take_less_together<EF>(rows: usize, claims: &[SvoClaim<EF>], rounds: usize) -> bool {
    let mut together = rows.saturating_mul(claims.len());
    let mut apart = 0usize;
    let mut places = 2usize;
    let mut rests = rows / 2;
    for _ in 0..rounds {
        together = together.saturating_add(places.saturating_mul(rests));
        apart = apart.saturating_add(places);
        places = places.saturating_mul(3);
        rests /= 2;
    }
    together < apart.saturating_mul(count_grids(claims))
}

// How many grids a round has of these claims, one by one.
fn count_grids<EF>(claims: &[SvoClaim<EF>]) -> usize {
    let mut grids = 0usize;
    for claim in claims {
        grids = grids.saturating_add(if claim.successor { 3 } else { 1 });
    }
    grids
}

// Adds the grids of a table of so many variables and of weights for its rows.
pub(crate) fn add_weighted<F: Field, EF: ExtensionField<F>>(
    alloc: Global,
    order: VariableOrder,
    table: &[F],
    weights: &[EF],
    variables: usize,
    sums: &mut [Sums<EF>],
) -> Result<(), NoMemory>
    requires rounds { length sums.old ≤ most_rounds }
    requires few { variables ≤ 40 }
    requires within { length sums.old ≤ variables }
    requires rows { length table.now ≡ 2 ^ variables }
    requires weights { length weights.now ≡ 2 ^ variables }
    requires sized { AreSumsSized sums.old }
    ensures { (zs : List ℕ) → length zs ≡ variables → OnOk result (AddsWeights EF.number EF.ops
        (opened (order_of order) (entries (λ x. EF.embedding (F.number x)) table.now) zs)
        (entries EF.number weights.now) sums.old sums.new) }
{
    for j in 0..sums.len() {
        add_rests(
            alloc,
            order,
            table,
            weights,
            j,
            variables - j - 1,
            &mut sums[j],
        )?;
    }
    Ok(())
}

// Adds the grid of a round with so many variables before and after its own: that of the rows of each
// choice of the variables after it, one choice after the other.
fn add_rests<F: Field, EF: ExtensionField<F>>(
    alloc: Global,
    order: VariableOrder,
    table: &[F],
    weights: &[EF],
    before: usize,
    after: usize,
    sums: &mut Sums<EF>,
) -> Result<(), NoMemory>
    requires rounds { before < most_rounds }
    requires few { suc before + after ≤ 40 }
    requires rows { length table.now ≡ 2 ^ (suc before + after) }
    requires weights { length weights.now ≡ 2 ^ (suc before + after) }
    requires sized { IsSumSized before sums.old }
    ensures { OnOk result (AddsGrid EF.number EF.ops before (grid_of (order_of order) EF.ops
        (entries (λ x. EF.embedding (F.number x)) table.now)
        (entries EF.number weights.now) before after) sums.old sums.new) }
{
    let (kept, rests) = (1usize << (before + 1), 1usize << after);
    let mut rows = zeros(alloc, kept)?;
    let mut beside = zeros(alloc, kept)?;
    for rest in 0..rests {
        read_rest(order, table, rest, rests, &mut rows);
        read_rest(order, weights, rest, rests, &mut beside);
        add_products(alloc, order, &rows, &beside, before, sums)?;
    }
    Ok(())
}

// Reads the rows of a table at one choice of the variables that are not the rows' own, of which
// there are so many choices.
fn read_rest<B: Field, E: Algebra<B>>(
    order: VariableOrder,
    table: &[B],
    rest: usize,
    rests: usize,
    rows: &mut [E],
)
    requires low { rest < rests }
    requires sizes { (n m : ℕ) × (length rows.old ≡ 2 ^ n) × (rests ≡ 2 ^ m)
        × (length table.now ≡ 2 ^ (n + m)) × (n + m ≤ 40) }
    ensures { (n m : ℕ) → length rows.old ≡ 2 ^ n → rests ≡ 2 ^ m → (a : ℕ) → a < 2 ^ n →
        entries E.number rows.new a ≡ entries (λ x. E.embedding (B.number x)) table.now
        (row_at (order_of order) n m rest a) }
{
    match order {
        VariableOrder::Prefix => read_every(table, rest, rests, rows),
        VariableOrder::Suffix => read_every(table, rest * rows.len(), 1, rows),
    }
}

// So many zeros.
fn zeros<EF: Field>(alloc: Global, count: usize) -> Result<Vec<EF>, NoMemory>
    ensures { IfOk result (λ v. length v.items ≡ count) }
{
    let mut rows = Vec::new(alloc);
    rows.resize(count, EF::ZERO)?;
    Ok(rows)
}

// Reads rows of a table, from one on and each so many after the one before it.
fn read_every<B: Field, E: Algebra<B>>(table: &[B], from: usize, step: usize, rows: &mut [E])
    requires { (a : ℕ) → a < length rows.old → from + a * step < length table.now }
    ensures { (a : ℕ) → a < length rows.old → entries E.number rows.new a
        ≡ entries (λ x. E.embedding (B.number x)) table.now (from + a * step) }
{
    for a in 0..rows.len() {
        rows[a] = E::embed(table[from + a * step]);
    }
}
