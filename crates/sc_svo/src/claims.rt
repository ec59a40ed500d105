//! Claims, and what each adds to the grids.

ghost use Rattle.std.specs.Prelude.{◌≡◌, ℕ, suc, ◌+◌, ◌^◌, ◌<◌, ◌≤◌, List, length, map, IfOk, OnOk};
ghost use Rattle.sc_definitions.specs.Ring.{◌*⟨◌⟩◌};
ghost use Rattle.sc_definitions.specs.Tables.{
  entries,
  equality_weight,
  value,
  inner_product,
  digits,
};
ghost use Rattle.sc_definitions.specs.Statements.{successor_weight, true_value};
ghost use Rattle.sc_definitions.specs.Grids.{grid_of};
ghost use Rattle.sc_definitions.specs.Parts.{Equal, part_weight, beside};
ghost use Rattle.sc_definitions.specs.Partials.{kept_of as coordinates_of};
ghost use Rattle.sc_table.specs.Polys.{variables_of};
ghost use Rattle.sc_table.specs.Strategy.{order_of};
ghost use Rattle.sc_partials.specs.Partials.{joined, opened};
ghost use Rattle.sc_partials.specs.NextPartials.{HasRows, AreOf, HaveRows, rows_by};
ghost use Rattle.sc_partials.specs.Sums.{IsSumSized, AreSumsSized};
ghost use Rattle.sc_partials.specs.Sums.{AddsGrid, AddsParts, AddsWeights};
ghost use Rattle.sc_svo.specs.Points.{point_in, near_in, order_in};
ghost use Rattle.sc_svo.specs.Grids.{most_rounds};
ghost use Rattle.sc_svo.specs.Claims.{kind_by, scaled_in, scaled_value, AddsClaim, AddsRows};

use crate::point::SvoPoint;
use sc_field::{ExtensionField, Field, NoMemory};
use sc_partials::{NextPartials, Sums, add_products};
use sc_table::{Point, Poly, VariableOrder};
use std::alloc::Global;

/// A claim on a table's value at a point, or on its value through the successor map there, and what
/// it is multiplied by in a batch.
#[derive(Drop)]
pub struct SvoClaim<EF> {
    /// The point, of as many coordinates as the table has variables.
    pub point: Point<EF>,
    /// Whether the value is the one through the successor map.
    pub successor: bool,
    /// What the claim is multiplied by.
    pub coefficient: EF,
}

impl<EF: Copy> SvoClaim<EF> {
    /// The same claim, in memory of its own; `NoMemory` where there is none.
    pub fn copy(&self, alloc: Global) -> Result<Self, NoMemory>
        ensures point { IfOk result (λ c. c.point ≡ self.now.point) }
        ensures successor { IfOk result (λ c. c.successor ≡ self.now.successor) }
        ensures coefficient { IfOk result (λ c. c.coefficient ≡ self.now.coefficient) }
    {
        Ok(SvoClaim {
            point: self.point.copy(alloc)?,
            successor: self.successor,
            coefficient: self.coefficient,
        })
    }
}

// Adds the grids of a table and a claim's weights, times its coefficient, and answers the value
// that the claim is on: one pass over the table, or a few for a successor.
pub(crate) fn add_claim<F: Field, EF: ExtensionField<F>>(
    alloc: Global,
    order: VariableOrder,
    table: &[F],
    claim: &SvoClaim<EF>,
    sums: &mut [Sums<EF>],
) -> Result<EF, NoMemory>
    requires rounds { length sums.old ≤ most_rounds }
    requires within { length sums.old ≤ length claim.now.point }
    requires few { length claim.now.point ≤ 40 }
    requires rows { length table.now ≡ 2 ^ length claim.now.point }
    requires sized { AreSumsSized sums.old }
    ensures adds { OnOk result (AddsClaim EF.number EF.ops (order_of order)
        (entries (λ x. EF.embedding (F.number x)) table.now) claim.now sums.old sums.new) }
    ensures value { IfOk result (λ v. EF.number v ≡ true_value EF.ops (length claim.now.point)
        (entries (λ x. EF.embedding (F.number x)) table.now)
        (kind_by claim.now.successor (map EF.number claim.now.point))) }
{
    let point = SvoPoint::<F, EF>::new_unpacked(alloc, sums.len(), &claim.point, order)?;
    if claim.successor {
        add_successor(alloc, &point, table, claim.coefficient, sums)
    } else {
        add_equality(alloc, &point, table, claim.coefficient, sums)
    }
}

// The value that a claim is on.
pub(crate) fn claim_value<F: Field, EF: ExtensionField<F>>(
    alloc: Global,
    order: VariableOrder,
    table: &[F],
    claim: &SvoClaim<EF>,
) -> Result<EF, NoMemory>
    requires few { length claim.now.point ≤ 40 }
    requires rows { length table.now ≡ 2 ^ length claim.now.point }
    ensures { IfOk result (λ v. EF.number v ≡ true_value EF.ops (length claim.now.point)
        (entries (λ x. EF.embedding (F.number x)) table.now)
        (kind_by claim.now.successor (map EF.number claim.now.point))) }
{
    let mut none = Vec::new(alloc);
    add_claim::<F, EF>(alloc, order, table, claim, &mut none)
}

// The same of a value at a point.
fn add_equality<F: Field, EF: ExtensionField<F>>(
    alloc: Global,
    point: &SvoPoint<F, EF>,
    table: &[F],
    coefficient: EF,
    sums: &mut [Sums<EF>],
) -> Result<EF, NoMemory>
    requires rounds { length sums.old ≤ most_rounds }
    requires near { length sums.old ≡ length (near_in point.now) }
    requires rows { length table.now ≡ 2 ^ length (point_in point.now) }
    requires sized { AreSumsSized sums.old }
    ensures adds { OnOk result (AddsWeights EF.number EF.ops (opened (order_in point.now)
        (entries (λ x. EF.embedding (F.number x)) table.now) (point_in point.now))
        (λ b. EF.number coefficient *⟨ EF.ops ⟩ equality_weight EF.ops (point_in point.now) b)
        sums.old sums.new) }
    ensures value { IfOk result (λ v. EF.number v ≡ value EF.ops
        (entries (λ x. EF.embedding (F.number x)) table.now) (point_in point.now)) }
{
    let (value, partials) = point.eval_slice(alloc, table)?;
    let (order, near) = (point.var_order(), point.z_svo().as_slice());
    for j in 0..sums.len() {
        let partial = partials.rounds()[j].table();
        add_round(alloc, order, partial, near, coefficient, j, &mut sums[j])?;
    }
    Ok(value)
}

// The same of a value through the successor map.
fn add_successor<F: Field, EF: ExtensionField<F>>(
    alloc: Global,
    point: &SvoPoint<F, EF>,
    table: &[F],
    coefficient: EF,
    sums: &mut [Sums<EF>],
) -> Result<EF, NoMemory>
    requires rounds { length sums.old ≤ most_rounds }
    requires near { length sums.old ≡ length (near_in point.now) }
    requires rows { length table.now ≡ 2 ^ length (point_in point.now) }
    requires sized { AreSumsSized sums.old }
    ensures adds { OnOk result (AddsWeights EF.number EF.ops (opened (order_in point.now)
        (entries (λ x. EF.embedding (F.number x)) table.now) (point_in point.now))
        (λ b. EF.number coefficient *⟨ EF.ops ⟩ successor_weight EF.ops (point_in point.now) b)
        sums.old sums.new) }
    ensures value { IfOk result (λ v. EF.number v
        ≡ inner_product EF.ops (length (point_in point.now))
        (entries (λ x. EF.embedding (F.number x)) table.now)
        (successor_weight EF.ops (point_in point.now))) }
{
    let (value, partials) = point.eval_next_slice(alloc, table)?;
    let (order, near) = (point.var_order(), point.z_svo().as_slice());
    for j in 0..sums.len() {
        let tables = &partials.rounds()[j];
        add_next_round(alloc, order, tables, near, coefficient, j, &mut sums[j])?;
    }
    Ok(value)
}

// Adds the grid of a round: of its partial table, and of the equality weights of the coordinates
// that it keeps, times a coefficient. So many rounds are before it.
fn add_round<EF: Field>(
    alloc: Global,
    order: VariableOrder,
    partial: &[EF],
    near: &[EF],
    coefficient: EF,
    before: usize,
    sums: &mut Sums<EF>,
) -> Result<(), NoMemory>
    requires rounds { before < most_rounds }
    requires within { before < length near.now }
    requires partial { length partial.now ≡ 2 ^ suc before }
    requires sized { IsSumSized before sums.old }
    ensures { OnOk result (AddsGrid EF.number EF.ops before
        (grid_of (order_of order) EF.ops (entries EF.number partial.now)
        (λ b. EF.number coefficient *⟨ EF.ops ⟩ equality_weight EF.ops
        (coordinates_of (order_of order) (suc before) (map EF.number near.now)) b) before 0)
        sums.old sums.new) }
{
    let kept = kept_of(order, near, before + 1);
    let weights = Poly::new_from_point(alloc, kept, coefficient)?;
    add_products(alloc, order, partial, weights.as_slice(), before, sums)
}

// Adds the three grids of a round of a successor: of its tables, and of the parts of the kept
// coordinates' weights that belong to each, times a coefficient.
fn add_next_round<EF: Field>(
    alloc: Global,
    order: VariableOrder,
    tables: &NextPartials<EF>,
    near: &[EF],
    coefficient: EF,
    before: usize,
    sums: &mut Sums<EF>,
) -> Result<(), NoMemory>
    requires rounds { before < most_rounds }
    requires within { before < length near.now }
    requires tables { AreOf (suc before) tables.now }
    requires sized { IsSumSized before sums.old }
    ensures { OnOk result (AddsParts EF.number EF.ops before
        (λ part. grid_of (order_of order) EF.ops (rows_by EF.number tables.now part)
        (λ b. EF.number coefficient *⟨ EF.ops ⟩ part_weight EF.ops (beside (order_of order) part)
        (coordinates_of (order_of order) (suc before) (map EF.number near.now)) b) before 0)
        sums.old sums.new) }
{
    let kept = kept_of(order, near, before + 1);
    let equal = Poly::new_from_point(alloc, kept, coefficient)?;
    let weights = beside(alloc, order, equal)?;
    add_products(alloc, order, tables.done(), weights.done(), before, sums)?;
    add_products(alloc, order, tables.carry(), weights.carry(), before, sums)?;
    add_products(alloc, order, tables.omega(), weights.omega(), before, sums)
}

// The weights that stand beside the three tables of a round, by the equality weights of the
// coordinates that it keeps: in prefix order the sums of the done part stand beside these, and
// those of the carried part beside the done part; in suffix order each stands beside its own part.
fn beside<EF: Field>(
    alloc: Global,
    order: VariableOrder,
    equal: Poly<EF>,
) -> Result<NextPartials<EF>, NoMemory>
    requires { variables_of equal ≤ 40 }
    ensures { (x : ℕ) (zs : List ℕ) →
        HasRows EF.number (length zs) (λ b. x *⟨ EF.ops ⟩ part_weight EF.ops Equal zs b) equal
        → IfOk result (HaveRows EF.number (length zs)
        (λ part b. x *⟨ EF.ops ⟩ part_weight EF.ops (beside (order_of order) part) zs b)) }
{
    let NextPartials { done, carry, omega } = NextPartials::of_weights(alloc, &equal)?;
    match order {
        VariableOrder::Prefix => Ok(NextPartials {
            done: equal,
            carry: done,
            omega,
        }),
        VariableOrder::Suffix => Ok(NextPartials { done, carry, omega }),
    }
}

// Of the coordinates of small-value rounds, as they stand in a point, those of the first `count`
// rounds.
fn kept_of<EF: Field>(order: VariableOrder, near: &[EF], count: usize) -> &[EF]
    requires { count ≤ length near.now }
    ensures size { length result.now ≡ count }
    ensures kept { map EF.number result.now
        ≡ coordinates_of (order_of order) count (map EF.number near.now) }
{
    match order {
        VariableOrder::Prefix => &near[..count],
        VariableOrder::Suffix => &near[near.len() - count..],
    }
}

// Adds the weights of a claim's point, with the variables of small-value rounds bound at `at`,
// which stands in the order of the point's coordinates, times the claim's coefficient.
pub(crate) fn add_bound<F: Field, EF: ExtensionField<F>>(
    alloc: Global,
    order: VariableOrder,
    claim: &SvoClaim<EF>,
    at: &Point<EF>,
    rows: &mut [EF],
) -> Result<(), NoMemory>
    requires few { length claim.now.point ≤ 40 }
    requires rows { (m : ℕ) × (length rows.old ≡ 2 ^ m)
        × (length claim.now.point ≡ length at.now + m) }
    ensures { (m : ℕ) → length claim.now.point ≡ length at.now + m → OnOk result
        (AddsRows EF.number EF.ops (λ b. scaled_value EF.ops (scaled_in EF.number claim.now)
        (joined (order_of order) (map EF.number at.now) (digits m b))) rows.old rows.new) }
{
    let point = SvoPoint::<F, EF>::new_unpacked(alloc, at.num_variables(), &claim.point, order)?;
    if claim.successor {
        match order {
            VariableOrder::Prefix => {
                point.accumulate_next_prefix_into(rows, at, claim.coefficient);
            }
            VariableOrder::Suffix => {
                point.accumulate_next_suffix_into(rows, at, claim.coefficient);
            }
        }
    } else {
        point.accumulate_into(rows, at, claim.coefficient);
    }
    Ok(())
}
