//! Successor weights, in the slot that a selector fixes.

ghost use Rattle.std.specs.Prelude.{◌≡◌, ℕ, ◌+◌, ◌*◌, ◌^◌, ◌<◌, ◌≤◌, [], length, map};
ghost use Rattle.sc_definitions.specs.Ring.{◌+⟨◌⟩◌, ◌*⟨◌⟩◌};
ghost use Rattle.sc_definitions.specs.Tables.{entries, equality_weight, value};
ghost use Rattle.sc_definitions.specs.Statements.{next_row, successor_weight};
ghost use Rattle.sc_table.specs.Blocks.{FitsInBlocks};

use crate::equality::add_blocks;
use crate::row_weights::RowWeights;
use crate::successor::{add_successor, successor_value};
use crate::values::{equality_in, successor_in};
use sc_field::{Algebra, Field};
use sc_table::{BLOCK_COORDINATES, Basis, Point, Poly, VariableOrder, eval_blocks, fits_in_blocks};

/// A point whose value is taken through the successor map, in the slot that a selector's
/// coordinates fix.
///
/// In [`VariableOrder::Prefix`] the selector's coordinates stand first, and in
/// [`VariableOrder::Suffix`] last. The weight of a row is the equality weight of the selector at
/// its part of the row, times the successor weight of the point at the rest.
#[derive(Drop)]
pub struct NextConstraint<EF> {
    pub selector: Point<EF>,
    pub point: Point<EF>,
    pub var_order: VariableOrder,
}

impl<EF: Field> RowWeights<EF> for NextConstraint<EF> {
    ghost use Rattle.sc_definitions.specs.Statements.{successor};
    ghost use Rattle.sc_table.specs.Strategy.{order_of};

    ghost kind = { λ c. successor (order_of c.var_order) (map EF.number c.selector)
        (map EF.number c.point) };

    fn add_to(&self, table: &mut Poly<EF>, scale: EF) {
        let (selector, point) = (self.selector.as_slice(), self.point.as_slice());
        let block = table.num_evals() >> point.len();
        let rows = table.as_mut_slice();
        match self.var_order {
            VariableOrder::Prefix => add_slots(rows, selector, point, scale),
            VariableOrder::Suffix => add_successor(rows, point, selector, block, scale),
        }
    }

    fn true_value<A: Field>(&self, rows: &[A]) -> EF
    where
        EF: Algebra<A>,
    {
        let (selector, point) = (self.selector.as_slice(), self.point.as_slice());
        let block = rows.len() >> point.len();
        match self.var_order {
            VariableOrder::Prefix => slots_value(rows, selector, point),
            VariableOrder::Suffix => successor_value(rows, point, selector, block),
        }
    }

    fn value_at(&self, basis: Basis, row: &Point<EF>) -> EF {
        let (selector, point) = (self.selector.as_slice(), self.point.as_slice());
        let (slot, rest) = match self.var_order {
            VariableOrder::Prefix => row.as_slice().split_at(selector.len()),
            VariableOrder::Suffix => {
                let (rest, slot) = row.as_slice().split_at(point.len());
                (slot, rest)
            }
        };
        equality_in(basis, selector, slot).mul(successor_in(basis, point, rest))
    }
}

// ---- slots of a selector that stands first

// Adds `scale` times the weights of a selector that stands first: where its slots are shorter than
// a block, by blocks of several.
fn add_slots<EF: Field>(rows: &mut [EF], selector: &[EF], point: &[EF], scale: EF)
    requires { length rows.old ≡ 2 ^ (length selector.now + length point.now) }
    ensures { (a c : ℕ) → a < 2 ^ length selector.now → c < 2 ^ length point.now
        → entries EF.number rows.new (a * 2 ^ length point.now + c)
        ≡ entries EF.number rows.old (a * 2 ^ length point.now + c)
        +⟨ EF.ops ⟩ EF.number scale
        *⟨ EF.ops ⟩ (equality_weight EF.ops (map EF.number selector.now) a
        *⟨ EF.ops ⟩ successor_weight EF.ops (map EF.number point.now) c) }
{
    if point.len() < BLOCK_COORDINATES && rows.len() >= 256 && fits_in_blocks::<EF>() {
        add_slots_by_blocks(rows, selector, point, scale);
    } else {
        add_slots_by_halves(rows, selector, point, scale);
    }
}

// Adds `scale` times the weights of a selector that stands first, by its halves.
#[tactic(auto, using(crate::proofs::Halves::low_half, crate::proofs::Halves::high_half))]
fn add_slots_by_halves<EF: Field>(rows: &mut [EF], selector: &[EF], point: &[EF], scale: EF)
    requires { length rows.old ≡ 2 ^ (length selector.now + length point.now) }
    ensures { (a c : ℕ) → a < 2 ^ length selector.now → c < 2 ^ length point.now
        → entries EF.number rows.new (a * 2 ^ length point.now + c)
        ≡ entries EF.number rows.old (a * 2 ^ length point.now + c)
        +⟨ EF.ops ⟩ EF.number scale
        *⟨ EF.ops ⟩ (equality_weight EF.ops (map EF.number selector.now) a
        *⟨ EF.ops ⟩ successor_weight EF.ops (map EF.number point.now) c) }
{
    let [first, rest @ ..] = selector else {
        add_successor(rows, point, &[], 1, scale);
        return;
    };
    let half = rows.len() / 2;
    let at_one = scale.mul(*first);
    add_slots_by_halves(&mut rows[..half], rest, point, scale.sub(at_one));
    add_slots_by_halves(&mut rows[half..], rest, point, at_one);
}

fn add_slots_by_blocks<EF: Field>(rows: &mut [EF], selector: &[EF], point: &[EF], scale: EF)
    requires fits { FitsInBlocks EF.row }
    requires size { length rows.old ≡ 2 ^ (length selector.now + length point.now) }
    requires short { length point.now < 8 }
    requires long { 256 ≤ length rows.old }
    ensures { (a c : ℕ) → a < 2 ^ length selector.now → c < 2 ^ length point.now
        → entries EF.number rows.new (a * 2 ^ length point.now + c)
        ≡ entries EF.number rows.old (a * 2 ^ length point.now + c)
        +⟨ EF.ops ⟩ EF.number scale
        *⟨ EF.ops ⟩ (equality_weight EF.ops (map EF.number selector.now) a
        *⟨ EF.ops ⟩ successor_weight EF.ops (map EF.number point.now) c) }
{
    let (outer, inner) = selector.split_at(selector.len() - (BLOCK_COORDINATES - point.len()));
    let weights = slot_weights(inner, point);
    add_blocks(rows, outer, &weights, scale);
}

// The weights of the rows of a block in its slots, which the last coordinates of the selector tell
// apart.
fn slot_weights<EF: Field>(selector: &[EF], point: &[EF]) -> [EF; 256]
    requires fits { FitsInBlocks EF.row }
    requires coordinates { length selector.now + length point.now ≡ 8 }
    ensures { (a c : ℕ) → a < 2 ^ length selector.now → c < 2 ^ length point.now
        → entries EF.number result (a * 2 ^ length point.now + c)
        ≡ equality_weight EF.ops (map EF.number selector.now) a
        *⟨ EF.ops ⟩ successor_weight EF.ops (map EF.number point.now) c }
{
    let mut weights = [EF::ZERO; 256];
    add_slots_by_halves(&mut weights, selector, point, EF::ONE);
    weights
}

// The value at a selector that stands first, of the values through the successor map: where its
// slots are shorter than a block, by blocks of several.
fn slots_value<A: Field, EF: Algebra<A>>(rows: &[A], selector: &[EF], point: &[EF]) -> EF
    requires { length rows.now ≡ 2 ^ (length selector.now + length point.now) }
    ensures { EF.number result ≡ value EF.ops (λ a. value EF.ops
        (λ c. EF.embedding (entries A.number rows.now (a * 2 ^ length point.now + next_row
        (length point.now) c)))
        (map EF.number point.now)) (map EF.number selector.now) }
{
    if point.len() < BLOCK_COORDINATES && rows.len() >= 256 && fits_in_blocks::<EF>() {
        slots_value_by_blocks(rows, selector, point)
    } else {
        slots_value_by_halves(rows, selector, point)
    }
}

// The value at a selector that stands first, by its halves, of the values through the successor
// map.
#[tactic(auto, using(crate::proofs::Halves::front_rows, crate::proofs::Halves::back_rows))]
fn slots_value_by_halves<A: Field, EF: Algebra<A>>(rows: &[A], selector: &[EF], point: &[EF]) -> EF
    requires { length rows.now ≡ 2 ^ (length selector.now + length point.now) }
    ensures { EF.number result ≡ value EF.ops (λ a. value EF.ops
        (λ c. EF.embedding (entries A.number rows.now (a * 2 ^ length point.now + next_row
        (length point.now) c)))
        (map EF.number point.now)) (map EF.number selector.now) }
{
    let [first, rest @ ..] = selector else {
        return successor_value(rows, point, &[], 1);
    };
    let (low, high) = rows.split_at(rows.len() / 2);
    let lo = slots_value_by_halves(low, rest, point);
    let hi = slots_value_by_halves(high, rest, point);
    lo.add(hi.sub(lo).mul(*first))
}

fn slots_value_by_blocks<A: Field, EF: Algebra<A>>(rows: &[A], selector: &[EF], point: &[EF]) -> EF
    requires fits { FitsInBlocks EF.row }
    requires size { length rows.now ≡ 2 ^ (length selector.now + length point.now) }
    requires short { length point.now < 8 }
    requires long { 256 ≤ length rows.now }
    ensures { EF.number result ≡ value EF.ops (λ a. value EF.ops
        (λ c. EF.embedding (entries A.number rows.now (a * 2 ^ length point.now + next_row
        (length point.now) c)))
        (map EF.number point.now)) (map EF.number selector.now) }
{
    let (outer, inner) = selector.split_at(selector.len() - (BLOCK_COORDINATES - point.len()));
    let weights = slot_weights(inner, point);
    eval_blocks(rows, outer, &weights)
}
