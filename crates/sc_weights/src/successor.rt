//! Successor weights of a point, times the equality weights of a selector that stands after it.
//!
//! They go by blocks of 256 rows where the selector has at most as many coordinates as tell the
//! rows of a block apart, and the table a block or more; else by halves.

ghost use Rattle.std.specs.Prelude.{◌≡◌, ℕ, ◌+◌, ◌-◌, ◌*◌, ◌^◌, ◌<◌, ◌≤◌, length, map};
ghost use Rattle.sc_definitions.specs.Ring.{◌+⟨◌⟩◌, ◌*⟨◌⟩◌};
ghost use Rattle.sc_definitions.specs.Tables.{entries, equality_weight, value};
ghost use Rattle.sc_definitions.specs.Shifts.{shifted};
ghost use Rattle.sc_definitions.specs.Statements.{next_row, successor_weight};
ghost use Rattle.sc_field.specs.Products.{products};
ghost use Rattle.sc_table.specs.Blocks.{block_weight, FitsInBlocks};
ghost use Rattle.sc_weights.specs.Moved.{moved_up, moved_down};

use crate::equality::add_point;
use sc_field::{Algebra, Field};
use sc_table::{BLOCK_COORDINATES, add_scaled, eval_slice, fits_in_blocks, joined_block_weights};

// ---- weights that are added to rows

/// Adds `scale` times the successor weights of `point`, times the equality weights of a selector
/// that stands last and has blocks of so many rows.
pub(crate) fn add_successor<EF: Field>(
    rows: &mut [EF],
    point: &[EF],
    selector: &[EF],
    block: usize,
    scale: EF,
)
    requires size { length rows.old ≡ 2 ^ (length point.now + length selector.now) }
    requires block { block ≡ 2 ^ length selector.now }
    ensures { (a c : ℕ) → a < 2 ^ length point.now → c < 2 ^ length selector.now
        → entries EF.number rows.new (a * 2 ^ length selector.now + c)
        ≡ entries EF.number rows.old (a * 2 ^ length selector.now + c)
        +⟨ EF.ops ⟩ EF.number scale *⟨ EF.ops ⟩
        (successor_weight EF.ops (map EF.number point.now) a
        *⟨ EF.ops ⟩ equality_weight EF.ops (map EF.number selector.now) c) }
{
    if selector.len() > BLOCK_COORDINATES || rows.len() < 256 || !fits_in_blocks::<EF>() {
        add_successor_by_halves(rows, point, selector, block, scale);
    } else {
        add_successor_by_blocks(rows, point, selector, block, scale);
    }
}

fn add_successor_by_halves<EF: Field>(
    rows: &mut [EF],
    point: &[EF],
    selector: &[EF],
    block: usize,
    scale: EF,
)
    requires size { length rows.old ≡ 2 ^ (length point.now + length selector.now) }
    requires block { block ≡ 2 ^ length selector.now }
    ensures { (a c : ℕ) → a < 2 ^ length point.now → c < 2 ^ length selector.now
        → entries EF.number rows.new (a * 2 ^ length selector.now + c)
        ≡ entries EF.number rows.old (a * 2 ^ length selector.now + c)
        +⟨ EF.ops ⟩ EF.number scale *⟨ EF.ops ⟩
        (successor_weight EF.ops (map EF.number point.now) a
        *⟨ EF.ops ⟩ equality_weight EF.ops (map EF.number selector.now) c) }
{
    let last = rows.len() - block;
    let stays = add_moved_up(rows, point, selector, scale, EF::ZERO);
    add_point(&mut rows[last..], selector, stays);
}

// Adds to each row `scale` times the equality weight of the row before, and `before` to row 0, all
// times the equality weights of the selector. The answer is `scale` times the weight of the last
// row, which the next row would get.
#[tactic(auto, using(crate::proofs::Halves::low_half, crate::proofs::Halves::high_half))]
fn add_moved_up<EF: Field>(
    rows: &mut [EF],
    point: &[EF],
    selector: &[EF],
    scale: EF,
    before: EF,
) -> EF
    requires { length rows.old ≡ 2 ^ (length point.now + length selector.now) }
    ensures rows { (a c : ℕ) → a < 2 ^ length point.now → c < 2 ^ length selector.now
        → entries EF.number rows.new (a * 2 ^ length selector.now + c)
        ≡ entries EF.number rows.old (a * 2 ^ length selector.now + c)
        +⟨ EF.ops ⟩ shifted (EF.number before) (λ b. EF.number scale
        *⟨ EF.ops ⟩ equality_weight EF.ops (map EF.number point.now) b) a
        *⟨ EF.ops ⟩ equality_weight EF.ops (map EF.number selector.now) c }
    ensures last { EF.number result ≡ EF.number scale
        *⟨ EF.ops ⟩ equality_weight EF.ops (map EF.number point.now) (2 ^ length point.now - 1) }
{
    let [first, rest @ ..] = point else {
        add_point(rows, selector, before);
        return scale;
    };
    let half = rows.len() / 2;
    let at_one = scale.mul(*first);
    let between = add_moved_up(&mut rows[..half], rest, selector, scale.sub(at_one), before);
    add_moved_up(&mut rows[half..], rest, selector, at_one, between)
}

// The equality weights of all coordinates are moved up by as many rows as the selector tells apart.
fn add_successor_by_blocks<EF: Field>(
    rows: &mut [EF],
    point: &[EF],
    selector: &[EF],
    block: usize,
    scale: EF,
)
    requires fits { FitsInBlocks EF.row }
    requires size { length rows.old ≡ 2 ^ (length point.now + length selector.now) }
    requires block { block ≡ 2 ^ length selector.now }
    requires short { length selector.now ≤ 8 }
    requires long { 256 ≤ length rows.old }
    ensures { (a c : ℕ) → a < 2 ^ length point.now → c < 2 ^ length selector.now
        → entries EF.number rows.new (a * 2 ^ length selector.now + c)
        ≡ entries EF.number rows.old (a * 2 ^ length selector.now + c)
        +⟨ EF.ops ⟩ EF.number scale *⟨ EF.ops ⟩
        (successor_weight EF.ops (map EF.number point.now) a
        *⟨ EF.ops ⟩ equality_weight EF.ops (map EF.number selector.now) c) }
{
    let (outer, inner) = point.split_at(point.len() - (BLOCK_COORDINATES - selector.len()));
    let joined = joined_block_weights(inner, selector);
    let weights = &joined[..];
    let last = rows.len() - block;
    let stays = add_moved_blocks(rows, outer, weights, block, scale, EF::ZERO);
    add_scaled(&mut rows[last..], &weights[weights.len() - block..], stays);
}

// Adds to each row `scale` times the weight of the row `stride` rows before it, as rows weigh in
// blocks. The first rows gain as if a block stood before them, with `before` as its scale. The
// answer is the scale of the last block.
fn add_moved_blocks<EF: Field>(
    rows: &mut [EF],
    outer: &[EF],
    weights: &[EF],
    stride: usize,
    scale: EF,
    before: EF,
) -> EF
    requires size { length rows.old ≡ 2 ^ length outer.now * length weights.now }
    requires some { 0 < length weights.now }
    requires stride { stride ≤ length weights.now }
    ensures rows { (b : ℕ) → b < length rows.old → entries EF.number rows.new b
        ≡ entries EF.number rows.old b
        +⟨ EF.ops ⟩ moved_up stride (λ j. EF.number before
        *⟨ EF.ops ⟩ entries EF.number weights.now (length weights.now - stride + j))
        (λ k. EF.number scale *⟨ EF.ops ⟩ block_weight EF.ops (map EF.number outer.now)
        (length weights.now) (entries EF.number weights.now) k) b }
    ensures last { EF.number result ≡ EF.number scale
        *⟨ EF.ops ⟩ equality_weight EF.ops (map EF.number outer.now) (2 ^ length outer.now - 1) }
{
    let [first, rest @ ..] = outer else {
        add_moved_block(rows, weights, stride, scale, before);
        return scale;
    };
    let half = rows.len() / 2;
    let at_one = scale.mul(*first);
    let between = add_moved_blocks(
        &mut rows[..half],
        rest,
        weights,
        stride,
        scale.sub(at_one),
        before,
    );
    add_moved_blocks(&mut rows[half..], rest, weights, stride, at_one, between)
}

// The same for one block.
fn add_moved_block<EF: Field>(rows: &mut [EF], weights: &[EF], stride: usize, scale: EF, before: EF)
    requires same { length rows.old ≡ length weights.now }
    requires stride { stride ≤ length weights.now }
    ensures { (b : ℕ) → b < length rows.old → entries EF.number rows.new b
        ≡ entries EF.number rows.old b
        +⟨ EF.ops ⟩ moved_up stride (λ j. EF.number before
        *⟨ EF.ops ⟩ entries EF.number weights.now (length weights.now - stride + j))
        (λ k. EF.number scale *⟨ EF.ops ⟩ entries EF.number weights.now k) b }
{
    let there = weights.len() - stride;
    add_scaled(&mut rows[..stride], &weights[there..], before);
    add_scaled(&mut rows[stride..], &weights[..there], scale);
}

// ---- values

/// The value at `point`, through the successor map, of the values at a selector that stands last
/// and has blocks of so many rows.
pub(crate) fn successor_value<A: Field, EF: Algebra<A>>(
    rows: &[A],
    point: &[EF],
    selector: &[EF],
    block: usize,
) -> EF
    requires size { length rows.now ≡ 2 ^ (length point.now + length selector.now) }
    requires block { block ≡ 2 ^ length selector.now }
    ensures { EF.number result ≡ value EF.ops (λ a. value EF.ops
        (λ c. EF.embedding (entries A.number rows.now (next_row (length point.now) a * 2 ^
        length selector.now + c)))
        (map EF.number selector.now)) (map EF.number point.now) }
{
    if selector.len() > BLOCK_COORDINATES || rows.len() < 256 || !fits_in_blocks::<EF>() {
        successor_value_by_halves(rows, point, selector, block)
    } else {
        successor_value_by_blocks(rows, point, selector, block)
    }
}

fn successor_value_by_halves<A: Field, EF: Algebra<A>>(
    rows: &[A],
    point: &[EF],
    selector: &[EF],
    block: usize,
) -> EF
    requires size { length rows.now ≡ 2 ^ (length point.now + length selector.now) }
    requires block { block ≡ 2 ^ length selector.now }
    ensures { EF.number result ≡ value EF.ops (λ a. value EF.ops
        (λ c. EF.embedding (entries A.number rows.now (next_row (length point.now) a * 2 ^
        length selector.now + c)))
        (map EF.number selector.now)) (map EF.number point.now) }
{
    let last = rows.len() - block;
    let stays = eval_slice(&rows[last..], selector);
    moved_down_value(rows, point, selector, block, stays)
}

// The value at `point` of the table that has at each row the value at the selector of the next one;
// at the last row it is `after`.
#[tactic(auto, using(crate::proofs::Halves::front_rows, crate::proofs::Halves::back_rows))]
fn moved_down_value<A: Field, EF: Algebra<A>>(
    rows: &[A],
    point: &[EF],
    selector: &[EF],
    block: usize,
    after: EF,
) -> EF
    requires size { length rows.now ≡ 2 ^ (length point.now + length selector.now) }
    requires block { block ≡ 2 ^ length selector.now }
    ensures { EF.number result ≡ value EF.ops (moved_down (2 ^ length point.now) 1
        (λ _. EF.number after) (λ a. value EF.ops
        (λ c. EF.embedding (entries A.number rows.now (a * 2 ^ length selector.now + c)))
        (map EF.number selector.now))) (map EF.number point.now) }
{
    let [first, rest @ ..] = point else {
        return after;
    };
    let (low, high) = rows.split_at(rows.len() / 2);
    let between = eval_slice(&high[..block], selector);
    let lo = moved_down_value(low, rest, selector, block, between);
    let hi = moved_down_value(high, rest, selector, block, after);
    lo.add(hi.sub(lo).mul(*first))
}

// The rows are read as many rows further on as the selector tells apart; those after the end are
// the last ones.
fn successor_value_by_blocks<A: Field, EF: Algebra<A>>(
    rows: &[A],
    point: &[EF],
    selector: &[EF],
    block: usize,
) -> EF
    requires fits { FitsInBlocks EF.row }
    requires size { length rows.now ≡ 2 ^ (length point.now + length selector.now) }
    requires block { block ≡ 2 ^ length selector.now }
    requires short { length selector.now ≤ 8 }
    requires long { 256 ≤ length rows.now }
    ensures { EF.number result ≡ value EF.ops (λ a. value EF.ops
        (λ c. EF.embedding (entries A.number rows.now (next_row (length point.now) a * 2 ^
        length selector.now + c)))
        (map EF.number selector.now)) (map EF.number point.now) }
{
    let (outer, inner) = point.split_at(point.len() - (BLOCK_COORDINATES - selector.len()));
    let weights = joined_block_weights(inner, selector);
    moved_blocks_value(rows, outer, &weights, block, &rows[rows.len() - block..])
}

// The sum over all rows of the entry `stride` rows further on, as rows weigh in blocks; `after`
// stands after the last row.
fn moved_blocks_value<A: Field, EF: Algebra<A>>(
    rows: &[A],
    outer: &[EF],
    weights: &[EF],
    stride: usize,
    after: &[A],
) -> EF
    requires size { length rows.now ≡ 2 ^ length outer.now * length weights.now }
    requires some { 0 < length weights.now }
    requires few { length weights.now ≤ 512 }
    requires stride { stride ≤ length weights.now }
    requires after { length after.now ≡ stride }
    ensures { EF.number result ≡ products EF.ops (length rows.now)
        (moved_down (length rows.now) stride (λ j. EF.embedding (entries A.number after.now j))
        (λ b. EF.embedding (entries A.number rows.now b)))
        (block_weight EF.ops (map EF.number outer.now) (length weights.now)
        (entries EF.number weights.now)) }
{
    let [first, rest @ ..] = outer else {
        return moved_block_value(rows, weights, stride, after);
    };
    let (low, high) = rows.split_at(rows.len() / 2);
    let lo = moved_blocks_value(low, rest, weights, stride, &high[..stride]);
    let hi = moved_blocks_value(high, rest, weights, stride, after);
    lo.add(hi.sub(lo).mul(*first))
}

// The same for one block.
fn moved_block_value<A: Field, EF: Algebra<A>>(
    rows: &[A],
    weights: &[EF],
    stride: usize,
    after: &[A],
) -> EF
    requires same { length rows.now ≡ length weights.now }
    requires few { length weights.now ≤ 512 }
    requires stride { stride ≤ length weights.now }
    requires after { length after.now ≡ stride }
    ensures { EF.number result ≡ products EF.ops (length rows.now)
        (moved_down (length rows.now) stride (λ j. EF.embedding (entries A.number after.now j))
        (λ b. EF.embedding (entries A.number rows.now b)))
        (entries EF.number weights.now) }
{
    let there = weights.len() - stride;
    let sum = EF::dot_base(&rows[stride..], &weights[..there]);
    sum.add(EF::dot_base(after, &weights[there..]))
}
