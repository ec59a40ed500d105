//! Values and weights of tables, by halves and by blocks of rows.
//!
//! A block has 256 rows, which the last 8 coordinates of a point tell apart. The weights of these
//! stand in an array, once for all blocks; the coordinates before them are taken by halves.

ghost use Rattle.std.specs.Prelude.{◌≡◌, ℕ, ◌+◌, ◌*◌, ◌^◌, ◌<◌, ◌≤◌, ◌++◌, true, length, map};
ghost use Rattle.sc_definitions.specs.Ring.{◌+⟨◌⟩◌, ◌*⟨◌⟩◌};
ghost use Rattle.sc_definitions.specs.Tables.{entries, equality_weight, value};
ghost use Rattle.sc_field.specs.Products.{products};
ghost use Rattle.sc_table.specs.Blocks.{block_weight, FitsInBlocks};

use sc_field::{Algebra, Field};
use std::mem::size_of_val;

/// How many coordinates tell the 256 rows of a block apart: the last ones of a point.
pub const BLOCK_COORDINATES: usize = 8;

// The most bytes of an element whose blocks are arrays: a block of larger ones would take more than
// 16 KiB of the stack.
const MOST_BYTES: usize = 64;

/// Whether a block of elements is an array: whether an element has at most 64 bytes. Larger ones
/// are taken row by row. No law of a field tells the size; the compiler knows it, and drops the
/// test.
pub fn fits_in_blocks<E: Field>() -> bool
    ensures { result ≡ true → FitsInBlocks E.row }
{
    size_of_val(&E::ZERO) <= MOST_BYTES
}

/// The equality weights of `z`, as many coordinates as tell the rows of a block apart, at the rows
/// of a block. `fits_in_blocks` tells whether a block is an array.
pub fn block_weights<E: Field>(z: &[E]) -> [E; 256]
    requires fits { FitsInBlocks E.row }
    requires coordinates { length z.now ≡ 8 }
    ensures { (b : ℕ) → b < 256
        → entries E.number result b ≡ equality_weight E.ops (map E.number z.now) b }
{
    let mut weights = [E::ZERO; 256];
    add_equality(&mut weights, z, E::ONE);
    weights
}

/// The equality weights of a point in two parts, which together have as many coordinates as tell
/// the rows of a block apart. `fits_in_blocks` tells whether a block is an array.
pub fn joined_block_weights<E: Field>(front: &[E], back: &[E]) -> [E; 256]
    requires fits { FitsInBlocks E.row }
    requires coordinates { length front.now + length back.now ≡ 8 }
    ensures { (b : ℕ) → b < 256 → entries E.number result b
        ≡ equality_weight E.ops (map E.number front.now ++ map E.number back.now) b }
{
    let mut z = [E::ZERO; BLOCK_COORDINATES];
    write_joined(&mut z, front, back);
    block_weights(&z)
}

// Writes the items of two lists, one after the other.
fn write_joined<E: Copy>(items: &mut [E], front: &[E], back: &[E])
    requires { length items.old ≡ length front.now + length back.now }
    ensures { items.new ≡ front.now ++ back.now }
{
    items[..front.len()].copy_from_slice(front);
    items[front.len()..].copy_from_slice(back);
}

/// The value at `z` of the table that a slice holds: as many entries as a power of two, whose
/// exponent is the number of coordinates.
///
/// It goes by blocks where they fit, in time linear in the table's length, and takes no memory.
pub fn eval_slice<A: Field, E: Algebra<A>>(evals: &[A], z: &[E]) -> E
    requires { length evals.now ≡ 2 ^ length z.now }
    ensures { E.number result ≡ value E.ops (entries
        (λ x. E.embedding (A.number x)) evals.now) (map E.number z.now) }
{
    if z.len() < BLOCK_COORDINATES || !fits_in_blocks::<E>() {
        return eval_halves(evals, z);
    }
    let (outer, inner) = z.split_at(z.len() - BLOCK_COORDINATES);
    let weights = block_weights(inner);
    eval_blocks(evals, outer, &weights)
}

// The value at `z`, by halves.
fn eval_halves<A: Field, E: Algebra<A>>(evals: &[A], z: &[E]) -> E
    requires { length evals.now ≡ 2 ^ length z.now }
    ensures { E.number result ≡ value E.ops (entries
        (λ x. E.embedding (A.number x)) evals.now) (map E.number z.now) }
{
    match z {
        [] => E::embed(evals[0]),

        // The line through two values, whose slope is an element of A.
        [only] => {
            let (lo, hi) = (evals[0], evals[1]);
            E::embed(lo).add(only.mul_base(hi.sub(lo)))
        }
        [first, rest @ ..] => {
            let half = evals.len() / 2;
            let lo = eval_halves(&evals[..half], rest);
            let hi = eval_halves(&evals[half..], rest);
            lo.add(hi.sub(lo).mul(*first))
        }
    }
}

/// The sum of the entries times the weights of their rows: that of the row in its block, times the
/// equality weight of the block at `outer`. A block has as many rows as there are weights, at most
/// 512.
pub fn eval_blocks<A: Field, E: Algebra<A>>(evals: &[A], outer: &[E], weights: &[E]) -> E
    requires size { length evals.now ≡ 2 ^ length outer.now * length weights.now }
    requires some { 0 < length weights.now }
    requires few { length weights.now ≤ 512 }
    ensures { E.number result ≡ products E.ops (length evals.now) (entries
        (λ x. E.embedding (A.number x)) evals.now)
        (block_weight E.ops (map E.number outer.now) (length weights.now)
        (entries E.number weights.now)) }
{
    let [first, rest @ ..] = outer else {
        return E::dot_base(evals, weights);
    };
    let half = evals.len() / 2;
    let lo = eval_blocks(&evals[..half], rest, weights);
    let hi = eval_blocks(&evals[half..], rest, weights);
    lo.add(hi.sub(lo).mul(*first))
}

/// Adds `scale` times the equality weights of `z` to the rows of a table of as many variables, by
/// halves.
pub fn add_equality<EF: Field>(rows: &mut [EF], z: &[EF], scale: EF)
    requires { length rows.old ≡ 2 ^ length z.now }
    ensures { (b : ℕ) → b < 2 ^ length z.now →
        entries EF.number rows.new b
        ≡ entries EF.number rows.old b +⟨ EF.ops ⟩ EF.number scale
        *⟨ EF.ops ⟩ equality_weight EF.ops (map EF.number z.now) b }
{
    match z {
        [] => rows[0] = rows[0].add(scale),

        // The two rows of one variable.
        [only] => {
            let at_one = scale.mul(*only);
            rows[0] = rows[0].add(scale.sub(at_one));
            rows[1] = rows[1].add(at_one);
        }
        [first, rest @ ..] => {
            let half = rows.len() / 2;
            let at_one = scale.mul(*first);
            add_equality(&mut rows[..half], rest, scale.sub(at_one));
            add_equality(&mut rows[half..], rest, at_one);
        }
    }
}
