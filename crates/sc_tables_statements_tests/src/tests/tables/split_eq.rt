//! Split equality weights, sums of any length and weights of grids, by hand and against plain
//! loops.

ghost use Rattle.std.specs.Prelude.{◌≡◌, ℕ, ◌+◌, ◌*◌, ◌^◌, ◌<◌, ◌≤◌, length, IfOk};
ghost use Rattle.sc_table.specs.SplitEqs.{split_variables};

use super::kernels::{list, weight_at};
use VariableOrder::{Prefix, Suffix};
use sc_field::{Algebra, Field, NoMemory};
use sc_small_fields::{F257, F257x2, F65537};
use sc_table::{Point, Poly, SplitEq, VariableOrder, dot_slices, lagrange_weights_01inf_multi};
use sc_tests_common::{Traced, Wide, elements, entry, have_numbers, point, table};
use std::alloc::Global;

// A table summed over its variables that come first or last, under weights that may be moved up.
fn compress<A: Field, E: Algebra<A>>(
    alloc: Global,
    order: VariableOrder,
    shifted: bool,
    split: &SplitEq<A, E>,
    evals: &[A],
) -> Result<Poly<E>, NoMemory>
    requires { (m : ℕ) × (length evals.now ≡ 2 ^ (split_variables split.now + m)) }
{
    match (order, shifted) {
        (Prefix, false) => split.compress_prefix(alloc, evals),
        (Suffix, false) => split.compress_suffix(alloc, evals),
        (Prefix, true) => split.compress_prefix_shifted(alloc, evals),
        (Suffix, true) => split.compress_suffix_shifted(alloc, evals),
    }
}

// Whether the weights of the point (2) leave these numbers of the table 1, 2, 3, 4.
fn four_compress(
    alloc: Global,
    order: VariableOrder,
    shifted: bool,
    left: &[u64],
) -> Result<bool, NoMemory> {
    let z: Point<F65537> = point(alloc, &[2])?;
    let split = SplitEq::new_unpacked(alloc, &z, F65537::ONE)?;
    let evals: Vec<F65537> = elements(alloc, &[1, 2, 3, 4])?;
    let sums = compress(alloc, order, shifted, &split, &evals)?;
    Ok(have_numbers(sums.as_slice(), left))
}

// The weights are -1 and 2, and moved up 0 and -1.
#[test]
fn four_values_compressed(rt: HostRuntime) {
    for (order, shifted, left) in [
        (Prefix, false, [5, 6]),
        (Suffix, false, [3, 5]),
        (Prefix, true, [65534, 65533]),
        (Suffix, true, [65535, 65533]),
    ] {
        assert!(rt;
            four_compress(rt.alloc(), order, shifted, &left) == Ok(true),
            "{order:?} {shifted}"
        );
    }
}

// `scale` times the equality weights of the rows of a point, after so many zeros.
fn plain_weights<E: Field>(
    alloc: Global,
    z: &[E],
    scale: E,
    zeros: usize,
) -> Result<Vec<E>, NoMemory>
    requires { length z.now ≤ 16 }
{
    let weights = (0..1 << z.len())
        .map(|row: usize| match row.checked_sub(zeros) {
            Some(before) => weight_at(z, before).mul(scale),
            None => E::ZERO,
        })
        .collect(alloc)?;
    Ok(weights)
}

// The sum over the rows of weights of the weight times the entry there, of a table in which as many
// rows of the given width follow each other, or as many parts of each row of the width.
fn plain_sum<A: Field, E: Algebra<A>>(
    order: VariableOrder,
    weights: &[E],
    evals: &[A],
    width: usize,
    c: usize,
) -> E
    requires size { length evals.now ≡ length weights.now * width }
    requires inside { c < width }
{
    let rows = weights.len();
    let mut sum = E::ZERO;
    for b in 0..rows {
        let place = match order {
            Prefix => b * width + c,
            Suffix => c * rows + b,
        };
        sum = sum.add(weights[b].mul_base(evals[place]));
    }
    sum
}

// Whether what is left of a table is what plain loops make of it.
fn sums_are_plain<A: Field, E: Algebra<A>>(
    order: VariableOrder,
    weights: &[E],
    evals: &[A],
    sums: &[E],
) -> bool {
    let width = sums.len();
    if weights.len().checked_mul(width) != Some(evals.len()) {
        return false;
    }
    for c in 0..width {
        if sums[c] != plain_sum(order, weights, evals, width, c) {
            return false;
        }
    }
    true
}

// Whether the weights of n coordinates leave of a table of m variables more what plain loops do.
fn compressed_agrees<A: Field, E: Algebra<A>>(
    alloc: Global,
    order: VariableOrder,
    shifted: bool,
    n: usize,
    m: usize,
) -> Result<bool, NoMemory>
    requires { n + m ≤ 16 }
{
    let z: Point<E> = Point::new(list(alloc, n, 34567)?);
    let scale: E = entry(1, 77);
    let split = SplitEq::new_unpacked(alloc, &z, scale)?;
    let evals: Poly<A> = table(alloc, n + m, 12345)?;
    let sums = compress(alloc, order, shifted, &split, evals.as_slice())?;
    let weights = plain_weights(alloc, z.as_slice(), scale, if shifted { 1 } else { 0 })?;
    Ok(sums_are_plain(order, &weights, evals.as_slice(), sums.as_slice()))
}

// The same of each order, with the weights as they are and moved up.
fn each_way_agrees<A: Field, E: Algebra<A>>(
    alloc: Global,
    n: usize,
    m: usize,
) -> Result<bool, NoMemory>
    requires { n + m ≤ 16 }
{
    for order in [Prefix, Suffix] {
        if !compressed_agrees::<A, E>(alloc, order, false, n, m)?
            || !compressed_agrees::<A, E>(alloc, order, true, n, m)?
        {
            return Ok(false);
        }
    }
    Ok(true)
}

// The same over each field, of at most 16 variables; the last one's elements are too large for
// blocks.
fn each_field_agrees(alloc: Global, n: usize, m: usize) -> Result<bool, NoMemory> {
    if n > 16 || m > 16 - n {
        return Ok(false);
    }
    Ok(
        each_way_agrees::<F65537, F65537>(alloc, n, m)?
            && each_way_agrees::<F257, F257x2>(alloc, n, m)?
            && each_way_agrees::<Traced, Traced>(alloc, n, m)?
            && each_way_agrees::<Wide<F257>, Wide<F257>>(alloc, n, m)?,
    )
}

// Every table of at most 4096 entries, with any number of its variables summed over.
#[test]
fn tables_compressed(rt: HostRuntime) {
    for n in 0..13 {
        for m in 0..13 - n {
            assert!(rt; each_field_agrees(rt.alloc(), n, m) == Ok(true), "{n} {m}");
        }
    }
}

// Weights are written out by 256, for 32 sums or more; columns are added by 256 of them.
#[test]
fn tables_compressed_around_a_block(rt: HostRuntime) {
    for (n, m) in [(13, 1), (10, 3), (8, 5), (9, 5), (10, 5), (8, 6), (3, 10)] {
        assert!(rt; each_field_agrees(rt.alloc(), n, m) == Ok(true), "{n} {m}");
    }
}

// Whether each row of one table is that of another and a weight, once as it is and once with a
// scale.
fn rows_gain<E: Field>(old: &[E], new: &[E], weights: &[E], scale: E) -> bool {
    new.iter().zip(old).zip(weights).all(|((new, old), weight)| *new
        == old.add(*weight).add(scale.mul(*weight)))
}

// Whether rows gain the weights, once as they are and once with a scale.
fn rows_gain_weights<E: Field>(
    alloc: Global,
    split: &SplitEq<E, E>,
    weights: &[E],
    n: usize,
) -> Result<bool, NoMemory>
    requires few { n ≤ 16 }
    requires same { split_variables split.now ≡ n }
{
    let scale: E = entry(2, 99);
    let old: Poly<E> = table(alloc, n, 12345)?;
    let mut rows: Poly<E> = table(alloc, n, 12345)?;
    split.accumulate_into(rows.as_mut_slice(), None);
    split.accumulate_into(rows.as_mut_slice(), Some(scale));
    Ok(rows_gain(old.as_slice(), rows.as_slice(), weights, scale))
}

// The same of the weights moved up by one row.
fn rows_gain_moved<E: Field>(
    alloc: Global,
    split: &SplitEq<E, E>,
    weights: &[E],
    n: usize,
) -> Result<bool, NoMemory>
    requires few { n ≤ 16 }
    requires same { split_variables split.now ≡ n }
{
    let scale: E = entry(2, 99);
    let old: Poly<E> = table(alloc, n, 12345)?;
    let mut rows: Poly<E> = table(alloc, n, 12345)?;
    split.accumulate_shifted_into(rows.as_mut_slice(), None);
    split.accumulate_shifted_into(rows.as_mut_slice(), Some(scale));
    Ok(rows_gain(old.as_slice(), rows.as_slice(), weights, scale))
}

// Whether the split weights of n coordinates are those of a plain loop: as a table, the last one,
// and added to rows.
fn weights_agree<E: Field>(alloc: Global, n: usize) -> Result<bool, NoMemory>
    requires { n ≤ 16 }
{
    let z: Point<E> = Point::new(list(alloc, n, 34567)?);
    let scale: E = entry(1, 77);
    let split: SplitEq<E, E> = SplitEq::new_unpacked(alloc, &z, scale)?;
    let plain = plain_weights(alloc, z.as_slice(), scale, 0)?;
    let whole = split.materialize(alloc)?;
    let moved = plain_weights(alloc, z.as_slice(), scale, 1)?;
    let gain = rows_gain_weights(alloc, &split, &plain, n)?
        && rows_gain_moved(alloc, &split, &moved, n)?;
    let last = split.last_scalar();
    Ok(
        gain && split.num_variables() == n
            && whole.as_slice() == plain.as_slice()
            && plain.last() == Some(&last),
    )
}

#[test]
fn split_weights_of_points(rt: HostRuntime) {
    for n in 0..13 {
        assert!(rt; weights_agree::<F65537>(rt.alloc(), n) == Ok(true), "{n}");
        assert!(rt; weights_agree::<F257x2>(rt.alloc(), n) == Ok(true), "{n}");
        assert!(rt; weights_agree::<Traced>(rt.alloc(), n) == Ok(true), "{n}");
    }
}

// Whether the sum of products of two lists of so many entries is that of a plain loop.
fn dot_agrees<A: Field, E: Algebra<A>>(alloc: Global, len: usize) -> Result<bool, NoMemory> {
    let xs: Vec<A> = list(alloc, len, 12345)?;
    let ys: Vec<E> = list(alloc, len, 54321)?;
    let mut sum = E::ZERO;
    for (x, y) in xs.iter().zip(&ys) {
        sum = sum.add(y.mul_base(*x));
    }
    Ok(dot_slices(&xs, &ys) == sum)
}

#[test]
fn sums_around_a_piece(rt: HostRuntime) {
    for len in [0, 1, 511, 512, 513, 1300] {
        assert!(rt;
            dot_agrees::<F65537, F65537>(rt.alloc(), len) == Ok(true),
            "{len}"
        );
        assert!(rt;
            dot_agrees::<F257, F257x2>(rt.alloc(), len) == Ok(true),
            "{len}"
        );
    }
}

// Whether the weights of the places of a grid at the challenges of these numbers are the wanted
// ones.
fn grid_weights_are(alloc: Global, rs: &[u64], weights: &[u64]) -> Result<bool, NoMemory> {
    let rs: Vec<F65537> = elements(alloc, rs)?;
    if rs.len() > 40 {
        return Ok(false);
    }
    let found = lagrange_weights_01inf_multi(alloc, &rs)?;
    Ok(have_numbers(&found, weights))
}

#[test]
fn weights_of_grids(rt: HostRuntime) {
    let at_both = [24, 65507, 65417, 65509, 35, 140, 65369, 210, 840];
    for (rs, weights) in [
        ([].as_slice(), [1].as_slice()),
        (&[5], &[65533, 5, 20]),
        (&[5, 7], &at_both),
    ] {
        assert!(rt;
            grid_weights_are(rt.alloc(), rs, weights) == Ok(true),
            "{rs:?}"
        );
    }
}
