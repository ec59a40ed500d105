//! Rows and columns of a table that are added to sums, against a plain loop.

ghost use Rattle.std.specs.Prelude.{◌≡◌, ◌*◌, ◌<◌, ◌≤◌, length};

use super::sums::list;
use sc_field::{Algebra, Field, NoMemory};
use sc_sixteen::Tower16;
use sc_small_fields::{F257, F257x2, F65537};
use std::alloc::Global;

// The sum of the products of one column with the factors, added to a sum.
fn plain_column<B: Field, A: Algebra<B>>(
    sum: A,
    rows: &[B],
    factors: &[A],
    width: usize,
    c: usize,
) -> A
    requires size { length rows.now ≡ length factors.now * width }
    requires inside { c < width }
{
    let mut sum = sum;
    for a in 0..factors.len() {
        sum = sum.add(factors[a].mul_base(rows[a * width + c]));
    }
    sum
}

// Whether so many columns of so many rows are added as a plain loop adds them, whatever stood in
// the sums.
fn columns_agree<B: Field, A: Algebra<B>>(
    alloc: Global,
    count: usize,
    width: usize,
) -> Result<bool, NoMemory>
    requires few { count ≤ 512 }
    requires narrow { width ≤ 1024 }
{
    let rows: Vec<B> = list(alloc, count * width, 12345)?;
    let factors: Vec<A> = list(alloc, count, 54321)?;
    let old: Vec<A> = list(alloc, width, 777)?;
    let mut sums: Vec<A> = list(alloc, width, 777)?;
    A::add_columns_base(&mut sums, &rows, &factors);
    for c in 0..width {
        if sums[c] != plain_column(old[c], &rows, &factors, width, c) {
            return Ok(false);
        }
    }
    Ok(true)
}

// The same of one row, which is a table's only one.
fn row_agrees<B: Field, A: Algebra<B>>(alloc: Global, width: usize) -> Result<bool, NoMemory> {
    let row: Vec<B> = list(alloc, width, 12345)?;
    let old: Vec<A> = list(alloc, width, 777)?;
    let mut sums: Vec<A> = list(alloc, width, 777)?;
    let factor = A::ZERO.sub(A::TWO);
    A::add_row_base(&mut sums, &row, factor);
    for c in 0..width {
        if sums[c] != old[c].add(factor.mul_base(row[c])) {
            return Ok(false);
        }
    }
    Ok(true)
}

// In each field, and from a field into an extension.
fn all_agree(alloc: Global, count: usize, width: usize) -> Result<bool, NoMemory>
    requires few { count ≤ 512 }
    requires narrow { width ≤ 1024 }
{
    let columns = columns_agree::<F65537, F65537>(alloc, count, width)?
        && columns_agree::<F257, F257x2>(alloc, count, width)?
        && columns_agree::<F257x2, F257x2>(alloc, count, width)?
        && columns_agree::<Tower16, Tower16>(alloc, count, width)?;
    Ok(
        columns
            && row_agrees::<F65537, F65537>(alloc, width)?
            && row_agrees::<F257, F257x2>(alloc, width)?,
    )
}

#[test]
fn columns_are_those_of_a_plain_loop(rt: HostRuntime) {
    for count in 0..22 {
        let count = if count > 20 { 511 } else { 2 * count };
        for width in [0, 1, 2, 3, 5, 8, 40] {
            assert!(rt;
                all_agree(rt.alloc(), count, width) == Ok(true),
                "{count} {width}"
            );
        }
    }
}

// A block of columns has 256 of them, and fewer than 5 rows are added one by one.
#[test]
fn columns_around_a_block(rt: HostRuntime) {
    for count in [0, 1, 4, 5, 6, 256, 512] {
        for width in [255, 256, 257, 512, 700] {
            assert!(rt;
                all_agree(rt.alloc(), count, width) == Ok(true),
                "{count} {width}"
            );
        }
    }
}

// 65536 is -1, so that each product is 1.
#[test]
fn the_largest_columns_fit(rt: HostRuntime) {
    let most = [F65537::element(65536); 512];
    let mut sums = [F65537::element(65536)];
    F65537::add_columns(&mut sums, &most, &most);
    assert!(rt; sums[0].index() == 511);
}
