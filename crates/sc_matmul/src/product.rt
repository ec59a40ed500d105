//! The product of two matrices, and its first false entry.
ghost use Rattle.std.specs.Prelude.{◌≡◌, ℕ, ◌+◌, ◌*◌, ◌<◌, ◌≤◌, IfOk, length, map};
ghost use Rattle.std.specs.Option.{option_map};
ghost use Rattle.sc_definitions.specs.Ring.{◌*⟨◌⟩◌};
ghost use Rattle.sc_definitions.specs.Tables.{entries, sum_below};
ghost use Rattle.sc_merge_definitions.specs.Matrices.{product_values};
ghost use Rattle.sc_soundness.specs.Differences.{first_difference};
ghost use Rattle.sc_matmul.specs.MatrixViews.{matrix_in, rows_in, cols_in};
ghost use Rattle.sc_matmul.specs.Entries.{difference_of};

use crate::matrix::Matrix;
use sc_field::{Algebra, Field, NoMemory, with_room};
use std::alloc::Global;

// An entry that is false, by its place, row by row, and by the numbers of the claimed and of the
// true one.
#[derive(Clone, Copy)]
pub(crate) struct FalseEntry {
    pub(crate) place: usize,
    pub(crate) claimed: u64,
    pub(crate) actual: u64,
}

// The rows of a table, each so long and times its factor, added up.
pub(crate) fn sum_rows<B: Field, A: Algebra<B>>(
    alloc: Global,
    width: usize,
    rows: &[B],
    factors: &[A],
) -> Result<Vec<A>, NoMemory>
    requires size { length rows.now ≡ length factors.now * width }
    requires few { length factors.now ≤ 512 }
    ensures count { IfOk result (λ v. length v.items ≡ width) }
    ensures sums { IfOk result (λ v. (c : ℕ) → c < width → entries A.number v.items c
        ≡ sum_below A.ops (length factors.now) (λ a. entries A.number factors.now a *⟨ A.ops ⟩
        entries (λ x. A.embedding (B.number x)) rows.now (a * width + c))) }
{
    let mut sums = Vec::new(alloc);
    sums.resize(width, A::ZERO)?;
    A::add_columns_base(&mut sums, rows, factors);
    Ok(sums)
}

// The entries of the product, row by row. It takes as many products as the rows times the inner
// side times the columns.
pub(crate) fn product_of<F: Field>(
    alloc: Global,
    left: &Matrix<F>,
    right: &Matrix<F>,
) -> Result<Vec<F>, NoMemory>
    requires inner { rows_in right.now ≡ cols_in left.now }
    requires few { cols_in left.now ≤ 128 }
    requires rows { rows_in left.now ≤ 128 }
    requires cols { cols_in right.now ≤ 128 }
    ensures { IfOk result (λ v. map F.number v.items
        ≡ product_values F.ops (matrix_in F.number left.now) (matrix_in F.number right.now)) }
{
    let (inner, cols) = (left.cols(), right.cols());
    let (lefts, rights) = (left.as_slice(), right.as_slice());
    let mut product = with_room(alloc, left.rows() * cols)?;
    for i in 0..left.rows() {
        let row = &lefts[i * inner..(i + 1) * inner];
        let sums = sum_rows::<F, F>(alloc, cols, rights, row)?;
        product.extend_from_slice(&sums)?;
    }
    Ok(product)
}

// The first entry that is false, if one is, of as many claimed entries as there are true ones.
pub(crate) fn first_false<F: Field>(claimed: &[F], product: &[F]) -> Option<FalseEntry>
    requires { length claimed.now ≡ length product.now }
    ensures { option_map difference_of result
        ≡ first_difference 0 (map F.number claimed.now) (map F.number product.now) }
{
    for place in 0..claimed.len() {
        let (claimed, actual) = (claimed[place].index(), product[place].index());
        if claimed != actual {
            return Some(FalseEntry {
                place,
                claimed,
                actual,
            });
        }
    }
    None
}
