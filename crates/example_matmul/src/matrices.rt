//! Two matrices of 64 rows and columns, and what somebody claims to be their product.
ghost use Rattle.std.specs.Prelude.{◌<◌};

use sc_field::{Field, NoMemory};
use sc_matmul::Matrix;
use sc_small_fields::F65537 as F;
use std::alloc::Global;

// Rows and columns of each matrix.
const SIDE: usize = 64;

/// Two matrices, and what somebody claims to be their product.
#[derive(Drop)]
pub struct Claim {
    pub left: Matrix<F>,
    pub right: Matrix<F>,
    pub claimed: Matrix<F>,
}

/// The claim of the true product of two matrices.
pub fn true_claim(alloc: Global) -> anyhow::Result<Claim> {
    let mut left = Vec::new(alloc);
    let mut right = Vec::new(alloc);
    let mut product = Vec::new(alloc);
    for place in 0..SIDE * SIDE {
        let (row, col) = (place / SIDE, place % SIDE);
        left.push(left_entry(row, col))?;
        right.push(right_entry(row, col))?;
        product.push(product_entry(row, col))?;
    }
    Ok(Claim {
        left: square(left)?,
        right: square(right)?,
        claimed: square(product)?,
    })
}

/// The claim with something added to the claimed entry at a place, counted row by row.
pub fn changed(alloc: Global, claim: Claim, place: usize, by: F) -> anyhow::Result<Claim> {
    let Claim {
        left,
        right,
        claimed,
    } = claim;
    let mut entries = Vec::from_slice(alloc, claimed.as_slice())?;
    if let Some(entry) = entries.get_mut(place) {
        *entry = entry.add(by);
    }
    Ok(Claim {
        left,
        right,
        claimed: square(entries)?,
    })
}

// The matrix of these entries, of which there have to be as many as it has.
fn square(entries: Vec<F>) -> anyhow::Result<Matrix<F>> {
    if entries.len() != SIDE * SIDE {
        anyhow::bail!(
            "{} entries are no square matrix of {SIDE} rows",
            entries.len()
        );
    }
    Ok(Matrix::new(SIDE, SIDE, entries))
}

// The entry of the left matrix in a row and a column.
fn left_entry(row: usize, col: usize) -> F
    requires row { row < 64 }
    requires col { col < 64 }
{
    F::element((7 * row + 3 * col + 1) as u64)
}

// That of the right one.
fn right_entry(row: usize, col: usize) -> F
    requires row { row < 64 }
    requires col { col < 64 }
{
    F::element((row * col + 5) as u64)
}

// That of their product.
fn product_entry(row: usize, col: usize) -> F
    requires row { row < 64 }
    requires col { col < 64 }
{
    let mut sum = F::ZERO;
    for x in 0..SIDE {
        let share = left_entry(row, x).mul(right_entry(x, col));
        sum = sum.add(share);
    }
    sum
}
