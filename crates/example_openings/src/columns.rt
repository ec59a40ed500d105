//! Three columns of a computation, and what somebody claims of them.
use sc_field::{Field, NoMemory};
use sc_openings::OpeningClaim;
use sc_small_fields::F65537 as F;
use sc_table::{Point, eval_slice};
use std::alloc::Global;

/// How many variables each column has.
pub const VARIABLES: usize = 4;

// How many rows each column has.
const ROWS: usize = 16;

// Each claim's column, whether its next rows are meant, and the coordinates of its point.
static ASKED: [(usize, bool, [u8; VARIABLES]); 5] = [
    (0, false, [2, 3, 5, 7]),
    (1, false, [11, 13, 17, 19]),
    (0, true, [23, 29, 31, 37]),
    (2, false, [41, 43, 47, 53]),
    (1, true, [59, 61, 67, 71]),
];

/// Three columns of 16 rows, and what somebody claims of them.
#[derive(Drop)]
pub struct Claimed {
    pub columns: [Vec<F>; 3],
    pub claims: Vec<OpeningClaim<F>>,
}

impl Claimed {
    /// Adds something to the value of a claim, if there is one at this place.
    pub fn add(&mut self, place: usize, by: F) {
        if let Some(claim) = self.claims.get_mut(place) {
            claim.value = claim.value.add(by);
        }
    }
}

/// The columns with claims that are true.
pub fn true_claims(alloc: Global) -> anyhow::Result<Claimed> {
    let columns = sums_of_squares(alloc)?;
    let mut claims = Vec::new(alloc);
    for (table, successor, coordinates) in &ASKED {
        claims.push(true_claim(alloc, &columns, *table, *successor, coordinates)?)?;
    }
    Ok(Claimed { columns, claims })
}

// The numbers from 1 to 16, their squares, and of each square the sum of all up to it.
fn sums_of_squares(alloc: Global) -> Result<[Vec<F>; 3], NoMemory> {
    let (mut numbers, mut squares) = (Vec::new(alloc), Vec::new(alloc));
    let (mut sums, mut sum) = (Vec::new(alloc), F::ZERO);
    for row in 0..ROWS {
        let number = F::element(row as u64 + 1);
        let square = number.mul(number);
        sum = sum.add(square);
        numbers.push(number)?;
        squares.push(square)?;
        sums.push(sum)?;
    }
    Ok([numbers, squares, sums])
}

// The true claim on a column at a point.
fn true_claim(
    alloc: Global,
    columns: &[Vec<F>; 3],
    table: usize,
    successor: bool,
    coordinates: &[u8; VARIABLES],
) -> anyhow::Result<OpeningClaim<F>> {
    let Some(column) = columns.get(table) else {
        anyhow::bail!("there is no column {table}");
    };
    let [first, second, third, fourth] = *coordinates;
    let point = vec![in alloc; of(first), of(second), of(third), of(fourth)]?;
    let value = if successor {
        value_at(&next_rows(alloc, column)?, &point)?
    } else {
        value_at(column, &point)?
    };
    Ok(OpeningClaim {
        table,
        point: Point::new(point),
        successor,
        value,
    })
}

// The element of this number.
fn of(number: u8) -> F {
    F::element(number as u64)
}

// The next rows: of each row the one after it, and of the last one itself.
fn next_rows(alloc: Global, rows: &[F]) -> Result<Vec<F>, NoMemory> {
    let next = rows
        .iter()
        .skip(1)
        .chain(rows.last())
        .copied()
        .collect(alloc)?;
    Ok(next)
}

// The value of rows at a point.
fn value_at(rows: &[F], point: &[F]) -> anyhow::Result<F> {
    if rows.len() != ROWS || point.len() != VARIABLES {
        anyhow::bail!(
            "{} rows have no value at {} coordinates",
            rows.len(),
            point.len()
        );
    }
    Ok(eval_slice::<F, F>(rows, point))
}
