//! Two claims on a table, and their weights as they are defined, row by row.

ghost use Rattle.std.specs.Prelude.{◌≡◌, ◌≤◌, length, IfOk};
ghost use Rattle.sc_table.specs.Polys.{variables_of};
ghost use Rattle.sc_svo.specs.Claims.{AreOn};

use super::claim;
use sc_field::{ExtensionField, Field, NoMemory};
use sc_svo::SvoClaim;
use sc_table::{Poly, add_scaled};
use sc_tests_common::{elements, of};
use std::alloc::Global;

// Coordinates of the claims' points, and what the claims are multiplied by.
const FIRST: [u64; 10] = [12345, 3, 40321, 0, 65536, 277, 1, 30303, 9, 51234];

const SECOND: [u64; 10] = [7000, 54321, 1, 23456, 2, 61007, 300, 65535, 45454, 8];

const COEFFICIENTS: [u64; 2] = [60001, 259];

// Of each claim, whether it is on the value through the successor map.
pub(super) type Kinds = [bool; 2];

pub(super) static KINDS: [Kinds; 4] = [[false, false], [true, true], [false, true], [true, false]];

// The claims at both points, of which n coordinates are taken.
pub(super) fn claims<EF: Field>(
    alloc: Global,
    n: usize,
    kinds: Kinds,
) -> Result<Vec<SvoClaim<EF>>, NoMemory>
    requires { n ≤ 10 }
    ensures { IfOk result (λ v. AreOn n v.items) }
{
    let mut claims = Vec::new(alloc);
    claims.push(claim(alloc, &FIRST[..n], kinds[0], COEFFICIENTS[0])?)?;
    claims.push(claim(alloc, &SECOND[..n], kinds[1], COEFFICIENTS[1])?)?;
    Ok(claims)
}

// The weights of both claims, each times its coefficient, added up.
pub(super) fn weights<EF: Field>(
    alloc: Global,
    n: usize,
    kinds: Kinds,
) -> Result<Poly<EF>, NoMemory>
    requires { n ≤ 10 }
    ensures { IfOk result (λ p. variables_of p ≡ n) }
{
    let first = weights_at::<EF>(alloc, &FIRST[..n], kinds[0])?;
    let second = weights_at::<EF>(alloc, &SECOND[..n], kinds[1])?;
    let mut sums = Poly::zero(alloc, n)?;
    add_scaled(sums.as_mut_slice(), first.as_slice(), of(COEFFICIENTS[0]));
    add_scaled(sums.as_mut_slice(), second.as_slice(), of(COEFFICIENTS[1]));
    Ok(sums)
}

// The numbers of the values of a table that the claims are on: plain sums over its rows.
pub(super) fn values<EF: Field>(
    alloc: Global,
    evals: &Poly<EF>,
    n: usize,
    kinds: Kinds,
) -> Result<[u64; 2], NoMemory>
    requires { n ≤ 10 }
{
    let first = weights_at::<EF>(alloc, &FIRST[..n], kinds[0])?;
    let second = weights_at::<EF>(alloc, &SECOND[..n], kinds[1])?;
    let numbers = [
        plain_sum(evals.as_slice(), first.as_slice()).index(),
        plain_sum(evals.as_slice(), second.as_slice()).index(),
    ];
    Ok(numbers)
}

// The sum of products, row by row.
fn plain_sum<EF: Field>(evals: &[EF], weights: &[EF]) -> EF {
    let mut sum = EF::ZERO;
    for (value, weight) in evals.iter().zip(weights) {
        sum = sum.add(value.mul(*weight));
    }
    sum
}

// A point's equality weights, or its successor weights.
fn weights_at<EF: Field>(
    alloc: Global,
    coords: &[u64],
    successor: bool,
) -> Result<Poly<EF>, NoMemory>
    requires { length coords.now ≤ 10 }
    ensures { IfOk result (λ p. variables_of p ≡ length coords.now) }
{
    let point: Vec<EF> = elements(alloc, coords)?;
    let equal = Poly::new_from_point(alloc, &point, EF::ONE)?;
    if successor {
        moved_up(alloc, &equal, coords.len())
    } else {
        Ok(equal)
    }
}

// What each row's weight becomes where it stands in the row after it, and that of the last row in
// the last row itself.
fn moved_up<EF: Field>(alloc: Global, equal: &Poly<EF>, n: usize) -> Result<Poly<EF>, NoMemory>
    requires few { n ≤ 10 }
    requires size { variables_of equal.now ≡ n }
    ensures { IfOk result (λ p. variables_of p ≡ n) }
{
    let mut weights = Poly::zero(alloc, n)?;
    add_moved_up(weights.as_mut_slice(), equal.as_slice());
    Ok(weights)
}

fn add_moved_up<EF: Field>(weights: &mut [EF], equal: &[EF])
    requires { length equal.now ≡ length weights.old }
{
    for row in 0..equal.len() {
        let next = if row + 1 < equal.len() { row + 1 } else { row };
        weights[next] = weights[next].add(equal[row]);
    }
}

// The images of the entries of a table of n variables.
pub(super) fn images<F: Field, EF: ExtensionField<F>>(
    alloc: Global,
    table: &Poly<F>,
    n: usize,
) -> Result<Poly<EF>, NoMemory>
    requires { n ≤ 10 }
    ensures { IfOk result (λ p. variables_of p ≡ n) }
{
    let mut images = Poly::zero(alloc, n)?;
    for (image, entry) in images.as_mut_slice().iter_mut().zip(table.as_slice()) {
        *image = EF::embed(*entry);
    }
    Ok(images)
}
