//! Openings and the weights of their tables.
use sc_field::Field;
use sc_small_fields::F65537 as F;

/// Adds the second weight to the first opening, and takes the first weight from the second opening.
/// The sum of all openings, each times its weight, stays as it was.
pub fn exchange(openings: &mut [F], weights: &[F]) {
    if openings.len() >= 2 && weights.len() >= 2 {
        openings[0] = openings[0].add(weights[1]);
        openings[1] = openings[1].sub(weights[0]);
    }
}

/// The sum of openings, each times the weight of its table.
pub fn weigh(openings: &[F], weights: &[F]) -> F {
    let mut sum = F::ZERO;
    for (opening, weight) in openings.iter().zip(weights) {
        sum = sum.add(opening.mul(*weight));
    }
    sum
}
