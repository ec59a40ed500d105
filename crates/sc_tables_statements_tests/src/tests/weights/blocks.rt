//! Weights at tables of less than a block, of a block and of several, against plain loops: each
//! row's weight straight from its digits.

ghost use Rattle.std.specs.Prelude.{◌≡◌};
ghost use Rattle.sc_definitions.specs.Statements.{arity_of};

use sc_field::{Algebra, ExtensionField, Field, NoMemory};
use sc_small_fields::{F257, F257x2, F65537};
use sc_table::{Poly, VariableOrder};
use sc_tests_common::{Wide, of, point, table};
use sc_weights::{NextConstraint, RowWeights, Selector};
use std::alloc::Global;

// Coordinates of points and of selectors.
const COORDINATES: [u64; 12] = [3, 250, 17, 0, 99, 41, 1, 207, 64, 5, 128, 77];

const SELECTORS: [u64; 12] = [9, 0, 31, 200, 256, 13, 2, 171, 1, 88, 54, 6];

// The equality weight of a row, the last coordinate first.
fn equality_at<F: Field>(z: &[F], row: usize) -> F {
    let mut weight = F::ONE;
    let mut digits = row;
    for z_i in z.iter().rev() {
        let factor = if digits % 2 == 1 {
            *z_i
        } else {
            F::ONE.sub(*z_i)
        };
        weight = weight.mul(factor);
        digits /= 2;
    }
    weight
}

// The equality weights of all rows whose next is this one, in sum.
fn successor_at<F: Field>(z: &[F], row: usize, last: usize) -> F {
    let mut weight = F::ZERO;
    if row > 0 {
        weight = weight.add(equality_at(z, row - 1));
    }
    if row == last {
        weight = weight.add(equality_at(z, row));
    }
    weight
}

// The product of the coordinates whose digit in the row is 1.
fn product_at<F: Field>(z: &[F], row: usize) -> F {
    let mut weight = F::ONE;
    let mut digits = row;
    for z_i in z.iter().rev() {
        if digits % 2 == 1 {
            weight = weight.mul(*z_i);
        }
        digits /= 2;
    }
    weight
}

// Whether the weights are these, at a table of n variables over A, as a sum and as they are added
// to rows.
fn agrees<A: Field, E: Algebra<A>, W: RowWeights<E>>(
    alloc: Global,
    weights: &W,
    n: usize,
    wanted: &[E],
) -> Result<bool, NoMemory>
    requires { arity_of n (W.kind weights.now) ≡ n }
{
    if n > 16 {
        return Ok(false);
    }
    let evals: Poly<A> = table(alloc, n, 12345)?;
    let mut sum = E::ZERO;
    for (weight, entry) in wanted.iter().zip(evals.as_slice()) {
        sum = sum.add(weight.mul_base(*entry));
    }
    let value: E = weights.true_value(evals.as_slice());
    let old: Poly<E> = table(alloc, n, 54321)?;
    let mut new = old.copy(alloc)?;
    let scale: E = of(7);
    weights.add_to(&mut new, scale);
    let rows = old.as_slice().iter().zip(wanted);
    let added = rows
        .zip(new.as_slice())
        .all(|((old, weight), new)| *new == old.add(scale.mul(*weight)));
    Ok(added && value == sum && wanted.len() == new.num_evals())
}

fn equality<A: Field, E: Algebra<A>>(alloc: Global, coords: &[u64]) -> Result<bool, NoMemory> {
    let z = point::<E>(alloc, coords)?;
    let rows = 1 << (coords.len() % 64);
    let wanted: Vec<E> = (0..rows)
        .map(|row| equality_at(z.as_slice(), row))
        .collect(alloc)?;
    agrees::<A, E, _>(alloc, &z, coords.len(), &wanted)
}

// Of a selector that stands first the rows are its slots, and of one that stands last their places.
fn successor<A: Field, E: Algebra<A>>(
    alloc: Global,
    var_order: VariableOrder,
    selector: &[u64],
    coords: &[u64],
) -> Result<bool, NoMemory> {
    let constraint = NextConstraint {
        selector: point::<E>(alloc, selector)?,
        point: point::<E>(alloc, coords)?,
        var_order,
    };
    let slots = 1 << (selector.len() % 64);
    let places = 1 << (coords.len() % 64);
    let (s, z) = (constraint.selector.as_slice(), constraint.point.as_slice());
    let mut wanted = Vec::new(alloc);
    match var_order {
        VariableOrder::Prefix => {
            for slot in 0..slots {
                for place in 0..places {
                    let next = successor_at(z, place, places.saturating_sub(1));
                    wanted.push(equality_at(s, slot).mul(next))?;
                }
            }
        }
        VariableOrder::Suffix => {
            for place in 0..places {
                for slot in 0..slots {
                    let next = successor_at(z, place, places.saturating_sub(1));
                    wanted.push(equality_at(s, slot).mul(next))?;
                }
            }
        }
    }
    let n = selector.len().saturating_add(coords.len());
    agrees::<A, E, _>(alloc, &constraint, n, &wanted)
}

fn products<F: Field, E: ExtensionField<F>>(
    alloc: Global,
    coords: &[u64],
) -> Result<bool, NoMemory> {
    let z = point::<F>(alloc, coords)?;
    let rows = 1 << (coords.len() % 64);
    let wanted: Vec<E> = (0..rows)
        .map(|row| E::embed(product_at(z.as_slice(), row)))
        .collect(alloc)?;
    agrees::<F, E, _>(alloc, &Selector::Direct(&z), coords.len(), &wanted)
}

fn powers<F: Field, E: ExtensionField<F>>(
    alloc: Global,
    var: u64,
    n: usize,
) -> Result<bool, NoMemory> {
    let base: F = of(var);
    let rows: usize = 1 << (n % 64);
    let wanted: Vec<E> = (0..rows)
        .map(|row| E::embed(base.exp_u64(row as u64)))
        .collect(alloc)?;
    agrees::<F, E, _>(alloc, &Selector::Scalar(base), n, &wanted)
}

#[test]
fn equality_weights_around_a_block(rt: HostRuntime) {
    for n in 6..12 {
        let coords = &COORDINATES[..n];
        assert!(rt;
            equality::<F65537, F65537>(rt.alloc(), coords) == Ok(true),
            "{n}"
        );
        assert!(rt;
            equality::<F257, F257x2>(rt.alloc(), coords) == Ok(true),
            "{n}"
        );
        assert!(rt;
            equality::<Wide<F257>, Wide<F257>>(rt.alloc(), coords) == Ok(true),
            "{n}"
        );
    }
}

#[test]
fn successor_weights_around_a_block(rt: HostRuntime) {
    for n in [7, 8, 10] {
        for k in 0..n + 1 {
            for order in [VariableOrder::Prefix, VariableOrder::Suffix] {
                let (selector, coords) = (&SELECTORS[..k], &COORDINATES[..n - k]);
                assert!(rt;
                    successor::<F65537, F65537>(rt.alloc(), order, selector, coords) == Ok(true),
                    "{n} {k}"
                );
                assert!(rt;
                    successor::<F257, F257x2>(rt.alloc(), order, selector, coords) == Ok(true),
                    "{n} {k}"
                );
                assert!(rt;
                    successor::<Wide<F257>, Wide<F257>>(rt.alloc(), order, selector, coords)
                        == Ok(true),
                    "{n} {k}"
                );
            }
        }
    }
}

#[test]
fn products_around_a_block(rt: HostRuntime) {
    for n in 6..12 {
        let coords = &COORDINATES[..n];
        assert!(rt;
            products::<F65537, F65537>(rt.alloc(), coords) == Ok(true),
            "{n}"
        );
        assert!(rt;
            products::<F257, F257x2>(rt.alloc(), coords) == Ok(true),
            "{n}"
        );
        assert!(rt;
            products::<Wide<F257>, Wide<F257>>(rt.alloc(), coords) == Ok(true),
            "{n}"
        );
    }
}

#[test]
fn powers_around_a_block(rt: HostRuntime) {
    for n in 6..12 {
        for var in [0, 1, 3, 250] {
            assert!(rt;
                powers::<F65537, F65537>(rt.alloc(), var, n) == Ok(true),
                "{var} {n}"
            );
            assert!(rt;
                powers::<F257, F257x2>(rt.alloc(), var, n) == Ok(true),
                "{var} {n}"
            );
            assert!(rt;
                powers::<Wide<F257>, Wide<F257>>(rt.alloc(), var, n) == Ok(true),
                "{var} {n}"
            );
        }
    }
}
