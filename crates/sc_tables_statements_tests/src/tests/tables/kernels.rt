//! The kernels against plain loops, at lengths around the borders of their blocks.

ghost use Rattle.std.specs.Prelude.{◌≡◌, ◌+◌, ◌*◌, ◌<◌, ◌≤◌, length, IfOk};

use VariableOrder::{Prefix, Suffix};
use sc_field::{Algebra, Field, NoMemory};
use sc_sixteen::Tower16;
use sc_small_fields::{F257, F257x2, F65537};
use sc_table::{
    Poly, RoundMessage, VariableOrder, eval_slice, fits_in_blocks,
    fold_and_round_coefficients_prefix, fold_and_round_coefficients_suffix, joined_block_weights,
};
use sc_tests_common::{Traced, Wide, entry, have_numbers, table};
use std::alloc::Global;

pub(crate) fn list<F: Field>(alloc: Global, len: usize, factor: u64) -> Result<Vec<F>, NoMemory>
    ensures { IfOk result (λ v. length v.items ≡ len) }
{
    let list = (0..len).map(|i| entry(i, factor)).collect(alloc)?;
    Ok(list)
}

// The rows of place b, at which the round's variable is 0 and 1.
fn rows_of(order: VariableOrder, half: usize, b: usize) -> (usize, usize)
    requires place { b < half }
    requires few { half ≤ 100000 }
    ensures low { result.0 < half + half }
    ensures high { result.1 < half + half }
{
    match order {
        Prefix => (b, half + b),
        Suffix => (2 * b, 2 * b + 1),
    }
}

fn plain_message<B: Field, A: Algebra<B>>(
    order: VariableOrder,
    half: usize,
    evals: &[B],
    weights: &[A],
) -> RoundMessage<A>
    requires evals { half + half ≤ length evals.now }
    requires weights { half + half ≤ length weights.now }
    requires few { half ≤ 100000 }
{
    let mut c_a = A::ZERO;
    let mut c_inf = A::ZERO;
    for b in 0..half {
        let (low, high) = rows_of(order, half, b);
        c_a = c_a.add(weights[low].mul_base(evals[low]));
        let slope = evals[high].sub(evals[low]);
        c_inf = c_inf.add(weights[high].sub(weights[low]).mul_base(slope));
    }
    RoundMessage { c_a, c_inf }
}

// Whether the message of two tables of so many places is that of a plain loop.
fn message_agrees<B: Field, A: Algebra<B>>(
    alloc: Global,
    order: VariableOrder,
    half: usize,
) -> Result<bool, NoMemory>
    requires { half ≤ 100000 }
{
    let evals: Vec<B> = list(alloc, 2 * half, 12345)?;
    let weights: Vec<A> = list(alloc, 2 * half, 54321)?;
    let plain = plain_message(order, half, &evals, &weights);
    Ok(order.sumcheck_coefficients(evals.as_slice(), weights.as_slice()) == plain)
}

fn messages_agree<B: Field, A: Algebra<B>>(alloc: Global, half: usize) -> Result<bool, NoMemory>
    requires { half ≤ 100000 }
{
    Ok(message_agrees::<B, A>(alloc, Prefix, half)? && message_agrees::<B, A>(alloc, Suffix, half)?)
}

#[test]
fn messages_of_each_even_length(rt: HostRuntime) {
    for half in 1..21 {
        assert!(rt;
            messages_agree::<F65537, F65537>(rt.alloc(), half) == Ok(true),
            "{half}"
        );
        assert!(rt;
            messages_agree::<F257, F257x2>(rt.alloc(), half) == Ok(true),
            "{half}"
        );
        assert!(rt;
            messages_agree::<Tower16, Tower16>(rt.alloc(), half) == Ok(true),
            "{half}"
        );
    }
}

#[test]
fn messages_around_a_block(rt: HostRuntime) {
    for half in [255, 256, 257, 511, 512, 513, 1023, 1024, 1025, 2600] {
        assert!(rt;
            messages_agree::<F65537, F65537>(rt.alloc(), half) == Ok(true),
            "{half}"
        );
        assert!(rt;
            messages_agree::<F257, F257x2>(rt.alloc(), half) == Ok(true),
            "{half}"
        );
    }
}

// Whether the rows of a table of half the length are those of the longer one, with a variable at `r`.
fn rows_are_bound<A: Field>(order: VariableOrder, old: &[A], new: &[A], r: A) -> bool {
    let half = new.len();
    if half > 100000 || old.len() != half + half {
        return false;
    }
    for b in 0..half {
        let (low, high) = rows_of(order, half, b);
        if new[b] != old[low].add(old[high].sub(old[low]).mul(r)) {
            return false;
        }
    }
    true
}

// Whether a pass over two tables of n variables leaves the tables and answers the message of plain loops.
fn pass_agrees<A: Field>(alloc: Global, order: VariableOrder, n: usize) -> Result<bool, NoMemory>
    requires least { 2 ≤ n }
    requires most { n ≤ 16 }
{
    let mut evals: Poly<A> = table(alloc, n, 12345)?;
    let mut weights: Poly<A> = table(alloc, n, 54321)?;
    let old_evals = evals.copy(alloc)?;
    let old_weights = weights.copy(alloc)?;
    let r: A = entry(1, 7);
    let message = match order {
        Prefix => fold_and_round_coefficients_prefix::<A, A>(&mut evals, &mut weights, r),
        Suffix => fold_and_round_coefficients_suffix::<A, A>(&mut evals, &mut weights, r),
    };
    let (es, ws) = (evals.as_slice(), weights.as_slice());
    let half = es.len() / 2;
    Ok(
        half <= 100000
            && half + half == es.len()
            && es.len() == ws.len()
            && rows_are_bound(order, old_evals.as_slice(), es, r)
            && rows_are_bound(order, old_weights.as_slice(), ws, r)
            && message == plain_message::<A, A>(order, half, es, ws),
    )
}

#[test]
fn passes_of_each_power_of_two(rt: HostRuntime) {
    for n in 2..14 {
        for order in [Prefix, Suffix] {
            assert!(rt;
                pass_agrees::<F65537>(rt.alloc(), order, n) == Ok(true),
                "{n}"
            );
            assert!(rt;
                pass_agrees::<F257x2>(rt.alloc(), order, n) == Ok(true),
                "{n}"
            );
        }
    }
}

// The equality weight of a row, the last coordinate first.
pub(crate) fn weight_at<F: Field>(z: &[F], row: usize) -> F {
    let mut weight = F::ONE;
    let mut digits = row;
    for z_i in z.iter().rev() {
        let factor = if digits % 2 == 1 {
            *z_i
        } else {
            F::ONE.sub(*z_i)
        };
        weight = weight.mul(factor);
        digits /= 2;
    }
    weight
}

// Whether the weights of a block at a point, in two parts of which the first has k coordinates, are those of a plain loop.
fn block_agrees<F: Field>(alloc: Global, k: usize) -> Result<bool, NoMemory>
    requires { k ≤ 8 }
{
    let z: Vec<F> = list(alloc, 8, 23456)?;
    let (front, back) = z.split_at(k);
    if !fits_in_blocks::<F>() {
        return Ok(false);
    }
    let weights = joined_block_weights(front, back);
    Ok(
        weights
            .iter()
            .enumerate()
            .all(|(row, weight)| *weight == weight_at(&z, row)),
    )
}

#[test]
fn weights_of_a_block(rt: HostRuntime) {
    for k in 0..9 {
        assert!(rt; block_agrees::<F65537>(rt.alloc(), k) == Ok(true), "{k}");
        assert!(rt; block_agrees::<F257x2>(rt.alloc(), k) == Ok(true), "{k}");
    }
}

// Whether the value of a table of n variables is the sum over all rows of entry times weight.
fn value_agrees<A: Field, E: Algebra<A>>(alloc: Global, n: usize) -> Result<bool, NoMemory>
    requires { n ≤ 16 }
{
    let evals: Poly<A> = table(alloc, n, 12345)?;
    let z: Vec<E> = list(alloc, n, 34567)?;
    let mut sum = E::ZERO;
    for (row, entry) in evals.as_slice().iter().enumerate() {
        sum = sum.add(weight_at(&z, row).mul_base(*entry));
    }
    Ok(eval_slice(evals.as_slice(), &z) == sum)
}

#[test]
fn values_around_a_block(rt: HostRuntime) {
    for n in 0..12 {
        assert!(rt;
            value_agrees::<F65537, F65537>(rt.alloc(), n) == Ok(true),
            "{n}"
        );
        assert!(rt;
            value_agrees::<F257, F257x2>(rt.alloc(), n) == Ok(true),
            "{n}"
        );
        assert!(rt;
            value_agrees::<Tower16, Tower16>(rt.alloc(), n) == Ok(true),
            "{n}"
        );
        assert!(rt;
            value_agrees::<Wide<F257>, Wide<F257>>(rt.alloc(), n) == Ok(true),
            "{n}"
        );
    }
}

// A block of elements is an array where they are small.
#[test]
fn blocks_of_small_elements(rt: HostRuntime) {
    assert!(rt;
        fits_in_blocks::<F65537>()
            && fits_in_blocks::<F257x2>()
            && fits_in_blocks::<Tower16>()
            && fits_in_blocks::<Traced>()
    );
    assert!(rt; !fits_in_blocks::<Wide<F257>>());
}

// A table is made by doubling: a row is made by the products of the rows that were doubled for it.
#[test]
fn weights_are_made_by_doubling(rt: HostRuntime) {
    let marked = |number: u64| Traced {
        value: F65537::element(number % 65537),
        has_flag: true,
        count: 0,
    };
    let table = Poly::new_from_point(rt.alloc(), &[marked(2), marked(3)], marked(1)).expect(
        &rt, "a table",
    );
    let counts = [3, 3, 2, 2];
    assert!(rt;
        table
            .as_slice()
            .iter()
            .zip(&counts)
            .all(|(entry, count)| entry.count == *count)
    );
    let rows = [2, 65534, 65533, 6];
    assert!(rt; have_numbers(table.as_slice(), &rows));
}
