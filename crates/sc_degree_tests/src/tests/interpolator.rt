//! Interpolation against polynomials of chosen coefficients, whose values are computed by Horner's
//! rule.

ghost use Rattle.std.specs.Prelude.{◌≡◌, ◌+◌, ◌<◌, ◌≤◌, length, IfOk};

use sc_degree::{RoundPolyInterpolator, nodes_distinct};
use sc_field::{Field, NoMemory};
use sc_sixteen::Tower16;
use sc_small_fields::{F257x2, F65537};
use sc_tests_common::{elements, entry, have_numbers, of};
use std::alloc::Global;

// The value at `x` of the polynomial of these coefficients, the constant first.
fn plain_value<F: Field>(coefficients: &[F], x: F) -> F {
    let mut value = F::ZERO;
    for coefficient in coefficients.iter().rev() {
        value = value.mul(x).add(*coefficient);
    }
    value
}

// Its values at node 0 and at the nodes from 2 on, as many as given.
fn sent<F: Field>(alloc: Global, coefficients: &[F], count: usize) -> Result<Vec<F>, NoMemory>
    requires { count < F.ops.size }
    ensures { IfOk result (λ v. length v.items ≡ count) }
{
    let mut values = Vec::new(alloc);
    for index in 0..count {
        let node = if index == 0 { 0 } else { index + 1 };
        values.push(plain_value(coefficients, F::element(node as u64)))?;
    }
    Ok(values)
}

// Coefficients of a polynomial of a degree.
fn coefficients<F: Field>(alloc: Global, degree: usize) -> Result<Vec<F>, NoMemory>
    requires { degree ≤ 1000 }
{
    let list = (0..degree + 1).map(|i| entry(i, 12345)).collect(alloc)?;
    Ok(list)
}

// What the polynomial's values at 0 and 1 are in sum.
fn plain_sum<F: Field>(coefficients: &[F]) -> F {
    plain_value(coefficients, F::ZERO).add(plain_value(coefficients, F::ONE))
}

// Whether what a polynomial of a degree sends gives its values at the elements of these numbers.
fn values_agree<F: Field>(alloc: Global, degree: usize, numbers: &[u64]) -> Result<bool, NoMemory>
    requires some { 1 ≤ degree }
    requires few { degree ≤ 1000 }
    requires nodes { degree < F.ops.size }
{
    let chosen = coefficients::<F>(alloc, degree)?;
    let evals = sent(alloc, &chosen, degree)?;
    let sum = plain_sum(&chosen);
    let interpolator = RoundPolyInterpolator::new(alloc, degree)?;
    for number in numbers {
        let r: F = of(*number);
        if interpolator.eval(&evals, sum, r) != plain_value(&chosen, r) {
            return Ok(false);
        }
    }
    Ok(true)
}

// Whether what it sends is extended by its values at the next nodes.
fn extends<F: Field>(alloc: Global, degree: usize, target_len: usize) -> Result<bool, NoMemory>
    requires some { 1 ≤ degree }
    requires few { degree ≤ 1000 }
    requires longer { degree ≤ target_len }
    requires nodes { target_len < F.ops.size }
{
    let chosen = coefficients::<F>(alloc, degree)?;
    let evals = sent(alloc, &chosen, degree)?;
    let interpolator = RoundPolyInterpolator::new(alloc, degree)?;
    let extended = interpolator.extend_evals(alloc, &evals, plain_sum(&chosen), target_len)?;
    Ok(extended.as_slice() == sent(alloc, &chosen, target_len)?.as_slice())
}

// The nodes of all degrees up to 8, and further elements.
const NUMBERS: [u64; 16] = [0, 1, 2, 3, 4, 5, 6, 7, 8, 9, 10, 14, 15, 257, 40000, 65536];

#[test]
fn values_at_nodes_and_elsewhere(rt: HostRuntime) {
    for degree in 1..9 {
        assert!(rt;
            values_agree::<F65537>(rt.alloc(), degree, &NUMBERS) == Ok(true),
            "{degree}"
        );
        assert!(rt;
            values_agree::<F257x2>(rt.alloc(), degree, &NUMBERS) == Ok(true),
            "{degree}"
        );
        assert!(rt;
            values_agree::<Tower16>(rt.alloc(), degree, &NUMBERS) == Ok(true),
            "{degree}"
        );
    }
}

// With a degree of 15 each element of the field is a node.
#[test]
fn values_at_each_element(rt: HostRuntime) {
    assert!(rt; values_agree::<Tower16>(rt.alloc(), 15, &NUMBERS) == Ok(true));
}

// The values 3, 8, 15 and 24 are those of (x + 1)(x + 3) at 0, 1, 2 and 3.
fn three_of_two(alloc: Global) -> Result<Vec<F65537>, NoMemory> {
    let interpolator = RoundPolyInterpolator::new(alloc, 2)?;
    let evals = elements(alloc, &[3, 15])?;
    interpolator.extend_evals(alloc, &evals, of(11), 3)
}

#[test]
fn an_extension_by_hand(rt: HostRuntime) {
    let extended = three_of_two(rt.alloc()).expect(&rt, "an answer");
    assert!(rt; have_numbers(&extended, &[3, 15, 24]));
}

// What 3 and 15 send under 11 is 3 + 4 X + X^2.
fn coefficients_of_two(alloc: Global) -> Result<Vec<F65537>, NoMemory> {
    let interpolator = RoundPolyInterpolator::new(alloc, 2)?;
    let evals = elements(alloc, &[3, 15])?;
    interpolator.coefficients(alloc, &evals, of(11))
}

#[test]
fn coefficients_by_hand(rt: HostRuntime) {
    let found = coefficients_of_two(rt.alloc()).expect(&rt, "an answer");
    assert!(rt; have_numbers(&found, &[3, 4, 1]));
}

// Whether what a polynomial of a degree sends has its coefficients.
fn found_again<F: Field>(alloc: Global, degree: usize) -> Result<bool, NoMemory>
    requires some { 1 ≤ degree }
    requires few { degree ≤ 1000 }
    requires nodes { degree < F.ops.size }
{
    let chosen = coefficients::<F>(alloc, degree)?;
    let evals = sent(alloc, &chosen, degree)?;
    let interpolator = RoundPolyInterpolator::new(alloc, degree)?;
    let found = interpolator.coefficients(alloc, &evals, plain_sum(&chosen))?;
    Ok(found.as_slice() == chosen.as_slice())
}

#[test]
fn coefficients_of_each_degree(rt: HostRuntime) {
    for degree in 1..9 {
        assert!(rt;
            found_again::<F65537>(rt.alloc(), degree) == Ok(true),
            "{degree}"
        );
        assert!(rt;
            found_again::<F257x2>(rt.alloc(), degree) == Ok(true),
            "{degree}"
        );
        assert!(rt;
            found_again::<Tower16>(rt.alloc(), degree) == Ok(true),
            "{degree}"
        );
    }
    assert!(rt; found_again::<Tower16>(rt.alloc(), 15) == Ok(true));
}

#[test]
fn extensions_of_each_degree(rt: HostRuntime) {
    for degree in 1..9 {
        assert!(rt;
            extends::<F65537>(rt.alloc(), degree, degree) == Ok(true),
            "{degree}"
        );
        assert!(rt;
            extends::<F65537>(rt.alloc(), degree, 12) == Ok(true),
            "{degree}"
        );
        assert!(rt;
            extends::<F257x2>(rt.alloc(), degree, 12) == Ok(true),
            "{degree}"
        );
        assert!(rt;
            extends::<Tower16>(rt.alloc(), degree, 15) == Ok(true),
            "{degree}"
        );
    }
}

#[test]
fn the_nodes_that_are_sent(rt: HostRuntime) {
    for (index, number) in [(0, 0), (1, 2), (2, 3), (255, 256), (256, 257)] {
        let prime: F65537 = RoundPolyInterpolator::transmitted_node(index);
        assert!(rt; prime.index() == number, "{index}");
        let pair: F257x2 = RoundPolyInterpolator::transmitted_node(index);
        assert!(rt; pair.index() == number, "{index}");
    }
    for (index, number) in [(0, 0), (1, 2), (14, 15)] {
        let node: Tower16 = RoundPolyInterpolator::transmitted_node(index);
        assert!(rt; node.index() == number, "{index}");
    }
}

#[test]
fn as_many_nodes_as_elements(rt: HostRuntime) {
    assert!(rt;
        nodes_distinct::<Tower16>(0)
            && nodes_distinct::<Tower16>(15)
            && !nodes_distinct::<Tower16>(16)
            && nodes_distinct::<F65537>(65536)
    );
    assert!(rt;
        !nodes_distinct::<F65537>(65537)
            && nodes_distinct::<F257x2>(66048)
            && !nodes_distinct::<F257x2>(66049)
    );
}
