//! Sums of products against a plain loop, and where each product is as large as it can be.

ghost use Rattle.std.specs.Prelude.{◌≡◌, ◌+◌, ◌*◌, ◌≤◌, length, IfOk};

use sc_field::laws::field_laws;
use sc_field::{Algebra, Field, NoMemory};
use sc_sixteen::Tower16;
use sc_small_fields::{F257, F257x2, F65537};
use std::alloc::Global;

// Entry i of a list: each third is the element before zero.
fn entry<F: Field>(i: usize, factor: u64) -> F {
    field_laws::<F>();
    if i % 3 == 0 {
        F::ZERO.sub(F::ONE)
    } else {
        F::element((i as u64).wrapping_mul(factor) % F::size())
    }
}

pub(crate) fn list<F: Field>(alloc: Global, len: usize, factor: u64) -> Result<Vec<F>, NoMemory>
    ensures { IfOk result (λ v. length v.items ≡ len) }
{
    let list = (0..len).map(|i| entry(i, factor)).collect(alloc)?;
    Ok(list)
}

// Whether the sums over halves of so many entries are those of a plain loop.
fn halves_agree<B: Field, A: Algebra<B>>(xs: &[B], ys: &[A], half: usize) -> bool
    requires xs { half + half ≤ length xs.now }
    requires ys { half + half ≤ length ys.now }
    requires few { half ≤ 512 }
{
    let mut dot = A::ZERO;
    let mut differences = A::ZERO;
    for i in 0..half {
        let (x, y) = (xs[half + i].sub(xs[i]), ys[half + i].sub(ys[i]));
        dot = dot.add(ys[i].mul_base(xs[i]));
        differences = differences.add(y.mul_base(x));
    }
    let (x0, x1) = (&xs[..half], &xs[half..half + half]);
    let (y0, y1) = (&ys[..half], &ys[half..half + half]);
    A::dot_base(x0, y0) == dot && A::dot_base_differences(x0, x1, y0, y1) == differences
}

// Whether the sums over so many neighbours are those of a plain loop.
fn pairs_agree<B: Field, A: Algebra<B>>(xs: &[B], ys: &[A], pairs: usize) -> bool
    requires xs { 2 * pairs ≤ length xs.now }
    requires ys { 2 * pairs ≤ length ys.now }
    requires few { pairs ≤ 512 }
{
    let mut even = A::ZERO;
    let mut differences = A::ZERO;
    for b in 0..pairs {
        let (x, y) = (xs[2 * b + 1].sub(xs[2 * b]), ys[2 * b + 1].sub(ys[2 * b]));
        even = even.add(ys[2 * b].mul_base(xs[2 * b]));
        differences = differences.add(y.mul_base(x));
    }
    let sums = A::dot_base_pairs(pairs, xs, ys);
    sums.0 == even && sums.1 == differences
}

fn sums_agree<B: Field, A: Algebra<B>>(alloc: Global, len: usize) -> Result<bool, NoMemory>
    requires { len ≤ 512 }
{
    let xs: Vec<B> = list(alloc, 2 * len, 12345)?;
    let ys: Vec<A> = list(alloc, 2 * len, 54321)?;
    Ok(
        halves_agree(xs.as_slice(), ys.as_slice(), len)
            && pairs_agree(xs.as_slice(), ys.as_slice(), len),
    )
}

#[test]
fn sums_are_those_of_a_plain_loop(rt: HostRuntime) {
    for len in 0..43 {
        let len = if len > 40 { len + 470 } else { len };
        assert!(rt;
            sums_agree::<F65537, F65537>(rt.alloc(), len) == Ok(true),
            "{len}"
        );
        assert!(rt;
            sums_agree::<F257, F257x2>(rt.alloc(), len) == Ok(true),
            "{len}"
        );
        assert!(rt;
            sums_agree::<F257x2, F257x2>(rt.alloc(), len) == Ok(true),
            "{len}"
        );
        assert!(rt;
            sums_agree::<Tower16, Tower16>(rt.alloc(), len) == Ok(true),
            "{len}"
        );
    }
}

// 65536 is -1, so that each product is 1.
#[test]
fn the_largest_products_fit(rt: HostRuntime) {
    let none = [F65537::ZERO; 512];
    let most = [F65537::element(65536); 512];
    assert!(rt;
        F65537::dot(&most, &most).index() == 512
            && F65537::dot_differences(&none, &most, &none, &most).index() == 512
            && F65537::dot_differences(&most, &none, &most, &none).index() == 512
    );
}

// 66048 is 256 + 256 u, which is -(1 + u), so that each product is (1 + u)^2, which is 4 + 2 u. And 512 times that is 249 + 253 u, modulo 257.
#[test]
fn the_largest_products_of_pairs_fit(rt: HostRuntime) {
    let none = [F257x2::ZERO; 512];
    let most = [F257x2::element(66048); 512];
    let sum = 249 + 257 * 253;
    assert!(rt;
        F257x2::dot(&most, &most).index() == sum
            && F257x2::dot_differences(&none, &most, &none, &most).index() == sum
            && F257x2::dot_differences(&most, &none, &most, &none).index() == sum
    );
}
