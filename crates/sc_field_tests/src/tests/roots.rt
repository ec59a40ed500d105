//! Values of polynomials and their roots, against figures that another program computed.
use sc_field::laws::{count_roots, field_laws, poly_at};
use sc_field::{Field, NoMemory};
use sc_sixteen::{Poly16, Tower16};
use sc_small_fields::{F257x2, F65537};
use std::alloc::Global;

// The elements of these numbers.
fn elements<F: Field>(alloc: Global, numbers: &[u64]) -> Result<Vec<F>, NoMemory> {
    field_laws::<F>();
    let list = numbers
        .iter()
        .map(|n| F::element(*n % F::size()))
        .collect(alloc)?;
    Ok(list)
}

// How many roots the polynomial of these coefficients has.
fn roots<F: Field>(alloc: Global, numbers: &[u64]) -> Result<u64, NoMemory> {
    Ok(count_roots(elements::<F>(alloc, numbers)?.as_slice()))
}

// The value of the polynomial of these coefficients at the element of a number.
fn value<F: Field>(alloc: Global, numbers: &[u64], at: u64) -> Result<u64, NoMemory> {
    field_laws::<F>();
    let at = F::element(at % F::size());
    Ok(poly_at(elements::<F>(alloc, numbers)?.as_slice(), at).index())
}

#[test]
fn values(rt: HostRuntime) {
    assert!(rt;
        value::<F65537>(rt.alloc(), &[3, 4, 1], 5) == Ok(48)
            && value::<F65537>(rt.alloc(), &[], 5) == Ok(0)
            && value::<F65537>(rt.alloc(), &[7], 65536) == Ok(7)
            && value::<F65537>(rt.alloc(), &[1, 2, 3, 4, 5], 65535) == Ok(57)
    );
    assert!(rt;
        value::<F257x2>(rt.alloc(), &[3, 300, 66048], 1000) == Ok(58896)
            && value::<Tower16>(rt.alloc(), &[8, 4, 0], 2) == Ok(0)
            && value::<Tower16>(rt.alloc(), &[1, 2, 3, 4, 5], 9) == Ok(8)
    );
}

// Coefficients, and how many roots they have.
static ROOTS: [(&[u64], u64); 8] = [
    // 2 (X - 1) (X - 2)
    (&[4, 65531, 2], 2),
    (&[0, 0], 65537),
    (&[], 65537),
    (&[5], 0),
    (&[0, 1, 0, 0], 1),
    // X^2 + 1, and X^2 - 3, which is no square
    (&[1, 0, 1], 2),
    (&[65534, 0, 1], 0),
    // (X - 7)^2
    (&[49, 65523, 1], 1),
];

#[test]
fn roots_modulo_65537(rt: HostRuntime) {
    for (coefficients, count) in &ROOTS {
        assert!(rt; roots::<F65537>(rt.alloc(), *coefficients) == Ok(*count));
    }
}

#[test]
fn roots_elsewhere(rt: HostRuntime) {
    assert!(rt;
        roots::<F257x2>(rt.alloc(), &[1, 0, 1]) == Ok(2)
            && roots::<F257x2>(rt.alloc(), &[254, 0, 1]) == Ok(2)
            && roots::<F257x2>(rt.alloc(), &[300, 7, 1, 5]) == Ok(0)
            && roots::<Tower16>(rt.alloc(), &[8, 4, 0]) == Ok(1)
    );
    // X^4 - X, whose roots are the elements of the field of four
    assert!(rt;
        roots::<Tower16>(rt.alloc(), &[0, 1, 0, 0, 1]) == Ok(4)
            && roots::<Tower16>(rt.alloc(), &[7, 3, 9, 1]) == Ok(2)
            && roots::<Poly16>(rt.alloc(), &[0, 0, 0]) == Ok(16)
    );
    // X^16 - X, which every element solves
    assert!(rt;
        roots::<Poly16>(
            rt.alloc(),
            &[0, 1, 0, 0, 0, 0, 0, 0, 0, 0, 0, 0, 0, 0, 0, 0, 1]
        ) == Ok(16)
    );
}
