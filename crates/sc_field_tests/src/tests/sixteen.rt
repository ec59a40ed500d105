//! The two fields of 16 elements, against tables by hand.
ghost use Rattle.std.specs.Prelude.{◌≡◌, ◌<◌};

use super::figures::Operation::{Double, Opposite, Power};
use super::figures::{Figures, assert_figures};
use sc_field::{Field, FromTable, IntoTranscriptField, NoMemory};
use sc_sixteen::{Poly16, Tower16};
use std::alloc::Global;
use std::process::Abort;

// The products by hand from w^2 = w + 1 and y^2 = y + w, where 2 is w and 4 is y: digit number b of
// row number a, from the left, is the product of the elements a and b.
static TOWER_PRODUCTS: [u64; 16] = [
    0x0000_0000_0000_0000,
    0x0123_4567_89ab_cdef,
    0x0231_8ab9_cefd_4675,
    0x0312_cfde_4756_8b9a,
    0x048c_62ea_bf37_d951,
    0x05af_278d_369c_14be,
    0x06bd_e853_71ca_9f24,
    0x079e_ad34_f861_52cb,
    0x08c4_b37f_d519_6ea2,
    0x09e7_f618_5cb2_a34d,
    0x0af5_39c6_1be4_28d7,
    0x0bd6_7ca1_924f_e538,
    0x0c48_d195_6a2e_b7f3,
    0x0d6b_94f2_e385_7a1c,
    0x0e79_5b2c_a4d3_f186,
    0x0f5a_1e4b_2d78_3c69,
];

// The products by hand from x^4 = x + 1, where 2 is x.
static POLYNOMIAL_PRODUCTS: [u64; 16] = [
    0x0000_0000_0000_0000,
    0x0123_4567_89ab_cdef,
    0x0246_8ace_3175_b9fd,
    0x0365_cfa9_b8de_7412,
    0x048c_37bf_62ea_51d9,
    0x05af_72d8_eb41_9c36,
    0x06ca_bd71_539f_e824,
    0x07e9_f816_da34_25cb,
    0x083b_6e5d_c4f7_a291,
    0x0918_2b3a_4d5c_6f7e,
    0x0a7d_e493_f582_1b6c,
    0x0b5e_a1f4_7c29_d683,
    0x0cb7_59e2_a61d_f348,
    0x0d94_1c85_2fb6_3ea7,
    0x0ef1_d32c_9768_4ab5,
    0x0fd2_964b_1ec3_875a,
];

// The sums of 6, the differences of 13, and the inverses: the exclusive or of 6, and of 13, with 0 to
// 15, and where the digit 1 stands in each row of the table of products.
static TOWER_DIGITS: (u64, u64, u64) = (
    0x6745_2301_efcd_ab89,
    0xdcfe_98ba_5476_1032,
    0x0132_fc9b_a687_5ed4,
);

// The sums of 13, the differences of 6, and the inverses.
static POLYNOMIAL_DIGITS: (u64, u64, u64) = (
    0xdcfe_98ba_5476_1032,
    0x6745_2301_efcd_ab89,
    0x019e_db76_f2c5_a438,
);

// The powers by multiplying so many times over by the table of products.
static TOWER: Figures = Figures {
    constants: (16, 0, 1, 0),
    results: &[
        (Opposite(11), 11),
        (Double(11), 0),
        (Power(2, 3), 1),
        (Power(4, 5), 2),
        (Power(7, 11), 9),
        (Power(11, 1000001), 6),
    ],
    inverses: &[(0, None)],
    equal: &[(1, 0, false), (15, 15, true)],
};

static POLYNOMIALS: Figures = Figures {
    constants: (16, 0, 1, 0),
    results: &[
        (Opposite(9), 9),
        (Double(9), 0),
        (Power(2, 4), 3),
        (Power(4, 5), 7),
        (Power(7, 11), 6),
        (Power(11, 1000001), 4),
    ],
    inverses: &[(0, None)],
    equal: &[(1, 0, false), (15, 15, true)],
};

// The numbers of the first 16 elements, as digits to the base 16 from the left.
fn digits<F: Field>(elements: &[F]) -> u64 {
    let mut number = 0u64;
    for element in elements {
        number = number.wrapping_mul(16).wrapping_add(element.index());
    }
    number
}

// The elements 0 to 15, in order.
fn sixteen<F: Field>(alloc: Global) -> Result<Vec<F>, NoMemory> {
    let mut elements = Vec::new(alloc);
    for number in 0..16 {
        elements.push(F::element(number))?;
    }
    Ok(elements)
}

// The products of element number `a` with the elements 0 to 15, as digits.
fn products<F: Field>(a: u64) -> u64
    requires { a < 16 }
{
    let mut number = 0u64;
    for b in 0..16 {
        let product = F::element(a).mul(F::element(b));
        number = number.wrapping_mul(16).wrapping_add(product.index());
    }
    number
}

// The sums of element number `a` and the elements 0 to 15, as digits.
fn sums<F: Field>(a: u64) -> u64
    requires { a < 16 }
{
    let mut number = 0u64;
    for b in 0..16 {
        let sum = F::element(a).add(F::element(b));
        number = number.wrapping_mul(16).wrapping_add(sum.index());
    }
    number
}

// The differences of element number `a` and the elements 0 to 15, as digits.
fn differences<F: Field>(a: u64) -> u64
    requires { a < 16 }
{
    let mut number = 0u64;
    for b in 0..16 {
        let difference = F::element(a).sub(F::element(b));
        number = number.wrapping_mul(16).wrapping_add(difference.index());
    }
    number
}

// The inverses of the elements 0 to 15, as digits, with 0 for none.
fn inverses<F: Field>() -> u64 {
    let mut number = 0u64;
    for a in 0..16 {
        let inverse = F::element(a).inverse().unwrap_or(F::ZERO);
        number = number.wrapping_mul(16).wrapping_add(inverse.index());
    }
    number
}

// Digit number b of row number a is the product of the elements a and b.
fn assert_products<F: Field, A: Abort>(rt: &A, rows: &[u64; 16]) {
    for a in 0..16u64 {
        assert!(rt; products::<F>(a) == rows[a as usize], "{a}");
    }
}

#[test]
fn tower_has_its_figures(rt: HostRuntime) {
    assert_figures::<Tower16, HostRuntime>(&rt, &TOWER);
    assert_products::<Tower16, HostRuntime>(&rt, &TOWER_PRODUCTS);
    let digits = (
        sums::<Tower16>(6),
        differences::<Tower16>(13),
        inverses::<Tower16>(),
    );
    assert!(rt; digits == TOWER_DIGITS);
}

#[test]
fn polynomials_have_their_figures(rt: HostRuntime) {
    assert_figures::<Poly16, HostRuntime>(&rt, &POLYNOMIALS);
    assert_products::<Poly16, HostRuntime>(&rt, &POLYNOMIAL_PRODUCTS);
    let digits = (
        sums::<Poly16>(13),
        differences::<Poly16>(6),
        inverses::<Poly16>(),
    );
    assert!(rt; digits == POLYNOMIAL_DIGITS);
}

// The images by hand: w is x^2 + x, and y is x; so wy is x^3 + x^2. Back, x^2 is y + w, and x^3 is
// wy + y + w.
#[test]
fn polynomials_represent_the_tower(rt: HostRuntime) {
    let images = <Poly16 as FromTable<Tower16>>::from_table(
        rt.alloc(),
        sixteen(rt.alloc()).expect(&rt, "an answer"),
    ).expect(&rt, "an answer");
    assert!(rt; digits(images.as_slice()) == 0x0167_2345_cdab_ef89);
    let mut back: Vec<Tower16> = Vec::new(rt.alloc());
    for x in sixteen::<Poly16>(rt.alloc()).expect(&rt, "an answer") {
        back.push(x.into_transcript()).expect(&rt, "an answer");
    }
    assert!(rt; digits(back.as_slice()) == 0x0145_6723_efab_89cd);
}

#[test]
fn images_come_back(rt: HostRuntime) {
    let table = sixteen::<Tower16>(rt.alloc()).expect(&rt, "an answer");
    let back = super::there_and_back::<Tower16, Poly16>(rt.alloc(), table).expect(&rt, "an answer");
    assert!(rt; digits(back.as_slice()) == 0x0123_4567_89ab_cdef);
}
