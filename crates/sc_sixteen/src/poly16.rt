//! The field of 16 elements as polynomials over two elements.
ghost use Rattle.std.specs.Prelude.{◌≡◌, ◌<◌, map, IfOk, refl};
ghost use Rattle.std.proofs.Common.{lit<, lit≤};
ghost use Rattle.sc_definitions.specs.Ring.{◌*⟨◌⟩◌};
ghost use Rattle.sc_definitions.specs.Sixteen.{polynomials, tower_to_polynomial, polynomial_to_tower};
ghost use Rattle.sc_field.specs.PrimeLaws.{eqb_iff};
ghost use Rattle.sc_sixteen.specs.SixteenLaws.{polynomials_field, sixteen_two};
ghost use Rattle.sc_sixteen.specs.SixteenLaws.{polynomials_represent_tower};

use crate::tower16::Tower16;
use sc_field::{Field, FromTable, IntoTranscriptField, NoMemory};
use std::alloc::Global;

// The product of a and b is number 16 a + b.
#[rattlefmt::skip]
static PRODUCTS: [u8; 256] = [
    0, 0, 0, 0, 0, 0, 0, 0, 0, 0, 0, 0, 0, 0, 0, 0,
    0, 1, 2, 3, 4, 5, 6, 7, 8, 9, 10, 11, 12, 13, 14, 15,
    0, 2, 4, 6, 8, 10, 12, 14, 3, 1, 7, 5, 11, 9, 15, 13,
    0, 3, 6, 5, 12, 15, 10, 9, 11, 8, 13, 14, 7, 4, 1, 2,
    0, 4, 8, 12, 3, 7, 11, 15, 6, 2, 14, 10, 5, 1, 13, 9,
    0, 5, 10, 15, 7, 2, 13, 8, 14, 11, 4, 1, 9, 12, 3, 6,
    0, 6, 12, 10, 11, 13, 7, 1, 5, 3, 9, 15, 14, 8, 2, 4,
    0, 7, 14, 9, 15, 8, 1, 6, 13, 10, 3, 4, 2, 5, 12, 11,
    0, 8, 3, 11, 6, 14, 5, 13, 12, 4, 15, 7, 10, 2, 9, 1,
    0, 9, 1, 8, 2, 11, 3, 10, 4, 13, 5, 12, 6, 15, 7, 14,
    0, 10, 7, 13, 14, 4, 9, 3, 15, 5, 8, 2, 1, 11, 6, 12,
    0, 11, 5, 14, 10, 1, 15, 4, 7, 12, 2, 9, 13, 6, 8, 3,
    0, 12, 11, 7, 5, 9, 14, 2, 10, 6, 1, 13, 15, 3, 4, 8,
    0, 13, 9, 4, 1, 12, 8, 5, 2, 15, 11, 6, 3, 14, 10, 7,
    0, 14, 15, 1, 13, 3, 2, 12, 9, 7, 6, 8, 4, 10, 11, 5,
    0, 15, 13, 2, 9, 6, 4, 11, 1, 14, 12, 3, 8, 7, 5, 10,
];

// The inverse of each element but 0.
static INVERSES: [u8; 16] = [0, 1, 9, 14, 13, 11, 7, 6, 15, 2, 12, 5, 10, 4, 3, 8];

// The entry of the table of products for two numbers.
fn product(a: u8, b: u8) -> u8
    requires first { a < 16 }
    requires second { b < 16 }
    ensures below { result < 16 }
    ensures product { result ≡ a *⟨ polynomials ⟩ b }
{
    PRODUCTS[a as usize * 16 + b as usize]
}

/// An element of the field with 16 elements that is made by `x^4 = x + 1`.
///
/// The bits of an element's number say which of 1, x, x^2 and x^3 it is the sum of, from the lowest
/// bit on. So the number of a sum is the exclusive or of the numbers.
#[derive(Clone, Copy, PartialEq, Eq, Debug)]
pub struct Poly16 {
    value: u8,
    ghost below: { value < 16 },
}

#[tactic(auto, using(crate::proofs::SixteenTables::xor_below, crate::proofs::SixteenTables::xor_plus, crate::proofs::SixteenTables::xor_minus, crate::proofs::SixteenTables::same_opposite))]
impl Field for Poly16 {
    ghost ops = { polynomials };

    ghost number = { λ x. x.value };

    ghost ZERO = { record { value = 0; below = lit< tt } };

    ghost ONE = { record { value = 1; below = lit< tt } };

    ghost TWO = { record { value = 0; below = lit< tt } };

    const ZERO: Poly16 = Poly16 { value: 0 };

    const ONE: Poly16 = Poly16 { value: 1 };

    // One plus one is zero.
    const TWO: Poly16 = Poly16 { value: 0 };

    ghost is_field = { polynomials_field };

    ghost size_least = { lit≤ tt };

    ghost size_most = { lit≤ tt };

    ghost zero_is = { refl };

    ghost one_is = { refl };

    ghost two_is = { sixteen_two polynomials.raw_times };

    ghost number_below = { λ x. x.below };

    ghost equality = { λ x y. eqb_iff x.value y.value };

    fn size() -> u64 {
        16
    }

    fn element(index: u64) -> Poly16 {
        Poly16 { value: index as u8 }
    }

    fn index(self) -> u64 {
        self.value as u64
    }

    fn add(self, other: Poly16) -> Poly16 {
        Poly16 {
            value: self.value ^ other.value,
        }
    }

    fn sub(self, other: Poly16) -> Poly16 {
        Poly16 {
            value: self.value ^ other.value,
        }
    }

    fn mul(self, other: Poly16) -> Poly16 {
        Poly16 {
            value: product(self.value, other.value),
        }
    }

    fn neg(self) -> Poly16 {
        self
    }

    fn inverse(self) -> Option<Poly16> {
        if self.value == 0 {
            None
        } else {
            Some(Poly16 {
                value: INVERSES[self.value as usize],
            })
        }
    }
}

// The numbers of the images of the elements of `Tower16`, in order.
static FROM_TOWER: [u8; 16] = [0, 1, 6, 7, 2, 3, 4, 5, 12, 13, 10, 11, 14, 15, 8, 9];

// The numbers of the images of the elements of `Poly16`, in order.
static TO_TOWER: [u8; 16] = [0, 1, 4, 5, 6, 7, 2, 3, 14, 15, 10, 11, 8, 9, 12, 13];

/// The isomorphism that sends y to x. The images of 1, w, y and wy have the numbers 1, 6, 2 and 12.
impl FromTable<Tower16> for Poly16 {
    ghost from_number = { tower_to_polynomial };

    ghost to_number = { polynomial_to_tower };

    ghost represents = { polynomials_represent_tower };

    fn from_element(x: Tower16) -> Poly16 {
        Poly16 {
            value: FROM_TOWER[x.index() as usize],
        }
    }

    fn from_table(alloc: Global, table: Vec<Tower16>) -> Result<Vec<Poly16>, NoMemory>
        ensures { IfOk result (λ v. map (λ x. x.value) v.items ≡ map (λ x. tower_to_polynomial x.value) table.items) }
    {
        let mut images = Vec::new(alloc);
        for x in table {
            images.push(Poly16::from_element(x))?;
        }
        Ok(images)
    }
}

/// The isomorphism that sends x to y. The images of 1, x, x^2 and x^3 have the numbers 1, 4, 6 and 14.
impl IntoTranscriptField<Tower16> for Poly16 {
    fn into_transcript(self) -> Tower16 {
        Tower16::element(TO_TOWER[self.value as usize] as u64)
    }
}
