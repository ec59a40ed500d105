//! The field of 16 elements as a tower of two extensions of degree 2.
ghost use Rattle.std.specs.Prelude.{◌≡◌, ◌<◌, refl};
ghost use Rattle.std.proofs.Common.{lit<, lit≤};
ghost use Rattle.sc_definitions.specs.Ring.{◌*⟨◌⟩◌};
ghost use Rattle.sc_definitions.specs.Sixteen.{tower};
ghost use Rattle.sc_field.specs.PrimeLaws.{eqb_iff};
ghost use Rattle.sc_sixteen.specs.SixteenLaws.{tower_field, sixteen_two};

use sc_field::Field;

// The product of a and b is number 16 a + b.
#[rattlefmt::skip]
static PRODUCTS: [u8; 256] = [
    0, 0, 0, 0, 0, 0, 0, 0, 0, 0, 0, 0, 0, 0, 0, 0,
    0, 1, 2, 3, 4, 5, 6, 7, 8, 9, 10, 11, 12, 13, 14, 15,
    0, 2, 3, 1, 8, 10, 11, 9, 12, 14, 15, 13, 4, 6, 7, 5,
    0, 3, 1, 2, 12, 15, 13, 14, 4, 7, 5, 6, 8, 11, 9, 10,
    0, 4, 8, 12, 6, 2, 14, 10, 11, 15, 3, 7, 13, 9, 5, 1,
    0, 5, 10, 15, 2, 7, 8, 13, 3, 6, 9, 12, 1, 4, 11, 14,
    0, 6, 11, 13, 14, 8, 5, 3, 7, 1, 12, 10, 9, 15, 2, 4,
    0, 7, 9, 14, 10, 13, 3, 4, 15, 8, 6, 1, 5, 2, 12, 11,
    0, 8, 12, 4, 11, 3, 7, 15, 13, 5, 1, 9, 6, 14, 10, 2,
    0, 9, 14, 7, 15, 6, 1, 8, 5, 12, 11, 2, 10, 3, 4, 13,
    0, 10, 15, 5, 3, 9, 12, 6, 1, 11, 14, 4, 2, 8, 13, 7,
    0, 11, 13, 6, 7, 12, 10, 1, 9, 2, 4, 15, 14, 5, 3, 8,
    0, 12, 4, 8, 13, 1, 9, 5, 6, 10, 2, 14, 11, 7, 15, 3,
    0, 13, 6, 11, 9, 4, 15, 2, 14, 3, 8, 5, 7, 10, 1, 12,
    0, 14, 7, 9, 5, 11, 2, 12, 10, 4, 13, 3, 15, 1, 8, 6,
    0, 15, 5, 10, 1, 14, 4, 11, 2, 13, 7, 8, 3, 12, 6, 9,
];

// The inverse of each element but 0.
static INVERSES: [u8; 16] = [0, 1, 3, 2, 15, 12, 9, 11, 10, 6, 8, 7, 5, 14, 13, 4];

// The entry of the table of products for two numbers.
fn product(a: u8, b: u8) -> u8
    requires first { a < 16 }
    requires second { b < 16 }
    ensures below { result < 16 }
    ensures product { result ≡ a *⟨ tower ⟩ b }
{
    PRODUCTS[a as usize * 16 + b as usize]
}

/// An element of the field with 16 elements that is made by `w^2 = w + 1` and `y^2 = y + w`.
///
/// The bits of an element's number say which of 1, w, y and wy it is the sum of, from the lowest bit
/// on. So the number of a sum is the exclusive or of the numbers.
#[derive(Clone, Copy, PartialEq, Eq, Debug)]
pub struct Tower16 {
    value: u8,
    ghost below: { value < 16 },
}

#[tactic(auto, using(crate::proofs::SixteenTables::xor_below, crate::proofs::SixteenTables::xor_plus, crate::proofs::SixteenTables::xor_minus, crate::proofs::SixteenTables::same_opposite))]
impl Field for Tower16 {
    ghost ops = { tower };

    ghost number = { λ x. x.value };

    ghost ZERO = { record { value = 0; below = lit< tt } };

    ghost ONE = { record { value = 1; below = lit< tt } };

    ghost TWO = { record { value = 0; below = lit< tt } };

    const ZERO: Tower16 = Tower16 { value: 0 };

    const ONE: Tower16 = Tower16 { value: 1 };

    // One plus one is zero.
    const TWO: Tower16 = Tower16 { value: 0 };

    ghost is_field = { tower_field };

    ghost size_least = { lit≤ tt };

    ghost size_most = { lit≤ tt };

    ghost zero_is = { refl };

    ghost one_is = { refl };

    ghost two_is = { sixteen_two tower.raw_times };

    ghost number_below = { λ x. x.below };

    ghost equality = { λ x y. eqb_iff x.value y.value };

    fn size() -> u64 {
        16
    }

    fn element(index: u64) -> Tower16 {
        Tower16 { value: index as u8 }
    }

    fn index(self) -> u64 {
        self.value as u64
    }

    fn add(self, other: Tower16) -> Tower16 {
        Tower16 {
            value: self.value ^ other.value,
        }
    }

    fn sub(self, other: Tower16) -> Tower16 {
        Tower16 {
            value: self.value ^ other.value,
        }
    }

    fn mul(self, other: Tower16) -> Tower16 {
        Tower16 {
            value: product(self.value, other.value),
        }
    }

    fn neg(self) -> Tower16 {
        self
    }

    fn inverse(self) -> Option<Tower16> {
        if self.value == 0 {
            None
        } else {
            Some(Tower16 {
                value: INVERSES[self.value as usize],
            })
        }
    }
}
