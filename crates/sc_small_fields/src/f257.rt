//! The integers modulo 257.
ghost use Rattle.std.specs.Prelude.{◌≡◌, ◌%◌, ◌<◌, refl};
ghost use Rattle.std.proofs.Common.{lit<, lit≤};
ghost use Rattle.sc_definitions.specs.Ring.{◌-⟨◌⟩◌};
ghost use Rattle.sc_definitions.specs.Residues.{residues};
ghost use Rattle.sc_small_fields.specs.F257Laws.{f257_field, f257_two};
ghost use Rattle.sc_field.specs.PrimeLaws.{eqb_iff};

use crate::prime::inverse_modulo;
use sc_field::Field;

// 2^8 + 1, a prime number.
const MODULUS: u16 = 257;

/// An integer modulo 257, which is 2^8 + 1, a prime number. Element number n is n itself.
#[derive(Clone, Copy, PartialEq, Eq, Debug)]
pub struct F257 {
    pub(crate) value: u16,
    ghost below: { value < 257 },
}

impl F257 {
    // The element of any number.
    pub(crate) fn reduced(number: u32) -> F257
        ensures { result.value ≡ number % 257 }
    {
        F257 {
            value: (number % MODULUS as u32) as u16,
        }
    }

    // A number of the difference, not reduced.
    pub(crate) fn above(self, other: F257) -> u32
        ensures number { result % 257 ≡ self.value -⟨ residues 257 ⟩ other.value }
        ensures below { result < 514 }
    {
        (self.value + MODULUS - other.value) as u32
    }
}

#[tactic(auto, using(crate::specs::F257Laws::prime_257, crate::specs::F257Laws::f257_plus, crate::specs::F257Laws::f257_times, crate::specs::F257Laws::f257_opposite))]
impl Field for F257 {
    ghost ops = { residues 257 };

    ghost number = { λ x. x.value };

    ghost ZERO = { record { value = 0; below = lit< tt } };

    ghost ONE = { record { value = 1; below = lit< tt } };

    ghost TWO = { record { value = 2; below = lit< tt } };

    const ZERO: F257 = F257 { value: 0 };

    const ONE: F257 = F257 { value: 1 };

    const TWO: F257 = F257 { value: 2 };

    ghost is_field = { f257_field };

    ghost size_least = { lit≤ tt };

    ghost size_most = { lit≤ tt };

    ghost zero_is = { refl };

    ghost one_is = { refl };

    ghost two_is = { f257_two };

    ghost number_below = { λ x. x.below };

    ghost equality = { λ x y. eqb_iff x.value y.value };

    fn size() -> u64 {
        257
    }

    fn element(index: u64) -> F257 {
        F257 {
            value: index as u16,
        }
    }

    fn index(self) -> u64 {
        self.value as u64
    }

    fn add(self, other: F257) -> F257 {
        let sum = self.value + other.value;
        F257 {
            value: if sum >= MODULUS { sum - MODULUS } else { sum },
        }
    }

    fn sub(self, other: F257) -> F257 {
        let value = if self.value >= other.value {
            self.value - other.value
        } else {
            self.value + MODULUS - other.value
        };
        F257 { value }
    }

    fn mul(self, other: F257) -> F257 {
        F257::reduced(self.value as u32 * other.value as u32)
    }

    fn neg(self) -> F257 {
        F257 {
            value: if self.value == 0 {
                0
            } else {
                MODULUS - self.value
            },
        }
    }

    fn inverse(self) -> Option<F257> {
        if self.value == 0 {
            None
        } else {
            let inverse = inverse_modulo(self.value as u32, MODULUS as u32);
            Some(F257 {
                value: inverse as u16,
            })
        }
    }
}
