//! A field of one's own.
ghost use Rattle.std.specs.Prelude.{◌<◌, refl};
ghost use Rattle.std.proofs.Common.{lit<, lit≤};
ghost use Rattle.sc_definitions.specs.Residues.{residues};
ghost use Rattle.sc_field.specs.PrimeLaws.{eqb_iff};
ghost use Rattle.example_own.specs.ThirtyOne.{is_field, two_is};

use sc_field::Field;

const MODULUS: u32 = 31;

/// An integer modulo 31. Element number n is n itself.
#[derive(Clone, Copy, PartialEq, Eq)]
pub struct F31 {
    value: u32,
    ghost below: { value < 31 },
}

#[tactic(auto, using(crate::specs::ThirtyOne::laws))]
impl Field for F31 {
    // What the operations are on numbers, and an element's number.
    ghost ops = { residues 31 };

    ghost number = { λ x. x.value };

    // The laws: those of a field of 16 to 2^32 elements, each with a number below the size, and two
    // of them equal exactly where their numbers are.
    ghost is_field = { is_field };

    ghost size_least = { lit≤ tt };

    ghost size_most = { lit≤ tt };

    ghost number_below = { λ x. x.below };

    ghost equality = { λ x y. eqb_iff x.value y.value };

    // Zero, one and two, as the code and as clauses have them.
    const ZERO: F31 = F31 { value: 0 };

    const ONE: F31 = F31 { value: 1 };

    const TWO: F31 = F31 { value: 2 };

    ghost ZERO = { record { value = 0; below = lit< tt } };

    ghost ONE = { record { value = 1; below = lit< tt } };

    ghost TWO = { record { value = 2; below = lit< tt } };

    ghost zero_is = { refl };

    ghost one_is = { refl };

    ghost two_is = { two_is };

    fn size() -> u64 {
        MODULUS as u64
    }

    fn element(index: u64) -> F31 {
        F31 {
            value: index as u32,
        }
    }

    fn index(self) -> u64 {
        self.value as u64
    }

    fn add(self, other: F31) -> F31 {
        F31 {
            value: (self.value + other.value) % MODULUS,
        }
    }

    fn sub(self, other: F31) -> F31 {
        F31 {
            value: (self.value + MODULUS - other.value) % MODULUS,
        }
    }

    fn mul(self, other: F31) -> F31 {
        F31 {
            value: self.value * other.value % MODULUS,
        }
    }

    fn neg(self) -> F31 {
        F31 {
            value: (MODULUS - self.value) % MODULUS,
        }
    }

    // The power 30 of each integer that is not 0 is 1.
    fn inverse(self) -> Option<F31> {
        if self.value == 0 {
            None
        } else {
            Some(self.exp_u64(29))
        }
    }
}
