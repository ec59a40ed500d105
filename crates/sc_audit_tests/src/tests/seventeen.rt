//! The integers modulo 17.
ghost use Rattle.std.specs.Prelude.{◌<◌, refl};
ghost use Rattle.std.proofs.Common.{lit<, lit≤};
ghost use Rattle.sc_definitions.specs.Residues.{residues};
ghost use Rattle.sc_field.specs.PrimeLaws.{eqb_iff};
ghost use Rattle.sc_audit_tests.specs.Seventeen.{seventeen_field, seventeen_two};

use sc_field::Field;

const MODULUS: u32 = 17;

/// An integer modulo 17. Element number n is n itself.
#[derive(Clone, Copy, PartialEq, Eq, Debug)]
pub struct F17 {
    value: u32,
    ghost below: { value < 17 },
}

#[tactic(auto, using(crate::specs::Seventeen::seventeen_plus, crate::specs::Seventeen::seventeen_times, crate::specs::Seventeen::seventeen_opposite, crate::specs::Seventeen::seventeen_inverse))]
impl Field for F17 {
    ghost ops = { residues 17 };

    ghost number = { λ x. x.value };

    ghost ZERO = { record { value = 0; below = lit< tt } };

    ghost ONE = { record { value = 1; below = lit< tt } };

    ghost TWO = { record { value = 2; below = lit< tt } };

    const ZERO: F17 = F17 { value: 0 };

    const ONE: F17 = F17 { value: 1 };

    const TWO: F17 = F17 { value: 2 };

    ghost is_field = { seventeen_field };

    ghost size_least = { lit≤ tt };

    ghost size_most = { lit≤ tt };

    ghost zero_is = { refl };

    ghost one_is = { refl };

    ghost two_is = { seventeen_two };

    ghost number_below = { λ x. x.below };

    ghost equality = { λ x y. eqb_iff x.value y.value };

    fn size() -> u64 {
        17
    }

    fn element(index: u64) -> F17 {
        F17 {
            value: index as u32,
        }
    }

    fn index(self) -> u64 {
        self.value as u64
    }

    fn add(self, other: F17) -> F17 {
        F17 {
            value: (self.value + other.value) % MODULUS,
        }
    }

    fn sub(self, other: F17) -> F17 {
        F17 {
            value: (self.value + MODULUS - other.value) % MODULUS,
        }
    }

    fn mul(self, other: F17) -> F17 {
        F17 {
            value: self.value * other.value % MODULUS,
        }
    }

    fn neg(self) -> F17 {
        F17 {
            value: (MODULUS - self.value) % MODULUS,
        }
    }

    // The power 16 of each integer that is not 0 is 1.
    fn inverse(self) -> Option<F17> {
        if self.value == 0 {
            None
        } else {
            Some(self.exp_u64(15))
        }
    }
}
