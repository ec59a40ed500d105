//! A field whose elements are too large for blocks of them, over any field.
ghost use Rattle.std.specs.Prelude.{◌≡◌, replicate};

use sc_field::Field;

/// An element of a field with 128 bytes that mean nothing: no block of such elements is an array,
/// so that calls take them row by row.
#[derive(Clone, Copy)]
#[derive_where(PartialEq, Eq, Debug; F)]
pub struct Wide<F> {
    pub value: F,
    #[derive_where(skip(EqHashOrd))]
    padding: [u64; 16],
}

impl<F> Wide<F> {
    /// The element of this value.
    pub fn new(value: F) -> Self
        ensures { result.value ≡ value }
    {
        Wide {
            value,
            padding: [0; 16],
        }
    }
}

impl<F: Field> Field for Wide<F> {
    ghost ops = { F.ops };

    ghost number = { λ x. F.number x.value };

    ghost ZERO = { record { value = F.ZERO; padding = replicate 16 0 } };

    ghost ONE = { record { value = F.ONE; padding = replicate 16 0 } };

    ghost TWO = { record { value = F.TWO; padding = replicate 16 0 } };

    const ZERO: Self = Wide {
        value: F::ZERO,
        padding: [0; 16],
    };

    const ONE: Self = Wide {
        value: F::ONE,
        padding: [0; 16],
    };

    const TWO: Self = Wide {
        value: F::TWO,
        padding: [0; 16],
    };

    ghost is_field = { F.is_field };

    ghost size_least = { F.size_least };

    ghost size_most = { F.size_most };

    ghost zero_is = { F.zero_is };

    ghost one_is = { F.one_is };

    ghost two_is = { F.two_is };

    ghost number_below = { λ x. F.number_below x.value };

    ghost equality = { λ x y. F.equality x.value y.value };

    fn size() -> u64 {
        F::size()
    }

    fn element(index: u64) -> Self {
        Wide::new(F::element(index))
    }

    fn index(self) -> u64 {
        self.value.index()
    }

    fn add(self, other: Self) -> Self {
        Wide::new(self.value.add(other.value))
    }

    fn sub(self, other: Self) -> Self {
        Wide::new(self.value.sub(other.value))
    }

    fn mul(self, other: Self) -> Self {
        Wide::new(self.value.mul(other.value))
    }

    fn neg(self) -> Self {
        Wide::new(self.value.neg())
    }

    fn inverse(self) -> Option<Self> {
        match self.value.inverse() {
            Some(value) => Some(Wide::new(value)),
            None => None,
        }
    }
}
