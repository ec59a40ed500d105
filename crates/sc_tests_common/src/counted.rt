//! A field whose values tell by how many products they were made.
ghost use Rattle.std.specs.Prelude.{◌≡◌, map, IfOk, false, refl};
ghost use Rattle.std.proofs.Common.{lit≤};
ghost use Rattle.sc_field.specs.Own.{own_representation};
ghost use Rattle.sc_field.specs.PrimeLaws.{eqb_iff};
ghost use Rattle.sc_small_fields.specs.ResiduesLaws.{residues_field, residues_two};

use sc_field::{Field, FromTable, IntoTranscriptField, NoMemory};
use sc_small_fields::F65537;
use std::alloc::Global;

/// An element modulo 65537 with a flag and a count, of which only the element is compared. What is
/// made of two operands has the flag where one of them has it, and the sum of their counts; a
/// product with the flag has `STEP` more.
#[derive(Clone, Copy, Debug)]
#[derive_where(PartialEq, Eq)]
pub struct Counted<const STEP: u64> {
    pub value: F65537,
    #[derive_where(skip(EqHashOrd))]
    pub has_flag: bool,
    #[derive_where(skip(EqHashOrd))]
    pub count: u64,
}

/// Such elements, of which a product counts 1.
pub type Traced = Counted<1>;

/// Such elements as their representation, of which a product counts 10.
pub type Image = Counted<10>;

impl<const STEP: u64> Counted<STEP> {
    // An element without the flag, with count 0.
    fn plain(value: F65537) -> Self
        ensures { result.value ≡ value }
    {
        Counted {
            value,
            has_flag: false,
            count: 0,
        }
    }

    // What is made of two operands without a product: it has the flag where an operand has it, and
    // the sum of their counts.
    fn of_both(self, other: Self, value: F65537) -> Self
        ensures { result.value ≡ value }
    {
        Counted {
            value,
            has_flag: self.has_flag || other.has_flag,
            count: self.count.saturating_add(other.count),
        }
    }

    // A product: its count is the step more where it has the flag.
    fn of_product(self, other: Self, value: F65537) -> Self
        ensures { result.value ≡ value }
    {
        let both = self.of_both(other, value);
        let step = if both.has_flag { STEP } else { 0 };
        Counted {
            value,
            has_flag: both.has_flag,
            count: both.count.saturating_add(step),
        }
    }
}

impl<const STEP: u64> Field for Counted<STEP> {
    ghost ops = { ⟦<F65537 as Field>⟧.ops };

    ghost number = { λ x. ⟦<F65537 as Field>⟧.number x.value };

    ghost ZERO = { record { value = ⟦<F65537 as Field>⟧.ZERO; has_flag = false; count = 0 } };

    ghost ONE = { record { value = ⟦<F65537 as Field>⟧.ONE; has_flag = false; count = 0 } };

    ghost TWO = { record { value = ⟦<F65537 as Field>⟧.TWO; has_flag = false; count = 0 } };

    const ZERO: Self = Counted {
        value: F65537::ZERO,
        has_flag: false,
        count: 0,
    };

    const ONE: Self = Counted {
        value: F65537::ONE,
        has_flag: false,
        count: 0,
    };

    const TWO: Self = Counted {
        value: F65537::TWO,
        has_flag: false,
        count: 0,
    };

    ghost is_field = { residues_field };

    ghost size_least = { lit≤ tt };

    ghost size_most = { lit≤ tt };

    ghost zero_is = { refl };

    ghost one_is = { refl };

    ghost two_is = { residues_two };

    ghost number_below = { λ x. x.value.below };

    ghost equality = { λ x y. eqb_iff x.value.value y.value.value };

    fn size() -> u64 {
        F65537::size()
    }

    fn element(index: u64) -> Self {
        Counted::plain(F65537::element(index))
    }

    fn index(self) -> u64 {
        self.value.index()
    }

    fn add(self, other: Self) -> Self {
        self.of_both(other, self.value.add(other.value))
    }

    fn sub(self, other: Self) -> Self {
        self.of_both(other, self.value.sub(other.value))
    }

    fn mul(self, other: Self) -> Self {
        self.of_product(other, self.value.mul(other.value))
    }

    fn neg(self) -> Self {
        Counted {
            value: self.value.neg(),
            has_flag: self.has_flag,
            count: self.count,
        }
    }

    fn inverse(self) -> Option<Self> {
        match self.value.inverse() {
            Some(value) => Some(Counted {
                value,
                has_flag: self.has_flag,
                count: self.count,
            }),
            None => None,
        }
    }
}

impl FromTable<Traced> for Image {
    ghost from_number = { λ x. x };

    ghost to_number = { λ x. x };

    ghost represents = { own_representation ⟦<F65537 as Field>⟧.ops };

    fn from_element(x: Traced) -> Image {
        Counted {
            value: x.value,
            has_flag: x.has_flag,
            count: x.count,
        }
    }

    fn from_table(alloc: Global, table: Vec<Traced>) -> Result<Vec<Image>, NoMemory>
        ensures { IfOk result (λ v. map (λ y. y.value.value) v.items ≡ map
            (λ x. x.value.value) table.items) }
    {
        let mut images = Vec::new(alloc);
        for x in table {
            images.push(Image::from_element(x))?;
        }
        Ok(images)
    }
}

impl IntoTranscriptField<Traced> for Image {
    fn into_transcript(self) -> Traced {
        Counted {
            value: self.value,
            has_flag: self.has_flag,
            count: self.count,
        }
    }
}
