//! Two fields that represent each other.
ghost use Rattle.std.specs.Prelude.{◌≡◌, ℕ, map, IfOk, false};
ghost use Rattle.sc_definitions.specs.Ring.{IsRepresentation};
ghost use Rattle.sc_field.specs.Own.{own_representation};

use crate::field::Field;
use sc_memory::NoMemory;
use std::alloc::Global;

/// A field that represents another one, `EF`: each element of either has its image in the other, and
/// the two maps are inverse to each other and keep zero, one, sums and products.
pub trait FromTable<EF: Field>: Field {
    // The number of the image of an element of `EF`, by its number.
    ghost from_number: { ℕ → ℕ };

    // The number of the element of `EF` that has this image, by the image's number.
    ghost to_number: { ℕ → ℕ };

    /// The image of an element.
    fn from_element(x: EF) -> Self
        ensures { Self.number result ≡ from_number (EF.number x) };

    /// The table with each entry's image in its place.
    fn from_table(alloc: Global, table: Vec<EF>) -> Result<Vec<Self>, NoMemory>
        ensures { IfOk result (λ v. map Self.number v.items ≡ map (λ x. from_number (EF.number x)) table.items) }
    {
        let mut images = Vec::new(alloc);
        for x in table {
            images.push(Self::from_element(x))?;
        }
        Ok(images)
    }

    /// A place for a faster linear map of a whole table, by the images of the base elements. There is
    /// none: the answer is false, and `output` stays as it is.
    fn try_map_coordinates_into(_images: &[Self], _input: &[EF], output: &mut [Self]) -> bool
        ensures answer { result ≡ false }
        ensures unchanged { map Self.number output.new ≡ map Self.number output.old }
    {
        false
    }

    ghost represents: { IsRepresentation EF.ops Self.ops from_number to_number };
}

/// A field that represents another one, `EF`, with the way back.
pub trait IntoTranscriptField<EF: Field>: FromTable<EF> {
    /// The element of `EF` that has this image.
    fn into_transcript(self) -> EF
        ensures { EF.number result ≡ Self.to_number (Self.number self) };
}

impl<F: Field> FromTable<F> for F {
    ghost from_number = { λ x. x };

    ghost to_number = { λ x. x };

    ghost represents = { own_representation F.ops };

    fn from_element(x: F) -> F {
        x
    }

    fn from_table(_alloc: Global, table: Vec<F>) -> Result<Vec<F>, NoMemory>
        ensures { IfOk result (λ v. map F.number v.items ≡ map F.number table.items) }
    {
        Ok(table)
    }
}

impl<F: Field> IntoTranscriptField<F> for F {
    fn into_transcript(self) -> F {
        self
    }
}
