//! Fields over fields.
ghost use Rattle.std.specs.Prelude.{◌≡◌, ℕ, ◌+◌, ◌*◌, ◌<◌, ◌≤◌, length, map, slice_index, slice_set, refl};
ghost use Rattle.std.proofs.Common.{lit≤};
ghost use Rattle.sc_definitions.specs.Ring.{IsRingMap, IsExtension, ◌+⟨◌⟩◌, ◌*⟨◌⟩◌};
ghost use Rattle.sc_definitions.specs.Tables.{entries};
ghost use Rattle.sc_definitions.specs.Events.{Extension, own_extension};
ghost use Rattle.sc_field.specs.Own.{identity_map, own_extends};
ghost use Rattle.sc_field.specs.Products.{products, differences, even_rows, odd_rows};

use crate::field::Field;

/// A field that a base field maps into. The map keeps zero, one, sums and products.
pub trait Algebra<B: Field>: Field {
    // The number of a base element's image, by the base element's number.
    ghost embedding: { ℕ → ℕ };

    /// The image of a base element.
    fn embed(b: B) -> Self
        ensures { Self.number result ≡ embedding (B.number b) };

    /// The product with the image of a base element.
    fn mul_base(self, b: B) -> Self
        ensures { Self.number result ≡ Self.number self *⟨ Self.ops ⟩ embedding (B.number b) };

    /// The sum of the products of base elements' images and elements, of two lists of one length, at most 512.
    fn dot_base(xs: &[B], ys: &[Self]) -> Self
        requires same { length xs.now ≡ length ys.now }
        requires few { length xs.now ≤ 512 }
        ensures { Self.number result ≡ products Self.ops (length xs.now) (entries (λ x. embedding (B.number x)) xs.now) (entries Self.number ys.now) }
    {
        let mut sum = Self::ZERO;
        for i in 0..xs.len() {
            sum = sum.add(ys[i].mul_base(xs[i]));
        }
        sum
    }

    /// The sum of the products (x1 - x0) (y1 - y0) of base elements' images and elements, over four lists of one length, at most 512.
    fn dot_base_differences(x0: &[B], x1: &[B], y0: &[Self], y1: &[Self]) -> Self
        requires first { length x0.now ≡ length x1.now }
        requires second { length x0.now ≡ length y0.now }
        requires third { length x0.now ≡ length y1.now }
        requires few { length x0.now ≤ 512 }
        ensures { Self.number result ≡ products Self.ops (length x0.now)
            (differences Self.ops (entries (λ x. embedding (B.number x)) x0.now) (entries (λ x. embedding (B.number x)) x1.now))
            (differences Self.ops (entries Self.number y0.now) (entries Self.number y1.now)) }
    {
        let mut sum = Self::ZERO;
        for i in 0..x0.len() {
            sum = sum.add(y1[i].sub(y0[i]).mul_base(x1[i].sub(x0[i])));
        }
        sum
    }

    /// Over the first `pairs` pairs of neighbours, at most 512, of a list of base elements and one of elements: the sum of the products
    /// of the even rows, and that of the products of the differences, the odd row less the even one.
    fn dot_base_pairs(pairs: usize, xs: &[B], ys: &[Self]) -> (Self, Self)
        requires first { 2 * pairs ≤ length xs.now }
        requires second { 2 * pairs ≤ length ys.now }
        requires few { pairs ≤ 512 }
        ensures even { Self.number result.0
            ≡ products Self.ops pairs (even_rows (entries (λ x. embedding (B.number x)) xs.now)) (even_rows (entries Self.number ys.now)) }
        ensures difference { Self.number result.1 ≡ products Self.ops pairs
            (differences Self.ops (even_rows (entries (λ x. embedding (B.number x)) xs.now)) (odd_rows (entries (λ x. embedding (B.number x)) xs.now)))
            (differences Self.ops (even_rows (entries Self.number ys.now)) (odd_rows (entries Self.number ys.now))) }
    {
        let mut even = Self::ZERO;
        let mut difference = Self::ZERO;
        for b in 0..pairs {
            let (x0, x1) = (xs[2 * b], xs[2 * b + 1]);
            let (y0, y1) = (ys[2 * b], ys[2 * b + 1]);
            even = even.add(y0.mul_base(x0));
            difference = difference.add(y1.sub(y0).mul_base(x1.sub(x0)));
        }
        (even, difference)
    }

    /// Adds to each of a list of sums the image of the base element at the same place of a row, times
    /// a factor.
    fn add_row_base(sums: &mut [Self], row: &[B], factor: Self)
        requires { length sums.old ≡ length row.now }
        ensures { (c : ℕ) → c < length sums.old → entries Self.number sums.new c
            ≡ entries Self.number sums.old c +⟨ Self.ops ⟩ entries (λ x. embedding (B.number x)) row.now c
            *⟨ Self.ops ⟩ Self.number factor }
    {
        for c in 0..sums.len() {
            sums[c] = sums[c].add(factor.mul_base(row[c]));
        }
    }

    /// Adds to each of a list of sums the products of its column of a table of base elements, whose
    /// rows are as long as the list: the image of the entry of each row, times the row's factor.
    /// There are at most 512 rows.
    fn add_columns_base(sums: &mut [Self], rows: &[B], factors: &[Self])
        requires size { length rows.now ≡ length factors.now * length sums.old }
        requires few { length factors.now ≤ 512 }
        ensures { (c : ℕ) → c < length sums.old → entries Self.number sums.new c
            ≡ entries Self.number sums.old c +⟨ Self.ops ⟩ products Self.ops (length factors.now)
            (λ a. entries (λ x. embedding (B.number x)) rows.now (a * length sums.old + c))
            (entries Self.number factors.now) }
    {
        let width = sums.len();
        for a in 0..factors.len() {
            let from = a * width;
            Self::add_row_base(sums, &rows[from..from + width], factors[a]);
        }
    }

    ghost embeds: { IsRingMap B.ops Self.ops embedding };
}

/// A field whose elements are lists of elements of a base field: an element and its parts determine
/// each other.
pub trait ExtensionField<F: Field>: Algebra<F> {
    ghost DEGREE: { ℕ };

    // How many parts an element has, the numbers of its parts, and the number of the element of given parts.
    ghost extension: { Extension };

    /// How many parts an element has: from 1 to 8.
    const DEGREE: usize;

    /// Part number i, below the degree.
    fn part(self, i: usize) -> F
        requires { i < DEGREE }
        ensures { F.number result ≡ slice_index (extension.parts (Self.number self)) i };

    /// The element of these parts, as many as the degree says.
    fn from_parts(parts: &[F]) -> Self
        requires { length parts.now ≡ DEGREE }
        ensures { Self.number result ≡ extension.join (map F.number parts.now) };

    /// The element with `x` as part number i, below the degree, and every other part as it is in `self`.
    fn with_part(self, i: usize, x: F) -> Self
        requires { i < DEGREE }
        ensures { extension.parts (Self.number result) ≡ slice_set (extension.parts (Self.number self)) i (F.number x) };

    ghost extends: { IsExtension F.ops Self.ops DEGREE extension.parts extension.join };

    ghost degree_is: { extension.degree ≡ DEGREE };

    ghost degree_least: { 1 ≤ DEGREE };

    ghost degree_most: { DEGREE ≤ 8 };
}

impl<F: Field> Algebra<F> for F {
    ghost embedding = { λ x. x };

    ghost embeds = { identity_map F.ops };

    fn embed(b: F) -> F {
        b
    }

    fn mul_base(self, b: F) -> F {
        self.mul(b)
    }

    fn dot_base(xs: &[F], ys: &[F]) -> F {
        F::dot(xs, ys)
    }

    fn dot_base_differences(x0: &[F], x1: &[F], y0: &[F], y1: &[F]) -> F {
        F::dot_differences(x0, x1, y0, y1)
    }

    fn dot_base_pairs(pairs: usize, xs: &[F], ys: &[F]) -> (F, F) {
        F::dot_pairs(pairs, xs, ys)
    }

    fn add_row_base(sums: &mut [F], row: &[F], factor: F) {
        F::add_row(sums, row, factor)
    }

    fn add_columns_base(sums: &mut [F], rows: &[F], factors: &[F]) {
        F::add_columns(sums, rows, factors)
    }
}

impl<F: Field> ExtensionField<F> for F {
    ghost DEGREE = { 1 };

    ghost extension = { own_extension };

    ghost extends = { own_extends F.ops };

    ghost degree_is = { refl };

    ghost degree_least = { lit≤ tt };

    ghost degree_most = { lit≤ tt };

    const DEGREE: usize = 1;

    fn part(self, _i: usize) -> F {
        self
    }

    fn from_parts(parts: &[F]) -> F {
        parts[0]
    }

    fn with_part(self, _i: usize, x: F) -> F {
        x
    }
}
