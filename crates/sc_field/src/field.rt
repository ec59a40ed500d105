//! What a field is.
ghost use Rattle.std.specs.Prelude.{◌≡◌, ℕ, ◌+◌, ◌*◌, ◌<◌, ◌≤◌, ◌^◌, ◌↔◌, true, IfSome, length};
ghost use Rattle.sc_definitions.specs.Ring.{Ops, IsField, opposite, power, ◌+⟨◌⟩◌, ◌-⟨◌⟩◌, ◌*⟨◌⟩◌};
ghost use Rattle.sc_definitions.specs.Tables.{entries};
ghost use Rattle.sc_field.specs.Products.{products, differences, even_rows, odd_rows};

use crate::powers::Powers;

/// A finite field of 16 to 2^32 elements, each with a number below the size. Zero has the number 0
/// and one the number 1. Two values are equal exactly where their numbers are.
pub trait Field: Copy + Eq {
    ghost use Rattle.sc_field.specs.Powers.{base_of, start_of};

    // The size, the sum, the product and the opposite, as functions of numbers.
    ghost ops: { Ops };

    // An element's number, below the size.
    ghost number: { Self → ℕ };

    ghost ZERO: { Self };

    ghost ONE: { Self };

    ghost TWO: { Self };

    /// Element number 0.
    const ZERO: Self;

    /// Element number 1.
    const ONE: Self;

    /// One plus one.
    const TWO: Self;

    /// How many elements there are: from 16 to 2^32.
    fn size() -> u64
        ensures { result ≡ ops.size };

    /// The element with this number, which is below the size.
    fn element(index: u64) -> Self
        requires { index < ops.size }
        ensures { number result ≡ index };

    /// The element's number, below the size.
    fn index(self) -> u64
        ensures { result ≡ number self };

    /// The sum.
    fn add(self, other: Self) -> Self
        ensures { number result ≡ number self +⟨ ops ⟩ number other };

    /// `self` less `other`.
    fn sub(self, other: Self) -> Self
        ensures { number result ≡ number self -⟨ ops ⟩ number other };

    /// The product.
    fn mul(self, other: Self) -> Self
        ensures { number result ≡ number self *⟨ ops ⟩ number other };

    /// Zero less `self`.
    fn neg(self) -> Self
        ensures { number result ≡ opposite ops (number self) };

    /// The inverse: the element whose product with `self` is one. `None` exactly at zero.
    fn inverse(self) -> Option<Self>
        ensures none { (result ≡ None) ↔ (number self ≡ 0) }
        ensures product { IfSome result (λ y. number self *⟨ ops ⟩ number y ≡ 1) };

    /// `self` plus itself.
    fn double(self) -> Self
        ensures { number result ≡ number self +⟨ ops ⟩ number self }
    {
        self.add(self)
    }

    /// `self` times itself.
    fn square(self) -> Self
        ensures { number result ≡ number self *⟨ ops ⟩ number self }
    {
        self.mul(self)
    }

    /// The power: `exponent` factors `self`, multiplied. To the 0 it is one, for zero too.
    fn exp_u64(self, exponent: u64) -> Self
        ensures { number result ≡ power ops (number self) exponent }
    {
        let mut result = Self::ONE;
        let mut base = self;
        let mut left = exponent;
        while left > 0 {
            if left % 2 == 1 {
                result = result.mul(base);
            }
            base = base.square();
            left /= 2;
        }
        result
    }

    /// The sum of the products of two lists of one length, at most 512: so many products a field may add up before it reduces.
    fn dot(xs: &[Self], ys: &[Self]) -> Self
        requires same { length xs.now ≡ length ys.now }
        requires few { length xs.now ≤ 512 }
        ensures { number result ≡ products ops (length xs.now) (entries number xs.now) (entries number ys.now) }
    {
        let mut sum = Self::ZERO;
        for i in 0..xs.len() {
            sum = sum.add(xs[i].mul(ys[i]));
        }
        sum
    }

    /// The sum of the products (x1 - x0) (y1 - y0) over four lists of one length, at most 512.
    fn dot_differences(x0: &[Self], x1: &[Self], y0: &[Self], y1: &[Self]) -> Self
        requires first { length x0.now ≡ length x1.now }
        requires second { length x0.now ≡ length y0.now }
        requires third { length x0.now ≡ length y1.now }
        requires few { length x0.now ≤ 512 }
        ensures { number result ≡ products ops (length x0.now)
            (differences ops (entries number x0.now) (entries number x1.now))
            (differences ops (entries number y0.now) (entries number y1.now)) }
    {
        let mut sum = Self::ZERO;
        for i in 0..x0.len() {
            sum = sum.add(x1[i].sub(x0[i]).mul(y1[i].sub(y0[i])));
        }
        sum
    }

    /// Over the first `pairs` pairs of neighbours, rows 2b and 2b + 1, at most 512, of two lists: the sum of the products of the even
    /// rows, and that of the products of the differences, the odd row less the even one.
    fn dot_pairs(pairs: usize, xs: &[Self], ys: &[Self]) -> (Self, Self)
        requires first { 2 * pairs ≤ length xs.now }
        requires second { 2 * pairs ≤ length ys.now }
        requires few { pairs ≤ 512 }
        ensures even { number result.0 ≡ products ops pairs (even_rows (entries number xs.now)) (even_rows (entries number ys.now)) }
        ensures difference { number result.1 ≡ products ops pairs
            (differences ops (even_rows (entries number xs.now)) (odd_rows (entries number xs.now)))
            (differences ops (even_rows (entries number ys.now)) (odd_rows (entries number ys.now))) }
    {
        let mut even = Self::ZERO;
        let mut difference = Self::ZERO;
        for b in 0..pairs {
            let (x0, x1) = (xs[2 * b], xs[2 * b + 1]);
            let (y0, y1) = (ys[2 * b], ys[2 * b + 1]);
            even = even.add(x0.mul(y0));
            difference = difference.add(x1.sub(x0).mul(y1.sub(y0)));
        }
        (even, difference)
    }

    /// Adds to each of a list of sums the element at the same place of a row, times a factor.
    fn add_row(sums: &mut [Self], row: &[Self], factor: Self)
        requires { length sums.old ≡ length row.now }
        ensures { (c : ℕ) → c < length sums.old → entries number sums.new c
            ≡ entries number sums.old c +⟨ ops ⟩ entries number row.now c *⟨ ops ⟩ number factor }
    {
        for c in 0..sums.len() {
            sums[c] = sums[c].add(row[c].mul(factor));
        }
    }

    /// Adds to each of a list of sums the products of its column of a table, whose rows are as long
    /// as the list: the entry of each row times the row's factor. There are at most 512 rows.
    fn add_columns(sums: &mut [Self], rows: &[Self], factors: &[Self])
        requires size { length rows.now ≡ length factors.now * length sums.old }
        requires few { length factors.now ≤ 512 }
        ensures { (c : ℕ) → c < length sums.old → entries number sums.new c
            ≡ entries number sums.old c +⟨ ops ⟩ products ops (length factors.now)
            (λ a. entries number rows.now (a * length sums.old + c)) (entries number factors.now) }
    {
        let width = sums.len();
        for a in 0..factors.len() {
            let from = a * width;
            Self::add_row(sums, &rows[from..from + width], factors[a]);
        }
    }

    /// Node number i of an interpolation, which is element number i. It is below the size.
    fn interpolation_node(i: usize) -> Self
        requires { i < ops.size }
        ensures { number result ≡ i }
    {
        Self::element(i as u64)
    }

    /// The powers of `self`: item number i is the power i, from one on.
    fn powers(self) -> Powers<Self>
        ensures base { number (base_of result) ≡ number self }
        ensures start { number (start_of result) ≡ 1 }
    {
        self.shifted_powers(Self::ONE)
    }

    /// The powers of `self`, each times `start`: item number i is `start` times the power i.
    fn shifted_powers(self, start: Self) -> Powers<Self>
        ensures base { number (base_of result) ≡ number self }
        ensures start { number (start_of result) ≡ number start }
    {
        Powers {
            next: start,
            base: self,
        }
    }

    // The numbers below the size, with these operations, are a field: a commutative ring of 16 to
    // 2^32 numbers in which each but 0 has an inverse.
    ghost is_field: { IsField ops };

    ghost size_least: { 16 ≤ ops.size };

    ghost size_most: { ops.size ≤ 2 ^ 32 };

    ghost zero_is: { number ZERO ≡ 0 };

    ghost one_is: { number ONE ≡ 1 };

    ghost two_is: { number TWO ≡ 1 +⟨ ops ⟩ 1 };

    ghost number_below: { (x : Self) → number x < ops.size };

    ghost equality: { (x y : Self) → (Self.eq x y ≡ true) ↔ (number x ≡ number y) };
}
