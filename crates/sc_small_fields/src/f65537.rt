//! The integers modulo 65537.
ghost use Rattle.std.specs.Prelude.{◌≡◌, ℕ, ◌+◌, ◌-◌, ◌*◌, ◌%◌, ◌^◌, ◌<◌, ◌≤◌, length, refl};
ghost use Rattle.std.proofs.Common.{lit<, lit≤};
ghost use Rattle.sc_definitions.specs.Ring.{◌+⟨◌⟩◌, ◌-⟨◌⟩◌};
ghost use Rattle.sc_definitions.specs.Residues.{residues};
ghost use Rattle.sc_definitions.specs.Tables.{entries};
ghost use Rattle.sc_field.specs.Products.{products};
ghost use Rattle.sc_field.specs.Written.{HasWritten};
ghost use Rattle.sc_small_fields.specs.ResiduesLaws.{residues_field, residues_two};
ghost use Rattle.sc_field.specs.PrimeLaws.{eqb_iff};

use crate::prime::inverse_modulo;
use sc_field::Field;

// 2^16 + 1, a prime number.
const MODULUS: u32 = 65537;

// How many columns of a table are added up side by side.
const COLUMNS: usize = 256;

// From how many rows on this is faster than row by row.
const SOME_ROWS: usize = 5;

/// An integer modulo 65537, which is 2^16 + 1, a prime number. Element number n is n itself.
#[derive(Clone, Copy, PartialEq, Eq, Debug)]
pub struct F65537 {
    value: u32,
    ghost below: { value < 65537 },
}

#[tactic(auto, using(crate::specs::ResiduesLaws::prime_65537, crate::specs::ResiduesLaws::residues_plus, crate::specs::ResiduesLaws::residues_times, crate::specs::ResiduesLaws::residues_opposite))]
impl Field for F65537 {
    ghost ops = { residues 65537 };

    ghost number = { λ x. x.value };

    ghost ZERO = { record { value = 0; below = lit< tt } };

    ghost ONE = { record { value = 1; below = lit< tt } };

    ghost TWO = { record { value = 2; below = lit< tt } };

    const ZERO: F65537 = F65537 { value: 0 };

    const ONE: F65537 = F65537 { value: 1 };

    const TWO: F65537 = F65537 { value: 2 };

    ghost is_field = { residues_field };

    ghost size_least = { lit≤ tt };

    ghost size_most = { lit≤ tt };

    ghost zero_is = { refl };

    ghost one_is = { refl };

    ghost two_is = { residues_two };

    ghost number_below = { λ x. x.below };

    ghost equality = { λ x y. eqb_iff x.value y.value };

    fn size() -> u64 {
        65537
    }

    fn element(index: u64) -> F65537 {
        F65537 {
            value: index as u32,
        }
    }

    fn index(self) -> u64 {
        self.value as u64
    }

    fn add(self, other: F65537) -> F65537 {
        let sum = self.value + other.value;
        F65537 {
            value: if sum >= MODULUS { sum - MODULUS } else { sum },
        }
    }

    fn sub(self, other: F65537) -> F65537 {
        let value = if self.value >= other.value {
            self.value - other.value
        } else {
            self.value + MODULUS - other.value
        };
        F65537 { value }
    }

    // 2^16 is -1, so the product, as high * 2^16 + low, is low - high.
    fn mul(self, other: F65537) -> F65537 {
        let product = self.value as u64 * other.value as u64;
        let high = (product >> 16) as u32;
        let low = (product & 0xffff) as u32;
        let value = if low >= high {
            low - high
        } else {
            low + MODULUS - high
        };
        F65537 { value }
    }

    // Each product is below 2^32, so that 64 bits hold the sum, which is reduced once.
    fn dot(xs: &[F65537], ys: &[F65537]) -> F65537 {
        let mut sum: u64 = 0;
        for i in 0..xs.len() {
            let (x, y) = (xs[i], ys[i]);
            sum += x.value as u64 * y.value as u64;
        }
        reduced(sum)
    }

    // Each product is below 2^35.
    fn dot_differences(x0: &[F65537], x1: &[F65537], y0: &[F65537], y1: &[F65537]) -> F65537 {
        let mut sum: u64 = 0;
        for i in 0..x0.len() {
            let x = above(x1[i], x0[i]);
            let y = above(y1[i], y0[i]);
            sum += x * y;
        }
        reduced(sum)
    }

    fn dot_pairs(pairs: usize, xs: &[F65537], ys: &[F65537]) -> (F65537, F65537) {
        let mut even: u64 = 0;
        let mut difference: u64 = 0;
        for b in 0..pairs {
            let (x0, x1) = (xs[2 * b], xs[2 * b + 1]);
            let (y0, y1) = (ys[2 * b], ys[2 * b + 1]);
            even += x0.value as u64 * y0.value as u64;
            let (x, y) = (above(x1, x0), above(y1, y0));
            difference += x * y;
        }
        (reduced(even), reduced(difference))
    }

    // Where there are few rows it is not worth while to reduce later.
    fn add_columns(sums: &mut [F65537], rows: &[F65537], factors: &[F65537]) {
        if factors.len() >= SOME_ROWS {
            return add_blocks(sums, rows, factors);
        }
        let width = sums.len();
        for a in 0..factors.len() {
            let from = a * width;
            F65537::add_row(sums, &rows[from..from + width], factors[a]);
        }
    }

    fn neg(self) -> F65537 {
        F65537 {
            value: if self.value == 0 {
                0
            } else {
                MODULUS - self.value
            },
        }
    }

    fn inverse(self) -> Option<F65537> {
        if self.value == 0 {
            None
        } else {
            Some(F65537 {
                value: inverse_modulo(self.value, MODULUS),
            })
        }
    }
}

// The element of any number.
fn reduced(number: u64) -> F65537
    ensures { result.value ≡ number % 65537 }
{
    F65537 {
        value: (number % MODULUS as u64) as u32,
    }
}

// A number of the difference, not reduced.
fn above(x: F65537, y: F65537) -> u64
    ensures number { result % 65537 ≡ x.value -⟨ residues 65537 ⟩ y.value }
    ensures below { result < 131074 }
{
    (x.value + MODULUS - y.value) as u64
}

// Adds up columns by blocks of them, whose sums stand in an array until all rows are added.
fn add_blocks(sums: &mut [F65537], rows: &[F65537], factors: &[F65537])
    requires size { length rows.now ≡ length factors.now * length sums.old }
    requires few { length factors.now ≤ 512 }
    ensures { (c : ℕ) → c < length sums.old → entries (λ x. x.value) sums.new c
        ≡ entries (λ x. x.value) sums.old c +⟨ residues 65537 ⟩ products (residues 65537)
        (length factors.now) (λ a. entries (λ x. x.value) rows.now (a * length sums.old + c))
        (entries (λ x. x.value) factors.now) }
{
    let width = sums.len();
    let mut from = 0;
    while from < width {
        let len = (width - from).min(COLUMNS);
        let totals = column_totals(rows, factors, width, from, len);
        add_reduced(sums, from, len, &totals);
        from += len;
    }
}

// The sums of so many columns of a table of this width, from the given one on; none is reduced.
fn column_totals(
    rows: &[F65537],
    factors: &[F65537],
    width: usize,
    from: usize,
    len: usize,
) -> [u64; 256]
    requires size { length rows.now ≡ length factors.now * width }
    requires few { length factors.now ≤ 512 }
    requires inside { from + len ≤ width }
    requires fits { len ≤ 256 }
    ensures { (c : ℕ) → c < len → entries (λ n. n) result c % 65537
        ≡ products (residues 65537) (length factors.now)
        (λ a. entries (λ x. x.value) rows.now (a * width + (from + c)))
        (entries (λ x. x.value) factors.now) }
{
    let mut totals = [0; COLUMNS];
    for a in 0..factors.len() {
        let start = a * width + from;
        add_products(&mut totals, &rows[start..start + len], factors[a]);
    }
    totals
}

// Adds to each number the value at the same place, times a factor; there may be fewer values.
fn add_products(totals: &mut [u64], row: &[F65537], factor: F65537)
    requires fits { length row.now ≤ length totals.old }
    requires small { (c : ℕ) → entries (λ n. n) totals.old c < 2 ^ 63 }
    ensures gained { (c : ℕ) → c < length row.now → entries (λ n. n) totals.new c
        ≡ entries (λ n. n) totals.old c + entries (λ x. x.value) row.now c * factor.value }
    ensures others { (c : ℕ) → length row.now ≤ c →
        entries (λ n. n) totals.new c ≡ entries (λ n. n) totals.old c }
{
    for c in 0..row.len() {
        totals[c] += row[c].value as u64 * factor.value as u64;
    }
}

// Adds the elements of so many numbers to as many sums, from the given one on.
fn add_reduced(sums: &mut [F65537], from: usize, len: usize, numbers: &[u64])
    requires inside { from + len ≤ length sums.old }
    requires fits { len ≤ length numbers.now }
    ensures { HasWritten (λ x. x.value) (λ c. entries (λ x. x.value) sums.old c
        +⟨ residues 65537 ⟩ entries (λ n. n) numbers.now (c - from) % 65537)
        from len sums.old sums.new }
{
    for c in 0..len {
        sums[from + c] = sums[from + c].add(reduced(numbers[c]));
    }
}
