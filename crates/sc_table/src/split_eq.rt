//! Equality weights of a point, by the halves of its coordinates.

ghost use Rattle.std.specs.Prelude.{◌≡◌, ℕ, ◌+◌, ◌-◌, ◌*◌, ◌/◌, ◌^◌, ◌<◌, ◌≤◌, length, map, IfOk};
ghost use Rattle.sc_definitions.specs.Ring.{◌+⟨◌⟩◌, ◌*⟨◌⟩◌};
ghost use Rattle.sc_definitions.specs.Tables.{entries, sum_below, equality_weight};
ghost use Rattle.sc_definitions.specs.Shifts.{shifted};
ghost use Rattle.sc_definitions.specs.Partials.{summed_first, summed_last};
ghost use Rattle.sc_field.specs.Products.{products};
ghost use Rattle.sc_table.specs.Blocks.{FitsInBlocks};
ghost use Rattle.sc_table.specs.Polys.{most_table_variables, variables_of, table_of};

use crate::{Point, Poly, add_scaled, dot_slices, fits_in_blocks};
use sc_field::{Algebra, Field, NoMemory};
use std::alloc::Global;
use std::marker::PhantomData;

// How many weights are written out at once.
const WEIGHTS: usize = 256;

// From how many sums on it is worth while to write weights out for all of them.
const MANY_SUMS: usize = 32;

/// The equality weights of a point, each times a scale: as two tables, over the first half of the
/// coordinates, rounded down, and over the others. The whole table is nowhere in memory.
///
///     weight of row b   =   outer[b / 2^k] inner[b % 2^k]     (k coordinates are inner ones)
///
/// `F` is the base field that a caller's tables are over; no weight depends on it.
#[derive(Drop)]
pub struct SplitEq<F, EF> {
    // over the first half of the coordinates, with the scale
    outer: Poly<EF>,
    // over the others
    inner: Poly<EF>,
    of: PhantomData<F>,
    ghost few: { variables_of outer + variables_of inner ≤ most_table_variables },
}

impl<F, EF: Field> SplitEq<F, EF> {
    ghost use Rattle.sc_table.specs.SplitEqs.{split_variables, outer_variables, split_weight};
    ghost use Rattle.sc_table.specs.SplitEqs.{factor_of, shifted_by};

    /// `scale` times the equality weights of the point `z`, of at most 40 coordinates; `NoMemory`
    /// where there is no memory for the two tables.
    pub fn new_unpacked(alloc: Global, z: &Point<EF>, scale: EF) -> Result<Self, NoMemory>
        requires { length z.now ≤ most_table_variables }
        ensures variables { IfOk result (λ s. split_variables s ≡ length z.now) }
        ensures outer { IfOk result (λ s. outer_variables s ≡ length z.now / 2) }
        ensures weights { IfOk result (λ s. (b : ℕ) → b < 2 ^ length z.now →
            split_weight EF.number EF.ops s b
            ≡ EF.number scale *⟨ EF.ops ⟩ equality_weight EF.ops (map EF.number z.now) b) }
    {
        let (front, back) = z.as_slice().split_at(z.num_variables() / 2);
        let outer = Poly::new_from_point(alloc, front, scale)?;
        let inner = Poly::new_from_point(alloc, back, EF::ONE)?;
        Ok(SplitEq {
            outer,
            inner,
            of: PhantomData,
        })
    }

    /// How many coordinates the point has.
    pub fn num_variables(&self) -> usize
        ensures { result ≡ split_variables self.now }
    {
        self.outer.num_variables() + self.inner.num_variables()
    }

    /// The weight of the last row, all of whose digits are 1.
    pub fn last_scalar(&self) -> EF
        ensures { EF.number result
            ≡ split_weight EF.number EF.ops self.now (2 ^ split_variables self.now - 1) }
    {
        self.weight((1 << self.num_variables()) - 1)
    }

    /// The whole table of the weights; `NoMemory` where there is no memory for it.
    pub fn materialize(&self, alloc: Global) -> Result<Poly<EF>, NoMemory>
        ensures variables { IfOk result (λ p. variables_of p ≡ split_variables self.now) }
        ensures table { IfOk result (λ p. (b : ℕ) → b < 2 ^ split_variables self.now →
            table_of EF.number p b ≡ split_weight EF.number EF.ops self.now b) }
    {
        let mut table = Poly::zero(alloc, self.num_variables())?;
        self.accumulate_into(table.as_mut_slice(), None);
        Ok(table)
    }

    /// Adds the weights, each times `scale` where there is one, to a table of as many variables.
    pub fn accumulate_into(&self, out: &mut [EF], scale: Option<EF>)
        requires { length out.old ≡ 2 ^ split_variables self.now }
        ensures { (b : ℕ) → b < 2 ^ split_variables self.now →
            entries EF.number out.new b
            ≡ entries EF.number out.old b +⟨ EF.ops ⟩ factor_of EF.number scale
            *⟨ EF.ops ⟩ split_weight EF.number EF.ops self.now b }
    {
        self.add_weights(out, scale.unwrap_or(EF::ONE));
    }

    /// As [`SplitEq::accumulate_into`], of the weights moved up by one row: row 0 gains nothing,
    /// and row b gains the weight of row b - 1.
    pub fn accumulate_shifted_into(&self, out: &mut [EF], scale: Option<EF>)
        requires { length out.old ≡ 2 ^ split_variables self.now }
        ensures { (b : ℕ) → b < 2 ^ split_variables self.now →
            entries EF.number out.new b
            ≡ entries EF.number out.old b +⟨ EF.ops ⟩ factor_of EF.number scale
            *⟨ EF.ops ⟩ shifted 0 (split_weight EF.number EF.ops self.now) b }
    {
        self.add_weights(&mut out[1..], scale.unwrap_or(EF::ONE));
    }

    /// The table of values `poly` summed over its first variables, as many as the point has, under
    /// the weights. It has as many values as a power of two, and no fewer than there are weights.
    ///
    /// `NoMemory` says that there is no memory for the result, beside which none is taken.
    pub fn compress_prefix<A: Field>(&self, alloc: Global, poly: &[A]) -> Result<Poly<EF>, NoMemory>
    where
        EF: Algebra<A>,
        requires { (m : ℕ) × (length poly.now ≡ 2 ^ (split_variables self.now + m)) }
        ensures size { IfOk result
            (λ p. length poly.now ≡ 2 ^ (split_variables self.now + variables_of p)) }
        ensures rows { IfOk result (λ p. (c : ℕ) → c < 2 ^ variables_of p → table_of EF.number p c
            ≡ summed_first EF.ops (split_variables self.now) (variables_of p)
            (split_weight EF.number EF.ops self.now)
            (entries (λ x. EF.embedding (A.number x)) poly.now) c) }
    {
        self.prefix_sums(alloc, poly, 0)
    }

    /// The table of values `poly` summed over its last variables, as many as the point has, under
    /// the weights. It has as many values as a power of two, and no fewer than there are weights.
    pub fn compress_suffix<A: Field>(&self, alloc: Global, poly: &[A]) -> Result<Poly<EF>, NoMemory>
    where
        EF: Algebra<A>,
        requires { (m : ℕ) × (length poly.now ≡ 2 ^ (split_variables self.now + m)) }
        ensures size { IfOk result
            (λ p. length poly.now ≡ 2 ^ (split_variables self.now + variables_of p)) }
        ensures rows { IfOk result (λ p. (c : ℕ) → c < 2 ^ variables_of p → table_of EF.number p c
            ≡ summed_last EF.ops (split_variables self.now)
            (split_weight EF.number EF.ops self.now)
            (entries (λ x. EF.embedding (A.number x)) poly.now) c) }
    {
        self.suffix_sums(alloc, poly, 0)
    }

    /// The table that [`SplitEq::compress_prefix`] makes, under the weights moved up by one row:
    /// row 0 has the weight zero, and row b that of row b - 1.
    pub fn compress_prefix_shifted<A: Field>(
        &self,
        alloc: Global,
        poly: &[A],
    ) -> Result<Poly<EF>, NoMemory>
    where
        EF: Algebra<A>,
        requires { (m : ℕ) × (length poly.now ≡ 2 ^ (split_variables self.now + m)) }
        ensures size { IfOk result
            (λ p. length poly.now ≡ 2 ^ (split_variables self.now + variables_of p)) }
        ensures rows { IfOk result (λ p. (c : ℕ) → c < 2 ^ variables_of p → table_of EF.number p c
            ≡ summed_first EF.ops (split_variables self.now) (variables_of p)
            (shifted 0 (split_weight EF.number EF.ops self.now))
            (entries (λ x. EF.embedding (A.number x)) poly.now) c) }
    {
        self.prefix_sums(alloc, poly, 1)
    }

    /// The table that [`SplitEq::compress_suffix`] makes, under the weights moved up by one row:
    /// row 0 has the weight zero, and row b that of row b - 1.
    pub fn compress_suffix_shifted<A: Field>(
        &self,
        alloc: Global,
        poly: &[A],
    ) -> Result<Poly<EF>, NoMemory>
    where
        EF: Algebra<A>,
        requires { (m : ℕ) × (length poly.now ≡ 2 ^ (split_variables self.now + m)) }
        ensures size { IfOk result
            (λ p. length poly.now ≡ 2 ^ (split_variables self.now + variables_of p)) }
        ensures rows { IfOk result (λ p. (c : ℕ) → c < 2 ^ variables_of p → table_of EF.number p c
            ≡ summed_last EF.ops (split_variables self.now)
            (shifted 0 (split_weight EF.number EF.ops self.now))
            (entries (λ x. EF.embedding (A.number x)) poly.now) c) }
    {
        self.suffix_sums(alloc, poly, 1)
    }

    // A table summed over its first variables, under the weights moved up by so many rows. The rows
    // that then weigh nothing are left out.
    fn prefix_sums<A: Field>(
        &self,
        alloc: Global,
        poly: &[A],
        up: usize,
    ) -> Result<Poly<EF>, NoMemory>
    where
        EF: Algebra<A>,
        requires size { (m : ℕ) × (length poly.now ≡ 2 ^ (split_variables self.now + m)) }
        requires up { up ≤ 2 ^ split_variables self.now }
        ensures size { IfOk result
            (λ p. length poly.now ≡ 2 ^ (split_variables self.now + variables_of p)) }
        ensures rows { IfOk result (λ p. (c : ℕ) → c < 2 ^ variables_of p → table_of EF.number p c
            ≡ summed_first EF.ops (split_variables self.now) (variables_of p)
            (shifted_by up (split_weight EF.number EF.ops self.now))
            (entries (λ x. EF.embedding (A.number x)) poly.now) c) }
    {
        let rows = 1 << self.num_variables();
        let width = poly.len() >> self.num_variables();
        let mut sums = Poly::new(zeros(alloc, width)?);
        self.add_rows(sums.as_mut_slice(), &poly[up * width..], rows - up);
        Ok(sums)
    }

    // The same over its last variables.
    fn suffix_sums<A: Field>(
        &self,
        alloc: Global,
        poly: &[A],
        up: usize,
    ) -> Result<Poly<EF>, NoMemory>
    where
        EF: Algebra<A>,
        requires size { (m : ℕ) × (length poly.now ≡ 2 ^ (split_variables self.now + m)) }
        requires up { up ≤ 2 ^ split_variables self.now }
        ensures size { IfOk result
            (λ p. length poly.now ≡ 2 ^ (split_variables self.now + variables_of p)) }
        ensures rows { IfOk result (λ p. (c : ℕ) → c < 2 ^ variables_of p → table_of EF.number p c
            ≡ summed_last EF.ops (split_variables self.now)
            (shifted_by up (split_weight EF.number EF.ops self.now))
            (entries (λ x. EF.embedding (A.number x)) poly.now) c) }
    {
        let width = poly.len() >> self.num_variables();
        if width < MANY_SUMS || !fits_in_blocks::<EF>() {
            return self.single_sums(alloc, poly, up);
        }
        let mut sums = Poly::new(zeros(alloc, width)?);
        self.add_pieces(sums.as_mut_slice(), poly, up);
        Ok(sums)
    }

    // The same, one sum after the other.
    fn single_sums<A: Field>(
        &self,
        alloc: Global,
        poly: &[A],
        up: usize,
    ) -> Result<Poly<EF>, NoMemory>
    where
        EF: Algebra<A>,
        requires size { (m : ℕ) × (length poly.now ≡ 2 ^ (split_variables self.now + m)) }
        requires up { up ≤ 2 ^ split_variables self.now }
        ensures size { IfOk result
            (λ p. length poly.now ≡ 2 ^ (split_variables self.now + variables_of p)) }
        ensures rows { IfOk result (λ p. (c : ℕ) → c < 2 ^ variables_of p → table_of EF.number p c
            ≡ summed_last EF.ops (split_variables self.now)
            (shifted_by up (split_weight EF.number EF.ops self.now))
            (entries (λ x. EF.embedding (A.number x)) poly.now) c) }
    {
        let rows = 1 << self.num_variables();
        let width = poly.len() >> self.num_variables();
        let mut sums = Vec::with_capacity(alloc, width)?;
        for a in 0..width {
            let from = a * rows;
            sums.push_reserved(self.dot(&poly[from + up..from + rows]));
        }
        Ok(Poly::new(sums))
    }

    // Adds so many rows of a table, each as long as `sums` and times the weight of its place.
    fn add_rows<A: Field>(&self, sums: &mut [EF], table: &[A], rows: usize)
    where
        EF: Algebra<A>,
        requires size { length table.now ≡ rows * length sums.old }
        requires few { rows ≤ 2 ^ split_variables self.now }
        ensures { (c : ℕ) → c < length sums.old → entries EF.number sums.new c
            ≡ entries EF.number sums.old c +⟨ EF.ops ⟩ sum_below EF.ops rows
            (λ a. entries (λ x. EF.embedding (A.number x)) table.now (a * length sums.old + c)
            *⟨ EF.ops ⟩ split_weight EF.number EF.ops self.now a) }
    {
        if fits_in_blocks::<EF>() {
            self.add_rows_by_blocks(sums, table, rows);
        } else {
            self.add_rows_singly(sums, table, rows);
        }
    }

    // The same, row after row.
    fn add_rows_singly<A: Field>(&self, sums: &mut [EF], table: &[A], rows: usize)
    where
        EF: Algebra<A>,
        requires size { length table.now ≡ rows * length sums.old }
        requires few { rows ≤ 2 ^ split_variables self.now }
        ensures { (c : ℕ) → c < length sums.old → entries EF.number sums.new c
            ≡ entries EF.number sums.old c +⟨ EF.ops ⟩ sum_below EF.ops rows
            (λ a. entries (λ x. EF.embedding (A.number x)) table.now (a * length sums.old + c)
            *⟨ EF.ops ⟩ split_weight EF.number EF.ops self.now a) }
    {
        let width = sums.len();
        for a in 0..rows {
            let from = a * width;
            add_scaled::<A, EF>(sums, &table[from..from + width], self.weight(a));
        }
    }

    // The same, by blocks of rows, whose weights are written out.
    fn add_rows_by_blocks<A: Field>(&self, sums: &mut [EF], table: &[A], rows: usize)
    where
        EF: Algebra<A>,
        requires fits { FitsInBlocks EF.row }
        requires size { length table.now ≡ rows * length sums.old }
        requires few { rows ≤ 2 ^ split_variables self.now }
        ensures { (c : ℕ) → c < length sums.old → entries EF.number sums.new c
            ≡ entries EF.number sums.old c +⟨ EF.ops ⟩ sum_below EF.ops rows
            (λ a. entries (λ x. EF.embedding (A.number x)) table.now (a * length sums.old + c)
            *⟨ EF.ops ⟩ split_weight EF.number EF.ops self.now a) }
    {
        let width = sums.len();
        let mut from = 0;
        while from < rows {
            let len = (rows - from).min(WEIGHTS);
            let weights = self.weights_from(from, len);
            let block = &table[from * width..(from + len) * width];
            EF::add_columns_base(sums, block, &weights[..len]);
            from += len;
        }
    }

    // Adds to each sum the entries of its piece of a table, times the weights of their places,
    // moved up by so many. Each piece has as many entries as there are weights.
    fn add_pieces<A: Field>(&self, sums: &mut [EF], table: &[A], up: usize)
    where
        EF: Algebra<A>,
        requires fits { FitsInBlocks EF.row }
        requires size { length table.now ≡ length sums.old * 2 ^ split_variables self.now }
        requires up { up ≤ 2 ^ split_variables self.now }
        ensures { (c : ℕ) → c < length sums.old → entries EF.number sums.new c
            ≡ entries EF.number sums.old c +⟨ EF.ops ⟩ sum_below EF.ops
            (2 ^ split_variables self.now - up) (λ k. entries (λ x. EF.embedding (A.number x))
            table.now (c * 2 ^ split_variables self.now + up + k)
            *⟨ EF.ops ⟩ split_weight EF.number EF.ops self.now k) }
    {
        let rows = 1 << self.num_variables();
        let mut from = 0;
        while from < rows - up {
            let len = (rows - up - from).min(WEIGHTS);
            let weights = self.weights_from(from, len);
            add_dots(sums, table, rows, up + from, &weights[..len]);
            from += len;
        }
    }

    // The weights of so many rows, from the given one on.
    fn weights_from(&self, from: usize, len: usize) -> [EF; 256]
        requires fits { FitsInBlocks EF.row }
        requires inside { from + len ≤ 2 ^ split_variables self.now }
        requires few { len ≤ 256 }
        ensures { (k : ℕ) → k < len → entries EF.number result k
            ≡ split_weight EF.number EF.ops self.now (from + k) }
    {
        let mut weights = [EF::ZERO; 256];
        for k in 0..len {
            weights[k] = self.weight(from + k);
        }
        weights
    }

    // Adds the weights of the first rows, each times a factor, to as many rows.
    fn add_weights(&self, rows: &mut [EF], factor: EF)
        requires { length rows.old ≤ 2 ^ split_variables self.now }
        ensures { (b : ℕ) → b < length rows.old →
            entries EF.number rows.new b ≡ entries EF.number rows.old b +⟨ EF.ops ⟩ EF.number factor
            *⟨ EF.ops ⟩ split_weight EF.number EF.ops self.now b }
    {
        let (outer, inner) = (self.outer.as_slice(), self.inner.as_slice());
        let block = inner.len();
        for a in 0..outer.len() {
            let from = (a * block).min(rows.len());
            let to = (from + block).min(rows.len());
            add_scaled(
                &mut rows[from..to],
                &inner[..to - from],
                factor.mul(outer[a]),
            );
        }
    }

    // The sum of the entries times the weights of their places. There are no more of them than
    // weights.
    fn dot<A: Field>(&self, xs: &[A]) -> EF
    where
        EF: Algebra<A>,
        requires { length xs.now ≤ 2 ^ split_variables self.now }
        ensures { EF.number result ≡ products EF.ops (length xs.now)
            (entries (λ x. EF.embedding (A.number x)) xs.now)
            (split_weight EF.number EF.ops self.now) }
    {
        let (outer, inner) = (self.outer.as_slice(), self.inner.as_slice());
        let block = inner.len();
        let mut sum = EF::ZERO;
        for a in 0..outer.len() {
            let from = (a * block).min(xs.len());
            let to = (from + block).min(xs.len());
            let products = dot_slices(&xs[from..to], &inner[..to - from]);
            sum = sum.add(outer[a].mul(products));
        }
        sum
    }

    // The weight of a row.
    fn weight(&self, row: usize) -> EF
        requires { row < 2 ^ split_variables self.now }
        ensures { EF.number result ≡ split_weight EF.number EF.ops self.now row }
    {
        let (outer, inner) = (self.outer.as_slice(), self.inner.as_slice());
        let a = row >> self.inner.num_variables();
        let c = row & (inner.len() - 1);
        outer[a].mul(inner[c])
    }
}

// Adds to each sum the products of weights with a part of its row of a table: from the given place
// on, as many as there are weights.
fn add_dots<A: Field, E: Algebra<A>>(
    sums: &mut [E],
    table: &[A],
    row: usize,
    from: usize,
    weights: &[E],
)
    requires size { length table.now ≡ length sums.old * row }
    requires inside { from + length weights.now ≤ row }
    requires few { length weights.now ≤ 512 }
    ensures { (c : ℕ) → c < length sums.old → entries E.number sums.new c
        ≡ entries E.number sums.old c +⟨ E.ops ⟩ products E.ops (length weights.now)
        (λ k. entries (λ x. E.embedding (A.number x)) table.now (c * row + from + k))
        (entries E.number weights.now) }
{
    for c in 0..sums.len() {
        let at = c * row + from;
        let products = E::dot_base(&table[at..at + weights.len()], weights);
        sums[c] = sums[c].add(products);
    }
}

// So many zeros, in memory that is taken once.
fn zeros<A: Field>(alloc: Global, len: usize) -> Result<Vec<A>, NoMemory>
    ensures size { IfOk result (λ v. length v.items ≡ len) }
    ensures zero { IfOk result (λ v. (b : ℕ) → entries A.number v.items b ≡ 0) }
{
    let mut items = Vec::new(alloc);
    items.resize(len, A::ZERO)?;
    Ok(items)
}
