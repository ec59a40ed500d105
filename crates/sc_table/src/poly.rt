//! Tables of values.

ghost use Rattle.std.specs.Prelude.{◌≡◌, ℕ, ◌+◌, ◌-◌, ◌*◌, ◌/◌, ◌^◌, ◌<◌, ◌≤◌, [], ◌∷◌, ◌++◌, List, length, map, IfOk, vec_len, vec_capacity};
ghost use Rattle.std.specs.Borrow.{sem};
ghost use Rattle.sc_definitions.specs.Ring.{◌+⟨◌⟩◌, ◌-⟨◌⟩◌, ◌*⟨◌⟩◌};
ghost use Rattle.sc_definitions.specs.Tables.{entries, equality_weight, value, bound, bound_low};
ghost use Rattle.sc_definitions.specs.Statements.{successor_weight};
ghost use Rattle.sc_definitions.specs.Shifts.{shifted, only_at};
ghost use Rattle.sc_table.specs.Blocks.{HasWritten};

use crate::{Point, eval_slice};
use sc_field::{Algebra, Field, NoMemory};
use std::alloc::Global;

/// A table of 2^n values. Coordinate 1 of a point belongs to the highest bit of a row.
#[derive(Drop)]
pub struct Poly<A> {
    evals: Vec<A>,
    variables: usize,
    ghost sized: { vec_len evals ≡ 2 ^ variables },
}

impl<A: Field> Poly<A> {
    ghost use Rattle.sc_table.specs.Polys.{most_table_variables, variables_of, table_of, with_values};
    ghost use Rattle.sc_table.specs.PolyLoans.{LendsValues};

    /// The table of these values, as many as a power of two.
    pub fn new(evals: Vec<A>) -> Self
        requires { (n : ℕ) × (length evals.items ≡ 2 ^ n) }
        ensures size { length evals.items ≡ 2 ^ variables_of result }
        ensures table { table_of A.number result ≡ entries A.number evals.items }
    {
        let variables = evals.len().trailing_zeros() as usize;
        Poly { evals, variables }
    }

    /// The table of `n` variables, at most 40, with zero in each row; `NoMemory` where there is no
    /// memory for its 2^n values.
    pub fn zero(alloc: Global, n: usize) -> Result<Self, NoMemory>
        requires { n ≤ most_table_variables }
        ensures variables { IfOk result (λ p. variables_of p ≡ n) }
        ensures table { IfOk result (λ p. (b : ℕ) → table_of A.number p b ≡ 0) }
    {
        let mut evals = Vec::new(alloc);
        evals.resize(1 << n, A::ZERO)?;
        Ok(Poly {
            evals,
            variables: n,
        })
    }

    /// The table of `scale` times the equality weights of the point `z`, of at most 40 coordinates.
    ///
    /// It takes time linear in the table's length: each coordinate, the last one first, doubles the
    /// table that the coordinates after it make. Memory is taken once, for the whole table, and
    /// `NoMemory` says that there is not as much.
    pub fn new_from_point(alloc: Global, z: &[A], scale: A) -> Result<Self, NoMemory>
        requires { length z.now ≤ most_table_variables }
        ensures variables { IfOk result (λ p. variables_of p ≡ length z.now) }
        ensures table { IfOk result (λ p. (b : ℕ) → b < 2 ^ length z.now →
            table_of A.number p b
            ≡ A.number scale *⟨ A.ops ⟩ equality_weight A.ops (map A.number z.now) b) }
    {
        let variables = z.len();
        let mut evals = Vec::with_capacity(alloc, 1 << variables)?;
        evals.push_reserved(scale);
        for z_i in z.iter().rev() {
            push_weighted(&mut evals, *z_i);
        }
        Ok(Poly { evals, variables })
    }

    /// The table of the successor weights of the point `z`, of at most 40 coordinates: row b of the equality weights goes to row b + 1,
    /// and the last row to itself. Over no variables the one entry is one.
    ///
    /// It takes time linear in the table's length, and memory once, for the whole table; `NoMemory` says that there is not as much.
    pub fn new_next_from_point(alloc: Global, z: &[A]) -> Result<Self, NoMemory>
        requires { length z.now ≤ most_table_variables }
        ensures variables { IfOk result (λ p. variables_of p ≡ length z.now) }
        ensures table { IfOk result (λ p. (b : ℕ) → b < 2 ^ length z.now → table_of A.number p b ≡ successor_weight A.ops (map A.number z.now) b) }
    {
        let mut table = Self::new_from_point(alloc, z, A::ONE)?;
        move_rows_up(table.as_mut_slice());
        Ok(table)
    }

    /// How many variables the table has.
    pub fn num_variables(&self) -> usize
        ensures { result ≡ variables_of self.now }
    {
        self.variables
    }

    /// How many values the table has.
    pub fn num_evals(&self) -> usize
        ensures { result ≡ 2 ^ variables_of self.now }
    {
        self.evals.len()
    }

    /// The values, row 0 first.
    pub fn as_slice(&self) -> &[A]
        ensures numbers { entries A.number result.now ≡ table_of A.number self.now }
        ensures size { length result.now ≡ 2 ^ variables_of self.now }
    {
        self.evals.as_slice()
    }

    /// The values, row 0 first, in the memory that the table had.
    pub fn into_evals(self) -> Vec<A>
        ensures numbers { entries A.number result.items ≡ table_of A.number self }
        ensures size { length result.items ≡ 2 ^ variables_of self }
    {
        let Poly {
            evals,
            variables: _,
        } = self;
        evals
    }

    /// The values, row 0 first, to be written; the number of variables stays.
    pub fn as_mut_slice(&mut self) -> &mut [A]
        ensures* writes_back { sem 𝓛 (LendsValues A.row self.entry result) }
        ensures numbers { entries A.number result.now ≡ table_of A.number self.old }
        ensures size { length result.now ≡ 2 ^ variables_of self.old }

        // As many values as there were are the table's new ones.
        ensures written { (values : List A) → length values ≡ 2 ^ variables_of self.old →
            table_of A.number (with_values self.old values) ≡ entries A.number values }
    {
        self.evals.as_mut_slice()
    }

    /// The same table, in memory of its own; `NoMemory` where there is none.
    pub fn copy(&self, alloc: Global) -> Result<Self, NoMemory>
        ensures variables { IfOk result (λ p. variables_of p ≡ variables_of self.now) }
        ensures table { IfOk result (λ p. table_of A.number p ≡ table_of A.number self.now) }
    {
        let evals = Vec::from_slice(alloc, &self.evals)?;
        Ok(Poly {
            evals,
            variables: self.variables,
        })
    }

    /// The sum over all rows of value times equality weight, at a point of as many coordinates as the
    /// table has variables. It takes no memory.
    pub fn eval<E: Algebra<A>>(&self, z: &Point<E>) -> E
        requires { length z.now ≡ variables_of self.now }
        ensures { E.number result ≡ value E.ops (λ b. E.embedding (table_of A.number self.now b)) (map E.number z.now) }
    {
        eval_slice(self.evals.as_slice(), z.as_slice())
    }

    /// The first variable is bound at `r`, and the table is halved, in its place: each value of the
    /// first half becomes lo + (hi - lo) r over the two halves.
    pub fn fix_prefix_var_mut<Ch: Field>(&mut self, r: Ch)
    where
        A: Algebra<Ch>,
        requires { 0 < variables_of self.old }
        ensures fewer { variables_of self.old ≡ variables_of self.new + 1 }
        ensures bound { (b : ℕ) → b < 2 ^ variables_of self.new →
            table_of A.number self.new b ≡ bound A.ops (2 ^ variables_of self.new) (A.embedding (Ch.number r)) (table_of A.number self.old) b }

        // The value at the other coordinates is the old value with `r` placed first.
        ensures value { (zs : List ℕ) → length zs ≡ variables_of self.new →
            value A.ops (table_of A.number self.new) zs ≡ value A.ops (table_of A.number self.old) (A.embedding (Ch.number r) ∷ zs) }
    {
        let half = self.num_evals() / 2;
        bind_halves(self.as_mut_slice(), half, 0, half, r);
        self.keep_first_half();
    }

    /// The last variable is bound at `r`, and the table is halved, in its place: two neighbours, rows
    /// 2b and 2b + 1, become lo + (hi - lo) r in row b.
    pub fn fix_suffix_var_mut<Ch: Field>(&mut self, r: Ch)
    where
        A: Algebra<Ch>,
        requires { 0 < variables_of self.old }
        ensures fewer { variables_of self.old ≡ variables_of self.new + 1 }
        ensures bound { (b : ℕ) → b < 2 ^ variables_of self.new →
            table_of A.number self.new b ≡ bound_low A.ops (A.embedding (Ch.number r)) (table_of A.number self.old) b }

        // The value at the other coordinates is the old value with `r` placed last.
        ensures value { (zs : List ℕ) → length zs ≡ variables_of self.new →
            value A.ops (table_of A.number self.new) zs ≡ value A.ops (table_of A.number self.old) (zs ++ A.embedding (Ch.number r) ∷ []) }
    {
        let half = self.num_evals() / 2;
        bind_pairs(self.as_mut_slice(), 0, half, r);
        self.keep_first_half();
    }

    /// Gives memory back that the values do not need, as far as there is a way to.
    pub fn shrink_to_fit(&mut self)
        ensures variables { variables_of self.new ≡ variables_of self.old }
        ensures table { table_of A.number self.new ≡ table_of A.number self.old }
    {
        self.evals.shrink_to_fit();
    }

    // The first half of the values alone, as a table of one variable less.
    pub(crate) fn keep_first_half(&mut self)
        requires { 0 < variables_of self.old }
        ensures fewer { variables_of self.old ≡ variables_of self.new + 1 }
        ensures kept { (b : ℕ) → b < 2 ^ variables_of self.new → table_of A.number self.new b ≡ table_of A.number self.old b }
    {
        self.evals.truncate(self.evals.len() / 2);
        self.variables -= 1;
    }
}

// The weights with one more coordinate, z, before the others: the first half, for its digit 0, and the
// second half, for its digit 1. There is room for both.
pub(crate) fn push_weighted<A: Field>(weights: &mut Vec<A>, z: A)
    requires { vec_len weights.old + vec_len weights.old ≤ vec_capacity weights.old }
    ensures room { vec_capacity weights.new ≡ vec_capacity weights.old }
    ensures size { length weights.new.items ≡ length weights.old.items + length weights.old.items }
    ensures low { (b : ℕ) → b < length weights.old.items →
        entries A.number weights.new.items b ≡ entries A.number weights.old.items b -⟨ A.ops ⟩ entries A.number weights.old.items b *⟨ A.ops ⟩ A.number z }
    ensures high { (b : ℕ) → b < length weights.old.items →
        entries A.number weights.new.items (length weights.old.items + b) ≡ entries A.number weights.old.items b *⟨ A.ops ⟩ A.number z }
{
    let half = weights.len();
    for b in 0..half {
        let high = weights[b].mul(z);
        weights[b] = weights[b].sub(high);
        weights.push_reserved(high);
    }
}

// Each row goes to the next one, and the last one, which has no next, is added to itself. Row 0 becomes zero.
fn move_rows_up<A: Field>(rows: &mut [A])
    requires { 0 < length rows.old }
    ensures { (b : ℕ) → b < length rows.old → entries A.number rows.new b
        ≡ shifted 0 (entries A.number rows.old) b +⟨ A.ops ⟩ only_at (length rows.old - 1) (entries A.number rows.old) b }
{
    let last = rows.len() - 1;
    rows.rotate_right(1);
    let stays = rows[0];
    rows[0] = A::ZERO;
    rows[last] = rows[last].add(stays);
}

// So many rows of the first half, from `from` on, become lo + (hi - lo) r over the two halves.
pub(crate) fn bind_halves<A: Algebra<Ch>, Ch: Field>(
    evals: &mut [A],
    half: usize,
    from: usize,
    rows: usize,
    r: Ch,
)
    requires within { from + rows ≤ half }
    requires size { half + half ≤ length evals.old }
    ensures { HasWritten A.number (bound A.ops half (A.embedding (Ch.number r)) (entries A.number evals.old)) from rows evals.old evals.new }
{
    for b in 0..rows {
        let lo = evals[from + b];
        let hi = evals[half + (from + b)];
        evals[from + b] = lo.add(hi.sub(lo).mul_base(r));
    }
}

// So many rows, from `from` on, become lo + (hi - lo) r over neighbours: row b over rows 2b and 2b + 1, which no write before it has reached.
pub(crate) fn bind_pairs<A: Algebra<Ch>, Ch: Field>(
    evals: &mut [A],
    from: usize,
    rows: usize,
    r: Ch,
)
    requires { 2 * (from + rows) ≤ length evals.old }
    ensures { HasWritten A.number (bound_low A.ops (A.embedding (Ch.number r)) (entries A.number evals.old)) from rows evals.old evals.new }
{
    for b in 0..rows {
        let lo = evals[2 * (from + b)];
        let hi = evals[2 * (from + b) + 1];
        evals[from + b] = lo.add(hi.sub(lo).mul_base(r));
    }
}
