//! Values through the successor map at a point in two parts, and its successor weights.

ghost use Rattle.std.specs.Prelude.{◌≡◌, ℕ, ◌+◌, ◌*◌, ◌^◌, ◌<◌, length, map, IfOk, IfSome};
ghost use Rattle.sc_definitions.specs.Ring.{◌+⟨◌⟩◌, ◌*⟨◌⟩◌};
ghost use Rattle.sc_definitions.specs.Tables.{prefix, suffix, entries, value, digits};
ghost use Rattle.sc_definitions.specs.Shifts.{only_at};
ghost use Rattle.sc_definitions.specs.Statements.{successor_weight};
ghost use Rattle.sc_table.specs.Polys.{variables_of, table_of};
ghost use Rattle.sc_partials.specs.Partials.{joined};
ghost use Rattle.sc_partials.specs.NextPartials.{HasRows, AreOf};

use crate::point::SvoPoint;
use sc_field::{ExtensionField, Field, NoMemory, with_room};
use sc_partials::{NextPartials, NextSvoPartials, push_next_partials};
use sc_table::{Point, Poly, VariableOrder};
use std::alloc::Global;

impl<F: Field, EF: ExtensionField<F>> SvoPoint<F, EF> {
    ghost use Rattle.sc_partials.specs.Partials.{IsPartial};
    ghost use Rattle.sc_partials.specs.NextPartials.{AreNextPartials, next_sums_in, next_sums_of};
    ghost use Rattle.sc_svo.specs.Points.{point_in, near_in, far_in, order_in};

    /// In prefix order, the value of a table through the successor map at the point, and its three
    /// tables for each small-value round. The table has as many variables as the point.
    pub fn eval_next_prefix(
        &self,
        alloc: Global,
        poly: &Poly<F>,
    ) -> Result<(EF, NextSvoPartials<EF>), NoMemory>
        requires order { order_in self.now ≡ prefix }
        requires arity { variables_of poly.now ≡ length (point_in self.now) }
        ensures { IfOk result (λ r. next_sums_in EF.number r
            ≡ next_sums_of prefix EF.ops (λ b. EF.embedding (table_of F.number poly.now b))
            (point_in self.now) (length (near_in self.now))) }
    {
        let tables = self.tables_prefix(alloc, poly.as_slice())?;
        self.summed(alloc, tables)
    }

    /// In suffix order, the value of a table through the successor map at the point, and its three
    /// tables for each small-value round. The table has as many variables as the point. Where
    /// `d_eq` is given, it is the table that [`SvoPoint::z_split`] makes of the given one by
    /// [`sc_table::SplitEq::compress_prefix`], which then is not made again.
    pub fn eval_next_suffix(
        &self,
        alloc: Global,
        poly: &Poly<F>,
        d_eq: Option<&Poly<EF>>,
    ) -> Result<(EF, NextSvoPartials<EF>), NoMemory>
        requires order { order_in self.now ≡ suffix }
        requires arity { variables_of poly.now ≡ length (point_in self.now) }
        requires given { IfSome d_eq (λ d. IsPartial suffix EF.ops EF.number
            (λ b. EF.embedding (table_of F.number poly.now b)) (point_in self.now)
            (near_in self.now) d.now) }
        ensures { IfOk result (λ r. next_sums_in EF.number r
            ≡ next_sums_of suffix EF.ops (λ b. EF.embedding (table_of F.number poly.now b))
            (point_in self.now) (length (near_in self.now))) }
    {
        let rows = poly.as_slice();
        let done = self.given_or_made(alloc, rows, d_eq)?;
        let tables = self.tables_suffix(alloc, rows, done)?;
        self.summed(alloc, tables)
    }

    /// In the point's own order, what [`SvoPoint::eval_next_prefix`] or
    /// [`SvoPoint::eval_next_suffix`] answers, of the table that a slice holds.
    pub fn eval_next_slice(
        &self,
        alloc: Global,
        rows: &[F],
    ) -> Result<(EF, NextSvoPartials<EF>), NoMemory>
        requires { length rows.now ≡ 2 ^ length (point_in self.now) }
        ensures { IfOk result (λ r. next_sums_in EF.number r ≡ next_sums_of (order_in self.now)
            EF.ops (entries (λ x. EF.embedding (F.number x)) rows.now) (point_in self.now)
            (length (near_in self.now))) }
    {
        match self.order {
            VariableOrder::Prefix => {
                let tables = self.tables_prefix(alloc, rows)?;
                self.summed(alloc, tables)
            }
            VariableOrder::Suffix => {
                let done = self.compress(alloc, rows)?;
                let tables = self.tables_suffix(alloc, rows, done)?;
                self.summed(alloc, tables)
            }
        }
    }

    // The partial table of the last round: a copy of the given one, or else made of the table.
    fn given_or_made(
        &self,
        alloc: Global,
        rows: &[F],
        given: Option<&Poly<EF>>,
    ) -> Result<Poly<EF>, NoMemory>
        requires { length rows.now ≡ 2 ^ length (point_in self.now) }
        ensures { IfSome given.entry (λ d. IsPartial (order_in self.now) EF.ops EF.number
            (entries (λ x. EF.embedding (F.number x)) rows.now) (point_in self.now)
            (near_in self.now) d.now) → IfOk result (IsPartial (order_in self.now) EF.ops EF.number
            (entries (λ x. EF.embedding (F.number x)) rows.now) (point_in self.now)
            (near_in self.now)) }
    {
        match given {
            Some(table) => Ok(table.copy(alloc)?),
            None => self.compress(alloc, rows),
        }
    }

    // The value and the tables of all rounds, by those of the last one.
    fn summed(
        &self,
        alloc: Global,
        tables: NextPartials<EF>,
    ) -> Result<(EF, NextSvoPartials<EF>), NoMemory>
        requires { AreOf (length (near_in self.now)) tables }
        ensures { (f : ℕ → ℕ) → AreNextPartials (order_in self.now) EF.ops EF.number f
            (point_in self.now) (near_in self.now) tables → IfOk result (λ r. next_sums_in EF.number r
            ≡ next_sums_of (order_in self.now) EF.ops f (point_in self.now)
            (length (near_in self.now))) }
    {
        let mut rounds = with_room(alloc, self.near.num_variables())?;
        let near = self.near.as_slice();
        let value = push_next_partials(alloc, self.order, tables, near, &mut rounds)?;
        Ok((value, NextSvoPartials::new(rounds)))
    }

    // In prefix order, the tables of the last round.
    fn tables_prefix(&self, alloc: Global, rows: &[F]) -> Result<NextPartials<EF>, NoMemory>
        requires order { order_in self.now ≡ prefix }
        requires rows { length rows.now ≡ 2 ^ length (point_in self.now) }
        ensures { IfOk result (AreNextPartials prefix EF.ops EF.number
            (entries (λ x. EF.embedding (F.number x)) rows.now) (point_in self.now)
            (near_in self.now)) }
    {
        let (kept, behind) = (
            1 << self.near.num_variables(),
            1 << self.far.num_variables(),
        );
        let last = self.split.last_scalar();
        Ok(NextPartials {
            done: self.split.compress_suffix_shifted(alloc, rows)?,
            carry: every(alloc, rows, 0, behind, kept, last)?,
            omega: every(alloc, rows, behind - 1, behind, kept, last)?,
        })
    }

    // The same in suffix order, of which one is given.
    fn tables_suffix(
        &self,
        alloc: Global,
        rows: &[F],
        done: Poly<EF>,
    ) -> Result<NextPartials<EF>, NoMemory>
        requires order { order_in self.now ≡ suffix }
        requires rows { length rows.now ≡ 2 ^ length (point_in self.now) }
        ensures { IsPartial suffix EF.ops EF.number
            (entries (λ x. EF.embedding (F.number x)) rows.now) (point_in self.now)
            (near_in self.now) done → IfOk result (AreNextPartials suffix EF.ops EF.number
            (entries (λ x. EF.embedding (F.number x)) rows.now) (point_in self.now)
            (near_in self.now)) }
    {
        let kept = 1 << self.near.num_variables();
        let last = self.split.last_scalar();
        Ok(NextPartials {
            done,
            carry: self.split.compress_prefix_shifted(alloc, rows)?,
            omega: every(alloc, rows, rows.len() - kept, 1, kept, last)?,
        })
    }

    /// In prefix order, adds `scale` times the successor weights of the whole point, with the
    /// variables of the small-value rounds bound at `rs`, which stand in the order of the point's
    /// coordinates.
    pub fn accumulate_next_prefix_into(&self, out: &mut [EF], rs: &Point<EF>, scale: EF)
        requires order { order_in self.now ≡ prefix }
        requires size { length out.old ≡ 2 ^ length (far_in self.now) }
        requires bound { length rs.now ≡ length (near_in self.now) }
        ensures { (b : ℕ) → b < length out.old → entries EF.number out.new b
            ≡ entries EF.number out.old b +⟨ EF.ops ⟩ EF.number scale *⟨ EF.ops ⟩
            value EF.ops (successor_weight EF.ops (point_in self.now))
            (joined prefix (map EF.number rs.now) (digits (length (far_in self.now)) b)) }
    {
        let (near, at) = (self.near.as_slice(), rs.as_slice());
        let (_carry, done, omega) = Point::eval_next(near, at);
        let equal = Point::eval_eq(near, at);
        self.split
            .accumulate_shifted_into(out, Some(scale.mul(equal)));
        let last_weight = scale.mul(self.split.last_scalar());
        let last = out.len() - 1;
        add_at(out, 0, last_weight.mul(done));
        add_at(out, last, last_weight.mul(omega));
    }

    /// In suffix order, adds `scale` times the successor weights of the whole point, with the
    /// variables of the small-value rounds bound at `rs`, which stand in the order of the point's
    /// coordinates.
    pub fn accumulate_next_suffix_into(&self, out: &mut [EF], rs: &Point<EF>, scale: EF)
        requires order { order_in self.now ≡ suffix }
        requires size { length out.old ≡ 2 ^ length (far_in self.now) }
        requires bound { length rs.now ≡ length (near_in self.now) }
        ensures { (b : ℕ) → b < length out.old → entries EF.number out.new b
            ≡ entries EF.number out.old b +⟨ EF.ops ⟩ EF.number scale *⟨ EF.ops ⟩
            value EF.ops (successor_weight EF.ops (point_in self.now))
            (joined suffix (map EF.number rs.now) (digits (length (far_in self.now)) b)) }
    {
        let (carry, done, omega) = Point::eval_next(self.near.as_slice(), rs.as_slice());
        self.split.accumulate_into(out, Some(scale.mul(done)));
        self.split
            .accumulate_shifted_into(out, Some(scale.mul(carry)));
        let last_weight = scale.mul(self.split.last_scalar());
        let last = out.len() - 1;
        add_at(out, last, last_weight.mul(omega));
    }
}

// Adds a value to one row.
fn add_at<EF: Field>(rows: &mut [EF], row: usize, gain: EF)
    requires { row < length rows.old }
    ensures { (b : ℕ) → b < length rows.old → entries EF.number rows.new b
        ≡ entries EF.number rows.old b +⟨ EF.ops ⟩ only_at row (λ k. EF.number gain) b }
{
    rows[row] = rows[row].add(gain);
}

// So many rows of a table, from one on and each so many after the one before it, times a factor.
// Their number is a power of two.
fn every<F: Field, EF: ExtensionField<F>>(
    alloc: Global,
    rows: &[F],
    from: usize,
    step: usize,
    count: usize,
    factor: EF,
) -> Result<Poly<EF>, NoMemory>
    requires within { (a : ℕ) → a < count → from + a * step < length rows.now }
    requires power { (m : ℕ) × (count ≡ 2 ^ m) }
    ensures { (m : ℕ) → count ≡ 2 ^ m → IfOk result (HasRows EF.number m
        (λ a. EF.number factor *⟨ EF.ops ⟩ entries (λ x. EF.embedding (F.number x)) rows.now (from + a * step))) }
{
    let mut kept = Vec::with_capacity(alloc, count)?;
    for a in 0..count {
        kept.push_reserved(factor.mul_base(rows[from + a * step]));
    }
    Ok(Poly::new(kept))
}
