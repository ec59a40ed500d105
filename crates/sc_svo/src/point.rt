//! A point whose first variables in binding order are left to small-value rounds.

ghost use Rattle.std.specs.Prelude.{◌≡◌, ℕ, ◌+◌, ◌^◌, ◌<◌, ◌≤◌, length, map, IfOk};
ghost use Rattle.sc_definitions.specs.Ring.{◌+⟨◌⟩◌, ◌*⟨◌⟩◌};
ghost use Rattle.sc_definitions.specs.Tables.{entries, equality_weight, value, digits};
ghost use Rattle.sc_table.specs.Polys.{variables_of, table_of};
ghost use Rattle.sc_table.specs.Strategy.{order_of};
ghost use Rattle.sc_table.specs.SplitEqs.{split_variables, split_weight};
ghost use Rattle.sc_partials.specs.Partials.{joined};

use sc_field::{ExtensionField, Field, NoMemory, with_room};
use sc_partials::{EqSvoPartials, push_partials};
use sc_table::{Point, Poly, SplitEq, VariableOrder};
use std::alloc::Global;

/// A point in two parts: the coordinates of the variables that small-value rounds bind, which are
/// the leading ones in prefix order and the trailing ones in suffix order, and the others, whose
/// equality weights stand as those of two halves.
#[derive(Drop)]
pub struct SvoPoint<F: Field, EF: ExtensionField<F>> {
    pub(crate) order: VariableOrder,
    pub(crate) near: Point<EF>,
    pub(crate) far: Point<EF>,
    pub(crate) split: SplitEq<F, EF>,
    ghost few: { length near + length far ≤ 40 },
    ghost sized: { split_variables split ≡ length far },
    ghost weighs: { (b : ℕ) → b < 2 ^ length far →
        split_weight EF.number EF.ops split b ≡ equality_weight EF.ops (map EF.number far) b },
}

impl<F: Field, EF: ExtensionField<F>> SvoPoint<F, EF> {
    ghost use Rattle.sc_partials.specs.Partials.{IsPartial, partial_sums_in, partial_sums_of};
    ghost use Rattle.sc_svo.specs.Points.{point_in, near_in, far_in, order_in};

    /// The point, with as many coordinates for the small-value rounds as `l0` says, at most all of
    /// them, which are at most 40; `NoMemory` where there is none for a copy and for the weights.
    pub fn new_unpacked(
        alloc: Global,
        l0: usize,
        point: &Point<EF>,
        var_order: VariableOrder,
    ) -> Result<Self, NoMemory>
        requires within { l0 ≤ length point.now }
        requires few { length point.now ≤ 40 }
        ensures order { IfOk result (λ p. order_in p ≡ order_of var_order) }
        ensures near { IfOk result (λ p. length (near_in p) ≡ l0) }
        ensures point { IfOk result (λ p. point_in p ≡ map EF.number point.now) }
    {
        let (near, far) = parts_of(alloc, l0, point, var_order)?;
        let split = SplitEq::new_unpacked(alloc, &far, EF::ONE)?;
        Ok(SvoPoint {
            order: var_order,
            near,
            far,
            split,
        })
    }

    /// How many variables the small-value rounds bind.
    pub fn num_variables_svo(&self) -> usize
        ensures { result ≡ length (near_in self.now) }
    {
        self.near.num_variables()
    }

    /// How many coordinates the point has.
    pub fn num_variables(&self) -> usize
        ensures { result ≡ length (point_in self.now) }
    {
        self.near.num_variables() + self.far.num_variables()
    }

    /// The coordinates of the variables that the small-value rounds bind, as they stand in the
    /// point.
    pub fn z_svo(&self) -> &Point<EF>
        ensures { map EF.number result.now ≡ near_in self.now }
    {
        &self.near
    }

    /// The equality weights of the other coordinates.
    pub fn z_split(&self) -> &SplitEq<F, EF>
        ensures size { split_variables result.now ≡ length (far_in self.now) }
        ensures weights { (b : ℕ) → b < 2 ^ length (far_in self.now) →
            split_weight EF.number EF.ops result.now b
            ≡ equality_weight EF.ops (far_in self.now) b }
    {
        &self.split
    }

    /// In which order the variables are bound.
    pub fn var_order(&self) -> VariableOrder
        ensures { order_of result ≡ order_in self.now }
    {
        self.order
    }

    /// Adds `scale` times the equality weights of the whole point, with the variables of the
    /// small-value rounds bound at `rs`, which stand in the order of the point's coordinates. `rs`
    /// has a coordinate for each of them, and `out` a row for each choice of the others.
    pub fn accumulate_into(&self, out: &mut [EF], rs: &Point<EF>, scale: EF)
        requires size { length out.old ≡ 2 ^ length (far_in self.now) }
        requires bound { length rs.now ≡ length (near_in self.now) }
        ensures { (b : ℕ) → b < length out.old → entries EF.number out.new b ≡ entries EF.number out.old b
            +⟨ EF.ops ⟩ EF.number scale
            *⟨ EF.ops ⟩ value EF.ops (equality_weight EF.ops (point_in self.now))
            (joined (order_in self.now) (map EF.number rs.now) (digits (length (far_in self.now)) b)) }
    {
        let bound = Point::eval_eq(self.near.as_slice(), rs.as_slice());
        self.split.accumulate_into(out, Some(scale.mul(bound)));
    }

    /// The value of a table at the point, and its partial tables for each small-value round. The
    /// table has as many variables as the point. `NoMemory` comes where there is none for the
    /// partial tables.
    pub fn eval(&self, alloc: Global, poly: &Poly<F>) -> Result<(EF, EqSvoPartials<EF>), NoMemory>
        requires { variables_of poly.now ≡ length (point_in self.now) }
        ensures { IfOk result (λ r. partial_sums_in EF.number r
            ≡ partial_sums_of (order_in self.now) EF.ops (λ b. EF.embedding (table_of F.number poly.now b))
            (point_in self.now) (length (near_in self.now))) }
    {
        self.eval_slice(alloc, poly.as_slice())
    }

    /// What [`SvoPoint::eval`] answers, of the table that a slice holds.
    pub fn eval_slice(&self, alloc: Global, rows: &[F]) -> Result<(EF, EqSvoPartials<EF>), NoMemory>
        requires { length rows.now ≡ 2 ^ length (point_in self.now) }
        ensures { IfOk result (λ r. partial_sums_in EF.number r
            ≡ partial_sums_of (order_in self.now) EF.ops (entries (λ x. EF.embedding (F.number x)) rows.now)
            (point_in self.now) (length (near_in self.now))) }
    {
        let table = self.compress(alloc, rows)?;
        let mut rounds = with_room(alloc, self.near.num_variables())?;
        let value = push_partials(alloc, self.order, table, self.near.as_slice(), &mut rounds)?;
        Ok((value, EqSvoPartials::new(rounds)))
    }

    // The table summed over the variables that no small-value round binds.
    pub(crate) fn compress(&self, alloc: Global, rows: &[F]) -> Result<Poly<EF>, NoMemory>
        requires { length rows.now ≡ 2 ^ length (point_in self.now) }
        ensures { IfOk result (IsPartial (order_in self.now) EF.ops EF.number
            (entries (λ x. EF.embedding (F.number x)) rows.now) (point_in self.now) (near_in self.now)) }
    {
        match self.order {
            VariableOrder::Prefix => self.split.compress_suffix(alloc, rows),
            VariableOrder::Suffix => self.split.compress_prefix(alloc, rows),
        }
    }
}

// The coordinates of the variables that are bound first, as many as `l0` says, and those of the
// others.
fn parts_of<EF: Field>(
    alloc: Global,
    l0: usize,
    point: &Point<EF>,
    order: VariableOrder,
) -> Result<(Point<EF>, Point<EF>), NoMemory>
    requires { l0 ≤ length point.now }
    ensures near { IfOk result (λ p. length p.0 ≡ l0) }
    ensures whole { IfOk result (λ p. joined (order_of order) p.0 p.1 ≡ point.now) }
{
    match order {
        VariableOrder::Prefix => point.split_at(alloc, l0),
        VariableOrder::Suffix => {
            let (far, near) = point.split_at(alloc, point.num_variables() - l0)?;
            Ok((near, far))
        }
    }
}
