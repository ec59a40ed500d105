//! Claims on one table, and the small-value rounds of all of them.

ghost use Rattle.std.specs.Prelude.{◌≡◌, ℕ, ◌+◌, ◌^◌, ◌<◌, ◌≤◌, [], ◌∷◌, List, length, map, get_or, IfOk};
ghost use Rattle.sc_definitions.specs.Tables.{entries, point_of};
ghost use Rattle.sc_definitions.specs.Grids.{grids_of, read_message};
ghost use Rattle.sc_definitions.specs.Combined.{combined_weight};
ghost use Rattle.sc_table.specs.Polys.{table_of, variables_of};
ghost use Rattle.sc_table.specs.Strategy.{order_of};
ghost use Rattle.sc_partials.specs.Sums.{sums_shown};
ghost use Rattle.sc_svo.specs.Claims.{AreOn, FitsTable, claims_in, true_values_of};
ghost use Rattle.sc_svo.specs.Grids.{AreSized, most_rounds, grids_shown};
ghost use Rattle.sc_svo.specs.Bound.{IsBoundTable};

use crate::claims::{SvoClaim, add_bound, add_claim, claim_value};
use crate::grid::{Grids, into_grids};
use crate::together::{add_weighted, take_less_together};
use sc_field::{ExtensionField, Field, NoMemory, with_room};
use sc_partials::{Sums, empty_sums};
use sc_table::{
    Point, Poly, RoundMessage, SplitEq, VariableOrder, dot_slices, lagrange_weights_01inf_multi,
};
use std::alloc::Global;
use std::marker::PhantomData;

/// The greatest number of rounds that are built from grids. The last of so many has 3^11 = 177,147
/// places in each of its two lists, and each round more would have three times as many.
pub const MOST_ROUNDS: usize = 12;

/// Claims on one table, and the grids of the rounds that are built from its small values. It keeps
/// no table.
#[derive(Drop)]
pub struct SvoBatch<F: Field, EF: ExtensionField<F>> {
    order: VariableOrder,
    variables: usize,
    claims: Vec<SvoClaim<EF>>,
    grids: Grids<EF>,
    base: PhantomData<F>,
    ghost few: { variables ≤ 40 },
    ghost within: { length grids.rounds ≤ variables },
    ghost on: { AreOn variables claims.items },
    ghost sized: { AreSized grids },
}

impl<F: Field, EF: ExtensionField<F>> SvoBatch<F, EF> {
    ghost use Rattle.sc_svo.specs.Batches.{batch_in, IsMadeOn, IsTableOf, honest_of};
    ghost use Rattle.sc_svo.specs.Batches.{IsBoundBy, IsPlacedBy};

    /// The batch of these claims on a table, with the grids of `l0` rounds: at least one, at most
    /// [`MOST_ROUNDS`], and at most as many as there are variables, of which there are at most 40.
    ///
    /// Of few claims the grids are made claim by claim: it takes one pass over the table for each
    /// claim on a value at a point, and two for each one through the successor map in suffix order.
    /// Of many they are made of all weights added up, where that takes fewer products: a pass more
    /// for each claim, and then no more for many than for few. `NoMemory` comes where there is none
    /// for the grids, for copies of the claims, for those weights, or for what is summed on the way.
    pub fn new(
        alloc: Global,
        order: VariableOrder,
        table: &Poly<F>,
        claims: &[SvoClaim<EF>],
        l0: usize,
    ) -> Result<Self, NoMemory>
        requires some { 0 < l0 }
        requires few { l0 ≤ most_rounds }
        requires within { l0 ≤ variables_of table.now }
        requires variables { variables_of table.now ≤ 40 }
        requires on { AreOn (variables_of table.now) claims.now }
        ensures arity { IfOk result (λ s. (batch_in s).variables ≡ variables_of table.now) }
        ensures batch { IfOk result (λ s. IsMadeOn EF.ops (order_of order)
            (λ b. EF.embedding (table_of F.number table.now b)) (2 ^ variables_of table.now)
            (claims_in EF.number claims.now) l0 (batch_in s)) }
    {
        let (batch, _values) = Self::with_values(alloc, order, table.as_slice(), claims, l0)?;
        Ok(batch)
    }

    /// The batch that [`SvoBatch::new`] makes, and beside it the values that the claims are on, in
    /// their order, which are found on the way to the grids. The table is lent as a slice, since a
    /// job's is never copied.
    pub fn with_values(
        alloc: Global,
        order: VariableOrder,
        table: &[F],
        claims: &[SvoClaim<EF>],
        l0: usize,
    ) -> Result<(Self, Vec<EF>), NoMemory>
        requires some { 0 < l0 }
        requires few { l0 ≤ most_rounds }
        requires fits { FitsTable (length table.now) l0 claims.now }
        ensures batch { IfOk result (λ r. IsMadeOn EF.ops (order_of order)
            (λ b. EF.embedding (entries F.number table.now b)) (length table.now)
            (claims_in EF.number claims.now) l0 (batch_in r.0)) }
        ensures values { IfOk result (λ r. map EF.number r.1.items
            ≡ true_values_of EF.ops (batch_in r.0).variables
            (λ b. EF.embedding (entries F.number table.now b)) (claims_in EF.number claims.now)) }
    {
        let (sums, values) = gathered::<F, EF>(alloc, order, table, claims, l0)?;
        let claims = copied(alloc, claims)?;
        let batch = SvoBatch {
            order,
            variables: table.len().trailing_zeros() as usize,
            claims,
            grids: into_grids(alloc, sums)?,
            base: PhantomData,
        };
        Ok((batch, values))
    }

    /// The grids, one a round.
    pub fn grids(&self) -> &Grids<EF>
        ensures { grids_shown EF.number result.now ≡ (batch_in self.now).grids }
    {
        &self.grids
    }

    /// The grids, in the memory that the batch had for them.
    pub fn into_grids(self) -> Grids<EF>
        ensures { grids_shown EF.number result ≡ (batch_in self).grids }
    {
        let SvoBatch {
            order: _,
            variables: _,
            claims: _,
            grids,
            base: _,
        } = self;
        grids
    }

    /// What the round after these challenges sends, of which there are fewer than small-value
    /// rounds: read off its grid, it is what an honest round sends of every table that has these
    /// grids with the claims. `NoMemory` comes where there is none for the weights of the grid's
    /// places.
    pub fn round_coefficients(&self, alloc: Global, rs: &[EF]) -> Result<RoundMessage<EF>, NoMemory>
        requires { length rs.now < length (batch_in self.now).grids }
        ensures honest { IfOk result (λ m. (f : ℕ → ℕ) → IsTableOf EF.ops (batch_in self.now) f →
            EF.number m.c_a ∷ EF.number m.c_inf ∷ []
            ≡ honest_of EF.ops (batch_in self.now) f (map EF.number rs.now)) }
        ensures read { IfOk result (λ m. (d : List ℕ × List ℕ) →
            EF.number m.c_a ∷ EF.number m.c_inf ∷ [] ≡ read_message EF.ops
            (get_or (batch_in self.now).grids (length rs.now) d) (map EF.number rs.now)) }
    {
        let weights = lagrange_weights_01inf_multi(alloc, rs)?;
        let grid = &self.grids.rounds.as_slice()[rs.len()];
        Ok(RoundMessage {
            c_a: dot_slices::<EF, EF>(grid.zero.as_slice(), &weights),
            c_inf: dot_slices::<EF, EF>(grid.infinity.as_slice(), &weights),
        })
    }

    /// What the small-value rounds leave: the given table, of as many rows as the batch's had, and
    /// the weights of all claims, both with the variables of these rounds bound at their
    /// challenges, of which there is one for each round, in drawing order: each entry is the
    /// original table's with all challenges placed. `NoMemory` comes where there is none for the
    /// two tables, or for what is summed on the way.
    pub fn residual(
        &self,
        alloc: Global,
        table: &Poly<F>,
        rs: &[EF],
    ) -> Result<(Poly<EF>, Poly<EF>), NoMemory>
        requires table { variables_of table.now ≡ (batch_in self.now).variables }
        requires challenges { length rs.now ≡ length (batch_in self.now).grids }
        ensures evals { IfOk result (λ p. IsBoundBy EF.ops EF.number (batch_in self.now)
            (λ b. EF.embedding (table_of F.number table.now b)) (map EF.number rs.now) p.0) }
        ensures weights { IfOk result (λ p. IsBoundBy EF.ops EF.number (batch_in self.now)
            (combined_weight EF.ops (batch_in self.now).claims) (map EF.number rs.now) p.1) }
        ensures placed_evals { IfOk result (λ p. IsPlacedBy EF.ops EF.number (batch_in self.now)
            (λ b. EF.embedding (table_of F.number table.now b)) (map EF.number rs.now) p.0) }
        ensures placed_weights { IfOk result (λ p. IsPlacedBy EF.ops EF.number (batch_in self.now)
            (combined_weight EF.ops (batch_in self.now).claims) (map EF.number rs.now) p.1) }
    {
        self.residual_slice(alloc, table.as_slice(), rs)
    }

    /// What [`SvoBatch::residual`] answers, of a table that is lent as a slice, since a job's is
    /// never copied.
    pub fn residual_slice(
        &self,
        alloc: Global,
        table: &[F],
        rs: &[EF],
    ) -> Result<(Poly<EF>, Poly<EF>), NoMemory>
        requires table { length table.now ≡ 2 ^ (batch_in self.now).variables }
        requires challenges { length rs.now ≡ length (batch_in self.now).grids }
        ensures evals { IfOk result (λ p. IsBoundBy EF.ops EF.number (batch_in self.now)
            (λ b. EF.embedding (entries F.number table.now b)) (map EF.number rs.now) p.0) }
        ensures weights { IfOk result (λ p. IsBoundBy EF.ops EF.number (batch_in self.now)
            (combined_weight EF.ops (batch_in self.now).claims) (map EF.number rs.now) p.1) }
        ensures placed_evals { IfOk result (λ p. IsPlacedBy EF.ops EF.number (batch_in self.now)
            (λ b. EF.embedding (entries F.number table.now b)) (map EF.number rs.now) p.0) }
        ensures placed_weights { IfOk result (λ p. IsPlacedBy EF.ops EF.number (batch_in self.now)
            (combined_weight EF.ops (batch_in self.now).claims) (map EF.number rs.now) p.1) }
    {
        let point = point_at(alloc, self.order, rs)?;
        let evals = bound_table::<F, EF>(alloc, self.order, &point, table)?;
        let weights = weights_at::<F, EF>(alloc, self.order, self.variables, &self.claims, &point)?;
        Ok((evals, weights))
    }
}

// The weights of claims at points of so many coordinates, each times its claim's coefficient, with
// the variables that are bound first bound at a point, which has a coordinate for each of them.
fn weights_at<F: Field, EF: ExtensionField<F>>(
    alloc: Global,
    order: VariableOrder,
    variables: usize,
    claims: &[SvoClaim<EF>],
    point: &Point<EF>,
) -> Result<Poly<EF>, NoMemory>
    requires few { variables ≤ 40 }
    requires on { AreOn variables claims.now }
    requires point { length point.now ≤ variables }
    ensures { (rs : List ℕ) → map EF.number point.now ≡ point_of (order_of order) rs → IfOk result
        (IsBoundTable EF.ops EF.number (order_of order)
        (combined_weight EF.ops (claims_in EF.number claims.now)) (2 ^ variables) rs) }
{
    let left = variables - point.num_variables();
    let mut rows = Poly::zero(alloc, left)?.into_evals();
    for claim in claims {
        add_bound::<F, EF>(alloc, order, claim, point, &mut rows)?;
    }
    Ok(Poly::new(rows))
}

// The grids of a table with the weights of all claims, as sums, and the values that the claims are
// on: by the way of fewer products.
fn gathered<F: Field, EF: ExtensionField<F>>(
    alloc: Global,
    order: VariableOrder,
    table: &[F],
    claims: &[SvoClaim<EF>],
    l0: usize,
) -> Result<(Vec<Sums<EF>>, Vec<EF>), NoMemory>
    requires few { l0 ≤ most_rounds }
    requires fits { FitsTable (length table.now) l0 claims.now }
    ensures grids { (n : ℕ) → length table.now ≡ 2 ^ n → IfOk result (λ r. sums_shown EF.number r.0.items
        ≡ grids_of (order_of order) EF.ops n (entries (λ x. EF.embedding (F.number x)) table.now)
        (combined_weight EF.ops (claims_in EF.number claims.now)) l0) }
    ensures values { (n : ℕ) → length table.now ≡ 2 ^ n → IfOk result (λ r. map EF.number r.1.items
        ≡ true_values_of EF.ops n (entries (λ x. EF.embedding (F.number x)) table.now)
        (claims_in EF.number claims.now)) }
{
    if take_less_together(table.len(), claims, l0) {
        gathered_together(alloc, order, table, claims, l0)
    } else {
        gathered_apart(alloc, order, table, claims, l0)
    }
}

// The same, claim after claim.
fn gathered_apart<F: Field, EF: ExtensionField<F>>(
    alloc: Global,
    order: VariableOrder,
    table: &[F],
    claims: &[SvoClaim<EF>],
    l0: usize,
) -> Result<(Vec<Sums<EF>>, Vec<EF>), NoMemory>
    requires few { l0 ≤ most_rounds }
    requires fits { FitsTable (length table.now) l0 claims.now }
    ensures grids { (n : ℕ) → length table.now ≡ 2 ^ n → IfOk result (λ r. sums_shown EF.number r.0.items
        ≡ grids_of (order_of order) EF.ops n (entries (λ x. EF.embedding (F.number x)) table.now)
        (combined_weight EF.ops (claims_in EF.number claims.now)) l0) }
    ensures values { (n : ℕ) → length table.now ≡ 2 ^ n → IfOk result (λ r. map EF.number r.1.items
        ≡ true_values_of EF.ops n (entries (λ x. EF.embedding (F.number x)) table.now)
        (claims_in EF.number claims.now)) }
{
    let mut sums = empty_sums(alloc, l0)?;
    let mut values = with_room(alloc, claims.len())?;
    for claim in claims {
        values.push(add_claim::<F, EF>(alloc, order, table, claim, &mut sums)?)?;
    }
    Ok((sums, values))
}

// The same, of the weights of all claims added up.
fn gathered_together<F: Field, EF: ExtensionField<F>>(
    alloc: Global,
    order: VariableOrder,
    table: &[F],
    claims: &[SvoClaim<EF>],
    l0: usize,
) -> Result<(Vec<Sums<EF>>, Vec<EF>), NoMemory>
    requires few { l0 ≤ most_rounds }
    requires fits { FitsTable (length table.now) l0 claims.now }
    ensures grids { (n : ℕ) → length table.now ≡ 2 ^ n → IfOk result (λ r. sums_shown EF.number r.0.items
        ≡ grids_of (order_of order) EF.ops n (entries (λ x. EF.embedding (F.number x)) table.now)
        (combined_weight EF.ops (claims_in EF.number claims.now)) l0) }
    ensures values { (n : ℕ) → length table.now ≡ 2 ^ n → IfOk result (λ r. map EF.number r.1.items
        ≡ true_values_of EF.ops n (entries (λ x. EF.embedding (F.number x)) table.now)
        (claims_in EF.number claims.now)) }
{
    let values = claim_values::<F, EF>(alloc, order, table, claims)?;
    let variables = table.len().trailing_zeros() as usize;
    let origin = Point::new(Vec::new(alloc));
    let weights = weights_at::<F, EF>(alloc, order, variables, claims, &origin)?;
    let mut sums = empty_sums(alloc, l0)?;
    add_weighted(
        alloc,
        order,
        table,
        weights.as_slice(),
        variables,
        &mut sums,
    )?;
    Ok((sums, values))
}

// The values that the claims are on.
fn claim_values<F: Field, EF: ExtensionField<F>>(
    alloc: Global,
    order: VariableOrder,
    table: &[F],
    claims: &[SvoClaim<EF>],
) -> Result<Vec<EF>, NoMemory>
    requires { FitsTable (length table.now) 0 claims.now }
    ensures { (n : ℕ) → length table.now ≡ 2 ^ n → IfOk result (λ v. map EF.number v.items
        ≡ true_values_of EF.ops n (entries (λ x. EF.embedding (F.number x)) table.now)
        (claims_in EF.number claims.now)) }
{
    let mut values = with_room(alloc, claims.len())?;
    for claim in claims {
        values.push(claim_value::<F, EF>(alloc, order, table, claim)?)?;
    }
    Ok(values)
}

// Copies of these claims.
fn copied<EF: Field>(alloc: Global, claims: &[SvoClaim<EF>]) -> Result<Vec<SvoClaim<EF>>, NoMemory>
    ensures same { IfOk result (λ v. claims_in EF.number v.items ≡ claims_in EF.number claims.now) }
    ensures on { (n : ℕ) → AreOn n claims.now → IfOk result (λ v. AreOn n v.items) }
{
    let mut copies = with_room(alloc, claims.len())?;
    for claim in claims {
        copies.push(claim.copy(alloc)?)?;
    }
    Ok(copies)
}

// The point that challenges make, which are in drawing order: its coordinates are those of the
// variables that they bind.
fn point_at<EF: Field>(
    alloc: Global,
    order: VariableOrder,
    rs: &[EF],
) -> Result<Point<EF>, NoMemory>
    ensures { IfOk result (λ p. map EF.number p ≡ point_of (order_of order) (map EF.number rs.now)) }
{
    let mut coordinates = Vec::from_slice(alloc, rs)?;
    match order {
        VariableOrder::Prefix => Ok(Point::new(coordinates)),
        VariableOrder::Suffix => {
            coordinates.reverse();
            Ok(Point::new(coordinates))
        }
    }
}

// The table of a field's elements with the variables that are bound first bound at a point, which
// has a coordinate for each of them: all at once, in one pass over the table.
fn bound_table<F: Field, EF: ExtensionField<F>>(
    alloc: Global,
    order: VariableOrder,
    point: &Point<EF>,
    table: &[F],
) -> Result<Poly<EF>, NoMemory>
    requires few { length point.now ≤ 40 }
    requires size { (m : ℕ) × (length table.now ≡ 2 ^ (length point.now + m)) }
    ensures { (rs : List ℕ) → map EF.number point.now ≡ point_of (order_of order) rs → IfOk result
        (IsBoundTable EF.ops EF.number (order_of order)
        (entries (λ x. EF.embedding (F.number x)) table.now) (length table.now) rs) }
{
    let split = SplitEq::<F, EF>::new_unpacked(alloc, point, EF::ONE)?;
    match order {
        VariableOrder::Prefix => split.compress_prefix(alloc, table),
        VariableOrder::Suffix => split.compress_suffix(alloc, table),
    }
}
