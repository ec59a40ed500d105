//! The holder of a table.
ghost use Rattle.std.specs.Prelude.{◌≡◌, ◌≤◌, ◌^◌, ℕ, All, IfOk, OnErr, length, map, replicate};
ghost use Rattle.sc_definitions.specs.Tables.{entries, value};
ghost use Rattle.sc_definitions.specs.Statements.{true_value};
ghost use Rattle.sc_table.specs.Polys.{variables_of, table_of};
ghost use Rattle.sc_table.specs.Strategy.{order_of};
ghost use Rattle.sc_svo.specs.Points.{point_in, near_in, order_in};
ghost use Rattle.sc_layout.specs.Openings.{Laid, IsSound, KeepsTable, laid_at};
ghost use Rattle.sc_layout.specs.Openings.{Opens, OpensVirtual, OpensNothing};
ghost use Rattle.sc_layout.specs.Openings.{current_at, next_at, none_recorded};
ghost use Rattle.sc_layout.specs.Openings.{statements_of, HaveArity, AreTrue};
ghost use Rattle.sc_layout.specs.Requests.{asked_in, values_in};
ghost use Rattle.sc_layout.specs.Books.{concrete_in, prover_recorded};
ghost use Rattle.sc_layout.specs.Kept.{HasSums, HasNextSums, KeepsPartials};

use crate::book::{Book, ClaimBook};
use crate::drawn::draw_point;
use crate::layout::Layout;
use crate::multi_claim::ProverMultiClaim;
use crate::request::{OpeningEvals, OpeningRequest};
use sc_challenger::Challenger;
use sc_field::{ExtensionField, Field, NoMemory, with_room};
use sc_memory::Row;
use sc_statements::Claim;
use sc_svo::{EqSvoPartials, NextSvoPartials, SvoPoint};
use sc_table::{Point, Poly, VariableOrder};
use std::alloc::Global;
use std::marker::PhantomData;

/// An order in which rounds bind variables, as a type.
pub trait BindingOrder: Drop {
    ghost use Rattle.sc_definitions.specs.Tables.{Order};

    // The order.
    ghost binds: { Order };

    /// The order.
    fn variable_order() -> VariableOrder
        ensures { order_of result ≡ binds };
}

/// The first variable is bound first.
#[derive(Drop)]
pub struct PrefixFirst;

/// The last variable is bound first.
#[derive(Drop)]
pub struct SuffixFirst;

impl BindingOrder for PrefixFirst {
    ghost use Rattle.sc_definitions.specs.Tables.{prefix};

    ghost binds = { prefix };

    fn variable_order() -> VariableOrder {
        VariableOrder::Prefix
    }
}

impl BindingOrder for SuffixFirst {
    ghost use Rattle.sc_definitions.specs.Tables.{suffix};

    ghost binds = { suffix };

    fn variable_order() -> VariableOrder {
        VariableOrder::Suffix
    }
}

/// A table, and what was answered of it. Rounds over it bind its variables in the order `O`.
#[derive(Drop)]
pub struct TableProver<F: Field, EF: ExtensionField<F>, O: BindingOrder> {
    alloc: Global,
    folding: usize,
    table: Poly<F>,
    claims: ClaimBook<F, EF>,
    of: PhantomData<O>,
    ghost some: { 1 ≤ folding },
    ghost few: { folding ≤ 12 },
    ghost within: { folding ≤ variables_of table },
    ghost variables: { variables_of table ≤ 40 },
    ghost arity: { HaveArity (variables_of table) (statements_of (prover_recorded claims)) },
    ghost truth: { AreTrue EF.ops (variables_of table)
        (λ b. EF.embedding (table_of F.number table b)) (statements_of (prover_recorded claims)) },
    ghost kept: { All (KeepsPartials EF.ops O.binds folding
        (λ b. EF.embedding (table_of F.number table b))) (concrete_in claims) },
}

/// A table whose first variable is bound first.
pub type PrefixProver<F, EF> = TableProver<F, EF, PrefixFirst>;

/// A table whose last variable is bound first.
pub type SuffixProver<F, EF> = TableProver<F, EF, SuffixFirst>;

impl<F: Field, EF: ExtensionField<F>, O: BindingOrder> TableProver<F, EF, O> {
    ghost use Rattle.sc_layout.specs.Provers.{laid_by};
    ghost use Rattle.sc_layout.specs.Claimed.{prover_opened};

    /// The holder of a table, of which nothing is recorded. The folding is at least one, and at
    /// most 12 and the number of variables, which is at most 40.
    pub fn new(alloc: Global, poly: Poly<F>, folding: usize) -> Self
        requires some { 1 ≤ folding }
        requires few { folding ≤ 12 }
        requires within { folding ≤ variables_of poly }
        requires variables { variables_of poly ≤ 40 }
        ensures order { (laid_by result).order ≡ O.binds }
        ensures folding { (laid_by result).folding ≡ folding }
        ensures variables { (laid_by result).variables ≡ variables_of poly }
        ensures rows { (laid_by result).rows
            ≡ (λ b. EF.embedding (table_of F.number poly b)) }
        ensures recorded { (laid_by result).recorded ≡ none_recorded }
    {
        TableProver {
            alloc,
            folding,
            table: poly,
            claims: Book::new(alloc),
            of: PhantomData,
        }
    }

    // A point in two parts: the coordinates that small-value rounds bind, and the others.
    fn in_parts(&self, point: &Point<EF>) -> Result<SvoPoint<F, EF>, NoMemory>
        requires { length point.now ≡ variables_of self.now.table }
        ensures order { IfOk result (λ p. order_in p ≡ O.binds) }
        ensures near { IfOk result (λ p. length (near_in p) ≡ self.now.folding) }
        ensures point { IfOk result (λ p. point_in p ≡ map EF.number point.now) }
    {
        SvoPoint::new_unpacked(self.alloc, self.folding, point, O::variable_order())
    }

    // The values of the columns of a request at a point.
    fn opened_at(
        &self,
        coordinates: Point<EF>,
        batch: &OpeningRequest,
    ) -> Result<ProverMultiClaim<F, EF>, NoMemory>
        requires { length coordinates ≡ variables_of self.now.table }
        ensures point { IfOk result (λ c. (prover_opened c).point ≡ map EF.number coordinates) }
        ensures current { IfOk result (λ c. (prover_opened c).current
            ≡ replicate (asked_in batch.now).current (true_value EF.ops
            (variables_of self.now.table) (λ b. EF.embedding (table_of F.number self.now.table b))
            (current_at (map EF.number coordinates)))) }
        ensures next { IfOk result (λ c. (prover_opened c).next
            ≡ replicate (asked_in batch.now).next (true_value EF.ops (variables_of self.now.table)
            (λ b. EF.embedding (table_of F.number self.now.table b))
            (next_at (map EF.number coordinates)))) }
        ensures kept { IfOk result (KeepsPartials EF.ops O.binds self.now.folding
            (λ b. EF.embedding (table_of F.number self.now.table b))) }
    {
        let point = self.in_parts(&coordinates)?;
        let rows = self.table.as_slice();
        let current = current_claims(self.alloc, &point, rows, batch.current())?;
        let next = next_claims(self.alloc, &point, rows, batch.next())?;
        Ok(ProverMultiClaim {
            coordinates,
            point,
            current: Row::new(current),
            next: Row::new(next),
        })
    }
}

// The values of a table at a point, one for each of these columns, with their partial sums.
fn current_claims<F: Field, EF: ExtensionField<F>>(
    alloc: Global,
    point: &SvoPoint<F, EF>,
    rows: &[F],
    columns: &[usize],
) -> Result<Vec<Claim<EF, usize, EqSvoPartials<EF>>>, NoMemory>
    requires rows { length rows.now ≡ 2 ^ length (point_in point.now) }
    requires columns { All (λ c. c ≡ 0) columns.now }
    ensures values { IfOk result (λ v. map (λ c. EF.number c.eval) v.items ≡ replicate
        (length columns.now) (true_value EF.ops (length (point_in point.now))
        (entries (λ x. EF.embedding (F.number x)) rows.now) (current_at (point_in point.now)))) }
    ensures columns { IfOk result (λ v. All (λ c. c.point ≡ 0) v.items) }
    ensures kept { IfOk result (λ v. All (HasSums EF.ops
        (entries (λ x. EF.embedding (F.number x)) rows.now) point.now) v.items) }
{
    let mut claims = with_room(alloc, columns.len())?;
    for column in columns {
        let (value, partials) = point.eval_slice(alloc, rows)?;
        claims.push(Claim::new(*column, value, partials))?;
    }
    Ok(claims)
}

// The same of the values through the successor map there.
fn next_claims<F: Field, EF: ExtensionField<F>>(
    alloc: Global,
    point: &SvoPoint<F, EF>,
    rows: &[F],
    columns: &[usize],
) -> Result<Vec<Claim<EF, usize, NextSvoPartials<EF>>>, NoMemory>
    requires rows { length rows.now ≡ 2 ^ length (point_in point.now) }
    requires columns { All (λ c. c ≡ 0) columns.now }
    ensures values { IfOk result (λ v. map (λ c. EF.number c.eval) v.items ≡ replicate
        (length columns.now) (true_value EF.ops (length (point_in point.now))
        (entries (λ x. EF.embedding (F.number x)) rows.now) (next_at (point_in point.now)))) }
    ensures columns { IfOk result (λ v. All (λ c. c.point ≡ 0) v.items) }
    ensures kept { IfOk result (λ v. All (HasNextSums EF.ops
        (entries (λ x. EF.embedding (F.number x)) rows.now) point.now) v.items) }
{
    let mut claims = with_room(alloc, columns.len())?;
    for column in columns {
        let (value, partials) = point.eval_next_slice(alloc, rows)?;
        claims.push(Claim::new(*column, value, partials))?;
    }
    Ok(claims)
}

impl<F: Field, EF: ExtensionField<F>, O: BindingOrder> Layout<F, EF> for TableProver<F, EF, O> {
    ghost use Rattle.sc_layout.specs.Provers.{laid_by};

    ghost laid = { laid_by };

    ghost sound = { λ s. record {
      some = s.some;
      few = s.few;
      within = s.within;
      small = s.variables;
      arity = s.arity;
      truth = s.truth;
    } };

    fn num_variables(&self) -> usize {
        self.table.num_variables()
    }

    fn folding(&self) -> usize {
        self.folding
    }

    fn order(&self) -> VariableOrder {
        O::variable_order()
    }

    fn table(&self) -> &Poly<F> {
        &self.table
    }

    fn claims(&self) -> &ClaimBook<F, EF> {
        &self.claims
    }

    fn eval<C: Challenger<F>>(
        &mut self,
        table_idx: usize,
        batch: &OpeningRequest,
        challenger: &mut C,
    ) -> Result<OpeningEvals<EF>, NoMemory> {
        let point = draw_point::<F, EF, C>(self.alloc, challenger, self.table.num_variables())?;
        let claim = self.opened_at(point, batch)?;
        let evals = claim.evals(self.alloc)?;
        self.claims.add_concrete::<F, C>(challenger, claim, &evals)?;
        Ok(evals)
    }

    fn add_virtual_eval<C: Challenger<F>>(&mut self, challenger: &mut C) -> Result<EF, NoMemory> {
        let point = draw_point::<F, EF, C>(self.alloc, challenger, self.table.num_variables())?;
        let (value, _partials) = self.in_parts(&point)?.eval(self.alloc, &self.table)?;
        self.claims.add_virtual::<F, C>(challenger, point, value)?;
        Ok(value)
    }
}
