//! Equality statements: that a table has given values at given points.

ghost use Rattle.std.specs.Prelude.{◌≡◌, ◌+◌, ◌<◌, ◌↔◌, [], ◌∷◌, ◌++◌, All, length, map, slice_index, IsTrue, IsOk, IfOk, OnOk, OnErr, true, false};
ghost use Rattle.std.specs.Iterator.{YieldsFirstBy, item_count};
ghost use Rattle.sc_definitions.specs.Ring.{power, ◌+⟨◌⟩◌};
ghost use Rattle.sc_definitions.specs.Statements.{equality, claims, arity_of, AllTrueOf, true_values, claimed_values, weights_at, batched_claim};
ghost use Rattle.sc_definitions.specs.Tables.{evaluation};
ghost use Rattle.sc_table.specs.Polys.{variables_of, table_of};
ghost use Rattle.sc_statements.specs.Batches.{gathered, AddsBatch, WritesBatch, IsUnchanged};

use crate::evaluated::EvaluatedConstraint;
use crate::list::{StatementList, add_batch, add_values, all_true};
use crate::weights::{Weights, clear};
use sc_field::{Algebra, ExtensionField, Field, NoMemory};
use sc_table::{Basis, Point, Poly};
use sc_weights::RowWeights;
use std::alloc::Global;

/// Statements that a table has given values at given points, all of as many coordinates as the table
/// has variables.
#[derive(Drop)]
pub struct EqStatement<EF> {
    num_variables: usize,
    constraints: Vec<EvaluatedConstraint<Point<EF>, EF>>,
    ghost fits: { All (λ c. length c.weights ≡ num_variables) constraints.items },
}

/// The weights of an equality statement at a point: the equality weights of that point and of each statement's own, in order.
pub type EqWeights<'a, EF> = Weights<'a, EqStatement<EF>, EF>;

impl<EF: Field> EqStatement<EF> {
    ghost use Rattle.sc_statements.specs.EqStatements.{eq_arity, eq_statements};
    ghost use Rattle.sc_statements.specs.EqIterators.{pairs_left};
    ghost use Rattle.sc_statements.specs.Weights.{weight_values, weights_from};
    ghost use Rattle.sc_statements.specs.Rows.{IsRow, row_number};

    /// No statement yet, on tables of `num_variables` variables.
    pub fn initialize(alloc: Global, num_variables: usize) -> Self
        ensures arity { eq_arity result ≡ num_variables }
        ensures none { eq_statements EF.number result ≡ [] }
    {
        EqStatement {
            num_variables,
            constraints: Vec::new(alloc),
        }
    }

    /// How many variables the tables have that it speaks of.
    pub fn num_variables(&self) -> usize
        ensures { result ≡ eq_arity self.now }
    {
        self.num_variables
    }

    /// Whether there is no statement.
    pub fn is_empty(&self) -> bool
        ensures { IsTrue result ↔ (eq_statements EF.number self.now ≡ []) }
    {
        self.constraints.is_empty()
    }

    /// How many statements there are.
    pub fn len(&self) -> usize
        ensures { result ≡ length (eq_statements EF.number self.now) }
    {
        self.constraints.len()
    }

    /// The points and the claimed values, in order.
    pub fn iter(&self) -> EqIter<'_, EF>
        ensures pairs { pairs_left EF.number result ≡ eq_statements EF.number self.now }

        // Each point has as many coordinates as the tables have variables.
        ensures arity { All (λ s. arity_of (eq_arity self.now) s.kind ≡ eq_arity self.now) (eq_statements EF.number self.now) }
    {
        EqIter {
            rest: self.constraints.as_slice(),
        }
    }

    /// The value at `row` of each statement's weight table, in order: the equality weight of the two
    /// points. `row` has as many coordinates as the tables have variables.
    pub fn weights_at<'a>(&'a self, row: &'a Point<EF>) -> EqWeights<'a, EF>
        requires { length row.now ≡ eq_arity self.now }
        ensures values { weights_from evaluation EF.ops (map EF.number result.row.now) (eq_statements EF.number result.statements.now) result.index
            ≡ weight_values evaluation EF.ops (map EF.number row.now) (eq_statements EF.number self.now) }

        // At a point of zeros and ones they are the weights of the row that it is.
        ensures at_rows { IsRow (map EF.number row.now) →
            weights_from evaluation EF.ops (map EF.number result.row.now) (eq_statements EF.number result.statements.now) result.index
            ≡ weights_at EF.ops (eq_statements EF.number self.now) (row_number (map EF.number row.now)) }
    {
        Weights::new(self, row)
    }

    /// Adds the statement that the table has the value `eval` at `point`, which has as many coordinates
    /// as the tables have variables. `NoMemory` leaves the statements as they were.
    pub fn add_evaluated_constraint(&mut self, point: Point<EF>, eval: EF) -> Result<(), NoMemory>
        requires { length point ≡ eq_arity self.old }
        ensures arity { eq_arity self.new ≡ eq_arity self.old }
        ensures ok { OnOk result (eq_statements EF.number self.new
            ≡ eq_statements EF.number self.old ++ claims (equality (map EF.number point)) (EF.number eval) ∷ []) }
        ensures refused { OnErr result (eq_statements EF.number self.new ≡ eq_statements EF.number self.old) }
    {
        self.constraints.push(EvaluatedConstraint {
            weights: point,
            eval,
        })?;
        Ok(())
    }

    /// Adds the statements of `other`, in order, after those that there are; each point is copied.
    /// Both speak of tables of one number of variables. `NoMemory` leaves the statements as they were.
    pub fn concatenate(&mut self, other: &Self) -> Result<(), NoMemory>
        requires { eq_arity other.now ≡ eq_arity self.old }
        ensures arity { eq_arity self.new ≡ eq_arity self.old }
        ensures ok { OnOk result (eq_statements EF.number self.new
            ≡ eq_statements EF.number self.old ++ eq_statements EF.number other.now) }
        ensures refused { OnErr result (eq_statements EF.number self.new ≡ eq_statements EF.number self.old) }
    {
        let mut copies = other.copied_constraints(*self.constraints.allocator())?;
        self.constraints.append(&mut copies)?;
        Ok(())
    }

    // The points and the values, in memory of their own.
    fn copied_constraints(
        &self,
        alloc: Global,
    ) -> Result<Vec<EvaluatedConstraint<Point<EF>, EF>>, NoMemory>
        ensures { IfOk result (λ v. v.items ≡ self.now.constraints.items) }
    {
        let mut copies = Vec::with_capacity(alloc, self.constraints.len())?;
        for constraint in &self.constraints {
            let weights = constraint.weights.copy(alloc)?;
            let eval = constraint.eval;
            copies.push(EvaluatedConstraint { weights, eval })?;
        }
        Ok(copies)
    }

    /// Whether every statement is true of the table, which has as many variables as the statements say.
    /// It takes no memory.
    pub fn verify(&self, poly: &Poly<EF>) -> bool
        requires { variables_of poly.now ≡ eq_arity self.now }
        ensures { IsTrue result ↔ AllTrueOf EF.ops (eq_arity self.now) (table_of EF.number poly.now) (eq_statements EF.number self.now) }
    {
        all_true::<EF, EF, Self>(self, poly.as_slice())
    }

    /// The true value of statement number `index`, which is below [`EqStatement::len`]: the table's value
    /// at the statement's point. The table has as many variables as the statements say.
    pub fn true_value<F: Field>(&self, index: usize, table: &Poly<F>) -> EF
    where
        EF: Algebra<F>,
        requires index { index < length (eq_statements EF.number self.now) }
        requires arity { variables_of table.now ≡ eq_arity self.now }
        ensures { EF.number result
            ≡ slice_index (true_values EF.ops (eq_arity self.now) (λ b. EF.embedding (table_of F.number table.now b)) (eq_statements EF.number self.now)) index }
    {
        self.truth_at(index, table.as_slice())
    }

    /// The value that statement number `index`, which is below [`EqStatement::len`], claims.
    pub fn claimed_value(&self, index: usize) -> EF
        requires { index < length (eq_statements EF.number self.now) }
        ensures { EF.number result ≡ slice_index (claimed_values (eq_statements EF.number self.now)) index }
    {
        self.claim_at(index)
    }

    /// Adds to the sum the claimed values times the powers of `gamma`: that of statement number i times
    /// the power `shift + i`.
    pub fn combine_evals(&self, claimed_eval: &mut EF, gamma: EF, shift: usize)
        ensures { EF.number claimed_eval.new
            ≡ EF.number claimed_eval.old +⟨ EF.ops ⟩ batched_claim EF.ops (EF.number gamma) shift (eq_statements EF.number self.now) }
    {
        let first = gamma.exp_u64(shift as u64);
        let _next = add_values(self, claimed_eval, gamma, first);
    }

    /// Takes the statements into a table of weights and a sum, statement number i times the power
    /// `shift + i` of the challenge.
    ///
    /// With `INITIALIZED` the table, which has as many variables as the statements say, gains their
    /// equality weights; without it the table becomes them, whatever it held. The sum gains the claimed
    /// values either way. Where there is no statement, both stay under either flag.
    ///
    /// The weights are made where they are added, in time linear in the table's length for each
    /// statement, so no memory is taken; `NoMemory` never comes.
    pub fn combine_hypercube<Base: Field, const INITIALIZED: bool>(
        &self,
        _alloc: Global,
        acc_weights: &mut Poly<EF>,
        acc_sum: &mut EF,
        challenge: EF,
        shift: usize,
    ) -> Result<(), NoMemory>
    where
        EF: ExtensionField<Base>,
        requires { variables_of acc_weights.old ≡ eq_arity self.now }
        ensures variables { variables_of acc_weights.new ≡ variables_of acc_weights.old }
        ensures added { OnOk result (IsTrue INITIALIZED → AddsBatch EF.ops (eq_arity self.now) (EF.number challenge) shift (eq_statements EF.number self.now)
            (gathered (table_of EF.number acc_weights.old) (EF.number acc_sum.old)) (gathered (table_of EF.number acc_weights.new) (EF.number acc_sum.new))) }
        ensures overwritten { OnOk result (INITIALIZED ≡ false → 0 < length (eq_statements EF.number self.now) →
            WritesBatch EF.ops (eq_arity self.now) (EF.number challenge) shift (eq_statements EF.number self.now)
            (EF.number acc_sum.old) (gathered (table_of EF.number acc_weights.new) (EF.number acc_sum.new))) }
        ensures empty { eq_statements EF.number self.now ≡ [] → IsUnchanged (eq_arity self.now)
            (gathered (table_of EF.number acc_weights.old) (EF.number acc_sum.old)) (gathered (table_of EF.number acc_weights.new) (EF.number acc_sum.new)) }
        ensures answered { IsOk result }
    {
        if self.is_empty() {
            return Ok(());
        }
        if !INITIALIZED {
            clear(acc_weights);
        }
        let first = challenge.exp_u64(shift as u64);
        let _next = add_batch(self, acc_weights, acc_sum, challenge, first);
        Ok(())
    }
}

impl<EF: Field> StatementList<EF> for EqStatement<EF> {
    ghost use Rattle.sc_statements.specs.EqStatements.{eq_arity, eq_statements};

    ghost arity = { eq_arity };

    ghost statements = { eq_statements EF.number };

    fn count(&self) -> usize {
        self.constraints.len()
    }

    fn claim_at(&self, index: usize) -> EF {
        self.constraints[index].eval
    }

    fn claim(&mut self, index: usize, value: EF) {
        self.constraints[index].eval = value;
    }

    fn truth_at<A: Field>(&self, index: usize, rows: &[A]) -> EF
    where
        EF: Algebra<A>,
    {
        self.constraints[index].weights.true_value(rows)
    }

    fn add_weights(&self, index: usize, table: &mut Poly<EF>, scale: EF) {
        self.constraints[index].weights.add_to(table, scale);
    }

    fn weight_at(&self, index: usize, basis: Basis, row: &Point<EF>) -> EF {
        self.constraints[index].weights.value_at(basis, row)
    }
}

/// The points and the claimed values of an equality statement, in order. [`EqStatement::iter`] makes it.
#[derive(Drop)]
pub struct EqIter<'a, EF> {
    rest: &'a [EvaluatedConstraint<Point<EF>, EF>],
}

impl<'a, EF: Field> Iterator for EqIter<'a, EF> {
    ghost use Rattle.sc_statements.specs.EqIterators.{pair_statement, pairs_left};

    type Item = (&'a Point<EF>, &'a EF);

    ghost next_gives = { YieldsFirstBy (pair_statement EF.number) (pairs_left EF.number) };

    ghost remaining = { item_count (pairs_left EF.number) };

    fn next(&mut self) -> Option<(&'a Point<EF>, &'a EF)> {
        let (first, rest) = self.rest.split_first()?;
        self.rest = rest;
        Some((&first.weights, &first.eval))
    }
}
