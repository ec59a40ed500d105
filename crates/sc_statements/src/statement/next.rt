//! Successor statements: that a table has given values through the successor map, in slots that selectors fix.

ghost use Rattle.std.specs.Prelude.{◌≡◌, ◌+◌, ◌<◌, ◌↔◌, [], ◌∷◌, ◌++◌, length, map, slice_index, All, IsTrue, IsOk, IfOk, OnOk, OnErr};
ghost use Rattle.sc_definitions.specs.Ring.{◌+⟨◌⟩◌};
ghost use Rattle.sc_definitions.specs.Statements.{successor, claims, AllTrueOf, true_values, claimed_values, weights_at, batched_claim};
ghost use Rattle.sc_definitions.specs.Tables.{evaluation};
ghost use Rattle.sc_table.specs.Polys.{variables_of, table_of};
ghost use Rattle.sc_table.specs.Strategy.{order_of};
ghost use Rattle.sc_statements.specs.Batches.{gathered, AddsBatch};

use crate::evaluated::EvaluatedConstraint;
use crate::list::{StatementList, add_batch, add_values, all_true};
use crate::weights::Weights;
use sc_field::{Algebra, Field, NoMemory};
use sc_table::{Basis, Point, Poly, VariableOrder};
use sc_weights::{NextConstraint, RowWeights};
use std::alloc::Global;

/// Statements that a table has given values through the successor map, each in the slot that its selector's coordinates fix.
///
/// The successor map takes a row to the row after it, and the last row to itself. A selector and its point have together as many coordinates
/// as the table has variables.
#[derive(Drop)]
pub struct NextStatement<EF> {
    num_variables: usize,
    constraints: Vec<EvaluatedConstraint<NextConstraint<EF>, EF>>,
    ghost fits: { All (λ c. length c.weights.selector + length c.weights.point ≡ num_variables) constraints.items },
}

/// The weights of a successor statement at a point, in order.
pub type NextWeights<'a, EF> = Weights<'a, NextStatement<EF>, EF>;

impl<EF: Field> NextStatement<EF> {
    ghost use Rattle.sc_statements.specs.NextStatements.{next_arity, next_statements, selector_of, point_of};
    ghost use Rattle.sc_statements.specs.Weights.{weight_values, weights_from};
    ghost use Rattle.sc_statements.specs.Rows.{IsRow, row_number};

    /// No statement yet, on tables of `num_variables` variables.
    pub fn initialize(alloc: Global, num_variables: usize) -> Self
        ensures arity { next_arity result ≡ num_variables }
        ensures none { next_statements EF.number result ≡ [] }
    {
        NextStatement {
            num_variables,
            constraints: Vec::new(alloc),
        }
    }

    /// How many variables the tables have that it speaks of.
    pub fn num_variables(&self) -> usize
        ensures { result ≡ next_arity self.now }
    {
        self.num_variables
    }

    /// Whether there is no statement.
    pub fn is_empty(&self) -> bool
        ensures { IsTrue result ↔ (next_statements EF.number self.now ≡ []) }
    {
        self.constraints.is_empty()
    }

    /// How many statements there are.
    pub fn len(&self) -> usize
        ensures { result ≡ length (next_statements EF.number self.now) }
    {
        self.constraints.len()
    }

    /// The value at `row` of each statement's weight table, in order: the equality weight of the selector at its part of `row`, times the
    /// successor's value of the point at the rest. `row` has as many coordinates as the tables have variables.
    pub fn weights_at<'a>(&'a self, row: &'a Point<EF>) -> NextWeights<'a, EF>
        requires { length row.now ≡ next_arity self.now }
        ensures values { weights_from evaluation EF.ops (map EF.number result.row.now) (next_statements EF.number result.statements.now) result.index
            ≡ weight_values evaluation EF.ops (map EF.number row.now) (next_statements EF.number self.now) }

        // At a point of zeros and ones they are the weights of the row that it is.
        ensures at_rows { IsRow (map EF.number row.now) →
            weights_from evaluation EF.ops (map EF.number result.row.now) (next_statements EF.number result.statements.now) result.index
            ≡ weights_at EF.ops (next_statements EF.number self.now) (row_number (map EF.number row.now)) }
    {
        Weights::new(self, row)
    }

    /// Adds the statement that the table has the value `eval` at `point` through the successor map, in the slot of the selector. In
    /// [`VariableOrder::Prefix`] the selector's coordinates stand first, and in [`VariableOrder::Suffix`] last; together with the point's
    /// they are as many as the table has variables. `NoMemory` leaves the statements as they were.
    pub fn add_evaluated_constraint(
        &mut self,
        selector: Point<EF>,
        point: Point<EF>,
        eval: EF,
        var_order: VariableOrder,
    ) -> Result<(), NoMemory>
        requires { length selector + length point ≡ next_arity self.old }
        ensures arity { next_arity self.new ≡ next_arity self.old }
        ensures ok { OnOk result (next_statements EF.number self.new ≡ next_statements EF.number self.old
            ++ claims (successor (order_of var_order) (map EF.number selector) (map EF.number point)) (EF.number eval) ∷ []) }
        ensures refused { OnErr result (next_statements EF.number self.new ≡ next_statements EF.number self.old) }
    {
        let weights = NextConstraint {
            selector,
            point,
            var_order,
        };
        self.constraints
            .push(EvaluatedConstraint { weights, eval })?;
        Ok(())
    }

    /// Whether statement number `index`, which is below [`NextStatement::len`], has a selector of one coordinate or more.
    pub fn has_selector(&self, index: usize) -> bool
        requires { index < length (next_statements EF.number self.now) }
        ensures { IsTrue result ↔ (0 < length (selector_of self.now index)) }
    {
        self.constraints[index].weights.selector.num_variables() > 0
    }

    /// The point of statement number `index`, which is below [`NextStatement::len`].
    pub fn point(&self, index: usize) -> &Point<EF>
        requires { index < length (next_statements EF.number self.now) }
        ensures { result.now ≡ point_of self.now index }
    {
        &self.constraints[index].weights.point
    }

    /// The value that statement number `index`, which is below [`NextStatement::len`], claims.
    pub fn claimed_value(&self, index: usize) -> EF
        requires { index < length (next_statements EF.number self.now) }
        ensures { EF.number result ≡ slice_index (claimed_values (next_statements EF.number self.now)) index }
    {
        self.claim_at(index)
    }

    /// Whether every statement is true of the table, which has as many variables as the statements say. The answer takes no memory;
    /// `NoMemory` never comes.
    pub fn verify(&self, _alloc: Global, poly: &Poly<EF>) -> Result<bool, NoMemory>
        requires { variables_of poly.now ≡ next_arity self.now }
        ensures all { IfOk result (λ holds. IsTrue holds ↔ AllTrueOf EF.ops (next_arity self.now) (table_of EF.number poly.now) (next_statements EF.number self.now)) }
        ensures answered { IsOk result }
    {
        Ok(all_true::<EF, EF, Self>(self, poly.as_slice()))
    }

    /// The true value of statement number `index`, which is below [`NextStatement::len`]. The table has as many variables as the statements
    /// say. It takes no memory; `NoMemory` never comes.
    pub fn true_value<F: Field>(
        &self,
        _alloc: Global,
        index: usize,
        table: &Poly<F>,
    ) -> Result<EF, NoMemory>
    where
        EF: Algebra<F>,
        requires index { index < length (next_statements EF.number self.now) }
        requires arity { variables_of table.now ≡ next_arity self.now }
        ensures value { IfOk result (λ x. EF.number x
            ≡ slice_index (true_values EF.ops (next_arity self.now) (λ b. EF.embedding (table_of F.number table.now b)) (next_statements EF.number self.now)) index) }
        ensures answered { IsOk result }
    {
        Ok(self.truth_at(index, table.as_slice()))
    }

    /// Adds to the sum the claimed values times the powers of `gamma`: that of statement number i times
    /// the power `shift + i`.
    pub fn combine_evals(&self, claimed_eval: &mut EF, gamma: EF, shift: usize)
        ensures { EF.number claimed_eval.new
            ≡ EF.number claimed_eval.old +⟨ EF.ops ⟩ batched_claim EF.ops (EF.number gamma) shift (next_statements EF.number self.now) }
    {
        let first = gamma.exp_u64(shift as u64);
        let _next = add_values(self, claimed_eval, gamma, first);
    }

    /// Takes the statements into a table of weights, which has as many variables as the statements say, and a sum, statement number i times
    /// the power `shift + i` of the challenge: the table gains their weights, and the sum the claimed values.
    ///
    /// The weights are made where they are added, in time linear in the table's length for each statement, so no memory is taken;
    /// `NoMemory` never comes.
    pub fn combine(
        &self,
        _alloc: Global,
        acc_weights: &mut Poly<EF>,
        acc_sum: &mut EF,
        challenge: EF,
        shift: usize,
    ) -> Result<(), NoMemory>
        requires { variables_of acc_weights.old ≡ next_arity self.now }
        ensures variables { variables_of acc_weights.new ≡ variables_of acc_weights.old }
        ensures added { OnOk result (AddsBatch EF.ops (next_arity self.now) (EF.number challenge) shift (next_statements EF.number self.now)
            (gathered (table_of EF.number acc_weights.old) (EF.number acc_sum.old)) (gathered (table_of EF.number acc_weights.new) (EF.number acc_sum.new))) }
        ensures answered { IsOk result }
    {
        let first = challenge.exp_u64(shift as u64);
        let _next = add_batch(self, acc_weights, acc_sum, challenge, first);
        Ok(())
    }
}

impl<EF: Field> StatementList<EF> for NextStatement<EF> {
    ghost use Rattle.sc_statements.specs.NextStatements.{next_arity, next_statements};

    ghost arity = { next_arity };

    ghost statements = { next_statements EF.number };

    fn count(&self) -> usize {
        self.constraints.len()
    }

    fn claim_at(&self, index: usize) -> EF {
        self.constraints[index].eval
    }

    fn claim(&mut self, index: usize, value: EF) {
        self.constraints[index].eval = value;
    }

    fn truth_at<A: Field>(&self, index: usize, rows: &[A]) -> EF
    where
        EF: Algebra<A>,
    {
        self.constraints[index].weights.true_value(rows)
    }

    fn add_weights(&self, index: usize, table: &mut Poly<EF>, scale: EF) {
        self.constraints[index].weights.add_to(table, scale);
    }

    fn weight_at(&self, index: usize, basis: Basis, row: &Point<EF>) -> EF {
        self.constraints[index].weights.value_at(basis, row)
    }
}
