//! Selecting statements: that the sums of a table's entries, times powers of a scalar or products of a point's coordinates, have given values.

ghost use Rattle.std.specs.Prelude.{◌≡◌, ◌+◌, ◌<◌, ◌↔◌, [], ◌∷◌, ◌++◌, length, map, slice_index, IsTrue, IsOk, IfOk, OnOk, OnErr, ◌*◌, vec_len, All};
ghost use Rattle.std.specs.Iterator.{YieldsFirstBy, item_count};
ghost use Rattle.sc_definitions.specs.Ring.{◌+⟨◌⟩◌};
ghost use Rattle.sc_definitions.specs.Statements.{powers, products, claims, arity_of, AllTrueOf, true_values, claimed_values, weights_at, batched_claim};
ghost use Rattle.sc_definitions.specs.Tables.{evaluation};
ghost use Rattle.sc_table.specs.Polys.{variables_of, table_of};
ghost use Rattle.sc_statements.specs.Batches.{gathered, AddsBatch};

use crate::list::{StatementList, add_batch, add_values, all_true};
use crate::weights::Weights;
use sc_field::{Algebra, ExtensionField, Field, NoMemory};
use sc_table::{Basis, Point, Poly};
use sc_weights::{RowWeights, Selector};
use std::alloc::Global;

/// Statements that the sum of a table's entries times weights has given values. Row b has the weight z^b of a scalar z, or the product of
/// those coordinates of a direct point whose digit in b is 1. One statement holds scalars alone, or direct points alone.
#[derive(Drop)]
pub struct SelectStatement<F, EF> {
    num_variables: usize,
    vars: Vec<F>,
    points: Vec<Point<F>>,
    evaluations: Vec<EF>,
    ghost one_kind: { vec_len vars * vec_len points ≡ 0 },
    ghost aligned: { vec_len vars + vec_len points ≡ vec_len evaluations },
    ghost fits: { All (λ p. length p ≡ num_variables) points.items },
}

/// The weights of a selecting statement at a point, in order.
pub type SelectWeights<'a, F, EF> = Weights<'a, SelectStatement<F, EF>, EF>;

impl<F: Field, EF: ExtensionField<F>> SelectStatement<F, EF> {
    ghost use Rattle.sc_weights.specs.Selectors.{selected_kind};
    ghost use Rattle.sc_statements.specs.SelectStatements.{select_arity, select_statements, scalars_of, points_of, SelectsAt};
    ghost use Rattle.sc_statements.specs.SelectIterators.{scalars_left, scalar_statements};
    ghost use Rattle.sc_statements.specs.Weights.{weight_values, weights_from};
    ghost use Rattle.sc_statements.specs.Rows.{IsRow, row_number};

    /// No statement yet, on tables of `num_variables` variables.
    pub fn initialize(alloc: Global, num_variables: usize) -> Self
        ensures arity { select_arity result ≡ num_variables }
        ensures none { select_statements (λ x. EF.embedding (F.number x)) EF.number result ≡ [] }
        ensures no_scalars { scalars_of result ≡ [] }
        ensures no_points { points_of result ≡ [] }
    {
        SelectStatement {
            num_variables,
            vars: Vec::new(alloc),
            points: Vec::new(alloc),
            evaluations: Vec::new(alloc),
        }
    }

    /// The statements that each scalar selects the value that stands at its place, as many scalars as values.
    pub fn new(alloc: Global, num_variables: usize, vars: Vec<F>, evaluations: Vec<EF>) -> Self
        requires { length vars.items ≡ length evaluations.items }
        ensures arity { select_arity result ≡ num_variables }
        ensures statements { select_statements (λ x. EF.embedding (F.number x)) EF.number result
            ≡ scalar_statements (λ x. EF.embedding (F.number x)) EF.number vars.items evaluations.items }
        ensures scalars { scalars_of result ≡ vars.items }
        ensures no_points { points_of result ≡ [] }
    {
        SelectStatement {
            num_variables,
            vars,
            points: Vec::new(alloc),
            evaluations,
        }
    }

    /// How many variables the tables have that it speaks of.
    pub fn num_variables(&self) -> usize
        ensures { result ≡ select_arity self.now }
    {
        self.num_variables
    }

    /// Whether there is no statement.
    pub fn is_empty(&self) -> bool
        ensures { IsTrue result ↔ (select_statements (λ x. EF.embedding (F.number x)) EF.number self.now ≡ []) }
    {
        self.evaluations.is_empty()
    }

    /// How many statements there are.
    pub fn len(&self) -> usize
        ensures { result ≡ length (select_statements (λ x. EF.embedding (F.number x)) EF.number self.now) }
    {
        self.evaluations.len()
    }

    /// Whether it holds a direct point.
    pub fn holds_points(&self) -> bool
        ensures { IsTrue result ↔ (points_of self.now ≡ [] → ⊥) }
    {
        !self.points.is_empty()
    }

    /// Whether it holds a scalar.
    pub fn holds_scalars(&self) -> bool
        ensures { IsTrue result ↔ (scalars_of self.now ≡ [] → ⊥) }
    {
        !self.vars.is_empty()
    }

    /// The scalars and the claimed values, in order; none for direct points.
    pub fn iter(&self) -> SelectIter<'_, F, EF>
        ensures scalars { scalars_left (λ x. EF.embedding (F.number x)) EF.number result
            ≡ scalar_statements (λ x. EF.embedding (F.number x)) EF.number (scalars_of self.now) self.now.evaluations.items }
        ensures all { points_of self.now ≡ [] → scalars_left (λ x. EF.embedding (F.number x)) EF.number result ≡ select_statements (λ x. EF.embedding (F.number x)) EF.number self.now }
        ensures none { scalars_of self.now ≡ [] → scalars_left (λ x. EF.embedding (F.number x)) EF.number result ≡ [] }
    {
        SelectIter {
            vars: self.vars.as_slice(),
            evaluations: self.evaluations.as_slice(),
        }
    }

    /// The value at `row` of each statement's weight table, in order. `row` has as many coordinates as the tables have variables.
    pub fn weights_at<'a>(&'a self, row: &'a Point<EF>) -> SelectWeights<'a, F, EF>
        requires { length row.now ≡ select_arity self.now }
        ensures values { weights_from evaluation EF.ops (map EF.number result.row.now) (select_statements (λ x. EF.embedding (F.number x)) EF.number result.statements.now) result.index
            ≡ weight_values evaluation EF.ops (map EF.number row.now) (select_statements (λ x. EF.embedding (F.number x)) EF.number self.now) }

        // At a point of zeros and ones they are the weights of the row that it is.
        ensures at_rows { IsRow (map EF.number row.now) →
            weights_from evaluation EF.ops (map EF.number result.row.now) (select_statements (λ x. EF.embedding (F.number x)) EF.number result.statements.now) result.index
            ≡ weights_at EF.ops (select_statements (λ x. EF.embedding (F.number x)) EF.number self.now) (row_number (map EF.number row.now)) }
    {
        Weights::new(self, row)
    }

    /// Adds the statement that `var` selects the value `eval`. It holds no direct point, as [`SelectStatement::holds_points`] tells.
    /// `NoMemory` leaves the statements as they were.
    pub fn add_constraint(&mut self, var: F, eval: EF) -> Result<(), NoMemory>
        requires { points_of self.old ≡ [] }
        ensures arity { select_arity self.new ≡ select_arity self.old }
        ensures ok { OnOk result (select_statements (λ x. EF.embedding (F.number x)) EF.number self.new
            ≡ select_statements (λ x. EF.embedding (F.number x)) EF.number self.old ++ claims (powers (EF.embedding (F.number var))) (EF.number eval) ∷ []) }
        ensures scalars { OnOk result (scalars_of self.new ≡ scalars_of self.old ++ var ∷ []) }
        ensures no_points { points_of self.new ≡ [] }
        ensures refused { OnErr result (select_statements (λ x. EF.embedding (F.number x)) EF.number self.new
            ≡ select_statements (λ x. EF.embedding (F.number x)) EF.number self.old) }
        ensures refused_scalars { OnErr result (scalars_of self.new ≡ scalars_of self.old) }
    {
        self.vars.reserve(1)?;
        self.evaluations.reserve(1)?;
        self.vars.push_reserved(var);
        self.evaluations.push_reserved(eval);
        Ok(())
    }

    /// Adds the statement that a direct point, of as many coordinates as the tables have variables, selects the value `eval`. It holds no
    /// scalar, as [`SelectStatement::holds_scalars`] tells. `NoMemory` leaves the statements as they were.
    pub fn add_point_constraint(&mut self, point: Point<F>, eval: EF) -> Result<(), NoMemory>
        requires kind { scalars_of self.old ≡ [] }
        requires arity { length point ≡ select_arity self.old }
        ensures arity { select_arity self.new ≡ select_arity self.old }
        ensures ok { OnOk result (select_statements (λ x. EF.embedding (F.number x)) EF.number self.new
            ≡ select_statements (λ x. EF.embedding (F.number x)) EF.number self.old ++ claims (products (map (λ x. EF.embedding (F.number x)) point)) (EF.number eval) ∷ []) }
        ensures points { OnOk result (points_of self.new ≡ points_of self.old ++ point ∷ []) }
        ensures no_scalars { scalars_of self.new ≡ [] }
        ensures refused { OnErr result (select_statements (λ x. EF.embedding (F.number x)) EF.number self.new
            ≡ select_statements (λ x. EF.embedding (F.number x)) EF.number self.old) }
        ensures refused_points { OnErr result (points_of self.new ≡ points_of self.old) }
    {
        self.points.reserve(1)?;
        self.evaluations.reserve(1)?;
        self.points.push_reserved(point);
        self.evaluations.push_reserved(eval);
        Ok(())
    }

    /// The value that statement number `index`, which is below [`SelectStatement::len`], claims.
    pub fn claimed_value(&self, index: usize) -> EF
        requires { index < length (select_statements (λ x. EF.embedding (F.number x)) EF.number self.now) }
        ensures { EF.number result ≡ slice_index (claimed_values (select_statements (λ x. EF.embedding (F.number x)) EF.number self.now)) index }
    {
        self.claim_at(index)
    }

    /// Whether every statement is true of the table, which has as many variables as the statements say. The answer takes no memory;
    /// `NoMemory` never comes.
    pub fn verify(&self, _alloc: Global, poly: &Poly<EF>) -> Result<bool, NoMemory>
        requires { variables_of poly.now ≡ select_arity self.now }
        ensures all { IfOk result (λ holds. IsTrue holds ↔ AllTrueOf EF.ops (select_arity self.now) (table_of EF.number poly.now)
            (select_statements (λ x. EF.embedding (F.number x)) EF.number self.now)) }
        ensures answered { IsOk result }
    {
        Ok(all_true::<EF, EF, Self>(self, poly.as_slice()))
    }

    /// The true value of statement number `index`, which is below [`SelectStatement::len`]. The table has as many variables as the statements
    /// say. It takes no memory; `NoMemory` never comes.
    pub fn true_value(&self, _alloc: Global, index: usize, table: &Poly<F>) -> Result<EF, NoMemory>
        requires index { index < length (select_statements (λ x. EF.embedding (F.number x)) EF.number self.now) }
        requires arity { variables_of table.now ≡ select_arity self.now }
        ensures value { IfOk result (λ x. EF.number x ≡ slice_index (true_values EF.ops (select_arity self.now) (λ b. EF.embedding (table_of F.number table.now b))
            (select_statements (λ y. EF.embedding (F.number y)) EF.number self.now)) index) }
        ensures answered { IsOk result }
    {
        Ok(self.truth_at(index, table.as_slice()))
    }

    /// Adds to the sum the claimed values times the powers of `gamma`: that of statement number i times
    /// the power `shift + i`.
    pub fn combine_evals(&self, claimed_eval: &mut EF, gamma: EF, shift: usize)
        ensures { EF.number claimed_eval.new ≡ EF.number claimed_eval.old
            +⟨ EF.ops ⟩ batched_claim EF.ops (EF.number gamma) shift (select_statements (λ x. EF.embedding (F.number x)) EF.number self.now) }
    {
        let first = gamma.exp_u64(shift as u64);
        let _next = add_values(self, claimed_eval, gamma, first);
    }

    /// Takes the statements into a table of weights, which has as many variables as the statements say, and a sum, statement number i times
    /// the power `shift + i` of the challenge: the table gains their weights, and the sum the claimed values.
    ///
    /// The weights are made where they are added, in time linear in the table's length for each statement, so no memory is taken;
    /// `NoMemory` never comes.
    pub fn combine(
        &self,
        _alloc: Global,
        acc_weights: &mut Poly<EF>,
        acc_sum: &mut EF,
        challenge: EF,
        shift: usize,
    ) -> Result<(), NoMemory>
        requires { variables_of acc_weights.old ≡ select_arity self.now }
        ensures variables { variables_of acc_weights.new ≡ variables_of acc_weights.old }
        ensures added { OnOk result (AddsBatch EF.ops (select_arity self.now) (EF.number challenge) shift (select_statements (λ x. EF.embedding (F.number x)) EF.number self.now)
            (gathered (table_of EF.number acc_weights.old) (EF.number acc_sum.old)) (gathered (table_of EF.number acc_weights.new) (EF.number acc_sum.new))) }
        ensures answered { IsOk result }
    {
        let first = challenge.exp_u64(shift as u64);
        let _next = add_batch(self, acc_weights, acc_sum, challenge, first);
        Ok(())
    }

    // What the statement at a place selects with.
    fn selector(&self, index: usize) -> Selector<'_, F>
        requires { index < length (select_statements (λ x. EF.embedding (F.number x)) EF.number self.now) }
        ensures kind { SelectsAt (λ x. EF.embedding (F.number x)) EF.number self.now index result }
        ensures arity { arity_of (select_arity self.now) (selected_kind (λ x. EF.embedding (F.number x)) result) ≡ select_arity self.now }
    {
        let scalars = self.vars.len();
        if index < scalars {
            Selector::Scalar(self.vars[index])
        } else {
            Selector::Direct(&self.points[index - scalars])
        }
    }
}

impl<F: Field, EF: ExtensionField<F>> StatementList<EF> for SelectStatement<F, EF> {
    ghost use Rattle.sc_statements.specs.SelectStatements.{select_arity, select_statements};

    ghost arity = { select_arity };

    ghost statements = { select_statements (λ x. EF.embedding (F.number x)) EF.number };

    fn count(&self) -> usize {
        self.evaluations.len()
    }

    fn claim_at(&self, index: usize) -> EF {
        self.evaluations[index]
    }

    fn claim(&mut self, index: usize, value: EF) {
        self.evaluations[index] = value;
    }

    fn truth_at<A: Field>(&self, index: usize, rows: &[A]) -> EF
    where
        EF: Algebra<A>,
    {
        self.selector(index).true_value(rows)
    }

    fn add_weights(&self, index: usize, table: &mut Poly<EF>, scale: EF) {
        self.selector(index).add_to(table, scale);
    }

    fn weight_at(&self, index: usize, basis: Basis, row: &Point<EF>) -> EF {
        self.selector(index).value_at(basis, row)
    }
}

/// The scalars and the claimed values of a selecting statement, in order. [`SelectStatement::iter`] makes it.
#[derive(Drop)]
pub struct SelectIter<'a, F, EF> {
    vars: &'a [F],
    evaluations: &'a [EF],
}

impl<'a, F: Field, EF: ExtensionField<F>> Iterator for SelectIter<'a, F, EF> {
    ghost use Rattle.sc_statements.specs.SelectIterators.{scalar_pair, scalars_left};

    type Item = (&'a F, &'a EF);

    ghost next_gives = { YieldsFirstBy (scalar_pair (λ x. EF.embedding (F.number x)) EF.number) (scalars_left (λ x. EF.embedding (F.number x)) EF.number) };

    ghost remaining = { item_count (scalars_left (λ x. EF.embedding (F.number x)) EF.number) };

    fn next(&mut self) -> Option<(&'a F, &'a EF)> {
        let (var, vars) = self.vars.split_first()?;
        let (eval, evaluations) = self.evaluations.split_first()?;
        self.vars = vars;
        self.evaluations = evaluations;
        Some((var, eval))
    }
}
