//! Groups of statements, each of one kind.

ghost use Rattle.std.specs.Prelude.{◌≡◌, ℕ, ◌+◌, ◌++◌, ◌^◌, ◌↔◌, [], length, map, IsTrue, IsOk, IfOk, OnOk};
ghost use Rattle.sc_definitions.specs.Ring.{power, ◌+⟨◌⟩◌};
ghost use Rattle.sc_definitions.specs.Tables.{entries, value_in};
ghost use Rattle.sc_definitions.specs.Statements.{first_false_claim, batched_weight, batched_claim};
ghost use Rattle.sc_definitions.specs.Lucky.{excess};
ghost use Rattle.sc_table.specs.Polys.{variables_of, table_of};
ghost use Rattle.sc_table.specs.Strategy.{basis_of};
ghost use Rattle.sc_statements.specs.Batches.{gathered, AddsBatch};
ghost use Rattle.sc_statements.specs.Claimed.{with_values, all_stated_truly};

use sc_definitions::FalseClaim;
use sc_field::{ExtensionField, Field, NoMemory};
use sc_statements::{EqStatement, NextStatement, SelectStatement, list};
use sc_table::{Basis, Point, Poly};
use std::alloc::Global;

/// A group of statements of one kind, in order.
#[derive(Drop)]
pub enum Statements<F, EF> {
    /// Values of the table at points.
    Eq(EqStatement<EF>),
    /// Values through the successor map.
    Next(NextStatement<EF>),
    /// Sums of the entries times powers, or times products of coordinates.
    Select(SelectStatement<F, EF>),
}

impl<F: Field, EF: ExtensionField<F>> Statements<F, EF> {
    ghost use Rattle.sc_constraints.specs.Groups.{group_arity, group_statements};

    /// How many variables the tables have that it speaks of.
    pub fn num_variables(&self) -> usize
        ensures { result ≡ group_arity self.now }
    {
        match self {
            Statements::Eq(statement) => statement.num_variables(),
            Statements::Next(statement) => statement.num_variables(),
            Statements::Select(statement) => statement.num_variables(),
        }
    }

    /// How many statements there are.
    pub fn len(&self) -> usize
        ensures { result ≡ length (group_statements (λ x. EF.embedding (F.number x)) EF.number self.now) }
    {
        match self {
            Statements::Eq(statement) => statement.len(),
            Statements::Next(statement) => statement.len(),
            Statements::Select(statement) => statement.len(),
        }
    }

    /// Whether there is no statement.
    pub fn is_empty(&self) -> bool
        ensures { IsTrue result ↔ (group_statements (λ x. EF.embedding (F.number x)) EF.number self.now ≡ []) }
    {
        match self {
            Statements::Eq(statement) => statement.is_empty(),
            Statements::Next(statement) => statement.is_empty(),
            Statements::Select(statement) => statement.is_empty(),
        }
    }

    // The first statement that is false of the table with these rows, numbered from 0 on. It takes
    // no memory.
    pub(crate) fn first_false(&self, rows: &[F]) -> Option<FalseClaim>
        requires { length rows.now ≡ 2 ^ group_arity self.now }
        ensures { result ≡ first_false_claim EF.ops (group_arity self.now)
            (λ b. EF.embedding (entries F.number rows.now b)) 0
            (group_statements (λ x. EF.embedding (F.number x)) EF.number self.now) }
    {
        match self {
            Statements::Eq(statement) => list::first_false(statement, rows),
            Statements::Next(statement) => list::first_false(statement, rows),
            Statements::Select(statement) => list::first_false(statement, rows),
        }
    }

    // Each statement claims from now on the value that stands at its place.
    pub(crate) fn claim_values(&mut self, values: &[EF])
        requires { length values.now
            ≡ length (group_statements (λ x. EF.embedding (F.number x)) EF.number self.old) }
        ensures arity { group_arity self.new ≡ group_arity self.old }
        ensures statements { group_statements (λ x. EF.embedding (F.number x)) EF.number self.new
            ≡ with_values (group_statements (λ x. EF.embedding (F.number x)) EF.number self.old)
            (map EF.number values.now) }
    {
        match self {
            Statements::Eq(statement) => list::claim_values(statement, values),
            Statements::Next(statement) => list::claim_values(statement, values),
            Statements::Select(statement) => list::claim_values(statement, values),
        }
    }

    // Each statement claims from now on its true value of the table with these rows. It takes no
    // memory.
    pub(crate) fn claim_truth(&mut self, rows: &[F])
        requires { length rows.now ≡ 2 ^ group_arity self.old }
        ensures arity { group_arity self.new ≡ group_arity self.old }
        ensures statements { group_statements (λ x. EF.embedding (F.number x)) EF.number self.new
            ≡ all_stated_truly EF.ops (group_arity self.old)
            (λ b. EF.embedding (entries F.number rows.now b))
            (group_statements (λ x. EF.embedding (F.number x)) EF.number self.old) }
    {
        match self {
            Statements::Eq(statement) => list::claim_truth(statement, rows),
            Statements::Next(statement) => list::claim_truth(statement, rows),
            Statements::Select(statement) => list::claim_truth(statement, rows),
        }
    }

    // Adds to a list what each statement claims, less its true value of the table with these rows.
    pub(crate) fn push_excesses(&self, rows: &[F], excesses: &mut Vec<EF>) -> Result<(), NoMemory>
        requires { length rows.now ≡ 2 ^ group_arity self.now }
        ensures { OnOk result (map EF.number excesses.new.items
            ≡ map EF.number excesses.old.items ++ map (excess EF.ops (group_arity self.now)
            (λ b. EF.embedding (entries F.number rows.now b)))
            (group_statements (λ x. EF.embedding (F.number x)) EF.number self.now)) }
    {
        match self {
            Statements::Eq(statement) => list::push_excesses(statement, rows, excesses),
            Statements::Next(statement) => list::push_excesses(statement, rows, excesses),
            Statements::Select(statement) => list::push_excesses(statement, rows, excesses),
        }
    }

    // Adds the claimed values to the sum, the first times `first`, and each next one times the challenge
    // once more. The answer is the factor of a statement after the last.
    pub(crate) fn add_values(&self, sum: &mut EF, challenge: EF, first: EF) -> EF
        ensures added { (p : ℕ) → EF.number first ≡ power EF.ops (EF.number challenge) p →
            EF.number sum.new ≡ EF.number sum.old +⟨ EF.ops ⟩ batched_claim EF.ops (EF.number challenge) p (group_statements (λ x. EF.embedding (F.number x)) EF.number self.now) }
        ensures next { (p : ℕ) → EF.number first ≡ power EF.ops (EF.number challenge) p →
            EF.number result ≡ power EF.ops (EF.number challenge) (p + length (group_statements (λ x. EF.embedding (F.number x)) EF.number self.now)) }
    {
        match self {
            Statements::Eq(statement) => list::add_values(statement, sum, challenge, first),
            Statements::Next(statement) => list::add_values(statement, sum, challenge, first),
            Statements::Select(statement) => list::add_values(statement, sum, challenge, first),
        }
    }

    // Adds the values at `row` of the weights, as tables in this basis, to the sum, with the same
    // factors and the same answer.
    pub(crate) fn add_weights_at(
        &self,
        sum: &mut EF,
        basis: Basis,
        row: &Point<EF>,
        challenge: EF,
        first: EF,
    ) -> EF
        requires { length row.now ≡ group_arity self.now }
        ensures added { (p : ℕ) → EF.number first ≡ power EF.ops (EF.number challenge) p →
            EF.number sum.new ≡ EF.number sum.old
            +⟨ EF.ops ⟩ value_in (basis_of basis) EF.ops (batched_weight EF.ops (EF.number challenge) p (group_statements (λ x. EF.embedding (F.number x)) EF.number self.now)) (map EF.number row.now) }
        ensures next { (p : ℕ) → EF.number first ≡ power EF.ops (EF.number challenge) p →
            EF.number result ≡ power EF.ops (EF.number challenge) (p + length (group_statements (λ x. EF.embedding (F.number x)) EF.number self.now)) }
    {
        match self {
            Statements::Eq(statement) => list::add_weights_at(
                statement, sum, basis, row, challenge, first,
            ),
            Statements::Next(statement) => list::add_weights_at(
                statement, sum, basis, row, challenge, first,
            ),
            Statements::Select(statement) => list::add_weights_at(
                statement, sum, basis, row, challenge, first,
            ),
        }
    }

    // As `add_values`, and the weights are added to the rows of a table. `NoMemory` never comes.
    pub(crate) fn add_batch(
        &self,
        _alloc: Global,
        weights: &mut Poly<EF>,
        sum: &mut EF,
        challenge: EF,
        first: EF,
    ) -> Result<EF, NoMemory>
        requires { variables_of weights.old ≡ group_arity self.now }
        ensures variables { variables_of weights.new ≡ variables_of weights.old }
        ensures added { IfOk result (λ _. (p : ℕ) → EF.number first ≡ power EF.ops (EF.number challenge) p →
            AddsBatch EF.ops (group_arity self.now) (EF.number challenge) p (group_statements (λ x. EF.embedding (F.number x)) EF.number self.now)
            (gathered (table_of EF.number weights.old) (EF.number sum.old)) (gathered (table_of EF.number weights.new) (EF.number sum.new))) }
        ensures next { IfOk result (λ next. (p : ℕ) → EF.number first ≡ power EF.ops (EF.number challenge) p →
            EF.number next ≡ power EF.ops (EF.number challenge) (p + length (group_statements (λ x. EF.embedding (F.number x)) EF.number self.now))) }
        ensures answered { IsOk result }
    {
        let next = match self {
            Statements::Eq(statement) => list::add_batch(statement, weights, sum, challenge, first),
            Statements::Next(statement) => list::add_batch(
                statement, weights, sum, challenge, first,
            ),
            Statements::Select(statement) => list::add_batch(
                statement, weights, sum, challenge, first,
            ),
        };
        Ok(next)
    }
}
