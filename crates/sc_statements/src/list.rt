//! Groups of statements of one kind, and what is taken from them one statement after the other.

ghost use Rattle.std.specs.Prelude.{◌≡◌, ℕ, ◌+◌, ◌++◌, ◌^◌, ◌<◌, ◌↔◌, List, length, map, slice_index, IsTrue, OnErr, OnOk};
ghost use Rattle.sc_definitions.specs.Ring.{power, ◌+⟨◌⟩◌, ◌*⟨◌⟩◌};
ghost use Rattle.sc_definitions.specs.Tables.{entries, value_in};
ghost use Rattle.sc_definitions.specs.Statements.{Statement, AllTrueOf, first_false_claim, true_values, claimed_values, weights_at, batched_weight, batched_claim};
ghost use Rattle.sc_definitions.specs.Lucky.{excess};
ghost use Rattle.sc_table.specs.Polys.{variables_of, table_of};
ghost use Rattle.sc_table.specs.Strategy.{basis_of};
ghost use Rattle.sc_statements.specs.Batches.{gathered, AddsBatch};
ghost use Rattle.sc_statements.specs.Weights.{weight_values};
ghost use Rattle.sc_statements.specs.Claimed.{with_value, with_values, all_stated_truly};
ghost use Rattle.sc_statements.specs.Gains.{GainsFirst};

use sc_definitions::FalseClaim;
use sc_field::{Algebra, Field, NoMemory};
use sc_table::{Basis, Point, Poly};

/// Statements of one kind on tables of one number of variables, in order, each by its number from 0 on.
pub trait StatementList<EF: Field>: Drop {
    // How many variables the tables have that it speaks of.
    ghost arity: { Self → ℕ };

    // The statements, in order.
    ghost statements: { Self → List Statement };

    /// How many statements there are.
    fn count(&self) -> usize
        ensures { result ≡ length (statements self.now) };

    /// The value that a statement claims.
    fn claim_at(&self, index: usize) -> EF
        requires { index < length (statements self.now) }
        ensures { EF.number result ≡ slice_index (claimed_values (statements self.now)) index };

    /// A statement's true value, where `rows` are the entries of a table of as many variables as
    /// the statements say.
    fn truth_at<A: Field>(&self, index: usize, rows: &[A]) -> EF
    where
        EF: Algebra<A>,
        requires index { index < length (statements self.now) }
        requires size { length rows.now ≡ 2 ^ arity self.now }
        ensures { EF.number result ≡ slice_index (true_values EF.ops (arity self.now)
            (λ b. EF.embedding (entries A.number rows.now b)) (statements self.now)) index };

    /// A statement claims this value from now on; all else stays.
    fn claim(&mut self, index: usize, value: EF)
        requires { index < length (statements self.old) }
        ensures arity { arity self.new ≡ arity self.old }
        ensures statements { statements self.new
            ≡ with_value (statements self.old) index (EF.number value) };

    /// Adds `scale` times a statement's weights to the rows of a table, which has as many variables as the statements say.
    fn add_weights(&self, index: usize, table: &mut Poly<EF>, scale: EF)
        requires index { index < length (statements self.now) }
        requires arity { variables_of table.old ≡ arity self.now }
        ensures variables { variables_of table.new ≡ variables_of table.old }
        ensures table { (b : ℕ) → b < 2 ^ arity self.now → table_of EF.number table.new b
            ≡ table_of EF.number table.old b +⟨ EF.ops ⟩ EF.number scale *⟨ EF.ops ⟩ slice_index (weights_at EF.ops (statements self.now) b) index };

    /// The value at a point of a statement's weights, as a table in this basis. The point has as many
    /// coordinates as the tables have variables.
    fn weight_at(&self, index: usize, basis: Basis, row: &Point<EF>) -> EF
        requires index { index < length (statements self.now) }
        requires arity { length row.now ≡ arity self.now }
        ensures { EF.number result ≡ slice_index (weight_values (basis_of basis) EF.ops
            (map EF.number row.now) (statements self.now)) index };
}

/// The first statement that is false of a table, numbered from 0 on, if one is. `rows` are the
/// table's entries, row 0 first; it has as many variables as the statements say. It takes no memory.
pub fn first_false<A: Field, EF: Algebra<A>, S: StatementList<EF>>(
    statements: &S,
    rows: &[A],
) -> Option<FalseClaim>
    requires { length rows.now ≡ 2 ^ S.arity statements.now }
    ensures { result ≡ first_false_claim EF.ops (S.arity statements.now)
        (λ b. EF.embedding (entries A.number rows.now b)) 0 (S.statements statements.now) }
{
    for i in 0..statements.count() {
        let claimed = statements.claim_at(i);
        let actual: EF = statements.truth_at(i, rows);
        if actual != claimed {
            return Some(FalseClaim {
                statement: i,
                claimed: claimed.index(),
                actual: actual.index(),
            });
        }
    }
    None
}

/// Each statement claims from now on the value that stands at its place. There are as many values as
/// statements.
pub fn claim_values<EF: Field, S: StatementList<EF>>(statements: &mut S, values: &[EF])
    requires { length values.now ≡ length (S.statements statements.old) }
    ensures arity { S.arity statements.new ≡ S.arity statements.old }
    ensures statements { S.statements statements.new
        ≡ with_values (S.statements statements.old) (map EF.number values.now) }
{
    for i in 0..values.len() {
        statements.claim(i, values[i]);
    }
}

/// Each statement claims from now on its true value of a table. `rows` are the table's entries, row 0
/// first; it has as many variables as the statements say. It takes no memory.
pub fn claim_truth<A: Field, EF: Algebra<A>, S: StatementList<EF>>(statements: &mut S, rows: &[A])
    requires { length rows.now ≡ 2 ^ S.arity statements.old }
    ensures arity { S.arity statements.new ≡ S.arity statements.old }
    ensures statements { S.statements statements.new
        ≡ all_stated_truly EF.ops (S.arity statements.old)
        (λ b. EF.embedding (entries A.number rows.now b)) (S.statements statements.old) }
{
    for i in 0..statements.count() {
        let actual: EF = statements.truth_at(i, rows);
        statements.claim(i, actual);
    }
}

/// Adds to a list, in order, what each statement claims, less its true value of a table. `rows` are
/// the table's entries, row 0 first; it has as many variables as the statements say. After
/// `NoMemory` the list is what it was, with those of the first few statements after it, of fewer
/// than all.
pub fn push_excesses<A: Field, EF: Algebra<A>, S: StatementList<EF>>(
    statements: &S,
    rows: &[A],
    excesses: &mut Vec<EF>,
) -> Result<(), NoMemory>
    requires { length rows.now ≡ 2 ^ S.arity statements.now }
    ensures added { OnOk result (map EF.number excesses.new.items
        ≡ map EF.number excesses.old.items ++ map (excess EF.ops (S.arity statements.now)
        (λ b. EF.embedding (entries A.number rows.now b))) (S.statements statements.now)) }
    ensures refused { OnErr result (GainsFirst EF.number (map (excess EF.ops (S.arity statements.now)
        (λ b. EF.embedding (entries A.number rows.now b))) (S.statements statements.now))
        excesses.old.items excesses.new.items) }
{
    for i in 0..statements.count() {
        let actual: EF = statements.truth_at(i, rows);
        excesses.push(statements.claim_at(i).sub(actual))?;
    }
    Ok(())
}

// Whether every statement is true of the table with these rows. It takes no memory.
pub(crate) fn all_true<A: Field, EF: Algebra<A>, S: StatementList<EF>>(
    statements: &S,
    rows: &[A],
) -> bool
    requires { length rows.now ≡ 2 ^ S.arity statements.now }
    ensures { IsTrue result ↔ AllTrueOf EF.ops (S.arity statements.now)
        (λ b. EF.embedding (entries A.number rows.now b)) (S.statements statements.now) }
{
    first_false(statements, rows).is_none()
}

/// Adds the claimed values to the sum, that of the first statement times `first`, which is a power of
/// the challenge, and that of each next one times the challenge once more. The answer is the factor of
/// a statement after the last: a factor and no number of its power, since powers over groups may pass
/// any type.
pub fn add_values<EF: Field, S: StatementList<EF>>(
    statements: &S,
    sum: &mut EF,
    challenge: EF,
    first: EF,
) -> EF
    ensures added { (p : ℕ) → EF.number first ≡ power EF.ops (EF.number challenge) p →
        EF.number sum.new ≡ EF.number sum.old +⟨ EF.ops ⟩ batched_claim EF.ops (EF.number challenge) p (S.statements statements.now) }
    ensures next { (p : ℕ) → EF.number first ≡ power EF.ops (EF.number challenge) p →
        EF.number result ≡ power EF.ops (EF.number challenge) (p + length (S.statements statements.now)) }
{
    let mut coefficient = first;
    for i in 0..statements.count() {
        *sum = sum.add(coefficient.mul(statements.claim_at(i)));
        coefficient = coefficient.mul(challenge);
    }
    coefficient
}

/// Adds the claimed values to the sum, as [`add_values`] does, and the weights, with the same factors,
/// to the rows of a table, which has as many variables as the statements say.
pub fn add_batch<EF: Field, S: StatementList<EF>>(
    statements: &S,
    weights: &mut Poly<EF>,
    sum: &mut EF,
    challenge: EF,
    first: EF,
) -> EF
    requires { variables_of weights.old ≡ S.arity statements.now }
    ensures variables { variables_of weights.new ≡ variables_of weights.old }
    ensures added { (p : ℕ) → EF.number first ≡ power EF.ops (EF.number challenge) p →
        AddsBatch EF.ops (S.arity statements.now) (EF.number challenge) p (S.statements statements.now)
        (gathered (table_of EF.number weights.old) (EF.number sum.old)) (gathered (table_of EF.number weights.new) (EF.number sum.new)) }
    ensures next { (p : ℕ) → EF.number first ≡ power EF.ops (EF.number challenge) p →
        EF.number result ≡ power EF.ops (EF.number challenge) (p + length (S.statements statements.now)) }
{
    let mut coefficient = first;
    for i in 0..statements.count() {
        statements.add_weights(i, weights, coefficient);
        coefficient = coefficient.mul(challenge);
    }
    add_values(statements, sum, challenge, first)
}

/// Adds to the sum the values at `row` of the statements' weights, as tables in this basis, with the
/// factors and the answer of [`add_values`]. `row` has as many coordinates as the tables have variables.
pub fn add_weights_at<EF: Field, S: StatementList<EF>>(
    statements: &S,
    sum: &mut EF,
    basis: Basis,
    row: &Point<EF>,
    challenge: EF,
    first: EF,
) -> EF
    requires { length row.now ≡ S.arity statements.now }
    ensures added { (p : ℕ) → EF.number first ≡ power EF.ops (EF.number challenge) p →
        EF.number sum.new ≡ EF.number sum.old
        +⟨ EF.ops ⟩ value_in (basis_of basis) EF.ops (batched_weight EF.ops (EF.number challenge) p
        (S.statements statements.now)) (map EF.number row.now) }
    ensures next { (p : ℕ) → EF.number first ≡ power EF.ops (EF.number challenge) p →
        EF.number result ≡ power EF.ops (EF.number challenge) (p + length (S.statements statements.now)) }
{
    let mut coefficient = first;
    for i in 0..statements.count() {
        *sum = sum.add(coefficient.mul(statements.weight_at(i, basis, row)));
        coefficient = coefficient.mul(challenge);
    }
    coefficient
}
