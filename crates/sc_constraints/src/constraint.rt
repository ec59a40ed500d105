//! Groups of statements, batched under the powers of one challenge.

ghost use Rattle.std.specs.Prelude.{◌≡◌, ℕ, ◌+◌, ◌^◌, ◌<◌, ◌≤◌, All, length, map, IsOk, IfOk, OnOk, OnErr};
ghost use Rattle.sc_definitions.specs.Ring.{power, ◌+⟨◌⟩◌};
ghost use Rattle.sc_definitions.specs.Tables.{entries, value_in};
ghost use Rattle.sc_definitions.specs.Statements.{first_false_claim, batched_weight, batched_claim};
ghost use Rattle.sc_definitions.specs.Lucky.{after_zeros, excess};
ghost use Rattle.sc_field.specs.Powers.{base_of, start_of};
ghost use Rattle.sc_table.specs.Polys.{most_table_variables, variables_of, table_of};
ghost use Rattle.sc_table.specs.Strategy.{basis_of};
ghost use Rattle.sc_constraints.specs.Groups.{group_arity, group_statements};
ghost use Rattle.sc_statements.specs.Batches.{gathered, AddsBatch};
ghost use Rattle.sc_statements.specs.Claimed.{with_values, all_stated_truly};
ghost use Rattle.sc_constraints.specs.FalseClaims.{capped};

use crate::statement::Statements;
use sc_definitions::FalseClaim;
use sc_field::{ExtensionField, Field, NoMemory, Powers};
use sc_table::{Basis, Point, Poly, Row};
use std::alloc::Global;

/// Groups of statements on one table, in order, and the challenge whose powers batch them.
///
/// Statement number i, counted from 0 over all groups, has the coefficient challenge^(p + i), where p is
/// the initial power: the powers do not start anew at a group. The batch is the sum of the weight tables
/// times their coefficients, with the sum of the claimed values times theirs.
///
/// The caller owns the binding of the challenge: nothing here observes the statements.
#[derive(Drop)]
pub struct Constraint<F, EF> {
    num_variables: usize,
    statements: Vec<Statements<F, EF>>,
    challenge: EF,
    initial_power: usize,
    ghost fits: { All (λ s. group_arity s ≡ num_variables) statements.items },
}

impl<F: Field, EF: ExtensionField<F>> Constraint<F, EF> {
    ghost use Rattle.sc_constraints.specs.Constraints.{constraint_arity, constraint_groups, constraint_statements, constraint_challenge, constraint_power};

    /// The groups in this order, each on tables of `num_variables` variables, with the initial power 0.
    pub fn new(challenge: EF, num_variables: usize, statements: Vec<Statements<F, EF>>) -> Self
        requires { All (λ s. group_arity s ≡ num_variables) statements.items }
        ensures arity { constraint_arity result ≡ num_variables }
        ensures groups { constraint_groups result ≡ statements.items }
        ensures challenge { constraint_challenge EF.number result ≡ EF.number challenge }
        ensures power { constraint_power result ≡ 0 }
    {
        Constraint {
            num_variables,
            statements,
            challenge,
            initial_power: 0,
        }
    }

    /// The groups in this order, as [`Constraint::new`] takes them, with the initial power 1: for a batch beside a claim that is there
    /// already and has the coefficient one.
    pub fn new_with_existing_claim(
        challenge: EF,
        num_variables: usize,
        statements: Vec<Statements<F, EF>>,
    ) -> Self
        requires { All (λ s. group_arity s ≡ num_variables) statements.items }
        ensures arity { constraint_arity result ≡ num_variables }
        ensures groups { constraint_groups result ≡ statements.items }
        ensures challenge { constraint_challenge EF.number result ≡ EF.number challenge }
        ensures power { constraint_power result ≡ 1 }
    {
        Constraint {
            num_variables,
            statements,
            challenge,
            initial_power: 1,
        }
    }

    /// How many variables the tables have that it speaks of.
    pub fn num_variables(&self) -> usize
        ensures { result ≡ constraint_arity self.now }
    {
        self.num_variables
    }

    /// The groups, in order.
    pub fn statements(&self) -> &[Statements<F, EF>]
        ensures groups { result.now ≡ constraint_groups self.now }

        // Each speaks of tables of as many variables as the whole.
        ensures arity { All (λ s. group_arity s ≡ constraint_arity self.now) (constraint_groups self.now) }
    {
        self.statements.as_slice()
    }

    /// The power of the first statement.
    pub fn initial_power(&self) -> usize
        ensures { result ≡ constraint_power self.now }
    {
        self.initial_power
    }

    /// The challenge whose powers batch the statements.
    pub fn challenge(&self) -> EF
        ensures { EF.number result ≡ constraint_challenge EF.number self.now }
    {
        self.challenge
    }

    /// The powers of the challenge, from the power `initial_power + shift` on.
    pub fn challenge_powers(&self, shift: usize) -> Powers<EF>
        ensures base { EF.number (base_of result) ≡ constraint_challenge EF.number self.now }
        ensures start { EF.number (start_of result) ≡ power EF.ops (constraint_challenge EF.number self.now) (constraint_power self.now + shift) }
    {
        let skipped = self.challenge.exp_u64(shift as u64);
        self.challenge
            .shifted_powers(self.first_coefficient().mul(skipped))
    }

    // The coefficient of the first statement.
    fn first_coefficient(&self) -> EF
        ensures { EF.number result ≡ power EF.ops (constraint_challenge EF.number self.now) (constraint_power self.now) }
    {
        self.challenge.exp_u64(self.initial_power as u64)
    }

    /// Adds the batched claim to the sum.
    pub fn combine_evals(&self, eval: &mut EF)
        ensures { EF.number eval.new ≡ EF.number eval.old
            +⟨ EF.ops ⟩ batched_claim EF.ops (constraint_challenge EF.number self.now) (constraint_power self.now) (constraint_statements (λ x. EF.embedding (F.number x)) EF.number self.now) }
    {
        let mut coefficient = self.first_coefficient();
        for group in &self.statements {
            coefficient = group.add_values(eval, self.challenge, coefficient);
        }
    }

    /// Adds the batched weights to the rows of a table, which has as many variables as the statements
    /// say, and the batched claim to the sum.
    ///
    /// The rows are added to in their place: no memory is taken, and `NoMemory` never comes.
    pub fn combine(
        &self,
        alloc: Global,
        combined: &mut Poly<EF>,
        eval: &mut EF,
    ) -> Result<(), NoMemory>
        requires { variables_of combined.old ≡ constraint_arity self.now }
        ensures variables { variables_of combined.new ≡ variables_of combined.old }
        ensures ok { OnOk result (AddsBatch EF.ops (constraint_arity self.now) (constraint_challenge EF.number self.now) (constraint_power self.now)
            (constraint_statements (λ x. EF.embedding (F.number x)) EF.number self.now)
            (gathered (table_of EF.number combined.old) (EF.number eval.old)) (gathered (table_of EF.number combined.new) (EF.number eval.new))) }
        ensures answered { IsOk result }
    {
        let mut coefficient = self.first_coefficient();
        for group in &self.statements {
            coefficient = group.add_batch(alloc, combined, eval, self.challenge, coefficient)?;
        }
        Ok(())
    }

    /// The batched weights, in a table of at most 40 variables, and the batched claim.
    pub fn combine_new(&self, alloc: Global) -> Result<(Poly<EF>, EF), NoMemory>
        requires { constraint_arity self.now ≤ most_table_variables }
        ensures variables { IfOk result (λ p. variables_of p.0 ≡ constraint_arity self.now) }
        ensures weights { IfOk result (λ p. (b : ℕ) → b < 2 ^ constraint_arity self.now → table_of EF.number p.0 b
            ≡ batched_weight EF.ops (constraint_challenge EF.number self.now) (constraint_power self.now) (constraint_statements (λ x. EF.embedding (F.number x)) EF.number self.now) b) }
        ensures claim { IfOk result (λ p. EF.number p.1
            ≡ batched_claim EF.ops (constraint_challenge EF.number self.now) (constraint_power self.now) (constraint_statements (λ x. EF.embedding (F.number x)) EF.number self.now)) }
    {
        let mut combined = Poly::zero(alloc, self.num_variables)?;
        let mut eval = EF::ZERO;
        self.combine(alloc, &mut combined, &mut eval)?;
        Ok((combined, eval))
    }

    /// The value at `row` of the batched weights, as a table in this basis: of values, or of the
    /// coefficients of monomials. `row` has as many coordinates as the tables have variables.
    ///
    /// It makes no table and takes no memory: it is the sum over all statements of coefficient times the
    /// value of the statement's own weights, each taken coordinate after coordinate.
    pub fn eval_at(&self, basis: Basis, row: &Point<EF>) -> EF
        requires { length row.now ≡ constraint_arity self.now }
        ensures { EF.number result ≡ value_in (basis_of basis) EF.ops
            (batched_weight EF.ops (constraint_challenge EF.number self.now) (constraint_power self.now) (constraint_statements (λ x. EF.embedding (F.number x)) EF.number self.now)) (map EF.number row.now) }
    {
        let mut sum = EF::ZERO;
        let mut coefficient = self.first_coefficient();
        for group in &self.statements {
            coefficient = group.add_weights_at(&mut sum, basis, row, self.challenge, coefficient);
        }
        sum
    }

    /// The first statement that is false of a table, numbered from 0 over all groups, if one is.
    /// `rows` are the table's entries, row 0 first; it has as many variables as the statements say.
    /// It takes no memory.
    pub fn first_false(&self, rows: &[F]) -> Option<FalseClaim>
        requires { length rows.now ≡ 2 ^ constraint_arity self.now }
        ensures found { result ≡ capped (first_false_claim EF.ops (constraint_arity self.now)
            (λ b. EF.embedding (entries F.number rows.now b)) 0
            (constraint_statements (λ x. EF.embedding (F.number x)) EF.number self.now)) }

        // Where the statements are fewer than 2^64, the number is exact.
        ensures exact { length (constraint_statements (λ x. EF.embedding (F.number x))
            EF.number self.now) < 2 ^ 64 →
            result ≡ first_false_claim EF.ops (constraint_arity self.now)
            (λ b. EF.embedding (entries F.number rows.now b)) 0
            (constraint_statements (λ x. EF.embedding (F.number x)) EF.number self.now) }
    {
        let mut passed: usize = 0;
        for group in &self.statements {
            if let Some(claim) = group.first_false(rows) {
                return Some(FalseClaim {
                    statement: passed.saturating_add(claim.statement),
                    claimed: claim.claimed,
                    actual: claim.actual,
                });
            }
            passed = passed.saturating_add(group.len());
        }
        None
    }

    /// The polynomial that the batching challenge is put into, the constant first: what each
    /// statement claims, less its true value of a table, at the statement's power. So as many zeros
    /// stand first as the initial power says, and the batched claim exceeds the true one by the
    /// polynomial's value at the challenge. `rows` are the table's entries, row 0 first; it has as
    /// many variables as the statements say.
    pub fn batch_polynomial(&self, alloc: Global, rows: &[F]) -> Result<Row<EF>, NoMemory>
        requires { length rows.now ≡ 2 ^ constraint_arity self.now }
        ensures { IfOk result (λ v. map EF.number v ≡ after_zeros (constraint_power self.now)
            (map (excess EF.ops (constraint_arity self.now)
            (λ b. EF.embedding (entries F.number rows.now b)))
            (constraint_statements (λ x. EF.embedding (F.number x)) EF.number self.now))) }
    {
        let mut coefficients = Vec::new(alloc);
        coefficients.resize(self.initial_power, EF::ZERO)?;
        for group in &self.statements {
            group.push_excesses(rows, &mut coefficients)?;
        }
        Ok(Row::new(coefficients))
    }

    /// Each statement claims the value that stands at its place, over all groups in order, in place
    /// of the one that it claimed. There are as many values as statements.
    pub fn claim_values(&mut self, values: &[EF])
        requires { length values.now
            ≡ length (constraint_statements (λ x. EF.embedding (F.number x)) EF.number self.old) }
        ensures arity { constraint_arity self.new ≡ constraint_arity self.old }
        ensures challenge { constraint_challenge EF.number self.new
            ≡ constraint_challenge EF.number self.old }
        ensures power { constraint_power self.new ≡ constraint_power self.old }
        ensures statements { constraint_statements (λ x. EF.embedding (F.number x))
            EF.number self.new ≡ with_values
            (constraint_statements (λ x. EF.embedding (F.number x)) EF.number self.old)
            (map EF.number values.now) }
    {
        let mut from: usize = 0;
        for group in self.statements.iter_mut() {
            let to = from + group.len();
            group.claim_values(&values[from..to]);
            from = to;
        }
    }

    /// Each statement claims its true value of a table, in place of the value that it claimed.
    /// `rows` are the table's entries, row 0 first; it has as many variables as the statements say.
    /// It takes no memory.
    pub fn claim_truth(&mut self, rows: &[F])
        requires { length rows.now ≡ 2 ^ constraint_arity self.old }
        ensures arity { constraint_arity self.new ≡ constraint_arity self.old }
        ensures challenge { constraint_challenge EF.number self.new
            ≡ constraint_challenge EF.number self.old }
        ensures power { constraint_power self.new ≡ constraint_power self.old }
        ensures statements { constraint_statements (λ x. EF.embedding (F.number x))
            EF.number self.new ≡ all_stated_truly EF.ops (constraint_arity self.old)
            (λ b. EF.embedding (entries F.number rows.now b))
            (constraint_statements (λ x. EF.embedding (F.number x)) EF.number self.old) }
    {
        for group in self.statements.iter_mut() {
            group.claim_truth(rows);
        }
    }
}
