//! Statements as the claims of a batch, with the values that they claim.
ghost use Rattle.std.specs.Prelude.{◌≡◌, ℕ, ◌∷◌, [], ◌++◌, List, length, map, IfOk, OnOk};
ghost use Rattle.sc_definitions.specs.Statements.{
  Statement,
  claimed_values,
  true_values,
  first_false_claim,
};
ghost use Rattle.sc_constraints.specs.Constraints.{
  constraint_arity,
  constraint_statements,
  constraint_challenge,
  constraint_power,
};
ghost use Rattle.sc_statements.specs.EqStatements.{eq_arity, eq_statements};
ghost use Rattle.sc_statements.specs.NextStatements.{next_arity, next_statements};
ghost use Rattle.sc_constraints.specs.Groups.{group_arity, group_statements};
ghost use Rattle.sc_svo.specs.Claims.{AreOn, claims_in};
ghost use Rattle.sc_jobs.specs.Taken.{AreTaken, AppendsBy, IsNextFactor, claims_from, listed_in};

use sc_constraints::{Constraint, EqStatement, NextStatement, Statements};
use sc_definitions::FalseClaim;
use sc_field::{ExtensionField, Field, NoMemory};
use sc_svo::SvoClaim;
use std::alloc::Global;

/// Claims of a batch, and the values that are claimed, in the order of the statements.
#[derive(Drop)]
pub struct Claimed<EF> {
    /// The claims, each with its coefficient.
    pub claims: Vec<SvoClaim<EF>>,
    /// The values that are claimed.
    pub values: Vec<EF>,
}

impl<EF: Field> Claimed<EF> {
    // Appends a claim and its value.
    fn push(&mut self, claim: SvoClaim<EF>, value: EF) -> Result<(), NoMemory>
        ensures claims { OnOk result (self.new.claims.items ≡ self.old.claims.items ++ claim ∷ []) }
        ensures values { OnOk result (self.new.values.items ≡ self.old.values.items ++ value ∷ []) }
    {
        self.claims.push(claim)?;
        self.values.push(value)?;
        Ok(())
    }
}

/// The claims that statements are, in order: statement number i times the power of the challenge
/// that it has in the batch.
pub fn claims_of<F: Field, EF: ExtensionField<F>>(
    alloc: Global,
    constraint: &Constraint<F, EF>,
) -> Result<Claimed<EF>, NoMemory>
    requires { AreTaken
        (constraint_statements (λ x. EF.embedding (F.number x)) EF.number constraint.now) }
    ensures claims { IfOk result (λ c. claims_in EF.number c.claims.items ≡ claims_from EF.ops
        (constraint_challenge EF.number constraint.now) (constraint_power constraint.now)
        (constraint_statements (λ x. EF.embedding (F.number x)) EF.number constraint.now)) }
    ensures values { IfOk result (λ c. map EF.number c.values.items ≡ claimed_values
        (constraint_statements (λ x. EF.embedding (F.number x)) EF.number constraint.now)) }
    ensures on { IfOk result (λ c. AreOn (constraint_arity constraint.now) c.claims.items) }
{
    let challenge = constraint.challenge();
    let mut coefficient = challenge.exp_u64(constraint.initial_power() as u64);
    let mut claimed = Claimed {
        claims: Vec::new(alloc),
        values: Vec::new(alloc),
    };
    for group in constraint.statements() {
        coefficient = push_group(alloc, &mut claimed, group, challenge, coefficient)?;
    }
    Ok(claimed)
}

// Appends the claims of a group, the first times `first`, and each next one times the challenge
// once more. The answer is the factor of a claim after the last.
fn push_group<F: Field, EF: ExtensionField<F>>(
    alloc: Global,
    claimed: &mut Claimed<EF>,
    group: &Statements<F, EF>,
    challenge: EF,
    first: EF,
) -> Result<EF, NoMemory>
    requires { AreTaken
        (group_statements (λ x. EF.embedding (F.number x)) EF.number group.now) }
    ensures claims { OnOk result (AppendsBy EF.ops (EF.number challenge) (EF.number first)
        (group_statements (λ x. EF.embedding (F.number x)) EF.number group.now)
        (listed_in EF.number claimed.old) (listed_in EF.number claimed.new)) }
    ensures next { IfOk result (λ next. IsNextFactor EF.ops (EF.number challenge) (EF.number first)
        (group_statements (λ x. EF.embedding (F.number x)) EF.number group.now) (EF.number next)) }
    ensures on { AreOn (group_arity group.now) claimed.old.claims.items →
        OnOk result (AreOn (group_arity group.now) claimed.new.claims.items) }
{
    match group {
        Statements::Eq(statement) => push_values(alloc, claimed, statement, challenge, first),
        Statements::Next(statement) => push_successors(alloc, claimed, statement, challenge, first),
        // there is none: small-value rounds take no select
        Statements::Select(_) => Ok(first),
    }
}

// The same of values at points.
fn push_values<EF: Field>(
    alloc: Global,
    claimed: &mut Claimed<EF>,
    statement: &EqStatement<EF>,
    challenge: EF,
    first: EF,
) -> Result<EF, NoMemory>
    ensures claims { OnOk result (AppendsBy EF.ops (EF.number challenge) (EF.number first)
        (eq_statements EF.number statement.now)
        (listed_in EF.number claimed.old) (listed_in EF.number claimed.new)) }
    ensures next { IfOk result (λ next. IsNextFactor EF.ops (EF.number challenge) (EF.number first)
        (eq_statements EF.number statement.now) (EF.number next)) }
    ensures on { AreOn (eq_arity statement.now) claimed.old.claims.items →
        OnOk result (AreOn (eq_arity statement.now) claimed.new.claims.items) }
{
    let mut coefficient = first;
    for (point, value) in statement.iter() {
        let point = point.copy(alloc)?;
        let claim = SvoClaim {
            point,
            successor: false,
            coefficient,
        };
        claimed.push(claim, *value)?;
        coefficient = coefficient.mul(challenge);
    }
    Ok(coefficient)
}

// The same of values through the successor map, none with a selector.
fn push_successors<EF: Field>(
    alloc: Global,
    claimed: &mut Claimed<EF>,
    statement: &NextStatement<EF>,
    challenge: EF,
    first: EF,
) -> Result<EF, NoMemory>
    requires { AreTaken (next_statements EF.number statement.now) }
    ensures claims { OnOk result (AppendsBy EF.ops (EF.number challenge) (EF.number first)
        (next_statements EF.number statement.now)
        (listed_in EF.number claimed.old) (listed_in EF.number claimed.new)) }
    ensures next { IfOk result (λ next. IsNextFactor EF.ops (EF.number challenge) (EF.number first)
        (next_statements EF.number statement.now) (EF.number next)) }
    ensures on { AreOn (next_arity statement.now) claimed.old.claims.items →
        OnOk result (AreOn (next_arity statement.now) claimed.new.claims.items) }
{
    let mut coefficient = first;
    for i in 0..statement.len() {
        let point = statement.point(i).copy(alloc)?;
        let claim = SvoClaim {
            point,
            successor: true,
            coefficient,
        };
        claimed.push(claim, statement.claimed_value(i))?;
        coefficient = coefficient.mul(challenge);
    }
    Ok(coefficient)
}

/// The first of these claimed values that is another than the actual one, told by its place.
pub fn first_other<EF: Field>(claimed: &[EF], actual: &[EF]) -> Option<FalseClaim>
    requires { length actual.now ≡ length claimed.now }
    ensures { (n : ℕ) (f : ℕ → ℕ) (ss : List Statement) →
        map EF.number claimed.now ≡ claimed_values ss →
        map EF.number actual.now ≡ true_values EF.ops n f ss →
        result ≡ first_false_claim EF.ops n f 0 ss }
{
    for i in 0..claimed.len() {
        let told = claimed[i];
        let found = actual[i];
        if found != told {
            return Some(FalseClaim {
                statement: i,
                claimed: told.index(),
                actual: found.index(),
            });
        }
    }
    None
}
