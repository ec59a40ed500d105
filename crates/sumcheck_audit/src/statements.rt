//! The statements that the claims of a job make.
ghost use Rattle.std.specs.Prelude.{◌≡◌, All, IfOk, map};
ghost use Rattle.sc_constraints.specs.Constraints.{constraint_challenge, constraint_power};
ghost use Rattle.sumcheck_members.specs.Statements.{EqualityFits, GroupFits, ProductFits};
ghost use Rattle.sumcheck_members.specs.Statements.{ScalarFits, SuccessorFits, all_claims};
ghost use Rattle.sumcheck_members.specs.Statements.{equality_statement, group_claims};
ghost use Rattle.sumcheck_members.specs.Statements.{product_statement, scalar_statement};
ghost use Rattle.sumcheck_members.specs.Statements.{successor_statement};
ghost use Rattle.sumcheck_replies.specs.Fields.{sizes_over};
ghost use Rattle.sumcheck_audit.specs.Claimed.{ConstraintStates, EqStates, GroupStates};
ghost use Rattle.sumcheck_audit.specs.Claimed.{NextStates, SelectStates};

use sc_constraints::{Constraint, EqStatement, NextStatement, SelectStatement, Statements};
use sc_field::{ExtensionField, Field, NoMemory};
use sc_table::Point;
use std::alloc::Global;
use sumcheck_members::{EqualityClaim, Group, ProductClaim, ScalarClaim, SuccessorClaim};
use sumcheck_replies::elements;

/// The groups of claims on tables of so many variables as groups of statements, with the element
/// whose powers batch them.
pub fn constraint_of<F: Field, EF: ExtensionField<F>>(
    alloc: Global,
    groups: &[Group],
    variables: usize,
    batching: EF,
) -> Result<Constraint<F, EF>, NoMemory>
    requires { All (GroupFits (sizes_over F.ops EF.ops) variables) groups.now }
    ensures states { IfOk result (ConstraintStates F.number EF.embedding EF.number variables
        (all_claims EF.embedding groups.now)) }
    ensures batched { IfOk result (λ c. (constraint_challenge EF.number c ≡ EF.number batching)
        × (constraint_power c ≡ 0)) }
{
    let mut made = Vec::with_capacity(alloc, groups.len())?;
    for group in groups {
        made.push(statements_of(alloc, group, variables)?)?;
    }
    Ok(Constraint::new(batching, variables, made))
}

// The claims of a group as statements.
fn statements_of<F: Field, EF: ExtensionField<F>>(
    alloc: Global,
    group: &Group,
    variables: usize,
) -> Result<Statements<F, EF>, NoMemory>
    requires { GroupFits (sizes_over F.ops EF.ops) variables group.now }
    ensures { IfOk result (GroupStates F.number EF.embedding EF.number variables
        (group_claims EF.embedding group.now)) }
{
    match group {
        Group::Equality(claims) => {
            let statement = equality_of(alloc, claims.as_slice(), variables)?;
            Ok(Statements::Eq(statement))
        }
        Group::Successor(claims) => {
            let statement = successor_of(alloc, claims.as_slice(), variables)?;
            Ok(Statements::Next(statement))
        }
        Group::Scalars(claims) => {
            let statement = scalars_of(alloc, claims.as_slice(), variables)?;
            Ok(Statements::Select(statement))
        }
        Group::Products(claims) => {
            let statement = products_of(alloc, claims.as_slice(), variables)?;
            Ok(Statements::Select(statement))
        }
    }
}

// The claims as statements that the table has a value at a point.
fn equality_of<F: Field>(
    alloc: Global,
    claims: &[EqualityClaim],
    variables: usize,
) -> Result<EqStatement<F>, NoMemory>
    requires { All (EqualityFits F.ops.size variables) claims.now }
    ensures { IfOk result (EqStates F.number variables (map equality_statement claims.now)) }
{
    let mut statement = EqStatement::initialize(alloc, variables);
    for claim in claims {
        let coords = elements(alloc, claim.point.as_slice())?;
        statement.add_evaluated_constraint(Point::new(coords), F::element(claim.value))?;
    }
    Ok(statement)
}

// The claims as statements that the table has a value through the successor map.
fn successor_of<F: Field>(
    alloc: Global,
    claims: &[SuccessorClaim],
    variables: usize,
) -> Result<NextStatement<F>, NoMemory>
    requires { All (SuccessorFits F.ops.size variables) claims.now }
    ensures { IfOk result (NextStates F.number variables (map successor_statement claims.now)) }
{
    let mut statement = NextStatement::initialize(alloc, variables);
    for claim in claims {
        let selector = Point::new(elements(alloc, claim.selector.as_slice())?);
        let point = Point::new(elements(alloc, claim.point.as_slice())?);
        let value = F::element(claim.value);
        statement.add_evaluated_constraint(selector, point, value, claim.order)?;
    }
    Ok(statement)
}

// The claims as statements that a scalar's powers select a value.
fn scalars_of<F: Field, EF: ExtensionField<F>>(
    alloc: Global,
    claims: &[ScalarClaim],
    variables: usize,
) -> Result<SelectStatement<F, EF>, NoMemory>
    requires { All (ScalarFits (sizes_over F.ops EF.ops)) claims.now }
    ensures { IfOk result (SelectStates F.number EF.embedding EF.number variables
        (map (scalar_statement EF.embedding) claims.now)) }
{
    let mut statement = SelectStatement::initialize(alloc, variables);
    for claim in claims {
        statement.add_constraint(F::element(claim.scalar), EF::element(claim.value))?;
    }
    Ok(statement)
}

// The claims as statements that a direct point's products select a value.
fn products_of<F: Field, EF: ExtensionField<F>>(
    alloc: Global,
    claims: &[ProductClaim],
    variables: usize,
) -> Result<SelectStatement<F, EF>, NoMemory>
    requires { All (ProductFits (sizes_over F.ops EF.ops) variables) claims.now }
    ensures { IfOk result (SelectStates F.number EF.embedding EF.number variables
        (map (product_statement EF.embedding) claims.now)) }
{
    let mut statement = SelectStatement::initialize(alloc, variables);
    for claim in claims {
        let point = Point::new(elements(alloc, claim.point.as_slice())?);
        statement.add_point_constraint(point, EF::element(claim.value))?;
    }
    Ok(statement)
}
