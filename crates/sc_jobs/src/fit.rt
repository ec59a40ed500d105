//! Which strategies fit the statements of a job.
ghost use Rattle.std.specs.Prelude.{◌≡◌};
ghost use Rattle.sc_table.specs.Strategy.{basis_of};
ghost use Rattle.sc_constraints.specs.Constraints.{constraint_arity, constraint_statements};
ghost use Rattle.sc_constraints.specs.Groups.{group_statements};
ghost use Rattle.sc_statements.specs.NextStatements.{next_statements};
ghost use Rattle.sc_jobs.specs.Fitting.{stated_in};
ghost use Rattle.sc_jobs.specs.Refusals.{first_unfit, basis_refusal, small_refusal, strategy_refusal, refusal_in};

use crate::shape::FittingJob;
use sc_audit_errors::{AuditError, FitFault};
use sc_constraints::{Constraint, NextStatement, Statements};
use sc_field::{ExtensionField, Field};
use sc_svo::MOST_ROUNDS;
use sc_table::{Basis, Strategy};

/// Refuses a strategy that does not fit a job: another one than the plain one of coefficients; or
/// small-value rounds for no variable, for more than the job has or than the greatest number, or of
/// a statement that they do not take.
pub fn check_strategy<F: Field, EF: ExtensionField<F>>(
    fitting: &FittingJob<'_, F, EF>,
    strategy: Strategy,
) -> Result<(), AuditError>
    ensures { strategy_refusal (stated_in fitting.now) strategy ≡ refusal_in result }
{
    match strategy {
        Strategy::Plain => Ok(()),
        Strategy::Represented => check_values(fitting.job.basis),
        Strategy::SmallValue { variables } => {
            check_values(fitting.job.basis)?;
            check_small_values(&fitting.job.constraint, variables)
        }
    }
}

// Refuses coefficients.
fn check_values(basis: Basis) -> Result<(), AuditError>
    ensures { basis_refusal (basis_of basis) ≡ refusal_in result }
{
    match basis {
        Basis::Evaluation => Ok(()),
        Basis::Projective => Err(AuditError::StrategyUnfit(FitFault::Projective)),
    }
}

// Refuses small-value rounds for so many variables.
fn check_small_values<F: Field, EF: ExtensionField<F>>(
    constraint: &Constraint<F, EF>,
    variables: usize,
) -> Result<(), AuditError>
    ensures { small_refusal (constraint_arity constraint.now)
        (constraint_statements (λ x. EF.embedding (F.number x)) EF.number constraint.now) variables
        ≡ refusal_in result }
{
    let bound = constraint.num_variables().min(MOST_ROUNDS);
    if variables == 0 || variables > bound {
        return Err(AuditError::StrategyUnfit(FitFault::Variables { variables, bound }));
    }
    if let Some(error) = unfit_statement(constraint) {
        return Err(error);
    }
    Ok(())
}

// The refusal of the first statement that small-value rounds do not take, which is told by its
// number over all groups.
fn unfit_statement<F: Field, EF: ExtensionField<F>>(
    constraint: &Constraint<F, EF>,
) -> Option<AuditError>
    ensures { result ≡ first_unfit 0
        (constraint_statements (λ x. EF.embedding (F.number x)) EF.number constraint.now) }
{
    let mut passed: usize = 0;
    for group in constraint.statements() {
        if let Some(error) = unfit_of_group(group, passed) {
            return Some(error);
        }
        passed = passed.saturating_add(group.len());
    }
    None
}

// The same in a group, of whose statements the first has this number.
fn unfit_of_group<F: Field, EF: ExtensionField<F>>(
    group: &Statements<F, EF>,
    passed: usize,
) -> Option<AuditError>
    ensures { result ≡ first_unfit passed
        (group_statements (λ x. EF.embedding (F.number x)) EF.number group.now) }
{
    match group {
        Statements::Eq(_) => None,
        Statements::Next(statement) => unfit_successor(statement, passed),
        Statements::Select(statement) => {
            if statement.is_empty() {
                return None;
            }
            Some(AuditError::StrategyUnfit(FitFault::Select { statement: passed }))
        }
    }
}

// The same of successors, of which the first has this number.
fn unfit_successor<EF: Field>(statement: &NextStatement<EF>, passed: usize) -> Option<AuditError>
    ensures { result ≡ first_unfit passed (next_statements EF.number statement.now) }
{
    for i in 0..statement.len() {
        if statement.has_selector(i) {
            return Some(AuditError::StrategyUnfit(FitFault::Selector {
                statement: passed.saturating_add(i),
            }));
        }
    }
    None
}
