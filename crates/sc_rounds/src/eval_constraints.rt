//! The value of constraints' weights where the challenges end.
ghost use Rattle.std.specs.Prelude.{◌≡◌, ◌≤◌, All, IfOk, length, map};
ghost use Rattle.sc_definitions.specs.Tables.{Order, point_of};
ghost use Rattle.sc_constraints.specs.Constraints.{constraint_arity};
ghost use Rattle.sc_table.specs.Strategy.{order_of};
ghost use Rattle.sc_constraints.specs.ConstraintValues.{last_of, constraints_value};

use sc_constraints::Constraint;
use sc_field::{ExtensionField, Field, NoMemory};
use sc_table::{Basis, Point, VariableOrder};
use std::alloc::Global;

/// An order in which challenges bind variables, as it says at which of them a constraint's weights have their value.
pub trait EvalConstraints {
    // Which variable a round binds.
    ghost order: { Self → Order };

    /// The sum over the constraints of the value of each one's batched weights at the last `k` challenges, `k` being how many variables its tables
    /// have: in drawing order where rounds bind the first variable, and the last challenge first where they bind the last one. No constraint has more
    /// variables than there are challenges.
    ///
    /// A constraint that is taken in when some rounds are played has fewer variables than the first ones, and none of their challenges.
    fn eval_constraints_poly<F: Field, EF: ExtensionField<F>>(
        self,
        alloc: Global,
        constraints: &[Constraint<F, EF>],
        challenge: &Point<EF>,
    ) -> Result<EF, NoMemory>
        requires { All (λ c. constraint_arity c ≤ length challenge.now) constraints.now }
        ensures { IfOk result (λ x. EF.number x ≡ constraints_value EF.ops (λ x. EF.embedding (F.number x)) EF.number (order self) (map EF.number challenge.now) constraints.now) };
}

impl EvalConstraints for VariableOrder {
    ghost order = { order_of };

    fn eval_constraints_poly<F: Field, EF: ExtensionField<F>>(
        self,
        alloc: Global,
        constraints: &[Constraint<F, EF>],
        challenge: &Point<EF>,
    ) -> Result<EF, NoMemory> {
        let mut sum = EF::ZERO;
        for constraint in constraints {
            let point = last_point(alloc, self, challenge, constraint.num_variables())?;
            sum = sum.add(constraint.eval_at(Basis::Evaluation, &point));
        }
        Ok(sum)
    }
}

// The point that the last `k` challenges make.
fn last_point<EF: Field>(
    alloc: Global,
    order: VariableOrder,
    challenge: &Point<EF>,
    k: usize,
) -> Result<Point<EF>, NoMemory>
    requires { k ≤ length challenge.now }
    ensures coordinates { IfOk result (λ p. length p ≡ k) }
    ensures point { IfOk result (λ p. map EF.number p ≡ point_of (order_of order) (last_of k (map EF.number challenge.now))) }
{
    let (_, last) = challenge.split_at(alloc, challenge.num_variables() - k)?;
    match order {
        VariableOrder::Prefix => Ok(last),
        VariableOrder::Suffix => last.reversed(alloc),
    }
}
