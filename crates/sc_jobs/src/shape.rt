//! What a job has to be like before a round is played.
ghost use Rattle.std.specs.Prelude.{◌≡◌, ◌≤◌, ◌^◌, Some, None, IfOk, OnOk, vec_len};
ghost use Rattle.sc_definitions.specs.Tables.{IsOffered};
ghost use Rattle.sc_definitions.specs.Offers.{IsOffered-prop};
ghost use Rattle.sc_table.specs.Strategy.{basis_of, order_of};
ghost use Rattle.sc_constraints.specs.Constraints.{constraint_arity};
ghost use Rattle.sc_audit_errors.specs.Arities.{most_variables, arity_of};
ghost use Rattle.sc_jobs.specs.Refusals.{shape_by, refusal_in};

use crate::job::Job;
use sc_audit_errors::{AuditError, ShapeFault, arity};
use sc_field::{ExtensionField, Field};

/// A job of the right shape: its table has a row for each choice of its statements' variables, of
/// which there are at most the greatest number, and its basis is offered with its order.
#[derive(Drop)]
pub struct FittingJob<'a, F: Field, EF: ExtensionField<F>> {
    pub job: &'a Job<F, EF>,
    ghost rows: { vec_len job.now.table ≡ 2 ^ constraint_arity job.now.constraint },
    ghost few: { constraint_arity job.now.constraint ≤ most_variables },
    ghost offered: { IsOffered (basis_of job.now.basis) (order_of job.now.order) } by { IsOffered-prop (basis_of job.now.basis) (order_of job.now.order) },
}

impl<'a, F: Field, EF: ExtensionField<F>> FittingJob<'a, F, EF> {
    ghost use Rattle.sc_jobs.specs.Fitting.{job_in};

    /// The job, unless its table's number of rows is no power of two up to that of the greatest
    /// number of variables, its difficulty is above the greatest one, its statements are on
    /// another number of variables than the table has, or its basis is not offered with its order,
    /// tested one after the other.
    pub fn of(job: &'a Job<F, EF>, max_bits: usize) -> Result<Self, AuditError>
        ensures same { IfOk result (λ f. job_in f ≡ job.now) }
        ensures shape { shape_by (arity_of (vec_len job.now.table)) max_bits (vec_len job.now.table) job.now.pow_bits (constraint_arity job.now.constraint)
            (basis_of job.now.basis) (order_of job.now.order) ≡ refusal_in result }
        ensures difficulty { OnOk result (job.now.pow_bits ≤ max_bits) }
    {
        let rows = job.table.len();
        let variables = job.constraint.num_variables();
        let Some(n) = arity(rows) else {
            return Err(AuditError::JobShape(ShapeFault::TableLength { len: rows }));
        };
        if job.pow_bits > max_bits {
            return Err(AuditError::JobShape(ShapeFault::Difficulty {
                bits: job.pow_bits,
                bound: max_bits,
            }));
        }
        if n != variables {
            return Err(AuditError::JobShape(ShapeFault::Arity {
                expected: n,
                actual: variables,
            }));
        }
        if job.basis.is_offered(job.order) {
            Ok(FittingJob { job })
        } else {
            Err(AuditError::JobShape(ShapeFault::ProjectiveSuffix))
        }
    }
}
