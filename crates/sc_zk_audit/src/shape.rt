//! Whether masked rounds can be played on a job of the right shape.
ghost use Rattle.std.specs.Prelude.{◌≡◌, ◌≤◌, OnOk};
ghost use Rattle.sc_jobs.specs.Fitting.{AllTrue, stated_in};
ghost use Rattle.sc_zk_audit.specs.MaskedRefusals.{form_refusal, masks_refusal, refusal_in};
ghost use Rattle.sc_zk_audit.specs.MaskedRefusals.{rounds_refusal, statements_refusal};
ghost use Rattle.sc_zk_transcript.specs.Shapes.{IsFit, shape_made};

use crate::error::MaskedError;
use crate::refusals::run_refusal;
use sc_field::{ExtensionField, Field};
use sc_jobs::FittingJob;
use sc_zk_definitions::ZkPrelude;
use sc_zk_transcript::ZkSumcheckShape;

// Refuses more rounds than variables, masks that no round can be played under, and the first false
// statement, tested one after the other.
pub(crate) fn check_masks<F: Field, EF: ExtensionField<F>>(
    fitting: &FittingJob<'_, F, EF>,
    rounds: usize,
    mask_len: usize,
) -> Result<(), MaskedError>
    ensures refusal { masks_refusal EF.ops (stated_in fitting.now) mask_len rounds
        ≡ refusal_in result }
    ensures rounds { OnOk result (rounds ≤ (stated_in fitting.now).variables) }
    ensures fit { OnOk result (IsFit F.ops
        (shape_made ZkPrelude.InheritedClaim rounds mask_len fitting.now.job.now.pow_bits)) }
    ensures all_true { OnOk result (AllTrue fitting.now) }
{
    check_rounds(rounds, fitting.job.constraint.num_variables())?;
    check_form::<F, EF>(rounds, mask_len, fitting.job.pow_bits)?;
    check_statements(fitting)
}

// Refuses more rounds than this bound.
fn check_rounds(rounds: usize, bound: usize) -> Result<(), MaskedError>
    ensures refusal { rounds_refusal rounds bound ≡ refusal_in result }
    ensures few { OnOk result (rounds ≤ bound) }
{
    if rounds > bound {
        return Err(MaskedError::Rounds { rounds, bound });
    }
    Ok(())
}

// Refuses a field in which two is zero, masks that are too short, and no mask.
fn check_form<F: Field, EF: ExtensionField<F>>(
    rounds: usize,
    mask_len: usize,
    pow_bits: usize,
) -> Result<(), MaskedError>
    ensures refusal { form_refusal EF.ops mask_len rounds ≡ refusal_in result }
    ensures fit { OnOk result (IsFit F.ops
        (shape_made ZkPrelude.InheritedClaim rounds mask_len pow_bits)) }
{
    let shape = ZkSumcheckShape::new_inherited(rounds, mask_len, pow_bits);
    match shape.validate::<F>() {
        Ok(()) => Ok(()),
        Err(error) => Err(run_refusal(error)),
    }
}

// Refuses the first statement that is false of the job's table.
fn check_statements<F: Field, EF: ExtensionField<F>>(
    fitting: &FittingJob<'_, F, EF>,
) -> Result<(), MaskedError>
    ensures refusal { statements_refusal EF.ops (stated_in fitting.now) ≡ refusal_in result }
    ensures all_true { OnOk result (AllTrue fitting.now) }
{
    match fitting.job.constraint.first_false(&fitting.job.table) {
        Some(fault) => Err(MaskedError::FalseClaim {
            statement: fault.statement,
            claimed: fault.claimed,
            actual: fault.actual,
        }),
        None => Ok(()),
    }
}
