//! The masked rounds that a job asks for.
ghost use Rattle.std.specs.Prelude.{◌≡◌, IfOk};
ghost use Rattle.sc_commitments.specs.NodeCodes.{lengths_of};
ghost use Rattle.sc_zk_audit.specs.MaskedJobs.{masked_asked};
ghost use Rattle.sc_zk_rounds.specs.Views.{AreCoded, coded_in};
ghost use Rattle.sumcheck_replies.specs.Fields.{fields_over, sizes_over};
ghost use Rattle.sumcheck_veil.specs.VeilJob.{VeilJobFits, randomness_length};
ghost use Rattle.sumcheck_veil.specs.VeilMasks.{code_lengths, mask_length, sealed_masks};
ghost use Rattle.sumcheck_veil.specs.Veils.{AsksAs};

use crate::job::VeilJob;
use crate::masks::masks_of;
use sc_commitments::NodeCode;
use sc_field::{ExtensionField, Field, NoMemory};
use sc_zk_audit::MaskedJob;
use std::alloc::Global;
use sumcheck_audit::constraint_of;
use sumcheck_replies::elements;

// What is asked of the elements that a job names by their numbers, its masks being encoded by a
// code of their length.
pub(crate) fn asked_job<F: Field, EF: ExtensionField<F>>(
    alloc: Global,
    job: &VeilJob,
    code: &NodeCode<EF>,
) -> Result<MaskedJob<F, EF>, NoMemory>
    requires fits { VeilJobFits (sizes_over F.ops EF.ops) job.now }
    requires code { lengths_of code.now
        ≡ code_lengths EF.ops.size (mask_length job.now.veil.masks) }
    ensures coded { IfOk result (λ asked. AreCoded (mask_length job.now.veil.masks)
        randomness_length asked.masks.items asked.randomness.items) }
    ensures asks { IfOk result (λ asked. AsksAs
        (masked_asked asked (sealed_masks EF.ops (mask_length job.now.veil.masks)
        (coded_in EF.number asked.masks.items asked.randomness.items) (EF.number asked.aux)))
        (fields_over F.ops EF.ops EF.extension EF.embedding) job.now) }
{
    let stated = &job.stated;
    let variables = stated.variables as usize;
    let batching = EF::element(stated.batching);
    let (masks, randomness) = masks_of::<F, EF>(alloc, &job.veil, code)?;
    Ok(MaskedJob {
        table: elements(alloc, stated.table.as_slice())?,
        constraint: constraint_of(alloc, stated.groups.as_slice(), variables, batching)?,
        order: stated.order,
        pow_bits: stated.bits as usize,
        masks,
        randomness,
        aux: EF::element(job.veil.aux),
    })
}
