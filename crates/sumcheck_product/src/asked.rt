//! The rounds over a product that a job asks for.
ghost use Rattle.std.specs.Prelude.{◌≡◌, ◌<◌, All, IfOk, map};
ghost use Rattle.sc_product_audit.specs.ProductJobs.{product_asked, task_by};
ghost use Rattle.sumcheck_members.specs.Modes.{CheckFits};
ghost use Rattle.sumcheck_product.specs.ProductJob.{ProductJobFits, ProductProofFits};
ghost use Rattle.sumcheck_product.specs.Products.{AsksAs, task_given};
ghost use Rattle.sumcheck_replies.specs.Fields.{fields_over, sizes_over};

use crate::job::{ProductJob, ProductProof};
use sc_field::{ExtensionField, Field, NoMemory};
use sc_product_audit::{GenericDegreeProof, ProductJob as AskedJob, ProductMode};
use sc_table::Row;
use std::alloc::Global;
use sumcheck_members::BuildOrCheck;
use sumcheck_replies::{element_lists, elements};

/// What is asked of the elements that a job names by their numbers. Its tables are those of the
/// images in the extension.
pub(crate) fn asked_job<F: Field, EF: ExtensionField<F>>(
    alloc: Global,
    job: &ProductJob,
) -> Result<AskedJob<F, EF>, NoMemory>
    requires { ProductJobFits (sizes_over F.ops EF.ops) job.now }
    ensures { IfOk result (λ asked. AsksAs (product_asked asked)
        (fields_over F.ops EF.ops EF.extension EF.embedding) job.now) }
{
    Ok(AskedJob {
        tables: image_lists::<F, EF>(alloc, job.tables.as_slice())?,
        pow_bits: job.bits as usize,
        mode: asked_mode::<F, EF>(alloc, &job.mode)?,
    })
}

// What is done with them.
fn asked_mode<F: Field, EF: ExtensionField<F>>(
    alloc: Global,
    mode: &BuildOrCheck<ProductProof>,
) -> Result<ProductMode<F, EF>, NoMemory>
    requires { CheckFits (ProductProofFits (sizes_over F.ops EF.ops)) mode.now }
    ensures { IfOk result (λ asked. task_by F.number EF.number asked ≡ task_given mode.now) }
{
    match mode {
        BuildOrCheck::Build => Ok(ProductMode::Build),
        BuildOrCheck::Check(proof) => Ok(ProductMode::Check(GenericDegreeProof {
            claimed_sum: EF::element(proof.claimed),
            round_polys: element_lists(alloc, proof.rounds.as_slice())?,
            pow_witnesses: elements(alloc, proof.witnesses.as_slice())?,
        })),
    }
}

// The images of the elements of each list.
fn image_lists<F: Field, EF: ExtensionField<F>>(
    alloc: Global,
    lists: &[Row<u64>],
) -> Result<Vec<Vec<EF>>, NoMemory>
    requires { All (All (λ x. x < F.ops.size)) lists.now }
    ensures { IfOk result (λ v. map (λ t. map EF.number t.items) v.items
        ≡ map (map EF.embedding) lists.now) }
{
    let mut found = Vec::with_capacity(alloc, lists.len())?;
    for list in lists {
        let values = images::<F, EF>(alloc, list.as_slice())?;
        found.push(values)?;
    }
    Ok(found)
}

// The images of the elements with these numbers.
fn images<F: Field, EF: ExtensionField<F>>(
    alloc: Global,
    numbers: &[u64],
) -> Result<Vec<EF>, NoMemory>
    requires { All (λ x. x < F.ops.size) numbers.now }
    ensures { IfOk result (λ v. map EF.number v.items ≡ map EF.embedding numbers.now) }
{
    let mut found = Vec::with_capacity(alloc, numbers.len())?;
    for x in numbers {
        found.push_reserved(EF::embed(F::element(*x)));
    }
    Ok(found)
}
