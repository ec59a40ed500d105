//! The masks that a job asks for.
ghost use Rattle.std.specs.Prelude.{◌≡◌, ◌≢◌, ◌<◌, All, IfOk};
ghost use Rattle.sc_commitments.specs.Matrices.{lists_in};
ghost use Rattle.sc_definitions.specs.Ring.{◌+⟨◌⟩◌};
ghost use Rattle.sc_zk_views.specs.Views.{pieces_in, rows_in};
ghost use Rattle.sumcheck_explain.specs.ExplainJob.{ArePairs, ExplainJobFits};
ghost use Rattle.sumcheck_explain.specs.Explains.{masks_over, pieces_given};

use crate::job::ExplainJob;
use sc_field::{Field, NoMemory};
use sc_table::Row;
use sc_zk_views::{PlainPiece, RealView, explain_masks};
use std::alloc::Global;
use sumcheck_replies::elements;

// The masks that explain a job, over a field in which two is not zero.
pub(crate) fn masks_of<EF: Field>(alloc: Global, job: &ExplainJob) -> Result<Vec<Vec<EF>>, NoMemory>
    requires fits { ExplainJobFits EF.ops.size job.now }
    requires two { 1 +⟨ EF.ops ⟩ 1 ≢ 0 }
    ensures { IfOk result (λ v. lists_in EF.number v.items ≡ masks_over EF.ops job.now) }
{
    let plain = pieces(alloc, job.plain.as_slice())?;
    let challenges = elements(alloc, job.challenges.as_slice())?;
    let wires = rows(alloc, job.wires.as_slice())?;
    let endpoints = elements(alloc, job.endpoints.as_slice())?;
    let view = RealView {
        mu_tilde: EF::element(job.mu),
        wires,
    };
    let eps = EF::element(job.eps);
    explain_masks(alloc, eps, &plain, &challenges, &view, &endpoints)
}

// The plain pieces of these numbers.
fn pieces<EF: Field>(alloc: Global, pairs: &[(u64, u64)]) -> Result<Vec<PlainPiece<EF>>, NoMemory>
    requires { ArePairs EF.ops.size pairs.now }
    ensures { IfOk result (λ v. pieces_in EF.number v.items ≡ pieces_given pairs.now) }
{
    let mut found = Vec::with_capacity(alloc, pairs.len())?;
    for pair in pairs {
        found.push(PlainPiece {
            c0: EF::element(pair.0),
            c_inf: EF::element(pair.1),
        })?;
    }
    Ok(found)
}

// The rows of the elements with these numbers, row by row.
fn rows<EF: Field>(alloc: Global, lists: &[Row<u64>]) -> Result<Row<Row<EF>>, NoMemory>
    requires { All (All (λ n. n < EF.ops.size)) lists.now }
    ensures { IfOk result (λ v. rows_in EF.number v ≡ lists.now) }
{
    let mut found = Vec::with_capacity(alloc, lists.len())?;
    for list in lists {
        let row = elements(alloc, list.as_slice())?;
        found.push(Row::new(row))?;
    }
    Ok(Row::new(found))
}
