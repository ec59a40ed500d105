//! The job of `matmul` that a JSON value describes, or the first member that is not of its form.
ghost use Rattle.std.specs.Prelude.{◌≡◌, ◌≢◌, Some, None, Ok, Err, IfOk, IsErrOf};
ghost use Rattle.serde_json.specs.View.{view};
ghost use Rattle.sumcheck_members.specs.Members.{member_name};
ghost use Rattle.sumcheck_members.specs.Elements.{sizes_of};
ghost use Rattle.sumcheck_matmul.specs.MatmulJob.{MatmulJobFits, MatrixFits};
ghost use Rattle.sumcheck_matmul.specs.MatmulJob.{are_even, even_rows, matrix_form, of_width};
ghost use Rattle.sumcheck_matmul.specs.MatmulJob.{matmul_job_of, matmul_members_over};

use crate::job::MatmulJob;
use sc_forms::{AtMost, Below, Form, ListOf, Misread, is_object};
use sc_table::Row;
use serde_json::Value;
use std::alloc::Global;
use sumcheck_audit::ProofForm;
use sumcheck_members::{
    BuildOrCheckForm, ChallengerForm, FieldForm, FieldName, MOST_BITS, Member, Sizes, Unread, need,
};

// A matrix, row by row: one row or more, all of one length, which is 1 or more.
#[derive(Clone, Copy)]
struct MatrixForm {
    sizes: Sizes,
}

impl Form for MatrixForm {
    type Out = Row<Row<u64>>;

    ghost reads = { λ form. matrix_form form.sizes };

    ghost fits = { λ form rows. MatrixFits form.sizes.base rows };

    fn read(&self, alloc: Global, value: &Value) -> Result<Row<Row<u64>>, Misread> {
        let entry = Below {
            bound: self.sizes.base,
        };
        let rows = ListOf {
            item: ListOf { item: entry },
        };
        even_rows(rows.read(alloc, value)?)
    }
}

// The rows, if they are those of a matrix.
fn even_rows(rows: Row<Row<u64>>) -> Result<Row<Row<u64>>, Misread>
    ensures ok { IfOk result (λ x. (x ≡ rows) × (even_rows rows ≡ Some x)) }
    ensures not_of_form { IsErrOf result Misread.NotOfForm → even_rows rows ≡ None }
    ensures no_other { result ≢ Err Misread.NoMemory }
{
    if !are_even(rows.as_slice()) {
        return Err(Misread::NotOfForm);
    }
    Ok(rows)
}

// Whether rows are those of a matrix.
fn are_even(rows: &[Row<u64>]) -> bool
    ensures { result ≡ are_even rows.now }
{
    match rows {
        [] => false,
        [row, rest @ ..] => row.len() >= 1 && are_of_width(row.len(), rest),
    }
}

// Whether each row has so many entries.
fn are_of_width(width: usize, rows: &[Row<u64>]) -> bool
    ensures { result ≡ of_width width rows.now }
{
    for i in 0..rows.len() {
        if rows[i].len() != width {
            return false;
        }
    }
    true
}

/// The job of `matmul` that a value describes, or its first member that is missing or not of its
/// form. The value is given up.
pub fn read_matmul(alloc: Global, value: Value) -> Result<MatmulJob, Unread>
    ensures job { IfOk result (λ job. matmul_job_of (view value) ≡ Ok job) }
    ensures misfit { (m : Member) → result ≡ Err (Unread.Misfit m)
        → matmul_job_of (view value) ≡ Err (member_name m) }
    ensures fits { IfOk result (λ job. MatmulJobFits (sizes_of job.field) job) }
{
    if !is_object(&value) {
        return Err(Unread::Misfit(Member::named("job")));
    }
    let field = need(alloc, &FieldForm, &value, "field")?;
    read_matmul_members(alloc, &value, field, field.sizes())
}

// The members after the field, which has these sizes.
fn read_matmul_members(
    alloc: Global,
    value: &Value,
    field: FieldName,
    sizes: Sizes,
) -> Result<MatmulJob, Unread>
    ensures job { IfOk result (λ job.
        matmul_members_over field sizes (view value.now) ≡ Ok job) }
    ensures misfit { (m : Member) → result ≡ Err (Unread.Misfit m)
        → matmul_members_over field sizes (view value.now) ≡ Err (member_name m) }
    ensures field { IfOk result (λ job. job.field ≡ field) }
    ensures fits { IfOk result (λ job. MatmulJobFits sizes job) }
{
    let challenger = need(alloc, &ChallengerForm { sizes }, value, "challenger")?;
    let most = AtMost { most: MOST_BITS };
    let bits = need(alloc, &most, value, "bits")?;
    let matrix = MatrixForm { sizes };
    let left = need(alloc, &matrix, value, "left")?;
    let right = need(alloc, &matrix, value, "right")?;
    let claimed = need(alloc, &matrix, value, "claimed")?;
    let proof = ProofForm { sizes };
    let mode = need(alloc, &BuildOrCheckForm { proof }, value, "mode")?;
    Ok(MatmulJob {
        field,
        challenger,
        bits,
        left,
        right,
        claimed,
        mode,
    })
}
