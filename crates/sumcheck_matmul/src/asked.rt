//! The matrices that a job asks about.
ghost use Rattle.std.specs.Prelude.{◌≡◌, ◌<◌, ◌++◌, All, IfOk, OnOk, map};
ghost use Rattle.std.specs.List.{concat};
ghost use Rattle.std.specs.Option.{option_map};
ghost use Rattle.sc_transcript.specs.Data.{wire_in};
ghost use Rattle.sc_matmul.specs.MatrixViews.{matrix_in};
ghost use Rattle.sumcheck_members.specs.Modes.{CheckFits};
ghost use Rattle.sumcheck_audit.specs.Job.{ProofFits};
ghost use Rattle.sumcheck_matmul.specs.MatmulJob.{MatrixFits};
ghost use Rattle.sumcheck_matmul.specs.MatmulReplies.{came_given, matrix_given, width_of};
ghost use Rattle.sumcheck_replies.specs.Fields.{sizes_over};

use sc_field::{ExtensionField, Field, NoMemory};
use sc_matmul::{Matrix, SumcheckData};
use sc_table::Row;
use std::alloc::Global;
use sumcheck_audit::{Proof, proof_data};
use sumcheck_members::BuildOrCheck;

/// The matrix of the elements with these numbers, row by row.
pub(crate) fn matrix_of<F: Field>(alloc: Global, rows: &[Row<u64>]) -> Result<Matrix<F>, NoMemory>
    requires { MatrixFits F.ops.size rows.now }
    ensures { IfOk result (λ m. matrix_in F.number m ≡ matrix_given rows.now) }
{
    let values = entries_of(alloc, rows)?;
    Ok(Matrix::new(rows.len(), width_of(rows), values))
}

// How many entries the first row has.
fn width_of(rows: &[Row<u64>]) -> usize
    ensures { result ≡ width_of rows.now }
{
    match rows {
        [] => 0,
        [row, ..] => row.len(),
    }
}

// The elements with the numbers of all rows, one row after the other.
fn entries_of<F: Field>(alloc: Global, rows: &[Row<u64>]) -> Result<Vec<F>, NoMemory>
    requires { All (All (λ x. x < F.ops.size)) rows.now }
    ensures { IfOk result (λ v. map F.number v.items ≡ concat rows.now) }
{
    let mut values = Vec::new(alloc);
    for row in rows {
        push_elements(&mut values, row.as_slice())?;
    }
    Ok(values)
}

// Adds the elements with these numbers.
fn push_elements<F: Field>(values: &mut Vec<F>, numbers: &[u64]) -> Result<(), NoMemory>
    requires { All (λ x. x < F.ops.size) numbers.now }
    ensures { OnOk result (map F.number values.new.items
        ≡ map F.number values.old.items ++ numbers.now) }
{
    for x in numbers {
        values.push(F::element(*x))?;
    }
    Ok(())
}

/// The data of the proof whose rounds are checked, if one is.
pub(crate) fn proof_came<F: Field, EF: ExtensionField<F>>(
    alloc: Global,
    mode: &BuildOrCheck<Proof>,
) -> Result<Option<SumcheckData<F, EF>>, NoMemory>
    requires { CheckFits (ProofFits (sizes_over F.ops EF.ops)) mode.now }
    ensures { IfOk result (λ came. option_map (wire_in F.number EF.number) came
        ≡ came_given mode.now) }
{
    match mode {
        BuildOrCheck::Build => Ok(None),
        BuildOrCheck::Check(proof) => Ok(Some(proof_data(alloc, proof)?)),
    }
}
