//! The two tables that a claim is a sum over, and the claim at the point.
ghost use Rattle.std.specs.Prelude.{◌≡◌, ℕ, ◌<◌, ◌^◌, IfOk, length, map};
ghost use Rattle.sc_definitions.specs.Ring.{power};
ghost use Rattle.sc_definitions.specs.Tables.{entries};
ghost use Rattle.sc_definitions.specs.Statements.{batched_by_powers};
ghost use Rattle.sc_challenger.specs.Parties.{Party};
ghost use Rattle.sc_table.specs.Polys.{variables_of, table_of};
ghost use Rattle.sc_merge_definitions.specs.Matrices.{side_variables, drawn_point};
ghost use Rattle.sc_merge_definitions.specs.Matrices.{left_table, right_table};
ghost use Rattle.sc_matmul.specs.MatrixViews.{cols_in};
ghost use Rattle.sc_matmul.specs.FittingClaims.{case_by};

use crate::product::sum_rows;
use crate::shape::FittingClaim;
use sc_field::{ExtensionField, Field, NoMemory, with_room};
use sc_table::Poly;
use std::alloc::Global;

// The left matrix with its rows added up, each times the power of the point where its row of the
// product begins.
pub(crate) fn left_table<F: Field, EF: ExtensionField<F>>(
    alloc: Global,
    fitting: &FittingClaim<'_, F, EF>,
    point: EF,
) -> Result<Poly<EF>, NoMemory>
    ensures variables { IfOk result
        (λ p. variables_of p ≡ side_variables (cols_in fitting.now.left.now)) }
    ensures table { IfOk result (λ p. (at : Party)
        → EF.number point ≡ drawn_point (case_by fitting.now at) → (x : ℕ) → x < 2 ^ variables_of p
        → table_of EF.number p x ≡ left_table (case_by fitting.now at) x) }
{
    let (left, width) = (fitting.left, fitting.left.cols());
    let row_power = point.exp_u64(fitting.right.cols() as u64);
    let powers = powers_of(alloc, row_power, left.rows())?;
    let sums = sum_rows::<F, EF>(alloc, width, left.as_slice(), &powers)?;
    Ok(Poly::new(sums))
}

// The right matrix with its columns added up, each times the power of the point by its place.
pub(crate) fn right_table<F: Field, EF: ExtensionField<F>>(
    alloc: Global,
    fitting: &FittingClaim<'_, F, EF>,
    point: EF,
) -> Result<Poly<EF>, NoMemory>
    ensures variables { IfOk result
        (λ p. variables_of p ≡ side_variables (cols_in fitting.now.left.now)) }
    ensures table { IfOk result (λ p. (at : Party)
        → EF.number point ≡ drawn_point (case_by fitting.now at) → (x : ℕ) → x < 2 ^ variables_of p
        → table_of EF.number p x ≡ right_table (case_by fitting.now at) x) }
{
    let (rows, cols) = (fitting.right.rows(), fitting.right.cols());
    let rights = fitting.right.as_slice();
    let powers = powers_of(alloc, point, cols)?;
    let mut sums = with_room(alloc, rows)?;
    for x in 0..rows {
        let row = &rights[x * cols..(x + 1) * cols];
        sums.push_reserved(EF::dot_base(row, &powers));
    }
    Ok(Poly::new(sums))
}

// The claimed entries, each times the power of the point by its place, in sum.
pub(crate) fn claim_at<F: Field, EF: ExtensionField<F>>(claimed: &[F], point: EF) -> EF
    ensures { EF.number result ≡ batched_by_powers EF.ops (EF.number point) 0
        (map EF.embedding (map F.number claimed.now)) }
{
    let mut claim = EF::ZERO;
    for i in 0..claimed.len() {
        claim = claim
            .mul(point)
            .add(EF::embed(claimed[claimed.len() - 1 - i]));
    }
    claim
}

// The first powers of an element, from one on.
fn powers_of<EF: Field>(alloc: Global, x: EF, count: usize) -> Result<Vec<EF>, NoMemory>
    ensures count { IfOk result (λ v. length v.items ≡ count) }
    ensures powers { IfOk result (λ v. (i : ℕ) → i < count
        → entries EF.number v.items i ≡ power EF.ops (EF.number x) i) }
{
    let mut powers = with_room(alloc, count)?;
    let mut next = EF::ONE;
    for i in 0..count {
        powers.push_reserved(next);
        next = next.mul(x);
    }
    Ok(powers)
}
