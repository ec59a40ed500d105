//! Rounds that are built.
ghost use Rattle.std.specs.Prelude.{◌≡◌, ◌≤◌, ◌<◌, None, length, map};
ghost use Rattle.sc_soundness.specs.Differences.{first_difference};
ghost use Rattle.sc_merge_definitions.specs.Matrices.{product_values, false_entry};
ghost use Rattle.sc_matmul.specs.MatrixViews.{matrix_in, cols_in, entries_in};
ghost use Rattle.sc_matmul.specs.Shapes.{fault_in};
ghost use Rattle.sc_matmul.specs.FittingClaims.{case_by};
ghost use Rattle.sc_matmul.specs.MatmulReports.{entry_fault, result_in};
ghost use Rattle.sc_matmul.specs.MatmulAudits.{IsAnswered};
ghost use Rattle.sc_matmul.specs.MatmulPlays.{LeavesBuilt};

use crate::checking::replay_at;
use crate::drawing::draw_point;
use crate::error::MatmulError;
use crate::matrix::Matrix;
use crate::product::{first_false, product_of};
use crate::refusals::refusal;
use crate::report::MatmulReport;
use crate::shape::FittingClaim;
use crate::tables::{claim_at, left_table, right_table};
use sc_challenger::Challenger;
use sc_field::{ExtensionField, Field};
use sc_rounds::{ProductPolynomial, SumcheckProver};
use sc_table::VariableOrder;
use sc_transcript::SumcheckData;
use std::alloc::Global;

// Rounds that were built, their point, and a challenger that stands where the point was drawn.
#[derive(Drop)]
pub(crate) struct BuiltRounds<F, EF, C> {
    pub(crate) point: EF,
    pub(crate) at_point: C,
    pub(crate) rounds: SumcheckData<F, EF>,
}

// Builds the rounds of a claim on copies of the challenger, unless an entry is false, and replays
// them on the challenger itself. It takes the place of the copy that drew the point, so that the
// entries are observed once.
pub(crate) fn build<F: Field, EF: ExtensionField<F>, C: Challenger<F>>(
    alloc: Global,
    fitting: &FittingClaim<'_, F, EF>,
    challenger: &mut C,
) -> Result<MatmulReport<F, EF>, MatmulError>
    requires { fitting.now.pow_bits ≤ (C.party challenger.old).rules.max_bits }
    ensures rules { (C.party challenger.new).rules ≡ (C.party challenger.old).rules }
    ensures answered { IsAnswered (case_by fitting.now (C.party challenger.old)) None
        (result_in F.number EF.number result) (C.party challenger.new).history }
{
    let product = product_of(alloc, fitting.left, fitting.right)?;
    check_entries(fitting.claimed, &product)?;
    let built = play(alloc, fitting, challenger)?;
    let BuiltRounds {
        point,
        at_point,
        rounds,
    } = built;
    *challenger = at_point;
    replay_at(alloc, fitting, &product, point, rounds, challenger)
}

// Refuses a matrix with a false entry.
fn check_entries<F: Field>(claimed: &Matrix<F>, product: &[F]) -> Result<(), MatmulError>
    requires some { 0 < cols_in claimed.now }
    requires same { length (entries_in claimed.now) ≡ length product.now }
    ensures { fault_in result ≡ entry_fault (cols_in claimed.now) (first_difference 0
        (map F.number (entries_in claimed.now)) (map F.number product.now)) }
{
    let cols = claimed.cols();
    match first_false(claimed.as_slice(), product) {
        None => Ok(()),
        Some(fault) => Err(MatmulError::FalseEntry {
            row: fault.place / cols,
            col: fault.place % cols,
            claimed: fault.claimed,
            actual: fault.actual,
        }),
    }
}

// Builds the rounds of a claim whose entries are true, in the transcript of a copy of the
// challenger that drew the point.
fn play<F: Field, EF: ExtensionField<F>, C: Challenger<F>>(
    alloc: Global,
    fitting: &FittingClaim<'_, F, EF>,
    challenger: &C,
) -> Result<BuiltRounds<F, EF, C>, MatmulError>
    requires difficulty { fitting.now.pow_bits ≤ (C.party challenger.now).rules.max_bits }
    requires all_true { false_entry (case_by fitting.now (C.party challenger.now)) ≡ None }
    ensures { LeavesBuilt F.number EF.number C.party
        (case_by fitting.now (C.party challenger.now)) result }
{
    let mut at_point = challenger.copy(alloc)?;
    let point = draw_point::<F, EF, C>(fitting, &mut at_point)?;
    let claim = claim_at::<F, EF>(fitting.claimed.as_slice(), point);
    let left = left_table(alloc, fitting, point)?;
    let right = right_table(alloc, fitting, point)?;
    let pair = ProductPolynomial::new_unpacked(VariableOrder::Prefix, left, right);
    let mut prover = SumcheckProver::new(pair, claim);
    let mut rounds = SumcheckData::new(alloc);
    let mut copied = at_point.copy(alloc)?;
    match prover.compute_sumcheck_polynomials(
        alloc,
        &mut rounds,
        &mut copied,
        fitting.variables(),
        fitting.pow_bits,
        None,
    ) {
        Ok(_challenges) => Ok(BuiltRounds {
            point,
            at_point,
            rounds,
        }),
        Err(error) => Err(refusal(error)),
    }
}
