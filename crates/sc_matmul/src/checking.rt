//! Rounds that are replayed, and the report on them.
ghost use Rattle.std.specs.Prelude.{◌≡◌, ◌≤◌, None, Some, IfOk, length, map};
ghost use Rattle.sc_challenger.specs.Parties.{Party};
ghost use Rattle.sc_transcript.specs.Data.{wire_in};
ghost use Rattle.sc_merge_definitions.specs.Matrices.{side_variables, product_values};
ghost use Rattle.sc_merge_definitions.specs.Matrices.{matmul_figures};
ghost use Rattle.sc_matmul.specs.MatrixViews.{matrix_in, cols_in};
ghost use Rattle.sc_matmul.specs.Shapes.{fault_in};
ghost use Rattle.sc_matmul.specs.FittingClaims.{case_by};
ghost use Rattle.sc_matmul.specs.MatmulRounds.{counts_fault, rounds_given};
ghost use Rattle.sc_matmul.specs.MatmulReports.{figures_in, result_in};
ghost use Rattle.sc_matmul.specs.MatmulAudits.{IsAnswered};
ghost use Rattle.sc_matmul.specs.MatmulPlays.{IsDrawnAt, IsPlayedIn};

use crate::drawing::draw_point;
use crate::error::MatmulError;
use crate::product::product_of;
use crate::refusals::refusal;
use crate::report::MatmulReport;
use crate::shape::FittingClaim;
use crate::tables::{claim_at, left_table, right_table};
use crate::verdict::verdict_on;
use sc_challenger::Challenger;
use sc_field::{ExtensionField, Field, NoMemory};
use sc_rounds::ProductPolynomial;
use sc_table::{Basis, Point, VariableOrder};
use sc_transcript::driver::RoundShape;
use sc_transcript::replay::check_counts;
use sc_transcript::{SumcheckData, SumcheckError, SumcheckShape};
use std::alloc::Global;

// Rounds that were replayed: the point, the claim that they began with, their challenges, and what
// they leave of the claim.
#[derive(Drop)]
pub(crate) struct Played<F, EF> {
    pub(crate) point: EF,
    pub(crate) claim: EF,
    pub(crate) rounds: SumcheckData<F, EF>,
    pub(crate) challenges: Point<EF>,
    pub(crate) residual: EF,
}

// Checks the rounds of a proof.
pub(crate) fn check<F: Field, EF: ExtensionField<F>, C: Challenger<F>>(
    alloc: Global,
    fitting: &FittingClaim<'_, F, EF>,
    proof: &SumcheckData<F, EF>,
    challenger: &mut C,
) -> Result<MatmulReport<F, EF>, MatmulError>
    requires { fitting.now.pow_bits ≤ (C.party challenger.old).rules.max_bits }
    ensures rules { (C.party challenger.new).rules ≡ (C.party challenger.old).rules }
    ensures answered { IsAnswered (case_by fitting.now (C.party challenger.old))
        (Some (wire_in F.number EF.number proof.now)) (result_in F.number EF.number result)
        (C.party challenger.new).history }
{
    check_rounds(fitting, proof)?;
    let rounds = proof.copy(alloc)?;
    let product = product_of(alloc, fitting.left, fitting.right)?;
    replay(alloc, fitting, &product, rounds, challenger)
}

// Refuses a proof of another number of rounds or of witnesses.
fn check_rounds<F: Field, EF: ExtensionField<F>>(
    fitting: &FittingClaim<'_, F, EF>,
    proof: &SumcheckData<F, EF>,
) -> Result<(), MatmulError>
    ensures { fault_in result ≡ counts_fault (side_variables (cols_in fitting.now.left.now))
        fitting.now.pow_bits (wire_in F.number EF.number proof.now) }
{
    let shape = SumcheckShape::new(fitting.variables(), fitting.pow_bits, Basis::Evaluation);
    let (rounds, witnesses) = (proof.num_rounds(), proof.pow_witnesses.len());
    match check_counts(shape.batch(), rounds, witnesses) {
        Ok(()) => Ok(()),
        Err(error) => Err(refusal(SumcheckError::from(error))),
    }
}

// Observes the entries, draws the point and replays rounds, of which there are as many as there
// have to be, and reports on them.
fn replay<F: Field, EF: ExtensionField<F>, C: Challenger<F>>(
    alloc: Global,
    fitting: &FittingClaim<'_, F, EF>,
    product: &[F],
    rounds: SumcheckData<F, EF>,
    challenger: &mut C,
) -> Result<MatmulReport<F, EF>, MatmulError>
    requires difficulty { fitting.now.pow_bits ≤ (C.party challenger.old).rules.max_bits }
    requires product { map F.number product.now ≡ product_values F.ops
        (matrix_in F.number fitting.now.left.now) (matrix_in F.number fitting.now.right.now) }
    requires counted { counts_fault (side_variables (cols_in fitting.now.left.now))
        fitting.now.pow_bits (wire_in F.number EF.number rounds) ≡ None }
    ensures rules { (C.party challenger.new).rules ≡ (C.party challenger.old).rules }
    ensures answered { IsAnswered (case_by fitting.now (C.party challenger.old))
        (Some (wire_in F.number EF.number rounds)) (result_in F.number EF.number result)
        (C.party challenger.new).history }
{
    let point = draw_point::<F, EF, C>(fitting, challenger)?;
    replay_at(alloc, fitting, product, point, rounds, challenger)
}

// Replays rounds, of which there are as many as there have to be, after the point was drawn, and
// reports on them.
pub(crate) fn replay_at<F: Field, EF: ExtensionField<F>, C: Challenger<F>>(
    alloc: Global,
    fitting: &FittingClaim<'_, F, EF>,
    product: &[F],
    point: EF,
    rounds: SumcheckData<F, EF>,
    challenger: &mut C,
) -> Result<MatmulReport<F, EF>, MatmulError>
    requires difficulty { fitting.now.pow_bits ≤ (C.party challenger.old).rules.max_bits }
    requires product { map F.number product.now ≡ product_values F.ops
        (matrix_in F.number fitting.now.left.now) (matrix_in F.number fitting.now.right.now) }
    requires counted { counts_fault (side_variables (cols_in fitting.now.left.now))
        fitting.now.pow_bits (wire_in F.number EF.number rounds) ≡ None }
    ensures rules { (C.party challenger.new).rules ≡ (C.party challenger.old).rules }
    ensures answered { (at : Party)
        → IsDrawnAt EF.number (case_by fitting.now at) point (C.party challenger.old)
        → IsAnswered (case_by fitting.now at) (Some (wire_in F.number EF.number rounds))
        (result_in F.number EF.number result) (C.party challenger.new).history }
{
    let claim = claim_at::<F, EF>(fitting.claimed.as_slice(), point);
    let mut residual = claim;
    let challenges = match rounds.verify_rounds(
        alloc,
        challenger,
        &mut residual,
        fitting.variables(),
        fitting.pow_bits,
        Basis::Evaluation,
    ) {
        Ok(challenges) => challenges,
        Err(error) => return Err(refusal(error)),
    };
    let played = Played {
        point,
        claim,
        rounds,
        challenges,
        residual,
    };
    let report = report_on(alloc, fitting, product, played)?;
    Ok(report)
}

// The report on rounds that were replayed.
fn report_on<F: Field, EF: ExtensionField<F>>(
    alloc: Global,
    fitting: &FittingClaim<'_, F, EF>,
    product: &[F],
    played: Played<F, EF>,
) -> Result<MatmulReport<F, EF>, NoMemory>
    requires product { map F.number product.now ≡ product_values F.ops
        (matrix_in F.number fitting.now.left.now) (matrix_in F.number fitting.now.right.now) }
    requires counted { counts_fault (side_variables (cols_in fitting.now.left.now))
        fitting.now.pow_bits (wire_in F.number EF.number played.rounds) ≡ None }
    requires challenges { length played.challenges
        ≡ side_variables (cols_in fitting.now.left.now) }
    ensures { IfOk result (λ r. (at : Party)
        → IsPlayedIn F.number EF.number (case_by fitting.now at) played
        → figures_in F.number EF.number r ≡ matmul_figures (case_by fitting.now at)
        (rounds_given (wire_in F.number EF.number played.rounds))) }
{
    let left_rows = left_table(alloc, fitting, played.point)?;
    let right_rows = right_table(alloc, fitting, played.point)?;
    let left: EF = left_rows.eval(&played.challenges);
    let right: EF = right_rows.eval(&played.challenges);
    let matched = played.residual.index() == left.mul(right).index();
    let pair = ProductPolynomial::new_unpacked(VariableOrder::Prefix, left_rows, right_rows);
    let verdict = verdict_on(alloc, fitting, product, &played, pair, matched)?;
    let Played {
        point,
        claim,
        rounds,
        challenges,
        residual,
    } = played;
    Ok(MatmulReport {
        point,
        claim,
        rounds,
        challenges,
        residual,
        left,
        right,
        verdict,
    })
}
