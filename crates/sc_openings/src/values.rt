//! The claimed values and the true ones.
ghost use Rattle.std.specs.Prelude.{◌≡◌, ◌≤◌, ◌^◌, IfOk, length, map};
ghost use Rattle.std.specs.Option.{option_map};
ghost use Rattle.sc_definitions.specs.Tables.{entries};
ghost use Rattle.sc_definitions.specs.Statements.{true_value, batched_by_powers};
ghost use Rattle.sc_challenger.specs.Parties.{Party};
ghost use Rattle.sc_soundness.specs.Differences.{first_difference};
ghost use Rattle.sc_merge_definitions.specs.Openings.{claim_kind};
ghost use Rattle.sc_openings.specs.FittingClaims.{case_by};
ghost use Rattle.sc_openings.specs.ClaimedValues.{AreValues, difference_of};

use crate::claim::OpeningClaim;
use crate::claimed::ClaimedValues;
use crate::shape::FittingClaims;
use sc_definitions::FalseClaim;
use sc_field::{ExtensionField, Field, NoMemory, with_room};
use sc_table::{Poly, dot_slices, eval_slice};
use std::alloc::Global;

// The claimed values and the true ones.
pub(crate) fn values_of<F: Field, EF: ExtensionField<F>>(
    alloc: Global,
    fitting: &FittingClaims<'_, F, EF>,
) -> Result<ClaimedValues<EF>, NoMemory>
    ensures { IfOk result (λ v. (at : Party)
        → AreValues EF.number (case_by fitting.now at) v) }
{
    let mut claimed = with_room(alloc, fitting.claims.len())?;
    let mut truths = with_room(alloc, fitting.claims.len())?;
    for i in 0..fitting.claims.len() {
        let claim = &fitting.claims[i];
        claimed.push_reserved(claim.value);
        truths.push_reserved(true_value(alloc, &fitting.tables[claim.table], claim)?);
    }
    Ok(ClaimedValues { claimed, truths })
}

// The true value of a claim, of its table, which has as many variables as its point coordinates.
fn true_value<F: Field, EF: ExtensionField<F>>(
    alloc: Global,
    table: &[F],
    claim: &OpeningClaim<EF>,
) -> Result<EF, NoMemory>
    requires rows { length table.now ≡ 2 ^ length claim.now.point }
    requires few { length claim.now.point ≤ 16 }
    ensures { IfOk result (λ v. EF.number v ≡ true_value EF.ops (length claim.now.point)
        (entries (λ x. EF.embedding (F.number x)) table.now)
        (claim_kind claim.now.successor (map EF.number claim.now.point))) }
{
    let point = claim.point.as_slice();
    if claim.successor {
        let weights = Poly::new_next_from_point(alloc, point)?;
        Ok(dot_slices::<F, EF>(table, weights.as_slice()))
    } else {
        Ok(eval_slice::<F, EF>(table, point))
    }
}

// The first claimed value that is not the true one, if one is, of as many as there are true ones.
pub(crate) fn first_false<EF: Field>(claimed: &[EF], truths: &[EF]) -> Option<FalseClaim>
    requires { length claimed.now ≡ length truths.now }
    ensures { option_map difference_of result
        ≡ first_difference 0 (map EF.number claimed.now) (map EF.number truths.now) }
{
    for statement in 0..claimed.len() {
        let (claimed, actual) = (claimed[statement].index(), truths[statement].index());
        if claimed != actual {
            return Some(FalseClaim {
                statement,
                claimed,
                actual,
            });
        }
    }
    None
}

// The claimed values, each times the power of the challenge by its place, in sum.
pub(crate) fn claim_at<EF: Field>(claimed: &[EF], challenge: EF) -> EF
    ensures { EF.number result
        ≡ batched_by_powers EF.ops (EF.number challenge) 0 (map EF.number claimed.now) }
{
    let mut claim = EF::ZERO;
    for i in 0..claimed.len() {
        claim = claim.mul(challenge).add(claimed[claimed.len() - 1 - i]);
    }
    claim
}
