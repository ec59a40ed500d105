//! The verdict on rounds and openings, and the first lucky challenge where they let a false claim
//! through.
ghost use Rattle.std.specs.Prelude.{◌≡◌, IfOk, length, map};
ghost use Rattle.sc_definitions.specs.Polynomials.{poly_minus};
ghost use Rattle.sc_definitions.specs.Lucky.{in_batch};
ghost use Rattle.sc_definitions.specs.Roots.{root_count};
ghost use Rattle.sc_challenger.specs.Parties.{Party};
ghost use Rattle.sc_audit_errors.specs.Findings.{lucky, named};
ghost use Rattle.sc_merge_definitions.specs.QuadraticPlays.{finding_where};
ghost use Rattle.sc_merge_definitions.specs.Openings.{OpeningsCase};
ghost use Rattle.sc_merge_definitions.specs.Openings.{first_false_table_claim};
ghost use Rattle.sc_merged.specs.MergedViews.{left_in};
ghost use Rattle.sc_openings.specs.OpeningsReports.{finding_in};
ghost use Rattle.sc_openings.specs.ClaimedValues.{AreValues};
ghost use Rattle.sc_openings.specs.OpeningsPlays.{IsPlayedOn, played_luck};

use crate::checking::Played;
use crate::claimed::ClaimedValues;
use crate::report::MergeVerdict;
use crate::values::first_false;
use sc_field::laws::count_roots;
use sc_field::{Field, NoMemory, with_room};
use sc_merged::{MergedTables, find_turn};
use sc_table::Row;
use std::alloc::Global;

// The verdict on rounds and openings, as they match or not.
pub(crate) fn verdict_on<F: Field, EF: Field>(
    alloc: Global,
    values: &ClaimedValues<EF>,
    played: &Played<F, EF>,
    tables: MergedTables<EF>,
    matched: bool,
) -> Result<MergeVerdict<EF>, NoMemory>
    requires messages { length played.now.proof.rounds.polynomial_evaluations.items
        ≡ left_in tables }
    requires challenges { length played.now.challenges ≡ left_in tables }
    ensures { IfOk result (λ v. (q : OpeningsCase) → q.ops ≡ EF.ops
        → AreValues EF.number q values.now
        → IsPlayedOn F.number EF.number q played.now tables
        → finding_in EF.number v ≡ finding_where matched (first_false_table_claim q 0 q.claims)
        (played_luck F.number EF.number q played.now)) }
{
    if !matched {
        return Ok(MergeVerdict::Refuted);
    }
    match first_false(&values.claimed, &values.truths) {
        None => Ok(MergeVerdict::Holds),
        Some(_) => luck_on(alloc, values, played, tables),
    }
}

// The first lucky challenge, in the transcript's order: that which merges the claims, where the
// merged claim is true, or else the challenge of the first round which made it true. Where none is,
// the proof is refuted.
fn luck_on<F: Field, EF: Field>(
    alloc: Global,
    values: &ClaimedValues<EF>,
    played: &Played<F, EF>,
    tables: MergedTables<EF>,
) -> Result<MergeVerdict<EF>, NoMemory>
    requires messages { length played.now.proof.rounds.polynomial_evaluations.items
        ≡ left_in tables }
    requires challenges { length played.now.challenges ≡ left_in tables }
    ensures { IfOk result (λ v. (q : OpeningsCase) → q.ops ≡ EF.ops
        → AreValues EF.number q values.now
        → IsPlayedOn F.number EF.number q played.now tables
        → finding_in EF.number v ≡ named (played_luck F.number EF.number q played.now)) }
{
    if played.claim.index() == tables.sum().index() {
        return batch_verdict(alloc, &values.claimed, &values.truths);
    }
    let messages = played.proof.rounds.polynomial_evaluations.as_slice();
    let challenges = played.challenges.as_slice();
    match find_turn(alloc, tables, played.claim, messages, challenges)? {
        Some(turn) => {
            let vanishing = count_roots(turn.polynomial.as_slice());
            Ok(MergeVerdict::LuckyRound {
                round: turn.round,
                poly: turn.polynomial,
                vanishing,
            })
        }
        None => Ok(MergeVerdict::Refuted),
    }
}

// The verdict that the challenge which merges the claims was lucky.
fn batch_verdict<EF: Field>(
    alloc: Global,
    claimed: &[EF],
    truths: &[EF],
) -> Result<MergeVerdict<EF>, NoMemory>
    requires { length claimed.now ≡ length truths.now }
    ensures { IfOk result (λ v. finding_in EF.number v ≡ lucky
        (in_batch (poly_minus EF.ops (map EF.number claimed.now) (map EF.number truths.now))
        (root_count EF.ops
        (poly_minus EF.ops (map EF.number claimed.now) (map EF.number truths.now))))) }
{
    let poly = Row::new(excess_of(alloc, claimed, truths)?);
    let vanishing = count_roots(poly.as_slice());
    Ok(MergeVerdict::LuckyBatch { poly, vanishing })
}

// Claimed less true values.
fn excess_of<EF: Field>(alloc: Global, claimed: &[EF], truths: &[EF]) -> Result<Vec<EF>, NoMemory>
    requires { length claimed.now ≡ length truths.now }
    ensures { IfOk result (λ v. map EF.number v.items
        ≡ poly_minus EF.ops (map EF.number claimed.now) (map EF.number truths.now)) }
{
    let mut excess = with_room(alloc, claimed.len())?;
    for i in 0..claimed.len() {
        excess.push_reserved(claimed[i].sub(truths[i]));
    }
    Ok(excess)
}
