//! Rounds and openings that are built.
ghost use Rattle.std.specs.Prelude.{◌≡◌, ◌≤◌, None, length, map};
ghost use Rattle.std.specs.Option.{option_map};
ghost use Rattle.sc_challenger.specs.Parties.{Party};
ghost use Rattle.sc_merge_definitions.specs.Openings.{OpeningsCase, first_false_table_claim};
ghost use Rattle.sc_openings.specs.Shapes.{fault_in};
ghost use Rattle.sc_openings.specs.FittingClaims.{case_by};
ghost use Rattle.sc_openings.specs.OpeningsReports.{claim_fault, result_in};
ghost use Rattle.sc_openings.specs.OpeningsAudits.{IsAnswered};
ghost use Rattle.sc_openings.specs.ClaimedValues.{AreValues};
ghost use Rattle.sc_openings.specs.OpeningsPlays.{LeavesBuilt};

use crate::checking::replay_at;
use crate::claim::MergeProof;
use crate::claimed::ClaimedValues;
use crate::drawing::draw_challenge;
use crate::error::MergeError;
use crate::openings::true_openings;
use crate::refusals::refusal;
use crate::report::MergeReport;
use crate::shape::FittingClaims;
use crate::values::{first_false, values_of};
use crate::weights::merged_tables;
use sc_challenger::Challenger;
use sc_field::{ExtensionField, Field};
use sc_transcript::SumcheckData;
use std::alloc::Global;

// Rounds and openings that were built, the challenge that merges the claims, and a challenger that
// stands where it was drawn.
#[derive(Drop)]
pub(crate) struct BuiltProof<F, EF, C> {
    pub(crate) challenge: EF,
    pub(crate) at_challenge: C,
    pub(crate) proof: MergeProof<F, EF>,
}

// Builds the rounds and openings of claims on copies of the challenger, unless a claim is false,
// and replays them on the challenger itself. It takes the place of the copy that drew the challenge
// which merges the claims, so that their values are observed once.
pub(crate) fn build<F: Field, EF: ExtensionField<F>, C: Challenger<F>>(
    alloc: Global,
    fitting: &FittingClaims<'_, F, EF>,
    challenger: &mut C,
) -> Result<MergeReport<F, EF>, MergeError>
    requires { fitting.now.pow_bits ≤ (C.party challenger.old).rules.max_bits }
    ensures rules { (C.party challenger.new).rules ≡ (C.party challenger.old).rules }
    ensures answered { IsAnswered (case_by fitting.now (C.party challenger.old)) None
        (result_in F.number EF.number result) (C.party challenger.new).history }
{
    let values = values_of(alloc, fitting)?;
    check_claims(&values)?;
    let built = play(alloc, fitting, &values, challenger)?;
    let BuiltProof {
        challenge,
        at_challenge,
        proof,
    } = built;
    *challenger = at_challenge;
    replay_at(alloc, fitting, &values, challenge, proof, challenger)
}

// Refuses a false claim.
fn check_claims<EF: Field>(values: &ClaimedValues<EF>) -> Result<(), MergeError>
    ensures { (q : OpeningsCase) → AreValues EF.number q values.now
        → fault_in result ≡ claim_fault (first_false_table_claim q 0 q.claims) }
{
    match first_false(&values.claimed, &values.truths) {
        None => Ok(()),
        Some(found) => Err(MergeError::FalseClaim {
            claim: found.statement,
            claimed: found.claimed,
            actual: found.actual,
        }),
    }
}

// Builds the rounds and openings of claims that are true, in the transcript of a copy of the
// challenger that drew the challenge which merges them.
fn play<F: Field, EF: ExtensionField<F>, C: Challenger<F>>(
    alloc: Global,
    fitting: &FittingClaims<'_, F, EF>,
    values: &ClaimedValues<EF>,
    challenger: &C,
) -> Result<BuiltProof<F, EF, C>, MergeError>
    requires difficulty { fitting.now.pow_bits ≤ (C.party challenger.now).rules.max_bits }
    requires values { (at : Party) → AreValues EF.number (case_by fitting.now at) values.now }
    ensures { LeavesBuilt F.number EF.number C.party
        (case_by fitting.now (C.party challenger.now)) result }
{
    let mut at_challenge = challenger.copy(alloc)?;
    let challenge = draw_challenge::<F, EF, C>(&values.claimed, &mut at_challenge)?;
    let mut tables = merged_tables(alloc, fitting, challenge)?;
    let mut rounds = SumcheckData::new(alloc);
    let mut copied = at_challenge.copy(alloc)?;
    let played = tables.play::<F, C>(alloc, &mut rounds, &mut copied, fitting.pow_bits);
    let challenges = match played {
        Ok(challenges) => challenges,
        Err(error) => return Err(refusal(error)),
    };
    let openings = true_openings::<F, EF>(alloc, fitting.tables, &challenges)?;
    Ok(BuiltProof {
        challenge,
        at_challenge,
        proof: MergeProof { rounds, openings },
    })
}
