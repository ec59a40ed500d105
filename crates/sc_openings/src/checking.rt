//! Rounds and openings that are replayed, and the report on them.
ghost use Rattle.std.specs.Prelude.{◌≡◌, ◌≤◌, None, Some, IfOk, length, map};
ghost use Rattle.sc_challenger.specs.Parties.{Party};
ghost use Rattle.sc_merge_definitions.specs.Openings.{openings_figures};
ghost use Rattle.sc_openings.specs.OpeningsJobs.{came_in};
ghost use Rattle.sc_openings.specs.Shapes.{fault_in};
ghost use Rattle.sc_openings.specs.FittingClaims.{case_by};
ghost use Rattle.sc_openings.specs.OpeningsRounds.{openings_fault, proof_fault, sent_given};
ghost use Rattle.sc_openings.specs.OpeningsReports.{figures_in, result_in};
ghost use Rattle.sc_openings.specs.OpeningsAudits.{IsAnswered};
ghost use Rattle.sc_openings.specs.ClaimedValues.{AreValues};
ghost use Rattle.sc_openings.specs.OpeningsPlays.{IsDrawnAt, IsPlayedIn};

use crate::claim::MergeProof;
use crate::claimed::ClaimedValues;
use crate::drawing::{draw_challenge, observe_openings};
use crate::error::MergeError;
use crate::openings::{do_match, true_openings};
use crate::refusals::refusal;
use crate::report::MergeReport;
use crate::shape::FittingClaims;
use crate::values::{claim_at, values_of};
use crate::verdict::verdict_on;
use crate::weights::merged_tables;
use sc_challenger::Challenger;
use sc_field::{ExtensionField, Field, NoMemory};
use sc_table::{Basis, Point, Row};
use sc_transcript::driver::RoundShape;
use sc_transcript::replay::check_counts;
use sc_transcript::{SumcheckError, SumcheckShape};
use std::alloc::Global;

// Rounds that were replayed, with their openings: the challenge that merges the claims, the merged
// claim, the challenges of the rounds, and what they leave of it.
#[derive(Drop)]
pub(crate) struct Played<F, EF> {
    pub(crate) challenge: EF,
    pub(crate) claim: EF,
    pub(crate) proof: MergeProof<F, EF>,
    pub(crate) challenges: Point<EF>,
    pub(crate) residual: EF,
}

// Checks the rounds and openings of a proof.
pub(crate) fn check<F: Field, EF: ExtensionField<F>, C: Challenger<F>>(
    alloc: Global,
    fitting: &FittingClaims<'_, F, EF>,
    proof: &MergeProof<F, EF>,
    challenger: &mut C,
) -> Result<MergeReport<F, EF>, MergeError>
    requires { fitting.now.pow_bits ≤ (C.party challenger.old).rules.max_bits }
    ensures rules { (C.party challenger.new).rules ≡ (C.party challenger.old).rules }
    ensures answered { IsAnswered (case_by fitting.now (C.party challenger.old))
        (Some (came_in F.number EF.number proof.now)) (result_in F.number EF.number result)
        (C.party challenger.new).history }
{
    check_proof(fitting, proof)?;
    let proof = copy_of(alloc, proof)?;
    let values = values_of(alloc, fitting)?;
    replay(alloc, fitting, &values, proof, challenger)
}

// Refuses a proof of another number of openings, of rounds or of witnesses.
fn check_proof<F: Field, EF: ExtensionField<F>>(
    fitting: &FittingClaims<'_, F, EF>,
    proof: &MergeProof<F, EF>,
) -> Result<(), MergeError>
    ensures { fault_in result ≡ proof_fault (length fitting.now.tables.now)
        fitting.now.num_variables fitting.now.pow_bits (came_in F.number EF.number proof.now) }
{
    let (expected, actual) = (fitting.tables.len(), proof.openings.len());
    if actual != expected {
        return Err(MergeError::OpeningCount { expected, actual });
    }
    let shape = SumcheckShape::new(fitting.num_variables, fitting.pow_bits, Basis::Evaluation);
    let (rounds, witnesses) = (
        proof.rounds.polynomial_evaluations.len(),
        proof.rounds.pow_witnesses.len(),
    );
    match check_counts(shape.batch(), rounds, witnesses) {
        Ok(()) => Ok(()),
        Err(error) => Err(refusal(SumcheckError::from(error))),
    }
}

// The same proof, in memory of its own.
fn copy_of<F: Field, EF: ExtensionField<F>>(
    alloc: Global,
    proof: &MergeProof<F, EF>,
) -> Result<MergeProof<F, EF>, NoMemory>
    ensures { IfOk result
        (λ p. came_in F.number EF.number p ≡ came_in F.number EF.number proof.now) }
{
    Ok(MergeProof {
        rounds: proof.rounds.copy(alloc)?,
        openings: Vec::from_slice(alloc, &proof.openings)?,
    })
}

// Observes the claimed values, draws the challenge that merges them, replays rounds and observes
// openings, of which there are as many as there have to be, and reports on them.
fn replay<F: Field, EF: ExtensionField<F>, C: Challenger<F>>(
    alloc: Global,
    fitting: &FittingClaims<'_, F, EF>,
    values: &ClaimedValues<EF>,
    proof: MergeProof<F, EF>,
    challenger: &mut C,
) -> Result<MergeReport<F, EF>, MergeError>
    requires difficulty { fitting.now.pow_bits ≤ (C.party challenger.old).rules.max_bits }
    requires values { (at : Party) → AreValues EF.number (case_by fitting.now at) values.now }
    requires counted { proof_fault (length fitting.now.tables.now) fitting.now.num_variables
        fitting.now.pow_bits (came_in F.number EF.number proof) ≡ None }
    ensures rules { (C.party challenger.new).rules ≡ (C.party challenger.old).rules }
    ensures answered { IsAnswered (case_by fitting.now (C.party challenger.old))
        (Some (came_in F.number EF.number proof)) (result_in F.number EF.number result)
        (C.party challenger.new).history }
{
    let challenge = draw_challenge::<F, EF, C>(&values.claimed, challenger)?;
    replay_at(alloc, fitting, values, challenge, proof, challenger)
}

// Replays rounds and observes openings, of which there are as many as there have to be, after the
// claims were merged, and reports on them.
pub(crate) fn replay_at<F: Field, EF: ExtensionField<F>, C: Challenger<F>>(
    alloc: Global,
    fitting: &FittingClaims<'_, F, EF>,
    values: &ClaimedValues<EF>,
    challenge: EF,
    proof: MergeProof<F, EF>,
    challenger: &mut C,
) -> Result<MergeReport<F, EF>, MergeError>
    requires difficulty { fitting.now.pow_bits ≤ (C.party challenger.old).rules.max_bits }
    requires values { (at : Party) → AreValues EF.number (case_by fitting.now at) values.now }
    requires counted { proof_fault (length fitting.now.tables.now) fitting.now.num_variables
        fitting.now.pow_bits (came_in F.number EF.number proof) ≡ None }
    ensures rules { (C.party challenger.new).rules ≡ (C.party challenger.old).rules }
    ensures answered { (at : Party)
        → IsDrawnAt EF.number (case_by fitting.now at) challenge (C.party challenger.old)
        → IsAnswered (case_by fitting.now at) (Some (came_in F.number EF.number proof))
        (result_in F.number EF.number result) (C.party challenger.new).history }
{
    let claim = claim_at(&values.claimed, challenge);
    let mut residual = claim;
    let challenges = match proof.rounds.verify_rounds(
        alloc,
        challenger,
        &mut residual,
        fitting.num_variables,
        fitting.pow_bits,
        Basis::Evaluation,
    ) {
        Ok(challenges) => challenges,
        Err(error) => return Err(refusal(error)),
    };
    observe_openings::<F, EF, C>(challenger, &proof.openings)?;
    let played = Played {
        challenge,
        claim,
        proof,
        challenges,
        residual,
    };
    let report = report_on(alloc, fitting, values, played)?;
    Ok(report)
}

// The report on rounds and openings that were replayed.
fn report_on<F: Field, EF: ExtensionField<F>>(
    alloc: Global,
    fitting: &FittingClaims<'_, F, EF>,
    values: &ClaimedValues<EF>,
    played: Played<F, EF>,
) -> Result<MergeReport<F, EF>, NoMemory>
    requires values { (at : Party) → AreValues EF.number (case_by fitting.now at) values.now }
    requires counted { proof_fault (length fitting.now.tables.now) fitting.now.num_variables
        fitting.now.pow_bits (came_in F.number EF.number played.proof) ≡ None }
    requires challenges { length played.challenges ≡ fitting.now.num_variables }
    ensures { IfOk result (λ r. (at : Party)
        → IsPlayedIn F.number EF.number (case_by fitting.now at) played
        → figures_in F.number EF.number r ≡ openings_figures (case_by fitting.now at)
        (sent_given (came_in F.number EF.number played.proof))) }
{
    let tables = merged_tables(alloc, fitting, played.challenge)?;
    let weights = tables.weights_at(alloc, &played.challenges)?;
    let openings = true_openings::<F, EF>(alloc, fitting.tables, &played.challenges)?;
    let shown = played.proof.openings.as_slice();
    let matched = do_match(played.residual, shown, &weights, &openings);
    let verdict = verdict_on(alloc, values, &played, tables, matched)?;
    let Played {
        challenge: _,
        claim,
        proof,
        challenges,
        residual,
    } = played;
    Ok(MergeReport {
        claim,
        proof,
        challenges,
        residual,
        weights: Row::new(weights),
        verdict,
    })
}
