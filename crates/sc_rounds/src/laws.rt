//! Laws of batches, as contracts: a caller calls the function and has them.
ghost use Rattle.std.specs.Prelude.{◌≡◌, ◌≤◌, map};
ghost use Rattle.sc_definitions.specs.Channels.{empty_wire};
ghost use Rattle.sc_transcript.specs.Data.{wire_in};
ghost use Rattle.sc_definitions.specs.ProverViews.{KeepsForm};
ghost use Rattle.sc_rounds.specs.Placed.{PlayedArePlaced};
ghost use Rattle.sc_rounds.specs.Provers.{claim_with, stated_if_some};
ghost use Rattle.sc_rounds.specs.ProverViews.{shown_by, IsNoneOrTrueOf, prover_state_of, batch_of};
ghost use Rattle.sc_transcript.specs.Steps.{BatchesReplay, ReplaysAgree, NoneIsInvalid, LeavesStep};

use crate::strategy::SumcheckProver;
use sc_challenger::Challenger;
use sc_constraints::Constraint;
use sc_field::{ExtensionField, Field};
use sc_table::Point;
use sc_transcript::{SumcheckData, SumcheckError};
use std::alloc::Global;

/// Laws of the replay of a batch of rounds that was played onto empty data, in either order, at
/// every difficulty, by whatever rules and extension: from the history and the claim with which the
/// batch began it has a replay, every replay has its challenges and leaves its history and its
/// claim, and no witness fails.
pub fn replay_laws<EF: Field>()
    ensures replay { BatchesReplay }
    ensures agree { ReplaysAgree }
    ensures none_invalid { NoneIsInvalid }
{}

/// What rounds leave of both tables, by those that they began with: each entry is that of the table
/// with all challenges placed. In a prover's contracts the tables are those before them with one
/// variable bound after the other.
#[tactic(auto, using(crate::proofs::PlacedRounds::played_are_placed))]
pub fn placed_laws()
    ensures { PlayedArePlaced }
{}

/// A prover and a verifier stay in step: a batch of rounds is played on one challenger onto data
/// that is empty, with its constraint taken in, and the data is replayed on another one, from the
/// claim with which the batch began: the prover's, and the constraint's batched claim with it. The
/// constraint, if there is one, is true as [`SumcheckProver::constraint_is_true`] tests. Both
/// challengers have the same rules and the same history.
///
/// The answers are the prover's challenges, the verifier's, and what the verifier leaves of the
/// claim. The challenges are equal, and so are the histories after them, and the verifier is left
/// with the prover's claim.
///
/// The verifier refuses no batch that a prover played: a refusal is the want of memory, or the
/// prover finds no witness. After either the prover, its data and its challenger are as
/// [`SumcheckProver::compute_sumcheck_polynomials`] leaves them, and where it was the verifier that
/// wanted memory the whole batch is played. Where no witness was found the verifier's challenger is
/// as it was; after the want of memory it is, or some of the rounds are replayed on it, from the
/// first on.
pub fn batch_in_step<F: Field, EF: ExtensionField<F>, C: Challenger<F>>(
    alloc: Global,
    prover: &mut SumcheckProver<F, EF>,
    sumcheck_data: &mut SumcheckData<F, EF>,
    prover_challenger: &mut C,
    verifier_challenger: &mut C,
    folding_factor: usize,
    pow_bits: usize,
    constraint: Option<Constraint<F, EF>>,
) -> Result<(Point<EF>, Point<EF>, EF), SumcheckError>
    requires variables { folding_factor ≤ (shown_by prover.old).variables }
    requires difficulty { pow_bits ≤ (C.party prover_challenger.old).rules.max_bits }
    requires constraint { IsNoneOrTrueOf prover.old constraint }
    requires rules { (C.party verifier_challenger.old).rules ≡ (C.party prover_challenger.old).rules }
    requires history { (C.party verifier_challenger.old).history ≡ (C.party prover_challenger.old).history }
    requires empty { wire_in F.number EF.number sumcheck_data.old ≡ empty_wire }
    ensures step { LeavesStep (map EF.number) EF.number
        (batch_of prover.old constraint sumcheck_data.old (C.party prover_challenger.old) folding_factor pow_bits)
        (prover_state_of prover.new sumcheck_data.new (C.party prover_challenger.new).history) (C.party verifier_challenger.old).history (C.party verifier_challenger.new).history result }
    ensures prover_rules { (C.party prover_challenger.new).rules ≡ (C.party prover_challenger.old).rules }
    ensures verifier_rules { (C.party verifier_challenger.new).rules ≡ (C.party verifier_challenger.old).rules }
    ensures form { KeepsForm (shown_by prover.old) (shown_by prover.new) }
{
    let basis = prover.basis();
    let mut claim = with_claim(prover.claimed_sum(), &constraint);
    let drawn = prover.compute_sumcheck_polynomials(
        alloc,
        sumcheck_data,
        prover_challenger,
        folding_factor,
        pow_bits,
        constraint,
    )?;
    let replayed = sumcheck_data.verify_rounds(
        alloc,
        verifier_challenger,
        &mut claim,
        folding_factor,
        pow_bits,
        basis,
    )?;
    Ok((drawn, replayed, claim))
}

// A claim, and the batched claim of a constraint with it, if there is one.
fn with_claim<F: Field, EF: ExtensionField<F>>(
    mut claim: EF,
    constraint: &Option<Constraint<F, EF>>,
) -> EF
    ensures { EF.number result ≡ claim_with EF.ops (EF.number claim) (stated_if_some (λ x. EF.embedding (F.number x)) EF.number constraint.now) }
{
    if let Some(constraint) = constraint {
        constraint.combine_evals(&mut claim);
    }
    claim
}
