//! What stands before the rounds of a masked batch: for whoever plays or replays the rounds without
//! a driver.
ghost use Rattle.std.specs.Prelude.{◌≡◌, ℕ, List, IfOk, OnOk, OnErr};
ghost use Rattle.sc_definitions.specs.declared.events.Event.{Event};
ghost use Rattle.sc_challenger.specs.Parties.{channel_by};
ghost use Rattle.sc_zk_definitions.specs.MaskedTranscripts.{head, batching_at};
ghost use Rattle.sc_zk_definitions.specs.MaskedTranscripts.{combination_at, rounds_from};
ghost use Rattle.sc_zk_definitions.specs.MaskedBatches.{IsHeadPart};
ghost use Rattle.sc_zk_transcript.specs.Shapes.{fixed_by};
ghost use Rattle.sc_zk_rounds.specs.Data.{AreWords};
ghost use Rattle.sc_zk_rounds.specs.Heads.{begun_at, headed_by, LeavesBegun, LeavesHead};

use sc_challenger::{Challenger, sample_ext};
use sc_field::{ExtensionField, Field, NoMemory};
use sc_zk_definitions::ZkPrelude;
use sc_zk_transcript::ZkSumcheckShape;
use sc_zk_transcript::head::{combine_masks, observe_claim};
use std::alloc::Global;

/// Observes the seed of a batch of recorded claims, and draws the challenge whose powers batch
/// them. The shape is of such a batch.
///
/// # Errors
///
/// [`NoMemory`] alone: the history is as it was, or ends after the seed.
pub fn begin_recorded<F: Field, EF: ExtensionField<F>, C: Challenger<F>>(
    alloc: Global,
    challenger: &mut C,
    shape: ZkSumcheckShape,
) -> Result<EF, NoMemory>
    requires recorded { shape.prelude ≡ ZkPrelude.RecordedClaims }
    ensures rules { (C.party challenger.new).rules ≡ (C.party challenger.old).rules }
    ensures drawn { IfOk result (λ x. EF.number x
        ≡ batching_at (C.party challenger.old).rules EF.extension
        (C.party challenger.old).history (fixed_by shape)) }
    ensures begins { (claim : ℕ) → LeavesBegun
        (channel_by (C.party challenger.old) EF.extension F.ops.size shape.pow_bits)
        (fixed_by shape) claim (C.party challenger.old).history result
        (C.party challenger.new).history }
{
    shape.seed::<F, EF, C>(alloc, challenger)?;
    sample_ext::<F, EF, C>(challenger)
}

/// Observes the seed of a batch under a claim that is handed on, and the claim. The shape is of
/// such a batch.
///
/// # Errors
///
/// [`NoMemory`] alone: the history is as it was, or ends after the seed.
pub fn begin_inherited<F: Field, EF: ExtensionField<F>, C: Challenger<F>>(
    alloc: Global,
    challenger: &mut C,
    shape: ZkSumcheckShape,
    claim: EF,
) -> Result<(), NoMemory>
    requires inherited { shape.prelude ≡ ZkPrelude.InheritedClaim }
    ensures rules { (C.party challenger.new).rules ≡ (C.party challenger.old).rules }
    ensures begins { LeavesBegun
        (channel_by (C.party challenger.old) EF.extension F.ops.size shape.pow_bits)
        (fixed_by shape) (EF.number claim) (C.party challenger.old).history result
        (C.party challenger.new).history }
{
    shape.seed::<F, EF, C>(alloc, challenger)?;
    observe_claim::<F, EF, C>(challenger, claim)
}

// Begins a batch of either kind. The claim is read only where it is handed on.
fn begin<F: Field, EF: ExtensionField<F>, C: Challenger<F>>(
    alloc: Global,
    challenger: &mut C,
    shape: ZkSumcheckShape,
    claim: EF,
) -> Result<(), NoMemory>
    ensures rules { (C.party challenger.new).rules ≡ (C.party challenger.old).rules }
    ensures begins { LeavesBegun
        (channel_by (C.party challenger.old) EF.extension F.ops.size shape.pow_bits)
        (fixed_by shape) (EF.number claim) (C.party challenger.old).history result
        (C.party challenger.new).history }
{
    match shape.prelude {
        ZkPrelude::InheritedClaim => begin_inherited::<F, EF, C>(alloc, challenger, shape, claim),
        ZkPrelude::RecordedClaims => match begin_recorded::<F, EF, C>(alloc, challenger, shape) {
            Ok(_) => Ok(()),
            Err(error) => Err(error),
        },
    }
}

/// Observes the words of the masks' commitment, 64 numbers below 16, and the masks' total, and
/// draws the combination, where a batch of either kind has begun: after its seed and its first
/// step.
///
/// # Errors
///
/// [`NoMemory`] alone: the history is as it was.
pub fn combine_begun<F: Field, EF: ExtensionField<F>, C: Challenger<F>>(
    challenger: &mut C,
    shape: ZkSumcheckShape,
    words: &[u8],
    mu_tilde: EF,
) -> Result<EF, NoMemory>
    requires words { AreWords words.now }
    ensures rules { (C.party challenger.new).rules ≡ (C.party challenger.old).rules }
    ensures combines { (h : List Event) (claim : ℕ)
        → (C.party challenger.old).history ≡ begun_at EF.extension h (fixed_by shape) claim
        → LeavesHead EF.number (headed_by (C.party challenger.old) EF.extension F.ops.size shape
        (head claim words.now (EF.number mu_tilde)) h) result (C.party challenger.new).history }
{
    combine_masks::<F, EF, C>(challenger, words, mu_tilde)
}

/// Observes and draws all that stands before the rounds of a batch of either kind, and answers the
/// combination: the seed, the first step, the words of the masks' commitment, 64 numbers below 16,
/// and the masks' total. The claim is read only where it is handed on; recorded claims are batched
/// by a challenge, which is drawn.
///
/// # Errors
///
/// [`NoMemory`] alone: the history is as it was, or ends after the seed or the first step.
pub fn observe_head<F: Field, EF: ExtensionField<F>, C: Challenger<F>>(
    alloc: Global,
    challenger: &mut C,
    shape: ZkSumcheckShape,
    claim: EF,
    words: &[u8],
    mu_tilde: EF,
) -> Result<EF, NoMemory>
    requires words { AreWords words.now }
    ensures rules { (C.party challenger.new).rules ≡ (C.party challenger.old).rules }
    ensures drawn { IfOk result (λ x. EF.number x
        ≡ combination_at (C.party challenger.old).rules EF.extension
        (C.party challenger.old).history (fixed_by shape)
        (head (EF.number claim) words.now (EF.number mu_tilde))) }
    ensures ok { OnOk result ((C.party challenger.new).history
        ≡ rounds_from EF.extension (C.party challenger.old).history (fixed_by shape)
        (head (EF.number claim) words.now (EF.number mu_tilde))) }
    ensures err { OnErr result
        (IsHeadPart (channel_by (C.party challenger.old) EF.extension F.ops.size shape.pow_bits)
        (fixed_by shape) (EF.number claim) (C.party challenger.old).history
        (C.party challenger.new).history) }
{
    begin::<F, EF, C>(alloc, challenger, shape, claim)?;
    combine_begun::<F, EF, C>(challenger, shape, words, mu_tilde)
}
