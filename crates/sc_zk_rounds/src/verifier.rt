//! The replay of a claim under masks.
ghost use Rattle.std.specs.Prelude.{◌≡◌, ◌≤◌};
ghost use Rattle.sc_zk_definitions.specs.MaskedTranscripts.{head};
ghost use Rattle.sc_zk_rounds.specs.Heads.{inherited_shape};
ghost use Rattle.sc_zk_rounds.specs.Data.{masked_wire_in};
ghost use Rattle.sc_zk_rounds.specs.Verified.{claim_by, told_by, LeavesMaskedReplay};

use crate::data::{ZkSumcheckData, ZkVerifierHandoff};
use crate::head::begin_inherited;
use crate::replayed::{check_came, replay_begun};
use sc_challenger::Challenger;
use sc_commitments::Mmcs;
use sc_field::{ExtensionField, Field, with_room};
use sc_transcript::SumcheckError;
use sc_zk_transcript::ZkSumcheckShape;
use std::alloc::Global;

/// Replays masked rounds, as many as the folding factor, under a claim that was handed on: answers
/// their challenges in drawing order, what they leave of the first target, and the combination. The
/// difficulty is at most the challenger's [`Challenger::max_bits`].
///
/// The first target is the combination times the claim, and the masks' total. The answer does not
/// yet mean that the claim is right: the caller has to test what is left of it, which for an honest
/// prover is the combination times the plain residual, and the masks at their challenges.
///
/// # Errors
///
/// In this order: `EvenCharacteristic`, `MaskTooShort` and `NoRounds` where the shape is unfit;
/// `RoundCountMismatch` and `PowWitnessCountMismatch` where another number of rounds or witnesses
/// came. These come before any event, and leave the history as it was. `WireSizeMismatch` names the
/// first round whose wire has more or fewer values than the shape says, unless the witness of a
/// round before it fails: the history ends after the rounds before it. `InvalidPowWitness` names
/// the first round whose witness fails: the history ends with its test. After `NoMemory` the
/// history is as it was, or ends after the seed, the claim, or the masks and some of the rounds.
pub fn verify_claim<F: Field, EF: ExtensionField<F>, M: Mmcs<EF>, C: Challenger<F>>(
    alloc: Global,
    mmcs: &M,
    zk_data: &ZkSumcheckData<F, EF>,
    mask_commitment: &M::Commitment,
    ell_zk: usize,
    folding_factor: usize,
    pow_bits: usize,
    claimed_sum: EF,
    challenger: &mut C,
) -> Result<ZkVerifierHandoff<EF>, SumcheckError>
    requires difficulty { pow_bits ≤ (C.party challenger.old).rules.max_bits }
    ensures rules { (C.party challenger.new).rules ≡ (C.party challenger.old).rules }
    ensures left { LeavesMaskedReplay (told_by EF.number)
        (claim_by (C.party challenger.old) F.ops EF.ops EF.extension
        (inherited_shape folding_factor ell_zk pow_bits)
        (head (EF.number claimed_sum) (M.words_of mmcs.now mask_commitment.now)
        (EF.number zk_data.now.mu_tilde)) (masked_wire_in F.number EF.number zk_data.now))
        result (C.party challenger.new).history }
{
    let shape = ZkSumcheckShape::new_inherited(folding_factor, ell_zk, pow_bits);
    check_came(shape, zk_data)?;
    // What takes memory of its own comes first, so that its refusal leaves all as it was.
    let words = mmcs.words(alloc, *mask_commitment)?;
    let challenges = with_room(alloc, folding_factor)?;
    begin_inherited::<F, EF, C>(alloc, challenger, shape, claimed_sum)?;
    replay_begun(challenger, zk_data, shape, claimed_sum, &words, challenges)
}
