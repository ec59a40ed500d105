//! A prover and a verifier of masked rounds, in step.
ghost use Rattle.std.specs.Prelude.{◌≡◌, ◌≤◌, length};
ghost use Rattle.sc_definitions.specs.Tables.{evaluation};
ghost use Rattle.sc_rounds.specs.ProverViews.{shown_by};
ghost use Rattle.sc_zk_transcript.specs.Shapes.{IsFit};
ghost use Rattle.sc_zk_rounds.specs.Heads.{inherited_shape};
ghost use Rattle.sc_zk_rounds.specs.Handoffs.{batch_by};
ghost use Rattle.sc_zk_rounds.specs.InStep.{StaysInStep, run_in};
ghost use Rattle.sc_zk_rounds.specs.Views.{AreCoded, coded_in, masks_under};

use crate::data::ZkSumcheckData;
use crate::into_zk::IntoZk;
use crate::mixing::aux_after;
use crate::values::mask_residual;
use crate::verifier::verify_claim;
use sc_challenger::Challenger;
use sc_commitments::{Mmcs, ZkEncoding};
use sc_field::{ExtensionField, Field};
use sc_rounds::SumcheckProver;
use sc_table::Point;
use sc_transcript::SumcheckError;
use std::alloc::Global;

/// What a batch under masks, and its replay, tell.
#[derive(Drop)]
pub struct MaskedRun<F, EF> {
    /// What was put on the wire.
    pub zk_data: ZkSumcheckData<F, EF>,
    /// The challenges of the rounds, in drawing order.
    pub randomness: Point<EF>,
    /// The combination: what the plain part was multiplied by before masks were added.
    pub eps: EF,
    /// What the replay leaves of the first target. It is the sum of the next three.
    pub claimed_residual: EF,
    /// The claim of the residual prover: the combination times the plain residual.
    pub scaled: EF,
    /// The combination times what is left of aux: aux over two to the power of how many rounds.
    pub carried: EF,
    /// The sum of the masks, each at its challenge.
    pub mask_residual: EF,
}

/// A prover and a verifier of masked rounds stay in step: a batch is played on a copy of the
/// challenger, and what it sent is replayed on the challenger itself, under the claim with aux. The
/// verifier refuses no batch that a prover played. It draws the same challenges, its history is the
/// prover's, and what it leaves of the first target is the combination times the plain residual
/// with what is left of aux, and the masks at their challenges.
///
/// # Conditions
///
/// Those of [`IntoZk::into_zk_sumcheck_with`].
///
/// # Errors
///
/// `NoWitness` names the first round for whose wire no element of the base field passes the test;
/// the history is as it was. After `NoMemory` it is as it was, or ends after the seed, the claim,
/// or the masks and some of the rounds.
pub fn masked_in_step<
    F: Field,
    EF: ExtensionField<F>,
    Enc: ZkEncoding<EF>,
    M: Mmcs<EF>,
    C: Challenger<F>,
>(
    alloc: Global,
    prover: SumcheckProver<F, EF>,
    encoding: &Enc,
    mmcs: &M,
    masks: Vec<Vec<EF>>,
    randomness: Vec<Vec<EF>>,
    pow_bits: usize,
    aux_claim: EF,
    challenger: &mut C,
) -> Result<MaskedRun<F, EF>, SumcheckError>
    requires variables { length masks.items ≤ (shown_by prover).variables }
    requires basis { (shown_by prover).basis ≡ evaluation }
    requires difficulty { pow_bits ≤ (C.party challenger.old).rules.max_bits }
    requires fit { IsFit F.ops (inherited_shape (length masks.items)
        (Enc.message_length encoding.now) pow_bits) }
    requires coded { AreCoded (Enc.message_length encoding.now)
        (Enc.randomness_length encoding.now) masks.items randomness.items }
    ensures rules { (C.party challenger.new).rules ≡ (C.party challenger.old).rules }
    ensures steps { StaysInStep (run_in F.number EF.number)
        (batch_by (C.party challenger.old) EF.extension F.ops.size pow_bits EF.ops (shown_by prover)
        (masks_under ⟦<Enc as ZkEncoding<EF>>⟧ ⟦<M as Mmcs<EF>>⟧ encoding.now mmcs.now
        (coded_in EF.number masks.items randomness.items) (EF.number aux_claim)))
        result (C.party challenger.new).history }
{
    let claim = prover.claimed_sum().add(aux_claim);
    let rounds = masks.len();
    let mut zk_data = ZkSumcheckData::new(alloc);
    let mut copy = challenger.copy(alloc)?;
    let handoff = prover.into_zk_sumcheck_with(
        alloc,
        &mut zk_data,
        encoding,
        mmcs,
        masks,
        randomness,
        pow_bits,
        aux_claim,
        &mut copy,
    )?;
    let replayed = verify_claim(
        alloc,
        mmcs,
        &zk_data,
        &handoff.mask_oracle.0,
        encoding.message_len(),
        rounds,
        pow_bits,
        claim,
        challenger,
    )?;
    Ok(MaskedRun {
        zk_data,
        randomness: replayed.randomness,
        eps: replayed.eps,
        claimed_residual: replayed.claimed_residual,
        scaled: handoff.residual_prover.claimed_sum(),
        carried: replayed.eps.mul(aux_after::<F, EF>(aux_claim, rounds)),
        mask_residual: mask_residual(&handoff.mask_messages, handoff.randomness.as_slice()),
    })
}
