//! What is sent for recorded claims, and the verifier that has recorded them, in step.
ghost use Rattle.std.specs.Prelude.{◌≡◌, ◌≤◌, IfOk, OnOk, OnErr};
ghost use Rattle.sc_commitments.specs.Draws.{masks_from, SomeMasksDrawn};
ghost use Rattle.sc_zk_transcript.specs.Shapes.{IsFit};
ghost use Rattle.sc_zk_rounds.specs.InStep.{StaysInStep, run_in};
ghost use Rattle.sc_zk_simulators.specs.Drafts.{draft_from, IsDrawn, SomeOfDraft};
ghost use Rattle.sc_zk_simulators.specs.InStep.{SimulatesInStep};
ghost use Rattle.sc_zk_simulators.specs.InStep.{run_in as simulated_in};
ghost use Rattle.sc_zk_rounds.specs.Data.{sent_in};
ghost use Rattle.sc_zk_rounds.specs.Heads.{recorded_shape};
ghost use Rattle.sc_zk_layout.specs.Recorded.{recorded_batch};
ghost use Rattle.sc_zk_layout.specs.Provers.{layout_in, encoding_in, scheme_in, masks_by};
ghost use Rattle.sc_zk.specs.Recorded.{HasRecorded, recorded_simulation};

use crate::simulator::simulate_classic_unpacked;
use crate::verifier::ZkVerifier;
use rand_core::Rng;
use sc_challenger::Challenger;
use sc_commitments::{Mmcs, ZkEncoding};
use sc_field::{ExtensionField, Field};
use sc_layout::Layout;
use sc_transcript::SumcheckError;
use sc_zk_layout::ZkProver;
use sc_zk_rounds::{MaskedRun, ZkSumcheckData, mask_residual};
use sc_zk_simulators::SimulatedRun;
use std::alloc::Global;

/// A prover of a layout under masks and a verifier stay in step, where the verifier has recorded
/// the same claims in the same order: the rounds are played on a copy of the challenger, and what
/// was sent is replayed on the challenger itself. The verifier refuses nothing that the prover
/// sent. It draws the same challenges, its history is the prover's, and what it leaves of the first
/// target is the combination times the plain residual, and the masks at their challenges.
///
/// # Conditions
///
/// Those of [`ZkProver::into_sumcheck`]. The verifier's scheme has the words of the prover's.
///
/// # Errors
///
/// `NoWitness` names the first round for whose wire no element of the base field passes the test;
/// the history is as it was. After `NoMemory` it is as it was, or ends after the seed, the batching
/// challenge, or the masks and some of the rounds. After either the generator has drawn some of the
/// masks, or all of them and some or all of the randomness.
pub fn layout_in_step<
    F: Field,
    EF: ExtensionField<F>,
    Enc: ZkEncoding<EF>,
    M: Mmcs<EF>,
    L: Layout<F, EF>,
    C: Challenger<F>,
    G: Rng,
>(
    alloc: Global,
    prover: ZkProver<F, EF, Enc, M, L>,
    verifier: ZkVerifier<F, EF>,
    mmcs: &M,
    pow_bits: usize,
    challenger: &mut C,
    rng: &mut G,
) -> Result<MaskedRun<F, EF>, SumcheckError>
    requires difficulty { pow_bits ≤ (C.party challenger.old).rules.max_bits }
    requires fit { IsFit F.ops (recorded_shape (L.laid (layout_in prover)).folding
        (Enc.message_length (encoding_in prover)) pow_bits) }
    requires words { M.words_of mmcs.now ≡ M.words_of (scheme_in prover) }
    ensures rules { (C.party challenger.new).rules ≡ (C.party challenger.old).rules }
    ensures drawn { OnOk result (G.stream rng.new ≡ (masks_from
        (Enc.message_from (encoding_in prover)) (Enc.randomness_from (encoding_in prover))
        (L.laid (layout_in prover)).folding (G.stream rng.old)).left) }
    ensures refused { OnErr result (SomeMasksDrawn (Enc.message_from (encoding_in prover))
        (Enc.randomness_from (encoding_in prover)) (L.laid (layout_in prover)).folding
        (G.stream rng.old) (G.stream rng.new)) }
    ensures steps { let l = L.laid (layout_in prover) in
        HasRecorded l verifier → StaysInStep (run_in F.number EF.number)
        (recorded_batch F.ops EF.ops EF.extension
        (recorded_shape l.folding (Enc.message_length (encoding_in prover)) pow_bits)
        (C.party challenger.old) l (masks_by ⟦<Enc as ZkEncoding<EF>>⟧ ⟦<M as Mmcs<EF>>⟧ prover
        l.folding (G.stream rng.old))) result (C.party challenger.new).history }
{
    let (rounds, length) = (prover.folding(), prover.mask_length());
    let mut zk_data = ZkSumcheckData::new(alloc);
    let mut copy = challenger.copy(alloc)?;
    let handoff = prover.into_sumcheck(alloc, &mut zk_data, pow_bits, &mut copy, rng)?;
    let replayed = verifier.into_sumcheck(
        alloc,
        mmcs,
        &zk_data,
        &handoff.mask_oracle.0,
        length,
        rounds,
        pow_bits,
        challenger,
    )?;
    Ok(MaskedRun {
        zk_data,
        randomness: replayed.randomness,
        eps: replayed.eps,
        claimed_residual: replayed.claimed_residual,
        scaled: handoff.residual_prover.claimed_sum(),
        carried: EF::ZERO,
        mask_residual: mask_residual(&handoff.mask_messages, handoff.randomness.as_slice()),
    })
}

/// A simulator of recorded claims, and the verifier that has recorded them, stay in step: the
/// rounds are simulated on a copy of the challenger, and what was sent is replayed on the
/// challenger itself. The verifier refuses nothing that was simulated, whether its claims are true
/// or not. It draws the same challenges, and its history is the simulator's. What is answered of
/// the simulation is what the simulator drew.
///
/// # Conditions
///
/// Those of [`simulate_classic_unpacked`].
///
/// # Errors
///
/// `NoWitness` names the first round for whose wire no element of the base field passes the test;
/// the history is as it was. After `NoMemory` it is as it was, or ends after the seed, the batching
/// challenge, or the masks and some of the rounds. After either the generator has drawn some of the
/// masks, of the randomness or of the wires, and all that comes before these.
pub fn recorded_simulation_in_step<
    F: Field,
    EF: ExtensionField<F>,
    Enc: ZkEncoding<EF>,
    M: Mmcs<EF>,
    C: Challenger<F>,
    G: Rng,
>(
    alloc: Global,
    challenger: &mut C,
    verifier: ZkVerifier<F, EF>,
    folding_factor: usize,
    pow_bits: usize,
    encoding: &Enc,
    mmcs: &M,
    rng: &mut G,
) -> Result<SimulatedRun<F, EF, M::Commitment>, SumcheckError>
    requires difficulty { pow_bits ≤ (C.party challenger.old).rules.max_bits }
    requires fit { IsFit F.ops
        (recorded_shape folding_factor (Enc.message_length encoding.now) pow_bits) }
    ensures rules { (C.party challenger.new).rules ≡ (C.party challenger.old).rules }
    ensures drawn { IfOk result (λ r. IsDrawn (draft_from ⟦<Enc as ZkEncoding<EF>>⟧
        ⟦<M as Mmcs<EF>>⟧ EF.ops encoding.now mmcs.now folding_factor (G.stream rng.old))
        r.mask_commitment (sent_in F.number EF.number r.zk_data) (G.stream rng.new)) }
    ensures refused { OnErr result (SomeOfDraft ⟦<Enc as ZkEncoding<EF>>⟧ EF.ops.size encoding.now
        folding_factor (G.stream rng.old) (G.stream rng.new)) }
    ensures steps { SimulatesInStep (simulated_in F.number EF.number) EF.ops
        (recorded_simulation (C.party challenger.old) EF.extension F.ops.size
        (recorded_shape folding_factor (Enc.message_length encoding.now) pow_bits) verifier
        (draft_from ⟦<Enc as ZkEncoding<EF>>⟧ ⟦<M as Mmcs<EF>>⟧ EF.ops encoding.now mmcs.now
        folding_factor (G.stream rng.old))) result (C.party challenger.new).history }
{
    let mut copy = challenger.copy(alloc)?;
    let (zk_data, mask_commitment, _) = simulate_classic_unpacked(
        alloc,
        &mut copy,
        &verifier,
        folding_factor,
        pow_bits,
        encoding,
        mmcs,
        rng,
    )?;
    let replayed = verifier.into_sumcheck(
        alloc,
        mmcs,
        &zk_data,
        &mask_commitment,
        encoding.message_len(),
        folding_factor,
        pow_bits,
        challenger,
    )?;
    Ok(SimulatedRun {
        zk_data,
        mask_commitment,
        randomness: replayed.randomness,
        eps: replayed.eps,
        claimed_residual: replayed.claimed_residual,
    })
}
