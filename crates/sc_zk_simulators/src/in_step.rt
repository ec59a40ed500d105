//! A simulator and a verifier of masked rounds, in step.
ghost use Rattle.std.specs.Prelude.{◌≡◌, ◌≤◌, IfOk, OnErr};
ghost use Rattle.sc_zk_transcript.specs.Shapes.{IsFit};
ghost use Rattle.sc_zk_simulators.specs.Drafts.{draft_from, IsDrawn, SomeOfDraft};
ghost use Rattle.sc_zk_simulators.specs.Simulations.{simulation_by};
ghost use Rattle.sc_zk_simulators.specs.InStep.{run_in, SimulatesInStep};
ghost use Rattle.sc_zk_rounds.specs.Data.{sent_in};
ghost use Rattle.sc_zk_rounds.specs.Heads.{inherited_shape};

use crate::simulators::simulate_classic_unpacked_claim;
use rand_core::Rng;
use sc_challenger::Challenger;
use sc_commitments::{Mmcs, ZkEncoding};
use sc_field::{ExtensionField, Field};
use sc_table::Point;
use sc_transcript::SumcheckError;
use sc_zk_rounds::{ZkSumcheckData, verify_claim};
use std::alloc::Global;

/// What a simulation, and its replay, tell.
#[derive(Drop)]
pub struct SimulatedRun<F, EF, K> {
    /// What was put on the wire.
    pub zk_data: ZkSumcheckData<F, EF>,
    /// The commitment to the masks.
    pub mask_commitment: K,
    /// The challenges of the rounds, in drawing order.
    pub randomness: Point<EF>,
    /// The combination.
    pub eps: EF,
    /// What the replay leaves of the first target.
    pub claimed_residual: EF,
}

/// A simulator and a verifier of masked rounds stay in step: rounds are simulated on a copy of the
/// challenger, and what was sent is replayed on the challenger itself, under the same claim. The
/// verifier refuses nothing that was simulated. It draws the same challenges, and its history is
/// the simulator's. What is answered of the simulation is what the simulator drew.
///
/// # Conditions
///
/// Those of [`simulate_classic_unpacked_claim`].
///
/// # Errors
///
/// `NoWitness` names the first round for whose wire no element of the base field passes the test;
/// the history is as it was. After `NoMemory` it is as it was, or ends after the seed, the claim,
/// or the masks and some of the rounds. After either the generator has drawn some of the masks, of
/// the randomness or of the wires, and all that comes before these.
pub fn simulation_in_step<
    F: Field,
    EF: ExtensionField<F>,
    Enc: ZkEncoding<EF>,
    M: Mmcs<EF>,
    C: Challenger<F>,
    G: Rng,
>(
    alloc: Global,
    challenger: &mut C,
    claimed_sum: EF,
    folding_factor: usize,
    pow_bits: usize,
    encoding: &Enc,
    mmcs: &M,
    rng: &mut G,
) -> Result<SimulatedRun<F, EF, M::Commitment>, SumcheckError>
    requires difficulty { pow_bits ≤ (C.party challenger.old).rules.max_bits }
    requires fit { IsFit F.ops (inherited_shape folding_factor
        (Enc.message_length encoding.now) pow_bits) }
    ensures rules { (C.party challenger.new).rules ≡ (C.party challenger.old).rules }
    ensures drawn { IfOk result (λ r. IsDrawn (draft_from ⟦<Enc as ZkEncoding<EF>>⟧
        ⟦<M as Mmcs<EF>>⟧ EF.ops encoding.now mmcs.now folding_factor (G.stream rng.old))
        r.mask_commitment (sent_in F.number EF.number r.zk_data) (G.stream rng.new)) }
    ensures refused { OnErr result (SomeOfDraft ⟦<Enc as ZkEncoding<EF>>⟧ EF.ops.size encoding.now
        folding_factor (G.stream rng.old) (G.stream rng.new)) }
    ensures steps { SimulatesInStep (run_in F.number EF.number) EF.ops
        (simulation_by (C.party challenger.old) EF.extension F.ops.size
        (inherited_shape folding_factor (Enc.message_length encoding.now)
        pow_bits) (EF.number claimed_sum) (draft_from ⟦<Enc as ZkEncoding<EF>>⟧
        ⟦<M as Mmcs<EF>>⟧ EF.ops encoding.now mmcs.now folding_factor (G.stream rng.old)))
        result (C.party challenger.new).history }
{
    let mut copy = challenger.copy(alloc)?;
    let (zk_data, mask_commitment, _) = simulate_classic_unpacked_claim(
        alloc,
        &mut copy,
        claimed_sum,
        folding_factor,
        pow_bits,
        encoding,
        mmcs,
        rng,
    )?;
    let replayed = verify_claim(
        alloc,
        mmcs,
        &zk_data,
        &mask_commitment,
        encoding.message_len(),
        folding_factor,
        pow_bits,
        claimed_sum,
        challenger,
    )?;
    Ok(SimulatedRun {
        zk_data,
        mask_commitment,
        randomness: replayed.randomness,
        eps: replayed.eps,
        claimed_residual: replayed.claimed_residual,
    })
}
