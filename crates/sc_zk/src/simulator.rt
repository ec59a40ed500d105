//! The simulator of recorded claims, by a verifier that has recorded them.
ghost use Rattle.std.specs.Prelude.{◌≡◌, ◌≤◌, ℕ, IfOk, OnErr};
ghost use Rattle.sc_zk_transcript.specs.Shapes.{IsFit};
ghost use Rattle.sc_zk_rounds.specs.Heads.{recorded_shape};
ghost use Rattle.sc_zk_rounds.specs.Data.{sent_in};
ghost use Rattle.sc_zk_simulators.specs.Drafts.{draft_from, IsDrawn, SomeOfDraft};
ghost use Rattle.sc_zk_simulators.specs.Simulations.{simulation_by, answer_in, LeavesSimulated};

use crate::verifier::ZkVerifier;
use rand_core::Rng;
use sc_challenger::Challenger;
use sc_commitments::{Mmcs, ZkEncoding};
use sc_field::{ExtensionField, Field};
use sc_table::Point;
use sc_transcript::SumcheckError;
use sc_zk_rounds::ZkSumcheckData;
use sc_zk_simulators::simulate_recorded;
use std::alloc::Global;

/// Simulates masked rounds of the claims that a verifier has recorded, as many as the folding
/// factor: as [`simulate_recorded`] does, with its conditions and refusals. The rounds of a
/// simulator are the same whatever the claims are, so that nothing of the verifier is read.
pub fn simulate_classic_unpacked<
    F: Field,
    EF: ExtensionField<F>,
    Enc: ZkEncoding<EF>,
    M: Mmcs<EF>,
    C: Challenger<F>,
    G: Rng,
>(
    alloc: Global,
    challenger: &mut C,
    _verifier: &ZkVerifier<F, EF>,
    folding_factor: usize,
    pow_bits: usize,
    encoding: &Enc,
    mmcs: &M,
    rng: &mut G,
) -> Result<(ZkSumcheckData<F, EF>, M::Commitment, Point<EF>), SumcheckError>
    requires difficulty { pow_bits ≤ (C.party challenger.old).rules.max_bits }
    requires fit { IsFit F.ops (recorded_shape folding_factor
        (Enc.message_length encoding.now) pow_bits) }
    ensures rules { (C.party challenger.new).rules ≡ (C.party challenger.old).rules }
    ensures drawn { IfOk result (λ r. IsDrawn (draft_from ⟦<Enc as ZkEncoding<EF>>⟧
        ⟦<M as Mmcs<EF>>⟧ EF.ops encoding.now mmcs.now folding_factor (G.stream rng.old)) r.1
        (sent_in F.number EF.number r.0) (G.stream rng.new)) }
    ensures refused { OnErr result (SomeOfDraft ⟦<Enc as ZkEncoding<EF>>⟧ EF.ops.size encoding.now
        folding_factor (G.stream rng.old) (G.stream rng.new)) }
    ensures leaves { (claim : ℕ) → LeavesSimulated (answer_in F.number EF.number)
        (simulation_by (C.party challenger.old) EF.extension F.ops.size
        (recorded_shape folding_factor (Enc.message_length encoding.now)
        pow_bits) claim (draft_from ⟦<Enc as ZkEncoding<EF>>⟧ ⟦<M as Mmcs<EF>>⟧ EF.ops encoding.now
        mmcs.now folding_factor (G.stream rng.old))) result (C.party challenger.new).history }
{
    simulate_recorded(
        alloc,
        challenger,
        folding_factor,
        pow_bits,
        encoding,
        mmcs,
        rng,
    )
}
