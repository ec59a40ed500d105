//! The simulators.
ghost use Rattle.std.specs.Prelude.{◌≡◌, ◌≤◌, ℕ, IfOk, OnErr};
ghost use Rattle.sc_zk_transcript.specs.Shapes.{IsFit};
ghost use Rattle.sc_zk_rounds.specs.Heads.{inherited_shape, recorded_shape};
ghost use Rattle.sc_zk_rounds.specs.Data.{sent_in};
ghost use Rattle.sc_zk_simulators.specs.Drafts.{draft_from, IsDrawn, SomeOfDraft};
ghost use Rattle.sc_zk_simulators.specs.Simulations.{simulation_by, answer_in, LeavesSimulated};

use crate::sending::send_all;
use rand_core::Rng;
use sc_challenger::Challenger;
use sc_commitments::{Mmcs, ZkEncoding, sample_masks};
use sc_field::{ExtensionField, Field, with_room};
use sc_table::Point;
use sc_transcript::SumcheckError;
use sc_transcript::driver::RoundShape;
use sc_zk_rounds::ZkSumcheckData;
use sc_zk_rounds::head::observe_head;
use sc_zk_rounds::mixing::masks_total;
use sc_zk_rounds::oracle::commit_masks;
use sc_zk_transcript::ZkSumcheckShape;
use std::alloc::Global;

/// Simulates masked rounds under a claim that is handed on, as many as the folding factor: answers
/// what was put on the wire, the commitment to the masks, and the challenges in drawing order.
///
/// All masks are drawn first, then the randomness of each, and then the wires, entry by entry: each
/// entry is the next draw of [`DrawElement`](sc_commitments::DrawElement). The total that is sent
/// is that of the masks, and the commitment is that of their encoding with this randomness. No mask
/// goes into a wire, and no claim has to be true.
///
/// # Conditions
///
/// There is a round, the encoding's messages have three elements at least, and two is not zero in
/// the base field. The difficulty is at most the challenger's [`Challenger::max_bits`].
///
/// # Errors
///
/// `NoWitness` names the first round for whose wire no element of the base field passes the test;
/// the history ends with that wire. After `NoMemory` the history is as it was, or ends after the
/// seed, the claim, or the masks and some of the rounds. After either the generator has drawn some
/// of the masks, of the randomness or of the wires, and all that comes before these.
pub fn simulate_classic_unpacked_claim<
    F: Field,
    EF: ExtensionField<F>,
    Enc: ZkEncoding<EF>,
    M: Mmcs<EF>,
    C: Challenger<F>,
    G: Rng,
>(
    alloc: Global,
    challenger: &mut C,
    claimed_sum: EF,
    folding_factor: usize,
    pow_bits: usize,
    encoding: &Enc,
    mmcs: &M,
    rng: &mut G,
) -> Result<(ZkSumcheckData<F, EF>, M::Commitment, Point<EF>), SumcheckError>
    requires difficulty { pow_bits ≤ (C.party challenger.old).rules.max_bits }
    requires fit { IsFit F.ops (inherited_shape folding_factor
        (Enc.message_length encoding.now) pow_bits) }
    ensures rules { (C.party challenger.new).rules ≡ (C.party challenger.old).rules }
    ensures drawn { IfOk result (λ r. IsDrawn (draft_from ⟦<Enc as ZkEncoding<EF>>⟧
        ⟦<M as Mmcs<EF>>⟧ EF.ops encoding.now mmcs.now folding_factor (G.stream rng.old)) r.1
        (sent_in F.number EF.number r.0) (G.stream rng.new)) }
    ensures refused { OnErr result (SomeOfDraft ⟦<Enc as ZkEncoding<EF>>⟧ EF.ops.size encoding.now
        folding_factor (G.stream rng.old) (G.stream rng.new)) }
    ensures leaves { LeavesSimulated (answer_in F.number EF.number)
        (simulation_by (C.party challenger.old) EF.extension F.ops.size
        (inherited_shape folding_factor (Enc.message_length encoding.now)
        pow_bits) (EF.number claimed_sum) (draft_from ⟦<Enc as ZkEncoding<EF>>⟧
        ⟦<M as Mmcs<EF>>⟧ EF.ops encoding.now mmcs.now folding_factor (G.stream rng.old)))
        result (C.party challenger.new).history }
{
    let shape = ZkSumcheckShape::new_inherited(folding_factor, encoding.message_len(), pow_bits);
    simulate(alloc, challenger, shape, claimed_sum, encoding, mmcs, rng)
}

/// Simulates masked rounds of recorded claims: as [`simulate_classic_unpacked_claim`], but the
/// challenge that batches claims is drawn in place of a claim that is observed. No claim is read.
///
/// # Conditions
///
/// The same.
///
/// # Errors
///
/// The same, with the batching challenge for the claim.
pub fn simulate_recorded<
    F: Field,
    EF: ExtensionField<F>,
    Enc: ZkEncoding<EF>,
    M: Mmcs<EF>,
    C: Challenger<F>,
    G: Rng,
>(
    alloc: Global,
    challenger: &mut C,
    folding_factor: usize,
    pow_bits: usize,
    encoding: &Enc,
    mmcs: &M,
    rng: &mut G,
) -> Result<(ZkSumcheckData<F, EF>, M::Commitment, Point<EF>), SumcheckError>
    requires difficulty { pow_bits ≤ (C.party challenger.old).rules.max_bits }
    requires fit { IsFit F.ops (recorded_shape folding_factor
        (Enc.message_length encoding.now) pow_bits) }
    ensures rules { (C.party challenger.new).rules ≡ (C.party challenger.old).rules }
    ensures drawn { IfOk result (λ r. IsDrawn (draft_from ⟦<Enc as ZkEncoding<EF>>⟧
        ⟦<M as Mmcs<EF>>⟧ EF.ops encoding.now mmcs.now folding_factor (G.stream rng.old)) r.1
        (sent_in F.number EF.number r.0) (G.stream rng.new)) }
    ensures refused { OnErr result (SomeOfDraft ⟦<Enc as ZkEncoding<EF>>⟧ EF.ops.size encoding.now
        folding_factor (G.stream rng.old) (G.stream rng.new)) }
    ensures leaves { (claim : ℕ) → LeavesSimulated (answer_in F.number EF.number)
        (simulation_by (C.party challenger.old) EF.extension F.ops.size
        (recorded_shape folding_factor (Enc.message_length encoding.now)
        pow_bits) claim (draft_from ⟦<Enc as ZkEncoding<EF>>⟧ ⟦<M as Mmcs<EF>>⟧ EF.ops encoding.now
        mmcs.now folding_factor (G.stream rng.old))) result (C.party challenger.new).history }
{
    let shape = ZkSumcheckShape::new_batching(folding_factor, encoding.message_len(), pow_bits);
    simulate(alloc, challenger, shape, EF::ZERO, encoding, mmcs, rng)
}

// Simulates masked rounds of a batch of either kind. The claim is read only where it is handed on.
fn simulate<
    F: Field,
    EF: ExtensionField<F>,
    Enc: ZkEncoding<EF>,
    M: Mmcs<EF>,
    C: Challenger<F>,
    G: Rng,
>(
    alloc: Global,
    challenger: &mut C,
    shape: ZkSumcheckShape,
    claim: EF,
    encoding: &Enc,
    mmcs: &M,
    rng: &mut G,
) -> Result<(ZkSumcheckData<F, EF>, M::Commitment, Point<EF>), SumcheckError>
    requires difficulty { shape.pow_bits ≤ (C.party challenger.old).rules.max_bits }
    requires fit { IsFit F.ops shape }
    requires lengths { shape.ell_zk ≡ Enc.message_length encoding.now }
    ensures rules { (C.party challenger.new).rules ≡ (C.party challenger.old).rules }
    ensures drawn { IfOk result (λ r. IsDrawn (draft_from ⟦<Enc as ZkEncoding<EF>>⟧
        ⟦<M as Mmcs<EF>>⟧ EF.ops encoding.now mmcs.now shape.num_rounds (G.stream rng.old)) r.1
        (sent_in F.number EF.number r.0) (G.stream rng.new)) }
    ensures refused { OnErr result (SomeOfDraft ⟦<Enc as ZkEncoding<EF>>⟧ EF.ops.size encoding.now
        shape.num_rounds (G.stream rng.old) (G.stream rng.new)) }
    ensures leaves { LeavesSimulated (answer_in F.number EF.number)
        (simulation_by (C.party challenger.old) EF.extension F.ops.size shape (EF.number claim)
        (draft_from ⟦<Enc as ZkEncoding<EF>>⟧ ⟦<M as Mmcs<EF>>⟧ EF.ops encoding.now mmcs.now
        shape.num_rounds (G.stream rng.old))) result (C.party challenger.new).history }
{
    let (masks, randomness) = sample_masks(alloc, encoding, shape.num_rounds, rng)?;
    let committed = commit_masks(alloc, encoding, mmcs, &masks, &randomness)?;
    let (commitment, _kept) = committed.oracle;
    let mu_tilde = masks_total::<F, EF>(&masks);
    let mut zk_data = ZkSumcheckData::new(alloc);
    zk_data.mu_tilde = mu_tilde;
    let mut challenges = with_room(alloc, shape.num_rounds)?;
    observe_head::<F, EF, C>(alloc, challenger, shape, claim, &committed.words, mu_tilde)?;
    let rounds = shape.batch();
    send_all(
        alloc,
        &mut zk_data,
        challenger,
        rounds,
        &mut challenges,
        rng,
    )?;
    Ok((zk_data, commitment, Point::new(challenges)))
}
