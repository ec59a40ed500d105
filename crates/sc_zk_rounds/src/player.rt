//! Masked rounds, played on what plays plain ones.
ghost use Rattle.std.specs.Prelude.{◌≡◌, ◌+◌, ◌-◌, ◌<◌, ◌≤◌, ℕ, List, [], IfOk, OnOk, length, map};
ghost use Rattle.sc_definitions.specs.Tables.{evaluation};
ghost use Rattle.sc_definitions.specs.ProverViews.{KeepsForm};
ghost use Rattle.sc_zk_definitions.specs.Masks.{masks_total};
ghost use Rattle.sc_zk_definitions.specs.MaskedRuns.{Masking};
ghost use Rattle.sc_commitments.specs.Matrices.{lists_in};
ghost use Rattle.sc_transcript.specs.Drivers.{driver_at, Continues};
ghost use Rattle.sc_zk_rounds.specs.Data.{AreWords, HasRoomFor};
ghost use Rattle.sc_zk_rounds.specs.Handoffs.{PlaysBatch, PlaysBegun};
ghost use Rattle.sc_zk_rounds.specs.Rounds.{IsForMasks, IsOfMask, IsShapeOf, AreMasks};
ghost use Rattle.sc_zk_rounds.specs.Views.{terms, player, stands_at, MovesPlayer, PlaysRounds};
ghost use Rattle.sc_zk_rounds.specs.Views.{masks_for, batch_of};
ghost use Rattle.sc_zk_transcript.specs.Shapes.{fixed_by};

use crate::data::ZkSumcheckData;
use crate::head::{begin_inherited, combine_begun};
use crate::mixing::{Mixing, one_half};
use crate::plain::PlainRounds;
use sc_challenger::Challenger;
use sc_field::{ExtensionField, Field};
use sc_transcript::SumcheckError;
use sc_transcript::driver::RoundShape;
use sc_transcript::rounds::{BatchShape, Rounds};
use sc_zk_definitions::ZkPrelude;
use sc_zk_transcript::ZkSumcheckShape;
use std::alloc::Global;

// Plays a round under its mask: what the tables' message makes of it is put on the wire, and the
// tables are bound at its challenge, which is held.
fn play_masked<F: Field, EF: ExtensionField<F>, C: Challenger<F>, P: PlainRounds<F, EF>, K: Copy>(
    alloc: Global,
    prover: &mut P,
    sent: &mut ZkSumcheckData<F, EF>,
    rounds: &mut Rounds<K>,
    challenger: &mut C,
    mixing: &Mixing<EF>,
    mask: &[EF],
    eps: EF,
) -> Result<EF, SumcheckError>
    requires plays { 0 < P.left prover.old }
    requires basis { (P.shown prover.old).basis ≡ evaluation }
    requires difficulty { rounds.old.shape.pow_bits ≤ (C.party challenger.old).rules.max_bits }
    requires left { rounds.old.played < rounds.old.shape.num_rounds }
    requires long { 3 ≤ length mask.now }
    requires width { length mask.now - 1 ≡ rounds.old.shape.width }
    ensures continues { Continues (driver_at C.party F.ops.size challenger.entry rounds.old)
        (driver_at C.party F.ops.size challenger.exit rounds.new) }
    ensures form { KeepsForm (P.shown prover.old) (P.shown prover.new) }
    ensures counts { OnOk result (rounds.new.played ≡ rounds.old.played + 1) }
    ensures fewer { OnOk result (P.left prover.old ≡ P.left prover.new + 1) }
    ensures total { sent.new.mu_tilde ≡ sent.old.mu_tilde }
    ensures round { (k : Masking) (rs : List ℕ) → length rs ≡ rounds.old.played
        → IsOfMask EF.ops EF.number k rs mask.now eps mixing.now
        → MovesPlayer EF.number (terms F.ops EF.ops EF.extension rounds.old.shape.pow_bits) k rs
        (player F.number EF.number (C.party challenger.old) (P.shown prover.old) sent.old)
        (player F.number EF.number (C.party challenger.new) (P.shown prover.new) sent.new)
        result }
{
    let message = prover.measure(alloc)?;
    let wire = mixing.wire(alloc, mask, eps, message)?;
    let r = sent.put_round(rounds, challenger, wire)?;
    prover.bind(message, r);
    Ok(r)
}

// Plays a round under each of the masks, which have one length, and appends the challenges to a
// list that is empty and has room for them.
fn play_masks<F: Field, EF: ExtensionField<F>, C: Challenger<F>, P: PlainRounds<F, EF>>(
    alloc: Global,
    prover: &mut P,
    zk_data: &mut ZkSumcheckData<F, EF>,
    challenger: &mut C,
    shape: BatchShape,
    masks: &[Vec<EF>],
    mixing: Mixing<EF>,
    eps: EF,
    challenges: &mut Vec<EF>,
) -> Result<(), SumcheckError>
    requires plays { length masks.now ≤ P.left prover.old }
    requires basis { (P.shown prover.old).basis ≡ evaluation }
    requires difficulty { shape.pow_bits ≤ (C.party challenger.old).rules.max_bits }
    requires masks { IsForMasks shape masks.now }
    requires challenges { HasRoomFor shape.num_rounds challenges.old }
    ensures rules { (C.party challenger.new).rules ≡ (C.party challenger.old).rules }
    ensures form { KeepsForm (P.shown prover.old) (P.shown prover.new) }
    ensures total { zk_data.new.mu_tilde ≡ zk_data.old.mu_tilde }
    ensures fewer { OnOk result (P.left prover.old ≡ P.left prover.new + length masks.now) }
    ensures rounds { (k : Masking) → AreMasks EF.ops EF.number k masks.now eps mixing
        → PlaysRounds (terms F.ops EF.ops EF.extension shape.pow_bits) k (length masks.now)
        (player F.number EF.number (C.party challenger.old) (P.shown prover.old) zk_data.old)
        (player F.number EF.number (C.party challenger.new) (P.shown prover.new) zk_data.new)
        (map EF.number challenges.new.items) result }
{
    let mut rounds = Rounds::new(shape, ());
    let mut mixing = mixing;
    for i in 0..masks.len() {
        let mask = masks[i].as_slice();
        match play_masked(
            alloc,
            prover,
            zk_data,
            &mut rounds,
            challenger,
            &mixing,
            mask,
            eps,
        ) {
            Ok(r) => {
                mixing = mixing.pass(mask, r);
                challenges.push_reserved(r);
            }
            Err(error) => return Err(error),
        }
    }
    Ok(())
}

/// Plays a batch under these masks, where it has begun: after its seed and its first step. Observes
/// the words of the commitment to the masks and their total, draws the combination, which is
/// answered, and plays a round under each mask. What is left is not scaled yet.
///
/// # Conditions
///
/// The shape is fit, and of as many rounds as masks; each mask has the shape's length. A variable
/// is left for each round, and there is room for their challenges. The tables' entries are values,
/// and the difficulty is at most the challenger's [`Challenger::max_bits`].
///
/// # Errors
///
/// `NoWitness` names the first round for whose wire no element of the base field passes the test:
/// the data has the rounds before it, and the history ends with that wire. After `NoMemory` the
/// history is as it was, or ends after the masks and some of the rounds, which the data has.
pub fn play_begun<F: Field, EF: ExtensionField<F>, C: Challenger<F>, P: PlainRounds<F, EF>>(
    alloc: Global,
    prover: &mut P,
    zk_data: &mut ZkSumcheckData<F, EF>,
    challenger: &mut C,
    shape: ZkSumcheckShape,
    masks: &[Vec<EF>],
    words: &[u8],
    aux: EF,
    challenges: &mut Vec<EF>,
) -> Result<EF, SumcheckError>
    requires shape { IsShapeOf F.ops masks.now shape }
    requires words { AreWords words.now }
    requires plays { length masks.now ≤ P.left prover.old }
    requires basis { (P.shown prover.old).basis ≡ evaluation }
    requires difficulty { shape.pow_bits ≤ (C.party challenger.old).rules.max_bits }
    requires challenges { HasRoomFor (length masks.now) challenges.old }
    ensures rules { (C.party challenger.new).rules ≡ (C.party challenger.old).rules }
    ensures form { KeepsForm (P.shown prover.old) (P.shown prover.new) }
    ensures fewer { OnOk result (P.left prover.old ≡ P.left prover.new + length masks.now) }
    ensures total { IfOk result (λ _. EF.number zk_data.new.mu_tilde
        ≡ masks_total EF.ops (lists_in EF.number masks.now)) }
    ensures plays { PlaysBegun EF.number (fixed_by shape) (batch_of F.ops EF.ops EF.extension shape
        (player F.number EF.number (C.party challenger.old) (P.shown prover.old) zk_data.old)
        (masks_for EF.number shape masks.now words.now aux))
        (stands_at (player F.number EF.number (C.party challenger.new) (P.shown prover.new)
        zk_data.new)) (map EF.number challenges.new.items) result }
{
    let mixing = Mixing::new(masks, one_half::<F, EF>(), aux);
    zk_data.mu_tilde = mixing.total();
    let eps = combine_begun::<F, EF, C>(challenger, shape, words, zk_data.mu_tilde)?;
    play_masks(
        alloc,
        prover,
        zk_data,
        challenger,
        shape.batch(),
        masks,
        mixing,
        eps,
        challenges,
    )?;
    Ok(eps)
}

// Plays a batch under these masks and a claim that is handed on, from its seed on, and answers the
// combination; the words are those of the commitment to the masks. What is left is not scaled yet.
pub(crate) fn play_batch<F: Field, EF: ExtensionField<F>, C: Challenger<F>, P: PlainRounds<F, EF>>(
    alloc: Global,
    prover: &mut P,
    zk_data: &mut ZkSumcheckData<F, EF>,
    challenger: &mut C,
    shape: ZkSumcheckShape,
    masks: &[Vec<EF>],
    words: &[u8],
    aux: EF,
    challenges: &mut Vec<EF>,
) -> Result<EF, SumcheckError>
    requires shape { IsShapeOf F.ops masks.now shape }
    requires inherited { shape.prelude ≡ ZkPrelude.InheritedClaim }
    requires words { AreWords words.now }
    requires plays { length masks.now ≤ P.left prover.old }
    requires basis { (P.shown prover.old).basis ≡ evaluation }
    requires difficulty { shape.pow_bits ≤ (C.party challenger.old).rules.max_bits }
    requires challenges { HasRoomFor (length masks.now) challenges.old }
    ensures rules { (C.party challenger.new).rules ≡ (C.party challenger.old).rules }
    ensures form { KeepsForm (P.shown prover.old) (P.shown prover.new) }
    ensures total { IfOk result (λ _. EF.number zk_data.new.mu_tilde
        ≡ masks_total EF.ops (lists_in EF.number masks.now)) }
    ensures plays { PlaysBatch EF.number (batch_of F.ops EF.ops EF.extension shape
        (player F.number EF.number (C.party challenger.old) (P.shown prover.old) zk_data.old)
        (masks_for EF.number shape masks.now words.now aux))
        (stands_at (player F.number EF.number (C.party challenger.new) (P.shown prover.new)
        zk_data.new)) (map EF.number challenges.new.items) result }
{
    let claim = prover.claim().add(aux);
    begin_inherited::<F, EF, C>(alloc, challenger, shape, claim)?;
    play_begun(
        alloc, prover, zk_data, challenger, shape, masks, words, aux, challenges,
    )
}
