//! A prover that goes on under masks.
ghost use Rattle.std.specs.Prelude.{◌≡◌, ◌≤◌, IfOk, OnErr, length};
ghost use Rattle.sc_definitions.specs.Tables.{evaluation};
ghost use Rattle.sc_definitions.specs.ProverViews.{ProverView};
ghost use Rattle.sc_commitments.specs.Draws.{drawn, masks_from, SomeMasksDrawn};
ghost use Rattle.sc_commitments.specs.Matrices.{lists_in};
ghost use Rattle.sc_zk_transcript.specs.Shapes.{IsFit};
ghost use Rattle.sc_rounds.specs.ProverViews.{shown_by};
ghost use Rattle.sc_zk_rounds.specs.Heads.{inherited_shape};
ghost use Rattle.sc_zk_rounds.specs.Data.{IsNewData, sent_in};
ghost use Rattle.sc_zk_rounds.specs.Handoffs.{batch_by, EndsMasked};
ghost use Rattle.sc_zk_rounds.specs.Views.{Residual, residual_in, AreCoded, coded_in};
ghost use Rattle.sc_zk_rounds.specs.Views.{handed_in, masks_under, masks_drawn, HasOracle};

use crate::data::{Handoff, ZkSumcheckData, ZkSumcheckHandoff};
use crate::oracle::commit_masks;
use crate::player::play_batch;
use rand_core::Rng;
use sc_challenger::Challenger;
use sc_commitments::{Mmcs, ZkEncoding, sample_masks};
use sc_field::{ExtensionField, Field, with_room};
use sc_rounds::SumcheckProver;
use sc_table::Point;
use sc_transcript::SumcheckError;
use sc_zk_transcript::ZkSumcheckShape;
use std::alloc::Global;

/// A prover of a claim that can go on under masks.
pub trait IntoZk<F: Field, EF: ExtensionField<F>>: Sized + Drop {
    /// The prover of what is left.
    type Residual: Drop;

    // What it shows.
    ghost shown: { Self → ProverView };

    // What the prover of what is left tells.
    ghost told: { Self.Residual → Residual };

    /// Plays a round under each of these masks, which are encoded with this randomness and
    /// committed to, and hands on what is left. `aux_claim` is added to the claim, and is halved
    /// before each round. The prover is given up in any case.
    ///
    /// # Conditions
    ///
    /// There are as many masks as rounds to play, at most as many as variables are left, and one at
    /// least; each has the encoding's message length, three at least, and its randomness has the
    /// encoding's randomness length. Two is not zero in the base field. The difficulty is at most
    /// the challenger's [`Challenger::max_bits`], the tables' entries are values, and the data is
    /// new.
    ///
    /// # Errors
    ///
    /// `NoWitness` names the first round for whose wire no element of the base field passes the
    /// test: the data has the rounds before it, and the history ends with that wire. After
    /// `NoMemory` the history is as it was, or ends after the seed, the claim, or the masks and
    /// some of the rounds, which the data has.
    fn into_zk_sumcheck_with<Enc: ZkEncoding<EF>, M: Mmcs<EF>, C: Challenger<F>>(
        self,
        alloc: Global,
        zk_data: &mut ZkSumcheckData<F, EF>,
        encoding: &Enc,
        mmcs: &M,
        masks: Vec<Vec<EF>>,
        randomness: Vec<Vec<EF>>,
        pow_bits: usize,
        aux_claim: EF,
        challenger: &mut C,
    ) -> Result<Handoff<Self::Residual, EF, M::Commitment, M::ProverData>, SumcheckError>
        requires variables { length masks.items ≤ (shown self).variables }
        requires basis { (shown self).basis ≡ evaluation }
        requires difficulty { pow_bits ≤ (C.party challenger.old).rules.max_bits }
        requires fit { IsFit F.ops (inherited_shape (length masks.items)
            (Enc.message_length encoding.now) pow_bits) }
        requires fresh { IsNewData F.number EF.number zk_data.old }
        requires coded { AreCoded (Enc.message_length encoding.now)
            (Enc.randomness_length encoding.now) masks.items randomness.items }
        ensures rules { (C.party challenger.new).rules ≡ (C.party challenger.old).rules }
        ensures batch { EndsMasked (handed_in told EF.number)
            (batch_by (C.party challenger.old) EF.extension F.ops.size pow_bits EF.ops (shown self)
            (masks_under ⟦<Enc as ZkEncoding<EF>>⟧ ⟦<M as Mmcs<EF>>⟧ encoding.now mmcs.now
            (coded_in EF.number masks.items randomness.items) (EF.number aux_claim)))
            (C.party challenger.new).history (sent_in F.number EF.number zk_data.new) result }
        ensures lists { IfOk result (λ h. (h.mask_messages ≡ masks)
            × (h.mask_randomness ≡ randomness)) }
        ensures oracle { IfOk result (HasOracle ⟦<Enc as ZkEncoding<EF>>⟧ ⟦<M as Mmcs<EF>>⟧
            encoding.now mmcs.now EF.number) };

    /// As [`into_zk_sumcheck_with`](IntoZk::into_zk_sumcheck_with), under as many masks as
    /// `folding_factor`, which are drawn first, and then the randomness of each.
    ///
    /// # Errors
    ///
    /// The same. The generator has then drawn some of the masks, or all of them and some or all of
    /// the randomness.
    fn into_zk_sumcheck<Enc: ZkEncoding<EF>, M: Mmcs<EF>, G: Rng, C: Challenger<F>>(
        self,
        alloc: Global,
        zk_data: &mut ZkSumcheckData<F, EF>,
        encoding: &Enc,
        mmcs: &M,
        folding_factor: usize,
        pow_bits: usize,
        aux_claim: EF,
        challenger: &mut C,
        rng: &mut G,
    ) -> Result<Handoff<Self::Residual, EF, M::Commitment, M::ProverData>, SumcheckError>
        requires variables { folding_factor ≤ (shown self).variables }
        requires basis { (shown self).basis ≡ evaluation }
        requires difficulty { pow_bits ≤ (C.party challenger.old).rules.max_bits }
        requires fit { IsFit F.ops (inherited_shape folding_factor
            (Enc.message_length encoding.now) pow_bits) }
        requires fresh { IsNewData F.number EF.number zk_data.old }
        ensures rules { (C.party challenger.new).rules ≡ (C.party challenger.old).rules }
        ensures batch { EndsMasked (handed_in told EF.number)
            (batch_by (C.party challenger.old) EF.extension F.ops.size pow_bits EF.ops (shown self)
            (masks_drawn ⟦<Enc as ZkEncoding<EF>>⟧ ⟦<M as Mmcs<EF>>⟧ encoding.now mmcs.now
            folding_factor (G.stream rng.old) (EF.number aux_claim)))
            (C.party challenger.new).history (sent_in F.number EF.number zk_data.new) result }
        ensures drawn { IfOk result (λ h. drawn (lists_in EF.number h.mask_messages.items)
            (lists_in EF.number h.mask_randomness.items) (G.stream rng.new)
            ≡ masks_from (Enc.message_from encoding.now) (Enc.randomness_from encoding.now)
            folding_factor (G.stream rng.old)) }
        ensures refused { OnErr result (SomeMasksDrawn (Enc.message_from encoding.now)
            (Enc.randomness_from encoding.now) folding_factor (G.stream rng.old)
            (G.stream rng.new)) }
        ensures oracle { IfOk result (HasOracle ⟦<Enc as ZkEncoding<EF>>⟧ ⟦<M as Mmcs<EF>>⟧
            encoding.now mmcs.now EF.number) }
    {
        let (masks, randomness) = sample_masks(alloc, encoding, folding_factor, rng)?;
        self.into_zk_sumcheck_with(
            alloc, zk_data, encoding, mmcs, masks, randomness, pow_bits, aux_claim, challenger,
        )
    }
}

impl<F: Field, EF: ExtensionField<F>> IntoZk<F, EF> for SumcheckProver<F, EF> {
    type Residual = SumcheckProver<F, EF>;

    ghost shown = { shown_by };

    ghost told = { residual_in };

    fn into_zk_sumcheck_with<Enc: ZkEncoding<EF>, M: Mmcs<EF>, C: Challenger<F>>(
        self,
        alloc: Global,
        zk_data: &mut ZkSumcheckData<F, EF>,
        encoding: &Enc,
        mmcs: &M,
        masks: Vec<Vec<EF>>,
        randomness: Vec<Vec<EF>>,
        pow_bits: usize,
        aux_claim: EF,
        challenger: &mut C,
    ) -> Result<ZkSumcheckHandoff<F, EF, M>, SumcheckError>
        requires variables { length masks.items ≤ (shown_by self).variables }
        requires basis { (shown_by self).basis ≡ evaluation }
        requires difficulty { pow_bits ≤ (C.party challenger.old).rules.max_bits }
        requires fit { IsFit F.ops (inherited_shape (length masks.items)
            (Enc.message_length encoding.now) pow_bits) }
        requires fresh { IsNewData F.number EF.number zk_data.old }
        requires coded { AreCoded (Enc.message_length encoding.now)
            (Enc.randomness_length encoding.now) masks.items randomness.items }
        ensures rules { (C.party challenger.new).rules ≡ (C.party challenger.old).rules }
        ensures batch { EndsMasked (handed_in residual_in EF.number)
            (batch_by (C.party challenger.old) EF.extension F.ops.size pow_bits EF.ops (shown_by self)
            (masks_under ⟦<Enc as ZkEncoding<EF>>⟧ ⟦<M as Mmcs<EF>>⟧ encoding.now mmcs.now
            (coded_in EF.number masks.items randomness.items) (EF.number aux_claim)))
            (C.party challenger.new).history (sent_in F.number EF.number zk_data.new) result }
        ensures lists { IfOk result (λ h. (h.mask_messages ≡ masks)
            × (h.mask_randomness ≡ randomness)) }
        ensures oracle { IfOk result (HasOracle ⟦<Enc as ZkEncoding<EF>>⟧ ⟦<M as Mmcs<EF>>⟧
            encoding.now mmcs.now EF.number) }
    {
        let committed = commit_masks(alloc, encoding, mmcs, &masks, &randomness)?;
        let mut challenges = with_room(alloc, masks.len())?;
        let shape = ZkSumcheckShape::new_inherited(masks.len(), encoding.message_len(), pow_bits);
        let mut prover = self;
        let eps = play_batch(
            alloc,
            &mut prover,
            zk_data,
            challenger,
            shape,
            &masks,
            &committed.words,
            aux_claim,
            &mut challenges,
        )?;
        prover.scale_weights_and_claim(eps);
        Ok(Handoff {
            residual_prover: prover,
            randomness: Point::new(challenges),
            eps,
            mask_messages: masks,
            mask_randomness: randomness,
            mask_oracle: committed.oracle,
        })
    }
}
