//! A prover of a layout under masks.
ghost use Rattle.std.specs.Prelude.{◌≡◌, ◌≤◌, IfOk, OnErr, length};
ghost use Rattle.sc_commitments.specs.Draws.{drawn, masks_from, SomeMasksDrawn};
ghost use Rattle.sc_commitments.specs.Matrices.{lists_in};
ghost use Rattle.sc_layout.specs.Openings.{KeepsTable, laid_at};
ghost use Rattle.sc_layout.specs.Openings.{Opens, OpensVirtual, OpensNothing};
ghost use Rattle.sc_layout.specs.Requests.{asked_in, values_in};
ghost use Rattle.sc_zk_transcript.specs.Shapes.{IsFit};
ghost use Rattle.sc_zk_rounds.specs.Data.{IsNewData};
ghost use Rattle.sc_zk_rounds.specs.Views.{AreCoded, coded_in, masks_under, HasOracle};
ghost use Rattle.sc_zk_rounds.specs.Heads.{recorded_shape};
ghost use Rattle.sc_zk_layout.specs.Recorded.{recorded_batch, EndsRecorded};
ghost use Rattle.sc_zk_layout.specs.Provers.{layout_in, encoding_in, scheme_in, KeepsMasks};
ghost use Rattle.sc_zk_layout.specs.Provers.{masks_by};

use crate::played::play_recorded;
use rand_core::Rng;
use sc_challenger::Challenger;
use sc_commitments::{Mmcs, ZkEncoding, sample_masks};
use sc_field::{ExtensionField, Field, NoMemory, with_room};
use sc_layout::{Layout, OpeningEvals, OpeningRequest, PrefixProver, SuffixProver};
use sc_table::Point;
use sc_transcript::SumcheckError;
use sc_zk_rounds::oracle::commit_masks;
use sc_zk_rounds::{Handoff, ZkSumcheckData, ZkSumcheckHandoff};
use sc_zk_transcript::ZkSumcheckShape;
use std::alloc::Global;
use std::marker::PhantomData;

/// A layout whose rounds go under masks, with the code and the scheme of commitments for these.
#[derive(Drop)]
pub struct ZkProver<F, EF, Enc, M, L> {
    inner: L,
    encoding: Enc,
    mmcs: M,
    of: PhantomData<(F, EF)>,
}

/// One whose rounds bind the first variable first.
pub type ZkPrefixProver<F, EF, Enc, M> = ZkProver<F, EF, Enc, M, PrefixProver<F, EF>>;

/// One whose rounds bind the last variable first.
pub type ZkSuffixProver<F, EF, Enc, M> = ZkProver<F, EF, Enc, M, SuffixProver<F, EF>>;

impl<F: Field, EF: ExtensionField<F>, Enc: ZkEncoding<EF>, M: Mmcs<EF>, L: Layout<F, EF>> ZkProver<
    F,
    EF,
    Enc,
    M,
    L,
> {
    /// The prover of a layout, with what has been recorded of it.
    pub fn new(inner: L, encoding: Enc, mmcs: M) -> Self
        ensures layout { layout_in result ≡ inner }
        ensures encoding { encoding_in result ≡ encoding }
        ensures scheme { scheme_in result ≡ mmcs }
    {
        ZkProver {
            inner,
            encoding,
            mmcs,
            of: PhantomData,
        }
    }

    /// How many rounds go under masks.
    pub fn folding(&self) -> usize
        ensures { result ≡ (L.laid (layout_in self.now)).folding }
    {
        self.inner.folding()
    }

    /// How many coefficients each mask has: as many as the encoding's messages have elements.
    pub fn mask_length(&self) -> usize
        ensures { result ≡ Enc.message_length (encoding_in self.now) }
    {
        self.encoding.message_len()
    }

    /// How many variables the table has.
    pub fn num_variables(&self) -> usize
        ensures { result ≡ (L.laid (layout_in self.now)).variables }
    {
        self.inner.num_variables()
    }

    /// Opens the columns of a request at a point that is drawn, in the layout: answers and observes
    /// the values there and those through the successor map, and records them as one concrete
    /// claim, after the others. The table's index is 0.
    ///
    /// # Errors
    ///
    /// [`NoMemory`] alone: nothing is recorded, and the history is as it was, or ends after the
    /// point.
    pub fn eval<C: Challenger<F>>(
        &mut self,
        table_idx: usize,
        batch: &OpeningRequest,
        challenger: &mut C,
    ) -> Result<OpeningEvals<EF>, NoMemory>
        requires table { table_idx ≡ 0 }
        ensures rules { (C.party challenger.new).rules ≡ (C.party challenger.old).rules }
        ensures kept { KeepsTable (L.laid (layout_in self.old)) (L.laid (layout_in self.new)) }
        ensures under { KeepsMasks self.old self.new }
        ensures opens { IfOk result (λ v. Opens EF.ops EF.extension (asked_in batch.now)
            (values_in EF.number v) (laid_at (C.party challenger.old) (L.laid (layout_in self.old)))
            (laid_at (C.party challenger.new) (L.laid (layout_in self.new)))) }
        ensures refused { OnErr result (OpensNothing EF.extension
            (laid_at (C.party challenger.old) (L.laid (layout_in self.old)))
            (laid_at (C.party challenger.new) (L.laid (layout_in self.new)))) }
    {
        self.inner.eval(table_idx, batch, challenger)
    }

    /// Draws a point, answers and observes the table's value there, and records it in the layout as
    /// a virtual claim, after the others.
    ///
    /// # Errors
    ///
    /// [`NoMemory`] alone: nothing is recorded, and the history is as it was, or ends after the
    /// point.
    pub fn add_virtual_eval<C: Challenger<F>>(&mut self, challenger: &mut C) -> Result<EF, NoMemory>
        ensures rules { (C.party challenger.new).rules ≡ (C.party challenger.old).rules }
        ensures kept { KeepsTable (L.laid (layout_in self.old)) (L.laid (layout_in self.new)) }
        ensures under { KeepsMasks self.old self.new }
        ensures opens { IfOk result (λ v. OpensVirtual EF.ops EF.extension (EF.number v)
            (laid_at (C.party challenger.old) (L.laid (layout_in self.old)))
            (laid_at (C.party challenger.new) (L.laid (layout_in self.new)))) }
        ensures refused { OnErr result (OpensNothing EF.extension
            (laid_at (C.party challenger.old) (L.laid (layout_in self.old)))
            (laid_at (C.party challenger.new) (L.laid (layout_in self.new)))) }
    {
        self.inner.add_virtual_eval(challenger)
    }

    /// Plays the rounds of all that is recorded under masks, as many as the folding, from the seed
    /// on, and hands on what is left: one side and the claim are times the combination, the weights
    /// in prefix order and the evaluations in suffix order. All masks are drawn first, and then the
    /// randomness of each. The messages are read off grids, and no table is bound before all rounds
    /// are played. The prover is given up in any case.
    ///
    /// # Conditions
    ///
    /// The encoding's messages have three elements at least, and two is not zero in the base field.
    /// The difficulty is at most the challenger's [`Challenger::max_bits`], and the data is new.
    ///
    /// # Errors
    ///
    /// `NoWitness` names the first round for whose wire no element of the base field passes the
    /// test: the data has the rounds before it, and the history ends with that wire. After
    /// `NoMemory` the history is as it was, or ends after the seed, the batching challenge, or the
    /// masks and some of the rounds, which the data has. After either the generator has drawn some
    /// of the masks, or all of them and some or all of the randomness.
    pub fn into_sumcheck<G: Rng, C: Challenger<F>>(
        self,
        alloc: Global,
        zk_data: &mut ZkSumcheckData<F, EF>,
        pow_bits: usize,
        challenger: &mut C,
        rng: &mut G,
    ) -> Result<ZkSumcheckHandoff<F, EF, M>, SumcheckError>
        requires difficulty { pow_bits ≤ (C.party challenger.old).rules.max_bits }
        requires fit { IsFit F.ops (recorded_shape (L.laid (layout_in self)).folding
            (Enc.message_length (encoding_in self)) pow_bits) }
        requires fresh { IsNewData F.number EF.number zk_data.old }
        ensures rules { (C.party challenger.new).rules ≡ (C.party challenger.old).rules }
        ensures batch { let l = L.laid (layout_in self) in
            EndsRecorded (recorded_batch F.ops EF.ops EF.extension
            (recorded_shape l.folding (Enc.message_length (encoding_in self)) pow_bits)
            (C.party challenger.old) l (masks_by ⟦<Enc as ZkEncoding<EF>>⟧ ⟦<M as Mmcs<EF>>⟧ self
            l.folding (G.stream rng.old)))
            (C.party challenger.new).history zk_data.new result }
        ensures masks { IfOk result (λ h. length h.mask_messages.items
            ≡ (L.laid (layout_in self)).folding) }
        ensures challenges { IfOk result (λ h. length h.randomness
            ≡ (L.laid (layout_in self)).folding) }
        ensures coded { IfOk result (λ h. AreCoded (Enc.message_length (encoding_in self))
            (Enc.randomness_length (encoding_in self)) h.mask_messages.items
            h.mask_randomness.items) }
        ensures drawn { IfOk result (λ h. drawn (lists_in EF.number h.mask_messages.items)
            (lists_in EF.number h.mask_randomness.items) (G.stream rng.new)
            ≡ masks_from (Enc.message_from (encoding_in self))
            (Enc.randomness_from (encoding_in self)) (L.laid (layout_in self)).folding
            (G.stream rng.old)) }
        ensures refused { OnErr result (SomeMasksDrawn (Enc.message_from (encoding_in self))
            (Enc.randomness_from (encoding_in self)) (L.laid (layout_in self)).folding
            (G.stream rng.old) (G.stream rng.new)) }
        ensures oracle { IfOk result (HasOracle ⟦<Enc as ZkEncoding<EF>>⟧ ⟦<M as Mmcs<EF>>⟧
            (encoding_in self) (scheme_in self) EF.number) }
    {
        let folding = self.inner.folding();
        let (masks, randomness) = sample_masks(alloc, &self.encoding, folding, rng)?;
        play_under(
            alloc,
            &self.inner,
            zk_data,
            &self.encoding,
            &self.mmcs,
            masks,
            randomness,
            pow_bits,
            challenger,
        )
    }
}

// Plays the rounds of all that is recorded under these masks, which are encoded with this
// randomness and committed to, and hands on what is left.
fn play_under<
    F: Field,
    EF: ExtensionField<F>,
    Enc: ZkEncoding<EF>,
    M: Mmcs<EF>,
    L: Layout<F, EF>,
    C: Challenger<F>,
>(
    alloc: Global,
    layout: &L,
    zk_data: &mut ZkSumcheckData<F, EF>,
    encoding: &Enc,
    mmcs: &M,
    masks: Vec<Vec<EF>>,
    randomness: Vec<Vec<EF>>,
    pow_bits: usize,
    challenger: &mut C,
) -> Result<ZkSumcheckHandoff<F, EF, M>, SumcheckError>
    requires count { length masks.items ≡ (L.laid layout.now).folding }
    requires difficulty { pow_bits ≤ (C.party challenger.old).rules.max_bits }
    requires fit { IsFit F.ops (recorded_shape (length masks.items)
        (Enc.message_length encoding.now) pow_bits) }
    requires fresh { IsNewData F.number EF.number zk_data.old }
    requires coded { AreCoded (Enc.message_length encoding.now)
        (Enc.randomness_length encoding.now) masks.items randomness.items }
    ensures rules { (C.party challenger.new).rules ≡ (C.party challenger.old).rules }
    ensures batch { EndsRecorded (recorded_batch F.ops EF.ops EF.extension
        (recorded_shape (length masks.items) (Enc.message_length encoding.now) pow_bits)
        (C.party challenger.old) (L.laid layout.now) (masks_under ⟦<Enc as ZkEncoding<EF>>⟧
        ⟦<M as Mmcs<EF>>⟧ encoding.now mmcs.now
        (coded_in EF.number masks.items randomness.items) 0))
        (C.party challenger.new).history zk_data.new result }
    ensures challenges { IfOk result (λ h. length h.randomness ≡ length masks.items) }
    ensures masks { IfOk result (λ h. h.mask_messages ≡ masks) }
    ensures randomness { IfOk result (λ h. h.mask_randomness ≡ randomness) }
    ensures oracle { IfOk result (HasOracle ⟦<Enc as ZkEncoding<EF>>⟧ ⟦<M as Mmcs<EF>>⟧
        encoding.now mmcs.now EF.number) }
{
    let committed = commit_masks(alloc, encoding, mmcs, &masks, &randomness)?;
    let mut challenges = with_room(alloc, masks.len())?;
    let shape = ZkSumcheckShape::new_batching(masks.len(), encoding.message_len(), pow_bits);
    let words = &committed.words;
    let (prover, eps) = play_recorded(
        alloc,
        layout,
        zk_data,
        challenger,
        shape,
        &masks,
        words,
        &mut challenges,
    )?;
    Ok(Handoff {
        residual_prover: prover,
        randomness: Point::new(challenges),
        eps,
        mask_messages: masks,
        mask_randomness: randomness,
        mask_oracle: committed.oracle,
    })
}
