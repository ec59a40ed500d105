//! The verifier of masked rounds.
ghost use Rattle.std.specs.Prelude.{◌≡◌, ◌≤◌, All, OnOk, OnErr, length};
ghost use Rattle.sc_definitions.specs.Statements.{batched_claim};
ghost use Rattle.sc_zk_definitions.specs.MaskedTranscripts.{head};
ghost use Rattle.sc_table.specs.declared.strategy.VariableOrder.TheVariants.{Prefix, Suffix};
ghost use Rattle.sc_layout.specs.Shapes.{shape_variables, strategy_order};
ghost use Rattle.sc_layout.specs.Requests.{asked_in, values_in};
ghost use Rattle.sc_layout.specs.Openings.{none_recorded, statements_of, AddsVirtual, AddsNothing};
ghost use Rattle.sc_layout.specs.Verifiers.{LeavesClaim, KeepsShape, taking_by, opening_state_at};
ghost use Rattle.sc_zk_rounds.specs.Heads.{inherited_shape, recorded_shape};
ghost use Rattle.sc_zk_rounds.specs.Data.{masked_wire_in};
ghost use Rattle.sc_zk_rounds.specs.Verified.{claim_by, told_by, LeavesMaskedReplay};

use sc_challenger::Challenger;
use sc_commitments::Mmcs;
use sc_field::{ExtensionField, Field, NoMemory, with_room};
use sc_layout::{LayoutStrategy, OpeningEvals, OpeningRequest, TableShape, Verifier};
use sc_table::VariableOrder;
use sc_transcript::SumcheckError;
use sc_zk_rounds::head::begin_recorded;
use sc_zk_rounds::replayed::{check_came, replay_begun};
use sc_zk_rounds::{ZkSumcheckData, ZkVerifierHandoff, verify_claim};
use sc_zk_transcript::ZkSumcheckShape;
use std::alloc::Global;

/// The verifier of masked rounds over a base field and an extension of it. It has no table: it
/// records what is claimed of one, and replays the rounds of all of it, or of a claim alone.
#[derive(Drop)]
pub struct ZkVerifier<F, EF: Field> {
    claims: Verifier<F, EF>,
}

impl<F: Field, EF: ExtensionField<F>> ZkVerifier<F, EF> {
    ghost use Rattle.sc_zk.specs.Recorded.{recorded_in, recorded_head};

    /// The verifier of one table of this shape, of at most 40 variables, whose rounds bind the
    /// first variable first. It has no claims yet.
    pub fn new_prefix(alloc: Global, table_shapes: &[TableShape]) -> Self
        requires one { length table_shapes.now ≡ 1 }
        requires few { All (λ s. shape_variables s ≤ 40) table_shapes.now }
        ensures order { strategy_order (recorded_in result).strategy ≡ Prefix }
        ensures variables { All (λ s. (recorded_in result).variables ≡ shape_variables s)
            table_shapes.now }
        ensures recorded { (recorded_in result).recorded ≡ none_recorded }
    {
        let strategy = LayoutStrategy::new(VariableOrder::Prefix);
        ZkVerifier {
            claims: Verifier::new(alloc, table_shapes, strategy),
        }
    }

    /// The same, with rounds that bind the last variable first.
    pub fn new_suffix(alloc: Global, table_shapes: &[TableShape]) -> Self
        requires one { length table_shapes.now ≡ 1 }
        requires few { All (λ s. shape_variables s ≤ 40) table_shapes.now }
        ensures order { strategy_order (recorded_in result).strategy ≡ Suffix }
        ensures variables { All (λ s. (recorded_in result).variables ≡ shape_variables s)
            table_shapes.now }
        ensures recorded { (recorded_in result).recorded ≡ none_recorded }
    {
        let strategy = LayoutStrategy::new(VariableOrder::Suffix);
        ZkVerifier {
            claims: Verifier::new(alloc, table_shapes, strategy),
        }
    }

    /// The strategy.
    pub fn strategy(&self) -> LayoutStrategy
        ensures { result ≡ (recorded_in self.now).strategy }
    {
        self.claims.strategy()
    }

    /// Records an opening, as [`Verifier::add_claim`] does, with its conditions and refusals.
    pub fn add_claim<C: Challenger<F>>(
        &mut self,
        table_idx: usize,
        batch: &OpeningRequest,
        evals: &OpeningEvals<EF>,
        challenger: &mut C,
    ) -> Result<(), SumcheckError>
        requires table { table_idx ≡ 0 }
        ensures rules { (C.party challenger.new).rules ≡ (C.party challenger.old).rules }
        ensures kept { KeepsShape (recorded_in self.old) (recorded_in self.new) }
        ensures left { LeavesClaim
            (taking_by (C.party challenger.old) EF.extension (recorded_in self.old))
            (asked_in batch.now) (values_in EF.number evals.now)
            (opening_state_at (C.party challenger.old) (recorded_in self.old))
            (opening_state_at (C.party challenger.new) (recorded_in self.new)) result }
    {
        self.claims.add_claim(table_idx, batch, evals, challenger)
    }

    /// Records a value at a point that is drawn, as [`Verifier::add_virtual_eval`] does.
    pub fn add_virtual_eval<C: Challenger<F>>(
        &mut self,
        eval: EF,
        challenger: &mut C,
    ) -> Result<(), NoMemory>
        ensures rules { (C.party challenger.new).rules ≡ (C.party challenger.old).rules }
        ensures kept { KeepsShape (recorded_in self.old) (recorded_in self.new) }
        ensures adds { OnOk result (AddsVirtual
            (taking_by (C.party challenger.old) EF.extension (recorded_in self.old))
            (EF.number eval) (opening_state_at (C.party challenger.old) (recorded_in self.old))
            (opening_state_at (C.party challenger.new) (recorded_in self.new))) }
        ensures refused { OnErr result (AddsNothing
            (taking_by (C.party challenger.old) EF.extension (recorded_in self.old))
            (opening_state_at (C.party challenger.old) (recorded_in self.old))
            (opening_state_at (C.party challenger.new) (recorded_in self.new))) }
    {
        self.claims.add_virtual_eval(eval, challenger)
    }

    /// The batch of all claimed values: that of statement number i is multiplied by `alpha` to the
    /// power i.
    pub fn sum(&self, alpha: EF) -> EF
        ensures { EF.number result ≡ batched_claim EF.ops (EF.number alpha) 0
            (statements_of (recorded_in self.now).recorded) }
    {
        self.claims.sum(alpha)
    }

    /// Replays masked rounds of all that is recorded, as many as the folding factor: answers their
    /// challenges in drawing order, what they leave of the first target, and the combination. The
    /// difficulty is at most the challenger's [`Challenger::max_bits`].
    ///
    /// The claim is the batch of all that is recorded, under a challenge that is drawn after the
    /// seed. The first target is the combination times the claim, and the masks' total. The answer
    /// does not yet mean that the claims are right: the caller has to test what is left of them.
    ///
    /// # Errors
    ///
    /// Those of [`ZkVerifier::verify_claim`], with the batching challenge for the claim.
    pub fn into_sumcheck<M: Mmcs<EF>, C: Challenger<F>>(
        self,
        alloc: Global,
        mmcs: &M,
        zk_data: &ZkSumcheckData<F, EF>,
        mask_commitment: &M::Commitment,
        ell_zk: usize,
        folding_factor: usize,
        pow_bits: usize,
        challenger: &mut C,
    ) -> Result<ZkVerifierHandoff<EF>, SumcheckError>
        requires difficulty { pow_bits ≤ (C.party challenger.old).rules.max_bits }
        ensures rules { (C.party challenger.new).rules ≡ (C.party challenger.old).rules }
        ensures left { let p = C.party challenger.old in
            let s = recorded_shape folding_factor ell_zk pow_bits in
            LeavesMaskedReplay (told_by EF.number) (claim_by p F.ops EF.ops EF.extension s
            (recorded_head EF.extension p s self (M.words_of mmcs.now mask_commitment.now)
            zk_data.now.mu_tilde) (masked_wire_in F.number EF.number zk_data.now))
            result (C.party challenger.new).history }
    {
        let shape = ZkSumcheckShape::new_batching(folding_factor, ell_zk, pow_bits);
        check_came(shape, zk_data)?;
        // What takes memory of its own comes first, so that its refusal leaves all as it was.
        let words = mmcs.words(alloc, *mask_commitment)?;
        let challenges = with_room(alloc, folding_factor)?;
        let alpha = begin_recorded::<F, EF, C>(alloc, challenger, shape)?;
        let claim = self.claims.sum(alpha);
        replay_begun(challenger, zk_data, shape, claim, &words, challenges)
    }

    /// Replays masked rounds, as many as the folding factor, under a claim that was handed on:
    /// answers their challenges in drawing order, what they leave of the first target, and the
    /// combination. The difficulty is at most the challenger's [`Challenger::max_bits`].
    ///
    /// The first target is the combination times the claim, and the masks' total. The answer does
    /// not yet mean that the claim is right: the caller has to test what is left of it, which for
    /// an honest prover is the combination times the plain residual, and the masks at their
    /// challenges.
    ///
    /// # Errors
    ///
    /// In this order: `EvenCharacteristic`, `MaskTooShort` and `NoRounds` where the shape is unfit;
    /// `RoundCountMismatch` and `PowWitnessCountMismatch` where another number of rounds or
    /// witnesses came. These come before any event, and leave the history as it was.
    /// `WireSizeMismatch` names the first round whose wire has more or fewer values than the shape
    /// says, unless the witness of a round before it fails: the history ends after the rounds
    /// before it. `InvalidPowWitness` names the first round whose witness fails: the history ends
    /// with its test. After `NoMemory` the history is as it was, or ends after the seed, the claim,
    /// or the masks and some of the rounds.
    pub fn verify_claim<M: Mmcs<EF>, C: Challenger<F>>(
        alloc: Global,
        mmcs: &M,
        zk_data: &ZkSumcheckData<F, EF>,
        mask_commitment: &M::Commitment,
        ell_zk: usize,
        folding_factor: usize,
        pow_bits: usize,
        claimed_sum: EF,
        challenger: &mut C,
    ) -> Result<ZkVerifierHandoff<EF>, SumcheckError>
        requires difficulty { pow_bits ≤ (C.party challenger.old).rules.max_bits }
        ensures rules { (C.party challenger.new).rules ≡ (C.party challenger.old).rules }
        ensures left { LeavesMaskedReplay (told_by EF.number)
            (claim_by (C.party challenger.old) F.ops EF.ops EF.extension
            (inherited_shape folding_factor ell_zk pow_bits)
            (head (EF.number claimed_sum) (M.words_of mmcs.now mask_commitment.now)
            (EF.number zk_data.now.mu_tilde)) (masked_wire_in F.number EF.number zk_data.now))
            result (C.party challenger.new).history }
    {
        verify_claim(
            alloc,
            mmcs,
            zk_data,
            mask_commitment,
            ell_zk,
            folding_factor,
            pow_bits,
            claimed_sum,
            challenger,
        )
    }
}
