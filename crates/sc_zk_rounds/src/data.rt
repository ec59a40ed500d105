//! What masked rounds put on the wire, and what their verifier is handed.
ghost use Rattle.std.specs.Prelude.{◌≡◌, ◌≢◌, ◌+◌, ◌^◌, ◌<◌, ◌≤◌, length};
ghost use Rattle.std.specs.Prelude.{Err, IfOk, IfErr, IsOk, OnOk, OnErr};
ghost use Rattle.sc_commitments.specs.Matrices.{numbers_in};
ghost use Rattle.sc_transcript.specs.Drivers.{driver_at, PutsRound, RefusesRound};
ghost use Rattle.sc_zk_transcript.specs.Causes.{masked_cause};
ghost use Rattle.sc_zk_rounds.specs.Data.{masked_wire_in};

use sc_challenger::Challenger;
use sc_commitments::Mmcs;
use sc_field::{ExtensionField, Field, NoMemory};
use sc_rounds::SumcheckProver;
use sc_table::Point;
use sc_transcript::SumcheckError;
use sc_transcript::rounds::Rounds;
use std::alloc::Global;

/// What a masked batch has put on the wire.
#[derive(Drop)]
pub struct ZkSumcheckData<F, EF> {
    /// The total of the masks: their sum over all bits.
    pub mu_tilde: EF,
    /// The wire of each round, the first round first: the coefficients of the round's polynomial,
    /// the constant first, without that of X.
    pub round_coefficients: Vec<Vec<EF>>,
    /// The witness of each round at a positive difficulty, and none without one.
    pub pow_witnesses: Vec<F>,
}

impl<F: Field, EF: Field> ZkSumcheckData<F, EF> {
    ghost use Rattle.sc_zk_rounds.specs.Data.{IsNewData};

    /// Nothing yet: the total is zero, and there are no rounds.
    pub fn new(alloc: Global) -> Self
        ensures { IsNewData F.number EF.number result }
    {
        ZkSumcheckData {
            mu_tilde: EF::ZERO,
            round_coefficients: Vec::new(alloc),
            pow_witnesses: Vec::new(alloc),
        }
    }
}

impl<F: Field, EF: ExtensionField<F>> ZkSumcheckData<F, EF> {
    ghost use Rattle.sc_transcript.specs.Drivers.{HasRoom};
    ghost use Rattle.sc_zk_rounds.specs.Data.{masked_spare_in};

    /// Makes room for this many more rounds. Room that was there stays, and where it was enough the
    /// answer is `Ok`. The rounds and the total stay.
    ///
    /// # Errors
    ///
    /// [`NoMemory`] alone.
    pub fn reserve(&mut self, rounds: usize) -> Result<(), NoMemory>
        ensures kept { masked_wire_in F.number EF.number self.new
            ≡ masked_wire_in F.number EF.number self.old }
        ensures total { self.new.mu_tilde ≡ self.old.mu_tilde }
        ensures ok { OnOk result (rounds ≤ masked_spare_in self.new) }
        ensures never_lowers { masked_spare_in self.old ≤ masked_spare_in self.new }
        ensures has_room { rounds ≤ masked_spare_in self.old → IsOk result }
    {
        self.round_coefficients.reserve(rounds)?;
        self.pow_witnesses.reserve(rounds)?;
        Ok(())
    }

    /// Plays a round of this wire over the challenger, appends it with its witness, and answers its
    /// challenge.
    ///
    /// # Conditions
    ///
    /// The difficulty is at most the challenger's [`Challenger::max_bits`], a round is still to be
    /// played, and the wire has as many values as a round sends.
    ///
    /// # Errors
    ///
    /// Those of [`Rounds::play`], `NoWitness` and `NoMemory`, told as errors of a sumcheck. They
    /// leave the data as it was. Of fewer than 2^32 values a round, `NoMemory` comes only where the
    /// data has no room for a round, or the challenger none for its events. The round takes no more
    /// room than that.
    pub fn put_round<C: Challenger<F>, K: Copy>(
        &mut self,
        rounds: &mut Rounds<K>,
        challenger: &mut C,
        wire: Vec<EF>,
    ) -> Result<EF, SumcheckError>
        requires difficulty { rounds.old.shape.pow_bits ≤ (C.party challenger.old).rules.max_bits }
        requires left { rounds.old.played < rounds.old.shape.num_rounds }
        requires width { length wire.items ≡ rounds.old.shape.width }
        ensures puts { IfOk result (λ r. PutsRound EF.extension
            (driver_at C.party F.ops.size challenger.entry rounds.old)
            (driver_at C.party F.ops.size challenger.exit rounds.new)
            (numbers_in EF.number wire) (EF.number r)
            (masked_wire_in F.number EF.number self.old)
            (masked_wire_in F.number EF.number self.new)) }
        ensures refused { IfErr result (λ e. RefusesRound EF.extension
            (driver_at C.party F.ops.size challenger.entry rounds.old)
            (driver_at C.party F.ops.size challenger.exit rounds.new)
            (numbers_in EF.number wire) (masked_cause e)) }
        ensures kept { OnErr result (masked_wire_in F.number EF.number self.new
            ≡ masked_wire_in F.number EF.number self.old) }
        ensures total { self.new.mu_tilde ≡ self.old.mu_tilde }
        ensures has_room { rounds.old.shape.width < 2 ^ 32 → 1 ≤ masked_spare_in self.old
            → HasRoom EF.DEGREE (driver_at C.party F.ops.size challenger.entry rounds.old)
            → result ≢ Err SumcheckError.NoMemory }
        ensures room { OnOk result (masked_spare_in self.old ≤ masked_spare_in self.new + 1) }
        ensures room_kept { OnErr result (masked_spare_in self.old ≤ masked_spare_in self.new) }
    {
        self.reserve(1)?;
        let (challenge, witness) = rounds.play(challenger, &wire.as_slice())?;
        self.round_coefficients.push_reserved(wire);
        if let Some(witness) = witness {
            self.pow_witnesses.push_reserved(witness);
        }
        Ok(challenge)
    }
}

/// A commitment to masks, and what the prover keeps of them.
pub type MaskOracle<EF, M> = (<M as Mmcs<EF>>::Commitment, <M as Mmcs<EF>>::ProverData);

/// What a masked batch hands on to a prover `P` of what is left, under commitments `K` of which
/// data `D` is kept.
#[derive(Drop)]
pub struct Handoff<P, EF, K, D> {
    /// The prover of what is left: the weights and the claim are times the combination, the
    /// evaluations are not, and no challenge is held.
    pub residual_prover: P,
    /// The challenges of the rounds, in drawing order.
    pub randomness: Point<EF>,
    /// The combination: what the plain part was multiplied by before masks were added.
    pub eps: EF,
    /// The masks, one for each round, by their coefficients, the constant first.
    pub mask_messages: Vec<Vec<EF>>,
    /// The randomness that each was encoded with.
    pub mask_randomness: Vec<Vec<EF>>,
    /// The commitment to the masks, and what is kept of them.
    pub mask_oracle: (K, D),
}

/// What a masked batch hands on to a sumcheck prover, under a scheme of commitments.
pub type ZkSumcheckHandoff<F, EF, M> = Handoff<
    SumcheckProver<F, EF>,
    EF,
    <M as Mmcs<EF>>::Commitment,
    <M as Mmcs<EF>>::ProverData,
>;

/// What a masked batch hands on to its verifier.
#[derive(Drop)]
pub struct ZkVerifierHandoff<EF> {
    /// The challenges of the rounds, in drawing order.
    pub randomness: Point<EF>,
    /// What the rounds leave of the first target.
    pub claimed_residual: EF,
    /// The combination: what the plain part was multiplied by before masks were added.
    pub eps: EF,
}
