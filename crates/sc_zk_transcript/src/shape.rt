//! The numbers that fix the transcript of a masked batch.
ghost use Rattle.std.specs.Prelude.{◌≡◌, ◌++◌, [], ◌∷◌, IfOk, OnOk, IfErr, ◌≤◌, ◌+◌, length};
ghost use Rattle.sc_definitions.specs.Events.{words};
ghost use Rattle.sc_challenger.specs.Parties.{MayAppend};
ghost use Rattle.sc_zk_definitions.specs.MaskedTranscripts.{round_length, wire_length};
ghost use Rattle.sc_zk_definitions.specs.MaskedTranscripts.{masked_steps};
ghost use Rattle.sc_zk_definitions.specs.MaskedTranscripts.{masked_separator, masked_seed};
ghost use Rattle.sc_zk_definitions.specs.MaskedTranscripts.{prelude_step, head_steps};
ghost use Rattle.sc_zk_transcript.specs.Shapes.{fixed_by, shape_made, masked_batch, IsUnfit, IsFit};

use sc_challenger::{
    Challenger, DomainSeparator, Interaction, InteractionPattern, Kind, Label, Length, Protocol,
};
use sc_field::{ExtensionField, Field, NoMemory};
use sc_transcript::SumcheckError;
use sc_transcript::driver::{RoundShape, push_round_steps};
use sc_transcript::rounds::BatchShape;
use sc_zk_definitions::ZkPrelude;
use std::alloc::Global;

// The version of the seed's format.
const VERSION: u8 = 1;

// How many coefficients a plain round has.
const PLAIN_LEN: usize = 3;

/// The numbers that fix the transcript of a masked batch. Both sides take them from their own
/// configuration, never from a proof.
#[derive(Clone, Copy, Debug, PartialEq, Eq)]
pub struct ZkSumcheckShape {
    /// What the first step is.
    pub prelude: ZkPrelude,
    /// How many rounds there are.
    pub num_rounds: usize,
    /// How many coefficients a mask has.
    pub ell_zk: usize,
    /// The difficulty of each round's test in bits, or 0 for no test.
    pub pow_bits: usize,
}

impl ZkSumcheckShape {
    /// The shape of a batch of claims that were recorded.
    pub fn new_batching(num_rounds: usize, ell_zk: usize, pow_bits: usize) -> Self
        ensures { result ≡ shape_made ZkPrelude.RecordedClaims num_rounds ell_zk pow_bits }
    {
        ZkSumcheckShape {
            prelude: ZkPrelude::RecordedClaims,
            num_rounds,
            ell_zk,
            pow_bits,
        }
    }

    /// The shape of a batch under a claim that is handed on.
    pub fn new_inherited(num_rounds: usize, ell_zk: usize, pow_bits: usize) -> Self
        ensures { result ≡ shape_made ZkPrelude.InheritedClaim num_rounds ell_zk pow_bits }
    {
        ZkSumcheckShape {
            prelude: ZkPrelude::InheritedClaim,
            num_rounds,
            ell_zk,
            pow_bits,
        }
    }

    /// How many coefficients a round's polynomial has: as many as a mask, and three at least.
    pub fn round_poly_len(&self) -> usize
        ensures { result ≡ round_length self.now.ell_zk }
    {
        if self.ell_zk < PLAIN_LEN {
            PLAIN_LEN
        } else {
            self.ell_zk
        }
    }

    /// How many of them are sent: all but the linear one.
    pub fn wire_len(&self) -> usize
        ensures { result ≡ wire_length self.now.ell_zk }
    {
        self.round_poly_len() - 1
    }

    /// Whether masked rounds can be played in this shape: two is not zero in the field, masks have
    /// three coefficients at least, and there is a round.
    pub fn validate<F: Field>(&self) -> Result<(), SumcheckError>
        ensures fit { OnOk result (IsFit F.ops self.now) }
        ensures unfit { IfErr result (IsUnfit F.ops self.now) }
    {
        if F::TWO.index() == 0 {
            return Err(SumcheckError::EvenCharacteristic);
        }
        if self.ell_zk < PLAIN_LEN {
            return Err(SumcheckError::MaskTooShort {
                ell_zk: self.ell_zk,
            });
        }
        if self.num_rounds == 0 {
            return Err(SumcheckError::NoRounds);
        }
        Ok(())
    }

    /// The steps of the batch.
    #[tactic(auto, using(sc_transcript::proofs::StepLaws::steps_more))]
    pub fn pattern<F: Field, EF: ExtensionField<F>>(
        &self,
        alloc: Global,
    ) -> Result<InteractionPattern, NoMemory>
        ensures { IfOk result (λ steps. steps ≡ masked_steps EF.DEGREE (fixed_by self.now)) }
    {
        let mut steps = head_steps::<F, EF>(alloc, self.prelude)?;
        for _round in 0..self.num_rounds {
            push_round_steps(&mut steps, EF::DEGREE, self.wire_len(), self.pow_bits)?;
        }
        Ok(InteractionPattern::new(steps))
    }

    /// What tells this batch from others: version 1 of the format, the protocol `p3-sumcheck-hvzk`,
    /// the steps, and the length of the masks as a label of 8 bytes, the highest first.
    #[tactic(auto, unfolding(sc_definitions::specs::Seeds::eight_bytes))]
    pub fn domain_separator<F: Field, EF: ExtensionField<F>>(
        &self,
        alloc: Global,
    ) -> Result<DomainSeparator, NoMemory>
        ensures { IfOk result (λ s. s ≡ masked_separator EF.DEGREE (fixed_by self.now)) }
    {
        let pattern = self.pattern::<F, EF>(alloc)?;
        let mut separator = DomainSeparator::new(VERSION, Protocol::Hvzk, pattern);
        separator.instance(alloc, &(self.ell_zk as u64).to_be_bytes())?;
        Ok(separator)
    }

    /// Observes the seed's words. A refusal leaves the history as it was.
    #[tactic(auto, unfolding(sc_zk_definitions::specs::MaskedTranscripts::masked_seed))]
    pub fn seed<F: Field, EF: ExtensionField<F>, C: Challenger<F>>(
        &self,
        alloc: Global,
        challenger: &mut C,
    ) -> Result<(), NoMemory>
        ensures { MayAppend (words (masked_seed EF.DEGREE (fixed_by self.now)))
            (length (masked_seed EF.DEGREE (fixed_by self.now))) (C.party challenger.old)
            (C.party challenger.new) result }
    {
        let separator = self.domain_separator::<F, EF>(alloc)?;
        separator.seed::<F, C>(alloc, challenger)
    }
}

impl RoundShape for ZkSumcheckShape {
    ghost numbers = { masked_batch };

    fn batch(&self) -> BatchShape {
        BatchShape {
            num_rounds: self.num_rounds,
            width: self.wire_len(),
            pow_bits: self.pow_bits,
        }
    }
}

// The steps before the rounds.
fn head_steps<F: Field, EF: ExtensionField<F>>(
    alloc: Global,
    prelude: ZkPrelude,
) -> Result<Vec<Interaction>, NoMemory>
    ensures { IfOk result (λ v. v.items ≡ head_steps EF.DEGREE prelude) }
{
    let mut steps = Vec::new(alloc);
    steps.push(first_step(EF::DEGREE, prelude))?;
    steps.push(step(Kind::Message, 0, Label::MaskCommitment))?;
    steps.push(step(Kind::Message, EF::DEGREE, Label::MuTilde))?;
    steps.push(step(Kind::Challenge, EF::DEGREE, Label::MaskCombination))?;
    Ok(steps)
}

// The first step.
fn first_step(parts: usize, prelude: ZkPrelude) -> Interaction
    ensures { result ≡ prelude_step parts prelude }
{
    match prelude {
        ZkPrelude::RecordedClaims => step(Kind::Challenge, parts, Label::ClaimBatching),
        ZkPrelude::InheritedClaim => step(Kind::Message, parts, Label::JointClaim),
    }
}

// A step of one value of so many parts.
fn step(kind: Kind, parts: usize, label: Label) -> Interaction
    ensures { result
        ≡ record { kind = kind; parts = parts; length = Length.Scalar; label = label } }
{
    Interaction {
        kind,
        parts,
        length: Length::Scalar,
        label,
    }
}
