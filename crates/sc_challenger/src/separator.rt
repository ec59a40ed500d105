//! What a transcript begins with: the bytes that tell one protocol, shape and instance from another, as words.
ghost use Rattle.std.specs.Prelude.{◌≡◌, ◌+◌, ◌<◌, ◌≤◌, ◌++◌, [], All, IfOk, OnOk, OnErr, flat_map, length};
ghost use Rattle.sc_definitions.specs.Events.{words};
ghost use Rattle.sc_definitions.specs.Seeds.{separator, label_text, protocol_name, eight_bytes, length_prefixed, kind_byte, length_bytes, step_bytes, separator_bytes, nibbles, seed_words};
ghost use Rattle.sc_challenger.specs.Parties.{MayAppend};

use crate::challenger::Challenger;
use crate::interaction::InteractionPattern;
use sc_definitions::{Interaction, Kind, Label, Length, Protocol};
use sc_field::{Field, NoMemory};
use std::alloc::Global;
use std::marker::Model;

/// What tells a transcript from those of other protocols, shapes and instances: a version of the format, the protocol,
/// its steps, and a label for what the steps do not show. Its seed is observed before the first step.
///
/// It is written as bytes. The version comes first; the protocol's name after its length; the number of steps, and the
/// steps; the label after its length. A step is a byte for its kind (1 message, 2 challenge, 3 witness), the number of
/// its parts, a byte that is 0 for one value and 1 for a fixed number of them, that number, and its label's text after
/// its length. A number that is no byte, lengths among them, takes 8 bytes, the highest first.
#[derive(Debug, Drop)]
pub struct DomainSeparator {
    version: u8,
    protocol: Protocol,
    pattern: InteractionPattern,
    label: Vec<u8>,
}

impl Model for DomainSeparator {
    ghost use Rattle.sc_definitions.specs.Seeds.{Separator, separator};

    ghost Value = { Separator };

    ghost view = { λ s. separator s.version s.protocol s.pattern s.label.items };
}

impl DomainSeparator {
    /// The separator of this version of the format, which is 1 so far, with an empty label.
    pub fn new(version: u8, protocol: Protocol, pattern: InteractionPattern) -> Self
        ensures { result ≡ separator version protocol pattern [] }
    {
        let label = Vec::new(pattern.allocator());
        DomainSeparator {
            version,
            protocol,
            pattern,
            label,
        }
    }

    /// Sets the label, in place of the one before. A refusal leaves that as it was.
    pub fn instance(&mut self, alloc: Global, label: &[u8]) -> Result<(), NoMemory>
        ensures ok { OnOk result (self.new ≡ separator self.old.version self.old.protocol self.old.steps label.now) }
        ensures err { OnErr result (self.new ≡ self.old) }
    {
        self.label = Vec::from_slice(alloc, label)?;
        Ok(())
    }

    /// The words of the seed: two for each byte of the separator, the higher four bits first. Each is below 16, so it is
    /// the number of an element of any field.
    #[tactic(auto, unfolding(sc_definitions::specs::Seeds::seed_words))]
    pub fn seed_words(&self, alloc: Global) -> Result<Vec<u8>, NoMemory>
        ensures words { IfOk result (λ v. v.items ≡ seed_words self.now) }
        ensures below { IfOk result (λ v. All (λ w. w < 16) v.items) }
    {
        let bytes = self.bytes(alloc)?;
        nibbles(alloc, &bytes)
    }

    /// Observes the words of the seed, each as the element of its number. A refusal leaves the history as it was.
    pub fn seed<F: Field, C: Challenger<F>>(
        &self,
        alloc: Global,
        challenger: &mut C,
    ) -> Result<(), NoMemory>
        ensures { MayAppend (words (seed_words self.now)) (length (seed_words self.now)) (C.party challenger.old) (C.party challenger.new) result }
    {
        let words = self.seed_words(alloc)?;
        challenger.reserve(words.len())?;
        for word in &words {
            challenger.observe(F::element(*word as u64)).unwrap();
        }
        Ok(())
    }

    // The bytes of the separator.
    #[tactic(auto, unfolding(sc_definitions::specs::Seeds::separator_bytes))]
    fn bytes(&self, alloc: Global) -> Result<Vec<u8>, NoMemory>
        ensures { IfOk result (λ v. v.items ≡ separator_bytes self.now) }
    {
        let mut bytes = Vec::new(alloc);
        bytes.push(self.version)?;
        push_length_prefixed(&mut bytes, protocol_text(self.protocol))?;
        push_steps(&mut bytes, self.pattern.steps())?;
        push_length_prefixed(&mut bytes, &self.label)?;
        Ok(bytes)
    }
}

// A protocol's name.
#[tactic(auto, unfolding(sc_definitions::specs::Seeds::protocol_name))]
fn protocol_text(protocol: Protocol) -> &'static [u8]
    ensures { result.now ≡ protocol_name protocol }
{
    match protocol {
        Protocol::Quadratic => b"p3-sumcheck-quadratic",
        Protocol::GenericDegree => b"p3-sumcheck-generic-degree",
        Protocol::Hvzk => b"p3-sumcheck-hvzk",
    }
}

// The text of a step's label.
#[tactic(auto, unfolding(sc_definitions::specs::Seeds::label_text))]
fn text_of(label: Label) -> &'static [u8]
    ensures { result.now ≡ label_text label }
{
    match label {
        Label::ClaimedSum => b"claimed_sum",
        Label::RoundPoly => b"round_poly",
        Label::RoundPow => b"round_pow",
        Label::RoundChallenge => b"round_challenge",
        Label::ClaimBatching => b"claim_batching",
        Label::JointClaim => b"joint_claim",
        Label::MaskCommitment => b"mask_commitment",
        Label::MuTilde => b"mu_tilde",
        Label::MaskCombination => b"mask_combination",
    }
}

// The byte of a step's kind.
fn byte_of(kind: Kind) -> u8
    ensures { result ≡ kind_byte kind }
{
    match kind {
        Kind::Message => 1,
        Kind::Challenge => 2,
        Kind::Pow => 3,
    }
}

// Appends a number as 8 bytes, the highest first.
#[tactic(auto, unfolding(sc_definitions::specs::Seeds::eight_bytes))]
fn push_number(bytes: &mut Vec<u8>, number: usize) -> Result<(), NoMemory>
    ensures { OnOk result (bytes.new.items ≡ bytes.old.items ++ eight_bytes number) }
{
    bytes.extend_from_slice(&(number as u64).to_be_bytes())?;
    Ok(())
}

// Appends a text after its length.
#[tactic(auto, unfolding(sc_definitions::specs::Seeds::length_prefixed))]
fn push_length_prefixed(bytes: &mut Vec<u8>, text: &[u8]) -> Result<(), NoMemory>
    ensures { OnOk result (bytes.new.items ≡ bytes.old.items ++ length_prefixed text.now) }
{
    push_number(bytes, text.len())?;
    bytes.extend_from_slice(text)?;
    Ok(())
}

// Appends a step's length: whether it is fixed, and the number.
#[tactic(auto, unfolding(sc_definitions::specs::Seeds::length_bytes))]
fn push_length(bytes: &mut Vec<u8>, length: Length) -> Result<(), NoMemory>
    ensures { OnOk result (bytes.new.items ≡ bytes.old.items ++ length_bytes length) }
{
    let (fixed, number) = match length {
        Length::Scalar => (0, 1),
        Length::Fixed(number) => (1, number),
    };
    bytes.push(fixed)?;
    push_number(bytes, number)
}

// Appends a step.
#[tactic(auto, unfolding(sc_definitions::specs::Seeds::step_bytes))]
fn push_step(bytes: &mut Vec<u8>, step: Interaction) -> Result<(), NoMemory>
    ensures { OnOk result (bytes.new.items ≡ bytes.old.items ++ step_bytes step) }
{
    bytes.push(byte_of(step.kind))?;
    push_number(bytes, step.parts)?;
    push_length(bytes, step.length)?;
    push_length_prefixed(bytes, text_of(step.label))
}

// Appends how many steps there are, and the steps.
fn push_steps(bytes: &mut Vec<u8>, steps: &[Interaction]) -> Result<(), NoMemory>
    ensures { OnOk result (bytes.new.items ≡ bytes.old.items ++ eight_bytes (length steps.now) ++ flat_map step_bytes steps.now) }
{
    push_number(bytes, steps.len())?;
    for step in steps {
        push_step(bytes, *step)?;
    }
    Ok(())
}

// Two words for each byte, the higher four bits first.
#[tactic(auto, unfolding(sc_definitions::specs::Seeds::nibbles))]
fn nibbles(alloc: Global, bytes: &[u8]) -> Result<Vec<u8>, NoMemory>
    ensures words { IfOk result (λ v. v.items ≡ nibbles bytes.now) }
    ensures below { IfOk result (λ v. All (λ w. w < 16) v.items) }
{
    let mut words = Vec::with_capacity(alloc, 2 * bytes.len())?;
    for byte in bytes {
        words.push(byte / 16)?;
        words.push(byte % 16)?;
    }
    Ok(words)
}
