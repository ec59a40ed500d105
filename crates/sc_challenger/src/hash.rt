//! A challenger whose answers are digests of its history.
ghost use Rattle.std.specs.Prelude.{◌≡◌, ◌+◌, ◌-◌, ◌/◌, ◌^◌, ◌==◌, ◌≤◌, [], ◌∷◌, ◌++◌, OnOk, OnErr, IsOk, vec_len, vec_capacity};
ghost use Rattle.sc_challenger.specs.Hashed.{hash_rules, state_of, next_state, leading};

use crate::challenger::Challenger;
use sc_definitions::Event;
use sc_field::{Field, NoMemory};
use sha2::{Digest, Sha256};
use std::alloc::Global;
use std::marker::PhantomData;

// The greatest difficulty.
const MAX_BITS: usize = 16;

/// A challenger whose draws and tests follow from SHA-256 of the history.
///
/// A history has a state of 32 bytes. That of the empty history is the digest of the empty text. A further event makes it
/// the digest of the state before, a byte that tells the event's kind (1 word, 2 draw, 3 test), and, but for a draw, the
/// word's number or the test's difficulty as 8 bytes, the highest first.
///
/// A draw is the element whose number is the first 8 bytes of the state, the highest first, modulo the size of the field.
/// A witness passes a test where the state after its word begins with as many zero bits as the test has, the highest bit
/// of the first byte being the first. The greatest difficulty is 16 bits.
#[derive(Drop)]
pub struct HashChallenger<F: Field> {
    events: Vec<Event>,
    // the state of the events, so that no history is hashed twice
    state: [u8; 32],
    field: PhantomData<F>,
    ghost state_is: { state ≡ state_of events.items },
}

impl<F: Field> HashChallenger<F> {
    /// A challenger with an empty history.
    pub fn new(alloc: Global) -> Self
        ensures history { (⟦<HashChallenger<F> as Challenger<F>>⟧.party result).history ≡ [] }
        ensures rules { (⟦<HashChallenger<F> as Challenger<F>>⟧.party result).rules ≡ hash_rules F.ops.size }
    {
        HashChallenger {
            events: Vec::new(alloc),
            state: Sha256::digest(b""),
            field: PhantomData,
        }
    }

    /// The history, the oldest event first.
    pub fn events(&self) -> &[Event]
        ensures { result.now ≡ (⟦<HashChallenger<F> as Challenger<F>>⟧.party self.now).history }
    {
        self.events.as_slice()
    }

    /// The state of the history, from which its next draw or test follows.
    pub fn state(&self) -> [u8; 32]
        ensures { result ≡ state_of ((⟦<HashChallenger<F> as Challenger<F>>⟧.party self.now).history) }
    {
        self.state
    }

    // Appends an event.
    #[tactic(auto, using(crate::proofs::StateLemmas::state_more))]
    fn append(&mut self, event: Event) -> Result<(), NoMemory>
        ensures ok { OnOk result (self.new.events.items ≡ self.old.events.items ++ event ∷ []) }
        ensures err { OnErr result (self.new.events.items ≡ self.old.events.items) }
        ensures has_room { vec_len self.old.events + 1 ≤ vec_capacity self.old.events → IsOk result }
        ensures capacity { vec_capacity self.old.events ≤ vec_capacity self.new.events }
        ensures len { OnOk result (vec_len self.new.events ≡ vec_len self.old.events + 1) }
        ensures len_err { OnErr result (vec_len self.new.events ≡ vec_len self.old.events) }
    {
        self.events.push(event)?;
        self.state = state_behind(&self.state, event);
        Ok(())
    }
}

impl<F: Field> Challenger<F> for HashChallenger<F> {
    ghost party = { λ s. record {
      rules = hash_rules F.ops.size;
      history = s.events.items;
      spare = vec_capacity s.events - vec_len s.events;
    } };

    fn observe(&mut self, x: F) -> Result<(), NoMemory> {
        self.append(Event::Word(x.index()))
    }

    fn sample(&mut self) -> Result<F, NoMemory> {
        let x = F::element(leading_number(&self.state) % F::size());
        self.append(Event::Draw)?;
        Ok(x)
    }

    fn would_pass(&self, bits: usize, witness: F) -> bool {
        let state = state_behind(&self.state, Event::Word(witness.index()));
        begins_with_zeros(&state, bits)
    }

    #[tactic(auto, using(crate::proofs::StateLemmas::state_more))]
    fn check_witness(&mut self, bits: usize, witness: F) -> Result<bool, NoMemory> {
        self.events.reserve(2)?;
        let word = Event::Word(witness.index());
        let test = Event::Test(bits);
        let state = state_behind(&self.state, word);
        self.events.push_reserved(word);
        self.events.push_reserved(test);
        self.state = state_behind(&state, test);
        Ok(begins_with_zeros(&state, bits))
    }

    fn max_bits(&self) -> usize {
        MAX_BITS
    }

    fn reserve(&mut self, events: usize) -> Result<(), NoMemory> {
        self.events.reserve(events)?;
        Ok(())
    }

    fn copy(&self, alloc: Global) -> Result<Self, NoMemory> {
        Ok(HashChallenger {
            events: Vec::from_slice(alloc, &self.events)?,
            state: self.state,
            field: PhantomData,
        })
    }
}

// The state after one event more.
fn state_behind(state: &[u8; 32], event: Event) -> [u8; 32]
    ensures { result ≡ next_state state.now event }
{
    let mut hasher = Sha256::new();
    hasher.update(&state[..]);
    match event {
        Event::Word(x) => {
            hasher.update(&[1u8][..]);
            hasher.update(&x.to_be_bytes()[..]);
        }
        Event::Draw => hasher.update(&[2u8][..]),
        Event::Test(bits) => {
            hasher.update(&[3u8][..]);
            hasher.update(&(bits as u64).to_be_bytes()[..]);
        }
    }
    hasher.finalize()
}

// The first 8 bytes as a number, the highest first.
fn leading_number(state: &[u8; 32]) -> u64
    ensures { result ≡ leading state.now }
{
    u64::from_be_bytes([
        state[0], state[1], state[2], state[3], state[4], state[5], state[6], state[7],
    ])
}

// Whether the first bits, at most as many as a test has, are zero.
fn begins_with_zeros(state: &[u8; 32], bits: usize) -> bool
    requires positive { 1 ≤ bits }
    requires at_most { bits ≤ 16 }
    ensures { result ≡ (leading state.now / 2 ^ (64 - bits) == 0) }
{
    leading_number(state) >> (64 - bits) == 0
}
