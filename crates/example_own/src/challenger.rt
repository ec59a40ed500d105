//! A challenger of one's own.
ghost use Rattle.std.specs.Prelude.{◌≡◌, ◌-◌, ◌%◌, [], length, vec_len, vec_capacity};
ghost use Rattle.example_own.specs.Counting.{counting_rules};

use crate::field::F31;
use sc_challenger::{Challenger, Event};
use sc_field::{Field, NoMemory};
use std::alloc::Global;

/// A challenger that draws how many events came before, modulo 31, and lets that number alone pass
/// a test. Whoever counts knows its draws beforehand: it shows how a challenger is made, and serves
/// no proof.
#[derive(Drop)]
pub struct Counting {
    events: Vec<Event>,
}

impl Counting {
    /// A challenger with an empty history.
    pub fn new(alloc: Global) -> Self
        ensures history { (⟦<Counting as Challenger<F31>>⟧.party result).history ≡ [] }
        ensures rules { (⟦<Counting as Challenger<F31>>⟧.party result).rules ≡ counting_rules }
    {
        Counting {
            events: Vec::new(alloc),
        }
    }

    // How many events there are, modulo 31.
    fn count(&self) -> F31
        ensures { ⟦<F31 as Field>⟧.number result ≡ length self.now.events.items % 31 }
    {
        F31::element(self.events.len() as u64 % F31::size())
    }
}

impl Challenger<F31> for Counting {
    ghost party = { λ s. record {
      rules = counting_rules;
      history = s.events.items;
      spare = vec_capacity s.events - vec_len s.events;
    } };

    fn observe(&mut self, x: F31) -> Result<(), NoMemory> {
        self.events.push(Event::Word(x.index()))?;
        Ok(())
    }

    fn sample(&mut self) -> Result<F31, NoMemory> {
        let drawn = self.count();
        self.events.push(Event::Draw)?;
        Ok(drawn)
    }

    fn would_pass(&self, _bits: usize, witness: F31) -> bool {
        witness == self.count()
    }

    fn check_witness(&mut self, bits: usize, witness: F31) -> Result<bool, NoMemory> {
        let passes = self.would_pass(bits, witness);
        self.events.reserve(2)?;
        self.events.push_reserved(Event::Word(witness.index()));
        self.events.push_reserved(Event::Test(bits));
        Ok(passes)
    }

    fn max_bits(&self) -> usize {
        16
    }

    fn reserve(&mut self, events: usize) -> Result<(), NoMemory> {
        self.events.reserve(events)?;
        Ok(())
    }

    fn copy(&self, alloc: Global) -> Result<Self, NoMemory> {
        let events = Vec::from_slice(alloc, &self.events)?;
        Ok(Counting { events })
    }
}
