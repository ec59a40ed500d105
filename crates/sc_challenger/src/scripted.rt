//! A challenger whose answers are handed in.
ghost use Rattle.std.specs.Prelude.{◌≡◌, ℕ, ◌-◌, ◌==◌, List, [], map, All, IfOk};
ghost use Rattle.std.specs.Prelude.{vec_len, vec_capacity};
ghost use Rattle.std.specs.List.{list_any};
ghost use Rattle.std.specs.List.Sorted.{IsNonDecreasing, IsPermutation};
ghost use Rattle.std.proofs.Props.{props};
ghost use Rattle.sc_definitions.specs.Scripted.{scripted_rules, draws_in, tests_in};

use crate::challenger::Challenger;
use sc_definitions::Event;
use sc_field::{Field, NoMemory};
use std::alloc::Global;

// The greatest difficulty.
const MAX_BITS: usize = 16;

/// A challenger whose draws are handed in: draw number d, counted from 0, is entry number d of the
/// list, and zero past the list's end.
///
/// The elements that pass test number t, counted from 0, stand in list number t of `good`; past the
/// end of the lists nothing passes. The difficulty does not matter, but for its bound, 16 bits.
///
/// The lists may be unsorted, and name an element twice. [`ScriptedChallenger::new`] sorts each of
/// them once, in its place, so that a search by halving tells whether an element passes.
#[derive(Drop)]
pub struct ScriptedChallenger<F: Field> {
    events: Vec<Event>,
    // how many of the events are draws
    drawn: usize,
    // how many of them are tests
    tested: usize,
    draws: Vec<F>,
    // each list is sorted by the numbers
    good: Vec<Vec<F>>,
    ghost sorted: { All IsNonDecreasing
        (map (λ list. map F.number list.items) good.items) } by { Prim.hlevel props },
    ghost drawn_is: { drawn ≡ draws_in events.items },
    ghost tested_is: { tested ≡ tests_in events.items },
}

impl<F: Field> ScriptedChallenger<F> {
    /// A challenger with an empty history.
    pub fn new(alloc: Global, draws: Vec<F>, mut good: Vec<Vec<F>>) -> Self
        ensures history { (⟦<ScriptedChallenger<F> as Challenger<F>>⟧.party result).history ≡ [] }
        ensures rules { (⟦<ScriptedChallenger<F> as Challenger<F>>⟧.party result).rules
            ≡ scripted_rules (map F.number draws.items)
            (map (λ list. map F.number list.items) good.items) }
    {
        sort_each(&mut good);
        ScriptedChallenger {
            events: Vec::new(alloc),
            drawn: 0,
            tested: 0,
            draws,
            good,
        }
    }

    /// The history, the oldest event first.
    pub fn events(&self) -> &[Event]
        ensures { result.now ≡ (⟦<ScriptedChallenger<F> as Challenger<F>>⟧.party self.now).history }
    {
        self.events.as_slice()
    }

    // The draw that comes next.
    #[tactic(auto, using(crate::proofs::ListReads::reads))]
    fn next_draw(&self) -> F
        ensures { F.number result
            ≡ (⟦<ScriptedChallenger<F> as Challenger<F>>⟧.party self.now).rules.draw self.now.events.items }
    {
        match self.draws.get(self.drawn) {
            Some(draw) => *draw,
            None => F::ZERO,
        }
    }
}

impl<F: Field> Challenger<F> for ScriptedChallenger<F> {
    ghost party = { λ s. record {
      rules = scripted_rules (map F.number s.draws.items)
          (map (λ list. map F.number list.items) s.good.items);
      history = s.events.items;
      spare = vec_capacity s.events - vec_len s.events;
    } };

    fn observe(&mut self, x: F) -> Result<(), NoMemory> {
        self.events.push(Event::Word(x.index()))?;
        Ok(())
    }

    fn sample(&mut self) -> Result<F, NoMemory> {
        let x = self.next_draw();
        self.events.push(Event::Draw)?;
        self.drawn += 1;
        Ok(x)
    }

    #[tactic(auto, using(crate::proofs::ListReads::reads))]
    fn would_pass(&self, _bits: usize, witness: F) -> bool {
        match self.good.get(self.tested) {
            Some(list) => has(list, witness),
            None => false,
        }
    }

    fn check_witness(&mut self, bits: usize, witness: F) -> Result<bool, NoMemory> {
        let passes = self.would_pass(bits, witness);
        self.events.reserve(2)?;
        self.events.push_reserved(Event::Word(witness.index()));
        self.events.push_reserved(Event::Test(bits));
        self.tested += 1;
        Ok(passes)
    }

    fn max_bits(&self) -> usize {
        MAX_BITS
    }

    fn reserve(&mut self, events: usize) -> Result<(), NoMemory> {
        self.events.reserve(events)?;
        Ok(())
    }

    fn copy(&self, alloc: Global) -> Result<Self, NoMemory> {
        let events = Vec::from_slice(alloc, &self.events)?;
        let draws = Vec::from_slice(alloc, &self.draws)?;
        let good = copied(alloc, &self.good)?;
        Ok(ScriptedChallenger {
            events,
            drawn: self.drawn,
            tested: self.tested,
            draws,
            good,
        })
    }
}

// Sorts each list by the numbers. It has the elements that it had, so that the same witnesses pass.
fn sort_each<F: Field>(lists: &mut [Vec<F>])
    ensures sorted { All IsNonDecreasing (map (λ l. map F.number l.items) lists.new) }
    ensures same { (draws : List ℕ) →
        scripted_rules draws (map (λ l. map F.number l.items) lists.new)
        ≡ scripted_rules draws (map (λ l. map F.number l.items) lists.old) }
{
    for list in lists.iter_mut() {
        sort(list);
    }
}

// Sorts a list by the numbers.
fn sort<F: Field>(list: &mut Vec<F>)
    ensures sorted { IsNonDecreasing (map F.number list.new.items) }
    ensures moved { IsPermutation list.old.items list.new.items }
{
    list.sort_unstable_by_key(|x| x.index());
}

// Whether an element stands in a list that is sorted by the numbers.
fn has<F: Field>(list: &[F], x: F) -> bool
    requires { IsNonDecreasing (map F.number list.now) }
    ensures { result ≡ list_any (λ n. n == F.number x) (map F.number list.now) }
{
    list.binary_search_by_key(&x.index(), |y| y.index()).is_ok()
}

// Copies of these lists.
fn copied<F: Field>(alloc: Global, lists: &[Vec<F>]) -> Result<Vec<Vec<F>>, NoMemory>
    ensures { IfOk result (λ copies. map (λ list. map F.number list.items) copies.items
        ≡ map (λ list. map F.number list.items) lists.now) }
{
    let mut copies = Vec::with_capacity(alloc, lists.len())?;
    for list in lists {
        copies.push(Vec::from_slice(alloc, list)?)?;
    }
    Ok(copies)
}
