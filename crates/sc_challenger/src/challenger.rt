//! What a challenger is.
ghost use Rattle.std.specs.Prelude.{◌≡◌, ◌≤◌, [], ◌∷◌, IfOk, OnOk, IsOk};
ghost use Rattle.sc_challenger.specs.Parties.{Party, IsCopyOf, Keeps, LeavesAppended};

use sc_field::{Field, NoMemory};
use std::alloc::Global;

/// The party that a transcript is played with. It has a history, the list of what was observed, drawn
/// and tested, and each answer follows from the history alone, by rules that belong to the challenger.
///
/// A call that answers [`NoMemory`] leaves the history as it was. Where [`Challenger::reserve`] made room
/// for a call's events, the call cannot answer that.
pub trait Challenger<F: Field>: Drop {
    ghost use Rattle.sc_definitions.specs.declared.events.Event.TheVariants.{Word, Draw, Test};

    // What contracts see of it. How it answers never changes.
    ghost party: { Self → Party };

    /// Takes a word in: the history grows by the number of `x`.
    fn observe(&mut self, x: F) -> Result<(), NoMemory>
        ensures { LeavesAppended (Word (F.number x) ∷ []) 1 (party self.old) (party self.new) result };

    /// Draws an element, which the rules name for the history so far; then the history grows by a draw.
    fn sample(&mut self) -> Result<F, NoMemory>
        ensures drawn { IfOk result (λ x. F.number x ≡ (party self.old).rules.draw (party self.old).history) }
        ensures left { LeavesAppended (Draw ∷ []) 1 (party self.old) (party self.new) result };

    /// Whether a witness would pass a test of this difficulty, from 1 to [`Challenger::max_bits`] bits. The rules answer it
    /// at the history as it stands, which does not have the witness's word yet.
    fn would_pass(&self, bits: usize, witness: F) -> bool
        requires positive { 1 ≤ bits }
        requires at_most { bits ≤ (party self.now).rules.max_bits }
        ensures { result ≡ (party self.now).rules.passes (party self.now).history bits (F.number witness) };

    /// Tests a witness at a difficulty from 1 to [`Challenger::max_bits`] bits, and answers what
    /// [`Challenger::would_pass`] answers right before. Then the history grows by the witness's word and by the test,
    /// also where it does not pass.
    fn check_witness(&mut self, bits: usize, witness: F) -> Result<bool, NoMemory>
        requires positive { 1 ≤ bits }
        requires at_most { bits ≤ (party self.old).rules.max_bits }
        ensures tested { IfOk result (λ passes. passes ≡ (party self.old).rules.passes (party self.old).history bits (F.number witness)) }
        ensures left { LeavesAppended (Word (F.number witness) ∷ Test bits ∷ []) 2 (party self.old) (party self.new) result };

    /// The greatest difficulty that it tests, in bits.
    fn max_bits(&self) -> usize
        ensures { result ≡ (party self.now).rules.max_bits };

    /// Makes room for this many events. Room that was there stays, and where it was enough the answer is `Ok`.
    fn reserve(&mut self, events: usize) -> Result<(), NoMemory>
        ensures kept { Keeps (party self.old) (party self.new) }
        ensures ok { OnOk result (events ≤ (party self.new).spare) }
        ensures has_room { events ≤ (party self.old).spare → IsOk result };

    /// An equal challenger: one of the same rules, with a history of its own that begins as this one stands.
    fn copy(&self, alloc: Global) -> Result<Self, NoMemory>
        ensures { IfOk result (λ c. IsCopyOf (party self.now) (party c)) };
}
