// What a source and a sink of bytes promise.
ghost use Rattle.std.specs.Prelude.{◌≡◌, ◌<◌, ◌≤◌, List, ℕ, Option, length, IfOk};
ghost use Rattle.std.specs.Io.{ReadsAtMost, WritesAtMost};
ghost use Rattle.std.specs.Io.KnownBytes.{ReadConsumes, WriteAppends};
ghost use Rattle.sc_streams.specs.Faults.{Counts, HasRisen, Spends, raised};

use thiserror::Error;

/// A source or a sink failed, and has counted it.
#[derive(Clone, Copy, Debug, PartialEq, Eq, Error)]
#[error("a read or a write failed")]
pub struct Failed;

/// Bytes to be read.
pub trait Source {
    /// The bytes that are left, where the source tells them.
    ghost left: { Self → Option (List ℕ) };

    /// How often the source has failed. The count never falls, and stands still at the last value of a
    /// `u64`.
    ghost faults: { Self → ℕ };

    /// How many bytes reads gave, at most: a source that keeps no such count has 0. Code over any source
    /// cannot tell which it is, so a bound on the count bounds what that code reads.
    ghost given: { Self → ℕ } = { λ _. 0 };

    /// How many reads gave no byte, at most. It bounds reads as `given` does.
    ghost dry: { Self → ℕ } = { λ _. 0 };

    /// How many reads came while the count of faults stood above a given one, at most. It bounds reads as `given` does, here those after a fault.
    ghost late: { Self → ℕ → ℕ } = { λ _ _. 0 };

    /// Moves the first bytes that are left to the front of the piece, and says how many: at most the
    /// piece's length. A piece that is not empty gets none only where no byte is left. `Failed` is told
    /// only where the count of faults rose, and then no byte was taken.
    fn read(&mut self, into: &mut [u8]) -> Result<usize, Failed>
        ensures bound { ReadsAtMost result into.new }
        ensures bytes { ReadConsumes (left self.old) (left self.new) result into.new }
        ensures cost { Spends (given self.old) (given self.new) (dry self.old) (dry self.new) result }
        ensures late { (count : ℕ) → faults self.old ≤ count → late self.new count ≤ late self.old count }
        ensures faults { Counts (faults self.old) (faults self.new) result };
}

/// Bytes that are written.
pub trait Sink {
    /// The bytes that were taken, where the sink tells them.
    ghost taken: { Self → Option (List ℕ) };

    /// How often the sink has failed. The count never falls, and stands still at the last value of a
    /// `u64`.
    ghost faults: { Self → ℕ };

    /// How many writes came while the count of faults stood above a given one, at most: a sink that keeps no such count has 0. Code over any sink
    /// cannot tell which it is, so a bound on the count bounds the writes of that code after a fault.
    ghost late: { Self → ℕ → ℕ } = { λ _ _. 0 };

    /// Takes the first bytes of the piece, and says how many: at most its length, and at least one of a
    /// piece that is not empty, since to take nothing of it is a fault. `Failed` is told only where the
    /// count of faults rose, and then no byte was taken.
    fn write(&mut self, from: &[u8]) -> Result<usize, Failed>
        ensures bound { WritesAtMost result from.now }
        ensures bytes { WriteAppends (taken self.old) (taken self.new) result from.now }
        ensures progress { IfOk result (λ n. 0 < length from.now → 0 < n) }
        ensures late { (count : ℕ) → faults self.old ≤ count → late self.new count ≤ late self.old count }
        ensures faults { Counts (faults self.old) (faults self.new) result };
}

// Counts a fault that is to be told.
pub(crate) fn count_fault(faults: &mut u64) -> Failed
    ensures raised { faults.new ≡ raised faults.old }
    ensures risen { HasRisen faults.old faults.new }
{
    *faults = faults.saturating_add(1);
    Failed
}
