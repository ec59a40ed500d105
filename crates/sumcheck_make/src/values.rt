//! The values that a number begins.
ghost use Rattle.std.specs.Prelude.{◌≡◌, ℕ, suc, ◌<◌, IfOk};
ghost use Rattle.sumcheck_make.specs.Made.{value_at};

use crate::stride::{STRIDE, push_rest};
use sc_field::{Field, NoMemory};
use sc_small_fields::F65537;
use std::alloc::Global;

/// The values that a number begins: each is 75 times the one before it plus 74, modulo 65537.
#[derive(Drop)]
pub(crate) struct Values {
    last: u64,
    ghost below: { last < 65537 },
}

impl Values {
    ghost use Rattle.sumcheck_make.specs.Values.{AreBehind, last_of, number_of};

    /// Those of a number below 65537, of which none was taken.
    pub(crate) fn new(number: u64) -> Self
        requires { number < 65537 }
        ensures { last_of result ≡ number }
    {
        Values { last: number }
    }

    /// The value after the last one.
    #[tactic(auto, unfolding(crate::specs::Made::value_at))]
    pub(crate) fn advance(&mut self) -> F65537
        ensures value { number_of result ≡ last_of self.new }
        ensures next { (number i : ℕ) → last_of self.old ≡ value_at number i
            → last_of self.new ≡ value_at number (suc i) }
    {
        self.last = (75 * self.last + 74) % 65537;
        F65537::element(self.last)
    }

    /// So many values after the last one.
    pub(crate) fn take(&mut self, alloc: Global, count: usize) -> Result<Vec<F65537>, NoMemory>
        ensures { IfOk result (λ v.
            AreBehind (last_of self.old) v.items count (last_of self.new)) }
    {
        let mut taken = Vec::with_capacity(alloc, count)?;
        for _i in 0..count.min(STRIDE) {
            taken.push_reserved(self.advance());
        }
        if count <= STRIDE {
            return Ok(taken);
        }
        push_rest(&mut taken, count);
        self.last = taken[count - 1].index();
        Ok(taken)
    }
}
