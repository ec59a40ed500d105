//! Want of memory.
ghost use Rattle.std.specs.Prelude.{◌≡◌, ◌≤◌, [], IfOk, vec_capacity};

use std::alloc::{AllocError, AllocFailed, Global};
use thiserror::Error;

/// A call wanted more memory than there was.
#[derive(Clone, Copy, Debug, PartialEq, Eq, Error)]
#[error("out of memory")]
pub struct NoMemory;

impl From<AllocError> for NoMemory {
    ghost use Rattle.sc_memory.specs.Memory.{no_memory};

    ghost from_gives = { λ _ e. e ≡ no_memory };

    fn from(_error: AllocError) -> NoMemory {
        NoMemory
    }
}

impl<T: Drop> From<AllocFailed<T>> for NoMemory {
    ghost use Rattle.sc_memory.specs.Memory.{no_memory};

    ghost from_gives = { λ _ e. e ≡ no_memory };

    fn from(_error: AllocFailed<T>) -> NoMemory {
        NoMemory
    }
}

/// An empty list with room for so many items, each of which is then pushed without want of memory.
pub fn with_room<T>(alloc: Global, items: usize) -> Result<Vec<T>, NoMemory>
    ensures empty { IfOk result (λ v. v.items ≡ []) }
    ensures room { IfOk result (λ v. items ≤ vec_capacity v) }
{
    Ok(Vec::with_capacity(alloc, items)?)
}
