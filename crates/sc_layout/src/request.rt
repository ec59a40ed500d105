//! What is asked to be opened at a drawn point, and what is answered.
ghost use Rattle.std.specs.Prelude.{◌≡◌, ◌+◌, ◌<◌, ◌^◌, All, IfOk, length};

use sc_memory::{NoMemory, Row};
use std::alloc::Global;

/// Which columns are opened at a point: at it, and through the successor map there. A table has one
/// column, of the number 0; a column that stands twice is opened twice.
#[derive(Drop)]
pub struct OpeningRequest {
    current: Row<usize>,
    next: Row<usize>,
    ghost columns: { All (λ c. c ≡ 0) current },
    ghost next_columns: { All (λ c. c ≡ 0) next },
}

impl OpeningRequest {
    ghost use Rattle.sc_layout.specs.Requests.{Counts, asked_in};

    /// The request of these columns, each of the number 0.
    pub fn new(current: Vec<usize>, next: Vec<usize>) -> Self
        requires current { All (λ c. c ≡ 0) current.items }
        requires next { All (λ c. c ≡ 0) next.items }
        ensures current { (asked_in result).current ≡ length current.items }
        ensures next { (asked_in result).next ≡ length next.items }
    {
        OpeningRequest {
            current: Row::new(current),
            next: Row::new(next),
        }
    }

    /// The columns that are opened at the point.
    pub fn current(&self) -> &[usize]
        ensures count { length result.now ≡ (asked_in self.now).current }
        ensures columns { All (λ c. c ≡ 0) result.now }
    {
        self.current.as_slice()
    }

    /// The columns that are opened through the successor map there.
    pub fn next(&self) -> &[usize]
        ensures count { length result.now ≡ (asked_in self.now).next }
        ensures columns { All (λ c. c ≡ 0) result.now }
    {
        self.next.as_slice()
    }

    /// How many values are asked for, of fewer than 2^64.
    pub fn len(&self) -> usize
        requires few { (asked_in self.now).current + (asked_in self.now).next < 2 ^ 64 }
        ensures { result ≡ (asked_in self.now).current + (asked_in self.now).next }
    {
        self.current.len() + self.next.len()
    }
}

/// The values of an opening, in the order of its request.
#[derive(Drop)]
pub struct OpeningEvals<EF> {
    /// The values at the point.
    pub current: Row<EF>,
    /// The values through the successor map there.
    pub next: Row<EF>,
}

impl<EF: Copy> OpeningEvals<EF> {
    /// The same values, in memory of their own.
    pub fn copy(&self, alloc: Global) -> Result<Self, NoMemory>
        ensures current { IfOk result (λ v. v.current ≡ self.now.current) }
        ensures next { IfOk result (λ v. v.next ≡ self.now.next) }
    {
        let current = Vec::from_slice(alloc, self.current.as_slice())?;
        let next = Vec::from_slice(alloc, self.next.as_slice())?;
        Ok(OpeningEvals::new(current, next))
    }
}

impl<EF> OpeningEvals<EF> {
    /// The values of these lists.
    pub fn new(current: Vec<EF>, next: Vec<EF>) -> Self
        ensures current { result.current ≡ current.items }
        ensures next { result.next ≡ next.items }
    {
        OpeningEvals {
            current: Row::new(current),
            next: Row::new(next),
        }
    }

    /// How many values there are, of fewer than 2^64.
    pub fn len(&self) -> usize
        requires few { length self.now.current + length self.now.next < 2 ^ 64 }
        ensures { result ≡ length self.now.current + length self.now.next }
    {
        self.current.len() + self.next.len()
    }
}
