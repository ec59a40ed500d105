// Sources and a sink in memory.
ghost use Rattle.std.specs.Prelude.{◌≡◌, ◌≤◌, ◌<◌, ◌-◌, ◌↔◌, ◌⊎◌, ◌++◌, List, ℕ, Option, Some, [], length, min, take, vec_len, vec_capacity, Contains, IsTrue, IsErr, IfOk, OnErr};
ghost use Rattle.std.specs.Io.{ReadsAtMost, WritesAtMost};
ghost use Rattle.std.specs.Io.KnownBytes.{ReadConsumes, WriteAppends};
ghost use Rattle.sc_streams.specs.Faults.{Counts, raised};

use crate::stream::count_fault;
use crate::{Failed, Sink, Source};
use sc_memory::{NoMemory, with_room};
use std::alloc::Global;

/// Bytes in memory, whose reads never fail.
#[derive(Drop)]
pub struct PlainSource {
    pub(crate) bytes: Vec<u8>,
    pub(crate) at: usize,
    ghost in_range: { at ≤ vec_len bytes },
}

/// Bytes in memory, with a fault at each of the listed calls, which are counted from 0.
#[derive(Drop)]
pub struct MemSource {
    pub(crate) plain: PlainSource,
    pub(crate) fails: Vec<u64>,
    pub(crate) calls: u64,
    pub(crate) faults: u64,
}

/// A sink of a fixed capacity in bytes, with a fault at each of the listed calls, which are counted
/// from 0, and at each call that finds no room for a byte.
#[derive(Drop)]
pub struct MemSink {
    pub(crate) bytes: Vec<u8>,
    pub(crate) capacity: usize,
    pub(crate) fails: Vec<u64>,
    pub(crate) calls: u64,
    pub(crate) faults: u64,
    ghost within: { vec_len bytes ≤ capacity },
    ghost reserved: { capacity ≤ vec_capacity bytes },
}

// Copies the first bytes of `from` to the front of `into`, as many as fit, and says how many.
fn copy_front(from: &[u8], into: &mut [u8]) -> usize
    ensures count { result ≡ min (length from.now) (length into.old) }
    ensures copied { take result into.new ≡ take result from.now }
{
    let n = from.len().min(into.len());
    into[..n].copy_from_slice(&from[..n]);
    n
}

// Whether the call is one of those that are to fail.
fn is_listed(fails: &[u64], call: u64) -> bool
    ensures { IsTrue result ↔ Contains fails.now call }
{
    fails.contains(&call)
}

impl PlainSource {
    ghost use Rattle.sc_streams.specs.Memory.{plain_left};

    /// A source of these bytes.
    pub fn new(bytes: Vec<u8>) -> Self
        ensures { plain_left result ≡ bytes.items }
    {
        PlainSource { bytes, at: 0 }
    }

    // Moves as many bytes to the front of the piece as fit, and says how many.
    fn move_into(&mut self, into: &mut [u8]) -> usize
        ensures count { result ≡ min (length (plain_left self.old)) (length into.old) }
        ensures moved { plain_left self.old ≡ take result into.new ++ plain_left self.new }
    {
        let n = copy_front(&self.bytes[self.at..], into);
        self.at += n;
        n
    }
}

impl Source for PlainSource {
    ghost use Rattle.sc_streams.specs.Memory.{plain_left};

    ghost left = { λ s. Some (plain_left s) };

    ghost faults = { λ s. 0 };

    fn read(&mut self, into: &mut [u8]) -> Result<usize, Failed> {
        Ok(self.move_into(into))
    }
}

impl MemSource {
    ghost use Rattle.sc_streams.specs.Memory.{source_left, source_fails, source_calls, source_faults};

    /// A source of these bytes that fails at the listed calls.
    pub fn new(bytes: Vec<u8>, fails: Vec<u64>) -> Self
        ensures left { source_left result ≡ bytes.items }
        ensures fails { source_fails result ≡ fails.items }
        ensures calls { source_calls result ≡ 0 }
        ensures faults { source_faults result ≡ 0 }
    {
        MemSource {
            plain: PlainSource::new(bytes),
            fails,
            calls: 0,
            faults: 0,
        }
    }

    /// How often it was read, faults included.
    pub fn calls(&self) -> u64
        ensures { result ≡ source_calls self.now }
    {
        self.calls
    }
}

impl Source for MemSource {
    ghost use Rattle.sc_streams.specs.Memory.{source_left, source_fails, source_calls, source_faults};

    ghost left = { λ s. Some (source_left s) };

    ghost faults = { λ s. source_faults s };

    /// It fails exactly at the listed calls. Any other call fills the piece, or moves all that is left.
    fn read(&mut self, into: &mut [u8]) -> Result<usize, Failed>
        ensures bound { ReadsAtMost result into.new }
        ensures bytes { ReadConsumes (Some (source_left self.old)) (Some (source_left self.new)) result into.new }
        ensures faults { Counts (source_faults self.old) (source_faults self.new) result }

        ensures fails { IsErr result ↔ Contains (source_fails self.old) (source_calls self.old) }
        ensures count { IfOk result (λ n. n ≡ min (length (source_left self.old)) (length into.old)) }
        ensures raised { OnErr result (source_faults self.new ≡ raised (source_faults self.old)) }
        ensures calls { source_calls self.new ≡ raised (source_calls self.old) }
        ensures listed { source_fails self.new ≡ source_fails self.old }
    {
        let call = self.calls;
        self.calls = call.saturating_add(1);
        if is_listed(&self.fails, call) {
            return Err(count_fault(&mut self.faults));
        }
        Ok(self.plain.move_into(into))
    }
}

impl MemSink {
    ghost use Rattle.sc_streams.specs.Memory.{sink_bytes, sink_capacity, sink_fails, sink_calls, sink_faults};

    /// An empty sink for at most `capacity` bytes that fails at the listed calls. The memory for all of
    /// them is taken here, and the error is want of it.
    pub fn new(alloc: Global, capacity: usize, fails: Vec<u64>) -> Result<MemSink, NoMemory>
        ensures empty { IfOk result (λ s. sink_bytes s ≡ []) }
        ensures capacity { IfOk result (λ s. sink_capacity s ≡ capacity) }
        ensures fails { IfOk result (λ s. sink_fails s ≡ fails.items) }
        ensures calls { IfOk result (λ s. sink_calls s ≡ 0) }
        ensures faults { IfOk result (λ s. sink_faults s ≡ 0) }
    {
        Ok(MemSink {
            bytes: with_room(alloc, capacity)?,
            capacity,
            fails,
            calls: 0,
            faults: 0,
        })
    }

    /// The bytes that were taken.
    pub fn bytes(&self) -> &[u8]
        ensures { result.now ≡ sink_bytes self.now }
    {
        &self.bytes
    }

    /// How often it was written to, faults included.
    pub fn calls(&self) -> u64
        ensures { result ≡ sink_calls self.now }
    {
        self.calls
    }
}

impl Sink for MemSink {
    ghost use Rattle.sc_streams.specs.Memory.{sink_bytes, sink_capacity, sink_room, sink_fails, sink_calls, sink_faults};

    ghost taken = { λ s. Some (sink_bytes s) };

    ghost faults = { λ s. sink_faults s };

    /// It fails exactly at the listed calls, and where there is no room for a byte of the piece. Any other
    /// call takes as much of the piece as there is room for.
    fn write(&mut self, from: &[u8]) -> Result<usize, Failed>
        ensures bound { WritesAtMost result from.now }
        ensures bytes { WriteAppends (Some (sink_bytes self.old)) (Some (sink_bytes self.new)) result from.now }
        ensures progress { IfOk result (λ n. 0 < length from.now → 0 < n) }
        ensures faults { Counts (sink_faults self.old) (sink_faults self.new) result }

        ensures fails { IsErr result ↔ (Contains (sink_fails self.old) (sink_calls self.old)
            ⊎ ((sink_room self.old ≡ 0) × (0 < length from.now))) }
        ensures count { IfOk result (λ n. n ≡ min (length from.now) (sink_room self.old)) }
        ensures raised { OnErr result (sink_faults self.new ≡ raised (sink_faults self.old)) }
        ensures calls { sink_calls self.new ≡ raised (sink_calls self.old) }
        ensures capacity { sink_capacity self.new ≡ sink_capacity self.old }
        ensures listed { sink_fails self.new ≡ sink_fails self.old }
    {
        let call = self.calls;
        self.calls = call.saturating_add(1);
        let n = from.len().min(self.capacity - self.bytes.len());
        let is_full = n == 0 && !from.is_empty();
        if is_full
            || is_listed(&self.fails, call)
            || self.bytes.extend_from_slice(&from[..n]).is_err()
        {
            return Err(count_fault(&mut self.faults));
        }
        Ok(n)
    }
}
