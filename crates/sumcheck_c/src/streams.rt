//! A source and a sink over the memory of a call.
ghost use Rattle.std.specs.Prelude.{◌≡◌, [], Some};

use std::alloc::Global;
use sumcheck_run::{Failed, Sink, Source};

/// The bytes of a job, as they lie in the caller's memory. Reads never fail.
#[derive(Drop)]
pub(crate) struct JobSource<'a> {
    pub(crate) rest: &'a [u8],
}

/// A text that grows as it is written. A write fails where there is no memory for it.
#[derive(Drop)]
pub(crate) struct TextSink {
    pub(crate) text: Vec<u8>,
    pub(crate) faults: u64,
}

impl<'a> Source for JobSource<'a> {
    ghost left = { λ s. Some s.rest.now };

    ghost faults = { λ s. 0 };

    fn read(&mut self, into: &mut [u8]) -> Result<usize, Failed> {
        let n = self.rest.len().min(into.len());
        into[..n].copy_from_slice(&self.rest[..n]);
        self.rest = &self.rest[n..];
        Ok(n)
    }
}

impl TextSink {
    /// An empty text.
    pub(crate) fn new(alloc: Global) -> TextSink
        ensures empty { result.text.items ≡ [] }
        ensures faults { result.faults ≡ 0 }
    {
        TextSink {
            text: Vec::new(alloc),
            faults: 0,
        }
    }
}

impl Sink for TextSink {
    ghost taken = { λ s. Some s.text.items };

    ghost faults = { λ s. s.faults };

    fn write(&mut self, from: &[u8]) -> Result<usize, Failed> {
        if self.text.extend_from_slice(from).is_err() {
            self.faults = self.faults.saturating_add(1);
            return Err(Failed);
        }
        Ok(from.len())
    }
}
