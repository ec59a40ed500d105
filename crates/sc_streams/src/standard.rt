// A source and a sink over the standard library's traits.
ghost use Rattle.std.specs.Prelude.{◌≡◌};

use crate::stream::count_fault;
use crate::{Failed, Sink, Source};
use std::io::{ErrorKind, Read, Write};

// How often an interrupted call is tried again before it counts as a fault.
const REPEATS: u32 = 1024;

/// A reader as a source. It tells the bytes that the reader tells. A call that is interrupted is tried
/// again, 1,024 times in a row at most; an interruption after those, or any other error, is a fault.
#[derive(Drop)]
pub struct StdSource<I: Read> {
    pub(crate) reader: I,
    pub(crate) faults: u64,
}

/// A writer as a sink. It tells the bytes that the writer tells. A call that is interrupted is tried
/// again, 1,024 times in a row at most; an interruption after those, or any other error, is a fault, and
/// so is a call that takes nothing of a piece that is not empty.
#[derive(Drop)]
pub struct StdSink<W: Write> {
    pub(crate) writer: W,
    pub(crate) faults: u64,
}

impl<I: Read> StdSource<I> {
    /// The reader as a source, with no fault counted.
    pub fn new(reader: I) -> Self
        ensures left { ⟦<StdSource<I> as Source>⟧.left result ≡ I.remaining reader }
        ensures faults { ⟦<StdSource<I> as Source>⟧.faults result ≡ 0 }
    {
        StdSource { reader, faults: 0 }
    }
}

impl<I: Read> Source for StdSource<I> {
    ghost left = { λ s. I.remaining s.reader };

    ghost faults = { λ s. s.faults };

    fn read(&mut self, into: &mut [u8]) -> Result<usize, Failed> {
        for _try in 0..=REPEATS {
            match self.reader.read(into) {
                Ok(n) => return Ok(n),
                Err(e) => {
                    if e.kind() != ErrorKind::Interrupted {
                        break;
                    }
                }
            }
        }
        Err(count_fault(&mut self.faults))
    }
}

impl<W: Write> StdSink<W> {
    /// The writer as a sink, with no fault counted.
    pub fn new(writer: W) -> Self
        ensures taken { ⟦<StdSink<W> as Sink>⟧.taken result ≡ W.contents writer }
        ensures faults { ⟦<StdSink<W> as Sink>⟧.faults result ≡ 0 }
    {
        StdSink { writer, faults: 0 }
    }
}

impl<W: Write> Sink for StdSink<W> {
    ghost taken = { λ s. W.contents s.writer };

    ghost faults = { λ s. s.faults };

    fn write(&mut self, from: &[u8]) -> Result<usize, Failed> {
        for _try in 0..=REPEATS {
            match self.writer.write(from) {
                Ok(n) => {
                    if n == 0 && !from.is_empty() {
                        break;
                    }
                    return Ok(n);
                }
                Err(e) => {
                    if e.kind() != ErrorKind::Interrupted {
                        break;
                    }
                }
            }
        }
        Err(count_fault(&mut self.faults))
    }
}
