//! Sources and sinks of bytes that count their faults.
//!
//! A program reads its input from a [`Source`] and writes its text to a [`Sink`]. Both are traits whose
//! contracts say which bytes moved and that no fault is told without being counted, so that a program
//! over them can be proved once, for the standard streams and for bytes in memory alike.
#![tactic(auto)]

mod all;
mod memory;
mod standard;
mod stream;
#[cfg(test)]
mod tests;

pub use all::{ReadFault, read_all, write_all};
pub use memory::{MemSink, MemSource, PlainSource};
pub use standard::{StdSink, StdSource};
pub use stream::{Failed, Sink, Source};
