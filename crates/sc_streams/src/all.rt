// Whole inputs and whole texts.
ghost use Rattle.std.specs.Prelude.{◌≡◌, ◌≤◌, ◌<◌, ◌+◌, ◌^◌, ℕ, List, length, take, IfOk, OnOk, OnErr, IsErrOf};
ghost use Rattle.std.specs.Io.KnownBytes.{Appends, Consumes, IsAtEnd};
ghost use Rattle.sc_streams.specs.Faults.{HasRisen, Counts};

use crate::{Failed, Sink, Source};
use std::alloc::Global;
use thiserror::Error;

// The most bytes that one read asks for.
const PIECE: usize = 65_536;

/// Why an input was not read.
#[derive(Clone, Copy, Debug, PartialEq, Eq, Error)]
pub enum ReadFault {
    /// The source failed, and has counted it.
    #[error("a read failed")]
    Failed,
    /// There was no memory for the bytes.
    #[error("out of memory")]
    NoMemory,
}

/// Reads all bytes, where there are at most `limit`, and else the first `limit + 1`: that many are what
/// tells a caller that the input is longer. It reads no byte more, and nothing once a read gave nothing.
/// After an error the source has lost those bytes that were read before it.
pub fn read_all<S: Source>(
    alloc: Global,
    source: &mut S,
    limit: usize,
) -> Result<Vec<u8>, ReadFault>
    requires { limit < 2 ^ 48 }
    ensures bytes { IfOk result (λ v. Consumes (S.left source.old) (S.left source.new) v.items) }
    ensures size { IfOk result (λ v. length v.items ≤ limit + 1) }
    ensures whole { IfOk result (λ v. length v.items ≤ limit → IsAtEnd (S.left source.new)) }
    ensures lost { OnErr result ((xs : List ℕ) × (length xs ≤ limit + 1)
        × Consumes (S.left source.old) (S.left source.new) xs) }

    // However many bytes the source has, at most `limit + 1` are read, and at most one read gives none.
    ensures given { S.given source.new ≤ S.given source.old + (limit + 1) }
    ensures dry { S.dry source.new ≤ S.dry source.old + 1 }

    // Nothing is read once the source told a fault.
    ensures late { S.late source.new (S.faults source.old) ≤ S.late source.old (S.faults source.old) }

    // `Failed` is told exactly where the source told a fault.
    ensures failed { IsErrOf result ReadFault.Failed → HasRisen (S.faults source.old) (S.faults source.new) }
    ensures quiet { ¬ IsErrOf result ReadFault.Failed → S.faults source.new ≡ S.faults source.old }
{
    let mut bytes = Vec::new(alloc);
    let mut piece = [0u8; PIECE];
    'pieces: while bytes.len() <= limit {
        let room = (limit - bytes.len() + 1).min(PIECE);
        let Ok(n) = source.read(&mut piece[..room]) else {
            return Err(ReadFault::Failed);
        };
        if n == 0 {
            return Ok(bytes);
        }
        if bytes.extend_from_slice(&piece[..n]).is_err() {
            return Err(ReadFault::NoMemory);
        }
    }
    Ok(bytes)
}

/// Writes a whole text. It stops at the first fault, writes nothing more, and the sink has then taken a
/// proper prefix of the text.
pub fn write_all<K: Sink>(sink: &mut K, text: &[u8]) -> Result<(), Failed>
    ensures ok { OnOk result (Appends (K.taken sink.old) (K.taken sink.new) text.now) }
    ensures err { OnErr result ((n : ℕ) × (n < length text.now)
        × Appends (K.taken sink.old) (K.taken sink.new) (take n text.now)) }
    ensures late { K.late sink.new (K.faults sink.old) ≤ K.late sink.old (K.faults sink.old) }
    ensures faults { Counts (K.faults sink.old) (K.faults sink.new) result }
{
    let mut done = 0;
    'pieces: while done < text.len() {
        done += sink.write(&text[done..])?;
    }
    Ok(())
}
