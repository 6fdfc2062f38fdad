//! All of a source, and all of some bytes.

ghost use Rattle.std.specs.Prelude.{◌≡◌, ◌≤◌, ◌<◌, ◌+◌, length, IfOk, IfSome, OnOk, OnErr, IsErrOf};
ghost use Rattle.std.specs.Io.KnownBytes.{IsAtEnd};
ghost use Rattle.ae_io.specs.Moves.{Rose, Gets, GetsPrefix, Takes, TakesAtMost};
ghost use Rattle.ae_io.specs.declared.whole.ReadEnd.TheVariants.{ReadFault, TooLong, Memory};

use crate::traits::{Failed, Sink, Source};
use std::alloc::{AllocError, Global};

// The most bytes that one read asks for.
const CHUNK: usize = 4096;

/// Why reading ended early.
#[derive(Clone, Copy, Debug, PartialEq, Eq, thiserror::Error)]
pub enum ReadEnd {
    /// A read failed.
    #[error("a read failed")]
    ReadFault,
    /// There are more bytes than the limit.
    #[error("the input is too long")]
    TooLong,
    /// There was no memory for the bytes.
    #[error("no memory")]
    Memory,
}

impl From<Failed> for ReadEnd {
    ghost from_gives = { λ _ e. e ≡ ReadFault };

    fn from(_failed: Failed) -> ReadEnd {
        ReadEnd::ReadFault
    }
}

impl From<AllocError> for ReadEnd {
    ghost from_gives = { λ _ e. e ≡ Memory };

    fn from(_refused: AllocError) -> ReadEnd {
        ReadEnd::Memory
    }
}

/// Why writing ended early.
#[derive(Clone, Copy, Debug, PartialEq, Eq, thiserror::Error)]
pub enum WriteEnd {
    /// A write failed.
    #[error("a write failed")]
    WriteFault,
}

/// Reads to the end, at most `limit` bytes.
///
/// `ReadFault` comes only where a read failed, `TooLong` exactly where one byte more than `limit`
/// was got, and no more is read then. Each turn takes at least one byte, ends the reading or fails:
/// a read that gave no byte is the last one, which found the end or failed.
pub fn read_all<S: Source>(alloc: Global, source: &mut S, limit: usize) -> Result<Vec<u8>, ReadEnd>
    ensures whole { IfOk result (λ v. IfSome (S.left source.old) (λ xs. v.items ≡ xs)) }
    ensures end { OnOk result (IsAtEnd (S.left source.new)) }
    ensures within { IfOk result (λ v. length v.items ≤ limit) }

    ensures fault { IsErrOf result ReadFault → Rose (S.faults source.old) (S.faults source.new) }
    ensures fault_within { IsErrOf result ReadFault → TakesAtMost (S.left source.old) (S.left source.new) limit }
    ensures long { IsErrOf result TooLong → Takes (S.left source.old) (S.left source.new) (limit + 1) }
    ensures longer { IsErrOf result TooLong → IfSome (S.left source.old) (λ xs. limit < length xs) }
    ensures memory_within { IsErrOf result Memory → TakesAtMost (S.left source.old) (S.left source.new) (limit + 1) }

    ensures later { S.faults source.old ≤ S.faults source.new }
    ensures turns { IfOk result (λ v. S.calls source.new ≤ S.calls source.old + length v.items + 1) }
    ensures turns_at_most { S.calls source.new ≤ S.calls source.old + limit + 1 }
    ensures idle { S.idle source.new ≤ S.idle source.old + 1 }
    ensures idle_long { IsErrOf result TooLong → S.idle source.new ≤ S.idle source.old }
    ensures idle_memory { IsErrOf result Memory → S.idle source.new ≤ S.idle source.old }
{
    let mut bytes = Vec::new(alloc);
    let mut chunk = [0u8; CHUNK];
    while bytes.len() <= limit {
        let room = (limit - bytes.len()).min(CHUNK - 1) + 1;
        let count = source.read(&mut chunk[..room])?;
        if count == 0 {
            return Ok(bytes);
        }
        bytes.extend_from_slice(&chunk[..count])?;
    }
    Err(ReadEnd::TooLong)
}

/// Writes all of some bytes, and takes no memory.
///
/// `WriteFault` comes only where a write failed or took nothing. Then the first of the bytes were
/// written, and not all of them.
pub fn write_all<K: Sink>(sink: &mut K, bytes: &[u8]) -> Result<(), WriteEnd>
    ensures whole { OnOk result (Gets (K.written sink.old) (K.written sink.new) bytes.now) }
    ensures part { OnErr result (GetsPrefix (K.written sink.old) (K.written sink.new) bytes.now) }
    ensures fault { OnErr result (Rose (K.faults sink.old) (K.faults sink.new)) }
    ensures later { K.faults sink.old ≤ K.faults sink.new }
    ensures turns { K.calls sink.new ≤ K.calls sink.old + length bytes.now }
{
    let mut done = 0;
    while done < bytes.len() {
        let Ok(count) = sink.write(&bytes[done..]) else {
            return Err(WriteEnd::WriteFault);
        };
        if count == 0 {
            return Err(WriteEnd::WriteFault);
        }
        done += count;
    }
    Ok(())
}
