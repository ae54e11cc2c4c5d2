//! A source that is read to its end.
ghost use Rattle.std.specs.Prelude.{◌≡◌, ◌+◌, ◌<◌, ◌≤◌, length, IfOk, IfErr};
ghost use Rattle.clk_base.specs.Causes.{Rose};
ghost use Rattle.clk_tool.specs.Whole.{Came, CameAtMost, CameMore, TookMore};

use crate::source::Source;
use std::alloc::Global;

/// The most bytes that a source may hold to be read whole.
pub const LIMIT: usize = 1_048_576;

/// Reads a source to its end. It is refused where the source fails, where more than `LIMIT` bytes come, and where
/// memory runs out. A read is not tried again, and no more than one byte past the limit is taken.
pub fn read_whole<S: Source>(alloc: Global, source: &mut S) -> Result<Vec<u8>, ReadRefusal>
    ensures ok { IfOk result (λ bytes. Came LIMIT (S.rest source.old) (S.rest source.new) bytes.items) }
    ensures fault { result ≡ Err ReadRefusal.Fault → Rose (S.faults source.old) (S.faults source.new) }
    ensures long { result ≡ Err ReadRefusal.TooLong → CameMore LIMIT (S.rest source.old) (S.rest source.new) }
    ensures taken { CameAtMost (LIMIT + 1) (S.rest source.old) (S.rest source.new) }
    ensures later { S.faults source.old ≤ S.faults source.new }
{
    let mut bytes = Vec::new(alloc);
    let mut buf = [0; 4096];
    while bytes.len() <= LIMIT {
        // No more than one byte past the limit is taken.
        let room = buf.len().min(LIMIT + 1 - bytes.len());
        if read_more(source, &mut buf, room, &mut bytes)? == 0 {
            return Ok(bytes);
        }
    }
    Err(ReadRefusal::TooLong)
}

/// Why a source was not read whole.
#[derive(Clone, Copy, Debug, PartialEq, Eq)]
pub enum ReadRefusal {
    /// The source failed.
    Fault,
    /// More than `LIMIT` bytes came.
    TooLong,
    /// There was no memory to keep them.
    Memory,
}

// Reads once, at most `room` bytes, and keeps what came. The answer is how many bytes that were.
fn read_more<S: Source>(
    source: &mut S,
    buf: &mut [u8],
    room: usize,
    bytes: &mut Vec<u8>,
) -> Result<usize, ReadRefusal>
    requires some { 0 < room }
    requires room { room ≤ length buf.old }
    ensures within { IfOk result (λ n. n ≤ room) }
    ensures ok { IfOk result (TookMore (S.rest source.old) (S.rest source.new) bytes.old.items bytes.new.items) }
    ensures fault { result ≡ Err ReadRefusal.Fault → Rose (S.faults source.old) (S.faults source.new) }
    ensures bounded { ¬ (result ≡ Err ReadRefusal.TooLong) }
    ensures taken { CameAtMost room (S.rest source.old) (S.rest source.new) }
    ensures later { S.faults source.old ≤ S.faults source.new }
{
    let buf = &mut buf[..room];
    let n = match source.read(buf) {
        Ok(n) => n,
        Err(_) => return Err(ReadRefusal::Fault),
    };
    match bytes.extend_from_slice(&buf[..n]) {
        Ok(()) => Ok(n),
        Err(_) => Err(ReadRefusal::Memory),
    }
}
