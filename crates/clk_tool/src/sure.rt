//! A source and a sink in memory that never fail.
ghost use Rattle.std.specs.Prelude.{◌≡◌, ◌-◌, ◌≤◌, min, false, ◌||◌, nat_lt, ◌++◌, length, take, drop, Some};
ghost use Rattle.std.specs.Io.{ReadsAtMost};
ghost use Rattle.std.specs.Io.KnownBytes.{ReadConsumes};
ghost use Rattle.clk_base.specs.Causes.{HasCause, Wrote};
ghost use Rattle.clk_tool.specs.Ends.{told};

use crate::source::Source;
use clk_num::List;
use clk_trace::{Failed, Sink};
use std::marker::Model;

/// A source over bytes in memory that never fails. A contract sees the bytes that it has left.
#[derive(Drop)]
pub struct SureSource {
    bytes: List<u8>,
    given: usize,
}

impl SureSource {
    /// A source of these bytes.
    pub fn new(bytes: List<u8>) -> SureSource
        ensures { result ≡ bytes.items }
    {
        SureSource { bytes, given: 0 }
    }

    // Gives as many bytes as it has left and `buf` has room for, and at most `most`.
    pub(crate) fn give(&mut self, buf: &mut [u8], most: usize) -> usize
        ensures count { result ≡ min most (min (length self.old) (length buf.old)) }
        ensures given { take result buf.new ≡ take result self.old }
        ensures left { self.new ≡ drop result self.old }
    {
        let (_, left) = self.bytes.items().split_at(self.given);
        let n = copy_front(left, buf, most);
        self.given += n;
        n
    }
}

impl Source for SureSource {
    ghost rest = { λ s. Some s };

    ghost faults = { λ _. 0 };

    fn read(&mut self, buf: &mut [u8]) -> Result<usize, Failed>
        ensures bound { ReadsAtMost result buf.new }
        ensures bytes { ReadConsumes (Some self.old) (Some self.new) result buf.new }
        ensures cause { HasCause 0 0 result }
        ensures count { result ≡ Ok (min (length self.old) (length buf.old)) }
    {
        let room = buf.len();
        Ok(self.give(buf, room))
    }
}

/// A sink into memory that never fails: it keeps what fits, and takes and drops the rest. It tells its bytes as long as
/// all of them fitted.
#[derive(Drop)]
pub struct SureSink {
    bytes: List<u8>,
    full: bool,
}

impl Model for SureSink {
    ghost use Rattle.clk_tool.specs.Ends.{SureSinkState};

    ghost Value = { SureSinkState };

    ghost view = { λ s. record { bytes = s.bytes.items; room = s.bytes.room; full = s.full } };
}

// Appends bytes that fit the list's room.
pub(crate) fn append(list: &mut List<u8>, bytes: &[u8])
    requires { length bytes.now ≤ list.old.room }
    ensures items { list.new.items ≡ list.old.items ++ bytes.now }
    ensures room { list.new.room ≡ list.old.room - length bytes.now }
{
    for byte in bytes {
        list.push(*byte);
    }
}

impl SureSink {
    /// A sink that appends to these bytes, within the list's room.
    pub fn new(bytes: List<u8>) -> SureSink
        ensures bytes { result.bytes ≡ bytes.items }
        ensures room { result.room ≡ bytes.room }
        ensures full { result.full ≡ false }
    {
        SureSink { bytes, full: false }
    }

    /// The bytes that it keeps.
    pub fn bytes(&self) -> &List<u8>
        ensures items { result.now.items ≡ self.now.bytes }
        ensures room { result.now.room ≡ self.now.room }
    {
        &self.bytes
    }
}

impl Sink for SureSink {
    ghost written = { told };

    ghost faults = { λ _. 0 };

    fn write(&mut self, piece: &[u8]) -> Result<usize, Failed>
        ensures bytes { Wrote (told self.old) (told self.new) result piece.now }
        ensures cause { HasCause 0 0 result }
        ensures count { result ≡ Ok (length piece.now) }
        ensures kept { self.new.bytes ≡ self.old.bytes ++ take self.old.room piece.now }
        ensures room { self.new.room ≡ self.old.room - length piece.now }
        ensures full { self.new.full ≡ (self.old.full || nat_lt self.old.room (length piece.now)) }
    {
        let kept = piece.len().min(self.bytes.room());
        append(&mut self.bytes, &piece[..kept]);
        if kept < piece.len() {
            self.full = true;
        }
        Ok(piece.len())
    }
}

impl Model for SureSource {
    ghost use Rattle.std.specs.Prelude.{ℕ, List, length, drop, ◌≤◌};

    ghost Value = { List ℕ };

    ghost view = { λ s. drop s.given s.bytes.items };

    ghost invariant = { λ s. s.given ≤ length s.bytes.items };
}

// Copies the first bytes of `from` to the front of `to`, as many as both have and at most `most`.
fn copy_front(from: &[u8], to: &mut [u8], most: usize) -> usize
    ensures count { result ≡ min most (min (length from.now) (length to.old)) }
    ensures copied { to.new ≡ take result from.now ++ drop result to.old }
{
    let n = most.min(from.len().min(to.len()));
    to[..n].copy_from_slice(&from[..n]);
    n
}
