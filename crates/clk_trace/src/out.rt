//! The way of a text to a sink, line by line through a buffer.
ghost use Rattle.std.specs.Prelude.{◌≡◌, ◌+◌, ◌<◌, ◌≤◌, [], ◌∷◌, ◌++◌, true, false, length, map, OnOk, OnErr};
ghost use Rattle.std.specs.List.{sum_by};
ghost use Rattle.clk_base.specs.Causes.{Grew, GrewByPrefix, HasCause};
ghost use Rattle.clk_base.specs.Text.{line};
ghost use Rattle.clk_trace.specs.Taking.{Buffered, Takes, progress_of};
ghost use Rattle.clk_trace.specs.Parts.{part_text, part_room};

use crate::row::Row;
use crate::sink::{Failed, Sink};
use std::marker::Model;

const SIZE: usize = 8192;

/// A write of a text failed, and a beginning of it was written.
#[derive(Clone, Copy, PartialEq, Eq, Debug)]
pub struct WriteFault;

/// A word of a line: a name as it is, or a number in decimal, a negative one with `-` before it.
#[derive(Clone, Copy)]
pub enum Part {
    /// These letters. A reader of the line tells words apart by spaces, so it should have none.
    Name(&'static str),
    /// A number from 0 on.
    Unsigned(u64),
    /// A number of either sign.
    Signed(i64),
    /// A number with its sign changed: 0, or one below it.
    Negated(u64),
}

/// Text on its way to a sink, line by line, through a buffer of 8 KiB that is part of the value: it takes no memory. A
/// failed write is kept, and nothing is written after it, so that a text is formatted with no error exits and `finish`
/// tells how it went. What `finish` was not called for may never reach the sink.
#[derive(Drop)]
pub struct Out {
    waiting: Waiting,
    row: Row,
}

impl Model for Out {
    ghost use Rattle.clk_trace.specs.Taking.{Buffered};

    ghost Value = { Buffered };

    ghost view = { λ o. o.waiting };
}

/// The text that waits for the sink.
#[derive(Drop)]
struct Waiting {
    buf: [u8; SIZE],
    len: usize,
    failed: bool,
}

impl Model for Waiting {
    ghost use Rattle.std.specs.Prelude.{◌≤◌, take};
    ghost use Rattle.clk_trace.specs.Taking.{Buffered};

    ghost Value = { Buffered };

    ghost view = { λ o. record { waiting = take o.len o.buf; failed = o.failed } };

    ghost invariant = { λ o. o.len ≤ 8192 };
}

/// Writes all of the text.
fn write_all<K: Sink>(sink: &mut K, text: &[u8]) -> Result<(), Failed>
    ensures ok { OnOk result (Grew (K.written sink.old) (K.written sink.new) text.now) }
    ensures err { OnErr result (GrewByPrefix (K.written sink.old) (K.written sink.new) text.now) }
    ensures cause { HasCause (K.faults sink.old) (K.faults sink.new) result }
{
    let mut left = text;
    while !left.is_empty() {
        let taken = sink.write(left)?;
        let (_, rest) = left.split_at(taken);
        left = rest;
    }
    Ok(())
}

impl Waiting {
    /// Puts a text behind what waits. There must be room for it.
    fn keep(&mut self, text: &[u8])
        requires { length self.old.waiting + length text.now ≤ 8192 }
        ensures { self.new ≡ record { waiting = self.old.waiting ++ text.now; failed = self.old.failed } }
    {
        let end = self.len + text.len();
        self.buf[self.len..end].copy_from_slice(text);
        self.len = end;
    }

    /// Writes what waits.
    fn flush<K: Sink>(&mut self, sink: &mut K)
        ensures takes { Takes (progress_of K.written K.faults sink.old self.old)
            (progress_of K.written K.faults sink.new self.new) [] }
        ensures empty { self.new.waiting ≡ [] }
    {
        if !self.failed {
            self.failed = write_all(sink, &self.buf[..self.len]).is_err();
        }
        self.len = 0;
    }

    /// Appends a text that fits the buffer.
    fn text<K: Sink>(&mut self, sink: &mut K, text: &[u8])
        requires { length text.now ≤ 8192 }
        ensures { Takes (progress_of K.written K.faults sink.old self.old)
            (progress_of K.written K.faults sink.new self.new) text.now }
    {
        if text.len() > SIZE - self.len {
            self.flush(sink);
        }
        self.keep(text);
    }
}

impl Out {
    /// An empty buffer, with no failed write behind it.
    pub fn new() -> Out
        ensures { result ≡ record { waiting = []; failed = false } }
    {
        Out {
            waiting: Waiting {
                buf: [0; SIZE],
                len: 0,
                failed: false,
            },
            row: Row::new(),
        }
    }

    /// Appends a line of at most 256 bytes: its words, parted by one space each, and a line feed. The sink takes a
    /// beginning of what was appended so far, and the rest waits. Once a write failed, now or before, the text goes
    /// nowhere.
    #[inline(always)]
    pub fn line<K: Sink>(&mut self, sink: &mut K, first: &Part, rest: &[Part])
        requires { part_room first.now + sum_by part_room rest.now < 256 }
        ensures { Takes (progress_of K.written K.faults sink.old self.old)
            (progress_of K.written K.faults sink.new self.new) (line (part_text first.now ∷ map part_text rest.now)) }
    {
        self.row.line(first, rest);
        self.waiting.text(sink, self.row.text());
    }

    /// Writes what still waits; then nothing waits. The error is a write that failed, now or before, and then the sink
    /// took a beginning of the text that was appended since `new`.
    pub fn finish<K: Sink>(&mut self, sink: &mut K) -> Result<(), WriteFault>
        ensures takes { Takes (progress_of K.written K.faults sink.old self.old)
            (progress_of K.written K.faults sink.new self.new) [] }
        ensures ok { OnOk result (self.new ≡ record { waiting = []; failed = false }) }
        ensures err { OnErr result (self.new.failed ≡ true) }
    {
        self.waiting.flush(sink);
        if self.waiting.failed {
            Err(WriteFault)
        } else {
            Ok(())
        }
    }
}
