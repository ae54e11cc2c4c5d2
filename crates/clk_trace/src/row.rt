//! The end of a line, which grows towards its beginning.
ghost use Rattle.std.specs.Prelude.{◌≡◌, ◌+◌, ◌<◌, ◌≤◌, [], ◌∷◌, ◌++◌, length, drop, map, decimal, pos, neg_ℤ};
ghost use Rattle.std.specs.List.{sum_by};
ghost use Rattle.std.specs.Fmt.{signed_decimal};
ghost use Rattle.clk_base.specs.Text.{line};
ghost use Rattle.clk_trace.specs.Parts.{part_text, part_room};

use crate::out::Part;
use itoa::write_digits;
use std::marker::Model;

const SIZE: usize = 256;

/// The end of a line. Digits come last first, so a line that is built from its end has each word where it stays:
/// nothing is moved, and nothing is counted before it is written.
///
/// A contract sees it as its bytes.
#[derive(Drop)]
pub struct Row {
    bytes: [u8; SIZE],
    start: usize,
}

impl Model for Row {
    ghost use Rattle.std.specs.Prelude.{ℕ, List, ◌≤◌, drop};

    ghost Value = { List ℕ };

    ghost view = { λ r. drop r.start r.bytes };

    ghost invariant = { λ r. r.start ≤ 256 };
}

impl Row {
    /// Nothing yet.
    pub fn new() -> Row {
        Row {
            bytes: [0; SIZE],
            start: SIZE,
        }
    }

    /// Makes this the line of these words, whatever it was. It must have room for them.
    #[inline(always)]
    pub fn line(&mut self, first: &Part, rest: &[Part])
        requires { part_room first.now + sum_by part_room rest.now < 256 }
        ensures { self.new ≡ line (part_text first.now ∷ map part_text rest.now) }
    {
        self.clear();
        self.byte(b'\n');
        let mut left = rest.len();
        while left > 0 {
            left -= 1;
            self.part(&rest[left]);
        }
        self.part(first);
        self.trim();
    }

    /// The bytes.
    #[inline(always)]
    pub fn text(&self) -> &[u8]
        ensures text { result.now ≡ self.now }
        ensures short { length result.now ≤ 256 }
    {
        &self.bytes[self.start..]
    }

    #[inline(always)]
    fn clear(&mut self)
        ensures { self.new ≡ [] }
    {
        self.start = SIZE;
    }

    #[inline(always)]
    fn byte(&mut self, byte: u8)
        requires { length self.old < 256 }
        ensures { self.new ≡ byte ∷ self.old }
    {
        self.start -= 1;
        self.bytes[self.start] = byte;
    }

    /// Takes the first byte away.
    #[inline(always)]
    fn trim(&mut self)
        requires { 0 < length self.old }
        ensures { self.new ≡ drop 1 self.old }
    {
        self.start += 1;
    }

    /// Puts a word and the space before it in front.
    #[inline]
    fn part(&mut self, part: &Part)
        requires { length self.old + part_room part.now ≤ 256 }
        ensures text { self.new ≡ 32 ∷ part_text part.now ++ self.old }
        ensures room { length self.new ≤ length self.old + part_room part.now }
    {
        match part {
            Part::Name(name) => self.name(name),
            Part::Unsigned(n) => self.unsigned(*n),
            Part::Signed(n) => self.signed(*n),
            Part::Negated(n) => self.negated(*n),
        }
    }

    // Out of line, so that the loop over a line's words is small enough for LLVM to unroll.
    #[inline(never)]
    fn name(&mut self, name: &str)
        requires { length self.old + length name.now < 256 }
        ensures { self.new ≡ 32 ∷ name.now ++ self.old }
    {
        let end = self.start;
        self.start -= name.len();
        self.bytes[self.start..end].copy_from_slice(name.as_bytes());
        self.byte(b' ');
    }

    #[inline(never)]
    fn unsigned(&mut self, n: u64)
        requires { length self.old + 21 ≤ 256 }
        ensures text { self.new ≡ 32 ∷ decimal n ++ self.old }
        ensures room { length self.new ≤ length self.old + 21 }
    {
        self.digits(n);
        self.byte(b' ');
    }

    #[inline(never)]
    fn signed(&mut self, n: i64)
        requires { length self.old + 22 ≤ 256 }
        ensures text { self.new ≡ 32 ∷ signed_decimal n ++ self.old }
        ensures room { length self.new ≤ length self.old + 22 }
    {
        self.digits(n.unsigned_abs());
        if n < 0 {
            self.byte(b'-');
        }
        self.byte(b' ');
    }

    #[inline(never)]
    fn negated(&mut self, n: u64)
        requires { length self.old + 22 ≤ 256 }
        ensures text { self.new ≡ 32 ∷ signed_decimal (neg_ℤ (pos n)) ++ self.old }
        ensures room { length self.new ≤ length self.old + 22 }
    {
        self.digits(n);
        if n > 0 {
            self.byte(b'-');
        }
        self.byte(b' ');
    }

    #[inline(always)]
    fn digits(&mut self, n: u64)
        requires { length self.old + 20 ≤ 256 }
        ensures text { self.new ≡ decimal n ++ self.old }
        ensures room { length self.new ≤ length self.old + 20 }
    {
        self.start = write_digits(n, &mut self.bytes, self.start);
    }
}
