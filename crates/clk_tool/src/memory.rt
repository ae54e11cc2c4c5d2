//! A source and a sink in memory, which fail where they are told to.
ghost use Rattle.std.specs.Prelude.{◌≡◌, ◌-◌, ◌<◌, min, length, Some, IfOk, OnErr, is_err};
ghost use Rattle.std.specs.Io.{ReadsAtMost};
ghost use Rattle.std.specs.Io.KnownBytes.{ReadConsumes};
ghost use Rattle.clk_base.specs.Causes.{HasCause, Wrote};
ghost use Rattle.clk_tool.specs.Failures.{fresh, fails_next, after_call};
ghost use Rattle.clk_tool.specs.Ends.{refuses};

use crate::failures::FailurePlan;
use crate::source::Source;
use crate::sure::{SureSource, append};
use clk_num::List;
use clk_trace::{Failed, Sink};
use std::marker::Model;

/// A source over bytes in memory that gives them in pieces, and fails at the calls that it is told to.
#[derive(Drop)]
pub struct MemSource {
    left: SureSource,
    plan: FailurePlan,
}

impl Model for MemSource {
    ghost use Rattle.clk_tool.specs.Ends.{MemSourceState};

    ghost Value = { MemSourceState };

    ghost view = { λ s. record { left = s.left; plan = s.plan } };
}

impl MemSource {
    /// A source of these bytes, at most `piece` in a call. Calls are numbered from 1, and those whose number is in
    /// `fails` fail. `piece` is above 0.
    pub fn new(bytes: List<u8>, piece: usize, fails: List<u64>) -> MemSource
        requires { 0 < piece }
        ensures left { result.left ≡ bytes.items }
        ensures plan { result.plan ≡ fresh piece fails.items }
    {
        MemSource {
            left: SureSource::new(bytes),
            plan: FailurePlan::new(piece, fails),
        }
    }

    /// How many calls failed.
    pub fn faults(&self) -> u64
        ensures { result ≡ self.now.plan.faults }
    {
        self.plan.faults()
    }
}

impl Source for MemSource {
    ghost rest = { λ s. Some s.left };

    ghost faults = { λ s. s.plan.faults };

    fn read(&mut self, buf: &mut [u8]) -> Result<usize, Failed>
        ensures bound { ReadsAtMost result buf.new }
        ensures bytes { ReadConsumes (Some self.old.left) (Some self.new.left) result buf.new }
        ensures cause { HasCause self.old.plan.faults self.new.plan.faults result }

        ensures fails { is_err result ≡ fails_next self.old.plan }
        ensures count { IfOk result (λ n. n ≡ min self.old.plan.piece (min (length self.old.left) (length buf.old))) }
        ensures plan { self.new.plan ≡ after_call (fails_next self.old.plan) self.old.plan }
    {
        self.plan.call()?;
        let piece = self.plan.piece();
        Ok(self.left.give(buf, piece))
    }
}

/// A sink into memory that takes bytes in pieces within the room of its list, and fails at the calls that it is told to
/// and where the room is used up.
#[derive(Drop)]
pub struct MemSink {
    bytes: List<u8>,
    plan: FailurePlan,
}

impl Model for MemSink {
    ghost use Rattle.clk_tool.specs.Ends.{MemSinkState};

    ghost Value = { MemSinkState };

    ghost view = { λ s. record { bytes = s.bytes.items; room = s.bytes.room; plan = s.plan } };
}

impl MemSink {
    /// A sink that appends to these bytes, within the list's room and at most `piece` in a call. Calls are numbered
    /// from 1, and those whose number is in `fails` fail. `piece` is above 0.
    pub fn new(bytes: List<u8>, piece: usize, fails: List<u64>) -> MemSink
        requires { 0 < piece }
        ensures bytes { result.bytes ≡ bytes.items }
        ensures room { result.room ≡ bytes.room }
        ensures plan { result.plan ≡ fresh piece fails.items }
    {
        MemSink {
            bytes,
            plan: FailurePlan::new(piece, fails),
        }
    }

    /// The bytes that it keeps.
    pub fn bytes(&self) -> &List<u8>
        ensures items { result.now.items ≡ self.now.bytes }
        ensures room { result.now.room ≡ self.now.room }
    {
        &self.bytes
    }

    /// How many calls failed.
    pub fn faults(&self) -> u64
        ensures { result ≡ self.now.plan.faults }
    {
        self.plan.faults()
    }
}

impl Sink for MemSink {
    ghost written = { λ s. Some s.bytes };

    ghost faults = { λ s. s.plan.faults };

    fn write(&mut self, piece: &[u8]) -> Result<usize, Failed>
        ensures bytes { Wrote (Some self.old.bytes) (Some self.new.bytes) result piece.now }
        ensures cause { HasCause self.old.plan.faults self.new.plan.faults result }

        ensures fails { is_err result ≡ refuses self.old piece.now }
        ensures count { IfOk result (λ n. n ≡ min self.old.plan.piece (min (length piece.now) self.old.room)) }
        ensures plan { self.new.plan ≡ after_call (refuses self.old piece.now) self.old.plan }
        ensures room { IfOk result (λ n. self.new.room ≡ self.old.room - n) }
        ensures kept { OnErr result (self.new.room ≡ self.old.room) }
    {
        self.plan.call()?;
        let n = self.plan.piece().min(piece.len().min(self.bytes.room()));
        if n == 0 && !piece.is_empty() {
            return Err(self.plan.fault());
        }
        append(&mut self.bytes, &piece[..n]);
        Ok(n)
    }
}
