//! The watchdog of a run.
ghost use Rattle.std.specs.Prelude.{◌≡◌, ◌+◌, ◌<◌, Some};
ghost use Rattle.clk_record.specs.Watching.{checks_asked};
ghost use Rattle.clk_watcher.specs.Making.{Begins, BelongsTo, WentOn, RanAll, MakesCheck};

use crate::calls::make_at;
use crate::numbers::checks;
use crate::parts::WatchParts;
use clk_lawful::WatchTrace;
use clk_machine::Gate;
use clk_worker::Shared;
use std::marker::Model;

/// The watchdog of a run: its parts, the number of its next check, and what it keeps.
///
/// Contracts see a `Hand` of it, and `IsGoing` ties how it is to how it was made (`specs/Making.antt`).
#[derive(Drop)]
pub struct Watcher {
    // The parts, which a check takes out and puts back.
    parts: Option<WatchParts>,
    // The number of its next check.
    next: u32,
    // Whether the clock is stable by what it did.
    stable: bool,
    trace: WatchTrace,
}

impl Model for Watcher {
    ghost use Rattle.std.specs.Prelude.{IsTrue, is_some};
    ghost use Rattle.clk_watcher.specs.Making.{Hand};

    ghost Value = { Hand };

    ghost view = { λ w. record { parts = w.parts; next = w.next; stable = w.stable; trace = w.trace } };

    ghost invariant = { λ w. IsTrue (is_some w.parts) };
}

impl Watcher {
    /// The watcher on these parts, which keeps what it finds in these lists, and has made no check. `stable` says
    /// whether the clock is stable. It goes on with what the parts belong to, if they have the tickets of all checks,
    /// the lists are empty with room for an item of each check and a lift of each CPU, and, where the clock is stable,
    /// the parts may stamp and demote it.
    pub fn new(parts: WatchParts, trace: WatchTrace, stable: bool) -> Watcher
        ensures hand { result ≡ record { parts = Some parts; next = 0; stable = stable; trace = trace } }
        ensures begins { Begins parts trace stable result }
    {
        Watcher {
            parts: Some(parts),
            next: 0,
            stable,
            trace,
        }
    }

    /// The watchdog's thread number.
    pub fn thread(&self) -> u32
        ensures { result ≡ self.now.trace.thread }
    {
        self.trace.thread
    }

    /// What it keeps so far.
    pub fn trace(&self) -> &WatchTrace
        ensures { result.now ≡ self.now.trace }
    {
        &self.trace
    }

    /// Makes the check of this number, counted from 0, which is its next one. It first passes the gate, which is given
    /// no reading, and then appends what the check finds.
    pub fn check<G: Gate>(&mut self, shared: &Shared, number: u32, gate: &G)
        requires shared { BelongsTo shared.now self.old }
        requires next { number ≡ self.old.next }
        requires within { number < checks_asked shared.now.machine.watchdog }
        ensures { MakesCheck shared.now number self.old self.new }
    {
        gate.pass(self.trace.thread, number, 0);
        self.make(shared, number);
    }

    /// Makes all checks that are left, each as `check` does.
    pub fn run<G: Gate>(&mut self, shared: &Shared, gate: &G)
        requires shared { BelongsTo shared.now self.old }
        ensures next { self.new.next ≡ checks_asked shared.now.machine.watchdog }
        ensures went { WentOn shared.now self.old self.new }
        ensures watched { RanAll shared.now self.old self.new }
    {
        for number in self.next..checks(&shared.machine) {
            self.check(shared, number, gate);
        }
    }

    /// Takes the watcher apart: its parts, and what it kept.
    pub fn into_parts(self) -> (WatchParts, WatchTrace)
        ensures parts { self.parts ≡ Some result.0 }
        ensures trace { self.trace ≡ result.1 }
    {
        (self.parts.unwrap(), self.trace)
    }

    // The check of this number, once it has passed the gate.
    fn make(&mut self, shared: &Shared, number: u32)
        requires shared { BelongsTo shared.now self.old }
        requires next { number ≡ self.old.next }
        requires within { number < checks_asked shared.now.machine.watchdog }
        ensures { MakesCheck shared.now number self.old self.new }
    {
        let parts = self.parts.take().unwrap();
        let parts = make_at(shared, number, parts, &mut self.stable, &mut self.trace);
        self.parts = Some(parts);
        self.next = number + 1;
    }
}
