//! The watch: what is kept of the sources, and the calls of a check.
ghost use Rattle.std.specs.Prelude.{◌≡◌, ◌+◌, ◌*◌, ◌<◌, ◌≤◌, IfOk, length};
ghost use Rattle.clk_num.specs.Range.{IsNear};
ghost use Rattle.clk_machine.specs.Plan.{cpu_count};
ghost use Rattle.clk_record.specs.Attempts.{retries_of};
ghost use Rattle.clk_record.specs.Fold.{at_first, ratings_of, IsCurrent, AreVisits};
ghost use Rattle.clk_record.specs.Watching.{Watching, kept_of, started};
ghost use Rattle.clk_watch.specs.Brackets.{Brackets};
ghost use Rattle.clk_watch.specs.Visits.{Checks};

use crate::numbers::{count, retries, visits};
use crate::place::current_place;
use crate::tries::bracket_of;
use crate::visit::{first_watched, visit};
use clk_machine::{CpuCounter, Machine};
use clk_num::List;
use clk_record::{Attempt, Bracket, SourceRecord, Watched};
use clk_ticket::{TicketTable, TimeSeat};
use std::alloc::{AllocError, Global};
use std::marker::Model;
use std::snapshot::Snapshot;

/// What a watchdog keeps of the sources of a machine, with all attempts and records so far.
///
/// A contract sees a `Watching` (`specs/Watching.antt` of `clk_record`): the machine, whether its TSC source was lost
/// at boot, the attempts and the records. What is kept of the sources is the fold of the records over their attempts,
/// `kept_of`.
#[derive(Drop)]
pub struct Watch {
    sources: List<Watched>,
    reference: u32,
    attempts: List<Attempt>,
    records: List<SourceRecord>,
    machine: Snapshot<Machine>,
    tsc_unstable: Snapshot<bool>,
}

impl Model for Watch {
    ghost use Rattle.clk_record.specs.Watching.{Watching};

    ghost Value = { Watching };

    ghost use Rattle.clk_watch.specs.WatchKept.{IsKept};

    ghost view = { λ w. record {
      machine = w.machine.value;
      tsc_unstable = w.tsc_unstable.value;
      attempts = w.attempts;
      records = w.records;
    } };

    ghost invariant = { IsKept };
}

impl Watch {
    /// A watch of a machine's sources, with room for all attempts and records that its checks make; for none where the
    /// machine has no watchdog table. Nothing is kept of any source yet, and only the TSC source is unstable, where
    /// `tsc_unstable` says so. The error is want of memory.
    pub fn new(alloc: Global, machine: &Machine, tsc_unstable: bool) -> Result<Watch, AllocError>
        ensures { IfOk result (λ w. w ≡ started machine.now tsc_unstable) }
    {
        let _limits = machine.tickets_needed();
        let visits = visits(machine);
        let sources = first_watched(alloc, machine, tsc_unstable)?;
        let attempts = List::with_room(alloc, (visits * (retries(machine) + 1)) as usize)?;
        let records = List::with_room(alloc, visits as usize)?;
        Ok(Watch {
            sources,
            reference: count(&machine.reference_part().rating) as u32,
            attempts,
            records,
            machine: Snapshot::of(machine),
            tsc_unstable: Snapshot::of(&tsc_unstable),
        })
    }

    /// A bracket of source `s`, counted from 0, on the counter's CPU: at most as many attempts as there are retries and
    /// one more, each of four tickets, which are appended. No record names them.
    /// After `cs_watchdog_read` of Linux 6.1's `kernel/time/clocksource.c`.
    pub fn bracket(
        &mut self,
        s: u32,
        counter: CpuCounter<'_>,
        tickets: &TicketTable,
        time: &mut TimeSeat,
    ) -> Bracket
        requires source { s < length self.old.machine.source }
        requires machine { counter.machine.now ≡ self.old.machine }
        requires cpu { counter.cpu < cpu_count self.old.machine }
        requires adjust { IsNear 48 counter.adjust }
        requires table { time.old.table ≡ tickets.now.table }
        requires room { retries_of self.old.machine + 1 ≤ self.old.attempts.room }
        requires tickets { 4 * (retries_of self.old.machine + 1) ≤ time.old.left }
        ensures brackets { Brackets
            self.old.machine counter.entry.cpu counter.entry.adjust s
            self.old.attempts self.new.attempts time.old time.new result }
        ensures rest { self.new ≡ record self.old { attempts = self.new.attempts } }
    {
        bracket_of(&mut self.attempts, s, counter, tickets, time)
    }

    /// Visits source `s`, counted from 0, on the counter's CPU: it passes over an unstable source, and reads any other
    /// one and judges it. The attempts and the record are appended. After one pass of the loop of
    /// `clocksource_watchdog` of Linux 6.1's `kernel/time/clocksource.c`.
    ///
    /// A check calls this for each source in order, on any one CPU, and ends after a record that says `Skip`.
    pub fn check_source(
        &mut self,
        s: u32,
        counter: CpuCounter<'_>,
        tickets: &TicketTable,
        time: &mut TimeSeat,
    ) -> SourceRecord
        requires source { s < length self.old.machine.source }
        requires machine { counter.machine.now ≡ self.old.machine }
        requires cpu { counter.cpu < cpu_count self.old.machine }
        requires adjust { IsNear 48 counter.adjust }
        requires table { time.old.table ≡ tickets.now.table }
        requires room { retries_of self.old.machine + 1 ≤ self.old.attempts.room }
        requires tickets { 4 * (retries_of self.old.machine + 1) ≤ time.old.left }
        requires records { 1 ≤ self.old.records.room }
        ensures { Checks counter.entry.cpu counter.entry.adjust s self.old time.old result self.new time.new }
    {
        let record = visit(
            &mut self.sources,
            self.reference,
            &mut self.attempts,
            s,
            counter,
            tickets,
            time,
        );
        self.records.push(record);
        record
    }

    /// The place of the current source, or the number of sources for the reference: that of the greatest rating, the
    /// first one on a tie, and the reference last. An unstable source has rating 0.
    /// After `clocksource_select` of Linux 6.1's `kernel/time/clocksource.c`.
    pub fn current(&self) -> u32
        ensures { IsCurrent (ratings_of self.now.machine (kept_of self.now)) result }
    {
        current_place(self.sources.items(), self.reference)
    }

    /// All attempts so far.
    pub fn attempts(&self) -> &List<Attempt>
        ensures { result.now ≡ self.now.attempts }
    {
        &self.attempts
    }

    /// All records so far. Each is right by what those before it left of the sources.
    pub fn records(&self) -> &List<SourceRecord>
        ensures records { result.now ≡ self.now.records }
        ensures visits { AreVisits
            self.now.machine self.now.attempts.items (at_first self.now.machine self.now.tsc_unstable)
            self.now.records.items }
    {
        &self.records
    }
}
