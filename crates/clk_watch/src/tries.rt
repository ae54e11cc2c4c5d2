//! Brackets: attempts at a source until one decides.
ghost use Rattle.std.specs.Prelude.{◌≡◌, ◌+◌, ◌*◌, ◌≤◌, ◌<◌, length, Some};
ghost use Rattle.clk_num.specs.Range.{IsNear};
ghost use Rattle.clk_machine.specs.Plan.{cpu_count};
ghost use Rattle.clk_machine.specs.Limits.{IsWithinLimits};
ghost use Rattle.clk_record.specs.Attempts.{decided, retries_of};
ghost use Rattle.clk_watch.specs.Brackets.{Brackets};
ghost use Rattle.clk_watch.specs.Small.{IsSmallAttempt, IsSmallBracket};
ghost use Rattle.clk_watch.specs.Trying.{TriesOnce};

use crate::numbers::{reference_ns, retries, skew};
use crate::readings::attempt;
use clk_machine::{CpuCounter, Machine};
use clk_num::List;
use clk_record::{Attempt, Bracket};
use clk_ticket::{TicketTable, TimeSeat};

/// A bracket of source `s`, whose attempts are appended.
pub(crate) fn bracket_of(
    attempts: &mut List<Attempt>,
    s: u32,
    counter: CpuCounter<'_>,
    tickets: &TicketTable,
    time: &mut TimeSeat,
) -> Bracket
    requires limits { IsWithinLimits counter.machine.now }
    requires source { s < length counter.machine.now.source }
    requires cpu { counter.cpu < cpu_count counter.machine.now }
    requires adjust { IsNear 48 counter.adjust }
    requires table { time.old.table ≡ tickets.now.table }
    requires room { retries_of counter.machine.now + 1 ≤ attempts.old.room }
    requires tickets { 4 * (retries_of counter.machine.now + 1) ≤ time.old.left }
    ensures brackets { Brackets
        counter.entry.machine.now counter.entry.cpu counter.entry.adjust s
        attempts.old attempts.new time.old time.new result }
    ensures small { IsSmallBracket (Some result) }
{
    for _tried in 0..retries(counter.machine) {
        if let Some(outcome) = try_once(attempts, s, counter, tickets, time) {
            return outcome;
        }
    }
    try_once(attempts, s, counter, tickets, time).unwrap_or(Bracket::Slow)
}

/// An attempt at source `s`, which is appended, and what it decides.
fn try_once(
    attempts: &mut List<Attempt>,
    s: u32,
    counter: CpuCounter<'_>,
    tickets: &TicketTable,
    time: &mut TimeSeat,
) -> Option<Bracket>
    requires limits { IsWithinLimits counter.machine.now }
    requires source { s < length counter.machine.now.source }
    requires cpu { counter.cpu < cpu_count counter.machine.now }
    requires adjust { IsNear 48 counter.adjust }
    requires table { time.old.table ≡ tickets.now.table }
    requires room { 1 ≤ attempts.old.room }
    requires tickets { 4 ≤ time.old.left }
    ensures tries { TriesOnce
        counter.entry.machine.now counter.entry.cpu counter.entry.adjust s
        attempts.old attempts.new time.old time.new result }
    ensures small { IsSmallBracket result }
{
    let attempt = attempt(s, counter, tickets, time);
    attempts.push(attempt);
    decide(counter.machine, &attempt)
}

/// What an attempt decides, if anything.
pub(crate) fn decide(machine: &Machine, attempt: &Attempt) -> Option<Bracket>
    requires limits { IsWithinLimits machine.now }
    requires small { IsSmallAttempt attempt.now }
    ensures decided { result ≡ decided machine.now attempt.now }
    ensures small { IsSmallBracket result }
{
    let [before, source, after, again] = attempt.value;
    let skew = skew(machine);
    if reference_ns(machine, before, after) <= skew {
        Some(Bracket::Accepted {
            cs: source,
            wd: before,
        })
    } else if reference_ns(machine, after, again) > skew / 2 {
        Some(Bracket::Skip)
    } else {
        None
    }
}
