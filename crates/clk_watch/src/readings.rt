//! Readings of counters, each at a ticket that is drawn for it.
ghost use Rattle.std.specs.Prelude.{◌≡◌, ◌^◌, ◌<◌, ◌≤◌, length};
ghost use Rattle.clk_num.specs.Range.{IsNear};
ghost use Rattle.clk_ticket.specs.Time.{Draws};
ghost use Rattle.clk_machine.specs.Plan.{cpu_count};
ghost use Rattle.clk_machine.specs.Limits.{most_tickets, IsWithinLimits};
ghost use Rattle.clk_record.specs.Attempts.{reference_shown, source_reading, IsRightAttempt};
ghost use Rattle.clk_watch.specs.Draws.{DrawsEach};
ghost use Rattle.clk_watch.specs.Small.{IsSmall, IsSmallAttempt};

use crate::numbers::count;
use clk_machine::{CpuCounter, Machine};
use clk_num::mask_of;
use clk_record::Attempt;
use clk_ticket::{TicketTable, TimeSeat};

// A reading of a counter: its ticket, and the cycles that the counter shows there.
#[derive(Clone, Copy)]
struct Reading {
    ticket: u64,
    cycles: u64,
}

/// Reads the watchdog, source `s`, and the watchdog twice. It draws four tickets.
pub(crate) fn attempt(
    s: u32,
    counter: CpuCounter<'_>,
    tickets: &TicketTable,
    time: &mut TimeSeat,
) -> Attempt
    requires limits { IsWithinLimits counter.machine.now }
    requires source { s < length counter.machine.now.source }
    requires cpu { counter.cpu < cpu_count counter.machine.now }
    requires adjust { IsNear 48 counter.adjust }
    requires table { time.old.table ≡ tickets.now.table }
    requires tickets { 4 ≤ time.old.left }
    ensures right { IsRightAttempt counter.entry.machine.now counter.entry.cpu counter.entry.adjust s result }
    ensures draws { DrawsEach result.ticket time.old time.new }
    ensures small { IsSmallAttempt result }
{
    let before = read_watchdog(counter.machine, tickets, time);
    let source = read_source(s, counter, tickets, time);
    let after = read_watchdog(counter.machine, tickets, time);
    let again = read_watchdog(counter.machine, tickets, time);
    Attempt {
        ticket: [before.ticket, source.ticket, after.ticket, again.ticket],
        value: [before.cycles, source.cycles, after.cycles, again.cycles],
    }
}

/// Reads the low bits of the reference.
fn read_watchdog(machine: &Machine, tickets: &TicketTable, time: &mut TimeSeat) -> Reading
    requires limits { IsWithinLimits machine.now }
    requires table { time.old.table ≡ tickets.now.table }
    requires ticket { 1 ≤ time.old.left }
    ensures draws { Draws time.old result.ticket 1 time.new }
    ensures cycles { result.cycles ≡ reference_shown machine.now result.ticket }
    ensures small { IsSmall result.cycles }
{
    let ticket = tickets.draw(time, 1);
    let bits = count(&machine.reference_part().bits) as u32;
    let cycles = machine.reference(ticket) & mask_of(bits);
    Reading { ticket, cycles }
}

/// Reads source `s`. A TSC source is the counter of the CPU.
fn read_source(
    s: u32,
    counter: CpuCounter<'_>,
    tickets: &TicketTable,
    time: &mut TimeSeat,
) -> Reading
    requires limits { IsWithinLimits counter.machine.now }
    requires source { s < length counter.machine.now.source }
    requires cpu { counter.cpu < cpu_count counter.machine.now }
    requires adjust { IsNear 48 counter.adjust }
    requires table { time.old.table ≡ tickets.now.table }
    requires ticket { 1 ≤ time.old.left }
    ensures draws { Draws time.old result.ticket 1 time.new }
    ensures cycles { result.cycles
        ≡ source_reading counter.entry.machine.now counter.entry.cpu counter.entry.adjust s result.ticket }
    ensures small { IsSmall result.cycles }
{
    let ticket = tickets.draw(time, 1);
    let cycles = source_cycles(s, counter, ticket);
    Reading { ticket, cycles }
}

/// What source `s` shows at a ticket, in cycles.
fn source_cycles(s: u32, counter: CpuCounter<'_>, ticket: u64) -> u64
    requires limits { IsWithinLimits counter.machine.now }
    requires source { s < length counter.machine.now.source }
    requires cpu { counter.cpu < cpu_count counter.machine.now }
    requires adjust { IsNear 48 counter.adjust }
    requires ticket { ticket < most_tickets }
    ensures cycles { result
        ≡ source_reading counter.entry.machine.now counter.entry.cpu counter.entry.adjust s ticket }
    ensures small { IsSmall result }
{
    if counter.machine.source(s).tsc {
        counter.machine.counter(counter.cpu, counter.adjust, ticket)
    } else {
        counter.machine.source_counter(s, ticket)
    }
}
