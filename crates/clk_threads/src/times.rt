//! The seats by which the threads of a run and its watchdog draw their tickets.
ghost use Rattle.std.specs.Prelude.{◌≡◌, ◌≤◌, IfOk, [], length, map, is_some, Some, None, if◌then◌else◌};
ghost use Rattle.clk_machine.specs.Plan.{threads_of};
ghost use Rattle.clk_machine.specs.Limits.{IsWithinLimits};
ghost use Rattle.clk_machine.specs.Tickets.{word_tickets, watch_tickets};
ghost use Rattle.clk_ticket.specs.Time.{without};
ghost use Rattle.clk_threads.specs.Preparing.{time_seat, watch_time};

use crate::watchdog::{has_watchdog, tickets_of_watch};
use clk_machine::Machine;
use clk_num::List;
use clk_ticket::{TicketTable, TimeSeat};
use std::alloc::{AllocError, Global};

/// Splits a seat off for each thread, with the tickets of its script. The error is want of memory, and then nothing was
/// split.
pub(crate) fn share_tickets(
    alloc: Global,
    machine: &Machine,
    tickets: &TicketTable,
    time: &mut TimeSeat,
) -> Result<List<TimeSeat>, AllocError>
    requires own { time.old.table ≡ tickets.now.table }
    requires left { word_tickets machine.now ≤ time.old.left }
    ensures seats { IfOk result (λ times. times.items ≡ map (time_seat time.old) (threads_of machine.now)) }
    ensures time { IfOk result (λ _. time.new ≡ without (word_tickets machine.now) time.old) }
{
    let times = List::with_room(alloc, machine.threads() as usize)?;
    Ok(split_times(machine, tickets, time, times))
}

fn split_times(
    machine: &Machine,
    tickets: &TicketTable,
    time: &mut TimeSeat,
    mut times: List<TimeSeat>,
) -> List<TimeSeat>
    requires own { time.old.table ≡ tickets.now.table }
    requires left { word_tickets machine.now ≤ time.old.left }
    requires times { times.items ≡ [] }
    requires room { length (threads_of machine.now) ≤ times.room }
    ensures seats { result.items ≡ map (time_seat time.old) (threads_of machine.now) }
    ensures time { time.new ≡ without (word_tickets machine.now) time.old }
{
    for thread in 0..machine.threads() {
        times.push(tickets.split(time, machine.tickets(thread)));
    }
    times
}

/// Splits a seat off for the watchdog, if there is one, with the tickets of its checks.
pub(crate) fn share_watch(
    machine: &Machine,
    tickets: &TicketTable,
    time: &mut TimeSeat,
) -> Option<TimeSeat>
    requires limits { IsWithinLimits machine.now }
    requires own { time.old.table ≡ tickets.now.table }
    requires left { watch_tickets machine.now machine.now.watchdog ≤ time.old.left }
    ensures seat { result ≡ (if is_some machine.now.watchdog then Some (watch_time machine.now time.old) else None) }
    ensures time { time.new ≡ without (watch_tickets machine.now machine.now.watchdog) time.old }
{
    if has_watchdog(machine) {
        Some(tickets.split(time, tickets_of_watch(machine)))
    } else {
        None
    }
}
