//! The bring-up of all CPUs but the first, in order.
ghost use Rattle.std.specs.Prelude.{◌≡◌, ◌+◌, ◌-◌, ◌<◌, ◌≤◌, None, Some, [], IfOk, length};
ghost use Rattle.std.specs.List.{All};
ghost use Rattle.clk_num.specs.Range.{IsNear};
ghost use Rattle.clk_machine.specs.Plan.{cpu_count};
ghost use Rattle.clk_record.specs.BroughtUp.{IsBroughtUp, failed_after as fails_after, test_of as test_by};
ghost use Rattle.clk_record.specs.WarpReadings.{all_readings};
ghost use Rattle.clk_warp.specs.Pairs.{DrawsFor};
ghost use Rattle.clk_adjust.specs.Tickets.{cpu_tickets, up_tickets, HasDrawn};
ghost use Rattle.clk_adjust.specs.Outcomes.{runs_of as runs_by, HasRoom, Brings};

use crate::rooms::{rooms_for, runs_of, test_of};
use crate::runs::{test_cpu, tested};
use clk_machine::{Gate, Machine};
use clk_num::List;
use clk_record::{BroughtUp, CpuUp, UpOutcome};
use clk_ticket::{TicketTable, TimeSeat};
use clk_warp::WarpRun;
use std::alloc::{AllocError, Global};
use std::sync::Wait;
use std::thread::Threads;

/// Brings all CPUs of a machine up: tests each but the first in order, up to one that fails. Without a bring-up each is
/// `Untested`. The seat has the tickets that the tests may draw, and draws exactly those of their readings, in order.
///
/// It waits for both sides of each run, where the machine has a bring-up and more than one CPU. The memory of the
/// answer is taken first, and that of a run before the run. The error is want of memory, and leaves drawn the tickets
/// of the runs that were made.
///
/// An adjustment is within 2^47 cycles of 0, and no more tickets are drawn than up to three runs of each CPU take.
pub fn bring_up<R: Wait + Threads + Sync, G: Gate + Sync>(
    rt: &R,
    alloc: Global,
    machine: &Machine,
    tickets: &TicketTable,
    time: &mut TimeSeat,
    gate: &G,
) -> Result<BroughtUp, AllocError>
    requires own { time.old.table ≡ tickets.now.table }
    requires tickets { up_tickets machine.now ≤ time.old.left }
    ensures brought_up { IfOk result (IsBroughtUp machine.now None) }
    ensures adjusts { IfOk result (λ up. All (λ cpu. IsNear 47 cpu.adjust) up.cpus.items) }
    ensures readings { IfOk result (λ up. DrawsFor time.old (all_readings up.cpus.items) time.new) }
    ensures drawn { HasDrawn machine.now time.old time.new }
    ensures few { time.old.left ≤ time.new.left + up_tickets machine.now }
{
    bring_up_all(rt, alloc, machine, tickets, time, None, gate)
}

/// The same, but passes CPU `but` over, which is `Untested`.
pub fn bring_up_but<R: Wait + Threads + Sync, G: Gate + Sync>(
    rt: &R,
    alloc: Global,
    machine: &Machine,
    tickets: &TicketTable,
    time: &mut TimeSeat,
    but: u32,
    gate: &G,
) -> Result<BroughtUp, AllocError>
    requires own { time.old.table ≡ tickets.now.table }
    requires tickets { up_tickets machine.now ≤ time.old.left }
    ensures brought_up { IfOk result (IsBroughtUp machine.now (Some but)) }
    ensures adjusts { IfOk result (λ up. All (λ cpu. IsNear 47 cpu.adjust) up.cpus.items) }
    ensures readings { IfOk result (λ up. DrawsFor time.old (all_readings up.cpus.items) time.new) }
    ensures drawn { HasDrawn machine.now time.old time.new }
    ensures few { time.old.left ≤ time.new.left + up_tickets machine.now }
{
    bring_up_all(rt, alloc, machine, tickets, time, Some(but), gate)
}

/// Takes the memory of the answer, and tests the CPUs.
fn bring_up_all<R: Wait + Threads + Sync, G: Gate + Sync>(
    rt: &R,
    alloc: Global,
    machine: &Machine,
    tickets: &TicketTable,
    time: &mut TimeSeat,
    but: Option<u32>,
    gate: &G,
) -> Result<BroughtUp, AllocError>
    requires own { time.old.table ≡ tickets.now.table }
    requires tickets { up_tickets machine.now ≤ time.old.left }
    ensures brought_up { IfOk result (IsBroughtUp machine.now but) }
    ensures adjusts { IfOk result (λ up. All (λ cpu. IsNear 47 cpu.adjust) up.cpus.items) }
    ensures readings { IfOk result (λ up. DrawsFor time.old (all_readings up.cpus.items) time.new) }
    ensures drawn { HasDrawn machine.now time.old time.new }
    ensures few { time.old.left ≤ time.new.left + up_tickets machine.now }
{
    let rest = machine.cpus() - 1;
    let ups = List::with_room(alloc, rest as usize)?;
    let rooms = rooms_for(alloc, rest, runs_of(machine))?;
    bring_up_each(rt, alloc, machine, tickets, time, but, ups, rooms, gate)
}

/// Tests the CPUs, up to one that fails. There is room for all entries, and for the runs of each.
fn bring_up_each<R: Wait + Threads + Sync, G: Gate + Sync>(
    rt: &R,
    alloc: Global,
    machine: &Machine,
    tickets: &TicketTable,
    time: &mut TimeSeat,
    but: Option<u32>,
    mut ups: List<CpuUp>,
    mut rooms: List<List<WarpRun>>,
    gate: &G,
) -> Result<BroughtUp, AllocError>
    requires own { time.old.table ≡ tickets.now.table }
    requires tickets { up_tickets machine.now ≤ time.old.left }
    requires none { ups.items ≡ [] }
    requires ups_room { cpu_count machine.now ≤ ups.room + 1 }
    requires rooms { cpu_count machine.now ≤ length rooms.items + 1 }
    requires runs_room { All (HasRoom (runs_by machine.now.bringup)) rooms.items }
    ensures brought_up { IfOk result (IsBroughtUp machine.now but) }
    ensures adjusts { IfOk result (λ up. All (λ cpu. IsNear 47 cpu.adjust) up.cpus.items) }
    ensures readings { IfOk result (λ up. DrawsFor time.old (all_readings up.cpus.items) time.new) }
    ensures drawn { HasDrawn machine.now time.old time.new }
    ensures few { time.old.left ≤ time.new.left + up_tickets machine.now }
{
    let mut failed = false;
    for cpu in 1..machine.cpus() {
        let runs = rooms.pop();
        let up = bring_up_cpu(
            rt, alloc, machine, tickets, time, but, cpu, failed, runs, gate,
        )?;
        failed = failed_after(failed, &up);
        ups.push(up);
    }
    Ok(BroughtUp { cpus: ups, failed })
}

/// Tests CPU `cpu`, 1 or more, where it is to be tested and none before it has failed.
fn bring_up_cpu<R: Wait + Threads + Sync, G: Gate + Sync>(
    rt: &R,
    alloc: Global,
    machine: &Machine,
    tickets: &TicketTable,
    time: &mut TimeSeat,
    but: Option<u32>,
    cpu: u32,
    failed: bool,
    runs: List<WarpRun>,
    gate: &G,
) -> Result<CpuUp, AllocError>
    requires own { time.old.table ≡ tickets.now.table }
    requires cpu { (1 ≤ cpu) × (cpu < cpu_count machine.now) }
    requires runs { HasRoom (runs_by machine.now.bringup) runs }
    requires tickets { cpu_tickets machine.now machine.now.bringup ≤ time.old.left }
    ensures brings { IfOk result (λ up. Brings machine.now cpu (test_by machine.now but cpu) failed time.old up time.new) }
    ensures drawn { HasDrawn machine.now time.old time.new }
    ensures few { time.old.left ≤ time.new.left + cpu_tickets machine.now machine.now.bringup }
{
    match test_of(machine, but, cpu) {
        None => Ok(tested(cpu, runs, 0, UpOutcome::Untested)),
        Some(part) => {
            if failed {
                Ok(tested(cpu, runs, 0, UpOutcome::Skipped))
            } else {
                test_cpu(rt, alloc, machine, tickets, time, &part, cpu, runs, gate)
            }
        }
    }
}

/// Whether one of the CPUs up to this one failed.
fn failed_after(failed: bool, up: &CpuUp) -> bool
    ensures { result ≡ fails_after failed up.now }
{
    match up.outcome {
        UpOutcome::Failed => true,
        UpOutcome::Untested | UpOutcome::Synced | UpOutcome::Skipped => failed,
    }
}
