//! Both sides of a warp run, each on a thread of its own.
ghost use Rattle.std.specs.Prelude.{◌≡◌, ◌+◌, ◌<◌, ◌≤◌, true, [], IfOk, IfErr, IsSome};
ghost use Rattle.clk_num.specs.Range.{IsNear};
ghost use Rattle.clk_machine.specs.Plan.{cpu_count};
ghost use Rattle.clk_record.specs.declared.warp.Side.TheVariants.{Source, Target};
ghost use Rattle.clk_warp.specs.Run.{most_readings, both_here};
ghost use Rattle.clk_warp.specs.Turns.{fresh};
ghost use Rattle.clk_warp.specs.Working.{Works};
ghost use Rattle.clk_warp.specs.Pairs.{IsPaired, IsFinished, HasRun};

use crate::lock::TurnLock;
use crate::seat::TurnSeat;
use crate::state::WarpState;
use crate::worker::{SideEnd, run_side};
use clk_machine::{Gate, Machine};
use clk_record::{Side, WarpRun};
use clk_ticket::{TicketTable, TimeSeat};
use std::alloc::{AllocError, Global};
use std::mem::replace;
use std::sync::Wait;
use std::thread::{Threads, join};

/// Runs both sides of a warp run of CPU `cpu`, 1 or more, each on a thread of its own, and answers the finished run.
/// The target adds `adjust` cycles, within 2^48 of 0, to its counter. The seat has a ticket for each reading that the
/// run may make, `2 * (turns + 10)`, and draws exactly those of the run's readings, in lock order.
///
/// It waits for the lock and for both sides. All memory is taken before the first reading; the error is want of memory,
/// and leaves the seat as it was. After `check_tsc_sync_source` and `check_tsc_sync_target` of Linux 6.1's
/// `arch/x86/kernel/tsc_sync.c`.
pub fn run_pair<R: Wait + Threads + Sync, G: Gate + Sync>(
    rt: &R,
    alloc: Global,
    machine: &Machine,
    tickets: &TicketTable,
    time: &mut TimeSeat,
    cpu: u32,
    adjust: i64,
    gate: &G,
) -> Result<WarpRun, AllocError>
    requires own { time.old.table ≡ tickets.now.table }
    requires bring_up { IsSome machine.now.bringup }
    requires cpu { (1 ≤ cpu) × (cpu < cpu_count machine.now) }
    requires adjust { IsNear 48 adjust }
    requires tickets { most_readings machine.now ≤ time.old.left }
    ensures run { IfOk result (λ run. IsPaired machine.now cpu adjust time.old run time.new) }
    ensures back { IfErr result (λ _. time.new ≡ time.old) }
{
    let empty = tickets.split(time, 0);
    let whole = replace(time, empty);
    match run_whole(rt, alloc, machine, tickets, whole, cpu, adjust, gate) {
        Ok((run, back)) => {
            *time = back;
            Ok(run)
        }
        Err((error, back)) => {
            *time = back;
            Err(error)
        }
    }
}

// The same, with the seat by value.
fn run_whole<R: Wait + Threads + Sync, G: Gate + Sync>(
    rt: &R,
    alloc: Global,
    machine: &Machine,
    tickets: &TicketTable,
    time: TimeSeat,
    cpu: u32,
    adjust: i64,
    gate: &G,
) -> Result<(WarpRun, TimeSeat), (AllocError, TimeSeat)>
    requires own { time.table ≡ tickets.now.table }
    requires bring_up { IsSome machine.now.bringup }
    requires cpu { (1 ≤ cpu) × (cpu < cpu_count machine.now) }
    requires adjust { IsNear 48 adjust }
    requires tickets { most_readings machine.now ≤ time.left }
    ensures run { IfOk result (λ done. IsPaired machine.now cpu adjust time done.0 done.1) }
    ensures back { IfErr result (λ e. e.1 ≡ time) }
{
    let state = match WarpState::new(alloc, machine, cpu, adjust, time) {
        Ok(state) => state,
        Err(refusal) => return Err(refusal),
    };
    match TurnLock::new(alloc, machine, state) {
        Ok((lock, source, target)) => {
            let state = run_both(rt, lock, source, target, tickets, machine, cpu, gate);
            Ok(state.into_run())
        }
        Err((error, state)) => Err((error, state.into_time())),
    }
}

// Each side on a thread of its own, from seats that have made nothing.
fn run_both<R: Wait + Threads + Sync, G: Gate + Sync>(
    rt: &R,
    lock: TurnLock,
    source: TurnSeat,
    target: TurnSeat,
    tickets: &TicketTable,
    machine: &Machine,
    cpu: u32,
    gate: &G,
) -> WarpState
    requires source { source ≡ fresh lock Source }
    requires target { target ≡ fresh lock Target }
    requires first { (lock.first.readings ≡ []) × (lock.first.sections ≡ 0) }
    requires here { both_here lock.first ≡ true }
    requires tickets { tickets.now.table ≡ lock.first.tickets }
    requires machine { machine.now ≡ lock.first.machine }
    ensures finished { IsFinished lock.first result }
    ensures run { HasRun lock source target result }
{
    let (a, b) = {
        let shared = &lock;
        join(
            rt,
            move || -> (SideEnd, TurnSeat)
                requires { (source ≡ fresh shared.now Source) × (shared.now.first.readings ≡ []) × (shared.now.first.sections ≡ 0) × (both_here shared.now.first ≡ true) × (tickets.now.table ≡ shared.now.first.tickets) × (machine.now ≡ shared.now.first.machine) }
                ensures { Works shared.entry.now Source source result.0.readings result.1 }
            { run_side(rt, Side::Source, 0, shared, source, tickets, machine, gate) },
            move || -> (SideEnd, TurnSeat)
                requires { (target ≡ fresh shared.now Target) × (shared.now.first.readings ≡ []) × (shared.now.first.sections ≡ 0) × (both_here shared.now.first ≡ true) × (tickets.now.table ≡ shared.now.first.tickets) × (machine.now ≡ shared.now.first.machine) }
                ensures { Works shared.entry.now Target target result.0.readings result.1 }
            {
                run_side(
                    rt,
                    Side::Target,
                    cpu,
                    shared,
                    target,
                    tickets,
                    machine,
                    gate,
                )
            },
        )
    };
    lock.close(a.1, b.1)
}
