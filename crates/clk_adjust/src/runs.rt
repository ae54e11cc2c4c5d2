//! The test of one CPU: its warp runs, each by the sum of the adjustments before it.
ghost use Rattle.std.specs.Prelude.{◌≡◌, ◌+◌, ◌<◌, ◌≤◌, false, Some, IfOk};
ghost use Rattle.clk_machine.specs.Plan.{cpu_count};
ghost use Rattle.clk_record.specs.BroughtUp.{most_runs as most_runs_of};
ghost use Rattle.clk_adjust.specs.Tickets.{cpu_tickets, HasDrawn};
ghost use Rattle.clk_adjust.specs.Outcomes.{HasRoom, Brings};

use crate::rooms::most_runs;
use clk_machine::{BringUpPart, Gate, Machine};
use clk_num::List;
use clk_record::{CpuUp, UpOutcome};
use clk_ticket::{TicketTable, TimeSeat};
use clk_warp::{Verdict, WarpRun, run_pair, verdict};
use std::alloc::{AllocError, Global};
use std::sync::Wait;
use std::thread::Threads;

/// Tests CPU `cpu`, 1 or more: makes warp runs until one passes or the test has failed. `runs` is empty and has room
/// for them. The memory of a run is taken before it; the error is want of it.
pub(crate) fn test_cpu<R: Wait + Threads + Sync, G: Gate + Sync>(
    rt: &R,
    alloc: Global,
    machine: &Machine,
    tickets: &TicketTable,
    time: &mut TimeSeat,
    part: &BringUpPart,
    cpu: u32,
    mut runs: List<WarpRun>,
    gate: &G,
) -> Result<CpuUp, AllocError>
    requires own { time.old.table ≡ tickets.now.table }
    requires part { machine.now.bringup ≡ Some part.now }
    requires cpu { (1 ≤ cpu) × (cpu < cpu_count machine.now) }
    requires runs { HasRoom (most_runs_of part.now) runs }
    requires tickets { cpu_tickets machine.now (Some part.now) ≤ time.old.left }
    ensures brings { IfOk result (λ up. Brings machine.now cpu (Some part.now) false time.old up time.new) }
    ensures drawn { HasDrawn machine.now time.old time.new }
    ensures few { time.old.left ≤ time.new.left + cpu_tickets machine.now (Some part.now) }
{
    let _cpus = machine.cpus();
    let most = most_runs(part);
    let mut adjust = 0;
    for done in 0..most {
        let run = run_pair(rt, alloc, machine, tickets, time, cpu, adjust, gate)?;
        let verdict = verdict(&run, most - done);
        runs.push(run);
        match verdict {
            Verdict::Again { adjust: more } => adjust += more,
            Verdict::Passed => return Ok(tested(cpu, runs, adjust, UpOutcome::Synced)),
            Verdict::Failed { .. } => return Ok(tested(cpu, runs, adjust, UpOutcome::Failed)),
        }
    }
    unreachable!()
}

/// The entry of a CPU.
pub(crate) fn tested(cpu: u32, runs: List<WarpRun>, adjust: i64, outcome: UpOutcome) -> CpuUp
    ensures { result ≡ record { cpu = cpu; runs = runs; adjust = adjust; outcome = outcome } }
{
    CpuUp {
        cpu,
        runs,
        adjust,
        outcome,
    }
}
