//! A whole run: each thread makes its script on a thread of its own, the watchdog its checks beside them, and the
//! tables answer at its end.
ghost use Rattle.std.specs.Prelude.{◌≡◌, ◌≤◌, All, None, Some, IsSome, [], length, map};
ghost use Rattle.clk_base.specs.Walk.{EachFrom};
ghost use Rattle.clk_machine.specs.Plan.{threads_of};
ghost use Rattle.clk_machine.specs.Limits.{IsWithinLimits};
ghost use Rattle.clk_lawful.specs.Checks.{listed};
ghost use Rattle.clk_lawful.specs.LawfulTrace.{IsLawful};
ghost use Rattle.clk_lawful.specs.WritableWatch.{MayWriteWatch};
ghost use Rattle.clk_threads.specs.Preparing.{IsPrepared};
ghost use Rattle.clk_threads.specs.Finishing.{ShowsHistory};
ghost use Rattle.clk_threads.specs.Workers.{all_there, all_taken};
ghost use Rattle.clk_threads.specs.Parts.{with_watcher, CameAt, WatchCame};

use crate::parts::{RunParts, close_run, open_with_room};
use crate::prepared::Prepared;
use crate::watchdog::checks;
use crate::workers::run_all;
use clk_lawful::Trace;
use clk_machine::{Gate, Machine};
use clk_num::List;
use clk_pace::{Pace, Paced};
use clk_watcher::Watcher;
use clk_words::Closed;
use clk_worker::Worker;
use std::thread::Threads;

/// What a run leaves: its trace, and the clock words at their end.
#[derive(Drop)]
pub struct Finished {
    pub trace: Trace,
    pub closed: Closed,
}

/// Runs a machine that was prepared, each CPU's own thread, each reader and the watchdog on a thread of its own, and
/// answers the trace, which is lawful, with the words at their end, whose history the trace shows. Each word of a
/// script and each check of the watchdog passes the gate first, which may hold it there. It takes no memory, and waits
/// for nothing but the gate and the threads' ends. Where the system can make no thread the scripts run one after
/// another, so a gate that waits for another thread may hold the run for ever.
///
/// The trace shows the bring-up too, and a demotion at boot. The clock may start in either mode: in a stable start it
/// is the watchdog that ends the stable mode, if any does.
pub fn run_cpus<R: Threads + Sync, G: Gate + Sync>(rt: &R, prepared: Prepared, gate: &G) -> Finished
    requires prepared { IsPrepared prepared.machine prepared }
    ensures lawful { IsLawful prepared.machine result.trace }
    ensures closed { ShowsHistory result.closed.history result.trace }
    ensures writable { MayWriteWatch (length result.trace.histories.items) result.trace.watch }
{
    let pace = pace_of(&prepared.machine);
    let paced = Paced { pace: &pace, gate };
    let (mut parts, room) = open_with_room(prepared);
    let workers = take_all(&mut parts, room);
    let watcher = parts.take_watcher();
    let (workers, watcher) = run_all(rt, parts.shared(), workers, watcher, &paced);
    back_all(&mut parts, workers);
    back_watch(&mut parts, watcher);
    close_run(parts)
}

/// The pace of the threads of a machine: each makes the words of its script, and the watchdog its checks.
fn pace_of(machine: &Machine) -> Pace
    requires { IsWithinLimits machine.now }
{
    let mut pace = Pace::new();
    for thread in 0..machine.threads() {
        pace.expect(thread, machine.words(thread));
    }
    pace.expect(machine.threads(), checks(machine) as u32);
    pace
}

/// Takes all workers, in order, into this list.
fn take_all(parts: &mut RunParts, mut workers: List<Worker>) -> List<Worker>
    requires there { All IsSome parts.old.slots }
    requires count { length parts.old.slots ≡ length (threads_of parts.old.prepared.machine) }
    requires empty { workers.items ≡ [] }
    requires room { length parts.old.slots ≤ workers.room }
    ensures workers { parts.old.slots ≡ all_there result.items }
    ensures parts { parts.new ≡ record parts.old { slots = all_taken result.items } }
{
    for thread in 0..parts.shared().machine.threads() {
        workers.push(parts.take(thread));
    }
    workers
}

/// Takes all workers back.
fn back_all(parts: &mut RunParts, workers: List<Worker>)
    requires taken { parts.old.slots ≡ all_taken workers.items }
    requires count { length workers.items ≡ length (threads_of parts.old.prepared.machine) }
    requires came { EachFrom (CameAt parts.old.prepared) 0 workers.items }
    ensures { parts.new ≡ record parts.old { slots = all_there workers.items } }
{
    for worker in workers.into_vec() {
        parts.back(worker);
    }
}

/// Takes the watcher back, if there is one.
fn back_watch(parts: &mut RunParts, watcher: Option<Watcher>)
    requires taken { parts.old.watcher ≡ None }
    requires came { All (WatchCame parts.old.prepared) (listed watcher) }
    ensures { parts.new ≡ with_watcher watcher parts.old }
{
    if let Some(watcher) = watcher {
        parts.back_watcher(watcher);
    }
}
