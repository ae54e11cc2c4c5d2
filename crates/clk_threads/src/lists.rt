//! The lists that a run fills.
ghost use Rattle.std.specs.Prelude.{◌≡◌, ◌+◌, ◌<◌, ◌≤◌, ◌*◌, IfOk, [], length, map, is_some, Some, None, if◌then◌else◌};
ghost use Rattle.clk_machine.specs.Plan.{threads_of, cpu_count};
ghost use Rattle.clk_threads.specs.Preparing.{no_events, steps_room, histories_below, adjusts_of, empty_watch, AreLists};

use crate::watchdog::{checks, has_watchdog};
use clk_latch::LatchSeat;
use clk_lawful::{Event, HistoryStep, WatchTrace};
use clk_machine::Machine;
use clk_num::List;
use clk_record::BroughtUp;
use clk_watch::Watch;
use clk_worker::Worker;
use std::alloc::{AllocError, Global};

/// A script word makes at most three events: those of `idle`.
const EVENTS: usize = 3;

/// All lists of a run, with their memory.
#[derive(Drop)]
pub struct Lists {
    /// The CPU of each thread.
    pub cpu_of: List<u32>,
    /// The events of each thread: empty, with room for its script.
    pub events: List<List<Event>>,
    /// Empty, with room for what each thread leaves.
    pub threads: List<List<Event>>,
    /// The history of each clock word: empty, with room for the steps of all threads, and for a lift by the watchdog.
    pub histories: List<List<HistoryStep>>,
    /// What is added to the counter of each CPU, in cycles: what its bring-up found.
    pub adjusts: List<i64>,
    /// Empty, with room for the latch seat of each thread.
    pub latches: List<LatchSeat>,
    /// Empty, with room for a slot for the worker of each thread.
    pub slots: List<Option<Worker>>,
    /// Empty, with room for a worker of each thread: those that run side by side.
    pub workers: List<Worker>,
    /// What the watchdog fills, if there is one: lists with room for all its checks.
    pub watch: Option<WatchTrace>,
}

/// The lists of a run of this machine after this bring-up. The error is want of memory.
pub(crate) fn make_lists(
    alloc: Global,
    machine: &Machine,
    up: &BroughtUp,
) -> Result<Lists, AllocError>
    requires { length up.now.cpus.items + 1 ≡ cpu_count machine.now }
    ensures { IfOk result (AreLists machine.now up.now) }
{
    let threads = machine.threads() as usize;
    let cpus = machine.cpus() as usize;
    let cpu_of = list_cpus(machine, List::with_room(alloc, threads)?);
    let mut events = List::with_room(alloc, threads)?;
    fill_events(alloc, machine, &mut events)?;
    let mut histories = List::with_room(alloc, cpus)?;
    fill_histories(alloc, machine, &mut histories)?;
    let adjusts = list_adjusts(up, List::with_room(alloc, cpus)?);
    Ok(Lists {
        cpu_of,
        events,
        threads: List::with_room(alloc, threads)?,
        histories,
        adjusts,
        latches: List::with_room(alloc, threads)?,
        slots: List::with_room(alloc, threads)?,
        workers: List::with_room(alloc, threads)?,
        watch: list_watch(alloc, machine, up.failed)?,
    })
}

/// What the watchdog fills, if there is one. Its TSC source was lost at boot if `lost` says so.
fn list_watch(
    alloc: Global,
    machine: &Machine,
    lost: bool,
) -> Result<Option<WatchTrace>, AllocError>
    ensures { IfOk result (λ watch. watch ≡ (if is_some machine.now.watchdog then Some (empty_watch machine.now lost) else None)) }
{
    if !has_watchdog(machine) {
        return Ok(None);
    }
    let _limits = machine.tickets_needed();
    let checks = checks(machine);
    Ok(Some(WatchTrace {
        thread: machine.threads(),
        pauses: List::with_room(alloc, checks)?,
        watch: Watch::new(alloc, machine, lost)?,
        last_record: List::with_room(alloc, checks)?,
        stamps: List::with_room(alloc, checks)?,
        demotion: None,
        demoted_in: 0,
        lifts: List::with_room(alloc, machine.cpus() as usize)?,
        currents: List::with_room(alloc, checks)?,
    }))
}

fn list_adjusts(up: &BroughtUp, mut adjusts: List<i64>) -> List<i64>
    requires empty { adjusts.items ≡ [] }
    requires room { length up.now.cpus.items < adjusts.room }
    ensures { result.items ≡ adjusts_of up.now.cpus.items }
{
    adjusts.push(0);
    for entry in 0..up.cpus.len() {
        adjusts.push(up.cpus.get(entry).adjust);
    }
    adjusts
}

fn list_cpus(machine: &Machine, mut cpu_of: List<u32>) -> List<u32>
    requires empty { cpu_of.items ≡ [] }
    requires room { length (threads_of machine.now) ≤ cpu_of.room }
    ensures { result.items ≡ map (λ t. t.0) (threads_of machine.now) }
{
    for thread in 0..machine.threads() {
        cpu_of.push(machine.cpu_of(thread));
    }
    cpu_of
}

fn fill_events(
    alloc: Global,
    machine: &Machine,
    events: &mut List<List<Event>>,
) -> Result<(), AllocError>
    requires empty { events.old.items ≡ [] }
    requires room { length (threads_of machine.now) ≤ events.old.room }
    ensures { IfOk result (λ _. events.new.items ≡ map no_events (threads_of machine.now)) }
{
    for thread in 0..machine.threads() {
        let words = machine.words(thread) as usize;
        events.push(List::with_room(alloc, EVENTS * words)?);
    }
    Ok(())
}

fn fill_histories(
    alloc: Global,
    machine: &Machine,
    histories: &mut List<List<HistoryStep>>,
) -> Result<(), AllocError>
    requires empty { histories.old.items ≡ [] }
    requires room { cpu_count machine.now ≤ histories.old.room }
    ensures { IfOk result (λ _. histories.new.items ≡ histories_below machine.now (cpu_count machine.now)) }
{
    for word in 0..machine.cpus() {
        let steps = most_steps_on(machine, word);
        histories.push(List::with_room(alloc, steps)?);
    }
    Ok(())
}

/// The most steps that all threads make on a clock word, and a lift by the watchdog, if there is one.
fn most_steps_on(machine: &Machine, word: u32) -> usize
    ensures { result ≡ steps_room machine.now word }
{
    let mut steps = usize::from(has_watchdog(machine));
    for thread in 0..machine.threads() {
        steps += machine.steps(thread, word) as usize;
    }
    steps
}
