//! The workers of a run and its watcher: made from the seats that were prepared, and run side by side.
ghost use Rattle.std.specs.Prelude.{◌≡◌, ◌<◌, ◌≤◌, All, [], length};
ghost use Rattle.clk_machine.specs.Plan.{cpu_count, threads_of};
ghost use Rattle.clk_machine.specs.Limits.{IsWithinLimits};
ghost use Rattle.clk_worker.specs.Making.{BelongsTo};
ghost use Rattle.clk_lawful.specs.Checks.{listed};
ghost use Rattle.clk_watcher.specs.Making.{BelongsTo as WatchBelongsTo};
ghost use Rattle.clk_threads.specs.Workers.{HaveSeats, IsOfLast, AreInSlots, HaveWatchSeats, IsWatcherOf, HasRun, HaveRun, HasWatchRun, WatcherRan};

use clk_latch::LatchSeat;
use clk_lawful::{Event, WatchTrace};
use clk_machine::{Gate, Machine};
use clk_num::List;
use clk_record::StableStamp;
use clk_ticket::TimeSeat;
use clk_watcher::{WatchParts, Watcher};
use clk_words::Seat;
use clk_worker::{Own, Post, Shared, Worker};
use std::thread::{Threads, for_each_mut, join};

/// What the threads begin with, in order: their seats, and their lists of events.
#[derive(Drop)]
pub(crate) struct Seats {
    pub(crate) seats: List<Seat>,
    pub(crate) latches: List<LatchSeat>,
    pub(crate) times: List<TimeSeat>,
    pub(crate) events: List<List<Event>>,
}

impl Seats {
    /// The worker of the last thread that has its seats here.
    fn pop(&mut self, machine: &Machine, adjusts: &List<i64>, sched_offset: i64) -> Worker
        requires limits { IsWithinLimits machine.now }
        requires adjusts { length adjusts.now.items ≡ cpu_count machine.now }
        requires there { 0 < length self.old.seats.items }
        requires few { length self.old.seats.items ≤ length (threads_of machine.now) }
        requires seats { HaveSeats (length self.old.seats.items) self.old }
        ensures { IsOfLast machine.now adjusts.now.items sched_offset self.old self.new result }
    {
        let thread = self.seats.len() as u32 - 1;
        let cpu = machine.cpu_of(thread);
        let post = Post {
            thread,
            cpu,
            adjust: *adjusts.get(cpu as usize),
            sched_offset,
        };
        let own = Own {
            seat: self.seats.pop(),
            latch_seat: self.latches.pop(),
            time: self.times.pop(),
        };
        Worker::new(post, own, self.events.pop())
    }
}

/// A worker of each thread in its slot, in order. The seats are taken from the last one on, and so the list is turned
/// round.
pub(crate) fn make_workers(
    machine: &Machine,
    adjusts: &List<i64>,
    mut seats: Seats,
    sched_offset: i64,
    mut slots: List<Option<Worker>>,
) -> List<Option<Worker>>
    requires limits { IsWithinLimits machine.now }
    requires adjusts { length adjusts.now.items ≡ cpu_count machine.now }
    requires count { length seats.seats.items ≡ length (threads_of machine.now) }
    requires seats { HaveSeats (length seats.seats.items) seats }
    requires empty { slots.items ≡ [] }
    requires room { length (threads_of machine.now) ≤ slots.room }
    ensures { AreInSlots machine.now adjusts.now.items sched_offset seats result.items }
{
    for _ in 0..machine.threads() {
        slots.push(Some(seats.pop(machine, adjusts, sched_offset)));
    }
    let mut in_order = slots.into_vec();
    in_order.reverse();
    List::from_vec(in_order)
}

/// What the watchdog begins with, if there is one: its seats, and the lists that it fills.
#[derive(Drop)]
pub(crate) struct WatchSeats {
    pub(crate) seat: Option<Seat>,
    pub(crate) latches: List<LatchSeat>,
    pub(crate) time: Option<TimeSeat>,
    pub(crate) trace: Option<WatchTrace>,
}

/// The watcher, if there are seats for one. At first it goes by the last of these stamps. `stable` says whether the
/// clock is stable as the scripts begin.
pub(crate) fn make_watcher(
    stamps: &[StableStamp],
    seats: WatchSeats,
    sched_offset: i64,
    gtod_offset: i64,
    stable: bool,
) -> Option<Watcher>
    requires some { 0 < length stamps.now }
    requires offsets { All (λ s. s.offset ≡ gtod_offset) stamps.now }
    requires seats { HaveWatchSeats seats }
    ensures { IsWatcherOf stamps.now sched_offset gtod_offset stable seats result }
{
    let WatchSeats {
        seat,
        latches,
        time,
        trace,
    } = seats;
    match seat {
        None => None,
        Some(seat) => {
            let parts = WatchParts {
                seat,
                latch_seats: latches,
                time: time.unwrap(),
                sched_offset,
                gtod_offset,
                last: stamps[stamps.len() - 1],
            };
            Some(Watcher::new(parts, trace.unwrap(), stable))
        }
    }
}

/// Each worker makes all words of its script, on a thread of its own, and beside them the watcher, if there is one, all
/// its checks.
pub(crate) fn run_all<R: Threads + Sync, G: Gate + Sync>(
    rt: &R,
    shared: &Shared,
    workers: List<Worker>,
    watcher: Option<Watcher>,
    gate: &G,
) -> (List<Worker>, Option<Watcher>)
    requires some { 0 < length workers.items }
    requires belong { All (BelongsTo shared.now) workers.items }
    requires watcher { All (WatchBelongsTo shared.now) (listed watcher) }
    ensures workers { HaveRun shared.now workers.items result.0.items }
    ensures watcher { WatcherRan shared.now watcher result.1 }
{
    match watcher {
        None => (run_workers(rt, shared, workers, gate), None),
        Some(watcher) => {
            let (workers, watcher) = run_beside(rt, shared, workers, watcher, gate);
            (workers, Some(watcher))
        }
    }
}

fn run_beside<R: Threads + Sync, G: Gate + Sync>(
    rt: &R,
    shared: &Shared,
    workers: List<Worker>,
    watcher: Watcher,
    gate: &G,
) -> (List<Worker>, Watcher)
    requires some { 0 < length workers.items }
    requires belong { All (BelongsTo shared.now) workers.items }
    requires watcher { WatchBelongsTo shared.now watcher }
    ensures workers { HaveRun shared.now workers.items result.0.items }
    ensures watcher { HasWatchRun shared.now watcher result.1 }
{
    join(
        rt,
        move || -> List<Worker>
            requires { (0 < length workers.items) × All (BelongsTo shared.now) workers.items }
            ensures { HaveRun shared.entry.now workers.items result.items }
        { run_workers(rt, shared, workers, gate) },
        move || -> Watcher
            requires { WatchBelongsTo shared.now watcher }
            ensures { HasWatchRun shared.entry.now watcher result }
        { run_watcher(shared, watcher, gate) },
    )
}

fn run_watcher<G: Gate>(shared: &Shared, mut watcher: Watcher, gate: &G) -> Watcher
    requires { WatchBelongsTo shared.now watcher }
    ensures { HasWatchRun shared.now watcher result }
{
    watcher.run(shared, gate);
    watcher
}

/// Each worker makes all words of its script, on a thread of its own.
fn run_workers<R: Threads + Sync, G: Gate + Sync>(
    rt: &R,
    shared: &Shared,
    mut workers: List<Worker>,
    gate: &G,
) -> List<Worker>
    requires some { 0 < length workers.items }
    requires belong { All (BelongsTo shared.now) workers.items }
    ensures { HaveRun shared.now workers.items result.items }
{
    run_each(rt, shared, workers.items_mut(), gate);
    workers
}

fn run_each<R: Threads + Sync, G: Gate + Sync>(
    rt: &R,
    shared: &Shared,
    workers: &mut [Worker],
    gate: &G,
)
    requires some { 0 < length workers.old }
    requires belong { All (BelongsTo shared.now) workers.old }
    ensures { HaveRun shared.now workers.old workers.new }
{
    let threads = workers.len();
    for_each_mut(
        rt,
        workers,
        threads,
        &|_: usize, worker: &mut Worker|
            requires { BelongsTo shared.now worker.now }
            ensures { HasRun shared.entry.now worker.entry.now worker.exit.now }
        { worker.run(shared, gate) },
    );
}
