//! How a run is opened: the workers and the watcher are made of what was prepared, and the trace is begun.
ghost use Rattle.std.specs.Prelude.{◌≡◌, ◌≤◌, not, ◌&&◌, [], is_some, length};
ghost use Rattle.clk_machine.specs.Plan.{threads_of};
ghost use Rattle.clk_words.specs.Bounds.{opens_of};
ghost use Rattle.clk_threads.specs.Booting.{AreStamps, gtod_offset_of, opening_of};
ghost use Rattle.clk_threads.specs.Preparing.{IsPrepared};
ghost use Rattle.clk_threads.specs.Ending.{IsOpened, sorted_of, begun_by};

use crate::opened::{first_mode, opening_by};
use crate::prepared::Prepared;
use crate::workers::{Seats, WatchSeats, make_watcher, make_workers};
use clk_latch::LatchSeat;
use clk_lawful::{Event, HistoryStep, Trace};
use clk_machine::{Machine, Published};
use clk_num::List;
use clk_record::{BroughtUp, Demotion, StableStamp};
use clk_ticket::TimeSeat;
use clk_watcher::Watcher;
use clk_words::Seat;
use clk_worker::{Shared, Worker};

/// A run on its way.
#[derive(Drop)]
pub(crate) struct Running {
    pub(crate) shared: Shared,
    /// The worker of each thread, in order, where it is not taken, and the watcher, if there is one that is not taken.
    pub(crate) slots: List<Option<Worker>>,
    pub(crate) watcher: Option<Watcher>,
    /// The seat at the clock words that gave the workers and the watcher theirs, and the one that has the rest of the
    /// tickets.
    pub(crate) first: Seat,
    pub(crate) time: TimeSeat,
    /// Empty, with room for the workers' seats at the latches.
    pub(crate) latches: List<LatchSeat>,
    /// The trace, without the events of the threads, what the watchdog leaves and the histories.
    pub(crate) trace: Trace,
}

/// What was prepared, by who begins with it.
#[derive(Drop)]
struct Sorted {
    shared: Shared,
    seats: Seats,
    watch: WatchSeats,
    begun: Begun,
    first: Seat,
    time: TimeSeat,
    latches: List<LatchSeat>,
    slots: List<Option<Worker>>,
    workers: List<Worker>,
}

/// What the boot and the bring-up left of the trace, and the lists that the run fills.
#[derive(Drop)]
struct Begun {
    epoch: Published,
    stamps: List<StableStamp>,
    boot_demotion: Option<Demotion>,
    sched_offset: i64,
    gtod_offset: i64,
    up: BroughtUp,
    cpu_of: List<u32>,
    threads: List<List<Event>>,
    histories: List<List<HistoryStep>>,
}

/// Makes the workers and the watcher from the seats, and begins the trace with what the boot and the bring-up left. It
/// also answers the list that has room for the workers.
pub(crate) fn begin_run(prepared: Prepared) -> (Running, List<Worker>)
    requires { IsPrepared prepared.machine prepared }
    ensures opened { IsOpened prepared result.0 }
    ensures empty { result.1.items ≡ [] }
    ensures room { length (threads_of prepared.machine) ≤ result.1.room }
{
    let Sorted {
        shared,
        seats,
        watch,
        begun,
        first,
        time,
        latches,
        slots,
        workers,
    } = sort_out(prepared);
    let machine = &shared.machine;
    let stable = runs_stable(machine, begun.boot_demotion);
    let watcher = make_watcher(
        begun.stamps.items(),
        watch,
        begun.sched_offset,
        begun.gtod_offset,
        stable,
    );
    let slots = make_workers(machine, &shared.adjusts, seats, begun.sched_offset, slots);
    let trace = begin_trace(machine, begun);
    let running = Running {
        shared,
        slots,
        watcher,
        first,
        time,
        latches,
        trace,
    };
    (running, workers)
}

/// Sorts what was prepared by who begins with it.
fn sort_out(prepared: Prepared) -> Sorted
    ensures { result ≡ sorted_of prepared }
{
    let opened = prepared.opened;
    let latches = prepared.latches;
    let lists = prepared.lists;
    Sorted {
        shared: Shared {
            words: opened.words,
            epochs: latches.epochs,
            adjusts: lists.adjusts,
            tickets: prepared.tickets,
            machine: prepared.machine,
        },
        seats: Seats {
            seats: opened.seats,
            latches: latches.seats,
            times: prepared.times,
            events: lists.events,
        },
        watch: WatchSeats {
            seat: opened.watch,
            latches: latches.watch,
            time: prepared.watch_time,
            trace: lists.watch,
        },
        begun: Begun {
            epoch: prepared.epoch,
            stamps: prepared.stamps,
            boot_demotion: prepared.boot_demotion,
            sched_offset: prepared.sched_offset,
            gtod_offset: prepared.gtod_offset,
            up: prepared.up,
            cpu_of: lists.cpu_of,
            threads: lists.threads,
            histories: lists.histories,
        },
        first: opened.first,
        time: prepared.time,
        latches: lists.latches,
        slots: lists.slots,
        workers: lists.workers,
    }
}

/// Whether the clock is stable as the scripts begin: it started so, and was not demoted at boot.
fn runs_stable(machine: &Machine, boot_demotion: Option<Demotion>) -> bool
    ensures { result ≡ (machine.now.stable && not (is_some boot_demotion)) }
{
    machine.starts_stable() && boot_demotion.is_none()
}

/// The trace as it begins.
fn begin_trace(machine: &Machine, begun: Begun) -> Trace
    requires stamps { AreStamps machine.now begun.stamps.items }
    requires offset { begun.gtod_offset ≡ gtod_offset_of begun.stamps.items }
    ensures { result ≡ begun_by machine.now begun }
{
    let start_word = start_word(
        machine,
        begun.stamps.items(),
        begun.gtod_offset,
        begun.boot_demotion,
    );
    Trace {
        epoch_ticket: begun.epoch.ticket,
        epoch_cyc: begun.epoch.cyc,
        boots: begun.stamps,
        starts: first_mode(machine),
        sched_offset: begun.sched_offset,
        gtod_offset: begun.gtod_offset,
        ups: begun.up,
        boot_demotion: begun.boot_demotion,
        start_word,
        cpu_of: begun.cpu_of,
        threads: begun.threads,
        watch: None,
        histories: begun.histories,
        tickets: 0,
    }
}

/// Where every clock word opens.
fn start_word(
    machine: &Machine,
    stamps: &[StableStamp],
    gtod_offset: i64,
    boot_demotion: Option<Demotion>,
) -> i64
    requires stamps { AreStamps machine.now stamps.now }
    requires offset { gtod_offset ≡ gtod_offset_of stamps.now }
    ensures { result ≡ opens_of (opening_of machine.now stamps.now boot_demotion) }
{
    let opening = opening_by(machine, stamps, gtod_offset, boot_demotion);
    opening.tick_gtod.wrapping_add(opening.offset)
}
