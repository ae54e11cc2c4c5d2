//! How a run is closed: the seats of all workers and of the watcher are joined again, and the tables answer.
ghost use Rattle.clk_threads.specs.Ending.{hands_in, MayGather, HasGathered, MayGatherWatch, HasGatheredWatch, MayClose, HasClosed};

use crate::joins::{join_latches, join_watch};
use crate::run::Finished;
use crate::running::Running;
use clk_latch::LatchSeat;
use clk_lawful::{Event, WatchTrace};
use clk_num::List;
use clk_ticket::TimeSeat;
use clk_trace::histories;
use clk_watcher::Watcher;
use clk_words::Seat;
use clk_worker::{Shared, Worker};

/// Takes the workers and the watcher apart, joins their seats with the first ones and those at the latches with the
/// owners', asks the tables for the words' history and for how many tickets were drawn, and finds the histories of the
/// trace.
pub(crate) fn end_run(running: Running) -> Finished
    requires { MayClose running }
    ensures { HasClosed running result }
{
    let Running {
        shared,
        slots,
        watcher,
        first,
        time,
        mut latches,
        mut trace,
    } = running;
    let (first, time) = gather(
        &shared,
        slots,
        first,
        time,
        &mut trace.threads,
        &mut latches,
    );
    let owners = join_latches(&shared, latches);
    let (first, time, watch) = gather_watch(&shared, watcher, owners, first, time);
    trace.watch = watch;
    trace.tickets = shared.tickets.finish(time);
    histories(&mut trace);
    Finished {
        trace,
        closed: shared.words.finish(first),
    }
}

/// Joins the watchdog's seats with these two and with the owners' at the latches, if there is a watchdog, and answers
/// what it left for the trace.
fn gather_watch(
    shared: &Shared,
    watcher: Option<Watcher>,
    owners: List<LatchSeat>,
    first: Seat,
    time: TimeSeat,
) -> (Seat, TimeSeat, Option<WatchTrace>)
    requires { MayGatherWatch shared.now watcher owners.items first time }
    ensures { HasGatheredWatch shared.now watcher owners.items first time result.0 result.1 result.2 }
{
    match watcher {
        None => (first, time, None),
        Some(watcher) => {
            let (parts, watch) = watcher.into_parts();
            join_watch(shared, owners, parts.latch_seats);
            let first = shared.words.join(first, parts.seat);
            let time = shared.tickets.join(time, parts.time);
            (first, time, Some(watch))
        }
    }
}

/// Joins the seats of all workers with these two, and keeps the events and the latch seat of each thread, in order.
fn gather(
    shared: &Shared,
    slots: List<Option<Worker>>,
    mut first: Seat,
    mut time: TimeSeat,
    threads: &mut List<List<Event>>,
    latches: &mut List<LatchSeat>,
) -> (Seat, TimeSeat)
    requires { MayGather shared.now slots.items first time threads.old latches.old }
    ensures { HasGathered shared.now (hands_in slots.items) first time threads.old latches.old result.0 result.1 threads.new latches.new }
{
    for slot in slots.into_vec() {
        let (own, events) = slot.unwrap().into_parts();
        first = shared.words.join(first, own.seat);
        time = shared.tickets.join(time, own.time);
        threads.push(events);
        latches.push(own.latch_seat);
    }
    (first, time)
}
