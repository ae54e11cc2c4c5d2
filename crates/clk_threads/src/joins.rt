//! The joins of the latch seats at the end of a run.
ghost use Rattle.clk_base.specs.Walk.{EachFrom};
ghost use Rattle.clk_threads.specs.Ending.{FitLatches, RecordsBegin, AreOwnersLeft, FitWatch, WatchFollows};

use clk_latch::{Epochs, LatchSeat};
use clk_num::List;
use clk_worker::Shared;

/// Joins the latch seat of each reader with the one of its CPU's own thread: so the records that it has seen begin
/// those that this thread has. It answers the seats of the CPUs' own threads. The seats are those of all threads, in
/// order, and so the last one is a reader's while there are readers.
pub(crate) fn join_latches(shared: &Shared, seats: List<LatchSeat>) -> List<LatchSeat>
    requires { FitLatches shared.now seats.items }
    ensures readers { EachFrom (RecordsBegin shared.now.machine seats.items) 0 seats.items }
    ensures owners { AreOwnersLeft shared.now seats.items result.items }
{
    let mut seats = seats.into_vec();
    for _ in 0..shared.machine.readers() {
        let reader = seats.pop().unwrap();
        let cpu = shared.machine.cpu_of(seats.len() as u32) as usize;
        let owner = seats.remove(cpu);
        let joined = shared.epochs.get(cpu).join(owner, reader);
        seats.insert(cpu, joined).unwrap();
    }
    List::from_vec(seats)
}

/// Joins the watchdog's seat at each latch with the owner's, which are those of all CPUs, in order: so the records that
/// it has seen begin those that the CPU's own thread has.
pub(crate) fn join_watch(shared: &Shared, mut owners: List<LatchSeat>, mut watch: List<LatchSeat>)
    requires { FitWatch shared.now owners.items watch.items }
    ensures { EachFrom (WatchFollows owners.items) 0 watch.items }
{
    for _ in 0..watch.len() {
        let reader = watch.pop();
        let owner = owners.pop();
        shared.epochs.get(watch.len()).join(owner, reader);
    }
}
