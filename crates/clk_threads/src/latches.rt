//! The latches of a run, and the seats of its threads and of its watchdog there.
ghost use Rattle.std.specs.Prelude.{◌≡◌, ◌+◌, ◌<◌, ◌≤◌, All, IfOk, [], length, map, slice_index_or};
ghost use Rattle.clk_base.specs.Walk.{EachFrom};
ghost use Rattle.clk_machine.specs.Plan.{threads_of};
ghost use Rattle.clk_latch.specs.Calls.{IsRecordZero};
ghost use Rattle.clk_latch.specs.Epoch.{Place, owner_of, reader_of};
ghost use Rattle.clk_threads.specs.Preparing.{AreOwners, AreSplitOff, HaveLatches, HaveWatchLatches};

use crate::watchdog::watched_cpus;
use clk_latch::{Epochs, Latch, LatchSeat};
use clk_machine::{Machine, Published};
use clk_num::List;
use std::alloc::{AllocError, Global};

/// The most updates of a script.
const UPDATES: u32 = 1024;

/// The latch of each CPU, and the seats there.
#[derive(Drop)]
pub struct Latches {
    pub epochs: List<Latch>,
    /// The seat of each thread at its CPU's latch, in order.
    pub seats: List<LatchSeat>,
    /// The watchdog's seat at the latch of each CPU, in order, and none where there is no watchdog.
    pub watch: List<LatchSeat>,
}

/// A latch with record 0 for each CPU, whose owner's seat is that of the CPU's own thread; and the seat of each reader,
/// split off its CPU's owner's, and so a seat of the watchdog at each latch, if there is a watchdog. The error is want
/// of memory.
pub(crate) fn make_latches(
    alloc: Global,
    zero: Published,
    machine: &Machine,
) -> Result<Latches, AllocError>
    requires { IsRecordZero zero }
    ensures latches { IfOk result (HaveLatches machine.now zero (length (threads_of machine.now))) }
    ensures watch { IfOk result (HaveWatchLatches machine.now zero) }
{
    let cpus = machine.cpus();
    let watched = watched_cpus(machine);
    let watch = List::with_room(alloc, watched as usize)?;
    let mut epochs = List::with_room(alloc, cpus as usize)?;
    let mut seats = List::with_room(alloc, machine.threads() as usize)?;
    fill_latches(alloc, zero, cpus, &mut epochs, &mut seats)?;
    let mut latches = Latches {
        epochs,
        seats,
        watch,
    };
    for thread in cpus..machine.threads() {
        let cpu = machine.cpu_of(thread) as usize;
        let reader = split_reader(latches.epochs.get(cpu), latches.seats.items_mut(), cpu);
        latches.seats.push(reader);
    }
    split_watch_seats(&mut latches, watched);
    Ok(latches)
}

fn fill_latches(
    alloc: Global,
    zero: Published,
    cpus: u32,
    epochs: &mut List<Latch>,
    seats: &mut List<LatchSeat>,
) -> Result<(), AllocError>
    requires zero { IsRecordZero zero }
    requires epochs { (epochs.old.items ≡ []) × (cpus ≤ epochs.old.room) }
    requires seats { (seats.old.items ≡ []) × (cpus ≤ seats.old.room) }
    ensures count { IfOk result (λ _. length epochs.new.items ≡ cpus) }
    ensures latches { IfOk result (λ _. map (λ s. s.latch) seats.new.items ≡ epochs.new.items) }
    ensures owners { IfOk result (λ _. All (λ s. s.epoch ≡ owner_of zero 1024) seats.new.items) }
    ensures room { IfOk result (λ _. seats.new.room + cpus ≡ seats.old.room) }
{
    for _ in 0..cpus {
        let (latch, seat) = Latch::new(alloc, zero, UPDATES)?;
        epochs.push(latch);
        seats.push(seat);
    }
    Ok(())
}

/// A reader's seat, split off the owner's.
fn split_reader(latch: &Latch, seats: &mut [LatchSeat], owner: usize) -> LatchSeat
    requires there { owner < length seats.old }
    requires own { (d : Place) → (slice_index_or seats.old owner d).latch ≡ latch.now }
    ensures same { seats.new ≡ seats.old }
    ensures own { result.latch ≡ latch.now }
    ensures reader { (d : Place) → result.epoch ≡ reader_of (slice_index_or seats.old owner d).epoch }
{
    latch.split(&mut seats[owner])
}

/// Splits a seat of the watchdog off the owner's of each of the first `cpus` CPUs.
fn split_watch_seats(latches: &mut Latches, cpus: u32)
    requires there { (cpus ≤ length latches.old.epochs.items) × (cpus ≤ length latches.old.seats.items) }
    requires own { AreOwners cpus latches.old }
    requires watch { (latches.old.watch.items ≡ []) × (cpus ≤ latches.old.watch.room) }
    ensures epochs { latches.new.epochs ≡ latches.old.epochs }
    ensures seats { latches.new.seats.items ≡ latches.old.seats.items }
    ensures count { length latches.new.watch.items ≡ cpus }
    ensures watch { AreSplitOff latches.new }
{
    for cpu in 0..cpus {
        let owner = cpu as usize;
        let reader = split_reader(latches.epochs.get(owner), latches.seats.items_mut(), owner);
        latches.watch.push(reader);
    }
}
