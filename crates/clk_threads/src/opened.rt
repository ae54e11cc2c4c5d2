//! The clock words of a run, and the seats of its threads and of its watchdog there.
ghost use Rattle.std.specs.Prelude.{◌≡◌, ◌<◌, ◌≤◌, [], IfOk, length, is_some, Option, Some, None, if◌then◌else◌};
ghost use Rattle.clk_machine.specs.Plan.{cpu_count, threads_of};
ghost use Rattle.clk_machine.specs.Limits.{IsWithinLimits};
ghost use Rattle.clk_record.specs.declared.mode.Mode.TheVariants.{Stable as StableMode, PerCpu as PerCpuMode};
ghost use Rattle.clk_words.specs.Views.{first_view};
ghost use Rattle.clk_threads.specs.Booting.{AreStamps, IsDemotedAtBootBy, gtod_offset_of, opening_of};
ghost use Rattle.clk_threads.specs.Preparing.{kind_on, gave, gave_threads, gave_all, thread_seats, watch_seat, HasOpened};

use crate::watchdog::has_watchdog;
use clk_machine::Machine;
use clk_num::List;
use clk_record::{Demotion, Mode, StableStamp};
use clk_words::{Opening, Seat, SeatKind, Words};
use std::alloc::{AllocError, Global};

/// The clock words of a run, and its seats there.
#[derive(Drop)]
pub struct Opened {
    pub words: Words,
    /// The seat of each thread, in order.
    pub seats: List<Seat>,
    /// The watchdog's, if there is a watchdog. In a stable start it alone may end the stable mode.
    pub watch: Option<Seat>,
    /// The first seat, which gave them.
    pub first: Seat,
}

/// Opens the clock words by the last stamp of the boot, or by a demotion at boot, and splits a seat off for each
/// thread, in order, and then one for the watchdog, if there is one. The error is want of memory.
pub(crate) fn open_words(
    alloc: Global,
    machine: &Machine,
    stamps: &[StableStamp],
    gtod_offset: i64,
    demotion: Option<Demotion>,
) -> Result<Opened, AllocError>
    requires stamps { AreStamps machine.now stamps.now }
    requires offset { gtod_offset ≡ gtod_offset_of stamps.now }
    requires demotion { IsDemotedAtBootBy machine.now stamps.now demotion }
    ensures { IfOk result (HasOpened machine.now stamps.now demotion) }
{
    let cpus = machine.cpus();
    let seats = List::with_room(alloc, machine.threads() as usize)?;
    let opening = opening_by(machine, stamps, gtod_offset, demotion);
    let (words, mut first) = Words::new(alloc, cpus, machine.tick(), opening)?;
    let seats = split_seats(machine, &words, &mut first, seats);
    let watch = split_watch(machine, &words, &mut first);
    Ok(Opened {
        words,
        seats,
        watch,
        first,
    })
}

/// What the clock words begin with: the pair of the last stamp, or that of a demotion at boot, by which the clock is
/// per-CPU.
pub(crate) fn opening_by(
    machine: &Machine,
    stamps: &[StableStamp],
    gtod_offset: i64,
    demotion: Option<Demotion>,
) -> Opening
    requires stamps { AreStamps machine.now stamps.now }
    requires offset { gtod_offset ≡ gtod_offset_of stamps.now }
    ensures { result ≡ opening_of machine.now stamps.now demotion }
{
    match demotion {
        None => opening_at_stamp(machine, stamps, gtod_offset),
        Some(demotion) => Opening {
            mode: Mode::PerCpu,
            offset: gtod_offset,
            tick_gtod: demotion.gtod,
            tick_raw: demotion.raw.ns,
        },
    }
}

fn opening_at_stamp(machine: &Machine, stamps: &[StableStamp], gtod_offset: i64) -> Opening
    requires stamps { AreStamps machine.now stamps.now }
    requires offset { gtod_offset ≡ gtod_offset_of stamps.now }
    ensures { result ≡ opening_of machine.now stamps.now None }
{
    let last = stamps[stamps.len() - 1];
    Opening {
        mode: first_mode(machine),
        offset: gtod_offset,
        tick_gtod: last.gtod,
        tick_raw: last.raw.ns,
    }
}

/// Whether the clock begins stable.
pub(crate) fn first_mode(machine: &Machine) -> Mode
    ensures { result ≡ (if machine.now.stable then StableMode else PerCpuMode) }
{
    if machine.starts_stable() {
        Mode::Stable
    } else {
        Mode::PerCpu
    }
}

/// Splits the seat of each thread off the first seat: thread `k` gets number `k + 1`.
fn split_seats(
    machine: &Machine,
    words: &Words,
    first: &mut Seat,
    mut seats: List<Seat>,
) -> List<Seat>
    requires limits { IsWithinLimits machine.now }
    requires first { first.old ≡ record { table = words.now.table; view = first_view words.now.start } }
    requires cpus { words.now.start.cpus ≡ cpu_count machine.now }
    requires seats { seats.items ≡ [] }
    requires room { length (threads_of machine.now) ≤ seats.room }
    ensures first { first.new ≡ record { table = words.now.table; view = gave_threads machine.now words.now.start } }
    ensures seats { result.items ≡ thread_seats machine.now words.now (length (threads_of machine.now)) }
{
    for thread in 0..machine.threads() {
        seats.push(words.split(first, kind_of(machine, thread)));
    }
    seats
}

/// The kind of a thread's seat: a CPU's own thread is its owner, and any other reads there.
fn kind_of(machine: &Machine, thread: u32) -> SeatKind
    requires { thread < length (threads_of machine.now) }
    ensures { result ≡ kind_on machine.now thread }
{
    if thread < machine.cpus() {
        SeatKind::Owner(thread)
    } else {
        SeatKind::Reader(machine.cpu_of(thread))
    }
}

/// Splits the watchdog's seat off the first seat, if there is a watchdog: it gets the number after those of the
/// threads.
fn split_watch(machine: &Machine, words: &Words, first: &mut Seat) -> Option<Seat>
    requires limits { IsWithinLimits machine.now }
    requires first { first.old ≡ record { table = words.now.table; view = gave_threads machine.now words.now.start } }
    requires cpus { words.now.start.cpus ≡ cpu_count machine.now }
    ensures first { first.new ≡ record { table = words.now.table; view = gave_all machine.now words.now.start } }
    ensures seat { result ≡ (if is_some machine.now.watchdog then Some (watch_seat machine.now words.now) else None) }
{
    if has_watchdog(machine) {
        Some(words.split(first, SeatKind::Watch))
    } else {
        None
    }
}
