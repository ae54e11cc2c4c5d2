//! The boot of a machine: the epoch, the stamps of CPU 0, and the offsets by them.
ghost use Rattle.std.specs.Prelude.{◌≡◌, [], ◌≤◌, IfOk};
ghost use Rattle.clk_ticket.specs.Time.{fresh};
ghost use Rattle.clk_machine.specs.Limits.{most_tickets, IsWithinLimits};
ghost use Rattle.clk_machine.specs.Records.{record_zero};
ghost use Rattle.clk_latch.specs.Epoch.{owner_of};
ghost use Rattle.clk_threads.specs.Booting.{HasEpoch, MayStampAtBoot, HasStamped, HasStarted, IsBooted};

use clk_latch::{Epochs, Latch, LatchSeat};
use clk_machine::{CpuCounter, Machine, Published};
use clk_num::List;
use clk_record::StableStamp;
use clk_ticket::{TicketTable, TimeSeat};
use std::alloc::{AllocError, Global};

/// The tickets of a run: the most that a machine may need.
const TICKETS: u64 = 1 << 26;

/// A stable start stamps twice.
const MOST_STAMPS: usize = 2;

/// What the boot of a machine leaves.
#[derive(Drop)]
pub struct Booted {
    pub machine: Machine,
    /// The tickets of the run, 2^26, and the seat that has those that the boot left.
    pub tickets: TicketTable,
    pub time: TimeSeat,
    /// Record 0 of each CPU's latch: the counter of CPU 0 at ticket 0, and the ns at which the clocks begin.
    pub epoch: Published,
    /// The stamps of CPU 0: one, and in a stable start two.
    pub stamps: List<StableStamp>,
    /// In ns, what takes a raw reading to the stable clock: `__sched_clock_offset` of Linux 6.1's
    /// `kernel/sched/clock.c`. 0 where the clock does not start stable, and else within 2^57 of 0.
    pub sched_offset: i64,
    /// In ns, what takes monotonic time to the scheduler clock, which wraps: `__gtod_offset` there.
    pub gtod_offset: i64,
}

/// Boots CPU 0: it reads the epoch and stamps, with the first 3 tickets, or 5 where the clock starts stable. The error
/// is want of memory.
///
/// The offset of monotonic time is by the first stamp, as `__sched_clock_gtod_offset` of Linux 6.1's
/// `kernel/sched/clock.c` sets it in `sched_clock_init`, and that of the stable clock by the second, as in
/// `__set_sched_clock_stable`.
pub fn boot(alloc: Global, machine: Machine) -> Result<Booted, AllocError>
    ensures { IfOk result (IsBooted machine) }
{
    let _few = machine.tickets_needed();
    let stamps = List::with_room(alloc, MOST_STAMPS)?;
    let (tickets, mut time) = TicketTable::new(alloc, TICKETS)?;
    let epoch = read_epoch(&machine, &tickets, &mut time);
    let (latch, mut seat) = Latch::new(alloc, epoch, 0)?;
    let start = start(&machine, &tickets, &mut time, &latch, &mut seat, stamps);
    Ok(Booted {
        machine,
        tickets,
        time,
        epoch,
        stamps: start.stamps,
        sched_offset: start.sched_offset,
        gtod_offset: start.gtod_offset,
    })
}

/// Record 0: the counter of CPU 0 at the first ticket, which is ticket 0, since all tickets were left before, and the
/// base of the machine's clocks in ns.
fn read_epoch(machine: &Machine, tickets: &TicketTable, time: &mut TimeSeat) -> Published
    requires limits { IsWithinLimits machine.now }
    requires time { time.old ≡ fresh tickets.now.table most_tickets 0 }
    ensures epoch { result ≡ record_zero machine.now }
    ensures time { HasEpoch tickets.now time.new }
{
    let ticket = tickets.draw(time, 1);
    Published {
        rec: 0,
        ticket,
        cyc: machine.counter(0, 0, ticket),
        ns: machine.base(),
    }
}

/// What the clock starts with.
#[derive(Drop)]
struct Started {
    stamps: List<StableStamp>,
    sched_offset: i64,
    gtod_offset: i64,
}

/// Stamps as often as the start asks for, and sets the offsets by the stamps.
fn start(
    machine: &Machine,
    tickets: &TicketTable,
    time: &mut TimeSeat,
    latch: &Latch,
    seat: &mut LatchSeat,
    mut stamps: List<StableStamp>,
) -> Started
    requires limits { IsWithinLimits machine.now }
    requires stamps { (stamps.items ≡ []) × (2 ≤ stamps.room) }
    requires own { seat.old.latch ≡ latch.now }
    requires seat { seat.old.epoch ≡ owner_of (record_zero machine.now) 0 }
    requires time { HasEpoch tickets.now time.old }
    ensures { HasStarted machine.now tickets.now time.new result }
{
    let first = stamp(machine, tickets, time, latch, seat);
    stamps.push(first);
    if !machine.starts_stable() {
        return Started {
            stamps,
            sched_offset: 0,
            gtod_offset: first.offset,
        };
    }
    let second = stamp(machine, tickets, time, latch, seat);
    stamps.push(StableStamp {
        gtod_ticket: second.gtod_ticket,
        gtod: second.gtod,
        raw: second.raw,
        offset: first.offset,
    });
    Started {
        stamps,
        sched_offset: second
            .gtod
            .wrapping_add(first.offset)
            .wrapping_sub(second.raw.ns),
        gtod_offset: first.offset,
    }
}

/// A stamp of CPU 0 by record 0, whose offset takes its monotonic time to its raw reading. After `__scd_stamp` of Linux
/// 6.1's `kernel/sched/clock.c`.
pub(crate) fn stamp(
    machine: &Machine,
    tickets: &TicketTable,
    time: &mut TimeSeat,
    latch: &Latch,
    seat: &mut LatchSeat,
) -> StableStamp
    requires limits { IsWithinLimits machine.now }
    requires own { seat.old.latch ≡ latch.now }
    requires may { MayStampAtBoot machine.now tickets.now time.old seat.old.epoch }
    ensures own { seat.new.latch ≡ latch.now }
    ensures stamped { HasStamped machine.now time.old time.new seat.new.epoch result }
{
    let gtod_ticket = tickets.draw(time, 1);
    let gtod = machine.gtod(gtod_ticket);
    let counter = CpuCounter {
        machine,
        cpu: 0,
        adjust: 0,
    };
    let raw = latch.read(seat, tickets, time, counter);
    StableStamp {
        gtod_ticket,
        gtod,
        raw,
        offset: raw.ns.wrapping_sub(gtod),
    }
}
