//! What the layers above see of a latch of any kind.
ghost use Rattle.std.specs.Prelude.{◌≡◌, ◌<◌, ◌≤◌, true};
ghost use Rattle.clk_num.specs.Range.{IsNear};
ghost use Rattle.clk_machine.specs.Plan.{cpu_count};
ghost use Rattle.clk_machine.specs.Records.{AreRecords};
ghost use Rattle.clk_latch.specs.Epoch.{Epoch, reader_of};
ghost use Rattle.clk_latch.specs.Calls.{DrawsTicket, AreDrawn, Reads, Updates, Joins};

use clk_machine::{CpuCounter, Published, RawReading};
use clk_ticket::{TicketTable, TimeSeat};

/// A latch of any kind: it keeps the current record of one CPU for one owner, who publishes records, and any readers.
///
/// Contracts see of a seat its `epoch`, and `fits` says that it belongs to the latch.
pub trait Epochs {
    type Seat: Send + Drop;

    ghost fits: { Self → Self.Seat → Type 0 };

    ghost epoch: { Self.Seat → Epoch };

    /// The time in ns, which wraps, by the current record, of a counter at the next ticket. The ticket is drawn before
    /// the first turn, and later turns keep the counter's value. At a [`crate::Latch`] it returns because each further
    /// turn saw a greater sequence. After `sched_clock` of Linux 6.1.
    fn read(
        &self,
        seat: &mut Self::Seat,
        tickets: &TicketTable,
        time: &mut TimeSeat,
        counter: CpuCounter<'_>,
    ) -> RawReading
        requires own { fits self.now seat.old }
        requires table { time.old.table ≡ tickets.now.table }
        requires ticket { 1 ≤ time.old.left }
        requires cpu { counter.cpu < cpu_count counter.machine.now }
        requires adjust { IsNear 47 counter.adjust }
        ensures own { fits self.now seat.new }
        ensures draws { DrawsTicket time.old result.ticket time.new }
        ensures reads { Reads counter.entry.machine.now counter.entry.cpu counter.entry.adjust
            (epoch seat.old) (epoch seat.new) result };

    /// Publishes the record that follows: the counter at the next ticket, and the ns, which wrap, that the current
    /// record gives for it. The seat is the owner's, has an update left, and has seen the records of this counter,
    /// whose tickets `time` drew. After `update_sched_clock` of Linux 6.1.
    fn update(
        &self,
        seat: &mut Self::Seat,
        tickets: &TicketTable,
        time: &mut TimeSeat,
        counter: CpuCounter<'_>,
    ) -> Published
        requires own { fits self.now seat.old }
        requires owner { (epoch seat.old).owner ≡ true }
        requires left { 1 ≤ (epoch seat.old).left }
        requires table { time.old.table ≡ tickets.now.table }
        requires ticket { 1 ≤ time.old.left }
        requires cpu { counter.cpu < cpu_count counter.machine.now }
        requires adjust { IsNear 47 counter.adjust }
        requires records { AreRecords counter.machine.now counter.cpu counter.adjust (epoch seat.old).records }
        requires drawn { AreDrawn time.old.blocks (epoch seat.old).records }
        ensures own { fits self.now seat.new }
        ensures draws { DrawsTicket time.old result.ticket time.new }
        ensures updates { Updates counter.entry.machine.now counter.entry.cpu counter.entry.adjust
            (epoch seat.old) (epoch seat.new) result }
        ensures drawn { AreDrawn time.new.blocks (epoch seat.new).records };

    /// A reader's seat, which has seen what this one has.
    fn split(&self, seat: &mut Self::Seat) -> Self::Seat
        requires { fits self.now seat.old }
        ensures own { fits self.now seat.new }
        ensures reader_own { fits self.now result }
        ensures seat { epoch seat.new ≡ epoch seat.old }
        ensures reader { epoch result ≡ reader_of (epoch seat.old) };

    /// One seat in place of two. It has the owner's right if one of them had.
    fn join(&self, a: Self::Seat, b: Self::Seat) -> Self::Seat
        requires first { fits self.now a }
        requires second { fits self.now b }
        ensures own { fits self.now result }
        ensures joins { Joins (epoch a) (epoch b) (epoch result) };
}
