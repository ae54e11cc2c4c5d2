//! Raw readings by one of several latches.
ghost use Rattle.std.specs.Prelude.{◌≡◌, ◌<◌, ◌≤◌, length, map};
ghost use Rattle.std.specs.List.{AllZip};
ghost use Rattle.clk_num.specs.Range.{IsNear};
ghost use Rattle.clk_machine.specs.Plan.{cpu_count};
ghost use Rattle.clk_latch.specs.Calls.{DrawsTicket};
ghost use Rattle.clk_demote.specs.Stamping.{ReadsAt};

use clk_latch::Epochs;
use clk_machine::{CpuCounter, RawReading};
use clk_num::List;
use clk_ticket::{TicketTable, TimeSeat};

/// A raw reading of the counter's CPU, by its latch among those of all CPUs.
pub(crate) fn read_at<E: Epochs>(
    epochs: &List<E>,
    seats: &mut List<E::Seat>,
    tickets: &TicketTable,
    time: &mut TimeSeat,
    counter: CpuCounter<'_>,
) -> RawReading
    requires own { AllZip E.fits epochs.now.items seats.old.items }
    requires latch { counter.cpu < length epochs.now.items }
    requires table { time.old.table ≡ tickets.now.table }
    requires ticket { 1 ≤ time.old.left }
    requires cpu { counter.cpu < cpu_count counter.machine.now }
    requires adjust { IsNear 47 counter.adjust }
    ensures own { AllZip E.fits epochs.now.items seats.new.items }
    ensures draws { DrawsTicket time.old result.ticket time.new }
    ensures reads { ReadsAt counter.entry.machine.now counter.entry.cpu counter.entry.adjust
        (map E.epoch seats.old.items) (map E.epoch seats.new.items) result }
{
    read_slot(epochs.items(), seats.items_mut(), tickets, time, counter)
}

fn read_slot<E: Epochs>(
    epochs: &[E],
    seats: &mut [E::Seat],
    tickets: &TicketTable,
    time: &mut TimeSeat,
    counter: CpuCounter<'_>,
) -> RawReading
    requires own { AllZip E.fits epochs.now seats.old }
    requires latch { counter.cpu < length epochs.now }
    requires seat { counter.cpu < length seats.old }
    requires table { time.old.table ≡ tickets.now.table }
    requires ticket { 1 ≤ time.old.left }
    requires cpu { counter.cpu < cpu_count counter.machine.now }
    requires adjust { IsNear 47 counter.adjust }
    ensures own { AllZip E.fits epochs.now seats.new }
    ensures draws { DrawsTicket time.old result.ticket time.new }
    ensures reads { ReadsAt counter.entry.machine.now counter.entry.cpu counter.entry.adjust
        (map E.epoch seats.old) (map E.epoch seats.new) result }
{
    let cpu = counter.cpu as usize;
    epochs[cpu].read(&mut seats[cpu], tickets, time, counter)
}
