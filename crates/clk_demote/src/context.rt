//! What the watchdog calls with: its seats and their objects.
use clk_latch::Epochs;
use clk_machine::Machine;
use clk_num::List;
use clk_record::StableStamp;
use clk_ticket::{TicketTable, TimeSeat};
use clk_words::{Seat, Words};

/// What the watchdog stands on: its seats, and the objects that they belong to. The lists have one item for each CPU of
/// the machine, in order.
///
/// Contracts see `Site` and `Known` of it (`specs/Context.antt`), and `IsUsable` is what each call asks of it.
#[derive(Drop)]
pub struct WatchCtx<'a, E: Epochs> {
    /// The clock words of the machine's CPUs. They open 0 to 2^57 ns above the machine's base.
    pub words: &'a Words,
    /// The seat at them with the watchdog's right, which has lifted no word.
    pub seat: Seat,
    /// The latches, whose records 0 have the machine's base as their ns.
    pub epochs: &'a List<E>,
    /// The watchdog's seats at them.
    pub latch_seats: List<E::Seat>,
    /// The adjustments of the CPUs' counters, each within 2^47 cycles of 0.
    pub adjusts: &'a List<i64>,
    /// The tickets.
    pub tickets: &'a TicketTable,
    /// The watchdog's seat at them, with the tickets that its calls draw.
    pub time: TimeSeat,
    /// The machine.
    pub machine: &'a Machine,
    /// What a stable reading adds to the raw clock, in ns, within 2^57 of 0.
    pub sched_offset: i64,
    /// The offset that the words hold: by `last` it takes monotonic time to the stable clock.
    pub gtod_offset: i64,
    /// The last stable stamp, or at first the last one of the boot.
    pub last: StableStamp,
}
