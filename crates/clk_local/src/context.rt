//! What a thread calls with: its seats and their objects.
use clk_latch::Epochs;
use clk_machine::CpuCounter;
use clk_ticket::{TicketTable, TimeSeat};
use clk_words::{Seat, Words};

/// What a thread stands on: its seats, and the objects that they belong to.
///
/// Contracts see `Site` and `Known` of it (`specs/Context.antt`), and `IsUsable` is what each call asks of it.
#[derive(Drop)]
pub struct Ctx<'a, E: Epochs> {
    /// The clock words, made with the machine's tick. They open 0 to 2^57 ns above the machine's base.
    pub words: &'a Words,
    /// The thread's seat at them, of another kind than `Watch`.
    pub seat: Seat,
    /// The latch of the seat's CPU, whose record 0 has the machine's base as its ns.
    pub epochs: &'a E,
    /// The thread's seat at it.
    pub latch_seat: E::Seat,
    /// The tickets.
    pub tickets: &'a TicketTable,
    /// The thread's seat at them, with the tickets that its calls draw.
    pub time: TimeSeat,
    /// The counter of the seat's CPU, with an adjustment within 2^47 cycles of 0.
    pub counter: CpuCounter<'a>,
    /// What a stable reading adds to the raw clock, in ns, within 2^59 of 0.
    pub sched_offset: i64,
    /// The caller's own number for the call, which its steps show.
    pub call: u32,
}
