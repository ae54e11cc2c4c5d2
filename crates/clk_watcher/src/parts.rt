//! What the watchdog has of its own, and the context of its calls.
ghost use Rattle.clk_watcher.specs.Calling.{HasPartsOf, IsContext};

use clk_demote::WatchCtx;
use clk_latch::{Latch, LatchSeat};
use clk_num::List;
use clk_record::StableStamp;
use clk_ticket::TimeSeat;
use clk_words::Seat;
use clk_worker::Shared;

/// What the watchdog has of its own: its seats, and what it goes by while the clock is stable.
#[derive(Drop)]
pub struct WatchParts {
    /// The seat at the clock words, with the watchdog's right where the clock is stable.
    pub seat: Seat,
    /// The seats at the latches, one for each CPU.
    pub latch_seats: List<LatchSeat>,
    /// The seat at the tickets, with those of all checks.
    pub time: TimeSeat,
    /// What a stable reading adds to the raw clock, in ns.
    pub sched_offset: i64,
    /// The offset that the words hold, in ns: by `last` it takes monotonic time to the stable clock.
    pub gtod_offset: i64,
    /// The last stable stamp, or at first the last one of the boot.
    pub last: StableStamp,
}

// What the watchdog calls with: its parts, and what they belong to.
pub(crate) fn context<'a>(shared: &'a Shared, parts: WatchParts) -> WatchCtx<'a, Latch>
    ensures { IsContext shared.now parts result }
{
    WatchCtx {
        words: &shared.words,
        seat: parts.seat,
        epochs: &shared.epochs,
        latch_seats: parts.latch_seats,
        adjusts: &shared.adjusts,
        tickets: &shared.tickets,
        time: parts.time,
        machine: &shared.machine,
        sched_offset: parts.sched_offset,
        gtod_offset: parts.gtod_offset,
        last: parts.last,
    }
}

// The parts of a context.
pub(crate) fn parts_of(ctx: WatchCtx<'_, Latch>) -> WatchParts
    ensures { HasPartsOf ctx.entry result }
{
    WatchParts {
        seat: ctx.seat,
        latch_seats: ctx.latch_seats,
        time: ctx.time,
        sched_offset: ctx.sched_offset,
        gtod_offset: ctx.gtod_offset,
        last: ctx.last,
    }
}
