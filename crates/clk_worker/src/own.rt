//! What a thread has of its own, and the context of its calls.
ghost use Rattle.std.specs.Prelude.{◌<◌, length};
ghost use Rattle.clk_worker.specs.Calling.{IsContext, HasSeatsOf};

use crate::shared::Shared;
use clk_latch::{Latch, LatchSeat};
use clk_local::Ctx;
use clk_machine::CpuCounter;
use clk_ticket::TimeSeat;
use clk_words::Seat;

/// Where a thread stands.
#[derive(Clone, Copy, PartialEq, Eq, Debug)]
pub struct Post {
    /// The thread's number.
    pub thread: u32,
    /// The CPU that it is on.
    pub cpu: u32,
    /// What is added to that CPU's counter, in cycles.
    pub adjust: i64,
    /// What a stable reading adds to the raw clock, in ns.
    pub sched_offset: i64,
}

/// The seats of a thread: at the clock words, at its CPU's latch, and at the tickets.
#[derive(Drop)]
pub struct Own {
    pub seat: Seat,
    pub latch_seat: LatchSeat,
    pub time: TimeSeat,
}

// What a thread calls with in this call: its seats, and what they belong to.
pub(crate) fn context<'a>(shared: &'a Shared, post: &Post, call: u32, own: Own) -> Ctx<'a, Latch>
    requires cpu { post.now.cpu < length shared.now.epochs.items }
    ensures { IsContext shared.now post.now call own result }
{
    let counter = CpuCounter {
        machine: &shared.machine,
        cpu: post.cpu,
        adjust: post.adjust,
    };
    Ctx {
        words: &shared.words,
        seat: own.seat,
        epochs: shared.epochs.get(post.cpu as usize),
        latch_seat: own.latch_seat,
        tickets: &shared.tickets,
        time: own.time,
        counter,
        sched_offset: post.sched_offset,
        call,
    }
}

// The seats of a context.
pub(crate) fn own_of(ctx: Ctx<'_, Latch>) -> Own
    ensures { HasSeatsOf ctx.entry result }
{
    Own {
        seat: ctx.seat,
        latch_seat: ctx.latch_seat,
        time: ctx.time,
    }
}
