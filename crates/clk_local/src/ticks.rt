//! The tick and the idle event, of a CPU's owner.
ghost use Rattle.std.specs.Prelude.{◌≤◌, ◌+◌};
ghost use Rattle.clk_words.specs.Knowing.{HasFoundPerCpu};
ghost use Rattle.clk_local.specs.Context.{site_of, known_of, IsUsable, MayStamp, Keeps, Spends};
ghost use Rattle.clk_local.specs.Shows.{ShowsStamp, ShowsTick, ShowsIdle, OnTick, HasTicked, tickets_of};

use crate::context::Ctx;
use crate::events::{IdleEvent, TickEvent};
use crate::readings::{local, local_raised, look};
use clk_latch::Epochs;
use clk_machine::RawReading;
use clk_words::Mode;

/// A tick: a look at the mode, and nothing if it is stable, else a stamp, and a local read that goes by it. The seat
/// may stamp its CPU, and as many raws as GTODs follow stamp 0 by its view. It draws three tickets where it stamps,
/// else none, takes no memory, and waits only where the latch does. After `sched_clock_tick` of Linux 6.1.
#[inline(always)]
pub fn tick<E: Epochs>(ctx: &mut Ctx<'_, E>) -> TickEvent
    requires usable { IsUsable E.fits E.epoch ctx.old }
    requires stamp { MayStamp ctx.old.seat.view }
    requires tickets { 3 ≤ ctx.old.time.left }
    ensures keeps { Keeps E.fits E.epoch ctx.old ctx.new }
    ensures spends { Spends (tickets_of result) ctx.old.time ctx.new.time }
    ensures shows { ShowsTick (site_of ctx.old) (known_of E.epoch ctx.old) result (known_of E.epoch ctx.new) }
{
    match look(ctx) {
        Mode::Stable => TickEvent::Nothing,
        Mode::PerCpu => tick_raised(ctx),
    }
}

/// An idle event: a local read, and then a tick with its conditions, each with a look of its own. It draws one ticket
/// and then those of the tick, takes no memory, and waits only where the latch does. After
/// `sched_clock_idle_wakeup_event` of Linux 6.1,
/// which has the tick alone.
pub fn idle<E: Epochs>(ctx: &mut Ctx<'_, E>) -> IdleEvent
    requires usable { IsUsable E.fits E.epoch ctx.old }
    requires stamp { MayStamp ctx.old.seat.view }
    requires tickets { 4 ≤ ctx.old.time.left }
    ensures keeps { Keeps E.fits E.epoch ctx.old ctx.new }
    ensures spends { Spends (1 + tickets_of result.tick) ctx.old.time ctx.new.time }
    ensures shows { ShowsIdle (site_of ctx.old) (known_of E.epoch ctx.old) result (known_of E.epoch ctx.new) }
{
    let read = local(ctx);
    let tick = tick(ctx);
    IdleEvent { read, tick }
}

// The per-CPU part of a tick.
#[inline(always)]
fn tick_raised<E: Epochs>(ctx: &mut Ctx<'_, E>) -> TickEvent
    requires usable { IsUsable E.fits E.epoch ctx.old }
    requires found { HasFoundPerCpu ctx.old.seat.view }
    requires stamp { MayStamp ctx.old.seat.view }
    requires tickets { 3 ≤ ctx.old.time.left }
    ensures keeps { Keeps E.fits E.epoch ctx.old ctx.new }
    ensures spends { Spends 3 ctx.old.time ctx.new.time }
    ensures ticked { HasTicked result }
    ensures shows { OnTick (site_of ctx.old) (known_of E.epoch ctx.old) result (known_of E.epoch ctx.new) }
{
    let stamp = store_stamp(ctx);
    let (raw, step) = local_raised(ctx);
    TickEvent::Ticked {
        gtod_ticket: stamp.gtod_ticket,
        gtod: stamp.gtod,
        stamp: stamp.raw,
        raw,
        step,
    }
}

// A stamp that was stored.
#[derive(Clone, Copy)]
struct Stamp {
    gtod_ticket: u64,
    gtod: i64,
    raw: RawReading,
}

// Stores a stamp, its GTOD first: so no reader finds a GTOD that is older than the raw value which it has found.
fn store_stamp<E: Epochs>(ctx: &mut Ctx<'_, E>) -> Stamp
    requires usable { IsUsable E.fits E.epoch ctx.old }
    requires found { HasFoundPerCpu ctx.old.seat.view }
    requires stamp { MayStamp ctx.old.seat.view }
    requires tickets { 2 ≤ ctx.old.time.left }
    ensures keeps { Keeps E.fits E.epoch ctx.old ctx.new }
    ensures spends { Spends 2 ctx.old.time ctx.new.time }
    ensures shows { ShowsStamp
        (site_of ctx.old) (known_of E.epoch ctx.old) result.gtod_ticket result.gtod result.raw (known_of E.epoch ctx.new) }
{
    let gtod_ticket = ctx.tickets.draw(&mut ctx.time, 1);
    let gtod = ctx.counter.machine.gtod(gtod_ticket);
    ctx.words.stamp_gtod(&mut ctx.seat, gtod);
    let raw = ctx.epochs.read(&mut ctx.latch_seat, ctx.tickets, &mut ctx.time, ctx.counter);
    ctx.words.stamp_raw(&mut ctx.seat, raw.ns);
    Stamp {
        gtod_ticket,
        gtod,
        raw,
    }
}
