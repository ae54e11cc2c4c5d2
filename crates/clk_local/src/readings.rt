//! The local read.
ghost use Rattle.std.specs.Prelude.{◌≡◌, ◌≤◌};
ghost use Rattle.clk_record.specs.declared.mode.Mode.TheVariants.{PerCpu};
ghost use Rattle.clk_words.specs.Bounds.{IsRaw};
ghost use Rattle.clk_words.specs.Calls.{KeepsSeat};
ghost use Rattle.clk_words.specs.Held.{place_of};
ghost use Rattle.clk_words.specs.Histories.{opens_at};
ghost use Rattle.clk_words.specs.Knowing.{HasFoundPerCpu, IsReadingKind, IsTrusted};
ghost use Rattle.clk_local.specs.Context.{site_of, known_of, IsUsable, Keeps, Spends};
ghost use Rattle.clk_local.specs.Raising.{FindsWhy};
ghost use Rattle.clk_local.specs.Shows.{ShowsLook, ShowsStable, ShowsRaised, ShowsReading};

use crate::context::Ctx;
use crate::events::Reading;
use clk_latch::Epochs;
use clk_machine::RawReading;
use clk_words::{Mode, Seat, Step, Why, Words};

/// A local read: a look at the mode, and then a stable or a raised reading by what it found. It draws one ticket,
/// takes no memory, and waits only where the latch does. After `local_clock` of Linux 6.1.
#[inline(always)]
pub fn local<E: Epochs>(ctx: &mut Ctx<'_, E>) -> Reading
    requires usable { IsUsable E.fits E.epoch ctx.old }
    requires ticket { 1 ≤ ctx.old.time.left }
    ensures keeps { Keeps E.fits E.epoch ctx.old ctx.new }
    ensures spends { Spends 1 ctx.old.time ctx.new.time }
    ensures shows { ShowsReading (site_of ctx.old) (known_of E.epoch ctx.old) result (known_of E.epoch ctx.new) }
{
    match look(ctx) {
        Mode::Stable => {
            let (raw, value) = local_stable(ctx);
            Reading::Stable { raw, value }
        }
        Mode::PerCpu => {
            let (raw, step) = local_raised(ctx);
            Reading::PerCpu { raw, step }
        }
    }
}

/// The per-CPU part of a local read: the raw reading and the step whose new value is the reading. The seat has found
/// the mode per-CPU. It draws one ticket, takes no memory, and waits only where the latch does. After
/// `sched_clock_local` of Linux 6.1.
#[inline(always)]
pub fn local_raised<E: Epochs>(ctx: &mut Ctx<'_, E>) -> (RawReading, Step)
    requires usable { IsUsable E.fits E.epoch ctx.old }
    requires found { HasFoundPerCpu ctx.old.seat.view }
    requires ticket { 1 ≤ ctx.old.time.left }
    ensures keeps { Keeps E.fits E.epoch ctx.old ctx.new }
    ensures spends { Spends 1 ctx.old.time ctx.new.time }
    ensures shows { ShowsRaised (site_of ctx.old) (known_of E.epoch ctx.old) result.0 result.1 (known_of E.epoch ctx.new) }
{
    let raw = ctx.epochs.read(&mut ctx.latch_seat, ctx.tickets, &mut ctx.time, ctx.counter);
    let why = load_why(ctx.words, &mut ctx.seat, raw.ns);
    let cpu = ctx.seat.cpu();
    let step = ctx.words.raise(&mut ctx.seat, ctx.call, cpu, why);
    (raw, step)
}

/// A look at the mode.
pub(crate) fn look<E: Epochs>(ctx: &mut Ctx<'_, E>) -> Mode
    requires usable { IsUsable E.fits E.epoch ctx.old }
    ensures keeps { Keeps E.fits E.epoch ctx.old ctx.new }
    ensures time { ctx.new.time ≡ ctx.old.time }
    ensures found { result ≡ PerCpu → HasFoundPerCpu ctx.new.seat.view }
    ensures looks { ShowsLook (known_of E.epoch ctx.old) result (known_of E.epoch ctx.new) }
{
    ctx.words.look_mode(&mut ctx.seat)
}

// A stable reading: the raw reading, and its sum with the offset of the stable clock.
#[inline(always)]
fn local_stable<E: Epochs>(ctx: &mut Ctx<'_, E>) -> (RawReading, i64)
    requires usable { IsUsable E.fits E.epoch ctx.old }
    requires ticket { 1 ≤ ctx.old.time.left }
    ensures keeps { Keeps E.fits E.epoch ctx.old ctx.new }
    ensures spends { Spends 1 ctx.old.time ctx.new.time }
    ensures shows { ShowsStable (site_of ctx.old) (known_of E.epoch ctx.old) result.0 result.1 (known_of E.epoch ctx.new) }
{
    let raw = ctx.epochs.read(&mut ctx.latch_seat, ctx.tickets, &mut ctx.time, ctx.counter);
    (raw, raw.ns.wrapping_add(ctx.sched_offset))
}

// Loads what a reading goes by, the raw half of the pair first: a reader that is caught between the two stores of a
// stamp gets a GTOD that is not older than its raw value, and so does not fall behind.
#[inline(always)]
fn load_why(words: &Words, seat: &mut Seat, raw: i64) -> Why
    requires own { place_of seat.old ≡ words.now }
    requires found { HasFoundPerCpu seat.old.view }
    requires reading { IsReadingKind seat.old.view.kind }
    requires raw { IsRaw (opens_at seat.old.view.start) raw }
    ensures own { place_of seat.new ≡ words.now }
    ensures kept { KeepsSeat seat.old.view seat.new.view }
    ensures finds { FindsWhy seat.old.view raw result seat.new.view }
    ensures trusted { IsTrusted seat.new.view result }
{
    let tick_raw = words.load_raw(seat);
    let tick_gtod = words.load_gtod(seat);
    let offset = words.load_offset(seat);
    Why::Raise {
        raw,
        tick_raw,
        tick_gtod,
        offset,
    }
}
