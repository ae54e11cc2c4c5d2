//! One call after another, on one thread.
ghost use Rattle.std.specs.Prelude.{◌+◌, ◌≤◌};
ghost use Rattle.clk_words.specs.Bounds.{IsRaw};
ghost use Rattle.clk_words.specs.declared.view.Name.TheVariants.{Raw};
ghost use Rattle.clk_words.specs.Histories.{opens_at};
ghost use Rattle.clk_words.specs.Kinds.{cpu_of};
ghost use Rattle.clk_words.specs.Knowing.{HasFoundPerCpu, HasLoaded};
ghost use Rattle.clk_local.specs.Context.{IsUsable, MayStamp};

use crate::tests::fixtures::{
    Own, Row, Shared, both_of, demote, owner_of, play, raise, raise_with, reading, step,
};
use crate::{Ctx, IdleEvent, Reading, TickEvent, idle, local, local_raised, tick};
use clk_latch::Epochs;
use clk_machine::RawReading;
use clk_words::{Mode, Step, Why};
use std::test::Fail;

// A reading, a tick, and a reading that is 200,000 tickets late.
fn read_late<E: Epochs>(ctx: &mut Ctx<'_, E>) -> (Reading, TickEvent, (RawReading, Step))
    requires usable { IsUsable E.fits E.epoch ctx.old }
    requires found { HasFoundPerCpu ctx.old.seat.view }
    requires stamp { MayStamp ctx.old.seat.view }
    requires tickets { 200005 ≤ ctx.old.time.left }
{
    let read = local(ctx);
    ctx.call = 1;
    let ticked = tick(ctx);
    ctx.tickets.draw(&mut ctx.time, 200_000);
    ctx.call = 3;
    let late = local_raised(ctx);
    (read, ticked, late)
}

fn late_row() -> (Reading, TickEvent, (RawReading, Step)) {
    let read = Reading::PerCpu {
        raw: reading(3),
        step: step(0, raise(30, 20, 10), 20, 30),
    };
    let ticked = TickEvent::Ticked {
        gtod_ticket: 4,
        gtod: 40,
        stamp: reading(5),
        raw: reading(6),
        step: step(1, raise(60, 50, 40), 30, 60),
    };
    let late = (
        reading(200_007),
        step(3, raise(2_000_070, 50, 40), 60, 1_000_050),
    );
    (read, ticked, late)
}

// A reading, a tick and a late reading of the owner.
struct Late;

impl Row for Late {
    ghost use Rattle.clk_record.specs.declared.mode.Mode.TheVariants.{PerCpu};

    type Seen = (Reading, TickEvent, (RawReading, Step));

    ghost starts = { PerCpu };

    fn mode() -> Mode {
        Mode::PerCpu
    }

    fn run(shared: &Shared, first: &mut Own) -> Self::Seen {
        let mut owner = owner_of(shared, first, 200_005, 0);
        read_late(&mut owner)
    }
}

#[test]
fn a_reading_and_a_tick(rt: HostRuntime) -> Result<(), Fail> {
    let seen = play::<Late, HostRuntime>(&rt, rt.alloc())?;
    assert_eq!(rt; seen, (late_row(), (1_000_050, 200_008)));
    Ok(())
}

fn idle_row() -> IdleEvent {
    IdleEvent {
        read: Reading::PerCpu {
            raw: reading(3),
            step: step(0, raise(30, 20, 10), 20, 30),
        },
        tick: TickEvent::Ticked {
            gtod_ticket: 4,
            gtod: 40,
            stamp: reading(5),
            raw: reading(6),
            step: step(0, raise(60, 50, 40), 30, 60),
        },
    }
}

// An idle event of the owner.
struct Idle;

impl Row for Idle {
    ghost use Rattle.clk_record.specs.declared.mode.Mode.TheVariants.{PerCpu};

    type Seen = IdleEvent;

    ghost starts = { PerCpu };

    fn mode() -> Mode {
        Mode::PerCpu
    }

    fn run(shared: &Shared, first: &mut Own) -> Self::Seen {
        let mut owner = owner_of(shared, first, 4, 0);
        idle(&mut owner)
    }
}

#[test]
fn an_idle_event(rt: HostRuntime) -> Result<(), Fail> {
    let seen = play::<Idle, HostRuntime>(&rt, rt.alloc())?;
    assert_eq!(rt; seen, (idle_row(), (60, 7)));
    Ok(())
}

// A reading and a tick.
fn read_and_tick<E: Epochs>(ctx: &mut Ctx<'_, E>) -> (Reading, TickEvent)
    requires usable { IsUsable E.fits E.epoch ctx.old }
    requires stamp { MayStamp ctx.old.seat.view }
    requires tickets { 4 ≤ ctx.old.time.left }
    ensures usable { IsUsable E.fits E.epoch ctx.new }
    ensures stamp { MayStamp ctx.new.seat.view }
    ensures left { ctx.old.time.left ≤ ctx.new.time.left + 4 }
{
    let read = local(ctx);
    let ticked = tick(ctx);
    (read, ticked)
}

fn stable_row() -> (Reading, TickEvent) {
    let read = Reading::Stable {
        raw: reading(3),
        value: 42,
    };
    (read, TickEvent::Nothing)
}

fn demoted_row() -> (Reading, TickEvent) {
    let read = Reading::PerCpu {
        raw: reading(4),
        step: step(0, raise_with(40, 30, 30, 7), 37, 47),
    };
    let ticked = TickEvent::Ticked {
        gtod_ticket: 5,
        gtod: 50,
        stamp: reading(6),
        raw: reading(7),
        step: step(0, raise_with(70, 60, 50, 7), 47, 67),
    };
    (read, ticked)
}

// A reading and a tick of the owner on each side of a demotion.
struct Demoted;

impl Row for Demoted {
    ghost use Rattle.clk_record.specs.declared.mode.Mode.TheVariants.{Stable};

    type Seen = ((Reading, TickEvent), (Reading, TickEvent));

    ghost starts = { Stable };

    fn mode() -> Mode {
        Mode::Stable
    }

    fn run(shared: &Shared, first: &mut Own) -> Self::Seen {
        let mut owner = owner_of(shared, first, 8, 12);
        let stable = read_and_tick(&mut owner);
        demote(shared, first);
        (stable, read_and_tick(&mut owner))
    }
}

#[test]
fn a_stable_start_and_a_demotion(rt: HostRuntime) -> Result<(), Fail> {
    let seen = play::<Demoted, HostRuntime>(&rt, rt.alloc())?;
    assert_eq!(rt; seen, ((stable_row(), demoted_row()), (67, 8)));
    Ok(())
}

// The first half of a reading: the raw reading, and the raw half of the pair.
fn first_half<E: Epochs>(ctx: &mut Ctx<'_, E>) -> (RawReading, i64)
    requires usable { IsUsable E.fits E.epoch ctx.old }
    requires found { HasFoundPerCpu ctx.old.seat.view }
    requires ticket { 1 ≤ ctx.old.time.left }
    ensures usable { IsUsable E.fits E.epoch ctx.new }
    ensures found { HasFoundPerCpu ctx.new.seat.view }
    ensures raw { IsRaw (opens_at ctx.new.seat.view.start) result.0.ns }
    ensures loaded { HasLoaded ctx.new.seat.view (Raw (cpu_of ctx.new.seat.view.kind)) result.1 }
{
    let raw = ctx.epochs.read(&mut ctx.latch_seat, ctx.tickets, &mut ctx.time, ctx.counter);
    let tick_raw = ctx.words.load_raw(&mut ctx.seat);
    (raw, tick_raw)
}

// The rest of it: what the clock word then holds, and the step.
fn second_half<E: Epochs>(ctx: &mut Ctx<'_, E>, raw: i64, tick_raw: i64) -> (i64, Step)
    requires usable { IsUsable E.fits E.epoch ctx.old }
    requires found { HasFoundPerCpu ctx.old.seat.view }
    requires raw { IsRaw (opens_at ctx.old.seat.view.start) raw }
    requires loaded { HasLoaded ctx.old.seat.view (Raw (cpu_of ctx.old.seat.view.kind)) tick_raw }
{
    let tick_gtod = ctx.words.load_gtod(&mut ctx.seat);
    let offset = ctx.words.load_offset(&mut ctx.seat);
    let why = Why::Raise {
        raw,
        tick_raw,
        tick_gtod,
        offset,
    };
    let cpu = ctx.seat.cpu();
    let clock = ctx.words.load_clock(&mut ctx.seat, cpu);
    let step = ctx.words.raise(&mut ctx.seat, ctx.call, cpu, why);
    (clock, step)
}

// A reading with a tick of the owner between its halves.
fn read_half_way<E: Epochs>(
    owner: &mut Ctx<'_, E>,
    reader: &mut Ctx<'_, E>,
) -> ((RawReading, i64), TickEvent, (i64, Step))
    requires owner { IsUsable E.fits E.epoch owner.old }
    requires reader { IsUsable E.fits E.epoch reader.old }
    requires found { HasFoundPerCpu reader.old.seat.view }
    requires stamp { MayStamp owner.old.seat.view }
    requires tickets { (3 ≤ owner.old.time.left) × (1 ≤ reader.old.time.left) }
{
    let (raw, tick_raw) = first_half(reader);
    let ticked = tick(owner);
    let rest = second_half(reader, raw.ns, tick_raw);
    ((raw, tick_raw), ticked, rest)
}

// The reader has the raw value of the stamp before, and the GTOD of the new one.
fn half_way_row() -> ((RawReading, i64), TickEvent, (i64, Step)) {
    let ticked = TickEvent::Ticked {
        gtod_ticket: 4,
        gtod: 40,
        stamp: reading(5),
        raw: reading(6),
        step: step(0, raise(60, 50, 40), 20, 60),
    };
    let flat = Step {
        by: 2,
        ..step(0, raise(30, 20, 40), 60, 60)
    };
    ((reading(3), 20), ticked, (60, flat))
}

// A reader that is caught between its loads.
struct HalfWay;

impl Row for HalfWay {
    ghost use Rattle.clk_record.specs.declared.mode.Mode.TheVariants.{PerCpu};

    type Seen = ((RawReading, i64), TickEvent, (i64, Step));

    ghost starts = { PerCpu };

    fn mode() -> Mode {
        Mode::PerCpu
    }

    fn run(shared: &Shared, first: &mut Own) -> Self::Seen {
        let (mut owner, mut reader) = both_of(shared, first, 3, 1);
        read_half_way(&mut owner, &mut reader)
    }
}

#[test]
fn a_reader_half_way(rt: HostRuntime) -> Result<(), Fail> {
    let seen = play::<HalfWay, HostRuntime>(&rt, rt.alloc())?;
    assert_eq!(rt; seen, (half_way_row(), (60, 7)));
    Ok(())
}
