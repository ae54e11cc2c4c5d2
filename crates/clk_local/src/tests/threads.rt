//! An owner and a reader of one CPU, on threads of their own.
ghost use Rattle.std.specs.Prelude.{◌≡◌, ◌+◌, ◌<◌, ◌≤◌};
ghost use Rattle.clk_record.specs.declared.mode.Mode.TheVariants.{PerCpu};
ghost use Rattle.clk_words.specs.Held.{place_of};
ghost use Rattle.clk_words.specs.Knowing.{HasFoundPerCpu};
ghost use Rattle.clk_words.specs.Views.{first_view};
ghost use Rattle.clk_local.specs.Context.{BeginsAtBase, IsUsable, MayStamp, Spends};

use crate::tests::fixtures::{Own, Shared, both_of, end, stand};
use crate::{Ctx, IdleEvent, Reading, TickEvent, idle, local_raised};
use clk_latch::{Epochs, Latch};
use clk_words::{Mode, Step};
use std::alloc::{AllocError, Global};
use std::process::Abort;
use std::test::Fail;
use std::thread::{Threads, join};

const CALLS: u32 = 10_000;

// Four for each idle event of the owner, and one for each reading of the other.
const OWNERS: u64 = 40_000;

const READERS: u64 = 10_000;

// A step for which there is no memory is left out.
fn note(log: &mut Vec<Step>, step: Step) {
    let _ = log.push(step);
}

fn note_event(log: &mut Vec<Step>, event: IdleEvent) {
    if let Reading::PerCpu { step, .. } = event.read {
        note(log, step);
    }
    if let TickEvent::Ticked { step, .. } = event.tick {
        note(log, step);
    }
}

// An idle event, which makes two steps.
fn wake(ctx: &mut Ctx<'_, Latch>, call: u32, log: &mut Vec<Step>)
    requires usable { IsUsable ⟦<Latch as Epochs>⟧.fits ⟦<Latch as Epochs>⟧.epoch ctx.old }
    requires found { HasFoundPerCpu ctx.old.seat.view }
    requires stamp { MayStamp ctx.old.seat.view }
    requires tickets { 4 ≤ ctx.old.time.left }
    ensures usable { IsUsable ⟦<Latch as Epochs>⟧.fits ⟦<Latch as Epochs>⟧.epoch ctx.new }
    ensures found { HasFoundPerCpu ctx.new.seat.view }
    ensures stamp { MayStamp ctx.new.seat.view }
    ensures spends { Spends 4 ctx.old.time ctx.new.time }
{
    ctx.call = call;
    note_event(log, idle(ctx));
}

// A reading, which makes one.
fn look(ctx: &mut Ctx<'_, Latch>, call: u32, log: &mut Vec<Step>)
    requires usable { IsUsable ⟦<Latch as Epochs>⟧.fits ⟦<Latch as Epochs>⟧.epoch ctx.old }
    requires found { HasFoundPerCpu ctx.old.seat.view }
    requires tickets { 1 ≤ ctx.old.time.left }
    ensures usable { IsUsable ⟦<Latch as Epochs>⟧.fits ⟦<Latch as Epochs>⟧.epoch ctx.new }
    ensures found { HasFoundPerCpu ctx.new.seat.view }
    ensures spends { Spends 1 ctx.old.time ctx.new.time }
{
    ctx.call = call;
    let (_, step) = local_raised(ctx);
    note(log, step);
}

fn run_owner(mut ctx: Ctx<'_, Latch>, alloc: Global) -> Vec<Step>
    requires usable { IsUsable ⟦<Latch as Epochs>⟧.fits ⟦<Latch as Epochs>⟧.epoch ctx }
    requires found { HasFoundPerCpu ctx.seat.view }
    requires stamp { MayStamp ctx.seat.view }
    requires left { ctx.time.left ≡ OWNERS }
{
    let mut log = Vec::new(alloc);
    for call in 0..CALLS {
        wake(&mut ctx, call, &mut log);
    }
    log
}

fn run_reader(mut ctx: Ctx<'_, Latch>, alloc: Global) -> Vec<Step>
    requires usable { IsUsable ⟦<Latch as Epochs>⟧.fits ⟦<Latch as Epochs>⟧.epoch ctx }
    requires found { HasFoundPerCpu ctx.seat.view }
    requires left { ctx.time.left ≡ READERS }
{
    let mut log = Vec::new(alloc);
    for call in 0..CALLS {
        look(&mut ctx, call, &mut log);
    }
    log
}

fn run<R: Threads + Sync>(
    rt: &R,
    alloc: Global,
    owner: Ctx<'_, Latch>,
    reader: Ctx<'_, Latch>,
) -> (Vec<Step>, Vec<Step>)
    requires owner { IsUsable ⟦<Latch as Epochs>⟧.fits ⟦<Latch as Epochs>⟧.epoch owner }
    requires reader { IsUsable ⟦<Latch as Epochs>⟧.fits ⟦<Latch as Epochs>⟧.epoch reader }
    requires found { HasFoundPerCpu owner.seat.view × HasFoundPerCpu reader.seat.view }
    requires stamp { MayStamp owner.seat.view }
    requires left { (owner.time.left ≡ OWNERS) × (reader.time.left ≡ READERS) }
{
    join(
        rt,
        move || run_owner(owner, alloc),
        move || run_reader(reader, alloc),
    )
}

// The steps of both threads.
fn logs_of<R: Threads + Sync>(
    rt: &R,
    alloc: Global,
    shared: &Shared,
    first: &mut Own,
) -> (Vec<Step>, Vec<Step>)
    requires seat { first.old.seat ≡ record { table = shared.now.words.table; view = first_view shared.now.words.start } }
    requires latch { first.old.latch_seat.latch ≡ shared.now.latch }
    requires base { BeginsAtBase shared.now.machine first.old.latch_seat.epoch }
    requires table { first.old.time.table ≡ shared.now.tickets.table }
    requires left { OWNERS + READERS < first.old.time.left }
    requires mode { shared.now.words.start.opening.mode ≡ PerCpu }
    ensures own { place_of first.new.seat ≡ shared.now.words }
    ensures table { first.new.time.table ≡ shared.now.tickets.table }
    ensures rest { 1 ≤ first.new.time.left }
{
    let (owner, reader) = both_of(shared, first, OWNERS, READERS);
    run(rt, alloc, owner, reader)
}

// The steps of both threads, and the end.
fn meet<R: Threads + Sync + Abort>(
    rt: &R,
    alloc: Global,
) -> Result<((Vec<Step>, Vec<Step>), (i64, u64)), AllocError> {
    let (shared, mut first) = stand(rt, alloc, Mode::PerCpu)?;
    let logs = logs_of(rt, alloc, &shared, &mut first);
    Ok((logs, end(&shared, &mut first)))
}

fn merged(logs: (Vec<Step>, Vec<Step>)) -> Result<Vec<Step>, AllocError> {
    let (mut steps, more) = logs;
    steps.extend_from_slice(more.as_slice())?;
    Ok(steps)
}

// The last value of the steps, sorted, if they are a chain from the opening of the one word on.
fn chained(mut steps: Vec<Step>) -> Option<i64> {
    steps.sort_unstable_by_key(|s| (s.new, s.old >= s.new, s.by, s.call));
    let mut last = 20;
    for step in &steps {
        if step.old != last {
            return None;
        }
        last = step.new;
    }
    Some(last)
}

#[test]
fn an_owner_and_a_reader(rt: HostRuntime) -> Result<(), Fail> {
    let (logs, (last, drawn)) = meet(&rt, rt.alloc())?;
    let steps = merged(logs)?;
    let count = steps.len();
    assert_eq!(rt;
        (count, chained(steps), drawn),
        (30_000, Some(last), 50_003)
    );
    Ok(())
}
