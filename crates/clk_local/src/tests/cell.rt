//! Updates and readings at either latch.
ghost use Rattle.std.specs.Prelude.{◌≡◌, ◌<◌, ◌≤◌, ◌+◌, true};
ghost use Rattle.clk_latch.specs.Calls.{AreDrawn};
ghost use Rattle.clk_latch.specs.Epoch.{owner_of};
ghost use Rattle.clk_machine.specs.Records.{record_zero, AreRecords};
ghost use Rattle.clk_words.specs.Views.{first_view};
ghost use Rattle.clk_local.specs.Context.{BeginsAtBase, IsUsable};

use crate::tests::fixtures::{Own, Shared, hire, raise, reading, stand, step, zero_of};
use crate::{Ctx, Reading, local};
use clk_latch::{CellLatch, Epochs, Latch};
use clk_machine::{CpuCounter, Published, RawReading};
use clk_words::{Mode, SeatKind};
use std::alloc::{AllocError, Global};
use std::process::Abort;
use std::sync::Wait;
use std::test::Fail;

// The updates of a script, of which there are one or two, and the reading after them.
type Answers = (Option<Published>, Published, Reading);

// An update of the thread's own latch.
fn update<E: Epochs>(ctx: &mut Ctx<'_, E>) -> Published
    requires usable { IsUsable E.fits E.epoch ctx.old }
    requires owner { (E.epoch ctx.old.latch_seat).owner ≡ true }
    requires left { 1 ≤ (E.epoch ctx.old.latch_seat).left }
    requires records { AreRecords
        ctx.old.counter.machine.now ctx.old.counter.cpu ctx.old.counter.adjust (E.epoch ctx.old.latch_seat).records }
    requires drawn { AreDrawn ctx.old.time.blocks (E.epoch ctx.old.latch_seat).records }
    requires tickets { 1 ≤ ctx.old.time.left }
    ensures usable { IsUsable E.fits E.epoch ctx.new }
    ensures owner { (E.epoch ctx.new.latch_seat).owner ≡ true }
    ensures left { (E.epoch ctx.new.latch_seat).left + 1 ≡ (E.epoch ctx.old.latch_seat).left }
    ensures records { AreRecords
        ctx.new.counter.machine.now ctx.new.counter.cpu ctx.new.counter.adjust (E.epoch ctx.new.latch_seat).records }
    ensures drawn { AreDrawn ctx.new.time.blocks (E.epoch ctx.new.latch_seat).records }
    ensures tickets { ctx.new.time.left + 1 ≡ ctx.old.time.left }
{
    ctx.epochs.update(&mut ctx.latch_seat, ctx.tickets, &mut ctx.time, ctx.counter)
}

// An update and a reading.
fn update_and_read<E: Epochs>(ctx: &mut Ctx<'_, E>, early: Option<Published>) -> Answers
    requires usable { IsUsable E.fits E.epoch ctx.old }
    requires owner { (E.epoch ctx.old.latch_seat).owner ≡ true }
    requires left { 1 ≤ (E.epoch ctx.old.latch_seat).left }
    requires records { AreRecords
        ctx.old.counter.machine.now ctx.old.counter.cpu ctx.old.counter.adjust (E.epoch ctx.old.latch_seat).records }
    requires drawn { AreDrawn ctx.old.time.blocks (E.epoch ctx.old.latch_seat).records }
    requires tickets { 2 ≤ ctx.old.time.left }
{
    let last = update(ctx);
    let read = local(ctx);
    (early, last, read)
}

// An update twice or once, and a reading.
fn run_script<E: Epochs>(ctx: &mut Ctx<'_, E>, twice: bool) -> Answers
    requires usable { IsUsable E.fits E.epoch ctx.old }
    requires owner { (E.epoch ctx.old.latch_seat).owner ≡ true }
    requires left { 2 ≤ (E.epoch ctx.old.latch_seat).left }
    requires records { AreRecords
        ctx.old.counter.machine.now ctx.old.counter.cpu ctx.old.counter.adjust (E.epoch ctx.old.latch_seat).records }
    requires drawn { AreDrawn ctx.old.time.blocks (E.epoch ctx.old.latch_seat).records }
    requires tickets { 3 ≤ ctx.old.time.left }
{
    if twice {
        let early = update(ctx);
        return update_and_read(ctx, Some(early));
    }
    update_and_read(ctx, None)
}

// The answers of an owner whose latch has record 0.
fn answers<E: Epochs>(
    shared: &Shared,
    first: &mut Own,
    epochs: &E,
    latch_seat: E::Seat,
    twice: bool,
) -> Answers
    requires seat { first.old.seat ≡ record { table = shared.now.words.table; view = first_view shared.now.words.start } }
    requires own_latch { first.old.latch_seat.latch ≡ shared.now.latch }
    requires base { BeginsAtBase shared.now.machine first.old.latch_seat.epoch }
    requires table { first.old.time.table ≡ shared.now.tickets.table }
    requires tickets { 3 ≤ first.old.time.left }
    requires latch { E.fits epochs.now latch_seat }
    requires epoch { E.epoch latch_seat ≡ owner_of (record_zero shared.now.machine) 2 }
{
    let own = hire(shared, first, SeatKind::Owner(0), 3);
    let counter = CpuCounter {
        machine: &shared.machine,
        cpu: 0,
        adjust: 0,
    };
    let mut ctx = Ctx {
        words: &shared.words,
        seat: own.seat,
        epochs,
        latch_seat,
        tickets: &shared.tickets,
        time: own.time,
        counter,
        sched_offset: 0,
        call: 0,
    };
    run_script(&mut ctx, twice)
}

fn at_latch(
    alloc: Global,
    shared: &Shared,
    first: &mut Own,
    twice: bool,
) -> Result<Answers, AllocError>
    requires seat { first.old.seat ≡ record { table = shared.now.words.table; view = first_view shared.now.words.start } }
    requires own_latch { first.old.latch_seat.latch ≡ shared.now.latch }
    requires base { BeginsAtBase shared.now.machine first.old.latch_seat.epoch }
    requires table { first.old.time.table ≡ shared.now.tickets.table }
    requires tickets { 3 ≤ first.old.time.left }
{
    let (latch, seat) = Latch::new(alloc, zero_of(&shared.machine), 2)?;
    Ok(answers(shared, first, &latch, seat, twice))
}

fn at_cell<R: Abort + Wait>(
    rt: &R,
    alloc: Global,
    shared: &Shared,
    first: &mut Own,
    twice: bool,
) -> Result<Answers, AllocError>
    requires seat { first.old.seat ≡ record { table = shared.now.words.table; view = first_view shared.now.words.start } }
    requires own_latch { first.old.latch_seat.latch ≡ shared.now.latch }
    requires base { BeginsAtBase shared.now.machine first.old.latch_seat.epoch }
    requires table { first.old.time.table ≡ shared.now.tickets.table }
    requires tickets { 3 ≤ first.old.time.left }
{
    let (cell, seat) = CellLatch::new(rt, alloc, zero_of(&shared.machine), 2)?;
    Ok(answers(shared, first, &cell, seat, twice))
}

fn at_either<R: Abort + Wait>(
    rt: &R,
    alloc: Global,
    shared: &Shared,
    first: &mut Own,
    cell: bool,
    twice: bool,
) -> Result<Answers, AllocError>
    requires seat { first.old.seat ≡ record { table = shared.now.words.table; view = first_view shared.now.words.start } }
    requires own_latch { first.old.latch_seat.latch ≡ shared.now.latch }
    requires base { BeginsAtBase shared.now.machine first.old.latch_seat.epoch }
    requires table { first.old.time.table ≡ shared.now.tickets.table }
    requires tickets { 3 ≤ first.old.time.left }
{
    if cell {
        return at_cell(rt, alloc, shared, first, twice);
    }
    at_latch(alloc, shared, first, twice)
}

// The answers of either latch, at a stand of its own.
fn answers_of<R: Abort + Wait>(
    rt: &R,
    alloc: Global,
    cell: bool,
    twice: bool,
) -> Result<Answers, AllocError> {
    let (shared, mut first) = stand(rt, alloc, Mode::PerCpu)?;
    at_either(rt, alloc, &shared, &mut first, cell, twice)
}

// A record where the counters and the times are ten times the tickets.
fn record(rec: u32, ticket: u64) -> Published
    requires { ticket < 1000 }
{
    let at = reading(ticket);
    Published {
        rec,
        ticket,
        cyc: at.cyc,
        ns: at.ns,
    }
}

// The first reading by such a record.
fn read_by(rec: u32, ticket: u64) -> Reading
    requires { ticket < 1000 }
{
    let raw = RawReading {
        rec,
        ..reading(ticket)
    };
    Reading::PerCpu {
        raw,
        step: step(0, raise(raw.ns, 20, 10), 20, raw.ns),
    }
}

fn script_rows() -> [(bool, Answers); 2] {
    [
        (false, (None, record(1, 3), read_by(1, 4))),
        (true, (Some(record(1, 3)), record(2, 4), read_by(2, 5))),
    ]
}

#[test]
fn both_latches_answer_a_script_alike(rt: HostRuntime) -> Result<(), Fail> {
    for (twice, expected) in script_rows() {
        let at_latch = answers_of(&rt, rt.alloc(), false, twice)?;
        let at_cell = answers_of(&rt, rt.alloc(), true, twice)?;
        assert_eq!(rt; (at_latch, at_cell), (expected, expected));
    }
    Ok(())
}
