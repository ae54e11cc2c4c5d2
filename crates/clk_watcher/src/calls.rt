//! The parts of a check.
ghost use Rattle.std.specs.Prelude.{◌≡◌, ◌+◌, ◌<◌, ◌≤◌, [], ◌∷◌, ◌++◌, ◌||◌, ◌^◌, true, false, length};
ghost use Rattle.clk_machine.specs.Plan.{cpu_count};
ghost use Rattle.clk_machine.specs.Time.{source_plan_at};
ghost use Rattle.clk_record.specs.Watching.{checks_asked};
ghost use Rattle.clk_lawful.specs.Checks.{pause_of};
ghost use Rattle.clk_demote.specs.Context.{IsSeated};
ghost use Rattle.clk_watcher.specs.Calling.{Stands, IsStable, HasRoomFor, Follows, Stamps, Demotes, MakesVisit, MakesPass, Pauses, EndsCheck};
ghost use Rattle.clk_watcher.specs.Making.{SeatsServe, IsStable as IsStableAt, HasEnough, MakesAt};

use crate::numbers;
use crate::parts::{WatchParts, context, parts_of};
use clk_demote::{WatchCtx, demote, stable_stamp};
use clk_latch::Latch;
use clk_lawful::WatchTrace;
use clk_machine::CpuCounter;
use clk_record::SourceRecord;
use clk_worker::Shared;

/// Makes the check of this number, and gives the parts back. `stable` says whether the clock is stable, which a
/// demotion ends.
pub(crate) fn make_at(
    shared: &Shared,
    number: u32,
    parts: WatchParts,
    stable: &mut bool,
    trace: &mut WatchTrace,
) -> WatchParts
    requires within { number < checks_asked shared.now.machine.watchdog }
    requires serves { SeatsServe shared.now parts trace.old }
    requires if_stable { stable.old ≡ true → IsStableAt shared.now parts trace.old }
    requires enough { HasEnough shared.now.machine 1 parts.time trace.old }
    ensures { MakesAt shared.now number parts stable.old trace.old result stable.new trace.new }
{
    let mut ctx = context(shared, parts);
    let cpu = number % shared.machine.cpus();
    pause(&mut ctx, trace);
    visit_all(&mut ctx, cpu, number, stable, trace);
    end_check(trace);
    parts_of(ctx)
}

// The pause of a check.
fn pause(ctx: &mut WatchCtx<'_, Latch>, trace: &mut WatchTrace)
    requires some { 0 < checks_asked ctx.old.machine.now.watchdog }
    requires stands { Stands ctx.old trace.old }
    requires tickets { pause_of ctx.old.machine.now ≤ ctx.old.time.left }
    requires room { 1 ≤ trace.old.pauses.room }
    ensures { Pauses ctx.old trace.old ctx.new trace.new }
{
    let count = numbers::pause(ctx.machine);
    let ticket = ctx.tickets.draw(&mut ctx.time, count);
    trace.pauses.push(ticket);
}

// The end of a check: how many records there are, and which source is current.
fn end_check(trace: &mut WatchTrace)
    requires few { length trace.old.watch.records.items ≤ 2 ^ 16 }
    requires ends { 1 ≤ trace.old.last_record.room }
    requires currents { 1 ≤ trace.old.currents.room }
    ensures { EndsCheck trace.old trace.new }
{
    let end = trace.watch.records().len() as u32;
    trace.last_record.push(end);
    let current = trace.watch.current();
    trace.currents.push(current);
}

// The visits of a check, one to each source in order. A skip ends them.
fn visit_all(
    ctx: &mut WatchCtx<'_, Latch>,
    cpu: u32,
    number: u32,
    stable: &mut bool,
    trace: &mut WatchTrace,
)
    requires cpu { cpu < cpu_count ctx.old.machine.now }
    requires stands { Stands ctx.old trace.old }
    requires if_stable { stable.old ≡ true → IsStable ctx.old trace.old }
    requires room { HasRoomFor ctx.old.machine.now ctx.old.machine.now.source ctx.old.time trace.old }
    ensures { MakesPass cpu number stable.old ctx.old trace.old stable.new ctx.new trace.new }
{
    for s in 0..ctx.machine.sources() {
        if visit(ctx, cpu, s, number, stable, trace) {
            return;
        }
    }
}

// A visit to source `s`, and the stamp or the demotion that follows it. It says whether the check ends.
fn visit(
    ctx: &mut WatchCtx<'_, Latch>,
    cpu: u32,
    s: u32,
    number: u32,
    stable: &mut bool,
    trace: &mut WatchTrace,
) -> bool
    requires source { s < length ctx.old.machine.now.source }
    requires cpu { cpu < cpu_count ctx.old.machine.now }
    requires stands { Stands ctx.old trace.old }
    requires if_stable { stable.old ≡ true → IsStable ctx.old trace.old }
    requires room { HasRoomFor ctx.old.machine.now (source_plan_at ctx.old.machine.now s ∷ []) ctx.old.time trace.old }
    ensures { MakesVisit cpu number s stable.old ctx.old trace.old result stable.new ctx.new trace.new }
{
    let counter = CpuCounter {
        machine: ctx.machine,
        cpu,
        adjust: *ctx.adjusts.get(cpu as usize),
    };
    let record = trace
        .watch
        .check_source(s, counter, ctx.tickets, &mut ctx.time);
    follow(ctx, cpu, number, &record, stable, trace);
    record.outcome.ends_check()
}

// The stamp or the demotion that a record is followed by while the clock is stable.
fn follow(
    ctx: &mut WatchCtx<'_, Latch>,
    cpu: u32,
    number: u32,
    found: &SourceRecord,
    stable: &mut bool,
    trace: &mut WatchTrace,
)
    requires cpu { cpu < cpu_count ctx.old.machine.now }
    requires seated { IsSeated (λ l s. s.latch ≡ l) ctx.old }
    requires if_stable { stable.old ≡ true → IsStable ctx.old trace.old }
    requires apart { found.now.tsc_current ≡ true → found.now.tsc_demoted ≡ false }
    requires tickets { (found.now.tsc_current || found.now.tsc_demoted) ≡ true → 2 ≤ ctx.old.time.left }
    requires room { (found.now.tsc_current || found.now.tsc_demoted) ≡ true → 1 ≤ trace.old.stamps.room }
    ensures follows { Follows cpu number found.now stable.old ctx.old trace.old stable.new ctx.new trace.new }
    ensures if_stable { stable.new ≡ true → IsStable ctx.new trace.new }
{
    if *stable {
        if found.tsc_current {
            stamp(ctx, cpu, trace);
        } else if found.tsc_demoted {
            end_stable(ctx, cpu, number, trace);
            *stable = false;
        }
    }
}

// A stable stamp, which is kept.
fn stamp(ctx: &mut WatchCtx<'_, Latch>, cpu: u32, trace: &mut WatchTrace)
    requires cpu { cpu < cpu_count ctx.old.machine.now }
    requires stable { IsStable ctx.old trace.old }
    requires tickets { 2 ≤ ctx.old.time.left }
    requires room { 1 ≤ trace.old.stamps.room }
    ensures { Stamps cpu ctx.old trace.old ctx.new trace.new }
{
    let stamp = stable_stamp(ctx, cpu);
    trace.stamps.push(stamp);
}

// The demotion in the check of this number, which is kept.
fn end_stable(ctx: &mut WatchCtx<'_, Latch>, cpu: u32, number: u32, trace: &mut WatchTrace)
    requires cpu { cpu < cpu_count ctx.old.machine.now }
    requires stable { IsStable ctx.old trace.old }
    requires tickets { 2 ≤ ctx.old.time.left }
    ensures { Demotes cpu number ctx.old trace.old ctx.new trace.new }
{
    let demotion = demote(ctx, cpu, number, &mut trace.lifts);
    trace.demotion = Some(demotion);
    trace.demoted_in = number;
}
