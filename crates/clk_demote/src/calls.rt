//! The stable stamp and the demotion.
ghost use Rattle.std.specs.Prelude.{◌≡◌, ◌+◌, ◌<◌, ◌≤◌, ◌++◌};
ghost use Rattle.clk_machine.specs.Plan.{cpu_count};
ghost use Rattle.clk_record.specs.Demotions.{OpensLessDrift};
ghost use Rattle.clk_words.specs.Bounds.{IsGtod, IsRaw, IsOffset, IsLiftValue};
ghost use Rattle.clk_words.specs.Held.{place_of};
ghost use Rattle.clk_words.specs.Histories.{opens_at};
ghost use Rattle.clk_words.specs.Told.{published};
ghost use Rattle.clk_words.specs.Knowing.{IsGood, HasCloned, HasFoundPerCpu, HasLifted, MayDemote};
ghost use Rattle.clk_local.specs.Context.{Spends};
ghost use Rattle.clk_demote.specs.Context.{site_of, known_of, IsSeated, IsUsable, Keeps, IsUnlifted};
ghost use Rattle.clk_demote.specs.Stamping.{pairs_stored};
ghost use Rattle.clk_demote.specs.Lifts.{lifts_of, lifted};
ghost use Rattle.clk_demote.specs.Shows.{ShowsStamp, ShowsStableStamp, ShowsDemotion};

use crate::context::WatchCtx;
use crate::latches::read_at;
use crate::opening::{demotion_after, stable_offset};
use clk_latch::Epochs;
use clk_machine::{CpuCounter, RawReading};
use clk_num::List;
use clk_record::{Demotion, StableStamp};
use clk_words::{Seat, Step, Words};

/// A stable stamp of CPU `cpu`: it stores the CPU's pair, and the offset by which the stamp's GTOD shows what the
/// stable clock does at its raw reading. Both are the context's from then on. The mode is stable by the seat's view. It
/// draws two tickets, takes no memory, and waits only where the latch does. After `sched_clock_tick_stable` of Linux
/// 6.1.
pub fn stable_stamp<E: Epochs>(ctx: &mut WatchCtx<'_, E>, cpu: u32) -> StableStamp
    requires usable { IsUsable E.fits E.epoch ctx.old }
    requires may { MayDemote ctx.old.seat.view }
    requires cpu { cpu < cpu_count ctx.old.machine.now }
    requires tickets { 2 ≤ ctx.old.time.left }
    ensures keeps { Keeps ctx.old ctx.new }
    ensures usable { IsUsable E.fits E.epoch ctx.new }
    ensures may { MayDemote ctx.new.seat.view }
    ensures spends { Spends 2 ctx.old.time ctx.new.time }
    ensures shows { ShowsStableStamp (site_of ctx.old) cpu (known_of E.epoch ctx.old) result (known_of E.epoch ctx.new) }
{
    let stamp = store_stamp(ctx, cpu);
    let offset = stable_offset(ctx.sched_offset, stamp.gtod, stamp.raw.ns);
    ctx.words.publish_offset(&mut ctx.seat, offset);
    let stable = StableStamp {
        gtod_ticket: stamp.gtod_ticket,
        gtod: stamp.gtod,
        raw: stamp.raw,
        offset,
    };
    ctx.gtod_offset = offset;
    ctx.last = stable;
    stable
}

/// The end of the stable mode, on CPU `cpu`: a stamp, whose pair every CPU gets, a lift of each clock word to where the
/// clock opens, and last the mode, which is per-CPU from then on. The lifts have the call number `check` and are
/// appended to `lifts`, which has room for one of each CPU. The context's `gtod_offset` and `last` stay. The mode is
/// stable by the seat's view. It draws two tickets, takes no memory, and waits only where the latch does. After
/// `__sched_clock_work` of Linux 6.1.
pub fn demote<E: Epochs>(
    ctx: &mut WatchCtx<'_, E>,
    cpu: u32,
    check: u32,
    lifts: &mut List<Step>,
) -> Demotion
    requires usable { IsUsable E.fits E.epoch ctx.old }
    requires may { MayDemote ctx.old.seat.view }
    requires cpu { cpu < cpu_count ctx.old.machine.now }
    requires tickets { 2 ≤ ctx.old.time.left }
    requires room { cpu_count ctx.old.machine.now ≤ lifts.old.room }
    ensures keeps { Keeps ctx.old ctx.new }
    ensures seated { IsSeated E.fits ctx.new }
    ensures percpu { HasFoundPerCpu ctx.new.seat.view }
    ensures spends { Spends 2 ctx.old.time ctx.new.time }
    ensures shows { ShowsDemotion (site_of ctx.old) cpu check (known_of E.epoch ctx.old) result (known_of E.epoch ctx.new) }
    ensures lifts { lifts.new.items ≡ lifts.old.items
        ++ lifts_of ctx.old.seat.view.number ctx.old.seat.view.start check result.opening (cpu_count ctx.old.machine.now) }
    ensures room { lifts.new.room + cpu_count ctx.old.machine.now ≡ lifts.old.room }
    ensures shift { OpensLessDrift result }
{
    let stamp = store_stamp(ctx, cpu);
    let demotion = demotion_after(
        ctx.last,
        ctx.sched_offset,
        ctx.gtod_offset,
        stamp.gtod_ticket,
        stamp.gtod,
        stamp.raw,
    );
    let cpus = ctx.machine.cpus();
    end_stable(ctx.words, &mut ctx.seat, cpus, check, &demotion, lifts);
    demotion
}

// A stamp that was stored.
#[derive(Clone, Copy)]
struct Stamp {
    gtod_ticket: u64,
    gtod: i64,
    raw: RawReading,
}

// Takes a stamp of a CPU and stores it as the CPU's pair, each half as it is read.
fn store_stamp<E: Epochs>(ctx: &mut WatchCtx<'_, E>, cpu: u32) -> Stamp
    requires usable { IsUsable E.fits E.epoch ctx.old }
    requires may { MayDemote ctx.old.seat.view }
    requires cpu { cpu < cpu_count ctx.old.machine.now }
    requires tickets { 2 ≤ ctx.old.time.left }
    ensures keeps { Keeps ctx.old ctx.new }
    ensures usable { IsUsable E.fits E.epoch ctx.new }
    ensures may { MayDemote ctx.new.seat.view }
    ensures spends { Spends 2 ctx.old.time ctx.new.time }
    ensures offset { ctx.new.gtod_offset ≡ ctx.old.gtod_offset }
    ensures range { IsOffset (opens_at ctx.new.words.now.start) ctx.new.gtod_offset }
    ensures last { ctx.new.last ≡ ctx.old.last }
    ensures shows { ShowsStamp (site_of ctx.old) cpu (known_of E.epoch ctx.old)
        result.gtod_ticket result.gtod result.raw (known_of E.epoch ctx.new) }
{
    let gtod_ticket = ctx.tickets.draw(&mut ctx.time, 1);
    let gtod = ctx.machine.gtod(gtod_ticket);
    ctx.words.clone_gtod(&mut ctx.seat, cpu, gtod);
    let counter = CpuCounter {
        machine: ctx.machine,
        cpu,
        adjust: *ctx.adjusts.get(cpu as usize),
    };
    let raw = read_at(
        ctx.epochs,
        &mut ctx.latch_seats,
        ctx.tickets,
        &mut ctx.time,
        counter,
    );
    ctx.words.clone_raw(&mut ctx.seat, cpu, raw.ns);
    Stamp {
        gtod_ticket,
        gtod,
        raw,
    }
}

// Stores the pair of the demotion at every CPU, lifts every clock word to where the clock opens, and last makes the
// mode per-CPU: a reader that finds it so finds the pairs and the words of that time.
fn end_stable(
    words: &Words,
    seat: &mut Seat,
    cpus: u32,
    check: u32,
    demotion: &Demotion,
    lifts: &mut List<Step>,
)
    requires own { place_of seat.old ≡ words.now }
    requires may { MayDemote seat.old.view }
    requires cpus { (words.now.start.cpus ≡ cpus) × (1 ≤ cpus) }
    requires gtod { IsGtod demotion.now.gtod }
    requires raw { IsRaw (opens_at words.now.start) demotion.now.raw.ns }
    requires value { IsLiftValue (opens_at words.now.start) demotion.now.opening }
    requires unlifted { IsUnlifted seat.old.view }
    requires room { cpus ≤ lifts.old.room }
    ensures own { place_of seat.new ≡ words.now }
    ensures view { seat.new.view ≡ published
        (lifted (lifts_of seat.old.view.number seat.old.view.start check demotion.now.opening cpus)
        (pairs_stored cpus demotion.now.gtod demotion.now.raw.ns seat.old.view)) }
    ensures good { IsGood seat.new.view }
    ensures items { lifts.new.items ≡ lifts.old.items
        ++ lifts_of seat.old.view.number seat.old.view.start check demotion.now.opening cpus }
    ensures room { lifts.new.room + cpus ≡ lifts.old.room }
{
    store_pairs(words, seat, cpus, demotion.gtod, demotion.raw.ns);
    lift_words(words, seat, cpus, check, demotion.opening, lifts);
    words.publish_mode(seat);
}

// Stores this pair at every CPU.
fn store_pairs(words: &Words, seat: &mut Seat, cpus: u32, gtod: i64, raw: i64)
    requires own { place_of seat.old ≡ words.now }
    requires may { MayDemote seat.old.view }
    requires cpus { words.now.start.cpus ≡ cpus }
    requires gtod { IsGtod gtod }
    requires raw { IsRaw (opens_at words.now.start) raw }
    ensures own { place_of seat.new ≡ words.now }
    ensures view { seat.new.view ≡ pairs_stored cpus gtod raw seat.old.view }
    ensures cloned { HasCloned seat.new.view }
    ensures unlifted { IsUnlifted seat.old.view → IsUnlifted seat.new.view }
    ensures may { MayDemote seat.new.view }
{
    for cpu in 0..cpus {
        words.clone_gtod(seat, cpu, gtod);
        words.clone_raw(seat, cpu, raw);
    }
}

// Lifts every clock word to the opening.
fn lift_words(
    words: &Words,
    seat: &mut Seat,
    cpus: u32,
    check: u32,
    opening: i64,
    lifts: &mut List<Step>,
)
    requires own { place_of seat.old ≡ words.now }
    requires may { MayDemote seat.old.view }
    requires cpus { (words.now.start.cpus ≡ cpus) × (1 ≤ cpus) }
    requires value { IsLiftValue (opens_at words.now.start) opening }
    requires unlifted { IsUnlifted seat.old.view }
    requires room { cpus ≤ lifts.old.room }
    ensures own { place_of seat.new ≡ words.now }
    ensures view { seat.new.view ≡ lifted (lifts_of seat.old.view.number seat.old.view.start check opening cpus) seat.old.view }
    ensures good { IsGood seat.new.view }
    ensures cloned { HasCloned seat.old.view → HasCloned seat.new.view }
    ensures all { HasLifted seat.new.view }
    ensures may { MayDemote seat.new.view }
    ensures items { lifts.new.items ≡ lifts.old.items ++ lifts_of seat.old.view.number seat.old.view.start check opening cpus }
    ensures room { lifts.new.room + cpus ≡ lifts.old.room }
{
    for cpu in 0..cpus {
        let lift = words.lift(seat, check, cpu, opening);
        lifts.push(lift);
    }
}
