//! A watchdog that stamps and then demotes one CPU, whose counter runs a tenth faster than the reference.
ghost use Rattle.std.specs.Prelude.{◌≡◌, ◌+◌, ◌<◌, ◌≤◌, pos, [], ◌∷◌, length, map, All, IfOk};
ghost use Rattle.std.specs.List.{AllZip};
ghost use Rattle.clk_machine.specs.Limits.{most_tickets};
ghost use Rattle.clk_machine.specs.Plan.{plan_of, cpu_count};
ghost use Rattle.clk_machine.specs.Records.{record_zero};
ghost use Rattle.clk_machine.specs.Short.{IsWellFormed};
ghost use Rattle.clk_record.specs.declared.mode.Mode.TheVariants.{Stable};
ghost use Rattle.clk_words.specs.Held.{place_of};
ghost use Rattle.clk_words.specs.Knowing.{IsReadingKind, MayDemote};
ghost use Rattle.clk_words.specs.Views.{first_view, giver_view, given_view};
ghost use Rattle.clk_words.specs.declared.kind.SeatKind.TheVariants.{Watch};
ghost use Rattle.clk_latch.specs.Calls.{IsRecordZero};
ghost use Rattle.clk_local.specs.Context.{BeginsAtBase};
ghost use Rattle.clk_demote.specs.Context.{IsUsable};

use crate::{Demotion, StableStamp, WatchCtx, demote, stable_stamp};
use clk_latch::{Epochs, Latch, LatchSeat};
use clk_machine::{CpuPart, Machine, Parts, Published, RawReading, ReferencePart, Script};
use clk_num::List;
use clk_ticket::{TicketTable, TimeSeat};
use clk_words::{Mode, Opening, Seat, SeatKind, Step, Why, Words};
use std::alloc::{AllocError, Global};
use std::process::Abort;
use std::test::Fail;

// A list of none.
fn none<T, R: Abort>(rt: &R, alloc: Global) -> List<T>
    ensures { result.items ≡ [] }
{
    List::with_room(alloc, 0).expect(rt, "memory")
}

// A list of one.
fn one<T: Drop, R: Abort>(rt: &R, alloc: Global, item: T) -> List<T>
    ensures { result.items ≡ item ∷ [] }
{
    let mut list = List::with_room(alloc, 1).expect(rt, "memory");
    list.push(item);
    list
}

fn parts<R: Abort>(rt: &R, alloc: Global) -> Parts
    ensures form { IsWellFormed (plan_of result) }
    ensures cpus { cpu_count (plan_of result) ≡ 1 }
    ensures base { result.base ≡ pos 0 }
{
    let script = Script {
        repeat: 1,
        words: none(rt, alloc),
    };
    let cpu = CpuPart {
        khz: 1_100_000,
        offset: 0,
        socket: 0,
        jumps: none(rt, alloc),
        script,
    };
    Parts {
        version: 1,
        base: 0,
        cpus: 1,
        step: 10,
        tick: 1_000_000,
        bits: 64,
        nominal_khz: 1_000_000,
        stable: true,
        reference: ReferencePart {
            khz: 1_000_000,
            bits: 64,
            rating: 100,
            margin: 7,
        },
        cpu: one(rt, alloc, cpu),
        reader: none(rt, alloc),
        delay: none(rt, alloc),
        bringup: None,
        watchdog: None,
        source: none(rt, alloc),
    }
}

// The machine, whose clocks begin at 0.
fn machine<R: Abort>(rt: &R, alloc: Global) -> Machine
    ensures cpus { cpu_count result ≡ 1 }
    ensures base { result.base ≡ pos 0 }
{
    Machine::new(parts(rt, alloc)).expect(rt, "a machine")
}

// Record 0, whose ticket the test draws.
fn zero_of(machine: &Machine) -> Published
    requires { 0 < cpu_count machine.now }
    ensures zero { result ≡ record_zero machine.now }
    ensures is { IsRecordZero result }
{
    let cpus = machine.cpus();
    prove!(cpus > 0);
    Published {
        rec: 0,
        ticket: 0,
        cyc: machine.counter(0, 0, 0),
        ns: machine.base(),
    }
}

// A reading by record 0, whose counter and ns are eleven times the ticket.
fn reading(ticket: u64) -> RawReading
    requires { ticket < most_tickets }
{
    RawReading {
        ticket,
        cyc: 11 * ticket,
        rec: 0,
        ns: 11 * ticket as i64,
    }
}

// The last stamp of the boot.
fn boot_stamp() -> StableStamp
    ensures { (result.gtod ≡ pos 30) × (result.raw.ns ≡ pos 44) }
{
    StableStamp {
        gtod_ticket: 3,
        gtod: 30,
        raw: RawReading {
            ticket: 4,
            cyc: 44,
            rec: 0,
            ns: 44,
        },
        offset: 12,
    }
}

// A latch that begins with record 0, and the owner's seat.
fn latch(alloc: Global, machine: &Machine) -> Result<(Latch, LatchSeat), AllocError>
    requires { 0 < cpu_count machine.now }
    ensures latch { IfOk result (λ made. made.1.latch ≡ made.0) }
    ensures base { IfOk result (λ made. BeginsAtBase machine.now made.1.epoch) }
{
    let (latch, latch_seat) = Latch::new(alloc, zero_of(machine), 0)?;
    Ok((latch, latch_seat))
}

// The words, which open stable at 42, a reader's seat at them, and the watchdog's.
fn words(alloc: Global, machine: &Machine) -> Result<(Words, Seat, Seat), AllocError>
    ensures start { IfOk result (λ made. made.0.start ≡ record { cpus = 1; tick = machine.now.tick; opening = record { mode = Stable; offset = pos 12; tick_gtod = pos 30; tick_raw = pos 44 } }) }
    ensures first { IfOk result (λ made. made.1 ≡ record { table = made.0.table; view = giver_view Watch (first_view made.0.start) }) }
    ensures watch { IfOk result (λ made. made.2 ≡ record { table = made.0.table; view = given_view Watch (first_view made.0.start) }) }
{
    let start = Opening {
        mode: Mode::Stable,
        offset: 12,
        tick_gtod: 30,
        tick_raw: 44,
    };
    let (words, mut first) = Words::new(alloc, 1, machine.tick(), start)?;
    let seat = words.split(&mut first, SeatKind::Watch);
    Ok((words, first, seat))
}

// The tickets, of which 0 to 32 are drawn, for the boot and a check.
fn tickets(alloc: Global) -> Result<(TicketTable, TimeSeat), AllocError>
    ensures table { IfOk result (λ made. made.1.table ≡ made.0.table) }
    ensures left { IfOk result (λ made. made.1.left ≡ 18) }
{
    let (tickets, mut time) = TicketTable::new(alloc, 51)?;
    tickets.draw(&mut time, 33);
    Ok((tickets, time))
}

// What threads share.
#[derive(Drop)]
struct Shared {
    words: Words,
    latches: List<Latch>,
    adjusts: List<i64>,
    tickets: TicketTable,
    machine: Machine,
}

// The seats of the watchdog.
#[derive(Drop)]
struct Own {
    seat: Seat,
    latch_seats: List<LatchSeat>,
    time: TimeSeat,
}

// All objects over a machine of one CPU, a reader's seat at the words, and the watchdog's. The words open stable at 42,
// and tickets 0 to 32 are drawn.
fn stand<R: Abort>(rt: &R, alloc: Global) -> (Shared, Seat, Own)
    ensures cpus { cpu_count result.0.machine ≡ 1 }
    ensures zero { result.0.machine.base ≡ pos 0 }
    ensures words { result.0.words.start ≡ record { cpus = 1; tick = result.0.machine.tick; opening = record { mode = Stable; offset = pos 12; tick_gtod = pos 30; tick_raw = pos 44 } } }
    ensures first { result.1 ≡ record { table = result.0.words.table; view = giver_view Watch (first_view result.0.words.start) } }
    ensures watch { result.2.seat ≡ record { table = result.0.words.table; view = given_view Watch (first_view result.0.words.start) } }
    ensures latches { AllZip ⟦<Latch as Epochs>⟧.fits result.0.latches.items result.2.latch_seats.items }
    ensures count { length result.0.latches.items ≡ 1 }
    ensures base { All (BeginsAtBase result.0.machine) (map ⟦<Latch as Epochs>⟧.epoch result.2.latch_seats.items) }
    ensures adjusts { result.0.adjusts.items ≡ pos 0 ∷ [] }
    ensures tickets { (result.2.time.table ≡ result.0.tickets.table) × (result.2.time.left ≡ 18) }
{
    let machine = machine(rt, alloc);
    let (words, first, seat) = words(alloc, &machine).expect(rt, "memory");
    let (latch, latch_seat) = latch(alloc, &machine).expect(rt, "memory");
    let (tickets, time) = tickets(alloc).expect(rt, "memory");
    let own = Own {
        seat,
        latch_seats: one(rt, alloc, latch_seat),
        time,
    };
    let shared = Shared {
        words,
        latches: one(rt, alloc, latch),
        adjusts: one(rt, alloc, 0),
        tickets,
        machine,
    };
    (shared, first, own)
}

// What a reader finds of the pair and the offset once the mode is per-CPU.
fn found(words: &Words, seat: &mut Seat) -> Option<(i64, i64, i64)>
    requires own { place_of seat.old ≡ words.now }
    requires reading { IsReadingKind seat.old.view.kind }
{
    match words.look_mode(seat) {
        Mode::Stable => None,
        Mode::PerCpu => Some((
            words.load_raw(seat),
            words.load_gtod(seat),
            words.load_offset(seat),
        )),
    }
}

// The context of the watchdog.
fn context<'a>(shared: &'a Shared, own: Own) -> WatchCtx<'a, Latch>
    requires cpus { cpu_count shared.now.machine ≡ 1 }
    requires words { shared.now.words.start ≡ record { cpus = 1; tick = shared.now.machine.tick; opening = record { mode = Stable; offset = pos 12; tick_gtod = pos 30; tick_raw = pos 44 } } }
    requires seat { own.seat ≡ record { table = shared.now.words.table; view = given_view Watch (first_view shared.now.words.start) } }
    requires zero { shared.now.machine.base ≡ pos 0 }
    requires latches { AllZip ⟦<Latch as Epochs>⟧.fits shared.now.latches.items own.latch_seats.items }
    requires count { length shared.now.latches.items ≡ 1 }
    requires base { All (BeginsAtBase shared.now.machine) (map ⟦<Latch as Epochs>⟧.epoch own.latch_seats.items) }
    requires adjusts { shared.now.adjusts.items ≡ pos 0 ∷ [] }
    requires table { own.time.table ≡ shared.now.tickets.table }
    ensures usable { IsUsable ⟦<Latch as Epochs>⟧.fits ⟦<Latch as Epochs>⟧.epoch result }
    ensures may { MayDemote result.seat.view }
    ensures words { result.words.now ≡ shared.now.words }
    ensures tickets { result.tickets.now ≡ shared.now.tickets }
    ensures machine { result.machine.now ≡ shared.now.machine }
    ensures time { result.time ≡ own.time }
{
    WatchCtx {
        words: &shared.words,
        seat: own.seat,
        epochs: &shared.latches,
        latch_seats: own.latch_seats,
        adjusts: &shared.adjusts,
        tickets: &shared.tickets,
        time: own.time,
        machine: &shared.machine,
        sched_offset: -2,
        gtod_offset: 12,
        last: boot_stamp(),
    }
}

// The tickets of the second check: its pause, and the four of its bracket.
fn pause(ctx: &mut WatchCtx<'_, Latch>)
    requires usable { IsUsable ⟦<Latch as Epochs>⟧.fits ⟦<Latch as Epochs>⟧.epoch ctx.old }
    requires may { MayDemote ctx.old.seat.view }
    requires tickets { 14 ≤ ctx.old.time.left }
    ensures usable { IsUsable ⟦<Latch as Epochs>⟧.fits ⟦<Latch as Epochs>⟧.epoch ctx.new }
    ensures may { MayDemote ctx.new.seat.view }
    ensures words { ctx.new.words.now ≡ ctx.old.words.now }
    ensures machine { ctx.new.machine.now ≡ ctx.old.machine.now }
    ensures tickets { ctx.new.time.left + 14 ≡ ctx.old.time.left }
{
    ctx.tickets.draw(&mut ctx.time, 14);
}

// A lift of the seat 1, in the second check.
fn lift(old: i64, new: i64) -> Step {
    Step {
        by: 1,
        call: 2,
        word: 0,
        why: Why::Lift { value: new },
        old,
        new,
    }
}

// What the watchdog answers to a stamp and to a demotion, its lifts, and what a reader finds then.
#[derive(Drop)]
struct Answers {
    stable: StableStamp,
    demotion: Demotion,
    lifts: List<Step>,
    found: Option<(i64, i64, i64)>,
}

fn stamp_and_demote<R: Abort>(rt: &R, alloc: Global) -> Answers {
    let (shared, mut first, own) = stand(rt, alloc);
    let mut lifts = List::with_room(alloc, 1).expect(rt, "memory");
    let mut ctx = context(&shared, own);
    let stable = stable_stamp(&mut ctx, 0);
    pause(&mut ctx);
    let demotion = demote(&mut ctx, 0, 2, &mut lifts);
    Answers {
        stable,
        demotion,
        lifts,
        found: found(&shared.words, &mut first),
    }
}

#[test]
fn the_watchdog_demotes(rt: HostRuntime) {
    let answers = stamp_and_demote(&rt, rt.alloc());
    let stable = StableStamp {
        gtod_ticket: 33,
        gtod: 330,
        raw: reading(34),
        offset: 42,
    };
    let demotion = Demotion {
        stable,
        gtod_ticket: 49,
        gtod: 490,
        raw: reading(50),
        sched_offset: -2,
        gtod_offset: 42,
        opening: 532,
        drift: 16,
    };
    assert_eq!(rt; (answers.stable, answers.demotion), (stable, demotion));
    assert_eq!(rt;
        (answers.lifts.items(), answers.found),
        ([lift(42, 532)].as_slice(), Some((550, 490, 42)))
    );
}
