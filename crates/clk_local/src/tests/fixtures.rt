//! One CPU at 1 GHz, whose tickets are 10 ns apart, and the context of a thread on it.
ghost use Rattle.std.specs.Prelude.{◌≡◌, ◌+◌, ◌^◌, ◌<◌, ◌≤◌, pos, ◌+ℤ◌, [], IfOk, true};
ghost use Rattle.clk_num.specs.Range.{IsNear, IsFrom0To};
ghost use Rattle.clk_num.specs.Wrapping.{wrap};
ghost use Rattle.clk_ticket.specs.Time.{fresh, without};
ghost use Rattle.clk_machine.specs.Limits.{most_tickets};
ghost use Rattle.clk_machine.specs.Plan.{plan_of, cpu_count};
ghost use Rattle.clk_machine.specs.Records.{record_zero, above_base};
ghost use Rattle.clk_machine.specs.Short.{IsWellFormed};
ghost use Rattle.clk_record.specs.declared.mode.Mode.TheVariants.{PerCpu};
ghost use Rattle.clk_words.specs.Held.{place_of};
ghost use Rattle.clk_words.specs.Histories.{opens_at};
ghost use Rattle.clk_words.specs.Kinds.{cpu_of};
ghost use Rattle.clk_words.specs.Knowing.{HasFoundPerCpu, IsReadingKind, MaySplit, MayDemote};
ghost use Rattle.clk_words.specs.Views.{is_percpu, first_view, giver_view, given_view};
ghost use Rattle.clk_latch.specs.Calls.{IsRecordZero};
ghost use Rattle.clk_local.specs.Context.{BeginsAtBase, IsUsable, MayStamp};

use crate::Ctx;
use clk_latch::{Epochs, Latch, LatchSeat};
use clk_machine::{
    CpuCounter, CpuPart, Machine, Parts, Published, RawReading, ReferencePart, Script,
};
use clk_num::List;
use clk_ticket::{TicketTable, TimeSeat};
use clk_words::{Mode, Opening, Seat, SeatKind, Step, Why, Words};
use std::alloc::{AllocError, Global};
use std::process::Abort;

// Enough for the threads of each test.
const TICKETS: u64 = 200_005;

// A reading by record 0, whose counter and ns are ten times the ticket.
pub fn reading(ticket: u64) -> RawReading
    requires { ticket < most_tickets }
{
    RawReading {
        ticket,
        cyc: 10 * ticket,
        rec: 0,
        ns: 10 * ticket as i64,
    }
}

// A step of the seat 1.
pub fn step(call: u32, why: Why, old: i64, new: i64) -> Step {
    Step {
        by: 1,
        call,
        word: 0,
        why,
        old,
        new,
    }
}

pub fn raise(raw: i64, tick_raw: i64, tick_gtod: i64) -> Why {
    raise_with(raw, tick_raw, tick_gtod, 10)
}

pub fn raise_with(raw: i64, tick_raw: i64, tick_gtod: i64, offset: i64) -> Why {
    Why::Raise {
        raw,
        tick_raw,
        tick_gtod,
        offset,
    }
}

// A list of none.
fn none<T>(alloc: Global) -> List<T>
    ensures { result.items ≡ [] }
{
    List::from_vec(Vec::new(alloc))
}

fn parts(alloc: Global) -> Result<Parts, AllocError>
    ensures form { IfOk result (λ p. IsWellFormed (plan_of p)) }
    ensures cpus { IfOk result (λ p. cpu_count (plan_of p) ≡ 1) }
    ensures base { IfOk result (λ p. p.base ≡ pos 0) }
{
    let mut cpu = List::with_room(alloc, 1)?;
    cpu.push(CpuPart {
        khz: 1_000_000,
        offset: 0,
        socket: 0,
        jumps: none(alloc),
        script: Script {
            repeat: 1,
            words: none(alloc),
        },
    });
    Ok(Parts {
        version: 1,
        base: 0,
        cpus: 1,
        step: 10,
        tick: 1_000_000,
        bits: 64,
        nominal_khz: 1_000_000,
        stable: false,
        reference: ReferencePart {
            khz: 1_000_000,
            bits: 64,
            rating: 100,
            margin: 0,
        },
        cpu,
        reader: none(alloc),
        delay: none(alloc),
        bringup: None,
        watchdog: None,
        source: none(alloc),
    })
}

// The machine, whose clocks begin at 0.
fn machine(rt: &impl Abort, alloc: Global) -> Result<Machine, AllocError>
    ensures cpus { IfOk result (λ m. cpu_count m ≡ 1) }
    ensures base { IfOk result (λ m. m.base ≡ pos 0) }
{
    Ok(Machine::new(parts(alloc)?).expect(rt, "a machine"))
}

// Record 0, whose ticket the test draws.
pub fn zero_of(machine: &Machine) -> Published
    requires { 0 < cpu_count machine.now }
    ensures zero { result ≡ record_zero machine.now }
    ensures is { IsRecordZero result }
{
    let cpus = machine.cpus();
    prove!(cpus > 0);
    Published {
        rec: 0,
        ticket: 0,
        cyc: machine.counter(0, 0, 0),
        ns: machine.base(),
    }
}

// What threads share.
#[derive(Drop)]
pub struct Shared {
    pub words: Words,
    pub latch: Latch,
    pub tickets: TicketTable,
    pub machine: Machine,
    pub ghost words_cpu: { words.start.cpus ≡ 1 },
    pub ghost machine_cpu: { cpu_count machine ≡ 1 },
    pub ghost tick: { words.start.tick ≡ machine.tick },
    pub ghost opens: { opens_at words.start ≡ wrap (pos 10 +ℤ pos 10) },
    pub ghost near: { IsFrom0To (2 ^ 57) (above_base machine (opens_at words.start)) },
}

// The seats of a thread.
#[derive(Drop)]
pub struct Own {
    pub seat: Seat,
    pub latch_seat: LatchSeat,
    pub time: TimeSeat,
}

// The words, which open at 20.
fn opened(alloc: Global, machine: &Machine, mode: Mode) -> Result<(Words, Seat), AllocError>
    ensures start { IfOk result (λ made. made.0.start ≡ record { cpus = 1; tick = machine.now.tick; opening = record { mode = mode; offset = pos 10; tick_gtod = pos 10; tick_raw = pos 20 } }) }
    ensures seat { IfOk result (λ made. made.1 ≡ record { table = made.0.table; view = first_view made.0.start }) }
{
    let start = Opening {
        mode,
        offset: 10,
        tick_gtod: 10,
        tick_raw: 20,
    };
    Words::new(alloc, 1, machine.tick(), start)
}

// Tickets, of which 0 to 2 are drawn, for the epoch and the boot stamp, and so many are left.
fn begun(alloc: Global, left: u64) -> Result<(TicketTable, TimeSeat), AllocError>
    requires { left + 3 ≤ most_tickets }
    ensures table { IfOk result (λ made. made.1.table ≡ made.0.table) }
    ensures left { IfOk result (λ made. made.1.left ≡ left) }
{
    let (tickets, mut time) = TicketTable::new(alloc, left + 3)?;
    tickets.draw(&mut time, 3);
    Ok((tickets, time))
}

// All objects over a machine of one CPU, and the first seats, with the tickets of the threads and one more.
pub fn stand(rt: &impl Abort, alloc: Global, mode: Mode) -> Result<(Shared, Own), AllocError>
    ensures mode { IfOk result (λ made. made.0.words.start.opening.mode ≡ mode) }
    ensures seat { IfOk result (λ made. made.1.seat ≡ record { table = made.0.words.table; view = first_view made.0.words.start }) }
    ensures latch { IfOk result (λ made. made.1.latch_seat.latch ≡ made.0.latch) }
    ensures base { IfOk result (λ made. BeginsAtBase made.0.machine made.1.latch_seat.epoch) }
    ensures table { IfOk result (λ made. made.1.time.table ≡ made.0.tickets.table) }
    ensures left { IfOk result (λ made. made.1.time.left ≡ TICKETS + 1) }
{
    let machine = machine(rt, alloc)?;
    let (words, seat) = opened(alloc, &machine, mode)?;
    let (latch, latch_seat) = Latch::new(alloc, zero_of(&machine), 0)?;
    let (tickets, time) = begun(alloc, TICKETS + 1)?;
    let shared = Shared {
        words,
        latch,
        tickets,
        machine,
    };
    let own = Own {
        seat,
        latch_seat,
        time,
    };
    Ok((shared, own))
}

// Seats of this kind for another thread, with so many tickets.
pub fn hire(shared: &Shared, first: &mut Own, kind: SeatKind, left: u64) -> Own
    requires own { place_of first.old.seat ≡ shared.now.words }
    requires right { MaySplit first.old.seat.view kind }
    requires cpu { cpu_of kind ≡ 0 }
    requires room { first.old.seat.view.made + 1 < 2 ^ 32 }
    requires latch { first.old.latch_seat.latch ≡ shared.now.latch }
    requires base { BeginsAtBase shared.now.machine first.old.latch_seat.epoch }
    requires table { first.old.time.table ≡ shared.now.tickets.table }
    requires left { left ≤ first.old.time.left }
    ensures old { first.new.seat ≡ record { table = shared.now.words.table; view = giver_view kind first.old.seat.view } }
    ensures new { result.seat ≡ record { table = shared.now.words.table; view = given_view kind first.old.seat.view } }
    ensures latch { (first.new.latch_seat.latch ≡ shared.now.latch) × (result.latch_seat.latch ≡ shared.now.latch) }
    ensures base { BeginsAtBase shared.now.machine first.new.latch_seat.epoch × BeginsAtBase shared.now.machine result.latch_seat.epoch }
    ensures time { first.new.time ≡ without left first.old.time }
    ensures budget { result.time ≡ fresh shared.now.tickets.table left first.old.time.seen }
{
    Own {
        seat: shared.words.split(&mut first.seat, kind),
        latch_seat: shared.latch.split(&mut first.latch_seat),
        time: shared.tickets.split(&mut first.time, left),
    }
}

// The context of a thread.
fn context<'a>(shared: &'a Shared, own: Own, sched_offset: i64) -> Ctx<'a, Latch>
    requires own { place_of own.seat ≡ shared.now.words }
    requires reading { IsReadingKind own.seat.view.kind }
    requires cpu { cpu_of own.seat.view.kind ≡ 0 }
    requires latch { own.latch_seat.latch ≡ shared.now.latch }
    requires base { BeginsAtBase shared.now.machine own.latch_seat.epoch }
    requires table { own.time.table ≡ shared.now.tickets.table }
    requires sched_offset { IsNear 59 sched_offset }
    ensures usable { IsUsable ⟦<Latch as Epochs>⟧.fits ⟦<Latch as Epochs>⟧.epoch result }
    ensures seat { result.seat ≡ own.seat }
    ensures time { result.time ≡ own.time }
{
    let counter = CpuCounter {
        machine: &shared.machine,
        cpu: 0,
        adjust: 0,
    };
    Ctx {
        words: &shared.words,
        seat: own.seat,
        epochs: &shared.latch,
        latch_seat: own.latch_seat,
        tickets: &shared.tickets,
        time: own.time,
        counter,
        sched_offset,
        call: 0,
    }
}

// The context of the CPU's owner, who is seat 1, with so many tickets.
pub fn owner_of<'a>(
    shared: &'a Shared,
    first: &mut Own,
    left: u64,
    sched_offset: i64,
) -> Ctx<'a, Latch>
    requires seat { first.old.seat ≡ record { table = shared.now.words.table; view = first_view shared.now.words.start } }
    requires latch { first.old.latch_seat.latch ≡ shared.now.latch }
    requires base { BeginsAtBase shared.now.machine first.old.latch_seat.epoch }
    requires table { first.old.time.table ≡ shared.now.tickets.table }
    requires left { left < first.old.time.left }
    requires sched_offset { IsNear 59 sched_offset }
    ensures usable { IsUsable ⟦<Latch as Epochs>⟧.fits ⟦<Latch as Epochs>⟧.epoch result }
    ensures found { result.seat.view.modes.found ≡ is_percpu shared.now.words.start.opening.mode }
    ensures stamp { MayStamp result.seat.view }
    ensures left { result.time.left ≡ left }
    ensures own { place_of first.new.seat ≡ shared.now.words }
    ensures watch { first.new.seat.view.modes.watch ≡ true }
    ensures mode { first.new.seat.view.modes.found ≡ is_percpu shared.now.words.start.opening.mode }
    ensures table { first.new.time.table ≡ shared.now.tickets.table }
    ensures rest { 1 ≤ first.new.time.left }
{
    let own = hire(shared, first, SeatKind::Owner(0), left);
    context(shared, own, sched_offset)
}

// The contexts of the CPU's owner, who is seat 1, and of a reader, each with so many tickets.
pub fn both_of<'a>(
    shared: &'a Shared,
    first: &mut Own,
    owners: u64,
    readers: u64,
) -> (Ctx<'a, Latch>, Ctx<'a, Latch>)
    requires seat { first.old.seat ≡ record { table = shared.now.words.table; view = first_view shared.now.words.start } }
    requires latch { first.old.latch_seat.latch ≡ shared.now.latch }
    requires base { BeginsAtBase shared.now.machine first.old.latch_seat.epoch }
    requires table { first.old.time.table ≡ shared.now.tickets.table }
    requires left { owners + readers < first.old.time.left }
    requires mode { shared.now.words.start.opening.mode ≡ PerCpu }
    ensures owner { IsUsable ⟦<Latch as Epochs>⟧.fits ⟦<Latch as Epochs>⟧.epoch result.0 }
    ensures reader { IsUsable ⟦<Latch as Epochs>⟧.fits ⟦<Latch as Epochs>⟧.epoch result.1 }
    ensures found { HasFoundPerCpu result.0.seat.view × HasFoundPerCpu result.1.seat.view }
    ensures stamp { MayStamp result.0.seat.view }
    ensures left { (result.0.time.left ≡ owners) × (result.1.time.left ≡ readers) }
    ensures own { place_of first.new.seat ≡ shared.now.words }
    ensures table { first.new.time.table ≡ shared.now.tickets.table }
    ensures rest { 1 ≤ first.new.time.left }
{
    let own = hire(shared, first, SeatKind::Owner(0), owners);
    let other = hire(shared, first, SeatKind::Reader(0), readers);
    (context(shared, own, 0), context(shared, other, 0))
}

// What a watchdog does to end the stable mode, on the one CPU: the pair is 30 and 30, and 7 is added from then on.
pub fn demote(shared: &Shared, own: &mut Own)
    requires own { place_of own.old.seat ≡ shared.now.words }
    requires may { MayDemote own.old.seat.view }
    requires cpus { shared.now.words.start.cpus ≡ 1 }
    requires opening { opens_at shared.now.words.start ≡ wrap (pos 10 +ℤ pos 10) }
    ensures own { place_of own.new.seat ≡ shared.now.words }
    ensures time { own.new.time ≡ own.old.time }
{
    shared.words.publish_offset(&mut own.seat, 7);
    shared.words.clone_gtod(&mut own.seat, 0, 30);
    shared.words.clone_raw(&mut own.seat, 0, 30);
    shared.words.lift(&mut own.seat, 0, 0, 37);
    shared.words.publish_mode(&mut own.seat);
}

// What the clock word holds at the end, and the next ticket, which is the number of those that were drawn.
pub fn end(shared: &Shared, first: &mut Own) -> (i64, u64)
    requires own { place_of first.old.seat ≡ shared.now.words }
    requires table { first.old.time.table ≡ shared.now.tickets.table }
    requires left { 1 ≤ first.old.time.left }
{
    let last = shared.words.load_clock(&mut first.seat, 0);
    (last, shared.tickets.draw(&mut first.time, 1))
}

// What threads do at a stand that starts in some mode, and what they see.
pub trait Row {
    ghost use Rattle.clk_record.specs.declared.mode.Mode.{Mode};

    type Seen: Copy;

    ghost starts: { Mode };

    fn mode() -> Mode
        ensures { result ≡ starts };

    fn run(shared: &Shared, first: &mut Own) -> Self::Seen
        requires seat { first.old.seat ≡ record { table = shared.now.words.table; view = first_view shared.now.words.start } }
        requires latch { first.old.latch_seat.latch ≡ shared.now.latch }
        requires base { BeginsAtBase shared.now.machine first.old.latch_seat.epoch }
        requires table { first.old.time.table ≡ shared.now.tickets.table }
        requires left { TICKETS < first.old.time.left }
        requires mode { shared.now.words.start.opening.mode ≡ starts }
        ensures own { place_of first.new.seat ≡ shared.now.words }
        ensures table { first.new.time.table ≡ shared.now.tickets.table }
        ensures rest { 1 ≤ first.new.time.left };
}

// What the threads of a row see, and the end.
pub fn play<W: Row, R: Abort>(rt: &R, alloc: Global) -> Result<(W::Seen, (i64, u64)), AllocError> {
    let (shared, mut first) = stand(rt, alloc, W::mode())?;
    let seen = W::run(&shared, &mut first);
    Ok((seen, end(&shared, &mut first)))
}
