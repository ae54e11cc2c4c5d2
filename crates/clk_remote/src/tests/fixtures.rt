//! Two CPUs at 1 GHz, whose tickets are 10 ns apart, and the contexts of their owners.
ghost use Rattle.std.specs.Prelude.{◌≡◌, ◌≢◌, ◌+◌, ◌*◌, ◌^◌, ◌<◌, ◌≤◌, pos, [], ◌∷◌, ◌++◌, IfOk};
ghost use Rattle.clk_num.specs.Range.{IsFrom0To};
ghost use Rattle.clk_ticket.specs.Time.{share_of};
ghost use Rattle.clk_machine.specs.Limits.{most_tickets};
ghost use Rattle.clk_machine.specs.Plan.{plan_of, cpu_count};
ghost use Rattle.clk_machine.specs.Records.{record_zero, above_base};
ghost use Rattle.clk_machine.specs.Short.{IsWellFormed};
ghost use Rattle.clk_latch.specs.Calls.{IsRecordZero};
ghost use Rattle.clk_words.specs.declared.kind.SeatKind.TheVariants.{Owner};
ghost use Rattle.clk_words.specs.Held.{place_of};
ghost use Rattle.clk_words.specs.Histories.{opens_at};
ghost use Rattle.clk_words.specs.Kinds.{cpu_of};
ghost use Rattle.clk_words.specs.Knowing.{IsReadingKind, MaySplit, numbers_of};
ghost use Rattle.clk_words.specs.Views.{first_view, giver_view, given_view};
ghost use Rattle.clk_local.specs.Context.{BeginsAtBase, IsUsable};

use crate::{RemoteEvent, remote};
use clk_latch::{Epochs, Latch, LatchSeat};
use clk_local::{Ctx, Reading, local};
use clk_machine::{CpuCounter, CpuPart, Machine, Parts, Published, ReferencePart, Script};
use clk_num::List;
use clk_ticket::{TicketTable, TimeSeat};
use clk_words::{Mode, Opening, Seat, SeatKind, Words};
use std::alloc::{AllocError, Global};
use std::process::Abort;

// A list of none.
fn none<T, R: Abort>(rt: &R, alloc: Global) -> List<T>
    ensures { result.items ≡ [] }
{
    List::with_room(alloc, 0).expect(rt, "memory")
}

// A CPU whose counter is so many cycles ahead.
fn cpu_part<R: Abort>(rt: &R, alloc: Global, ahead: i64) -> CpuPart
    ensures jumps { result.jumps.items ≡ [] }
    ensures words { result.script.words.items ≡ [] }
{
    CpuPart {
        khz: 1_000_000,
        offset: ahead,
        socket: 0,
        jumps: none(rt, alloc),
        script: Script {
            repeat: 1,
            words: none(rt, alloc),
        },
    }
}

fn parts<R: Abort>(rt: &R, alloc: Global, ahead: i64) -> Parts
    ensures form { IsWellFormed (plan_of result) }
    ensures cpus { cpu_count (plan_of result) ≡ 2 }
    ensures base { result.base ≡ pos 0 }
{
    let mut cpu = List::with_room(alloc, 2).expect(rt, "memory");
    cpu.push(cpu_part(rt, alloc, 0));
    cpu.push(cpu_part(rt, alloc, ahead));
    Parts {
        version: 1,
        base: 0,
        cpus: 2,
        step: 10,
        tick: 1_000_000,
        bits: 64,
        nominal_khz: 1_000_000,
        stable: false,
        reference: ReferencePart {
            khz: 1_000_000,
            bits: 64,
            rating: 100,
            margin: 0,
        },
        cpu,
        reader: none(rt, alloc),
        delay: none(rt, alloc),
        bringup: None,
        watchdog: None,
        source: none(rt, alloc),
    }
}

// The machine, whose clocks begin at 0. The counter of CPU 1 is so many cycles ahead of CPU 0's.
fn machine<R: Abort>(rt: &R, alloc: Global, ahead: i64) -> Machine
    ensures cpus { cpu_count result ≡ 2 }
    ensures base { result.base ≡ pos 0 }
{
    Machine::new(parts(rt, alloc, ahead)).expect(rt, "a machine")
}

// The words, which open at 20, and their first seat.
fn words(alloc: Global, machine: &Machine, mode: Mode) -> Result<(Words, Seat), AllocError>
    requires base { machine.now.base ≡ pos 0 }
    ensures start { IfOk result (λ made. made.0.start ≡ record { cpus = 2; tick = machine.now.tick; opening = record { mode = mode; offset = pos 10; tick_gtod = pos 10; tick_raw = pos 20 } }) }
    ensures seat { IfOk result (λ made. made.1 ≡ record { table = made.0.table; view = first_view made.0.start }) }
    ensures opening { IfOk result (λ made. IsFrom0To (2 ^ 57) (above_base machine.now (opens_at made.0.start))) }
{
    let opening = Opening {
        mode,
        offset: 10,
        tick_gtod: 10,
        tick_raw: 20,
    };
    let (words, seat) = Words::new(alloc, 2, machine.tick(), opening)?;
    Ok((words, seat))
}

// The tickets, of which 0 to 2 are drawn.
fn tickets(alloc: Global, total: u64) -> Result<(TicketTable, TimeSeat), AllocError>
    requires { (3 ≤ total) × (total ≤ most_tickets) }
    ensures table { IfOk result (λ made. made.1.table ≡ made.0.table) }
    ensures left { IfOk result (λ made. made.1.left + 3 ≡ total) }
    ensures share { IfOk result (λ made. share_of made.1 ≡ made.0.total) }
{
    let (tickets, mut time) = TicketTable::new(alloc, total)?;
    tickets.draw(&mut time, 3);
    Ok((tickets, time))
}

// Record 0, by the counter of CPU 0.
fn zero_of(machine: &Machine) -> Published
    requires { 0 < cpu_count machine.now }
    ensures zero { result ≡ record_zero machine.now }
    ensures is { IsRecordZero result }
{
    let cpus = machine.cpus();
    prove!(cpus > 0);
    Published {
        rec: 0,
        ticket: 0,
        cyc: machine.counter(0, 0, 0),
        ns: machine.base(),
    }
}

// A latch that begins with it, and the owner's seat.
fn latch(alloc: Global, machine: &Machine) -> Result<(Latch, LatchSeat), AllocError>
    requires { 0 < cpu_count machine.now }
    ensures latch { IfOk result (λ made. made.1.latch ≡ made.0) }
    ensures base { IfOk result (λ made. BeginsAtBase machine.now made.1.epoch) }
{
    let (latch, latch_seat) = Latch::new(alloc, zero_of(machine), 0)?;
    Ok((latch, latch_seat))
}

/// What threads share. Each CPU has a latch.
#[derive(Drop)]
pub struct Shared {
    pub words: Words,
    pub here: Latch,
    pub there: Latch,
    pub tickets: TicketTable,
    pub machine: Machine,
}

/// The seats of a thread.
#[derive(Drop)]
pub struct Own {
    pub seat: Seat,
    pub time: TimeSeat,
}

/// All objects, the first seats, and the seats at the latches of both CPUs. The words open at 20, and tickets 0 to 2
/// are drawn.
pub fn stand<R: Abort>(
    rt: &R,
    alloc: Global,
    ahead: i64,
    mode: Mode,
    total: u64,
) -> (Shared, Own, (LatchSeat, LatchSeat))
    requires total { (3 ≤ total) × (total ≤ most_tickets) }
    ensures machine { cpu_count result.0.machine ≡ 2 }
    ensures words { result.0.words.start ≡ record { cpus = 2; tick = result.0.machine.tick; opening = record { mode = mode; offset = pos 10; tick_gtod = pos 10; tick_raw = pos 20 } } }
    ensures opening { IsFrom0To (2 ^ 57) (above_base result.0.machine (opens_at result.0.words.start)) }
    ensures seat { result.1.seat ≡ record { table = result.0.words.table; view = first_view result.0.words.start } }
    ensures table { result.1.time.table ≡ result.0.tickets.table }
    ensures left { result.1.time.left + 3 ≡ total }
    ensures share { share_of result.1.time ≡ result.0.tickets.total }
    ensures here { (result.2.0.latch ≡ result.0.here) × (BeginsAtBase result.0.machine result.2.0.epoch) }
    ensures there { (result.2.1.latch ≡ result.0.there) × (BeginsAtBase result.0.machine result.2.1.epoch) }
{
    let machine = machine(rt, alloc, ahead);
    let (words, seat) = words(alloc, &machine, mode).expect(rt, "memory");
    let (here, here_seat) = latch(alloc, &machine).expect(rt, "memory");
    let (there, there_seat) = latch(alloc, &machine).expect(rt, "memory");
    let (tickets, time) = tickets(alloc, total).expect(rt, "memory");
    let shared = Shared {
        words,
        here,
        there,
        tickets,
        machine,
    };
    (shared, Own { seat, time }, (here_seat, there_seat))
}

/// The seats of a CPU's owner, with so many tickets.
pub fn hire(shared: &Shared, first: &mut Own, cpu: u32, left: u64) -> Own
    requires own { place_of first.old.seat ≡ shared.now.words }
    requires right { MaySplit first.old.seat.view (Owner cpu) }
    requires cpu { cpu < shared.now.words.start.cpus }
    requires room { first.old.seat.view.made + 1 < 2 ^ 32 }
    requires table { first.old.time.table ≡ shared.now.tickets.table }
    requires left { left ≤ first.old.time.left }
    ensures old { first.new.seat ≡ record { table = shared.now.words.table; view = giver_view (Owner cpu) first.old.seat.view } }
    ensures new { result.seat ≡ record { table = shared.now.words.table; view = given_view (Owner cpu) first.old.seat.view } }
    ensures table { (first.new.time.table ≡ shared.now.tickets.table) × (result.time.table ≡ shared.now.tickets.table) }
    ensures left { (first.new.time.left + left ≡ first.old.time.left) × (result.time.left ≡ left) }
    ensures share { share_of first.new.time + share_of result.time ≡ share_of first.old.time }
{
    Own {
        seat: shared.words.split(&mut first.seat, SeatKind::Owner(cpu)),
        time: shared.tickets.split(&mut first.time, left),
    }
}

/// The context of a thread.
pub fn context<'a>(
    shared: &'a Shared,
    latch: &'a Latch,
    latch_seat: LatchSeat,
    own: Own,
    cpu: u32,
) -> Ctx<'a, Latch>
    requires own { place_of own.seat ≡ shared.now.words }
    requires reading { IsReadingKind own.seat.view.kind }
    requires cpu { (cpu_of own.seat.view.kind ≡ cpu) × (cpu < 2) }
    requires machine { cpu_count shared.now.machine ≡ 2 }
    requires tick { shared.now.words.start.tick ≡ shared.now.machine.tick }
    requires opening { IsFrom0To (2 ^ 57) (above_base shared.now.machine (opens_at shared.now.words.start)) }
    requires latch { latch_seat.latch ≡ latch.now }
    requires base { BeginsAtBase shared.now.machine latch_seat.epoch }
    requires table { own.time.table ≡ shared.now.tickets.table }
    ensures usable { IsUsable ⟦<Latch as Epochs>⟧.fits ⟦<Latch as Epochs>⟧.epoch result }
    ensures cpu { result.counter.cpu ≡ cpu }
    ensures words { result.words.now ≡ shared.now.words }
    ensures tickets { result.tickets.now ≡ shared.now.tickets }
    ensures seat { result.seat ≡ own.seat }
    ensures left { result.time.left ≡ own.time.left }
    ensures share { share_of result.time ≡ share_of own.time }
{
    let counter = CpuCounter {
        machine: &shared.machine,
        cpu,
        adjust: 0,
    };
    Ctx {
        words: &shared.words,
        seat: own.seat,
        epochs: latch,
        latch_seat,
        tickets: &shared.tickets,
        time: own.time,
        counter,
        sched_offset: 12,
        call: 0,
    }
}

/// The contexts of the owners of CPU 0 and CPU 1, with so many tickets each, and the first seats.
pub fn owners<'a>(
    shared: &'a Shared,
    mut first: Own,
    latch_seats: (LatchSeat, LatchSeat),
    left: u64,
) -> (Own, Ctx<'a, Latch>, Ctx<'a, Latch>)
    requires machine { cpu_count shared.now.machine ≡ 2 }
    requires cpus { shared.now.words.start.cpus ≡ 2 }
    requires tick { shared.now.words.start.tick ≡ shared.now.machine.tick }
    requires opening { IsFrom0To (2 ^ 57) (above_base shared.now.machine (opens_at shared.now.words.start)) }
    requires seat { first.seat ≡ record { table = shared.now.words.table; view = first_view shared.now.words.start } }
    requires table { first.time.table ≡ shared.now.tickets.table }
    requires left { 2 * left ≤ first.time.left }
    requires here { (latch_seats.0.latch ≡ shared.now.here) × (BeginsAtBase shared.now.machine latch_seats.0.epoch) }
    requires there { (latch_seats.1.latch ≡ shared.now.there) × (BeginsAtBase shared.now.machine latch_seats.1.epoch) }
    ensures own { place_of result.0.seat ≡ shared.now.words }
    ensures table { result.0.time.table ≡ shared.now.tickets.table }
    ensures first { (numbers_of result.0.seat.view ≡ 0 ∷ []) × (result.0.seat.view.made ≡ 3) }
    ensures numbers { (numbers_of result.1.seat.view ≡ 1 ∷ []) × (numbers_of result.2.seat.view ≡ 2 ∷ []) }
    ensures share { share_of result.0.time + share_of result.1.time + share_of result.2.time ≡ share_of first.time }
    ensures here { IsUsable ⟦<Latch as Epochs>⟧.fits ⟦<Latch as Epochs>⟧.epoch result.1 }
    ensures there { IsUsable ⟦<Latch as Epochs>⟧.fits ⟦<Latch as Epochs>⟧.epoch result.2 }
    ensures cpu { (result.1.counter.cpu ≡ 0) × (result.2.counter.cpu ≡ 1) }
    ensures words { (result.1.words.now ≡ shared.now.words) × (result.2.words.now ≡ shared.now.words) }
    ensures tickets { (result.1.tickets.now ≡ shared.now.tickets) × (result.2.tickets.now ≡ shared.now.tickets) }
    ensures left { (result.1.time.left ≡ left) × (result.2.time.left ≡ left) }
{
    let a = hire(shared, &mut first, 0, left);
    let b = hire(shared, &mut first, 1, left);
    let (here, there) = latch_seats;
    let a = context(shared, &shared.here, here, a, 0);
    let b = context(shared, &shared.there, there, b, 1);
    (first, a, b)
}

/// A local read.
pub fn look(ctx: &mut Ctx<'_, Latch>) -> Reading
    requires usable { IsUsable ⟦<Latch as Epochs>⟧.fits ⟦<Latch as Epochs>⟧.epoch ctx.old }
    requires ticket { 1 ≤ ctx.old.time.left }
    ensures usable { IsUsable ⟦<Latch as Epochs>⟧.fits ⟦<Latch as Epochs>⟧.epoch ctx.new }
    ensures cpu { ctx.new.counter.cpu ≡ ctx.old.counter.cpu }
    ensures words { ctx.new.words.now ≡ ctx.old.words.now }
    ensures tickets { ctx.new.tickets.now ≡ ctx.old.tickets.now }
    ensures numbers { numbers_of ctx.new.seat.view ≡ numbers_of ctx.old.seat.view }
    ensures left { ctx.new.time.left + 1 ≡ ctx.old.time.left }
    ensures share { share_of ctx.new.time ≡ share_of ctx.old.time }
{
    local(ctx)
}

/// A remote read of the other CPU, under this call number.
pub fn ask(ctx: &mut Ctx<'_, Latch>, call: u32, other: u32) -> RemoteEvent
    requires usable { IsUsable ⟦<Latch as Epochs>⟧.fits ⟦<Latch as Epochs>⟧.epoch ctx.old }
    requires cpus { ctx.old.words.now.start.cpus ≡ 2 }
    requires other { (other < 2) × (other ≢ ctx.old.counter.cpu) }
    requires ticket { 1 ≤ ctx.old.time.left }
    ensures usable { IsUsable ⟦<Latch as Epochs>⟧.fits ⟦<Latch as Epochs>⟧.epoch ctx.new }
    ensures cpu { ctx.new.counter.cpu ≡ ctx.old.counter.cpu }
    ensures words { ctx.new.words.now ≡ ctx.old.words.now }
    ensures tickets { ctx.new.tickets.now ≡ ctx.old.tickets.now }
    ensures numbers { numbers_of ctx.new.seat.view ≡ numbers_of ctx.old.seat.view }
    ensures left { ctx.new.time.left + 1 ≡ ctx.old.time.left }
    ensures share { share_of ctx.new.time ≡ share_of ctx.old.time }
{
    ctx.call = call;
    remote(ctx, other)
}

/// The seats of a context that is done with.
pub fn seats_of(ctx: Ctx<'_, Latch>) -> Own
    requires { IsUsable ⟦<Latch as Epochs>⟧.fits ⟦<Latch as Epochs>⟧.epoch ctx }
    ensures own { place_of result.seat ≡ ctx.entry.words.now }
    ensures numbers { numbers_of result.seat.view ≡ numbers_of ctx.entry.seat.view }
    ensures table { result.time.table ≡ ctx.entry.tickets.now.table }
    ensures share { share_of result.time ≡ share_of ctx.entry.time }
{
    let Ctx { seat, time, .. } = ctx;
    Own { seat, time }
}

// Two seats as one. The first may split.
fn meet(words: &Words, a: Seat, b: Seat) -> Seat
    requires first { 0 < a.view.made }
    requires own { (place_of a ≡ words.now) × (place_of b ≡ words.now) }
    ensures own { place_of result ≡ words.now }
    ensures numbers { numbers_of result.view ≡ numbers_of a.view ++ numbers_of b.view }
    ensures made { result.view.made ≡ a.view.made }
{
    words.join(a, b)
}

// The last values of both words.
fn end_words(words: Words, seat: Seat) -> (i64, i64)
    requires own { place_of seat ≡ words }
    requires numbers { numbers_of seat.view ≡ 0 ∷ 1 ∷ 2 ∷ [] }
    requires made { seat.view.made ≡ 3 }
    requires cpus { words.start.cpus ≡ 2 }
{
    let closed = words.finish(seat);
    (closed.last(0), closed.last(1))
}

/// The last values of both words, and how many tickets were drawn.
pub fn end(shared: Shared, first: Own, a: Own, b: Own) -> (i64, i64, u64)
    requires own { (place_of first.seat ≡ shared.words) × (place_of a.seat ≡ shared.words) × (place_of b.seat ≡ shared.words) }
    requires first { (numbers_of first.seat.view ≡ 0 ∷ []) × (first.seat.view.made ≡ 3) }
    requires numbers { (numbers_of a.seat.view ≡ 1 ∷ []) × (numbers_of b.seat.view ≡ 2 ∷ []) }
    requires cpus { shared.words.start.cpus ≡ 2 }
    requires table { (first.time.table ≡ shared.tickets.table) × (a.time.table ≡ shared.tickets.table) × (b.time.table ≡ shared.tickets.table) }
    requires share { share_of first.time + share_of a.time + share_of b.time ≡ shared.tickets.total }
{
    let Shared { words, tickets, .. } = shared;
    let seat = meet(&words, meet(&words, first.seat, a.seat), b.seat);
    let time = tickets.join(tickets.join(first.time, a.time), b.time);
    let (here, there) = end_words(words, seat);
    (here, there, tickets.finish(time))
}
