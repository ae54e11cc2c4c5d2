//! Callers of both latches: readers on threads beside the owner, and one script whose answers are known.
ghost use Rattle.std.specs.Prelude.{◌≡◌, ◌+◌, ◌*◌, ◌^◌, ◌<◌, ◌≤◌, true, pos, IfOk, All, [], ◌∷◌, vec_len, length};
ghost use Rattle.clk_ticket.specs.Time.{fresh, share_of};
ghost use Rattle.clk_machine.specs.Plan.{plan_of, cpu_count};
ghost use Rattle.clk_machine.specs.Records.{record_zero, AreRecords};
ghost use Rattle.clk_machine.specs.Short.{IsWellFormed};
ghost use Rattle.clk_latch.specs.Calls.{AreDrawn, IsRecordZero};
ghost use Rattle.clk_latch.specs.Epoch.{owner_of};

use clk_latch::{CellLatch, Epochs, Latch, drawn_tickets_stay, readings_stay_right};
use clk_machine::{
    CpuCounter, CpuPart, Jump, Machine, Parts, Published, RawReading, ReferencePart, Script,
};
use clk_num::{List, masked_delta};
use clk_ticket::{TicketTable, TimeSeat};
use std::alloc::{AllocError, Global};
use std::process::Abort;
use std::sync::Wait;
use std::test::Fail;
use std::thread::{Threads, for_each_mut, join_mut};

const UPDATES: u64 = 1_024;

const READERS: usize = 3;

const READS: u64 = 10_000;

const TOTAL: u64 = UPDATES + 3 * READS;

// A list of none.
fn none<T>(alloc: Global) -> Result<List<T>, AllocError>
    ensures { IfOk result (λ l. l.items ≡ []) }
{
    List::with_room(alloc, 0)
}

// One CPU, whose counter runs at the nominal rate and has these jumps.
fn parts(alloc: Global, khz: i64, jumps: List<Jump>) -> Result<Parts, AllocError>
    requires { length jumps.items < 2 ^ 32 }
    ensures well_formed { IfOk result (λ p. IsWellFormed (plan_of p)) }
    ensures count { IfOk result (λ p. cpu_count (plan_of p) ≡ 1) }
{
    let script = Script {
        repeat: 1,
        words: none(alloc)?,
    };
    let mut cpu = List::with_room(alloc, 1)?;
    cpu.push(CpuPart {
        khz,
        offset: 0,
        socket: 0,
        jumps,
        script,
    });
    Ok(Parts {
        version: 1,
        base: 0,
        cpus: 1,
        step: 10,
        tick: 1_000_000,
        bits: 56,
        nominal_khz: khz,
        stable: false,
        reference: ReferencePart {
            khz: 1_000_000,
            bits: 64,
            rating: 300,
            margin: 0,
        },
        cpu,
        reader: none(alloc)?,
        delay: none(alloc)?,
        bringup: None,
        watchdog: None,
        source: none(alloc)?,
    })
}

// One CPU of this rate, whose counter goes back once and then on.
fn one_cpu(rt: &impl Abort, alloc: Global, khz: i64) -> Result<Machine, AllocError>
    ensures { IfOk result (λ m. cpu_count m ≡ 1) }
{
    let mut jumps = List::with_room(alloc, 2)?;
    jumps.push(Jump::new(100_000, -30_000));
    jumps.push(Jump::new(200_000, 5_000));
    Ok(Machine::new(parts(alloc, khz, jumps)?).expect(rt, "a machine"))
}

// Record 0, for which no ticket is drawn here.
fn zero_of(machine: &Machine) -> Published
    requires { 0 < cpu_count machine.now }
    ensures zero { result ≡ record_zero machine.now }
    ensures is { IsRecordZero result }
{
    let cpus = machine.cpus();
    prove!(cpus > 0);
    Published {
        rec: 0,
        ticket: 0,
        cyc: machine.counter(0, 0, 0),
        ns: machine.base(),
    }
}

// The owner of a latch, and the records that it published.
#[derive(Drop)]
struct Owner<E: Epochs> {
    seat: E::Seat,
    time: TimeSeat,
    published: Vec<Published>,
}

impl<E: Epochs> Owner<E> {
    // All updates, as far as there is memory.
    fn work(&mut self, epochs: &E, tickets: &TicketTable, machine: &Machine)
        requires own { E.fits epochs.now self.old.seat }
        requires owner { (E.epoch self.old.seat).owner ≡ true }
        requires left { UPDATES ≤ (E.epoch self.old.seat).left }
        requires records { AreRecords machine.now 0 (pos 0) (E.epoch self.old.seat).records }
        requires drawn { AreDrawn self.old.time.blocks (E.epoch self.old.seat).records }
        requires table { self.old.time.table ≡ tickets.now.table }
        requires tickets { UPDATES ≤ self.old.time.left }
        requires cpu { 0 < cpu_count machine.now }
        ensures own { E.fits epochs.now self.new.seat }
        ensures table { self.new.time.table ≡ tickets.now.table }
        ensures share { share_of self.new.time ≡ share_of self.old.time }
    {
        for _ in 0..UPDATES {
            let record = epochs.update(
                &mut self.seat,
                tickets,
                &mut self.time,
                CpuCounter {
                    machine,
                    cpu: 0,
                    adjust: 0,
                },
            );
            if self.published.push(record).is_err() {
                return;
            }
        }
    }
}

// A reader of a latch, and its readings.
#[derive(Drop)]
struct Reader<E: Epochs> {
    seat: E::Seat,
    time: TimeSeat,
    readings: Vec<RawReading>,
}

impl<E: Epochs> Reader<E> {
    // All readings, as far as there is memory.
    fn work(&mut self, epochs: &E, tickets: &TicketTable, machine: &Machine)
        requires own { E.fits epochs.now self.old.seat }
        requires table { self.old.time.table ≡ tickets.now.table }
        requires tickets { READS ≤ self.old.time.left }
        requires cpu { 0 < cpu_count machine.now }
        ensures own { E.fits epochs.now self.new.seat }
        ensures table { self.new.time.table ≡ tickets.now.table }
        ensures share { share_of self.new.time ≡ share_of self.old.time }
    {
        for _ in 0..READS {
            let reading = epochs.read(
                &mut self.seat,
                tickets,
                &mut self.time,
                CpuCounter {
                    machine,
                    cpu: 0,
                    adjust: 0,
                },
            );
            if self.readings.push(reading).is_err() {
                return;
            }
        }
    }
}

fn read_all<E: Epochs + Sync, R: Threads + Sync>(
    rt: &R,
    epochs: &E,
    tickets: &TicketTable,
    machine: &Machine,
    readers: &mut [Reader<E>],
)
    requires ready { All (λ r. (E.fits epochs.now r.seat) × (r.time ≡ fresh tickets.now.table READS r.time.seen)) readers.old }
    requires cpu { 0 < cpu_count machine.now }
    ensures { All (λ r. (E.fits epochs.now r.seat) × (r.time.table ≡ tickets.now.table) × (share_of r.time ≡ READS)) readers.new }
{
    for_each_mut(
        rt,
        readers,
        READERS,
        &|_, reader|
            requires { (E.fits epochs.now reader.old.seat)
                × (reader.old.time ≡ fresh tickets.now.table READS reader.old.time.seen) × (0 < cpu_count machine.now) }
        { reader.work(epochs, tickets, machine) },
    );
}

fn work_all<E: Epochs + Sync, R: Threads + Sync>(
    rt: &R,
    epochs: &E,
    tickets: &TicketTable,
    machine: &Machine,
    owner: &mut Owner<E>,
    readers: &mut [Reader<E>],
)
    requires own { E.fits epochs.now owner.old.seat }
    requires epoch { E.epoch owner.old.seat ≡ owner_of (record_zero machine.now) UPDATES }
    requires time { owner.old.time ≡ fresh tickets.now.table UPDATES owner.old.time.seen }
    requires ready { All (λ r. (E.fits epochs.now r.seat) × (r.time ≡ fresh tickets.now.table READS r.time.seen)) readers.old }
    requires cpu { 0 < cpu_count machine.now }
    ensures own { E.fits epochs.now owner.new.seat }
    ensures table { owner.new.time.table ≡ tickets.now.table }
    ensures share { share_of owner.new.time ≡ UPDATES }
    ensures readers { All (λ r. (E.fits epochs.now r.seat) × (r.time.table ≡ tickets.now.table) × (share_of r.time ≡ READS)) readers.new }
{
    join_mut(
        rt,
        &mut ||
            requires { (E.fits epochs.now owner.now.seat) × (E.epoch owner.now.seat ≡ owner_of (record_zero machine.now) UPDATES)
                × (owner.now.time ≡ fresh tickets.now.table UPDATES owner.now.time.seen) × (0 < cpu_count machine.now) }
        { owner.work(epochs, tickets, machine) },
        &mut ||
            requires { (All (λ r. (E.fits epochs.now r.seat) × (r.time ≡ fresh tickets.now.table READS r.time.seen)) readers.now)
                × (0 < cpu_count machine.now) }
            ensures { All
                (λ r. (E.fits epochs.entry.now r.seat) × (r.time.table ≡ tickets.entry.now.table) × (share_of r.time ≡ READS))
                readers.exit.now }
        { read_all(rt, epochs, tickets, machine, readers) },
    );
}

// The same, over readers that are handed back.
fn worked<E: Epochs + Sync, R: Threads + Sync>(
    rt: &R,
    epochs: &E,
    tickets: &TicketTable,
    machine: &Machine,
    owner: &mut Owner<E>,
    mut readers: Vec<Reader<E>>,
) -> Vec<Reader<E>>
    requires own { E.fits epochs.now owner.old.seat }
    requires epoch { E.epoch owner.old.seat ≡ owner_of (record_zero machine.now) UPDATES }
    requires time { owner.old.time ≡ fresh tickets.now.table UPDATES owner.old.time.seen }
    requires ready { All (λ r. (E.fits epochs.now r.seat) × (r.time ≡ fresh tickets.now.table READS r.time.seen)) readers.items }
    requires cpu { 0 < cpu_count machine.now }
    ensures own { E.fits epochs.now owner.new.seat }
    ensures table { owner.new.time.table ≡ tickets.now.table }
    ensures share { share_of owner.new.time ≡ UPDATES }
    ensures readers { All (λ r. (E.fits epochs.now r.seat) × (r.time.table ≡ tickets.now.table) × (share_of r.time ≡ READS)) result.items }
    ensures count { vec_len result ≡ vec_len readers }
{
    work_all(rt, epochs, tickets, machine, owner, readers.as_mut_slice());
    readers
}

fn readers_of<E: Epochs>(
    alloc: Global,
    epochs: &E,
    tickets: &TicketTable,
    seat: &mut E::Seat,
    time: &mut TimeSeat,
) -> Result<Vec<Reader<E>>, AllocError>
    requires own { E.fits epochs.now seat.old }
    requires time { time.old ≡ fresh tickets.now.table TOTAL 0 }
    ensures own { IfOk result (λ _. E.fits epochs.now seat.new) }
    ensures seat { IfOk result (λ _. E.epoch seat.new ≡ E.epoch seat.old) }
    ensures time { IfOk result (λ _. time.new ≡ fresh tickets.now.table UPDATES 0) }
    ensures ready { IfOk result (λ rs. All (λ r. (E.fits epochs.now r.seat) × (r.time ≡ fresh tickets.now.table READS r.time.seen)) rs.items) }
    ensures count { IfOk result (λ rs. vec_len rs ≡ 3) }
{
    let mut readers = Vec::new(alloc);
    for _ in 0..READERS {
        readers.push(Reader {
            seat: epochs.split(seat),
            time: tickets.split(time, READS),
            readings: Vec::new(alloc),
        })?;
    }
    Ok(readers)
}

// The tickets of the owner and its readers, whose seats are joined.
fn joined<E: Epochs>(
    epochs: &E,
    tickets: &TicketTable,
    mut seat: E::Seat,
    mut time: TimeSeat,
    readers: Vec<Reader<E>>,
) -> TimeSeat
    requires own { E.fits epochs.now seat }
    requires table { time.table ≡ tickets.now.table }
    requires share { share_of time ≡ UPDATES }
    requires readers { All (λ r. (E.fits epochs.now r.seat) × (r.time.table ≡ tickets.now.table) × (share_of r.time ≡ READS)) readers.items }
    ensures table { result.table ≡ tickets.now.table }
    ensures share { share_of result ≡ UPDATES + READS * vec_len readers }
{
    for reader in readers {
        seat = epochs.join(seat, reader.seat);
        time = tickets.join(time, reader.time);
    }
    time
}

// What a record gives for the counter at a ticket, by the formula.
fn reading_by(rt: &impl Abort, machine: &Machine, record: &Published, ticket: u64) -> RawReading
    requires { 0 < cpu_count machine.now }
{
    assert!(rt; ticket < TOTAL);
    let cyc = machine.counter(0, 0, ticket);
    let delta = masked_delta(cyc, record.cyc, machine.bits());
    let rate = machine.sched_rate();
    let ns = u128::from(delta) * u128::from(rate.mult) >> rate.shift;
    let ns = i64::try_from(ns).ok().expect(rt, "few cycles");
    RawReading {
        ticket,
        cyc,
        rec: record.rec,
        ns: record.ns.wrapping_add(ns),
    }
}

// The records follow one another from record 0 on.
fn check_records(rt: &impl Abort, machine: &Machine, zero: Published, published: &[Published])
    requires { 0 < cpu_count machine.now }
{
    assert_eq!(rt; published.len(), 1_024);
    let mut last = zero;
    for record in published {
        let reading = reading_by(rt, machine, &last, record.ticket);
        last = Published {
            rec: last.rec.wrapping_add(1),
            ticket: reading.ticket,
            cyc: reading.cyc,
            ns: reading.ns,
        };
        assert_eq!(rt; *record, last);
    }
}

// The record of this number.
fn record_of(rt: &impl Abort, zero: Published, published: &[Published], rec: u32) -> Published {
    if rec == 0 {
        return zero;
    }
    *published.get(rec as usize - 1).expect(rt, "a record")
}

// A reader made all its readings, each is right by the record that it names, and those never fell.
fn check_readings(
    rt: &impl Abort,
    machine: &Machine,
    zero: Published,
    published: &[Published],
    readings: &[RawReading],
)
    requires { 0 < cpu_count machine.now }
{
    assert_eq!(rt; readings.len(), 10_000);
    let mut last = 0;
    for reading in readings {
        let record = record_of(rt, zero, published, reading.rec);
        assert_eq!(rt; *reading, reading_by(rt, machine, &record, reading.ticket));
        assert!(rt; last <= reading.rec);
        last = reading.rec;
    }
}

// All updates and readings are right.
fn check_all<E: Epochs>(rt: &impl Abort, machine: &Machine, owner: &Owner<E>, readers: &[Reader<E>])
    requires { 0 < cpu_count machine.now }
{
    let zero = zero_of(machine);
    let published = owner.published.as_slice();
    check_records(rt, machine, zero, published);
    for reader in readers {
        check_readings(rt, machine, zero, published, reader.readings.as_slice());
    }
}

// The owner and its readers run on threads of their own, and all that they did is right. They have drawn this many
// tickets.
fn run<E: Epochs + Sync, R: Threads + Sync + Abort>(
    rt: &R,
    alloc: Global,
    machine: &Machine,
    epochs: &E,
    mut seat: E::Seat,
    tickets: &TicketTable,
    mut time: TimeSeat,
) -> Result<TimeSeat, AllocError>
    requires own { E.fits epochs.now seat }
    requires epoch { E.epoch seat ≡ owner_of (record_zero machine.now) UPDATES }
    requires cpu { 0 < cpu_count machine.now }
    requires time { time ≡ fresh tickets.now.table TOTAL 0 }
    ensures table { IfOk result (λ t. t.table ≡ tickets.now.table) }
    ensures share { IfOk result (λ t. share_of t ≡ TOTAL) }
{
    let readers = readers_of(alloc, epochs, tickets, &mut seat, &mut time)?;
    let published = Vec::new(alloc);
    let mut owner = Owner {
        seat,
        time,
        published,
    };
    let readers = worked(rt, epochs, tickets, machine, &mut owner, readers);
    check_all(rt, machine, &owner, readers.as_slice());
    Ok(joined(epochs, tickets, owner.seat, owner.time, readers))
}

fn check_run<E: Epochs + Sync, R: Threads + Sync + Abort>(
    rt: &R,
    alloc: Global,
    machine: &Machine,
    epochs: &E,
    seat: E::Seat,
) -> Result<(), AllocError>
    requires own { E.fits epochs.now seat }
    requires epoch { E.epoch seat ≡ owner_of (record_zero machine.now) UPDATES }
    requires cpu { 0 < cpu_count machine.now }
{
    let (tickets, time) = TicketTable::new(alloc, TOTAL)?;
    let time = run(rt, alloc, machine, epochs, seat, &tickets, time)?;
    assert_eq!(rt; tickets.finish(time), 31_024);
    Ok(())
}

#[test]
fn latch_under_readers(rt: HostRuntime) -> Result<(), Fail> {
    let alloc = rt.alloc();
    let machine = one_cpu(&rt, alloc, 2_400_000)?;
    let (latch, seat) = Latch::new(alloc, zero_of(&machine), UPDATES as u32)?;
    check_run(&rt, alloc, &machine, &latch, seat)?;
    Ok(())
}

#[test]
fn cell_latch_under_readers(rt: HostRuntime) -> Result<(), Fail> {
    let alloc = rt.alloc();
    let machine = one_cpu(&rt, alloc, 2_400_000)?;
    let (latch, seat) = CellLatch::new(&rt, alloc, zero_of(&machine), UPDATES as u32)?;
    check_run(&rt, alloc, &machine, &latch, seat)?;
    Ok(())
}

// What a latch answers to one script: a reading, an update, a reading, a join of both seats and a reading.
fn answers<E: Epochs>(
    epochs: &E,
    mut owner: E::Seat,
    tickets: &TicketTable,
    time: &mut TimeSeat,
    machine: &Machine,
) -> ([RawReading; 3], Published)
    requires own { E.fits epochs.now owner }
    requires epoch { E.epoch owner ≡ owner_of (record_zero machine.now) 1 }
    requires table { time.old.table ≡ tickets.now.table }
    requires tickets { 4 ≤ time.old.left }
    requires cpu { 0 < cpu_count machine.now }
    ensures table { time.new.table ≡ tickets.now.table }
    ensures share { share_of time.new ≡ share_of time.old }
{
    let counter = CpuCounter {
        machine,
        cpu: 0,
        adjust: 0,
    };
    let mut reader = epochs.split(&mut owner);
    let first = epochs.read(&mut reader, tickets, time, counter);
    let record = epochs.update(&mut owner, tickets, time, counter);
    let second = epochs.read(&mut reader, tickets, time, counter);
    let mut whole = epochs.join(reader, owner);
    let third = epochs.read(&mut whole, tickets, time, counter);
    ([first, second, third], record)
}

// The answers at 1 GHz, where a ticket of 10 ns is 10 cycles, from ticket 3 on.
const ANSWERS: ([RawReading; 3], Published) = (
    [
        RawReading {
            ticket: 3,
            cyc: 30,
            rec: 0,
            ns: 30,
        },
        RawReading {
            ticket: 5,
            cyc: 50,
            rec: 1,
            ns: 50,
        },
        RawReading {
            ticket: 6,
            cyc: 60,
            rec: 1,
            ns: 60,
        },
    ],
    Published {
        rec: 1,
        ticket: 4,
        cyc: 40,
        ns: 40,
    },
);

fn check_answers<E: Epochs>(
    rt: &impl Abort,
    alloc: Global,
    machine: &Machine,
    epochs: &E,
    owner: E::Seat,
) -> Result<(), AllocError>
    requires own { E.fits epochs.now owner }
    requires epoch { E.epoch owner ≡ owner_of (record_zero machine.now) 1 }
    requires cpu { 0 < cpu_count machine.now }
{
    let (tickets, mut time) = TicketTable::new(alloc, 7)?;
    tickets.draw(&mut time, 3);
    assert_eq!(rt;
        answers(epochs, owner, &tickets, &mut time, machine),
        ANSWERS
    );
    assert_eq!(rt; tickets.finish(time), 7);
    Ok(())
}

fn check_latch(rt: &impl Abort, alloc: Global, machine: &Machine) -> Result<(), AllocError>
    requires { 0 < cpu_count machine.now }
{
    let (latch, seat) = Latch::new(alloc, zero_of(machine), 1)?;
    check_answers(rt, alloc, machine, &latch, seat)
}

fn check_cell_latch<R: Abort + Wait>(
    rt: &R,
    alloc: Global,
    machine: &Machine,
) -> Result<(), AllocError>
    requires { 0 < cpu_count machine.now }
{
    let (latch, seat) = CellLatch::new(rt, alloc, zero_of(machine), 1)?;
    check_answers(rt, alloc, machine, &latch, seat)
}

#[test]
fn both_latches_answer_alike(rt: HostRuntime) -> Result<(), Fail> {
    let alloc = rt.alloc();
    let machine = one_cpu(&rt, alloc, 1_000_000)?;
    check_latch(&rt, alloc, &machine)?;
    check_cell_latch(&rt, alloc, &machine)?;
    readings_stay_right();
    drawn_tickets_stay();
    Ok(())
}
