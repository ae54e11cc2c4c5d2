//! The state of a warp run, which stands under the warp lock.
ghost use Rattle.std.specs.Prelude.{◌≡◌, ℕ, ◌+◌, ◌^◌, ◌<◌, ◌≤◌, true, false, not, ◌&&◌, [], IfOk, IfErr, IsSome, IsSomeAnd, Some, option_map, length};
ghost use Rattle.std.specs.List.{All};
ghost use Rattle.clk_num.specs.Range.{IsNear};
ghost use Rattle.clk_ticket.specs.Time.{Draws, after_draw};
ghost use Rattle.clk_machine.specs.Plan.{cpu_count};
ghost use Rattle.clk_machine.specs.Limits.{most_tickets, IsBringUp, IsWithinLimits};
ghost use Rattle.clk_machine.specs.Time.{counter_at};
ghost use Rattle.clk_record.specs.Sides.{of_side};
ghost use Rattle.clk_record.specs.declared.warp.Side.TheVariants.{Source, Target};
ghost use Rattle.clk_record.specs.WarpLimits.{turns_in, limits_in, cpu_of, side_adjust};
ghost use Rattle.clk_record.specs.Warps.{IsWarpRun};
ghost use Rattle.clk_warp.specs.declared.section.Section.TheVariants.{Read, Pass};
ghost use Rattle.clk_warp.specs.Run.{limits_at, most_readings, is_here, both_here as are_here, side_ended, change, IsReading, ShowsCounter, IsStartOf, arrival, new_run, apart_run};
ghost use Rattle.clk_warp.specs.Counts.{AreCountsOf};

use crate::counts::WarpCounts;
use clk_machine::{BringUpPart, Machine};
use clk_num::List;
use clk_record::{Side, WarpReading, WarpRun};
use clk_ticket::{TicketTable, TimeSeat};
use std::alloc::{AllocError, Global};
use std::marker::Model;
use std::snapshot::Snapshot;

/// A rate in kHz counts the cycles of a ms.
const US_PER_MS: u64 = 1_000;

// Which ticket table a run draws from: that of its time seat, or one that was named before there was a seat.
#[derive(Drop)]
pub enum TableOf {
    OfSeat(Snapshot<TimeSeat>),
    OfTable(Snapshot<TicketTable>),
}

/// The state of a warp run: the readings in lock order with what they count, the time seat, and how many sections were
/// made. It holds room and tickets for all readings that the run may still make, and no reading before both sides
/// arrived. All its memory is taken when it is made.
///
/// A contract sees it as a `Run`, `specs/Run.antt`.
#[derive(Drop)]
pub struct WarpState {
    inner: Box<Inner>,
}

// On the heap, so that a side which enters or leaves moves a pointer.
#[derive(Drop)]
struct Inner {
    machine: Snapshot<Machine>,
    tickets: TableOf,
    cpu: u32,
    adjust: i64,
    target_here: bool,
    time: Option<TimeSeat>,
    readings: List<WarpReading>,
    counts: WarpCounts,
    sections: u64,
}

impl Model for WarpState {
    ghost use Rattle.clk_warp.specs.Run.{Run};

    ghost Value = { Run };

    ghost use Rattle.clk_warp.specs.Stated.{run_of, IsKept};

    ghost view = { λ s. run_of s.inner.value };

    ghost invariant = { λ s. IsKept (run_of s.inner.value) s.inner.value.readings.room s.inner.value.counts };
}

impl WarpState {
    /// The state of a run of CPU `cpu`, 1 or more, whose two sides are there from the start. The target adds `adjust`
    /// cycles, within 2^48 of 0, to its counter, and `time` has a ticket for each reading that the run may make, `2 *
    /// (turns + 10)`. The error is want of memory, and hands the seat back.
    pub fn new(
        alloc: Global,
        machine: &Machine,
        cpu: u32,
        adjust: i64,
        time: TimeSeat,
    ) -> Result<WarpState, (AllocError, TimeSeat)>
        requires bring_up { IsSome machine.now.bringup }
        requires cpu { (1 ≤ cpu) × (cpu < cpu_count machine.now) }
        requires adjust { IsNear 48 adjust }
        requires tickets { most_readings machine.now ≤ time.left }
        ensures state { IfOk result (λ s. s ≡ new_run machine.now cpu adjust time) }
        ensures back { IfErr result (λ e. e.1 ≡ time) }
    {
        let Ok(readings) = room_for_readings(alloc, machine) else {
            return Err((AllocError, time));
        };
        let inner = Inner {
            machine: Snapshot::of(machine),
            tickets: TableOf::OfSeat(Snapshot::of(&time)),
            cpu,
            adjust,
            target_here: true,
            time: Some(time),
            readings,
            counts: no_counts(machine, cpu),
            sections: 0,
        };
        match Box::new(alloc, inner) {
            Ok(inner) => Ok(WarpState { inner }),
            Err(refused) => {
                let inner = refused.value;
                Err((AllocError, inner.time.unwrap()))
            }
        }
    }

    /// The state of a run of CPU `cpu`, 1 or more, in which no side has arrived. It draws from `tickets` once the
    /// source has brought a time seat. The error is want of memory.
    pub fn apart(
        alloc: Global,
        machine: &Machine,
        tickets: &TicketTable,
        cpu: u32,
    ) -> Result<WarpState, AllocError>
        requires bring_up { IsSome machine.now.bringup }
        requires cpu { (1 ≤ cpu) × (cpu < cpu_count machine.now) }
        ensures { IfOk result (λ s. s ≡ apart_run machine.now tickets.now.table cpu) }
    {
        let inner = Inner {
            machine: Snapshot::of(machine),
            tickets: TableOf::OfTable(Snapshot::of(tickets)),
            cpu,
            adjust: 0,
            target_here: false,
            time: None,
            readings: room_for_readings(alloc, machine)?,
            counts: no_counts(machine, cpu),
            sections: 0,
        };
        match Box::new(alloc, inner) {
            Ok(inner) => Ok(WarpState { inner }),
            Err(_) => Err(AllocError),
        }
    }

    /// Notes that a side has arrived, which it had not. The source brings the run's time seat, of the state's ticket
    /// table with `2 * (turns + 10)` tickets left, and what the target adds to its counter, within 2^48 cycles of 0. It
    /// is one section.
    pub fn arrive(&mut self, side: Side, start: Option<(TimeSeat, i64)>)
        requires away { is_here side self.old ≡ false }
        requires start { IsStartOf side self.old start }
        requires room { self.old.sections + 1 < 2 ^ 64 }
        ensures { self.new ≡ change self.old (arrival side start) }
    {
        let inner = &mut *self.inner;
        match start {
            Some((time, adjust)) => {
                inner.time = Some(time);
                inner.adjust = adjust;
            }
            None => inner.target_here = true,
        }
        inner.sections += 1;
    }

    /// A section that changes nothing else.
    pub fn pass(&mut self)
        requires { self.old.sections + 1 < 2 ^ 64 }
        ensures { self.new ≡ change self.old Pass }
    {
        self.inner.sections += 1;
    }

    /// The cycles that the target adds to its counter. The source has arrived.
    pub fn adjust(&self) -> i64
        requires { is_here Source self.now ≡ true }
        ensures { result ≡ self.now.adjust }
    {
        self.inner.adjust
    }

    /// Whether both sides have arrived.
    pub fn both_here(&self) -> bool
        ensures { result ≡ are_here self.now }
    {
        self.inner.time.is_some() && self.inner.target_here
    }

    /// Whether both sides have made their last turn.
    pub fn both_ended(&self) -> bool
        ensures { result ≡ (side_ended Source self.now && side_ended Target self.now) }
    {
        self.ended(Side::Source) && self.ended(Side::Target)
    }

    /// The next reading of a side: one ticket, and the side's counter there. It is one section, and the side has not
    /// ended.
    pub(crate) fn read(
        &mut self,
        side: Side,
        tickets: &TicketTable,
        machine: &Machine,
    ) -> WarpReading
        requires own { tickets.now.table ≡ self.old.tickets }
        requires machine { machine.now ≡ self.old.machine }
        requires here { are_here self.old ≡ true }
        requires going { side_ended side self.old ≡ false }
        requires room { self.old.sections + 1 < 2 ^ 64 }
        ensures side { result.side ≡ side }
        ensures reading { IsReading self.old result }
        ensures state { self.new ≡ change self.old (Read result) }
        ensures small { result.tsc < 2 ^ 50 }
    {
        let inner = &mut *self.inner;
        let start = !inner.counts.progress(side).started;
        let ticket = draw_one(tickets, &mut inner.time);
        let tsc = cycles_of(machine, side, inner.cpu, inner.adjust, ticket);
        inner.counts.add(side, start, tsc);
        let reading = WarpReading {
            side,
            start,
            ticket,
            tsc,
        };
        inner.readings.push(reading);
        inner.sections += 1;
        reading
    }

    /// The finished run and its time seat. Both sides have ended.
    pub fn into_run(self) -> (WarpRun, TimeSeat)
        requires source { side_ended Source self ≡ true }
        requires target { side_ended Target self ≡ true }
        ensures run { IsWarpRun (limits_at self) result.0 }
        ensures readings { result.0.readings.items ≡ self.readings }
        ensures counters { All (ShowsCounter self) self.readings }
        ensures time { self.time ≡ Some result.1 }
    {
        let inner = Box::into_inner(self.inner);
        let run = WarpRun {
            readings: inner.readings,
            nr: inner.counts.nr,
            max: inner.counts.max,
            random: inner.counts.random,
            cur_source: inner.counts.cur_source,
            cur_target: inner.counts.cur_target,
        };
        (run, inner.time.unwrap())
    }

    /// The time seat as it was handed in: the state holds one, and no reading.
    pub fn into_time(self) -> TimeSeat
        requires time { IsSome self.time }
        requires readings { self.readings ≡ [] }
        ensures { self.time ≡ Some result }
    {
        Box::into_inner(self.inner).time.unwrap()
    }

    /// Whether a side has made its last turn.
    pub(crate) fn ended(&self, side: Side) -> bool
        ensures { result ≡ side_ended side self.now }
    {
        self.inner.counts.ended(side)
    }

    /// How many readings a side has made.
    pub(crate) fn made(&self, side: Side) -> u32
        ensures count { result ≡ length (of_side side self.now.readings) }
        ensures few { result < 2 ^ 31 }
    {
        let progress = self.inner.counts.progress(side);
        if progress.started {
            progress.turn + 1
        } else {
            0
        }
    }

    /// How many sections were made.
    pub fn sections(&self) -> u64
        ensures { result ≡ self.now.sections }
    {
        self.inner.sections
    }
}

/// How the machine's counters are tested against one another.
fn part_of(machine: &Machine) -> BringUpPart
    requires { IsSome machine.now.bringup }
    ensures part { machine.now.bringup ≡ Some result }
    ensures range { IsBringUp result }
{
    let _cpus = machine.cpus();
    match machine.bring_up() {
        Some(part) => *part,
        None => unreachable!(),
    }
}

/// The turns after which a side ends when it looks next, at most 4,096.
fn turns_of(machine: &Machine) -> u32
    requires { IsSome machine.now.bringup }
    ensures turns { result ≡ turns_in machine.now.bringup }
    ensures few { result ≤ 4096 }
{
    part_of(machine).turns as u32
}

/// One ticket.
fn draw_one(tickets: &TicketTable, time: &mut Option<TimeSeat>) -> u64
    requires { IsSomeAnd time.old (λ t. (t.table ≡ tickets.now.table) × (0 < t.left)) }
    ensures drew { IsSomeAnd time.old (λ t. Draws t result 1 (after_draw t result 1)) }
    ensures seat { time.new ≡ option_map (λ t. after_draw t result 1) time.old }
{
    match time {
        Some(seat) => tickets.draw(seat, 1),
        None => unreachable!(),
    }
}

/// What the counter of a CPU shows at a ticket, in cycles: far from the end of its type.
fn cycles_at(machine: &Machine, cpu: u32, adjust: i64, ticket: u64) -> u64
    requires cpu { cpu < cpu_count machine.now }
    requires adjust { IsNear 48 adjust }
    requires ticket { ticket < most_tickets }
    ensures value { result ≡ counter_at machine.now cpu adjust ticket }
    ensures small { result < 2 ^ 50 }
    ensures limits { IsWithinLimits machine.now }
{
    let _cpus = machine.cpus();
    machine.counter(cpu, adjust, ticket)
}

/// What the counter of a side shows at a ticket, in cycles: that of CPU 0, or that of the CPU that is brought up.
fn cycles_of(machine: &Machine, side: Side, cpu: u32, adjust: i64, ticket: u64) -> u64
    requires cpu { cpu < cpu_count machine.now }
    requires adjust { IsNear 48 adjust }
    requires ticket { ticket < most_tickets }
    ensures value { result ≡ counter_at machine.now (cpu_of side cpu) (side_adjust side adjust) ticket }
    ensures small { result < 2 ^ 50 }
    ensures limits { IsWithinLimits machine.now }
{
    match side {
        Side::Source => cycles_at(machine, 0, 0, ticket),
        Side::Target => cycles_at(machine, cpu, adjust, ticket),
    }
}

/// The counters of a run of CPU `cpu` before its first reading. Both sides have the timeout of the target.
fn no_counts(machine: &Machine, cpu: u32) -> WarpCounts
    requires bring_up { IsSome machine.now.bringup }
    requires cpu { (1 ≤ cpu) × (cpu < cpu_count machine.now) }
    ensures { AreCountsOf (limits_in machine.now cpu) [] result }
{
    let span = u64::from(machine.nominal_khz()) * machine.timeout(cpu) / US_PER_MS;
    WarpCounts::new(span, turns_of(machine))
}

/// Room for the readings of a run: each side has its start reading and at most 9 turns more than it may make.
fn room_for_readings(alloc: Global, machine: &Machine) -> Result<List<WarpReading>, AllocError>
    requires { IsSome machine.now.bringup }
    ensures items { IfOk result (λ l. l.items ≡ []) }
    ensures room { IfOk result (λ l. l.room ≡ most_readings machine.now) }
{
    List::with_room(alloc, 2 * (turns_of(machine) as usize + 10))
}
