//! Worked checks and brackets, with the values that they show.
ghost use Rattle.std.specs.Prelude.{◌≡◌, ◌+◌, ◌*◌, ◌^◌, ◌<◌, ◌≤◌, IfOk, IsTrue, [], ◌∷◌, length, map, pos};
ghost use Rattle.std.specs.List.{All};
ghost use Rattle.clk_machine.specs.Plan.{plan_of, cpu_plan, cpu_count};
ghost use Rattle.clk_machine.specs.Short.{IsShortCpu, IsWellFormed};
ghost use Rattle.clk_record.specs.Attempts.{retries_of};

use crate::judge::compare;
use crate::numbers::retries;
use crate::{
    Attempt, Bracket, Outcome, SourceRecord, Watch, demoted_stays_out, healthy_is_never_demoted,
};
use clk_machine::{
    CpuCounter, CpuPart, Delay, Machine, Parts, ReferencePart, Script, SourcePart, WatchPart,
};
use clk_num::List;
use clk_ticket::{TicketTable, TimeSeat};
use std::alloc::{AllocError, Global};
use std::process::Abort;
use std::test::Fail;

/// A list of one item.
fn one<T: Drop>(alloc: Global, item: T) -> Result<List<T>, AllocError>
    ensures { IfOk result (λ l. l.items ≡ item ∷ []) }
{
    let mut items = List::with_room(alloc, 1)?;
    items.push(item);
    Ok(items)
}

/// A list of none.
fn none<T>(alloc: Global) -> Result<List<T>, AllocError>
    ensures { IfOk result (λ l. l.items ≡ []) }
{
    List::with_room(alloc, 0)
}

/// A TSC source of 1 GHz.
fn source(alloc: Global) -> Result<List<SourcePart>, AllocError>
    ensures { IfOk result (λ l. (s : SourcePart) × (l.items ≡ s ∷ []) × (s.khz ≡ pos 1000000) × (s.nominal_khz ≡ pos 1000000)
        × (s.bits ≡ pos 64) × (s.jumps.items ≡ [])) }
{
    let jumps = none(alloc)?;
    one(
        alloc,
        SourcePart {
            tsc: true,
            rating: 300,
            margin: 7,
            khz: 1_000_000,
            nominal_khz: 1_000_000,
            bits: 64,
            jumps,
        },
    )
}

/// One CPU of this rate, with no script.
fn cpu(alloc: Global, khz: i64) -> Result<List<CpuPart>, AllocError>
    ensures count { IfOk result (λ l. length (map cpu_plan l.items) ≡ 1) }
    ensures short { IfOk result (λ l. All IsShortCpu (map cpu_plan l.items)) }
{
    let script = Script {
        repeat: 1,
        words: none(alloc)?,
    };
    let jumps = none(alloc)?;
    one(
        alloc,
        CpuPart {
            khz,
            offset: 0,
            socket: 0,
            jumps,
            script,
        },
    )
}

/// One CPU, whose TSC is watched by a reference of 1 GHz and is taken to run at 1 GHz too.
fn parts(
    alloc: Global,
    step: i64,
    khz: i64,
    delay: List<Delay>,
    watch: WatchPart,
) -> Result<Parts, AllocError>
    requires { length delay.items < 2 ^ 32 }
    ensures { IfOk result (λ p. IsWellFormed (plan_of p)) }
{
    let cpu = cpu(alloc, khz)?;
    let reader = none(alloc)?;
    let source = source(alloc)?;
    Ok(Parts {
        version: 1,
        base: 0,
        cpus: 1,
        step,
        tick: 1_000_000,
        bits: 64,
        nominal_khz: 1_000_000,
        stable: true,
        reference: ReferencePart {
            khz: 1_000_000,
            bits: 64,
            rating: 250,
            margin: 7,
        },
        cpu,
        reader,
        delay,
        bringup: None,
        watchdog: Some(watch),
        source,
    })
}

/// A machine, the watch of its source, and tickets for both.
#[derive(Drop)]
struct Bench {
    machine: Machine,
    tickets: TicketTable,
    time: TimeSeat,
    watch: Watch,
    ghost watched: { watch.machine ≡ machine },
    ghost drawn: { time.table ≡ tickets.table },
}

impl Bench {
    fn new(alloc: Global, machine: Machine) -> Result<Bench, AllocError> {
        let (tickets, time) = TicketTable::new(alloc, 80)?;
        let watch = Watch::new(alloc, &machine, false)?;
        Ok(Bench {
            machine,
            tickets,
            time,
            watch,
        })
    }

    /// Whether there is a source to read on a CPU, with room and tickets for all attempts.
    fn is_ready(&self) -> bool
        ensures cpu { IsTrue result → 0 < cpu_count self.now.machine }
        ensures source { IsTrue result → 0 < length self.now.machine.source }
        ensures room { IsTrue result → retries_of self.now.machine + 1 ≤ self.now.watch.attempts.room }
        ensures tickets { IsTrue result → 4 * (retries_of self.now.machine + 1) ≤ self.now.time.left }
        ensures records { IsTrue result → 1 ≤ self.now.watch.records.room }
    {
        self.machine.cpus() > 0
            && self.machine.sources() > 0
            && retries(&self.machine) < self.watch.attempts().room() as u64
            && 4 * (retries(&self.machine) + 1) <= self.time.left()
            && self.watch.records().room() > 0
    }

    /// A bracket of the source.
    fn bracket<R: Abort>(&mut self, rt: &R) -> Bracket {
        assert!(rt; self.is_ready());
        let counter = CpuCounter {
            machine: &self.machine,
            cpu: 0,
            adjust: 0,
        };
        self.watch
            .bracket(0, counter, &self.tickets, &mut self.time)
    }

    /// Visits the source after a pause; and the current source then.
    fn visit<R: Abort>(&mut self, rt: &R, pause: u64) -> (SourceRecord, u32) {
        assert!(rt; pause > 0 && pause <= self.time.left());
        self.tickets.draw(&mut self.time, pause);
        assert!(rt; self.is_ready());
        let counter = CpuCounter {
            machine: &self.machine,
            cpu: 0,
            adjust: 0,
        };
        let record = self
            .watch
            .check_source(0, counter, &self.tickets, &mut self.time);
        (record, self.watch.current())
    }
}

/// The watch of a machine that has these parts.
fn bench_with(
    alloc: Global,
    step: i64,
    khz: i64,
    delay: List<Delay>,
    watch: WatchPart,
) -> Result<Bench, Fail>
    requires { length delay.items < 2 ^ 32 }
{
    let machine = Machine::new(parts(alloc, step, khz, delay, watch)?)?;
    Ok(Bench::new(alloc, machine)?)
}

/// A record of source 0 with one attempt, or none.
fn record(first: u32, count: u32, outcome: Outcome, current: bool, demoted: bool) -> SourceRecord {
    SourceRecord {
        source: 0,
        first,
        count,
        outcome,
        tsc_current: current,
        tsc_demoted: demoted,
    }
}

/// The pause before each check, in tickets, its record, and the current source after it. A stamp of the stable clock
/// draws two tickets.
fn drifting_rows() -> [(u64, (SourceRecord, u32)); 4] {
    let good = Outcome::Good {
        cs_ns: 154,
        wd_ns: 140,
    };
    let bad = Outcome::Bad {
        cs_ns: 176,
        wd_ns: 160,
    };
    [
        (15, (record(0, 1, Outcome::First, false, false), 0)),
        (10, (record(1, 1, good, true, false), 0)),
        (12, (record(2, 1, bad, false, true), 1)),
        (10, (record(3, 0, Outcome::Passed, false, false), 1)),
    ]
}

/// Visits the source once for each row.
fn visit_rows<R: Abort>(rt: &R, bench: &mut Bench) {
    for (pause, row) in drifting_rows() {
        assert_eq!(rt; bench.visit(rt, pause), row);
    }
}

// The counter runs a tenth faster than it is taken to, so its ns are 14 too many in 140, and then 16 in 160.
#[test]
fn drifting_source_is_demoted(rt: HostRuntime) -> Result<(), Fail> {
    let watch = WatchPart {
        checks: 4,
        pause: 10,
        skew: 100,
        retries: 0,
    };
    let mut bench = bench_with(rt.alloc(), 10, 1_100_000, none(rt.alloc())?, watch)?;
    visit_rows(&rt, &mut bench);
    let attempt = Attempt {
        ticket: [45, 46, 47, 48],
        value: [450, 506, 470, 480],
    };
    assert_eq!(rt;
        (
            bench.watch.attempts().items().last(),
            bench.watch.records().len()
        ),
        (Some(&attempt), 4)
    );
    healthy_is_never_demoted();
    demoted_stays_out();
    Ok(())
}

/// Delays at the third and the fourth ticket of each of three attempts.
fn delays(alloc: Global, third: i64, fourth: i64) -> Result<List<Delay>, AllocError>
    ensures { IfOk result (λ l. length l.items < 2 ^ 32) }
{
    let delays = vec![in alloc;
        Delay::new(2, third),
        Delay::new(3, fourth),
        Delay::new(6, third),
        Delay::new(7, fourth),
        Delay::new(10, third),
        Delay::new(11, fourth),
    ]?;
    Ok(List::from_vec(delays))
}

/// A bracket that begins at ticket 0, where a ticket is 1 ns, a cycle is 1 ns and these tickets take longer; and how
/// many attempts it has.
fn bracket_with<R: Abort>(
    rt: &R,
    alloc: Global,
    third: i64,
    fourth: i64,
) -> Result<(Bracket, usize), Fail> {
    let watch = WatchPart {
        checks: 1,
        pause: 1,
        skew: 100,
        retries: 2,
    };
    let mut bench = bench_with(alloc, 1, 1_000_000, delays(alloc, third, fourth)?, watch)?;
    let bracket = bench.bracket(rt);
    Ok((bracket, bench.watch.attempts().len()))
}

// The watchdog shows 0, 101, 151 in each of three attempts; 0, 101, 152; and 0, 100, 900.
#[test]
fn bracket_edges(rt: HostRuntime) -> Result<(), Fail> {
    let accepted = Bracket::Accepted { cs: 1, wd: 0 };
    for (third, fourth, bracket, attempts) in [
        (99, 49, Bracket::Slow, 3),
        (99, 50, Bracket::Skip, 1),
        (98, 799, accepted, 1),
    ] {
        let seen = bracket_with(&rt, rt.alloc(), third, fourth)?;
        assert_eq!(rt; seen, (bracket, attempts));
    }
    Ok(())
}

#[test]
fn margin_edge(rt: HostRuntime) {
    let good = Outcome::Good {
        cs_ns: 1_200,
        wd_ns: 1_000,
    };
    let bad = Outcome::Bad {
        cs_ns: 1_201,
        wd_ns: 1_000,
    };
    assert_eq!(rt; compare(200, 1_200, 1_000), good);
    assert_eq!(rt; compare(200, 1_201, 1_000), bad);
}
