//! Both sides of a run on threads of their own, and the states before it.
ghost use Rattle.std.specs.Prelude.{◌≡◌, IfOk, IsSome, [], length, map};
ghost use Rattle.std.specs.List.{All};
ghost use Rattle.clk_machine.specs.Plan.{plan_of, cpu_plan, cpu_count};
ghost use Rattle.clk_machine.specs.Short.{IsShortCpu, IsWellFormed};
ghost use Rattle.clk_warp.specs.Run.{most_readings};

use clk_machine::{BringUpPart, CpuPart, Gate, Machine, OpenGate, Parts, ReferencePart, Script};
use clk_num::List;
use clk_record::Side;
use clk_ticket::TicketTable;
use clk_warp::{WarpState, run_pair};
use std::alloc::{AllocError, Global};
use std::hint::spin_loop;
use std::process::Abort;
use std::sync::atomic::{AtomicU64, Ordering};
use std::test::Fail;

// How often a side looks for the other before it gives up.
const LOOKS: u64 = 100_000_000;

// The readings of a run with no turns allowed beyond the first look: `2 * (0 + 10)`.
const MOST: u64 = 20;

fn none<T>(alloc: Global) -> Result<List<T>, AllocError>
    ensures { IfOk result (λ l. l.items ≡ []) }
{
    List::with_room(alloc, 0)
}

// A CPU of 1 GHz that began at 0.
fn cpu(alloc: Global) -> Result<CpuPart, AllocError>
    ensures { IfOk result (λ c. IsShortCpu (cpu_plan c)) }
{
    Ok(CpuPart {
        khz: 1_000_000,
        offset: 0,
        socket: 0,
        jumps: none(alloc)?,
        script: Script {
            repeat: 1,
            words: none(alloc)?,
        },
    })
}

fn cpus(alloc: Global) -> Result<List<CpuPart>, AllocError>
    ensures count { IfOk result (λ l. length (map cpu_plan l.items) ≡ 2) }
    ensures short { IfOk result (λ l. All IsShortCpu (map cpu_plan l.items)) }
{
    let mut cpus = List::with_room(alloc, 2)?;
    cpus.push(cpu(alloc)?);
    cpus.push(cpu(alloc)?);
    Ok(cpus)
}

// Two CPUs, of which each loop ends at its first turn.
fn parts(alloc: Global) -> Result<Parts, AllocError>
    ensures well_formed { IfOk result (λ p. IsWellFormed (plan_of p)) }
    ensures count { IfOk result (λ p. cpu_count (plan_of p) ≡ 2) }
    ensures bring_up { IfOk result (λ p. IsSome p.bringup) }
    ensures readings { IfOk result (λ p. most_readings (plan_of p) ≡ 20) }
{
    Ok(Parts {
        version: 2,
        base: 0,
        cpus: 2,
        step: 10,
        tick: 1_000_000,
        bits: 64,
        nominal_khz: 1_000_000,
        stable: false,
        reference: ReferencePart {
            khz: 1_000_000,
            bits: 64,
            rating: 250,
            margin: 0,
        },
        cpu: cpus(alloc)?,
        reader: none(alloc)?,
        delay: none(alloc)?,
        bringup: Some(BringUpPart {
            adjust: true,
            timeout_us: 0,
            first_us: 0,
            turns: 0,
        }),
        watchdog: None,
        source: none(alloc)?,
    })
}

// The machine of these parts.
fn two_cpus(rt: &impl Abort, alloc: Global) -> Result<Machine, AllocError>
    ensures bring_up { IfOk result (λ m. IsSome m.bringup) }
    ensures cpus { IfOk result (λ m. cpu_count m ≡ 2) }
    ensures readings { IfOk result (λ m. most_readings m ≡ 20) }
{
    Ok(Machine::new(parts(alloc)?).expect(rt, "a machine"))
}

// A gate at which each side waits for the other before its first turn, and which notes what it was given.
#[derive(Drop)]
struct Meeting {
    came: [AtomicU64; 2],
    last: [AtomicU64; 2],
    missed: AtomicU64,
}

impl Meeting {
    fn new() -> Meeting {
        Meeting {
            came: [AtomicU64::new(0), AtomicU64::new(0)],
            last: [AtomicU64::new(0), AtomicU64::new(0)],
            missed: AtomicU64::new(0),
        }
    }
}

impl Gate for Meeting {
    fn pass(&self, thread: u32, _op: u32, last: i64) {
        let (mine, other) = if thread == 0 { (0, 1) } else { (1, 0) };
        self.last[mine].store(last.unsigned_abs(), Ordering::SeqCst);
        self.came[mine].store(1, Ordering::SeqCst);
        for _ in 0..LOOKS {
            if self.came[other].load(Ordering::SeqCst) == 1 {
                return;
            }
            spin_loop();
        }
        self.missed.store(1, Ordering::SeqCst);
    }
}

#[test]
fn two_sides_meet(rt: HostRuntime) -> Result<(), Fail> {
    let alloc = rt.alloc();
    let machine = two_cpus(&rt, alloc)?;
    let (tickets, mut time) = TicketTable::new(alloc, MOST)?;
    let gate = Meeting::new();
    let run = run_pair(&rt, alloc, &machine, &tickets, &mut time, 1, 0, &gate)?;
    assert_eq!(rt; gate.missed.load(Ordering::SeqCst), 0);
    assert_eq!(rt; run.readings.len(), 4);
    assert_eq!(rt; time.left(), MOST - 4);
    for reading in run.readings.items() {
        let side = match reading.side {
            Side::Source => 0,
            Side::Target => 1,
        };
        if reading.start {
            assert_eq!(rt; gate.last[side].load(Ordering::SeqCst), reading.tsc);
        }
        assert_eq!(rt; Some(reading.tsc), reading.ticket.checked_mul(10));
    }
    Ok(())
}

#[test]
fn a_clean_bring_up(rt: HostRuntime) -> Result<(), Fail> {
    let alloc = rt.alloc();
    let machine = two_cpus(&rt, alloc)?;
    let (tickets, mut time) = TicketTable::new(alloc, MOST)?;
    let run = run_pair(&rt, alloc, &machine, &tickets, &mut time, 1, 0, &OpenGate)?;
    assert!(rt; run.readings.items().is_sorted_by_key(|r| r.tsc));
    assert_eq!(rt; run.readings.items().iter().filter(|r| r.start).count(), 2);
    assert_eq!(rt; (run.nr, run.max, run.random), (0, 0, 0));
    assert_eq!(rt; (run.cur_source, run.cur_target), (0, 0));
    assert_eq!(rt; tickets.finish(time), 4);
    Ok(())
}

#[test]
fn sides_arrive_apart(rt: HostRuntime) -> Result<(), Fail> {
    let alloc = rt.alloc();
    let machine = two_cpus(&rt, alloc)?;
    let (tickets, time) = TicketTable::new(alloc, MOST)?;
    let mut state = WarpState::apart(alloc, &machine, &tickets, 1)?;
    state.arrive(Side::Target, None);
    assert!(rt; !state.both_here());
    state.pass();
    state.arrive(Side::Source, Some((time, 300)));
    assert!(rt; state.both_here() && !state.both_ended());
    assert_eq!(rt; (state.adjust(), state.sections()), (300, 3));
    assert_eq!(rt; tickets.finish(state.into_time()), 0);
    Ok(())
}
