//! Worked rows of counters and timeouts, and which failing row is told.
ghost use Rattle.std.specs.Prelude.{◌≡◌, ◌<◌, ◌^◌, IfOk, IsSome, length, map};
ghost use Rattle.std.specs.List.{All};
ghost use Rattle.clk_machine.specs.Plan.{plan_of, cpu_plan, cpu_count};
ghost use Rattle.clk_machine.specs.Short.{IsShortCpu, IsWellFormed};

use crate::lists::{none, one};
use clk_machine::{
    BringUpPart, CpuPart, Delay, Jump, Machine, MachineError, Parts, Place, ReferencePart, Script,
    Word,
};
use clk_num::List;
use std::alloc::{AllocError, Global};
use std::process::Abort;

/// A local reading, a tick, and a reading of CPU 1.
fn words(alloc: Global) -> Result<List<Word>, AllocError>
    ensures { IfOk result (λ l. length l.items ≡ 3) }
{
    let mut words = List::with_room(alloc, 3)?;
    words.push(Word::Local);
    words.push(Word::Tick);
    words.push(Word::Remote(1));
    Ok(words)
}

/// A CPU of 2.4 GHz in this socket that began at 300 cycles and goes back by 400 at 25 ns.
fn cpu_in(alloc: Global, socket: i64) -> Result<CpuPart, AllocError>
    ensures { IfOk result (λ c. IsShortCpu (cpu_plan c)) }
{
    let script = Script {
        repeat: 3,
        words: words(alloc)?,
    };
    let jumps = one(alloc, Jump::new(25, -400))?;
    Ok(CpuPart {
        khz: 2_400_000,
        offset: 300,
        socket,
        jumps,
        script,
    })
}

/// Three CPUs, the last one in a socket of its own.
fn three_cpus(alloc: Global) -> Result<List<CpuPart>, AllocError>
    ensures count { IfOk result (λ l. length (map cpu_plan l.items) ≡ 3) }
    ensures short { IfOk result (λ l. All IsShortCpu (map cpu_plan l.items)) }
{
    let mut cpus = List::with_room(alloc, 3)?;
    cpus.push(cpu_in(alloc, 0)?);
    cpus.push(cpu_in(alloc, 0)?);
    cpus.push(cpu_in(alloc, 1)?);
    Ok(cpus)
}

/// Three CPUs, a bring-up, clocks that begin at -7 ns, and these delays.
fn parts(alloc: Global, delay: List<Delay>) -> Result<Parts, AllocError>
    requires { length delay.items < 2 ^ 32 }
    ensures well_formed { IfOk result (λ p. IsWellFormed (plan_of p)) }
    ensures count { IfOk result (λ p. cpu_count (plan_of p) ≡ 3) }
    ensures bring_up { IfOk result (λ p. IsSome p.bringup) }
{
    let cpu = three_cpus(alloc)?;
    let reader = none(alloc)?;
    let source = none(alloc)?;
    Ok(Parts {
        version: 2,
        base: -7,
        cpus: 3,
        step: 10,
        tick: 1_000_000,
        bits: 64,
        nominal_khz: 1_000_000,
        stable: false,
        reference: ReferencePart {
            khz: 1_000_000,
            bits: 64,
            rating: 300,
            margin: 0,
        },
        cpu,
        reader,
        delay,
        bringup: Some(BringUpPart {
            adjust: false,
            timeout_us: 0,
            first_us: 1_000,
            turns: 5,
        }),
        watchdog: None,
        source,
    })
}

/// The machine of three CPUs with these delays.
fn machine_with(rt: &impl Abort, alloc: Global, delay: List<Delay>) -> Result<Machine, AllocError>
    requires { length delay.items < 2 ^ 32 }
    ensures count { IfOk result (λ m. cpu_count m ≡ 3) }
    ensures bring_up { IfOk result (λ m. IsSome m.bringup) }
{
    let parts = parts(alloc, delay)?;
    Ok(Machine::new(parts).expect(rt, "a machine"))
}

/// What the counter of CPU 0 shows before its jump, at it, and later.
fn counts(machine: &Machine) -> [u64; 3]
    requires { cpu_count machine.now ≡ 3 }
{
    [
        machine.counter(0, 0, 2),
        machine.counter(0, 0, 3),
        machine.counter(0, 0, 15),
    ]
}

/// The same with these delays.
fn counts_with(rt: &impl Abort, alloc: Global, delay: List<Delay>) -> Result<[u64; 3], AllocError>
    requires { length delay.items < 2 ^ 32 }
{
    Ok(counts(&machine_with(rt, alloc, delay)?))
}

/// The same with no delay, and with one of 7 ns at ticket 3.
fn counts_of_two(rt: &impl Abort, alloc: Global) -> Result<[[u64; 3]; 2], AllocError> {
    let without = counts_with(rt, alloc, none(alloc)?)?;
    let delayed = counts_with(rt, alloc, one(alloc, Delay::new(3, 7))?)?;
    Ok([without, delayed])
}

#[test]
fn jump_and_delay(rt: HostRuntime) {
    let counts = [[348, 0, 260], [348, 0, 276]];
    assert_eq!(rt; counts_of_two(&rt, rt.alloc()), Ok(counts));
}

/// The ns at which the clocks begin, and the timeouts of CPU 1 and CPU 2.
fn times(machine: &Machine) -> (i64, [u64; 2])
    requires count { cpu_count machine.now ≡ 3 }
    requires bring_up { IsSome machine.now.bringup }
{
    (machine.base(), [machine.timeout(1), machine.timeout(2)])
}

/// How many threads there are, the tickets of CPU 0, and its steps on its own word and on that of CPU 1.
fn sizes(machine: &Machine) -> (u32, u64, [u32; 2])
    requires { cpu_count machine.now ≡ 3 }
{
    let steps = [machine.steps(0, 0), machine.steps(0, 1)];
    (machine.threads(), machine.tickets(0), steps)
}

/// The same of a machine with no delay.
fn times_and_sizes(
    rt: &impl Abort,
    alloc: Global,
) -> Result<((i64, [u64; 2]), (u32, u64, [u32; 2])), AllocError> {
    let machine = machine_with(rt, alloc, none(alloc)?)?;
    Ok((times(&machine), sizes(&machine)))
}

#[test]
fn timeouts_and_scripts(rt: HostRuntime) {
    let numbers = ((-7, [0, 1_000]), (3, 15, [12, 3]));
    assert_eq!(rt; times_and_sizes(&rt, rt.alloc()), Ok(numbers));
}

/// Why no machine has these parts with a step and a tick of 0.
fn refusal(alloc: Global) -> Result<Option<MachineError>, AllocError> {
    let mut wrong = parts(alloc, none(alloc)?)?;
    wrong.step = 0;
    wrong.tick = 0;
    Ok(Machine::new(wrong).err())
}

#[test]
fn the_first_failing_row_is_told(rt: HostRuntime) {
    let place = Place {
        row: 3,
        entry: 0,
        item: 0,
    };
    assert_eq!(rt; refusal(rt.alloc()), Ok(Some(MachineError::Value(place))));
}
