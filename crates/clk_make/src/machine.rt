//! The machine of a number.
ghost use Rattle.std.specs.Prelude.{◌≡◌, ◌<◌, IfOk, map};
ghost use Rattle.std.specs.List.{range_with_len};
ghost use Rattle.clk_machine.specs.Plan.{cpu_plan, reader_plan, plan_of};
ghost use Rattle.clk_make.specs.Made.{made_cpus, made_readers, made_cpu, made_reader, made};

use crate::word::{cpu_script, cpus_of, reader_script};
use clk_machine::{CpuPart, Machine, Parts, ReaderPart, ReferencePart};
use clk_num::List;
use std::alloc::{AllocError, Global};

/// The rate of the CPUs' counters by which they are converted, in kHz. Each runs up to 999 kHz faster.
const NOMINAL_KHZ: u32 = 2_400_000;

/// The machine of a number below 65,536. It is within all limits, so the error is want of memory.
pub fn machine_of(alloc: Global, n: u32) -> Result<Machine, AllocError>
    requires { n < 65536 }
    ensures { IfOk result (λ m. m ≡ made n) }
{
    let parts = parts_of(alloc, n)?;
    Ok(Machine::new(parts).unwrap())
}

fn cpu_part(alloc: Global, n: u32, cpu: u32) -> Result<CpuPart, AllocError>
    requires number { n < 65536 }
    requires cpu { cpu < made_cpus n }
    ensures { IfOk result (λ c. cpu_plan c ≡ made_cpu n cpu) }
{
    Ok(CpuPart {
        khz: (NOMINAL_KHZ + n * (cpu + 1) % 1_000) as i64,
        offset: (100 * cpu) as i64,
        socket: 0,
        jumps: List::with_room(alloc, 0)?,
        script: cpu_script(alloc, n, cpu)?,
    })
}

fn reader_part(alloc: Global, n: u32, reader: u32) -> Result<ReaderPart, AllocError>
    ensures { IfOk result (λ r. reader_plan r ≡ made_reader n reader) }
{
    let cpus = cpus_of(n);
    let cpu = reader % cpus;
    Ok(ReaderPart {
        cpu: cpu as i64,
        script: reader_script(alloc, cpus, cpu)?,
    })
}

fn cpu_parts(alloc: Global, n: u32) -> Result<List<CpuPart>, AllocError>
    requires { n < 65536 }
    ensures { IfOk result (λ l. map cpu_plan l.items ≡ map (made_cpu n) (range_with_len 0 (made_cpus n))) }
{
    let cpus = cpus_of(n);
    let mut parts = List::with_room(alloc, cpus as usize)?;
    for cpu in 0..cpus {
        parts.push(cpu_part(alloc, n, cpu)?);
    }
    Ok(parts)
}

fn reader_parts(alloc: Global, n: u32) -> Result<List<ReaderPart>, AllocError>
    ensures { IfOk result (λ l. map reader_plan l.items ≡ map (made_reader n) (range_with_len 0 (made_readers n))) }
{
    let readers = n % 4;
    let mut parts = List::with_room(alloc, readers as usize)?;
    for reader in 0..readers {
        parts.push(reader_part(alloc, n, reader)?);
    }
    Ok(parts)
}

fn parts_of(alloc: Global, n: u32) -> Result<Parts, AllocError>
    requires { n < 65536 }
    ensures { IfOk result (λ p. plan_of p ≡ made n) }
{
    Ok(Parts {
        version: 1,
        base: 0,
        cpus: cpus_of(n) as i64,
        step: 10,
        tick: 1_000_000,
        bits: 64,
        nominal_khz: NOMINAL_KHZ as i64,
        stable: false,
        reference: ReferencePart {
            khz: 14_318,
            bits: 32,
            rating: 250,
            margin: 1_000,
        },
        cpu: cpu_parts(alloc, n)?,
        reader: reader_parts(alloc, n)?,
        delay: List::with_room(alloc, 0)?,
        bringup: None,
        watchdog: None,
        source: List::with_room(alloc, 0)?,
    })
}
