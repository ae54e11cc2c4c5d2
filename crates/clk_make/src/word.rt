//! The words of scripts.
ghost use Rattle.std.specs.Prelude.{◌≡◌, ◌<◌, ◌≤◌, IfOk, map};
ghost use Rattle.std.specs.List.{range_with_len};
ghost use Rattle.clk_machine.specs.Plan.{script_plan};
ghost use Rattle.clk_make.specs.Made.{made_cpus, other_cpu, cpu_word, reader_word, cpu_script, reader_script};

use clk_machine::{Script, Word};
use clk_num::List;
use std::alloc::{AllocError, Global};

/// How many words a CPU's script has, and how often they are repeated.
const CPU_WORDS: u32 = 64;

const CPU_REPEAT: i64 = 64;

/// How many words a reader's script has, and how often they are repeated.
const READER_WORDS: u32 = 8;

const READER_REPEAT: i64 = 256;

/// How many CPUs the machine has, 2 to 16.
pub(crate) fn cpus_of(n: u32) -> u32
    ensures count { result ≡ made_cpus n }
    ensures some { 2 ≤ result }
    ensures few { result ≤ 16 }
{
    2 + n % 15
}

/// The CPU that word `j` of a script on this CPU reads: one of the others.
fn other_cpu(cpus: u32, cpu: u32, j: u32) -> u32
    requires some { 2 ≤ cpus }
    requires few { cpus ≤ 16 }
    requires cpu { cpu < cpus }
    ensures { result ≡ other_cpu cpus cpu j }
{
    (cpu + 1 + j % (cpus - 1)) % cpus
}

/// Word `j` of a CPU.
fn cpu_word(n: u32, cpu: u32, j: u32) -> Word
    requires number { n < 65536 }
    requires cpu { cpu < made_cpus n }
    requires word { j < 64 }
    ensures { result ≡ cpu_word n cpu j }
{
    match (n + 5 * cpu + 3 * j) % 8 {
        0 | 1 => Word::Local,
        2 => Word::Update,
        3 | 4 => Word::Remote(other_cpu(cpus_of(n), cpu, j) as i64),
        5 => Word::Tick,
        6 => Word::Idle,
        _ => Word::Pause((1 + j % 8) as i64),
    }
}

/// Word `j` of a reader on this CPU.
fn reader_word(cpus: u32, cpu: u32, j: u32) -> Word
    requires some { 2 ≤ cpus }
    requires few { cpus ≤ 16 }
    requires cpu { cpu < cpus }
    ensures { result ≡ reader_word cpus cpu j }
{
    if j % 2 == 0 {
        Word::Local
    } else {
        Word::Remote(other_cpu(cpus, cpu, j) as i64)
    }
}

fn cpu_words(alloc: Global, n: u32, cpu: u32) -> Result<List<Word>, AllocError>
    requires number { n < 65536 }
    requires cpu { cpu < made_cpus n }
    ensures { IfOk result (λ l. l.items ≡ map (cpu_word n cpu) (range_with_len 0 64)) }
{
    let mut words = List::with_room(alloc, CPU_WORDS as usize)?;
    for j in 0..CPU_WORDS {
        words.push(cpu_word(n, cpu, j));
    }
    Ok(words)
}

fn reader_words(alloc: Global, cpus: u32, cpu: u32) -> Result<List<Word>, AllocError>
    requires some { 2 ≤ cpus }
    requires few { cpus ≤ 16 }
    requires cpu { cpu < cpus }
    ensures { IfOk result (λ l. l.items ≡ map (reader_word cpus cpu) (range_with_len 0 8)) }
{
    let mut words = List::with_room(alloc, READER_WORDS as usize)?;
    for j in 0..READER_WORDS {
        words.push(reader_word(cpus, cpu, j));
    }
    Ok(words)
}

/// The script of a CPU. The error is want of memory.
pub(crate) fn cpu_script(alloc: Global, n: u32, cpu: u32) -> Result<Script, AllocError>
    requires number { n < 65536 }
    requires cpu { cpu < made_cpus n }
    ensures { IfOk result (λ s. script_plan s ≡ cpu_script n cpu) }
{
    Ok(Script {
        repeat: CPU_REPEAT,
        words: cpu_words(alloc, n, cpu)?,
    })
}

/// The script of a reader on this CPU. The error is want of memory.
pub(crate) fn reader_script(alloc: Global, cpus: u32, cpu: u32) -> Result<Script, AllocError>
    requires some { 2 ≤ cpus }
    requires few { cpus ≤ 16 }
    requires cpu { cpu < cpus }
    ensures { IfOk result (λ s. script_plan s ≡ reader_script cpus cpu) }
{
    Ok(Script {
        repeat: READER_REPEAT,
        words: reader_words(alloc, cpus, cpu)?,
    })
}
