//! The range tests of the CPUs and the readers.
ghost use Rattle.std.specs.Prelude.{◌≡◌, ◌+◌, ◌^◌, ◌<◌, ◌≤◌, length, map};
ghost use Rattle.std.specs.List.{All};
ghost use Rattle.clk_base.specs.First.{first, each};
ghost use Rattle.clk_machine.specs.Plan.{plan_of, cpu_plan, reader_plan, script_plan};
ghost use Rattle.clk_machine.specs.Ranges.{word_test, script_tests, script_length, cpu_tests, reader_tests, each_cpu, each_reader, words_of_cpus, thread_tests};
ghost use Rattle.clk_machine.specs.Short.{IsShort, IsShortCpu, IsShortReader, IsWellFormed};
ghost use Rattle.clk_machine.specs.Tested.{Tested};

use crate::error::MachineError;
use crate::jumps::test_jumps;
use crate::parts::{CpuPart, Parts, ReaderPart};
use crate::ranges::{at_most, cpu_fault, is_between, is_cpu, ranges, unless_held, value_at};
use crate::rows::Row;
use crate::script::{Script, Word};

/// The most repeats of a script.
const MAX_REPEAT: u64 = 65_536;

/// The most words of a script, after its repeats, and of all scripts together.
const MAX_WORDS: u64 = 65_536;

const MAX_ALL_WORDS: u64 = 524_288;

/// The most updates of a script, after its repeats.
const MAX_UPDATES: u64 = 1_024;

/// The most tickets of a pause.
const MAX_PAUSE: u64 = 1 << 24;

/// The farthest that a counter may begin from 0, in cycles.
const MAX_OFFSET: u64 = 1 << 44;

/// The most readers.
const MAX_READERS: usize = 16;

/// The test of a word.
fn test_word(cpus: u64, row: Row, entry: u32, item: u32, word: &Word) -> Option<MachineError>
    ensures { result ≡ word_test cpus row entry item word.now }
{
    match word {
        Word::Remote(cpu) => unless_held(is_cpu(cpus, *cpu), cpu_fault(row, entry, item)),
        Word::Pause(count) => {
            unless_held(is_between(1, MAX_PAUSE, *count), value_at(row, entry, item))
        }
        _ => None,
    }
}

/// The test of a script's words.
fn test_words(cpus: u64, row: Row, entry: u32, words: &[Word]) -> Option<MachineError>
    requires { IsShort words.now }
    ensures { result ≡ each (word_test cpus row entry) 1 words.now }
{
    for (i, word) in words.iter().enumerate() {
        let refusal = test_word(cpus, row, entry, i as u32 + 1, word);
        if refusal.is_some() {
            return refusal;
        }
    }
    None
}

/// The test of a script, by the rows of its repeat and of its words, after scripts of so many words.
fn test_script(
    cpus: u64,
    repeat: Row,
    row: Row,
    entry: u32,
    before: u64,
    script: &Script,
) -> Result<u64, MachineError>
    requires words { IsShort script.now.words.items }
    requires before { before ≤ 524288 }
    ensures { Tested (first (script_tests cpus repeat row entry before (script_plan script.now)))
        (before + script_length (script_plan script.now)) (λ words. words ≤ 524288) result }
{
    if !is_between(0, MAX_REPEAT, script.repeat) {
        return Err(value_at(repeat, entry, 0));
    }
    if let Some(refusal) = test_words(cpus, row, entry, script.words.items()) {
        return Err(refusal);
    }
    let length = script.length();
    if length > MAX_WORDS || before + length > MAX_ALL_WORDS || script.updates() > MAX_UPDATES {
        return Err(value_at(row, entry, 0));
    }
    Ok(before + length)
}

/// The test of a CPU, after scripts of so many words.
fn test_cpu(cpus: u64, entry: u32, before: u64, cpu: &CpuPart) -> Result<u64, MachineError>
    requires short { IsShortCpu (cpu_plan cpu.now) }
    requires before { before ≤ 524288 }
    ensures { Tested (first (cpu_tests cpus entry before (cpu_plan cpu.now)))
        (before + script_length (script_plan cpu.now.script)) (λ words. words ≤ 524288) result }
{
    let refusal = ranges(Row::CpuKhz, entry, 1_000, 4_000_000, cpu.khz)
        .or(unless_held(
            cpu.offset.unsigned_abs() <= MAX_OFFSET,
            value_at(Row::CpuOffset, entry, 0),
        ))
        .or(ranges(Row::CpuSocket, entry, 0, 63, cpu.socket))
        .or(test_jumps(Row::CpuJumps, entry, &cpu.jumps));
    match refusal {
        Some(refusal) => Err(refusal),
        None => test_script(
            cpus,
            Row::CpuRepeat,
            Row::CpuScript,
            entry,
            before,
            &cpu.script,
        ),
    }
}

/// The test of a reader, after scripts of so many words.
fn test_reader(cpus: u64, entry: u32, before: u64, reader: &ReaderPart) -> Result<u64, MachineError>
    requires short { IsShortReader (reader_plan reader.now) }
    requires before { before ≤ 524288 }
    ensures { Tested (first (reader_tests cpus entry before (reader_plan reader.now)))
        (before + script_length (script_plan reader.now.script)) (λ words. words ≤ 524288) result }
{
    if !is_cpu(cpus, reader.cpu) {
        return Err(cpu_fault(Row::ReaderCpu, entry, 0));
    }
    test_script(
        cpus,
        Row::ReaderRepeat,
        Row::ReaderScript,
        entry,
        before,
        &reader.script,
    )
}

/// The test of all CPUs.
fn test_cpus(cpus: u64, list: &[CpuPart]) -> Result<u64, MachineError>
    requires short { IsShort list.now }
    requires each { All IsShortCpu (map cpu_plan list.now) }
    ensures { Tested (each_cpu cpus (map cpu_plan list.now)) (words_of_cpus (map cpu_plan list.now)) (λ words. words ≤ 524288) result }
{
    let mut before = 0;
    for (i, cpu) in list.iter().enumerate() {
        match test_cpu(cpus, i as u32 + 1, before, cpu) {
            Ok(words) => before = words,
            Err(refusal) => return Err(refusal),
        }
    }
    Ok(before)
}

/// The test of all readers, after scripts of so many words.
fn test_readers(cpus: u64, words: u64, list: &[ReaderPart]) -> Option<MachineError>
    requires short { IsShort list.now }
    requires each { All IsShortReader (map reader_plan list.now) }
    requires words { words ≤ 524288 }
    ensures { result ≡ each_reader cpus words (map reader_plan list.now) }
{
    let mut before = words;
    for (i, reader) in list.iter().enumerate() {
        match test_reader(cpus, i as u32 + 1, before, reader) {
            Ok(words) => before = words,
            Err(refusal) => return Some(refusal),
        }
    }
    None
}

/// The test of the CPUs and the readers.
pub(crate) fn test_threads(parts: &Parts) -> Option<MachineError>
    requires { IsWellFormed (plan_of parts.now) }
    ensures { result ≡ first (thread_tests (plan_of parts.now)) }
{
    let count = parts.cpu.len() as u64;
    if !is_between(count, count, parts.cpus) {
        return Some(value_at(Row::Cpu, 0, 0));
    }
    match test_cpus(count, parts.cpu.items()) {
        Err(refusal) => Some(refusal),
        Ok(words) => at_most(Row::Reader, 0, MAX_READERS, &parts.reader).or(test_readers(
            count,
            words,
            parts.reader.items(),
        )),
    }
}
