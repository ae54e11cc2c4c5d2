//! Files beside their answers: tables of changes of one file, and what each changed file is.
mod lists;
mod machines;
mod ranges;
mod shapes;

use clk_file::{FileError, read_machine};
use clk_machine::{Machine, Place};
use std::alloc::{AllocError, Global};
use std::process::Abort;
use std::test::Fail;

/// A file that is read. Each line is a key and its value.
const FILE: &str = "version = 1
cpus = 1
step = 10
nominal_khz = 1000000
stable = false
reference = { khz = 1000000 }
cpu = [{}]
";

/// The same with headers in place of inline tables.
const HEADERS: &str = "version = 1
cpus = 1
step = 10
nominal_khz = 1000000
stable = false
[reference]
khz = 1000000
[[cpu]]
script = [\"local\"]
";

/// The key of a line.
fn key_of(line: &str) -> &str {
    match line.split_once(' ') {
        Some((key, _)) => key,
        None => line,
    }
}

/// The changes that a line of a table stands for: `~ITEM~COUNT~` in it is so many items.
fn expanded(alloc: Global, line: &str) -> Result<String, AllocError> {
    let mut text = String::new(alloc);
    if let Some((before, more)) = line.split_once('~')
        && let Some((item, more)) = more.split_once('~')
        && let Some((count, after)) = more.split_once('~')
    {
        text.push_str(before)?;
        for _ in 0..count.parse::<u32>().unwrap_or(0) {
            text.push_str(item)?;
        }
        text.push_str(after)?;
    } else {
        text.push_str(line)?;
    }
    Ok(text)
}

/// The file with these lines in place of its own, which `;` parts: a line that is only a key takes that key out.
fn changed(alloc: Global, file: &str, changes: &str) -> Result<String, AllocError> {
    let mut text = String::new(alloc);
    for line in file.lines() {
        if !changes
            .split(';')
            .any(|change| key_of(change) == key_of(line))
        {
            text.push_str(line)?;
            text.push_str("\n")?;
        }
    }
    for line in changes.split(';') {
        if key_of(line) != line {
            text.push_str(line)?;
            text.push_str("\n")?;
        }
    }
    Ok(text)
}

/// What a refusal says of its place.
fn placed(alloc: Global, name: &str, place: Place) -> Result<String, AllocError> {
    let Place { row, entry, item } = place;
    format!(in alloc; "{name} {row} {entry} {item}")
}

/// The answer of a file, as the tables write it.
fn answer_of(alloc: Global, bytes: &[u8]) -> Result<String, AllocError> {
    if bytes.len() > 1_048_576 {
        return String::from_str(alloc, "too long");
    }
    match read_machine(alloc, bytes) {
        Ok(_) => String::from_str(alloc, "read"),
        Err(FileError::NotToml) => String::from_str(alloc, "not toml"),
        Err(FileError::Key(place)) => placed(alloc, "key", place),
        Err(FileError::Value(place)) => placed(alloc, "value", place),
        Err(FileError::Word(place)) => placed(alloc, "word", place),
        Err(FileError::Cpu(place)) => placed(alloc, "cpu", place),
        Err(FileError::Tickets { needed }) => format!(in alloc; "tickets {needed}"),
        Err(FileError::Memory(error)) => Err(error),
    }
}

/// Tries the changes of some tables, and gives how many there are.
fn tried(rt: &impl Abort, alloc: Global, file: &str, tables: &[&str]) -> Result<u32, AllocError> {
    let mut count = 0u32;
    for table in tables {
        for line in table.lines() {
            if let Some((changes, wanted)) = line.split_once(" => ") {
                let changes = expanded(alloc, changes)?;
                let text = changed(alloc, file, changes.as_str())?;
                let answer = answer_of(alloc, text.as_bytes())?;
                assert_eq!(rt; answer.as_str(), wanted, "{line}");
                count = count.wrapping_add(1);
            }
        }
    }
    Ok(count)
}

#[test]
fn shapes_are_tested_in_their_order(rt: HostRuntime) -> Result<(), Fail> {
    let count = tried(&rt, rt.alloc(), FILE, &shapes::TABLES)?;
    assert_eq!(rt; count, 210);
    Ok(())
}

#[test]
fn ranges_are_tested_in_their_order(rt: HostRuntime) -> Result<(), Fail> {
    let count = tried(&rt, rt.alloc(), FILE, &ranges::TABLES)?;
    assert_eq!(rt; count, 165);
    Ok(())
}

#[test]
fn lists_end_at_their_limits(rt: HostRuntime) -> Result<(), Fail> {
    let count = tried(&rt, rt.alloc(), FILE, &[lists::LISTS])?;
    assert_eq!(rt; count, 20);
    Ok(())
}

#[test]
fn headers_are_inline_tables(rt: HostRuntime) -> Result<(), Fail> {
    let count = tried(&rt, rt.alloc(), HEADERS, &[shapes::HEADERS])?;
    assert_eq!(rt; count, 8);
    let comment = answer_of(rt.alloc(), &[0x23, 0x20, 0x80])?;
    assert_eq!(rt; comment.as_str(), "not toml", "no UTF-8");
    Ok(())
}

/// What a machine is: its own numbers, the timeouts of its CPUs, its sources, and the words of each thread after
/// repeats.
fn described(alloc: Global, machine: &Machine) -> Result<String, AllocError> {
    let mut text = format!(in alloc;
        "{} {} {} {} {} {:?} {:?} {:?}",
        machine.base(),
        machine.time(1),
        machine.tick(),
        machine.bits(),
        machine.starts_stable(),
        machine.reference_part(),
        machine.bring_up(),
        machine.watchdog()
    )?;
    if machine.bring_up().is_some() {
        for cpu in 1..machine.cpus() {
            let timeout = format!(in alloc; ", timeout {}", machine.timeout(cpu))?;
            text.push_str(timeout.as_str())?;
        }
    }
    for s in 0..machine.sources() {
        let source = machine.source(s);
        let shown = format!(in alloc;
            ", source {} {} {} {} {} {} {}",
            source.tsc,
            source.rating,
            source.margin,
            source.nominal_khz,
            source.khz,
            source.bits,
            source.jumps.len()
        )?;
        text.push_str(shown.as_str())?;
    }
    for thread in 0..machine.threads() {
        text.push_str(", thread")?;
        for m in 0..machine.words(thread) {
            let word = machine.word(thread, m);
            text.push_str(format!(in alloc; " {word:?}")?.as_str())?;
        }
    }
    Ok(text)
}

#[test]
fn machines_are_as_their_files_say(rt: HostRuntime) -> Result<(), Fail> {
    for line in machines::MACHINES.lines() {
        if let Some((changes, wanted)) = line.split_once(" => ") {
            let text = changed(rt.alloc(), FILE, changes)?;
            assert!(rt; text.len() <= 1_048_576);
            let machine = read_machine(rt.alloc(), text.as_bytes())?;
            let shown = described(rt.alloc(), &machine)?;
            assert_eq!(rt; shown.as_str(), wanted, "{line}");
        }
    }
    Ok(())
}
