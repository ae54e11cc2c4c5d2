//! A trace of many threads on several CPUs: its histories are found from the events.
ghost use Rattle.std.specs.Prelude.{◌≡◌, ◌<◌, ◌≤◌, [], length, IfOk, All};
ghost use Rattle.clk_lawful.specs.Filling.{MayFill, NamesWordsBelow};

use crate::trace::{no_ups, raw};
use clk_lawful::{Event, EventKind, HistoryStep, Trace};
use clk_num::List;
use clk_record::Mode;
use clk_trace::histories;
use std::alloc::{AllocError, Global};
use std::test::Fail;

/// A step of the own word, or of one of the first eight, to any height.
fn step(thread: u32, call: u32) -> EventKind
    requires { thread < 32 }
    ensures { NamesWordsBelow 16 result }
{
    let new = 20 + i64::from((thread ^ call).wrapping_mul(40_503) % 65_536);
    if call.is_multiple_of(2) {
        return EventKind::Local {
            raw: raw(3, 30),
            tick_raw: 20,
            tick_gtod: 10,
            offset: 10,
            old: 20,
            new,
        };
    }
    EventKind::Couple {
        cpu: thread / 4,
        own: new,
        other: 20,
        word: thread / 4,
        old: 20,
        new,
    }
}

fn many_steps(alloc: Global, thread: u32, steps: u32) -> Result<List<Event>, AllocError>
    requires { thread < 32 }
    ensures few { IfOk result (λ es. length es.items ≤ steps) }
    ensures words { IfOk result (λ es. All (λ e. NamesWordsBelow 16 e.kind) es.items) }
{
    let mut events = List::with_room(alloc, steps as usize)?;
    for call in 0..steps {
        events.push(Event {
            call,
            kind: step(thread, call),
        });
    }
    Ok(events)
}

/// Threads of so many steps each.
fn many_threads(alloc: Global, steps: u32) -> Result<List<List<Event>>, AllocError>
    ensures count { IfOk result (λ l. length l.items ≡ 32) }
    ensures few { IfOk result (λ l. All (λ es. length es.items ≤ steps) l.items) }
    ensures words { IfOk result (λ l. All (λ es. All (λ e. NamesWordsBelow 16 e.kind) es.items) l.items) }
{
    let mut threads = List::with_room(alloc, 32)?;
    for thread in 0..32 {
        threads.push(many_steps(alloc, thread, steps)?);
    }
    Ok(threads)
}

/// Each of 16 CPUs for two threads.
fn many_cpus(alloc: Global) -> Result<List<u32>, AllocError>
    ensures count { IfOk result (λ l. length l.items ≡ 32) }
    ensures words { IfOk result (λ l. All (λ cpu. cpu < 16) l.items) }
{
    let mut cpu_of = List::with_room(alloc, 32)?;
    for thread in 0..32 {
        cpu_of.push(thread % 16);
    }
    Ok(cpu_of)
}

/// An empty list for each of 16 words.
fn many_words(alloc: Global, room: usize) -> Result<List<List<HistoryStep>>, AllocError>
    ensures count { IfOk result (λ l. length l.items ≡ 16) }
    ensures empty { IfOk result (λ l. All (λ lines. lines.items ≡ []) l.items) }
    ensures room { IfOk result (λ l. All (λ lines. lines.room ≡ room) l.items) }
{
    let mut lists = List::with_room(alloc, 16)?;
    for _word in 0..16_u32 {
        lists.push(List::with_room(alloc, room)?);
    }
    Ok(lists)
}

/// A run of 32 threads on 16 CPUs, whose histories are not found yet.
fn many(alloc: Global, steps: u32) -> Result<Trace, AllocError>
    ensures { IfOk result MayFill }
{
    Ok(Trace {
        epoch_ticket: 0,
        epoch_cyc: 0,
        boots: List::with_room(alloc, 0)?,
        starts: Mode::PerCpu,
        sched_offset: 0,
        gtod_offset: 10,
        ups: no_ups(alloc)?,
        boot_demotion: None,
        start_word: 20,
        cpu_of: many_cpus(alloc)?,
        threads: many_threads(alloc, steps)?,
        watch: None,
        histories: many_words(alloc, 32 * steps as usize)?,
        tickets: 200,
    })
}

/// Whether no line is below the one before.
fn rise(lines: &[HistoryStep]) -> bool {
    let mut last = 20;
    for line in lines {
        if line.new < last {
            return false;
        }
        last = line.new;
    }
    true
}

#[test]
fn many_threads_share_words(rt: HostRuntime) -> Result<(), Fail> {
    let mut trace = many(rt.alloc(), 4)?;
    histories(&mut trace);
    for (word, lines) in trace.histories.items().iter().enumerate() {
        let count = if word < 8 { 12 } else { 4 };
        assert_eq!(rt; lines.len(), count);
        assert!(rt; rise(lines.items()));
    }
    Ok(())
}
