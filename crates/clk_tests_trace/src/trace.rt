//! A whole trace as text, the greatest and least clock values, and a sink that fails.
ghost use Rattle.std.specs.Prelude.{◌≡◌, length, IfOk, None};
ghost use Rattle.clk_lawful.specs.Filling.{NamesWordsBelow};

use clk_base::raised;
use clk_lawful::{Event, EventKind, HistoryStep, Trace};
use clk_machine::{Published, RawReading};
use clk_num::List;
use clk_record::{BroughtUp, Mode, StableStamp};
use clk_trace::{Failed, Sink, WriteFault, write_trace};
use std::alloc::{AllocError, Global};
use std::test::Fail;

const TEXT: &str =
    "trace 1\nepoch 0 0\nboot 1 10 2 20 0 20\nstart percpu 0 10\nword 0 20\nthread 0 0\n0 local 3 30 0 30 20 10 10 20 30\n1 stamp 4 40 5 50 0 50\n1 local 6 60 0 60 50 40 10 30 60\n2 pause 7 200000\n3 update 1 200007 2000070 2000070\nhistory 0 2\n0 0 20 30\n0 1 30 60\nend 200008\n";

/// A sink that takes at most 16 bytes at a time and fails at one of its writes, counted from 1.
#[derive(Drop)]
pub struct Pieces {
    pub bytes: Vec<u8>,
    writes: u64,
    fails_at: u64,
    faults: u64,
}

impl Sink for Pieces {
    ghost use Rattle.std.specs.Prelude.{None};

    ghost written = { λ _. None };

    ghost faults = { λ s. s.faults };

    fn write(&mut self, piece: &[u8]) -> Result<usize, Failed> {
        let taken = &piece[..piece.len().min(16)];
        self.writes = self.writes.saturating_add(1);
        if self.writes == self.fails_at {
            self.faults = raised(self.faults);
            return Err(Failed);
        }
        match self.bytes.extend_from_slice(taken) {
            Ok(()) => Ok(taken.len()),
            Err(_) => {
                self.faults = raised(self.faults);
                Err(Failed)
            }
        }
    }
}

pub fn sink(alloc: Global, fails_at: u64) -> Pieces {
    Pieces {
        bytes: Vec::new(alloc),
        writes: 0,
        fails_at,
        faults: 0,
    }
}

pub fn raw(ticket: u64, ns: u32) -> RawReading {
    RawReading {
        ticket,
        cyc: u64::from(ns),
        rec: 0,
        ns: i64::from(ns),
    }
}

pub fn local(ticket: u64, ns: u32, tick_raw: i64, tick_gtod: i64, old: i64) -> EventKind
    ensures { NamesWordsBelow 2 result }
{
    EventKind::Local {
        raw: raw(ticket, ns),
        tick_raw,
        tick_gtod,
        offset: 10,
        old,
        new: i64::from(ns),
    }
}

fn events(alloc: Global) -> Result<List<Event>, AllocError> {
    let mut events = List::with_room(alloc, 5)?;
    events.push(Event {
        call: 0,
        kind: local(3, 30, 20, 10, 20),
    });
    events.push(Event {
        call: 1,
        kind: EventKind::Stamp {
            gtod_ticket: 4,
            gtod: 40,
            raw: raw(5, 50),
        },
    });
    events.push(Event {
        call: 1,
        kind: local(6, 60, 50, 40, 30),
    });
    events.push(Event {
        call: 2,
        kind: EventKind::Pause {
            ticket: 7,
            count: 200_000,
        },
    });
    events.push(Event {
        call: 3,
        kind: EventKind::Update(Published {
            rec: 1,
            ticket: 200_007,
            cyc: 2_000_070,
            ns: 2_000_070,
        }),
    });
    Ok(events)
}

fn history(alloc: Global) -> Result<List<HistoryStep>, AllocError> {
    let mut steps = List::with_room(alloc, 2)?;
    steps.push(HistoryStep {
        thread: 0,
        call: 0,
        part: 0,
        old: 20,
        new: 30,
    });
    steps.push(HistoryStep {
        thread: 0,
        call: 1,
        part: 2,
        old: 30,
        new: 60,
    });
    Ok(steps)
}

/// The bring-up of a machine of one CPU.
pub fn no_ups(alloc: Global) -> Result<BroughtUp, AllocError> {
    Ok(BroughtUp {
        cpus: List::with_room(alloc, 0)?,
        failed: false,
    })
}

/// A run without threads, whose offsets are the ends of their type.
fn no_threads(alloc: Global) -> Result<Trace, AllocError>
    ensures cpus { IfOk result (λ t. length t.cpu_of.items ≡ length t.threads.items) }
    ensures watch { IfOk result (λ t. t.watch ≡ None) }
{
    Ok(Trace {
        epoch_ticket: 0,
        epoch_cyc: 7,
        boots: List::with_room(alloc, 0)?,
        starts: Mode::Stable,
        sched_offset: i64::MIN,
        gtod_offset: i64::MAX,
        ups: no_ups(alloc)?,
        boot_demotion: None,
        start_word: 0,
        cpu_of: List::with_room(alloc, 0)?,
        threads: List::with_room(alloc, 0)?,
        watch: None,
        histories: List::with_room(alloc, 0)?,
        tickets: 1,
    })
}

fn run(alloc: Global) -> Result<Trace, AllocError>
    ensures cpus { IfOk result (λ t. length t.cpu_of.items ≡ length t.threads.items) }
    ensures watch { IfOk result (λ t. t.watch ≡ None) }
{
    let boot = StableStamp {
        gtod_ticket: 1,
        gtod: 10,
        raw: raw(2, 20),
        offset: 10,
    };
    let mut trace = Trace {
        epoch_ticket: 0,
        epoch_cyc: 0,
        boots: List::with_room(alloc, 1)?,
        starts: Mode::PerCpu,
        sched_offset: 0,
        gtod_offset: 10,
        ups: no_ups(alloc)?,
        boot_demotion: None,
        start_word: 20,
        cpu_of: List::with_room(alloc, 1)?,
        threads: List::with_room(alloc, 1)?,
        watch: None,
        histories: List::with_room(alloc, 1)?,
        tickets: 200_008,
    };
    trace.boots.push(boot);
    trace.cpu_of.push(0);
    trace.threads.push(events(alloc)?);
    trace.histories.push(history(alloc)?);
    Ok(trace)
}

#[test]
fn a_trace_is_written_line_by_line(rt: HostRuntime) -> Result<(), Fail> {
    let trace = run(rt.alloc())?;
    let mut sink = sink(rt.alloc(), 0);
    assert_eq!(rt; write_trace(&mut sink, &trace), Ok(()));
    assert_eq!(rt; sink.bytes.as_slice(), TEXT.as_bytes());
    Ok(())
}

#[test]
fn a_fault_leaves_a_beginning(rt: HostRuntime) -> Result<(), Fail> {
    let trace = run(rt.alloc())?;
    let mut sink = sink(rt.alloc(), 2);
    assert_eq!(rt; write_trace(&mut sink, &trace), Err(WriteFault));
    assert_eq!(rt; sink.bytes.as_slice(), "trace 1\nepoch 0 ".as_bytes());
    Ok(())
}

#[test]
fn clock_values_reach_both_ends(rt: HostRuntime) -> Result<(), Fail> {
    let trace = no_threads(rt.alloc())?;
    let mut sink = sink(rt.alloc(), 0);
    assert_eq!(rt; write_trace(&mut sink, &trace), Ok(()));
    assert_eq!(rt;
        sink.bytes.as_slice(),
        "trace 1\nepoch 0 7\nstart stable -9223372036854775808 9223372036854775807\nend 1\n".as_bytes()
    );
    Ok(())
}
