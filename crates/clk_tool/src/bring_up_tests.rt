//! Bring-ups through the top call: what they find, and that the two sides of a warp run really meet.
ghost use Rattle.clk_threads.specs.Booting.{IsBooted};

use crate::answered::{Row, answer_to, are_answered, bytes_of, is_one, is_so, joined};
use crate::gates::{Barrier, Meeting};
use crate::run::read_run;
use crate::sure::SureSource;
use crate::thread_tests::TRIES;
use clk_adjust::bring_up_but;
use clk_machine::{Gate, OpenGate};
use clk_record::{BroughtUp, UpOutcome};
use clk_threads::Booted;
use std::alloc::{AllocError, Global};
use std::process::Abort;
use std::sync::Wait;
use std::sync::atomic::{AtomicU64, Ordering};
use std::thread::Threads;

// The text of a trace, with the readings of each run told by their number alone.
fn brief(alloc: Global, trace: &str) -> Result<String, AllocError> {
    let mut text = String::new(alloc);
    let mut readings = 0u64;
    for line in trace.split_inclusive('\n') {
        if line.starts_with("s ") || line.starts_with("r ") {
            readings = readings.saturating_add(1);
        } else {
            push_line(alloc, &mut text, readings, line)?;
            readings = 0;
        }
    }
    Ok(text)
}

// Appends a line, and before it the number of the readings that came, if there are any.
fn push_line(
    alloc: Global,
    text: &mut String,
    readings: u64,
    line: &str,
) -> Result<(), AllocError> {
    if readings > 0 {
        let count = format!(in alloc; "{readings} readings\n")?;
        text.push_str(count.as_str())?;
    }
    text.push_str(line)
}

// What the program answers to a file over a gate, with the readings of each run told by their number alone.
fn brief_answer<R: Wait + Threads + Sync, G: Gate + Sync>(
    rt: &R,
    alloc: Global,
    file: &[&str],
    gate: &G,
) -> Result<String, AllocError> {
    let answer = answer_to(rt, alloc, file, gate)?;
    brief(alloc, answer.as_str())
}

// A machine file of two CPUs without words, up to its nominal rate.
const TWO_CPUS: &str = "version = 1\ncpus = 2\nstep = 10\nnominal_khz = ";

// What follows the rate where the clock starts per CPU, and where it starts stable, up to the bring-up.
const PER_CPU: &str = "\nstable = false\nreference.khz = 1000000\n[bringup]\n";

const STABLE: &str = "\nstable = true\nreference.khz = 1000000\n[bringup]\n";

// The two CPUs.
const TOGETHER: &str = "[[cpu]]\n[[cpu]]\noffset = 0\n";

const APART: &str = "[[cpu]]\n[[cpu]]\noffset = 300\n";

const CLEAN: &[&str] = &[
    TWO_CPUS,
    "1000000",
    PER_CPU,
    "adjust = true\ntimeout_us = 0\nturns = 0\n",
    TOGETHER,
];

const CLEAN_HEAD: &str = "trace 1\nepoch 0 0\nboot 1 10 2 20 0 20\nstart percpu 0 10\nrun 1 1\n";

const CLEAN_REST: &str =
    "\ndone 0 0 0 0 0 passed\ncpu 1 0 synced\nword 0 20\nword 1 20\nthread 0 0\nthread 1 1\nhistory 0 0\nhistory 1 0\nend 7\n";

// The readings of a clean bring-up: their values, and that there is each kind of each side.
const CLEAN_READINGS: [Row; 5] = [
    (
        CLEAN,
        &[
            CLEAN_HEAD, "* 3 30\n", "* 4 40\n", "* 5 50\n", "* 6 60", CLEAN_REST,
        ],
    ),
    (CLEAN, &["trace 1\n", "*\ns a ", "*"]),
    (CLEAN, &["trace 1\n", "*\nr a ", "*"]),
    (CLEAN, &["trace 1\n", "*\ns b ", "*"]),
    (CLEAN, &["trace 1\n", "*\nr b ", "*"]),
];

#[test]
fn a_clean_bring_up(rt: HostRuntime) -> Result<(), AllocError> {
    are_answered(&rt, rt.alloc(), &CLEAN_READINGS)
}

// The first CPU of a socket is tested for longer.
pub(crate) const SOCKETS: &[&str] = &[
    "version = 2\ncpus = 3\nstep = 10\nnominal_khz = 1000000\nstable = false\nreference.khz = 1000000\n[bringup]\nadjust = true\ntimeout_us = 0\nfirst_us = 1000\nturns = 0\n[[cpu]]\nsocket = 0\n[[cpu]]\nsocket = 0\n[[cpu]]\nsocket = 1\n",
];

const FOUR: &str = "[[cpu]]\n[[cpu]]\n[[cpu]]\n[[cpu]]\n";

// Bring-ups with their readings told by number: a clean one, one of two sockets, one with the most turns (each side has
// 4,105 turns, and a start reading before them), and one of 16 CPUs, which may need the most tickets and memory, and in
// which each loop ends by its time at once.
const OPEN: [Row; 4] = [
    (CLEAN, &[CLEAN_HEAD, "4 readings", CLEAN_REST]),
    (
        SOCKETS,
        &[
            "trace 1\n",
            "*\nrun 1 1\n4 readings\n",
            "*\ncpu 1 0 synced\nrun 2 1\n20 readings\n",
            "*\ncpu 2 0 synced\nword 0 ",
            "*\nend 27\n",
        ],
    ),
    (
        &[
            TWO_CPUS,
            "1000000",
            PER_CPU,
            "adjust = true\ntimeout_us = 1000000\nturns = 4096\n",
            TOGETHER,
        ],
        &[
            "trace 1\n",
            "*\nrun 1 1\n8212 readings\n",
            "*\ncpu 1 0 synced\nword 0 20\n",
            "*\nend 8215\n",
        ],
    ),
    (
        &[
            "version = 1\ncpus = 16\nstep = 10\nnominal_khz = 1000000",
            PER_CPU,
            "adjust = true\ntimeout_us = 0\nturns = 4096\n",
            FOUR,
            FOUR,
            FOUR,
            FOUR,
        ],
        &[
            "trace 1\n",
            "*\nrun 15 1\n4 readings\n",
            "*\ncpu 15 0 synced\nword 0 20\n",
            "*\nhistory 15 0\nend 63\n",
        ],
    ),
];

#[test]
fn numbers_of_readings(rt: HostRuntime) -> Result<(), AllocError> {
    for (file, want) in &OPEN {
        let answer = brief_answer(&rt, rt.alloc(), file, &OpenGate)?;
        is_so(&rt, answer.as_str(), want);
    }
    Ok(())
}

// CPU 1 is set back by 290 cycles, and then read at one of two tickets.
const ADJUSTED: [&[&str]; 2] = [
    &[
        "trace 1\n",
        "*\ncpu 1 -290 synced\nword 0 20\n",
        "*\nthread 1 1\n0 local 43 440 0 440 20 10 10 20 440\n",
        "*\nend 45\n",
    ],
    &[
        "trace 1\n",
        "*\ncpu 1 -290 synced\nword 0 20\n",
        "*\nthread 1 1\n0 local 44 450 0 450 20 10 10 20 450\n",
        "*\nend 45\n",
    ],
];

// Bring-ups in which CPU 1 is 300 cycles ahead and the sides go turn by turn: the file, and what the program may
// answer.
const BESIDE: [(&[&str], &[&[&str]]); 4] = [
    // A ticket takes 24 cycles: each fall is one of 276, at CPU 0.
    (
        &[
            TWO_CPUS,
            "2400000",
            PER_CPU,
            "adjust = true\ntimeout_us = 1000000\nturns = 16\n",
            APART,
        ],
        &[&[
            "trace 1\n",
            "*\nrun 1 1\n52 readings\n",
            "* 276 0 276 0 again -276\nrun 1 2\n52 readings\ndone 0 0 0 0 0 passed\ncpu 1 -276 synced\nword 0 ",
            "*\nend 107\n",
        ]],
    ),
    // A ticket takes 10 cycles.
    (
        &[
            TWO_CPUS,
            "1000000",
            PER_CPU,
            "adjust = true\ntimeout_us = 1000000\nturns = 0\n",
            "[[cpu]]\nscript = [\"local\"]\n[[cpu]]\noffset = 300\nscript = [\"local\"]\n",
        ],
        &ADJUSTED,
    ),
    // Without the register the clock, which starts stable, is demoted before the scripts.
    (
        &[
            TWO_CPUS,
            "2400000",
            STABLE,
            "adjust = false\ntimeout_us = 1000000\nturns = 16\n",
            APART,
        ],
        &[&[
            "trace 1\n",
            "*failed\ncpu 1 0 failed\ndemote 57 570 58 1392 0 580 10 580 0\nword 0 580\nword 1 580\nthread 0 0\nthread 1 1\nhistory 0 0\nhistory 1 0\nend 59\n",
        ]],
    ),
    // A failed bring-up of a clock that starts per CPU demotes nothing, and the CPUs after it are skipped.
    (
        &[
            "version = 1\ncpus = 3\nstep = 10\nnominal_khz = 1000000",
            PER_CPU,
            "adjust = false\ntimeout_us = 1000000\nturns = 0\n",
            "[[cpu]]\n[[cpu]]\noffset = 300\n[[cpu]]\noffset = 300\n",
        ],
        &[&[
            "trace 1\n",
            "* 290 0 290 0 failed\ncpu 1 0 failed\ncpu 2 0 skipped\nword 0 20\nword 1 20\nword 2 20\n",
            "*\nend 23\n",
        ]],
    ),
];

// Asserts that the program, where the sides go turn by turn, answers as one of these.
fn beside_answers<R: Abort + Wait + Threads + Sync>(
    rt: &R,
    alloc: Global,
    file: &[&str],
    wants: &[&[&str]],
) -> Result<(), AllocError> {
    let gate = Barrier::new();
    let answer = brief_answer(rt, alloc, file, &gate)?;
    is_one(rt, answer.as_str(), wants);
    assert!(rt; gate.all_met());
    Ok(())
}

#[test]
fn a_cpu_is_ahead(rt: HostRuntime) -> Result<(), AllocError> {
    for (file, wants) in &BESIDE {
        beside_answers(&rt, rt.alloc(), file, wants)?;
    }
    Ok(())
}

// Whether each turn of a side was given the side's reading before it. A counter rises by 10 with each ticket.
fn were_given(
    alloc: Global,
    trace: &str,
    side: &str,
    notes: &[AtomicU64; 9],
) -> Result<bool, AllocError> {
    let mut rest = trace;
    for note in notes {
        let last = note.load(Ordering::SeqCst);
        let reading = format!(in alloc; "{side}{} {last}\n", last / 10)?;
        match rest.split_once(reading.as_str()) {
            Some((before, after)) if !before.contains(side) => rest = after,
            _ => return Ok(false),
        }
    }
    Ok(true)
}

// The sides meet before their first turns, and then go on as they may.
const MEETING: [&str; 5] = [
    TWO_CPUS,
    "1000000",
    PER_CPU,
    "adjust = true\ntimeout_us = 1000000\nturns = 0\n",
    TOGETHER,
];

const MET: [&str; 3] = ["trace 1\n", "*\nrun 1 1\n20 readings\n", "*\nend 23\n"];

// Whether the sides of a trace met at a gate, and each turn of both was given the reading before it.
fn have_met(alloc: Global, gate: &Meeting, trace: &str) -> Result<bool, AllocError> {
    let [first, second] = gate.notes();
    Ok(
        gate.all_met()
            && were_given(alloc, trace, " a ", first)?
            && were_given(alloc, trace, " b ", second)?,
    )
}

#[test]
fn two_sides_meet(rt: HostRuntime) -> Result<(), AllocError> {
    let gate = Meeting::new(2);
    let trace = answer_to(&rt, rt.alloc(), &MEETING, &gate)?;
    let told = brief(rt.alloc(), trace.as_str())?;
    is_so(&rt, told.as_str(), &MET);
    assert!(rt; have_met(rt.alloc(), &gate, trace.as_str())?);
    Ok(())
}

// Each side ends at its turn 72, the first one past 64 at which it looks whether to end.
const TAKING_TURNS: [&str; 5] = [
    TWO_CPUS,
    "1000000",
    PER_CPU,
    "adjust = true\ntimeout_us = 1000000\nturns = 64\n",
    TOGETHER,
];

// How often a turn is that of another side than the turn before it.
fn changes_of_side(trace: &str) -> u32 {
    let mut changes: u32 = 0;
    let mut before = None;
    for line in trace.lines() {
        if let [b'r', b' ', side, ..] = line.as_bytes() {
            if before.is_some_and(|it| it != *side) {
                changes = changes.saturating_add(1);
            }
            before = Some(*side);
        }
    }
    changes
}

#[test]
fn sides_take_turns(rt: HostRuntime) -> Result<(), AllocError> {
    let mut most = 0;
    for _ in 0..TRIES {
        let trace = answer_to(&rt, rt.alloc(), &TAKING_TURNS, &OpenGate)?;
        assert!(rt; trace.ends_with("history 1 0\nend 151\n"));
        most = most.max(changes_of_side(trace.as_str()));
    }
    assert!(rt; most >= 32, "{most} changes of side at most");
    Ok(())
}

// Brings the CPUs of a booted machine up, but one.
fn up_but<R: Wait + Threads + Sync>(
    rt: &R,
    alloc: Global,
    mut booted: Booted,
    but: u32,
) -> Result<BroughtUp, AllocError>
    requires { IsBooted booted.machine booted }
{
    bring_up_but(
        rt,
        alloc,
        &booted.machine,
        &booted.tickets,
        &mut booted.time,
        but,
        &OpenGate,
    )
}

// Whether CPU 1 is passed over and CPU 2 is brought up.
fn passes_cpu_1(up: &BroughtUp) -> bool {
    match up.cpus.items() {
        [first, second] => {
            first.outcome == UpOutcome::Untested
                && second.outcome == UpOutcome::Synced
                && !up.failed
        }
        _ => false,
    }
}

// Whether a bring-up of the file passes CPU 1 over.
fn is_passed_over<R: Wait + Threads + Sync>(
    rt: &R,
    alloc: Global,
    file: &[&str],
) -> Result<bool, AllocError> {
    let text = joined(alloc, file)?;
    let mut source = SureSource::new(bytes_of(alloc, text.as_str())?);
    match read_run(alloc, &mut source) {
        Ok(booted) => Ok(passes_cpu_1(&up_but(rt, alloc, booted, 1)?)),
        Err(_) => Ok(false),
    }
}

#[test]
fn a_bring_up_passes_a_cpu_over(rt: HostRuntime) -> Result<(), AllocError> {
    assert!(rt; is_passed_over(&rt, rt.alloc(), SOCKETS)?);
    Ok(())
}
