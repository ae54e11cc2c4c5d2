//! Worked runs and refusals through the top call.
use crate::answered::{DONE, Row, answers, answers_over, are_answered};
use crate::gates::Meeting;
use crate::status::{Refusal, Status};
use clk_machine::Place;
use std::alloc::{AllocError, Global};
use std::process::Abort;
use std::sync::Wait;
use std::thread::Threads;

// The lines that a file of one CPU at 1 GHz begins and goes on with; a script follows.
const FIRST: &str = "version = 1\ncpus = 1\nstep = 10\ntick = 1000000\n";

const ONE_GHZ: &str =
    "nominal_khz = 1000000\nstable = false\n[reference]\nkhz = 1000000\n[[cpu]]\n";

// The lines that every trace with step 10 begins with.
const HEAD: &str =
    "trace 1\nepoch 0 0\nboot 1 10 2 20 0 20\nstart percpu 0 10\nword 0 20\nthread 0 0\n";

// Worked scripts, and what follows the head of their traces.
const TRACES: [Row; 7] = [
    (
        &[FIRST, ONE_GHZ, "script = [\"local\"]\n"],
        &[
            HEAD,
            "0 local 3 30 0 30 20 10 10 20 30\nhistory 0 1\n0 0 20 30\nend 4\n",
        ],
    ),
    (
        &[FIRST, ONE_GHZ, "script = [\"local\", \"tick\"]\n"],
        &[
            HEAD,
            "0 local 3 30 0 30 20 10 10 20 30\n1 stamp 4 40 5 50 0 50\n1 local 6 60 0 60 50 40 10 30 60\nhistory 0 2\n0 0 20 30\n0 1 30 60\nend 7\n",
        ],
    ),
    (
        &[
            FIRST,
            ONE_GHZ,
            "script = [\"local\", \"tick\", \"pause 200000\", \"local\"]\n",
        ],
        &[
            HEAD,
            "0 local 3 30 0 30 20 10 10 20 30\n1 stamp 4 40 5 50 0 50\n1 local 6 60 0 60 50 40 10 30 60\n2 pause 7 200000\n3 local 200007 2000070 0 2000070 50 40 10 60 1000050\nhistory 0 3\n0 0 20 30\n0 1 30 60\n0 3 60 1000050\nend 200008\n",
        ],
    ),
    (
        &[FIRST, ONE_GHZ, "script = [\"update\", \"local\"]\n"],
        &[
            HEAD,
            "0 update 1 3 30 30\n1 local 4 40 1 40 20 10 10 20 40\nhistory 0 1\n0 1 20 40\nend 5\n",
        ],
    ),
    (
        &[
            FIRST,
            ONE_GHZ,
            "script = [\"update\", \"update\", \"local\"]\n",
        ],
        &[
            HEAD,
            "0 update 1 3 30 30\n1 update 2 4 40 40\n2 local 5 50 2 50 20 10 10 20 50\nhistory 0 1\n0 2 20 50\nend 6\n",
        ],
    ),
    (
        &[FIRST, ONE_GHZ, "script = [\"idle\"]\n"],
        &[
            HEAD,
            "0 local 3 30 0 30 20 10 10 20 30\n0 stamp 4 40 5 50 0 50\n0 local 6 60 0 60 50 40 10 30 60\nhistory 0 2\n0 0 20 30\n0 0 30 60\nend 7\n",
        ],
    ),
    (
        &[FIRST, ONE_GHZ, "script = []\n"],
        &[HEAD, "history 0 0\nend 3\n"],
    ),
];

#[test]
fn traces_are_those_of_the_worked_runs(rt: HostRuntime) -> Result<(), AllocError> {
    are_answered(&rt, rt.alloc(), &TRACES)
}

// A base near the end of the range, which the first version does not know.
const BASE: &str = "base = 9223372036854775782\ncpus = 1\nstep = 10\ntick = 1000000\n";

const LOCAL: &str = "script = [\"local\"]\n";

const BASES: [Row; 2] = [
    (
        &["version = 2\n", BASE, ONE_GHZ, LOCAL],
        &[
            "trace 1\nepoch 0 0\nboot 1 10 2 20 0 9223372036854775802\nstart percpu 0 9223372036854775792\nword 0 9223372036854775802\nthread 0 0\n0 local 3 30 0 -9223372036854775804 9223372036854775802 10 9223372036854775792 9223372036854775802 -9223372036854775804\nhistory 0 1\n0 0 9223372036854775802 -9223372036854775804\nend 4\n",
        ],
    ),
    (&["version = 1\n", BASE, ONE_GHZ, LOCAL], &["refused 2 ?"]),
];

#[test]
fn a_base_wraps_the_clock(rt: HostRuntime) -> Result<(), AllocError> {
    are_answered(&rt, rt.alloc(), &BASES)
}

// Files with other rates, delays and jumps: the lines before the nominal rate, and those between it and the CPU.
const OTHER: &str = "version = 1\ncpus = 1\nstep = 10\n";

const REFERENCE: &str = "[reference]\nkhz = 1000000\n[[cpu]]\n";

const COUNTERS: [Row; 3] = [
    (
        &[
            OTHER,
            "nominal_khz = 2400000\nstable = false\n",
            REFERENCE,
            "script = [\"local\"]\n",
        ],
        &[
            "trace 1\nepoch 0 0\n",
            "boot 1 10 2 48 0 20\nstart percpu 0 10\nword 0 20\nthread 0 0\n0 local 3 72 0 30 20 10 10 20 30\nhistory 0 1\n0 0 20 30\nend 4\n",
        ],
    ),
    (
        &[
            OTHER,
            "nominal_khz = 1000000\nstable = false\ndelay = [{ ticket = 3, ns = 5 }]\n",
            REFERENCE,
            "script = [\"local\"]\n",
        ],
        &[
            "trace 1\nepoch 0 0\n",
            "boot 1 10 2 20 0 20\nstart percpu 0 10\nword 0 20\nthread 0 0\n0 local 3 35 0 35 20 10 10 20 35\nhistory 0 1\n0 0 20 35\nend 4\n",
        ],
    ),
    (
        &[
            OTHER,
            "nominal_khz = 1000000\nstable = false\n",
            REFERENCE,
            "jumps = [[35, -30]]\nscript = [\"local\", \"remote 0\"]\n",
        ],
        &[
            "trace 1\nepoch 0 0\n",
            "boot 1 10 2 20 0 20\nstart percpu 0 10\nword 0 20\nthread 0 0\n0 local 3 30 0 30 20 10 10 20 30\n1 local 4 10 0 10 20 10 10 30 30\nhistory 0 2\n0 0 20 30\n0 1 30 30\nend 5\n",
        ],
    ),
];

#[test]
fn counters_are_those_of_the_file(rt: HostRuntime) -> Result<(), AllocError> {
    are_answered(&rt, rt.alloc(), &COUNTERS)
}

// Files at a limit, and the line that the program prints or the end of the trace.
const LIMITS: [Row; 13] = [
    (
        &[FIRST, ONE_GHZ, "script = [\"pause 16777213\"]\n"],
        &["trace 1\n", "*\nend 16777216\n"],
    ),
    (
        &[FIRST, ONE_GHZ, "script = [\"pause 16777214\"]\n"],
        &["refused 6 16777217"],
    ),
    (
        &[
            "version = 2\ncpus = 1\nstep = 10\ntick = 1000000\n",
            ONE_GHZ,
            "script = [\"pause 16777216\", \"pause 16777216\", \"pause 16777216\", \"pause 16777213\"]\n",
        ],
        &["trace 1\n", "*\nend 67108864\n"],
    ),
    (
        &[
            "version = 2\ncpus = 1\nstep = 10\ntick = 1000000\n",
            ONE_GHZ,
            "script = [\"pause 16777216\", \"pause 16777216\", \"pause 16777216\", \"pause 16777214\"]\n",
        ],
        &["refused 6 67108865"],
    ),
    (
        &[
            "version = 2\ncpus = 1\nstep = 10\ntick = 1000000\n",
            ONE_GHZ,
            "script = [\"pause 16777217\"]\n",
        ],
        &["refused 3 cpu[0].script[0]"],
    ),
    (
        &[FIRST, ONE_GHZ, "script = [\"pause 0\"]\n"],
        &["refused 3 cpu[0].script[0]"],
    ),
    (
        &[
            "version = 3\ncpus = 1\nstep = 1\ntick = 1\n",
            ONE_GHZ,
            "script = []\n",
        ],
        &["refused 3 version"],
    ),
    (
        &[
            "version = 1\ncpus = 1\nstep = 1\ntick = 1\n",
            ONE_GHZ,
            "script = [\"tick\"]\n",
        ],
        &["trace 1\n", "*\nend 6\n"],
    ),
    (
        &[
            "version = 1\ncpus = 1\nstep = 16384\ntick = 1073741824\n",
            ONE_GHZ,
            "script = [\"tick\"]\n",
        ],
        &["trace 1\n", "*\nend 6\n"],
    ),
    (
        &[
            "version = 1\ncpus = 1\nstep = 0\ntick = 1\n",
            ONE_GHZ,
            "script = []\n",
        ],
        &["refused 3 step"],
    ),
    (
        &[
            "version = 1\ncpus = 1\nstep = 16385\ntick = 1\n",
            ONE_GHZ,
            "script = []\n",
        ],
        &["refused 3 step"],
    ),
    (
        &[
            "version = 1\ncpus = 1\nstep = 1\ntick = 0\n",
            ONE_GHZ,
            "script = []\n",
        ],
        &["refused 3 tick"],
    ),
    (
        &[
            "version = 1\ncpus = 1\nstep = 1\ntick = 1073741825\n",
            ONE_GHZ,
            "script = []\n",
        ],
        &["refused 3 tick"],
    ),
];

#[test]
fn limits_are_those_of_the_format(rt: HostRuntime) -> Result<(), AllocError> {
    are_answered(&rt, rt.alloc(), &LIMITS)
}

// A text that is so many pieces.
fn repeated(alloc: Global, piece: &str, count: u32) -> Result<String, AllocError> {
    let mut text = String::new(alloc);
    for _ in 0..count {
        text.push_str(piece)?;
    }
    Ok(text)
}

// Asserts that the program answers so to a file with so many pieces between its head and its end.
fn repeated_answers<R: Abort + Wait + Threads + Sync>(
    rt: &R,
    alloc: Global,
    head: &str,
    pieces: (&str, u32),
    end: &str,
    want: &[&str],
) -> Result<(), AllocError> {
    let (piece, count) = pieces;
    let text = repeated(alloc, piece, count)?;
    answers(rt, alloc, &[head, text.as_str(), end], want)
}

// A file up to the words of its script.
const UP_TO_WORDS: &str =
    "version = 1\ncpus = 1\nstep = 10\ntick = 1000000\nnominal_khz = 1000000\nstable = false\n[reference]\nkhz = 1000000\n[[cpu]]\nscript = [";

// How many words a script has, and what the program answers.
const WORDS: [(u32, &[&str]); 2] = [(65_536, DONE), (65_537, &["refused 3 cpu[0].script"])];

#[test]
fn scripts_have_at_most_65536_words(rt: HostRuntime) -> Result<(), AllocError> {
    for (count, want) in &WORDS {
        let pieces = ("\"local\",", *count);
        repeated_answers(&rt, rt.alloc(), UP_TO_WORDS, pieces, "]\n", want)?;
    }
    Ok(())
}

// Scripts over a gate, what the program answers, answers_over, and the reading before each word that passes the gate.
const GATED: [(&[&str], &[&str], &[u64]); 2] = [
    (
        &[
            FIRST,
            ONE_GHZ,
            "script = [\"local\", \"tick\", \"pause 5\", \"local\"]\n",
        ],
        DONE,
        &[0, 30, 60, 60],
    ),
    (
        &[FIRST, ONE_GHZ, "script = [\"local\", \"locl\"]\n"],
        &["refused 4 cpu[0].script[1]"],
        &[],
    ),
];

// Asserts that the program answers so over a gate, and that it passes the gate with these readings.
fn passes_with<R: Abort + Wait + Threads + Sync>(
    rt: &R,
    alloc: Global,
    file: &[&str],
    want: &[&str],
    given: &[u64],
) -> Result<(), AllocError> {
    let gate = Meeting::new(0);
    answers_over(rt, alloc, file, &gate, want)?;
    assert!(rt; gate.gave_just(given));
    Ok(())
}

#[test]
fn the_gate_is_given_the_reading_before_each_word(rt: HostRuntime) -> Result<(), AllocError> {
    for (file, want, given) in &GATED {
        passes_with(&rt, rt.alloc(), file, want, given)?;
    }
    Ok(())
}

// What follows the first line of each file that is refused.
const STABLE: &str = "step = 10\nnominal_khz = 1000000\nreference.khz = 1000000\nstable = false\n";

// How a file goes on that is refused, and what the program answers in version 1 and in version 2.
const REFUSALS: [(&str, &str, &str); 14] = [
    ("cpu = [{}]", "refused 2 cpus", "refused 2 cpus"),
    (
        "cpus = 1\ntick = 0\ncpu = [{}]",
        "refused 3 tick",
        "refused 3 tick",
    ),
    (
        "cpus = 1\ntick = 0\ncolour = 1\ncpu = [{}]",
        "refused 2 ?",
        "refused 2 ?",
    ),
    (
        "cpus = 1\ncpu = [{ script = [\"local\", \"locl\"] }]",
        "refused 4 cpu[0].script[1]",
        "refused 4 cpu[0].script[1]",
    ),
    (
        "cpus = 2\ncpu = [{ script = [\"remote 9\"] }, {}]",
        "refused 5 cpu[0].script[0]",
        "refused 5 cpu[0].script[0]",
    ),
    (
        "cpus = 2\ncpu = [{}, { speed = 1 }]",
        "refused 2 cpu[1].?",
        "refused 2 cpu[1].?",
    ),
    (
        "cpus = 1\ncpu = [1]",
        "refused 3 cpu[0]",
        "refused 3 cpu[0]",
    ),
    ("cpus = 1\ncpu = 1", "refused 3 cpu", "refused 3 cpu"),
    (
        "cpus = 1\ncpu = [{ jumps = [[1, 1], [0, 1]] }]",
        "refused 3 cpu[0].jumps[1]",
        "refused 3 cpu[0].jumps[1]",
    ),
    (
        "cpus = 1\ncpu = [{ repeat = 4, script = [\"pause 16777216\"] }]",
        "refused 6 67108867",
        "refused 6 67108867",
    ),
    (
        "cpus = 1\nbase = true\ncpu = [{}]",
        "refused 2 ?",
        "refused 3 base",
    ),
    (
        "cpus = 1\ncpu = [{ socket = 64 }]",
        "refused 2 cpu[0].?",
        "refused 3 cpu[0].socket",
    ),
    (
        "cpus = 1\ncpu = [{}]\nbringup = { adjust = true, timeout_us = 0, turns = 0, first_us = -1 }",
        "refused 2 bringup.?",
        "refused 3 bringup.first_us",
    ),
    ("cpus = 17\ncpu = [{}]", "refused 3 cpus", "refused 3 cpu"),
];

// Asserts that a file of a version that goes on so is refused with this line.
fn is_refused<R: Abort + Wait + Threads + Sync>(
    rt: &R,
    alloc: Global,
    version: &str,
    rest: &str,
    want: &str,
) -> Result<(), AllocError> {
    answers(rt, alloc, &[version, STABLE, rest, "\n"], &[want])
}

#[test]
fn refusals_name_their_place(rt: HostRuntime) -> Result<(), AllocError> {
    for (rest, first, second) in &REFUSALS {
        is_refused(&rt, rt.alloc(), "version = 1\n", rest, first)?;
        is_refused(&rt, rt.alloc(), "version = 2\n", rest, second)?;
    }
    Ok(())
}

// What a file begins with, how many spaces follow, and what the program answers.
const SPACES: [(&str, u32, &[&str]); 3] = [
    ("", 1_048_577, &["refused 0"]),
    ("version = ", 0, &["refused 1"]),
    ("", 0, &["refused 2 version"]),
];

#[test]
fn what_is_no_toml_or_too_long_is_refused(rt: HostRuntime) -> Result<(), AllocError> {
    for (head, count, want) in &SPACES {
        repeated_answers(&rt, rt.alloc(), head, (" ", *count), "", want)?;
    }
    Ok(())
}

// Places in a file: its version, the script of CPU 0, and the second word of that script.
const VERSION: Place = Place {
    row: 1,
    entry: 0,
    item: 0,
};

const SCRIPT: Place = Place {
    row: 18,
    entry: 1,
    item: 0,
};

const SECOND_WORD: Place = Place {
    row: 18,
    entry: 1,
    item: 2,
};

// Answers, their exit statuses, and the lines that the program prints.
const ANSWERS: [(Status, u8, &str); 11] = [
    (Status::Done, 0, ""),
    (
        Status::Usage,
        1,
        "usage: clock_tool run | rate HZ BITS | make N",
    ),
    (Status::ReadFault, 2, "read fault"),
    (Status::Refused(Refusal::TooLong), 3, "refused 0"),
    (Status::Refused(Refusal::NotToml), 3, "refused 1"),
    (
        Status::Refused(Refusal::Key(VERSION)),
        3,
        "refused 2 version",
    ),
    (
        Status::Refused(Refusal::Value(SCRIPT)),
        3,
        "refused 3 cpu[0].script",
    ),
    (
        Status::Refused(Refusal::Word(SECOND_WORD)),
        3,
        "refused 4 cpu[0].script[1]",
    ),
    (
        Status::Refused(Refusal::Tickets { needed: 16_777_217 }),
        3,
        "refused 6 16777217",
    ),
    (Status::WriteFault, 4, "write fault"),
    (Status::Memory, 5, "out of memory"),
];

#[test]
fn answers_have_their_exit_status_and_text(rt: HostRuntime) -> Result<(), AllocError> {
    for (status, code, text) in ANSWERS {
        let line = status.to_string(rt.alloc())?;
        assert!(rt;
            (status.exit_code(), line.as_str()) == (code, text),
            "at {text}"
        );
    }
    Ok(())
}
