//! The command `rate` by its worked rows and at the edges of its words.
use crate::answered::{are_answered_lines, shown};
use crate::memory::MemSink;
use crate::rate::rate_command;
use clk_num::List;
use std::alloc::{AllocError, Global};

// Command lines, and what they write.
const RATES: [(&str, &[&str]); 4] = [
    (
        "rate 1000000000 64",
        &["mult 2097152\nshift 21\nwrap 4398046511103\n"],
    ),
    (
        "rate 24000000 56",
        &["mult 87381333\nshift 21\nwrap 4398046511097\n"],
    ),
    (
        "rate 2400000000 64",
        &["mult 1747627\nshift 22\nwrap 2199023255551\n"],
    ),
    (
        "rate 1 8",
        &["mult 4000000000\nshift 2\nwrap 127500000000\n"],
    ),
];

#[test]
fn rates_are_those_of_the_worked_rows(rt: HostRuntime) -> Result<(), AllocError> {
    are_answered_lines(&rt, rt.alloc(), &RATES)
}

// What is printed where the words are none of the forms, and what the lines of a rate are like.
const USAGE: &[&str] = &["usage: clock_tool run | rate HZ BITS | make N"];

const RATE: &[&str] = &["mult ", "*\nshift ", "*\nwrap ", "*\n"];

// Command lines at the edges of the forms, and their answers.
const LINES: [(&str, &[&str]); 21] = [
    ("rate 0 64", USAGE),
    ("rate 01 64", USAGE),
    ("rate +1 64", USAGE),
    ("rate 4294967296 64", USAGE),
    ("rate 4294967295 64", RATE),
    ("rate 5 0", USAGE),
    ("rate 5 1", RATE),
    ("rate 5 65", USAGE),
    ("rate 5 0x8", USAGE),
    ("rate 5 64 64", USAGE),
    ("rate 5", USAGE),
    ("Rate 5 64", USAGE),
    ("make x", USAGE),
    ("make 65536", USAGE),
    ("make 01", USAGE),
    ("make", USAGE),
    ("make 1 1", USAGE),
    ("run x", USAGE),
    ("Run", USAGE),
    ("--help", USAGE),
    ("", USAGE),
];

#[test]
fn words_beside_the_forms_are_usage(rt: HostRuntime) -> Result<(), AllocError> {
    are_answered_lines(&rt, rt.alloc(), &LINES)
}

// What a sink whose second call fails leaves of a rate, and how many of its calls failed.
fn cut_rate(alloc: Global) -> Result<(String, u64), AllocError> {
    let fails = List::from_vec(vec![in alloc; 2u64]?);
    let mut sink = MemSink::new(List::with_room(alloc, 100)?, 16, fails);
    let status = rate_command(1_000_000_000, 64, &mut sink);
    Ok((shown(alloc, status, sink.bytes().items())?, sink.faults()))
}

#[test]
fn a_fault_of_the_sink_leaves_a_beginning_of_the_rate(rt: HostRuntime) -> Result<(), AllocError> {
    let (answer, faults) = cut_rate(rt.alloc())?;
    assert!(rt; (answer.as_str(), faults) == ("mult 2097152\nshiwrite fault", 1));
    Ok(())
}
