//! The command `make` by its worked rows, over a gate that counts, and with a sink that fails.
use crate::answered::{answer_of, are_answered_lines, is_so, shown};
use crate::gates::Meeting;
use crate::make::make_command;
use crate::memory::MemSink;
use clk_machine::OpenGate;
use clk_num::List;
use std::alloc::{AllocError, Global};
use std::sync::Wait;
use std::thread::Threads;

// The lines of the machine of 0.
const FIRST: &str = "machine 0\ncpus 2\nreaders 0\nwords 8192\ntickets 18947\nsteps 9216\n";

// Command lines, and what they write.
const MADE: [(&str, &[&str]); 3] = [
    ("make 0", &[FIRST]),
    (
        "make 1",
        &["machine 1\ncpus 3\nreaders 1\nwords 14336\ntickets 26627\nsteps 16896\n"],
    ),
    (
        "make 14",
        &["machine 14\ncpus 16\nreaders 2\nwords 69632\ntickets 139267\nsteps 79872\n"],
    ),
];

#[test]
fn made_machines_are_those_of_the_worked_rows(rt: HostRuntime) -> Result<(), AllocError> {
    are_answered_lines(&rt, rt.alloc(), &MADE)
}

#[test]
fn each_script_word_passes_the_gate(rt: HostRuntime) -> Result<(), AllocError> {
    let gate = Meeting::new(0);
    let answer = answer_of(&rt, rt.alloc(), "make 0", "", &gate)?;
    is_so(&rt, answer.as_str(), &[FIRST]);
    assert_eq!(rt; gate.passes(), 8_192);
    Ok(())
}

// What a sink whose second call fails leaves of the sizes, and how many of its calls failed.
fn cut_sizes<R: Wait + Threads + Sync>(rt: &R, alloc: Global) -> Result<(String, u64), AllocError> {
    let fails = List::from_vec(vec![in alloc; 2u64]?);
    let mut sink = MemSink::new(List::with_room(alloc, 100)?, 16, fails);
    let status = make_command(rt, alloc, 0, &mut sink, &OpenGate);
    Ok((shown(alloc, status, sink.bytes().items())?, sink.faults()))
}

#[test]
fn a_fault_of_the_sink_leaves_a_beginning_of_the_sizes(rt: HostRuntime) -> Result<(), AllocError> {
    let (answer, faults) = cut_sizes(&rt, rt.alloc())?;
    assert!(rt; (answer.as_str(), faults) == ("machine 0\ncpus 2write fault", 1));
    Ok(())
}
