//! Hostile ends through the top call: sources and sinks that fail at each of their calls, and files cut after each
//! byte.
use crate::answered::{bytes_of, joined, run_between, shown};
use crate::memory::{MemSink, MemSource};
use crate::stable_tests::{DEMOTED, REALISTIC};
use crate::status::Status;
use crate::sure::{SureSink, SureSource};
use clk_machine::OpenGate;
use clk_num::List;
use std::alloc::{AllocError, Global};
use std::sync::Wait;
use std::thread::Threads;

// One CPU that makes one local read.
const ONE_READ: &str =
    "version = 1\ncpus = 1\nstep = 10\ntick = 1000000\nnominal_khz = 1000000\nstable = false\n[reference]\nkhz = 1000000\n[[cpu]]\nscript = [\"local\"]\n";

// Runs a text whose source fails at one call. The answer is the status, and whether anything was written.
fn read_failing_at<R: Wait + Threads + Sync>(
    rt: &R,
    alloc: Global,
    text: &str,
    piece: usize,
    call: u64,
) -> Result<(Status, bool), AllocError> {
    let fails = List::from_vec(vec![in alloc; call]?);
    let mut source = MemSource::new(bytes_of(alloc, text)?, piece.max(1), fails);
    let mut sink = SureSink::new(List::with_room(alloc, 1)?);
    let status = run_between(rt, alloc, "run", &mut source, &mut sink, &OpenGate)?;
    Ok((status, !sink.bytes().is_empty()))
}

// At how many of its first calls a source may fail, with a read fault and nothing written.
fn failing_reads<R: Wait + Threads + Sync>(
    rt: &R,
    alloc: Global,
    text: &str,
    piece: usize,
) -> Result<u64, AllocError> {
    for call in 1..10_000 {
        if read_failing_at(rt, alloc, text, piece, call)? != (Status::ReadFault, false) {
            return Ok(call - 1);
        }
    }
    Ok(0)
}

// A text by its parts, the most bytes of a read, and how many reads it then takes, with the one that finds the end.
const READS: [(&[&str], usize, u64); 12] = [
    (&[ONE_READ], 1, 137),
    (&[ONE_READ], 7, 21),
    (&[ONE_READ], 16, 10),
    (&[ONE_READ], 64, 4),
    (&[DEMOTED], 1, 241),
    (&[DEMOTED], 7, 36),
    (&[DEMOTED], 16, 16),
    (&[DEMOTED], 64, 5),
    (REALISTIC, 1, 776),
    (REALISTIC, 7, 112),
    (REALISTIC, 16, 50),
    (REALISTIC, 64, 14),
];

#[test]
fn a_source_that_fails_at_any_call_is_a_read_fault(rt: HostRuntime) -> Result<(), AllocError> {
    for (file, piece, want) in &READS {
        let text = joined(rt.alloc(), file)?;
        let calls = failing_reads(&rt, rt.alloc(), text.as_str(), *piece)?;
        assert!(rt; calls == *want, "{calls} of {want} in pieces of {piece}");
    }
    Ok(())
}

// What the program answers to a text where the sink fails at one call; at call 0 it never fails.
fn write_failing_at<R: Wait + Threads + Sync>(
    rt: &R,
    alloc: Global,
    text: &str,
    piece: usize,
    call: u64,
) -> Result<String, AllocError> {
    let fails = List::from_vec(vec![in alloc; call]?);
    let mut source = SureSource::new(bytes_of(alloc, text)?);
    let mut sink = MemSink::new(List::with_room(alloc, 4_000_000)?, piece.max(1), fails);
    let status = run_between(rt, alloc, "run", &mut source, &mut sink, &OpenGate)?;
    shown(alloc, status, sink.bytes().items())
}

// Whether an answer is a write fault at this call of a sink, after a beginning of a trace that begins so: each call
// before it took some bytes, and at most a piece.
fn is_cut(answer: &str, head: &str, piece: u64, call: u64) -> bool {
    let calls = call.saturating_sub(1);
    match answer.strip_suffix("write fault") {
        Some(written) => {
            let len = written.len() as u64;
            calls <= len
                && len <= calls.saturating_mul(piece)
                && (head.starts_with(written) || written.starts_with(head))
        }
        None => false,
    }
}

// Whether a sink that takes the text's trace in such pieces may fail at each of its calls, and after them takes it
// whole.
fn is_cut_at_each_write<R: Wait + Threads + Sync>(
    rt: &R,
    alloc: Global,
    text: &str,
    piece: usize,
) -> Result<bool, AllocError> {
    let trace = write_failing_at(rt, alloc, text, piece, 0)?;
    for call in 1..10_000 {
        let answer = write_failing_at(rt, alloc, text, piece, call)?;
        if !is_cut(answer.as_str(), trace.as_str(), piece as u64, call) {
            return Ok(answer.as_str() == trace.as_str());
        }
    }
    Ok(false)
}

#[test]
fn a_sink_that_fails_at_any_call_leaves_a_beginning(rt: HostRuntime) -> Result<(), AllocError> {
    for piece in [1, 7, 16, 64] {
        for text in [ONE_READ, DEMOTED] {
            assert!(rt;
                is_cut_at_each_write(&rt, rt.alloc(), text, piece)?,
                "pieces of {piece}"
            );
        }
    }
    Ok(())
}

#[test]
fn a_fault_of_the_sink_leaves_a_beginning(rt: HostRuntime) -> Result<(), AllocError> {
    let answer = write_failing_at(&rt, rt.alloc(), ONE_READ, 16, 2)?;
    assert_eq!(rt; answer.as_str(), "trace 1\nepoch 0 write fault");
    Ok(())
}

// The first lines of each trace of the realistic machine.
const HEAD: &str =
    "trace 1\nepoch 0 0\nboot 1 0 2 48 0 20\nboot 3 0 4 96 0 40\nstart stable -20 20\nrun 1 1\n";

#[test]
fn a_sink_that_fails_cuts_a_realistic_trace(rt: HostRuntime) -> Result<(), AllocError> {
    let machine = joined(rt.alloc(), REALISTIC)?;
    for piece in [1, 7, 16, 64] {
        for call in [1, 2, 100, 2_000] {
            let answer = write_failing_at(&rt, rt.alloc(), machine.as_str(), piece, call)?;
            assert!(rt;
                is_cut(answer.as_str(), HEAD, piece as u64, call),
                "at {call} of {piece}"
            );
        }
    }
    Ok(())
}

// From which byte on a file that is cut there is answered so, until the next line.
const ONE_READ_CUTS: [(usize, &str); 21] = [
    (0, "refused 2 version"),
    (1, "refused 1"),
    (11, "refused 2 cpus"),
    (13, "refused 1"),
    (20, "refused 2 step"),
    (22, "refused 1"),
    (29, "refused 2 nominal_khz"),
    (32, "refused 1"),
    (39, "refused 2 nominal_khz"),
    (47, "refused 1"),
    (61, "refused 2 stable"),
    (69, "refused 1"),
    (82, "refused 2 reference"),
    (84, "refused 1"),
    (94, "refused 2 reference.khz"),
    (96, "refused 1"),
    (102, "refused 2 cpu"),
    (110, "refused 1"),
    (116, ""),
    (118, "refused 1"),
    (135, ""),
];

const DEMOTED_CUTS: [(usize, &str); 28] = [
    (0, "refused 2 version"),
    (1, "refused 1"),
    (11, "refused 2 cpus"),
    (13, "refused 1"),
    (20, "refused 2 step"),
    (22, "refused 1"),
    (29, "refused 2 nominal_khz"),
    (32, "refused 1"),
    (46, "refused 2 stable"),
    (54, "refused 1"),
    (66, "refused 2 reference"),
    (68, "refused 1"),
    (108, "refused 2 cpu"),
    (110, "refused 1"),
    (171, "refused 2 cpu"),
    (173, "refused 1"),
    (179, ""),
    (181, "refused 1"),
    (187, "refused 3 cpu[0].khz"),
    (190, ""),
    (195, "refused 1"),
    (204, "refused 2 source[0].rating"),
    (206, "refused 1"),
    (215, "refused 2 source[0].rating"),
    (217, "refused 1"),
    (226, "refused 2 source[0].margin"),
    (230, "refused 1"),
    (239, ""),
];

// The answer of a file that is cut at this byte.
fn answer_at<'a>(cuts: &[(usize, &'a str)], byte: usize) -> &'a str {
    let mut answer = "";
    for (first, line) in cuts {
        if *first <= byte {
            answer = *line;
        }
    }
    answer
}

// Whether the program answers so to these bytes, and writes just where the line is empty.
fn is_answered<R: Wait + Threads + Sync>(
    rt: &R,
    alloc: Global,
    cut: &[u8],
    want: &str,
) -> Result<bool, AllocError> {
    let mut source = SureSource::new(List::from_vec(Vec::from_slice(alloc, cut)?));
    let mut sink = SureSink::new(List::with_room(alloc, 1)?);
    let status = run_between(rt, alloc, "run", &mut source, &mut sink, &OpenGate)?;
    let line = status.to_string(alloc)?;
    Ok(line.as_str() == want && want.is_empty() != sink.bytes().is_empty())
}

// The first byte at which a file that is cut is answered otherwise; where none is, the length of the text.
fn first_other_cut<R: Wait + Threads + Sync>(
    rt: &R,
    alloc: Global,
    text: &str,
    cuts: &[(usize, &str)],
) -> Result<usize, AllocError> {
    for byte in 0..text.len() {
        let (cut, _) = text.as_bytes().split_at(byte);
        if !is_answered(rt, alloc, cut, answer_at(cuts, byte))? {
            return Ok(byte);
        }
    }
    Ok(text.len())
}

#[test]
fn a_file_cut_after_any_byte_is_answered_by_its_bytes(rt: HostRuntime) -> Result<(), AllocError> {
    let first = first_other_cut(&rt, rt.alloc(), ONE_READ, &ONE_READ_CUTS)?;
    let second = first_other_cut(&rt, rt.alloc(), DEMOTED, &DEMOTED_CUTS)?;
    assert_eq!(rt; (first, second), (ONE_READ.len(), DEMOTED.len()));
    Ok(())
}
