//! For the tests: what the program answers over memory, and what its answers are compared with.
use crate::source::Source;
use crate::status::Status;
use crate::sure::{SureSink, SureSource};
use crate::tool::clock_tool;
use clk_machine::{Gate, OpenGate};
use clk_num::List;
use clk_trace::Sink;
use std::alloc::{AllocError, Global};
use std::process::Abort;
use std::sync::Wait;
use std::thread::Threads;

// A machine file by its parts, and what the program answers by its parts, as `is_like` reads them.
pub(crate) type Row = (&'static [&'static str], &'static [&'static str]);

// An answer of which no more is said than that a whole trace was written, and no line printed.
pub(crate) const DONE: &[&str] = &["trace 1\nepoch 0 0\nboot ", "*\nend ", "*\n"];

// The most bytes of a trace that a test keeps.
const ROOM: usize = 6_000_000;

// The text of these parts.
pub(crate) fn joined(alloc: Global, parts: &[&str]) -> Result<String, AllocError> {
    let mut text = String::new(alloc);
    for part in parts {
        text.push_str(part)?;
    }
    Ok(text)
}

// The bytes of a text.
pub(crate) fn bytes_of(alloc: Global, text: &str) -> Result<List<u8>, AllocError> {
    Ok(List::from_vec(Vec::from_slice(alloc, text.as_bytes())?))
}

// Whether a text is these parts, one after the other. Where a part begins with a star, any text may stand before it, up
// to where the part first stands; a star alone is any text to the end.
pub(crate) fn is_like(text: &str, parts: &[&str]) -> bool {
    let mut rest = text;
    for part in parts {
        match after(rest, part) {
            Some(left) => rest = left,
            None => return false,
        }
    }
    rest.is_empty()
}

// Runs the program with the words of a line, between these ends and over this gate.
pub(crate) fn run_between<R: Wait + Threads + Sync, S: Source, K: Sink, G: Gate + Sync>(
    rt: &R,
    alloc: Global,
    line: &str,
    source: &mut S,
    sink: &mut K,
    gate: &G,
) -> Result<Status, AllocError> {
    let words = words_of(alloc, line)?;
    Ok(clock_tool(rt, alloc, words.as_slice(), source, sink, gate))
}

// What was written, and after it the line that the program prints.
pub(crate) fn shown(alloc: Global, status: Status, written: &[u8]) -> Result<String, AllocError> {
    let mut text = String::from_utf8_lossy(alloc, written)?;
    text.push_str(status.to_string(alloc)?.as_str())?;
    Ok(text)
}

// What the program answers with the words of a line over a text and this gate: what it writes, and after it the line
// that it prints.
pub(crate) fn answer_of<R: Wait + Threads + Sync, G: Gate + Sync>(
    rt: &R,
    alloc: Global,
    line: &str,
    text: &str,
    gate: &G,
) -> Result<String, AllocError> {
    let mut source = SureSource::new(bytes_of(alloc, text)?);
    let mut sink = SureSink::new(List::with_room(alloc, ROOM)?);
    let status = run_between(rt, alloc, line, &mut source, &mut sink, gate)?;
    shown(alloc, status, sink.bytes().items())
}

// Asserts that an answer is like this.
pub(crate) fn is_so<R: Abort>(rt: &R, answer: &str, want: &[&str]) {
    assert!(rt; is_like(answer, want), "answered {answer}");
}

// Asserts that an answer is like one of these.
pub(crate) fn is_one<R: Abort>(rt: &R, answer: &str, wants: &[&[&str]]) {
    assert!(rt;
        wants.iter().any(|want| is_like(answer, want)),
        "answered {answer}"
    );
}

// What the program answers with `run` over a file by its parts and this gate.
pub(crate) fn answer_to<R: Wait + Threads + Sync, G: Gate + Sync>(
    rt: &R,
    alloc: Global,
    file: &[&str],
    gate: &G,
) -> Result<String, AllocError> {
    let text = joined(alloc, file)?;
    answer_of(rt, alloc, "run", text.as_str(), gate)
}

// Asserts that the program, run over a file and this gate, answers so.
pub(crate) fn answers_over<R: Abort + Wait + Threads + Sync, G: Gate + Sync>(
    rt: &R,
    alloc: Global,
    file: &[&str],
    gate: &G,
    want: &[&str],
) -> Result<(), AllocError> {
    let answer = answer_to(rt, alloc, file, gate)?;
    is_so(rt, answer.as_str(), want);
    Ok(())
}

// Asserts that the program, run over a file, answers so.
pub(crate) fn answers<R: Abort + Wait + Threads + Sync>(
    rt: &R,
    alloc: Global,
    file: &[&str],
    want: &[&str],
) -> Result<(), AllocError> {
    answers_over(rt, alloc, file, &OpenGate, want)
}

// Asserts of each row that the program, run over the file, answers so.
pub(crate) fn are_answered<R: Abort + Wait + Threads + Sync>(
    rt: &R,
    alloc: Global,
    rows: &[Row],
) -> Result<(), AllocError> {
    for (file, want) in rows {
        answers(rt, alloc, file, want)?;
    }
    Ok(())
}

// Asserts of each row that the program, with the words of a line, answers so.
pub(crate) fn are_answered_lines<R: Abort + Wait + Threads + Sync>(
    rt: &R,
    alloc: Global,
    rows: &[(&str, &[&str])],
) -> Result<(), AllocError> {
    for (line, want) in rows {
        line_answers(rt, alloc, line, want)?;
    }
    Ok(())
}

// What is left of a text after a part.
fn after<'a>(text: &'a str, part: &str) -> Option<&'a str> {
    match part.strip_prefix("*") {
        Some("") => Some(""),
        Some(part) => {
            let (_, rest) = text.split_once(part)?;
            Some(rest)
        }
        None => text.strip_prefix(part),
    }
}

// The words of a line.
fn words_of(alloc: Global, line: &str) -> Result<Vec<String>, AllocError> {
    let mut words = Vec::new(alloc);
    for word in line.split_whitespace() {
        words.push(String::from_str(alloc, word)?)?;
    }
    Ok(words)
}

// Asserts that the program, with the words of a line, answers so.
fn line_answers<R: Abort + Wait + Threads + Sync>(
    rt: &R,
    alloc: Global,
    line: &str,
    want: &[&str],
) -> Result<(), AllocError> {
    let answer = answer_of(rt, alloc, line, "", &OpenGate)?;
    is_so(rt, answer.as_str(), want);
    Ok(())
}
