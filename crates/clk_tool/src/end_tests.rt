//! What sources give, what sinks take, and what is read whole, with their faults.
use crate::memory::{MemSink, MemSource};
use crate::source::Source;
use crate::standard::{StdSink, StdSource};
use crate::sure::{SureSink, SureSource};
use crate::whole::{LIMIT, ReadRefusal, read_whole};
use clk_num::List;
use clk_trace::{Failed, Sink};
use std::alloc::{AllocError, Global};
use std::io::Cursor;

// A list of these items with room for `more` items beside them.
fn list_of<T: Copy + Drop>(alloc: Global, items: &[T], more: usize) -> Result<List<T>, AllocError> {
    let mut list = List::with_room(alloc, items.len().saturating_add(more))?;
    for item in items {
        if list.room() > 0 {
            list.push(*item);
        }
    }
    Ok(list)
}

// A source of these bytes that gives 4 in a call, and whose second call fails.
fn failing_source(alloc: Global, bytes: &[u8]) -> Result<MemSource, AllocError> {
    let fails = list_of(alloc, &[2], 0)?;
    Ok(MemSource::new(list_of(alloc, bytes, 0)?, 4, fails))
}

// What five calls of a source give: a line for each, with its bytes, or what it fails with.
fn five_reads<S: Source>(alloc: Global, source: &mut S) -> Result<String, AllocError> {
    let mut text = String::new(alloc);
    for _ in 0..5 {
        let mut buf = [0; 16];
        match source.read(&mut buf) {
            Ok(n) => text.push_str(String::from_utf8_lossy(alloc, &buf[..n])?.as_str())?,
            Err(Failed) => text.push_str("fault")?,
        }
        text.push_str("\n")?;
    }
    Ok(text)
}

#[test]
fn a_source_gives_pieces_and_fails_where_it_is_told_to(rt: HostRuntime) -> Result<(), AllocError> {
    let mut source = failing_source(rt.alloc(), b"0123456789")?;
    let reads = five_reads(rt.alloc(), &mut source)?;
    assert!(rt; (reads.as_str(), source.faults()) == ("0123\nfault\n4567\n89\n\n", 1));
    Ok(())
}

// A sink that holds these bytes and has room for `room` more, takes 16 in a call, and of which these calls fail.
fn sink_of(alloc: Global, bytes: &[u8], room: usize, fails: &[u64]) -> Result<MemSink, AllocError> {
    let fails = list_of(alloc, fails, 0)?;
    Ok(MemSink::new(list_of(alloc, bytes, room)?, 16, fails))
}

#[test]
fn a_sink_fails_where_it_is_told_to(rt: HostRuntime) -> Result<(), AllocError> {
    let mut sink = sink_of(rt.alloc(), b"", 40, &[2])?;
    let counts = [
        sink.write(b"0123456789abcdefgh"),
        sink.write(b"gh"),
        sink.write(b"gh"),
    ];
    assert!(rt; counts == [Ok(16), Err(Failed), Ok(2)]);
    assert!(rt; (sink.bytes().items(), sink.faults()) == (b"0123456789abcdefgh".as_slice(), 1));
    Ok(())
}

#[test]
fn a_sink_fails_where_its_room_is_used_up(rt: HostRuntime) -> Result<(), AllocError> {
    let mut sink = sink_of(rt.alloc(), b"was ", 3, &[])?;
    let counts = [sink.write(b"here"), sink.write(b""), sink.write(b"e")];
    assert!(rt; counts == [Ok(3), Ok(0), Err(Failed)]);
    assert!(rt; (sink.bytes().items(), sink.faults()) == (b"was her".as_slice(), 1));
    Ok(())
}

#[test]
fn a_sure_sink_drops_what_does_not_fit(rt: HostRuntime) -> Result<(), AllocError> {
    let mut sink = SureSink::new(List::with_room(rt.alloc(), 6)?);
    for (piece, want) in [
        ("four", "four"),
        ("four", "fourfo"),
        ("", "fourfo"),
        ("four", "fourfo"),
    ] {
        let count = sink.write(piece.as_bytes());
        assert!(rt; (count, sink.bytes().items()) == (Ok(piece.len()), want.as_bytes()));
    }
    Ok(())
}

#[test]
fn a_source_over_std_reads(rt: HostRuntime) {
    let mut source = StdSource::new(Cursor::new(b"abc".as_slice()));
    let mut buf = [0; 2];
    let first = (source.read(&mut buf), buf);
    let rest = [source.read(&mut buf), source.read(&mut buf)];
    assert!(rt; first == (Ok(2), *b"ab") && rest == [Ok(1), Ok(0)]);
}

#[test]
fn a_sink_over_std_writes_and_flushes(rt: HostRuntime) {
    let mut kept = [0; 3];
    let mut sink = StdSink::new(kept.as_mut_slice());
    let first = (sink.write(b"ab"), sink.flush());
    let rest = [sink.write(b"cd"), sink.write(b"d"), sink.write(b"")];
    assert!(rt; first == (Ok(2), Ok(())) && rest == [Ok(1), Err(Failed), Ok(0)]);
    assert_eq!(rt; kept, *b"abc");
}

// How many of so many spaces are read whole in pieces of 64, or why not, and how many calls failed. These calls fail.
fn read_spaces(
    alloc: Global,
    count: usize,
    fails: &[u64],
) -> Result<(Result<usize, ReadRefusal>, u64), AllocError> {
    let mut spaces = List::with_room(alloc, count)?;
    for _ in 0..count {
        if spaces.room() > 0 {
            spaces.push(b' ');
        }
    }
    let mut source = MemSource::new(spaces, 64, list_of(alloc, fails, 0)?);
    let whole = match read_whole(alloc, &mut source) {
        Ok(bytes) => Ok(bytes.len()),
        Err(refusal) => Err(refusal),
    };
    Ok((whole, source.faults()))
}

// How many spaces a source has, which of its calls fail, and what is read whole, with the number of faults.
const WHOLE: [(usize, &[u64], (Result<usize, ReadRefusal>, u64)); 4] = [
    (200, &[], (Ok(200), 0)),
    (LIMIT, &[], (Ok(LIMIT), 0)),
    (LIMIT + 1, &[], (Err(ReadRefusal::TooLong), 0)),
    (100, &[2], (Err(ReadRefusal::Fault), 1)),
];

#[test]
fn a_source_is_read_whole_or_refused(rt: HostRuntime) -> Result<(), AllocError> {
    for (count, fails, want) in WHOLE {
        assert!(rt;
            read_spaces(rt.alloc(), count, fails)? == want,
            "at {count}"
        );
    }
    Ok(())
}

// What is read of a source that never fails, where it is these bytes.
fn is_read_whole(alloc: Global, bytes: &[u8]) -> Result<bool, AllocError> {
    let mut source = SureSource::new(list_of(alloc, bytes, 0)?);
    match read_whole(alloc, &mut source) {
        Ok(whole) => Ok(whole.as_slice() == bytes),
        Err(_) => Ok(false),
    }
}

#[test]
fn what_is_read_whole_is_the_bytes(rt: HostRuntime) -> Result<(), AllocError> {
    assert!(rt; is_read_whole(rt.alloc(), b"0123456789")?);
    Ok(())
}
