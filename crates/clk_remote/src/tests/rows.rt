//! One call after another, on one thread.
use crate::tests::fixtures::{ask, end, look, owners, seats_of, stand};
use crate::{RemoteEvent, readings_reach_both};
use clk_local::Reading;
use clk_machine::RawReading;
use clk_words::{Mode, Step, Why};
use std::alloc::Global;
use std::process::Abort;

// A reading by record 0, of a counter that has gone so far.
fn reading(ticket: u64, passed: u32) -> RawReading {
    RawReading {
        ticket,
        cyc: u64::from(passed),
        rec: 0,
        ns: i64::from(passed),
    }
}

fn raise(raw: i64) -> Why {
    Why::Raise {
        raw,
        tick_raw: 20,
        tick_gtod: 10,
        offset: 10,
    }
}

fn couple(from: u32, value: i64) -> Why {
    Why::Couple { from, value }
}

// A step of CPU 0's owner, who has the seat 1.
fn first_step(call: u32, word: u32, why: Why, old: i64, new: i64) -> Step {
    Step {
        by: 1,
        call,
        word,
        why,
        old,
        new,
    }
}

// A step of CPU 1's owner.
fn second_step(call: u32, word: u32, why: Why, old: i64, new: i64) -> Step {
    Step {
        by: 2,
        ..first_step(call, word, why, old, new)
    }
}

// Both owners read their clocks and then each other's. What they are answered, and the end.
fn both_ask<R: Abort>(rt: &R, alloc: Global) -> ([Reading; 2], [RemoteEvent; 2], (i64, i64, u64)) {
    let (shared, first, latch_seats) = stand(rt, alloc, 0, Mode::PerCpu, 7);
    let (first, mut a, mut b) = owners(&shared, first, latch_seats, 2);
    let read = [look(&mut a), look(&mut b)];
    let asked = [ask(&mut a, 1, 1), ask(&mut b, 1, 0)];
    let (a, b) = (seats_of(a), seats_of(b));
    (read, asked, end(shared, first, a, b))
}

fn both_read() -> [Reading; 2] {
    [
        Reading::PerCpu {
            raw: reading(3, 30),
            step: first_step(0, 0, raise(30), 20, 30),
        },
        Reading::PerCpu {
            raw: reading(4, 40),
            step: second_step(0, 1, raise(40), 20, 40),
        },
    ]
}

fn both_asked() -> [RemoteEvent; 2] {
    [
        RemoteEvent::Coupled {
            raw: reading(5, 50),
            local: first_step(1, 0, raise(50), 30, 50),
            own: 50,
            other: 40,
            step: first_step(1, 1, couple(0, 50), 40, 50),
        },
        RemoteEvent::Coupled {
            raw: reading(6, 60),
            local: second_step(1, 1, raise(60), 50, 60),
            own: 60,
            other: 50,
            step: second_step(1, 0, couple(1, 60), 50, 60),
        },
    ]
}

#[test]
fn the_other_word_is_lower(rt: HostRuntime) {
    assert_eq!(rt;
        both_ask(&rt, rt.alloc()),
        (both_read(), both_asked(), (60, 60, 7))
    );
    readings_reach_both();
}

// The counter of CPU 1 is ahead. Its owner reads its clock, and the other owner asks for it twice.
fn one_asks<R: Abort>(rt: &R, alloc: Global) -> (Reading, [RemoteEvent; 2], (i64, i64, u64)) {
    let (shared, first, latch_seats) = stand(rt, alloc, 100, Mode::PerCpu, 7);
    let (first, mut a, mut b) = owners(&shared, first, latch_seats, 2);
    let read = look(&mut b);
    let asked = [ask(&mut a, 0, 1), ask(&mut a, 1, 1)];
    let (a, b) = (seats_of(a), seats_of(b));
    (read, asked, end(shared, first, a, b))
}

fn one_read() -> Reading {
    Reading::PerCpu {
        raw: reading(3, 130),
        step: second_step(0, 1, raise(130), 20, 130),
    }
}

// The second read finds both words the same.
fn one_asked() -> [RemoteEvent; 2] {
    [
        RemoteEvent::Coupled {
            raw: reading(4, 40),
            local: first_step(0, 0, raise(40), 20, 40),
            own: 40,
            other: 130,
            step: first_step(0, 0, couple(1, 130), 40, 130),
        },
        RemoteEvent::Coupled {
            raw: reading(5, 50),
            local: first_step(1, 0, raise(50), 130, 130),
            own: 130,
            other: 130,
            step: first_step(1, 0, couple(1, 130), 130, 130),
        },
    ]
}

#[test]
fn the_own_word_is_lower(rt: HostRuntime) {
    assert_eq!(rt;
        one_asks(&rt, rt.alloc()),
        (one_read(), one_asked(), (130, 130, 6))
    );
}

// One read while the clock is stable, which steps on no word.
fn ask_stable<R: Abort>(rt: &R, alloc: Global) -> (RemoteEvent, (i64, i64, u64)) {
    let (shared, first, latch_seats) = stand(rt, alloc, 0, Mode::Stable, 5);
    let (first, mut a, b) = owners(&shared, first, latch_seats, 1);
    let asked = ask(&mut a, 0, 1);
    let (a, b) = (seats_of(a), seats_of(b));
    (asked, end(shared, first, a, b))
}

#[test]
fn a_stable_start(rt: HostRuntime) {
    let stable = RemoteEvent::Stable {
        raw: reading(3, 30),
        value: 42,
    };
    assert_eq!(rt; ask_stable(&rt, rt.alloc()), (stable, (20, 20, 4)));
}
