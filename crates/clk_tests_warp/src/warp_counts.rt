//! Runs whose counts and verdicts are known beforehand.
ghost use Rattle.std.specs.Prelude.{◌≡◌};

use clk_num::List;
use clk_record::{Side, Verdict, WarpRun};
use clk_warp::{WarpCounts, falls_are_counted, verdict};
use std::alloc::{AllocError, Global};
use std::process::Abort;

// A reading of a run: its side, whether it is the start reading, and the counter there.
type Shown = (Side, bool, u64);

// So many cycles that no side ends by its time.
const LONG: u64 = 1_000_000;

// A run in which both sides end at their turn 8. One fall is at the target, and one more stands at a reading that ends
// its loop.
const ONE_FALL: [Shown; 20] = [
    (Side::Source, true, 50),
    (Side::Target, true, 55),
    (Side::Source, false, 100),
    (Side::Target, false, 90),
    (Side::Source, false, 120),
    (Side::Target, false, 130),
    (Side::Source, false, 140),
    (Side::Target, false, 150),
    (Side::Source, false, 160),
    (Side::Target, false, 170),
    (Side::Source, false, 180),
    (Side::Target, false, 190),
    (Side::Source, false, 200),
    (Side::Target, false, 210),
    (Side::Source, false, 220),
    (Side::Target, false, 230),
    (Side::Source, false, 240),
    (Side::Target, false, 250),
    (Side::Source, false, 260),
    (Side::Target, false, 255),
];

fn other(side: Side) -> Side {
    match side {
        Side::Source => Side::Target,
        Side::Target => Side::Source,
    }
}

// What the readings count, with no turns allowed beyond the first look.
fn counted(rt: &impl Abort, readings: &[Shown]) -> WarpCounts {
    let mut counts = WarpCounts::new(LONG, 0);
    for (side, start, tsc) in readings {
        let ended = counts.ended(*side);
        assert!(rt; !ended && counts.started(*side) != *start && *tsc < LONG);
        counts.add(*side, *start, *tsc);
    }
    assert!(rt; counts.ended(Side::Source) && counts.ended(Side::Target));
    counts
}

// A finished run with these counts.
fn run_of(alloc: Global, counts: &WarpCounts) -> Result<WarpRun, AllocError> {
    Ok(WarpRun {
        readings: List::with_room(alloc, 0)?,
        nr: counts.nr,
        max: counts.max,
        random: counts.random,
        cur_source: counts.cur_source,
        cur_target: counts.cur_target,
    })
}

fn numbers(counts: &WarpCounts) -> (u32, u64, u32, u64, u64) {
    (
        counts.nr,
        counts.max,
        counts.random,
        counts.cur_source,
        counts.cur_target,
    )
}

fn ruled(rt: &impl Abort, run: &WarpRun, runs_left: u32) -> Verdict {
    assert!(rt; runs_left > 0 && run.max < LONG && run.cur_target < LONG);
    verdict(run, runs_left)
}

#[test]
fn a_fall_at_the_target(rt: HostRuntime) -> Result<(), AllocError> {
    let counts = counted(&rt, &ONE_FALL);
    assert_eq!(rt; numbers(&counts), (1, 10, 0, 0, 10));
    let run = run_of(rt.alloc(), &counts)?;
    assert_eq!(rt; ruled(&rt, &run, 3), Verdict::Again { adjust: 10 });
    assert_eq!(rt; ruled(&rt, &run, 1), Verdict::Failed { max: 10, random: 0 });
    falls_are_counted();
    Ok(())
}

#[test]
fn a_fall_at_the_source(rt: HostRuntime) -> Result<(), AllocError> {
    let mut readings = ONE_FALL;
    for reading in readings.iter_mut() {
        reading.0 = other(reading.0);
    }
    let counts = counted(&rt, &readings);
    assert_eq!(rt; numbers(&counts), (1, 10, 0, 10, 0));
    let run = run_of(rt.alloc(), &counts)?;
    assert_eq!(rt; ruled(&rt, &run, 3), Verdict::Again { adjust: -10 });
    Ok(())
}

#[test]
fn falls_on_both_sides(rt: HostRuntime) -> Result<(), AllocError> {
    let mut readings = ONE_FALL;
    readings[4] = (Side::Source, false, 80);
    let counts = counted(&rt, &readings);
    assert_eq!(rt; (counts.nr, counts.random), (2, 1));
    let run = run_of(rt.alloc(), &counts)?;
    assert_eq!(rt; ruled(&rt, &run, 3), Verdict::Failed { max: 10, random: 1 });
    Ok(())
}
