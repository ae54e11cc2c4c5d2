//! A watchdog that demotes two CPUs, under the reads of owners and of a reader, on four threads.
ghost use Rattle.std.specs.Prelude.{◌≡◌, ◌<◌};
ghost use Rattle.clk_num.specs.Range.{IsNear};
ghost use Rattle.clk_words.specs.Histories.{opens_at};
ghost use Rattle.clk_words.specs.Bounds.{opens_of, IsGtod, IsRaw, IsOffset, IsOpening, IsLiftValue};
ghost use Rattle.clk_words.specs.Parts.{gtod_of, raw_of};
ghost use Rattle.clk_words.specs.Knowing.{MayDemote, IsReadingKind, HasCloned, HasLifted, numbers_of};
ghost use Rattle.clk_words.specs.Told.{pair_cloned};
ghost use Rattle.clk_words.specs.Held.{place_of};

use crate::tests::calls::{TICK, after, local, opening_in};
use crate::tests::threads::{Runner, all_steps, are_chains, end_five, hired, note};
use crate::{Mode, Opening, Seat, SeatKind, Step, Why, Words};
use std::alloc::AllocError;
use std::thread::{Threads, join};

const READS: u32 = 10_000;

fn stable(tick_gtod: i64, offset: i64) -> Opening
    requires { IsGtod tick_gtod }
    ensures opening { IsOpening result }
    ensures mode { result.mode ≡ Mode.Stable }
    ensures raw { result.tick_raw ≡ opens_of result }
    ensures offset { IsOffset (opens_of result) result.offset }
{
    opening_in(Mode::Stable, tick_gtod, offset)
}

// The pair of one CPU.
fn copied(words: &Words, seat: &mut Seat, w: u32, gtod: i64, raw: i64)
    requires own { place_of seat.old ≡ words.now }
    requires may { MayDemote seat.old.view }
    requires word { w < words.now.start.cpus }
    requires gtod { IsGtod gtod }
    requires raw { IsRaw (opens_at words.now.start) raw }
    ensures own { place_of seat.new ≡ words.now }
    ensures view { seat.new.view ≡ pair_cloned (raw_of w) raw (pair_cloned (gtod_of w) gtod seat.old.view) }
{
    words.clone_gtod(seat, w, gtod);
    words.clone_raw(seat, w, raw);
}

// A reading where the mode is per-CPU, and none while it is stable.
fn read(words: &Words, seat: &mut Seat, call: u32, raw: i64) -> Option<Step>
    requires own { place_of seat.old ≡ words.now }
    requires reading { IsReadingKind seat.old.view.kind }
    requires raw { IsRaw (opens_at words.now.start) raw }
    ensures own { place_of seat.new ≡ words.now }
    ensures kind { seat.new.view.kind ≡ seat.old.view.kind }
    ensures numbers { numbers_of seat.new.view ≡ numbers_of seat.old.view }
{
    match words.look_mode(seat) {
        Mode::Stable => None,
        Mode::PerCpu => Some(local(words, seat, call, raw)),
    }
}

// The pairs of both CPUs.
fn copied_both(words: &Words, seat: &mut Seat, gtod: i64, raw: i64)
    requires own { place_of seat.old ≡ words.now }
    requires may { MayDemote seat.old.view }
    requires cpus { words.now.start.cpus ≡ 2 }
    requires gtod { IsGtod gtod }
    requires raw { IsRaw (opens_at words.now.start) raw }
    ensures own { place_of seat.new ≡ words.now }
    ensures may { MayDemote seat.new.view }
    ensures stored { HasCloned seat.new.view }
    ensures numbers { numbers_of seat.new.view ≡ numbers_of seat.old.view }
{
    copied(words, seat, 0, gtod, raw);
    copied(words, seat, 1, gtod, raw);
}

// The lifts of both words.
fn lifted_both(words: &Words, seat: &mut Seat, value: i64) -> (Step, Step)
    requires own { place_of seat.old ≡ words.now }
    requires may { MayDemote seat.old.view }
    requires cpus { words.now.start.cpus ≡ 2 }
    requires value { IsLiftValue (opens_at words.now.start) value }
    requires stored { HasCloned seat.old.view }
    ensures own { place_of seat.new ≡ words.now }
    ensures may { MayDemote seat.new.view }
    ensures stored { HasCloned seat.new.view }
    ensures lifted { HasLifted seat.new.view }
    ensures numbers { numbers_of seat.new.view ≡ numbers_of seat.old.view }
{
    let first = words.lift(seat, 0, 0, value);
    let second = words.lift(seat, 0, 1, value);
    (first, second)
}

// What the clocks open at when GTOD is this.
fn opened_at(start: &Opening, gtod: i64) -> i64
    requires gtod { IsGtod gtod }
    requires offset { IsOffset (opens_of start.now) start.now.offset }
    ensures { IsLiftValue (opens_of start.now) result }
{
    gtod.wrapping_add(start.offset)
}

// The end of the stable mode.
fn demote(words: &Words, mut runner: Runner) -> Runner
    requires own { place_of runner.seat ≡ words.now }
    requires may { MayDemote runner.seat.view }
    requires cpus { words.now.start.cpus ≡ 2 }
    requires start { (runner.start ≡ words.now.start.opening) × (runner.start.tick_raw ≡ opens_of runner.start) }
    requires offset { IsOffset (opens_of runner.start) runner.start.offset }
    ensures own { place_of result.seat ≡ words.now }
    ensures numbers { numbers_of result.seat.view ≡ numbers_of runner.seat.view }
{
    let start = runner.start;
    words.publish_offset(&mut runner.seat, start.offset);
    copied_both(words, &mut runner.seat, 40, after(&start, 30));
    let lifts = lifted_both(words, &mut runner.seat, opened_at(&start, 40));
    words.publish_mode(&mut runner.seat);
    note(&mut runner.log, lifts.0);
    note(&mut runner.log, lifts.1);
    runner
}

// A reading, which is noted if it is made.
fn read_into(words: &Words, seat: &mut Seat, log: &mut Vec<Step>, call: u32, raw: i64)
    requires own { place_of seat.old ≡ words.now }
    requires reading { IsReadingKind seat.old.view.kind }
    requires raw { IsRaw (opens_at words.now.start) raw }
    ensures own { place_of seat.new ≡ words.now }
    ensures kind { seat.new.view.kind ≡ seat.old.view.kind }
    ensures numbers { numbers_of seat.new.view ≡ numbers_of seat.old.view }
{
    if let Some(step) = read(words, seat, call, raw) {
        note(log, step);
    }
}

fn read_on(words: &Words, mut runner: Runner) -> Runner
    requires own { place_of runner.seat ≡ words.now }
    requires reading { IsReadingKind runner.seat.view.kind }
    requires start { (runner.start ≡ words.now.start.opening) × (runner.start.tick_raw ≡ opens_of runner.start) }
    ensures own { place_of result.seat ≡ words.now }
    ensures numbers { numbers_of result.seat.view ≡ numbers_of runner.seat.view }
{
    let start = runner.start;
    for call in 0..READS {
        let raw = after(&start, i64::from(call) * 10);
        read_into(words, &mut runner.seat, &mut runner.log, call, raw);
    }
    runner
}

fn demote_under<R: Threads + Sync>(
    rt: &R,
    words: &Words,
    watch: Runner,
    a: Runner,
) -> (Runner, Runner)
    requires own { (place_of watch.seat ≡ words.now) × (place_of a.seat ≡ words.now) }
    requires may { MayDemote watch.seat.view }
    requires cpus { words.now.start.cpus ≡ 2 }
    requires offset { IsOffset (opens_of watch.start) watch.start.offset }
    requires reading { IsReadingKind a.seat.view.kind }
    requires start { (watch.start ≡ words.now.start.opening) × (watch.start.tick_raw ≡ opens_of watch.start) }
    requires start_a { (a.start ≡ words.now.start.opening) × (a.start.tick_raw ≡ opens_of a.start) }
    ensures own { (place_of result.0.seat ≡ words.now) × (place_of result.1.seat ≡ words.now) }
    ensures first { numbers_of result.0.seat.view ≡ numbers_of watch.seat.view }
    ensures second { numbers_of result.1.seat.view ≡ numbers_of a.seat.view }
{
    join(rt, move || demote(words, watch), move || read_on(words, a))
}

fn read_both<R: Threads + Sync>(rt: &R, words: &Words, a: Runner, b: Runner) -> (Runner, Runner)
    requires own { (place_of a.seat ≡ words.now) × (place_of b.seat ≡ words.now) }
    requires reading { IsReadingKind a.seat.view.kind × IsReadingKind b.seat.view.kind }
    requires start_a { (a.start ≡ words.now.start.opening) × (a.start.tick_raw ≡ opens_of a.start) }
    requires start_b { (b.start ≡ words.now.start.opening) × (b.start.tick_raw ≡ opens_of b.start) }
    ensures own { (place_of result.0.seat ≡ words.now) × (place_of result.1.seat ≡ words.now) }
    ensures first { numbers_of result.0.seat.view ≡ numbers_of a.seat.view }
    ensures second { numbers_of result.1.seat.view ≡ numbers_of b.seat.view }
{
    join(rt, move || read_on(words, a), move || read_on(words, b))
}

fn lift(word: u32) -> Step {
    Step {
        by: 1,
        call: 0,
        word,
        why: Why::Lift { value: 50 },
        old: 20,
        new: 50,
    }
}

// The lifts are the first of these steps, and each other one found a word no lower than they left it.
fn begin_with_lifts(steps: &[Step]) -> bool {
    for (i, step) in steps.iter().enumerate() {
        let right = match i {
            0 => *step == lift(0),
            1 => *step == lift(1),
            _ => step.old >= 50,
        };
        if !right {
            return false;
        }
    }
    steps.len() >= 2
}

// The lifts are the only steps that found the opening, so each begins its word's history.
#[test]
fn lifts_come_first(rt: HostRuntime) -> Result<(), AllocError> {
    let alloc = rt.alloc();
    let start = stable(10, 10);
    let (words, mut first) = Words::new(alloc, 2, TICK, start)?;
    let watch = hired(alloc, &words, &mut first, SeatKind::Watch, false, 0, start);
    let a = hired(
        alloc,
        &words,
        &mut first,
        SeatKind::Owner(0),
        true,
        1,
        start,
    );
    let b = hired(
        alloc,
        &words,
        &mut first,
        SeatKind::Owner(1),
        true,
        0,
        start,
    );
    let c = hired(
        alloc,
        &words,
        &mut first,
        SeatKind::Reader(0),
        false,
        1,
        start,
    );
    let ((watch, a), (b, c)) = join(
        &rt,
        || demote_under(&rt, &words, watch, a),
        || read_both(&rt, &words, b, c),
    );
    let (closed, logs) = end_five(words, first, watch, a, b, c);
    let steps = all_steps(alloc, &logs)?;
    assert!(rt; begin_with_lifts(steps.as_slice()) && are_chains(&closed, steps));
    Ok(())
}
