//! Two owners and two readers, on threads of their own.
ghost use Rattle.std.specs.Prelude.{◌≡◌, ◌+◌, ◌^◌, ◌<◌, [], ◌∷◌, IsTrue};
ghost use Rattle.clk_words.specs.Kinds.{cpu_of};
ghost use Rattle.clk_words.specs.Histories.{opens_at};
ghost use Rattle.clk_words.specs.Bounds.{opens_of, IsGtod, IsRaw};
ghost use Rattle.clk_words.specs.Knowing.{HasFoundPerCpu, HasLoaded, IsOwner, IsReadingKind, MaySplit, StampsAreWhole, numbers_of};
ghost use Rattle.clk_words.specs.Views.{giver_view, given_view};
ghost use Rattle.clk_words.specs.Held.{place_of};
ghost use Rattle.clk_words.specs.Calls.{KeepsSeat};

use crate::tests::calls::{TICK, after, clock, local, opening, raised, stamp};
use crate::view::Name;
use crate::{Closed, Opening, Seat, SeatKind, Step, Why, Words};
use std::alloc::{AllocError, Global};
use std::thread::{Threads, join};

const CALLS: u32 = 10_000;

// A remote reading: the lower of two words is raised to the other.
fn couple(words: &Words, seat: &mut Seat, call: u32, other: u32) -> Step
    requires own { place_of seat.old ≡ words.now }
    requires found { HasFoundPerCpu seat.old.view }
    requires other { other < words.now.start.cpus }
    ensures own { place_of seat.new ≡ words.now }
    ensures kept { KeepsSeat seat.old.view seat.new.view }
    ensures turn { StampsAreWhole seat.old.view → StampsAreWhole seat.new.view }
{
    let from = seat.cpu();
    let value = first_clock(words, seat, from);
    let theirs = clock(words, seat, other, Why::Couple { from, value });
    let (w, why) = if theirs < value {
        (other, Why::Couple { from, value })
    } else {
        let lower = Why::Couple {
            from: other,
            value: theirs,
        };
        (from, lower)
    };
    raised(words, seat, call, w, why)
}

// A load of a clock word that a remote reading may name.
fn first_clock(words: &Words, seat: &mut Seat, w: u32) -> i64
    requires own { place_of seat.old ≡ words.now }
    requires word { w < words.now.start.cpus }
    ensures own { place_of seat.new ≡ words.now }
    ensures kept { KeepsSeat seat.old.view seat.new.view }
    ensures loaded { HasLoaded seat.new.view (Name.Clock w) result }
    ensures turn { StampsAreWhole seat.old.view → StampsAreWhole seat.new.view }
{
    words.load_clock(seat, w)
}

// A thread's seat, whether it stamps, the other CPU, what the words opened with, and the steps that it has made.
#[derive(Drop)]
pub struct Runner {
    pub seat: Seat,
    pub stamps: bool,
    pub other: u32,
    pub start: Opening,
    pub log: Vec<Step>,
}

// A stamp if the seat is an owner's.
fn stamp_if(words: &Words, seat: &mut Seat, stamps: bool, gtod: i64, raw: i64)
    requires own { place_of seat.old ≡ words.now }
    requires found { HasFoundPerCpu seat.old.view }
    requires gtod { IsGtod gtod }
    requires raw { IsRaw (opens_at words.now.start) raw }
    requires turn { IsTrue stamps → IsOwner seat.old.view × StampsAreWhole seat.old.view }
    ensures own { place_of seat.new ≡ words.now }
    ensures kept { KeepsSeat seat.old.view seat.new.view }
    ensures turn { IsTrue stamps → StampsAreWhole seat.new.view }
{
    if stamps {
        stamp(words, seat, gtod, raw);
    }
}

// A step that finds no memory is left out.
pub fn note(log: &mut Vec<Step>, step: Step) {
    let _ = log.push(step);
}

// Each call is a stamp if the seat is an owner's, a local reading, and a remote one.
fn run(words: &Words, mut runner: Runner) -> Runner
    requires own { place_of runner.seat ≡ words.now }
    requires found { HasFoundPerCpu runner.seat.view }
    requires reading { IsReadingKind runner.seat.view.kind }
    requires other { runner.other < words.now.start.cpus }
    requires start { (runner.start ≡ words.now.start.opening) × (runner.start.tick_raw ≡ opens_of runner.start) }
    requires turn { IsTrue runner.stamps → IsOwner runner.seat.view × StampsAreWhole runner.seat.view }
    ensures own { place_of result.seat ≡ words.now }
    ensures numbers { numbers_of result.seat.view ≡ numbers_of runner.seat.view }
{
    let other = runner.other;
    let start = runner.start;
    for call in 0..CALLS {
        let now = i64::from(call) * 10;
        let raw = after(&start, now);
        stamp_if(words, &mut runner.seat, runner.stamps, now, raw);
        let step = local(words, &mut runner.seat, call, after(&start, now + 15));
        note(&mut runner.log, step);
        let step = couple(words, &mut runner.seat, call, other);
        note(&mut runner.log, step);
    }
    runner
}

fn two<R: Threads + Sync>(rt: &R, words: &Words, a: Runner, b: Runner) -> (Runner, Runner)
    requires own { (place_of a.seat ≡ words.now) × (place_of b.seat ≡ words.now) }
    requires found { HasFoundPerCpu a.seat.view × HasFoundPerCpu b.seat.view }
    requires reading { IsReadingKind a.seat.view.kind × IsReadingKind b.seat.view.kind }
    requires other { (a.other < words.now.start.cpus) × (b.other < words.now.start.cpus) }
    requires start_a { (a.start ≡ words.now.start.opening) × (a.start.tick_raw ≡ opens_of a.start) }
    requires start_b { (b.start ≡ words.now.start.opening) × (b.start.tick_raw ≡ opens_of b.start) }
    requires turn_a { IsTrue a.stamps → IsOwner a.seat.view × StampsAreWhole a.seat.view }
    requires turn_b { IsTrue b.stamps → IsOwner b.seat.view × StampsAreWhole b.seat.view }
    ensures own { (place_of result.0.seat ≡ words.now) × (place_of result.1.seat ≡ words.now) }
    ensures first { numbers_of result.0.seat.view ≡ numbers_of a.seat.view }
    ensures second { numbers_of result.1.seat.view ≡ numbers_of b.seat.view }
{
    join(rt, move || run(words, a), move || run(words, b))
}

// A runner that has made no step, whose seat is split off here.
pub fn hired(
    alloc: Global,
    words: &Words,
    first: &mut Seat,
    kind: SeatKind,
    stamps: bool,
    other: u32,
    start: Opening,
) -> Runner
    requires own { place_of first.old ≡ words.now }
    requires right { MaySplit first.old.view kind }
    requires cpu { cpu_of kind < words.now.start.cpus }
    requires room { first.old.view.made + 1 < 2 ^ 32 }
    ensures old { first.new ≡ record { table = words.now.table; view = giver_view kind first.old.view } }
    ensures new { result.seat ≡ record { table = words.now.table; view = given_view kind first.old.view } }
    ensures rest { (result.stamps ≡ stamps) × (result.other ≡ other) × (result.start ≡ start) }
{
    Runner {
        seat: words.split(first, kind),
        stamps,
        other,
        start,
        log: Vec::new(alloc),
    }
}

// The steps that go from the opening of a word to the value that is answered, each from where the one before ended.
fn chained(steps: &[Step], w: u32) -> Option<i64> {
    let mut last = 20;
    for step in steps {
        if step.word == w {
            if step.old != last {
                return None;
            }
            last = step.new;
        }
    }
    Some(last)
}

// On each word the steps, sorted, go from its opening to its last value.
pub fn are_chains(closed: &Closed, mut steps: Vec<Step>) -> bool
    requires { closed.now.start.cpus ≡ 2 }
{
    steps.sort_unstable_by_key(|s| (s.word, s.new, s.old >= s.new, s.by, s.call));
    let steps = steps.as_slice();
    chained(steps, 0) == Some(closed.last(0)) && chained(steps, 1) == Some(closed.last(1))
}

// The steps of all threads.
pub fn all_steps(alloc: Global, logs: &[Vec<Step>; 4]) -> Result<Vec<Step>, AllocError> {
    let mut steps = Vec::new(alloc);
    for log in logs {
        steps.extend_from_slice(log.as_slice())?;
    }
    Ok(steps)
}

#[test]
fn steps_of_four_threads_are_chains(rt: HostRuntime) -> Result<(), AllocError> {
    let alloc = rt.alloc();
    let start = opening(10, 10);
    let (words, mut first) = Words::new(alloc, 2, TICK, start)?;
    let a = hired(
        alloc,
        &words,
        &mut first,
        SeatKind::Owner(0),
        true,
        1,
        start,
    );
    let b = hired(
        alloc,
        &words,
        &mut first,
        SeatKind::Owner(1),
        true,
        0,
        start,
    );
    let c = hired(
        alloc,
        &words,
        &mut first,
        SeatKind::Reader(0),
        false,
        1,
        start,
    );
    let d = hired(
        alloc,
        &words,
        &mut first,
        SeatKind::Reader(1),
        false,
        0,
        start,
    );
    let ((a, b), (c, d)) = join(&rt, || two(&rt, &words, a, b), || two(&rt, &words, c, d));
    let (closed, logs) = end_five(words, first, a, b, c, d);
    let steps = all_steps(alloc, &logs)?;
    assert!(rt; steps.len() == 8 * CALLS as usize && are_chains(&closed, steps));
    Ok(())
}

fn joined_three(words: &Words, first: Seat, a: Seat, b: Seat) -> Seat
    requires first { (place_of first ≡ words.now) × (numbers_of first.view ≡ 0 ∷ []) × (first.view.made ≡ 5) }
    requires a { (place_of a ≡ words.now) × (numbers_of a.view ≡ 1 ∷ []) }
    requires b { (place_of b ≡ words.now) × (numbers_of b.view ≡ 2 ∷ []) }
    ensures own { place_of result ≡ words.now }
    ensures numbers { numbers_of result.view ≡ 0 ∷ 1 ∷ 2 ∷ [] }
    ensures made { result.view.made ≡ 5 }
{
    words.join(words.join(first, a), b)
}

fn end_joined(words: Words, front: Seat, c: Seat, d: Seat) -> Closed
    requires front { (place_of front ≡ words) × (numbers_of front.view ≡ 0 ∷ 1 ∷ 2 ∷ []) × (front.view.made ≡ 5) }
    requires c { (place_of c ≡ words) × (numbers_of c.view ≡ 3 ∷ []) }
    requires d { (place_of d ≡ words) × (numbers_of d.view ≡ 4 ∷ []) }
    ensures { result.start ≡ words.start }
{
    let whole = words.join(words.join(front, c), d);
    words.finish(whole)
}

// Joins four threads' seats to the first one, and ends. The steps of each are left.
pub fn end_five(
    words: Words,
    first: Seat,
    a: Runner,
    b: Runner,
    c: Runner,
    d: Runner,
) -> (Closed, [Vec<Step>; 4])
    requires first { (place_of first ≡ words) × (numbers_of first.view ≡ 0 ∷ []) × (first.view.made ≡ 5) }
    requires a { (place_of a.seat ≡ words) × (numbers_of a.seat.view ≡ 1 ∷ []) }
    requires b { (place_of b.seat ≡ words) × (numbers_of b.seat.view ≡ 2 ∷ []) }
    requires c { (place_of c.seat ≡ words) × (numbers_of c.seat.view ≡ 3 ∷ []) }
    requires d { (place_of d.seat ≡ words) × (numbers_of d.seat.view ≡ 4 ∷ []) }
    ensures { result.0.start ≡ words.start }
{
    let front = joined_three(&words, first, a.seat, b.seat);
    let closed = end_joined(words, front, c.seat, d.seat);
    (closed, [a.log, b.log, c.log, d.log])
}
