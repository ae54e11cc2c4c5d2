//! One step after another, on one thread.
ghost use Rattle.std.specs.Prelude.{◌≡◌, ◌<◌, [], ◌∷◌, IfOk};
ghost use Rattle.clk_words.specs.Bounds.{opens_of, IsOpening};
ghost use Rattle.clk_words.specs.Knowing.{HasFoundPerCpu, IsOwner, IsReadingKind, MaySplit, StampsAreWhole, numbers_of};
ghost use Rattle.clk_words.specs.Views.{first_view};
ghost use Rattle.clk_words.specs.Held.{place_of};

use crate::tests::calls::{
    TICK, after, clock, end_three, local, opening, other_half, pair, put, raised, raw_half, stamp,
};
use crate::{Closed, Mode, Opening, Put, Seat, SeatKind, Step, Why, Words};
use std::alloc::{AllocError, Global};

fn reading(raw: i64, tick_raw: i64, tick_gtod: i64) -> Why {
    Why::Raise {
        raw,
        tick_raw,
        tick_gtod,
        offset: 10,
    }
}

fn step(by: u32, call: u32, why: Why, old: i64, new: i64) -> Step {
    Step {
        by,
        call,
        word: 0,
        why,
        old,
        new,
    }
}

// The words of one CPU, the first seat, its owner's and a reader's.
fn seated(alloc: Global, start: Opening) -> Result<(Words, Seat, Seat, Seat), AllocError>
    requires opening { IsOpening start }
    requires mode { start.mode ≡ Mode.PerCpu }
    ensures start { IfOk result (λ made. (made.0.start.opening ≡ start) × (made.0.start.cpus ≡ 1) × (made.0.start.tick ≡ TICK)) }
    ensures first { IfOk result (λ made. (place_of made.1 ≡ made.0) × (numbers_of made.1.view ≡ 0 ∷ []) × (made.1.view.made ≡ 3)) }
    ensures owner { IfOk result (λ made. (place_of made.2 ≡ made.0) × (numbers_of made.2.view ≡ 1 ∷ [])) }
    ensures owner_reads { IfOk result (λ made. HasFoundPerCpu made.2.view × IsReadingKind made.2.view.kind) }
    ensures owner_stamps { IfOk result (λ made. IsOwner made.2.view × StampsAreWhole made.2.view) }
    ensures reader { IfOk result (λ made. (place_of made.3 ≡ made.0) × (numbers_of made.3.view ≡ 2 ∷ [])) }
    ensures reader_reads { IfOk result (λ made. HasFoundPerCpu made.3.view × IsReadingKind made.3.view.kind) }
{
    let (words, mut first) = Words::new(alloc, 1, TICK, start)?;
    let owner = words.split(&mut first, SeatKind::Owner(0));
    let reader = words.split(&mut first, SeatKind::Reader(0));
    Ok((words, first, owner, reader))
}

// The last value of the clock, once the seats are joined.
fn ended(words: Words, first: Seat, owner: Seat, reader: Seat) -> i64
    requires first { (place_of first ≡ words) × (numbers_of first.view ≡ 0 ∷ []) × (first.view.made ≡ 3) }
    requires owner { (place_of owner ≡ words) × (numbers_of owner.view ≡ 1 ∷ []) }
    requires reader { (place_of reader ≡ words) × (numbers_of reader.view ≡ 2 ∷ []) }
    requires cpus { 0 < words.start.cpus }
{
    end_three(words, first, owner, reader).last(0)
}

// The owner's readings at 10, 5 and 20 ns, and the last value.
fn three_readings(alloc: Global) -> Result<([Step; 3], i64), AllocError> {
    let start = opening(40, 10);
    let (words, first, mut owner, reader) = seated(alloc, start)?;
    let steps = [
        local(&words, &mut owner, 0, after(&start, 10)),
        local(&words, &mut owner, 1, after(&start, 5)),
        local(&words, &mut owner, 2, after(&start, 20)),
    ];
    Ok((steps, ended(words, first, owner, reader)))
}

#[test]
fn three_raises(rt: HostRuntime) {
    let steps = [
        step(1, 0, reading(60, 50, 40), 50, 60),
        step(1, 1, reading(55, 50, 40), 60, 60),
        step(1, 2, reading(70, 50, 40), 60, 70),
    ];
    assert_eq!(rt; three_readings(rt.alloc()), Ok((steps, 70)));
}

// The raw clock as the words open and at a reading, what that reading raises from and to, and the last value.
fn high_reading(alloc: Global) -> Result<[i64; 5], AllocError> {
    let start = opening(10, 9_223_372_036_854_775_792);
    let (words, first, mut owner, reader) = seated(alloc, start)?;
    let raw = after(&start, 10);
    let up = local(&words, &mut owner, 0, raw);
    let last = ended(words, first, owner, reader);
    Ok([start.tick_raw, raw, up.old, up.new, last])
}

#[test]
fn past_the_end_of_the_range(rt: HostRuntime) {
    let values = [
        9_223_372_036_854_775_802,
        -9_223_372_036_854_775_804,
        9_223_372_036_854_775_802,
        -9_223_372_036_854_775_804,
        -9_223_372_036_854_775_804,
    ];
    assert_eq!(rt; high_reading(rt.alloc()), Ok(values));
}

// What two seats load, and then what becomes of their exchanges; the second seat loads again for its last one.
fn exchanges(words: &Words, a: &mut Seat, b: &mut Seat, start: &Opening) -> ([i64; 3], [Put; 3])
    requires a { (place_of a.old ≡ words.now) × HasFoundPerCpu a.old.view × IsReadingKind a.old.view.kind }
    requires b { (place_of b.old ≡ words.now) × HasFoundPerCpu b.old.view × IsReadingKind b.old.view.kind }
    requires start { (start.now ≡ words.now.start.opening) × (start.now.tick_raw ≡ opens_of start.now) }
    requires tick { words.now.start.tick ≡ TICK }
    requires cpus { 0 < words.now.start.cpus }
    ensures a { (place_of a.new ≡ words.now) × (numbers_of a.new.view ≡ numbers_of a.old.view) }
    ensures b { (place_of b.new ≡ words.now) × (numbers_of b.new.view ≡ numbers_of b.old.view) }
{
    let by_a = pair(words, a, after(start, 10));
    let by_b = pair(words, b, after(start, 5));
    let old_a = clock(words, a, 0, by_a);
    let old_b = clock(words, b, 0, by_b);
    let done = put(words, a, 0, old_a, by_a);
    let lost = put(words, b, 0, old_b, by_b);
    let again = clock(words, b, 0, by_b);
    let flat = put(words, b, 0, again, by_b);
    ([old_a, old_b, again], [done, lost, flat])
}

// The same of the owner and the reader, and the last value.
fn two_exchange(alloc: Global) -> Result<(([i64; 3], [Put; 3]), i64), AllocError> {
    let start = opening(10, 10);
    let (words, first, mut owner, mut reader) = seated(alloc, start)?;
    let seen = exchanges(&words, &mut owner, &mut reader, &start);
    Ok((seen, ended(words, first, owner, reader)))
}

#[test]
fn a_lost_exchange(rt: HostRuntime) {
    let puts = [
        Put::Done(step(1, 0, reading(30, 20, 10), 20, 30)),
        Put::Lost { found: 30 },
        Put::Done(step(2, 0, reading(25, 20, 10), 30, 30)),
    ];
    assert_eq!(rt; two_exchange(rt.alloc()), Ok((([20, 20, 30], puts), 30)));
}

// A reader's loads, between whose halves the owner stamps and reads; and the steps of both.
fn half_readings(
    words: &Words,
    owner: &mut Seat,
    reader: &mut Seat,
    start: &Opening,
) -> (i64, Why, [Step; 2])
    requires owner { (place_of owner.old ≡ words.now) × HasFoundPerCpu owner.old.view × IsReadingKind owner.old.view.kind }
    requires stamps { IsOwner owner.old.view × StampsAreWhole owner.old.view }
    requires reader { (place_of reader.old ≡ words.now) × HasFoundPerCpu reader.old.view × IsReadingKind reader.old.view.kind }
    requires start { (start.now ≡ words.now.start.opening) × (start.now.tick_raw ≡ opens_of start.now) }
    requires cpus { 0 < words.now.start.cpus }
    ensures owner { (place_of owner.new ≡ words.now) × (numbers_of owner.new.view ≡ numbers_of owner.old.view) }
    ensures reader { (place_of reader.new ≡ words.now) × (numbers_of reader.new.view ≡ numbers_of reader.old.view) }
{
    let tick_raw = raw_half(words, reader);
    stamp(words, owner, 40, after(start, 30));
    let up = local(words, owner, 0, after(start, 40));
    let half_way = other_half(words, reader, after(start, 10), tick_raw);
    let flat = raised(words, reader, 0, 0, half_way);
    (tick_raw, half_way, [up, flat])
}

// The same, and the last value.
fn read_half_way(alloc: Global) -> Result<((i64, Why, [Step; 2]), i64), AllocError> {
    let start = opening(10, 10);
    let (words, first, mut owner, mut reader) = seated(alloc, start)?;
    let seen = half_readings(&words, &mut owner, &mut reader, &start);
    Ok((seen, ended(words, first, owner, reader)))
}

#[test]
fn a_reader_half_way(rt: HostRuntime) {
    let half_way = reading(30, 20, 40);
    let steps = [
        step(1, 0, reading(60, 50, 40), 20, 60),
        step(2, 0, half_way, 60, 60),
    ];
    assert_eq!(rt; read_half_way(rt.alloc()), Ok(((20, half_way, steps), 60)));
}

// What a seat shows.
type Shown = (u32, u32, SeatKind);

fn shown(seat: &Seat) -> Shown {
    (seat.number(), seat.cpu(), seat.kind())
}

// An owner's seat, a reader's and the watchdog's.
fn three_split(words: &Words, first: &mut Seat) -> (Seat, Seat, Seat)
    requires first { (place_of first.old ≡ words.now) × (first.old.view ≡ first_view words.now.start) }
    requires cpus { words.now.start.cpus ≡ 2 }
    ensures first { (place_of first.new ≡ words.now) × (numbers_of first.new.view ≡ 0 ∷ []) × (first.new.view.made ≡ 4) }
    ensures gives { MaySplit first.new.view (SeatKind.Owner 0) }
    ensures owner { (place_of result.0 ≡ words.now) × (numbers_of result.0.view ≡ 1 ∷ []) }
    ensures reader { (place_of result.1 ≡ words.now) × (numbers_of result.1.view ≡ 2 ∷ []) }
    ensures watch { (place_of result.2 ≡ words.now) × (numbers_of result.2.view ≡ 3 ∷ []) × (result.2.view.made ≡ 0) }
{
    let owner = words.split(first, SeatKind::Owner(1));
    let reader = words.split(first, SeatKind::Reader(1));
    let watch = words.split(first, SeatKind::Watch);
    (owner, reader, watch)
}

// The first seat, joined to the watchdog's, and an owner's seat that is split off after that.
fn split_late(words: &Words, watch: Seat, first: Seat) -> (Seat, Seat)
    requires first { (place_of first ≡ words.now) × (numbers_of first.view ≡ 0 ∷ []) × (first.view.made ≡ 4) }
    requires gives { MaySplit first.view (SeatKind.Owner 0) }
    requires watch { (place_of watch ≡ words.now) × (numbers_of watch.view ≡ 3 ∷ []) × (watch.view.made ≡ 0) }
    requires cpus { words.now.start.cpus ≡ 2 }
    ensures whole { (place_of result.0 ≡ words.now) × (numbers_of result.0.view ≡ 3 ∷ 0 ∷ []) × (result.0.view.made ≡ 5) }
    ensures late { (place_of result.1 ≡ words.now) × (numbers_of result.1.view ≡ 4 ∷ []) }
{
    let mut whole = words.join(watch, first);
    let late = words.split(&mut whole, SeatKind::Owner(0));
    (whole, late)
}

// Joins the seats of a late split to the others, and ends.
fn end_late(words: Words, whole: Seat, joined: Seat, late: Seat) -> Closed
    requires whole { (place_of whole ≡ words) × (numbers_of whole.view ≡ 3 ∷ 0 ∷ []) × (whole.view.made ≡ 5) }
    requires joined { (place_of joined ≡ words) × (numbers_of joined.view ≡ 1 ∷ 2 ∷ []) }
    requires late { (place_of late ≡ words) × (numbers_of late.view ≡ 4 ∷ []) }
    ensures { result.start ≡ words.start }
{
    let whole = words.join(words.join(whole, joined), late);
    words.finish(whole)
}

// What seats show after three splits, and after a join and a late split; and the last values.
fn all_shown(alloc: Global) -> Result<([Shown; 4], (Shown, u32), [i64; 2]), AllocError> {
    let (words, mut first) = Words::new(alloc, 2, TICK, opening(10, 10))?;
    let (owner, reader, watch) = three_split(&words, &mut first);
    let split = [shown(&first), shown(&owner), shown(&reader), shown(&watch)];
    let joined = words.join(owner, reader);
    let (whole, late) = split_late(&words, watch, first);
    let after = (shown(&joined), late.number());
    let closed = end_late(words, whole, joined, late);
    Ok((split, after, [closed.last(0), closed.last(1)]))
}

#[test]
fn what_a_split_shows(rt: HostRuntime) {
    let split = [
        (0, 0, SeatKind::Reader(0)),
        (1, 1, SeatKind::Owner(1)),
        (2, 1, SeatKind::Reader(1)),
        (3, 0, SeatKind::Watch),
    ];
    let after = ((1, 1, SeatKind::Owner(1)), 4);
    assert_eq!(rt; all_shown(rt.alloc()), Ok((split, after, [20, 20])));
}
