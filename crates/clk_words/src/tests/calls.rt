//! Callers of the words, as a local and a remote reading make them.
ghost use Rattle.std.specs.Prelude.{◌≡◌, ◌<◌, [], ◌∷◌};
ghost use Rattle.clk_num.specs.Range.{IsNear};
ghost use Rattle.clk_words.specs.Kinds.{cpu_of};
ghost use Rattle.clk_words.specs.Histories.{opens_at};
ghost use Rattle.clk_words.specs.Bounds.{opens_of, IsGtod, IsRaw, IsOpening};
ghost use Rattle.clk_words.specs.Knowing.{HasFoundPerCpu, HasLoaded, IsOwner, IsReadingKind, IsTrusted, StampsAreWhole, numbers_of};
ghost use Rattle.clk_words.specs.Held.{place_of};
ghost use Rattle.clk_words.specs.Calls.{KeepsSeat};

use crate::raises::target;
use crate::view::Name;
use crate::{Closed, Mode, Opening, Put, Seat, Step, Why, Words};
use clk_num::raise;

pub const TICK: i64 = 1_000_000;

// The words open at the raw reading of the last boot stamp.
pub fn opening(tick_gtod: i64, offset: i64) -> Opening
    requires { IsGtod tick_gtod }
    ensures opening { IsOpening result }
    ensures mode { result.mode ≡ Mode.PerCpu }
    ensures raw { result.tick_raw ≡ opens_of result }
{
    opening_in(Mode::PerCpu, tick_gtod, offset)
}

pub fn opening_in(mode: Mode, tick_gtod: i64, offset: i64) -> Opening
    requires { IsGtod tick_gtod }
    ensures opening { IsOpening result }
    ensures mode { result.mode ≡ mode }
    ensures raw { result.tick_raw ≡ opens_of result }
    ensures offset { result.offset ≡ offset }
{
    Opening {
        mode,
        offset,
        tick_gtod,
        tick_raw: tick_gtod.wrapping_add(offset),
    }
}

// The raw clock so many ns after that.
pub fn after(start: &Opening, ns: i64) -> i64
    requires ns { IsNear 59 ns }
    requires raw { start.now.tick_raw ≡ opens_of start.now }
    ensures { IsRaw (opens_of start.now) result }
{
    start.tick_raw.wrapping_add(ns)
}

// The raw half of a pair.
pub fn raw_half(words: &Words, seat: &mut Seat) -> i64
    requires own { place_of seat.old ≡ words.now }
    requires found { HasFoundPerCpu seat.old.view }
    requires reading { IsReadingKind seat.old.view.kind }
    ensures own { place_of seat.new ≡ words.now }
    ensures kept { KeepsSeat seat.old.view seat.new.view }
    ensures loaded { HasLoaded seat.new.view (Name.Raw (cpu_of seat.new.view.kind)) result }
    ensures turn { IsOwner seat.old.view → StampsAreWhole seat.old.view → StampsAreWhole seat.new.view }
{
    words.load_raw(seat)
}

// The other half, and the offset.
pub fn other_half(words: &Words, seat: &mut Seat, raw: i64, tick_raw: i64) -> Why
    requires own { place_of seat.old ≡ words.now }
    requires found { HasFoundPerCpu seat.old.view }
    requires reading { IsReadingKind seat.old.view.kind }
    requires raw { IsRaw (opens_at words.now.start) raw }
    requires loaded { HasLoaded seat.old.view (Name.Raw (cpu_of seat.old.view.kind)) tick_raw }
    ensures own { place_of seat.new ≡ words.now }
    ensures kept { KeepsSeat seat.old.view seat.new.view }
    ensures trusted { IsTrusted seat.new.view result }
    ensures turn { IsOwner seat.old.view → StampsAreWhole seat.old.view → StampsAreWhole seat.new.view }
{
    let tick_gtod = words.load_gtod(seat);
    let offset = words.load_offset(seat);
    Why::Raise {
        raw,
        tick_raw,
        tick_gtod,
        offset,
    }
}

// The pair and the offset of a local reading, in the order in which it loads them.
pub fn pair(words: &Words, seat: &mut Seat, raw: i64) -> Why
    requires own { place_of seat.old ≡ words.now }
    requires found { HasFoundPerCpu seat.old.view }
    requires reading { IsReadingKind seat.old.view.kind }
    requires raw { IsRaw (opens_at words.now.start) raw }
    ensures own { place_of seat.new ≡ words.now }
    ensures kept { KeepsSeat seat.old.view seat.new.view }
    ensures trusted { IsTrusted seat.new.view result }
    ensures turn { IsOwner seat.old.view → StampsAreWhole seat.old.view → StampsAreWhole seat.new.view }
{
    let tick_raw = raw_half(words, seat);
    other_half(words, seat, raw, tick_raw)
}

// A whole stamp.
pub fn stamp(words: &Words, seat: &mut Seat, gtod: i64, raw: i64)
    requires own { place_of seat.old ≡ words.now }
    requires found { HasFoundPerCpu seat.old.view }
    requires owner { IsOwner seat.old.view }
    requires gtod { IsGtod gtod }
    requires raw { IsRaw (opens_at words.now.start) raw }
    requires turn { StampsAreWhole seat.old.view }
    ensures own { place_of seat.new ≡ words.now }
    ensures kept { KeepsSeat seat.old.view seat.new.view }
    ensures turn { StampsAreWhole seat.new.view }
{
    words.stamp_gtod(seat, gtod);
    words.stamp_raw(seat, raw);
}

// A local reading of the seat's CPU: the pair, and then the raise.
pub fn local(words: &Words, seat: &mut Seat, call: u32, raw: i64) -> Step
    requires own { place_of seat.old ≡ words.now }
    requires found { HasFoundPerCpu seat.old.view }
    requires reading { IsReadingKind seat.old.view.kind }
    requires raw { IsRaw (opens_at words.now.start) raw }
    ensures own { place_of seat.new ≡ words.now }
    ensures kept { KeepsSeat seat.old.view seat.new.view }
    ensures turn { IsOwner seat.old.view → StampsAreWhole seat.old.view → StampsAreWhole seat.new.view }
{
    let why = pair(words, seat, raw);
    let cpu = seat.cpu();
    raised(words, seat, call, cpu, why)
}

// Raises a clock word to what was loaded.
pub fn raised(words: &Words, seat: &mut Seat, call: u32, w: u32, why: Why) -> Step
    requires own { place_of seat.old ≡ words.now }
    requires found { HasFoundPerCpu seat.old.view }
    requires word { w < words.now.start.cpus }
    requires trusted { IsTrusted seat.old.view why }
    ensures own { place_of seat.new ≡ words.now }
    ensures kept { KeepsSeat seat.old.view seat.new.view }
    ensures turn { StampsAreWhole seat.old.view → StampsAreWhole seat.new.view }
{
    words.raise(seat, call, w, why)
}

// Loads the clock word of a CPU, after the words that `why` names.
pub fn clock(words: &Words, seat: &mut Seat, w: u32, why: Why) -> i64
    requires own { place_of seat.old ≡ words.now }
    requires word { w < words.now.start.cpus }
    requires trusted { IsTrusted seat.old.view why }
    ensures own { place_of seat.new ≡ words.now }
    ensures kept { KeepsSeat seat.old.view seat.new.view }
    ensures loaded { HasLoaded seat.new.view (Name.Clock w) result }
    ensures trusted { IsTrusted seat.new.view why }
    ensures turn { StampsAreWhole seat.old.view → StampsAreWhole seat.new.view }
{
    let _ = why;
    words.load_clock(seat, w)
}

// Tries once to put what `why` wants, over a value that was loaded.
pub fn put(words: &Words, seat: &mut Seat, w: u32, old: i64, why: Why) -> Put
    requires own { place_of seat.old ≡ words.now }
    requires found { HasFoundPerCpu seat.old.view }
    requires word { w < words.now.start.cpus }
    requires tick { words.now.start.tick ≡ TICK }
    requires old { HasLoaded seat.old.view (Name.Clock w) old }
    requires trusted { IsTrusted seat.old.view why }
    ensures own { place_of seat.new ≡ words.now }
    ensures kept { KeepsSeat seat.old.view seat.new.view }
    ensures trusted { IsTrusted seat.new.view why }
{
    let new = raise(old, target(TICK, &why));
    words.try_put(seat, 0, w, old, new, why)
}

// Joins the seats that were split off to the first one, and ends.
pub fn end_three(words: Words, first: Seat, a: Seat, b: Seat) -> Closed
    requires first { (place_of first ≡ words) × (numbers_of first.view ≡ 0 ∷ []) × (first.view.made ≡ 3) }
    requires second { (place_of a ≡ words) × (numbers_of a.view ≡ 1 ∷ []) }
    requires third { (place_of b ≡ words) × (numbers_of b.view ≡ 2 ∷ []) }
    ensures { result.start ≡ words.start }
{
    let whole = words.join(words.join(first, a), b);
    words.finish(whole)
}
