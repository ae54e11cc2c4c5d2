//! The rule over the words and all views, and what each step tells.
use crate::kind::SeatKind;
use crate::opening::Start;
use crate::view::View;
use atomic_table::{Join, Play, Split, TableRule};
use clk_record::Step;
use std::marker::{Brand, PhantomData};

pub struct OneHistory;

impl TableRule<Step, View, Start> for OneHistory {
    ghost use Rattle.clk_words.specs.WordsRule.{Kept};
    ghost use Rattle.clk_words.specs.Views.{first_view};

    ghost holds = { Kept };

    ghost first = { first_view };
}

// A load of a clock word.
pub(crate) struct ClockLoad;

impl Play<Step, View> for ClockLoad {
    ghost use Rattle.clk_words.specs.Told.{LoadedClock};

    ghost then = { LoadedClock };
}

// An exchange of a clock word, which is told the step that it makes.
pub(crate) struct Exchange;

impl Play<Step, View> for Exchange {
    ghost use Rattle.clk_words.specs.Told.{Exchanged};

    ghost then = { Exchanged };
}

// What a raise is asked for. Its caller picks it, since a step is told numbers alone.
pub(crate) trait Asked {
    ghost use Rattle.std.specs.Prelude.{ℕ};
    ghost use Rattle.clk_record.specs.declared.step.Why.{Why};

    ghost call: { ℕ };

    ghost why: { Why };
}

impl Asked for Brand {
    ghost use Rattle.std.specs.Prelude.{pos};
    ghost use Rattle.clk_record.specs.declared.step.Why.TheVariants.{Lift};

    ghost call = { 0 };

    ghost why = { Lift (pos 0) };
}

// A raise of a clock word.
pub(crate) struct Greatest<A> {
    asked: PhantomData<A>,
}

impl<A: Asked> Play<Step, View> for Greatest<A> {
    ghost use Rattle.clk_words.specs.Told.{Raised};

    ghost then = { Raised A.call A.why };
}

// A load of the GTOD of the seat's CPU.
pub(crate) struct GtodLoad;

impl Play<Step, View> for GtodLoad {
    ghost use Rattle.clk_words.specs.Told.{LoadedGtod};

    ghost then = { LoadedGtod };
}

// A load of the raw value of the seat's CPU.
pub(crate) struct RawLoad;

impl Play<Step, View> for RawLoad {
    ghost use Rattle.clk_words.specs.Told.{LoadedRaw};

    ghost then = { LoadedRaw };
}

// A look at the mode.
pub(crate) struct ModeLoad;

impl Play<Step, View> for ModeLoad {
    ghost use Rattle.clk_words.specs.Told.{LookedMode};

    ghost then = { LookedMode };
}

// A load of the offset.
pub(crate) struct OffsetLoad;

impl Play<Step, View> for OffsetLoad {
    ghost use Rattle.clk_words.specs.Told.{LoadedOffset};

    ghost then = { LoadedOffset };
}

// The owner's store of a GTOD.
pub(crate) struct GtodStore;

impl Play<Step, View> for GtodStore {
    ghost use Rattle.clk_words.specs.Told.{StoredGtod};

    ghost then = { StoredGtod };
}

// The owner's store of a raw value.
pub(crate) struct RawStore;

impl Play<Step, View> for RawStore {
    ghost use Rattle.clk_words.specs.Told.{StoredRaw};

    ghost then = { StoredRaw };
}

// The watchdog's store of the offset.
pub(crate) struct OffsetStore;

impl Play<Step, View> for OffsetStore {
    ghost use Rattle.clk_words.specs.Told.{StoredOffset};

    ghost then = { StoredOffset };
}

// The watchdog's store to a stamp word.
pub(crate) struct PairStore;

impl Play<Step, View> for PairStore {
    ghost use Rattle.clk_words.specs.Told.{Cloned};

    ghost then = { Cloned };
}

// The watchdog's store of the mode.
pub(crate) struct ModeStore;

impl Play<Step, View> for ModeStore {
    ghost use Rattle.clk_words.specs.Told.{StoredMode};

    ghost then = { StoredMode };
}

// What a lift is asked for.
pub(crate) trait Opens {
    ghost use Rattle.std.specs.Prelude.{ℕ, ℤ};

    ghost call: { ℕ };

    ghost value: { ℤ };
}

impl Opens for Brand {
    ghost use Rattle.std.specs.Prelude.{pos};

    ghost call = { 0 };

    ghost value = { pos 0 };
}

// A lift of a clock word.
pub(crate) struct Lifting<A> {
    asked: PhantomData<A>,
}

impl<A: Opens> Play<Step, View> for Lifting<A> {
    ghost use Rattle.clk_words.specs.Told.{Lifted};

    ghost then = { Lifted A.call A.value };
}

// A join tells nothing of its own, so this load tells how what was kept stands to what each side had.
pub(crate) struct Meet;

impl Play<Step, View> for Meet {
    ghost use Rattle.clk_words.specs.Told.{Met};

    ghost then = { Met };
}

// The kind that a split gives. Its caller picks it, since a split has no argument of its own.
pub(crate) trait Gift {
    ghost use Rattle.clk_words.specs.declared.kind.SeatKind.{SeatKind};

    ghost kind: { SeatKind };
}

impl Gift for Brand {
    ghost use Rattle.clk_words.specs.declared.kind.SeatKind.TheVariants.{Watch};

    ghost kind = { Watch };
}

pub(crate) struct Give<G> {
    gift: PhantomData<G>,
}

impl<G: Gift> Split<View> for Give<G> {
    ghost use Rattle.clk_words.specs.Views.{giver_view, given_view};

    ghost left = { giver_view G.kind };

    ghost right = { given_view G.kind };
}

pub(crate) struct Glue;

impl Join<View> for Glue {
    ghost use Rattle.clk_words.specs.Views.{joint_view, spent_view};

    ghost both = { joint_view };

    ghost spent = { spent_view };
}
