//! The words at the end, with their history.
ghost use Rattle.std.specs.Prelude.{◌≡◌, ◌<◌};
ghost use Rattle.clk_words.specs.Histories.{opens_at, value_after};

use crate::heights::value_at;
use crate::view::View;
use clk_record::Step;
use std::alloc::Global;
use std::marker::Model;
use std::snapshot::Snapshot;

/// The words at the end.
///
/// A contract sees what they began with and their whole history.
pub struct Closed {
    pub(crate) cpus: u32,
    pub(crate) opens: i64,
    pub(crate) words: atomic_table::Closed<Step, Global>,
    pub(crate) last: Snapshot<atomic_table::Seat<Step, View>>,
}

impl Model for Closed {
    ghost use Rattle.clk_words.specs.Held.{Ended};

    ghost Value = { Ended };

    ghost use Rattle.std.specs.Slots.{slots_items, slots_len, IsFull};
    ghost use Rattle.std.specs.Prelude.{◌≡◌};
    ghost use Rattle.clk_words.specs.Histories.{opens_at};
    ghost use Rattle.clk_words.specs.WordSeats.{AreEnded};

    ghost view = { λ c. record { start = c.last.value.me.0.start; history = c.last.value.me.0.seen } };

    ghost invariant = { λ c. let last = c.last.value.me.0 in (c.cpus ≡ last.start.cpus) × (c.opens ≡ opens_at last.start) × IsFull c.words.words
        × (slots_len c.words.slots ≡ 0) × AreEnded last.start last.seen (slots_items c.words.words) };
}

impl Closed {
    /// The last value of the clock word of a CPU, in ns.
    pub fn last(&self, w: u32) -> i64
        requires { w < self.now.start.cpus }
        ensures { result ≡ value_after (opens_at self.now.start) w self.now.history }
    {
        value_at(self.opens, self.words.word(w as usize))
    }
}

impl Drop for Closed {
    fn drop(self) {
        let Closed {
            cpus: _,
            opens: _,
            words,
            last: _,
        } = self;
        words.free();
    }
}
