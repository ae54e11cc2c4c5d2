//! The watchdog's steps, which end the stable mode: the offset and each CPU's pair, a lift of each clock word, and last
//! the mode.
ghost use Rattle.std.specs.Prelude.{◌≡◌, ◌+◌, ◌<◌};
ghost use Rattle.clk_num.specs.Wrapping.{raise};
ghost use Rattle.clk_record.specs.declared.step.Why.TheVariants.{Lift};
ghost use Rattle.clk_words.specs.Histories.{opens_at};
ghost use Rattle.clk_words.specs.Bounds.{IsGtod, IsRaw, IsOffset, IsLiftValue};
ghost use Rattle.clk_words.specs.Parts.{gtod_of, raw_of};
ghost use Rattle.clk_words.specs.Knowing.{MayDemote, HoldsInRange, HasCloned, HasLifted};
ghost use Rattle.clk_words.specs.Told.{offset_put, pair_cloned, published, Lifts};
ghost use Rattle.clk_words.specs.Held.{place_of};
ghost use Rattle.clk_words.specs.Calls.{step_of};

use crate::heights::{value_at, word_at};
use crate::rule::{Lifting, ModeStore, OffsetStore, Opens, PairStore};
use crate::seat::Seat;
use crate::words::Words;
use clk_num::{bits_of, raise};
use clk_record::{Step, Why};
use std::marker::Brand;

impl Words {
    /// Stores the offset, in ns, within 2^59 - 2^42 of the words' opening by the sign of the difference. The seat has
    /// the watchdog's right, and the mode is stable by its view. One store, which takes no memory and does not wait.
    pub fn publish_offset(&self, seat: &mut Seat, value: i64)
        requires own { place_of seat.old ≡ self.now }
        requires may { MayDemote seat.old.view }
        requires bound { IsOffset (opens_at self.now.start) value }
        ensures own { place_of seat.new ≡ self.now }
        ensures put { seat.new.view ≡ offset_put value seat.old.view }
    {
        let word = self.offset_place();
        let new = bits_of(value);
        self.table
            .shared
            .store::<OffsetStore>(&mut seat.at, word, new);
    }

    /// Stores the GTOD of CPU `w`, 0 to 2^42 ns, which is of its stamp 0 if the mode becomes per-CPU next. The seat has
    /// the watchdog's right, and the mode is stable by its view; so the offset that it holds, the opening's or its
    /// last, is in the range that `publish_offset` asks for. One store, which takes no memory and does not wait.
    pub fn clone_gtod(&self, seat: &mut Seat, w: u32, value: i64)
        requires own { place_of seat.old ≡ self.now }
        requires may { MayDemote seat.old.view }
        requires word { w < self.now.start.cpus }
        requires bound { IsGtod value }
        ensures own { place_of seat.new ≡ self.now }
        ensures cloned { seat.new.view ≡ pair_cloned (gtod_of w) value seat.old.view }
        ensures holds { HoldsInRange seat.old.view }
    {
        let word = self.gtod_word(w);
        let new = bits_of(value);
        self.table
            .shared
            .store::<PairStore>(&mut seat.at, word, new);
    }

    /// Stores the raw value of CPU `w`, within 2^59 ns of the words' opening by the sign of the difference. The seat
    /// has the watchdog's right, and the mode is stable by its view; so the offset that it holds, the opening's or its
    /// last, is in the range that `publish_offset` asks for. One store, which takes no memory and does not wait.
    pub fn clone_raw(&self, seat: &mut Seat, w: u32, value: i64)
        requires own { place_of seat.old ≡ self.now }
        requires may { MayDemote seat.old.view }
        requires word { w < self.now.start.cpus }
        requires bound { IsRaw (opens_at self.now.start) value }
        ensures own { place_of seat.new ≡ self.now }
        ensures cloned { seat.new.view ≡ pair_cloned (raw_of w) value seat.old.view }
        ensures holds { HoldsInRange seat.old.view }
    {
        let word = self.raw_word(w);
        let new = bits_of(value);
        self.table
            .shared
            .store::<PairStore>(&mut seat.at, word, new);
    }

    /// Raises the clock word of CPU `w` to `value`, the wrapped sum of a GTOD and an offset in range. `call` is the
    /// caller's own number, which the step shows. Linux 6.1 stores the word in `__sched_clock_work`. The seat has the
    /// watchdog's right, and the mode is stable by its view. One fetch_max, which takes no memory and does not wait.
    pub fn lift(&self, seat: &mut Seat, call: u32, w: u32, value: i64) -> Step
        requires own { place_of seat.old ≡ self.now }
        requires may { MayDemote seat.old.view }
        requires word { w < self.now.start.cpus }
        requires value { IsLiftValue (opens_at self.now.start) value }
        ensures own { place_of seat.new ≡ self.now }
        ensures step { result ≡ step_of seat.old.view call w result.old (raise result.old value) (Lift value) }
        ensures lifts { Lifts seat.old.view result seat.new.view }
    {
        self.lift_to::<Brand>(seat, call, w, value)
    }

    fn lift_to<A: Opens>(&self, seat: &mut Seat, call: u32, w: u32, value: i64) -> Step
        requires own { place_of seat.old ≡ self.now }
        requires may { MayDemote seat.old.view }
        requires word { w < self.now.start.cpus }
        requires value { IsLiftValue (opens_at self.now.start) value }
        requires call { A.call ≡ call }
        requires to { A.value ≡ value }
        ensures own { place_of seat.new ≡ self.now }
        ensures step { result ≡ step_of seat.old.view call w result.old (raise result.old value) (Lift value) }
        ensures lifts { Lifts seat.old.view result seat.new.view }
    {
        let shared = &self.table.shared;
        let by = seat.number;
        let opens = self.opens;
        let most = word_at(opens, value);
        let found = shared.fetch_max::<Lifting<A>>(&mut seat.at, w as usize, most);
        let old = value_at(opens, found);
        let new = raise(old, value);
        Step {
            by,
            call,
            word: w,
            why: Why::Lift { value },
            old,
            new,
        }
    }

    /// Makes the mode per-CPU, for good. The seat has the watchdog's right, the mode is stable by its view, and it has
    /// stored a pair for each CPU and lifted each word. One store, which takes no memory and does not wait.
    pub fn publish_mode(&self, seat: &mut Seat)
        requires own { place_of seat.old ≡ self.now }
        requires may { MayDemote seat.old.view }
        requires cloned { HasCloned seat.old.view }
        requires lifted { HasLifted seat.old.view }
        ensures own { place_of seat.new ≡ self.now }
        ensures published { seat.new.view ≡ published seat.old.view }
    {
        let word = self.mode_place();
        self.table.shared.store::<ModeStore>(&mut seat.at, word, 1);
    }
}
