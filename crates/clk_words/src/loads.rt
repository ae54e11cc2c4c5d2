//! The loads, each of one word.
ghost use Rattle.std.specs.Prelude.{◌≡◌, ◌+◌, ◌*◌, ◌<◌};
ghost use Rattle.clk_words.specs.Kinds.{cpu_of};
ghost use Rattle.clk_words.specs.Views.{mode_of};
ghost use Rattle.clk_words.specs.Knowing.{HasFoundPerCpu, IsReadingKind};
ghost use Rattle.clk_words.specs.Held.{place_of};
ghost use Rattle.clk_words.specs.Told.{Loads, FindsGtod, FindsRaw, FindsMode, FindsOffset};

use crate::heights::value_at;
use crate::rule::{ClockLoad, GtodLoad, ModeLoad, OffsetLoad, RawLoad};
use crate::seat::Seat;
use crate::words::Words;
use clk_num::value_of_bits;
use clk_record::Mode;

impl Words {
    /// The value of the clock word of CPU `w`, in ns. One load, which takes no memory and does not wait.
    pub fn load_clock(&self, seat: &mut Seat, w: u32) -> i64
        requires own { place_of seat.old ≡ self.now }
        requires word { w < self.now.start.cpus }
        ensures own { place_of seat.new ≡ self.now }
        ensures loads { Loads seat.old.view w result seat.new.view }
    {
        let word = w as usize;
        let found = self.table.shared.load::<ClockLoad>(&mut seat.at, word);
        value_at(self.opens, found)
    }

    /// The GTOD of the last stamp of the seat's CPU, in ns. One load, which takes no memory and does not wait.
    pub fn load_gtod(&self, seat: &mut Seat) -> i64
        requires own { place_of seat.old ≡ self.now }
        requires found { HasFoundPerCpu seat.old.view }
        requires reading { IsReadingKind seat.old.view.kind }
        ensures own { place_of seat.new ≡ self.now }
        ensures finds { FindsGtod seat.old.view (cpu_of seat.old.view.kind) result seat.new.view }
    {
        let word = self.gtod_word(seat.cpu());
        value_of_bits(self.table.shared.load::<GtodLoad>(&mut seat.at, word))
    }

    /// The raw value of the last stamp of the seat's CPU, in ns. One load, which takes no memory and does not wait.
    pub fn load_raw(&self, seat: &mut Seat) -> i64
        requires own { place_of seat.old ≡ self.now }
        requires found { HasFoundPerCpu seat.old.view }
        requires reading { IsReadingKind seat.old.view.kind }
        ensures own { place_of seat.new ≡ self.now }
        ensures finds { FindsRaw seat.old.view (cpu_of seat.old.view.kind) result seat.new.view }
    {
        let word = self.raw_word(seat.cpu());
        value_of_bits(self.table.shared.load::<RawLoad>(&mut seat.at, word))
    }

    /// The offset between GTOD and the per-CPU clocks, in ns, which does not change once the mode is per-CPU. One load,
    /// which takes no memory and does not wait.
    pub fn load_offset(&self, seat: &mut Seat) -> i64
        requires own { place_of seat.old ≡ self.now }
        requires found { HasFoundPerCpu seat.old.view }
        requires reading { IsReadingKind seat.old.view.kind }
        ensures own { place_of seat.new ≡ self.now }
        ensures finds { FindsOffset seat.old.view result seat.new.view }
    {
        let word = self.offset_place();
        value_of_bits(self.table.shared.load::<OffsetLoad>(&mut seat.at, word))
    }

    /// A look at the mode, as `sched_clock_stable` makes it. Once per-CPU it stays so. One load, which takes no memory
    /// and does not wait.
    pub fn look_mode(&self, seat: &mut Seat) -> Mode
        requires own { place_of seat.old ≡ self.now }
        ensures own { place_of seat.new ≡ self.now }
        ensures finds { FindsMode seat.old.view result seat.new.view }
    {
        let word = self.mode_place();
        mode_in(self.table.shared.load::<ModeLoad>(&mut seat.at, word))
    }

    // The places of the mode and the offset among the words, behind all others.
    pub(crate) fn mode_place(&self) -> usize
        ensures word { result ≡ 3 * self.now.start.cpus }
        ensures within { result < self.now.table.words }
    {
        3 * self.cpus as usize
    }

    pub(crate) fn offset_place(&self) -> usize
        ensures word { result ≡ 3 * self.now.start.cpus + 1 }
        ensures within { result < self.now.table.words }
    {
        3 * self.cpus as usize + 1
    }
}

// The mode that its word says.
fn mode_in(word: u64) -> Mode
    ensures { result ≡ mode_of word }
{
    if word == 0 {
        Mode::Stable
    } else {
        Mode::PerCpu
    }
}
