//! An owner's stamp of its CPU: the GTOD first, then the raw value.
ghost use Rattle.std.specs.Prelude.{◌≡◌, ◌+◌, ◌*◌, ◌<◌};
ghost use Rattle.clk_words.specs.Kinds.{cpu_of};
ghost use Rattle.clk_words.specs.Histories.{opens_at};
ghost use Rattle.clk_words.specs.Bounds.{IsGtod, IsRaw};
ghost use Rattle.clk_words.specs.Parts.{gtod_of, raw_of};
ghost use Rattle.clk_words.specs.Knowing.{HasFoundPerCpu, IsOwner, StampsAreWhole, StampsAreHalf};
ghost use Rattle.clk_words.specs.Held.{place_of};
ghost use Rattle.clk_words.specs.Told.{stamped};

use crate::rule::{GtodStore, RawStore};
use crate::seat::Seat;
use crate::words::Words;
use clk_num::bits_of;

impl Words {
    /// Stores the GTOD of a new stamp, 0 to 2^42 ns. As many raws as GTODs follow stamp 0 by the seat's view. One
    /// store, which takes no memory and does not wait.
    pub fn stamp_gtod(&self, seat: &mut Seat, value: i64)
        requires own { place_of seat.old ≡ self.now }
        requires found { HasFoundPerCpu seat.old.view }
        requires owner { IsOwner seat.old.view }
        requires bound { IsGtod value }
        requires turn { StampsAreWhole seat.old.view }
        ensures own { place_of seat.new ≡ self.now }
        ensures stamped { seat.new.view ≡ stamped (gtod_of (cpu_of seat.old.view.kind)) value seat.old.view }
        ensures turn { StampsAreHalf seat.new.view }
    {
        let word = self.gtod_word(seat.cpu());
        let new = bits_of(value);
        self.table
            .shared
            .store::<GtodStore>(&mut seat.at, word, new);
    }

    /// Stores the raw value of a new stamp, within 2^59 ns of the words' opening by the sign of the difference. One
    /// GTOD more than raws follows stamp 0 by the seat's view. One store, which takes no memory and does not wait.
    pub fn stamp_raw(&self, seat: &mut Seat, value: i64)
        requires own { place_of seat.old ≡ self.now }
        requires found { HasFoundPerCpu seat.old.view }
        requires owner { IsOwner seat.old.view }
        requires bound { IsRaw (opens_at self.now.start) value }
        requires turn { StampsAreHalf seat.old.view }
        ensures own { place_of seat.new ≡ self.now }
        ensures stamped { seat.new.view ≡ stamped (raw_of (cpu_of seat.old.view.kind)) value seat.old.view }
        ensures turn { StampsAreWhole seat.new.view }
    {
        let word = self.raw_word(seat.cpu());
        let new = bits_of(value);
        self.table.shared.store::<RawStore>(&mut seat.at, word, new);
    }

    // The places of a CPU's pair among the words: behind the clocks, two for each CPU.
    pub(crate) fn gtod_word(&self, cpu: u32) -> usize
        requires { cpu < self.now.start.cpus }
        ensures word { result ≡ self.now.start.cpus + gtod_of cpu }
        ensures within { result < self.now.table.words }
    {
        self.cpus as usize + 2 * cpu as usize
    }

    pub(crate) fn raw_word(&self, cpu: u32) -> usize
        requires { cpu < self.now.start.cpus }
        ensures word { result ≡ self.now.start.cpus + raw_of cpu }
        ensures within { result < self.now.table.words }
    {
        self.cpus as usize + 2 * cpu as usize + 1
    }
}
