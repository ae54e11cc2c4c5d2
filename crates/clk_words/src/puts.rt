//! The exchange by which a clock word is raised.
ghost use Rattle.std.specs.Prelude.{◌≡◌, ◌<◌};
ghost use Rattle.clk_num.specs.Wrapping.{raise};
ghost use Rattle.clk_record.specs.Targets.{target};
ghost use Rattle.clk_words.specs.Knowing.{HasFoundPerCpu, HasLoaded, IsTrusted};
ghost use Rattle.clk_words.specs.Told.{Makes};
ghost use Rattle.clk_words.specs.Held.{place_of};
ghost use Rattle.clk_words.specs.Calls.{OnDone, OnLost, Loses, step_of};

use crate::heights::{value_at, word_at};
use crate::rule::Exchange;
use crate::seat::Seat;
use crate::step::Put;
use crate::view::Name;
use crate::words::Words;
use clk_record::{Step, Why};

impl Words {
    /// Puts `new`, which is `old` raised to the target of `why`, into the clock word of CPU `w`, if that holds `old`
    /// still. The seat has loaded `old` from that word, and the values that `why` names, a `Raise` or a `Couple`.
    /// `call` is the caller's own number, which the step shows. `Lost` comes exactly where the word held `found`,
    /// another value than `old`; then `found` is above `old` and nothing changed. One exchange, which takes no memory
    /// and does not wait.
    pub fn try_put(&self, seat: &mut Seat, call: u32, w: u32, old: i64, new: i64, why: Why) -> Put
        requires own { place_of seat.old ≡ self.now }
        requires found { HasFoundPerCpu seat.old.view }
        requires word { w < self.now.start.cpus }
        requires loaded { HasLoaded seat.old.view (Name.Clock w) old }
        requires trusted { IsTrusted seat.old.view why }
        requires new { new ≡ raise old (target self.now.start.tick why) }
        ensures own { place_of seat.new ≡ self.now }
        ensures done { OnDone result
            (λ s. (s ≡ step_of seat.old.view call w old new why) × Makes seat.old.view s seat.new.view) }
        ensures lost { OnLost result (λ found. Loses seat.old.view w old found seat.new.view) }
    {
        let step = Step {
            by: seat.number,
            call,
            word: w,
            why,
            old,
            new,
        };
        let opens = self.opens;
        let wanted = word_at(opens, old);
        let found = self.table.shared.compare_exchange_with::<Exchange>(
            &mut seat.at,
            w as usize,
            wanted,
            word_at(opens, new),
            &step,
        );
        if found == wanted {
            Put::Done(step)
        } else {
            Put::Lost {
                found: value_at(opens, found),
            }
        }
    }
}
