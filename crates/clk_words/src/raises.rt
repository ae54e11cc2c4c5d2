//! The step by which a clock word is raised.
ghost use Rattle.std.specs.Prelude.{◌≡◌, ◌<◌};
ghost use Rattle.clk_num.specs.Wrapping.{raise};
ghost use Rattle.clk_record.specs.Targets.{target};
ghost use Rattle.clk_words.specs.Knowing.{HasFoundPerCpu, IsTrusted};
ghost use Rattle.clk_words.specs.Told.{Raises};
ghost use Rattle.clk_words.specs.Held.{place_of};
ghost use Rattle.clk_words.specs.Calls.{step_of};

use crate::heights::{value_at, word_at};
use crate::rule::{Asked, Greatest};
use crate::seat::Seat;
use crate::words::Words;
use clk_num::{above, raise, target_local};
use clk_record::{Step, Why};
use std::marker::Brand;

impl Words {
    /// Raises the clock word of CPU `w` to the target of `why`, a `Raise` or a `Couple` whose values the seat has
    /// loaded. `call` is the caller's own number, which the step shows. `old` is what the word held, and the step
    /// stands in the history, also where it leaves the word as it was. It does what the exchange of `sched_clock_local`
    /// and `sched_clock_remote` of Linux 6.1 does once it succeeds, and never fails. One fetch_max, which takes no
    /// memory and does not wait.
    pub fn raise(&self, seat: &mut Seat, call: u32, w: u32, why: Why) -> Step
        requires own { place_of seat.old ≡ self.now }
        requires found { HasFoundPerCpu seat.old.view }
        requires word { w < self.now.start.cpus }
        requires trusted { IsTrusted seat.old.view why }
        ensures own { place_of seat.new ≡ self.now }
        ensures step { result ≡ step_of seat.old.view call w result.old (raise result.old (target self.now.start.tick why)) why }
        ensures raises { Raises seat.old.view result seat.new.view }
    {
        self.raise_by::<Brand>(seat, call, w, why)
    }

    fn raise_by<A: Asked>(&self, seat: &mut Seat, call: u32, w: u32, why: Why) -> Step
        requires own { place_of seat.old ≡ self.now }
        requires found { HasFoundPerCpu seat.old.view }
        requires word { w < self.now.start.cpus }
        requires trusted { IsTrusted seat.old.view why }
        requires call { A.call ≡ call }
        requires why { A.why ≡ why }
        ensures own { place_of seat.new ≡ self.now }
        ensures step { result ≡ step_of seat.old.view call w result.old (raise result.old (target self.now.start.tick why)) why }
        ensures raises { Raises seat.old.view result seat.new.view }
    {
        let shared = &self.table.shared;
        let by = seat.number;
        let opens = self.opens;
        let wanted = target(self.tick, &why);
        let most = word_at(opens, wanted);
        let found = shared.fetch_max::<Greatest<A>>(&mut seat.at, w as usize, most);
        let old = value_at(opens, found);
        let new = raise(old, wanted);
        Step {
            by,
            call,
            word: w,
            why,
            old,
            new,
        }
    }
}

/// Where a step wants its word to be, in ns.
pub(crate) fn target(tick: i64, why: &Why) -> i64
    ensures { result ≡ target tick why.now }
{
    match *why {
        Why::Raise {
            raw,
            tick_raw,
            tick_gtod,
            offset,
        } => target_local(
            tick_gtod.wrapping_add(offset),
            above(raw, tick_raw).max(0),
            tick,
        ),
        Why::Couple { from: _, value } | Why::Lift { value } => value,
    }
}
