//! What a bracket says of a source.
ghost use Rattle.std.specs.Prelude.{◌≡◌, ◌^◌, ◌<◌, length};
ghost use Rattle.clk_machine.specs.Limits.{IsWithinLimits};
ghost use Rattle.clk_record.specs.Fold.{compared, judged as judged_by, outcome_of as outcome_by};
ghost use Rattle.clk_watch.specs.Small.{IsSmallBracket, IsSmallKept, IsSmallPair, IsSmallWatched};

use crate::numbers::{margin, reference_ns, source_ns};
use clk_machine::Machine;
use clk_record::{Bracket, Outcome, Pair, Watched};

/// The outcome at source `s` by how its bracket ended, if it was read.
pub(crate) fn outcome_of(
    machine: &Machine,
    s: u32,
    watched: &Watched,
    ends: &Option<Bracket>,
) -> Outcome
    requires limits { IsWithinLimits machine.now }
    requires source { s < length machine.now.source }
    requires kept { IsSmallWatched watched.now }
    requires small { IsSmallBracket ends.now }
    ensures { result ≡ outcome_by machine.now s watched.now ends.now }
{
    match *ends {
        None => Outcome::Passed,
        Some(Bracket::Skip) => Outcome::Skip,
        Some(Bracket::Slow) => Outcome::Slow,
        Some(Bracket::Accepted { cs, wd }) => judged(machine, s, &watched.kept, &Pair { cs, wd }),
    }
}

/// The outcome at source `s` by an accepted pair, after the pair that was kept.
fn judged(machine: &Machine, s: u32, kept: &Option<Pair>, now: &Pair) -> Outcome
    requires limits { IsWithinLimits machine.now }
    requires source { s < length machine.now.source }
    requires kept { IsSmallKept kept.now }
    requires small { IsSmallPair now.now }
    ensures { result ≡ judged_by machine.now s kept.now now.now }
{
    match *kept {
        None => Outcome::First,
        Some(last) => compare(
            margin(machine, s),
            source_ns(machine, s, last.cs, now.cs),
            reference_ns(machine, last.wd, now.wd),
        ),
    }
}

/// The outcome where a source went `cs_ns` and the watchdog `wd_ns`, by how far they may differ.
pub(crate) fn compare(margin: u64, cs_ns: u64, wd_ns: u64) -> Outcome
    requires source { cs_ns < 2 ^ 60 }
    requires watchdog { wd_ns < 2 ^ 60 }
    ensures { result ≡ compared margin cs_ns wd_ns }
{
    let differs = cs_ns.abs_diff(wd_ns) > margin;
    let (cs_ns, wd_ns) = (cs_ns as i64, wd_ns as i64);
    if differs {
        Outcome::Bad { cs_ns, wd_ns }
    } else {
        Outcome::Good { cs_ns, wd_ns }
    }
}
