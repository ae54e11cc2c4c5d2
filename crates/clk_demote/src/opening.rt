//! The offset of a stable stamp, and where the clock opens at a demotion.
ghost use Rattle.std.specs.Prelude.{◌≡◌};
ghost use Rattle.clk_record.specs.Demotions.{offset_by, IsDemotion};

use clk_machine::RawReading;
use clk_num::above;
use clk_record::{Demotion, StableStamp};

/// What takes monotonic time to the scheduler clock, in ns, by a stamp with this GTOD and raw value. `sched_offset` is
/// what a stable reading adds to the raw clock. It wraps.
pub fn stable_offset(sched_offset: i64, gtod: i64, raw: i64) -> i64
    ensures { result ≡ offset_by sched_offset gtod raw }
{
    raw.wrapping_add(sched_offset).wrapping_sub(gtod)
}

/// The demotion by a stamp: its GTOD with its ticket, and the raw reading after it. `stable` is the last stable stamp,
/// and the two offsets, in ns, are those that stand. It changes nothing.
pub fn demotion_after(
    stable: StableStamp,
    sched_offset: i64,
    gtod_offset: i64,
    gtod_ticket: u64,
    gtod: i64,
    raw: RawReading,
) -> Demotion
    ensures ticket { result.gtod_ticket ≡ gtod_ticket }
    ensures gtod { result.gtod ≡ gtod }
    ensures raw { result.raw ≡ raw }
    ensures is { IsDemotion sched_offset gtod_offset stable result }
{
    let went = above(raw.ns, stable.raw.ns);
    let passed = gtod.wrapping_sub(stable.gtod);
    Demotion {
        stable,
        gtod_ticket,
        gtod,
        raw,
        sched_offset,
        gtod_offset,
        opening: gtod.wrapping_add(gtod_offset),
        drift: went.wrapping_sub(passed),
    }
}
