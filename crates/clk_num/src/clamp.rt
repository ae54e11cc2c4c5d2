//! What a local reading puts in the place of its CPU's clock word.
ghost use Rattle.std.specs.Prelude.{◌≡◌};
ghost use Rattle.clk_num.specs.Clamp.{local_target};
ghost use Rattle.clk_num.specs.Wrapping.{raise};

use crate::wrapping::raise;

/// Where a local reading wants the clock to be, in ns: `base` is the clock at the last stamp, `delta` how far the raw
/// clock went since, and `tick` the length of a tick, at whose end the clock stops. The sum wraps.
pub fn target_local(base: i64, delta: i64, tick: i64) -> i64
    ensures { result ≡ local_target base delta tick }
{
    base.wrapping_add(delta.min(tick))
}

/// What a local reading puts in the place of `old`, all in ns: the later of `old` and [`target_local`]. Linux clamps
/// the time between `max(base, old)` and `max(old, base + tick)` (`sched_clock_local`), which is the same where `delta`
/// and `tick` are not negative.
pub fn clamp_local(old: i64, base: i64, delta: i64, tick: i64) -> i64
    ensures { result ≡ raise old (local_target base delta tick) }
{
    raise(old, target_local(base, delta, tick))
}
