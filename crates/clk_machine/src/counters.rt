//! What a counter shows at a time, and which delays and jumps came by then. Both are found by halving.
ghost use Rattle.std.specs.Prelude.{◌≡◌, ◌*◌, ◌^◌, ◌<◌, ◌≤◌, pos, negsuc, int_le, map};
ghost use Rattle.std.specs.List.{sum_by};
ghost use Rattle.clk_num.specs.Range.{IsNear};
ghost use Rattle.clk_machine.specs.Plan.{delay_plan, jump_plan, count_of};
ghost use Rattle.clk_machine.specs.Limits.{most_tickets, IsWidth, TicketsRise, TimesRise, AreJumps};
ghost use Rattle.clk_machine.specs.Sums.{PassesUpTo, HasDelaySums, HasJumpSums};
ghost use Rattle.clk_machine.specs.Time.{delayed, jumped, cycles_in as cycles_of, count_at, shown};

use crate::parts::{Delay, Jump};
use clk_num::mask_of;

/// The ns of a ms, in which a counter goes on by its rate in kHz.
const NS_PER_MS: u64 = 1_000_000;

/// How many delays are at tickets up to `k`.
fn delays_passed(delays: &[Delay], k: u64) -> usize
    requires ticket { k < most_tickets }
    requires rise { TicketsRise (negsuc 0) (map delay_plan delays.now) }
    ensures { PassesUpTo (λ d. int_le d.ticket (pos k)) delays.now result }
{
    let k = k as i64;
    delays.partition_point(
        |delay: &Delay| -> bool
            ensures { result ≡ int_le delay.now.ticket k }
        { delay.ticket <= k },
    )
}

/// The ns of the delays at tickets up to `k`.
pub(crate) fn delay_until(delays: &[Delay], k: u64) -> u64
    requires ticket { k < most_tickets }
    requires rise { TicketsRise (negsuc 0) (map delay_plan delays.now) }
    requires few { sum_by (λ d. count_of d.ns) (map delay_plan delays.now) ≤ 2 ^ 39 }
    requires sums { HasDelaySums delays.now }
    ensures ns { result ≡ delayed k (map delay_plan delays.now) }
    ensures few { result ≤ 2 ^ 39 }
{
    let passed = delays_passed(delays, k);
    if passed == 0 {
        0
    } else {
        delays[passed - 1].sum()
    }
}

/// How many jumps are at times up to this one.
fn jumps_passed(jumps: &[Jump], time: u64) -> usize
    requires time { time < 2 ^ 41 }
    requires rise { TimesRise (pos 0) (map jump_plan jumps.now) }
    ensures { PassesUpTo (λ j. int_le j.at (pos time)) jumps.now result }
{
    let time = time as i64;
    jumps.partition_point(
        |jump: &Jump| -> bool
            ensures { result ≡ int_le jump.now.at time }
        { jump.at <= time },
    )
}

/// The cycles of the jumps up to a time.
fn jump_until(jumps: &[Jump], time: u64) -> i64
    requires time { time < 2 ^ 41 }
    requires jumps { AreJumps (map jump_plan jumps.now) }
    requires sums { HasJumpSums jumps.now }
    ensures cycles { result ≡ jumped time (map jump_plan jumps.now) }
    ensures near { IsNear 44 result }
{
    let passed = jumps_passed(jumps, time);
    if passed == 0 {
        0
    } else {
        jumps[passed - 1].sum()
    }
}

/// What a counter of so many bits shows at a time, which began at `start` cycles and runs at so many kHz.
pub(crate) fn shown_at(bits: u32, start: &i64, khz: u64, jumps: &[Jump], time: u64) -> u64
    requires bits { IsWidth (pos bits) }
    requires start { IsNear 49 start.now }
    requires khz { khz ≤ 4000000 }
    requires time { time < 2 ^ 41 }
    requires jumps { AreJumps (map jump_plan jumps.now) }
    requires sums { HasJumpSums jumps.now }
    ensures { result ≡ shown (pos bits) (count_at start.now (pos khz) (map jump_plan jumps.now) time) }
{
    masked(bits, &count_by(start, khz, jumps, time))
}

/// The cycles of a rate in kHz in so many ns, rounded down.
pub(crate) fn cycles_in(khz: u64, time: u64) -> u64
    requires khz { khz ≤ 4000000 }
    requires time { time < 2 ^ 41 }
    ensures cycles { result ≡ cycles_of (pos khz) time }
    ensures small { result ≤ 4 * time }
{
    time * khz / NS_PER_MS
}

/// How far a counter went by a time, in cycles.
fn count_by(start: &i64, khz: u64, jumps: &[Jump], time: u64) -> i64
    requires start { IsNear 49 start.now }
    requires khz { khz ≤ 4000000 }
    requires time { time < 2 ^ 41 }
    requires jumps { AreJumps (map jump_plan jumps.now) }
    requires sums { HasJumpSums jumps.now }
    ensures { result ≡ count_at start.now (pos khz) (map jump_plan jumps.now) time }
{
    *start + cycles_in(khz, time) as i64 + jump_until(jumps, time)
}

/// What a counter of so many bits shows of a count.
fn masked(bits: u32, count: &i64) -> u64
    requires { IsWidth (pos bits) }
    ensures { result ≡ shown (pos bits) count.now }
{
    if *count < 0 {
        0
    } else {
        *count as u64 & mask_of(bits)
    }
}
