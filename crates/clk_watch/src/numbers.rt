//! The numbers of a watchdog.
ghost use Rattle.std.specs.Prelude.{◌≡◌, ◌+◌, ◌*◌, ◌^◌, ◌<◌, ◌≤◌, pos, length};
ghost use Rattle.clk_machine.specs.Plan.{count_of};
ghost use Rattle.clk_machine.specs.Limits.{IsWithinLimits};
ghost use Rattle.clk_record.specs.Attempts.{skew_of, retries_of, reference_ns as reference_ns_of};
ghost use Rattle.clk_record.specs.Fold.{margin_of, source_ns as source_ns_of};
ghost use Rattle.clk_record.specs.Watching.{most_visits};
ghost use Rattle.clk_watch.specs.Small.{IsSmall};

use clk_machine::Machine;
use clk_num::{cyc_to_ns, masked_delta};

/// A number that is a count. It is lent, so that a caller's proof sees where it stands.
pub(crate) fn count(value: &i64) -> u64
    requires { value.now ≡ pos (count_of value.now) }
    ensures { result ≡ count_of value.now }
{
    value.unsigned_abs()
}

/// The longest time of a reading, in ns.
pub(crate) fn skew(machine: &Machine) -> u64
    requires { IsWithinLimits machine.now }
    ensures { result ≡ skew_of machine.now }
{
    match machine.watchdog() {
        Some(watch) => count(&watch.skew),
        None => 0,
    }
}

/// How often a reading is tried again.
pub(crate) fn retries(machine: &Machine) -> u64
    requires { IsWithinLimits machine.now }
    ensures retries { result ≡ retries_of machine.now }
    ensures few { result ≤ 10 }
{
    match machine.watchdog() {
        Some(watch) => count(&watch.retries),
        None => 0,
    }
}

/// How many visits the checks make at most.
pub(crate) fn visits(machine: &Machine) -> u64
    requires { IsWithinLimits machine.now }
    ensures visits { result ≡ most_visits machine.now }
    ensures few { result ≤ 32768 }
{
    match machine.watchdog() {
        Some(watch) => count(&watch.checks) * u64::from(machine.sources()),
        None => 0,
    }
}

/// How far source `s` and the reference may differ, in ns.
pub(crate) fn margin(machine: &Machine, s: u32) -> u64
    requires limits { IsWithinLimits machine.now }
    requires source { s < length machine.now.source }
    ensures { result ≡ margin_of machine.now s }
{
    count(&machine.source(s).margin) + count(&machine.reference_part().margin)
}

/// The ns of the reference from one of its readings to another.
pub(crate) fn reference_ns(machine: &Machine, last: u64, now: u64) -> u64
    requires limits { IsWithinLimits machine.now }
    requires last { IsSmall last }
    requires now { IsSmall now }
    ensures ns { result ≡ reference_ns_of machine.now last now }
    ensures few { result < 2 ^ 60 }
{
    let bits = count(&machine.reference_part().bits) as u32;
    cyc_to_ns(masked_delta(now, last, bits), machine.reference_rate())
}

/// The ns of source `s` from one of its readings to another.
pub(crate) fn source_ns(machine: &Machine, s: u32, last: u64, now: u64) -> u64
    requires limits { IsWithinLimits machine.now }
    requires source { s < length machine.now.source }
    requires last { IsSmall last }
    requires now { IsSmall now }
    ensures ns { result ≡ source_ns_of machine.now s last now }
    ensures few { result < 2 ^ 60 }
{
    let bits = count(&machine.source(s).bits) as u32;
    cyc_to_ns(masked_delta(now, last, bits), machine.rate_of(s))
}
