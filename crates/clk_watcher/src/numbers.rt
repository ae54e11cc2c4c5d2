//! The numbers of a watchdog.
ghost use Rattle.std.specs.Prelude.{◌≡◌, ◌<◌, ◌≤◌, pos};
ghost use Rattle.clk_machine.specs.Plan.{count_of};
ghost use Rattle.clk_machine.specs.Limits.{IsWithinLimits};
ghost use Rattle.clk_record.specs.Watching.{checks_asked};
ghost use Rattle.clk_lawful.specs.Checks.{pause_of};

use clk_machine::Machine;

// A number that is a count.
fn count(value: &i64) -> u64
    requires { value.now ≡ pos (count_of value.now) }
    ensures { result ≡ count_of value.now }
{
    value.unsigned_abs()
}

/// How many checks the watchdog of a machine makes, at most 4,096; none where it has no table of one.
pub(crate) fn checks(machine: &Machine) -> u32
    requires { IsWithinLimits machine.now }
    ensures checks { result ≡ checks_asked machine.now.watchdog }
    ensures few { result ≤ 4096 }
{
    match machine.watchdog() {
        Some(watch) => count(&watch.checks) as u32,
        None => 0,
    }
}

/// The tickets of the pause before a check.
pub(crate) fn pause(machine: &Machine) -> u64
    requires limits { IsWithinLimits machine.now }
    requires some { 0 < checks_asked machine.now.watchdog }
    ensures pause { result ≡ pause_of machine.now }
    ensures least { 1 ≤ result }
{
    match machine.watchdog() {
        Some(watch) => count(&watch.pause),
        None => 0,
    }
}
