//! What a machine's watchdog asks for, if there is one.
ghost use Rattle.std.specs.Prelude.{◌≡◌, pos, is_some, if◌then◌else◌};
ghost use Rattle.clk_machine.specs.Plan.{count_of, cpu_count};
ghost use Rattle.clk_machine.specs.Limits.{IsWithinLimits};
ghost use Rattle.clk_machine.specs.Tickets.{watch_tickets};
ghost use Rattle.clk_record.specs.Watching.{checks_asked};

use clk_machine::Machine;

/// Whether the machine has a watchdog.
pub(crate) fn has_watchdog(machine: &Machine) -> bool
    ensures { result ≡ is_some machine.now.watchdog }
{
    machine.watchdog().is_some()
}

/// How many CPUs the watchdog reads on: all of them, and none where there is none.
pub(crate) fn watched_cpus(machine: &Machine) -> u32
    ensures { result ≡ (if is_some machine.now.watchdog then cpu_count machine.now else 0) }
{
    if has_watchdog(machine) {
        machine.cpus()
    } else {
        0
    }
}

/// How many checks the watchdog makes, at most 4,096; none where there is none.
pub(crate) fn checks(machine: &Machine) -> usize
    requires limits { IsWithinLimits machine.now }
    ensures { result ≡ checks_asked machine.now.watchdog }
{
    match machine.watchdog() {
        Some(watch) => count(&watch.checks) as usize,
        None => 0,
    }
}

/// The tickets of all checks: each pauses, reads each source in as many attempts as it may, of four tickets each, and
/// may stamp, with two.
pub(crate) fn tickets_of_watch(machine: &Machine) -> u64
    requires limits { IsWithinLimits machine.now }
    ensures { result ≡ watch_tickets machine.now machine.now.watchdog }
{
    match machine.watchdog() {
        Some(watch) => {
            let readings = u64::from(machine.sources()) * ((count(&watch.retries) + 1) * 4);
            count(&watch.checks) * (count(&watch.pause) + readings + 2)
        }
        None => 0,
    }
}

// A number that is a count. It is lent, so that a caller's proof sees where it stands.
fn count(value: &i64) -> u64
    requires { value.now ≡ pos (count_of value.now) }
    ensures { result ≡ count_of value.now }
{
    value.unsigned_abs()
}
