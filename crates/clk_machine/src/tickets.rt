//! How many tickets a machine needs.
ghost use Rattle.std.specs.Prelude.{◌≡◌, ◌*◌, ◌^◌, ◌≤◌, map, length};
ghost use Rattle.std.specs.List.{All, sum_by};
ghost use Rattle.clk_machine.specs.Plan.{plan_of, cpu_plan, reader_plan};
ghost use Rattle.clk_machine.specs.Limits.{AreInRange};
ghost use Rattle.clk_machine.specs.Short.{IsWellFormed};
ghost use Rattle.clk_machine.specs.Tested.{IsRunnable, script_tickets};
ghost use Rattle.clk_machine.specs.Tickets.{bring_up_tickets, watch_tickets, word_tickets, tickets_needed};

use crate::parts::{CpuPart, Parts, ReaderPart};
use crate::ranges::count;

/// How many tickets the parts of a machine need.
pub(crate) fn needed_by(parts: &Parts) -> u64
    requires formed { IsWellFormed (plan_of parts.now) }
    requires ranges { AreInRange (plan_of parts.now) }
    ensures { result ≡ tickets_needed (plan_of parts.now) }
{
    let boot = if parts.stable { 5 } else { 3 };
    boot + of_bring_up(parts) + of_words(parts) + of_watchdog(parts)
}

/// Those of the bring-up.
fn of_bring_up(parts: &Parts) -> u64
    requires { AreInRange (plan_of parts.now) }
    ensures count { result ≡ bring_up_tickets (plan_of parts.now) parts.now.bringup }
    ensures few { result ≤ 2 ^ 32 }
{
    match &parts.bringup {
        None => 0,
        Some(part) => {
            let runs = if part.adjust { 3 } else { 1 };
            let demotion = if parts.stable { 2 } else { 0 };
            (count(&parts.cpus) - 1) * (runs * (2 * (count(&part.turns) + 10))) + demotion
        }
    }
}

/// Those of the watchdog.
fn of_watchdog(parts: &Parts) -> u64
    requires { AreInRange (plan_of parts.now) }
    ensures count { result ≡ watch_tickets (plan_of parts.now) parts.now.watchdog }
    ensures few { result ≤ 2 ^ 40 }
{
    match &parts.watchdog {
        None => 0,
        Some(part) => {
            let readings = parts.source.len() as u64 * ((count(&part.retries) + 1) * 4);
            count(&part.checks) * (count(&part.pause) + readings + 2)
        }
    }
}

/// Those of all scripts.
fn of_words(parts: &Parts) -> u64
    requires { AreInRange (plan_of parts.now) }
    ensures count { result ≡ word_tickets (plan_of parts.now) }
    ensures few { result ≤ 2 ^ 47 }
{
    of_cpus(parts.cpu.items()) + of_readers(parts.reader.items())
}

/// Those of the CPUs' scripts.
fn of_cpus(cpus: &[CpuPart]) -> u64
    requires few { length cpus.now ≤ 64 }
    requires scripts { All (λ c. IsRunnable c.script) (map cpu_plan cpus.now) }
    ensures count { result ≡ sum_by (λ c. script_tickets c.script) (map cpu_plan cpus.now) }
    ensures few { result ≤ length cpus.now * 2 ^ 40 }
{
    let mut tickets = 0;
    for cpu in cpus {
        tickets += cpu.script.tickets();
    }
    tickets
}

/// Those of the readers' scripts.
fn of_readers(readers: &[ReaderPart]) -> u64
    requires few { length readers.now ≤ 16 }
    requires scripts { All (λ r. IsRunnable r.script) (map reader_plan readers.now) }
    ensures count { result ≡ sum_by (λ r. script_tickets r.script) (map reader_plan readers.now) }
    ensures few { result ≤ length readers.now * 2 ^ 40 }
{
    let mut tickets = 0;
    for reader in readers {
        tickets += reader.script.tickets();
    }
    tickets
}
