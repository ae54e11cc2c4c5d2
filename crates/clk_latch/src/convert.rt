//! Counters as cycles, and cycles since a record as ns.
ghost use Rattle.std.specs.Prelude.{◌≡◌, ◌*◌, ◌^◌, ◌<◌, ◌≤◌, pos, ◌+ℤ◌};
ghost use Rattle.clk_num.specs.Range.{IsFrom0To, IsNear};
ghost use Rattle.clk_num.specs.Wrapping.{above, wrap};
ghost use Rattle.clk_num.specs.Conversion.{convert};
ghost use Rattle.clk_num.specs.Masked.{masked_delta as delta_of};
ghost use Rattle.clk_machine.specs.Plan.{count_of, cpu_count};
ghost use Rattle.clk_machine.specs.Limits.{most_tickets, IsWithinLimits};
ghost use Rattle.clk_machine.specs.Time.{counter_at, sched_rate};

use clk_machine::{CpuCounter, Machine};
use clk_num::{cyc_to_ns, masked_delta};

/// What the counter shows at a ticket, in cycles: at most 83 * 2^41 of them.
pub(crate) fn cycles_at(counter: CpuCounter<'_>, ticket: u64) -> u64
    requires cpu { counter.cpu < cpu_count counter.machine.now }
    requires adjust { IsNear 47 counter.adjust }
    requires ticket { ticket < most_tickets }
    ensures value { result ≡ counter_at counter.entry.machine.now counter.entry.cpu counter.entry.adjust ticket }
    ensures small { result ≤ 83 * 2 ^ 41 }
    ensures limits { IsWithinLimits counter.entry.machine.now }
{
    let cpus = counter.machine.cpus();
    prove!(counter.cpu < cpus);
    counter.machine.counter(counter.cpu, counter.adjust, ticket)
}

/// The ns that a record gives for a counter value: its own, and those of the cycles since, in a sum that wraps. A
/// counter that seems to have gone back has not moved.
pub(crate) fn ns_since(machine: &Machine, epoch_cyc: u64, epoch_ns: &i64, cyc: u64) -> i64
    requires limits { IsWithinLimits machine.now }
    requires epoch { epoch_cyc ≤ 83 * 2 ^ 41 }
    requires cyc { cyc ≤ 83 * 2 ^ 41 }
    ensures value { let cycles = delta_of cyc epoch_cyc (count_of machine.now.bits) in
        result ≡ wrap (epoch_ns.now +ℤ pos (convert cycles (sched_rate machine.now))) }
    ensures bound { IsFrom0To (41 * 2 ^ 52) (above result epoch_ns.now) }
{
    let cycles = masked_delta(cyc, epoch_cyc, machine.bits());
    epoch_ns.wrapping_add(cyc_to_ns(cycles, machine.sched_rate()) as i64)
}
