//! The numbers of a machine file as they were written, and the sums that are kept beside them.
ghost use Rattle.std.specs.Prelude.{◌≡◌, ◌^◌, ◌≤◌, pos, nat_abs, map};
ghost use Rattle.std.specs.List.{All, sum_by};
ghost use Rattle.clk_machine.specs.Plan.{delay_plan, jump_plan, cpu_plan, source_plan, plan_of, count_of};
ghost use Rattle.clk_machine.specs.Limits.{IsWithin, jump_sizes, AreInRange};
ghost use Rattle.clk_machine.specs.Sums.{delays_summed, jumps_summed, jump_list_summed, cpu_summed, source_summed, summed};

use crate::ranges::count;
use crate::script::Script;
use clk_num::List;

/// The numbers of a machine file, as they were written. [`crate::Machine::new`] tests them.
#[derive(Drop)]
pub struct Parts {
    /// The version of the file, 1 or 2.
    pub version: i64,
    /// The ns at which the clocks begin; any number.
    pub base: i64,
    /// How many CPUs there are, 1 to 16, and in version 2 to 64.
    pub cpus: i64,
    /// The ns that a ticket takes, 1 to 2^14.
    pub step: i64,
    /// The ns of a tick, 1 to 2^30.
    pub tick: i64,
    /// The width of the CPUs' counters: 32, 56 or 64 bits.
    pub bits: i64,
    /// The rate by which the CPUs' counters are converted, 1,000 to 4,000,000 kHz.
    pub nominal_khz: i64,
    /// Whether the clock starts on the stable counter.
    pub stable: bool,
    /// The reference counter, of which monotonic time is made.
    pub reference: ReferencePart,
    /// The CPUs, as many as `cpus` says.
    pub cpu: List<CpuPart>,
    /// More threads that read the clocks, at most 16.
    pub reader: List<ReaderPart>,
    /// What time passes at single tickets, at most 1,024 entries.
    pub delay: List<Delay>,
    /// How the CPUs' counters are tested against one another at boot.
    pub bringup: Option<BringUpPart>,
    /// How clock sources are watched.
    pub watchdog: Option<WatchPart>,
    /// The clock sources, at most 8.
    pub source: List<SourcePart>,
}

/// The reference counter: its true rate, 1,000 to 4,000,000 kHz, its width of 32, 56 or 64 bits, its rating, 1 to
/// 1,000, and its margin, 0 to 2^30 ns.
#[derive(Clone, Copy, PartialEq, Eq, Debug)]
pub struct ReferencePart {
    pub khz: i64,
    pub bits: i64,
    pub rating: i64,
    pub margin: i64,
}

/// A CPU: the true rate of its counter, 1,000 to 4,000,000 kHz, where the counter began, within 2^44 cycles of 0, the
/// socket that it is in, 0 to 63, its jumps, and its script.
#[derive(Drop)]
pub struct CpuPart {
    pub khz: i64,
    pub offset: i64,
    pub socket: i64,
    pub jumps: List<Jump>,
    pub script: Script,
}

/// A reader: the CPU that it runs on, and its script, which has readings and pauses alone.
#[derive(Drop)]
pub struct ReaderPart {
    pub cpu: i64,
    pub script: Script,
}

/// A bring-up: whether a CPU has the register that adjusts its counter, the longest time of a test's loop, 0 to
/// 1,000,000 us, that of the first CPU of a socket, in the same range, and its most turns, 0 to 4,096.
#[derive(Clone, Copy, PartialEq, Eq, Debug)]
pub struct BringUpPart {
    pub adjust: bool,
    pub timeout_us: i64,
    pub first_us: i64,
    pub turns: i64,
}

/// A watchdog: how many checks it makes, 0 to 4,096, the tickets of a pause before each, 1 to 65,536, the longest time
/// of a reading, 0 to 2^30 ns, and how often a reading is tried again, 0 to 10.
#[derive(Clone, Copy, PartialEq, Eq, Debug)]
pub struct WatchPart {
    pub checks: i64,
    pub pause: i64,
    pub skew: i64,
    pub retries: i64,
}

/// A clock source: whether it is the CPUs' own counter (TSC), its rating, 1 to 1,000, its margin, 0 to 2^30 ns, its
/// true rate and that by which it is converted, 1,000 to 4,000,000 kHz, its width of 32, 56 or 64 bits, and its jumps.
/// The last four of a TSC source are the machine's nominal rate twice, its width, and none.
#[derive(Drop)]
pub struct SourcePart {
    pub tsc: bool,
    pub rating: i64,
    pub margin: i64,
    pub khz: i64,
    pub nominal_khz: i64,
    pub bits: i64,
    pub jumps: List<Jump>,
}

/// A ticket that takes longer, and by how many ns. [`crate::Machine::new`] keeps the sum so far beside it, so that a
/// time is found by halving.
#[derive(Clone, Copy, PartialEq, Eq, Debug)]
pub struct Delay {
    pub ticket: i64,
    pub ns: i64,
    sum: u64,
}

impl Delay {
    /// The ticket takes so many ns longer.
    pub fn new(ticket: i64, ns: i64) -> Delay
        ensures { delay_plan result ≡ record { ticket = ticket; ns = ns } }
    {
        Delay { ticket, ns, sum: 0 }
    }

    /// The ns of the delays up to this one, which the machine keeps.
    pub(crate) fn sum(&self) -> u64
        ensures { result ≡ self.now.sum }
    {
        self.sum
    }
}

/// Puts beside each delay the ns of those up to it.
fn sum_delays(delays: &mut [Delay])
    requires counts { All (λ d. IsWithin 0 (2 ^ 39) d.ns) delays.old }
    requires few { sum_by (λ d. count_of d.ns) delays.old ≤ 2 ^ 39 }
    ensures { delays.new ≡ delays_summed 0 delays.old }
{
    let mut sum = 0;
    for delay in delays.iter_mut() {
        sum += count(&delay.ns);
        delay.sum = sum;
    }
}

/// A jump of a counter: the time in ns, and how many cycles it goes on or back. [`crate::Machine::new`] keeps the sum
/// so far beside it, so that a count is found by halving.
#[derive(Clone, Copy, PartialEq, Eq, Debug)]
pub struct Jump {
    pub at: i64,
    pub cycles: i64,
    sum: i64,
}

impl Jump {
    /// The counter jumps by so many cycles at this time.
    pub fn new(at: i64, cycles: i64) -> Jump
        ensures { jump_plan result ≡ record { at = at; cycles = cycles } }
    {
        Jump { at, cycles, sum: 0 }
    }

    /// The cycles of the jumps up to this one, which the machine keeps.
    pub(crate) fn sum(&self) -> i64
        ensures { result ≡ self.now.sum }
    {
        self.sum
    }
}

/// Puts beside each jump the cycles of those up to it.
fn sum_jumps(jumps: &mut [Jump])
    requires { sum_by (λ j. nat_abs j.cycles) jumps.old ≤ 2 ^ 44 }
    ensures { jumps.new ≡ jumps_summed (pos 0) jumps.old }
{
    let mut sum = 0;
    for jump in jumps.iter_mut() {
        sum += jump.cycles;
        jump.sum = sum;
    }
}

/// Puts all sums beside the delays and jumps of a machine's parts.
pub(crate) fn sum_parts(parts: &mut Parts)
    requires { AreInRange (plan_of parts.old) }
    ensures { parts.new ≡ summed parts.old }
{
    sum_delay_list(&mut parts.delay);
    sum_cpu_list(&mut parts.cpu);
    sum_source_list(&mut parts.source);
}

/// Puts the sums beside the delays of a machine.
fn sum_delay_list(delays: &mut List<Delay>)
    requires counts { All (λ d. IsWithin 0 (2 ^ 39) d.ns) delays.old.items }
    requires few { sum_by (λ d. count_of d.ns) delays.old.items ≤ 2 ^ 39 }
    ensures { delays.new ≡ record delays.old { items = delays_summed 0 delays.old.items } }
{
    sum_delays(delays.items_mut());
}

/// Puts the sums beside the jumps of all CPUs.
fn sum_cpu_list(cpus: &mut List<CpuPart>)
    requires { All (λ c. jump_sizes c.jumps ≤ 2 ^ 44) (map cpu_plan cpus.old.items) }
    ensures { cpus.new ≡ record cpus.old { items = map cpu_summed cpus.old.items } }
{
    sum_cpus(cpus.items_mut());
}

/// Puts the sums beside the jumps of all sources.
fn sum_source_list(sources: &mut List<SourcePart>)
    requires { All (λ s. jump_sizes s.jumps ≤ 2 ^ 44) (map source_plan sources.old.items) }
    ensures { sources.new ≡ record sources.old { items = map source_summed sources.old.items } }
{
    sum_sources(sources.items_mut());
}

/// Puts the sums beside the jumps of a counter.
fn sum_list(jumps: &mut List<Jump>)
    requires { sum_by (λ j. nat_abs j.cycles) jumps.old.items ≤ 2 ^ 44 }
    ensures { jumps.new ≡ jump_list_summed jumps.old }
{
    sum_jumps(jumps.items_mut());
}

/// Puts the sums beside the jumps of each CPU.
fn sum_cpus(cpus: &mut [CpuPart])
    requires { All (λ c. jump_sizes c.jumps ≤ 2 ^ 44) (map cpu_plan cpus.old) }
    ensures { cpus.new ≡ map cpu_summed cpus.old }
{
    for cpu in cpus.iter_mut() {
        sum_list(&mut cpu.jumps);
    }
}

/// Puts the sums beside the jumps of each source.
fn sum_sources(sources: &mut [SourcePart])
    requires { All (λ s. jump_sizes s.jumps ≤ 2 ^ 44) (map source_plan sources.old) }
    ensures { sources.new ≡ map source_summed sources.old }
{
    for source in sources.iter_mut() {
        sum_list(&mut source.jumps);
    }
}
