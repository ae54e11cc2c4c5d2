//! A machine that was accepted, and its counters and times.
ghost use Rattle.std.specs.Prelude.{◌≡◌, ◌*◌, ◌^◌, ◌<◌, ◌≤◌, false, IfOk, IfErr, IsSome, IfSome, Some, None, pos, ◌≤ℤ◌, length, slice_index_or};
ghost use Rattle.std.specs.Option.{option_copied};
ghost use Rattle.std.specs.Ordering.{int_eq};
ghost use Rattle.std.specs.List.{list_any, sum_by};
ghost use Rattle.clk_base.specs.First.{first};
ghost use Rattle.clk_num.specs.Range.{IsNear};
ghost use Rattle.clk_machine.specs.Plan.{plan_of, script_plan, cpu_plan, reader_plan, source_plan, count_of, cpu_count, all_words, threads_of, thread_at};
ghost use Rattle.clk_machine.specs.Limits.{ticket_limit, most_tickets, IsWithin, IsWidth, IsRateInKhz, IsScript, IsCpu, IsReader, IsSource, AreInRange, IsWithinLimits};
ghost use Rattle.clk_machine.specs.Tickets.{tickets_of, tickets_needed};
ghost use Rattle.clk_machine.specs.Steps.{steps_for};
ghost use Rattle.clk_machine.specs.Timeouts.{is_first_of_socket, timeout_of};
ghost use Rattle.clk_machine.specs.Records.{base_of};
ghost use Rattle.clk_machine.specs.Time.{time_at, cpu_at, counter_at, source_plan_at, source_at, reference_at, gtod_at, sched_rate, reference_rate, rate_of};
ghost use Rattle.clk_machine.specs.Sums.{HasJumpSums};
ghost use Rattle.clk_machine.specs.Short.{IsWellFormed};
ghost use Rattle.clk_machine.specs.Ranges.{range_tests, part_tests};

use crate::counters::{cycles_in, delay_until, shown_at};
use crate::delays::test_delays;
use crate::error::MachineError;
use crate::numbers::{test_bring_up, test_numbers, test_reference, test_watchdog};
use crate::parts::{
    BringUpPart, CpuPart, Parts, ReaderPart, ReferencePart, SourcePart, WatchPart, sum_parts,
};
use crate::ranges::{count, ticket_limit as limit_of};
use crate::script::{Script, Word};
use crate::sources::test_sources;
use crate::threads::test_threads;
use crate::tickets::needed_by;
use clk_num::{Rate, cyc_to_ns, mult_shift, source_rate};
use std::marker::Model;

/// The ns of a second.
const NS_PER_SECOND: u32 = 1_000_000_000;

/// The seconds whose cycles are to fit a conversion of the scheduler clock.
const AN_HOUR: u32 = 3_600;

/// A machine that was accepted: it meets all limits. Contracts see the plan of its parts.
#[derive(Drop)]
pub struct Machine {
    pub(crate) parts: Parts,
    pub(crate) sched: Rate,
    pub(crate) reference: Rate,
    pub(crate) tickets: u64,
}

impl Model for Machine {
    ghost use Rattle.clk_machine.specs.Plan.{Plan, plan_of};

    ghost Value = { Plan };

    ghost use Rattle.clk_machine.specs.MachineKept.{IsKept};

    ghost view = { λ m. plan_of m.parts };

    ghost invariant = { IsKept };
}

impl Machine {
    /// The machine of these numbers, where all of them are in range. It takes no memory.
    ///
    /// The error is the first failing range test, in the order of the rows of the machine file: `Tickets` comes last,
    /// and so exactly where all numbers are in range and the run needs more tickets than its version allows, 2^24 or
    /// 2^26.
    pub fn new(parts: Parts) -> Result<Machine, MachineError>
        requires { IsWellFormed (plan_of parts) }
        ensures machine { IfOk result (λ m. m ≡ plan_of parts) }
        ensures accepted { IfOk result (λ m. first (range_tests (plan_of parts)) ≡ None) }
        ensures refused { IfErr result (λ e. first (range_tests (plan_of parts)) ≡ Some e) }
    {
        if let Some(refusal) = refusal_of(&parts) {
            return Err(refusal);
        }
        let needed = needed_by(&parts);
        if needed > limit_of(parts.version) {
            return Err(MachineError::Tickets { needed });
        }
        Ok(machine_of(parts, needed))
    }

    /// The ns at which the clocks begin: those of record 0 of each latch. 0 in version 1.
    pub fn base(&self) -> i64
        ensures { result ≡ base_of self.now }
    {
        self.parts.base
    }

    /// The number of CPUs, 1 to 16, and in version 2 to 64. All limits hold.
    pub fn cpus(&self) -> u32
        ensures count { result ≡ cpu_count self.now }
        ensures few { (1 ≤ result) × (result ≤ 64) }
        ensures limits { IsWithinLimits self.now }
    {
        self.parts.cpu.len() as u32
    }

    /// The number of readers, at most 16.
    pub fn readers(&self) -> u32
        ensures { result ≡ length self.now.reader }
    {
        self.parts.reader.len() as u32
    }

    /// The number of clock sources, at most 8.
    pub fn sources(&self) -> u32
        ensures { result ≡ length self.now.source }
    {
        self.parts.source.len() as u32
    }

    /// The number of threads: CPUs and readers. CPU `c` is thread `c`, and reader `r` is thread `cpus + r`.
    pub fn threads(&self) -> u32
        ensures { result ≡ length (threads_of self.now) }
    {
        self.cpus() + self.readers()
    }

    /// The CPU of a thread.
    pub fn cpu_of(&self, thread: u32) -> u32
        requires { thread < length (threads_of self.now) }
        ensures { result ≡ (thread_at self.now thread).0 }
    {
        if thread < self.cpus() {
            let _part = self.cpu(thread);
            thread
        } else {
            count(&self.reader(thread).cpu) as u32
        }
    }

    /// A CPU's part.
    fn cpu(&self, cpu: u32) -> &CpuPart
        requires { cpu < cpu_count self.now }
        ensures plan { cpu_plan result.now ≡ cpu_at self.now cpu }
        ensures range { IsCpu (cpu_count self.now) (cpu_plan result.now) }
        ensures sums { HasJumpSums result.now.jumps.items }
        ensures thread { thread_at self.now cpu ≡ (cpu, all_words (script_plan result.now.script)) }
    {
        self.parts.cpu.get(cpu as usize)
    }

    /// The part of a thread that is none of the CPUs'.
    fn reader(&self, thread: u32) -> &ReaderPart
        requires past { cpu_count self.now ≤ thread }
        requires thread { thread < length (threads_of self.now) }
        ensures range { IsReader (cpu_count self.now) (reader_plan result.now) }
        ensures thread { thread_at self.now thread ≡ (count_of result.now.cpu, all_words (script_plan result.now.script)) }
    {
        self.parts.reader.get((thread - self.cpus()) as usize)
    }

    /// The script of a thread.
    fn script(&self, thread: u32) -> &Script
        requires { thread < length (threads_of self.now) }
        ensures words { all_words (script_plan result.now) ≡ (thread_at self.now thread).1 }
        ensures limits { IsScript (cpu_count self.now) (script_plan result.now) }
    {
        if thread < self.cpus() {
            &self.cpu(thread).script
        } else {
            &self.reader(thread).script
        }
    }

    /// How many words the script of a thread has, after repeats. All limits hold.
    pub fn words(&self, thread: u32) -> u32
        requires { thread < length (threads_of self.now) }
        ensures count { result ≡ length (thread_at self.now thread).1 }
        ensures limits { IsWithinLimits self.now }
    {
        let _tickets = self.tickets;
        self.script(thread).count()
    }

    /// Word `m` of the script of a thread, counted from 0, after repeats.
    pub fn word(&self, thread: u32, m: u32) -> Word
        requires thread { thread < length (threads_of self.now) }
        requires word { m < length (thread_at self.now thread).1 }
        ensures { result ≡ slice_index_or (thread_at self.now thread).1 m result }
    {
        self.script(thread).word(m)
    }

    /// How many tickets the words of the script of a thread draw, after repeats, at most 2^26. Threads are numbered as
    /// in [`threads`](Machine::threads): first the CPUs, then the readers.
    pub fn tickets(&self, thread: u32) -> u64
        requires { thread < length (threads_of self.now) }
        ensures count { result ≡ sum_by tickets_of (thread_at self.now thread).1 }
        ensures few { result ≤ most_tickets }
    {
        let _needed = self.tickets_needed();
        self.script(thread).tickets()
    }

    /// The most steps that the script of a thread makes on the clock word of CPU `w`, after repeats, at most 3 *
    /// 65,536. Which of two words a remote reading couples is known in the run alone, so its step counts on both.
    /// Threads are numbered as in [`threads`](Machine::threads).
    pub fn steps(&self, thread: u32, w: u32) -> u32
        requires { thread < length (threads_of self.now) }
        ensures count { result ≡ sum_by (steps_for w (thread_at self.now thread).0) (thread_at self.now thread).1 }
        ensures few { result ≤ 3 * 65536 }
    {
        self.script(thread).steps(self.cpu_of(thread), w)
    }

    /// The length of a tick, 1 to 2^30 ns.
    pub fn tick(&self) -> i64
        ensures tick { result ≡ self.now.tick }
        ensures range { IsWithin 1 (2 ^ 30) result }
    {
        self.parts.tick
    }

    /// The width of the CPUs' counters: 32, 56 or 64 bits.
    pub fn bits(&self) -> u32
        ensures bits { pos result ≡ self.now.bits }
        ensures width { IsWidth (pos result) }
    {
        count(&self.parts.bits) as u32
    }

    /// The rate by which the CPUs' counters are converted, 1,000 to 4,000,000 kHz.
    pub fn nominal_khz(&self) -> u32
        ensures { pos result ≡ self.now.nominal_khz }
    {
        count(&self.parts.nominal_khz) as u32
    }

    /// Whether the clock starts on the stable counter.
    pub fn starts_stable(&self) -> bool
        ensures { result ≡ self.now.stable }
    {
        self.parts.stable
    }

    /// How the CPUs' counters are tested against one another, if they are.
    pub fn bring_up(&self) -> Option<&BringUpPart>
        ensures { option_copied result ≡ self.now.bringup }
    {
        self.parts.bringup.as_ref()
    }

    /// The timeout of a CPU's tests in us, 0 to 1,000,000: the first CPU of a socket has its own. After `loop_timeout`
    /// of Linux 6.1's `arch/x86/kernel/tsc_sync.c`.
    pub fn timeout(&self, cpu: u32) -> u64
        requires bring_up { IsSome self.now.bringup }
        requires cpu { (1 ≤ cpu) × (cpu < cpu_count self.now) }
        ensures timeout { IfSome self.now.bringup (λ b. result ≡ timeout_of self.now b cpu) }
        ensures few { result ≤ 1000000 }
    {
        match &self.parts.bringup {
            None => 0,
            Some(part) if self.is_first_of_socket(cpu) => count(&part.first_us),
            Some(part) => count(&part.timeout_us),
        }
    }

    /// Whether no CPU of a lower number has the CPU's socket.
    fn is_first_of_socket(&self, cpu: u32) -> bool
        requires { cpu < cpu_count self.now }
        ensures { result ≡ is_first_of_socket self.now cpu }
    {
        let socket = &self.cpu(cpu).socket;
        !has_socket(&self.parts.cpu.items()[..cpu as usize], socket)
    }

    /// How clock sources are watched, if they are.
    pub fn watchdog(&self) -> Option<&WatchPart>
        ensures { option_copied result ≡ self.now.watchdog }
    {
        self.parts.watchdog.as_ref()
    }

    /// Clock source `s`, counted from 0.
    pub fn source(&self, s: u32) -> &SourcePart
        requires { s < length self.now.source }
        ensures plan { source_plan result.now ≡ source_plan_at self.now s }
        ensures range { IsSource (source_plan result.now) }
    {
        self.parts.source.get(s as usize)
    }

    /// The reference counter.
    pub fn reference_part(&self) -> &ReferencePart
        ensures { result.now ≡ self.now.reference }
    {
        &self.parts.reference
    }

    /// The rate by which the scheduler clock converts the CPUs' counters into ns.
    pub fn sched_rate(&self) -> Rate
        ensures rate { result ≡ sched_rate self.now }
        ensures shift { result.shift ≤ 32 }
    {
        self.sched
    }

    /// The rate by which the reference is converted into monotonic time.
    pub fn reference_rate(&self) -> Rate
        ensures rate { result ≡ reference_rate self.now }
        ensures shift { result.shift ≤ 32 }
    {
        self.reference
    }

    /// The rate by which clock source `s` is converted into ns.
    pub fn rate_of(&self, s: u32) -> Rate
        requires { s < length self.now.source }
        ensures rate { result ≡ rate_of self.now s }
        ensures shift { result.shift ≤ 32 }
    {
        let source = self.source(s);
        source_rate(hertz(&source.nominal_khz), count(&source.bits) as u32)
    }

    /// How many tickets a run may draw, at most 2^24, or in version 2 at most 2^26. All limits hold.
    pub fn tickets_needed(&self) -> u64
        ensures tickets { result ≡ tickets_needed self.now }
        ensures few { result ≤ most_tickets }
        ensures limits { IsWithinLimits self.now }
    {
        self.tickets
    }

    /// The time at a ticket, in ns.
    pub fn time(&self, k: u64) -> u64
        requires { k < most_tickets }
        ensures time { result ≡ time_at self.now k }
        ensures small { result < 2 ^ 41 }
    {
        k * count(&self.parts.step) + delay_until(self.parts.delay.items(), k)
    }

    /// What the counter of a CPU shows at a ticket, in cycles, with this adjustment, within 2^48 cycles of 0.
    pub fn counter(&self, cpu: u32, adjust: i64, k: u64) -> u64
        requires cpu { cpu < cpu_count self.now }
        requires adjust { IsNear 48 adjust }
        requires ticket { k < most_tickets }
        ensures { result ≡ counter_at self.now cpu adjust k }
    {
        let part = self.cpu(cpu);
        let start = part.offset + adjust;
        let time = self.time(k);
        shown_at(
            self.bits(),
            &start,
            count(&part.khz),
            part.jumps.items(),
            time,
        )
    }

    /// What the counter of clock source `s` shows at a ticket, in cycles. The source is not the CPUs' own.
    pub fn source_counter(&self, s: u32, k: u64) -> u64
        requires source { s < length self.now.source }
        requires other { (source_plan_at self.now s).tsc ≡ false }
        requires ticket { k < most_tickets }
        ensures { result ≡ source_at self.now s k }
    {
        let part = self.parts.source.get(s as usize);
        let time = self.time(k);
        shown_at(
            count(&part.bits) as u32,
            &0,
            count(&part.khz),
            part.jumps.items(),
            time,
        )
    }

    /// The full count of the reference at a ticket, in cycles.
    pub fn reference(&self, k: u64) -> u64
        requires { k < most_tickets }
        ensures count { result ≡ reference_at self.now k }
        ensures small { result < 2 ^ 43 }
    {
        cycles_in(count(&self.parts.reference.khz), self.time(k))
    }

    /// Monotonic time at a ticket, in ns: the reference, converted.
    pub fn gtod(&self, k: u64) -> i64
        requires { k < most_tickets }
        ensures time { result ≡ gtod_at self.now k }
        ensures small { (pos 0 ≤ℤ result) × (result ≤ℤ pos (2 ^ 42)) }
    {
        cyc_to_ns(self.reference(k), self.reference) as i64
    }
}

/// Why the parts are no machine, but for their tickets.
fn refusal_of(parts: &Parts) -> Option<MachineError>
    requires { IsWellFormed (plan_of parts.now) }
    ensures { result ≡ first (part_tests (plan_of parts.now)) }
{
    test_numbers(parts)
        .or(test_reference(&parts.reference))
        .or(test_threads(parts))
        .or(
            test_delays(limit_of(parts.version), &parts.delay)
                .or(test_bring_up(&parts.bringup))
                .or(test_watchdog(&parts.watchdog))
                .or(test_sources(&parts.source)),
        )
}

/// The machine of parts that are in range.
fn machine_of(mut parts: Parts, tickets: u64) -> Machine
    requires ranges { AreInRange (plan_of parts) }
    requires tickets { tickets ≡ tickets_needed (plan_of parts) }
    requires few { tickets ≤ ticket_limit parts.version }
    ensures { result ≡ plan_of parts }
{
    sum_parts(&mut parts);
    let sched = mult_shift(hertz(&parts.nominal_khz), NS_PER_SECOND, AN_HOUR);
    let reference = source_rate(
        hertz(&parts.reference.khz),
        count(&parts.reference.bits) as u32,
    );
    Machine {
        parts,
        sched,
        reference,
        tickets,
    }
}

/// Whether one of these CPUs has this socket.
fn has_socket(cpus: &[CpuPart], socket: &i64) -> bool
    ensures { result ≡ list_any (λ c. int_eq c.socket socket.now) cpus.now }
{
    let socket = *socket;
    cpus.iter().any(|cpu| cpu.socket == socket)
}

/// A rate in Hz.
pub(crate) fn hertz(khz: &i64) -> u32
    requires { IsRateInKhz khz.now }
    ensures { result ≡ count_of khz.now * 1000 }
{
    count(khz) as u32 * 1_000
}
