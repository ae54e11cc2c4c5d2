//! The command `make`: a large machine from a number is run, and its sizes are written.
ghost use Rattle.std.specs.Prelude.{◌≡◌, ◌⊎◌, ◌+◌, ◌^◌, ◌<◌, ◌≤◌, [], None, IfOk, OnOk, OnErr, length};
ghost use Rattle.std.specs.List.{sum_by};
ghost use Rattle.clk_base.specs.Causes.{Rose, Grew, GrewByPrefix, HasCause};
ghost use Rattle.clk_machine.specs.Plan.{threads_of};
ghost use Rattle.clk_machine.specs.Limits.{IsWithinLimits};
ghost use Rattle.clk_record.specs.BroughtUp.{IsLeft, IsBroughtUp};
ghost use Rattle.clk_record.specs.declared.up.UpOutcome.TheVariants.{Untested};
ghost use Rattle.clk_record.specs.WarpReadings.{all_readings};
ghost use Rattle.clk_lawful.specs.LawfulTrace.{IsLawful};
ghost use Rattle.clk_tool.specs.Make.{steps_of, AreSizesOf, MadeRun, made_sizes, sizes_text, make_text};
ghost use Rattle.clk_tool.specs.Answers.{IsOfRun};

use crate::run::run_machine;
use crate::status::Status;
use clk_lawful::{HistoryStep, Trace};
use clk_machine::{Gate, Machine};
use clk_make::{machine_of, sizes_are_fixed};
use clk_num::List;
use clk_record::{BroughtUp, CpuUp, UpOutcome};
use clk_threads::{Finished, boot};
use clk_trace::Part::{Name, Unsigned};
use clk_trace::{Out, Sink, WriteFault};
use std::alloc::{AllocError, Global};
use std::thread::Threads;

/// The sizes of a run: its CPUs and readers, its script words after repeats, the tickets that were drawn, and the steps
/// on all clock words.
#[derive(Clone, Copy, PartialEq, Eq, Debug)]
pub(crate) struct Sizes {
    pub(crate) cpus: u64,
    pub(crate) readers: u64,
    pub(crate) words: u64,
    pub(crate) tickets: u64,
    pub(crate) steps: u64,
}

/// Makes the machine of `n`, which is below 65,536 ([`clk_make`] says which machine that is), runs it without a
/// bring-up, each script on a thread of its own, and writes six lines: the number, and the sizes of the run as its
/// finished trace has them. The number alone tells them, whatever the order of the threads. Each script word passes the
/// gate first.
///
/// The answer is `Done`, `Memory`, where nothing was written, or `WriteFault`, where the sink failed and took a
/// beginning of the lines. It waits on nothing but the gate and the ends of its threads, and returns.
pub fn make_command<R: Threads + Sync, K: Sink, G: Gate + Sync>(
    rt: &R,
    alloc: Global,
    n: u32,
    sink: &mut K,
    gate: &G,
) -> Status
    requires { n < 65536 }
    ensures done { result ≡ Status.Done → MadeRun n (Grew (K.written sink.old) (K.written sink.new)) }
    ensures fixed { result ≡ Status.Done → Grew (K.written sink.old) (K.written sink.new) (make_text n) }
    ensures write_fault { result ≡ Status.WriteFault → Rose (K.faults sink.old) (K.faults sink.new) }
    ensures cut { result ≡ Status.WriteFault →
        MadeRun n (GrewByPrefix (K.written sink.old) (K.written sink.new)) }
    ensures silent { result ≡ Status.Memory → sink.new ≡ sink.old }
    ensures answers { IsOfRun result }
    ensures later { K.faults sink.old ≤ K.faults sink.new }

    // Where the sink did not fail, only want of memory is left.
    ensures complete { ¬ Rose (K.faults sink.old) (K.faults sink.new) →
        (result ≡ Status.Done) ⊎ (result ≡ Status.Memory) }
{
    match run_made(rt, alloc, n, gate) {
        Ok(sizes) => match write_sizes(sink, n, sizes) {
            Ok(()) => Status::Done,
            Err(WriteFault) => Status::WriteFault,
        },
        Err(_) => Status::Memory,
    }
}

/// Makes and runs the machine of `n`. The error is want of memory.
fn run_made<R: Threads + Sync, G: Gate + Sync>(
    rt: &R,
    alloc: Global,
    n: u32,
    gate: &G,
) -> Result<Sizes, AllocError>
    requires { n < 65536 }
    ensures sizes { IfOk result (AreSizesOf n) }
    ensures fixed { IfOk result (λ sizes. sizes ≡ made_sizes n) }
{
    // Laws of every lawful run, which cost nothing: by them the counts fit.
    sizes_are_fixed();
    let machine = machine_of(alloc, n)?;
    let words = words_of(&machine);
    let finished = run_untested(rt, alloc, machine, gate)?;
    Ok(sizes_of(&finished.trace, words))
}

/// Boots and runs a machine without a bring-up table. The error is want of memory.
fn run_untested<R: Threads + Sync, G: Gate + Sync>(
    rt: &R,
    alloc: Global,
    machine: Machine,
    gate: &G,
) -> Result<Finished, AllocError>
    requires { machine.bringup ≡ None }
    ensures { IfOk result (λ finished. IsLawful machine finished.trace) }
{
    let booted = boot(alloc, machine)?;
    let up = untested(alloc, &booted.machine)?;
    run_machine(rt, alloc, booted, up, gate)
}

/// A bring-up that tests no CPU, of a machine without a bring-up table. The error is want of memory.
fn untested(alloc: Global, machine: &Machine) -> Result<BroughtUp, AllocError>
    requires limits { IsWithinLimits machine.now }
    requires none { machine.now.bringup ≡ None }
    ensures up { IfOk result (IsBroughtUp machine.now None) }
    ensures readings { IfOk result (λ up. all_readings up.cpus.items ≡ []) }
{
    let cpus = machine.cpus();
    let mut entries = List::with_room(alloc, cpus as usize)?;
    for cpu in 1..cpus {
        let up = untested_cpu(alloc, cpu)?;
        entries.push(up);
    }
    Ok(BroughtUp {
        cpus: entries,
        failed: false,
    })
}

/// A CPU of which no run was made.
fn untested_cpu(alloc: Global, cpu: u32) -> Result<CpuUp, AllocError>
    ensures number { IfOk result (λ up. up.cpu ≡ cpu) }
    ensures left { IfOk result (IsLeft Untested) }
{
    Ok(CpuUp {
        cpu,
        runs: List::with_room(alloc, 0)?,
        adjust: 0,
        outcome: UpOutcome::Untested,
    })
}

/// The script words of all threads, after repeats.
fn words_of(machine: &Machine) -> u64
    requires { IsWithinLimits machine.now }
    ensures { result ≡ sum_by (λ t. length t.1) (threads_of machine.now) }
{
    let mut words = 0;
    for thread in 0..machine.threads() {
        words += u64::from(machine.words(thread));
    }
    words
}

/// The sizes of a run with so many script words, by its finished trace.
fn sizes_of(trace: &Trace, words: u64) -> Sizes
    requires threads { length trace.now.histories.items ≤ length trace.now.threads.items }
    requires steps { steps_of trace.now.histories.items < 2 ^ 64 }
    ensures cpus { result.cpus ≡ length trace.now.histories.items }
    ensures readers { result.cpus + result.readers ≡ length trace.now.threads.items }
    ensures words { result.words ≡ words }
    ensures tickets { result.tickets ≡ trace.now.tickets }
    ensures steps { result.steps ≡ steps_of trace.now.histories.items }
{
    let cpus = trace.histories.len() as u64;
    Sizes {
        cpus,
        readers: trace.threads.len() as u64 - cpus,
        words,
        tickets: trace.tickets,
        steps: steps_in(trace.histories.items()),
    }
}

/// The steps in all histories.
fn steps_in(histories: &[List<HistoryStep>]) -> u64
    requires { steps_of histories.now < 2 ^ 64 }
    ensures { result ≡ steps_of histories.now }
{
    let mut steps = 0;
    for history in histories {
        steps += history.len() as u64;
    }
    steps
}

/// Writes the six lines. The error is a write that failed; then the sink took a beginning of them.
fn write_sizes<K: Sink>(sink: &mut K, n: u32, sizes: Sizes) -> Result<(), WriteFault>
    ensures ok { OnOk result (Grew (K.written sink.old) (K.written sink.new) (sizes_text n sizes)) }
    ensures err { OnErr result (GrewByPrefix (K.written sink.old) (K.written sink.new) (sizes_text n sizes)) }
    ensures cause { HasCause (K.faults sink.old) (K.faults sink.new) result }
{
    let mut out = Out::new();
    out.line(sink, &Name("machine"), &[Unsigned(u64::from(n))]);
    out.line(sink, &Name("cpus"), &[Unsigned(sizes.cpus)]);
    out.line(sink, &Name("readers"), &[Unsigned(sizes.readers)]);
    out.line(sink, &Name("words"), &[Unsigned(sizes.words)]);
    out.line(sink, &Name("tickets"), &[Unsigned(sizes.tickets)]);
    out.line(sink, &Name("steps"), &[Unsigned(sizes.steps)]);
    out.finish(sink)
}
