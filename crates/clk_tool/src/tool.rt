//! The top call: from the words of a command line to an answer.
ghost use Rattle.std.specs.Prelude.{◌≡◌, ◌↔◌, ◌⊎◌, ◌+◌, ◌≤◌, None};
ghost use Rattle.clk_base.specs.Causes.{Rose, Grew, GrewByPrefix};
ghost use Rattle.clk_threads.specs.Booting.{IsBooted};
ghost use Rattle.clk_tool.specs.Commands.{command_asked};
ghost use Rattle.clk_tool.specs.Whole.{CameAtMost};
ghost use Rattle.clk_tool.specs.Answers.{Answered, IsRate, IsMake, Traced, IsCause, HoldsMachine, HoldsRefused, IsSilent, IsOfRun};

use crate::command::{Command, command_in};
use crate::make::make_command;
use crate::rate::rate_command;
use crate::run::{read_run, write_run};
use crate::source::Source;
use crate::status::{Refusal, Status};
use crate::whole::LIMIT;
use clk_adjust::bring_up;
use clk_machine::Gate;
use clk_threads::Booted;
use clk_trace::Sink;
use std::alloc::Global;
use std::sync::Wait;
use std::thread::Threads;

/// The program, over any source, sink and gate. `words` are those of the command line, without the program's name.
///
/// With `run` it reads the source to its end, brings the CPUs of the machine up that the bytes describe, runs it, each
/// script on a thread of its own, and writes its trace into the sink: [`read_run`], [`bring_up`] and [`write_run`]. It
/// waits where the machine has a bring-up and more than one CPU, for the two sides of each warp run. Each turn of a
/// side, each script word and each check of the watchdog passes the gate before it is made. With `rate HZ BITS` and
/// with `make N` it leaves the source alone and writes what [`rate_command`] and [`make_command`] write.
///
/// The clauses say what holds when it returns.
pub fn clock_tool<R: Wait + Threads + Sync, S: Source, K: Sink, G: Gate + Sync>(
    rt: &R,
    alloc: Global,
    words: &[String],
    source: &mut S,
    sink: &mut K,
    gate: &G,
) -> Status
    // On `Done` the answer of the command was written, whole. With `run` the source was read to its end, and it is the
    // text of a lawful trace of the machine that its bytes describe. With `rate` it is the text of the rate, and with
    // `make` the sizes of a lawful run of the machine of the number, which that number alone tells.
    ensures done { result ≡ Status.Done →
        Answered (command_asked words.now) LIMIT (S.rest source.old) (S.rest source.new)
        (Grew (K.written sink.old) (K.written sink.new)) }

    // The causes of the other answers.
    ensures usage { (result ≡ Status.Usage) ↔ (command_asked words.now ≡ None) }
    ensures read_fault { result ≡ Status.ReadFault → Rose (S.faults source.old) (S.faults source.new) }
    ensures refused { (refusal : Refusal) → result ≡ Status.Refused refusal →
        IsCause LIMIT (S.rest source.old) (S.rest source.new) refusal }
    ensures write_fault { result ≡ Status.WriteFault → Rose (K.faults sink.old) (K.faults sink.new) }
    ensures cut { result ≡ Status.WriteFault →
        Answered (command_asked words.now) LIMIT (S.rest source.old) (S.rest source.new)
        (GrewByPrefix (K.written sink.old) (K.written sink.new)) }

    // What stays the same: the sink but for `Done` and `WriteFault`, and the source but for `run`. Of the source at
    // most one byte past the limit of a file is taken.
    ensures silent { IsSilent result → sink.new ≡ sink.old }
    ensures untouched { ¬ (command_asked words.now ≡ Some Command.Run) → source.new ≡ source.old }
    ensures taken { CameAtMost (LIMIT + 1) (S.rest source.old) (S.rest source.new) }
    ensures counts { (S.faults source.old ≤ S.faults source.new) × (K.faults sink.old ≤ K.faults sink.new) }

    // With `run`, where the source holds a machine and neither end failed, only want of memory is left.
    ensures complete { command_asked words.now ≡ Some Command.Run → HoldsMachine LIMIT (S.rest source.old) →
        ¬ Rose (S.faults source.old) (S.faults source.new) → ¬ Rose (K.faults sink.old) (K.faults sink.new) →
        (result ≡ Status.Done) ⊎ (result ≡ Status.Memory) }

    // With `run`, where what the source holds is refused and it did not fail, the answer is that refusal or want of
    // memory.
    ensures refuses { (refusal : Refusal) → command_asked words.now ≡ Some Command.Run →
        HoldsRefused LIMIT (S.rest source.old) refusal → ¬ Rose (S.faults source.old) (S.faults source.new) →
        (result ≡ Status.Refused refusal) ⊎ (result ≡ Status.Memory) }

    // With `rate` only a fault of the sink is left, and nothing where it did not fail.
    ensures rate { IsRate (command_asked words.now) → (result ≡ Status.Done) ⊎ (result ≡ Status.WriteFault) }
    ensures rate_complete { IsRate (command_asked words.now) →
        ¬ Rose (K.faults sink.old) (K.faults sink.new) → result ≡ Status.Done }

    // With `make` only a fault of the sink and want of memory are left, and want of memory alone where it did not fail.
    ensures make { IsMake (command_asked words.now) → IsOfRun result }
    ensures make_complete { IsMake (command_asked words.now) →
        ¬ Rose (K.faults sink.old) (K.faults sink.new) → (result ≡ Status.Done) ⊎ (result ≡ Status.Memory) }
{
    match command_in(words) {
        None => Status::Usage,
        Some(Command::Run) => match read_run(alloc, source) {
            Ok(booted) => run_booted(rt, alloc, booted, sink, gate),
            Err(status) => status,
        },
        Some(Command::Rate { hz, bits }) => rate_command(hz, bits, sink),
        Some(Command::Make { n }) => make_command(rt, alloc, n, sink, gate),
    }
}

/// Brings the CPUs of a booted machine up, runs it and writes its trace.
fn run_booted<R: Wait + Threads + Sync, K: Sink, G: Gate + Sync>(
    rt: &R,
    alloc: Global,
    mut booted: Booted,
    sink: &mut K,
    gate: &G,
) -> Status
    requires booted { IsBooted booted.machine booted }
    ensures done { result ≡ Status.Done →
        Traced booted.machine (Grew (K.written sink.old) (K.written sink.new)) }
    ensures write_fault { result ≡ Status.WriteFault → Rose (K.faults sink.old) (K.faults sink.new) }
    ensures cut { result ≡ Status.WriteFault →
        Traced booted.machine (GrewByPrefix (K.written sink.old) (K.written sink.new)) }
    ensures silent { result ≡ Status.Memory → sink.new ≡ sink.old }
    ensures answers { IsOfRun result }
    ensures later { K.faults sink.old ≤ K.faults sink.new }
{
    let up = bring_up(
        rt,
        alloc,
        &booted.machine,
        &booted.tickets,
        &mut booted.time,
        gate,
    );
    match up {
        Ok(up) => write_run(rt, alloc, booted, up, sink, gate),
        Err(_) => Status::Memory,
    }
}
