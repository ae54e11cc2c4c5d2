//! The command `run` by its parts: what is read before the CPUs are brought up, and what is run and written after it.
ghost use Rattle.std.specs.Prelude.{◌≡◌, ◌⊎◌, ◌+◌, ◌≤◌, None, IfOk, IfErr, IsErrAnd, length};
ghost use Rattle.clk_base.specs.Causes.{Rose, Grew, GrewByPrefix};
ghost use Rattle.clk_record.specs.BroughtUp.{IsBroughtUp};
ghost use Rattle.clk_lawful.specs.LawfulTrace.{IsLawful};
ghost use Rattle.clk_lawful.specs.WritableWatch.{MayWriteWatch};
ghost use Rattle.clk_threads.specs.Booting.{IsBooted, IsBootedFor};
ghost use Rattle.clk_threads.specs.Finishing.{ShowsHistory};
ghost use Rattle.clk_tool.specs.Whole.{CameAtMost};
ghost use Rattle.clk_tool.specs.Answers.{CameMachine, Traced, status_of, IsCause, HoldsMachine, HoldsRefused, IsOfFile, IsOfRun};

use crate::source::Source;
use crate::status::{Refusal, Status};
use crate::whole::{LIMIT, ReadRefusal, read_whole};
use clk_file::{FileError, read_machine};
use clk_machine::{Gate, Machine};
use clk_record::BroughtUp;
use clk_threads::{Booted, Finished, boot, prepare, run_cpus};
use clk_trace::{Sink, WriteFault, write_trace};
use std::alloc::{AllocError, Global};
use std::thread::Threads;

/// Reads the source to its end, and boots the machine that its bytes describe. The error is the answer of the program:
/// `ReadFault`, `Refused` or `Memory`. It waits on nothing, and returns.
pub fn read_run<S: Source>(alloc: Global, source: &mut S) -> Result<Booted, Status>
    ensures came { IfOk result (λ booted. CameMachine LIMIT (S.rest source.old) (S.rest source.new) booted.machine) }
    ensures booted { IfOk result (λ booted. IsBooted booted.machine booted) }
    ensures read_fault { result ≡ Err Status.ReadFault → Rose (S.faults source.old) (S.faults source.new) }
    ensures refused { (refusal : Refusal) → result ≡ Err (Status.Refused refusal) →
        IsCause LIMIT (S.rest source.old) (S.rest source.new) refusal }
    ensures answers { IfErr result IsOfFile }
    ensures taken { CameAtMost (LIMIT + 1) (S.rest source.old) (S.rest source.new) }
    ensures later { S.faults source.old ≤ S.faults source.new }

    // Where the source holds a machine and did not fail, only want of memory is left.
    ensures complete { HoldsMachine LIMIT (S.rest source.old) → ¬ Rose (S.faults source.old) (S.faults source.new) →
        IfErr result (λ status. status ≡ Status.Memory) }

    // Where what it holds is refused and it did not fail, only that refusal and want of memory are left.
    ensures refuses { (refusal : Refusal) → HoldsRefused LIMIT (S.rest source.old) refusal →
        ¬ Rose (S.faults source.old) (S.faults source.new) →
        IsErrAnd result (λ status. (status ≡ Status.Refused refusal) ⊎ (status ≡ Status.Memory)) }
{
    match machine_of(alloc, source) {
        Ok(machine) => match boot(alloc, machine) {
            Ok(booted) => Ok(booted),
            Err(_) => Err(Status::Memory),
        },
        Err(status) => Err(status),
    }
}

/// Runs a machine that [`read_run`] booted and whose CPUs were brought up with the tickets of its seat, each script on
/// a thread of its own, and writes its trace: the text of a lawful trace of the machine. The answer is `Done`,
/// `WriteFault` or `Memory`. Each script word and each check of the watchdog passes the gate first. It waits on
/// nothing, and returns.
pub fn write_run<R: Threads + Sync, K: Sink, G: Gate + Sync>(
    rt: &R,
    alloc: Global,
    booted: Booted,
    up: BroughtUp,
    sink: &mut K,
    gate: &G,
) -> Status
    requires booted { IsBootedFor booted.machine up booted }
    requires up { IsBroughtUp booted.machine None up }
    ensures done { result ≡ Status.Done →
        Traced booted.machine (Grew (K.written sink.old) (K.written sink.new)) }
    ensures write_fault { result ≡ Status.WriteFault → Rose (K.faults sink.old) (K.faults sink.new) }
    ensures cut { result ≡ Status.WriteFault →
        Traced booted.machine (GrewByPrefix (K.written sink.old) (K.written sink.new)) }
    ensures silent { result ≡ Status.Memory → sink.new ≡ sink.old }
    ensures answers { IsOfRun result }
    ensures later { K.faults sink.old ≤ K.faults sink.new }

    // Where the sink did not fail, only want of memory is left.
    ensures complete { ¬ Rose (K.faults sink.old) (K.faults sink.new) →
        (result ≡ Status.Done) ⊎ (result ≡ Status.Memory) }
{
    match run_machine(rt, alloc, booted, up, gate) {
        Ok(finished) => match write_trace(sink, &finished.trace) {
            Ok(()) => Status::Done,
            Err(WriteFault) => Status::WriteFault,
        },
        Err(_) => Status::Memory,
    }
}

/// The machine that a source describes. The error is the answer of the program.
fn machine_of<S: Source>(alloc: Global, source: &mut S) -> Result<Machine, Status>
    ensures ok { IfOk result (CameMachine LIMIT (S.rest source.old) (S.rest source.new)) }
    ensures read_fault { result ≡ Err Status.ReadFault → Rose (S.faults source.old) (S.faults source.new) }
    ensures refused { (refusal : Refusal) → result ≡ Err (Status.Refused refusal) →
        IsCause LIMIT (S.rest source.old) (S.rest source.new) refusal }
    ensures answers { IfErr result IsOfFile }
    ensures taken { CameAtMost (LIMIT + 1) (S.rest source.old) (S.rest source.new) }
    ensures later { S.faults source.old ≤ S.faults source.new }
{
    let bytes = match read_whole(alloc, source) {
        Ok(bytes) => bytes,
        Err(ReadRefusal::Fault) => return Err(Status::ReadFault),
        Err(ReadRefusal::TooLong) => return Err(Status::Refused(Refusal::TooLong)),
        Err(ReadRefusal::Memory) => return Err(Status::Memory),
    };
    match read_machine(alloc, bytes.as_slice()) {
        Ok(machine) => Ok(machine),
        Err(error) => Err(status_of(error)),
    }
}

/// The answer where a file is no machine.
fn status_of(error: FileError) -> Status
    ensures { result ≡ status_of error }
{
    match error {
        FileError::NotToml => Status::Refused(Refusal::NotToml),
        FileError::Key(place) => Status::Refused(Refusal::Key(place)),
        FileError::Value(place) => Status::Refused(Refusal::Value(place)),
        FileError::Word(place) => Status::Refused(Refusal::Word(place)),
        FileError::Cpu(place) => Status::Refused(Refusal::Cpu(place)),
        FileError::Tickets { needed } => Status::Refused(Refusal::Tickets { needed }),
        FileError::Memory(_) => Status::Memory,
    }
}

/// Runs the scripts of a machine's threads, each on a thread of its own, and answers the trace, which is lawful, with
/// the clock words at their end, whose history the trace shows. The error is want of memory, and comes before the first
/// word passes the gate.
pub(crate) fn run_machine<R: Threads + Sync, G: Gate + Sync>(
    rt: &R,
    alloc: Global,
    booted: Booted,
    up: BroughtUp,
    gate: &G,
) -> Result<Finished, AllocError>
    requires booted { IsBootedFor booted.machine up booted }
    requires up { IsBroughtUp booted.machine None up }
    ensures lawful { IfOk result (λ finished. IsLawful booted.machine finished.trace) }
    ensures closed { IfOk result (λ finished. ShowsHistory finished.closed.history finished.trace) }
    ensures writable { IfOk result (λ finished.
        MayWriteWatch (length finished.trace.histories.items) finished.trace.watch) }
{
    let prepared = prepare(alloc, booted, up)?;
    Ok(run_cpus(rt, prepared, gate))
}
