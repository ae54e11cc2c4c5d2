//! Two owners on threads of their own, who couple with each other.
ghost use Rattle.std.specs.Prelude.{◌≡◌, ◌≢◌, ◌+◌, ◌^◌, ◌<◌};
ghost use Rattle.clk_num.specs.Range.{IsFrom0To};
ghost use Rattle.clk_ticket.specs.Time.{share_of};
ghost use Rattle.clk_machine.specs.Plan.{cpu_count};
ghost use Rattle.clk_machine.specs.Records.{above_base};
ghost use Rattle.clk_words.specs.Held.{place_of};
ghost use Rattle.clk_words.specs.Histories.{opens_at};
ghost use Rattle.clk_words.specs.Kinds.{cpu_of};
ghost use Rattle.clk_words.specs.Knowing.{IsReadingKind, numbers_of};
ghost use Rattle.clk_local.specs.Context.{BeginsAtBase};

use crate::RemoteEvent;
use crate::tests::fixtures::{Own, Shared, ask, context, end, hire, seats_of, stand};
use clk_latch::{Latch, LatchSeat};
use clk_words::{Mode, Step};
use std::alloc::Global;
use std::process::Abort;
use std::thread::{Threads, join};

const CALLS: u32 = 10_000;

// One for each call.
const TICKETS: u64 = 10_000;

// What an owner was answered: both steps of each call, and the tickets of its readings.
#[derive(Drop)]
struct Log {
    steps: Vec<Step>,
    tickets: Vec<u64>,
}

fn empty_log(alloc: Global) -> Log {
    Log {
        steps: Vec::new(alloc),
        tickets: Vec::new(alloc),
    }
}

// An answer goes into the log as far as there is memory.
fn note(log: &mut Log, event: RemoteEvent) {
    if let RemoteEvent::Coupled {
        raw,
        local,
        step,
        ..
    } = event
    {
        let _ = log.steps.push(local);
        let _ = log.steps.push(step);
        let _ = log.tickets.push(raw.ticket);
    }
}

// The seats of an owner, and its log.
#[derive(Drop)]
struct Runner {
    latch_seat: LatchSeat,
    own: Own,
    log: Log,
}

// All calls of the owner of a CPU.
fn run(shared: &Shared, latch: &Latch, cpu: u32, other: u32, runner: Runner) -> (Own, Log)
    requires own { place_of runner.own.seat ≡ shared.now.words }
    requires reading { IsReadingKind runner.own.seat.view.kind }
    requires cpu { (cpu_of runner.own.seat.view.kind ≡ cpu) × (cpu < 2) }
    requires other { (other < 2) × (other ≢ cpu) }
    requires cpus { (shared.now.words.start.cpus ≡ 2) × (cpu_count shared.now.machine ≡ 2) }
    requires tick { shared.now.words.start.tick ≡ shared.now.machine.tick }
    requires opening { IsFrom0To (2 ^ 57) (above_base shared.now.machine (opens_at shared.now.words.start)) }
    requires latch { runner.latch_seat.latch ≡ latch.now }
    requires base { BeginsAtBase shared.now.machine runner.latch_seat.epoch }
    requires table { runner.own.time.table ≡ shared.now.tickets.table }
    requires left { runner.own.time.left ≡ TICKETS }
    ensures own { place_of result.0.seat ≡ shared.now.words }
    ensures numbers { numbers_of result.0.seat.view ≡ numbers_of runner.own.seat.view }
    ensures table { result.0.time.table ≡ shared.now.tickets.table }
    ensures share { share_of result.0.time ≡ share_of runner.own.time }
{
    let Runner {
        latch_seat,
        own,
        mut log,
    } = runner;
    let mut ctx = context(shared, latch, latch_seat, own, cpu);
    for call in 0..CALLS {
        note(&mut log, ask(&mut ctx, call, other));
    }
    (seats_of(ctx), log)
}

// Both owners, each on a thread.
fn run_both<R: Threads + Sync>(
    rt: &R,
    shared: &Shared,
    a: Runner,
    b: Runner,
) -> ((Own, Log), (Own, Log))
    requires own { (place_of a.own.seat ≡ shared.now.words) × (place_of b.own.seat ≡ shared.now.words) }
    requires reading { IsReadingKind a.own.seat.view.kind × IsReadingKind b.own.seat.view.kind }
    requires cpu { (cpu_of a.own.seat.view.kind ≡ 0) × (cpu_of b.own.seat.view.kind ≡ 1) }
    requires cpus { (shared.now.words.start.cpus ≡ 2) × (cpu_count shared.now.machine ≡ 2) }
    requires tick { shared.now.words.start.tick ≡ shared.now.machine.tick }
    requires opening { IsFrom0To (2 ^ 57) (above_base shared.now.machine (opens_at shared.now.words.start)) }
    requires latch { (a.latch_seat.latch ≡ shared.now.here) × (b.latch_seat.latch ≡ shared.now.there) }
    requires base { BeginsAtBase shared.now.machine a.latch_seat.epoch × BeginsAtBase shared.now.machine b.latch_seat.epoch }
    requires table { (a.own.time.table ≡ shared.now.tickets.table) × (b.own.time.table ≡ shared.now.tickets.table) }
    requires left { (a.own.time.left ≡ TICKETS) × (b.own.time.left ≡ TICKETS) }
    ensures own { (place_of result.0.0.seat ≡ shared.now.words) × (place_of result.1.0.seat ≡ shared.now.words) }
    ensures first { numbers_of result.0.0.seat.view ≡ numbers_of a.own.seat.view }
    ensures second { numbers_of result.1.0.seat.view ≡ numbers_of b.own.seat.view }
    ensures table { (result.0.0.time.table ≡ shared.now.tickets.table) × (result.1.0.time.table ≡ shared.now.tickets.table) }
    ensures share { (share_of result.0.0.time ≡ share_of a.own.time) × (share_of result.1.0.time ≡ share_of b.own.time) }
{
    join(
        rt,
        move || run(shared, &shared.here, 0, 1, a),
        move || run(shared, &shared.there, 1, 0, b),
    )
}

// What both owners were answered, the last values of both words, and how many tickets were drawn.
fn both_logs<R: Abort + Threads + Sync>(rt: &R, alloc: Global) -> (Log, Log, (i64, i64, u64)) {
    let (shared, mut first, (here, there)) = stand(rt, alloc, 0, Mode::PerCpu, 20_003);
    let a = Runner {
        latch_seat: here,
        own: hire(&shared, &mut first, 0, TICKETS),
        log: empty_log(alloc),
    };
    let b = Runner {
        latch_seat: there,
        own: hire(&shared, &mut first, 1, TICKETS),
        log: empty_log(alloc),
    };
    let ((a, log), (b, more)) = run_both(rt, &shared, a, b);
    (log, more, end(shared, first, a, b))
}

// Both logs as one.
fn merged<R: Abort>(rt: &R, mut log: Log, more: &Log) -> Log {
    log.steps
        .extend_from_slice(more.steps.as_slice())
        .expect(rt, "memory");
    log.tickets
        .extend_from_slice(more.tickets.as_slice())
        .expect(rt, "memory");
    log
}

// Puts the steps on each word together, in the order in which they were made.
fn sort_steps(steps: &mut Vec<Step>) {
    steps.sort_unstable_by_key(|s| (s.word, s.new, s.old >= s.new, s.by, s.call));
}

// The sorted steps on a word go from its opening to this last value.
fn is_chain(steps: &[Step], word: u32, end: i64) -> bool {
    let mut last = 20;
    for step in steps {
        if step.word == word {
            if step.old != last {
                return false;
            }
            last = step.new;
        }
    }
    last == end
}

// The tickets are those from 3 on, each once.
fn are_all(mut tickets: Vec<u64>, drawn: u64) -> bool {
    tickets.sort_unstable();
    tickets.iter().copied().eq(3..drawn)
}

#[test]
fn two_owners(rt: HostRuntime) {
    let (log, more, (here, there, drawn)) = both_logs(&rt, rt.alloc());
    let Log { mut steps, tickets } = merged(&rt, log, &more);
    sort_steps(&mut steps);
    let chains = (
        is_chain(steps.as_slice(), 0, here),
        is_chain(steps.as_slice(), 1, there),
    );
    assert_eq!(rt;
        (steps.len(), drawn, chains, are_all(tickets, drawn)),
        (40_000, 20_003, (true, true), true)
    );
}
