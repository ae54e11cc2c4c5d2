//! A visit to a source: its bracket, the outcome, and what that leaves.
ghost use Rattle.std.specs.Prelude.{◌≡◌, ◌&&◌, ◌+◌, ◌*◌, ◌^◌, ◌<◌, ◌≤◌, IfOk, length};
ghost use Rattle.std.specs.List.{All};
ghost use Rattle.clk_num.specs.Range.{IsNear};
ghost use Rattle.clk_machine.specs.Plan.{count_of, cpu_count, source_plan};
ghost use Rattle.clk_machine.specs.Limits.{IsWithinLimits, IsSource};
ghost use Rattle.clk_record.specs.Attempts.{retries_of};
ghost use Rattle.clk_record.specs.Fold.{source_at_first, at_first, is_lost};
ghost use Rattle.clk_watch.specs.Visits.{Visits};
ghost use Rattle.clk_watch.specs.Small.{IsSmallBracket, IsSmallWatched};
ghost use Rattle.clk_watch.specs.Visiting.{IsRead, HasFlags, pair_in};

use crate::judge::outcome_of;
use crate::numbers::count;
use crate::place::current_place;
use crate::settle::settle;
use crate::tries::bracket_of;
use clk_machine::{CpuCounter, Machine, SourcePart};
use clk_num::List;
use clk_record::{Attempt, Bracket, Outcome, Pair, SourceRecord, Watched};
use clk_ticket::{TicketTable, TimeSeat};
use std::alloc::{AllocError, Global};

/// What is kept of the sources at first.
pub(crate) fn first_watched(
    alloc: Global,
    machine: &Machine,
    tsc_unstable: bool,
) -> Result<List<Watched>, AllocError>
    requires { IsWithinLimits machine.now }
    ensures { IfOk result (λ l. l.items ≡ at_first machine.now tsc_unstable) }
{
    let mut sources = List::with_room(alloc, machine.sources() as usize)?;
    for s in 0..machine.sources() {
        sources.push(watched_first(machine.source(s), tsc_unstable));
    }
    Ok(sources)
}

/// What is kept of a source at first.
fn watched_first(source: &SourcePart, tsc_unstable: bool) -> Watched
    requires { IsSource (source_plan source.now) }
    ensures { result ≡ source_at_first tsc_unstable (source_plan source.now) }
{
    let unstable = tsc_unstable && source.tsc;
    Watched {
        kept: None,
        unstable,
        rating: if unstable {
            0
        } else {
            count(&source.rating) as u32
        },
    }
}

/// Visits source `s`. Its attempts are appended, and the sources are what its record leaves of them.
pub(crate) fn visit(
    sources: &mut List<Watched>,
    reference: u32,
    attempts: &mut List<Attempt>,
    s: u32,
    counter: CpuCounter<'_>,
    tickets: &TicketTable,
    time: &mut TimeSeat,
) -> SourceRecord
    requires limits { IsWithinLimits counter.machine.now }
    requires source { s < length counter.machine.now.source }
    requires cpu { counter.cpu < cpu_count counter.machine.now }
    requires adjust { IsNear 48 counter.adjust }
    requires table { time.old.table ≡ tickets.now.table }
    requires room { retries_of counter.machine.now + 1 ≤ attempts.old.room }
    requires tickets { 4 * (retries_of counter.machine.now + 1) ≤ time.old.left }
    requires sources { length sources.old.items ≡ length counter.machine.now.source }
    requires small { All IsSmallWatched sources.old.items }
    requires reference { reference ≡ count_of counter.machine.now.reference.rating }
    requires few { length attempts.old.items + attempts.old.room ≤ 2 ^ 20 }
    ensures visits { Visits
        counter.entry.machine.now counter.entry.cpu counter.entry.adjust s sources.old.items
        attempts.old attempts.new time.old time.new result sources.new.items }
    ensures small { All IsSmallWatched sources.new.items }
{
    let first = attempts.len() as u32;
    let watched = *sources.get(s as usize);
    let ends = read(&watched, attempts, s, counter, tickets, time);
    let count = attempts.len() as u32 - first;
    let outcome = outcome_of(counter.machine, s, &watched, &ends);
    let tsc = counter.machine.source(s).tsc;
    let record = SourceRecord {
        source: s,
        first,
        count,
        outcome,
        tsc_current: is_current(sources.items(), reference, s, tsc, &outcome),
        tsc_demoted: loses(tsc, &outcome),
    };
    settle(sources, s, &outcome, pair_of(&ends));
    record
}

/// A bracket of a source that is not unstable.
fn read(
    watched: &Watched,
    attempts: &mut List<Attempt>,
    s: u32,
    counter: CpuCounter<'_>,
    tickets: &TicketTable,
    time: &mut TimeSeat,
) -> Option<Bracket>
    requires limits { IsWithinLimits counter.machine.now }
    requires source { s < length counter.machine.now.source }
    requires cpu { counter.cpu < cpu_count counter.machine.now }
    requires adjust { IsNear 48 counter.adjust }
    requires table { time.old.table ≡ tickets.now.table }
    requires room { retries_of counter.machine.now + 1 ≤ attempts.old.room }
    requires tickets { 4 * (retries_of counter.machine.now + 1) ≤ time.old.left }
    ensures read { IsRead
        counter.entry.machine.now counter.entry.cpu counter.entry.adjust s watched.now
        attempts.old attempts.new time.old time.new result }
    ensures small { IsSmallBracket result }
{
    if watched.unstable {
        None
    } else {
        Some(bracket_of(attempts, s, counter, tickets, time))
    }
}

/// Whether a TSC source was good, and is current.
fn is_current(sources: &[Watched], reference: u32, s: u32, tsc: bool, outcome: &Outcome) -> bool
    requires { length sources.now < 2 ^ 32 }
    ensures { HasFlags sources.now reference s tsc outcome.now result }
{
    outcome.is_good() && tsc && current_place(sources, reference) == s
}

/// Whether a TSC source became unstable.
fn loses(tsc: bool, outcome: &Outcome) -> bool
    ensures { result ≡ (is_lost outcome.now && tsc) }
{
    outcome.is_lost() && tsc
}

/// The pair of an accepted bracket. What is not accepted has none that anybody reads.
fn pair_of(ends: &Option<Bracket>) -> Pair
    ensures { result ≡ pair_in ends.now }
{
    match *ends {
        Some(Bracket::Accepted { cs, wd }) => Pair { cs, wd },
        _ => Pair { cs: 0, wd: 0 },
    }
}
