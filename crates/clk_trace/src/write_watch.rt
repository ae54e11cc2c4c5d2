//! The watchdog's lines of a trace's text.
ghost use Rattle.std.specs.Prelude.{◌≡◌, ◌+◌, ◌-◌, ◌%◌, ◌<◌, ◌≤◌, ◌++◌, ◌∷◌, [], length, drop, take, codes, decimal, None, if◌then◌else◌};
ghost use Rattle.std.specs.Fmt.{signed_decimal};
ghost use Rattle.clk_base.specs.Text.{line, lines_from};
ghost use Rattle.clk_lawful.specs.Lines.{line_text};
ghost use Rattle.clk_lawful.specs.Lines.Line.{Demoted, Checking, Judged};
ghost use Rattle.clk_lawful.specs.Checks.{listed, first_of, visit_by, checks_of};
ghost use Rattle.clk_lawful.specs.WritableWatch.{IsSized, MayWriteWatch, visits_after};
ghost use Rattle.clk_trace.specs.Taking.{Takes, progress_of};
ghost use Rattle.clk_trace.specs.WriterParts.{attempt_text, stamp_text, lift_text, demotion_text, visit_text, check_text, watch_text};

use crate::out::Out;
use crate::out::Part::{Name, Signed, Unsigned};
use crate::sink::Sink;
use clk_lawful::{Trace, WatchTrace};
use clk_record::{Attempt, Demotion, Outcome, SourceRecord, StableStamp, Step};

/// What the watchdog left, if there is one.
pub(crate) fn write_watch<K: Sink>(out: &mut Out, sink: &mut K, trace: &Trace)
    requires { MayWriteWatch (length trace.now.histories.items) trace.now.watch }
    ensures { Takes (progress_of K.written K.faults sink.old out.old)
        (progress_of K.written K.faults sink.new out.new)
        (lines_from (watch_text (length trace.now.histories.items)) 0 (listed trace.now.watch)) }
{
    if let Some(watch) = &trace.watch {
        out.line(sink, &Name("watch"), &[Unsigned(u64::from(watch.thread))]);
        write_checks(out, sink, watch, trace.histories.len());
    }
}

/// All checks, by so many CPUs in turn.
fn write_checks<K: Sink>(out: &mut Out, sink: &mut K, watch: &WatchTrace, cpus: usize)
    requires some { 0 < cpus }
    requires sized { IsSized watch.now }
    ensures { Takes (progress_of K.written K.faults sink.old out.old)
        (progress_of K.written K.faults sink.new out.new)
        (lines_from (check_text cpus watch.now.lifts.items) 0 (checks_of watch.now)) }
{
    let pauses = watch.pauses.items();
    let currents = watch.currents.items();
    let mut start = 0;
    let mut used = 0;
    for (check, end) in watch.last_record.items().iter().enumerate() {
        let end = *end as usize;
        write_checking(out, sink, check, check % cpus, pauses[check]);
        used = write_visits(out, sink, watch, start, end, used);
        out.line(
            sink,
            &Name("current"),
            &[Unsigned(u64::from(currents[check]))],
        );
        start = end;
    }
}

fn write_checking<K: Sink>(out: &mut Out, sink: &mut K, check: usize, cpu: usize, ticket: u64)
    ensures { Takes (progress_of K.written K.faults sink.old out.old)
        (progress_of K.written K.faults sink.new out.new) (line_text (Checking check cpu ticket)) }
{
    out.line(
        sink,
        &Name("check"),
        &[
            Unsigned(check as u64),
            Unsigned(cpu as u64),
            Unsigned(ticket),
        ],
    );
}

/// The visits of these records. So many stable stamps stand before them, and the answer tells how many stand before the
/// rest.
fn write_visits<K: Sink>(
    out: &mut Out,
    sink: &mut K,
    watch: &WatchTrace,
    start: usize,
    end: usize,
    used: usize,
) -> usize
    requires order { start ≤ end }
    requires there { end ≤ length watch.now.watch.records.items }
    requires few { used ≤ start }
    requires sized { IsSized watch.now }
    ensures text { Takes (progress_of K.written K.faults sink.old out.old)
        (progress_of K.written K.faults sink.new out.new)
        (lines_from (visit_text watch.now.lifts.items) 0 (take (end - start) (visits_after watch.now start used))) }
    ensures rest { drop (end - start) (visits_after watch.now start used) ≡ visits_after watch.now end result }
    ensures few { result ≤ end }
{
    let records = watch.watch.records().items();
    let mut passed = used;
    for place in start..end {
        let made = &records[place];
        write_visit(out, sink, watch, made, passed);
        if made.tsc_current {
            passed += 1;
        }
    }
    passed
}

fn write_visit<K: Sink>(
    out: &mut Out,
    sink: &mut K,
    watch: &WatchTrace,
    made: &SourceRecord,
    used: usize,
)
    requires { made.now.first + made.now.count ≤ length watch.now.watch.attempts.items }
    ensures { Takes (progress_of K.written K.faults sink.old out.old)
        (progress_of K.written K.faults sink.new out.new)
        (visit_text watch.now.lifts.items 0 (visit_by watch.now.watch.attempts.items watch.now.demotion (drop used watch.now.stamps.items) made.now)) }
{
    let first = made.first as usize;
    let attempts = watch.watch.attempts().items();
    write_attempts(
        out,
        sink,
        made.source,
        &attempts[first..first + made.count as usize],
    );
    write_judged(out, sink, made.source, &made.outcome);
    write_stamp_after(out, sink, watch, made, used);
    write_demotion_after(out, sink, watch, made);
}

fn write_attempts<K: Sink>(out: &mut Out, sink: &mut K, source: u32, attempts: &[Attempt])
    ensures { Takes (progress_of K.written K.faults sink.old out.old)
        (progress_of K.written K.faults sink.new out.new) (lines_from (attempt_text source) 0 attempts.now) }
{
    for attempt in attempts {
        write_attempt(out, sink, source, attempt);
    }
}

fn write_attempt<K: Sink>(out: &mut Out, sink: &mut K, source: u32, attempt: &Attempt)
    ensures { Takes (progress_of K.written K.faults sink.old out.old)
        (progress_of K.written K.faults sink.new out.new) (attempt_text source 0 attempt.now) }
{
    out.line(
        sink,
        &Name("read"),
        &[
            Unsigned(u64::from(source)),
            Unsigned(attempt.ticket[0]),
            Unsigned(attempt.value[0]),
            Unsigned(attempt.ticket[1]),
            Unsigned(attempt.value[1]),
            Unsigned(attempt.ticket[2]),
            Unsigned(attempt.value[2]),
            Unsigned(attempt.ticket[3]),
            Unsigned(attempt.value[3]),
        ],
    );
}

fn write_judged<K: Sink>(out: &mut Out, sink: &mut K, source: u32, outcome: &Outcome)
    ensures { Takes (progress_of K.written K.faults sink.old out.old)
        (progress_of K.written K.faults sink.new out.new) (line_text (Judged source outcome.now)) }
{
    match outcome {
        Outcome::Passed => write_source(out, sink, source, "passed"),
        Outcome::Slow => write_source(out, sink, source, "slow"),
        Outcome::Skip => write_source(out, sink, source, "skip"),
        Outcome::First => write_source(out, sink, source, "first"),
        Outcome::Good { cs_ns, wd_ns } => {
            write_compared(out, sink, source, "good", cs_ns, wd_ns)
        }
        Outcome::Bad { cs_ns, wd_ns } => write_compared(out, sink, source, "bad", cs_ns, wd_ns),
    }
}

fn write_source<K: Sink>(out: &mut Out, sink: &mut K, source: u32, found: &'static str)
    requires { length found.now ≤ 6 }
    ensures { Takes (progress_of K.written K.faults sink.old out.old)
        (progress_of K.written K.faults sink.new out.new)
        (line (codes "source" ∷ decimal source ∷ found.now ∷ [])) }
{
    out.line(
        sink,
        &Name("source"),
        &[Unsigned(u64::from(source)), Name(found)],
    );
}

fn write_compared<K: Sink>(
    out: &mut Out,
    sink: &mut K,
    source: u32,
    found: &'static str,
    cs_ns: &i64,
    wd_ns: &i64,
)
    requires { length found.now ≤ 6 }
    ensures { Takes (progress_of K.written K.faults sink.old out.old)
        (progress_of K.written K.faults sink.new out.new)
        (line (codes "source" ∷ decimal source ∷ found.now ∷ signed_decimal cs_ns.now ∷ signed_decimal wd_ns.now ∷ [])) }
{
    out.line(
        sink,
        &Name("source"),
        &[
            Unsigned(u64::from(source)),
            Name(found),
            Signed(*cs_ns),
            Signed(*wd_ns),
        ],
    );
}

/// The next stable stamp, after a record that calls for one.
fn write_stamp_after<K: Sink>(
    out: &mut Out,
    sink: &mut K,
    watch: &WatchTrace,
    made: &SourceRecord,
    used: usize,
)
    ensures { Takes (progress_of K.written K.faults sink.old out.old)
        (progress_of K.written K.faults sink.new out.new)
        (lines_from stamp_text 0 (listed (if made.now.tsc_current then first_of (drop used watch.now.stamps.items) else None))) }
{
    if made.tsc_current && used < watch.stamps.len() {
        write_stamp(out, sink, watch.stamps.get(used));
    }
}

fn write_stamp<K: Sink>(out: &mut Out, sink: &mut K, stamp: &StableStamp)
    ensures { Takes (progress_of K.written K.faults sink.old out.old)
        (progress_of K.written K.faults sink.new out.new) (stamp_text 0 stamp.now) }
{
    let raw = &stamp.raw;
    out.line(
        sink,
        &Name("stable"),
        &[
            Unsigned(stamp.gtod_ticket),
            Signed(stamp.gtod),
            Unsigned(raw.ticket),
            Unsigned(raw.cyc),
            Unsigned(u64::from(raw.rec)),
            Signed(raw.ns),
            Signed(stamp.offset),
        ],
    );
}

/// The demotion and its lifts, after a record that calls for it.
fn write_demotion_after<K: Sink>(
    out: &mut Out,
    sink: &mut K,
    watch: &WatchTrace,
    made: &SourceRecord,
)
    ensures { Takes (progress_of K.written K.faults sink.old out.old)
        (progress_of K.written K.faults sink.new out.new)
        (lines_from (demotion_text watch.now.lifts.items) 0 (listed (if made.now.tsc_demoted then watch.now.demotion else None))) }
{
    if made.tsc_demoted {
        if let Some(demotion) = &watch.demotion {
            write_demotion(out, sink, demotion);
            write_lifts(out, sink, watch.lifts.items());
        }
    }
}

/// A demotion, at boot or of the watchdog.
pub(crate) fn write_demotion<K: Sink>(out: &mut Out, sink: &mut K, demotion: &Demotion)
    ensures { Takes (progress_of K.written K.faults sink.old out.old)
        (progress_of K.written K.faults sink.new out.new) (line_text (Demoted demotion.now)) }
{
    let raw = &demotion.raw;
    out.line(
        sink,
        &Name("demote"),
        &[
            Unsigned(demotion.gtod_ticket),
            Signed(demotion.gtod),
            Unsigned(raw.ticket),
            Unsigned(raw.cyc),
            Unsigned(u64::from(raw.rec)),
            Signed(raw.ns),
            Signed(demotion.gtod_offset),
            Signed(demotion.opening),
            Signed(demotion.drift),
        ],
    );
}

fn write_lifts<K: Sink>(out: &mut Out, sink: &mut K, lifts: &[Step])
    ensures { Takes (progress_of K.written K.faults sink.old out.old)
        (progress_of K.written K.faults sink.new out.new) (lines_from lift_text 0 lifts.now) }
{
    for lift in lifts {
        write_lift(out, sink, lift);
    }
}

fn write_lift<K: Sink>(out: &mut Out, sink: &mut K, lift: &Step)
    ensures { Takes (progress_of K.written K.faults sink.old out.old)
        (progress_of K.written K.faults sink.new out.new) (lift_text 0 lift.now) }
{
    out.line(
        sink,
        &Name("lift"),
        &[
            Unsigned(u64::from(lift.word)),
            Signed(lift.old),
            Signed(lift.new),
        ],
    );
}
