//! The text of a trace, written line by line.
ghost use Rattle.std.specs.Prelude.{◌≡◌, ◌<◌, ◌≤◌, ◌++◌, ◌∷◌, [], length, codes, decimal, OnOk, OnErr};
ghost use Rattle.std.specs.Fmt.{signed_decimal};
ghost use Rattle.clk_base.specs.Causes.{Grew, GrewByPrefix, HasCause};
ghost use Rattle.clk_base.specs.Text.{line, lines_from};
ghost use Rattle.clk_record.specs.Verdicts.{adjustment};
ghost use Rattle.clk_lawful.specs.Lines.{kind_words, line_text, mode_name, side_name as name_of_side, outcome_name as name_of_outcome};
ghost use Rattle.clk_lawful.specs.TraceText.{text, cpu_line, done_line};
ghost use Rattle.clk_lawful.specs.Checks.{listed};
ghost use Rattle.clk_lawful.specs.WritableWatch.{MayWriteWatch};
ghost use Rattle.clk_trace.specs.Taking.{Takes, progress_of};
ghost use Rattle.clk_trace.specs.Parts.{part_text, part_room};
ghost use Rattle.clk_trace.specs.WriterParts.{event_text, boot_text, up_text, run_text, reading_text, boot_demotion_text, word_text, thread_text, step_text, history_text};

use crate::out::Part::{Name, Negated, Signed, Unsigned};
use crate::out::{Out, Part, WriteFault};
use crate::sink::Sink;
use crate::write_watch::{write_demotion, write_watch};
use clk_lawful::{Event, EventKind, HistoryStep, Trace};
use clk_machine::{Published, RawReading};
use clk_num::List;
use clk_record::{CpuUp, Mode, Side, StableStamp, UpOutcome, WarpReading, WarpRun};

/// Writes the trace's text into a sink, and takes no memory. Each thread must have its CPU. Where there is a watchdog,
/// there must be a history, so that a check has its CPU, and the lists of its checks must be as long as each other,
/// with ends that do not fall and attempts that are there. The error is a write that failed; then the sink took a
/// beginning of the text.
pub fn write_trace<K: Sink>(sink: &mut K, trace: &Trace) -> Result<(), WriteFault>
    requires cpus { length trace.now.cpu_of.items ≡ length trace.now.threads.items }
    requires watch { MayWriteWatch (length trace.now.histories.items) trace.now.watch }
    ensures ok { OnOk result (Grew (K.written sink.old) (K.written sink.new) (text trace.now)) }
    ensures err { OnErr result (GrewByPrefix (K.written sink.old) (K.written sink.new) (text trace.now)) }
    ensures cause { HasCause (K.faults sink.old) (K.faults sink.new) result }
{
    let mut out = Out::new();
    out.line(sink, &Name("trace"), &[Unsigned(1)]);
    out.line(
        sink,
        &Name("epoch"),
        &[Unsigned(trace.epoch_ticket), Unsigned(trace.epoch_cyc)],
    );
    write_boots(&mut out, sink, trace.boots.items());
    write_start(&mut out, sink, trace);
    write_ups(&mut out, sink, trace.ups.cpus.items());
    write_boot_demotion(&mut out, sink, trace);
    write_words(&mut out, sink, trace);
    write_threads(&mut out, sink, trace);
    write_watch(&mut out, sink, trace);
    write_histories(&mut out, sink, trace.histories.items());
    out.line(sink, &Name("end"), &[Unsigned(trace.tickets)]);
    out.finish(sink)
}

fn write_boots<K: Sink>(out: &mut Out, sink: &mut K, boots: &[StableStamp])
    ensures { Takes (progress_of K.written K.faults sink.old out.old)
        (progress_of K.written K.faults sink.new out.new) (lines_from boot_text 0 boots.now) }
{
    for boot in boots {
        write_boot(out, sink, boot);
    }
}

fn write_boot<K: Sink>(out: &mut Out, sink: &mut K, boot: &StableStamp)
    ensures { Takes (progress_of K.written K.faults sink.old out.old)
        (progress_of K.written K.faults sink.new out.new) (boot_text 0 boot.now) }
{
    let raw = &boot.raw;
    out.line(
        sink,
        &Name("boot"),
        &[
            Unsigned(boot.gtod_ticket),
            Signed(boot.gtod),
            Unsigned(raw.ticket),
            Unsigned(raw.cyc),
            Unsigned(u64::from(raw.rec)),
            Signed(raw.ns),
        ],
    );
}

fn write_start<K: Sink>(out: &mut Out, sink: &mut K, trace: &Trace)
    ensures { Takes (progress_of K.written K.faults sink.old out.old)
        (progress_of K.written K.faults sink.new out.new)
        (line (codes "start" ∷ mode_name trace.now.starts ∷ signed_decimal trace.now.sched_offset ∷ signed_decimal trace.now.gtod_offset ∷ [])) }
{
    let mode = match trace.starts {
        Mode::Stable => "stable",
        Mode::PerCpu => "percpu",
    };
    out.line(
        sink,
        &Name("start"),
        &[
            Name(mode),
            Signed(trace.sched_offset),
            Signed(trace.gtod_offset),
        ],
    );
}

fn write_ups<K: Sink>(out: &mut Out, sink: &mut K, ups: &[CpuUp])
    ensures { Takes (progress_of K.written K.faults sink.old out.old)
        (progress_of K.written K.faults sink.new out.new) (lines_from up_text 0 ups.now) }
{
    for up in ups {
        write_up(out, sink, up);
    }
}

fn write_up<K: Sink>(out: &mut Out, sink: &mut K, up: &CpuUp)
    ensures { Takes (progress_of K.written K.faults sink.old out.old)
        (progress_of K.written K.faults sink.new out.new) (up_text 0 up.now) }
{
    write_runs(out, sink, up);
    write_cpu(out, sink, up);
}

fn write_cpu<K: Sink>(out: &mut Out, sink: &mut K, up: &CpuUp)
    ensures { Takes (progress_of K.written K.faults sink.old out.old)
        (progress_of K.written K.faults sink.new out.new) (line_text (cpu_line up.now)) }
{
    out.line(
        sink,
        &Name("cpu"),
        &[
            Unsigned(u64::from(up.cpu)),
            Signed(up.adjust),
            Name(outcome_name(up.outcome)),
        ],
    );
}

fn outcome_name(outcome: UpOutcome) -> &'static str
    ensures text { result.now ≡ name_of_outcome outcome }
    ensures short { length result.now ≤ 8 }
{
    match outcome {
        UpOutcome::Untested => "untested",
        UpOutcome::Synced => "synced",
        UpOutcome::Failed => "failed",
        UpOutcome::Skipped => "skipped",
    }
}

fn write_runs<K: Sink>(out: &mut Out, sink: &mut K, up: &CpuUp)
    ensures { Takes (progress_of K.written K.faults sink.old out.old)
        (progress_of K.written K.faults sink.new out.new) (lines_from (run_text up.now.cpu (length up.now.runs.items)) 0 up.now.runs.items) }
{
    for (place, run) in up.runs.items().iter().enumerate() {
        write_run(out, sink, up, place, run);
    }
}

fn write_run<K: Sink>(out: &mut Out, sink: &mut K, up: &CpuUp, place: usize, run: &WarpRun)
    requires { place < length up.now.runs.items }
    ensures { Takes (progress_of K.written K.faults sink.old out.old)
        (progress_of K.written K.faults sink.new out.new) (run_text up.now.cpu (length up.now.runs.items) place run.now) }
{
    let count = up.runs.len();
    let number = place + 1;
    out.line(
        sink,
        &Name("run"),
        &[Unsigned(u64::from(up.cpu)), Unsigned(number as u64)],
    );
    write_readings(out, sink, run.readings.items());
    write_done(out, sink, run, number == count);
}

fn write_readings<K: Sink>(out: &mut Out, sink: &mut K, readings: &[WarpReading])
    ensures { Takes (progress_of K.written K.faults sink.old out.old)
        (progress_of K.written K.faults sink.new out.new) (lines_from reading_text 0 readings.now) }
{
    for reading in readings {
        write_reading(out, sink, reading);
    }
}

fn write_reading<K: Sink>(out: &mut Out, sink: &mut K, reading: &WarpReading)
    ensures { Takes (progress_of K.written K.faults sink.old out.old)
        (progress_of K.written K.faults sink.new out.new) (reading_text 0 reading.now) }
{
    let kind = if reading.start { "s" } else { "r" };
    out.line(
        sink,
        &Name(kind),
        &[
            Name(side_name(reading.side)),
            Unsigned(reading.ticket),
            Unsigned(reading.tsc),
        ],
    );
}

fn side_name(side: Side) -> &'static str
    ensures text { result.now ≡ name_of_side side }
    ensures short { length result.now ≤ 1 }
{
    match side {
        Side::Source => "a",
        Side::Target => "b",
    }
}

/// What the run counts, and its verdict: after the last run of a CPU there is no other one.
fn write_done<K: Sink>(out: &mut Out, sink: &mut K, run: &WarpRun, last: bool)
    ensures { Takes (progress_of K.written K.faults sink.old out.old)
        (progress_of K.written K.faults sink.new out.new) (line_text (done_line last run.now)) }
{
    if run.nr == 0 {
        write_verdict(out, sink, run, "passed");
    } else if last || run.random > 0 {
        write_verdict(out, sink, run, "failed");
    } else {
        write_again(out, sink, run, adjustment_of(run));
    }
}

fn write_verdict<K: Sink>(out: &mut Out, sink: &mut K, run: &WarpRun, verdict: &'static str)
    requires { length verdict.now ≤ 6 }
    ensures { Takes (progress_of K.written K.faults sink.old out.old)
        (progress_of K.written K.faults sink.new out.new)
        (line (codes "done" ∷ decimal run.now.nr ∷ decimal run.now.max ∷ decimal run.now.random ∷ decimal run.now.cur_source ∷ decimal run.now.cur_target ∷ verdict.now ∷ [])) }
{
    out.line(
        sink,
        &Name("done"),
        &[
            Unsigned(u64::from(run.nr)),
            Unsigned(run.max),
            Unsigned(u64::from(run.random)),
            Unsigned(run.cur_source),
            Unsigned(run.cur_target),
            Name(verdict),
        ],
    );
}

fn write_again<K: Sink>(out: &mut Out, sink: &mut K, run: &WarpRun, adjust: Part)
    requires { part_room adjust ≤ 22 }
    ensures { Takes (progress_of K.written K.faults sink.old out.old)
        (progress_of K.written K.faults sink.new out.new)
        (line (codes "done" ∷ decimal run.now.nr ∷ decimal run.now.max ∷ decimal run.now.random ∷ decimal run.now.cur_source ∷ decimal run.now.cur_target ∷ codes "again" ∷ part_text adjust ∷ [])) }
{
    out.line(
        sink,
        &Name("done"),
        &[
            Unsigned(u64::from(run.nr)),
            Unsigned(run.max),
            Unsigned(u64::from(run.random)),
            Unsigned(run.cur_source),
            Unsigned(run.cur_target),
            Name("again"),
            adjust,
        ],
    );
}

/// What the target adds to its counter after the run, a `u64` with a sign.
fn adjustment_of(run: &WarpRun) -> Part
    ensures text { part_text result ≡ signed_decimal (adjustment run.now) }
    ensures short { part_room result ≤ 22 }
{
    if run.cur_target == 0 {
        Negated(run.max)
    } else {
        Unsigned(run.cur_target)
    }
}

/// The demotion at boot, if there is one.
fn write_boot_demotion<K: Sink>(out: &mut Out, sink: &mut K, trace: &Trace)
    ensures { Takes (progress_of K.written K.faults sink.old out.old)
        (progress_of K.written K.faults sink.new out.new)
        (lines_from boot_demotion_text 0 (listed trace.now.boot_demotion)) }
{
    if let Some(demotion) = &trace.boot_demotion {
        write_demotion(out, sink, demotion);
    }
}

fn write_words<K: Sink>(out: &mut Out, sink: &mut K, trace: &Trace)
    ensures { Takes (progress_of K.written K.faults sink.old out.old)
        (progress_of K.written K.faults sink.new out.new)
        (lines_from (word_text trace.now.start_word) 0 trace.now.histories.items) }
{
    for word in 0..trace.histories.len() {
        write_word(out, sink, word, trace);
    }
}

fn write_word<K: Sink>(out: &mut Out, sink: &mut K, word: usize, trace: &Trace)
    ensures { Takes (progress_of K.written K.faults sink.old out.old)
        (progress_of K.written K.faults sink.new out.new) (word_text trace.now.start_word word trace.now) }
{
    out.line(
        sink,
        &Name("word"),
        &[Unsigned(word as u64), Signed(trace.start_word)],
    );
}

fn write_threads<K: Sink>(out: &mut Out, sink: &mut K, trace: &Trace)
    requires { length trace.now.cpu_of.items ≡ length trace.now.threads.items }
    ensures { Takes (progress_of K.written K.faults sink.old out.old)
        (progress_of K.written K.faults sink.new out.new)
        (lines_from (thread_text trace.now.cpu_of.items) 0 trace.now.threads.items) }
{
    let cpus = trace.cpu_of.items();
    for (thread, events) in trace.threads.items().iter().enumerate() {
        write_thread(out, sink, thread, cpus[thread], events);
    }
}

fn write_thread<K: Sink>(out: &mut Out, sink: &mut K, thread: usize, cpu: u32, events: &List<Event>)
    ensures { Takes (progress_of K.written K.faults sink.old out.old)
        (progress_of K.written K.faults sink.new out.new)
        (line (codes "thread" ∷ decimal thread ∷ decimal cpu ∷ []) ++ lines_from event_text 0 events.now.items) }
{
    out.line(
        sink,
        &Name("thread"),
        &[Unsigned(thread as u64), Unsigned(u64::from(cpu))],
    );
    write_events(out, sink, events.items());
}

fn write_events<K: Sink>(out: &mut Out, sink: &mut K, events: &[Event])
    ensures { Takes (progress_of K.written K.faults sink.old out.old)
        (progress_of K.written K.faults sink.new out.new) (lines_from event_text 0 events.now) }
{
    for event in events {
        write_event(out, sink, event);
    }
}

fn write_event<K: Sink>(out: &mut Out, sink: &mut K, event: &Event)
    ensures { Takes (progress_of K.written K.faults sink.old out.old)
        (progress_of K.written K.faults sink.new out.new) (event_text 0 event.now) }
{
    let call = event.call;
    match &event.kind {
        EventKind::Stable { raw, value } => write_stable(out, sink, call, raw, value),
        EventKind::Local {
            raw,
            tick_raw,
            tick_gtod,
            offset,
            old,
            new,
        } => out.line(
            sink,
            &Unsigned(u64::from(call)),
            &[
                Name("local"),
                Unsigned(raw.ticket),
                Unsigned(raw.cyc),
                Unsigned(u64::from(raw.rec)),
                Signed(raw.ns),
                Signed(*tick_raw),
                Signed(*tick_gtod),
                Signed(*offset),
                Signed(*old),
                Signed(*new),
            ],
        ),
        EventKind::Couple {
            cpu,
            own,
            other,
            word,
            old: before,
            new: after,
        } => out.line(
            sink,
            &Unsigned(u64::from(call)),
            &[
                Name("couple"),
                Unsigned(u64::from(*cpu)),
                Signed(*own),
                Signed(*other),
                Unsigned(u64::from(*word)),
                Signed(*before),
                Signed(*after),
            ],
        ),
        EventKind::Stamp {
            gtod_ticket,
            gtod,
            raw,
        } => write_stamp(out, sink, call, *gtod_ticket, gtod, raw),
        EventKind::Nothing => out.line(sink, &Unsigned(u64::from(call)), &[Name("none")]),
        EventKind::Update(published) => write_update(out, sink, call, published),
        EventKind::Pause { ticket, count } => out.line(
            sink,
            &Unsigned(u64::from(call)),
            &[Name("pause"), Unsigned(*ticket), Unsigned(*count)],
        ),
    }
}

fn write_stable<K: Sink>(out: &mut Out, sink: &mut K, call: u32, raw: &RawReading, value: &i64)
    ensures { Takes (progress_of K.written K.faults sink.old out.old)
        (progress_of K.written K.faults sink.new out.new)
        (line (decimal call ∷ kind_words (EventKind.Stable raw.now value.now))) }
{
    out.line(
        sink,
        &Unsigned(u64::from(call)),
        &[
            Name("stable"),
            Unsigned(raw.ticket),
            Unsigned(raw.cyc),
            Unsigned(u64::from(raw.rec)),
            Signed(raw.ns),
            Signed(*value),
        ],
    );
}

fn write_stamp<K: Sink>(
    out: &mut Out,
    sink: &mut K,
    call: u32,
    gtod_ticket: u64,
    gtod: &i64,
    raw: &RawReading,
)
    ensures { Takes (progress_of K.written K.faults sink.old out.old)
        (progress_of K.written K.faults sink.new out.new)
        (line (decimal call ∷ kind_words (EventKind.Stamp gtod_ticket gtod.now raw.now))) }
{
    out.line(
        sink,
        &Unsigned(u64::from(call)),
        &[
            Name("stamp"),
            Unsigned(gtod_ticket),
            Signed(*gtod),
            Unsigned(raw.ticket),
            Unsigned(raw.cyc),
            Unsigned(u64::from(raw.rec)),
            Signed(raw.ns),
        ],
    );
}

fn write_update<K: Sink>(out: &mut Out, sink: &mut K, call: u32, published: &Published)
    ensures { Takes (progress_of K.written K.faults sink.old out.old)
        (progress_of K.written K.faults sink.new out.new)
        (line (decimal call ∷ kind_words (EventKind.Update published.now))) }
{
    out.line(
        sink,
        &Unsigned(u64::from(call)),
        &[
            Name("update"),
            Unsigned(u64::from(published.rec)),
            Unsigned(published.ticket),
            Unsigned(published.cyc),
            Signed(published.ns),
        ],
    );
}

fn write_histories<K: Sink>(out: &mut Out, sink: &mut K, histories: &[List<HistoryStep>])
    ensures { Takes (progress_of K.written K.faults sink.old out.old)
        (progress_of K.written K.faults sink.new out.new) (lines_from history_text 0 histories.now) }
{
    for (word, steps) in histories.iter().enumerate() {
        write_history(out, sink, word, steps);
    }
}

fn write_history<K: Sink>(out: &mut Out, sink: &mut K, word: usize, steps: &List<HistoryStep>)
    ensures { Takes (progress_of K.written K.faults sink.old out.old)
        (progress_of K.written K.faults sink.new out.new) (history_text word steps.now) }
{
    out.line(
        sink,
        &Name("history"),
        &[Unsigned(word as u64), Unsigned(steps.len() as u64)],
    );
    write_steps(out, sink, steps.items());
}

fn write_steps<K: Sink>(out: &mut Out, sink: &mut K, steps: &[HistoryStep])
    ensures { Takes (progress_of K.written K.faults sink.old out.old)
        (progress_of K.written K.faults sink.new out.new) (lines_from step_text 0 steps.now) }
{
    for step in steps {
        write_step(out, sink, step);
    }
}

fn write_step<K: Sink>(out: &mut Out, sink: &mut K, step: &HistoryStep)
    ensures { Takes (progress_of K.written K.faults sink.old out.old)
        (progress_of K.written K.faults sink.new out.new) (step_text 0 step.now) }
{
    out.line(
        sink,
        &Unsigned(u64::from(step.thread)),
        &[
            Unsigned(u64::from(step.call)),
            Signed(step.old),
            Signed(step.new),
        ],
    );
}
