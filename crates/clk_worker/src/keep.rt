//! How the answers of calls are kept as events.
ghost use Rattle.std.specs.Prelude.{[], ◌∷◌, ◌≤◌};
ghost use Rattle.clk_lawful.specs.declared.event.EventKind.TheVariants.{Stable, Couple};
ghost use Rattle.clk_worker.specs.Running.{kinds_of_step, kinds_of_reading, kinds_of_tick};
ghost use Rattle.clk_worker.specs.Calling.{kinds_of_remote, KeepsEvents};

use clk_lawful::{Event, EventKind};
use clk_local::{Reading, TickEvent};
use clk_machine::RawReading;
use clk_num::List;
use clk_record::{Step, Why};
use clk_remote::RemoteEvent;

/// Keeps one event.
#[inline(always)]
pub(crate) fn keep(events: &mut List<Event>, call: u32, kind: EventKind)
    requires room { 1 ≤ events.old.room }
    ensures { KeepsEvents call (kind ∷ []) events.old events.new }
{
    events.push(Event { call, kind });
}

// Keeps the event of a reading that made a step.
#[inline(always)]
fn keep_step(events: &mut List<Event>, call: u32, raw: &RawReading, step: &Step)
    requires room { 1 ≤ events.old.room }
    ensures { KeepsEvents call (kinds_of_step raw.now step.now) events.old events.new }
{
    if let Why::Raise {
        raw: _,
        tick_raw,
        tick_gtod,
        offset,
    } = step.why
    {
        let kind = EventKind::Local {
            raw: *raw,
            tick_raw,
            tick_gtod,
            offset,
            old: step.old,
            new: step.new,
        };
        keep(events, call, kind);
    }
}

// Keeps the event of a stable reading.
fn keep_stable(events: &mut List<Event>, call: u32, raw: &RawReading, value: i64)
    requires room { 1 ≤ events.old.room }
    ensures { KeepsEvents call (Stable raw.now value ∷ []) events.old events.new }
{
    keep(events, call, EventKind::Stable { raw: *raw, value });
}

/// Keeps the event of a reading of the own clock.
#[inline(always)]
pub(crate) fn keep_reading(events: &mut List<Event>, call: u32, reading: &Reading)
    requires room { 1 ≤ events.old.room }
    ensures { KeepsEvents call (kinds_of_reading reading.now) events.old events.new }
{
    match reading {
        Reading::Stable { raw, value } => keep_stable(events, call, raw, *value),
        Reading::PerCpu { raw, step } => keep_step(events, call, raw, step),
    }
}

// Keeps the event of a coupling, of whose words these values were loaded.
fn keep_couple(events: &mut List<Event>, call: u32, asked: u32, own: i64, other: i64, step: &Step)
    requires room { 1 ≤ events.old.room }
    ensures { KeepsEvents call (Couple asked own other step.now.word step.now.old step.now.new ∷ []) events.old events.new }
{
    let kind = EventKind::Couple {
        cpu: asked,
        own,
        other,
        word: step.word,
        old: step.old,
        new: step.new,
    };
    keep(events, call, kind);
}

/// Keeps the events of a reading of the clock of `asked`.
pub(crate) fn keep_remote(events: &mut List<Event>, call: u32, asked: u32, event: &RemoteEvent)
    requires room { 2 ≤ events.old.room }
    ensures { KeepsEvents call (kinds_of_remote asked event.now) events.old events.new }
{
    match event {
        RemoteEvent::Stable { raw, value } => keep_stable(events, call, raw, *value),
        RemoteEvent::Coupled {
            raw,
            local,
            own,
            other,
            step,
        } => {
            keep_step(events, call, raw, local);
            keep_couple(events, call, asked, *own, *other, step);
        }
    }
}

/// Keeps the events of a tick.
#[inline(always)]
pub(crate) fn keep_tick(events: &mut List<Event>, call: u32, event: &TickEvent)
    requires room { 2 ≤ events.old.room }
    ensures { KeepsEvents call (kinds_of_tick event.now) events.old events.new }
{
    match event {
        TickEvent::Nothing => keep(events, call, EventKind::Nothing),
        TickEvent::Ticked {
            gtod_ticket,
            gtod,
            stamp,
            raw,
            step,
        } => {
            let kind = EventKind::Stamp {
                gtod_ticket: *gtod_ticket,
                gtod: *gtod,
                raw: *stamp,
            };
            keep(events, call, kind);
            keep_step(events, call, raw, step);
        }
    }
}
