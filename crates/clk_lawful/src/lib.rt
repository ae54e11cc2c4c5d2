//! The trace of a run: what it holds, when it is lawful, and what its text is.
//!
//! A [`Trace`] holds every reading, stamp and pause of a run with its ticket, and the history of each clock word. It
//! has no writer and makes no history: `clk_trace` does. Whoever checks a text needs this crate and those below it.
//!
//! - `specs/LawfulTrace.antt` says in ten fields when a trace is lawful for a machine, and `specs/` is read from there:
//!   the words of scripts and their events (`Threads`, `ScriptEvents`, `Couples`), what readings show (`RightReadings`,
//!   `Updates`, `TicketOrder`), stamps and histories (`Stamps`, `WordHistory`, `LegalHistory`, `SeenBefore`), the mode
//!   (`Standing`, `Modes`), and the watchdog (`Checks`, `Watchdog`, `Demoted`).
//! - `specs/TraceText.antt` is its text, over one equation a kind of line in `Lines.antt`. The text fixes all that
//!   lawfulness reads. `WritableWatch` is what a writer asks besides.
//! - What bring-ups, attempts, stamps and steps mean stands in `clk_record`, and what counters show in `clk_machine`.
//! - [`tickets_are_counted`] and [`steps_are_counted`] do nothing: they carry laws of the sizes of lawful traces
//!   (`Counting`). So does [`sorted_steps_are_a_chain`], of the order in which `clk_trace` fills a history (`Filling`,
//!   `SortedHistory`).
//!
//! A [`WatchTrace`] keeps a live `Watch`, which makes checks until the run ends, so this crate stands on `clk_watch`;
//! the definitions read its attempts and records alone.
//!
//! It does not say that a lawful trace comes about, nor in which order the threads of a run get on.
#![tactic(auto)]

mod counting;
mod event;
mod laws;
mod trace;

pub use counting::{steps_are_counted, tickets_are_counted};
pub use event::{Event, EventKind};
pub use laws::sorted_steps_are_a_chain;
pub use trace::{HistoryStep, Trace, WatchTrace};
