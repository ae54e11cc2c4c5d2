//! What a thread does at its CPU's clock: a local read, a tick, and an idle event.
//!
//! A local read first looks at the mode. While that is stable, it answers the raw clock and the offset of the stable
//! clock, after `local_clock` of Linux 6.1's `kernel/sched/clock.c`. Else it takes a raw reading and raises its CPU's
//! clock word to the time at the last tick's stamp and what has passed since, at most one tick, after
//! `sched_clock_local`. A tick looks too, does nothing while the mode is stable, and else stamps the CPU and then
//! reads, after `sched_clock_tick`. An idle event is a local read and then a tick, after
//! `sched_clock_idle_wakeup_event`. The names `tick_raw` and `tick_gtod` are those of `struct sched_clock_data`. Clock
//! values wrap at 64 bits, and the sign of their difference tells which is above.
//!
//! It promises that a call answers as in the stable mode exactly where its own look found that mode. Else a reading is
//! the new value of one step in the history of the clock words, this step shows the raw reading, the loaded pair and
//! the loaded offset that its target came from, and it is nowhere below what the thread's seat had seen of the word.
//! The step of a tick shows the pair of that tick's own stamp. No call takes memory, and over a latch that does not
//! wait no call waits.
//!
//! It promises no order between threads beyond that history.
//!
//! How it works: a thread keeps its seats in a [`Ctx`]. A call is told of what they had before and after it
//! (`specs/Shows.antt`), so that the calls of a thread are a chain of events. A read raises its word by one
//! `fetch_max`, where Linux loads the word, clamps, and tries an exchange until one is done: so nothing here loops.
#![tactic(auto)]

mod context;
mod events;
mod readings;
#[cfg(test)]
mod tests;
mod ticks;

pub use context::Ctx;
pub use events::{IdleEvent, Reading, TickEvent};
pub use readings::{local, local_raised};
pub use ticks::{idle, tick};
