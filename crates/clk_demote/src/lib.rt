//! What the watchdog does at the clock while it is stable: a stable stamp, and the demotion that ends the stable mode.
//!
//! A stable stamp stores the pair of one CPU, its GTOD and its raw value, and the offset by which monotonic time shows
//! what the stable clock shows. It is after `sched_clock_tick_stable` of Linux 6.1's `kernel/sched/clock.c`. A demotion
//! takes a stamp too. The clock words open at that stamp's GTOD and the offset of the last stable stamp, every CPU gets
//! the stamp's pair, every word is lifted to the opening, and last the mode becomes per-CPU, for good. It is after
//! `__sched_clock_work`, which stores the words where this lifts them. Clock values wrap at 64 bits.
//!
//! It promises that the opening is the stable value at the demotion's own raw reading less the drift, by which the raw
//! clock went ahead of monotonic time since the last stable stamp ([`demotions_shift_by_drift`]). So the clock goes on
//! as if monotonic time had been read since then. Which demotion that is, of its numbers alone, says `Demotions` of
//! `clk_record`'s `specs/`. Each call tells what it drew, read, stored and lifted, in terms of what the watchdog's
//! seats had before it and after it (`specs/Shows.antt`). No call takes memory, and over a latch that does not wait no
//! call waits.
//!
//! It does not promise that no reading falls at a demotion: one may, by the drift where that is positive.
//!
//! How it works: the watchdog keeps its seats in a [`WatchCtx`]. A contract sees of it a `Site` and what is `Known`
//! (`specs/Context.antt`), and `IsUsable` is what each call asks.
#![tactic(auto)]

mod calls;
mod context;
mod latches;
mod laws;
mod opening;
#[cfg(test)]
mod tests;

pub use calls::{demote, stable_stamp};
pub use clk_record::{Demotion, StableStamp};
pub use context::WatchCtx;
pub use laws::demotions_shift_by_drift;
pub use opening::{demotion_after, stable_offset};
