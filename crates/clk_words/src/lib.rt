//! The words that the CPUs' clocks share: for each CPU its clock, and the two values of its last tick's stamp.
//!
//! A CPU's clock word only rises, by the sign of a difference: values wrap at 64 bits, as in Linux. A caller loads the
//! words that it needs and raises a clock word to where they say that the clock should be. Linux 6.1 does so by an
//! exchange that it repeats, in `kernel/sched/clock.c`: `sched_clock_local` for its own CPU's word, and
//! `sched_clock_remote` for the lower of two words. Here it is one step that cannot fail, or one exchange that can. The
//! owner of a CPU stamps it at each tick, as `sched_clock_tick` does.
//!
//! It promises one history of all steps on all clock words: each step found what the one before it on its word left,
//! raised it to its target, and stands there once. What a seat has seen begins that history, and seats that meet have
//! seen parts of the same one. A reader that is caught half-way through a stamp gets a GTOD that is not older than its
//! raw value.
//!
//! While the mode is stable the watchdog alone writes, and only lifts stand in the history. It stores the offset and
//! each CPU's pair, lifts every word, and then makes the mode per-CPU for good; from then on an owner writes its pair.
//!
//! It promises no order between seats that never meet, and no progress: a lost exchange is the caller's to try again.
//!
//! A clock word keeps the height of its value above the opening, so that the greater of two words is the later value;
//! the stamps and the offset are kept in two's complement.
//!
//! How it works: the words are a table whose rule (`specs/Kept.antt`) ties them to what all seats know, and each call
//! is one atomic step that keeps it. A contract sees a seat as a `Held`, whose `View` says what the seat knows. A
//! [`Step`] and its target stand in `clk_record` (`specs/Targets.antt`, and `LowerWord.antt` for two words), so that a
//! history is read without the words that made it.
#![tactic(auto)]

mod closed;
mod demotion;
mod heights;
mod kind;
mod laws;
mod loads;
mod opening;
mod puts;
mod raises;
mod rule;
mod seat;
mod seats;
mod stamps;
mod step;
#[cfg(test)]
mod tests;
mod view;
mod words;

pub use clk_record::{Mode, Step, Why};
pub use closed::Closed;
pub use kind::SeatKind;
pub use laws::{
    each_follows, held_was_put, lifted_before, offset_stays, steps_are_chains, words_rise,
};
pub use opening::{Opening, Start};
pub use seat::Seat;
pub use step::Put;
pub use view::{Load, ModeView, Name, PairView, Part, View};
pub use words::Words;
