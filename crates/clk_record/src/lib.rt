//! What a run leaves, as plain data, and what its finished parts mean.
//!
//! Here stand the readings and counts of a warp run and the bring-up that is made of such runs, the watchdog's attempts
//! and records, the stamps of a stable clock and its demotion, and the steps on clock words. `clk_warp`, `clk_adjust`,
//! `clk_watch`, `clk_demote` and `clk_words` make them and pass them on. Nothing here reads a counter, draws a ticket
//! or stands under a lock, so whoever checks what a run left needs nothing of that.
//!
//! `specs/` says what finished parts mean, for the machine that they were made on. It is read in this order:
//!
//! - `Sides`, `Falls` and `Warps`: which readings of a warp run are falls, where a side ends, and what a run counts.
//!   `FallLaws` has what follows, and `clk_warp` carries it.
//! - `Verdicts`, `WarpLimits`, `BroughtUp` and `WarpReadings`: what comes after a run, how long it may take and which
//!   counters it reads, and the runs of each CPU in order, after Linux 6.1's `arch/x86/kernel/tsc_sync.c`.
//! - `Attempts`, `Fold` and `Watching`: what attempts at a source decide, and what the records leave of all sources,
//!   after `kernel/time/clocksource.c`.
//! - `Demotions`: how the end of the stable mode follows from two stamps, after `kernel/sched/clock.c`.
//! - `Targets` and `LowerWord`: where a step wants its word, and which of two words is the lower one.
//!
//! The only functions are the questions of an [`Outcome`], each proved to answer the definition of its name. Nothing
//! here says that a run has such parts, or how they lie beside each other: `clk_lawful` does, of a whole trace.
#![tactic(auto)]

mod attempt;
mod mode;
mod stable;
mod step;
mod up;
mod verdict;
mod visit;
mod warp;
mod watched;

pub use attempt::{Attempt, Bracket};
pub use mode::Mode;
pub use stable::{Demotion, StableStamp};
pub use step::{Step, Why};
pub use up::{BroughtUp, CpuUp, UpOutcome};
pub use verdict::Verdict;
pub use visit::{Outcome, SourceRecord};
pub use warp::{Side, WarpReading, WarpRun};
pub use watched::{Pair, Watched};
