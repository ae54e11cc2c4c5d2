//! The run of a machine on threads: its boot, the seats that its threads begin with, and what they leave.
//!
//! [`boot`] reads the epoch of CPU 0 and stamps, as `sched_clock_init` of Linux 6.1's `kernel/sched/clock.c` does:
//! once, and a second time where the clock starts stable. It promises that each of its readings is the machine's at the
//! ticket drawn for it, that its tickets are the first ones, and that the offsets are what Linux makes of the stamps.
//! It reads through a latch of its own, which it drops: each CPU's latch is made later, by the same record 0.
//!
//! [`prepare`] takes what the boot left and what a bring-up after it found, by which the counter of each CPU is
//! adjusted from then on. It opens the clock words by the last stamp, makes each CPU's latch, and splits the seats of
//! each thread off: at the words and at its CPU's latch the owner's for a CPU's own thread and a reader's for any
//! other, and one with the tickets of its script. It takes all memory of the run: each thread's events and each word's
//! history have room for what the scripts make at most.
//!
//! [`run_cpus`] lets each thread make its script on a thread of its own, joins the seats, and asks the tables what was
//! drawn and what the words' history is. It promises that the trace is lawful for the machine, and that it shows the
//! history of the clock words; it promises no order in which the threads get on. What a reader found of its CPU's
//! stamps and records is among what the CPU's own thread made: the joins tell that.
//!
//! It is made of [`open_run`], [`RunParts`] and [`close_run`], by which a caller can take a run apart: take the worker
//! of any thread, and the watcher, make their words and checks in any order and from as many threads as it likes, give
//! them back, and close the run with the same promise.
#![tactic(auto)]

mod booted;
mod demoted;
mod ended;
mod joins;
mod latches;
mod lists;
mod opened;
mod parts;
mod prepared;
mod run;
mod running;
mod times;
mod watchdog;
mod workers;

pub use booted::{Booted, boot};
pub use latches::Latches;
pub use lists::Lists;
pub use opened::Opened;
pub use parts::{RunParts, close_run, open_run};
pub use prepared::{Prepared, prepare};
pub use run::{Finished, run_cpus};
