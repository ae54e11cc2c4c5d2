//! The watchdog's thread of a run: its seats at the shared clock, and its checks, one by one.
//!
//! A [`Watcher`] goes on from check to check. A check pauses, visits each clock source in order on the CPU of its
//! number, and notes which source is current then. While the clock is stable a good TSC source that is current is
//! followed by a stable stamp, and one that was lost by the demotion, which ends the stable mode for good. It is after
//! `clocksource_watchdog` of Linux 6.1's `kernel/time/clocksource.c`, with `sched_clock_tick_stable` and
//! `__sched_clock_work` of `kernel/sched/clock.c` where that calls them.
//!
//! It promises that the lists it leaves are those of checks that its machine calls for, and that each attempt, stamp
//! and lift in them is what its seats found: so its checks are a chain from how it was made to how it is. How a watcher
//! is says with which shared things it may go on, so that a call asks for those alone. No call takes memory: the lists
//! have room for all checks. What a lawful trace needs of such a chain follows from it: the function
//! [`watched_is_shown`], which does nothing, carries that law.
//!
//! It promises no order between the watchdog and the other threads of a run beyond the history of the clock words.
//!
//! How it works: a check takes the parts out of the watcher, puts them with the shared things into the context of the
//! watchdog's calls, and puts them back.
#![tactic(auto)]

mod calls;
mod laws;
mod numbers;
mod parts;
mod watcher;

pub use laws::watched_is_shown;
pub use parts::WatchParts;
pub use watcher::Watcher;
