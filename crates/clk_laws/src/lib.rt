//! What every lawful trace promises, in the clock's own words.
//!
//! `clk_lawful` says when a trace is lawful: field by field, as a reader checks it. Here stand laws that follow, each
//! on a function that does nothing. They speak of any number of CPUs and readers, in either start, with or without a
//! bring-up and a watchdog.
//!
//! - [`a_demotion_loses_the_drift`]: the end of the stable mode shifts the clock by exactly the drift that it shows.
//! - [`higher_words_stay`]: a demotion takes no clock word down; a word that is higher than the opening keeps its
//!   value.
//! - [`no_word_is_seen_to_fall`]: no thread sees a clock word fall.
//! - [`no_stable_after_percpu`]: no thread goes back from per-CPU clocks to the stable one.
//! - [`no_percpu_undemoted`]: a stable clock that is not demoted stays stable.
//!
//! They say nothing of two threads beside each other: between CPUs the clock may go backwards, as in Linux 6.1's
//! `kernel/sched/clock.c`.
#![tactic(auto)]

mod laws;

pub use laws::{
    a_demotion_loses_the_drift, higher_words_stay, no_percpu_undemoted, no_stable_after_percpu,
    no_word_is_seen_to_fall,
};
