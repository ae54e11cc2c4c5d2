//! How a trace comes about: the histories of its words, and its text.
//!
//! What a [`Trace`] is, when it is lawful and what its text is stands in `clk_lawful`, which this crate passes on.
//! [`histories`] finds the history of each clock word from the events of all threads, sorted as `SortedHistory` of
//! `clk_lawful`'s `specs/` says. [`write_trace`] writes exactly the trace's text into any [`Sink`], line by line, or
//! its beginning where the sink fails. Any other text of lines goes to a sink by an [`Out`], as that of a trace does.
//! How a text goes through a buffer to a sink says `specs/Taking.antt`.
//!
//! Neither takes memory. Neither asks whether a trace is lawful: lists that fit each other are all that they want.
#![tactic(auto)]

mod gather;
mod out;
mod row;
mod sink;
mod write;
mod write_watch;

pub use clk_lawful::{
    Event, EventKind, HistoryStep, Trace, WatchTrace, sorted_steps_are_a_chain, steps_are_counted,
    tickets_are_counted,
};
pub use gather::histories;
pub use out::{Out, Part, WriteFault};
pub use sink::{Failed, Sink};
pub use write::write_trace;
