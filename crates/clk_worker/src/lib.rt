//! A thread of a run: its seats at the shared clock, and its script, word by word.
//!
//! A [`Shared`] is what the threads of a run use together: the clock words, the latch and the adjustment of each CPU,
//! the tickets, and the machine. A [`Worker`] is one thread: its seats, the place in its script, and its events so far.
//! A word is one call at the clock, and `run` makes all words that are left. Before each word the worker passes a gate,
//! which may hold it there.
//!
//! It promises that the events of a word are those that its script calls for, and that each of them shows what the
//! seats found: so the events of a worker are a chain from how it was made to how it is. How a worker is says with
//! which shared things it may go on, so that a call asks for those alone. No call takes memory: the list of events has
//! room for the whole script, three events a word.
//!
//! A worker is a CPU's own thread, or a reader: a thread besides it on that CPU, as an interrupt that reads half-way
//! through the CPU's tick. A reader reads clocks and pauses, and the pair that it goes by may have a GTOD newer than
//! its raw half, never an older one.
//!
//! The clock may be stable at first: a word looks at the mode, and what it makes is of the mode that it found. Once a
//! thread has found the clock per-CPU it finds it so again, and shows no event of the stable clock any more.
//!
//! It promises no order between the workers of a run beyond the history of the clock words.
//!
//! How it works: a run of words takes the seats out of the worker and puts them with the shared things into one context.
//! Each word makes its call there, and keeps the call's answer as events. After the last one the seats are put back.
#![tactic(auto)]

mod calls;
mod keep;
mod own;
mod shared;
mod worker;

pub use own::{Own, Post};
pub use shared::Shared;
pub use worker::Worker;
