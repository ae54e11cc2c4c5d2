//! The pace of a run: it keeps the threads of a run abreast, so that they meet.
//!
//! A thread makes a script of some dozen words in less time than the next one takes to begin, so scripts that begin
//! when their threads do run one after another, and no clock is read while another one moves. The CPUs of a machine
//! run side by side; so a [`Paced`] gate stands between a run and its caller's gate, and lets a thread through once the
//! others are about as far.
//!
//! - **Together at first.** Before its first word a thread counts itself in, and looks until all that will make words
//!   have come.
//! - **Abreast from then on.** How far a thread is counts as a share of its own script, so that a script of ten words
//!   and one of a thousand begin and end together, and a watchdog's checks lie spread over the run. A thread stops
//!   before each word, or before some hundred words of a long script, stores its share, and waits while it is ahead of
//!   the slowest one by more than a thirty-second of the whole. So short scripts go word by word.
//! - **The slowest share** is found by looking at all shares, and kept in one word that all read and few write: a run
//!   in step costs a load and a store a stop.
//! - **A wait is a while of looks and then yields**, since the slowest thread may need this one's processor. It is
//!   bounded, and so is what a thread waits in a whole run: a budget of yields, of which one wait spends half of what is
//!   left at most. So a thread that is held for long, by its caller's gate or by a busy machine, holds the others up for
//!   a while and no longer, and each call returns. A thread that begins its last word is waited for no more.
//! - **Where the system makes no thread**, the scripts run one after another on one thread: the first looks in vain,
//!   and then nobody looks for the beginning of the others again.
//!
//! Nothing rests on it. It takes no memory, its calls return, and no contract speaks of the order that it brings about:
//! the run is lawful in every order.
#![tactic(auto)]

mod pace;
mod place;

pub use pace::{Pace, Paced};
