//! What a thread does at another CPU's clock: a remote read.
//!
//! A remote read couples the thread's own clock with another CPU's, after `sched_clock_remote` of Linux 6.1's
//! `kernel/sched/clock.c`. It reads its own clock first, then loads both clock words, and raises the lower of the two
//! to the other: so two CPUs that read each other's clocks come together, and no clock is set back. Clock values wrap
//! at 64 bits, and the sign of their difference tells which is lower.
//!
//! It promises that a reading is the new value of one step in the history of the clock words, on the word that was
//! lower in one pair of loads, that the step names the value which the other word held, and that the reading is below
//! neither of the two values, nor below anything that the thread's seat had seen of the word. No call takes
//! memory, and over a latch that does not wait no call waits.
//!
//! It promises no order between threads beyond that history.
//!
//! How it works: the seats stand in the [`Ctx`](clk_local::Ctx) of a local read. The lower word is raised by one
//! `fetch_max`, where Linux tries an exchange and loads both words again until one is done: so nothing here loops.
#![tactic(auto)]

mod event;
mod laws;
mod reads;
#[cfg(test)]
mod tests;

pub use event::RemoteEvent;
pub use laws::readings_reach_both;
pub use reads::remote;
