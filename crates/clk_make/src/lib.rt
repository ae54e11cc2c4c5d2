//! A large machine from a number.
//!
//! A machine file of some size is long to write by hand. [`machine_of`] makes the machine of a number below 65,536
//! instead: 2 to 16 CPUs and up to 3 readers, each on one of the first CPUs, in a per-CPU start, without a bring-up and
//! a watchdog. A CPU has 64 script words of every kind, 64 times over, and a reader 8 readings, 256 times over.
//!
//! - `specs/Made.antt` is the machine, as a plan: the number alone tells it.
//! - `specs/Numbers.antt` has its sizes in closed form: script words, tickets, and steps on the clock words.
//! - [`sizes_are_fixed`] carries the law that the machine has these sizes, and so has every lawful trace of it,
//!   whatever the order of its threads.
//!
//! Every such machine is within the limits of a machine file, so the only error is want of memory. It says nothing of
//! how long a run takes.
#![tactic(auto)]

mod laws;
mod machine;
#[cfg(test)]
mod tests;
mod word;

pub use laws::sizes_are_fixed;
pub use machine::machine_of;
