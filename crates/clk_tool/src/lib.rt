//! The clock as a program: from the bytes of a machine file to the bytes of its trace.
//!
//! [`clock_tool`] is the top call. With the word `run` it reads a source to its end and boots the machine that the
//! bytes describe ([`read_run`]), brings its CPUs up, and runs it and writes the trace into a sink ([`write_run`]). On
//! `Done` what was written is the text of a lawful trace of that machine; every other answer but want of memory has its
//! cause as a clause of the call. With `rate HZ BITS` it writes the rate of the scheduler clock for such a counter
//! ([`rate_command`]), and with `make N` the sizes of a run of a large machine that the number tells
//! ([`make_command`]).
//!
//! - [`Source`] and `Sink` count their faults, and a call of theirs fails only where the count rose. In memory
//!   ([`MemSource`], [`MemSink`], [`SureSource`], [`SureSink`]) they tell their bytes; over std ([`StdSource`],
//!   [`StdSink`]) what a file or a terminal holds is known to no contract.
//! - A machine is booted, prepared and run by `clk_threads`, each script on a thread of its own, and its CPUs are
//!   brought up by `clk_adjust` in between; the histories of the trace are those that the clock words end with.
//!
//! [`clock_tool`] alone waits, for the two sides of each warp run of a bring-up, and owes no return. All other calls
//! return.
#![tactic(auto)]

#[cfg(test)]
mod answered;
#[cfg(test)]
mod bring_up_tests;
mod command;
#[cfg(test)]
mod end_tests;
mod failures;
#[cfg(test)]
mod gates;
#[cfg(test)]
mod hostile_tests;
mod make;
#[cfg(test)]
mod make_tests;
mod memory;
mod path;
mod rate;
#[cfg(test)]
mod rate_tests;
#[cfg(test)]
mod row_tests;
mod run;
mod source;
#[cfg(test)]
mod stable_tests;
mod standard;
mod status;
mod sure;
#[cfg(test)]
mod thread_tests;
mod tool;
#[cfg(test)]
mod watch_tests;
mod whole;

pub use make::make_command;
pub use memory::{MemSink, MemSource};
pub use rate::rate_command;
pub use run::{read_run, write_run};
pub use source::Source;
pub use standard::{StdSink, StdSource};
pub use status::{Refusal, Status};
pub use sure::{SureSink, SureSource};
pub use tool::clock_tool;
pub use whole::LIMIT;
