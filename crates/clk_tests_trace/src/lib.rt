//! Tests of traces, through the public calls of `clk_trace`: a whole trace as text, a sink that fails, and the histories
//! of many threads.
//!
//! There is nothing else in this crate. Apart from their crates the tests are proved from those crates' contracts, as
//! any caller's code is.
#![tactic(auto)]

#[cfg(test)]
mod histories;
#[cfg(test)]
mod trace;
