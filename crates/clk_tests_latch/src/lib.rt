//! Tests of latches, through the public calls of `clk_latch`: worked rows, both latches under one script, and threads
//! that meet.
//!
//! There is nothing else in this crate. Apart from their crates the tests are proved from those crates' contracts, as
//! any caller's code is.
#![tactic(auto)]

#[cfg(test)]
mod latch;
