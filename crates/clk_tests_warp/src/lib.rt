//! Tests of warp runs, through the public calls of `clk_warp`: worked rows of their counts, and two sides that meet.
//!
//! There is nothing else in this crate. Apart from their crates the tests are proved from those crates' contracts, as
//! any caller's code is.
#![tactic(auto)]

#[cfg(test)]
mod warp_counts;
#[cfg(test)]
mod warp_runs;
