//! Tests of machines and of their files, through the public calls of `clk_machine` and `clk_file`: machines beside
//! their numbers, and tables of files beside their answers.
//!
//! There is nothing else in this crate. Apart from their crates the tests are proved from those crates' contracts, as
//! any caller's code is.
#![tactic(auto)]

#[cfg(test)]
mod file;
#[cfg(test)]
mod lists;
#[cfg(test)]
mod machine;
