//! The machine file: which machine its bytes are, or why they are none.
//!
//! [`read_machine`] reads TOML of the format's versions 1 and 2. It answers exactly *acceptance*, which stands in
//! `specs/`: the machine that the table describes, its defaults filled in, or the first failing test of a fixed list:
//! first the shape of the table, row by row, then the ranges of its numbers, then the tickets that a run needs. A
//! refusal names the row, the entry and the item. Only want of memory is left open. [`words_are_spelled`] carries the
//! law of script words.
//!
//! It does not print a refusal, nor say what an unknown key is called.
//!
//! `keys` tests one key and gives its value; `items` reads scripts and lists of jumps; `tables` and `entries` read the
//! tables and the arrays of tables, and `parts` the whole. All of them keep the first refusal and read on, so that an
//! early exit is want of memory alone. `clk_machine` tests the ranges.
#![tactic(auto)]

mod entries;
mod error;
mod items;
mod keys;
mod laws;
mod parts;
mod read;
mod tables;
mod words;

pub use error::{FileError, TableError};
pub use laws::words_are_spelled;
pub use read::read_machine;
