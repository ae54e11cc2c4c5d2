//! What several crates of the clock cite over lists and numbers alone.
//!
//! - Causes: a source or a sink counts its faults, and an answer that names a fault comes only where the count rose.
//! - Text: a trace is lines of words, and the lines of a list are those of its parts.
//! - Blocks: a thread draws time in blocks of consecutive tickets.
//! - First: a file is tested in a fixed order, and the first failing test decides what it is refused with.
//!
//! The definitions stand in `specs/`, in this order. The functions here carry their laws, and `raised` is what each
//! count of faults goes by.
#![tactic(auto)]

mod block;
mod causes;
mod laws;
#[cfg(test)]
mod tests;

pub use block::Block;
pub use causes::raised;
pub use laws::{consecutive_blocks, first_failing_test, joined_lines};
