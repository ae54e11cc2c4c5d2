//! Time as one word that threads draw from.
//!
//! A ticket is a number below 2^26, and the order of the tickets is the order of time. One word says how many tickets
//! are drawn, and a draw is one `fetch_add`. Each thread has a seat with a budget, which the seats divide by splits and
//! put together by joins, so the word never runs over.
//!
//! It promises that each draw gets a block of tickets above all that its seat had seen, and that once the seats are
//! joined their blocks are disjoint and cover exactly the numbers below the last. It says nothing of the order between
//! the draws of two seats that have not seen each other.
//!
//! How it works: the table's rule (`specs/Kept.antt`) ties the word to what all seats know, and each step keeps it.
//! A contract sees a seat as a `Time` (`specs/Time.antt`): its table, its budget, its blocks and what it has seen.
#![tactic(auto)]

mod laws;
mod rule;
mod seat;
mod steps;
mod table;
#[cfg(test)]
mod tests;

pub use laws::covering_blocks;
pub use seat::TimeSeat;
pub use table::TicketTable;
