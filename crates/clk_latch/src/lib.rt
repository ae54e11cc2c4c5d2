//! The latch under a CPU's clock: the record by which its counter is read as time, for one writer and any readers.
//!
//! A record is a counter value and the ns there (`clk_machine`'s `Published`). The ns wrap at 64 bits, and words keep
//! them in two's complement. A latch keeps the current record in two copies under one sequence, after `struct
//! clock_data` of Linux 6.1's `kernel/time/sched_clock.c`. A reading loads the sequence, uses the copy of its lowest
//! bit, loads the sequence again, and repeats if it changed.
//!
//! It promises that a reading uses one whole record, which was current at some moment of the call and is not older than
//! any that its seat had seen, that its ns are 0 to 11 * 2^55 above those of record 0, and that an update publishes the
//! one record that follows. No call of a [`Latch`] waits, and none but [`Latch::new`] takes memory. Each turn of a
//! reading is told the reading's ticket, which was thus drawn before it. It says nothing more of the order between that
//! ticket and the moment at which another thread published a record.
//!
//! How it works: [`Epochs`] is what the layers above see of any latch. [`Latch`] is the one over words, whose rule
//! (`specs/Kept.antt`) ties the words to what all seats know; each step keeps it. A contract sees what a seat has
//! as an `Epoch` (`specs/Epoch.antt`), and each call as what it does to that (`specs/Calls.antt`). [`CellLatch`] keeps
//! the record in one cell of `crossbeam_utils` (`specs/CellKept.antt`), for threads whose readings may wait; it
//! promises the same. [`readings_stay_right`] and [`drawn_tickets_stay`] do nothing: they carry laws of those.
#![tactic(auto)]

mod cell;
mod cell_rule;
mod cell_seat;
mod convert;
mod copies;
mod epochs;
mod latch;
mod laws;
mod rule;
mod seat;
mod turn;

pub use cell::CellLatch;
pub use cell_seat::CellSeat;
pub use epochs::Epochs;
pub use latch::Latch;
pub use laws::{drawn_tickets_stay, readings_stay_right};
pub use seat::LatchSeat;
