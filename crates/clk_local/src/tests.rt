//! Callers of the reads, at both latches.
mod cell;
mod fixtures;
mod rows;
mod threads;
