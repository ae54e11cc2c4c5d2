//! Callers of the remote read, on two CPUs.
mod fixtures;
mod rows;
mod threads;
