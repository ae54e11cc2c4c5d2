//! The rows on one thread, and the runs on four.
mod calls;
mod demotion;
mod rows;
mod threads;
