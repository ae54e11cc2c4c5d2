//! The bring-up of CPUs: each CPU but the first is tested against CPU 0, and its counter is adjusted where that can
//! help.
//!
//! After `check_tsc_sync_source` and `check_tsc_sync_target` of Linux 6.1's `arch/x86/kernel/tsc_sync.c`. A CPU is
//! tested in warp runs, three at most where its counter has the register that adjusts it, and else one. A run without a
//! fall ends its test. Where a run has falls of one kind and others are left, the CPU's counter is adjusted by what
//! they show, and both sides run again. Else the test has failed, the counters cannot be trusted, and no CPU after it
//! is tested.
//!
//! - `clk_record` says what a bring-up finds, over its finished lists: which runs a CPU has, by which adjustments they
//!   are made, and what the last one decides. That is `BroughtUp` of its `specs/`, over `Warps` and `Verdicts` there.
//! - [`bring_up`] tests the CPUs in order, and [`bring_up_but`] passes one over. Both wait for the two sides of each
//!   run. `specs/Tickets.antt` says which tickets they draw: those of the readings, in order, and no others.
//! - An adjustment in all is within 2^47 cycles of 0, by the machine's limits.
//!
//! It does not say that a run ends.
#![tactic(auto)]

mod cpus;
mod rooms;
mod runs;

pub use clk_record::{BroughtUp, CpuUp, UpOutcome};
pub use cpus::{bring_up, bring_up_but};
