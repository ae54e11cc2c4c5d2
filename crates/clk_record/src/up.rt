//! What a bring-up leaves.
use crate::warp::WarpRun;
use clk_num::List;

/// What came of the bring-up of a CPU.
#[derive(Clone, Copy, PartialEq, Eq, Debug)]
pub enum UpOutcome {
    /// The machine has no bring-up.
    Untested,
    /// Its last warp run had no fall.
    Synced,
    /// Its counter and CPU 0's cannot be brought together, and the TSC is unstable.
    Failed,
    /// A CPU before it failed.
    Skipped,
}

/// The bring-up of one CPU: its warp runs in order, what its counter was adjusted by in all, in cycles, and the
/// outcome.
#[derive(Drop)]
pub struct CpuUp {
    pub cpu: u32,
    pub runs: List<WarpRun>,
    pub adjust: i64,
    pub outcome: UpOutcome,
}

/// The bring-up of a machine: an entry for each CPU from 1, in order, and whether one failed.
#[derive(Drop)]
pub struct BroughtUp {
    pub cpus: List<CpuUp>,
    pub failed: bool,
}
