//! The two sides of a warp run, one reading of it, and the whole.
use clk_num::List;

/// A side of a warp run: CPU 0, whose counter is taken as right, or the CPU that is brought up. After
/// `check_tsc_sync_source` and `check_tsc_sync_target` of Linux 6.1's `arch/x86/kernel/tsc_sync.c`.
#[derive(Clone, Copy, PartialEq, Eq, Debug)]
pub enum Side {
    Source,
    Target,
}

/// One reading of a warp run: whose it is, whether it is the side's start reading, the ticket that was drawn for it,
/// and the counter there, in cycles.
#[derive(Clone, Copy, PartialEq, Eq, Debug)]
pub struct WarpReading {
    pub side: Side,
    pub start: bool,
    pub ticket: u64,
    pub tsc: u64,
}

/// A finished warp run: its readings in lock order, and what they count.
#[derive(Drop)]
pub struct WarpRun {
    pub readings: List<WarpReading>,
    /// How many falls there are.
    pub nr: u32,
    /// The size of the greatest fall, in cycles, or 0.
    pub max: u64,
    /// How many falls come after a fall on the other side.
    pub random: u32,
    /// The greatest fall up to and with the source's last, in cycles, or 0 if the source has none.
    pub cur_source: u64,
    /// The same of the target.
    pub cur_target: u64,
}
