//! What the words begin with.
use clk_record::Mode;

/// What the words begin with, in ns. Each clock word begins at `tick_gtod + offset`, which wraps. The names are those
/// of Linux's `struct sched_clock_data`; `offset` is its `__gtod_offset`.
#[derive(Clone, Copy, PartialEq, Eq, Debug)]
pub struct Opening {
    /// Whether the clock begins stable.
    pub mode: Mode,
    /// What is added to the monotonic time.
    pub offset: i64,
    /// The monotonic time at the last boot stamp, 0 to 2^42.
    pub tick_gtod: i64,
    /// The raw clock at the last boot stamp, within 2^59 of what the words begin with, by the sign of the difference.
    pub tick_raw: i64,
}

/// What is fixed when the words are made.
#[derive(Clone, Copy, PartialEq, Eq, Debug)]
pub struct Start {
    /// How many CPUs there are, at least one.
    pub cpus: u32,
    /// The length of a tick, 1 to 2^30 ns.
    pub tick: i64,
    /// What the words begin with.
    pub opening: Opening,
}
