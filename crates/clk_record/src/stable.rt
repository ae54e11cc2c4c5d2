//! The stamps of a stable clock, and the end of the stable mode.
use clk_machine::RawReading;

/// A stamp of the boot, or of the watchdog while the clock is stable: the ticket and value of monotonic time in ns, 0
/// to 2^42, the raw reading after it, and the offset in ns that takes monotonic time to the scheduler clock.
#[derive(Clone, Copy, PartialEq, Eq, Debug)]
pub struct StableStamp {
    pub gtod_ticket: u64,
    pub gtod: i64,
    pub raw: RawReading,
    pub offset: i64,
}

/// The end of the stable mode. All times are in ns, and wrap.
#[derive(Clone, Copy, PartialEq, Eq, Debug)]
pub struct Demotion {
    /// The last stable stamp.
    pub stable: StableStamp,
    /// The ticket and value of monotonic time of the demotion's own stamp, and the raw reading after it.
    pub gtod_ticket: u64,
    pub gtod: i64,
    pub raw: RawReading,
    /// What a stable reading added to the raw clock.
    pub sched_offset: i64,
    /// What takes monotonic time to the scheduler clock, which stood and stays.
    pub gtod_offset: i64,
    /// Where the clock words open.
    pub opening: i64,
    /// How far the raw clock went ahead of monotonic time since the last stable stamp.
    pub drift: i64,
}
