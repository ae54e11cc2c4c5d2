//! The verdict on a warp run.

/// What comes after a warp run. After the end of `check_tsc_sync_target` in Linux 6.1's `arch/x86/kernel/tsc_sync.c`.
#[derive(Clone, Copy, PartialEq, Eq, Debug)]
pub enum Verdict {
    /// There was no fall.
    Passed,
    /// The target adds so many cycles to its counter, and both sides run again.
    Again { adjust: i64 },
    /// The counters cannot be brought together: the greatest fall, in cycles, and how many falls changed sides.
    Failed { max: u64, random: u32 },
}
