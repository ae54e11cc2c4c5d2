//! Readings of a source between readings of the reference.

/// One attempt at a bracket: four readings in a row, each at a ticket of its own. They are the watchdog, the source,
/// the watchdog and the watchdog again, in cycles. The watchdog shows the low bits of the reference.
/// After `cs_watchdog_read` of Linux 6.1's `kernel/time/clocksource.c`.
#[derive(Clone, Copy, PartialEq, Eq, Debug)]
pub struct Attempt {
    pub ticket: [u64; 4],
    pub value: [u64; 4],
}

/// How a bracket ended.
#[derive(Clone, Copy, PartialEq, Eq, Debug)]
pub enum Bracket {
    /// The last attempt was short enough: the source showed `cs` and the watchdog `wd` before it, in cycles.
    Accepted { cs: u64, wd: u64 },
    /// Two readings of the watchdog itself took too long, which tells nothing of the source.
    Skip,
    /// No attempt was short enough.
    Slow,
}
