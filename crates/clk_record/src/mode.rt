//! Whether one clock serves all CPUs.

/// Whether one clock serves all CPUs, or each CPU has a word of its own: what Linux keeps in `__sched_clock_stable`.
#[derive(Clone, Copy, PartialEq, Eq, Debug)]
pub enum Mode {
    /// The raw clock is trusted: a reading is the raw clock and an offset.
    Stable,
    /// Each CPU's word is raised by its readings.
    PerCpu,
}
