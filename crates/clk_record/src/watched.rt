//! What a watch keeps of each source.

/// An accepted reading of a source, and the watchdog's before it, in cycles.
#[derive(Clone, Copy, PartialEq, Eq, Debug)]
pub struct Pair {
    pub cs: u64,
    pub wd: u64,
}

/// A watched source: the readings that were kept of it, if any, whether it is unstable, and its rating, which is 0
/// where it is. After the fields `cs_last`, `wd_last`, `flags` and `rating` of `struct clocksource` of Linux 6.1.
#[derive(Clone, Copy, PartialEq, Eq, Debug)]
pub struct Watched {
    pub kept: Option<Pair>,
    pub unstable: bool,
    pub rating: u32,
}
