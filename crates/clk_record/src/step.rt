//! Steps on clock words, and why they are made.

/// Why a step wants its word where it wants it. All values are in ns and wrap at 64 bits.
#[derive(Clone, Copy, PartialEq, Eq, Debug)]
pub enum Why {
    /// A local reading: the time since the stamp, at most one tick, on top of the stamp's time. `raw` is the raw clock
    /// now, within 2^59 of the words' opening, the others are the stamp and the offset that were loaded.
    Raise {
        raw: i64,
        tick_raw: i64,
        tick_gtod: i64,
        offset: i64,
    },
    /// A remote reading: the value loaded from the word of CPU `from`.
    Couple {
        from: u32,
        value: i64,
    },
    /// The end of the stable mode: the opening of the per-CPU clocks.
    Lift {
        value: i64,
    },
}

/// A step on a clock word, as the history shows it.
#[derive(Clone, Copy, PartialEq, Eq, Debug)]
pub struct Step {
    /// The number of the seat that made it.
    pub by: u32,
    /// The caller's own number for the call that it belongs to.
    pub call: u32,
    /// The CPU whose word it raises.
    pub word: u32,
    /// What the word is raised to.
    pub why: Why,
    /// What the word held, in ns.
    pub old: i64,
    /// The target if that is above `old`, by the sign of the difference, and else `old`, in ns.
    pub new: i64,
}
