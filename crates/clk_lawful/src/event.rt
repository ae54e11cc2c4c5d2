//! The events of a thread: what it did at each place of its script.
use clk_machine::{Published, RawReading};

/// What a thread did at one place of its script. Times are in ns.
#[derive(Clone, Copy, PartialEq, Eq, Debug)]
pub struct Event {
    /// The number of the script word, after repeats, from 0.
    pub call: u32,
    pub kind: EventKind,
}

/// The kinds of event, with what they show. Clock values are in ns and wrap at 64 bits.
#[derive(Clone, Copy, PartialEq, Eq, Debug)]
pub enum EventKind {
    /// A reading of the stable clock: the raw reading, and the value, which is the raw reading with the offset of the
    /// stable clock.
    Stable {
        raw: RawReading,
        value: i64,
    },
    /// A per-CPU reading: the raw reading, the pair of the last stamp, the offset of monotonic time, and the clock word
    /// before and after. The word after is the reading.
    Local {
        raw: RawReading,
        tick_raw: i64,
        tick_gtod: i64,
        offset: i64,
        old: i64,
        new: i64,
    },
    /// A per-CPU reading of another CPU's clock: the CPU asked, what was loaded of the own clock word and of that
    /// CPU's, the CPU of the word that was then raised, and that word before and after. The word after is the reading.
    Couple {
        cpu: u32,
        own: i64,
        other: i64,
        word: u32,
        old: i64,
        new: i64,
    },
    /// A CPU's stamp: the ticket and value of monotonic time, and the raw reading after it.
    Stamp {
        gtod_ticket: u64,
        gtod: i64,
        raw: RawReading,
    },
    /// A tick that found the clock stable, and stamped nothing.
    Nothing,
    /// The record that an update of the CPU's latch published.
    Update(Published),
    /// The tickets of a pause: the first, and how many.
    Pause {
        ticket: u64,
        count: u64,
    },
}
