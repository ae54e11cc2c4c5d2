//! What the calls answer.
use clk_machine::RawReading;
use clk_words::Step;

/// A local reading. It is `value` while the clock is stable, and else the new value of `step`.
#[derive(Clone, Copy, PartialEq, Eq, Debug)]
pub enum Reading {
    /// The raw clock and the offset of the stable clock, in ns.
    Stable { raw: RawReading, value: i64 },
    /// The step on the own CPU's clock word, and the raw reading that it goes by.
    PerCpu { raw: RawReading, step: Step },
}

/// What a tick did.
#[derive(Clone, Copy, PartialEq, Eq, Debug)]
pub enum TickEvent {
    /// Nothing, since the clock is stable.
    Nothing,
    /// It stored a stamp: the GTOD at a ticket, in ns, and then the raw reading `stamp`. Then it read the clock.
    Ticked {
        gtod_ticket: u64,
        gtod: i64,
        stamp: RawReading,
        raw: RawReading,
        step: Step,
    },
}

/// A local reading and the tick after it.
#[derive(Clone, Copy, PartialEq, Eq, Debug)]
pub struct IdleEvent {
    pub read: Reading,
    pub tick: TickEvent,
}
