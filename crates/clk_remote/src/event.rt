//! What a remote read answers.
use clk_machine::RawReading;
use clk_words::Step;

/// A remote reading. It is `value` while the clock is stable, and else the new value of `step`.
#[derive(Clone, Copy, PartialEq, Eq, Debug)]
pub enum RemoteEvent {
    /// The raw clock and the offset of the stable clock, in ns.
    Stable {
        raw: RawReading,
        value: i64,
    },
    /// A local read, by `raw` and the step `local` on the own CPU's word. Then `own` and `other`, in ns, were loaded of
    /// the own word and of the word asked for, and `step` raised the lower of the two words to the other's value.
    Coupled {
        raw: RawReading,
        local: Step,
        own: i64,
        other: i64,
        step: Step,
    },
}
