//! Steps on clock words, and why they are made.
use clk_record::Step;

/// What became of an exchange.
#[derive(Clone, Copy, PartialEq, Eq, Debug)]
pub enum Put {
    /// The word held `old`, and the step stands in the history.
    Done(Step),
    /// The word held `found`, which is above `old`, and nothing changed.
    Lost { found: i64 },
}
