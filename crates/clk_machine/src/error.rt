//! Why numbers are no machine.
use crate::place::Place;
use thiserror::Error;

/// Why numbers are no machine: the first failing range test, in the order of the rows of the machine file.
#[derive(Clone, Copy, PartialEq, Eq, Debug, Error)]
pub enum MachineError {
    /// The value at this place is out of range.
    #[error("a value is out of range")]
    Value(Place),
    /// The CPU that is named at this place is none of the machine's.
    #[error("no such CPU")]
    Cpu(Place),
    /// The run needs so many tickets, more than 2^24, or in version 2 more than 2^26.
    #[error("too many tickets")]
    Tickets { needed: u64 },
}
