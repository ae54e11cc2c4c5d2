//! The answers of the program, with their exit statuses and texts.
ghost use Rattle.std.specs.Prelude.{◌≡◌};
ghost use Rattle.clk_tool.specs.Answers.{exit_code_of};

use crate::path::Path;
use clk_machine::Place;
use std::fmt;

/// How a run of the program ended.
#[derive(Clone, Copy, PartialEq, Eq, Debug)]
pub enum Status {
    /// The whole answer was written.
    Done,
    /// The words are none of the commands.
    Usage,
    /// The source failed.
    ReadFault,
    /// The machine file is refused.
    Refused(Refusal),
    /// The sink failed.
    WriteFault,
    /// There was no memory.
    Memory,
}

/// Why a machine file is refused. Codes are 0 to 6 in this order.
#[derive(Clone, Copy, PartialEq, Eq, Debug)]
pub enum Refusal {
    /// It is longer than 1,048,576 bytes.
    TooLong,
    /// It is no TOML.
    NotToml,
    /// A key is missing or unknown.
    Key(Place),
    /// A value is of another kind, or out of range.
    Value(Place),
    /// A script word is unknown.
    Word(Place),
    /// There is no such CPU.
    Cpu(Place),
    /// The run needs so many tickets, more than 2^24, or in version 2 more than 2^26.
    Tickets { needed: u64 },
}

impl Status {
    /// The exit status of the program, 0 to 5 in the order of the answers.
    pub fn exit_code(&self) -> u8
        ensures { result ≡ exit_code_of self.now }
    {
        match self {
            Status::Done => 0,
            Status::Usage => 1,
            Status::ReadFault => 2,
            Status::Refused(_) => 3,
            Status::WriteFault => 4,
            Status::Memory => 5,
        }
    }
}

impl fmt::Display for Status {
    /// The line that the program prints on standard error; for `Done` it is empty and not printed.
    fn fmt<W: fmt::Write>(&self, f: &mut fmt::Formatter<W>) -> fmt::Result {
        match self {
            Status::Done => Ok(()),
            Status::Usage => write!(f, "usage: clock_tool run | rate HZ BITS | make N"),
            Status::ReadFault => write!(f, "read fault"),
            Status::Refused(refusal) => write!(f, "refused {refusal}"),
            Status::WriteFault => write!(f, "write fault"),
            Status::Memory => write!(f, "out of memory"),
        }
    }
}

impl fmt::Display for Refusal {
    /// The refusal's code, and the path of its place or the number of tickets where it has one.
    fn fmt<W: fmt::Write>(&self, f: &mut fmt::Formatter<W>) -> fmt::Result {
        match self {
            Refusal::TooLong => write!(f, "0"),
            Refusal::NotToml => write!(f, "1"),
            Refusal::Key(place) => write!(f, "2 {}", Path(*place)),
            Refusal::Value(place) => write!(f, "3 {}", Path(*place)),
            Refusal::Word(place) => write!(f, "4 {}", Path(*place)),
            Refusal::Cpu(place) => write!(f, "5 {}", Path(*place)),
            Refusal::Tickets { needed } => write!(f, "6 {needed}"),
        }
    }
}
