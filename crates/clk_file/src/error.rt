//! Why a file, or its table, is no machine.
use clk_machine::{MachineError, Place};
use std::alloc::AllocError;
use thiserror::Error;

/// Why a file is no machine: the first failing test, in the order of the rows of the format.
#[derive(Clone, Copy, PartialEq, Eq, Debug, Error)]
pub enum FileError {
    /// The bytes are no UTF-8, or no TOML.
    #[error("not TOML")]
    NotToml,
    /// A key is missing, or the table has an unknown one.
    #[error("a key is missing or unknown")]
    Key(Place),
    /// A value is of another kind, or out of range.
    #[error("a value is of another kind, or out of range")]
    Value(Place),
    /// A string is no word of this script.
    #[error("no word of this script")]
    Word(Place),
    /// The CPU that is named here is none of the machine's.
    #[error("no such CPU")]
    Cpu(Place),
    /// The run needs so many tickets, more than 2^24, or in version 2 more than 2^26.
    #[error("too many tickets")]
    Tickets { needed: u64 },
    /// There was no memory to tell.
    #[error("out of memory")]
    Memory(AllocError),
}

/// Why a table is no machine: the first failing test.
#[derive(Clone, Copy, PartialEq, Eq, Debug)]
pub enum TableError {
    /// A key is missing, or the table has an unknown one.
    Key(Place),
    /// A value is of another kind, or out of range.
    Value(Place),
    /// A string is no word of this script.
    Word(Place),
    /// The CPU that is named here is none of the machine's.
    Cpu(Place),
    /// The run needs so many tickets, more than 2^24, or in version 2 more than 2^26.
    Tickets { needed: u64 },
}

impl From<MachineError> for TableError {
    ghost use Rattle.std.specs.Prelude.{◌≡◌};
    ghost use Rattle.clk_file.specs.Acceptance.{of_machine};

    ghost from_gives = { λ e r. r ≡ of_machine e };

    fn from(error: MachineError) -> TableError {
        match error {
            MachineError::Value(place) => TableError::Value(place),
            MachineError::Cpu(place) => TableError::Cpu(place),
            MachineError::Tickets { needed } => TableError::Tickets { needed },
        }
    }
}

impl From<TableError> for FileError {
    ghost use Rattle.std.specs.Prelude.{◌≡◌};
    ghost use Rattle.clk_file.specs.Acceptance.{of_table};

    ghost from_gives = { λ e r. r ≡ of_table e };

    fn from(error: TableError) -> FileError {
        match error {
            TableError::Key(place) => FileError::Key(place),
            TableError::Value(place) => FileError::Value(place),
            TableError::Word(place) => FileError::Word(place),
            TableError::Cpu(place) => FileError::Cpu(place),
            TableError::Tickets { needed } => FileError::Tickets { needed },
        }
    }
}
