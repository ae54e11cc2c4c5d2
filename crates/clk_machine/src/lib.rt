//! A machine whose counters are described, and what its CPUs are to do.
//!
//! [`Parts`] are the numbers of a machine file as they were written, and a [`Machine`] is parts that met all limits:
//! [`Machine::new`] answers the first failing range test, in the order of the file's rows. Contracts see a machine as a
//! plan, `specs/Plan.antt`: what was written, over unbounded numbers.
//!
//! - [`Machine::time`] is a function of the ticket alone, and a counter one of the time: `specs/Time.antt`. Each is
//!   found by halving over sums that the machine keeps, so a file with many delays and jumps costs about what one
//!   without costs.
//! - [`Machine::reference`] converted is monotonic time, [`Machine::gtod`].
//! - [`RawReading`] and [`Published`] are what a latch answers, and `specs/Records.antt` says which are right.
//! - [`readings_are_small`] carries what follows from the limits alone, and [`limits_are_tested`] that the range tests
//!   test them.
//! - [`Row`] names the rows of the file, once for the reader, the range tests and the text of a [`Place`].
//!
//! A machine says nothing of what its threads do or when: it describes counters and names the words of scripts.
#![tactic(auto)]

mod counters;
mod delays;
mod error;
mod gate;
mod jumps;
mod laws;
mod machine;
mod numbers;
mod parts;
mod place;
mod ranges;
mod reading;
mod rows;
mod script;
mod sources;
mod threads;
mod tickets;

pub use error::MachineError;
pub use gate::{Gate, OpenGate};
pub use laws::{limits_are_tested, readings_are_small};
pub use machine::Machine;
pub use parts::{
    BringUpPart, CpuPart, Delay, Jump, Parts, ReaderPart, ReferencePart, SourcePart, WatchPart,
};
pub use place::Place;
pub use reading::{CpuCounter, Published, RawReading};
pub use rows::{ROW_NAMES, Row};
pub use script::{Script, Word};
