//! What a seat knows. No value of these types is made: contracts and the rule read them.
use crate::kind::SeatKind;
use crate::opening::Start;
use clk_record::{Mode, Step};
use std::collections::LinkedList;

/// The word that a load was of.
pub enum Name {
    /// The clock word of a CPU.
    Clock(u32),
    /// The GTOD of a CPU's last stamp.
    Gtod(u32),
    /// The raw value of a CPU's last stamp.
    Raw(u32),
    /// The offset between GTOD and the per-CPU clocks.
    Offset,
}

/// A load: its word and the value found, in ns.
pub struct Load {
    pub of: Name,
    pub value: i64,
}

/// What a seat knows of the values that a stamp word has held: the one of stamp 0, if it has seen that, and a beginning
/// of those after it.
pub struct Part {
    pub zero: Option<i64>,
    pub after: LinkedList<i64>,
}

/// What a seat knows of the stamp words: of the GTODs of CPU `c` at `2 * c`, of its raws at `2 * c + 1`. `owns` are the
/// CPUs whose stamps it may make. `told` is what each side of a join knew, until the next load.
pub struct PairView {
    pub parts: LinkedList<Part>,
    pub owns: LinkedList<u32>,
    pub told: LinkedList<LinkedList<Part>>,
}

/// What a seat knows of the mode: its looks at it, whether it has found it per-CPU, the offset if it has seen that, and
/// whether it has the watchdog's right. `held` and `cloned` are what the watchdog has stored: the offset that stands,
/// and of each stamp word the last value. That may go stale while the mode is stable, so only the seat with the right
/// has it. `told` is what each side of a join had seen of the offset, until the next load.
pub struct ModeView {
    pub looks: LinkedList<Mode>,
    pub found: bool,
    pub offset: Option<i64>,
    pub watch: bool,
    pub held: Option<i64>,
    pub cloned: LinkedList<Part>,
    pub told: LinkedList<Option<i64>>,
}

/// What a seat knows.
pub struct View {
    /// Whether it is the view of a seat. A join leaves a spent one.
    pub live: bool,
    /// What the words began with.
    pub start: Start,
    /// The number of the seat, and its kind.
    pub number: u32,
    pub kind: SeatKind,
    /// How many seats were made, for the seat that may split; 0 for all others.
    pub made: u32,
    /// The steps made under `number`, and those that joins brought in, each with the number it was made under.
    pub mine: LinkedList<Step>,
    pub joined: LinkedList<(u32, LinkedList<Step>)>,
    /// The beginning of the history that it has seen.
    pub seen: LinkedList<Step>,
    /// Its loads, in order. A new seat has none, and a join keeps those of the first.
    pub loads: LinkedList<Load>,
    /// What it knows of the stamps.
    pub pairs: PairView,
    /// The kinds that may still be given, each once.
    pub gives: LinkedList<SeatKind>,
    /// What each side of a join had seen, until the next load.
    pub told: LinkedList<LinkedList<Step>>,
    /// What it knows of the mode.
    pub modes: ModeView,
}
