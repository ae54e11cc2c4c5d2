//! A whole run: the boot, the bring-up, the events of each thread, and the history of each clock word.
use crate::event::Event;
use clk_num::List;
use clk_record::{BroughtUp, Demotion, Mode, StableStamp, Step};
use clk_watch::Watch;

/// A step of a clock word: the thread that made it, the number of its script word, the place of its event in the
/// thread, and the word before and after, in ns.
#[derive(Clone, Copy, PartialEq, Eq, Debug)]
pub struct HistoryStep {
    pub thread: u32,
    pub call: u32,
    pub part: u32,
    pub old: i64,
    pub new: i64,
}

/// What the watchdog of a run leaves. The lists of pauses, ends and places have an item for each check, in order.
#[derive(Drop)]
pub struct WatchTrace {
    /// The watchdog's thread number: that after the readers'.
    pub thread: u32,
    /// The first ticket of each check's pause.
    pub pauses: List<u64>,
    /// All attempts and records.
    pub watch: Watch,
    /// How many records there were after each check.
    pub last_record: List<u32>,
    /// The stable stamps, in order.
    pub stamps: List<StableStamp>,
    /// The end of the stable mode, where a check demoted the TSC source.
    pub demotion: Option<Demotion>,
    /// The number of that check, from 0, and 0 if there is none.
    pub demoted_in: u32,
    /// The lift of each clock word in the demotion, in order.
    pub lifts: List<Step>,
    /// The place of the current source after each check; the number of sources stands for the reference.
    pub currents: List<u32>,
}

/// A whole run. Tickets are counted from 0, times are in ns. Clock values begin at the machine's base and wrap at 64
/// bits: the sign of a difference tells which of two is later.
#[derive(Drop)]
pub struct Trace {
    /// The ticket and the counter value, in cycles, of record 0.
    pub epoch_ticket: u64,
    pub epoch_cyc: u64,
    /// The stamps of the boot.
    pub boots: List<StableStamp>,
    /// How the clock starts: a demotion at boot comes after that.
    pub starts: Mode,
    /// What takes a raw reading to the stable clock: `__sched_clock_offset` of Linux 6.1's `kernel/sched/clock.c`.
    pub sched_offset: i64,
    /// What takes monotonic time to the scheduler clock: `__gtod_offset` there.
    pub gtod_offset: i64,
    /// The bring-up of each CPU from 1.
    pub ups: BroughtUp,
    /// The demotion at boot, where a bring-up of a stable start failed.
    pub boot_demotion: Option<Demotion>,
    /// Where every clock word opens.
    pub start_word: i64,
    /// The CPU of each thread.
    pub cpu_of: List<u32>,
    /// The events of each thread, in its order.
    pub threads: List<List<Event>>,
    /// What the watchdog left, if there is one.
    pub watch: Option<WatchTrace>,
    /// The history of each CPU's clock word.
    pub histories: List<List<HistoryStep>>,
    /// How many tickets were drawn, at most 2^26.
    pub tickets: u64,
}
