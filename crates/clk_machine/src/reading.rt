//! What a latch answers: raw readings, and the records that they were converted by.
use crate::machine::Machine;

/// A raw clock reading: the ticket that was drawn for it, the counter there in cycles, the number of the latch record
/// that converted it, and the time in ns, which wraps. After `sched_clock` of Linux 6.1's `kernel/time/sched_clock.c`.
#[derive(Clone, Copy, PartialEq, Eq, Debug)]
pub struct RawReading {
    pub ticket: u64,
    pub cyc: u64,
    pub rec: u32,
    pub ns: i64,
}

/// A latch record as it was published: its number, the ticket at which its update read the counter, the counter there
/// in cycles, and the time in ns, which wraps. After `clock_read_data` of Linux 6.1's `kernel/time/sched_clock.c`.
#[derive(Clone, Copy, PartialEq, Eq, Debug)]
pub struct Published {
    pub rec: u32,
    pub ticket: u64,
    pub cyc: u64,
    pub ns: i64,
}

/// The counter of one CPU of a machine, with the adjustment that it got at boot, in cycles.
#[derive(Clone, Copy)]
pub struct CpuCounter<'a> {
    pub machine: &'a Machine,
    pub cpu: u32,
    pub adjust: i64,
}
