//! A machine that was prepared for its run: every seat, and all memory.
ghost use Rattle.std.specs.Prelude.{◌≡◌, None, IfOk};
ghost use Rattle.clk_record.specs.BroughtUp.{IsBroughtUp};
ghost use Rattle.clk_threads.specs.Booting.{IsBootedFor, IsDemotedFor};
ghost use Rattle.clk_threads.specs.Preparing.{IsMade, IsPrepared};

use crate::booted::Booted;
use crate::demoted::demote_at_boot;
use crate::latches::{Latches, make_latches};
use crate::lists::{Lists, make_lists};
use crate::opened::{Opened, open_words};
use crate::times::{share_tickets, share_watch};
use clk_machine::{Machine, Published};
use clk_num::List;
use clk_record::{BroughtUp, Demotion, StableStamp};
use clk_ticket::{TicketTable, TimeSeat};
use std::alloc::{AllocError, Global};

/// What a run needs. The run itself takes no memory.
#[derive(Drop)]
pub struct Prepared {
    pub machine: Machine,
    pub tickets: TicketTable,
    /// The clock words, and the seats of the threads and of the watchdog there.
    pub opened: Opened,
    /// The latch of each CPU, the seat of each thread at its CPU's, and those of the watchdog.
    pub latches: Latches,
    /// The seat of each thread at the tickets, with those of its script, that of the watchdog, if there is one, with
    /// those of its checks, and the seat that has the rest.
    pub times: List<TimeSeat>,
    pub watch_time: Option<TimeSeat>,
    pub time: TimeSeat,
    /// The lists that the run fills.
    pub lists: Lists,
    /// What the boot left: see [`Booted`].
    pub epoch: Published,
    pub stamps: List<StableStamp>,
    pub sched_offset: i64,
    pub gtod_offset: i64,
    /// What the bring-up found.
    pub up: BroughtUp,
    /// The demotion at boot, where that bring-up of a stable start failed.
    pub boot_demotion: Option<Demotion>,
}

/// Prepares the run of a machine that [`crate::boot`] booted and `clk_adjust::bring_up` brought up, by that boot's
/// seat. Where that bring-up of a stable start failed it demotes first: a stamp of CPU 0 ends the stable mode. The
/// clock words open by the last stamp, each CPU gets its latch by record 0, and each thread its seats, after
/// `sched_clock_init` and `__set_sched_clock_stable` of Linux 6.1's `kernel/sched/clock.c`, by which every CPU begins
/// with the boot CPU's stamp. So does the watchdog, if there is one, at every latch. It takes all memory of the run.
/// The error is want of memory.
///
/// From here on the counter of each CPU is adjusted by what its bring-up found.
pub fn prepare(alloc: Global, booted: Booted, up: BroughtUp) -> Result<Prepared, AllocError>
    requires booted { IsBootedFor booted.machine up booted }
    requires up { IsBroughtUp booted.machine None up }
    ensures { IfOk result (IsPrepared booted.machine) }
{
    let mut booted = booted;
    let boot_demotion = demote_at_boot(alloc, &mut booted, &up)?;
    let made = make_seats(alloc, &mut booted, &up, boot_demotion)?;
    Ok(prepared_by(booted, up, boot_demotion, made))
}

// The seats that take memory, and the lists.
#[derive(Drop)]
struct Made {
    lists: Lists,
    latches: Latches,
    opened: Opened,
    times: List<TimeSeat>,
}

// Makes them after that demotion, if there was one.
fn make_seats(
    alloc: Global,
    booted: &mut Booted,
    up: &BroughtUp,
    boot_demotion: Option<Demotion>,
) -> Result<Made, AllocError>
    requires booted { IsDemotedFor booted.old.machine up.now boot_demotion booted.old }
    requires up { IsBroughtUp booted.old.machine None up.now }
    ensures rest { booted.new ≡ record booted.old { time = booted.new.time } }
    ensures made { IfOk result (IsMade booted.new up.now boot_demotion) }
{
    let lists = make_lists(alloc, &booted.machine, up)?;
    let latches = make_latches(alloc, booted.epoch, &booted.machine)?;
    let opened = open_words(
        alloc,
        &booted.machine,
        booted.stamps.items(),
        booted.gtod_offset,
        boot_demotion,
    )?;
    let times = share_tickets(alloc, &booted.machine, &booted.tickets, &mut booted.time)?;
    Ok(Made {
        lists,
        latches,
        opened,
        times,
    })
}

// All of it, with the watchdog's tickets split off.
fn prepared_by(
    booted: Booted,
    up: BroughtUp,
    boot_demotion: Option<Demotion>,
    made: Made,
) -> Prepared
    requires up { IsBroughtUp booted.machine None up }
    requires made { IsMade booted up boot_demotion made }
    ensures { IsPrepared booted.machine result }
{
    let Booted {
        machine,
        tickets,
        mut time,
        epoch,
        stamps,
        sched_offset,
        gtod_offset,
    } = booted;
    let watch_time = share_watch(&machine, &tickets, &mut time);
    Prepared {
        machine,
        tickets,
        opened: made.opened,
        latches: made.latches,
        times: made.times,
        watch_time,
        time,
        lists: made.lists,
        epoch,
        stamps,
        sched_offset,
        gtod_offset,
        up,
        boot_demotion,
    }
}
