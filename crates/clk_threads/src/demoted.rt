//! The demotion at boot: a bring-up that fails ends the stable mode before the scripts begin.
ghost use Rattle.std.specs.Prelude.{IfOk};
ghost use Rattle.clk_threads.specs.Booting.{IsBootedFor, IsDemotedFor};

use crate::booted::{Booted, stamp};
use clk_demote::demotion_after;
use clk_latch::{Epochs, Latch};
use clk_record::{BroughtUp, Demotion};
use std::alloc::{AllocError, Global};

/// Demotes where this bring-up of a stable start failed, by a stamp of CPU 0 with the next two tickets, and else does
/// nothing. The demotion goes by the last stamp of the boot. The error is want of memory.
///
/// After `mark_tsc_unstable` of Linux 6.1's `arch/x86/kernel/tsc.c`, which `check_tsc_sync_source` calls where a
/// bring-up fails: by `clear_sched_clock_stable` it has `__sched_clock_work` of `kernel/sched/clock.c` end the stable
/// mode.
pub(crate) fn demote_at_boot(
    alloc: Global,
    booted: &mut Booted,
    up: &BroughtUp,
) -> Result<Option<Demotion>, AllocError>
    requires { IsBootedFor booted.old.machine up.now booted.old }
    ensures { IfOk result (λ demotion. IsDemotedFor booted.old.machine up.now demotion booted.new) }
{
    if !booted.machine.starts_stable() || !up.failed {
        return Ok(None);
    }
    let (latch, mut seat) = Latch::new(alloc, booted.epoch, 0)?;
    let stamp = stamp(
        &booted.machine,
        &booted.tickets,
        &mut booted.time,
        &latch,
        &mut seat,
    );
    let last = booted.stamps.len() - 1;
    Ok(Some(demotion_after(
        *booted.stamps.get(last),
        booted.sched_offset,
        booted.gtod_offset,
        stamp.gtod_ticket,
        stamp.gtod,
        stamp.raw,
    )))
}
