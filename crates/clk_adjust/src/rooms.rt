//! How a machine's CPUs are tested, and the memory for their runs.
ghost use Rattle.std.specs.Prelude.{◌≡◌, ◌≤◌, Some, IfOk, length};
ghost use Rattle.std.specs.List.{All};
ghost use Rattle.clk_record.specs.BroughtUp.{most_runs as most_runs_of, is_passed_over as is_passed, test_of as test_by};
ghost use Rattle.clk_adjust.specs.Outcomes.{runs_of as runs_by, HasRoom};

use clk_machine::{BringUpPart, Machine};
use clk_num::List;
use clk_warp::WarpRun;
use std::alloc::{AllocError, Global};

/// How many runs a CPU has at most: three where its counter has the register that adjusts it, and else one.
pub(crate) fn most_runs(part: &BringUpPart) -> u32
    ensures count { result ≡ most_runs_of part.now }
    ensures few { (1 ≤ result) × (result ≤ 3) }
{
    if part.adjust { 3 } else { 1 }
}

/// The same of a machine, none where it has no bring-up.
pub(crate) fn runs_of(machine: &Machine) -> u32
    ensures { result ≡ runs_by machine.now.bringup }
{
    match machine.bring_up() {
        None => 0,
        Some(part) => most_runs(part),
    }
}

/// How a CPU is to be tested, if it is.
pub(crate) fn test_of(machine: &Machine, but: Option<u32>, cpu: u32) -> Option<BringUpPart>
    ensures { result ≡ test_by machine.now but cpu }
{
    if is_passed_over(but, cpu) {
        None
    } else {
        machine.bring_up().copied()
    }
}

fn is_passed_over(but: Option<u32>, cpu: u32) -> bool
    ensures { result ≡ is_passed but cpu }
{
    match but {
        None => false,
        Some(passed) => passed == cpu,
    }
}

/// Room for the runs of so many CPUs. The error is want of memory.
pub(crate) fn rooms_for(
    alloc: Global,
    cpus: u32,
    runs: u32,
) -> Result<List<List<WarpRun>>, AllocError>
    ensures count { IfOk result (λ rooms. length rooms.items ≡ cpus) }
    ensures each { IfOk result (λ rooms. All (HasRoom runs) rooms.items) }
{
    let mut rooms = List::with_room(alloc, cpus as usize)?;
    for _cpu in 0..cpus {
        rooms.push(List::with_room(alloc, runs as usize)?);
    }
    Ok(rooms)
}
