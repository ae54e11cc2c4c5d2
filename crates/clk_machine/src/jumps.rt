//! The jumps of a counter: their range tests, and what they add up to.
ghost use Rattle.std.specs.Prelude.{◌≡◌, ◌^◌, ◌≤◌, map};
ghost use Rattle.clk_base.specs.First.{each_told};
ghost use Rattle.clk_machine.specs.Plan.{jump_plan};
ghost use Rattle.clk_machine.specs.Ranges.{jump_test, after_jump, jumps_test};
ghost use Rattle.clk_machine.specs.Short.{IsShort};
ghost use Rattle.clk_machine.specs.Tested.{Tested};

use crate::error::MachineError;
use crate::parts::Jump;
use crate::ranges::{at_most, number_in, value_at};
use crate::rows::Row;
use clk_num::List;

/// The most jumps of a counter.
const MAX_JUMPS: usize = 64;

/// The latest time of a jump, in ns.
const MAX_TIME: u64 = 1 << 41;

/// The most cycles that the jumps of a counter are in size.
const MAX_SIZE: u64 = 1 << 44;

/// The test of a counter's jumps, at their row of the file and the counter's entry.
pub(crate) fn test_jumps(row: Row, entry: u32, jumps: &List<Jump>) -> Option<MachineError>
    requires { IsShort jumps.now.items }
    ensures { result ≡ jumps_test row entry (map jump_plan jumps.now.items) }
{
    at_most(row, entry, MAX_JUMPS, jumps).or(test_each(row, entry, jumps.items()))
}

/// The test of each jump.
fn test_each(row: Row, entry: u32, jumps: &[Jump]) -> Option<MachineError>
    requires { IsShort jumps.now }
    ensures { result ≡ each_told (jump_test row entry) after_jump (0, 0) 1 (map jump_plan jumps.now) }
{
    let mut told = (0, 0);
    for (i, jump) in jumps.iter().enumerate() {
        match test_jump(row, entry, told, i as u32 + 1, jump) {
            Ok(next) => told = next,
            Err(refusal) => return Some(refusal),
        }
    }
    None
}

/// The test of a jump, which is told the time of the one before it and the size of all before.
fn test_jump(
    row: Row,
    entry: u32,
    told: (u64, u64),
    item: u32,
    jump: &Jump,
) -> Result<(u64, u64), MachineError>
    requires { told.1 ≤ 2 ^ 44 }
    ensures { Tested (jump_test row entry told item (jump_plan jump.now)) (after_jump told (jump_plan jump.now)) (λ next. next.1 ≤ 2 ^ 44) result }
{
    let size = told.1 + jump.cycles.unsigned_abs();
    match number_in(told.0, MAX_TIME, &jump.at) {
        Some(at) if size <= MAX_SIZE => Ok((at, size)),
        _ => Err(value_at(row, entry, item)),
    }
}
