//! The range tests of delays.
ghost use Rattle.std.specs.Prelude.{◌≡◌, ◌^◌, ◌≤◌, ◌∷◌, [], map};
ghost use Rattle.clk_base.specs.First.{first};
ghost use Rattle.clk_machine.specs.declared.rows.Row.TheVariants as rows;
ghost use Rattle.clk_machine.specs.Plan.{delay_plan};
ghost use Rattle.clk_machine.specs.Ranges.{at_most as length_test, delay_tests, after_delay, each_delay};
ghost use Rattle.clk_machine.specs.Short.{IsShort};
ghost use Rattle.clk_machine.specs.Tested.{Tested};

use crate::error::MachineError;
use crate::parts::Delay;
use crate::ranges::{at_most, number_in, value_at};
use crate::rows::Row;
use clk_num::List;

/// The most delays of a machine.
const MAX_DELAYS: usize = 1_024;

/// The most ns of all delays together.
const MAX_NS: u64 = 1 << 39;

/// The test of the delays of a run of so many tickets.
pub(crate) fn test_delays(limit: u64, delays: &List<Delay>) -> Option<MachineError>
    requires limit { (1 ≤ limit) × (limit ≤ 2 ^ 26) }
    requires short { IsShort delays.now.items }
    ensures { result ≡ first (length_test rows.Delay 0 1024 (map delay_plan delays.now.items) ∷ each_delay limit (map delay_plan delays.now.items) ∷ []) }
{
    at_most(Row::Delay, 0, MAX_DELAYS, delays).or(test_each(limit, delays.items()))
}

/// The test of each delay.
fn test_each(limit: u64, delays: &[Delay]) -> Option<MachineError>
    requires limit { (1 ≤ limit) × (limit ≤ 2 ^ 26) }
    requires short { IsShort delays.now }
    ensures { result ≡ each_delay limit (map delay_plan delays.now) }
{
    let mut told = (0, 0);
    for (i, delay) in delays.iter().enumerate() {
        match test_delay(limit, told, i as u32 + 1, delay) {
            Ok(next) => told = next,
            Err(refusal) => return Some(refusal),
        }
    }
    None
}

/// The test of a delay, which is told the ticket after that of the one before it and the ns of all before.
fn test_delay(
    limit: u64,
    told: (u64, u64),
    entry: u32,
    delay: &Delay,
) -> Result<(u64, u64), MachineError>
    requires limit { (1 ≤ limit) × (limit ≤ 2 ^ 26) }
    requires told { told.1 ≤ 2 ^ 39 }
    ensures { Tested (first (delay_tests limit told entry (delay_plan delay.now))) (after_delay told (delay_plan delay.now)) (λ next. next.1 ≤ 2 ^ 39) result }
{
    let Some(ticket) = number_in(told.0, limit - 1, &delay.ticket) else {
        return Err(value_at(Row::DelayTicket, entry, 0));
    };
    match number_in(0, MAX_NS, &delay.ns) {
        Some(ns) if told.1 + ns <= MAX_NS => Ok((ticket + 1, told.1 + ns)),
        _ => Err(value_at(Row::DelayNs, entry, 0)),
    }
}
