//! The range tests of the numbers that stand alone: the machine's own, the reference's, the bring-up's, the watchdog's.
ghost use Rattle.std.specs.Prelude.{◌≡◌};
ghost use Rattle.clk_base.specs.First.{first};
ghost use Rattle.clk_machine.specs.Plan.{plan_of};
ghost use Rattle.clk_machine.specs.Ranges.{number_tests, reference_tests, bring_up_tests, watch_tests};

use crate::error::MachineError;
use crate::parts::{BringUpPart, Parts, ReferencePart, WatchPart};
use crate::ranges::{most_cpus, ranges, width};
use crate::rows::Row;

/// The machine's own numbers.
pub(crate) fn test_numbers(parts: &Parts) -> Option<MachineError>
    ensures { result ≡ first (number_tests (plan_of parts.now)) }
{
    ranges(Row::Version, 0, 1, 2, parts.version)
        .or(ranges(Row::Cpus, 0, 1, most_cpus(parts.version), parts.cpus))
        .or(ranges(Row::Step, 0, 1, 1 << 14, parts.step))
        .or(ranges(Row::Tick, 0, 1, 1 << 30, parts.tick))
        .or(width(Row::Bits, 0, parts.bits))
        .or(ranges(Row::NominalKhz, 0, 1_000, 4_000_000, parts.nominal_khz))
}

/// The reference's.
pub(crate) fn test_reference(reference: &ReferencePart) -> Option<MachineError>
    ensures { result ≡ first (reference_tests reference.now) }
{
    ranges(Row::ReferenceKhz, 0, 1_000, 4_000_000, reference.khz)
        .or(width(Row::ReferenceBits, 0, reference.bits))
        .or(ranges(Row::ReferenceRating, 0, 1, 1_000, reference.rating))
        .or(ranges(Row::ReferenceMargin, 0, 0, 1 << 30, reference.margin))
}

/// The bring-up's, if there is one.
pub(crate) fn test_bring_up(bring_up: &Option<BringUpPart>) -> Option<MachineError>
    ensures { result ≡ first (bring_up_tests bring_up.now) }
{
    match bring_up {
        None => None,
        Some(part) => ranges(Row::BringUpTimeout, 0, 0, 1_000_000, part.timeout_us)
            .or(ranges(Row::BringUpFirst, 0, 0, 1_000_000, part.first_us))
            .or(ranges(Row::BringUpTurns, 0, 0, 4_096, part.turns)),
    }
}

/// The watchdog's, if there is one.
pub(crate) fn test_watchdog(watchdog: &Option<WatchPart>) -> Option<MachineError>
    ensures { result ≡ first (watch_tests watchdog.now) }
{
    match watchdog {
        None => None,
        Some(part) => ranges(Row::WatchdogChecks, 0, 0, 4_096, part.checks)
            .or(ranges(Row::WatchdogPause, 0, 1, 65_536, part.pause))
            .or(ranges(Row::WatchdogSkew, 0, 0, 1 << 30, part.skew))
            .or(ranges(Row::WatchdogRetries, 0, 0, 10, part.retries)),
    }
}
