//! The range tests of single numbers, by their rows of the machine file.
ghost use Rattle.std.specs.Prelude.{◌≡◌, ◌^◌, ◌≤◌, pos};
ghost use Rattle.clk_machine.specs.Plan.{count_of};
ghost use Rattle.clk_machine.specs.Ranges.{ranges, is_between, is_width, is_cpu, at_most, value_at as value_of, cpu_fault as cpu_fault_of};
ghost use Rattle.clk_machine.specs.Limits.{most_cpus as cpus_of, ticket_limit as tickets_of};
ghost use Rattle.clk_base.specs.First.{unless};
ghost use Rattle.clk_machine.specs.Tested.{NumberIn};

use crate::error::MachineError;
use crate::place::Place;
use crate::rows::Row;
use clk_num::List;

/// The later version of the file, which may have more CPUs and more tickets.
const SECOND: i64 = 2;

/// The most CPUs of a machine, by the version of its file.
pub(crate) fn most_cpus(version: i64) -> u64
    ensures { result ≡ cpus_of version }
{
    if version == SECOND { 64 } else { 16 }
}

/// The most tickets that a run may draw, by the version of its file.
pub(crate) fn ticket_limit(version: i64) -> u64
    ensures limit { result ≡ tickets_of version }
    ensures few { (2 ^ 24 ≤ result) × (result ≤ 2 ^ 26) }
{
    if version == SECOND { 1 << 26 } else { 1 << 24 }
}

/// The refusal of a value.
pub(crate) fn value_at(row: Row, entry: u32, item: u32) -> MachineError
    ensures { result ≡ value_of row entry item }
{
    MachineError::Value(Place {
        row: row.number(),
        entry,
        item,
    })
}

/// The refusal of a CPU's number.
pub(crate) fn cpu_fault(row: Row, entry: u32, item: u32) -> MachineError
    ensures { result ≡ cpu_fault_of row entry item }
{
    MachineError::Cpu(Place {
        row: row.number(),
        entry,
        item,
    })
}

/// A test that passes where it holds.
pub(crate) fn unless_held(holds: bool, refusal: MachineError) -> Option<MachineError>
    ensures { result ≡ unless holds refusal }
{
    if holds { None } else { Some(refusal) }
}

/// Whether a number is from `low` to `high`.
pub(crate) fn is_between(low: u64, high: u64, value: i64) -> bool
    ensures { result ≡ is_between low high value }
{
    match u64::try_from(value) {
        Ok(number) => low <= number && number <= high,
        Err(_) => false,
    }
}

/// The number, where it is from `low` to `high`. It is lent, so that a caller's proof sees the item that it stands in.
pub(crate) fn number_in(low: u64, high: u64, value: &i64) -> Option<u64>
    ensures { NumberIn low high value.now result }
{
    match u64::try_from(*value) {
        Ok(number) if low <= number && number <= high => Some(number),
        _ => None,
    }
}

/// A number that is a count.
pub(crate) fn count(value: &i64) -> u64
    requires { value.now ≡ pos (count_of value.now) }
    ensures { result ≡ count_of value.now }
{
    value.unsigned_abs()
}

/// Whether a number is a width of counters.
pub(crate) fn is_width(value: i64) -> bool
    ensures { result ≡ is_width value }
{
    value == 32 || (value == 56 || value == 64)
}

/// Whether a number is that of a CPU.
pub(crate) fn is_cpu(cpus: u64, value: i64) -> bool
    ensures { result ≡ is_cpu cpus value }
{
    match u64::try_from(value) {
        Ok(number) => number < cpus,
        Err(_) => false,
    }
}

/// The test of a number, whose place has no item.
pub(crate) fn ranges(row: Row, entry: u32, low: u64, high: u64, value: i64) -> Option<MachineError>
    ensures { result ≡ ranges row entry low high value }
{
    unless_held(is_between(low, high, value), value_at(row, entry, 0))
}

/// The test of a width.
pub(crate) fn width(row: Row, entry: u32, value: i64) -> Option<MachineError>
    ensures { result ≡ unless (is_width value) (value_of row entry 0) }
{
    unless_held(is_width(value), value_at(row, entry, 0))
}

/// The test of how long a list is.
pub(crate) fn at_most<T>(row: Row, entry: u32, most: usize, list: &List<T>) -> Option<MachineError>
    ensures { result ≡ at_most row entry most list.now.items }
{
    unless_held(list.len() <= most, value_at(row, entry, 0))
}
