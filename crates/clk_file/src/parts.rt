//! The parts of the machine, row by row through the top table.
ghost use Rattle.std.specs.Prelude.{◌≡◌, IfOk, OnOk};
ghost use Rattle.std.specs.Option.{option_or};
ghost use Rattle.toml.specs.View.{table_view};
ghost use Rattle.clk_base.specs.First.{first_from};
ghost use Rattle.clk_machine.specs.Plan.{plan_of};
ghost use Rattle.clk_machine.specs.Short.{IsWellFormed};
ghost use Rattle.clk_file.specs.Described.{plan_in};
ghost use Rattle.clk_file.specs.Shape.{shape_tests};

use crate::entries::{cpus_of, delays_of, readers_of, sources_of};
use crate::error::TableError;
use crate::keys::{TOP_TABLE, by_version, known_keys, version_of};
use crate::tables::{bring_up_of, numbers_of, reference_of, watchdog_of};
use clk_machine::Parts;
use std::alloc::{AllocError, Global};
use toml::Table;

/// The keys of a file, in version 1 and in version 2.
const TOP_KEYS: [&str; 14] = [
    "version",
    "cpus",
    "step",
    "tick",
    "bits",
    "nominal_khz",
    "stable",
    "reference",
    "cpu",
    "reader",
    "delay",
    "bringup",
    "watchdog",
    "source",
];

const SECOND_TOP_KEYS: [&str; 15] = [
    "version",
    "cpus",
    "step",
    "tick",
    "bits",
    "nominal_khz",
    "stable",
    "reference",
    "cpu",
    "reader",
    "delay",
    "bringup",
    "watchdog",
    "source",
    "base",
];

/// The parts of the machine that a table describes. The first refusal is that of the table's shape: the ranges of the
/// parts are not tested yet.
pub(crate) fn parts_of(
    alloc: Global,
    top: &Table,
    refusal: &mut Option<TableError>,
) -> Result<Parts, AllocError>
    ensures test { OnOk result (refusal.new ≡ first_from refusal.old (shape_tests (table_view top.now))) }
    ensures value { IfOk result (λ p. plan_of p ≡ plan_in (table_view top.now)) }
    ensures well_formed { IfOk result (λ p. IsWellFormed (plan_of p)) }
{
    let keys = by_version(version_of(top), &TOP_KEYS, &SECOND_TOP_KEYS);
    known_keys(top, keys, TOP_TABLE, 0, refusal);
    let numbers = numbers_of(top, refusal);
    let reference = reference_of(top, refusal);
    let cpu = cpus_of(alloc, top, &numbers, refusal)?;
    let reader = readers_of(alloc, top, &numbers, refusal)?;
    let delay = delays_of(alloc, top, &numbers, refusal)?;
    let bringup = bring_up_of(top, numbers.version, refusal);
    let watchdog = watchdog_of(top, refusal);
    let source = sources_of(alloc, top, &numbers, refusal)?;
    Ok(Parts {
        version: numbers.version,
        base: numbers.base,
        cpus: numbers.cpus,
        step: numbers.step,
        tick: numbers.tick,
        bits: numbers.bits,
        nominal_khz: numbers.nominal_khz,
        stable: numbers.stable,
        reference,
        cpu,
        reader,
        delay,
        bringup,
        watchdog,
        source,
    })
}
