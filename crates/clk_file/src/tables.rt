//! The rows that stand alone: the machine's own numbers, the reference, the bring-up and the watchdog.
ghost use Rattle.std.specs.Prelude.{◌≡◌, codes, option_map, unwrap_or};
ghost use Rattle.std.specs.Option.{option_or};
ghost use Rattle.toml.specs.Data.{no_members, as_table};
ghost use Rattle.toml.specs.View.{table_view};
ghost use Rattle.clk_base.specs.First.{first_from};
ghost use Rattle.clk_file.specs.Keys.{found};
ghost use Rattle.clk_file.specs.Shape.{number_tests, reference_tests, bring_up_tests, watch_tests};
ghost use Rattle.clk_file.specs.Described.{reference_in, bring_up_in, watch_in};
ghost use Rattle.clk_file.specs.Parts.{AreNumbers, reference_rows, bring_up_rows, watch_rows};

use crate::error::TableError;
use crate::keys::{by_version, flag, integer, integer_or, known_keys, table, table_if_there};
use clk_machine::{BringUpPart, ReferencePart, Row, WatchPart};
use toml::Table;

/// The keys of a bring-up, in version 1 and in version 2.
const BRING_UP_KEYS: [&str; 3] = ["adjust", "timeout_us", "turns"];

const SECOND_BRING_UP_KEYS: [&str; 4] = ["adjust", "timeout_us", "turns", "first_us"];

/// The numbers of a file that stand in no table of their own.
#[derive(Drop)]
pub(crate) struct Numbers {
    pub version: i64,
    pub cpus: i64,
    pub step: i64,
    pub tick: i64,
    pub bits: i64,
    pub nominal_khz: i64,
    pub stable: bool,
    pub base: i64,
}

/// The machine's own numbers.
pub(crate) fn numbers_of(top: &Table, refusal: &mut Option<TableError>) -> Numbers
    ensures test { refusal.new ≡ first_from refusal.old (number_tests (table_view top.now)) }
    ensures value { AreNumbers (table_view top.now) result }
{
    Numbers {
        version: integer(top, "version", Row::Version, 0, refusal),
        cpus: integer(top, "cpus", Row::Cpus, 0, refusal),
        step: integer(top, "step", Row::Step, 0, refusal),
        tick: integer_or(top, "tick", 1_000_000, Row::Tick, 0, refusal),
        bits: integer_or(top, "bits", 64, Row::Bits, 0, refusal),
        nominal_khz: integer(top, "nominal_khz", Row::NominalKhz, 0, refusal),
        stable: flag(top, "stable", Row::Stable, 0, refusal),
        base: integer_or(top, "base", 0, Row::Base, 0, refusal),
    }
}

/// The reference. A table that is missing is read as an empty one.
pub(crate) fn reference_of(top: &Table, refusal: &mut Option<TableError>) -> ReferencePart
    ensures test { refusal.new ≡ first_from refusal.old (reference_rows (table_view top.now)) }
    ensures value { result ≡ reference_in (unwrap_or (found as_table (codes "reference") (table_view top.now)) no_members) }
{
    match table(top, "reference", Row::Reference, refusal) {
        Some(part) => reference_at(part, refusal),
        None => ReferencePart {
            khz: 0,
            bits: 64,
            rating: 250,
            margin: 0,
        },
    }
}

fn reference_at(part: &Table, refusal: &mut Option<TableError>) -> ReferencePart
    ensures test { refusal.new ≡ first_from refusal.old (reference_tests (table_view part.now)) }
    ensures value { result ≡ reference_in (table_view part.now) }
{
    known_keys(
        part,
        &["khz", "bits", "rating", "margin"],
        Row::Reference.number(),
        0,
        refusal,
    );
    ReferencePart {
        khz: integer(part, "khz", Row::ReferenceKhz, 0, refusal),
        bits: integer_or(part, "bits", 64, Row::ReferenceBits, 0, refusal),
        rating: integer_or(part, "rating", 250, Row::ReferenceRating, 0, refusal),
        margin: integer_or(part, "margin", 0, Row::ReferenceMargin, 0, refusal),
    }
}

/// The bring-up, if there is one, in a file of this version.
pub(crate) fn bring_up_of(
    top: &Table,
    version: i64,
    refusal: &mut Option<TableError>,
) -> Option<BringUpPart>
    ensures test { refusal.new ≡ first_from refusal.old (bring_up_rows version (table_view top.now)) }
    ensures value { result ≡ option_map bring_up_in (found as_table (codes "bringup") (table_view top.now)) }
{
    let part = table_if_there(top, "bringup", Row::BringUp, refusal)?;
    Some(bring_up_at(part, version, refusal))
}

fn bring_up_at(part: &Table, version: i64, refusal: &mut Option<TableError>) -> BringUpPart
    ensures test { refusal.new ≡ first_from refusal.old (bring_up_tests version (table_view part.now)) }
    ensures value { result ≡ bring_up_in (table_view part.now) }
{
    let keys = by_version(version, &BRING_UP_KEYS, &SECOND_BRING_UP_KEYS);
    known_keys(part, keys, Row::BringUp.number(), 0, refusal);
    let adjust = flag(part, "adjust", Row::BringUpAdjust, 0, refusal);
    let timeout_us = integer(part, "timeout_us", Row::BringUpTimeout, 0, refusal);
    let first_us = integer_or(part, "first_us", timeout_us, Row::BringUpFirst, 0, refusal);
    let turns = integer(part, "turns", Row::BringUpTurns, 0, refusal);
    BringUpPart {
        adjust,
        timeout_us,
        first_us,
        turns,
    }
}

/// The watchdog, if there is one.
pub(crate) fn watchdog_of(top: &Table, refusal: &mut Option<TableError>) -> Option<WatchPart>
    ensures test { refusal.new ≡ first_from refusal.old (watch_rows (table_view top.now)) }
    ensures value { result ≡ option_map watch_in (found as_table (codes "watchdog") (table_view top.now)) }
{
    let part = table_if_there(top, "watchdog", Row::Watchdog, refusal)?;
    Some(watchdog_at(part, refusal))
}

fn watchdog_at(part: &Table, refusal: &mut Option<TableError>) -> WatchPart
    ensures test { refusal.new ≡ first_from refusal.old (watch_tests (table_view part.now)) }
    ensures value { result ≡ watch_in (table_view part.now) }
{
    known_keys(
        part,
        &["checks", "pause", "skew", "retries"],
        Row::Watchdog.number(),
        0,
        refusal,
    );
    WatchPart {
        checks: integer(part, "checks", Row::WatchdogChecks, 0, refusal),
        pause: integer(part, "pause", Row::WatchdogPause, 0, refusal),
        skew: integer(part, "skew", Row::WatchdogSkew, 0, refusal),
        retries: integer(part, "retries", Row::WatchdogRetries, 0, refusal),
    }
}
