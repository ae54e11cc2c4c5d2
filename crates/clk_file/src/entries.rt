//! The arrays of tables: the CPUs, the readers, the delays and the sources.
ghost use Rattle.std.specs.Prelude.{◌≡◌, ℕ, List, map, codes, IfOk, OnOk};
ghost use Rattle.std.specs.Option.{option_or};
ghost use Rattle.std.specs.List.{All, filter_map};
ghost use Rattle.toml.specs.Data.{Members, as_table};
ghost use Rattle.toml.specs.View.{view, table_view};
ghost use Rattle.clk_base.specs.First.{first_from, each};
ghost use Rattle.clk_machine.specs.declared.rows.Row.TheVariants as rows;
ghost use Rattle.clk_machine.specs.Plan.{CpuPlan, ReaderPlan, DelayPlan, SourcePlan, cpu_plan, reader_plan, delay_plan, source_plan};
ghost use Rattle.clk_machine.specs.Short.{IsShort, IsShortCpu, IsShortReader, IsShortSource};
ghost use Rattle.clk_file.specs.declared.tables.Numbers.{Numbers};
ghost use Rattle.clk_file.specs.Keys.{Test, in_entry, tables_at};
ghost use Rattle.clk_file.specs.Shape.{cpu_tests, reader_tests, delay_tests, source_tests};
ghost use Rattle.clk_file.specs.Described.{cpu_in, reader_in, delay_in, own_in, other_in, source_in};
ghost use Rattle.clk_file.specs.Parts.{required_entries, optional_entries, own_rows, other_rows};

use crate::error::TableError;
use crate::items::{check_length, jumps_of, script_of};
use crate::keys::{
    array, array_or_empty, by_version, flag_or_false, integer, integer_or, known_keys, refuse,
    string, value_at,
};
use crate::tables::Numbers;
use crate::words::Thread;
use clk_machine::{CpuPart, Delay, ReaderPart, Row, SourcePart};
use clk_num::List;
use std::alloc::{AllocError, Global};
use toml::{Table, Value};

/// The keys of a CPU, in version 1 and in version 2.
const CPU_KEYS: [&str; 5] = ["khz", "offset", "jumps", "repeat", "script"];

const SECOND_CPU_KEYS: [&str; 6] = ["khz", "offset", "jumps", "repeat", "script", "socket"];

/// The keys of a source that is the CPUs' own counter.
const OWN_KEYS: [&str; 4] = ["name", "tsc", "rating", "margin"];

/// The keys of every other source.
const OTHER_KEYS: [&str; 8] = [
    "name",
    "tsc",
    "rating",
    "margin",
    "nominal_khz",
    "khz",
    "bits",
    "jumps",
];

/// What stands in a table of an array.
trait Entry: Drop {
    ghost Plan: { Type 0 };

    ghost plan: { Self → Plan };

    // The tests of such a table, and what it is read as.
    ghost tests: { Numbers → ℕ → Members → List Test };

    ghost read_as: { Numbers → Members → Plan };

    // What a reader of the table says of its lists.
    ghost HasShort: { Numbers → Plan → Type 0 };

    fn read(
        alloc: Global,
        table: &Table,
        numbers: &Numbers,
        entry: u32,
        refusal: &mut Option<TableError>,
    ) -> Result<Self, AllocError>
        ensures test { OnOk result (refusal.new ≡ first_from refusal.old (tests numbers.now entry (table_view table.now))) }
        ensures value { IfOk result (λ e. plan e ≡ read_as numbers.now (table_view table.now)) }
        ensures short { IfOk result (λ e. HasShort numbers.now (plan e)) };
}

/// The entries of an array, whose row is `row`.
fn entries_of<E: Entry>(
    alloc: Global,
    values: &[Value],
    row: Row,
    numbers: &Numbers,
    refusal: &mut Option<TableError>,
) -> Result<List<E>, AllocError>
    ensures test { OnOk result (refusal.new ≡ option_or refusal.old (each (in_entry row (E.tests numbers.now)) 1 (map view values.now))) }
    ensures value { IfOk result (λ l. map E.plan l.items ≡ map (E.read_as numbers.now) (filter_map as_table (map view values.now))) }
    ensures short { IfOk result (λ l. IsShort l.items) }
    ensures each_short { IfOk result (λ l. All (E.HasShort numbers.now) (map E.plan l.items)) }
{
    check_length(values)?;
    let mut entries = List::with_room(alloc, values.len())?;
    for (i, value) in values.iter().enumerate() {
        let entry = i as u32 + 1;
        match value.as_table() {
            Some(table) => entries.push(E::read(alloc, table, numbers, entry, refusal)?),
            None => refuse(refusal, value_at(row, entry, 0)),
        }
    }
    Ok(entries)
}

/// The CPUs.
#[tactic(auto, unfolding(crate::specs::Keys::tables_at))]
pub(crate) fn cpus_of(
    alloc: Global,
    top: &Table,
    numbers: &Numbers,
    refusal: &mut Option<TableError>,
) -> Result<List<CpuPart>, AllocError>
    ensures test { OnOk result (refusal.new ≡ first_from refusal.old (required_entries rows.Cpu (codes "cpu") (cpu_tests numbers.now.version) (table_view top.now))) }
    ensures value { IfOk result (λ l. map cpu_plan l.items ≡ map (cpu_in numbers.now.nominal_khz) (tables_at (codes "cpu") (table_view top.now))) }
    ensures short { IfOk result (λ l. IsShort l.items) }
    ensures each_short { IfOk result (λ l. All IsShortCpu (map cpu_plan l.items)) }
{
    let values = array(top, "cpu", Row::Cpu, refusal);
    entries_of(alloc, values, Row::Cpu, numbers, refusal)
}

impl Entry for CpuPart {
    ghost Plan = { CpuPlan };

    ghost plan = { cpu_plan };

    ghost tests = { λ n. cpu_tests n.version };

    ghost read_as = { λ n. cpu_in n.nominal_khz };

    ghost HasShort = { λ _. IsShortCpu };

    fn read(
        alloc: Global,
        table: &Table,
        numbers: &Numbers,
        entry: u32,
        refusal: &mut Option<TableError>,
    ) -> Result<CpuPart, AllocError> {
        let keys = by_version(numbers.version, &CPU_KEYS, &SECOND_CPU_KEYS);
        known_keys(table, keys, Row::Cpu.number(), entry, refusal);
        let khz = integer_or(
            table,
            "khz",
            numbers.nominal_khz,
            Row::CpuKhz,
            entry,
            refusal,
        );
        let offset = integer_or(table, "offset", 0, Row::CpuOffset, entry, refusal);
        let socket = integer_or(table, "socket", 0, Row::CpuSocket, entry, refusal);
        let jumps = jumps_of(alloc, table, Row::CpuJumps, entry, refusal)?;
        let script = script_of(
            alloc,
            table,
            Thread::Cpu,
            Row::CpuRepeat,
            Row::CpuScript,
            entry,
            refusal,
        )?;
        Ok(CpuPart {
            khz,
            offset,
            socket,
            jumps,
            script,
        })
    }
}

/// The readers.
#[tactic(auto, unfolding(crate::specs::Keys::tables_at))]
pub(crate) fn readers_of(
    alloc: Global,
    top: &Table,
    numbers: &Numbers,
    refusal: &mut Option<TableError>,
) -> Result<List<ReaderPart>, AllocError>
    ensures test { OnOk result (refusal.new ≡ first_from refusal.old (optional_entries rows.Reader (codes "reader") reader_tests (table_view top.now))) }
    ensures value { IfOk result (λ l. map reader_plan l.items ≡ map reader_in (tables_at (codes "reader") (table_view top.now))) }
    ensures short { IfOk result (λ l. IsShort l.items) }
    ensures each_short { IfOk result (λ l. All IsShortReader (map reader_plan l.items)) }
{
    let values = array_or_empty(top, "reader", Row::Reader, 0, refusal);
    entries_of(alloc, values, Row::Reader, numbers, refusal)
}

impl Entry for ReaderPart {
    ghost Plan = { ReaderPlan };

    ghost plan = { reader_plan };

    ghost tests = { λ _. reader_tests };

    ghost read_as = { λ _. reader_in };

    ghost HasShort = { λ _. IsShortReader };

    fn read(
        alloc: Global,
        table: &Table,
        numbers: &Numbers,
        entry: u32,
        refusal: &mut Option<TableError>,
    ) -> Result<ReaderPart, AllocError> {
        known_keys(
            table,
            &["cpu", "repeat", "script"],
            Row::Reader.number(),
            entry,
            refusal,
        );
        let cpu = integer(table, "cpu", Row::ReaderCpu, entry, refusal);
        let script = script_of(
            alloc,
            table,
            Thread::Reader,
            Row::ReaderRepeat,
            Row::ReaderScript,
            entry,
            refusal,
        )?;
        Ok(ReaderPart { cpu, script })
    }
}

/// The delays.
#[tactic(auto, unfolding(crate::specs::Keys::tables_at))]
pub(crate) fn delays_of(
    alloc: Global,
    top: &Table,
    numbers: &Numbers,
    refusal: &mut Option<TableError>,
) -> Result<List<Delay>, AllocError>
    ensures test { OnOk result (refusal.new ≡ first_from refusal.old (optional_entries rows.Delay (codes "delay") delay_tests (table_view top.now))) }
    ensures value { IfOk result (λ l. map delay_plan l.items ≡ map delay_in (tables_at (codes "delay") (table_view top.now))) }
    ensures short { IfOk result (λ l. IsShort l.items) }
{
    let values = array_or_empty(top, "delay", Row::Delay, 0, refusal);
    entries_of(alloc, values, Row::Delay, numbers, refusal)
}

impl Entry for Delay {
    ghost Plan = { DelayPlan };

    ghost plan = { delay_plan };

    ghost tests = { λ _. delay_tests };

    ghost read_as = { λ _. delay_in };

    ghost HasShort = { λ _ _. Unit {0} };

    fn read(
        alloc: Global,
        table: &Table,
        numbers: &Numbers,
        entry: u32,
        refusal: &mut Option<TableError>,
    ) -> Result<Delay, AllocError> {
        known_keys(
            table,
            &["ticket", "ns"],
            Row::Delay.number(),
            entry,
            refusal,
        );
        let ticket = integer(table, "ticket", Row::DelayTicket, entry, refusal);
        let ns = integer(table, "ns", Row::DelayNs, entry, refusal);
        Ok(Delay::new(ticket, ns))
    }
}

/// The sources.
#[tactic(auto, unfolding(crate::specs::Keys::tables_at))]
pub(crate) fn sources_of(
    alloc: Global,
    top: &Table,
    numbers: &Numbers,
    refusal: &mut Option<TableError>,
) -> Result<List<SourcePart>, AllocError>
    ensures test { OnOk result (refusal.new ≡ first_from refusal.old (optional_entries rows.Source (codes "source") source_tests (table_view top.now))) }
    ensures value { IfOk result (λ l. map source_plan l.items ≡ map (source_in numbers.now.nominal_khz numbers.now.bits) (tables_at (codes "source") (table_view top.now))) }
    ensures short { IfOk result (λ l. IsShort l.items) }
    ensures each_short { IfOk result (λ l. All (IsShortSource numbers.now.nominal_khz numbers.now.bits) (map source_plan l.items)) }
{
    let values = array_or_empty(top, "source", Row::Source, 0, refusal);
    entries_of(alloc, values, Row::Source, numbers, refusal)
}

impl Entry for SourcePart {
    ghost Plan = { SourcePlan };

    ghost plan = { source_plan };

    ghost tests = { λ _. source_tests };

    ghost read_as = { λ n. source_in n.nominal_khz n.bits };

    ghost HasShort = { λ n. IsShortSource n.nominal_khz n.bits };

    fn read(
        alloc: Global,
        table: &Table,
        numbers: &Numbers,
        entry: u32,
        refusal: &mut Option<TableError>,
    ) -> Result<SourcePart, AllocError> {
        if flag_or_false(table, "tsc", Row::SourceTsc, entry, refusal) {
            Ok(own_source(alloc, table, numbers, entry, refusal))
        } else {
            other_source(alloc, table, entry, refusal)
        }
    }
}

/// A source that is the CPUs' own counter: it has the machine's nominal rate and width, and no jumps.
fn own_source(
    alloc: Global,
    table: &Table,
    numbers: &Numbers,
    entry: u32,
    refusal: &mut Option<TableError>,
) -> SourcePart
    ensures test { refusal.new ≡ first_from refusal.old (own_rows entry (table_view table.now)) }
    ensures value { source_plan result ≡ own_in numbers.now.nominal_khz numbers.now.bits (table_view table.now) }
{
    known_keys(table, &OWN_KEYS, Row::Source.number(), entry, refusal);
    string(table, "name", Row::SourceName, entry, refusal);
    let rating = integer(table, "rating", Row::SourceRating, entry, refusal);
    let margin = integer(table, "margin", Row::SourceMargin, entry, refusal);
    SourcePart {
        tsc: true,
        rating,
        margin,
        khz: numbers.nominal_khz,
        nominal_khz: numbers.nominal_khz,
        bits: numbers.bits,
        jumps: List::from_vec(Vec::new(alloc)),
    }
}

/// Every other source, with rows of its own.
fn other_source(
    alloc: Global,
    table: &Table,
    entry: u32,
    refusal: &mut Option<TableError>,
) -> Result<SourcePart, AllocError>
    ensures test { OnOk result (refusal.new ≡ first_from refusal.old (other_rows entry (table_view table.now))) }
    ensures value { IfOk result (λ s. source_plan s ≡ other_in (table_view table.now)) }
    ensures short { IfOk result (λ s. IsShort s.jumps.items) }
{
    known_keys(table, &OTHER_KEYS, Row::Source.number(), entry, refusal);
    string(table, "name", Row::SourceName, entry, refusal);
    let rating = integer(table, "rating", Row::SourceRating, entry, refusal);
    let margin = integer(table, "margin", Row::SourceMargin, entry, refusal);
    let nominal_khz = integer(table, "nominal_khz", Row::SourceNominalKhz, entry, refusal);
    let khz = integer_or(table, "khz", nominal_khz, Row::SourceKhz, entry, refusal);
    let bits = integer_or(table, "bits", 64, Row::SourceBits, entry, refusal);
    let jumps = jumps_of(alloc, table, Row::SourceJumps, entry, refusal)?;
    Ok(SourcePart {
        tsc: false,
        rating,
        margin,
        khz,
        nominal_khz,
        bits,
        jumps,
    })
}
