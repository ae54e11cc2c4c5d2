//! The tests of a table's keys. Each keeps the first refusal, so that a later one changes nothing, and gives the value,
//! or what stands for it where there is none.
ghost use Rattle.std.specs.Prelude.{◌≡◌, ◌≤◌, pos, false, map, option_map, Some, if◌then◌else◌};
ghost use Rattle.std.specs.Option.{option_or};
ghost use Rattle.toml.specs.Data.{get_member, as_str, as_integer, as_bool, as_array, as_table};
ghost use Rattle.toml.specs.View.{view, table_view};
ghost use Rattle.clk_machine.specs.Limits.{is_second};
ghost use Rattle.clk_file.specs.Shape.{version_in};
ghost use Rattle.clk_file.specs.Keys.{has_only, known_keys, required, optional, found, integer_or, flag_or, items_at, key_at as key_fault, value_at as value_fault};

use crate::error::TableError;
use clk_machine::{Place, Row};
use toml::{Table, Value};

/// The number of the top table, which has no row.
pub(crate) const TOP_TABLE: u32 = 0;

/// The later version of the format, which has more keys.
const SECOND: i64 = 2;

/// Keeps the first refusal.
pub(crate) fn refuse(refusal: &mut Option<TableError>, error: TableError)
    ensures { refusal.new ≡ option_or refusal.old (Some error) }
{
    if refusal.is_none() {
        *refusal = Some(error);
    }
}

/// The refusal of a key.
fn key_at(row: Row, entry: u32) -> TableError
    ensures { result ≡ key_fault row entry }
{
    TableError::Key(Place {
        row: row.number(),
        entry,
        item: 0,
    })
}

/// The refusal of a value.
pub(crate) fn value_at(row: Row, entry: u32, item: u32) -> TableError
    ensures { result ≡ value_fault row entry item }
{
    TableError::Value(Place {
        row: row.number(),
        entry,
        item,
    })
}

/// The value at a key.
fn value_of<'a>(table: &'a Table, key: &str) -> Option<&'a Value>
    ensures { option_map (λ v. view v.now) result ≡ get_member key.now (table_view table.now) }
{
    table.get(key)
}

/// Whether each key of the table is one of the names.
fn has_only(table: &Table, names: &[&str]) -> bool
    ensures { result ≡ has_only (map (λ n. n.now) names.now) (table_view table.now) }
{
    table.keys().all(|key| names.contains(&key.as_str()))
}

/// A table has no other keys. `number` is that of its row, or [`TOP_TABLE`].
pub(crate) fn known_keys(
    table: &Table,
    names: &[&str],
    number: u32,
    entry: u32,
    refusal: &mut Option<TableError>,
)
    requires { number ≤ 46 }
    ensures { refusal.new ≡ option_or refusal.old (known_keys number entry (map (λ n. n.now) names.now) (table_view table.now)) }
{
    if !has_only(table, names) {
        let place = Place {
            row: number + 100,
            entry,
            item: 0,
        };
        refuse(refusal, TableError::Key(place));
    }
}

/// The version that a file names: 0 where it names none. It is not tested here.
pub(crate) fn version_of(top: &Table) -> i64
    ensures { result ≡ version_in (table_view top.now) }
{
    let mut untold = None;
    integer_or(top, "version", 0, Row::Version, 0, &mut untold)
}

/// The keys of a table, by the version of its file.
pub(crate) fn by_version<'a>(
    version: i64,
    first: &'a [&'a str],
    second: &'a [&'a str],
) -> &'a [&'a str]
    ensures { map (λ n. n.now) result.now ≡ (if is_second version then map (λ n. n.now) second.now else map (λ n. n.now) first.now) }
{
    if version == SECOND { second } else { first }
}

/// An integer that must be there.
#[tactic(auto, unfolding(crate::specs::Keys::required, crate::specs::Keys::found))]
pub(crate) fn integer(
    table: &Table,
    key: &str,
    row: Row,
    entry: u32,
    refusal: &mut Option<TableError>,
) -> i64
    ensures test { refusal.new ≡ option_or refusal.old (required as_integer row entry key.now (table_view table.now)) }
    ensures value { result ≡ integer_or (pos 0) key.now (table_view table.now) }
{
    let Some(value) = value_of(table, key) else {
        refuse(refusal, key_at(row, entry));
        return 0;
    };
    let Some(integer) = value.as_integer() else {
        refuse(refusal, value_at(row, entry, 0));
        return 0;
    };
    integer
}

/// An integer, or its default.
#[tactic(auto, unfolding(crate::specs::Keys::optional, crate::specs::Keys::found))]
pub(crate) fn integer_or(
    table: &Table,
    key: &str,
    default: i64,
    row: Row,
    entry: u32,
    refusal: &mut Option<TableError>,
) -> i64
    ensures test { refusal.new ≡ option_or refusal.old (optional as_integer row entry key.now (table_view table.now)) }
    ensures value { result ≡ integer_or default key.now (table_view table.now) }
{
    let Some(value) = value_of(table, key) else {
        return default;
    };
    let Some(integer) = value.as_integer() else {
        refuse(refusal, value_at(row, entry, 0));
        return default;
    };
    integer
}

/// A Boolean that must be there.
#[tactic(auto, unfolding(crate::specs::Keys::required, crate::specs::Keys::found))]
pub(crate) fn flag(
    table: &Table,
    key: &str,
    row: Row,
    entry: u32,
    refusal: &mut Option<TableError>,
) -> bool
    ensures test { refusal.new ≡ option_or refusal.old (required as_bool row entry key.now (table_view table.now)) }
    ensures value { result ≡ flag_or false key.now (table_view table.now) }
{
    let Some(value) = value_of(table, key) else {
        refuse(refusal, key_at(row, entry));
        return false;
    };
    let Some(flag) = value.as_bool() else {
        refuse(refusal, value_at(row, entry, 0));
        return false;
    };
    flag
}

/// A Boolean, or false.
#[tactic(auto, unfolding(crate::specs::Keys::optional, crate::specs::Keys::found))]
pub(crate) fn flag_or_false(
    table: &Table,
    key: &str,
    row: Row,
    entry: u32,
    refusal: &mut Option<TableError>,
) -> bool
    ensures test { refusal.new ≡ option_or refusal.old (optional as_bool row entry key.now (table_view table.now)) }
    ensures value { result ≡ flag_or false key.now (table_view table.now) }
{
    let Some(value) = value_of(table, key) else {
        return false;
    };
    let Some(flag) = value.as_bool() else {
        refuse(refusal, value_at(row, entry, 0));
        return false;
    };
    flag
}

/// A string, which is not kept.
#[tactic(auto, unfolding(crate::specs::Keys::optional))]
pub(crate) fn string(
    table: &Table,
    key: &str,
    row: Row,
    entry: u32,
    refusal: &mut Option<TableError>,
)
    ensures { refusal.new ≡ option_or refusal.old (optional as_str row entry key.now (table_view table.now)) }
{
    if let Some(value) = value_of(table, key) {
        if !value.is_str() {
            refuse(refusal, value_at(row, entry, 0));
        }
    }
}

/// A table that must be there.
#[tactic(auto, unfolding(crate::specs::Keys::required, crate::specs::Keys::found))]
pub(crate) fn table<'a>(
    table: &'a Table,
    key: &str,
    row: Row,
    refusal: &mut Option<TableError>,
) -> Option<&'a Table>
    ensures test { refusal.new ≡ option_or refusal.old (required as_table row 0 key.now (table_view table.now)) }
    ensures value { option_map (λ t. table_view t.now) result ≡ found as_table key.now (table_view table.now) }
{
    let Some(value) = value_of(table, key) else {
        refuse(refusal, key_at(row, 0));
        return None;
    };
    let inner = value.as_table();
    if inner.is_none() {
        refuse(refusal, value_at(row, 0, 0));
    }
    inner
}

/// A table, if it is there.
#[tactic(auto, unfolding(crate::specs::Keys::optional, crate::specs::Keys::found))]
pub(crate) fn table_if_there<'a>(
    table: &'a Table,
    key: &str,
    row: Row,
    refusal: &mut Option<TableError>,
) -> Option<&'a Table>
    ensures test { refusal.new ≡ option_or refusal.old (optional as_table row 0 key.now (table_view table.now)) }
    ensures value { option_map (λ t. table_view t.now) result ≡ found as_table key.now (table_view table.now) }
{
    let inner = value_of(table, key)?.as_table();
    if inner.is_none() {
        refuse(refusal, value_at(row, 0, 0));
    }
    inner
}

/// The items of an array that must be there.
#[tactic(auto, unfolding(crate::specs::Keys::required, crate::specs::Keys::found, crate::specs::Keys::items_at))]
pub(crate) fn array<'a>(
    table: &'a Table,
    key: &str,
    row: Row,
    refusal: &mut Option<TableError>,
) -> &'a [Value]
    ensures test { refusal.new ≡ option_or refusal.old (required as_array row 0 key.now (table_view table.now)) }
    ensures value { map view result.now ≡ items_at key.now (table_view table.now) }
{
    let Some(value) = value_of(table, key) else {
        refuse(refusal, key_at(row, 0));
        return &[];
    };
    let Some(values) = value.as_array() else {
        refuse(refusal, value_at(row, 0, 0));
        return &[];
    };
    values.as_slice()
}

/// The items of an array, or none.
#[tactic(auto, unfolding(crate::specs::Keys::optional, crate::specs::Keys::found, crate::specs::Keys::items_at))]
pub(crate) fn array_or_empty<'a>(
    table: &'a Table,
    key: &str,
    row: Row,
    entry: u32,
    refusal: &mut Option<TableError>,
) -> &'a [Value]
    ensures test { refusal.new ≡ option_or refusal.old (optional as_array row entry key.now (table_view table.now)) }
    ensures value { map view result.now ≡ items_at key.now (table_view table.now) }
{
    let Some(value) = value_of(table, key) else {
        return &[];
    };
    let Some(values) = value.as_array() else {
        refuse(refusal, value_at(row, entry, 0));
        return &[];
    };
    values.as_slice()
}
