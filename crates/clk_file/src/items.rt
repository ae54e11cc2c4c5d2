//! The items of scripts and of lists of jumps.
ghost use Rattle.std.specs.Prelude.{◌≡◌, ◌<◌, ◌^◌, map, option_map, option_and_then, length, IfOk, OnOk};
ghost use Rattle.std.specs.Result.{result_ok, result_err};
ghost use Rattle.toml.specs.Data.{as_str};
ghost use Rattle.toml.specs.View.{view, table_view};
ghost use Rattle.clk_base.specs.First.{first_from};
ghost use Rattle.clk_machine.specs.Plan.{jump_plan, script_plan};
ghost use Rattle.clk_machine.specs.Short.{IsShort};
ghost use Rattle.clk_file.specs.Words.{word_in as word_of_text};
ghost use Rattle.clk_file.specs.Shape.{jump_of, word_test};
ghost use Rattle.clk_file.specs.Described.{jumps_in, words_in, script_in};
ghost use Rattle.clk_file.specs.Parts.{jumps_tests, words_tests, script_tests};

use crate::error::TableError;
use crate::keys::{array_or_empty, integer_or, refuse, value_at};
use crate::words::{Thread, word_in};
use clk_machine::{Jump, Place, Row, Script, Word};
use clk_num::List;
use std::alloc::{AllocError, Global};
use toml::{Table, Value};

/// An array has fewer than 2^32 items: more take more bytes than a file has, and are answered as want of memory.
pub(crate) fn check_length(values: &[Value]) -> Result<(), AllocError>
    ensures { OnOk result (length values.now < 2 ^ 32) }
{
    if values.len() < 1 << 32 {
        Ok(())
    } else {
        Err(AllocError)
    }
}

/// The jump that a pair of integers is.
#[tactic(auto, unfolding(crate::specs::Shape::jump_of))]
fn jump_of(value: &Value) -> Option<Jump>
    ensures { option_map jump_plan result ≡ jump_of (view value.now) }
{
    let pair = value.as_array()?;
    if pair.len() != 2 {
        return None;
    }
    let at = pair[0].as_integer()?;
    let cycles = pair[1].as_integer()?;
    Some(Jump::new(at, cycles))
}

/// The jumps of a counter.
pub(crate) fn jumps_of(
    alloc: Global,
    table: &Table,
    row: Row,
    entry: u32,
    refusal: &mut Option<TableError>,
) -> Result<List<Jump>, AllocError>
    ensures test { OnOk result (refusal.new ≡ first_from refusal.old (jumps_tests row entry (table_view table.now))) }
    ensures value { IfOk result (λ l. map jump_plan l.items ≡ jumps_in (table_view table.now)) }
    ensures short { IfOk result (λ l. IsShort l.items) }
{
    let values = array_or_empty(table, "jumps", row, entry, refusal);
    check_length(values)?;
    let mut jumps = List::with_room(alloc, values.len())?;
    for (i, value) in values.iter().enumerate() {
        match jump_of(value) {
            Some(jump) => jumps.push(jump),
            None => refuse(refusal, value_at(row, entry, i as u32 + 1)),
        }
    }
    Ok(jumps)
}

/// The script word that an item is, or why it is none.
#[tactic(auto, unfolding(crate::specs::Shape::word_test))]
fn word_at(
    thread: Thread,
    value: &Value,
    row: Row,
    entry: u32,
    item: u32,
) -> Result<Word, TableError>
    ensures test { result_err result ≡ word_test thread row entry item (view value.now) }
    ensures value { result_ok result ≡ option_and_then (word_of_text thread) (as_str (view value.now)) }
{
    let place = Place {
        row: row.number(),
        entry,
        item,
    };
    let Some(text) = value.as_str() else {
        return Err(TableError::Value(place));
    };
    match word_in(thread, text) {
        Some(word) => Ok(word),
        None => Err(TableError::Word(place)),
    }
}

/// The words of a script.
fn words_of(
    alloc: Global,
    table: &Table,
    thread: Thread,
    row: Row,
    entry: u32,
    refusal: &mut Option<TableError>,
) -> Result<List<Word>, AllocError>
    ensures test { OnOk result (refusal.new ≡ first_from refusal.old (words_tests thread row entry (table_view table.now))) }
    ensures value { IfOk result (λ l. l.items ≡ words_in thread (table_view table.now)) }
    ensures short { IfOk result (λ l. IsShort l.items) }
{
    let values = array_or_empty(table, "script", row, entry, refusal);
    check_length(values)?;
    let mut words = List::with_room(alloc, values.len())?;
    for (i, value) in values.iter().enumerate() {
        match word_at(thread, value, row, entry, i as u32 + 1) {
            Ok(word) => words.push(word),
            Err(error) => refuse(refusal, error),
        }
    }
    Ok(words)
}

/// A script, by the rows of its repeat and of its words.
pub(crate) fn script_of(
    alloc: Global,
    table: &Table,
    thread: Thread,
    repeat: Row,
    row: Row,
    entry: u32,
    refusal: &mut Option<TableError>,
) -> Result<Script, AllocError>
    ensures test { OnOk result (refusal.new ≡ first_from refusal.old (script_tests thread repeat row entry (table_view table.now))) }
    ensures value { IfOk result (λ s. script_plan s ≡ script_in thread (table_view table.now)) }
    ensures short { IfOk result (λ s. IsShort s.words.items) }
{
    let times = integer_or(table, "repeat", 1, repeat, entry, refusal);
    let words = words_of(alloc, table, thread, row, entry, refusal)?;
    Ok(Script {
        repeat: times,
        words,
    })
}
