//! How a place in a machine file is printed.
use clk_machine::{Place, ROW_NAMES};
use std::fmt;

/// An unknown key has the row of its table plus this.
const UNKNOWN: u32 = 100;

/// The table and the key of a row.
fn names_of(row: u32) -> (&'static str, &'static str) {
    match ROW_NAMES.get((row as usize).wrapping_sub(1)) {
        Some(names) => *names,
        None => ("", ""),
    }
}

/// A place as a path: `step`, `cpu[0].khz`, `cpu[0].script[1]`, `reference.?` for an unknown key.
#[derive(Clone, Copy)]
pub(crate) struct Path(pub Place);

impl fmt::Display for Path {
    fn fmt<W: fmt::Write>(&self, f: &mut fmt::Formatter<W>) -> fmt::Result {
        let Path(place) = *self;
        let (table, key) = if place.row < UNKNOWN {
            names_of(place.row)
        } else {
            (names_of(place.row - UNKNOWN).0, "?")
        };
        write!(f, "{table}")?;
        if place.entry > 0 {
            write!(f, "[{}]", place.entry - 1)?;
        }
        if !table.is_empty() && !key.is_empty() {
            write!(f, ".")?;
        }
        write!(f, "{key}")?;
        if place.item > 0 {
            write!(f, "[{}]", place.item - 1)?;
        }
        Ok(())
    }
}
