//! From a file's bytes to its machine.
ghost use Rattle.std.specs.Prelude.{◌≡◌, ◌≤◌, length, IfOk, IfErr, OnOk};
ghost use Rattle.toml.specs.View.{table_view};
ghost use Rattle.clk_base.specs.First.{first};
ghost use Rattle.clk_machine.specs.Plan.{plan_of};
ghost use Rattle.clk_machine.specs.Short.{IsWellFormed};
ghost use Rattle.clk_file.specs.Document.{document};
ghost use Rattle.clk_file.specs.Described.{plan_in};
ghost use Rattle.clk_file.specs.Acceptance.{accepted, IsMemory};
ghost use Rattle.clk_file.specs.Shape.{shape_tests};
ghost use Rattle.clk_file.specs.Parts.{IsRefusedShape};

use crate::error::{FileError, TableError};
use crate::parts::parts_of;
use clk_machine::{Machine, Parts};
use std::alloc::{AllocError, Global};
use toml::Table;

/// The machine that a file's bytes are, at most 1 MiB of them.
///
/// The error is the first failing test, in the order of the rows of the format: `NotToml` exactly where the bytes are
/// no UTF-8 or no TOML, `Key`, `Value`, `Word` and `Cpu` with the place of the key at fault, and `Tickets` where all
/// else passes. `Memory` says nothing of the file, and may come before any of them is known.
pub fn read_machine(alloc: Global, bytes: &[u8]) -> Result<Machine, FileError>
    requires { length bytes.now ≤ 1048576 }
    ensures machine { IfOk result (λ m. accepted bytes.now ≡ Ok m) }
    ensures refused { IfErr result (λ e. ¬ IsMemory e → accepted bytes.now ≡ Err e) }
{
    let table = table_of(alloc, bytes)?;
    let parts = formed(alloc, &table)?;
    match Machine::new(parts) {
        Ok(machine) => Ok(machine),
        Err(error) => Err(FileError::from(TableError::from(error))),
    }
}

/// The table that the bytes are.
fn table_of(alloc: Global, bytes: &[u8]) -> Result<Table, FileError>
    ensures ok { IfOk result (λ t. document bytes.now ≡ Some (table_view t)) }
    ensures not_toml { IfErr result (λ e. ¬ IsMemory e → (e ≡ FileError.NotToml) × (document bytes.now ≡ None)) }
{
    match toml::table_from_slice(alloc, bytes) {
        Ok(table) => Ok(table),
        Err(error) if error.is_memory() => Err(FileError::Memory(AllocError)),
        Err(_) => Err(FileError::NotToml),
    }
}

/// The parts of the machine that a table describes, where its shape passes. The ranges of the parts are not tested yet.
fn formed(alloc: Global, table: &Table) -> Result<Parts, FileError>
    ensures value { IfOk result (λ p. plan_of p ≡ plan_in (table_view table.now)) }
    ensures well_formed { IfOk result (λ p. IsWellFormed (plan_of p)) }
    ensures passed { OnOk result (first (shape_tests (table_view table.now)) ≡ None) }
    ensures refused { IfErr result (λ e. ¬ IsMemory e → IsRefusedShape (table_view table.now) e) }
{
    let mut refusal = None;
    let parts = parts_of(alloc, table, &mut refusal).map_err(FileError::Memory)?;
    match refusal {
        None => Ok(parts),
        Some(error) => Err(FileError::from(error)),
    }
}
