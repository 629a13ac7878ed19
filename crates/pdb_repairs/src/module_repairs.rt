//! Removes the broken parts of one module's records.

ghost use Rattle.std.specs.Prelude.{◌≡◌, ◌++◌, OnOk, option_to_list};
ghost use Rattle.pdb_repairs.specs.RowFaults.{row_faults, inline_rows};
ghost use Rattle.pdb_repairs.specs.Repaired.{first_fault, line_fault, repaired_entry, repaired_lines, repaired_module};
ghost use Rattle.pdb_repairs.specs.Repaired.{repaired_program, repairs_of_module};

use crate::repairs::{Repair, take_fault};
use crate::row_faults::faults_of_rows;
use pdb_records::{LineProgram, ModuleInfo, StreamError, Symbol, SymbolLines};
use std::alloc::{AllocError, Global};

/// Removes the broken parts of a module's records. Also reports rows of inline sites that end early.
pub fn repair_module(
    alloc: Global,
    module_index: usize,
    info: &mut ModuleInfo,
    repairs: &mut Vec<Repair>,
) -> Result<(), AllocError>
    ensures state { OnOk result (info.new ≡ repaired_module info.old) }
    ensures told { OnOk result (repairs.new.items ≡ repairs.old.items ++ repairs_of_module module_index info.old) }
{
    if let Some(fault) = take_fault(&mut info.symbols) {
        repairs.push(Repair::Symbols {
            module_index,
            fault,
        })?;
    }
    if let Some(fault) = repair_lines(alloc, &mut info.line_program) {
        repairs.push(Repair::Lines {
            module_index,
            fault,
        })?;
    }
    if let Some(fault) = take_fault(&mut info.inlinees) {
        repairs.push(Repair::Inlinees {
            module_index,
            fault,
        })?;
    }
    tell_inline_rows(module_index, &info.symbols.items, repairs)
}

// Reports the inline sites whose rows end early. Nothing is removed: the rows before the fault are used.
fn tell_inline_rows(
    module_index: usize,
    symbols: &[Symbol],
    repairs: &mut Vec<Repair>,
) -> Result<(), AllocError>
    ensures { OnOk result (repairs.new.items ≡ repairs.old.items ++ option_to_list (inline_rows module_index
        (row_faults symbols.now))) }
{
    let faults = faults_of_rows(symbols);
    if let Some(fault) = faults.first {
        repairs.push(Repair::InlineRows {
            module_index,
            fault,
            sites: faults.count,
        })?;
    }
    Ok(())
}

// Replaces lines that can't be read by an empty list. Returns the first fault.
fn repair_lines(
    alloc: Global,
    line_program: &mut Result<LineProgram, StreamError>,
) -> Option<StreamError>
    ensures state { line_program.new ≡ repaired_lines line_program.old }
    ensures answer { result ≡ line_fault line_program.old }
{
    match line_program {
        Ok(program) => repair_entries(program),
        Err(fault) => {
            let fault = *fault;
            *line_program = Ok(LineProgram {
                entries: Vec::new(alloc),
                files: Vec::new(alloc),
            });
            Some(fault)
        }
    }
}

// Removes all rows of each entry whose rows end early. Returns the first fault.
fn repair_entries(program: &mut LineProgram) -> Option<StreamError>
    ensures state { program.new ≡ repaired_program program.old }
    ensures answer { result ≡ first_fault program.old.entries }
{
    let mut first = None;
    for entry in program.entries.iter_mut() {
        first = first.or(repair_entry(entry));
    }
    first
}

// Removes all rows of an entry whose rows end early: each row extends to the next one, and the next one of the last is
// lost.
fn repair_entry(entry: &mut SymbolLines) -> Option<StreamError>
    ensures state { entry.new ≡ repaired_entry entry.old }
    ensures answer { result ≡ entry.old.lines.fault }
{
    let fault = take_fault(&mut entry.lines);
    if fault.is_some() {
        entry.lines.items.clear();
    }
    fault
}
