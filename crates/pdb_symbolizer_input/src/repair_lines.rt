//! Prints lines on standard error for the broken parts of a PDB file that were removed.

ghost use Rattle.std.specs.Prelude.{◌≡◌, string_bytes, IfErr, IfOk};
ghost use Rattle.pdb_records.specs.Names.{lossy};
ghost use Rattle.pdb_symbolizer_input.specs.EndReasons.{out_of_memory};

use crate::run_errors::RunError;
use pdb_addr2line::pdb::{Module, PDB, RawString, StreamError};
use pdb_container::faults::{UNKNOWN_VERSION, fault_text};
use pdb_repairs::Repair;
use std::alloc::{AllocError, Global};

/// Prints a line for each broken part that was removed from a file's records.
pub fn print_repairs<R: Eprint + AllocGlobal>(
    rt: &R,
    file: &str,
    records: &PDB,
    repairs: &[Repair],
) -> Result<(), RunError>
    ensures memory { IfErr result (λ error. error ≡ out_of_memory) }
{
    for &repair in repairs {
        let text = repair_text(rt.alloc(), records, repair)?;
        let _ = eprintln!(rt; "pdb_symbolizer: {file}: {text}");
    }
    Ok(())
}

fn repair_text(alloc: Global, records: &PDB, repair: Repair) -> Result<String, AllocError> {
    match repair {
        Repair::GlobalSymbols(fault) => list_text(alloc, "public symbols end early", fault),
        Repair::NoGlobalSymbols(fault) => list_text(alloc, "public symbols are left out", fault),
        Repair::NoTypes(fault) => types_text(alloc, fault),
        Repair::NoIds(fault) => list_text(alloc, "ids are left out", fault),
        Repair::Modules(fault) => list_text(alloc, "the list of modules ends early", fault),
        Repair::Contributions(fault) => list_text(
            alloc,
            "the list of contributions ends early",
            fault,
        ),
        Repair::ModuleContributions { module_index } => {
            let name = module_name(alloc, records, module_index)?;
            format!(in alloc; "module {name}: code that another module claims too is left out")
        }
        Repair::Module {
            module_index,
            fault,
        } => module_text(alloc, records, module_index, "not read", fault),
        Repair::Symbols {
            module_index,
            fault,
        } => module_text(alloc, records, module_index, "symbols end early", fault),
        Repair::Lines {
            module_index,
            fault,
        } => module_text(alloc, records, module_index, "lines are left out", fault),
        Repair::Inlinees {
            module_index,
            fault,
        } => module_text(
            alloc,
            records,
            module_index,
            "inlined functions end early",
            fault,
        ),
        Repair::InlineRows {
            module_index,
            fault,
            sites,
        } => inline_rows_text(alloc, records, module_index, sites, fault),
    }
}

// Types in an unknown version of the format come from old compilers.
fn types_text(alloc: Global, fault: StreamError) -> Result<String, AllocError> {
    match fault {
        UNKNOWN_VERSION => {
            format!(in alloc; "types are left out: made by a version from before 2005")
        }
        _ => list_text(alloc, "types are left out", fault),
    }
}

fn list_text(alloc: Global, what: &str, fault: StreamError) -> Result<String, AllocError> {
    format!(in alloc; "{what}: {}", fault_text(fault))
}

// Says how many inline sites of a module have rows that end early, and why the first of these do.
fn inline_rows_text(
    alloc: Global,
    records: &PDB,
    module_index: usize,
    sites: usize,
    fault: StreamError,
) -> Result<String, AllocError> {
    let plural = if sites == 1 { "" } else { "s" };
    let what = format!(in alloc; "rows of {sites} inline site{plural} end early")?;
    module_text(alloc, records, module_index, what.as_str(), fault)
}

fn module_text(
    alloc: Global,
    records: &PDB,
    module_index: usize,
    what: &str,
    fault: StreamError,
) -> Result<String, AllocError> {
    let name = module_name(alloc, records, module_index)?;
    format!(in alloc; "module {name}: {what}: {}", fault_text(fault))
}

// The name of a module, or its module index if the list of modules doesn't have it.
fn module_name(alloc: Global, records: &PDB, module_index: usize) -> Result<String, AllocError> {
    match module_at(records, module_index) {
        Some(module) => text_of(alloc, &module.name),
        None => format!(in alloc; "{module_index}"),
    }
}

fn module_at(records: &PDB, module_index: usize) -> Option<&Module> {
    match &records.debug_information {
        Ok(debug) => debug.modules.items.get(module_index),
        Err(_) => None,
    }
}

/// A name as text.
pub fn text_of(alloc: Global, name: &RawString) -> Result<String, AllocError>
    ensures { IfOk result (λ text. string_bytes text ≡ lossy name.now) }
{
    name.to_string_lossy(alloc)?.into_owned(alloc)
}
