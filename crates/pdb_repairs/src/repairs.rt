//! `Repair`: the broken parts of a program's records, and the calls that remove them.

ghost use Rattle.std.specs.Prelude.{◌≡◌, [], ◌++◌, map, IfOk, OnOk};
ghost use Rattle.pdb_records.specs.Sections.{listed};
ghost use Rattle.pdb_repairs.specs.Repaired.{repaired, repaired_debug, repaired_debug_information, repaired_lists};
ghost use Rattle.pdb_repairs.specs.Repaired.{repaired_items, repaired_read, repaired_symbols, repairs_from};
ghost use Rattle.pdb_repairs.specs.Repaired.{repairs_of, repairs_of_contributions, repairs_of_debug};
ghost use Rattle.pdb_repairs.specs.Repaired.{repairs_of_debug_information, repairs_of_lists};
ghost use Rattle.pdb_repairs.specs.Repaired.{repairs_of_read, repairs_of_symbols, told, unread_fault, with_kept};
ghost use Rattle.pdb_repairs.specs.Repairs.{without_fault};

use crate::module_repairs::repair_module;
use crate::retained::retain_claims;
use pdb_records::{
    DebugInformation, ImageSectionHeader, ItemInformation, ModuleInfo, PDB, Reading, StreamError,
    SymbolTable,
};
use std::alloc::{AllocError, Global};

/// A part of a program's records that was broken.
#[derive(Debug, Clone, Copy, PartialEq, Eq, Drop)]
pub enum Repair {
    /// The public symbols end early. Those before the fault are used.
    GlobalSymbols(StreamError),
    /// The public symbols can't be read. Procedures of modules are still found.
    NoGlobalSymbols(StreamError),
    /// The types can't be read. Functions are named by their symbols.
    NoTypes(StreamError),
    /// The ids can't be read. Inlined functions have no name, but still have files and lines.
    NoIds(StreamError),
    /// The list of modules ends early. Those before the fault are used.
    Modules(StreamError),
    /// The list of contributions ends early. Those before the fault are used.
    Contributions(StreamError),
    /// Contributions of a module were removed. Either another module has one that is at least as large and shares a
    /// byte with them, or their end doesn't fit 32 bits.
    ModuleContributions {
        module_index: usize,
    },
    /// The records of a module can't be read.
    Module {
        module_index: usize,
        fault: StreamError,
    },
    /// The symbols of a module end early. The procedures before the fault are used.
    Symbols {
        module_index: usize,
        fault: StreamError,
    },
    /// The lines of a module, or of some of its functions, can't be read. The functions are found without lines.
    Lines {
        module_index: usize,
        fault: StreamError,
    },
    /// The list of a module's inlinees ends early. Those before the fault are used.
    Inlinees {
        module_index: usize,
        fault: StreamError,
    },
    /// The rows of some inline sites of a module end early. Those before the fault are used.
    InlineRows {
        module_index: usize,
        /// Why the rows of the first such site end early.
        fault: StreamError,
        /// The number of such sites.
        sites: usize,
    },
}

/// Removes the broken parts of the records, and returns them: each kind at most once for each module.
pub fn repair_records(alloc: Global, records: &mut PDB) -> Result<Vec<Repair>, AllocError>
    ensures state { OnOk result (records.new ≡ repaired records.old) }
    ensures answer { IfOk result (λ v. v.items ≡ repairs_of records.old) }
{
    let mut repairs = Vec::new(alloc);
    repair_global_symbols(alloc, &mut records.global_symbols, &mut repairs)?;
    if let Some(fault) = take_unread(alloc, &mut records.type_information) {
        repairs.push(Repair::NoTypes(fault))?;
    }
    if let Some(fault) = take_unread(alloc, &mut records.id_information) {
        repairs.push(Repair::NoIds(fault))?;
    }
    repair_debug_information(
        alloc,
        &records.sections,
        &mut records.debug_information,
        &mut repairs,
    )?;
    repair_all(alloc, &mut records.module_infos, &mut repairs)?;
    Ok(repairs)
}

/// Removes the broken parts of one module's records, and adds them to `repairs`, as [`repair_records`] does for all
/// modules.
pub fn repair_module_info(
    alloc: Global,
    module_index: usize,
    info: &mut Result<Option<ModuleInfo>, StreamError>,
    repairs: &mut Vec<Repair>,
) -> Result<(), AllocError>
    ensures state { OnOk result (info.new ≡ repaired_read info.old) }
    ensures told { OnOk result (repairs.new.items ≡ repairs.old.items ++ repairs_of_read module_index info.old) }
{
    match info {
        Ok(Some(info)) => repair_module(alloc, module_index, info, repairs),
        Ok(None) => Ok(()),
        Err(fault) => {
            let fault = *fault;
            repairs.push(Repair::Module {
                module_index,
                fault,
            })?;
            Ok(())
        }
    }
}

// Repairs each module.
fn repair_all(
    alloc: Global,
    modules: &mut Vec<Result<Option<ModuleInfo>, StreamError>>,
    repairs: &mut Vec<Repair>,
) -> Result<(), AllocError>
    ensures state { OnOk result (modules.new.items ≡ map repaired_read modules.old.items) }
    ensures told { OnOk result (repairs.new.items ≡ repairs.old.items ++ repairs_from 0 modules.old.items) }
{
    for (module_index, info) in modules.iter_mut().enumerate() {
        repair_module_info(alloc, module_index, info, repairs)?;
    }
    Ok(())
}

// Repairs the public symbols. If they can't be read, the list becomes empty.
fn repair_global_symbols(
    alloc: Global,
    read: &mut Result<SymbolTable, StreamError>,
    repairs: &mut Vec<Repair>,
) -> Result<(), AllocError>
    ensures state { OnOk result (read.new ≡ repaired_symbols read.old) }
    ensures told { OnOk result (repairs.new.items ≡ repairs.old.items ++ repairs_of_symbols read.old) }
{
    match read {
        Ok(table) => tell_symbols(take_fault(&mut table.symbols), repairs),
        Err(fault) => {
            repairs.push(Repair::NoGlobalSymbols(*fault))?;
            *read = Ok(SymbolTable {
                symbols: no_items(alloc, None),
            });
            Ok(())
        }
    }
}

// Replaces types or ids that can't be read by an empty list that ends with the fault, and returns the fault. A name
// that needs one of them is then unknown, as if the list ended before it.
fn take_unread<I: Drop, D: Drop>(
    alloc: Global,
    read: &mut Result<ItemInformation<I, D>, StreamError>,
) -> Option<StreamError>
    ensures answer { result ≡ unread_fault read.old }
    ensures state { read.new ≡ repaired_items read.old }
{
    let fault = match read {
        Ok(_) => return None,
        Err(fault) => *fault,
    };
    *read = Ok(ItemInformation {
        items: no_items(alloc, Some(fault)),
    });
    Some(fault)
}

// An empty list, with the fault at its end if there is one.
fn no_items<T>(alloc: Global, fault: Option<StreamError>) -> Reading<T>
    ensures { result ≡ record { items = []; fault = fault } }
{
    Reading {
        items: Vec::new(alloc),
        fault,
    }
}

// Reports why the public symbols end early, if they do.
fn tell_symbols(fault: Option<StreamError>, repairs: &mut Vec<Repair>) -> Result<(), AllocError>
    ensures { OnOk result (repairs.new.items ≡ repairs.old.items ++ told Repair.GlobalSymbols fault) }
{
    if let Some(fault) = fault {
        repairs.push(Repair::GlobalSymbols(fault))?;
    }
    Ok(())
}

// Repairs the debug information, if it was read.
fn repair_debug_information(
    alloc: Global,
    sections: &Result<Option<Vec<ImageSectionHeader>>, StreamError>,
    read: &mut Result<DebugInformation, StreamError>,
    repairs: &mut Vec<Repair>,
) -> Result<(), AllocError>
    ensures state { OnOk result (read.new ≡ repaired_debug_information (listed sections.now) read.old) }
    ensures told { OnOk result
        (repairs.new.items ≡ repairs.old.items ++ repairs_of_debug_information (listed sections.now) read.old) }
{
    match read {
        Ok(debug) => repair_debug(alloc, sections, debug, repairs),
        Err(_) => Ok(()),
    }
}

fn repair_debug(
    alloc: Global,
    sections: &Result<Option<Vec<ImageSectionHeader>>, StreamError>,
    debug: &mut DebugInformation,
    repairs: &mut Vec<Repair>,
) -> Result<(), AllocError>
    ensures state { OnOk result (debug.new ≡ repaired_debug (listed sections.now) debug.old) }
    ensures told { OnOk result
        (repairs.new.items ≡ repairs.old.items ++ repairs_of_debug (listed sections.now) debug.old) }
{
    repair_lists(debug, repairs)?;
    repair_contributions(alloc, sections, debug, repairs)
}

// Removes contributions that claim bytes of another module, if there are section headers.
fn repair_contributions(
    alloc: Global,
    sections: &Result<Option<Vec<ImageSectionHeader>>, StreamError>,
    debug: &mut DebugInformation,
    repairs: &mut Vec<Repair>,
) -> Result<(), AllocError>
    ensures state { OnOk result (debug.new ≡ with_kept (listed sections.now) debug.old) }
    ensures told { OnOk result
        (repairs.new.items ≡ repairs.old.items ++ repairs_of_contributions (listed sections.now) debug.old) }
{
    match sections {
        Ok(Some(sections)) => retain_claims(alloc, sections, debug, repairs),
        _ => Ok(()),
    }
}

// Repairs the lists of modules and of contributions.
fn repair_lists(debug: &mut DebugInformation, repairs: &mut Vec<Repair>) -> Result<(), AllocError>
    ensures state { OnOk result (debug.new ≡ repaired_lists debug.old) }
    ensures told { OnOk result (repairs.new.items ≡ repairs.old.items ++ repairs_of_lists debug.old) }
{
    if let Some(fault) = take_fault(&mut debug.modules) {
        repairs.push(Repair::Modules(fault))?;
    }
    if let Some(fault) = take_fault(&mut debug.section_contributions) {
        repairs.push(Repair::Contributions(fault))?;
    }
    Ok(())
}

/// Removes the fault of a reading and returns it. What was read before the fault stays.
pub fn take_fault<T>(reading: &mut Reading<T>) -> Option<StreamError>
    ensures answer { result ≡ reading.old.fault }
    ensures state { reading.new ≡ without_fault reading.old }
{
    reading.fault.take()
}
