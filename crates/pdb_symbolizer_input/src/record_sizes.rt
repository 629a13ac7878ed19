//! Estimates how many bytes the records of a file take in memory, from the lengths of their lists.

use pdb_addr2line::pdb::{LineProgram, ModuleInfo, PDB};

/// The size of an open file without its records, in bytes.
const FILE: u64 = 1 << 14;

/// The size of a type, id, symbol, string or source file, with its names.
const RECORD: u64 = 128;

/// The size of the list of a function's line rows, or of an unread module.
const LIST: u64 = 64;

/// The size of a line row, a contribution or an inlinee.
const ROW: u64 = 16;

/// The estimated size of an open file with these records, in bytes.
pub fn estimated_size(records: &PDB) -> u64 {
    let mut size = FILE.saturating_add(front_size(records));
    for module in &records.module_infos {
        size = size.saturating_add(match module {
            Ok(Some(module)) => module_size(module),
            _ => LIST,
        });
    }
    size
}

// The size of everything except modules.
fn front_size(records: &PDB) -> u64 {
    let types = match &records.type_information {
        Ok(types) => types.items.items.len(),
        Err(_) => 0,
    };
    let ids = match &records.id_information {
        Ok(ids) => ids.items.items.len(),
        Err(_) => 0,
    };
    let symbols = match &records.global_symbols {
        Ok(table) => table.symbols.items.len(),
        Err(_) => 0,
    };
    let strings = match &records.string_table {
        Ok(table) => table.strings.len(),
        Err(_) => 0,
    };
    let contributions = match &records.debug_information {
        Ok(information) => information.section_contributions.items.len(),
        Err(_) => 0,
    };
    list_size(types, RECORD)
        .saturating_add(list_size(ids, RECORD))
        .saturating_add(list_size(symbols, RECORD))
        .saturating_add(list_size(strings, RECORD))
        .saturating_add(list_size(contributions, ROW))
}

fn module_size(module: &ModuleInfo) -> u64 {
    let lines = match &module.line_program {
        Ok(program) => lines_size(program),
        Err(_) => 0,
    };
    list_size(module.symbols.items.len(), RECORD)
        .saturating_add(list_size(module.inlinees.items.len(), ROW))
        .saturating_add(lines)
}

fn lines_size(program: &LineProgram) -> u64 {
    let mut size = list_size(program.files.len(), RECORD);
    for entry in &program.entries {
        size = size
            .saturating_add(LIST)
            .saturating_add(list_size(entry.lines.items.len(), ROW));
    }
    size
}

// The size of `count` entries.
fn list_size(count: usize, each: u64) -> u64 {
    (count as u64).saturating_mul(each)
}
