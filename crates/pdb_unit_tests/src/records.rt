//! Checks of records: addresses, lines, texts, imports and exports.

use crate::checks::Checks;
use pdb_records::{
    AddressMap, AddressRange, CrossModuleExports, CrossModuleImports, Error, FileIndex, FileInfo,
    ImportedModule, LineInfo, LineProgram, PdbInternalSectionOffset, RawString, Reading, Rva,
    StringRef, StringTable, SymbolLines,
};
use std::alloc::{AllocError, Global};

/// A section offset.
fn section_offset(section: u16, offset: u32) -> PdbInternalSectionOffset {
    PdbInternalSectionOffset { section, offset }
}

/// Whether an address and a section offset are converted into each other.
fn lies_at(map: &AddressMap, address: Rva, section_offset: PdbInternalSectionOffset) -> bool {
    address.to_internal_offset(map) == Some(section_offset)
        && section_offset.to_rva(map) == Some(address)
}

/// Whether addresses of two sections are answered.
fn answers_section_offsets(map: &AddressMap) -> bool {
    lies_at(map, Rva(0x1000), section_offset(1, 0))
        && lies_at(map, Rva(0x100f), section_offset(1, 15))
        && lies_at(map, Rva(0xffff_ffff), section_offset(2, 255))
}

/// Whether nothing is found outside the sections.
fn answers_nothing_else(map: &AddressMap) -> bool {
    Rva(0x1010).to_internal_offset(map) == None
        && section_offset(0, 0).to_rva(map) == None
        && section_offset(3, 0).to_rva(map) == None
        && section_offset(2, 256).to_rva(map) == None
}

/// The address ranges of two sections. The second would end past the greatest address.
const SECTIONS: [AddressRange; 2] = [
    AddressRange {
        virtual_address: 0x1000,
        virtual_size: 0x10,
    },
    AddressRange {
        virtual_address: 0xffff_ff00,
        virtual_size: 0xffff_ffff,
    },
];

/// The section offset of the entries of a line program.
const SECTION_OFFSET: PdbInternalSectionOffset = PdbInternalSectionOffset {
    section: 1,
    offset: 16,
};

/// A row of a line program.
const ROW: LineInfo = LineInfo {
    offset: 16,
    file_index: FileIndex(0),
    line_start: 3,
};

/// An entry of a line program with these rows.
fn entry(alloc: Global, rows: &[LineInfo]) -> Result<SymbolLines, AllocError> {
    let items = rows.to_vec(alloc)?;
    Ok(SymbolLines {
        offset: SECTION_OFFSET,
        lines: Reading { items, fault: None },
    })
}

/// A line program with two entries for one section offset, of which the first has a row, and a file.
fn line_program(alloc: Global) -> Result<LineProgram, AllocError> {
    let mut entries = Vec::new(alloc);
    for rows in [[ROW].as_slice(), &[]] {
        entries.push(entry(alloc, rows)?)?;
    }
    let files = [FileInfo { name: StringRef(5) }].to_vec(alloc)?;
    Ok(LineProgram { entries, files })
}

/// Whether the first entry for a section offset counts.
fn takes_the_first_entry(program: &LineProgram) -> bool {
    program
        .lines_for_symbol(SECTION_OFFSET)
        .is_some_and(|rows| rows.items.len() == 1)
}

/// Whether the file is found, and no other.
fn answers_the_file(program: &LineProgram) -> bool {
    let file = program.get_file_info(FileIndex(0));
    file.is_some_and(|file| file.name == StringRef(5))
        && program.get_file_info(FileIndex(1)).is_none()
}

/// A string table with two texts for one reference.
fn string_table(alloc: Global) -> Result<StringTable, AllocError> {
    let mut strings = Vec::new(alloc);
    for text in ["first", "second"] {
        let bytes = text.as_bytes().to_vec(alloc)?;
        strings.push((StringRef(5), RawString(bytes)))?;
    }
    Ok(StringTable { strings })
}

/// Whether the first text for a reference is found, and none for another reference.
fn answers_the_first_text(table: &StringTable) -> bool {
    let text = table.get(StringRef(5));
    text.is_some_and(|text| text.0.as_slice() == b"first".as_slice())
        && table.get(StringRef(4)).is_none()
}

/// The imports of a module from two others: two indices each.
fn imports(alloc: Global) -> Result<CrossModuleImports, AllocError> {
    let mut modules = Vec::new(alloc);
    for key in [8u32, 9] {
        modules.push(ImportedModule {
            module: StringRef(key),
            locals: [70u32, 71].to_vec(alloc)?,
        })?;
    }
    Ok(CrossModuleImports { modules })
}

/// Whether an index refers to this index of another module.
fn is_imported(imports: &CrossModuleImports, index: u32, module: StringRef, local: u32) -> bool {
    imports
        .resolve_import(index)
        .is_ok_and(|found| found == (module, local))
}

/// Whether an index is refused because it is no import.
fn is_not_imported(imports: &CrossModuleImports, index: u32) -> bool {
    matches!(
        imports.resolve_import(index),
        Err(Error::CrossModuleRefNotFound(refused)) if refused == index
    )
}

/// Whether the imports are found, and others are refused.
fn answers_the_imports(imports: &CrossModuleImports) -> bool {
    is_imported(imports, 0x8010_0001, StringRef(9), 71)
        && is_imported(imports, 0x8000_0000, StringRef(8), 70)
        && is_not_imported(imports, 0x8000_0002)
        && is_not_imported(imports, 0x8020_0000)
        && is_not_imported(imports, 0x8008_0000)
}

/// Whether a name is shown with a replacement character for the byte that isn't UTF-8.
fn shows_the_name(alloc: Global) -> Result<bool, AllocError> {
    let name = RawString([0x66, 0xff].to_vec(alloc)?);
    let text = name.to_string_lossy(alloc)?;
    Ok(text.as_bytes() == [0x66, 0xef, 0xbf, 0xbd].as_slice())
}

/// Whether section offsets of addresses are found, and nothing else.
fn maps_addresses(alloc: Global) -> Result<bool, AllocError> {
    let sections = SECTIONS.to_vec(alloc)?;
    let map = AddressMap { sections };
    Ok(answers_section_offsets(&map) && answers_nothing_else(&map))
}

/// Whether lines and files are answered.
fn finds_lines(alloc: Global) -> Result<bool, AllocError> {
    let program = line_program(alloc)?;
    Ok(takes_the_first_entry(&program) && answers_the_file(&program))
}

/// Whether the first export of an index is found, and none of another index.
fn finds_exports(alloc: Global) -> Result<bool, AllocError> {
    let exports = [(7u32, 0x1003u32), (7, 0x1004)].to_vec(alloc)?;
    let exports = CrossModuleExports { exports };
    Ok(exports.resolve_import(7) == Some(0x1003) && exports.resolve_import(8) == None)
}

/// The checks of records.
pub(crate) fn checks(alloc: Global) -> Checks {
    Checks::NONE
        .and_tried("a name that is no text", shows_the_name(alloc))
        .and_tried("section offsets of addresses", maps_addresses(alloc))
        .and_tried("lines and files", finds_lines(alloc))
        .and(
            "texts by their references",
            string_table(alloc).is_ok_and(|table| answers_the_first_text(&table)),
        )
        .and(
            "imports by their indices",
            imports(alloc).is_ok_and(|imports| answers_the_imports(&imports)),
        )
        .and_tried("exports by their indices", finds_exports(alloc))
}
