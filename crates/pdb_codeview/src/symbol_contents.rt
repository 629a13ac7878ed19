//! Reads the content of symbols: procedures, public symbols, thunks, separated code, trampolines and inline sites.

ghost use Rattle.std.specs.Prelude.{◌≡◌, ◌≤◌, ◌+◌, length, map, IfErr, IfOk};
ghost use Rattle.std.specs.List.Sorted.{IsNonDecreasingBy};
ghost use Rattle.pdb_codeview.specs.Chunks.{chunks_of_code};
ghost use Rattle.pdb_codeview.specs.InlineSites.{code_of};
ghost use Rattle.pdb_codeview.specs.SymbolKinds.{recorded_kind};
ghost use Rattle.pdb_codeview.specs.SymbolRecords.{section_offset};
ghost use Rattle.pdb_codeview.specs.SymbolContents.{code_place, global_content, global_symbol, global_symbols, inline_site};
ghost use Rattle.pdb_codeview.specs.SymbolContents.{module_content, module_symbols, no_code, procedure, procedure_name_place};
ghost use Rattle.pdb_codeview.specs.SymbolContents.{procedure_type, public_symbol, separated_code, symbols_from, thunk};
ghost use Rattle.pdb_codeview.specs.SymbolContents.{trampoline};

use crate::chunks::{Chunk, CodePlace, chunks_at, chunks_by_function};
use crate::inline_sites::{CodeRecords, site_rows};
use crate::symbol_layout::{
    ANNOTATIONS, COUNTED_ANNOTATIONS, END, INLINEE, JUMP_LENGTH, JUMP_OFFSET, JUMP_SECTION,
    JUMP_SIZE, JUMP_TARGET_OFFSET, JUMP_TARGET_SECTION, PROCEDURE_LENGTH, PROCEDURE_NAME,
    PROCEDURE_NAME_BEHIND_REGISTER, PROCEDURE_OFFSET, PROCEDURE_SECTION, PROCEDURE_TYPE,
    PUBLIC_NAME, PUBLIC_OFFSET, PUBLIC_SECTION, SEPARATED_LENGTH, SEPARATED_OFFSET,
    SEPARATED_PARENT_OFFSET, SEPARATED_PARENT_SECTION, SEPARATED_SECTION, SEPARATED_SIZE,
    THUNK_LENGTH, THUNK_NAME, THUNK_OFFSET, THUNK_SECTION,
};
use crate::symbol_records::{SymbolRecord, position_at, split_symbol_records};
use pdb_msf::faults::Fault;
use pdb_msf::{copy_name, u16_at, u32_at};
use pdb_records::{
    IdIndex, InlineSiteSymbol, PdbInternalSectionOffset, ProcedureSymbol, PublicSymbol, Reading,
    S_GPROC32, S_INLINESITE, S_INLINESITE2, S_LPROC32, S_SEPCODE, S_THUNK32, S_THUNK32_ST,
    SeparatedCodeSymbol, Symbol, SymbolData, SymbolIndex, SymbolTable, ThunkSymbol, TypeIndex,
    is_procedure_kind, is_public_kind,
};
use std::alloc::Global;

/// The kind of a trampoline: a jump to a function.
pub const S_TRAMPOLINE: u16 = 0x112c;

/// A local procedure of code for Itanium.
const S_LPROCIA64: u16 = 0x1118;

/// A global procedure of code for Itanium.
const S_GPROCIA64: u16 = 0x1119;

/// A global procedure of managed code.
const S_GMANPROC: u16 = 0x112a;

/// A local procedure of managed code.
const S_LMANPROC: u16 = 0x112b;

// The place before any code.
const NO_CODE: CodePlace = CodePlace {
    start: PdbInternalSectionOffset {
        section: 0,
        offset: 0,
    },
    function: PdbInternalSectionOffset {
        section: 0,
        offset: 0,
    },
};

/// Reads the global symbols. Only public symbols have content; of all others only the kind is read.
pub fn read_global_symbols(alloc: Global, stream: &[u8]) -> Result<SymbolTable, Fault>
    ensures answer { IfOk result (λ table. table.symbols ≡ global_symbols stream.now) }
    ensures memory { IfErr result (λ fault. fault ≡ Fault.OutOfMemory) }
{
    let list = split_symbol_records(alloc, stream, 0)?;
    let symbols = global_list(alloc, &list)?;
    Ok(SymbolTable { symbols })
}

// The symbols of a list, read as global symbols.
fn global_list(alloc: Global, list: &Reading<SymbolRecord<'_>>) -> Result<Reading<Symbol>, Fault>
    ensures items { IfOk result (λ read. read.items ≡ map global_symbol list.now.items) }
    ensures fault { IfOk result (λ read. read.fault ≡ list.now.fault) }
    ensures memory { IfErr result (λ fault. fault ≡ Fault.OutOfMemory) }
{
    let mut items = Vec::with_capacity(alloc, list.items.len())?;
    for symbol in &list.items {
        items.push(global_symbol(alloc, symbol)?)?;
    }
    Ok(Reading {
        items,
        fault: list.fault,
    })
}

fn global_symbol(alloc: Global, symbol: &SymbolRecord<'_>) -> Result<Symbol, Fault>
    ensures answer { IfOk result (λ read. read ≡ global_symbol symbol.now) }
    ensures memory { IfErr result (λ fault. fault ≡ Fault.OutOfMemory) }
{
    Ok(Symbol {
        raw_kind: symbol.raw_kind,
        content: global_content(alloc, symbol)?,
    })
}

// The content of a global symbol; `None` if it can't be read.
fn global_content(alloc: Global, symbol: &SymbolRecord<'_>) -> Result<Option<SymbolData>, Fault>
    ensures answer { IfOk result (λ content. content ≡ global_content symbol.now) }
    ensures memory { IfErr result (λ fault. fault ≡ Fault.OutOfMemory) }
{
    if is_public_kind(symbol.raw_kind) {
        return public_symbol(alloc, symbol);
    }
    Ok(Some(SymbolData::Other))
}

/// Reads the symbols of a module. Its stream has `front` bytes before them. `code` has the files and inlinees that are
/// needed for the rows of inline sites.
pub fn read_symbols(
    alloc: Global,
    bytes: &[u8],
    front: u32,
    code: &CodeRecords,
) -> Result<Reading<Symbol>, Fault>
    ensures answer { IfOk result (λ read. read ≡ module_symbols (code_of code.now) front bytes.now) }
    ensures memory { IfErr result (λ fault. fault ≡ Fault.OutOfMemory) }
{
    let list = split_symbol_records(alloc, bytes, front)?;
    module_list(alloc, &list, code)
}

// The symbols of a list, read as those of a module.
fn module_list(
    alloc: Global,
    list: &Reading<SymbolRecord<'_>>,
    code: &CodeRecords,
) -> Result<Reading<Symbol>, Fault>
    requires { IsNonDecreasingBy (λ symbol. symbol.start) list.now.items }
    ensures items { IfOk result (λ read.
        read.items ≡ symbols_from (code_of code.now) list.now.items no_code list.now.items) }
    ensures fault { IfOk result (λ read. read.fault ≡ list.now.fault) }
    ensures memory { IfErr result (λ fault. fault ≡ Fault.OutOfMemory) }
{
    let chunks = chunks_by_function(alloc, &list.items)?;
    let mut items = Vec::with_capacity(alloc, list.items.len())?;
    let mut at = NO_CODE;
    for symbol in &list.items {
        let of_function = chunks_at(&chunks, at.function);
        let content = module_content(alloc, &list.items, symbol, code, at, of_function)?;
        at = code_place(&content, at);
        items.push(Symbol {
            raw_kind: recorded_kind(symbol.raw_kind),
            content,
        })?;
    }
    Ok(Reading {
        items,
        fault: list.fault,
    })
}

// The procedure or chunk to which inline sites after this symbol belong.
fn code_place(content: &Option<SymbolData>, before: CodePlace) -> CodePlace
    ensures { result ≡ code_place content.now before }
{
    match content {
        Some(SymbolData::Procedure(procedure)) => CodePlace {
            start: procedure.offset,
            function: procedure.offset,
        },
        Some(SymbolData::SeparatedCode(code)) => CodePlace {
            start: code.offset,
            function: code.parent_offset,
        },
        _ => before,
    }
}

// The kind of a symbol in the records. Procedures for Itanium and of managed code become ordinary procedures.
fn recorded_kind(raw_kind: u16) -> u16
    ensures { result ≡ recorded_kind raw_kind }
{
    match raw_kind {
        S_GPROCIA64 | S_GMANPROC => S_GPROC32,
        S_LPROCIA64 | S_LMANPROC => S_LPROC32,
        _ => raw_kind,
    }
}

// The content of a module's symbol; `None` if it can't be read. `at` is the code before it, whose function has these
// chunks.
fn module_content(
    alloc: Global,
    symbols: &[SymbolRecord<'_>],
    symbol: &SymbolRecord<'_>,
    code: &CodeRecords,
    at: CodePlace,
    chunks: &[Chunk],
) -> Result<Option<SymbolData>, Fault>
    requires ascending { IsNonDecreasingBy (λ symbol. symbol.start) symbols.now }
    requires chunks { chunks.now ≡ chunks_of_code symbols.now at }
    ensures answer { IfOk result (λ content. content ≡ module_content (code_of code.now) symbols.now at symbol.now) }
    ensures memory { IfErr result (λ fault. fault ≡ Fault.OutOfMemory) }
{
    if is_procedure_kind(recorded_kind(symbol.raw_kind)) {
        return procedure(alloc, symbols, symbol);
    }
    match symbol.raw_kind {
        S_THUNK32 | S_THUNK32_ST => thunk(alloc, symbols, symbol),
        S_SEPCODE => Ok(separated_code(symbols, symbol)),
        S_TRAMPOLINE => Ok(trampoline(symbol)),
        S_INLINESITE => inline_site(alloc, symbols, symbol, code, ANNOTATIONS, at, chunks),
        S_INLINESITE2 => {
            inline_site(
                alloc,
                symbols,
                symbol,
                code,
                COUNTED_ANNOTATIONS,
                at,
                chunks,
            )
        }
        _ => global_content(alloc, symbol),
    }
}

/// Reads a section offset from a symbol's content: the offset at one position, and the section at another.
pub(crate) fn section_offset(
    content: &[u8],
    offset: usize,
    section: usize,
) -> PdbInternalSectionOffset
    requires offset { offset + 4 ≤ length content.now }
    requires section { section + 2 ≤ length content.now }
    ensures { result ≡ section_offset offset section content.now }
{
    PdbInternalSectionOffset {
        section: u16_at(content, section),
        offset: u32_at(content, offset),
    }
}

fn public_symbol(alloc: Global, symbol: &SymbolRecord<'_>) -> Result<Option<SymbolData>, Fault>
    ensures answer { IfOk result (λ content. content ≡ public_symbol symbol.now) }
    ensures memory { IfErr result (λ fault. fault ≡ Fault.OutOfMemory) }
{
    let Some(name) = symbol.name_behind(PUBLIC_NAME) else {
        return Ok(None);
    };
    Ok(Some(SymbolData::Public(PublicSymbol {
        offset: section_offset(symbol.content, PUBLIC_OFFSET, PUBLIC_SECTION),
        name: copy_name(alloc, name)?,
    })))
}

// The position of the name in a procedure of this kind.
fn procedure_name_place(raw_kind: u16) -> usize
    ensures { result ≡ procedure_name_place raw_kind }
{
    match raw_kind {
        S_LPROCIA64 | S_GPROCIA64 | S_GMANPROC | S_LMANPROC => PROCEDURE_NAME_BEHIND_REGISTER,
        _ => PROCEDURE_NAME,
    }
}

// The type of a procedure. Managed code has a token instead, and so no type.
fn procedure_type(symbol: &SymbolRecord<'_>) -> TypeIndex
    requires { 28 ≤ length symbol.now.content }
    ensures { result ≡ procedure_type symbol.now }
{
    match symbol.raw_kind {
        S_GMANPROC | S_LMANPROC => TypeIndex(0),
        _ => TypeIndex(u32_at(symbol.content, PROCEDURE_TYPE)),
    }
}

fn procedure(
    alloc: Global,
    symbols: &[SymbolRecord<'_>],
    symbol: &SymbolRecord<'_>,
) -> Result<Option<SymbolData>, Fault>
    requires { IsNonDecreasingBy (λ symbol. symbol.start) symbols.now }
    ensures answer { IfOk result (λ content. content ≡ procedure symbols.now symbol.now) }
    ensures memory { IfErr result (λ fault. fault ≡ Fault.OutOfMemory) }
{
    let Some(name) = symbol.name_behind(procedure_name_place(symbol.raw_kind)) else {
        return Ok(None);
    };
    Ok(Some(SymbolData::Procedure(ProcedureSymbol {
        offset: section_offset(symbol.content, PROCEDURE_OFFSET, PROCEDURE_SECTION),
        len: u32_at(symbol.content, PROCEDURE_LENGTH),
        name: copy_name(alloc, name)?,
        end: position_at(symbols, u32_at(symbol.content, END)),
        type_index: procedure_type(symbol),
    })))
}

fn thunk(
    alloc: Global,
    symbols: &[SymbolRecord<'_>],
    symbol: &SymbolRecord<'_>,
) -> Result<Option<SymbolData>, Fault>
    requires { IsNonDecreasingBy (λ symbol. symbol.start) symbols.now }
    ensures answer { IfOk result (λ content. content ≡ thunk symbols.now symbol.now) }
    ensures memory { IfErr result (λ fault. fault ≡ Fault.OutOfMemory) }
{
    let Some(name) = symbol.name_behind(THUNK_NAME) else {
        return Ok(None);
    };
    Ok(Some(SymbolData::Thunk(ThunkSymbol {
        offset: section_offset(symbol.content, THUNK_OFFSET, THUNK_SECTION),
        len: u16_at(symbol.content, THUNK_LENGTH),
        name: copy_name(alloc, name)?,
        end: position_at(symbols, u32_at(symbol.content, END)),
    })))
}

fn separated_code(symbols: &[SymbolRecord<'_>], symbol: &SymbolRecord<'_>) -> Option<SymbolData>
    requires { IsNonDecreasingBy (λ symbol. symbol.start) symbols.now }
    ensures { result ≡ separated_code symbols.now symbol.now }
{
    let content = symbol.content;
    if content.len() < SEPARATED_SIZE {
        return None;
    }
    Some(SymbolData::SeparatedCode(SeparatedCodeSymbol {
        offset: section_offset(content, SEPARATED_OFFSET, SEPARATED_SECTION),
        len: u32_at(content, SEPARATED_LENGTH),
        parent_offset: section_offset(content, SEPARATED_PARENT_OFFSET, SEPARATED_PARENT_SECTION),
        end: position_at(symbols, u32_at(content, END)),
    }))
}

// A trampoline, as separated code of the function to which it jumps. It has no closing symbol.
fn trampoline(symbol: &SymbolRecord<'_>) -> Option<SymbolData>
    ensures { result ≡ trampoline symbol.now }
{
    let content = symbol.content;
    if content.len() < JUMP_SIZE {
        return None;
    }
    Some(SymbolData::SeparatedCode(SeparatedCodeSymbol {
        offset: section_offset(content, JUMP_OFFSET, JUMP_SECTION),
        len: u32::from(u16_at(content, JUMP_LENGTH)),
        parent_offset: section_offset(content, JUMP_TARGET_OFFSET, JUMP_TARGET_SECTION),
        end: SymbolIndex(0),
    }))
}

// An inline site with the rows of its annotations, in the code at `at`, whose function has these chunks. The
// annotations begin after `size` bytes.
fn inline_site(
    alloc: Global,
    symbols: &[SymbolRecord<'_>],
    symbol: &SymbolRecord<'_>,
    code: &CodeRecords,
    size: usize,
    at: CodePlace,
    chunks: &[Chunk],
) -> Result<Option<SymbolData>, Fault>
    requires ascending { IsNonDecreasingBy (λ symbol. symbol.start) symbols.now }
    requires size { 12 ≤ size }
    requires chunks { chunks.now ≡ chunks_of_code symbols.now at }
    ensures answer { IfOk result (λ content.
        content ≡ inline_site (code_of code.now) symbols.now size at symbol.now) }
    ensures memory { IfErr result (λ fault. fault ≡ Fault.OutOfMemory) }
{
    let content = symbol.content;
    if content.len() < size {
        return Ok(None);
    }
    let inlinee = IdIndex(u32_at(content, INLINEE));
    let rows = site_rows(alloc, code, chunks, inlinee, at.start, &content[size..])?;
    Ok(Some(SymbolData::InlineSite(InlineSiteSymbol {
        inlinee,
        end: position_at(symbols, u32_at(content, END)),
        rows,
    })))
}
