//! Writes symbols as JSON: public ones, procedures, thunks, separated code, inline sites with their rows.

use crate::export_error::ExportError;
use crate::members::{ToJson, member, optional};
use crate::sections::section_offset;
use json::Writer;
use pdb_records::{
    InlineRow, InlineSiteSymbol, ProcedureSymbol, PublicSymbol, SeparatedCodeSymbol, Symbol,
    SymbolData, SymbolTable, ThunkSymbol,
};

impl ToJson for SymbolTable {
    fn to_json(&self, text: &mut Writer) -> Result<(), ExportError> {
        self.symbols.to_json(text)
    }
}

impl ToJson for Symbol {
    fn to_json(&self, text: &mut Writer) -> Result<(), ExportError> {
        text.begin_object()?;
        member(text, "raw_kind", &self.raw_kind)?;
        optional(text, "data", &self.content)?;
        Ok(text.end_object()?)
    }
}

impl ToJson for SymbolData {
    fn to_json(&self, text: &mut Writer) -> Result<(), ExportError> {
        text.begin_object()?;
        match self {
            SymbolData::Public(symbol) => public(text, symbol)?,
            SymbolData::Procedure(symbol) => procedure(text, symbol)?,
            SymbolData::SeparatedCode(symbol) => separated_code(text, symbol)?,
            SymbolData::Thunk(symbol) => thunk(text, symbol)?,
            SymbolData::InlineSite(symbol) => inline_site(text, symbol)?,
            SymbolData::Other => member(text, "kind", &"Other")?,
        }
        Ok(text.end_object()?)
    }
}

/// Writes the members of a public symbol.
fn public(text: &mut Writer, symbol: &PublicSymbol) -> Result<(), ExportError> {
    member(text, "kind", &"Public")?;
    section_offset(text, symbol.offset)?;
    member(text, "name", &symbol.name)
}

/// Writes the members of a procedure.
fn procedure(text: &mut Writer, symbol: &ProcedureSymbol) -> Result<(), ExportError> {
    member(text, "kind", &"Procedure")?;
    section_offset(text, symbol.offset)?;
    member(text, "len", &symbol.len)?;
    member(text, "name", &symbol.name)?;
    member(text, "end", &symbol.end)?;
    member(text, "type_index", &symbol.type_index)
}

/// Writes the members of separated code.
fn separated_code(text: &mut Writer, symbol: &SeparatedCodeSymbol) -> Result<(), ExportError> {
    member(text, "kind", &"SeparatedCode")?;
    section_offset(text, symbol.offset)?;
    member(text, "len", &symbol.len)?;
    member(text, "parent_section", &symbol.parent_offset.section)?;
    member(text, "parent_offset", &symbol.parent_offset.offset)?;
    member(text, "end", &symbol.end)
}

/// Writes the members of a thunk.
fn thunk(text: &mut Writer, symbol: &ThunkSymbol) -> Result<(), ExportError> {
    member(text, "kind", &"Thunk")?;
    section_offset(text, symbol.offset)?;
    member(text, "len", &symbol.len)?;
    member(text, "name", &symbol.name)?;
    member(text, "end", &symbol.end)
}

/// Writes the members of an inline site.
fn inline_site(text: &mut Writer, symbol: &InlineSiteSymbol) -> Result<(), ExportError> {
    member(text, "kind", &"InlineSite")?;
    member(text, "inlinee", &symbol.inlinee)?;
    member(text, "end", &symbol.end)?;
    member(text, "rows", &symbol.rows)
}

impl ToJson for InlineRow {
    fn to_json(&self, text: &mut Writer) -> Result<(), ExportError> {
        text.begin_object()?;
        member(text, "offset", &self.offset)?;
        optional(text, "length", &self.length)?;
        member(text, "file_index", &self.file_index)?;
        member(text, "line_start", &self.line_start)?;
        Ok(text.end_object()?)
    }
}
