//! Reads symbols and their kinds, and the indices of types, ids, files and symbols.

ghost use Rattle.serde_json.specs.View.{view};
ghost use Rattle.pdb_json_values.specs.RecordFault.{Agrees};
ghost use Rattle.pdb_json_records.specs.Symbols.{type_index_of, id_index_of, file_index_of, symbol_index_of, public_of};
ghost use Rattle.pdb_json_records.specs.Symbols.{procedure_of, separated_code_of, thunk_of, row_of, inline_site_of};
ghost use Rattle.pdb_json_records.specs.Symbols.{data_named, data_of, symbol_of, symbol_table_of};

use crate::members::{FromJson, member};
use crate::name_values::{kind, unknown_kind};
use crate::sections::section_offset;
use pdb_json_values::{Reader, RecordFault, object};
use pdb_records::{
    FileIndex, IdIndex, InlineRow, InlineSiteSymbol, ProcedureSymbol, PublicSymbol,
    SeparatedCodeSymbol, Symbol, SymbolData, SymbolIndex, SymbolTable, ThunkSymbol, TypeIndex,
};
use serde_json::Value;

impl FromJson for TypeIndex {
    ghost read = { λ _. type_index_of };

    #[tactic(auto, unfolding(crate::specs::Symbols::type_index_of))]
    fn from_json(reader: Reader, value: Option<&Value>) -> Result<TypeIndex, RecordFault> {
        Ok(TypeIndex(FromJson::from_json(reader, value)?))
    }
}

impl FromJson for IdIndex {
    ghost read = { λ _. id_index_of };

    #[tactic(auto, unfolding(crate::specs::Symbols::id_index_of))]
    fn from_json(reader: Reader, value: Option<&Value>) -> Result<IdIndex, RecordFault> {
        Ok(IdIndex(FromJson::from_json(reader, value)?))
    }
}

impl FromJson for FileIndex {
    ghost read = { λ _. file_index_of };

    #[tactic(auto, unfolding(crate::specs::Symbols::file_index_of))]
    fn from_json(reader: Reader, value: Option<&Value>) -> Result<FileIndex, RecordFault> {
        Ok(FileIndex(FromJson::from_json(reader, value)?))
    }
}

impl FromJson for SymbolIndex {
    ghost read = { λ _. symbol_index_of };

    #[tactic(auto, unfolding(crate::specs::Symbols::symbol_index_of))]
    fn from_json(reader: Reader, value: Option<&Value>) -> Result<SymbolIndex, RecordFault> {
        Ok(SymbolIndex(FromJson::from_json(reader, value)?))
    }
}

// Reads a public symbol.
#[tactic(auto, unfolding(crate::specs::Symbols::public_of))]
fn public(reader: Reader, object: &Value) -> Result<PublicSymbol, RecordFault>
    ensures { Agrees result (public_of reader.version (view object.now)) }
{
    Ok(PublicSymbol {
        offset: section_offset(reader, object, "section", "offset")?,
        name: member(reader, object, "name")?,
    })
}

// Reads a procedure.
#[tactic(auto, unfolding(crate::specs::Symbols::procedure_of))]
fn procedure(reader: Reader, object: &Value) -> Result<ProcedureSymbol, RecordFault>
    ensures { Agrees result (procedure_of reader.version (view object.now)) }
{
    Ok(ProcedureSymbol {
        offset: section_offset(reader, object, "section", "offset")?,
        len: member(reader, object, "len")?,
        name: member(reader, object, "name")?,
        end: member(reader, object, "end")?,
        type_index: member(reader, object, "type_index")?,
    })
}

// Reads separated code.
#[tactic(auto, unfolding(crate::specs::Symbols::separated_code_of))]
fn separated_code(reader: Reader, object: &Value) -> Result<SeparatedCodeSymbol, RecordFault>
    ensures { Agrees result (separated_code_of (view object.now)) }
{
    Ok(SeparatedCodeSymbol {
        offset: section_offset(reader, object, "section", "offset")?,
        len: member(reader, object, "len")?,
        parent_offset: section_offset(reader, object, "parent_section", "parent_offset")?,
        end: member(reader, object, "end")?,
    })
}

// Reads a thunk.
#[tactic(auto, unfolding(crate::specs::Symbols::thunk_of))]
fn thunk(reader: Reader, object: &Value) -> Result<ThunkSymbol, RecordFault>
    ensures { Agrees result (thunk_of reader.version (view object.now)) }
{
    Ok(ThunkSymbol {
        offset: section_offset(reader, object, "section", "offset")?,
        len: member(reader, object, "len")?,
        name: member(reader, object, "name")?,
        end: member(reader, object, "end")?,
    })
}

impl FromJson for InlineRow {
    ghost read = { λ _. row_of };

    #[tactic(auto, unfolding(crate::specs::Symbols::row_of))]
    fn from_json(reader: Reader, value: Option<&Value>) -> Result<InlineRow, RecordFault> {
        let row = object(reader, value)?;
        Ok(InlineRow {
            offset: member(reader, row, "offset")?,
            length: member(reader, row, "length")?,
            file_index: member(reader, row, "file_index")?,
            line_start: member(reader, row, "line_start")?,
        })
    }
}

// Reads an inline site.
#[tactic(auto, unfolding(crate::specs::Symbols::inline_site_of))]
fn inline_site(reader: Reader, object: &Value) -> Result<InlineSiteSymbol, RecordFault>
    ensures { Agrees result (inline_site_of (view object.now)) }
{
    Ok(InlineSiteSymbol {
        inlinee: member(reader, object, "inlinee")?,
        end: member(reader, object, "end")?,
        rows: member(reader, object, "rows")?,
    })
}

// Reads the content of a symbol, by the name of its kind.
#[tactic(auto, unfolding(crate::specs::Symbols::data_named))]
fn symbol_data(reader: Reader, kind: &str, object: &Value) -> Result<SymbolData, RecordFault>
    ensures { Agrees result (data_named reader.version kind.now (view object.now)) }
{
    Ok(match kind {
        "Public" => SymbolData::Public(public(reader, object)?),
        "Procedure" => SymbolData::Procedure(procedure(reader, object)?),
        "SeparatedCode" => SymbolData::SeparatedCode(separated_code(reader, object)?),
        "Thunk" => SymbolData::Thunk(thunk(reader, object)?),
        "InlineSite" => SymbolData::InlineSite(inline_site(reader, object)?),
        "Other" => SymbolData::Other,
        _ => return unknown_kind(reader),
    })
}

impl FromJson for SymbolData {
    ghost read = { data_of };

    #[tactic(auto, unfolding(crate::specs::Symbols::data_of))]
    fn from_json(reader: Reader, value: Option<&Value>) -> Result<SymbolData, RecordFault> {
        let symbol = object(reader, value)?;
        let kind = kind(reader, symbol)?;
        symbol_data(reader, kind, symbol)
    }
}

impl FromJson for Symbol {
    ghost read = { symbol_of };

    #[tactic(auto, unfolding(crate::specs::Symbols::symbol_of))]
    fn from_json(reader: Reader, value: Option<&Value>) -> Result<Symbol, RecordFault> {
        let symbol = object(reader, value)?;
        Ok(Symbol {
            raw_kind: member(reader, symbol, "raw_kind")?,
            content: member(reader, symbol, "data")?,
        })
    }
}

impl FromJson for SymbolTable {
    ghost read = { symbol_table_of };

    #[tactic(auto, unfolding(crate::specs::Symbols::symbol_table_of))]
    fn from_json(reader: Reader, value: Option<&Value>) -> Result<SymbolTable, RecordFault> {
        Ok(SymbolTable {
            symbols: FromJson::from_json(reader, value)?,
        })
    }
}
