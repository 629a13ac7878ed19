//! Symbols for checks: procedures and sites with rows.

use pdb_records::{
    FileIndex, IdIndex, InlineRow, InlineSiteSymbol, PdbInternalSectionOffset, ProcedureSymbol,
    RawString, Reading, StreamError, Symbol, SymbolData, SymbolIndex, TypeIndex,
};
use std::alloc::{AllocError, Global};

/// A row: its offset, its length, and the numbers of its file and line.
pub(crate) type Row = (u32, Option<u32>, u32, u32);

/// A symbol: its kind and its content.
pub(crate) type Shown<'a> = (u16, Content<'a>);

/// The content of a symbol.
#[derive(Clone, Copy)]
pub(crate) enum Content<'a> {
    /// Other content.
    Other,
    /// A procedure: the position of its end symbol.
    Procedure(usize),
    /// A site: its id, the position of its end symbol, its rows, and the fault after them.
    Site(u32, usize, &'a [Row], Option<StreamError>),
}

/// The rows of a site, as records.
fn rows_of(
    alloc: Global,
    rows: &[Row],
    fault: Option<StreamError>,
) -> Result<Reading<InlineRow>, AllocError> {
    let mut items = Vec::new(alloc);
    for &(offset, length, file, line_start) in rows {
        items.push(InlineRow {
            offset,
            length,
            file_index: FileIndex(file),
            line_start,
        })?;
    }
    Ok(Reading { items, fault })
}

/// The content of a symbol, as a record.
fn content_of(alloc: Global, content: Content<'_>) -> Result<SymbolData, AllocError> {
    Ok(match content {
        Content::Other => SymbolData::Other,
        Content::Procedure(end) => SymbolData::Procedure(ProcedureSymbol {
            offset: PdbInternalSectionOffset {
                section: 1,
                offset: 0x60,
            },
            len: 4,
            name: RawString(Vec::new(alloc)),
            end: SymbolIndex(end),
            type_index: TypeIndex(0),
        }),
        Content::Site(inlinee, end, rows, fault) => SymbolData::InlineSite(InlineSiteSymbol {
            inlinee: IdIndex(inlinee),
            end: SymbolIndex(end),
            rows: rows_of(alloc, rows, fault)?,
        }),
    })
}

/// Symbols, as records.
pub(crate) fn symbols_of(alloc: Global, shown: &[Shown<'_>]) -> Result<Vec<Symbol>, AllocError> {
    let mut symbols = Vec::new(alloc);
    for &(raw_kind, content) in shown {
        symbols.push(Symbol {
            raw_kind,
            content: Some(content_of(alloc, content)?),
        })?;
    }
    Ok(symbols)
}
