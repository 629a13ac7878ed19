//! Symbols: public symbols, procedures, separated code, thunks and inline sites, and the lists of them.

use crate::addresses::PdbInternalSectionOffset;
use crate::ids::IdIndex;
use crate::lines::FileIndex;
use crate::raw_string::RawString;
use crate::reading::Reading;
use crate::types::TypeIndex;

/// A position in a list of symbols, counted from 0.
#[derive(Clone, Copy, PartialEq, Eq, PartialOrd, Ord, Hash)]
pub struct SymbolIndex(pub usize);

/// The global symbols of a program.
pub struct SymbolTable {
    pub symbols: Reading<Symbol>,
}

impl Drop for SymbolTable {
    fn drop(self) {
        let SymbolTable { symbols: _ } = self;
    }
}

/// A symbol. Its kind decides whether it counts, and its content decides how.
pub struct Symbol {
    /// The number of its kind, such as [`S_GPROC32`](crate::S_GPROC32).
    pub raw_kind: u16,
    /// Its content, or `None` if that can't be read.
    pub content: Option<SymbolData>,
}

impl Drop for Symbol {
    fn drop(self) {
        let Symbol {
            raw_kind: _,
            content: _,
        } = self;
    }
}

/// The content of a symbol.
pub enum SymbolData {
    Public(PublicSymbol),
    Procedure(ProcedureSymbol),
    SeparatedCode(SeparatedCodeSymbol),
    Thunk(ThunkSymbol),
    InlineSite(InlineSiteSymbol),
    /// Anything else.
    Other,
}

impl Drop for SymbolData {
    fn drop(self) {
        match self {
            SymbolData::Public(_) => {}
            SymbolData::Procedure(_) => {}
            SymbolData::SeparatedCode(_) => {}
            SymbolData::Thunk(_) => {}
            SymbolData::InlineSite(_) => {}
            SymbolData::Other => {}
        }
    }
}

/// A public symbol: a name that is visible outside its module.
pub struct PublicSymbol {
    /// The start of the function or variable that it names.
    pub offset: PdbInternalSectionOffset,
    /// The name, usually decorated with the types of its parameters.
    pub name: RawString,
}

impl Drop for PublicSymbol {
    fn drop(self) {
        let PublicSymbol { offset: _, name: _ } = self;
    }
}

/// A procedure.
pub struct ProcedureSymbol {
    /// The start of its code.
    pub offset: PdbInternalSectionOffset,
    /// The size of its code in bytes.
    pub len: u32,
    /// Its name, without its parameters.
    pub name: RawString,
    /// The position of the symbol that closes it.
    pub end: SymbolIndex,
    /// Its type, or 0 if none is known.
    pub type_index: TypeIndex,
}

impl Drop for ProcedureSymbol {
    fn drop(self) {
        let ProcedureSymbol {
            offset: _,
            len: _,
            name: _,
            end: _,
            type_index: _,
        } = self;
    }
}

/// Separated code: code of a procedure that is apart from its body, such as rarely run error handling.
pub struct SeparatedCodeSymbol {
    /// The start of the code.
    pub offset: PdbInternalSectionOffset,
    /// The size of the code in bytes.
    pub len: u32,
    /// The start of the procedure to which it belongs.
    pub parent_offset: PdbInternalSectionOffset,
    /// The position of the symbol that closes it.
    pub end: SymbolIndex,
}

impl Drop for SeparatedCodeSymbol {
    fn drop(self) {
        let SeparatedCodeSymbol {
            offset: _,
            len: _,
            parent_offset: _,
            end: _,
        } = self;
    }
}

/// A thunk: a few instructions that jump to a procedure.
pub struct ThunkSymbol {
    /// The start of its code.
    pub offset: PdbInternalSectionOffset,
    /// The size of the code in bytes.
    pub len: u16,
    pub name: RawString,
    /// The position of the symbol that closes it.
    pub end: SymbolIndex,
}

impl Drop for ThunkSymbol {
    fn drop(self) {
        let ThunkSymbol {
            offset: _,
            len: _,
            name: _,
            end: _,
        } = self;
    }
}

/// An inline site: a place in a procedure where a call was replaced by the callee's body.
pub struct InlineSiteSymbol {
    /// The function that was inlined.
    pub inlinee: IdIndex,
    /// The position of the symbol that closes it.
    pub end: SymbolIndex,
    /// The code of the body, row by row.
    pub rows: Reading<InlineRow>,
}

impl Drop for InlineSiteSymbol {
    fn drop(self) {
        let InlineSiteSymbol {
            inlinee: _,
            end: _,
            rows: _,
        } = self;
    }
}

/// A row of an inline site: bytes of the inlined body's code that come from one line.
#[derive(Clone, Copy)]
pub struct InlineRow {
    /// The offset in bytes from the start of the procedure's section.
    pub offset: u32,
    /// The size of the code in bytes, if it is known.
    pub length: Option<u32>,
    pub file_index: FileIndex,
    pub line_start: u32,
}
