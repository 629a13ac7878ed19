//! Collects the procedures of a module from its symbols: functions, separated code and thunks.

ghost use Rattle.std.specs.Prelude.{◌≡◌, ◌+◌, map, option_map, Option, Some, None, IfOk, IfErr, OnErr};
ghost use Rattle.std.specs.Borrow.{Bor};
ghost use Rattle.pdb_records.specs.declared.error.Error.TheVariants.{Stream};
ghost use Rattle.pdb_records.specs.declared.symbols.Symbol.{Symbol};
ghost use Rattle.pdb_records.specs.declared.symbols.SymbolData.{SymbolData};
ghost use Rattle.pdb_errors.specs.declared.error.Error.TheVariants.{PdbError, OutOfMemory};
ghost use Rattle.pdb_functions.specs.Procedures.{module_procedure, unless_empty, procedure_data};
ghost use Rattle.pdb_functions.specs.Procedures.{procedure_at, procedures_from, symbol_procedures};
ghost use Rattle.pdb_functions.specs.Starts.{StartsAscend};

use pdb_records::{
    PdbInternalSectionOffset, ProcedureSymbol, RawString, SeparatedCodeSymbol, Symbol, SymbolData,
    SymbolIndex, ThunkSymbol, TypeIndex, is_code_kind,
};
use pdb_tables::{Keyed, first_of_each_key};
use std::alloc::{AllocError, Global};

/// A procedure of a module: its code, its name, its type, and its place in the module's symbols.
#[derive(Clone, Copy)]
pub struct ProcedureSymbolFunction<'a> {
    /// The start of its code.
    pub offset: PdbInternalSectionOffset,
    /// The size of its code in bytes, at least 1.
    pub len: u32,
    /// Its name. Separated code has the name of its procedure.
    pub name: &'a RawString,
    /// The position of its symbol.
    pub symbol_index: SymbolIndex,
    /// The position of the symbol that closes it.
    pub end_symbol_index: SymbolIndex,
    /// Its type, or 0 if none is known.
    pub type_index: TypeIndex,
}

impl Keyed for ProcedureSymbolFunction<'_> {
    type Key = PdbInternalSectionOffset;

    ghost key_of = { λ p. p.offset };

    fn key(&self) -> PdbInternalSectionOffset {
        self.offset
    }
}

// A procedure, unless its code is empty.
fn non_empty(procedure: ProcedureSymbolFunction<'_>) -> Option<ProcedureSymbolFunction<'_>>
    ensures { option_map module_procedure result ≡ unless_empty (module_procedure procedure.entry) }
{
    if procedure.len == 0 {
        return None;
    }
    Some(procedure)
}

fn of_procedure(at: usize, symbol: &ProcedureSymbol) -> Option<ProcedureSymbolFunction<'_>>
    ensures { option_map module_procedure result ≡ procedure_data at None (Some (SymbolData.Procedure symbol.now)) }
{
    non_empty(ProcedureSymbolFunction {
        offset: symbol.offset,
        len: symbol.len,
        name: &symbol.name,
        symbol_index: SymbolIndex(at),
        end_symbol_index: symbol.end,
        type_index: symbol.type_index,
    })
}

fn of_separated_code<'a>(
    at: usize,
    last: Option<ProcedureSymbolFunction<'a>>,
    symbol: &SeparatedCodeSymbol,
) -> Option<ProcedureSymbolFunction<'a>>
    ensures { option_map module_procedure result
        ≡ procedure_data at (option_map module_procedure last.entry) (Some (SymbolData.SeparatedCode symbol.now)) }
{
    let parent = last?;
    if parent.offset != symbol.parent_offset {
        return None;
    }
    non_empty(ProcedureSymbolFunction {
        offset: symbol.offset,
        len: symbol.len,
        name: parent.name,
        symbol_index: SymbolIndex(at),
        end_symbol_index: symbol.end,
        type_index: parent.type_index,
    })
}

fn of_thunk(at: usize, symbol: &ThunkSymbol) -> Option<ProcedureSymbolFunction<'_>>
    ensures { option_map module_procedure result ≡ procedure_data at None (Some (SymbolData.Thunk symbol.now)) }
{
    non_empty(ProcedureSymbolFunction {
        offset: symbol.offset,
        len: u32::from(symbol.len),
        name: &symbol.name,
        symbol_index: SymbolIndex(at),
        end_symbol_index: symbol.end,
        type_index: TypeIndex(0),
    })
}

// The procedure of the symbol at a position, if it has one. `last` is the last procedure before it, from which
// separated code takes its name and type.
fn procedure_of<'a>(
    at: usize,
    last: Option<ProcedureSymbolFunction<'a>>,
    symbol: &'a Symbol,
) -> Option<ProcedureSymbolFunction<'a>>
    ensures { option_map module_procedure result
        ≡ procedure_at at (option_map module_procedure last.entry) symbol.now }
{
    if !is_code_kind(symbol.raw_kind) {
        return None;
    }
    match &symbol.content {
        Some(SymbolData::Procedure(procedure)) => of_procedure(at, procedure),
        Some(SymbolData::SeparatedCode(code)) => of_separated_code(at, last, code),
        Some(SymbolData::Thunk(thunk)) => of_thunk(at, thunk),
        _ => None,
    }
}

// The procedures of symbols, in file order.
fn procedures_in_reading_order(
    alloc: Global,
    symbols: &[Symbol],
) -> Result<Vec<ProcedureSymbolFunction<'_>>, AllocError>
    ensures { IfOk result (λ v. map module_procedure v.items ≡ procedures_from 0 None symbols.now) }
{
    let mut procedures = Vec::new(alloc);
    let mut last = None;
    for (at, symbol) in symbols.iter().enumerate() {
        if let Some(procedure) = procedure_of(at, last, symbol) {
            procedures.push(procedure)?;
            last = Some(procedure);
        }
    }
    Ok(procedures)
}

// The procedures of symbols, sorted by section and start. At each start the first one in file order is kept.
pub(crate) fn compute_procedures(
    alloc: Global,
    symbols: &[Symbol],
) -> Result<Vec<ProcedureSymbolFunction<'_>>, AllocError>
    ensures answer { IfOk result (λ v. map module_procedure v.items ≡ symbol_procedures symbols.now) }
    ensures ascend { IfOk result (λ v. StartsAscend (λ p. p.offset) v.items) }
{
    let procedures = procedures_in_reading_order(alloc, symbols)?;
    let counted = first_of_each_key(alloc, procedures)?;
    Ok(counted)
}
