//! Checks of the procedures of a module.

use crate::checks::Checks;
use crate::modules::{is_fault, module_of};
use pdb_errors::Result;
use pdb_functions::{
    BasicModuleInfo, FunctionMatch, GlobalFunction, ModuleSectionContribution,
    ProcedureSymbolFunction, global_function_in,
};
use pdb_records::{
    ModuleInfo, PdbInternalSectionOffset, ProcedureSymbol, RawString, S_GPROC32, S_LPROC32,
    S_SEPCODE, S_THUNK32, SeparatedCodeSymbol, StreamError, Symbol, SymbolData, SymbolIndex,
    ThunkSymbol, TypeIndex,
};
use pdb_tables::Probes;
use std::alloc::{AllocError, Global};

/// A procedure: its offset, its length, its name, the positions of its symbol and its end, and its type.
type Shown<'a> = (u32, u32, &'a [u8], usize, usize, u32);

/// Procedures, one of them empty and one with the start of another, with separated code and a thunk.
static CODE: [Code<'static>; 6] = [
    Code::Procedure(S_GPROC32, 0x40, 0x10, b"f"),
    Code::Separated(0x80, 0x40),
    Code::Separated(0x90, 0x40),
    Code::Procedure(S_LPROC32, 0x20, 0, b"empty"),
    Code::Procedure(S_LPROC32, 0x40, 8, b"later"),
    Code::Thunk(0x10),
];

/// The procedures of [`CODE`].
static PROCEDURES: [Shown<'static>; 3] = [
    (0x10, 6, b"t", 5, 6, 0),
    (0x40, 0x10, b"f", 0, 9, 7),
    (0x80, 4, b"f", 1, 8, 7),
];

/// A section offset in the first section.
fn section_offset(offset: u32) -> PdbInternalSectionOffset {
    PdbInternalSectionOffset { section: 1, offset }
}

/// The code of a symbol.
#[derive(Clone, Copy)]
enum Code<'a> {
    /// A procedure: its kind, its offset, its length and its name.
    Procedure(u16, u32, u32, &'a [u8]),
    /// Separated code: its offset, and that of its procedure.
    Separated(u32, u32),
    /// A thunk: its offset.
    Thunk(u32),
}

/// The symbol of a piece of code.
fn symbol(alloc: Global, code: Code<'_>) -> Result<Symbol, AllocError> {
    let (raw_kind, content) = match code {
        Code::Procedure(raw_kind, offset, len, name) => (
            raw_kind,
            SymbolData::Procedure(ProcedureSymbol {
                offset: section_offset(offset),
                len,
                name: RawString(name.to_vec(alloc)?),
                end: SymbolIndex(9),
                type_index: TypeIndex(7),
            }),
        ),
        Code::Separated(offset, parent) => (
            S_SEPCODE,
            SymbolData::SeparatedCode(SeparatedCodeSymbol {
                offset: section_offset(offset),
                len: 4,
                parent_offset: section_offset(parent),
                end: SymbolIndex(8),
            }),
        ),
        Code::Thunk(offset) => (
            S_THUNK32,
            SymbolData::Thunk(ThunkSymbol {
                offset: section_offset(offset),
                len: 6,
                name: RawString(b"t".to_vec(alloc)?),
                end: SymbolIndex(6),
            }),
        ),
    };
    Ok(Symbol {
        raw_kind,
        content: Some(content),
    })
}

/// The symbols of pieces of code.
fn symbols(alloc: Global, code: &[Code<'_>]) -> Result<Vec<Symbol>, AllocError> {
    let mut symbols = Vec::new(alloc);
    for piece in code {
        symbols.push(symbol(alloc, *piece)?)?;
    }
    Ok(symbols)
}

/// Whether a procedure is this one.
fn is_procedure(procedure: &ProcedureSymbolFunction<'_>, wanted: &Shown<'_>) -> bool {
    let &(offset, len, bytes, position, end, type_index) = wanted;
    let name: &RawString = procedure.name;
    procedure.offset == section_offset(offset)
        && procedure.len == len
        && name.0.as_slice() == bytes
        && procedure.symbol_index == SymbolIndex(position)
        && procedure.end_symbol_index == SymbolIndex(end)
        && procedure.type_index == TypeIndex(type_index)
}

/// Whether procedures are these, in this order.
fn are_procedures(procedures: &[ProcedureSymbolFunction<'_>], wanted: &[Shown<'_>]) -> bool {
    procedures.len() == wanted.len()
        && procedures
            .iter()
            .zip(wanted)
            .all(|(procedure, wanted)| is_procedure(procedure, wanted))
}

/// Whether a module of [`CODE`] holds its symbols, and has [`PROCEDURES`].
fn has_procedures(alloc: Global) -> Result<bool> {
    let info = module_of(alloc, symbols(alloc, &CODE)?, None);
    let basic = BasicModuleInfo::try_from_module_info(alloc, &info)?;
    Ok(
        basic.module_info().symbols.items.len() == CODE.len()
            && are_procedures(basic.procedures(), &PROCEDURES),
    )
}

/// Whether a module is refused for the fault after its symbols.
fn is_refused(alloc: Global) -> bool {
    let fault = StreamError(3);
    let info = module_of(alloc, Vec::new(alloc), Some(fault));
    BasicModuleInfo::try_from_module_info(alloc, &info).is_err_and(|error| is_fault(&error, fault))
}

/// Three thousand procedures in descending order, each of which contains the start of the next one in the code.
fn descending(alloc: Global) -> Result<Vec<Code<'static>>, AllocError> {
    let mut code = Vec::new(alloc);
    for at in 0..3000u32 {
        code.push(Code::Procedure(S_GPROC32, 0x10 * (2999 - at), 0x18, b"f"))?;
    }
    Ok(code)
}

/// The match of a global function that starts at an offset, in the contribution of module 5 from 0x10 on.
fn found_from(offset: u32) -> Option<FunctionMatch<'static>> {
    let contribution = ModuleSectionContribution {
        section_index: 1,
        start_offset: 0x10,
        end_offset: 0x20,
        module_index: 5,
    };
    let function = GlobalFunction {
        start_offset: section_offset(offset),
        name: None,
    };
    global_function_in(contribution, Some(function), 0)
}

/// Whether a module has three thousand procedures, with one at a section offset and none at another.
fn finds_thousands(alloc: Global) -> Result<bool> {
    let info = module_of(alloc, symbols(alloc, &descending(alloc)?)?, None);
    let basic = BasicModuleInfo::try_from_module_info(alloc, &info)?;
    let probes = &mut Probes::new();
    let over = basic.procedure_over(section_offset(0x104), probes);
    Ok(
        over.is_some_and(|over| over.offset.offset == 0x100)
            && basic.procedures().len() == 3000
            && basic
                .procedure_over(section_offset(0x1_0000), probes)
                .is_none(),
    )
}

/// Whether the global function of a contribution that starts at an offset is one of module 5.
fn is_found_from(offset: u32) -> bool {
    matches!(
        found_from(offset),
        Some(FunctionMatch::Global {
            module_index: 5,
            ..
        })
    )
}

/// The checks of procedures, and of the global function of a contribution.
pub(crate) fn checks(alloc: Global) -> Checks {
    Checks::NONE
        .and_tried("procedures by their starts", has_procedures(alloc))
        .and("a module with a fault", is_refused(alloc))
        .and_tried("thousands of procedures", finds_thousands(alloc))
        .and(
            "a function that starts before the contribution",
            found_from(0x0f).is_none(),
        )
        .and(
            "a function that starts with the contribution",
            is_found_from(0x10),
        )
        .and(
            "a function that starts in the contribution",
            is_found_from(0x18),
        )
}
