//! The keys by which functions and procedures of modules are cached.

ghost use Rattle.std.specs.Prelude.{◌≡◌};

use pdb_functions::ProcedureSymbolFunction;
use pdb_records::PdbInternalSectionOffset;

// The key of a function of a module: the module index, and the section offset of its start.
#[derive(Clone, Copy, PartialEq, Eq, PartialOrd, Ord)]
pub(crate) struct FunctionKey {
    pub(crate) module_index: usize,
    pub(crate) section: u16,
    pub(crate) offset: u32,
}

// The key of a procedure of a module: the module index, and the positions of the symbols that open and close it.
#[derive(Clone, Copy, PartialEq, Eq, PartialOrd, Ord)]
pub struct ProcedureKey {
    pub(crate) module_index: usize,
    pub(crate) symbol: usize,
    pub(crate) end: usize,
}

// The key of the function that starts at a section offset, in the module at a module index.
pub(crate) fn function_key(module_index: usize, start: PdbInternalSectionOffset) -> FunctionKey
    ensures { result ≡ record { module_index = module_index; section = start.section; offset = start.offset } }
{
    FunctionKey {
        module_index,
        section: start.section,
        offset: start.offset,
    }
}

// The key of a procedure of the module at a module index.
pub(crate) fn procedure_key(
    module_index: usize,
    procedure: &ProcedureSymbolFunction<'_>,
) -> ProcedureKey
    ensures { result ≡ record {
      module_index = module_index;
      symbol = procedure.now.symbol_index.0;
      end = procedure.now.end_symbol_index.0;
    } }
{
    ProcedureKey {
        module_index,
        symbol: procedure.symbol_index.0,
        end: procedure.end_symbol_index.0,
    }
}
