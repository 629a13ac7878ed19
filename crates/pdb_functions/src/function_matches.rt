//! `FunctionMatch`: the function at a section offset, which is a procedure of a module or else a global function.

ghost use Rattle.std.specs.Prelude.{◌≡◌, option_map};
ghost use Rattle.pdb_functions.specs.GlobalFunctions.{global_function};
ghost use Rattle.pdb_functions.specs.FunctionMatches.{function_match, function_module, function_start, global_in};

use crate::global_functions::GlobalFunction;
use crate::merged_contributions::ModuleSectionContribution;
use crate::procedures::ProcedureSymbolFunction;
use pdb_records::PdbInternalSectionOffset;

/// The function at a section offset, with the module index of its module.
#[derive(Clone, Copy)]
pub enum FunctionMatch<'a> {
    /// A global function.
    Global {
        module_index: usize,
        function: GlobalFunction<'a>,
        /// The position of the next global function in the table.
        next_place: usize,
    },
    /// A procedure of the module.
    Procedure {
        module_index: usize,
        procedure: ProcedureSymbolFunction<'a>,
    },
}

impl FunctionMatch<'_> {
    /// The module index of the function's module.
    pub fn module_index(self) -> usize
        ensures { result ≡ function_module (function_match self.entry) }
    {
        match self {
            FunctionMatch::Global { module_index, .. } => module_index,
            FunctionMatch::Procedure { module_index, .. } => module_index,
        }
    }

    /// The start of the function.
    pub fn start(self) -> PdbInternalSectionOffset
        ensures { result ≡ function_start (function_match self.entry) }
    {
        match self {
            FunctionMatch::Global { function, .. } => function.start_offset,
            FunctionMatch::Procedure { procedure, .. } => procedure.offset,
        }
    }
}

/// A global function, unless it starts before the contribution. `next_place` is the position of the next one.
pub fn global_function_in(
    contribution: ModuleSectionContribution,
    function: Option<GlobalFunction<'_>>,
    next_place: usize,
) -> Option<FunctionMatch<'_>>
    ensures { option_map function_match result ≡ global_in contribution (option_map global_function function.entry) }
{
    let function = function?;
    if function.start_offset.offset < contribution.start_offset {
        return None;
    }
    Some(FunctionMatch::Global {
        module_index: contribution.module_index,
        function,
        next_place,
    })
}
