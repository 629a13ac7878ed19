//! Computes the inline ranges of a procedure from the symbols of its module.

ghost use Rattle.pdb_errors.specs.Outcomes.{Gives};
ghost use Rattle.pdb_inline.specs.InlineRanges.{procedure_inline_ranges};

use pdb_errors::Result;
use pdb_functions::ProcedureSymbolFunction;
use pdb_inline::{InlineRange, inline_ranges_of_procedure};
use pdb_records::{IdIndex, ModuleInfo};
use std::alloc::Global;
use std::collections::BTreeSet;

/// The ranges of a procedure's code that came from inlined bodies, sorted by depth and start.
///
/// Each site has the ranges of its own rows. It also has a range for each run of code that rows of sites inside it
/// cover, but its own rows don't; such a range has the file of the site's first row, and no line. With equal depth and
/// start, ranges of rows come before added ones, and sites in the order of their symbols. Rows count only if the site's
/// id is among the inlinees.
///
/// # Errors
///
/// [`Error::PdbError`](pdb_errors::Error::PdbError) if the procedure's symbols continue to the end of the list, and the
/// list ends early.
pub fn compute_procedure_inline_ranges(
    alloc: Global,
    module_info: &ModuleInfo,
    procedure: &ProcedureSymbolFunction<'_>,
    inlinees: &BTreeSet<IdIndex>,
) -> Result<Vec<InlineRange>>
    ensures { Gives (λ v. v.items) result
        (procedure_inline_ranges inlinees.now.keys module_info.now
        procedure.now.symbol_index.0 procedure.now.end_symbol_index.0) }
{
    let position = procedure.symbol_index;
    let end = procedure.end_symbol_index;
    inline_ranges_of_procedure(alloc, module_info, position, end, inlinees)
}
