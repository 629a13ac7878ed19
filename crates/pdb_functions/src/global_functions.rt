//! Collects global functions: starts at public symbols, at contributions and at the ends of sections.

ghost use Rattle.std.specs.Prelude.{◌≡◌, ◌++◌, map, option_map, IfOk, OnOk};
ghost use Rattle.std.specs.List.{filter_map};
ghost use Rattle.pdb_functions.specs.GlobalFunctions.{global_function, public_function, placeholder};
ghost use Rattle.pdb_functions.specs.CodeSections.{section_ends};
ghost use Rattle.pdb_functions.specs.Starts.{first_of_each_start};

use crate::code_sections::{executable_section_ends, is_executable_section};
use crate::global_function_table::GlobalFunctionTable;
use pdb_records::{
    ImageSectionHeader, PdbInternalSectionOffset, RawString, Symbol, SymbolData, is_public_kind,
};
use pdb_tables::{Keyed, first_of_each_key};
use std::alloc::{AllocError, Global};

/// A start of a function, from a public symbol, a contribution or the end of a section.
#[derive(Clone, Copy)]
pub struct GlobalFunction<'a> {
    /// The start of the function.
    pub start_offset: PdbInternalSectionOffset,
    /// The public symbol's name. Other starts, which are placeholders, have none.
    pub name: Option<&'a RawString>,
}

impl Keyed for GlobalFunction<'_> {
    type Key = PdbInternalSectionOffset;

    ghost key_of = { λ f. f.start_offset };

    fn key(&self) -> PdbInternalSectionOffset {
        self.start_offset
    }
}

// The function of a symbol, if it is a public symbol in an executable section.
fn public_symbol_function<'a>(
    sections: &[ImageSectionHeader],
    symbol: &'a Symbol,
) -> Option<GlobalFunction<'a>>
    ensures { option_map global_function result ≡ public_function sections.now symbol.now }
{
    if !is_public_kind(symbol.raw_kind) {
        return None;
    }
    match &symbol.content {
        Some(SymbolData::Public(public))
            if is_executable_section(sections, public.offset.section) => {
            Some(GlobalFunction {
                start_offset: public.offset,
                name: Some(&public.name),
            })
        }
        _ => None,
    }
}

// The functions of public symbols, in file order.
fn public_symbol_functions<'a>(
    alloc: Global,
    sections: &[ImageSectionHeader],
    symbols: &'a [Symbol],
) -> Result<Vec<GlobalFunction<'a>>, AllocError>
    ensures { IfOk result (λ v. map global_function v.items ≡ filter_map (public_function sections.now) symbols.now) }
{
    let mut functions = Vec::new(alloc);
    for symbol in symbols {
        if let Some(function) = public_symbol_function(sections, symbol) {
            functions.push(function)?;
        }
    }
    Ok(functions)
}

// Adds a start without a name for each section offset.
fn add_placeholders(
    functions: &mut Vec<GlobalFunction<'_>>,
    starts: &[PdbInternalSectionOffset],
) -> Result<(), AllocError>
    ensures { OnOk result (map global_function functions.new.items
        ≡ map global_function functions.old.items ++ map placeholder starts.now) }
{
    for start in starts {
        functions.push(GlobalFunction {
            start_offset: *start,
            name: None,
        })?;
    }
    Ok(())
}

/// Collects the global functions, sorted by section and start. At each start the first public symbol is kept, or else
/// one placeholder. The ends of executable sections are included, because the last function of a section ends there.
///
/// `contribution_starts` has the starts of the non-empty contributions in executable sections.
pub fn compute_global_functions<'a>(
    alloc: Global,
    sections: &[ImageSectionHeader],
    symbols: &'a [Symbol],
    contribution_starts: &[PdbInternalSectionOffset],
) -> Result<GlobalFunctionTable<'a>, AllocError>
    ensures { IfOk result (λ table. table
        ≡ first_of_each_start (λ f. f.start)
        (filter_map (public_function sections.now) symbols.now
        ++ map placeholder (contribution_starts.now ++ section_ends sections.now))) }
{
    let mut functions = public_symbol_functions(alloc, sections, symbols)?;
    add_placeholders(&mut functions, contribution_starts)?;
    let ends = executable_section_ends(alloc, sections)?;
    add_placeholders(&mut functions, &ends)?;
    let counted = first_of_each_key(alloc, functions)?;
    Ok(GlobalFunctionTable::new(counted))
}
