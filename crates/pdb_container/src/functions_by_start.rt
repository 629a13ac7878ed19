//! Tables of functions by their starts, with names and types.

ghost use Rattle.std.specs.Prelude.{◌≡◌, ℕ, IfOk, OnOk};
ghost use Rattle.std.specs.BTreeMap.{get};
ghost use Rattle.std.specs.Option.{option_or};
ghost use Rattle.std.specs.Ordering.{nat_cmp};
ghost use Rattle.pdb_container.specs.DebugRecords.{tabled};
ghost use Rattle.pdb_container.specs.FunctionsByStart.{any_function, function_at, function_of, seen};

use crate::module_places::ModuleInfoResult;
use pdb_codeview::place;
use pdb_records::{RawString, StreamError, Symbol, SymbolData, SymbolTable, TypeIndex};
use pdb_tables::insert_first;
use std::alloc::{AllocError, Global};
use std::collections::BTreeMap;

/// A function that symbols list: its start, name and type.
#[derive(Clone, Copy)]
pub struct NamedFunction<'a> {
    /// The section offset of its start, as one number (`place`).
    pub start: u64,
    pub name: &'a RawString,
    pub type_index: TypeIndex,
}

/// Functions by their starts.
pub type Functions<'a> = BTreeMap<u64, NamedFunction<'a>>;

fn function_of(content: &Option<SymbolData>) -> Option<NamedFunction<'_>>
    ensures { seen result ≡ function_of content.now }
{
    match content {
        Some(SymbolData::Procedure(symbol)) => Some(NamedFunction {
            start: place(symbol.offset),
            name: &symbol.name,
            type_index: symbol.type_index,
        }),
        Some(SymbolData::Public(symbol)) => Some(NamedFunction {
            start: place(symbol.offset),
            name: &symbol.name,
            type_index: TypeIndex(0),
        }),
        _ => None,
    }
}

// Adds the functions that symbols list. At each start the first one is kept.
fn add_functions<'m>(functions: &mut Functions<'m>, symbols: &'m [Symbol]) -> Result<(), AllocError>
    ensures { OnOk result ((asked : ℕ) → seen (get nat_cmp functions.new asked)
        ≡ option_or (seen (get nat_cmp functions.old asked)) (function_at asked symbols.now)) }
{
    for symbol in symbols {
        if let Some(function) = function_of(&symbol.content) {
            insert_first(functions, function.start, function)?;
        }
    }
    Ok(())
}

/// The functions that symbols list, by start. At each start the first one counts.
pub fn functions_of<'m>(alloc: Global, symbols: &'m [Symbol]) -> Result<Functions<'m>, AllocError>
    ensures { IfOk result (λ functions.
        (asked : ℕ) → seen (get nat_cmp functions asked) ≡ function_at asked symbols.now) }
{
    let mut functions = BTreeMap::new(alloc);
    add_functions(&mut functions, symbols)?;
    Ok(functions)
}

/// The functions that modules list, by start, and public symbols at other starts. At each start the first one counts.
pub fn all_functions<'m>(
    alloc: Global,
    modules: &'m [ModuleInfoResult],
    global_symbols: &'m Result<SymbolTable, StreamError>,
) -> Result<Functions<'m>, AllocError>
    ensures { IfOk result (λ functions. (asked : ℕ) → seen (get nat_cmp functions asked)
        ≡ any_function modules.now (tabled global_symbols.now) asked) }
{
    let mut functions = BTreeMap::new(alloc);
    for read in modules {
        if let Ok(Some(info)) = read {
            add_functions(&mut functions, &info.symbols.items)?;
        }
    }
    if let Ok(table) = global_symbols {
        add_functions(&mut functions, &table.symbols.items)?;
    }
    Ok(functions)
}
