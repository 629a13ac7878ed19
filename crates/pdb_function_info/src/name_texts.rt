//! Names as text, and the decorated name that replaces a procedure's own.

ghost use Rattle.std.specs.Prelude.{◌≡◌, option_map, string_bytes, IfOk};
ghost use Rattle.std.specs.Option.{option_copied};
ghost use Rattle.pdb_records.specs.Names.{lossy};
ghost use Rattle.pdb_functions.specs.Procedures.{module_procedure};
ghost use Rattle.pdb_functions.specs.FunctionMatches.{function_match};
ghost use Rattle.pdb_function_info.specs.NameTexts.{is_decorated, decorated_at, decorated_instead, symbol_name};

use pdb_functions::{FunctionMatch, GlobalFunctionTable, ProcedureSymbolFunction};
use pdb_records::{PdbInternalSectionOffset, RawString};
use pdb_tables::Probes;
use std::alloc::{AllocError, Global};

// Whether a name is decorated by a compiler.
fn is_decorated_name(name: &RawString) -> bool
    ensures { result ≡ is_decorated name.now }
{
    name.0.first() == Some(&b'?')
}

// A name as text.
pub(crate) fn text_of(alloc: Global, name: &RawString) -> Result<String, AllocError>
    ensures { IfOk result (λ s. string_bytes s ≡ lossy name.now) }
{
    name.to_string_lossy(alloc)?.into_owned(alloc)
}

// A name as text, if there is one.
pub(crate) fn text_of_name(
    alloc: Global,
    name: Option<&RawString>,
) -> Result<Option<String>, AllocError>
    ensures { IfOk result (λ text. option_map string_bytes text ≡ option_map lossy (option_copied name.entry)) }
{
    match name {
        None => Ok(None),
        Some(name) => {
            let text = text_of(alloc, name)?;
            Ok(Some(text))
        }
    }
}

/// The name of the symbol of a function that was found. A placeholder has none.
pub fn symbol_name(alloc: Global, found: FunctionMatch<'_>) -> Result<Option<String>, AllocError>
    ensures { IfOk result (λ name. option_map string_bytes name ≡ symbol_name (function_match found.entry)) }
{
    match found {
        FunctionMatch::Global { function, .. } => text_of_name(alloc, function.name),
        FunctionMatch::Procedure { procedure, .. } => text_of_name(alloc, Some(procedure.name)),
    }
}

// The decorated name of the global function that starts at a section offset.
fn decorated_name_at<'a>(
    functions: &GlobalFunctionTable<'a>,
    start: PdbInternalSectionOffset,
) -> Option<&'a RawString>
    ensures { option_map lossy (option_copied result) ≡ decorated_at functions.now start }
{
    let name = functions.function_at(start, &mut Probes::new())?.name?;
    if is_decorated_name(name) {
        Some(name)
    } else {
        None
    }
}

// The decorated name that replaces a procedure's own, if there is one: for a procedure without a type, the decorated
// public symbol at its start.
pub(crate) fn decorated_name_instead<'a>(
    functions: &GlobalFunctionTable<'a>,
    procedure: ProcedureSymbolFunction<'_>,
) -> Option<&'a RawString>
    ensures { option_map lossy (option_copied result)
        ≡ decorated_instead functions.now (module_procedure procedure.entry) }
{
    if procedure.type_index.0 != 0 || is_decorated_name(procedure.name) {
        return None;
    }
    decorated_name_at(functions, procedure.offset)
}
