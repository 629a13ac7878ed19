//! `Function`: where a function starts and ends, and its name.

ghost use Rattle.std.specs.Prelude.{◌≡◌, Some, option_map, string_bytes, IfOk, OnOk, MatchResult};
ghost use Rattle.std.specs.Option.{option_copied, option_map_or};
ghost use Rattle.pdb_records.specs.Addresses.{rva};
ghost use Rattle.pdb_records.specs.Names.{lossy};
ghost use Rattle.pdb_errors.specs.declared.error.Error.TheVariants.{OutOfMemory};
ghost use Rattle.pdb_functions.specs.GlobalFunctions.{global_function};
ghost use Rattle.pdb_functions.specs.Procedures.{module_procedure};
ghost use Rattle.pdb_functions.specs.FunctionMatches.{function_match, procedures_of_module};
ghost use Rattle.pdb_functions.specs.SymbolNames.{name_by_symbol, GoesBySymbol};
ghost use Rattle.pdb_function_info.specs.NameTexts.{procedure_name, failed_by_name, GainsBroken};
ghost use Rattle.pdb_function_info.specs.Function.{function_view, global_end, info_of_global};
ghost use Rattle.pdb_function_info.specs.Function.{info_of_procedure, info_of, failed_after_info};

use crate::function_names::FunctionNames;
use crate::name_texts::text_of_name;
use pdb_errors::Result;
use pdb_frames::copy_of_name;
use pdb_functions::{FunctionMatch, GlobalFunction, GlobalFunctionTable, ProcedureSymbolFunction};
use pdb_records::{AddressMap, ModuleProvider};
use pdb_tables::Probes;
use std::alloc::{AllocError, Global};

/// A function's addresses and its name.
#[derive(Drop)]
pub struct Function {
    /// The start of the function, relative to where the program is loaded.
    pub start_rva: u32,
    /// The address just after the function, if it is known and fits 32 bits.
    pub end_rva: Option<u32>,
    /// The name, if it is known. That of a procedure is its signature, according to the formatter's flags. That of a
    /// public symbol may be decorated: then it begins with a question mark, and can be passed to a demangler.
    pub name: Option<String>,
}

impl Function {
    /// A copy of the function.
    pub fn clone(&self) -> Result<Self, AllocError>
        ensures { IfOk result (λ f. function_view f ≡ function_view self.now) }
    {
        Ok(Function {
            start_rva: self.start_rva,
            end_rva: self.end_rva,
            name: copy_of_name(&self.name)?,
        })
    }
}

// The function info of a procedure of a module.
fn procedure_info<'a, P: ModuleProvider>(
    address_map: &AddressMap,
    functions: &GlobalFunctionTable<'_>,
    names: &mut FunctionNames<'a, P>,
    module_index: usize,
    procedure: ProcedureSymbolFunction<'a>,
) -> Result<Option<Function>>
    requires named { name_by_symbol procedure.symbol_index.0
        (procedures_of_module (P.info names.old.provider) names.old.type_inputs.modules module_index)
        ≡ Some procedure.name.now }
    ensures answer { MatchResult result
        (λ f. option_map function_view f ≡ info_of_procedure address_map.now (module_procedure procedure.entry)
        (procedure_name P.info names.old.type_inputs functions.now
        module_index (module_procedure procedure.entry)))
        (λ e. e ≡ OutOfMemory) }
    ensures type_inputs { names.new.type_inputs ≡ names.old.type_inputs }
    ensures provider { names.new.provider ≡ names.old.provider }
    ensures failed { OnOk result (names.new.failed ≡ option_map_or
        (λ _. failed_by_name P.info names.old.type_inputs functions.now
        module_index (module_procedure procedure.entry) names.old.failed)
        (rva address_map.now (module_procedure procedure.entry).offset) names.old.failed) }
    ensures broken { GainsBroken P.info names.old.type_inputs names.old.failed names.new.failed }
{
    let Some(start) = procedure.offset.to_rva(address_map) else {
        return Ok(None);
    };
    let name = names.name_of_procedure(functions, module_index, procedure)?;
    Ok(Some(Function {
        start_rva: start.0,
        end_rva: start.0.checked_add(procedure.len),
        name,
    }))
}

// The end of a global function, by the next one of its section. The outer `None` means that the next one has no
// address; the inner one that there is no next one.
fn end_of_global(address_map: &AddressMap, next: Option<GlobalFunction<'_>>) -> Option<Option<u32>>
    ensures { result ≡ global_end address_map.now (option_map global_function next.entry) }
{
    match next {
        None => Some(None),
        Some(next) => {
            let end = next.start_offset.to_rva(address_map)?;
            Some(Some(end.0))
        }
    }
}

// The function info of a global function.
fn global_function_info(
    alloc: Global,
    address_map: &AddressMap,
    functions: &GlobalFunctionTable<'_>,
    function: GlobalFunction<'_>,
    next_place: usize,
) -> Result<Option<Function>, AllocError>
    ensures { IfOk result (λ f. option_map function_view f
        ≡ info_of_global address_map.now functions.now (global_function function.entry)) }
{
    let Some(start) = function.start_offset.to_rva(address_map) else {
        return Ok(None);
    };
    let next = functions.next_function(function.start_offset, next_place, &mut Probes::new());
    let Some(end_rva) = end_of_global(address_map, next) else {
        return Ok(None);
    };
    let name = text_of_name(alloc, function.name)?;
    Ok(Some(Function {
        start_rva: start.0,
        end_rva,
        name,
    }))
}

/// The function info of a function that was found at a section offset.
pub fn function_info<'a, P: ModuleProvider>(
    alloc: Global,
    address_map: &AddressMap,
    functions: &GlobalFunctionTable<'_>,
    names: &mut FunctionNames<'a, P>,
    found: FunctionMatch<'a>,
) -> Result<Option<Function>>
    requires named { GoesBySymbol (P.info names.old.provider) names.old.type_inputs.modules (function_match found) }
    ensures answer { MatchResult result
        (λ f. option_map function_view f ≡ info_of P.info names.old.type_inputs address_map.now
        functions.now (function_match found.entry))
        (λ e. e ≡ OutOfMemory) }
    ensures type_inputs { names.new.type_inputs ≡ names.old.type_inputs }
    ensures provider { names.new.provider ≡ names.old.provider }
    ensures failed { OnOk result (names.new.failed ≡ failed_after_info P.info names.old.type_inputs
        address_map.now functions.now (function_match found.entry) names.old.failed) }
    ensures broken { GainsBroken P.info names.old.type_inputs names.old.failed names.new.failed }
{
    match found {
        FunctionMatch::Global {
            function,
            next_place,
            ..
        } => { Ok(global_function_info(alloc, address_map, functions, function, next_place)?) }
        FunctionMatch::Procedure {
            module_index,
            procedure,
        } => procedure_info(address_map, functions, names, module_index, procedure),
    }
}
