//! Turns chunks and jumps, which have no name of their own, into procedures with their function's name.
//!
//! These are the jumps of incremental links, and the chunks of a function whose symbol doesn't directly follow that of
//! the function.

ghost use Rattle.std.specs.Prelude.{◌≡◌, ◌++◌, ◌==◌, not, ℕ, List, None, length, IfErr, IfOk, OnOk};
ghost use Rattle.std.specs.BTreeMap.{get};
ghost use Rattle.std.specs.Option.{option_copied, option_or};
ghost use Rattle.std.specs.Ordering.{nat_cmp};
ghost use Rattle.pdb_records.specs.declared.symbols.Symbol.{Symbol};
ghost use Rattle.pdb_codeview.specs.Places.{place};
ghost use Rattle.pdb_codeview.specs.ProcedureSpans.{span_of};
ghost use Rattle.pdb_container.specs.DebugRecords.{tabled};
ghost use Rattle.pdb_container.specs.FunctionsByStart.{any_function, function_at, seen, symbols_of};
ghost use Rattle.pdb_container.specs.UnnamedCode.{separated, separated_from, changed_at, separated_code, code_from, code_of_module};
ghost use Rattle.pdb_container.specs.UnnamedCode.{named, with_procedure, named_module, named_modules, named_symbol, renamed_symbols};
ghost use Rattle.pdb_container.specs.UnnamedCode.{own_function, procedure_of, start_or};

use crate::functions_by_start::{Functions, NamedFunction, all_functions, functions_of};
use crate::module_places::ModuleInfoResult;
use pdb_codeview::{S_TRAMPOLINE, place, span_of};
use pdb_msf::copy_name;
use pdb_msf::faults::Fault;
use pdb_records::{
    ModuleInfo, ProcedureSymbol, RawString, S_SEPCODE, S_THUNK32, SeparatedCodeSymbol, StreamError,
    Symbol, SymbolData, SymbolTable, TypeIndex,
};
use std::alloc::{AllocError, Global};
use std::marker::Model;

/// A chunk or a jump in a module's symbols.
#[derive(Drop)]
struct SeparatedChunk<'m> {
    /// The position of its symbol.
    position: usize,
    raw_kind: u16,
    code: &'m SeparatedCodeSymbol,
}

impl<'m> Model for SeparatedChunk<'m> {
    ghost use Rattle.pdb_container.specs.UnnamedCode.{Chunk};

    ghost Value = { Chunk };

    ghost view = { λ c. record { position = c.position; raw_kind = c.raw_kind; code = c.code.now } };
}

/// A chunk or a jump of a module, with its function if the module lists that.
#[derive(Drop)]
struct UnnamedCode<'m> {
    module_index: usize,
    position: usize,
    code: &'m SeparatedCodeSymbol,
    /// The function of a chunk, if its own module lists it.
    own: Option<NamedFunction<'m>>,
}

impl<'m> Model for UnnamedCode<'m> {
    ghost use Rattle.pdb_container.specs.FunctionsByStart.{seen};
    ghost use Rattle.pdb_container.specs.UnnamedCode.{CodeOfModule};

    ghost Value = { CodeOfModule };

    ghost view = { λ c. record {
      module_index = c.module_index;
      position = c.position;
      code = c.code.now;
      own = seen c.own;
    } };
}

/// The procedure that replaces a symbol.
#[derive(Drop)]
struct RenamedSymbol {
    module_index: usize,
    position: usize,
    procedure: ProcedureSymbol,
}

/// Turns chunks and jumps into procedures, if their function is known. The names together take at most `room` bytes.
/// Code whose name doesn't fit stays as it is.
#[tactic(auto, unfolding(crate::specs::UnnamedCode::named_modules))]
pub fn name_unnamed_code(
    alloc: Global,
    modules: &mut [ModuleInfoResult],
    global_symbols: &Result<SymbolTable, StreamError>,
    room: usize,
) -> Result<(), Fault>
    ensures state { OnOk result (modules.new ≡ named_modules room (tabled global_symbols.now) modules.old) }
    ensures memory { IfErr result (λ fault. fault ≡ Fault.OutOfMemory) }
{
    let renamed_symbols = list_renamed_symbols(alloc, modules, global_symbols, room)?;
    for renamed_symbol in renamed_symbols {
        name_code(modules, renamed_symbol);
    }
    Ok(())
}

// Lists the procedures that replace chunks and jumps.
fn list_renamed_symbols(
    alloc: Global,
    modules: &[ModuleInfoResult],
    global_symbols: &Result<SymbolTable, StreamError>,
    room: usize,
) -> Result<Vec<RenamedSymbol>, Fault>
    ensures answer { IfOk result (λ list. list.items
        ≡ renamed_symbols (any_function modules.now (tabled global_symbols.now)) room (code_from 0 modules.now)) }
    ensures memory { IfErr result (λ fault. fault ≡ Fault.OutOfMemory) }
{
    let codes = list_unnamed_code(alloc, modules)?;
    if codes.is_empty() {
        return Ok(Vec::new(alloc));
    }
    let functions = all_functions(alloc, modules, global_symbols)?;
    renamed_symbols_of(alloc, &codes, &functions, room)
}

// Lists the chunks and jumps of all modules.
fn list_unnamed_code<'m>(
    alloc: Global,
    modules: &'m [ModuleInfoResult],
) -> Result<Vec<UnnamedCode<'m>>, AllocError>
    ensures { IfOk result (λ codes. codes.items ≡ code_from 0 modules.now) }
{
    let mut codes = Vec::new(alloc);
    for (module_index, read) in modules.iter().enumerate() {
        push_unnamed_code(alloc, module_index, symbols_of(read), &mut codes)?;
    }
    Ok(codes)
}

// The symbols of a module; none if it can't be read.
fn symbols_of(read: &ModuleInfoResult) -> &[Symbol]
    ensures { result.now ≡ symbols_of read.now }
{
    match read {
        Ok(Some(info)) => &info.symbols.items,
        _ => &[],
    }
}

// Appends the chunks and jumps in a module's symbols.
fn push_unnamed_code<'m>(
    alloc: Global,
    module_index: usize,
    symbols: &'m [Symbol],
    codes: &mut Vec<UnnamedCode<'m>>,
) -> Result<(), AllocError>
    ensures { OnOk result (codes.new.items ≡ codes.old.items ++ code_of_module module_index symbols.now) }
{
    let separated = list_separated_code(alloc, symbols)?;
    if separated.is_empty() {
        return Ok(());
    }
    let functions = functions_of(alloc, symbols)?;
    for code in &separated {
        codes.push(UnnamedCode {
            module_index,
            position: code.position,
            code: code.code,
            own: own_function(&functions, code.raw_kind, code.code),
        })?;
    }
    Ok(())
}

// The function of a chunk, if its own module lists it. A jump has none here.
fn own_function<'m>(
    functions: &Functions<'m>,
    raw_kind: u16,
    code: &SeparatedCodeSymbol,
) -> Option<NamedFunction<'m>>
    ensures { (symbols : List Symbol)
        → ((asked : ℕ) → seen (get nat_cmp functions.now asked) ≡ function_at asked symbols)
        → seen result ≡ own_function symbols raw_kind code.now }
{
    if raw_kind != S_SEPCODE {
        return None;
    }
    functions.get(&place(code.parent_offset)).copied()
}

/// Whether a module's symbols have chunks or jumps. Their function may be in another module.
pub fn has_unnamed_code(alloc: Global, symbols: &[Symbol]) -> Result<bool, AllocError>
    ensures { IfOk result (λ has. has ≡ not (length (separated_from 0 None symbols.now) == 0)) }
{
    let separated = list_separated_code(alloc, symbols)?;
    Ok(!separated.is_empty())
}

// Lists the chunks and jumps in a module's symbols.
fn list_separated_code<'m>(
    alloc: Global,
    symbols: &'m [Symbol],
) -> Result<Vec<SeparatedChunk<'m>>, AllocError>
    ensures { IfOk result (λ separated. separated.items ≡ separated_from 0 None symbols.now) }
{
    let mut separated = Vec::new(alloc);
    let mut before = None;
    for (position, symbol) in symbols.iter().enumerate() {
        if let Some(code) = separated_code(symbol.raw_kind, before, &symbol.content) {
            separated.push(SeparatedChunk {
                position,
                raw_kind: symbol.raw_kind,
                code,
            })?;
        }
        before = start_or(before, &symbol.content);
    }
    Ok(separated)
}

// The code of a jump, or of a chunk that isn't directly after the code of its function. `before` is where the code of
// the symbol before starts.
fn separated_code(
    raw_kind: u16,
    before: Option<u64>,
    content: &Option<SymbolData>,
) -> Option<&SeparatedCodeSymbol>
    ensures { option_copied result ≡ separated_code raw_kind before content.now }
{
    match content {
        Some(SymbolData::SeparatedCode(code)) => {
            let chunk = raw_kind == S_SEPCODE && before != Some(place(code.parent_offset));
            if raw_kind == S_TRAMPOLINE || chunk {
                Some(code)
            } else {
                None
            }
        }
        _ => None,
    }
}

// The start of the last code so far, with this symbol's code.
fn start_or(before: Option<u64>, content: &Option<SymbolData>) -> Option<u64>
    ensures { result ≡ start_or before (span_of content.now) }
{
    match span_of(content) {
        Some(span) => Some(place(span.start)),
        None => before,
    }
}

// Lists the procedures that replace the symbols of this code. Their names together take at most `room` bytes.
fn renamed_symbols_of<'m>(
    alloc: Global,
    codes: &[UnnamedCode<'m>],
    functions: &Functions<'m>,
    room: usize,
) -> Result<Vec<RenamedSymbol>, Fault>
    ensures answer { IfOk result (λ list.
        list.items ≡ renamed_symbols (λ asked. seen (get nat_cmp functions.now asked)) room codes.now) }
    ensures memory { IfErr result (λ fault. fault ≡ Fault.OutOfMemory) }
{
    let mut list = Vec::new(alloc);
    let mut left = room;
    for code in codes {
        let Some(function) = function_for(code, functions) else {
            continue;
        };
        let name = function.name;
        if name.0.len() <= left {
            left -= name.0.len();
            list.push(RenamedSymbol {
                module_index: code.module_index,
                position: code.position,
                procedure: procedure_of(alloc, code.code, name, function.type_index)?,
            })?;
        }
    }
    Ok(list)
}

// The function to which code belongs: in its own module, or else in any.
fn function_for<'m>(code: &UnnamedCode<'m>, functions: &Functions<'m>) -> Option<NamedFunction<'m>>
    ensures { seen result
        ≡ option_or code.now.own (seen (get nat_cmp functions.now (place code.now.code.parent_offset))) }
{
    match code.own {
        Some(function) => Some(function),
        None => functions.get(&place(code.code.parent_offset)).copied(),
    }
}

fn procedure_of(
    alloc: Global,
    code: &SeparatedCodeSymbol,
    name: &RawString,
    type_index: TypeIndex,
) -> Result<ProcedureSymbol, Fault>
    ensures answer { IfOk result (λ procedure. procedure ≡ procedure_of code.now name.now type_index) }
    ensures memory { IfErr result (λ fault. fault ≡ Fault.OutOfMemory) }
{
    Ok(ProcedureSymbol {
        offset: code.offset,
        len: code.len,
        name: copy_name(alloc, &name.0)?,
        end: code.end,
        type_index,
    })
}

// Replaces a symbol by a procedure.
fn name_code(modules: &mut [ModuleInfoResult], renamed_symbol: RenamedSymbol)
    ensures { modules.new ≡ named modules.old renamed_symbol }
{
    let index = renamed_symbol.module_index;
    if index < modules.len() {
        name_in_module(
            &mut modules[index],
            renamed_symbol.position,
            renamed_symbol.procedure,
        );
    }
}

fn name_in_module(read: &mut ModuleInfoResult, position: usize, procedure: ProcedureSymbol)
    ensures { read.new ≡ named_module position procedure read.old }
{
    if let Ok(Some(info)) = read {
        name_in(info, position, procedure);
    }
}

fn name_in(info: &mut ModuleInfo, position: usize, procedure: ProcedureSymbol)
    ensures { info.new ≡ with_procedure position procedure info.old }
{
    if let Some(symbol) = info.symbols.items.get_mut(position) {
        name_symbol(symbol, procedure);
    }
}

// Replaces a symbol's content by a procedure. A jump gets the kind of a thunk, because its own kind has no code.
fn name_symbol(symbol: &mut Symbol, procedure: ProcedureSymbol)
    ensures { symbol.new ≡ named_symbol procedure symbol.old }
{
    if symbol.raw_kind == S_TRAMPOLINE {
        symbol.raw_kind = S_THUNK32;
    }
    symbol.content = Some(SymbolData::Procedure(procedure));
}
