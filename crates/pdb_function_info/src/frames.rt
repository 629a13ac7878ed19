//! Makes frames info: where a function starts and ends, and its frames at an offset of its code.

ghost use Rattle.std.specs.Prelude.{◌≡◌, [], ◌∷◌, ◌++◌, None, option_map, option_and_then};
ghost use Rattle.std.specs.Prelude.{string_bytes, Some, IfOk, IfSome, OnOk, MatchResult};
ghost use Rattle.std.specs.Option.{option_copied};
ghost use Rattle.pdb_errors.specs.Outcomes.{Gives};
ghost use Rattle.pdb_errors.specs.declared.error.Error.TheVariants.{OutOfMemory};
ghost use Rattle.pdb_records.specs.Addresses.{rva};
ghost use Rattle.pdb_functions.specs.FunctionMatches.{function_match, function_module, function_start};
ghost use Rattle.pdb_functions.specs.SymbolNames.{GoesBySymbol};
ghost use Rattle.pdb_type_texts.specs.BrokenParts.{AddsBroken};
ghost use Rattle.pdb_type_texts.specs.PrintInputs.{formatter_inputs};
ghost use Rattle.pdb_function_info.specs.Frames.{own_frame, inlined_frame, inlined_frames, code_location_frames};
ghost use Rattle.pdb_function_info.specs.Frames.{function_frames, function_size, info_of_frames};
ghost use Rattle.pdb_function_info.specs.Frames.{failed_by_ids, bodies_over, failed_by_frames, ButForMemory};
ghost use Rattle.pdb_function_info.specs.Function.{sum_in_32_bits};
ghost use Rattle.pdb_function_info.specs.NameTexts.{id_name, failed_by_id};
ghost use Rattle.pdb_frames.specs.CodeCache.{IsCodeCache};
ghost use Rattle.pdb_frames.specs.CodeCaches.{ModuleRecords};
ghost use Rattle.pdb_frames.specs.CodeLocations.{code_location_view};

use crate::function_names::FunctionNames;
use pdb_errors::Result;
use pdb_frames::{CodeCache, CodeLocation, FileNames, Frame, FunctionFrames};
use pdb_functions::{FunctionMatch, GlobalFunctionTable};
use pdb_inline::InlineRange;
use pdb_records::{AddressMap, LineInfo, LineProgram, ModuleInfo, ModuleProvider};
use pdb_tables::Probes;
use std::alloc::{AllocError, Global};

// The frame of the containing function, by its name and the line row that covers the code.
fn own_frame<'a>(
    files: &FileNames<'a>,
    function: Option<String>,
    line_program: &LineProgram,
    row: Option<LineInfo>,
) -> Result<Frame<'a>, AllocError>
    ensures { IfOk result (λ f. f ≡ own_frame files.now (option_map string_bytes function)
        line_program.now row) }
{
    match row {
        None => Ok(Frame {
            function,
            file: None,
            line: None,
        }),
        Some(row) => Ok(Frame {
            function,
            file: files.name(line_program, row.file_index)?,
            line: Some(row.line_start),
        }),
    }
}

// The frame of an inlined body, by its name and its range.
fn inlined_frame<'a>(
    files: &FileNames<'a>,
    line_program: &LineProgram,
    function: Option<String>,
    range: InlineRange,
) -> Result<Frame<'a>, AllocError>
    ensures { IfOk result (λ f. f ≡ inlined_frame files.now line_program.now
        (option_map string_bytes function) range) }
{
    let file = match range.file_index {
        None => None,
        Some(index) => files.name(line_program, index)?,
    };
    Ok(Frame {
        function,
        file,
        line: range.line_start,
    })
}

// The frames of inlined bodies, in the order of their ranges. Each is named by its id. The list has capacity for one
// more frame.
fn inlined_frames<'a, P: ModuleProvider>(
    alloc: Global,
    files: &FileNames<'a>,
    names: &mut FunctionNames<'a, P>,
    module_index: usize,
    line_program: &LineProgram,
    ranges: &[InlineRange],
) -> Result<Vec<Frame<'a>>>
    ensures answer { MatchResult result
        (λ v. v.items ≡ inlined_frames files.now line_program.now
        (id_name P.info names.old.type_inputs module_index) ranges.now)
        (λ e. e ≡ OutOfMemory) }
    ensures type_inputs { names.new.type_inputs ≡ names.old.type_inputs }
    ensures provider { names.new.provider ≡ names.old.provider }
    ensures failed { OnOk result (names.new.failed
        ≡ failed_by_ids (failed_by_id P.info names.old.type_inputs module_index) ranges.now names.old.failed) }
    ensures broken { AddsBroken (formatter_inputs P.info names.old.type_inputs module_index)
        names.old.failed names.new.failed }
{
    let mut frames = Vec::with_capacity(alloc, ranges.len().saturating_add(1))?;
    for range in ranges {
        let function = names.name_of_id(module_index, range.inlinee)?;
        frames.push(inlined_frame(files, line_program, function, *range)?)?;
    }
    Ok(frames)
}

// The frames for a code location, the innermost first: those of the inlined bodies, and last that of the containing
// function.
fn frames_of_location<'a, P: ModuleProvider>(
    alloc: Global,
    files: &FileNames<'a>,
    names: &mut FunctionNames<'a, P>,
    module_index: usize,
    name: Option<String>,
    code_location: &CodeLocation<'_>,
) -> Result<Vec<Frame<'a>>>
    ensures answer { MatchResult result
        (λ v. v.items ≡ code_location_frames files.now
        (id_name P.info names.old.type_inputs module_index) (option_map string_bytes name) (code_location_view code_location.now))
        (λ e. e ≡ OutOfMemory) }
    ensures type_inputs { names.new.type_inputs ≡ names.old.type_inputs }
    ensures provider { names.new.provider ≡ names.old.provider }
    ensures failed { OnOk result (names.new.failed
        ≡ failed_by_ids (failed_by_id P.info names.old.type_inputs module_index)
        (code_location_view code_location.now).stack names.old.failed) }
    ensures broken { AddsBroken (formatter_inputs P.info names.old.type_inputs module_index)
        names.old.failed names.new.failed }
{
    let own = own_frame(files, name, code_location.line_program, code_location.row)?;
    let mut frames = inlined_frames(
        alloc,
        files,
        names,
        module_index,
        code_location.line_program,
        &code_location.stack,
    )?;
    frames.reverse();
    frames.push(own)?;
    Ok(frames)
}

// The single frame of a function of which only the name is known.
fn name_alone<'a>(alloc: Global, function: Option<String>) -> Result<Vec<Frame<'a>>, AllocError>
    ensures { IfOk result (λ v. v.items
        ≡ record { function = option_map string_bytes function; file = None; line = None } ∷ []) }
{
    let mut frames = Vec::new(alloc);
    frames.push(Frame {
        function,
        file: None,
        line: None,
    })?;
    Ok(frames)
}

// The frames of a function with this name at an offset, the innermost first. If its module has no records, there is
// only one.
fn frames_of_function<'a, P: ModuleProvider>(
    alloc: Global,
    files: &FileNames<'a>,
    names: &mut FunctionNames<'a, P>,
    code: &mut CodeCache<'a>,
    name: Option<String>,
    module_info: Option<&'a ModuleInfo>,
    function: FunctionMatch<'_>,
    offset: u32,
) -> Result<Vec<Frame<'a>>>
    ghost records: { ModuleRecords }
    requires is_cache { IsCodeCache records code.old }
    requires module_info { IfSome module_info
        (λ info. records (function_module (function_match function)) ≡ Some info.now) }
    ensures answer { let found = function_match function.entry in
        let name_of = id_name P.info names.old.type_inputs (function_module found) in
        Gives (λ v. v.items) result (function_frames files.now name_of
        (option_map string_bytes name) (option_copied module_info.entry) found offset) }
    ensures type_inputs { names.new.type_inputs ≡ names.old.type_inputs }
    ensures provider { names.new.provider ≡ names.old.provider }
    ensures failed { let found = function_match function.entry in
        let failed_by = failed_by_id P.info names.old.type_inputs (function_module found) in
        let bodies = bodies_over (option_copied module_info.entry) found offset in
        ButForMemory result (names.new.failed ≡ failed_by_ids failed_by bodies names.old.failed) }
    ensures broken { AddsBroken
        (formatter_inputs P.info names.old.type_inputs (function_module (function_match function.entry)))
        names.old.failed names.new.failed }
    ensures is_cache { IsCodeCache records code.new }
{
    let Some(info) = module_info else {
        let frames = name_alone(alloc, name)?;
        return Ok(frames);
    };
    let code_location = code.code_location(info, function, offset)?;
    let module_index = function.module_index();
    frames_of_location(alloc, files, names, module_index, name, &code_location)
}

// The size of a function in bytes, if it is known. A global function extends to the next one of its section.
fn function_size(functions: &GlobalFunctionTable<'_>, function: FunctionMatch<'_>) -> Option<u32>
    ensures { result ≡ function_size functions.now (function_match function.entry) }
{
    match function {
        FunctionMatch::Procedure { procedure, .. } => Some(procedure.len),
        FunctionMatch::Global {
            function,
            next_place,
            ..
        } => {
            let start = function.start_offset;
            let next = functions.next_function(start, next_place, &mut Probes::new())?;
            Some(next.start_offset.offset.saturating_sub(start.offset))
        }
    }
}

// The start of a function, and its end if that is known and fits 32 bits.
#[derive(Clone, Copy)]
struct FunctionAddresses {
    start_rva: u32,
    end_rva: Option<u32>,
}

// The addresses of a function; `None` if its start has no address.
fn addresses_of(
    address_map: &AddressMap,
    functions: &GlobalFunctionTable<'_>,
    function: FunctionMatch<'_>,
) -> Option<FunctionAddresses>
    ensures { let found = function_match function.entry in
        let size = function_size functions.now found in
        result ≡ option_map
        (λ start. record { start_rva = start.0; end_rva = option_and_then (sum_in_32_bits start.0) size })
        (rva address_map.now (function_start found)) }
{
    let start = function.start().to_rva(address_map)?;
    let end_rva = match function_size(functions, function) {
        Some(size) => start.0.checked_add(size),
        None => None,
    };
    Some(FunctionAddresses {
        start_rva: start.0,
        end_rva,
    })
}

/// The frames info of a function that was found at a section offset. `None` if the function's start has no address.
pub fn frames_info<'a, P: ModuleProvider>(
    alloc: Global,
    address_map: &AddressMap,
    files: &FileNames<'a>,
    functions: &GlobalFunctionTable<'_>,
    names: &mut FunctionNames<'a, P>,
    code: &mut CodeCache<'a>,
    module_info: Option<&'a ModuleInfo>,
    function: FunctionMatch<'a>,
    offset: u32,
) -> Result<Option<FunctionFrames<'a>>>
    ghost records: { ModuleRecords }
    requires named { GoesBySymbol (P.info names.old.provider) names.old.type_inputs.modules (function_match function) }
    requires is_cache { IsCodeCache records code.old }
    requires module_info { IfSome module_info
        (λ info. records (function_module (function_match function)) ≡ Some info.now) }
    ensures answer { Gives (λ f. f) result (info_of_frames P.info names.old.type_inputs files.now
        address_map.now functions.now (option_copied module_info.entry)
        (function_match function.entry) offset) }
    ensures type_inputs { names.new.type_inputs ≡ names.old.type_inputs }
    ensures provider { names.new.provider ≡ names.old.provider }
    ensures failed { ButForMemory result (names.new.failed ≡ failed_by_frames P.info names.old.type_inputs
        address_map.now functions.now (option_copied module_info.entry)
        (function_match function.entry) offset names.old.failed) }
    ensures broken { AddsBroken
        (formatter_inputs P.info names.old.type_inputs (function_module (function_match function.entry)))
        names.old.failed names.new.failed }
    ensures is_cache { IsCodeCache records code.new }
{
    let Some(addresses) = addresses_of(address_map, functions, function) else {
        return Ok(None);
    };
    let name = names.name_of_function(functions, function)?;
    let frames = frames_of_function(
        alloc,
        files,
        names,
        code,
        name,
        module_info,
        function,
        offset,
    )?;
    Ok(Some(FunctionFrames {
        start_rva: addresses.start_rva,
        end_rva: addresses.end_rva,
        frames,
    }))
}
