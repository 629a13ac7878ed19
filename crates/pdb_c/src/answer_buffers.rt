//! Looks up addresses in a context, and writes the results into the caller's buffers.
ghost use Rattle.std.specs.Prelude.{◌≡◌, Ok, OnOk, MatchResult, option_map};
ghost use Rattle.pdb_function_info.specs.Function.{function_view};
ghost use Rattle.pdb_addr2line.specs.Calls.{after_frames};
ghost use Rattle.pdb_addr2line.specs.FunctionIter.{after_function, OnlyGainsBroken};
ghost use Rattle.pdb_addr2line.specs.NamedFunctions.{named_function_at};
ghost use Rattle.pdb_c.specs.FoundFrames.{shown_view};
ghost use Rattle.pdb_c.specs.AnswerBuffers.{shown_result, LeavesFrames};
ghost use Rattle.pdb_c.specs.Questions.{infos, frames_over, answer_in, is_flagged, is_read_at, report_asked};
ghost use Rattle.pdb_c.specs.Questions.{IsLeftByCall, IsLeftBy, IsLeftByReport};
ghost use Rattle.pdb_c.specs.ReportTexts.{Agrees};
ghost use Rattle.pdb_c.specs.declared.found_frames.Question.TheVariants.{Frames, NextStart, Function as of_function};
ghost use Rattle.pdb_c.specs.declared.call_error.CallError.TheVariants.{OutOfMemory};

use crate::call_error::CallError;
use crate::found_frames::{
    AnswerSizes, FoundFrames, Question, found_flag, found_frames, found_text, function_from,
    function_match, sizes,
};
use crate::frame_rows::FrameRow;
use crate::report_texts::report_in;
use pdb_addr2line::{Context, ContextPdbData, Error, Function, FunctionFrames};
use pdb_report_lib::Command;
use std::alloc::Global;

// The frames at an address. A function without another name gets its symbol's name.
fn look_up_frames<'a>(
    context: &mut Context<'a, ContextPdbData<'static>>,
    address: u32,
) -> Result<Option<FunctionFrames<'a>>, CallError>
    ensures answer { Agrees (λ found. found) result (frames_over context.old address) }
    ensures state { IsLeftByCall result context.old (after_frames infos context.old address) context.new }
    ensures gains { OnOk result (OnlyGainsBroken infos context.old context.new) }
{
    match context.find_named_frames(address) {
        Ok(found) => Ok(found),
        Err(Error::OutOfMemory) => Err(CallError::OutOfMemory),
        Err(_) => Err(CallError::AddressRefused),
    }
}

// The function at an address. A function without another name gets its symbol's name.
fn look_up(
    context: &mut Context<'_, ContextPdbData<'static>>,
    address: u32,
) -> Result<Option<Function>, CallError>
    ensures answer { MatchResult result
        (λ found. option_map function_view found ≡ named_function_at infos context.old.inputs address)
        (λ refusal. refusal ≡ OutOfMemory) }
    ensures state { OnOk result (context.new ≡ after_function infos context.old address) }
    ensures gains { OnlyGainsBroken infos context.old context.new }
{
    match context.find_named_function(address) {
        Ok(found) => Ok(found),
        Err(_) => Err(CallError::OutOfMemory),
    }
}

// The frames that a context finds at an address, as rows.
fn frames_in(
    alloc: Global,
    context: &mut Context<'_, ContextPdbData<'static>>,
    address: u32,
) -> Result<FoundFrames, CallError>
    ensures answer { Agrees shown_view result (answer_in context.old (Frames address)) }
    ensures state { IsLeftBy result context.old (Frames address) context.new }
{
    let found = look_up_frames(context, address)?;
    Ok(found_frames(alloc, &found)?)
}

// The function that a context finds at an address, as a row.
fn function_in(
    alloc: Global,
    context: &mut Context<'_, ContextPdbData<'static>>,
    address: u32,
) -> Result<FoundFrames, CallError>
    ensures answer { Agrees shown_view result (answer_in context.old (of_function address)) }
    ensures state { IsLeftBy result context.old (of_function address) context.new }
{
    let found = look_up(context, address)?;
    Ok(function_match(alloc, found)?)
}

// The next start of a function from an address on, as a row without name, file and line.
fn next_start_in(
    alloc: Global,
    context: &mut Context<'_, ContextPdbData<'static>>,
    address: u32,
) -> Result<FoundFrames, CallError>
    ensures answer { Agrees shown_view result (answer_in context.old (NextStart address)) }
    ensures state { IsLeftBy result context.old (NextStart address) context.new }
{
    let Ok(start) = context.next_start_address(address) else {
        return Err(CallError::OutOfMemory);
    };
    Ok(function_match(alloc, function_from(start))?)
}

// The text of a report over a context. A report of no address is refused.
fn report_asked(
    alloc: Global,
    context: &mut Context<'_, ContextPdbData<'static>>,
    command: Command,
    addresses: &[u32],
) -> Result<Vec<u8>, CallError>
    ensures answer { Agrees (λ text. text.items) result (report_asked command context.old addresses.now) }
    ensures state { IsLeftByReport result context.old context.new command addresses.now }
{
    if addresses.is_empty() {
        return Err(CallError::NoAddresses);
    }
    report_in(alloc, context, command, addresses)
}

// Whether the module whose code lies at an address was read, by a flag for each module.
fn is_read_at(context: &Context<'_, ContextPdbData<'static>>, flags: &[u8], address: u32) -> bool
    ensures { result ≡ is_read_at flags.now context.now address }
{
    match context.module_at(address) {
        Some(module_index) => is_flagged(flags, module_index),
        None => true,
    }
}

// Whether the flag of a module is set. A module without a flag has nothing to be read.
fn is_flagged(flags: &[u8], module_index: usize) -> bool
    ensures { result ≡ is_flagged flags.now module_index }
{
    match flags.get(module_index) {
        Some(flag) => *flag == 1,
        None => true,
    }
}

// The answer of a context to a question.
pub(crate) fn answer_in(
    alloc: Global,
    context: &mut Context<'_, ContextPdbData<'static>>,
    question: Question<'_>,
) -> Result<FoundFrames, CallError>
    ensures answer { Agrees shown_view result (answer_in context.old question.entry) }
    ensures state { IsLeftBy result context.old question.entry context.new }
{
    match question {
        Question::Frames(address) => frames_in(alloc, context, address),
        Question::Function(address) => function_in(alloc, context, address),
        Question::NextStart(address) => next_start_in(alloc, context, address),
        Question::Report(command, addresses) => {
            let text = report_asked(alloc, context, command, addresses)?;
            Ok(found_text(alloc, text))
        }
        Question::IsRead(flags, address) => Ok(found_flag(
            alloc,
            is_read_at(context, flags, address),
        )),
    }
}

// Writes rows and texts to the start of the caller's buffers if both fit, and sets `size` to their sizes.
fn write_found(
    found: &FoundFrames,
    rows: &mut [FrameRow],
    texts: &mut [u8],
    size: &mut AnswerSizes,
) -> i64
    ensures { LeavesFrames (Ok (shown_view found.now)) rows.old rows.new texts.old texts.new size.new result }
{
    *size = sizes(found);
    if found.rows.len() > rows.len() || found.texts.len() > texts.len() {
        return CallError::BufferTooSmall.code();
    }
    rows[..found.rows.len()].copy_from_slice(&found.rows);
    texts[..found.texts.len()].copy_from_slice(&found.texts);
    0
}

// Writes the result of a call to the caller's buffers. Returns 0, or the number of the error.
pub(crate) fn answer_with_frames(
    found: Result<FoundFrames, CallError>,
    rows: &mut [FrameRow],
    texts: &mut [u8],
    size: &mut AnswerSizes,
) -> i64
    ensures { LeavesFrames (shown_result found) rows.old rows.new texts.old texts.new size.new result }
{
    match found {
        Ok(found) => write_found(&found, rows, texts, size),
        Err(refusal) => {
            *size = AnswerSizes {
                rows: 0,
                texts: 0,
                start: 0,
                end: 0,
                end_known: 0,
            };
            refusal.code()
        }
    }
}
