//! Results of questions for frames or functions: rows and texts in memory.
ghost use Rattle.std.specs.Prelude.{◌≡◌, None, Some, option_map, IfOk};
ghost use Rattle.pdb_function_info.specs.Function.{function_view};
ghost use Rattle.pdb_c.specs.FoundFrames.{shown, shown_view, shown_text, frames_of_function, sizes, start_alone};
ghost use Rattle.pdb_c.specs.FoundFrames.{shown_flag};

use crate::frame_rows::{FrameRow, append_frames};
use pdb_addr2line::{Frame, Function, FunctionFrames};
use pdb_report_lib::Command;
use std::alloc::{AllocError, Global};

/// A question to a context.
#[derive(Clone, Copy)]
pub(crate) enum Question<'q> {
    /// The frames at an address, the innermost first.
    Frames(u32),
    /// The function that contains an address.
    Function(u32),
    /// The start of the first function at or after an address.
    NextStart(u32),
    /// The text of a report of addresses.
    Report(Command, &'q [u32]),
    /// Whether the module whose code lies at an address was read, by a flag for each module.
    IsRead(&'q [u8], u32),
}

/// The sizes of an answer, and the addresses of its function.
#[repr(C)]
#[derive(Clone, Copy)]
pub struct AnswerSizes {
    /// The number of rows, and the size of the texts in bytes.
    pub rows: usize,
    pub texts: usize,
    /// The start of the function, relative to where the program is loaded.
    pub start: u32,
    /// The address just after the function, and 1 if it is known, else 0.
    pub end: u32,
    pub end_known: u32,
}

// The sizes of a result, and its function's addresses.
pub(crate) fn sizes(found: &FoundFrames) -> AnswerSizes
    ensures { result ≡ sizes (shown_view found.now) }
{
    AnswerSizes {
        rows: found.rows.len(),
        texts: found.texts.len(),
        start: found.start,
        end: found.end.unwrap_or(0),
        end_known: u32::from(found.end.is_some()),
    }
}

/// The result of a question: its function's addresses, rows and texts. A report has no function and no rows; its text
/// is in `texts`.
#[derive(Drop)]
pub(crate) struct FoundFrames {
    pub(crate) start: u32,
    pub(crate) end: Option<u32>,
    pub(crate) rows: Vec<FrameRow>,
    pub(crate) texts: Vec<u8>,
}

// The result with the text of a report.
pub(crate) fn found_text(alloc: Global, text: Vec<u8>) -> FoundFrames
    ensures { shown_view result ≡ shown_text text.items }
{
    FoundFrames {
        start: 0,
        end: None,
        rows: Vec::new(alloc),
        texts: text,
    }
}

// The result of a question whose answer is a flag: 1 or 0 in place of an address.
pub(crate) fn found_flag(alloc: Global, flag: bool) -> FoundFrames
    ensures { shown_view result ≡ shown_flag flag }
{
    FoundFrames {
        start: u32::from(flag),
        end: None,
        rows: Vec::new(alloc),
        texts: Vec::new(alloc),
    }
}

// The result if there is no function.
pub(crate) fn no_frames(alloc: Global) -> FoundFrames
    ensures { shown_view result ≡ shown None }
{
    FoundFrames {
        start: 0,
        end: None,
        rows: Vec::new(alloc),
        texts: Vec::new(alloc),
    }
}

// The result with these frames.
fn rows_of_frames(alloc: Global, found: &FunctionFrames<'_>) -> Result<FoundFrames, AllocError>
    ensures { IfOk result (λ rows. shown_view rows ≡ shown (Some found.now)) }
{
    let mut rows = Vec::new(alloc);
    let mut texts = Vec::new(alloc);
    append_frames(&mut rows, &mut texts, &found.frames)?;
    Ok(FoundFrames {
        start: found.start_rva,
        end: found.end_rva,
        rows,
        texts,
    })
}

// The result with these frames, if there are any.
pub(crate) fn found_frames(
    alloc: Global,
    found: &Option<FunctionFrames<'_>>,
) -> Result<FoundFrames, AllocError>
    ensures { IfOk result (λ rows. shown_view rows ≡ shown found.now) }
{
    match found {
        Some(found) => rows_of_frames(alloc, found),
        None => Ok(no_frames(alloc)),
    }
}

// A function as a single frame, without file and line.
fn frames_of_function(
    alloc: Global,
    function: Function,
) -> Result<FunctionFrames<'static>, AllocError>
    ensures { IfOk result (λ frames. frames ≡ frames_of_function (function_view function)) }
{
    let Function {
        start_rva,
        end_rva,
        name,
    } = function;
    let mut frames = Vec::new(alloc);
    frames.push(Frame {
        function: name,
        file: None,
        line: None,
    })?;
    Ok(FunctionFrames {
        start_rva,
        end_rva,
        frames,
    })
}

// A function of which only the start is known, if there is one.
pub(crate) fn function_from(start: Option<u32>) -> Option<Function>
    ensures { option_map function_view result ≡ option_map start_alone start }
{
    match start {
        Some(start) => Some(Function {
            start_rva: start,
            end_rva: None,
            name: None,
        }),
        None => None,
    }
}

// The result with this function, if there is one.
pub(crate) fn function_match(
    alloc: Global,
    found: Option<Function>,
) -> Result<FoundFrames, AllocError>
    ensures { IfOk result (λ rows. shown_view rows
        ≡ shown (option_map frames_of_function (option_map function_view found))) }
{
    match found {
        Some(function) => {
            let frames = frames_of_function(alloc, function)?;
            rows_of_frames(alloc, &frames)
        }
        None => Ok(no_frames(alloc)),
    }
}
