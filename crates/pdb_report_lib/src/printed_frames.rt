//! Writes the lines for the frames at an address.

ghost use Rattle.std.specs.Prelude.{◌≡◌, ◌++◌, length, string_bytes, IfOk, OnOk, option_map};
ghost use Rattle.pdb_frames.specs.SourceFiles.{file_name_of};
ghost use Rattle.pdb_report_lib.specs.PrintedFrames.{file_text, line_number_text, frame_line};
ghost use Rattle.pdb_report_lib.specs.PrintedFrames.{frame_lines, frames_heading, frames_text};

use crate::printed_lines::{UNKNOWN, name_text};
use pdb_addr2line::{Frame, FunctionFrames};
use std::alloc::{AllocError, Global};
use std::borrow::CowStr;

// The name of a file, or a placeholder if it isn't known.
fn file_text<'f>(file: &'f Option<CowStr<'_>>) -> &'f str
    ensures { result.now ≡ file_text (option_map file_name_of file.now) }
{
    match file {
        Some(file) => file.as_str(),
        None => UNKNOWN,
    }
}

// The number of a line, or a placeholder if it isn't known.
fn line_number_text(alloc: Global, line: Option<u32>) -> Result<String, AllocError>
    ensures { IfOk result (λ s. string_bytes s ≡ line_number_text line) }
{
    match line {
        Some(line) => format!(in alloc; "{line}"),
        None => String::from_str(alloc, UNKNOWN),
    }
}

// Appends the line of a frame.
fn write_frame(text: &mut String, frame: &Frame<'_>) -> Result<(), AllocError>
    ensures { OnOk result (string_bytes text.new ≡ string_bytes text.old ++ frame_line frame.now) }
{
    let name = name_text(&frame.function);
    let file = file_text(&frame.file);
    let line = line_number_text(*text.allocator(), frame.line)?;
    write!(text, "     {name} at {file}:{line}\n")
}

// Appends the lines of frames, in order.
fn write_frames(text: &mut String, frames: &[Frame<'_>]) -> Result<(), AllocError>
    ensures { OnOk result (string_bytes text.new ≡ string_bytes text.old ++ frame_lines frames.now) }
{
    for frame in frames {
        write_frame(text, frame)?;
    }
    Ok(())
}

// The lines of an address with frames.
fn found_text(alloc: Global, address: u32, found: &FunctionFrames<'_>) -> Result<String, AllocError>
    ensures { IfOk result (λ s. string_bytes s
        ≡ frames_heading address (length found.now.frames) ++ frame_lines found.now.frames) }
{
    let count = found.frames.len();
    let mut text = format!(in alloc; "0x{address:x} - {count} frames:\n")?;
    write_frames(&mut text, &found.frames)?;
    Ok(text)
}

// The lines of an address: the frames there, or that there are none.
pub(crate) fn frames_text(
    alloc: Global,
    address: u32,
    found: &Option<FunctionFrames<'_>>,
) -> Result<String, AllocError>
    ensures { IfOk result (λ s. string_bytes s ≡ frames_text address found.now) }
{
    match found {
        Some(found) => found_text(alloc, address, found),
        None => format!(in alloc; "{address:x} - no frames found\n"),
    }
}
