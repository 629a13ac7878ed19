//! Answers of calls to a context, as text to compare.

use crate::texts::joined;
use pdb_addr2line::{Answer, Error, Frame, Function, FunctionFrames};
use std::alloc::{AllocError, Global};
use std::borrow::CowStr;

/// An answer as text.
pub(crate) fn text_of_answer(alloc: Global, answer: &Answer<'_>) -> Result<String, AllocError> {
    match answer {
        Answer::Function(None) => String::from_str(alloc, "none"),
        Answer::Function(Some(function)) => text_of_function(alloc, function),
        Answer::Frames(Ok(None)) => String::from_str(alloc, "none"),
        Answer::Frames(Ok(Some(frames))) => text_of_frames(alloc, frames),
        Answer::Frames(Err(error)) => text_of_error(alloc, error),
        Answer::Functions(functions) => text_of_functions(alloc, functions),
        Answer::Count(count) => count.to_string(alloc),
        Answer::Size(size) => size.to_string(alloc),
        Answer::Text(Ok(text)) => text.clone(),
        Answer::Text(Err(error)) => text_of_error(alloc, error),
    }
}

/// An answer as text. For a function or frames, the text is that of a clone.
pub(crate) fn text_of_clone(alloc: Global, answer: &Answer<'_>) -> Result<String, AllocError> {
    match answer {
        Answer::Function(Some(function)) => text_of_function(alloc, &function.clone()?),
        Answer::Frames(Ok(Some(frames))) => text_of_frames(alloc, &frames.clone()?),
        other => text_of_answer(alloc, other),
    }
}

/// An error as text.
pub(crate) fn text_of_error(alloc: Global, error: &Error) -> Result<String, AllocError> {
    let text = error.to_string(alloc)?;
    joined(alloc, "! ", text.as_str(), "")
}

/// A name as text, or `?` if it isn't known.
fn text_of_name(name: &Option<String>) -> &str {
    match name {
        Some(name) => name.as_str(),
        None => "?",
    }
}

/// An address as text, or nothing.
fn text_of_address(alloc: Global, address: Option<u32>) -> Result<String, AllocError> {
    match address {
        Some(address) => format!(in alloc; "{address:x}"),
        None => Ok(String::new(alloc)),
    }
}

/// A line as text, or `?` if it isn't known.
fn text_of_line(alloc: Global, line: Option<u32>) -> Result<String, AllocError> {
    match line {
        Some(line) => line.to_string(alloc),
        None => String::from_str(alloc, "?"),
    }
}

/// The address range of a function as text.
fn text_of_range(alloc: Global, start: u32, end: Option<u32>) -> Result<String, AllocError> {
    let start = text_of_address(alloc, Some(start))?;
    let end = text_of_address(alloc, end)?;
    joined(alloc, start.as_str(), "..", end.as_str())
}

/// A function as text: its address range and its name.
fn text_of_function(alloc: Global, function: &Function) -> Result<String, AllocError> {
    let range = text_of_range(alloc, function.start_rva, function.end_rva)?;
    joined(alloc, range.as_str(), " ", text_of_name(&function.name))
}

/// Functions as text, in order.
fn text_of_functions(alloc: Global, functions: &[Function]) -> Result<String, AllocError> {
    let mut text = String::new(alloc);
    for function in functions {
        let function = text_of_function(alloc, function)?;
        text = joined(alloc, text.as_str(), function.as_str(), "; ")?;
    }
    Ok(text)
}

/// The place of a frame as text: its file and line. A file name that isn't borrowed from the records is a copy.
fn text_of_place(alloc: Global, frame: &Frame<'_>) -> Result<String, AllocError> {
    let line = text_of_line(alloc, frame.line)?;
    match &frame.file {
        Some(CowStr::Borrowed(file)) => joined(alloc, *file, ":", line.as_str()),
        Some(CowStr::Owned(file)) => {
            let copy = joined(alloc, "copy of ", file.as_str(), ":")?;
            joined(alloc, copy.as_str(), line.as_str(), "")
        }
        None => joined(alloc, "?", ":", line.as_str()),
    }
}

/// A frame as text: its name and its place.
fn text_of_frame(alloc: Global, frame: &Frame<'_>) -> Result<String, AllocError> {
    let place = text_of_place(alloc, frame)?;
    joined(alloc, text_of_name(&frame.function), " at ", place.as_str())
}

/// Frames as text: the address range of the function, then each frame.
fn text_of_frames(alloc: Global, frames: &FunctionFrames<'_>) -> Result<String, AllocError> {
    let mut text = text_of_range(alloc, frames.start_rva, frames.end_rva)?;
    for frame in &frames.frames {
        let frame = text_of_frame(alloc, frame)?;
        text = joined(alloc, text.as_str(), "; ", frame.as_str())?;
    }
    Ok(text)
}
