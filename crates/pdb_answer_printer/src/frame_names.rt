//! Which frames are printed, and the names and lines that are printed for them.

ghost use Rattle.std.specs.Prelude.{◌≡◌};
ghost use Rattle.pdb_answer_printer.specs.FrameNames.{file_of, function_of, line_of, shown_frames};

use crate::base_names::base_name;
use crate::printer_options::{PrinterOptions, Style};
use pdb_frames::{Frame, FunctionFrames};

/// The frames that are printed. Without inlined functions it is one: the innermost in GNU style, otherwise the
/// containing function.
pub fn shown_frames<'f, 'a>(
    options: &PrinterOptions,
    found: &'f Option<FunctionFrames<'a>>,
) -> &'f [Frame<'a>]
    ensures { result.now ≡ shown_frames options.now found.now }
{
    let Some(found) = found else {
        return &[];
    };
    let frames = found.frames.as_slice();
    if options.inlines || frames.is_empty() {
        return frames;
    }
    match options.style {
        Style::Gnu => &frames[..1],
        _ => &frames[frames.len() - 1..],
    }
}

/// The name of a frame's file as it is printed, or the text `unknown`.
pub fn file_of<'f>(options: &PrinterOptions, frame: &'f Frame<'_>, unknown: &'f str) -> &'f str
    ensures { result.now ≡ file_of options.now unknown.now frame.now }
{
    match &frame.file {
        Some(file) if options.basenames => base_name(file.as_str()),
        Some(file) => file.as_str(),
        None => unknown,
    }
}

/// The name of a frame's function, or the text `unknown`.
pub(crate) fn function_of<'f>(frame: &'f Frame<'_>, unknown: &'f str) -> &'f str
    ensures { result.now ≡ function_of unknown.now frame.now }
{
    match &frame.function {
        Some(name) => name.as_str(),
        None => unknown,
    }
}

/// The line of a frame; 0 if it isn't known.
pub(crate) fn line_of(frame: &Frame<'_>) -> u32
    ensures { result ≡ line_of frame.now }
{
    frame.line.unwrap_or(0)
}
