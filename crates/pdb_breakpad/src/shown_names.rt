//! The names that a symbol file has for a frame, with placeholders for unknown ones.

ghost use Rattle.std.specs.Prelude.{◌≡◌, true, map};
ghost use Rattle.pdb_breakpad.specs.ShownNames.{file_text, frame_text, function_text, text_or};

use pdb_addr2line::Frame;

/// The placeholder for an unknown function name.
const NO_FUNCTION: &str = "<name omitted>";

/// The placeholder for an unknown file.
const NO_FILE: &str = "??";

/// The name of a frame's function, or its placeholder.
pub(crate) fn function_name<'f>(frame: &'f Frame<'_>) -> &'f str
    ensures { result.now ≡ function_text frame.now }
{
    match &frame.function {
        Some(name) => named(name.as_str(), NO_FUNCTION),
        None => NO_FUNCTION,
    }
}

/// The file of a frame, or its placeholder.
pub(crate) fn file_name<'f>(frame: &'f Frame<'_>) -> &'f str
    ensures { result.now ≡ file_text frame.now }
{
    match &frame.file {
        Some(file) => named(file.as_str(), NO_FILE),
        None => NO_FILE,
    }
}

// A name, or another one if it is empty.
fn named<'n>(name: &'n str, other: &'n str) -> &'n str
    ensures { result.now ≡ text_or other.now name.now }
{
    if name.is_empty() { other } else { name }
}

// Whether a symbol file has the same text for two frames.
fn is_equal(frame: &Frame<'_>, other: &Frame<'_>) -> bool
    ensures { result ≡ true → frame_text frame.now ≡ frame_text other.now }
{
    frame.line == other.line
        && frame.file.is_some() == other.file.is_some()
        && file_name(frame) == file_name(other)
        && function_name(frame) == function_name(other)
}

/// Whether a symbol file has the same text for two lists of frames.
pub(crate) fn are_equal(frames: &[Frame<'_>], others: &[Frame<'_>]) -> bool
    ensures { result ≡ true → map frame_text frames.now ≡ map frame_text others.now }
{
    if frames.len() != others.len() {
        return false;
    }
    for position in 0..frames.len() {
        if !is_equal(&frames[position], &others[position]) {
            return false;
        }
    }
    true
}
