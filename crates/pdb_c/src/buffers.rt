//! Writes a text into the caller's buffer, or returns the number of an error.

ghost use Rattle.std.specs.Prelude.{Ok};
ghost use Rattle.pdb_c.specs.Buffers.{Answers, gathered};

use crate::call_error::CallError;

// Writes a text to the start of the caller's buffer if it fits. Sets `wanted` to its length, and returns that.
fn write_text(text: &[u8], buffer: &mut [u8], wanted: &mut usize) -> i64
    ensures { Answers (Ok text.now) buffer.old buffer.new wanted.new result }
{
    let length = text.len();
    *wanted = length;
    if length > buffer.len() {
        return CallError::BufferTooSmall.code();
    }
    buffer[..length].copy_from_slice(text);
    length as i64
}

// Writes the result of a call to the caller's buffer. Returns the text's length, or the number of the error.
pub(crate) fn answer(
    found: Result<Vec<u8>, CallError>,
    buffer: &mut [u8],
    wanted: &mut usize,
) -> i64
    ensures { Answers (gathered found) buffer.old buffer.new wanted.new result }
{
    match found {
        Ok(text) => write_text(&text, buffer, wanted),
        Err(refusal) => {
            *wanted = 0;
            refusal.code()
        }
    }
}
