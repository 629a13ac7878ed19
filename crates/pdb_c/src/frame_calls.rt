//! The calls for C that return frames and functions as data.
ghost use Rattle.pdb_c.specs.AnswerBuffers.{EndsWithFrames};
ghost use Rattle.pdb_c.specs.declared.found_frames.Question.TheVariants.{Frames, Function, NextStart};

use crate::answer_buffers::answer_with_frames;
use crate::found_frames::{AnswerSizes, Question};
use crate::frame_rows::FrameRow;
use crate::handle::Handle;
use std::alloc::Global;

/// Writes the frames at an address to the caller's buffers, by the records that a handle holds. Each frame is a row,
/// the innermost first. The rows refer to `texts`, where each text ends in a 0. `size` gets the number of rows, the
/// size of the texts and the function's addresses.
///
/// Returns 0, also if no function contains the address; then there are no rows. If there is no answer, or it is larger
/// than the buffers, nothing is written to these, and the number of the error is returned. The handle keeps its
/// records, and its context remembers which parts it found broken.
#[unsafe(no_mangle)]
pub extern "C" fn limberlime_find_frames_unchecked(
    alloc: Global,
    handle: &mut Handle,
    address: u32,
    rows: &mut [FrameRow],
    texts: &mut [u8],
    size: &mut AnswerSizes,
) -> i64
    ensures { EndsWithFrames handle.old.held handle.new.held (Frames address)
        rows.old rows.new texts.old texts.new size.new result }
{
    let found = handle.answer(alloc, Question::Frames(address));
    answer_with_frames(found, rows, texts, size)
}

/// Writes the function at an address as a single row, without file and line. Everything else is as in
/// [`limberlime_find_frames_unchecked`].
#[unsafe(no_mangle)]
pub extern "C" fn limberlime_find_function_unchecked(
    alloc: Global,
    handle: &mut Handle,
    address: u32,
    rows: &mut [FrameRow],
    texts: &mut [u8],
    size: &mut AnswerSizes,
) -> i64
    ensures { EndsWithFrames handle.old.held handle.new.held (Function address)
        rows.old rows.new texts.old texts.new size.new result }
{
    let found = handle.answer(alloc, Question::Function(address));
    answer_with_frames(found, rows, texts, size)
}

/// Writes the start of the first function at or after an address as a single row, without name, file and line. If no
/// function starts there, there are no rows. Everything else is as in [`limberlime_find_frames_unchecked`].
#[unsafe(no_mangle)]
pub extern "C" fn limberlime_next_start_unchecked(
    alloc: Global,
    handle: &mut Handle,
    address: u32,
    rows: &mut [FrameRow],
    texts: &mut [u8],
    size: &mut AnswerSizes,
) -> i64
    ensures { EndsWithFrames handle.old.held handle.new.held (NextStart address)
        rows.old rows.new texts.old texts.new size.new result }
{
    let found = handle.answer(alloc, Question::NextStart(address));
    answer_with_frames(found, rows, texts, size)
}
