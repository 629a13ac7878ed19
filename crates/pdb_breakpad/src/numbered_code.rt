//! The inlined calls and the source location at an address, with files and names by their numbers.

ghost use Rattle.std.specs.Prelude.{◌≡◌, map, IfOk};
ghost use Rattle.pdb_breakpad.specs.ShownNames.{frame_text};
ghost use Rattle.pdb_breakpad.specs.NumberedCode.{IsCall, IsPlace, IsOptionalPlace, AreCalls, IsCode, KeepsAllNames};
ghost use Rattle.pdb_breakpad.specs.ShownFrames.{calls_in, innermost_place, own_place, place_of};

use crate::inline_records::InlinedCall;
use crate::record_numbers::Numbers;
use crate::shown_names::{file_name, function_name};
use pdb_addr2line::Frame;
use std::alloc::{AllocError, Global};

/// A source location: the number of a file, and a line.
#[derive(Clone, Copy, PartialEq, Eq)]
pub(crate) struct SourceLocation {
    pub file: usize,
    pub line: u32,
}

/// The inlined calls and the source location at an address.
#[derive(Drop)]
pub(crate) struct NumberedCode {
    /// The inlined calls, the outermost first.
    pub calls: Vec<InlinedCall>,
    /// The location of the innermost frame, if it is known.
    pub place: Option<SourceLocation>,
}

#[tactic(auto, using(crate::proofs::FunctionRecordLemmas::keeps_calls))]
/// The calls and the location of frames, which are ordered from the outermost to the innermost.
pub(crate) fn number_code(
    alloc: Global,
    numbers: &mut Numbers,
    frames: &[Frame<'_>],
) -> Result<NumberedCode, AllocError>
    ensures answer { IfOk result (λ code. IsCode numbers.new code (map frame_text frames.now)) }
    ensures state { KeepsAllNames numbers.old numbers.new }
{
    let calls = number_calls(alloc, numbers, frames)?;
    let place = number_innermost_place(numbers, frames)?;
    Ok(NumberedCode { calls, place })
}

// The calls by which frames are inlined into one another; the outermost frame is the first.
fn number_calls(
    alloc: Global,
    numbers: &mut Numbers,
    frames: &[Frame<'_>],
) -> Result<Vec<InlinedCall>, AllocError>
    ensures answer { IfOk result (λ calls. AreCalls numbers.new calls.items (calls_in (map frame_text frames.now))) }
    ensures state { KeepsAllNames numbers.old numbers.new }
{
    let mut calls = Vec::new(alloc);
    for level in 0..frames.len().saturating_sub(1) {
        calls.push(number_call(numbers, &frames[level], &frames[level + 1])?)?;
    }
    Ok(calls)
}

// The call by which a frame is inlined into the next outer one.
fn number_call(
    numbers: &mut Numbers,
    outer: &Frame<'_>,
    inner: &Frame<'_>,
) -> Result<InlinedCall, AllocError>
    ensures answer { IfOk result (λ call. IsCall numbers.new call
        (record { place = place_of (frame_text outer.now); function = (frame_text inner.now).function })) }
    ensures state { KeepsAllNames numbers.old numbers.new }
{
    let place = number_place(numbers, outer)?;
    let origin = numbers.origins.number_of(function_name(inner))?;
    Ok(InlinedCall { place, origin })
}

// The location of a frame.
fn number_place(numbers: &mut Numbers, frame: &Frame<'_>) -> Result<SourceLocation, AllocError>
    ensures answer { IfOk result (λ place. IsPlace numbers.new place (place_of (frame_text frame.now))) }
    ensures state { KeepsAllNames numbers.old numbers.new }
{
    let file = numbers.files.number_of(file_name(frame))?;
    Ok(SourceLocation {
        file,
        line: frame.line.unwrap_or(0),
    })
}

// The location of the innermost frame, if its file or its line is known.
fn number_own_place(
    numbers: &mut Numbers,
    frame: &Frame<'_>,
) -> Result<Option<SourceLocation>, AllocError>
    ensures answer { IfOk result (λ place. IsOptionalPlace numbers.new place (own_place (frame_text frame.now))) }
    ensures state { KeepsAllNames numbers.old numbers.new }
{
    if frame.file.is_none() && frame.line.is_none() {
        return Ok(None);
    }
    Ok(Some(number_place(numbers, frame)?))
}

// The location of the innermost of these frames, if its file or its line is known.
#[tactic(auto, using(crate::proofs::FunctionRecordLemmas::innermost))]
fn number_innermost_place(
    numbers: &mut Numbers,
    frames: &[Frame<'_>],
) -> Result<Option<SourceLocation>, AllocError>
    ensures answer { IfOk result (λ place.
        IsOptionalPlace numbers.new place (innermost_place (map frame_text frames.now))) }
    ensures state { KeepsAllNames numbers.old numbers.new }
{
    match frames.last() {
        Some(frame) => number_own_place(numbers, frame),
        None => Ok(None),
    }
}
