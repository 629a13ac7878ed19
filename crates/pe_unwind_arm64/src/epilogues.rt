//! Finds the epilogues of a function. Offsets in a function are counted in instructions of four bytes.

ghost use Rattle.std.specs.Prelude.{◌≡◌, ◌≤◌, ◌<◌, ◌^◌, false, length, IfOk};
ghost use Rattle.pe_unwind_arm64.specs.Epilogues.{counts_as, epilogue_of, epilogues_left, last_epilogue, own_count};
ghost use Rattle.pe_unwind_arm64.specs.Epilogues.{is_frame_lost, own_count_from, saves_frame, sets_frame, with_next};

use crate::registers::index;
use crate::rules::is_end;
use crate::unwind_codes::{Operation, UnwindCode, codes_from};
use crate::unwind_errors::EntryError;

/// An epilogue: the instructions that free a function's frame, and the one that leaves the function.
#[derive(Debug, Clone, Copy, PartialEq, Eq)]
pub struct Epilogue {
    /// The offset of its first instruction.
    pub start: usize,
    /// The offset after its last instruction.
    pub end: usize,
    /// The offset of its first code in the bytes of all codes.
    pub index: usize,
}

/// What a code means for the number of instructions.
#[derive(Clone, Copy)]
enum Counted {
    /// The code means one instruction.
    One,
    /// The function's own codes end here.
    Chained,
    /// All codes end here.
    All,
    /// The code can't be undone.
    Bad(EntryError),
}

// What a code with this operation means for the number of instructions.
fn counts_as(operation: Operation) -> Counted
    ensures { result ≡ counts_as operation }
{
    match operation {
        Operation::End => Counted::All,
        Operation::EndChained => Counted::Chained,
        Operation::Unusable(refusal) => Counted::Bad(refusal),
        _ => Counted::One,
    }
}

// The number of instructions with the next code counted, unless the function's own codes have ended.
fn with_next(count: usize, chained: bool) -> usize
    requires { count < 2 ^ 63 }
    ensures { result ≡ with_next count chained }
{
    if chained { count } else { count + 1 }
}

// Whether an operation stored x29.
fn saves_frame(operation: Operation) -> bool
    ensures { result ≡ saves_frame operation }
{
    match operation {
        Operation::Save(register, _)
        | Operation::SaveWithLink(register, _)
        | Operation::Push(register, _) => index(register) == 10,
        Operation::SavePair(first, _) | Operation::PushPair(first, _) => {
            index(first) == 9 || index(first) == 10
        }
        _ => false,
    }
}

// Whether an operation set x29.
fn sets_frame(operation: Operation) -> bool
    ensures { result ≡ sets_frame operation }
{
    matches!(operation, Operation::SetFrame | Operation::AddFrame(_))
}

// Whether x29 was set before it was stored. Then the stored value isn't the caller's.
fn is_frame_lost(codes: &[UnwindCode]) -> bool
    ensures { result ≡ is_frame_lost false codes.now }
{
    let mut stored = false;
    for &code in codes {
        if is_end(code.operation) {
            return false;
        }
        if stored && sets_frame(code.operation) {
            return true;
        }
        stored = stored || saves_frame(code.operation);
    }
    false
}

/// The number of instructions of the first codes, up to the end of the function's own ones.
pub(crate) fn own_count(codes: &[UnwindCode]) -> Result<usize, EntryError>
    ensures answer { result ≡ own_count codes.now }
    ensures bound { IfOk result (λ count. count ≤ length codes.now) }
{
    if is_frame_lost(codes) {
        return Err(EntryError::FrameLost);
    }
    own_count_of(codes)
}

// The same number, without the check of x29.
fn own_count_of(codes: &[UnwindCode]) -> Result<usize, EntryError>
    ensures answer { result ≡ own_count_from 0 false codes.now }
    ensures bound { IfOk result (λ count. count ≤ length codes.now) }
{
    let mut count = 0;
    let mut chained = false;
    for &code in codes {
        match counts_as(code.operation) {
            Counted::All => return Ok(count),
            Counted::Chained => chained = true,
            Counted::Bad(refusal) => return Err(refusal),
            Counted::One => count = with_next(count, chained),
        }
    }
    Err(EntryError::CodesCut)
}

/// The epilogue that begins at an offset and whose codes begin at an index. `reach` is the end of the epilogue before
/// it, and `length` the length of the function.
pub(crate) fn epilogue_of(
    reach: usize,
    length: u32,
    codes: &[UnwindCode],
    start: u32,
    index: usize,
) -> Result<Epilogue, EntryError>
    ensures answer { result ≡ epilogue_of reach length codes.now start index }
{
    let count = own_count(codes_from(index, codes))?;
    let start = start as usize;
    if start < reach {
        return Err(EntryError::EpiloguesOverlap);
    }
    if (length as usize) < start + count + 1 {
        return Err(EntryError::EpilogueOutsideOfFunction);
    }
    Ok(Epilogue {
        start,
        end: start + count + 1,
        index,
    })
}

/// The epilogue at the end of its function, whose codes begin at an index.
pub(crate) fn last_epilogue(
    length: u32,
    codes: &[UnwindCode],
    index: usize,
) -> Result<Epilogue, EntryError>
    ensures answer { result ≡ last_epilogue length codes.now index }
{
    let count = own_count(codes_from(index, codes))?;
    let end = length as usize;
    if end < count + 1 {
        return Err(EntryError::EpilogueOutsideOfFunction);
    }
    Ok(Epilogue {
        start: end - (count + 1),
        end,
        index,
    })
}

/// The epilogues that end after an offset.
pub(crate) fn epilogues_left(offset: usize, epilogues: &[Epilogue]) -> &[Epilogue]
    ensures { result.now ≡ epilogues_left offset epilogues.now }
{
    for position in 0..epilogues.len() {
        if offset < epilogues[position].end {
            let (_, rest) = epilogues.split_at(position);
            return rest;
        }
    }
    &[]
}
