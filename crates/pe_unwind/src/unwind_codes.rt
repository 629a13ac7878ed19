//! Reads unwind codes: what the instructions of a function's prologue did, from the last one to the first.

ghost use Rattle.std.specs.Prelude.{◌≡◌, ◌≤◌, ◌<◌, IfSome};
ghost use Rattle.pe_unwind.specs.UnwindErrors.{Gives};
ghost use Rattle.pe_unwind.specs.UnwindCodes.{code_of, first_code, large_operand, operation_of, slot_count};
ghost use Rattle.pe_unwind.specs.UnwindCodes.{small_operand, unwind_codes};

use crate::registers::{Register, numbered};
use crate::unwind_errors::{EntryError, UnwindError};
use pe_image::{u16_at, u32_at};
use std::alloc::Global;

const UWOP_PUSH_NONVOL: u8 = 0;

const UWOP_ALLOC_LARGE: u8 = 1;

const UWOP_ALLOC_SMALL: u8 = 2;

const UWOP_SET_FPREG: u8 = 3;

const UWOP_SAVE_NONVOL: u8 = 4;

const UWOP_SAVE_NONVOL_FAR: u8 = 5;

const UWOP_EPILOG: u8 = 6;

const UWOP_SPARE_CODE: u8 = 7;

const UWOP_SAVE_XMM128: u8 = 8;

const UWOP_SAVE_XMM128_FAR: u8 = 9;

const UWOP_PUSH_MACHFRAME: u8 = 10;

/// What an instruction of the prologue did.
#[derive(Debug, Clone, Copy, PartialEq, Eq)]
pub enum Operation {
    /// Pushed a register.
    Push(Register),
    /// Moved the stack pointer down by this many bytes.
    Allocate(u32),
    /// Set the frame register.
    SetFrame,
    /// Stored a register this many bytes above the base of the frame.
    Save(Register, u32),
    /// A machine frame that the processor pushed, with an error code or without.
    MachineFrame(bool),
    /// An epilogue of version 2, with the operation info.
    Epilogue(u8),
    /// An operation that doesn't affect general registers.
    Unseen,
}

/// An unwind code.
#[derive(Debug, Clone, Copy, PartialEq, Eq)]
pub struct UnwindCode {
    /// The end of the instruction, in bytes from the function's start.
    pub offset: u8,
    pub operation: Operation,
}

/// Reads all unwind codes in these bytes.
#[tactic(auto, unfolding(crate::specs::UnwindCodes::unwind_codes))]
pub(crate) fn unwind_codes(
    alloc: Global,
    version: u8,
    bytes: &[u8],
) -> Result<Vec<UnwindCode>, UnwindError>
    ensures answer { Gives (λ codes. codes.items) result (unwind_codes version bytes.now) }
{
    let mut codes = Vec::new(alloc);
    let mut rest = bytes;
    for _ in 0..bytes.len() {
        if rest.is_empty() {
            break;
        }
        let (code, behind) = first_code(version, rest)?;
        codes.push(code)?;
        rest = behind;
    }
    Ok(codes)
}

// Reads the first code, and returns it with the bytes after it.
fn first_code(version: u8, bytes: &[u8]) -> Result<(UnwindCode, &[u8]), UnwindError>
    ensures { Gives (λ read. (read.0, read.1.now)) result (first_code version bytes.now) }
{
    let kind = bytes.get(1).copied().unwrap_or(0);
    let Some(count) = slot_count(version, kind % 16, kind / 16) else {
        return Err(UnwindError::Refused(EntryError::UnknownCode));
    };
    code_of(bytes, count)
}

// Reads the first code, which takes `count` slots, and returns it with the bytes after it.
fn code_of(bytes: &[u8], count: usize) -> Result<(UnwindCode, &[u8]), UnwindError>
    requires some { 1 ≤ count }
    requires few { count ≤ 3 }
    ensures { Gives (λ read. (read.0, read.1.now)) result (code_of bytes.now count) }
{
    if bytes.len() < 2 * count {
        return Err(UnwindError::Refused(EntryError::CodesCut));
    }
    let (_, rest) = bytes.split_at(2 * count);
    let (_, operands) = bytes.split_at(2);
    let code = UnwindCode {
        offset: bytes[0],
        operation: operation_of(bytes[1] % 16, bytes[1] / 16, operands),
    };
    Ok((code, rest))
}

// How many slots of two bytes a code takes.
fn slot_count(version: u8, kind: u8, info: u8) -> Option<usize>
    ensures answer { result ≡ slot_count version kind info }
    ensures some { IfSome result (λ count. 1 ≤ count) }
    ensures bound { IfSome result (λ count. count ≤ 3) }
{
    match kind {
        UWOP_PUSH_NONVOL | UWOP_ALLOC_SMALL | UWOP_SET_FPREG | UWOP_PUSH_MACHFRAME => Some(1),
        UWOP_ALLOC_LARGE if info == 0 => Some(2),
        UWOP_ALLOC_LARGE if info == 1 => Some(3),
        UWOP_SAVE_NONVOL | UWOP_SAVE_XMM128 => Some(2),
        UWOP_SAVE_NONVOL_FAR | UWOP_SAVE_XMM128_FAR => Some(3),
        UWOP_EPILOG if version == 2 => Some(1),
        UWOP_SPARE_CODE if version == 2 => Some(3),
        _ => None,
    }
}

// The operation of a code.
fn operation_of(kind: u8, info: u8, operands: &[u8]) -> Operation
    requires { info < 16 }
    ensures { result ≡ operation_of kind info operands.now }
{
    match kind {
        UWOP_PUSH_NONVOL => Operation::Push(numbered(usize::from(info))),
        UWOP_ALLOC_LARGE if info == 0 => Operation::Allocate(small_operand(operands) * 8),
        UWOP_ALLOC_LARGE => Operation::Allocate(large_operand(operands)),
        UWOP_ALLOC_SMALL => Operation::Allocate(u32::from(info) * 8 + 8),
        UWOP_SET_FPREG => Operation::SetFrame,
        UWOP_SAVE_NONVOL => Operation::Save(
            numbered(usize::from(info)),
            small_operand(operands) * 8,
        ),
        UWOP_SAVE_NONVOL_FAR => Operation::Save(
            numbered(usize::from(info)),
            large_operand(operands),
        ),
        UWOP_EPILOG => Operation::Epilogue(info),
        UWOP_PUSH_MACHFRAME => Operation::MachineFrame(info == 1),
        _ => Operation::Unseen,
    }
}

// The number in the slot after a code.
fn small_operand(operands: &[u8]) -> u32
    ensures answer { result ≡ small_operand operands.now }
    ensures small { result < 65536 }
{
    u32::from(u16_at(operands, 0).unwrap_or(0))
}

// The number in the two slots after a code.
fn large_operand(operands: &[u8]) -> u32
    ensures { result ≡ large_operand operands.now }
{
    u32_at(operands, 0).unwrap_or(0)
}
