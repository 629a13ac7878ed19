//! Reads unwind codes: what the instructions of a function's prologue did, from the last one to the first.

ghost use Rattle.std.specs.Prelude.{◌≡◌, ◌≤◌, ◌<◌, drop, length, slice_index, IfOk};
ghost use Rattle.pe_unwind_arm64.specs.UnwindCodes.{IsNear, code_size, codes_from, codes_in, float_operation, if_known, is_next};
ghost use Rattle.pe_unwind_arm64.specs.UnwindCodes.{large_number, long_operation, next_operation, number_of_two};
ghost use Rattle.pe_unwind_arm64.specs.UnwindCodes.{operation_behind, operation_of, other_operation, own_operation};
ghost use Rattle.pe_unwind_arm64.specs.UnwindCodes.{pair_behind, save_operation, short_operation};

use crate::registers::{Register, index, numbered};
use crate::unwind_errors::EntryError;
use std::alloc::{AllocError, Global};

const ALLOC_Z: u8 = 0xdf;

const ALLOC_L: u8 = 0xe0;

const SET_FP: u8 = 0xe1;

const ADD_FP: u8 = 0xe2;

const NOP: u8 = 0xe3;

const END: u8 = 0xe4;

const END_C: u8 = 0xe5;

const SAVE_NEXT: u8 = 0xe6;

const SAVE_ANY_REG: u8 = 0xe7;

const CLEAR_UNWOUND_TO_CALL: u8 = 0xec;

const PAC_SIGN_LR: u8 = 0xfc;

/// The maximum number of save_next codes that are followed.
const MOST_PAIRS_BEHIND: usize = 4;

/// What an instruction of the prologue did. Sizes and offsets are in bytes.
#[derive(Debug, Clone, Copy, PartialEq, Eq)]
pub enum Operation {
    /// Moved the stack pointer down by this much.
    Allocate(u32),
    /// Stored a register this far above the stack pointer.
    Save(Register, u32),
    /// Stored a register and the one after it this far above the stack pointer.
    SavePair(Register, u32),
    /// Stored a register and x30 this far above the stack pointer.
    SaveWithLink(Register, u32),
    /// Moved the stack pointer down by this much, and stored a register there.
    Push(Register, u32),
    /// Moved the stack pointer down by this much, and stored a register and the one after it there.
    PushPair(Register, u32),
    /// Stored a pair of floating-point registers.
    SaveFloats,
    /// Moved the stack pointer down by this much, and stored a pair of floating-point registers there.
    PushFloats(u32),
    /// Set x29 to the stack pointer.
    SetFrame,
    /// Set x29 to this much above the stack pointer.
    AddFrame(u32),
    /// An operation that no rule shows.
    Unseen,
    /// The end of all codes, which isn't an instruction.
    End,
    /// The end of the function's own codes, which isn't an instruction. The codes of the function to which it belongs
    /// follow.
    EndChained,
    /// The code can't be undone.
    Unusable(EntryError),
}

/// An unwind code.
#[derive(Debug, Clone, Copy, PartialEq, Eq)]
pub struct UnwindCode {
    /// The offset of the code in the bytes of all codes.
    pub index: usize,
    pub operation: Operation,
}

/// Reads all unwind codes in these bytes.
#[tactic(auto, unfolding(crate::specs::UnwindCodes::codes_in))]
pub(crate) fn codes_in(alloc: Global, bytes: &[u8]) -> Result<Vec<UnwindCode>, AllocError>
    ensures answer { IfOk result (λ codes. codes.items ≡ codes_in bytes.now) }
{
    let mut codes = Vec::new(alloc);
    let mut rest = bytes;
    for _ in 0..bytes.len() {
        if rest.is_empty() {
            break;
        }
        codes.push(UnwindCode {
            index: bytes.len() - rest.len(),
            operation: operation_of(rest),
        })?;
        rest = bytes_behind(rest, code_size(rest[0]));
    }
    Ok(codes)
}

/// The codes from the one with an index on.
pub(crate) fn codes_from(index: usize, codes: &[UnwindCode]) -> &[UnwindCode]
    ensures { result.now ≡ codes_from index codes.now }
{
    for position in 0..codes.len() {
        if codes[position].index == index {
            let (_, rest) = codes.split_at(position);
            return rest;
        }
    }
    &[]
}

/// The bytes from an offset on; none if there are fewer bytes.
pub(crate) fn bytes_behind(bytes: &[u8], at: usize) -> &[u8]
    ensures answer { result.now ≡ drop at bytes.now }
    ensures shorter { length result.now ≤ length bytes.now }
{
    if bytes.len() < at {
        return &[];
    }
    let (_, rest) = bytes.split_at(at);
    rest
}

// The byte at a position; 0 after the last one.
fn byte_at(bytes: &[u8], position: usize) -> u8
    ensures { result ≡ slice_index bytes.now position }
{
    bytes.get(position).copied().unwrap_or(0)
}

// The size of a code in bytes, by its first byte.
fn code_size(byte: u8) -> usize
    ensures { result ≡ code_size byte }
{
    if byte < 0xc0 {
        return 1;
    }
    if byte < ALLOC_L {
        return 2;
    }
    match byte {
        ALLOC_L => 4,
        ADD_FP => 2,
        SAVE_ANY_REG => 3,
        _ => 1,
    }
}

// The operation of a code of one byte, which is below C0.
fn short_operation(byte: u8) -> Operation
    ensures near { IsNear result }
    ensures answer { result ≡ short_operation byte }
{
    let number = u32::from(byte);
    if number < 0x20 {
        return Operation::Allocate(number * 16);
    }
    if number < 0x40 {
        return Operation::PushPair(Register::X19, (number - 0x20) * 8);
    }
    if number < 0x80 {
        return Operation::SavePair(Register::X29, (number - 0x40) * 8);
    }
    Operation::PushPair(Register::X29, (number - 0x80) * 8 + 8)
}

// The operation, if its last register exists. That is the `last`th after x19.
fn if_known(last: u32, operation: Operation) -> Operation
    requires { IsNear operation }
    ensures near { IsNear result }
    ensures answer { result ≡ if_known last operation }
{
    if last <= 11 {
        operation
    } else {
        Operation::Unusable(EntryError::UnknownRegister)
    }
}

// The operation of a code that stored general registers, by its first byte and the number in both bytes.
fn save_operation(byte: u8, number: u32) -> Operation
    ensures near { IsNear result }
    ensures answer { result ≡ save_operation byte number }
{
    let behind = number / 64 % 16;
    let first = numbered(behind as usize);
    let offset = number % 64 * 8;
    if byte < 0xcc {
        return if_known(behind + 1, Operation::SavePair(first, offset));
    }
    if byte < 0xd0 {
        return if_known(behind + 1, Operation::PushPair(first, offset + 8));
    }
    if byte < 0xd4 {
        return if_known(behind, Operation::Save(first, offset));
    }
    if byte < 0xd6 {
        let one = number / 32 % 16;
        let pushed = Operation::Push(numbered(one as usize), number % 32 * 8 + 8);
        return if_known(one, pushed);
    }
    let twice = 2 * (number / 64 % 8);
    if_known(
        twice + 1,
        Operation::SaveWithLink(numbered(twice as usize), offset),
    )
}

// The operation of a code that stored floating-point registers.
fn float_operation(byte: u8, number: u32) -> Operation
    ensures near { IsNear result }
    ensures answer { result ≡ float_operation byte number }
{
    if byte < 0xda {
        return Operation::SaveFloats;
    }
    if byte < 0xdc {
        return Operation::PushFloats(number % 64 * 8 + 8);
    }
    if byte < 0xde {
        return Operation::Unseen;
    }
    Operation::Allocate(number % 32 * 8 + 8)
}

// The operation of a code of two bytes, by its first byte and the number in both bytes.
fn long_operation(byte: u8, number: u32) -> Operation
    ensures near { IsNear result }
    ensures answer { result ≡ long_operation byte number }
{
    if byte < 0xc8 {
        return Operation::Allocate(number % 2048 * 16);
    }
    if byte < 0xd8 {
        return save_operation(byte, number);
    }
    if byte == ALLOC_Z {
        return Operation::Unusable(EntryError::ScalableVectors);
    }
    float_operation(byte, number)
}

// The number in the first two bytes of a code, in big-endian order.
fn number_of_two(bytes: &[u8]) -> u32
    ensures { result ≡ number_of_two bytes.now }
{
    u32::from(byte_at(bytes, 0)) * 256 + u32::from(byte_at(bytes, 1))
}

// The number in the three bytes after the first one of a code, in big-endian order.
fn large_number(bytes: &[u8]) -> u32
    ensures answer { result ≡ large_number bytes.now }
    ensures large { result < 16777216 }
{
    u32::from(byte_at(bytes, 1)) * 65536
        + u32::from(byte_at(bytes, 2)) * 256
        + u32::from(byte_at(bytes, 3))
}

// The operation of a code whose first byte is E0 or above.
fn other_operation(byte: u8, bytes: &[u8]) -> Operation
    ensures near { IsNear result }
    ensures answer { result ≡ other_operation byte bytes.now }
{
    match byte {
        ALLOC_L => Operation::Allocate(large_number(bytes) * 16),
        SET_FP => Operation::SetFrame,
        ADD_FP => Operation::AddFrame(u32::from(byte_at(bytes, 1)) * 8),
        NOP => Operation::Unseen,
        END => Operation::End,
        END_C => Operation::EndChained,
        SAVE_NEXT => Operation::Unusable(EntryError::NextOfNoPair),
        SAVE_ANY_REG => Operation::Unusable(EntryError::AnyRegister),
        _ if byte <= CLEAR_UNWOUND_TO_CALL => Operation::Unusable(EntryError::CustomStack),
        PAC_SIGN_LR => Operation::Unseen,
        _ => Operation::Unusable(EntryError::UnknownCode),
    }
}

// The operation of the code at the start of these bytes, if they have all of it; save_next isn't handled here.
fn own_operation(bytes: &[u8]) -> Operation
    ensures near { IsNear result }
    ensures answer { result ≡ own_operation bytes.now }
{
    let byte = byte_at(bytes, 0);
    if bytes.len() < code_size(byte) {
        return Operation::Unusable(EntryError::CodesCut);
    }
    if byte < 0xc0 {
        return short_operation(byte);
    }
    if byte < ALLOC_L {
        return long_operation(byte, number_of_two(bytes));
    }
    other_operation(byte, bytes)
}

// The operation that stored the pair which is `count` pairs after another one.
fn pair_behind(count: usize, first: Register, offset: u32) -> Operation
    requires count { count ≤ 5 }
    requires offset { offset < 1024 }
    ensures { result ≡ pair_behind count first offset }
{
    let behind = index(first) + 2 * count;
    if behind <= 8 {
        Operation::SavePair(numbered(behind), offset + 16 * count as u32)
    } else {
        Operation::Unusable(EntryError::NextOfNoPair)
    }
}

// The operation of the first of `count` save_next codes, by the operation of the code after them.
fn operation_behind(count: usize, operation: Operation) -> Operation
    requires count { count ≤ 5 }
    requires near { IsNear operation }
    ensures { result ≡ operation_behind count operation }
{
    match operation {
        Operation::SavePair(first, offset) => pair_behind(count, first, offset),
        Operation::PushPair(first, _) => pair_behind(count, first, 0),
        Operation::SaveFloats | Operation::PushFloats(_) => Operation::SaveFloats,
        _ => Operation::Unusable(EntryError::NextOfNoPair),
    }
}

// Whether the first code is save_next.
fn is_next(bytes: &[u8]) -> bool
    ensures { result ≡ is_next bytes.now }
{
    byte_at(bytes, 0) == SAVE_NEXT
}

// The operation of a save_next code, by the bytes after it.
fn next_operation(bytes: &[u8]) -> Operation
    ensures { result ≡ next_operation bytes.now }
{
    let mut count = 1;
    let mut rest = bytes;
    for _ in 0..MOST_PAIRS_BEHIND {
        if !is_next(rest) {
            break;
        }
        count += 1;
        rest = bytes_behind(rest, 1);
    }
    operation_behind(count, own_operation(rest))
}

// The operation of the code at the start of these bytes.
fn operation_of(bytes: &[u8]) -> Operation
    ensures { result ≡ operation_of bytes.now }
{
    if is_next(bytes) {
        next_operation(bytes_behind(bytes, 1))
    } else {
        own_operation(bytes)
    }
}
