//! Decodes packed unwind data, which describes a canonical prologue and epilogue by a few numbers.

ghost use Rattle.std.specs.Prelude.{◌≡◌, ◌<◌, ◌^◌, IfOk};
ghost use Rattle.pe_unwind_arm64.specs.UnwindErrors.{Gives};
ghost use Rattle.pe_unwind_arm64.specs.Packed.{float_size, home_size, is_chained, is_moved, is_saved, is_signed, link_of};
ghost use Rattle.pe_unwind_arm64.specs.Packed.{local_size, packed_length, packed_of, register_size, saved_size};
ghost use Rattle.pe_unwind_arm64.specs.PackedData.{as_codes, ends_info, is_canonical, packed_info};

use crate::canonical::{push_epilogue, push_prologue};
use crate::epilogues::{last_epilogue, own_count};
use crate::unwind_codes::{Operation, UnwindCode};
use crate::unwind_errors::{EntryError, UnwindError};
use crate::unwind_info::{UnwindInfo, single};
use std::alloc::{AllocError, Global};

/// What the prologue did with x30, the return address.
#[derive(Debug, Clone, Copy, PartialEq, Eq)]
pub(crate) enum Link {
    /// Nothing.
    Kept,
    /// It was stored after the other registers.
    Saved,
    /// It was signed and stored with x29, which was set to the stack pointer.
    SignedChain,
    /// It was stored with x29, which was set to the stack pointer.
    Chain,
}

/// The numbers that are packed, apart from the function's length.
#[derive(Debug, Clone, Copy)]
pub(crate) struct Packed {
    /// Whether there are a prologue and an epilogue.
    has_ends: bool,
    /// The number of stored registers from d8 on, less one. 0 means that none were stored.
    pub(crate) floats: u8,
    /// The number of stored registers from x19 on.
    pub(crate) registers: u8,
    /// Whether the parameters x0 to x7 were stored.
    pub(crate) is_homed: bool,
    pub(crate) link: Link,
    /// The size of the frame in bytes.
    frame: u32,
}

/// The length of a function in instructions, by its packed unwind data.
pub(crate) fn packed_length(number: u32) -> u32
    ensures answer { result ≡ packed_length number }
    ensures small { result < 2 ^ 18 }
{
    number / 4 % 2048
}

// What the prologue did with x30, by two bits.
fn link_of(number: u32) -> Link
    ensures { result ≡ link_of number }
{
    match number {
        0 => Link::Kept,
        1 => Link::Saved,
        2 => Link::SignedChain,
        _ => Link::Chain,
    }
}

/// Decodes packed unwind data.
pub(crate) fn packed_of(number: u32) -> Packed
    ensures { result ≡ packed_of number }
{
    Packed {
        has_ends: number % 4 == 1,
        floats: (number / 0x2000 % 8) as u8,
        registers: (number / 0x1_0000 % 16) as u8,
        is_homed: number / 0x10_0000 % 2 == 1,
        link: link_of(number / 0x20_0000 % 4),
        frame: number / 0x80_0000 * 16,
    }
}

/// Whether x30 was stored after the other registers.
pub(crate) fn is_saved(link: Link) -> bool
    ensures { result ≡ is_saved link }
{
    matches!(link, Link::Saved)
}

/// Whether x29 and x30 were stored in the frame.
pub(crate) fn is_chained(link: Link) -> bool
    ensures { result ≡ is_chained link }
{
    matches!(link, Link::SignedChain | Link::Chain)
}

/// Whether x30 was signed.
pub(crate) fn is_signed(link: Link) -> bool
    ensures { result ≡ is_signed link }
{
    matches!(link, Link::SignedChain)
}

// The size of the stored registers from x19 on, and of x30 if it is stored after them, in bytes.
fn register_size(packed: Packed) -> u32
    ensures answer { result ≡ register_size packed }
    ensures small { result < 4096 }
{
    let size = 8 * u32::from(packed.registers);
    if is_saved(packed.link) {
        size + 8
    } else {
        size
    }
}

// The size of the stored registers from d8 on, in bytes.
fn float_size(packed: Packed) -> u32
    ensures answer { result ≡ float_size packed }
    ensures small { result < 4096 }
{
    if packed.floats == 0 {
        return 0;
    }
    8 * u32::from(packed.floats) + 8
}

// The size of the stored parameters in bytes.
fn home_size(packed: Packed) -> u32
    ensures answer { result ≡ home_size packed }
    ensures small { result < 4096 }
{
    if packed.is_homed { 64 } else { 0 }
}

/// The size of everything that was stored, rounded up to 16 bytes.
pub(crate) fn saved_size(packed: Packed) -> u32
    ensures { result ≡ saved_size packed }
{
    (register_size(packed) + float_size(packed) + home_size(packed) + 15) / 16 * 16
}

/// The size of the rest of the frame in bytes.
pub(crate) fn local_size(packed: Packed) -> u32
    ensures { result ≡ local_size packed }
{
    packed.frame.saturating_sub(saved_size(packed))
}

/// Whether the first store of general registers moved the stack pointer.
pub(crate) fn is_moved(packed: Packed) -> bool
    ensures { result ≡ is_moved packed }
{
    packed.registers != 0 || is_saved(packed.link)
}

// Operations as codes.
#[tactic(auto, unfolding(crate::specs::PackedData::as_codes))]
fn as_codes(alloc: Global, operations: &[Operation]) -> Result<Vec<UnwindCode>, AllocError>
    ensures { IfOk result (λ codes. codes.items ≡ as_codes operations.now) }
{
    let mut codes = Vec::new(alloc);
    for index in 0..operations.len() {
        codes.push(UnwindCode {
            index,
            operation: operations[index],
        })?;
    }
    Ok(codes)
}

// Whether there is a canonical prologue that stores this number of registers.
fn is_canonical(packed: Packed) -> bool
    ensures { result ≡ is_canonical packed }
{
    packed.registers <= 10 && !(packed.registers == 1 && is_saved(packed.link))
}

// The unwind info of a function with a prologue and an epilogue.
fn ends_info(
    alloc: Global,
    count: u32,
    index: usize,
    codes: Vec<UnwindCode>,
) -> Result<UnwindInfo, UnwindError>
    ensures { Gives (λ info. info) result (ends_info count index codes.items) }
{
    let prologue = own_count(&codes)?;
    let epilogue = last_epilogue(count, &codes, index)?;
    let epilogues = single(alloc, epilogue)?;
    Ok(UnwindInfo {
        codes,
        prologue,
        epilogues,
    })
}

/// The unwind info that packed data describes for a function of `count` instructions.
pub(crate) fn packed_info(
    alloc: Global,
    packed: Packed,
    count: u32,
) -> Result<UnwindInfo, UnwindError>
    ensures { Gives (λ info. info) result (packed_info packed count) }
{
    if !is_canonical(packed) {
        return Err(UnwindError::Refused(EntryError::PackedRegisters));
    }
    if packed.frame < saved_size(packed) {
        return Err(UnwindError::Refused(EntryError::PackedFrame));
    }
    let mut operations = Vec::new(alloc);
    push_prologue(&mut operations, packed)?;
    let index = operations.len() + 1;
    operations.push(Operation::End)?;
    push_epilogue(&mut operations, packed)?;
    operations.push(Operation::End)?;
    let codes = as_codes(alloc, &operations)?;
    if packed.has_ends {
        return ends_info(alloc, count, index, codes);
    }
    Ok(UnwindInfo {
        codes,
        prologue: 0,
        epilogues: Vec::new(alloc),
    })
}
