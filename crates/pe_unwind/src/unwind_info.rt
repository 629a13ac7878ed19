//! Reads UNWIND_INFO, the unwind info of a function, and the infos to which it is chained.

ghost use Rattle.std.specs.Prelude.{◌≡◌, ◌≤◌, length};
ghost use Rattle.pe_unwind.specs.UnwindErrors.{Gives};
ghost use Rattle.pe_unwind.specs.UnwindInfo.{code_bytes, frame_of, info_address, info_at, info_in, parent_at};
ghost use Rattle.pe_unwind.specs.UnwindInfo.{parent_of, parents_of};

use crate::registers::{Register, numbered};
use crate::unwind_codes::{UnwindCode, unwind_codes};
use crate::unwind_errors::{EntryError, UnwindError};
use pe_image::{Image, function_entry_at};
use std::alloc::Global;
use std::marker::Model;

/// The size of an info's header in bytes.
const HEADER: usize = 4;

/// The size of an entry of the exception directory in bytes.
const ENTRY: usize = 12;

/// The maximum length of a chain of infos.
const MOST_PARENTS: usize = 32;

/// The register by which a function addresses its frame.
#[derive(Debug, Clone, Copy, PartialEq, Eq)]
pub struct FrameRegister {
    pub register: Register,
    /// How far above the frame's base the register points, in bytes.
    pub offset: u8,
}

/// An unwind info.
#[derive(Drop)]
pub struct UnwindInfo {
    /// 1 or 2.
    pub version: u8,
    /// The size of the prologue in bytes.
    pub prologue_size: u8,
    pub frame: Option<FrameRegister>,
    /// The codes in file order: that of the last instruction comes first.
    pub codes: Vec<UnwindCode>,
    /// The address of the info to which this one is chained, relative to the image base.
    pub parent: Option<u32>,
}

impl Model for UnwindInfo {
    ghost use Rattle.pe_unwind.specs.UnwindInfo.{Info};

    ghost Value = { Info };

    ghost view = { λ info. record {
      version = info.version;
      prologue_size = info.prologue_size;
      frame = info.frame;
      codes = info.codes.items;
      parent = info.parent;
    } };
}

/// Reads the infos to which an info is chained, in the order of the chain.
#[tactic(auto, unfolding(crate::specs::UnwindInfo::parents_of))]
pub(crate) fn parents_of(
    alloc: Global,
    image: &Image<'_>,
    parent: Option<u32>,
) -> Result<Vec<UnwindInfo>, UnwindError>
    ensures answer { Gives (λ parents. parents.items) result (parents_of image.now parent) }
{
    let mut parents = Vec::new(alloc);
    let mut next = parent;
    for _ in 0..MOST_PARENTS {
        let Some(rva) = next else {
            return Ok(parents);
        };
        let info = info_at(alloc, image, rva)?;
        next = info.parent;
        parents.push(info)?;
    }
    if next.is_some() {
        return Err(UnwindError::Refused(EntryError::ChainTooLong));
    }
    Ok(parents)
}

/// Reads the info to which an entry refers.
#[tactic(auto, unfolding(crate::specs::UnwindInfo::info_at))]
pub(crate) fn info_at(alloc: Global, image: &Image<'_>, rva: u32) -> Result<UnwindInfo, UnwindError>
    ensures answer { Gives (λ info. info) result (info_at image.now rva) }
{
    let address = info_address(image, rva)?;
    info_in(alloc, image.bytes_from(address))
}

// The address of the info to which an entry refers.
fn info_address(image: &Image<'_>, rva: u32) -> Result<u32, UnwindError>
    ensures answer { Gives (λ address. address) result (info_address image.now rva) }
{
    if rva % 2 == 0 {
        return Ok(rva);
    }
    let entry = image.bytes_from(rva - 1);
    if entry.len() < ENTRY {
        return Err(UnwindError::Refused(EntryError::InfoOutsideOfImage));
    }
    Ok(function_entry_at(entry).info)
}

// Reads the info at the start of these bytes.
fn info_in(alloc: Global, bytes: &[u8]) -> Result<UnwindInfo, UnwindError>
    ensures answer { Gives (λ info. info) result (info_in bytes.now) }
{
    if bytes.len() < HEADER {
        return Err(UnwindError::Refused(EntryError::InfoOutsideOfImage));
    }
    let version = bytes[0] % 8;
    if version != 1 && version != 2 {
        return Err(UnwindError::Refused(EntryError::UnknownVersion));
    }
    let slots = code_bytes(bytes)?;
    let codes = unwind_codes(alloc, version, slots)?;
    let parent = parent_of(bytes)?;
    Ok(UnwindInfo {
        version,
        prologue_size: bytes[1],
        frame: frame_of(bytes[3]),
        codes,
        parent,
    })
}

// Decodes the frame register from its byte.
fn frame_of(byte: u8) -> Option<FrameRegister>
    ensures answer { result ≡ frame_of byte }
{
    if byte % 16 == 0 {
        return None;
    }
    Some(FrameRegister {
        register: numbered(usize::from(byte % 16)),
        offset: byte / 16 * 16,
    })
}

// The bytes of the codes.
fn code_bytes(bytes: &[u8]) -> Result<&[u8], UnwindError>
    requires { 4 ≤ length bytes.now }
    ensures answer { Gives (λ slots. slots.now) result (code_bytes bytes.now) }
{
    let size = 2 * usize::from(bytes[2]);
    if bytes.len() < HEADER + size {
        return Err(UnwindError::Refused(EntryError::CodesCut));
    }
    let (_, rest) = bytes.split_at(HEADER);
    let (slots, _) = rest.split_at(size);
    Ok(slots)
}

// The offset of the parent's entry.
fn parent_at(slots: u8) -> usize
    ensures answer { result ≡ parent_at slots }
    ensures near { result ≤ 516 }
{
    let slots = usize::from(slots);
    HEADER + 2 * (slots + slots % 2)
}

// The address of the info to which this one is chained, if any.
fn parent_of(bytes: &[u8]) -> Result<Option<u32>, UnwindError>
    requires { 4 ≤ length bytes.now }
    ensures answer { Gives (λ parent. parent) result (parent_of bytes.now) }
{
    if bytes[0] / 32 % 2 == 0 {
        return Ok(None);
    }
    let at = parent_at(bytes[2]);
    if bytes.len() < at + ENTRY {
        return Err(UnwindError::Refused(EntryError::InfoOutsideOfImage));
    }
    let (_, entry) = bytes.split_at(at);
    Ok(Some(function_entry_at(entry).info))
}
