//! Reads the exception directory of a program: its functions, each with the address of its unwind info.

ghost use Rattle.std.specs.Prelude.{◌≡◌, ◌≤◌, ◌*◌, length, IfOk};
ghost use Rattle.pe_image.specs.NumbersAt.{entries};
ghost use Rattle.pe_image.specs.ExceptionDirectory.{entry_count, function_entries, function_entry};

use crate::image::{DataDirectory, Image};
use byteorder::{ByteOrder, LittleEndian};
use std::alloc::{AllocError, Global};

/// The index of the exception directory in the list of data directories.
pub(crate) const IMAGE_DIRECTORY_ENTRY_EXCEPTION: usize = 3;

/// The size of an entry in bytes.
const ENTRY: usize = 12;

/// A function of a program (RUNTIME_FUNCTION). Addresses are relative to the image base.
#[derive(Debug, Clone, Copy, PartialEq, Eq)]
pub struct FunctionEntry {
    /// The address of the function's first byte.
    pub begin: u32,
    /// The address just after the function's last byte.
    pub end: u32,
    /// The address of the function's unwind info. If the lowest bit is set, the other bits are the address of another
    /// entry whose unwind info counts.
    pub info: u32,
}

/// The entries of a program's exception directory, in file order. None if there is no such directory.
pub fn function_entries(alloc: Global, image: &Image<'_>) -> Result<Vec<FunctionEntry>, AllocError>
    ensures answer { IfOk result (λ read. read.items ≡ function_entries image.now) }
{
    let Some(directory) = image.directory(IMAGE_DIRECTORY_ENTRY_EXCEPTION) else {
        return Ok(Vec::new(alloc));
    };
    let bytes = image.bytes_from(directory.rva);
    entries_in(alloc, bytes, entry_count(directory, bytes))
}

/// Decodes the entry in the first 12 bytes.
pub fn function_entry_at(bytes: &[u8]) -> FunctionEntry
    requires { 12 ≤ length bytes.now }
    ensures { result ≡ function_entry bytes.now }
{
    FunctionEntry {
        begin: LittleEndian::read_u32(bytes),
        end: LittleEndian::read_u32(&bytes[4..]),
        info: LittleEndian::read_u32(&bytes[8..]),
    }
}

// How many entries a directory has: as many as its size says, if its section has bytes for them.
fn entry_count(directory: DataDirectory, bytes: &[u8]) -> usize
    ensures answer { result ≡ entry_count directory bytes.now }
    ensures room { 12 * result ≤ length bytes.now }
{
    bytes.len().min(directory.size as usize) / ENTRY
}

// Decodes the first `count` entries.
fn entries_in(alloc: Global, bytes: &[u8], count: usize) -> Result<Vec<FunctionEntry>, AllocError>
    requires { 12 * count ≤ length bytes.now }
    ensures { IfOk result (λ read. read.items ≡ entries function_entry 12 count bytes.now) }
{
    let mut read = Vec::with_capacity(alloc, count)?;
    for position in 0..count {
        read.push(function_entry_at(&bytes[ENTRY * position..]))?;
    }
    Ok(read)
}
