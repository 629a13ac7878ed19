//! Reads the debug directory of a program: which debug data it has, and where this is in the file.

ghost use Rattle.std.specs.Prelude.{◌≡◌, ◌≤◌, ◌*◌, length, IfOk};
ghost use Rattle.pe_image.specs.NumbersAt.{entries};
ghost use Rattle.pe_image.specs.DebugDirectory.{debug_entries, debug_entry, debug_entry_count};

use crate::image::{DataDirectory, Image};
use crate::numbers_at::bytes_at;
use byteorder::{ByteOrder, LittleEndian};
use std::alloc::{AllocError, Global};

/// The index of the debug directory in the list of data directories.
const IMAGE_DIRECTORY_ENTRY_DEBUG: usize = 6;

/// The type of debug data that names the PDB file of a program.
pub const IMAGE_DEBUG_TYPE_CODEVIEW: u32 = 2;

/// The size of an entry in bytes.
const ENTRY: usize = 28;

/// An entry of the debug directory (IMAGE_DEBUG_DIRECTORY).
#[derive(Debug, Clone, Copy, PartialEq, Eq)]
pub struct DebugEntry {
    /// The type of its debug data, such as [`IMAGE_DEBUG_TYPE_CODEVIEW`].
    pub kind: u32,
    /// SizeOfData: the size of its debug data in bytes.
    pub size: u32,
    /// PointerToRawData: the offset of its debug data in the file.
    pub file_offset: u32,
}

/// The entries of a program's debug directory, in file order.
pub fn debug_entries(alloc: Global, image: &Image<'_>) -> Result<Vec<DebugEntry>, AllocError>
    ensures answer { IfOk result (λ read. read.items ≡ debug_entries image.now) }
{
    let Some(directory) = image.directory(IMAGE_DIRECTORY_ENTRY_DEBUG) else {
        return Ok(Vec::new(alloc));
    };
    let bytes = image.bytes_from(directory.rva);
    debug_entries_in(alloc, bytes, debug_entry_count(directory, bytes))
}

impl<'a> Image<'a> {
    ghost use Rattle.std.specs.Prelude.{option_map};
    ghost use Rattle.pe_image.specs.DebugDirectory.{debug_data};

    /// The debug data of an entry; `None` if the file ends before its end.
    pub fn debug_data(&self, entry: DebugEntry) -> Option<&'a [u8]>
        ensures answer { option_map (λ found. found.now) result ≡ debug_data self.now entry }
    {
        bytes_at(self.file, entry.file_offset as usize, entry.size as usize)
    }
}

// Decodes the entry in the first 28 bytes.
fn debug_entry(bytes: &[u8]) -> DebugEntry
    requires { 28 ≤ length bytes.now }
    ensures { result ≡ debug_entry bytes.now }
{
    DebugEntry {
        kind: LittleEndian::read_u32(&bytes[12..]),
        size: LittleEndian::read_u32(&bytes[16..]),
        file_offset: LittleEndian::read_u32(&bytes[24..]),
    }
}

// How many entries a directory has: as many as its size says, if its section has bytes for them.
fn debug_entry_count(directory: DataDirectory, bytes: &[u8]) -> usize
    ensures answer { result ≡ debug_entry_count directory bytes.now }
    ensures room { 28 * result ≤ length bytes.now }
{
    bytes.len().min(directory.size as usize) / ENTRY
}

// Decodes the first `count` entries.
fn debug_entries_in(
    alloc: Global,
    bytes: &[u8],
    count: usize,
) -> Result<Vec<DebugEntry>, AllocError>
    requires { 28 * count ≤ length bytes.now }
    ensures { IfOk result (λ read. read.items ≡ entries debug_entry 28 count bytes.now) }
{
    let mut read = Vec::with_capacity(alloc, count)?;
    for position in 0..count {
        read.push(debug_entry(&bytes[ENTRY * position..]))?;
    }
    Ok(read)
}
