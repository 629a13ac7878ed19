//! Reads the exception directory of a program for ARM64.
//!
//! It lists the functions, each with its packed unwind data or the address of its unwind info.

ghost use Rattle.std.specs.Prelude.{◌≡◌, ◌≤◌, ◌*◌, ◌==◌, length, IfOk};
ghost use Rattle.pe_image.specs.NumbersAt.{entries};
ghost use Rattle.pe_image.specs.Arm64Directory.{arm64_entries, arm64_entry, arm64_entry_count};
ghost use Rattle.pe_image.specs.Arm64Directory.{image_file_machine_arm64};

use crate::exception_directory::IMAGE_DIRECTORY_ENTRY_EXCEPTION;
use crate::image::{DataDirectory, Image};
use byteorder::{ByteOrder, LittleEndian};
use std::alloc::{AllocError, Global};

/// The machine of programs for ARM64.
pub const IMAGE_FILE_MACHINE_ARM64: u16 = 0xaa64;

/// The size of an entry in bytes.
const ENTRY: usize = 8;

/// A function of a program for ARM64 (IMAGE_ARM64_RUNTIME_FUNCTION_ENTRY).
#[derive(Debug, Clone, Copy, PartialEq, Eq)]
pub struct Arm64Entry {
    /// The address of its first byte, relative to the image base.
    pub begin: u32,
    /// UnwindData: the address of the unwind info if its low two bits are 0, otherwise packed unwind data.
    pub unwind: u32,
}

/// Whether a program is for ARM64.
pub fn is_arm64(image: &Image<'_>) -> bool
    ensures answer { result ≡ (image.now.machine == image_file_machine_arm64) }
{
    image.machine == IMAGE_FILE_MACHINE_ARM64
}

/// The entries of the exception directory of a program for ARM64, in file order.
pub fn arm64_entries(alloc: Global, image: &Image<'_>) -> Result<Vec<Arm64Entry>, AllocError>
    ensures answer { IfOk result (λ read. read.items ≡ arm64_entries image.now) }
{
    let Some(directory) = image.directory(IMAGE_DIRECTORY_ENTRY_EXCEPTION) else {
        return Ok(Vec::new(alloc));
    };
    let bytes = image.bytes_from(directory.rva);
    arm64_entries_in(alloc, bytes, arm64_entry_count(directory, bytes))
}

// Decodes the entry in the first 8 bytes.
fn arm64_entry(bytes: &[u8]) -> Arm64Entry
    requires { 8 ≤ length bytes.now }
    ensures { result ≡ arm64_entry bytes.now }
{
    Arm64Entry {
        begin: LittleEndian::read_u32(bytes),
        unwind: LittleEndian::read_u32(&bytes[4..]),
    }
}

// How many entries a directory has: as many as its size says, if its section has bytes for them.
fn arm64_entry_count(directory: DataDirectory, bytes: &[u8]) -> usize
    ensures answer { result ≡ arm64_entry_count directory bytes.now }
    ensures room { 8 * result ≤ length bytes.now }
{
    bytes.len().min(directory.size as usize) / ENTRY
}

// Decodes the first `count` entries.
fn arm64_entries_in(
    alloc: Global,
    bytes: &[u8],
    count: usize,
) -> Result<Vec<Arm64Entry>, AllocError>
    requires { 8 * count ≤ length bytes.now }
    ensures { IfOk result (λ read. read.items ≡ entries arm64_entry 8 count bytes.now) }
{
    let mut read = Vec::with_capacity(alloc, count)?;
    for position in 0..count {
        read.push(arm64_entry(&bytes[ENTRY * position..]))?;
    }
    Ok(read)
}
