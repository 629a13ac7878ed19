//! `Image`: a program (EXE or DLL, PE32 or PE32+) with its sections, data directories, and bytes by address.

ghost use Rattle.std.specs.Prelude.{◌≡◌, ◌≤◌, ◌==◌, ◌*◌, drop, find, length, take, IfOk};
ghost use Rattle.pe_image.specs.NumbersAt.{entries};
ghost use Rattle.pe_image.specs.Image.{data_directory, holds, program_of, section_bytes, section_header};

use crate::headers::headers_of;
use crate::numbers_at::bytes_at;
use byteorder::{ByteOrder, LittleEndian};
use std::alloc::{AllocError, Global};
use std::marker::Model;

/// The size of a section's header in bytes.
const SECTION_HEADER: usize = 40;

/// The size of an entry of the data directories in bytes.
const DIRECTORY: usize = 8;

/// The flag of a section that is executable.
pub const IMAGE_SCN_MEM_EXECUTE: u32 = 0x2000_0000;

/// The machine of programs for x64.
pub const IMAGE_FILE_MACHINE_AMD64: u16 = 0x8664;

/// A section of a program.
#[derive(Debug, Clone, Copy, PartialEq, Eq)]
pub struct Section {
    /// The address of its start, relative to the image base.
    pub rva: u32,
    /// Its size in bytes when it is loaded.
    pub size: u32,
    /// The offset of its bytes in the file.
    pub file_offset: u32,
    /// The number of its bytes in the file.
    pub file_size: u32,
    /// Flags of the section, such as [`IMAGE_SCN_MEM_EXECUTE`].
    pub characteristics: u32,
}

impl Section {
    ghost use Rattle.pe_image.specs.Image.{is_executable};

    /// Whether the section is executable.
    pub fn is_executable(self) -> bool
        ensures { result ≡ is_executable self }
    {
        self.characteristics / IMAGE_SCN_MEM_EXECUTE % 2 == 1
    }
}

/// An entry of the data directories: where one of the program's tables is.
#[derive(Debug, Clone, Copy, PartialEq, Eq)]
pub struct DataDirectory {
    /// The address of the table, relative to the image base.
    pub rva: u32,
    /// The size of the table in bytes.
    pub size: u32,
}

/// A program: the bytes of its file, and its headers.
#[derive(Drop)]
pub struct Image<'a> {
    pub file: &'a [u8],
    /// The machine, such as [`IMAGE_FILE_MACHINE_AMD64`] for x64.
    pub machine: u16,
    /// TimeDateStamp: when the program was linked, in seconds since 1970. If the linker was told to make reproducible
    /// files, this is a hash.
    pub time_stamp: u32,
    /// The address at which the program should be loaded (ImageBase).
    pub image_base: u64,
    /// SizeOfImage: the size of the loaded program in bytes.
    pub image_size: u32,
    pub sections: Vec<Section>,
    pub directories: Vec<DataDirectory>,
}

impl<'a> Model for Image<'a> {
    ghost use Rattle.pe_image.specs.Image.{Program};

    ghost Value = { Program };

    ghost view = { λ image. record {
      file = image.file.now;
      machine = image.machine;
      time_stamp = image.time_stamp;
      image_base = image.image_base;
      image_size = image.image_size;
      sections = image.sections.items;
      directories = image.directories.items;
    } };
}

/// Reads the headers of a program. `None` if the file isn't an EXE or a DLL, or can't be loaded by Windows: it has more
/// than 96 sections, or headers that extend past its end.
pub fn read_image(alloc: Global, file: &[u8]) -> Result<Option<Image<'_>>, AllocError>
    ensures answer { IfOk result (λ image. image ≡ program_of file.now) }
{
    let Some(headers) = headers_of(file) else {
        return Ok(None);
    };
    let Some(sections) = bytes_at(
        file,
        headers.sections.at,
        SECTION_HEADER * headers.sections.count,
    ) else {
        return Ok(None);
    };
    let Some(directories) = bytes_at(
        file,
        headers.directories.at,
        DIRECTORY * headers.directories.count,
    ) else {
        return Ok(None);
    };
    Ok(Some(Image {
        file,
        machine: headers.machine,
        time_stamp: headers.time_stamp,
        image_base: headers.image_base,
        image_size: headers.image_size,
        sections: sections_in(alloc, sections, headers.sections.count)?,
        directories: directories_in(alloc, directories, headers.directories.count)?,
    }))
}

impl<'a> Image<'a> {
    ghost use Rattle.pe_image.specs.Image.{bytes_from, directory, image_file_machine_amd64};

    /// Whether the program is for x64.
    pub fn is_x64(&self) -> bool
        ensures answer { result ≡ (self.now.machine == image_file_machine_amd64) }
    {
        self.machine == IMAGE_FILE_MACHINE_AMD64
    }

    /// The bytes from an address on, relative to the image base, up to the end of its section in the file. Empty if no
    /// section contains the address.
    pub fn bytes_from(&self, rva: u32) -> &'a [u8]
        ensures answer { result.now ≡ bytes_from self.now rva }
    {
        match section_over(&self.sections, rva) {
            None => &[],
            Some(section) => section_bytes(self.file, rva, section),
        }
    }

    /// The data directory at an index, such as 3 for the exception directory.
    pub fn directory(&self, position: usize) -> Option<DataDirectory>
        ensures answer { result ≡ directory self.now position }
    {
        self.directories.get(position).copied()
    }
}

// Decodes a section header.
fn section_header(bytes: &[u8]) -> Section
    requires { 40 ≤ length bytes.now }
    ensures { result ≡ section_header bytes.now }
{
    Section {
        rva: LittleEndian::read_u32(&bytes[12..]),
        size: LittleEndian::read_u32(&bytes[8..]),
        file_offset: LittleEndian::read_u32(&bytes[20..]),
        file_size: LittleEndian::read_u32(&bytes[16..]),
        characteristics: LittleEndian::read_u32(&bytes[36..]),
    }
}

// Decodes an entry of the data directories.
fn data_directory(bytes: &[u8]) -> DataDirectory
    requires { 8 ≤ length bytes.now }
    ensures { result ≡ data_directory bytes.now }
{
    DataDirectory {
        rva: LittleEndian::read_u32(bytes),
        size: LittleEndian::read_u32(&bytes[4..]),
    }
}

// Decodes `count` section headers.
fn sections_in(alloc: Global, bytes: &[u8], count: usize) -> Result<Vec<Section>, AllocError>
    requires { 40 * count ≤ length bytes.now }
    ensures { IfOk result (λ read. read.items ≡ entries section_header 40 count bytes.now) }
{
    let mut read = Vec::with_capacity(alloc, count)?;
    for position in 0..count {
        read.push(section_header(&bytes[SECTION_HEADER * position..]))?;
    }
    Ok(read)
}

// Decodes `count` entries of the data directories.
fn directories_in(
    alloc: Global,
    bytes: &[u8],
    count: usize,
) -> Result<Vec<DataDirectory>, AllocError>
    requires { 8 * count ≤ length bytes.now }
    ensures { IfOk result (λ read. read.items ≡ entries data_directory 8 count bytes.now) }
{
    let mut read = Vec::with_capacity(alloc, count)?;
    for position in 0..count {
        read.push(data_directory(&bytes[DIRECTORY * position..]))?;
    }
    Ok(read)
}

// Whether a section has bytes in the file for an address.
fn holds(rva: u32, section: Section) -> bool
    ensures { result ≡ holds rva section }
{
    section.rva <= rva && rva - section.rva < section.file_size
}

// The first section that has bytes in the file for an address.
fn section_over(sections: &[Section], rva: u32) -> Option<Section>
    ensures { result ≡ find (holds rva) sections.now }
{
    sections
        .iter()
        .copied()
        .find(|section| holds(rva, *section))
}

// The bytes of a section from an address on.
fn section_bytes(file: &[u8], rva: u32, section: Section) -> &[u8]
    ensures { result.now ≡ section_bytes file.now rva section }
{
    let bytes = first_bytes(
        bytes_behind(file, section.file_offset as usize),
        section.file_size as usize,
    );
    bytes_behind(bytes, rva.saturating_sub(section.rva) as usize)
}

// The bytes from an offset on; none if there are fewer bytes.
fn bytes_behind(bytes: &[u8], at: usize) -> &[u8]
    ensures { result.now ≡ drop at bytes.now }
{
    if bytes.len() < at {
        return &[];
    }
    let (_, rest) = bytes.split_at(at);
    rest
}

// The first `count` bytes, or all if there are fewer.
fn first_bytes(bytes: &[u8], count: usize) -> &[u8]
    ensures { result.now ≡ take count bytes.now }
{
    if bytes.len() < count {
        return bytes;
    }
    let (first, _) = bytes.split_at(count);
    first
}
