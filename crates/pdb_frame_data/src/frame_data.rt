//! Reads frame data: how x86 code keeps its frame, with a program that finds the caller's.

ghost use Rattle.std.specs.Prelude.{◌≡◌, length, IfOk};
ghost use Rattle.pdb_frame_data.specs.FrameData.{aligned, frame_data, frame_data_list};

use pdb_msf::faults::Fault;
use pdb_msf::{Bytes, ItemReader, bytes_from, read_items, u16_at, u32_at};
use pdb_records::Reading;
use std::alloc::{AllocError, Global};

/// The size of an entry in bytes.
const ENTRY: usize = 32;

/// The number of bytes before the entries, if there are any.
const FRONT: usize = 4;

/// How a range of code keeps its frame (FRAMEDATA). Sizes are in bytes.
#[derive(Debug, Clone, Copy, PartialEq, Eq)]
pub struct FrameData {
    /// The address of the code's first byte, relative to the image base.
    pub rva: u32,
    pub size: u32,
    pub local_size: u32,
    pub parameter_size: u32,
    /// The maximum size of pushed data.
    pub max_stack_size: u32,
    /// The offset of its program in the program strings.
    pub program: u32,
    pub prologue_size: u16,
    pub saved_register_size: u16,
}

/// Reads the entries of a stream of frame data. If the last entry is cut off, those before it are returned with the
/// fault.
pub fn read_frame_data(alloc: Global, stream: &[u8]) -> Result<Reading<FrameData>, AllocError>
    ensures answer { IfOk result (λ read. read ≡ frame_data_list stream.now) }
{
    read_items(alloc, &FrameDataEntries, aligned(stream))
}

// The entries of a stream, without the bytes before them.
fn aligned(stream: &[u8]) -> &[u8]
    ensures { result.now ≡ aligned stream.now }
{
    if stream.len() % ENTRY == 0 {
        return stream;
    }
    bytes_from(stream, FRONT)
}

/// Reads entries in turn.
struct FrameDataEntries;

impl<'a> ItemReader<'a> for FrameDataEntries {
    type Item = FrameData;

    ghost use Rattle.pdb_frame_data.specs.FrameData.{frame_data};
    ghost use Rattle.pdb_msf.specs.ItemLists.{first_entry};

    ghost first = { λ _. first_entry frame_data 32 };

    fn take(&self, rest: &mut Bytes<'a>) -> Result<FrameData, Fault> {
        Ok(frame_data(rest.take(ENTRY)?))
    }
}

// Decodes an entry.
fn frame_data(entry: &[u8]) -> FrameData
    requires { length entry.now ≡ 32 }
    ensures { result ≡ frame_data entry.now }
{
    FrameData {
        rva: u32_at(entry, 0),
        size: u32_at(entry, 4),
        local_size: u32_at(entry, 8),
        parameter_size: u32_at(entry, 12),
        max_stack_size: u32_at(entry, 16),
        program: u32_at(entry, 20),
        prologue_size: u16_at(entry, 24),
        saved_register_size: u16_at(entry, 26),
    }
}
