//! Reads FPO data: how x86 functions keep their frames, in the form before frame data.

ghost use Rattle.std.specs.Prelude.{◌≡◌, length, IfOk};
ghost use Rattle.pdb_frame_data.specs.FpoData.{fpo_data, fpo_data_list, frame_type};

use pdb_msf::faults::Fault;
use pdb_msf::{Bytes, ItemReader, read_items, u16_at, u32_at};
use pdb_records::Reading;
use std::alloc::{AllocError, Global};

/// The size of an entry in bytes.
const ENTRY: usize = 16;

/// How a function keeps its frame (FPO_DATA).
#[derive(Debug, Clone, Copy, PartialEq, Eq)]
pub struct FpoData {
    /// The address of the function's first byte, relative to the image base.
    pub rva: u32,
    /// The size of the function in bytes.
    pub size: u32,
    /// The size of its local variables, in units of four bytes.
    pub locals: u32,
    /// The size of its parameters, in units of four bytes.
    pub parameters: u16,
    /// The size of its prologue in bytes.
    pub prologue_size: u8,
    /// The number of registers that it saves.
    pub saved_registers: u8,
    /// Whether it uses the base pointer as a general register.
    pub allocates_base_pointer: bool,
    pub frame: FrameType,
}

/// The kind of a function's frame.
#[derive(Debug, Clone, Copy, PartialEq, Eq)]
pub enum FrameType {
    /// A frame without a frame pointer (FRAME_FPO).
    Fpo,
    /// The frame of a trap (FRAME_TRAP).
    Trap,
    /// The frame of a task (FRAME_TSS).
    Tss,
    /// A frame with a frame pointer (FRAME_NONFPO).
    NonFpo,
}

/// Reads the entries of a stream of FPO data. If the last entry is cut off, those before it are returned with the
/// fault.
pub fn read_fpo_data(alloc: Global, stream: &[u8]) -> Result<Reading<FpoData>, AllocError>
    ensures answer { IfOk result (λ read. read ≡ fpo_data_list stream.now) }
{
    read_items(alloc, &FpoEntries, stream)
}

/// Reads entries in turn.
struct FpoEntries;

impl<'a> ItemReader<'a> for FpoEntries {
    type Item = FpoData;

    ghost use Rattle.pdb_frame_data.specs.FpoData.{fpo_data};
    ghost use Rattle.pdb_msf.specs.ItemLists.{first_entry};

    ghost first = { λ _. first_entry fpo_data 16 };

    fn take(&self, rest: &mut Bytes<'a>) -> Result<FpoData, Fault> {
        Ok(fpo_data(rest.take(ENTRY)?))
    }
}

// Decodes an entry.
fn fpo_data(entry: &[u8]) -> FpoData
    requires { length entry.now ≡ 16 }
    ensures { result ≡ fpo_data entry.now }
{
    let bits = u16_at(entry, 14);
    FpoData {
        rva: u32_at(entry, 0),
        size: u32_at(entry, 4),
        locals: u32_at(entry, 8),
        parameters: u16_at(entry, 12),
        prologue_size: (bits % 256) as u8,
        saved_registers: (bits / 256 % 8) as u8,
        allocates_base_pointer: bits / 4096 % 2 == 1,
        frame: frame_type(bits / 16384),
    }
}

// The kind of frame with this number.
fn frame_type(number: u16) -> FrameType
    ensures { result ≡ frame_type number }
{
    match number {
        0 => FrameType::Fpo,
        1 => FrameType::Trap,
        2 => FrameType::Tss,
        _ => FrameType::NonFpo,
    }
}
