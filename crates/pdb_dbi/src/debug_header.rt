//! Reads the header of the debug information stream (DBI): its machine, its streams, and where its substreams are.

ghost use Rattle.std.specs.Prelude.{◌≡◌, ◌≤◌, ◌<◌, ◌^◌, length};
ghost use Rattle.pdb_dbi.specs.DebugHeader.{contributions_place, header, header_fields, machine_type, optional_place};

use crate::substreams::{Substream, substream_at};
use pdb_msf::faults::{CUT, UNKNOWN_VERSION};
use pdb_msf::{number_at, u16_at};
use pdb_records::{MachineType, StreamError};

/// The size of the header in bytes.
const HEADER: usize = 64;

/// The first four bytes of the header.
const SIGNATURE: u32 = 0xffff_ffff;

/// The offsets of the substreams' sizes in the header.
const MODULES: usize = 24;

const SECTION_CONTRIBUTIONS: usize = 28;

const SECTION_MAP: usize = 32;

const SOURCES: usize = 36;

const TYPE_SERVERS: usize = 40;

const OPTIONAL_STREAMS: usize = 48;

const EDIT_AND_CONTINUE: usize = 52;

/// The fields of the header, and the substreams that are read.
#[derive(Drop)]
pub struct DebugHeader<'a> {
    /// How often the debug information was written.
    pub age: u32,
    /// The number of the machine, as in program headers.
    pub machine: u16,
    /// The number of the stream of global symbols.
    pub global_symbols: u16,
    pub machine_type: MachineType,
    pub modules: Substream<'a>,
    pub section_contributions: Substream<'a>,
    /// The optional debug header: numbers of streams that not every file has.
    pub optional_streams: Substream<'a>,
}

/// Reads the header, and the substreams after it.
#[tactic(auto, unfolding(crate::specs::DebugHeader::header))]
pub fn read_header(stream: &[u8]) -> Result<DebugHeader<'_>, StreamError>
    ensures { result ≡ header stream.now }
{
    if stream.len() < HEADER {
        return Err(CUT);
    }
    if number_at(stream, 0) != SIGNATURE {
        return Err(UNKNOWN_VERSION);
    }
    Ok(header_fields(stream))
}

// Decodes a complete header.
fn header_fields(stream: &[u8]) -> DebugHeader<'_>
    requires { 64 ≤ length stream.now }
    ensures { result ≡ header_fields stream.now }
{
    let machine = u16_at(stream, 58);
    DebugHeader {
        age: number_at(stream, 8),
        machine,
        global_symbols: u16_at(stream, 20),
        machine_type: machine_type(machine),
        modules: substream_at(stream, HEADER, number_at(stream, MODULES)),
        section_contributions: substream_at(
            stream,
            contributions_place(stream),
            number_at(stream, SECTION_CONTRIBUTIONS),
        ),
        optional_streams: substream_at(
            stream,
            optional_place(stream),
            number_at(stream, OPTIONAL_STREAMS),
        ),
    }
}

// The offset of the section contributions: after the modules.
fn contributions_place(stream: &[u8]) -> usize
    requires { 64 ≤ length stream.now }
    ensures answer { result ≡ contributions_place stream.now }
    ensures bound { result < 2 ^ 33 }
{
    HEADER + number_at(stream, MODULES) as usize
}

// The offset of the optional debug header: after all other substreams.
fn optional_place(stream: &[u8]) -> usize
    requires { 64 ≤ length stream.now }
    ensures { result ≡ optional_place stream.now }
{
    let mut place = contributions_place(stream);
    place += number_at(stream, SECTION_CONTRIBUTIONS) as usize;
    place += number_at(stream, SECTION_MAP) as usize;
    place += number_at(stream, SOURCES) as usize;
    place += number_at(stream, TYPE_SERVERS) as usize;
    place + number_at(stream, EDIT_AND_CONTINUE) as usize
}

fn machine_type(number: u16) -> MachineType
    ensures { result ≡ machine_type number }
{
    match number {
        0x8664 => MachineType::Amd64,
        // 0xa641 (ARM64EC): ARM64 code that runs beside x64 code
        0xaa64 | 0xa641 => MachineType::Arm64,
        0x0200 => MachineType::Ia64,
        0x5064 => MachineType::RiscV64,
        0x5128 => MachineType::RiscV128,
        _ => MachineType::Other,
    }
}
