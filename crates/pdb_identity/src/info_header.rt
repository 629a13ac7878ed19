//! Reads the header of a PDB file's info stream: version, time stamp, age and GUID.

ghost use Rattle.std.specs.Prelude.{◌≡◌, ◌≤◌, ◌+◌, drop, take, length};
ghost use Rattle.byteorder.specs.Endian.{little_number};
ghost use Rattle.pdb_identity.specs.InfoHeader.{info_header};

use byteorder::{ByteOrder, LittleEndian};
use uuid::Uuid;

/// The size of the header in bytes.
const FRONT: usize = 28;

/// The offset of the GUID.
const GUID: usize = 12;

/// The header of an info stream.
#[derive(Debug, Clone, Copy, PartialEq, Eq)]
pub struct InfoHeader {
    pub version: u32,
    /// When the file was made, in seconds since 1970. If the linker was told to make reproducible files, this is a
    /// hash.
    pub time_stamp: u32,
    /// How often the file was written. Programs don't have this age but the one in the debug information.
    pub age: u32,
    pub guid: Uuid,
}

impl InfoHeader {
    /// Reads the header of an info stream; `None` if there are too few bytes.
    pub fn read(stream: &[u8]) -> Option<InfoHeader>
        ensures answer { result ≡ info_header stream.now }
    {
        if stream.len() < FRONT {
            return None;
        }
        let Ok(guid) = Uuid::from_slice_le(&stream[GUID..FRONT]) else {
            return None;
        };
        Some(InfoHeader {
            version: LittleEndian::read_u32(stream),
            time_stamp: LittleEndian::read_u32(&stream[4..]),
            age: LittleEndian::read_u32(&stream[8..]),
            guid,
        })
    }
}
