//! Reads the header of a stream of types or ids.

ghost use Rattle.std.specs.Prelude.{◌≡◌};
ghost use Rattle.pdb_tpi.specs.TypeStreamHeader.{header_of};

use pdb_msf::faults::{CUT, POINTS_NOWHERE, UNKNOWN_VERSION};
use pdb_msf::u32_at;
use pdb_records::StreamError;

/// The size of the part of the header that is read, in bytes.
pub(crate) const HEADER: usize = 20;

/// The only known version of a stream of types or ids.
const VERSION: u32 = 20_040_203;

/// The fields of the header that say where the records are.
#[derive(Clone, Copy)]
pub(crate) struct TypeHeader {
    /// The size of the header: the offset of the first record.
    pub(crate) header_size: u32,
    /// The index of the first record.
    pub(crate) type_index_begin: u32,
    /// The size of all records together, in bytes.
    pub(crate) type_record_bytes: u32,
}

/// Decodes the header of a stream of this length. `front` has at least the first `HEADER` bytes, unless the stream is
/// shorter.
pub(crate) fn header_of(front: &[u8], length: usize) -> Result<TypeHeader, StreamError>
    ensures { result ≡ header_of front.now length }
{
    if front.len() < HEADER {
        return Err(CUT);
    }
    if u32_at(front, 0) != VERSION {
        return Err(UNKNOWN_VERSION);
    }
    let header_size = u32_at(front, 4);
    if length < header_size as usize {
        return Err(POINTS_NOWHERE);
    }
    Ok(TypeHeader {
        header_size,
        type_index_begin: u32_at(front, 8),
        type_record_bytes: u32_at(front, 16),
    })
}
