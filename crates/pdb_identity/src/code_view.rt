//! The CodeView record of a program (RSDS): the debug id of its PDB file, and the path where the linker wrote that.

ghost use Rattle.std.specs.Prelude.{◌≡◌, option_map};
ghost use Rattle.pdb_identity.specs.CodeView.{before_zero, code_view, code_view_id, code_view_seen};

use crate::debug_id::DebugId;
use pe_image::{bytes_at, u32_at};
use uuid::Uuid;

/// The signature of the record, the letters `RSDS`.
const RSDS: u32 = 0x5344_5352;

/// The offsets of the GUID, the age and the path in the record.
const GUID: usize = 4;

const AGE: usize = 20;

const PATH: usize = 24;

/// The PDB file that a program names.
#[derive(Debug, Clone, Copy)]
pub struct CodeView<'a> {
    pub debug_id: DebugId,
    /// The path where the linker wrote the PDB file: the bytes before the first zero.
    pub path: &'a [u8],
}

/// Reads a CodeView record; `None` if these bytes aren't one.
pub(crate) fn read_code_view(bytes: &[u8]) -> Option<CodeView<'_>>
    ensures answer { option_map code_view_seen result ≡ code_view bytes.now }
{
    let debug_id = code_view_id(bytes)?;
    let (_, rest) = bytes.split_at(PATH.min(bytes.len()));
    Some(CodeView {
        debug_id,
        path: before_zero(rest),
    })
}

// Reads the debug id of a CodeView record: the GUID, and the age after it.
fn code_view_id(bytes: &[u8]) -> Option<DebugId>
    ensures answer { result ≡ code_view_id bytes.now }
{
    if u32_at(bytes, 0)? != RSDS {
        return None;
    }
    let Ok(guid) = Uuid::from_slice_le(bytes_at(bytes, GUID, 16)?) else {
        return None;
    };
    let age = u32_at(bytes, AGE)?;
    Some(DebugId { guid, age })
}

// The bytes before the first zero; all bytes if there is none.
fn before_zero(bytes: &[u8]) -> &[u8]
    ensures { result.now ≡ before_zero bytes.now }
{
    for (position, &byte) in bytes.iter().enumerate() {
        if byte == 0 {
            return &bytes[..position];
        }
    }
    bytes
}
