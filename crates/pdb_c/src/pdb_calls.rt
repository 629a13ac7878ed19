//! The calls for C over the bytes of a PDB file.
ghost use Rattle.pdb_c.specs.Buffers.{AnswersSome};
ghost use Rattle.pdb_c.specs.Openings.{LeavesFile};

use crate::buffers::answer;
use crate::handle::Handle;
use crate::pdb_openings::{debug_id_text, open_pdb};
use std::alloc::Global;

/// Reads the records of a PDB file into a handle, and returns 0. What the handle held before is freed first. If nothing
/// can be answered over the records, the handle is closed, and the number of the error is returned.
#[unsafe(no_mangle)]
pub extern "C" fn limberlime_open_pdb_unchecked(
    alloc: Global,
    pdb: &[u8],
    handle: &mut Handle,
) -> i64
    ensures { LeavesFile pdb.now handle.new.held result }
{
    handle.close(alloc);
    match open_pdb(alloc, pdb, handle) {
        Ok(()) => 0,
        Err(refusal) => refusal.code(),
    }
}

/// Writes the debug id of a PDB file to the caller's buffer, in the form of symbol servers. Returns its length in
/// bytes, and sets `wanted` to it. If there is no debug id, or it is longer than the buffer, nothing is written, and
/// the number of the error is returned.
#[unsafe(no_mangle)]
pub extern "C" fn limberlime_debug_id_unchecked(
    alloc: Global,
    pdb: &[u8],
    buffer: &mut [u8],
    wanted: &mut usize,
) -> i64
    ensures { AnswersSome buffer.old buffer.new wanted.new result }
{
    let found = debug_id_text(alloc, pdb);
    answer(found, buffer, wanted)
}
