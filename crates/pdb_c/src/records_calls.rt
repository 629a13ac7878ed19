//! The calls for C over a records file that has module files.
ghost use Rattle.pdb_c.specs.Buffers.{Ends};
ghost use Rattle.pdb_c.specs.ModuleContents.{cut_after, module_files_text};
ghost use Rattle.pdb_c.specs.Openings.{context_to_open, LeavesOpened, Opens};

use crate::buffers::answer;
use crate::call_error::CallError;
use crate::handle::Handle;
use crate::module_contents::{cut_after, module_files_text};
use crate::openings::open_records;
use std::alloc::Global;

/// Writes the names of the module files that a records file names to the caller's buffer, each followed by a 0.
/// [`limberlime_open_records_unchecked`] takes their contents in the same order. Returns the text's length in bytes,
/// and sets `wanted` to it. If there is no such text, or it is longer than the buffer, nothing is written, and the
/// number of the error is returned.
#[unsafe(no_mangle)]
pub extern "C" fn limberlime_module_files_unchecked(
    alloc: Global,
    records: &[u8],
    buffer: &mut [u8],
    wanted: &mut usize,
) -> i64
    ensures { Ends (module_files_text records.now) buffer.old buffer.new wanted.new result }
{
    let found = module_files_text(alloc, records);
    answer(found, buffer, wanted)
}

// Opens the records of a records file and its module files in a closed handle. `contents` is the concatenation of the
// module files.
fn open_pieces(
    alloc: Global,
    records: &[u8],
    contents: &[u8],
    lengths: &[usize],
    handle: &mut Handle,
) -> Result<(), CallError>
    ensures { LeavesOpened result (context_to_open records.now (cut_after lengths.now contents.now))
        handle.old.held handle.new.held }
{
    let files = cut_after(alloc, contents, lengths)?;
    open_records(alloc, records, &files, handle)
}

/// Reads the records of a records file and its module files into a handle, and returns 0. `contents` is the
/// concatenation of the module files, in the order of [`limberlime_module_files_unchecked`], and `lengths` has the
/// length of each in bytes. Everything else is as in `limberlime_open_unchecked`.
#[unsafe(no_mangle)]
pub extern "C" fn limberlime_open_records_unchecked(
    alloc: Global,
    records: &[u8],
    contents: &[u8],
    lengths: &[usize],
    handle: &mut Handle,
) -> i64
    ensures { Opens (context_to_open records.now (cut_after lengths.now contents.now)) handle.new.held result }
{
    handle.close(alloc);
    match open_pieces(alloc, records, contents, lengths, handle) {
        Ok(()) => 0,
        Err(refusal) => refusal.code(),
    }
}
