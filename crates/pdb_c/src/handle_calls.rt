//! The calls for C that open records, write reports over open records, and close them.

ghost use Rattle.std.specs.Prelude.{◌≡◌, [], None};
ghost use Rattle.pdb_report_lib.specs.declared.reports.Command.TheVariants.{Names, Frames};
ghost use Rattle.pdb_c.specs.Openings.{context_to_open, Opens};
ghost use Rattle.pdb_c.specs.Questions.{EndsWithText};

use crate::buffers::answer;
use crate::handle::Handle;
use crate::openings::text_of_handle;
use crate::records_calls::limberlime_open_records_unchecked;
use pdb_report_lib::Command;
use std::alloc::Global;

/// Reads the records of a records file into a handle, and returns 0. What the handle held before is freed first. If the
/// records can't be read, or no context can be made over them, the handle is closed, and the number of the error is
/// returned.
#[unsafe(no_mangle)]
pub extern "C" fn limberlime_open_unchecked(
    alloc: Global,
    records: &[u8],
    handle: &mut Handle,
) -> i64
    ensures { Opens (context_to_open records.now []) handle.new.held result }
{
    limberlime_open_records_unchecked(alloc, records, &[], &[], handle)
}

/// Writes the frames at addresses to the caller's buffer, as lines like those that `pdb_report RECORDS frames
/// ADDRESS...` prints, by the records that a handle holds. Returns the text's length in bytes, and sets `wanted` to it.
/// If there is no such text, or it is longer than the buffer, nothing is written, and the number of the error is
/// returned. The handle keeps its records, and its context remembers which parts it found broken.
#[unsafe(no_mangle)]
pub extern "C" fn limberlime_frames_of_unchecked(
    alloc: Global,
    handle: &mut Handle,
    addresses: &[u32],
    buffer: &mut [u8],
    wanted: &mut usize,
) -> i64
    ensures { EndsWithText handle.old.held handle.new.held Frames addresses.now
        buffer.old buffer.new wanted.new result }
{
    let found = text_of_handle(alloc, Command::Frames, handle, addresses);
    answer(found, buffer, wanted)
}

/// Writes a line with the function of each address to the caller's buffer, like those that `pdb_report RECORDS names
/// ADDRESS...` prints. Everything else is as in [`limberlime_frames_of_unchecked`].
#[unsafe(no_mangle)]
pub extern "C" fn limberlime_names_of_unchecked(
    alloc: Global,
    handle: &mut Handle,
    addresses: &[u32],
    buffer: &mut [u8],
    wanted: &mut usize,
) -> i64
    ensures { EndsWithText handle.old.held handle.new.held Names addresses.now
        buffer.old buffer.new wanted.new result }
{
    let found = text_of_handle(alloc, Command::Names, handle, addresses);
    answer(found, buffer, wanted)
}

/// Frees the records that a handle holds. A closed handle stays closed.
#[unsafe(no_mangle)]
pub extern "C" fn limberlime_close_unchecked(alloc: Global, handle: &mut Handle)
    ensures { handle.new.held ≡ None }
{
    handle.close(alloc);
}
