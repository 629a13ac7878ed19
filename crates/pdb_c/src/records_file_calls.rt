//! The calls for C over the bytes of a records file.

ghost use Rattle.pdb_report_lib.specs.declared.reports.Command.TheVariants.{Names, Frames};
ghost use Rattle.pdb_c.specs.Buffers.{Ends};
ghost use Rattle.pdb_c.specs.ReportTexts.{asked_text};

use crate::buffers::answer;
use crate::report_texts::asked_text;
use pdb_report_lib::Command;
use std::alloc::Global;

/// Writes the frames at addresses to the caller's buffer, as lines like those that `pdb_report RECORDS frames
/// ADDRESS...` prints. Returns the text's length in bytes, and sets `wanted` to it. If there is no such text, or it is
/// longer than the buffer, nothing is written, and the number of the error is returned.
#[unsafe(no_mangle)]
pub extern "C" fn limberlime_frames_unchecked(
    alloc: Global,
    records: &[u8],
    addresses: &[u32],
    buffer: &mut [u8],
    wanted: &mut usize,
) -> i64
    ensures { Ends (asked_text Frames records.now addresses.now) buffer.old buffer.new wanted.new result }
{
    let found = asked_text(alloc, Command::Frames, records, addresses);
    answer(found, buffer, wanted)
}

/// Writes a line with the function of each address to the caller's buffer, like those that `pdb_report RECORDS names
/// ADDRESS...` prints. Everything else is as in [`limberlime_frames_unchecked`].
#[unsafe(no_mangle)]
pub extern "C" fn limberlime_names_unchecked(
    alloc: Global,
    records: &[u8],
    addresses: &[u32],
    buffer: &mut [u8],
    wanted: &mut usize,
) -> i64
    ensures { Ends (asked_text Names records.now addresses.now) buffer.old buffer.new wanted.new result }
{
    let found = asked_text(alloc, Command::Names, records, addresses);
    answer(found, buffer, wanted)
}
