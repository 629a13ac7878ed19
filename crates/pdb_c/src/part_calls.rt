//! The calls for C over a PDB file of which only what is asked for is read.
ghost use Rattle.std.specs.Prelude.{◌≡◌};
ghost use Rattle.pdb_c.specs.Machines.{EndsWithNumber};
ghost use Rattle.pdb_c.specs.Parts.{EndsWithPart, flag_of_handle};

use crate::buffers::answer;
use crate::found_frames::Question;
use crate::handle::Handle;
use crate::part_openings::open_part;
use std::alloc::Global;

/// Reads into a handle what answers at some addresses need of a PDB file, and returns how many modules the flags are
/// for; `modules` is that number too. Writes a flag for each module to `flags`: 1 if the module was read, and else 0.
/// If there are more modules than room for flags, none is written, and the answer is the number of that refusal; the
/// handle then holds the part all the same. After any other refusal it holds what it held.
#[unsafe(no_mangle)]
pub extern "C" fn limberlime_open_part_unchecked(
    alloc: Global,
    file: &[u8],
    addresses: &[u32],
    flags: &mut [u8],
    modules: &mut usize,
    handle: &mut Handle,
) -> i64
    ensures { EndsWithPart file.now addresses.now handle.old.held handle.new.held
        flags.old flags.new modules.new result }
{
    let opened = open_part(alloc, file, addresses, handle);
    answer(opened, flags, modules)
}

/// Answers 1 if the module whose code lies at an address was read, by a flag for each module, or if there is no such
/// module, and else 0; or the refusal's number. Only if it answers 1, the frames and the function that the handle
/// answers there are those of the file.
#[unsafe(no_mangle)]
pub extern "C" fn limberlime_is_read_unchecked(
    alloc: Global,
    handle: &mut Handle,
    address: u32,
    flags: &[u8],
) -> i64
    ensures answer { EndsWithNumber (flag_of_handle handle.old.held flags.now address) result }
    ensures state { handle.new.held ≡ handle.old.held }
{
    match handle.answer(alloc, Question::IsRead(flags, address)) {
        Ok(found) => i64::from(found.start),
        Err(refusal) => refusal.code(),
    }
}
