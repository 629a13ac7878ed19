//! Reads the identity of a program or a DLL: its code id, its machine, its image base, and the PDB file that it names.

ghost use Rattle.std.specs.Prelude.{◌≡◌, option_map, IfOk};
ghost use Rattle.pe_image.specs.Image.{program_of};
ghost use Rattle.pdb_identity.specs.CodeView.{code_view_seen};
ghost use Rattle.pdb_identity.specs.Programs.{code_view_by, code_view_in, identity_by, identity_seen};
ghost use Rattle.pdb_identity.specs.Programs.{program_identity};

use crate::code_id::CodeId;
use crate::code_view::{CodeView, read_code_view};
use crate::machine::Machine;
use pe_image::{DebugEntry, IMAGE_DEBUG_TYPE_CODEVIEW, Image, debug_entries, read_image};
use std::alloc::{AllocError, Global};

/// The identity of a program.
#[derive(Debug, Clone, Copy)]
pub struct ProgramFile<'a> {
    pub machine: Machine,
    pub code_id: CodeId,
    /// The address at which the program should be loaded (ImageBase).
    pub image_base: u64,
    /// The PDB file that the program names, if it names one.
    pub code_view: Option<CodeView<'a>>,
}

/// Reads the identity of a program or a DLL; `None` if the file isn't one.
pub fn read_program(alloc: Global, file: &[u8]) -> Result<Option<ProgramFile<'_>>, AllocError>
    ensures answer { IfOk result (λ found.
        option_map identity_seen found ≡ option_map program_identity (program_of file.now)) }
{
    let Some(image) = read_image(alloc, file)? else {
        return Ok(None);
    };
    let entries = debug_entries(alloc, &image)?;
    Ok(Some(program_file(&image, &entries)))
}

// The identity of a program, by the entries of its debug directory.
fn program_file<'a>(image: &Image<'a>, entries: &[DebugEntry]) -> ProgramFile<'a>
    ensures { identity_seen result ≡ identity_by entries.now image.now }
{
    ProgramFile {
        machine: Machine(image.machine),
        code_id: CodeId {
            time_stamp: image.time_stamp,
            image_size: image.image_size,
        },
        image_base: image.image_base,
        code_view: code_view_in(image, entries),
    }
}

// The first CodeView record to which these entries refer.
fn code_view_in<'a>(image: &Image<'a>, entries: &[DebugEntry]) -> Option<CodeView<'a>>
    ensures { option_map code_view_seen result ≡ code_view_in image.now entries.now }
{
    for &entry in entries {
        if let Some(code_view) = code_view_by(image, entry) {
            return Some(code_view);
        }
    }
    None
}

// The CodeView record to which an entry refers.
fn code_view_by<'a>(image: &Image<'a>, entry: DebugEntry) -> Option<CodeView<'a>>
    ensures { option_map code_view_seen result ≡ code_view_by image.now entry }
{
    if entry.kind != IMAGE_DEBUG_TYPE_CODEVIEW {
        return None;
    }
    read_code_view(image.debug_data(entry)?)
}
