//! The module files that a records file names: their names for C, and their contents as C passes them.
ghost use Rattle.std.specs.Prelude.{◌≡◌, map, string_bytes, IfOk};
ghost use Rattle.pdb_json.specs.ModuleFiles.{contents};
ghost use Rattle.pdb_c.specs.ModuleContents.{cut_after, module_files_text, names_text};
ghost use Rattle.pdb_c.specs.ReportTexts.{Agrees};

use crate::call_error::CallError;
use pdb_json::module_files;
use std::alloc::{AllocError, Global};

// Splits the concatenated contents of files by their lengths.
pub(crate) fn cut_after(
    alloc: Global,
    bytes: &[u8],
    lengths: &[usize],
) -> Result<Vec<Vec<u8>>, AllocError>
    ensures { IfOk result (λ files. contents files.items ≡ cut_after lengths.now bytes.now) }
{
    let mut files = Vec::new(alloc);
    let mut rest = bytes;
    for &length in lengths {
        let (file, behind) = rest.split_at(length.min(rest.len()));
        files.push(Vec::from_slice(alloc, file)?)?;
        rest = behind;
    }
    Ok(files)
}

// The names as one text, each followed by a 0.
fn names_text(alloc: Global, names: &[String]) -> Result<Vec<u8>, AllocError>
    ensures { IfOk result (λ text. text.items ≡ names_text (map string_bytes names.now)) }
{
    let mut text = Vec::new(alloc);
    for name in names {
        text.extend_from_slice(name.as_bytes())?;
        text.push(0)?;
    }
    Ok(text)
}

// The names of the module files that a records file names, as one text.
pub(crate) fn module_files_text(alloc: Global, bytes: &[u8]) -> Result<Vec<u8>, CallError>
    ensures { Agrees (λ text. text.items) result (module_files_text bytes.now) }
{
    let names = module_files(alloc, bytes)?;
    Ok(names_text(alloc, &names)?)
}
