//! The paths of module files, which are relative to the folder of the records file.

ghost use Rattle.std.specs.Prelude.{◌≡◌, IfOk, string_bytes};
ghost use Rattle.pdb_records_files.specs.ModulePaths.{folder_of, module_path};

use std::alloc::{AllocError, Global};

// The part of a path up to and including its last slash.
fn folder(alloc: Global, path: &str) -> Result<String, AllocError>
    ensures { IfOk result (λ folder. string_bytes folder ≡ folder_of path.now) }
{
    match path.rsplit_once('/') {
        Some((before, _)) => format!(in alloc; "{before}/"),
        None => Ok(String::new(alloc)),
    }
}

/// The path of a module file that a records file names: the name itself if it begins with a slash, otherwise a file in
/// the folder of the records file. `AllocError` if memory runs out.
pub fn module_path(alloc: Global, records_path: &str, name: &str) -> Result<String, AllocError>
    ensures { IfOk result (λ path. string_bytes path ≡ module_path records_path.now name.now) }
{
    match name.as_bytes() {
        [b'/', ..] => String::from_str(alloc, name),
        _ => {
            let folder = folder(alloc, records_path)?;
            format!(in alloc; "{folder}{name}")
        }
    }
}
