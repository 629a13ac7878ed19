//! Reads the module files that a records file names, or says why they can't be read.

ghost use Rattle.std.specs.Prelude.{◌≡◌, IfErr};
ghost use Rattle.std.specs.IoError.{error_kind};
ghost use Rattle.serde_json.specs.View.{view};
ghost use Rattle.pdb_records_files.specs.ModuleFiles.{is_out_of_memory, IsModuleFileFault, AreModuleFileFaults};
ghost use Rattle.pdb_records_files.specs.ModulePaths.{module_path};

use crate::module_paths::module_path;
use pdb_json::{RecordFault, RecordsFile};
use std::rt::Files;
use std::{fs, io};

/// Why the module files of a records file can't be read.
#[derive(Debug, Drop)]
pub enum ModuleFileError {
    /// Memory ran out.
    OutOfMemory,
    /// The module file at this path can't be read.
    CannotRead(String),
    /// The names of the module files can't be read from the records file.
    Records(RecordFault),
}

/// Reads the module files that a records file names, in order. Each must be a regular file. A folder, a device or a
/// pipe is refused: the content of a file must not make the reader wait, or read without an end.
pub fn read_module_files<R: Files + AllocGlobal>(
    rt: &R,
    records_path: &str,
    file: &RecordsFile,
) -> Result<Vec<Vec<u8>>, ModuleFileError>
    ensures { IfErr result (AreModuleFileFaults records_path.now (view file.now.value)) }
{
    let names = match file.module_files() {
        Ok(names) => names,
        Err(fault) => return Err(ModuleFileError::Records(fault)),
    };
    let mut files = Vec::new(rt.alloc());
    for name in &names {
        let bytes = read_module_file(rt, records_path, name.as_str())?;
        if files.push(bytes).is_err() {
            return Err(ModuleFileError::OutOfMemory);
        }
    }
    Ok(files)
}

// Reads the module file with this name.
fn read_module_file<R: Files + AllocGlobal>(
    rt: &R,
    records_path: &str,
    name: &str,
) -> Result<Vec<u8>, ModuleFileError>
    ensures { IfErr result (IsModuleFileFault (module_path records_path.now name.now)) }
{
    let Ok(path) = module_path(rt.alloc(), records_path, name) else {
        return Err(ModuleFileError::OutOfMemory);
    };
    match read_regular_file(rt, path.as_str()) {
        Ok(bytes) => Ok(bytes),
        Err(error) if ran_out_of_memory(&error) => Err(ModuleFileError::OutOfMemory),
        Err(_) => Err(ModuleFileError::CannotRead(path)),
    }
}

// Reads a file, if it is a regular one.
fn read_regular_file<R: Files + AllocGlobal>(rt: &R, path: &str) -> io::Result<Vec<u8>> {
    if fs::metadata(rt, path)?.is_file() {
        fs::read(rt, path)
    } else {
        Err(io::Error::from(io::ErrorKind::InvalidInput))
    }
}

/// Whether the operating system ran out of memory.
pub fn ran_out_of_memory(error: &io::Error) -> bool
    ensures { result ≡ is_out_of_memory (error_kind error.now) }
{
    matches!(error.kind(), io::ErrorKind::OutOfMemory)
}
