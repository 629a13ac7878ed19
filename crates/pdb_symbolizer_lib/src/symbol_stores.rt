//! Writes symbol files into a symbol store, a folder where they are named by PDB file and debug id.

use crate::frame_data_records::FrameRecords;
use pdb_breakpad::{FrameSource, ModuleIdentity, SymbolFileError, write_symbol_file};
use pdb_symbolizer_input::paths::file_name;
use pdb_symbolizer_input::run_errors::RunError;
use std::alloc::{AllocError, Global};
use std::fs;
use std::io::{BufWriter, Write};
use std::rt::Files;

/// The path of a module's symbol file in a store, `STORE/app.pdb/DEBUGID/app.sym`. Missing folders are created.
pub fn make_place<R: Files + AllocGlobal>(
    rt: &R,
    store: &str,
    module: &ModuleIdentity<'_>,
) -> Result<String, RunError> {
    let folder = store_folder(rt.alloc(), store, module)?;
    let path = format!(in rt.alloc(); "{folder}/{}.sym", stem(module.pdb_name))?;
    if file_name(module.pdb_name).is_none() || fs::create_dir_all(rt, folder.as_str()).is_err() {
        return Err(RunError::SymbolFile(path, SymbolFileError::CannotWrite));
    }
    Ok(path)
}

/// Writes a symbol file that appears at this path only when it is complete. Until then its name ends in `.part`, and if
/// writing fails that file is removed.
pub fn write_whole<'a, R: Files + AllocGlobal, S: FrameSource<'a>>(
    rt: &R,
    path: &str,
    module: &ModuleIdentity<'_>,
    source: &mut S,
    frames: &FrameRecords,
) -> Result<(), SymbolFileError> {
    let part = format!(in rt.alloc(); "{path}.part")?;
    let outcome = write_and_rename(rt, part.as_str(), path, module, source, frames);
    if outcome.is_err() {
        let _ = fs::remove_file(rt, part.as_str());
    }
    outcome
}

fn write_and_rename<'a, R: Files + AllocGlobal, S: FrameSource<'a>>(
    rt: &R,
    part: &str,
    path: &str,
    module: &ModuleIdentity<'_>,
    source: &mut S,
    frames: &FrameRecords,
) -> Result<(), SymbolFileError> {
    let mut out = BufWriter::new(rt.alloc(), fs::create(rt, part)?)?;
    write_records(rt.alloc(), &mut out, module, source, frames)?;
    drop(out);
    fs::rename(rt, part, path)?;
    Ok(())
}

/// Writes the records of all functions, and then the unwind records.
pub fn write_records<'a, S: FrameSource<'a>, W: Write>(
    alloc: Global,
    out: &mut W,
    module: &ModuleIdentity<'_>,
    source: &mut S,
    frames: &FrameRecords,
) -> Result<(), SymbolFileError> {
    write_symbol_file(alloc, out, module, &frames.parameters, source)?;
    out.write_all(frames.text.as_bytes())?;
    out.flush()?;
    Ok(())
}

fn store_folder(
    alloc: Global,
    store: &str,
    module: &ModuleIdentity<'_>,
) -> Result<String, AllocError> {
    format!(in alloc; "{store}/{}/{}", module.pdb_name, module.debug_id.compact())
}

// The name without its ending `.pdb`, in any case.
fn stem(name: &str) -> &str {
    match name.rsplit_once('.') {
        Some((stem, ending)) if ending.eq_ignore_ascii_case("pdb") => stem,
        _ => name,
    }
}
