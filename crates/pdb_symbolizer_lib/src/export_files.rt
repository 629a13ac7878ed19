//! Writes the records file and the module files of `--export`.

use pdb_addr2line::Error;
use pdb_addr2line::pdb::{ModuleInfo, PDB};
use pdb_export::{ExportError, write_module, write_records};
use pdb_records_files::{module_path, ran_out_of_memory};
use pdb_symbolizer_input::options::Export;
use pdb_symbolizer_input::run_errors::RunError;
use pdb_symbolizer_input::status_line::{StatusLine, Watched};
use std::alloc::Global;
use std::rt::Files;
use std::time::Clock;
use std::{fs, io};

/// Writes the records to the files that the options name, the module files first.
pub fn write_files<R: Files + Eprint + Clock + AllocGlobal>(
    rt: &R,
    status_line: &mut StatusLine,
    export: Export<'_>,
    records: &PDB,
) -> Result<(), RunError> {
    let names = match export.modules {
        Some(folder) => write_modules(rt, status_line, export.records, folder, records)?,
        None => Vec::new(rt.alloc()),
    };
    let outcome = write_records_file(rt, status_line, export.records, records, &names);
    written_to(rt.alloc(), export.records, outcome)
}

fn write_records_file<R: Files + Eprint + Clock + AllocGlobal>(
    rt: &R,
    status_line: &mut StatusLine,
    path: &str,
    records: &PDB,
    names: &[String],
) -> Result<(), ExportError> {
    let mut file = create(rt, status_line, path)?;
    write_records(rt.alloc(), &mut file, records, names)
}

/// Writes a file for each module that has records. Returns the names of the files of all modules, relative to the
/// records file.
fn write_modules<R: Files + Eprint + Clock + AllocGlobal>(
    rt: &R,
    status_line: &mut StatusLine,
    path: &str,
    folder: &str,
    records: &PDB,
) -> Result<Vec<String>, RunError> {
    make_folder(rt, path, folder)?;
    let mut names = Vec::new(rt.alloc());
    for (position, info) in records.module_infos.iter().enumerate() {
        let name = format!(in rt.alloc(); "{folder}/{position}.json")?;
        if let Ok(Some(info)) = info {
            write_beside(rt, status_line, path, name.as_str(), info)?;
        }
        names.push(name)?;
    }
    Ok(names)
}

fn make_folder<R: Files + AllocGlobal>(rt: &R, path: &str, folder: &str) -> Result<(), RunError> {
    let folder = module_path(rt.alloc(), path, folder)?;
    let outcome = match fs::create_dir_all(rt, folder.as_str()) {
        Ok(()) => Ok(()),
        Err(error) => Err(fault_of(&error)),
    };
    written_to(rt.alloc(), folder.as_str(), outcome)
}

fn write_beside<R: Files + Eprint + Clock + AllocGlobal>(
    rt: &R,
    status_line: &mut StatusLine,
    path: &str,
    name: &str,
    info: &ModuleInfo,
) -> Result<(), RunError> {
    let path = module_path(rt.alloc(), path, name)?;
    let outcome = write_module_file(rt, status_line, path.as_str(), info);
    written_to(rt.alloc(), path.as_str(), outcome)
}

fn write_module_file<R: Files + Eprint + Clock + AllocGlobal>(
    rt: &R,
    status_line: &mut StatusLine,
    path: &str,
    info: &ModuleInfo,
) -> Result<(), ExportError> {
    let mut file = create(rt, status_line, path)?;
    write_module(rt.alloc(), &mut file, info)
}

/// Creates the file at this path, or empties an existing one.
fn create<'p, R: Files>(
    rt: &'p R,
    status_line: &'p mut StatusLine,
    path: &str,
) -> Result<Watched<'p, R, R::File>, ExportError> {
    match fs::create(rt, path) {
        Ok(writer) => Ok(Watched {
            rt,
            status_line,
            writer,
        }),
        Err(error) => Err(fault_of(&error)),
    }
}

fn fault_of(error: &io::Error) -> ExportError {
    if ran_out_of_memory(error) {
        ExportError::OutOfMemory
    } else {
        ExportError::CannotWrite
    }
}

/// Turns an error of writing to this path into the run's error.
fn written_to(alloc: Global, path: &str, outcome: Result<(), ExportError>) -> Result<(), RunError> {
    match outcome {
        Ok(()) => Ok(()),
        Err(ExportError::OutOfMemory) => Err(RunError::Refused(Error::OutOfMemory)),
        Err(fault) => Err(RunError::Export(String::from_str(alloc, path)?, fault)),
    }
}
