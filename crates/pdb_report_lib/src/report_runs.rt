//! `run`: parses a command line, reads the files and writes the report.

ghost use Rattle.std.specs.Prelude.{IfErr, map, string_bytes};
ghost use Rattle.serde_json.specs.Data.{Data};
ghost use Rattle.pdb_records_files.specs.ModuleFiles.{AreModuleFileFaults};
ghost use Rattle.pdb_report_lib.specs.ReportArguments.{asked};
ghost use Rattle.pdb_report_lib.specs.ReportRuns.{EndsRun, IsReadStop, AreModuleReadStops};

use crate::command_error::CommandError;
use crate::file_reports::report_file;
use crate::report_arguments::parse;
use crate::sinks::{Out, Sink};
use pdb_addr2line::Error;
use pdb_json::RecordsFile;
use pdb_records_files::{ModuleFileError, ran_out_of_memory, read_module_files};
use std::rt::Files;
use std::{fs, io};

/// Does what the words of a command line ask for: reads the records file and then the module files that it names,
/// writes the report, and flushes the writer.
///
/// # Errors
///
/// Each [`CommandError`]. Out of memory is [`CommandError::Refused`], except while a records file is read: then it is
/// [`CommandError::Records`].
pub fn run<'w, R: Files + AllocGlobal, W: io::Write>(
    rt: &R,
    words: &'w [String],
    out: &mut Out<W>,
) -> Result<(), CommandError<'w>>
    ensures { EndsRun (asked (map string_bytes words.now))
        (⟦<Out<W> as Sink>⟧.state out.old) (⟦<Out<W> as Sink>⟧.state out.new) result }
{
    let Ok(request) = parse(rt.alloc(), words) else {
        return Err(CommandError::Refused(Error::OutOfMemory));
    };
    let Some(request) = request else {
        return Err(CommandError::Usage);
    };
    let bytes = read_file(rt, request.path)?;
    let file = match RecordsFile::from_slice(rt.alloc(), &bytes) {
        Ok(file) => file,
        Err(fault) => return Err(CommandError::Records(request.path, fault)),
    };
    drop(bytes);
    let files = match read_module_files(rt, request.path, &file) {
        Ok(files) => files,
        Err(fault) => return Err(module_stop(request.path, fault)),
    };
    let ended = report_file(rt.alloc(), &request, file, &files, out);
    match out.flush() {
        Ok(()) => ended,
        Err(_) => Err(CommandError::CannotWrite),
    }
}

// The bytes of the file at a path.
fn read_file<'w, R: Files + AllocGlobal>(rt: &R, path: &'w str) -> Result<Vec<u8>, CommandError<'w>>
    ensures { IfErr result (IsReadStop path.now) }
{
    match fs::read(rt, path) {
        Ok(bytes) => Ok(bytes),
        Err(error) if ran_out_of_memory(&error) => Err(CommandError::Refused(Error::OutOfMemory)),
        Err(_) => Err(CommandError::CannotRead(path)),
    }
}

// The error of a run whose module files can't be read.
fn module_stop(path: &str, fault: ModuleFileError) -> CommandError<'_>
    ensures { (value : Data) → AreModuleFileFaults path.now value fault → AreModuleReadStops path.now value result }
{
    match fault {
        ModuleFileError::OutOfMemory => CommandError::Refused(Error::OutOfMemory),
        ModuleFileError::CannotRead(path) => CommandError::CannotReadModule(path),
        ModuleFileError::Records(fault) => CommandError::Records(path, fault),
    }
}
