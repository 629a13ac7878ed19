//! Opens the file that the user names, and reads all records of a PDB file or of a records file with its module files.

ghost use Rattle.pdb_symbolizer_input.specs.EndReasons.{EndsRead};

use crate::file_bytes::{FileBytes, open_bytes};
use crate::file_stamps::FileStamp;
use crate::foreign_files::ForeignFile;
use crate::identities::check_identity;
use crate::known_programs::{KnownProgram, KnownPrograms};
use crate::options::Options;
use crate::programs::find_pdb;
use crate::run_errors::RunError;
use crate::status_line::StatusLine;
use pdb_addr2line::Error;
use pdb_addr2line::pdb::PDB;
use pdb_container::{ContainerError, OpenError, read_pdb};
use pdb_identity::CodeId;
use pdb_json::RecordsFile;
use pdb_records_files::{ModuleFileError, ran_out_of_memory, read_module_files};
use std::alloc::Global;
use std::fs;
use std::io::{self, Read, Seek};
use std::rt::Files;

/// A file's path, and the image base and id of the program for which it was found.
#[derive(Drop)]
pub struct NamedFile {
    pub path: String,
    /// The image base of the program, if the user named a program.
    pub image_base: Option<u64>,
    pub code_id: Option<CodeId>,
}

/// A file that the user named, or the PDB file that was found for a program.
#[derive(Drop)]
pub struct SourceFile<F> {
    pub file: NamedFile,
    pub bytes: FileBytes<F>,
}

/// Opens a PDB file or a records file, or finds and opens the PDB file of a program. If the options expect another
/// build, the file is refused before anything else of it is read.
pub fn find_file<R: Files + Eprint + AllocGlobal>(
    rt: &R,
    status_line: &StatusLine,
    options: &Options<'_>,
    path: &str,
) -> Result<SourceFile<R::File>, RunError> {
    match open_named(rt, status_line, path)? {
        Named::Program(program) => find_for_program(rt, options, path, &program),
        Named::Other(bytes) => named_source(rt, options, path, bytes),
    }
}

/// Like `find_file`, for a file that a line of the input names. A program that was read for an earlier line isn't read
/// again.
pub fn find_file_of_line<R: Files + Eprint + AllocGlobal>(
    rt: &R,
    status_line: &StatusLine,
    options: &Options<'_>,
    programs: &mut KnownPrograms,
    path: &str,
) -> Result<SourceFile<R::File>, RunError> {
    let Some(stamp) = FileStamp::at(rt, path) else {
        return find_file(rt, status_line, options, path);
    };
    let program = match programs.take(path, stamp) {
        Some(program) => program,
        None => match open_named(rt, status_line, path)? {
            Named::Program(program) => program,
            Named::Other(bytes) => return named_source(rt, options, path, bytes),
        },
    };
    let found = find_for_program(rt, options, path, &program);
    if let Ok(path) = String::from_str(rt.alloc(), path) {
        programs.keep(path, stamp, program.size(), program);
    }
    found
}

// A file that a word or a line names.
#[derive(Drop)]
enum Named<F> {
    Program(KnownProgram),
    Other(FileBytes<F>),
}

fn open_named<R: Files + Eprint + AllocGlobal>(
    rt: &R,
    status_line: &StatusLine,
    path: &str,
) -> Result<Named<R::File>, RunError> {
    let bytes = open_named_file(rt, path)?;
    status_line.print_size(rt, path, bytes.length());
    let program = match &bytes {
        FileBytes::InMemory(bytes) => KnownProgram::of_bytes(rt.alloc(), path, bytes)?,
        FileBytes::OnDisk(..) => None,
    };
    match program {
        Some(program) => Ok(Named::Program(program)),
        None => Ok(Named::Other(bytes)),
    }
}

fn named_source<R: AllocGlobal, F: Read + Seek + Drop>(
    rt: &R,
    options: &Options<'_>,
    path: &str,
    bytes: FileBytes<F>,
) -> Result<SourceFile<F>, RunError> {
    let source = SourceFile::new(String::from_str(rt.alloc(), path)?, bytes);
    check_source(rt.alloc(), options, source)
}

// Opens a file that the user names.
pub fn open_named_file<R: Files + AllocGlobal>(
    rt: &R,
    path: &str,
) -> Result<FileBytes<R::File>, RunError> {
    match open_bytes(rt, path) {
        Ok(bytes) => Ok(bytes),
        Err(error) => Err(cannot_read(rt.alloc(), path, error)),
    }
}

// Finds the PDB file of a program.
fn find_for_program<R: Files + AllocGlobal>(
    rt: &R,
    options: &Options<'_>,
    path: &str,
    program: &KnownProgram,
) -> Result<SourceFile<R::File>, RunError> {
    let mut found = find_pdb(rt, path, &program.code_view(), options)?;
    found.file.image_base = Some(program.image_base);
    found.file.code_id = Some(program.code_id);
    check_source(rt.alloc(), options, found)
}

// Returns the file, unless the options expect another build.
fn check_source<F: Read + Seek + Drop>(
    alloc: Global,
    options: &Options<'_>,
    mut source: SourceFile<F>,
) -> Result<SourceFile<F>, RunError> {
    check_identity(alloc, options, source.file.path.as_str(), &mut source.bytes)?;
    Ok(source)
}

/// Reads all records at once: of a PDB file, of a records file with its module files, or of the PDB file that is found
/// for a program.
pub fn read_all_records<R: Files + Eprint + AllocGlobal>(
    rt: &R,
    status_line: &StatusLine,
    options: &Options<'_>,
    path: &str,
) -> Result<PDB, RunError> {
    let source = find_file(rt, status_line, options, path)?;
    let is_pdb_file = source.bytes.is_pdb_file();
    let (file, bytes) = source.read(rt.alloc())?;
    if is_pdb_file {
        match read_pdb(rt.alloc(), &bytes) {
            Ok(records) => Ok(records),
            Err(fault) => Err(container_error(rt.alloc(), file.path.as_str(), fault)),
        }
    } else {
        read_records_file(rt, file.path.as_str(), &bytes)
    }
}

impl<F: Read + Seek + Drop> SourceFile<F> {
    /// A file that wasn't found for a program.
    pub fn new(path: String, bytes: FileBytes<F>) -> Self {
        let file = NamedFile {
            path,
            image_base: None,
            code_id: None,
        };
        SourceFile { file, bytes }
    }

    /// Reads all bytes of the file.
    pub fn read(self, alloc: Global) -> Result<(NamedFile, Vec<u8>), RunError> {
        let SourceFile { file, bytes } = self;
        match bytes.into_memory(alloc) {
            Ok(bytes) => Ok((file, bytes)),
            Err(error) => Err(cannot_read(alloc, file.path.as_str(), error)),
        }
    }
}

fn container_error(alloc: Global, path: &str, fault: ContainerError) -> RunError {
    match (String::from_str(alloc, path), fault) {
        (_, ContainerError::OutOfMemory) => RunError::Refused(Error::OutOfMemory),
        (Ok(path), fault) => RunError::Container(path, fault),
        (Err(_), _) => RunError::Refused(Error::OutOfMemory),
    }
}

/// The error of a run whose file can't be opened.
pub fn open_error(alloc: Global, path: &str, fault: OpenError) -> RunError {
    match fault {
        OpenError::Container(fault) => container_error(alloc, path, fault),
        OpenError::Unreadable => unreadable(alloc, path),
    }
}

/// The error of a run whose file was opened but can't be read to its end.
pub fn unreadable(alloc: Global, path: &str) -> RunError
    ensures { EndsRead path.now result }
{
    match String::from_str(alloc, path) {
        Ok(path) => RunError::Unreadable(path),
        Err(_) => RunError::Refused(Error::OutOfMemory),
    }
}

fn cannot_read(alloc: Global, path: &str, error: io::Error) -> RunError {
    match String::from_str(alloc, path) {
        Ok(path) if !ran_out_of_memory(&error) => RunError::CannotRead(path, error),
        _ => RunError::Refused(Error::OutOfMemory),
    }
}

/// Reads the records of a records file and of its module files.
pub fn read_records_file<R: Files + AllocGlobal>(
    rt: &R,
    path: &str,
    bytes: &[u8],
) -> Result<PDB, RunError> {
    if let Some(foreign) = ForeignFile::of_bytes(bytes) {
        return Err(RunError::Foreign(String::from_str(rt.alloc(), path)?, foreign));
    }
    match RecordsFile::from_slice(rt.alloc(), bytes) {
        Ok(file) => read_module_records(rt, path, file),
        Err(fault) => Err(RunError::Records(String::from_str(rt.alloc(), path)?, fault)),
    }
}

fn read_module_records<R: Files + AllocGlobal>(
    rt: &R,
    path: &str,
    file: RecordsFile,
) -> Result<PDB, RunError> {
    let files = match read_module_files(rt, path, &file) {
        Ok(files) => files,
        Err(fault) => return Err(module_file_error(rt.alloc(), path, fault)),
    };
    match file.read_records(&files) {
        Ok(records) => Ok(records),
        Err(fault) => Err(RunError::Records(String::from_str(rt.alloc(), path)?, fault)),
    }
}

/// Reads all bytes of a file that the user names.
pub fn read_file<R: Files + AllocGlobal>(rt: &R, path: &str) -> Result<Vec<u8>, RunError> {
    match fs::read(rt, path) {
        Ok(bytes) => Ok(bytes),
        Err(error) => Err(cannot_read(rt.alloc(), path, error)),
    }
}

/// The error of a run whose module files can't be read.
fn module_file_error(alloc: Global, path: &str, fault: ModuleFileError) -> RunError {
    match fault {
        ModuleFileError::OutOfMemory => RunError::Refused(Error::OutOfMemory),
        ModuleFileError::CannotRead(path) => RunError::Unreadable(path),
        ModuleFileError::Records(fault) => match String::from_str(alloc, path) {
            Ok(path) => RunError::Records(path, fault),
            Err(_) => RunError::Refused(Error::OutOfMemory),
        },
    }
}
