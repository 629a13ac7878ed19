//! The build that a file belongs to: the lines of `--show-id`, and the check of `--expect-id`.

use crate::file_bytes::FileBytes;
use crate::input_files::{open_error, open_named_file};
use crate::options::Options;
use crate::run_errors::RunError;
use pdb_container::{DebugId, Machine, PdbIdentity, read_identity_of};
use pdb_identity::{ProgramFile, read_program};
use std::alloc::Global;
use std::fmt;
use std::io::{Read, Seek};
use std::rt::Files;
use uuid::Uuid;

/// The build that a file must belong to.
#[derive(Debug, Clone, Copy)]
pub enum ExpectedBuild {
    /// The build with this GUID and this age.
    Exact(DebugId),
    /// Any build with this GUID.
    AnyAge(Uuid),
}

impl ExpectedBuild {
    /// Parses a debug id in either form, or a GUID alone.
    pub fn parse(text: &str) -> Option<ExpectedBuild> {
        if let Some(id) = DebugId::parse(text) {
            return Some(ExpectedBuild::Exact(id));
        }
        match Uuid::parse_str(text) {
            Ok(guid) => Some(ExpectedBuild::AnyAge(guid)),
            Err(_) => None,
        }
    }

    fn is_of(self, found: DebugId) -> bool {
        match self {
            ExpectedBuild::Exact(id) => found == id,
            ExpectedBuild::AnyAge(guid) => found.guid == guid,
        }
    }
}

impl fmt::Display for ExpectedBuild {
    fn fmt<W: fmt::Write>(&self, f: &mut fmt::Formatter<W>) -> fmt::Result {
        match self {
            ExpectedBuild::Exact(id) => write!(f, "{id}"),
            ExpectedBuild::AnyAge(guid) => {
                let mut buffer = Uuid::encode_buffer();
                write!(f, "{}", guid.braced().encode_upper(&mut buffer))
            }
        }
    }
}

/// Prints a line for each PDB file or program on the command line: its path, its debug id, its age and its machine.
pub fn print_identities<R: Files + Print + AllocGlobal>(
    rt: &R,
    options: &Options<'_>,
) -> Result<(), RunError> {
    let Some(file) = options.file else {
        return Err(RunError::NoFile);
    };
    print_identity(rt, file)?;
    for &file in &options.addresses {
        print_identity(rt, file)?;
    }
    Ok(())
}

fn print_identity<R: Files + Print + AllocGlobal>(rt: &R, file: &str) -> Result<(), RunError> {
    let mut bytes = open_named_file(rt, file)?;
    if let FileBytes::InMemory(bytes) = &bytes {
        match read_program(rt.alloc(), bytes) {
            Ok(Some(program)) => return print_program(rt, file, &program),
            Ok(None) => {}
            Err(_) => return Err(RunError::want_of_memory()),
        }
    }
    let identity = identity_of(rt.alloc(), file, &mut bytes)?;
    print_line(rt, file, identity.debug_id, identity.machine)
}

fn print_program<R: Print + AllocGlobal>(
    rt: &R,
    file: &str,
    program: &ProgramFile<'_>,
) -> Result<(), RunError> {
    match &program.code_view {
        Some(code_view) => print_line(rt, file, code_view.debug_id, Some(program.machine)),
        None => Err(RunError::NoIdentity(String::from_str(rt.alloc(), file)?)),
    }
}

fn print_line<R: Print>(
    rt: &R,
    file: &str,
    id: DebugId,
    machine: Option<Machine>,
) -> Result<(), RunError> {
    let printed = match machine {
        Some(machine) => println!(rt; "{file} {} {} {machine}", id.compact(), id.age),
        None => println!(rt; "{file} {} {} ??", id.compact(), id.age),
    };
    match printed {
        Ok(()) => Ok(()),
        Err(_) => Err(RunError::CannotWrite),
    }
}

/// Refuses a PDB file if the options expect another build.
pub fn check_identity<F: Read + Seek + Drop>(
    alloc: Global,
    options: &Options<'_>,
    file: &str,
    bytes: &mut FileBytes<F>,
) -> Result<(), RunError> {
    let Some(expected) = options.expected else {
        return Ok(());
    };
    let found = identity_of(alloc, file, bytes)?.debug_id;
    if expected.is_of(found) {
        return Ok(());
    }
    Err(RunError::OtherBuild(String::from_str(alloc, file)?, found, expected))
}

fn identity_of<F: Read + Seek + Drop>(
    alloc: Global,
    file: &str,
    bytes: &mut FileBytes<F>,
) -> Result<PdbIdentity, RunError> {
    match identity_in(alloc, file, bytes)? {
        Some(identity) => Ok(identity),
        None => Err(RunError::NoIdentity(String::from_str(alloc, file)?)),
    }
}

/// The identity of a PDB file: its debug id and machine. `None` if the file doesn't say it.
pub fn identity_in<F: Read + Seek + Drop>(
    alloc: Global,
    file: &str,
    bytes: &mut FileBytes<F>,
) -> Result<Option<PdbIdentity>, RunError> {
    let length = bytes.length();
    match read_identity_of(alloc, bytes, length) {
        Ok(identity) => Ok(identity),
        Err(fault) => Err(open_error(alloc, file, fault)),
    }
}
