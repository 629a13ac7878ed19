//! Opens files for answers. Broken parts of their records are removed, and printed on standard error.

ghost use Rattle.std.specs.Prelude.{◌≡◌, true, string_bytes, IfErr, IsOk, OnOk};
ghost use Rattle.pdb_session.specs.Session.{SameFile, needs_none};
ghost use Rattle.pdb_symbolizer_input.specs.EndReasons.{EndsRead};

use crate::file_bytes::FileBytes;
use crate::input_files::{
    NamedFile, SourceFile, find_file, open_error, read_records_file, unreadable,
};
use crate::options::Options;
use crate::repair_lines::print_repairs;
use crate::run_errors::RunError;
use crate::status_line::StatusLine;
use pdb_addr2line::Error;
use pdb_addr2line::pdb::PDB;
use pdb_container::SourceError;
use pdb_identity::CodeId;
use pdb_repairs::Repair;
use pdb_session::{Opened, PdbSession, SessionError};
use pdb_source_urls::{SourceUrls, read_source_urls};
use std::alloc::Global;
use std::io::{Read, Seek};
use std::mem::replace;
use std::rt::Files;

/// A file that was opened for answers.
#[derive(Drop)]
pub struct OpenedFile<F: Read + Seek + Drop> {
    /// The path of the file with the records: a PDB file that was found for a program, or the file that was named.
    pub path: String,
    pub session: PdbSession<FileBytes<F>>,
    /// Where the source files can be fetched. It says nothing unless the options ask for URLs.
    pub source_urls: SourceUrls,
    /// The image base of the program, if the user named a program.
    pub image_base: Option<u64>,
    pub code_id: Option<CodeId>,
}

impl<F: Read + Seek + Drop> OpenedFile<F> {
    /// The records that were read so far.
    pub fn records(&self) -> &PDB
        ensures { result.now ≡ self.now.session.known.records }
    {
        self.session.records()
    }

    /// Takes out what the file says about where its source files can be fetched.
    pub fn take_source_urls(&mut self, alloc: Global) -> SourceUrls
        ensures answer { result ≡ self.old.source_urls }
        ensures session { self.new.session ≡ self.old.session }
        ensures image_base { self.new.image_base ≡ self.old.image_base }
        ensures path { self.new.path ≡ self.old.path }
    {
        replace(&mut self.source_urls, SourceUrls::new(alloc))
    }

    /// Reads what is missing for answers at these addresses, relative to where the program is loaded.
    pub fn read_for<R: Eprint + AllocGlobal>(
        &mut self,
        rt: &R,
        addresses: &[u32],
    ) -> Result<(), RunError>
        ensures enough { OnOk result (needs_none self.new.session.known addresses.now ≡ true) }
        ensures file { SameFile self.old.session self.new.session }
        ensures path { self.new.path ≡ self.old.path }
        ensures early { IfErr result (EndsRead (string_bytes self.old.path)) }
    {
        let read = self.session.read_for(addresses);
        self.print_read(rt, read)
    }

    /// Reads everything that is left.
    pub fn read_all<R: Eprint + AllocGlobal>(&mut self, rt: &R) -> Result<(), RunError> {
        let read = self.session.read_all();
        self.print_read(rt, read)
    }

    // Prints the broken parts of the records that were just read.
    fn print_read<R: Eprint + AllocGlobal>(
        &self,
        rt: &R,
        read: Result<Vec<Repair>, SourceError>,
    ) -> Result<(), RunError>
        ensures read { OnOk result (IsOk read) }
        ensures early { IfErr result (EndsRead (string_bytes self.now.path)) }
    {
        match read {
            Ok(repairs) => print_repairs(rt, self.path.as_str(), self.records(), &repairs),
            Err(SourceError::OutOfMemory) => Err(RunError::Refused(Error::OutOfMemory)),
            Err(SourceError::Unreadable) => Err(unreadable(rt.alloc(), self.path.as_str())),
        }
    }
}

/// Opens a file that the user names: a PDB file, a records file, or the PDB file that is found for a program. An error
/// is returned if nothing can be answered over it.
pub fn open_file<R: Files + Eprint + AllocGlobal>(
    rt: &R,
    status_line: &StatusLine,
    options: &Options<'_>,
    path: &str,
) -> Result<OpenedFile<R::File>, RunError> {
    let source = find_file(rt, status_line, options, path)?;
    open_source(rt, options, source)
}

/// Opens a file that was found, as [`open_file`] does.
pub fn open_source<R: Files + Eprint + AllocGlobal>(
    rt: &R,
    options: &Options<'_>,
    source: SourceFile<R::File>,
) -> Result<OpenedFile<R::File>, RunError> {
    if source.bytes.is_pdb_file() {
        let SourceFile { file, mut bytes } = source;
        let length = bytes.length();
        let urls = source_urls(rt.alloc(), options, file.path.as_str(), &mut bytes)?;
        match PdbSession::open(rt.alloc(), bytes, length) {
            Ok(opened) => opened_file(rt, file, urls, opened),
            Err(fault) => Err(session_error(rt.alloc(), file.path.as_str(), fault)),
        }
    } else {
        let (file, bytes) = source.read(rt.alloc())?;
        let records = read_records_file(rt, file.path.as_str(), &bytes)?;
        let opened = PdbSession::over_records(rt.alloc(), records)?;
        opened_file(rt, file, SourceUrls::new(rt.alloc()), opened)
    }
}

// What a PDB file says about where its source files can be fetched, if the options ask for that.
fn source_urls<F: Read + Seek + Drop>(
    alloc: Global,
    options: &Options<'_>,
    path: &str,
    bytes: &mut FileBytes<F>,
) -> Result<SourceUrls, RunError> {
    if !options.source_urls {
        return Ok(SourceUrls::new(alloc));
    }
    let length = bytes.length();
    match read_source_urls(alloc, bytes, length) {
        Ok(urls) => Ok(urls),
        Err(fault) => Err(open_error(alloc, path, fault)),
    }
}

fn opened_file<R: Eprint + AllocGlobal, F: Read + Seek + Drop>(
    rt: &R,
    file: NamedFile,
    source_urls: SourceUrls,
    opened: Opened<FileBytes<F>>,
) -> Result<OpenedFile<F>, RunError> {
    let NamedFile {
        path,
        image_base,
        code_id,
    } = file;
    let Opened {
        session,
        names_only,
        repairs,
    } = opened;
    if names_only {
        let _ = eprintln!(rt;
            "pdb_symbolizer: {path}: made with /DEBUG:FASTLINK: names but no lines"
        );
    }
    print_repairs(rt, path.as_str(), session.records(), &repairs)?;
    Ok(OpenedFile {
        path,
        session,
        source_urls,
        image_base,
        code_id,
    })
}

// The error of a run whose file can't be opened as a session.
fn session_error(alloc: Global, path: &str, fault: SessionError) -> RunError {
    match fault {
        SessionError::File(fault) => open_error(alloc, path, fault),
        SessionError::Records(error) => RunError::Refused(error),
        SessionError::Refused(refusal) => match String::from_str(alloc, path) {
            Ok(path) => RunError::PdbFile(path, refusal),
            Err(_) => RunError::Refused(Error::OutOfMemory),
        },
    }
}
