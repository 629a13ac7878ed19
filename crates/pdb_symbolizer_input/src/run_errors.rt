//! `RunError`: why a run ended early, its message, and its exit status.

ghost use Rattle.std.specs.Prelude.{◌≡◌, if◌then◌else◌};
ghost use Rattle.pdb_symbolizer_input.specs.EndReasons.{out_of_memory};
ghost use Rattle.pdb_symbolizer_input.specs.ExitStatuses.{asks_for_help, status_of};

use crate::arguments::EXAMPLES;
use crate::foreign_files::ForeignFile;
use crate::identities::ExpectedBuild;
use clap::error::ErrorKind;
use pdb_addr2line::Error;
use pdb_breakpad::SymbolFileError;
use pdb_container::{ContainerError, DebugId, PdbFileError};
use pdb_export::ExportError;
use pdb_json::RecordFault;
use pdb_records_files::ran_out_of_memory;
use pdb_session::QuestionError;
use std::alloc::{AllocError, AllocFailed};
use std::io;

/// Why a run of the program ended early. The error's text is the line that the program prints after its name.
#[derive(Debug, Drop, thiserror::Error)]
pub enum RunError {
    /// The command line asks for help or for the version, or can't be parsed.
    #[error("{0}")]
    Words(clap::Error),
    /// The command line isn't valid text.
    #[error("the command line is no text")]
    NoText,
    /// The option doesn't accept this value.
    #[error("--{0} can't be {1}")]
    NoSuchValue(&'static str, String),
    /// The file could not be read, and why.
    #[error("cannot read {0}: {1}")]
    CannotRead(String, io::Error),
    /// A range of the file, or another file that it names, could not be read.
    #[error("cannot read {0}")]
    Unreadable(String),
    /// The file is of a kind that can't be read.
    #[error("{0}: {1}")]
    Foreign(String, ForeignFile),
    /// Some files could not be opened. The errors were already printed.
    #[error("a file can't be opened")]
    Unopened,
    /// No file is named.
    #[error("no FILE")]
    NoFile,
    /// This option writes a file, and the command line also has addresses.
    #[error("--{0} answers no address")]
    AnswersNone(&'static str),
    /// This option reads requests, and the command line also has other words.
    #[error("--{0} takes no FILE and no address")]
    TakesNone(&'static str),
    /// Standard input isn't a valid request.
    #[error("no request: {0}")]
    NoRequest(String),
    /// The number of lines of standard input that weren't valid requests.
    #[error("lines that are no requests: {0}")]
    NoRequests(u64),
    /// The PDB file of a program was not found. The text lists where it was looked for.
    #[error("{0}")]
    NoPdbFile(String),
    /// The file is a PDB file that can't be read.
    #[error("{0}: {1}")]
    Container(String, ContainerError),
    /// The file is a PDB file over which nothing can be answered.
    #[error("{0}: {1}")]
    PdbFile(String, PdbFileError),
    /// The file belongs to another build: its own id comes first, then the expected one.
    #[error("{0}: its id is {1}, not {2}")]
    OtherBuild(String, DebugId, ExpectedBuild),
    /// The file doesn't say to which build it belongs.
    #[error("{0}: no id")]
    NoIdentity(String),
    /// The file can't be read as a records file.
    #[error("{0}: {1}")]
    Records(String, RecordFault),
    /// The file at this path could not be written.
    #[error("{0}: {1}")]
    Export(String, ExportError),
    /// The symbol file at this path could not be written.
    #[error("{0}: {1}")]
    SymbolFile(String, SymbolFileError),
    /// The records were refused, or memory ran out.
    #[error("{0}")]
    Refused(Error),
    /// An answer depends on records that weren't read.
    #[error("not all of the file was read")]
    NotRead,
    /// Standard input could not be read.
    #[error("cannot read standard input")]
    CannotReadInput,
    /// An answer could not be written.
    #[error("cannot write")]
    CannotWrite,
    /// The reader of the output is gone.
    #[error("nobody reads")]
    ClosedPipe,
}

impl RunError {
    /// The error that memory ran out.
    pub fn want_of_memory() -> RunError
        ensures { result ≡ out_of_memory }
    {
        RunError::Refused(Error::OutOfMemory)
    }

    /// The error of a run that can't read its command line.
    pub fn without_words(error: &io::Error) -> RunError {
        if ran_out_of_memory(error) {
            RunError::Refused(Error::OutOfMemory)
        } else {
            RunError::NoText
        }
    }

    /// Prints why the run ended, and returns its exit status. Help and version go to standard output, everything else
    /// to standard error.
    pub fn print<R: Print + Eprint + AllocGlobal>(&self, rt: &R) -> u8
        ensures { result ≡ status_of self.now }
    {
        match self {
            RunError::Words(error) if error.use_stderr() => print_wrong_words(rt, error),
            RunError::Words(error) => {
                if error.kind() == ErrorKind::DisplayHelp {
                    let _ = rt.print(EXAMPLES);
                }
                let _ = error.print(rt);
            }
            RunError::ClosedPipe | RunError::Unopened => {}
            _ => {
                let _ = eprintln!(rt; "pdb_symbolizer: {self}");
            }
        }
        self.status()
    }

    /// Whether memory ran out, so that nothing can be answered at all.
    pub fn is_want_of_memory(&self) -> bool {
        matches!(self, RunError::Refused(Error::OutOfMemory))
    }

    /// The exit status for this error.
    fn status(&self) -> u8
        ensures { result ≡ status_of self.now }
    {
        match self {
            RunError::Words(error) => status_of_words(error.kind()),
            RunError::ClosedPipe => 0,
            RunError::Refused(_)
            | RunError::PdbFile(..)
            | RunError::NoPdbFile(_)
            | RunError::OtherBuild(..)
            | RunError::NoIdentity(_)
            | RunError::Unopened => 1,
            _ => 2,
        }
    }
}

// The exit status for a parser's error: 0 if it asks for the help or the version.
fn status_of_words(kind: ErrorKind) -> u8
    ensures { result ≡ if asks_for_help kind then 0 else 2 }
{
    match kind {
        ErrorKind::DisplayHelp | ErrorKind::DisplayVersion => 0,
        _ => 2,
    }
}

/// How the parser's tip begins that suggests to write an unknown option after `--`. There it would be taken for a file.
const ADVICE: &str = "tip: to pass ";

// Prints the parser's error, without that tip and the empty line after it.
fn print_wrong_words<R: Print + Eprint + AllocGlobal>(rt: &R, error: &clap::Error) {
    let Ok(text) = format!(in rt.alloc(); "{error}") else {
        let _ = error.print(rt);
        return;
    };
    let mut behind_advice = false;
    for line in text.as_str().lines() {
        if line.trim_start().starts_with(ADVICE) {
            behind_advice = true;
            continue;
        }
        if !behind_advice || !line.is_empty() {
            let _ = eprintln!(rt; "{line}");
        }
        behind_advice = false;
    }
}

impl From<clap::Error> for RunError {
    fn from(error: clap::Error) -> RunError {
        match error.kind() {
            ErrorKind::OutOfMemory => RunError::Refused(Error::OutOfMemory),
            _ => RunError::Words(error),
        }
    }
}

impl From<Error> for RunError {
    ghost use Rattle.std.specs.Prelude.{◌≡◌};
    ghost use Rattle.pdb_symbolizer_input.specs.declared.run_errors.RunError.TheVariants.{Refused};

    ghost from_gives = { λ error run. run ≡ Refused error };

    fn from(error: Error) -> RunError {
        RunError::Refused(error)
    }
}

impl From<SymbolFileError> for RunError {
    fn from(fault: SymbolFileError) -> RunError {
        match fault {
            SymbolFileError::Refused(error) => RunError::Refused(error),
            SymbolFileError::NotRead => RunError::NotRead,
            SymbolFileError::CannotWrite => RunError::CannotWrite,
            SymbolFileError::ClosedPipe => RunError::ClosedPipe,
        }
    }
}

impl From<QuestionError> for RunError {
    fn from(fault: QuestionError) -> RunError {
        RunError::from(SymbolFileError::from(fault))
    }
}

impl From<io::Error> for RunError {
    ghost use Rattle.std.specs.Prelude.{false};
    ghost use Rattle.pdb_symbolizer_input.specs.EndReasons.{EndsWrite};

    ghost from_gives = { λ _ run. EndsWrite false run };

    fn from(error: io::Error) -> RunError {
        match error.kind() {
            io::ErrorKind::OutOfMemory => RunError::Refused(Error::OutOfMemory),
            io::ErrorKind::BrokenPipe => RunError::ClosedPipe,
            _ => RunError::CannotWrite,
        }
    }
}

impl From<AllocError> for RunError {
    ghost use Rattle.std.specs.Prelude.{◌≡◌};
    ghost use Rattle.pdb_symbolizer_input.specs.EndReasons.{out_of_memory};

    ghost from_gives = { λ _ run. run ≡ out_of_memory };

    fn from(_error: AllocError) -> RunError {
        RunError::Refused(Error::OutOfMemory)
    }
}

impl<T: Drop> From<AllocFailed<T>> for RunError {
    ghost use Rattle.std.specs.Prelude.{◌≡◌};
    ghost use Rattle.pdb_symbolizer_input.specs.EndReasons.{out_of_memory};

    ghost from_gives = { λ _ run. run ≡ out_of_memory };

    fn from(_error: AllocFailed<T>) -> RunError {
        RunError::Refused(Error::OutOfMemory)
    }
}
