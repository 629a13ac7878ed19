//! `SymbolFileError`: why a symbol file could not be written.

use pdb_addr2line::Error;
use pdb_session::QuestionError;
use std::alloc::AllocError;
use std::io;

/// Why a symbol file could not be written.
#[derive(Debug, Drop, thiserror::Error)]
pub enum SymbolFileError {
    /// The source of the frames returned an error, or memory ran out.
    #[error("{0}")]
    Refused(Error),
    /// An answer depends on records that weren't read.
    #[error("not all of the file was read")]
    NotRead,
    /// The writer refused a part of the text.
    #[error("cannot write")]
    CannotWrite,
    /// The reader of the output is gone.
    #[error("nobody reads")]
    ClosedPipe,
}

impl From<Error> for SymbolFileError {
    fn from(error: Error) -> SymbolFileError {
        SymbolFileError::Refused(error)
    }
}

impl From<QuestionError> for SymbolFileError {
    fn from(fault: QuestionError) -> SymbolFileError {
        match fault {
            QuestionError::NotRead => SymbolFileError::NotRead,
            QuestionError::Records(error) => SymbolFileError::Refused(error),
        }
    }
}

impl From<AllocError> for SymbolFileError {
    fn from(_error: AllocError) -> SymbolFileError {
        SymbolFileError::Refused(Error::OutOfMemory)
    }
}

impl From<io::Error> for SymbolFileError {
    fn from(error: io::Error) -> SymbolFileError {
        match error.kind() {
            io::ErrorKind::OutOfMemory => SymbolFileError::Refused(Error::OutOfMemory),
            io::ErrorKind::BrokenPipe => SymbolFileError::ClosedPipe,
            _ => SymbolFileError::CannotWrite,
        }
    }
}
