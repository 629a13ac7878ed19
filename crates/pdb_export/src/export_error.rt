//! `ExportError`: why records could not be written.

use std::alloc::AllocError;
use thiserror::Error;

/// Why records could not be written.
#[derive(Debug, Clone, Copy, PartialEq, Eq, Drop, Error)]
pub enum ExportError {
    /// Memory ran out.
    #[error("out of memory")]
    OutOfMemory,
    /// The writer refused a part of the text.
    #[error("cannot write")]
    CannotWrite,
    /// The format can't represent the records: a position doesn't fit 32 bits, or a type or id has an error that no
    /// reader of files gives it.
    #[error("records that no records file can hold")]
    NoRoom,
}

impl From<AllocError> for ExportError {
    fn from(_error: AllocError) -> ExportError {
        ExportError::OutOfMemory
    }
}
