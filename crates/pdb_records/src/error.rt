//! `StreamError` and `Error`: why a stream can't be read, and why a question to the records has no answer.

use thiserror::Error;

/// A number that says why a stream, or the rest of one, can't be read. Its meaning depends on the reader.
#[derive(Debug, Clone, Copy, PartialEq, Eq)]
pub struct StreamError(pub u32);

/// Why a question to the records has no answer.
#[derive(Debug, Clone, Copy, Error)]
pub enum Error {
    /// The stream with the answer can't be read.
    #[error("stream error {n}", n = .0.0)]
    Stream(StreamError),
    /// No item has this index.
    #[error("type 0x{0:x} not found")]
    TypeNotFound(u32),
    /// The item has a kind that the reader doesn't know.
    #[error("unimplemented type kind 0x{0:x}")]
    UnimplementedTypeKind(u16),
    /// The list of imports has no entry for this index.
    #[error("cross module reference 0x{0:x} not found")]
    CrossModuleRefNotFound(u32),
    /// The string table has no string with this reference.
    #[error("string {0} not found")]
    StringNotFound(u32),
}
