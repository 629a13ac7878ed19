//! `ReadError`: why a type or an id can't be read, and which part of the records is broken, if one is.

ghost use Rattle.std.specs.Prelude.{◌≡◌};

use pdb_errors::Error;
use std::alloc::AllocError;

/// A part of the records that may be broken by itself, by module index.
#[derive(Clone, Copy, PartialEq, Eq, PartialOrd, Ord)]
pub enum Part {
    /// The imports of a module.
    Imports(usize),
    /// The exports of a module.
    Exports(usize),
}

/// Why a type or an id can't be read.
#[derive(Drop)]
pub enum ReadError {
    /// No entry has this number.
    Missing(u32),
    /// The entry has a kind, with this number, that the reader of the records doesn't know.
    Unimplemented(u16),
    /// The read is refused with this error, but no part of the records is broken.
    Refused(Error),
    /// A part of the records is broken, with this error.
    Broken(Part, Error),
    /// Memory ran out. The same call may succeed later.
    OutOfMemory,
}

impl From<pdb_records::Error> for ReadError {
    ghost use Rattle.pdb_types.specs.ReadError.{read_error_by};

    ghost from_gives = { λ e r. r ≡ read_error_by e };

    fn from(error: pdb_records::Error) -> ReadError {
        match error {
            pdb_records::Error::TypeNotFound(number) => ReadError::Missing(number),
            pdb_records::Error::UnimplementedTypeKind(kind) => ReadError::Unimplemented(kind),
            other => ReadError::Refused(Error::from(other)),
        }
    }
}

impl From<AllocError> for ReadError {
    ghost use Rattle.pdb_types.specs.declared.read_error.ReadError.TheVariants.{OutOfMemory};

    ghost from_gives = { λ _ r. r ≡ OutOfMemory };

    fn from(_error: AllocError) -> ReadError {
        ReadError::OutOfMemory
    }
}
