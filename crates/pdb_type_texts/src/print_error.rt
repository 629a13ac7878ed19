//! `PrintError`: why printing fails. A missing type may be replaced by a note.

ghost use Rattle.std.specs.Prelude.{◌≡◌};

use pdb_errors::Error;

/// Why printing fails.
#[derive(Drop)]
pub enum PrintError {
    /// No type has this number. If it is a part of another type, a note is printed in its place.
    TypeNotFound(u32),
    /// Printing fails with this error.
    OfError(Error),
}

impl From<PrintError> for Error {
    ghost use Rattle.pdb_type_texts.specs.Progress.{error_of};

    ghost from_gives = { λ failure r. r ≡ error_of failure };

    fn from(failure: PrintError) -> Error {
        match failure {
            PrintError::TypeNotFound(index) => {
                Error::from(pdb_records::Error::TypeNotFound(index))
            }
            PrintError::OfError(error) => error,
        }
    }
}
