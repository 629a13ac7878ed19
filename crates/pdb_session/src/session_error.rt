//! Why no session can be opened over a file.

use pdb_addr2line::Error;
use pdb_container::{OpenError, PdbFileError};
use std::alloc::AllocError;

/// Why no session can be opened over a file.
#[derive(Debug, Drop, thiserror::Error)]
pub enum SessionError {
    /// The file isn't a PDB file that can be read, a range of it can't be read, or memory ran out.
    #[error("{0}")]
    File(OpenError),
    /// Nothing can be answered over the file's records.
    #[error("{0}")]
    Refused(PdbFileError),
    /// No lookup tables can be made from the records, or memory ran out.
    #[error("{0}")]
    Records(Error),
}

impl From<OpenError> for SessionError {
    ghost use Rattle.std.specs.Prelude.{◌≡◌};
    ghost use Rattle.pdb_session.specs.declared.session_error.SessionError.TheVariants as fault;

    ghost from_gives = { λ error given. given ≡ fault.File error };

    fn from(error: OpenError) -> SessionError {
        SessionError::File(error)
    }
}

impl From<Error> for SessionError {
    ghost use Rattle.std.specs.Prelude.{◌≡◌};
    ghost use Rattle.pdb_session.specs.declared.session_error.SessionError.TheVariants as fault;

    ghost from_gives = { λ error given. given ≡ fault.Records error };

    fn from(error: Error) -> SessionError {
        SessionError::Records(error)
    }
}

impl From<AllocError> for SessionError {
    ghost use Rattle.std.specs.Prelude.{◌≡◌};
    ghost use Rattle.pdb_errors.specs.declared.error.Error.TheVariants.{OutOfMemory};
    ghost use Rattle.pdb_session.specs.declared.session_error.SessionError.TheVariants as fault;

    ghost from_gives = { λ _ given. given ≡ fault.Records OutOfMemory };

    fn from(_error: AllocError) -> SessionError {
        SessionError::Records(Error::OutOfMemory)
    }
}
