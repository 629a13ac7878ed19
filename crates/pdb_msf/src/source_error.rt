//! Errors of files that are read through a source: why they can't be read further, or not at all.

ghost use Rattle.std.specs.Prelude.{◌≡◌, IfErr, IfOk, MatchResult};

use crate::container_error::ContainerError;
use crate::faults::Fault;
use crate::source::RangeError;
use pdb_records::StreamError;
use std::alloc::{AllocError, AllocFailed};
use thiserror::Error;

/// Why a file can't be read further.
#[derive(Debug, Clone, Copy, PartialEq, Eq, Error)]
pub enum SourceError {
    /// A range of the file can't be read.
    #[error("a range of the file can't be read")]
    Unreadable,
    /// Memory ran out.
    #[error("out of memory")]
    OutOfMemory,
}

/// Why a file can't be read at all.
#[derive(Debug, Clone, Copy, PartialEq, Eq, Error)]
pub enum OpenError {
    /// The file isn't a PDB file that can be read, or memory ran out.
    #[error("{0}")]
    Container(ContainerError),
    /// A range of the file can't be read.
    #[error("a range of the file can't be read")]
    Unreadable,
}

impl From<RangeError> for SourceError {
    ghost use Rattle.std.specs.Prelude.{◌≡◌};
    ghost use Rattle.pdb_msf.specs.declared.source_error.SourceError.TheVariants as fault;

    ghost from_gives = { λ _ given. given ≡ fault.Unreadable };

    fn from(_range: RangeError) -> SourceError {
        SourceError::Unreadable
    }
}

impl From<AllocError> for SourceError {
    ghost use Rattle.std.specs.Prelude.{◌≡◌};
    ghost use Rattle.pdb_msf.specs.declared.source_error.SourceError.TheVariants as fault;

    ghost from_gives = { λ _ given. given ≡ fault.OutOfMemory };

    fn from(_error: AllocError) -> SourceError {
        SourceError::OutOfMemory
    }
}

impl<T: Drop> From<AllocFailed<T>> for SourceError {
    ghost use Rattle.std.specs.Prelude.{◌≡◌};
    ghost use Rattle.pdb_msf.specs.declared.source_error.SourceError.TheVariants as fault;

    ghost from_gives = { λ _ given. given ≡ fault.OutOfMemory };

    fn from(_error: AllocFailed<T>) -> SourceError {
        SourceError::OutOfMemory
    }
}

impl From<ContainerError> for OpenError {
    ghost use Rattle.pdb_msf.specs.MsfLayout.{GivesRefusal};

    ghost from_gives = { GivesRefusal };

    fn from(fault: ContainerError) -> OpenError {
        OpenError::Container(fault)
    }
}

impl From<Fault> for OpenError {
    ghost use Rattle.pdb_msf.specs.MsfLayout.{GivesOpenFault};

    ghost from_gives = { GivesOpenFault };

    fn from(fault: Fault) -> OpenError {
        OpenError::Container(ContainerError::from(fault))
    }
}

impl From<SourceError> for OpenError {
    ghost use Rattle.pdb_msf.specs.MsfLayout.{GivesSourceFault};

    ghost from_gives = { GivesSourceFault };

    fn from(fault: SourceError) -> OpenError {
        match fault {
            SourceError::Unreadable => OpenError::Unreadable,
            SourceError::OutOfMemory => OpenError::Container(ContainerError::OutOfMemory),
        }
    }
}

/// Separates the two faults: a broken part becomes the inner error, and only out of memory stays the outer one.
pub fn part_of_source<T>(outcome: Result<T, Fault>) -> Result<Result<T, StreamError>, SourceError>
    ensures answer { IfOk result (λ part. MatchResult part (λ value. outcome ≡ Ok value)
        (λ error. outcome ≡ Err (Fault.Broken error))) }
    ensures memory { IfErr result (λ fault. fault ≡ SourceError.OutOfMemory) }
{
    match outcome {
        Ok(part) => Ok(Ok(part)),
        Err(Fault::Broken(error)) => Ok(Err(error)),
        Err(Fault::OutOfMemory) => Err(SourceError::OutOfMemory),
    }
}
