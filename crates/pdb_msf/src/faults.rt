//! Numbers for why a part of a file can't be read, and `Fault`: whether only the part is broken or memory ran out.

ghost use Rattle.std.specs.Prelude.{◌≡◌, IfErr};
ghost use Rattle.pdb_msf.specs.Faults.{fault_text, part_of};

use pdb_records::StreamError;
use std::alloc::{AllocError, AllocFailed};

/// The bytes end too early.
pub const CUT: StreamError = StreamError(1);
/// The file has no such stream.
pub const NO_STREAM: StreamError = StreamError(2);
/// A block of the stream lies outside of the file.
pub const BLOCK_OUTSIDE: StreamError = StreamError(3);
/// The module streams together are longer than the file. A stream counts once for each module that names it.
pub const TOO_LONG: StreamError = StreamError(4);
/// A signature or a version is unknown.
pub const UNKNOWN_VERSION: StreamError = StreamError(5);
/// A length is invalid.
pub const BAD_LENGTH: StreamError = StreamError(6);
/// An offset or an index points outside of the data.
pub const POINTS_NOWHERE: StreamError = StreamError(7);
/// Addresses were rearranged after linking (OMAP). This isn't supported.
pub const REARRANGED: StreamError = StreamError(8);

/// A number or a kind is invalid.
pub const BAD_NUMBER: StreamError = StreamError(9);
/// The code of an inlined body is in a separated chunk whose place can't be given.
pub const APART: StreamError = StreamError(10);

/// The message for an error number.
pub fn fault_text(error: StreamError) -> &'static str
    ensures { result.now ≡ fault_text error }
{
    match error {
        CUT => "the bytes end before what is said to stand there",
        NO_STREAM => "the file has no such stream",
        BLOCK_OUTSIDE => "a block lies outside of the file",
        TOO_LONG => "the streams are longer than the file together",
        UNKNOWN_VERSION => "a signature or a version that isn't known",
        BAD_LENGTH => "a length that can't stand there",
        POINTS_NOWHERE => "it begins behind its own end",
        REARRANGED => "addresses were rearranged after linking",
        BAD_NUMBER => "a number or a kind that can't stand there",
        APART => "code of an inlined body in a separated chunk",
        _ => "it can't be read",
    }
}

/// Why reading a part ended early.
#[derive(Debug, Clone, Copy)]
pub enum Fault {
    /// Only this part is broken. Other parts can still be read.
    Broken(StreamError),
    /// Memory ran out.
    OutOfMemory,
}

impl From<StreamError> for Fault {
    ghost use Rattle.std.specs.Prelude.{◌≡◌};
    ghost use Rattle.pdb_msf.specs.declared.faults.Fault.TheVariants.{Broken};

    ghost from_gives = { λ e r. r ≡ Broken e };

    fn from(error: StreamError) -> Fault {
        Fault::Broken(error)
    }
}

impl From<AllocError> for Fault {
    ghost use Rattle.std.specs.Prelude.{◌≡◌};
    ghost use Rattle.pdb_msf.specs.declared.faults.Fault.TheVariants.{OutOfMemory};

    ghost from_gives = { λ _ r. r ≡ OutOfMemory };

    fn from(_error: AllocError) -> Fault {
        Fault::OutOfMemory
    }
}

impl<T: Drop> From<AllocFailed<T>> for Fault {
    ghost use Rattle.std.specs.Prelude.{◌≡◌};
    ghost use Rattle.pdb_msf.specs.declared.faults.Fault.TheVariants.{OutOfMemory};

    ghost from_gives = { λ _ r. r ≡ OutOfMemory };

    fn from(_error: AllocFailed<T>) -> Fault {
        Fault::OutOfMemory
    }
}

/// Separates the two faults: a broken part becomes the inner error, and only out of memory stays the outer one.
pub fn part_or_fault<T>(outcome: Result<T, Fault>) -> Result<Result<T, StreamError>, Fault>
    ensures answer { result ≡ part_of outcome }
    ensures memory { IfErr result (λ fault. fault ≡ Fault.OutOfMemory) }
{
    match outcome {
        Ok(part) => Ok(Ok(part)),
        Err(Fault::Broken(error)) => Ok(Err(error)),
        Err(Fault::OutOfMemory) => Err(Fault::OutOfMemory),
    }
}
