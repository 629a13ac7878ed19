//! Results of reading one item: its content, or why only this item can't be read.

ghost use Rattle.std.specs.Prelude.{◌≡◌};
ghost use Rattle.pdb_tpi.specs.Contents.{content_of};

use pdb_msf::faults::Fault;
use pdb_records::Error;
use std::alloc::AllocError;

/// Turns a fault in one item's bytes into the item's error, and passes on that memory ran out.
pub(crate) fn content_of<T>(outcome: Result<T, Fault>) -> Result<Result<T, Error>, AllocError>
    ensures { result ≡ content_of outcome }
{
    match outcome {
        Ok(content) => Ok(Ok(content)),
        Err(Fault::Broken(error)) => Ok(Err(Error::Stream(error))),
        Err(Fault::OutOfMemory) => Err(AllocError),
    }
}
