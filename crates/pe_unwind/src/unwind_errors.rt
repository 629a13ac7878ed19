//! Errors of reading a function's unwind info.

use std::alloc::{AllocError, AllocFailed};
use thiserror::Error;

/// Why an entry of the exception directory gets no records.
#[derive(Debug, Clone, Copy, PartialEq, Eq, Error)]
pub enum EntryError {
    /// The function ends at or before its start.
    #[error("the function ends before it begins")]
    Empty,
    /// The function extends past the end of the image.
    #[error("the function is outside of the image")]
    OutsideOfImage,
    /// The function begins before the end of one that is listed earlier.
    #[error("the function overlaps one that is listed before it")]
    Overlapping,
    /// The image has no bytes at the address of the unwind info, or too few.
    #[error("the unwind info is outside of the image")]
    InfoOutsideOfImage,
    /// The unwind info is neither of version 1 nor of version 2.
    #[error("the unwind info has an unknown version")]
    UnknownVersion,
    /// The unwind info has a code that no version knows.
    #[error("the unwind info has an unknown code")]
    UnknownCode,
    /// The last unwind code takes more slots than the unwind info has.
    #[error("the unwind codes reach past the end of the unwind info")]
    CodesCut,
    /// More than 32 unwind infos are chained, or they are chained in a circle.
    #[error("too many unwind infos are chained")]
    ChainTooLong,
}

/// Why reading an entry of the exception directory ended early.
#[derive(Debug, Clone, Copy, PartialEq, Eq)]
pub enum UnwindError {
    /// The entry gets no records; other entries aren't affected.
    Refused(EntryError),
    /// Memory ran out.
    OutOfMemory,
}

impl From<EntryError> for UnwindError {
    ghost use Rattle.std.specs.Prelude.{◌≡◌};
    ghost use Rattle.pe_unwind.specs.declared.unwind_errors.UnwindError.TheVariants.{Refused};

    ghost from_gives = { λ refusal fault. fault ≡ Refused refusal };

    fn from(refusal: EntryError) -> UnwindError {
        UnwindError::Refused(refusal)
    }
}

impl From<AllocError> for UnwindError {
    ghost use Rattle.std.specs.Prelude.{◌≡◌};
    ghost use Rattle.pe_unwind.specs.declared.unwind_errors.UnwindError.TheVariants.{OutOfMemory};

    ghost from_gives = { λ _ fault. fault ≡ OutOfMemory };

    fn from(_error: AllocError) -> UnwindError {
        UnwindError::OutOfMemory
    }
}

impl<T: Drop> From<AllocFailed<T>> for UnwindError {
    ghost use Rattle.std.specs.Prelude.{◌≡◌};
    ghost use Rattle.pe_unwind.specs.declared.unwind_errors.UnwindError.TheVariants.{OutOfMemory};

    ghost from_gives = { λ _ fault. fault ≡ OutOfMemory };

    fn from(_error: AllocFailed<T>) -> UnwindError {
        UnwindError::OutOfMemory
    }
}
