//! Errors of reading a function's unwind info.

use std::alloc::{AllocError, AllocFailed};
use thiserror::Error;

/// Why an entry of the exception directory gets no records.
#[derive(Debug, Clone, Copy, PartialEq, Eq, Error)]
pub enum EntryError {
    /// The function has no code.
    #[error("the function is empty")]
    Empty,
    /// The function extends past the end of the image.
    #[error("the function is outside of the image")]
    OutsideOfImage,
    /// The function begins before the end of one that is listed earlier.
    #[error("the function overlaps one that is listed before it")]
    Overlapping,
    /// The image has no bytes at the address of the unwind info, or too few.
    #[error("the unwind info is outside of the image")]
    InfoOutsideOfImage,
    /// The low two bits of the entry's unwind data have the value that is reserved.
    #[error("the unwind data has a reserved flag")]
    ReservedFlag,
    /// The unwind info is not of version 0.
    #[error("the unwind info has an unknown version")]
    UnknownVersion,
    /// The unwind info has a code without a meaning.
    #[error("the unwind info has an unknown code")]
    UnknownCode,
    /// A code belongs to a stack that isn't a function's frame: trap_frame, machine_frame, context, ec_context or
    /// clear_unwound_to_call.
    #[error("the unwind info has a code of a custom stack")]
    CustomStack,
    /// A code belongs to a frame with scalable vectors: alloc_z.
    #[error("the unwind info has a code of scalable vectors")]
    ScalableVectors,
    /// A code can name any register: save_any_reg.
    #[error("the unwind info has a code that saves any register")]
    AnyRegister,
    /// A code saves a register after x30.
    #[error("the unwind info has a code of an unknown register")]
    UnknownRegister,
    /// A save_next code isn't followed by the code of a pair, or there is no next pair.
    #[error("the unwind info has a save_next code without a pair")]
    NextOfNoPair,
    /// The unwind codes extend past the end of the unwind info, or have no end code.
    #[error("the unwind codes reach past the end of the unwind info")]
    CodesCut,
    /// x29 was set before it was stored, so the stored value isn't the caller's.
    #[error("the unwind info stores x29 behind the instruction that sets it")]
    FrameLost,
    /// An epilogue begins before the end of one that is listed earlier.
    #[error("an epilogue begins before the end of the one before it")]
    EpiloguesOverlap,
    /// An epilogue extends past the function's end.
    #[error("an epilogue is outside of its function")]
    EpilogueOutsideOfFunction,
    /// Packed unwind data saves a set of registers for which there is no canonical prologue.
    #[error("the packed unwind data has an unknown set of registers")]
    PackedRegisters,
    /// The frame of packed unwind data is smaller than the registers that are saved in it.
    #[error("the packed unwind data has a frame that is too small")]
    PackedFrame,
}

/// Why reading an entry of the exception directory ended early.
#[derive(Debug, Clone, Copy, PartialEq, Eq)]
pub enum UnwindError {
    /// The entry gets no records; other entries aren't affected.
    Refused(EntryError),
    /// Memory ran out.
    OutOfMemory,
}

impl From<EntryError> for UnwindError {
    ghost use Rattle.std.specs.Prelude.{◌≡◌};
    ghost use Rattle.pe_unwind_arm64.specs.declared.unwind_errors.UnwindError.TheVariants.{Refused};

    ghost from_gives = { λ refusal fault. fault ≡ Refused refusal };

    fn from(refusal: EntryError) -> UnwindError {
        UnwindError::Refused(refusal)
    }
}

impl From<AllocError> for UnwindError {
    ghost use Rattle.std.specs.Prelude.{◌≡◌};
    ghost use Rattle.pe_unwind_arm64.specs.declared.unwind_errors.UnwindError.TheVariants.{OutOfMemory};

    ghost from_gives = { λ _ fault. fault ≡ OutOfMemory };

    fn from(_error: AllocError) -> UnwindError {
        UnwindError::OutOfMemory
    }
}

impl<T: Drop> From<AllocFailed<T>> for UnwindError {
    ghost use Rattle.std.specs.Prelude.{◌≡◌};
    ghost use Rattle.pe_unwind_arm64.specs.declared.unwind_errors.UnwindError.TheVariants.{OutOfMemory};

    ghost from_gives = { λ _ fault. fault ≡ OutOfMemory };

    fn from(_error: AllocFailed<T>) -> UnwindError {
        UnwindError::OutOfMemory
    }
}
