//! `OmittedFrameData`: entries that get no record, and why.

use thiserror::Error;

/// Why an entry of frame data or FPO data gets no record.
#[derive(Debug, Clone, Copy, PartialEq, Eq, Error)]
pub enum FrameDataError {
    /// The entry covers no code.
    #[error("the frame data covers no code")]
    Empty,
    /// The entry extends past the last 32-bit address.
    #[error("the frame data reaches past the end of the address space")]
    TooLarge,
    /// There is no program string at the offset that the entry names.
    #[error("the frame data names a program string that isn't there")]
    NoProgram,
    /// The program string has more than 4095 bytes.
    #[error("the program string of the frame data is longer than 4095 bytes")]
    LongProgram,
    /// The program string isn't UTF-8, or has control characters.
    #[error("the program string of the frame data isn't text")]
    BadProgram,
}

/// An entry that gets no record.
#[derive(Debug, Clone, Copy, PartialEq, Eq)]
pub struct OmittedFrameData {
    /// The address of its code's first byte, relative to the image base.
    pub rva: u32,
    pub why: FrameDataError,
}
