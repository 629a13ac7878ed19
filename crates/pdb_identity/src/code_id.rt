//! `CodeId`: the time stamp and the size by which symbol servers identify the file of a program.

use std::fmt;

/// Identifies a build of a program by its own file. The text is, for example, `6B32B9415000`: eight digits of the time
/// stamp, followed by those of the size.
#[derive(Debug, Clone, Copy, PartialEq, Eq)]
pub struct CodeId {
    /// When the program was linked, in seconds since 1970. If the linker was told to make reproducible files, this is a
    /// hash.
    pub time_stamp: u32,
    /// The size of the program in memory, in bytes (SizeOfImage).
    pub image_size: u32,
}

impl fmt::Display for CodeId {
    fn fmt<W: fmt::Write>(&self, f: &mut fmt::Formatter<W>) -> fmt::Result {
        write!(f, "{:08X}{:x}", self.time_stamp, self.image_size)
    }
}
