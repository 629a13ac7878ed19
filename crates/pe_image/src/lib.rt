//! A program file (an EXE or a DLL, PE32 or PE32+): its headers, the bytes at its addresses, and its directories.
//!
//! The result of each call is defined over the bytes of the file, in specs/Headers.antt, specs/Image.antt and one file
//! for each directory. Each call is proved to return it for all bytes.
#![tactic(auto)]

mod arm64_directory;
mod debug_directory;
mod exception_directory;
mod headers;
mod image;
mod numbers_at;

pub use arm64_directory::{Arm64Entry, IMAGE_FILE_MACHINE_ARM64, arm64_entries, is_arm64};
pub use debug_directory::{DebugEntry, IMAGE_DEBUG_TYPE_CODEVIEW, debug_entries};
pub use exception_directory::{FunctionEntry, function_entries, function_entry_at};
pub use image::{
    DataDirectory, IMAGE_FILE_MACHINE_AMD64, IMAGE_SCN_MEM_EXECUTE, Image, Section, read_image,
};
pub use numbers_at::{bytes_at, u16_at, u32_at, u64_at};
