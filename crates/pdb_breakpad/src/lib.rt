//! Breakpad symbol files: the function, the line and the inlined calls at each address, as text.
//!
//! [`write_symbol_file`] walks over all addresses of a program, and asks a [`FrameSource`] for their frames. A reader
//! of the file finds at each address the frames that the source answered there.
#![tactic(auto)]

mod address_spans;
mod cache_shares;
mod frame_source;
mod function_records;
mod function_walk;
mod inline_records;
mod module_record;
mod name_text;
mod numbered_code;
mod pieces;
mod record_numbers;
mod shown_names;
mod symbol_file;
mod symbol_file_error;

pub use frame_source::FrameSource;
pub use module_record::{ModuleIdentity, ProgramIdentity};
pub use symbol_file::write_symbol_file;
pub use symbol_file_error::SymbolFileError;
