//! The identity of a program and its PDB file: the GUID and the age that a linker writes into both.
#![tactic(auto)]

mod code_id;
mod code_view;
mod debug_id;
mod info_header;
mod machine;
mod program_file;

pub use code_id::CodeId;
pub use code_view::CodeView;
pub use debug_id::{CompactDebugId, DebugId};
pub use info_header::InfoHeader;
pub use machine::Machine;
pub use program_file::{ProgramFile, read_program};
