//! Reads the debug information stream of a PDB file (DBI): its header, modules, section contributions and sections.
//!
//! The meaning of its bytes is defined in `specs/`. Each call returns this meaning, or that memory ran out.
#![tactic(auto)]

mod contribution_substream;
mod debug_header;
mod module_substream;
mod optional_streams;
mod section_headers;
mod substreams;

pub use contribution_substream::read_contributions;
pub use debug_header::{DebugHeader, read_header};
pub use module_substream::{ModuleStream, read_modules};
pub use optional_streams::{optional_stream, stream_number};
pub use section_headers::{map_addresses, read_sections};
pub use substreams::{Substream, take_substream};
