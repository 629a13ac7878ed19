//! The parts from which a session builds a reader that reads a file piece by piece.

pub use crate::debug_records::{DEBUG, SECTIONS, debug_stream};
pub use crate::front::{Front, IDS, TYPES, read_front};
pub use crate::info::{Features, INFO, InfoStream};
pub use crate::module_places::{ModuleInfoResult, ModulePlace, module_in_stream};
pub use crate::pdb_file::NAMES;
pub use crate::pdb_file_error::{code_refusal, refusal_of};
pub use crate::unnamed_code::{has_unnamed_code, name_unnamed_code};
