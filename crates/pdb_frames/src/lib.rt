//! The parts of a function's frames: line rows, file names and inlined bodies.
//!
//! The records of a module say from which line of which file its code comes, and which functions were inlined there.
//! This crate has the lookup of line rows, the names of files, the source of code, and the frames themselves.
#![tactic(auto)]

mod code_cache;
mod code_keys;
mod code_locations;
mod code_parts;
mod copies;
mod extended_info;
mod extended_infos;
mod file_names;
mod frame;
mod function_lines;
mod function_rows;
mod lent_names;
mod line_tables;
mod procedure_ranges;
mod symbol_inline_ranges;

pub use code_cache::CodeCache;
pub use code_locations::CodeLocation;
pub use code_parts::{CodePart, FailedCodeParts};
pub use copies::copy_of_name;
pub use extended_info::{ExtendedModuleInfo, compute_extended_module_info};
pub use file_names::FileNames;
pub use frame::{Frame, FunctionFrames};
pub use symbol_inline_ranges::compute_procedure_inline_ranges;
