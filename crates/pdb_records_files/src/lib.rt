//! Reads the module files that a records file names, for programs that get the path of a records file.
#![tactic(auto)]

mod module_files;
mod module_paths;

pub use module_files::{ModuleFileError, ran_out_of_memory, read_module_files};
pub use module_paths::module_path;
