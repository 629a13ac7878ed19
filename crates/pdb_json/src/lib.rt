//! Reads records files: all records of a program as one JSON text, or as one and a module file for each module.
//!
//! [`read_records`] and [`read_records_with`] read versions 1 and 2 of the format. [`module_files`] returns the module
//! files that a file names. A [`RecordsFile`] does both, and parses its text once. The meaning of texts is defined by
//! `records_of_files` in `specs/RecordsFile.antt`: the records, or the first fault with its path. `pdb_json_records`
//! reads the parts of the file, and `pdb_json_values` its values. Laws on the definitions are in [`records_file_laws`].
#![tactic(auto)]

mod json;
mod module_file_names;
mod module_info_values;
mod records_file;
pub mod records_file_laws;
mod versions;

pub use pdb_json_values::RecordFault;
pub use records_file::{RecordsFile, module_files, read_records, read_records_with};
