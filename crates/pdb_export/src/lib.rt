//! Writes the records of a program as a records file of version 2, with modules in it or in files of their own.
//!
//! Each record of `pdb_records` has an `impl` of `ToJson` here, in a file of its subject. The text of the shared
//! records is written first, and then that of each module, so that only one of these texts is in memory at a time.
#![tactic(auto)]

mod debug_information;
mod export_error;
mod ids;
mod items;
mod json_names;
mod lines;
mod members;
mod modules;
mod numbers;
mod records_writer;
mod sections;
mod strings;
mod symbols;
mod types;

pub use export_error::ExportError;
pub use records_writer::{write_module, write_records};
