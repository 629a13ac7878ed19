//! What a run of `pdb_symbolizer` reads: its command line, and the files that addresses belong to.
//!
//! [`command_line::parse`] makes [`options::Options`] from the arguments. [`opened_files::open_file`] opens a session over
//! the file that they name: a PDB file, or a program, whose PDB file is looked for at the path that the program has for
//! it, beside the program, and in folders. [`kept_files::KeptFiles`] keeps files open between requests. An error of any
//! call is a [`run_errors::RunError`], which has a message and an exit status.
#![tactic(auto)]

mod arguments;
pub mod command_line;
pub mod environment;
pub mod file_bytes;
mod file_cache;
pub mod file_stamps;
pub mod folder_listings;
pub mod folder_places;
mod foreign_files;
pub mod identities;
pub mod image_bases;
pub mod input_files;
pub mod kept_files;
pub mod known_programs;
pub mod known_texts;
pub mod opened_files;
pub mod options;
pub mod paths;
pub mod programs;
mod record_sizes;
pub mod repair_lines;
mod response_files;
pub mod run_errors;
pub mod status_line;
