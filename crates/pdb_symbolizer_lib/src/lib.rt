//! The work of `pdb_symbolizer`: prints functions, files and lines at a Windows program's addresses, by its PDB file.
//!
//! [`run_words`] takes the words of a command line, opens the file that they name, and prints an answer for each
//! address in the styles of `llvm-symbolizer`. With other options it writes the records as a records file, writes a
//! Breakpad symbol file, or answers requests of the symbolication API. The program passes the words, and standard input
//! and output through its runtime.
#![tactic(auto)]

mod base_hints;
mod export_files;
mod file_answers;
mod frame_answers;
mod frame_data_records;
mod known_modules;
mod line_answers;
mod line_queue;
mod named_file_lines;
mod outputs;
mod public_names;
mod questions;
mod run_state;
mod source_lines;
mod symbol_files;
mod symbol_stores;
mod symbolication;
mod symbolized_modules;
mod symbolizer_runs;
mod unopened_files;
mod unwind_records;
mod word_answers;

pub use pdb_symbolizer_input::run_errors::RunError;
pub use pdb_symbolizer_input::status_line::StatusLine;
pub use symbolizer_runs::run_words;
