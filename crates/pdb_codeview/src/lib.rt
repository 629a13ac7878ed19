//! Reads CodeView data of a program: symbols, files, lines, inlinees, imports and exports.
//!
//! Each call reads one list from its bytes. A broken list ends early, with one of the numbers of `pdb_msf::faults`.
#![tactic(auto)]

mod annotation_rows;
mod annotations;
mod chunks;
mod cross_modules;
mod files;
mod inline_sites;
mod inlinees;
mod line_program;
mod line_rows;
mod line_subsections;
mod places;
mod procedure_spans;
mod symbol_contents;
mod symbol_layout;
mod symbol_records;

pub use cross_modules::{read_exports, read_imports};
pub use files::{Files, read_files};
pub use inline_sites::CodeRecords;
pub use inlinees::{Inlinees, read_inlinees};
pub use line_program::program_entries;
pub use line_subsections::{LineSubsection, read_lines};
pub use places::place;
pub use procedure_spans::{ProcedureSpan, span_of, symbol_spans};
pub use symbol_contents::{S_TRAMPOLINE, read_global_symbols, read_symbols};
