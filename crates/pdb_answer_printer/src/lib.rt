//! The texts of `pdb_symbolizer`'s answers: frames in the styles of LLVM and GNU, or as JSON.
//!
//! [`write_answer`] appends the answer for a code address, [`write_unknown`] the answer that nothing is known, and
//! [`write_json_error`] the JSON object for a file that can't be opened. The text that each appends is defined in
//! `specs/`.
#![tactic(auto)]

mod answer_lines;
mod answer_text;
mod base_names;
mod frame_names;
mod input_file_names;
mod input_line;
mod input_line_parser;
mod input_numbers;
mod input_words;
mod json_frames;
mod json_objects;
mod printer_options;
mod source_texts;

pub use answer_text::{write_answer, write_unknown};
pub use base_names::base_name;
pub use frame_names::{file_of, shown_frames};
pub use input_line::{InputLine, InputTarget, Lack, Sort};
pub use input_line_parser::parse_input_line;
pub use input_numbers::{parse_address, parse_number};
pub use json_objects::write_json_error;
pub use printer_options::{Detail, Digits, NameStyle, PrinterOptions, Style};
pub use source_texts::SourceText;
