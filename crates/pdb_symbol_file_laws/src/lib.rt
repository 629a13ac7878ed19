//! Laws of Breakpad symbol files: a plain reader of the text finds what was written.
//!
//! The reader is a definition that follows the format alone, not how the text is written. Each function here does
//! nothing. Its contract states a law, which the checker proves.
#![tactic(auto)]

pub mod shown_answers;
pub mod small_file;
pub mod symbol_file_texts;
