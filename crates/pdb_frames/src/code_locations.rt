//! `CodeLocation`: the source of code, by its line row and inlined bodies.

use pdb_inline::InlineRange;
use pdb_records::{LineInfo, LineProgram};

/// The source of code at an offset.
#[derive(Drop)]
pub struct CodeLocation<'a> {
    /// The line program of its module, which names the files.
    pub line_program: &'a LineProgram,
    /// The line row that covers the code, if there is one.
    pub row: Option<LineInfo>,
    /// The inlined bodies that contain the code, the outermost first.
    pub stack: Vec<InlineRange>,
}
