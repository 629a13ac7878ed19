//! The parts of the records of code that may be broken, and the error of one that failed before.

ghost use Rattle.pdb_frames.specs.CodeParts.{unsuccessful_code};

use pdb_errors::{BrokenPart, Error, PartSet};
use pdb_records::PdbInternalSectionOffset;

/// A part of the records of code that may be broken by itself, by its module index and, for a function's part, by the
/// start of the function.
#[derive(Clone, Copy, PartialEq, Eq, PartialOrd, Ord)]
pub enum CodePart {
    /// A module's extended info: its line program and its list of inlinees.
    ExtendedInfo(usize),
    /// The lines of a function.
    Lines(usize, PdbInternalSectionOffset),
    /// The inline ranges of a procedure.
    InlineRanges(usize, PdbInternalSectionOffset),
}

/// The parts of the records of code that were found broken.
pub type FailedCodeParts = PartSet<CodePart>;

impl BrokenPart for CodePart {
    ghost unsuccessful_of = { unsuccessful_code };

    fn unsuccessful(self) -> Error {
        match self {
            CodePart::ExtendedInfo(_) => Error::ExtendedModuleInfoUnsuccessful,
            CodePart::Lines(_, _) => Error::ProcedureLinesUnsuccessful,
            CodePart::InlineRanges(_, _) => Error::ProcedureInlineRangesUnsuccessful,
        }
    }
}
