//! `FailedParts`: the imports and exports of modules that were found broken, and the error for each.

ghost use Rattle.pdb_types.specs.FailedParts.{unsuccessful_part};

use crate::read_error::Part;
use pdb_errors::{BrokenPart, Error, PartSet};

/// The parts of the records that were found broken.
pub type FailedParts = PartSet<Part>;

impl BrokenPart for Part {
    ghost unsuccessful_of = { unsuccessful_part };

    fn unsuccessful(self) -> Error {
        match self {
            Part::Imports(_) => Error::ModuleImportsUnsuccessful,
            Part::Exports(_) => Error::ModuleExportsUnsuccessful,
        }
    }
}
