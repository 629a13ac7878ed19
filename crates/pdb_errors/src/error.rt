//! `Error`: why a call has no answer, in this crate and those above it.

ghost use Rattle.std.specs.Prelude.{◌≡◌, ◌≢◌, MatchResult};
ghost use Rattle.pdb_records.specs.declared.error.Error.TheVariants.{Stream};
ghost use Rattle.pdb_errors.specs.declared.error.Error.TheVariants.{FormatError, PdbError, OutOfMemory};

use pdb_records::StreamError;
use std::alloc::{AllocError, AllocFailed};
use std::fmt;

/// A result, by default with this crate's error.
pub type Result<V, E = Error> = std::result::Result<V, E>;

/// Why a call has no answer.
#[derive(Debug, Drop, thiserror::Error)]
pub enum Error {
    /// The writer refused a text.
    #[error("Formatting error: {0}")]
    FormatError(fmt::Error),
    /// A stream of the records can't be read, or the records don't have what was asked for.
    #[error("PDB error: {0}")]
    PdbError(pdb_records::Error),
    /// The index of an argument list leads to another kind of type.
    #[error("Unexpected type for argument list")]
    ArgumentTypeNotArgumentList,
    /// The type of a function's id isn't a procedure type.
    #[error("Id of type Function doesn't have type of Procedure")]
    FunctionIdIsNotProcedureType,
    /// The type of a member function's id isn't a member function type.
    #[error("Id of type MemberFunction doesn't have type of MemberFunction")]
    MemberFunctionIdIsNotMemberFunctionType,
    /// Never returned: contributions of a module may be in any order in each section.
    #[error("There are consecutive section contributions for module {0} and section {1} which are not ordered by offset")]
    UnorderedSectionContributions(usize, u16),
    /// Two contributions to a section claim the same bytes.
    #[error("Overlapping section contributions in section {0} from modules {1} and {2}")]
    OverlappingSectionContributions(u16, usize, usize),
    /// The lines of this function failed before.
    #[error("Getting the procedure lines was unsuccessful")]
    ProcedureLinesUnsuccessful,
    /// The inline ranges of this procedure failed before.
    #[error("Getting the procedure inline ranges was unsuccessful")]
    ProcedureInlineRangesUnsuccessful,
    /// The line program or the inlinees of this module failed before.
    #[error("Getting the extended module info was unsuccessful")]
    ExtendedModuleInfoUnsuccessful,
    /// A cross-module index can't be resolved, because there is no string table with the modules' names.
    #[error("Could not resolve cross-module reference due to missing string table")]
    CantResolveCrossModuleRefWithoutStringTable,
    /// The imports of this module failed before.
    #[error("Getting the module imports was unsuccessful")]
    ModuleImportsUnsuccessful,
    /// No module has this name, which is given in lower case.
    #[error("Could not find the module with name {0}")]
    ModuleNameNotFound(String),
    /// The exports of this module failed before.
    #[error("Getting the module exports was unsuccessful")]
    ModuleExportsUnsuccessful,
    /// The module from which an index is imported exports nothing for this number.
    #[error("The local index {0} was not found in the module exports")]
    LocalIndexNotInExports(u32),
    /// The list of modules doesn't have this module index.
    #[error("The module index {0} was out-of-range.")]
    OutOfRangeModuleIndex(usize),
    /// The module has no records of its own.
    #[error("Could not get the ModuleInfo for module index {0}")]
    ModuleInfoNotFound(usize),
    /// The type of this index contains itself.
    #[error("Type with index {0} is circular")]
    CircularTypeDefinition(u32),
    /// Memory ran out before there was an answer. The same call may succeed later.
    #[error("Out of memory")]
    OutOfMemory,
    /// The end of a contribution doesn't fit 32 bits.
    #[error("The end of a section contribution of module {0} in section {1} does not fit 32 bits")]
    SectionContributionEndTooLarge(usize, u16),
}

impl Error {
    /// The error, unless memory ran out. That memory ran out isn't a property of the records, and becomes `AllocError`:
    /// the same call may succeed later.
    pub fn unless_out_of_memory(self) -> Result<Error, AllocError>
        ensures { MatchResult result
            (λ error. (error ≡ self) × (self ≢ OutOfMemory))
            (λ _. self ≡ OutOfMemory) }
    {
        match self {
            Error::OutOfMemory => Err(AllocError),
            error => Ok(error),
        }
    }
}

impl From<StreamError> for Error {
    ghost from_gives = { λ e r. r ≡ PdbError (Stream e) };

    fn from(error: StreamError) -> Error {
        Error::PdbError(pdb_records::Error::Stream(error))
    }
}

impl From<pdb_records::Error> for Error {
    ghost from_gives = { λ e r. r ≡ PdbError e };

    fn from(error: pdb_records::Error) -> Error {
        Error::PdbError(error)
    }
}

impl From<fmt::Error> for Error {
    ghost from_gives = { λ e r. r ≡ FormatError e };

    fn from(error: fmt::Error) -> Error {
        Error::FormatError(error)
    }
}

impl From<AllocError> for Error {
    ghost from_gives = { λ _ r. r ≡ OutOfMemory };

    fn from(_error: AllocError) -> Error {
        Error::OutOfMemory
    }
}

impl<T: Drop> From<AllocFailed<T>> for Error {
    ghost from_gives = { λ _ r. r ≡ OutOfMemory };

    fn from(_error: AllocFailed<T>) -> Error {
        Error::OutOfMemory
    }
}
