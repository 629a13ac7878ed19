//! Checks of the texts of errors.

use crate::checks::Checks;
use pdb_errors::Error;
use std::alloc::Global;
use std::fmt;

/// The text for contributions of a module that are in no order.
const UNORDERED: &str =
    "There are consecutive section contributions for module 1 and section 2 which are not ordered by offset";

/// The text for inline ranges that failed before.
const RANGES_FAILED: &str = "Getting the procedure inline ranges was unsuccessful";

/// The text for a writer that refused.
const REFUSED: &str = "Formatting error: an error occurred when formatting an argument";

/// Whether an error prints this text.
pub(crate) fn says(alloc: Global, error: &Error, wanted: &str) -> bool {
    error
        .to_string(alloc)
        .is_ok_and(|text| text.as_str() == wanted)
}

/// The checks of error texts that no lookup returns in the runs of other crates.
pub(crate) fn checks(alloc: Global) -> Checks {
    let unordered = Error::UnorderedSectionContributions(1, 2);
    let ranges = Error::ProcedureInlineRangesUnsuccessful;
    Checks::NONE
        .and(
            "the text of want of memory",
            says(alloc, &Error::OutOfMemory, "Out of memory"),
        )
        .and(
            "the text of unordered contributions",
            says(alloc, &unordered, UNORDERED),
        )
        .and(
            "the text of failed inline ranges",
            says(alloc, &ranges, RANGES_FAILED),
        )
        .and(
            "the text of a writer that refused",
            says(alloc, &Error::from(fmt::Error), REFUSED),
        )
}
