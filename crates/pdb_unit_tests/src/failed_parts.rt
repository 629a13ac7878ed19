//! Checks of sets of failed parts.

use crate::checks::Checks;
use pdb_errors::Error;
use pdb_records::StreamError;
use pdb_types::{FailedParts, Part};
use std::alloc::{AllocError, Global};

/// Whether a part that is found broken returns this error, and has failed then.
fn fails_with(
    alloc: Global,
    failed: &mut FailedParts,
    part: Part,
    wanted: &str,
) -> Result<bool, AllocError> {
    let error = failed.fail(part, Error::from(StreamError(9)))?;
    let text = format!(in alloc; "{error}")?;
    Ok(text.as_str() == wanted && failed.has_failed(part))
}

/// Whether a part that has not failed returns its own error once, and from then on that it failed.
fn fails_once(
    alloc: Global,
    failed: &mut FailedParts,
    part: Part,
    again: &str,
) -> Result<bool, AllocError> {
    Ok(
        !failed.has_failed(part)
            && fails_with(alloc, failed, part, "PDB error: stream error 9")?
            && fails_with(alloc, failed, part, again)?
            && fails_with(alloc, failed, part, again)?,
    )
}

/// Whether a part has failed after it was found broken, and not if no part was.
fn is_added(failed: &mut FailedParts, part: Part) -> bool {
    failed.add_met(None).is_ok()
        && !failed.has_failed(part)
        && failed.add_met(Some(part)).is_ok()
        && failed.has_failed(part)
}

/// Whether two parts that are found broken return their own errors once, and an added part has failed.
fn answers_own_error_once(alloc: Global) -> Result<bool, AllocError> {
    let mut failed = FailedParts::new(alloc);
    let imports = "Getting the module imports was unsuccessful";
    let exports = "Getting the module exports was unsuccessful";
    Ok(
        fails_once(alloc, &mut failed, Part::Imports(3), imports)?
            && fails_once(alloc, &mut failed, Part::Exports(3), exports)?
            && is_added(&mut failed, Part::Imports(0)),
    )
}

/// The checks of failed parts.
pub(crate) fn checks(alloc: Global) -> Checks {
    Checks::NONE.and_tried(
        "a part that answers its own error once",
        answers_own_error_once(alloc),
    )
}
