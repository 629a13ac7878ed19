//! Records files with a change in their text, and the expected fault.

use crate::reading_texts::is_wanted;
use pdb_json::read_records;
use std::alloc::{AllocError, Global};

/// The parts of a text before and after another one that it contains.
pub(crate) fn around<'t>(text: &'t str, inner: &str) -> Option<(&'t str, &'t str)> {
    text.split_once(inner)
}

/// The three parts of a line that two ` => ` separate.
pub(crate) fn parts(line: &str) -> Option<(&str, &str, &str)> {
    let (old, rest) = around(line, " => ")?;
    let (new, wanted) = around(rest, " => ")?;
    Some((old, new, wanted))
}

/// Texts joined.
pub(crate) fn joined(alloc: Global, texts: &[&str]) -> Result<String, AllocError> {
    let mut joined = String::new(alloc);
    for text in texts {
        joined.push_str(text)?;
    }
    Ok(joined)
}

/// A text in which `old` is replaced by `new`.
pub(crate) fn changed(alloc: Global, text: &str, old: &str, new: &str) -> Option<String> {
    let (before, after) = around(text, old)?;
    joined(alloc, &[before, new, after]).ok()
}

/// Whether a text with the change in a line has the expected answer.
pub(crate) fn is_answered(alloc: Global, text: &str, line: &str) -> bool {
    let Some((old, new, wanted)) = parts(line) else {
        return false;
    };
    changed(alloc, text, old, new).is_some_and(|text| {
        is_wanted(alloc, &read_records(alloc, text.as_bytes()), wanted)
    })
}
