//! Files in which a member has another value, or is absent.

use crate::changes::{around, joined};
use crate::reading_texts::is_wanted;
use crate::tally::Tally;
use pdb_json::read_records;
use serde_json::Value;
use std::alloc::Global;

/// The word for a removed member, instead of a value.
const ABSENT: &str = "absent";

/// The path to the parent of the value at a path, and the value's name or number there.
fn parts(path: &str) -> (&str, &str) {
    path.rsplit_once('/').unwrap_or(("", ""))
}

/// Whether the value at a path is an element, which can't be absent.
fn is_element(path: &str) -> bool {
    let (_, name) = parts(path);
    name.parse::<u32>().is_ok()
}

/// Removes the member at a path from a file, and returns whether it was there.
fn remove(file: &mut Value, path: &str) -> bool {
    let (outer, name) = parts(path);
    match file.pointer_mut(outer) {
        Some(Value::Object(members)) => members.remove(name).is_some(),
        _ => false,
    }
}

/// Replaces the value at a path, and returns whether there was one.
fn replace(file: &mut Value, path: &str, value: Value) -> bool {
    match file.pointer_mut(path) {
        Some(place) => {
            *place = value;
            true
        }
        None => false,
    }
}

/// Changes the value at a path, and returns whether that was possible.
fn change(alloc: Global, file: &mut Value, path: &str, new: &str) -> bool {
    if new == ABSENT {
        return remove(file, path);
    }
    Value::from_str(alloc, new).is_ok_and(|value| replace(file, path, value))
}

/// A file with another value at a path.
fn changed(alloc: Global, text: &str, path: &str, new: &str) -> Option<String> {
    let mut file = Value::from_str(alloc, text).ok()?;
    if !change(alloc, &mut file, path, new) {
        return None;
    }
    file.to_string(alloc).ok()
}

/// The text before the fault in a result: the path, or nothing before `read`.
fn before<'t>(path: &'t str, fault: &str) -> &'t str {
    if fault == "read" { "" } else { path }
}

/// Whether reading a file gives this fault after a path, or `read`.
fn is_read_as(alloc: Global, text: &[u8], path: &str, fault: &str) -> bool {
    joined(alloc, &[before(path, fault), fault]).is_ok_and(|wanted| {
        is_wanted(alloc, &read_records(alloc, text), wanted.as_str())
    })
}

/// Whether reading a file with another value at a path gives this fault after the path, or `read`.
fn is_answered(alloc: Global, text: &str, path: &str, new: &str, fault: &str) -> bool {
    changed(alloc, text, path, new).is_some_and(|text| {
        is_read_as(alloc, text.as_bytes(), path, fault)
    })
}

/// Makes the change of a part `VALUE FAULT` of a line, if it can be made.
fn over_case(alloc: Global, text: &str, path: &str, case: &str) -> Tally {
    let (new, fault) = around(case, " ").unwrap_or(("", ""));
    if new == ABSENT && is_element(path) {
        return Tally::NOTHING;
    }
    Tally::of_case(is_answered(alloc, text, path, new, fault))
}

/// Makes each change of a member of this kind.
fn over_cases(alloc: Global, sorts: &str, text: &str, path: &str, wanted: &str) -> Tally {
    let mut tally = Tally::NOTHING;
    for line in sorts.lines() {
        match around(line, " ") {
            Some((sort, case)) if sort == wanted => {
                tally = tally.and(over_case(alloc, text, path, case));
            }
            _ => {}
        }
    }
    tally
}

/// Makes each change of the member of a line `PATH SORT`.
pub(crate) fn over_sorts(alloc: Global, sorts: &str, text: &str, line: &str) -> Tally {
    match around(line, " ") {
        Some((path, sort)) => over_cases(alloc, sorts, text, path, sort),
        None => Tally::of_case(false),
    }
}
