//! Writes names as JSON strings, or as arrays of bytes if they aren't UTF-8, and the names of kinds.

use crate::export_error::ExportError;
use crate::members::ToJson;
use json::Writer;
use pdb_records::RawString;
use std::str;

/// Writes the name of a kind, or `Other` if it isn't in the list.
pub(crate) fn kind_name<T: Copy + PartialEq>(
    text: &mut Writer,
    names: &[(&str, T)],
    kind: T,
) -> Result<(), ExportError> {
    for (name, known) in names {
        if *known == kind {
            return name.to_json(text);
        }
    }
    "Other".to_json(text)
}

impl ToJson for &str {
    fn to_json(&self, text: &mut Writer) -> Result<(), ExportError> {
        Ok(text.string(self)?)
    }
}

impl ToJson for String {
    fn to_json(&self, text: &mut Writer) -> Result<(), ExportError> {
        self.as_str().to_json(text)
    }
}

impl ToJson for RawString {
    /// Writes a name: a string if it is UTF-8, otherwise an array of its bytes.
    fn to_json(&self, text: &mut Writer) -> Result<(), ExportError> {
        match str::from_utf8(&self.0) {
            Ok(name) => name.to_json(text),
            Err(_) => self.0.to_json(text),
        }
    }
}
