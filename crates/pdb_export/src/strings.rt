//! Writes the strings of the string table as JSON.

use crate::export_error::ExportError;
use crate::members::{ToJson, member};
use json::Writer;
use pdb_records::{RawString, StringRef, StringTable};

impl ToJson for (StringRef, RawString) {
    fn to_json(&self, text: &mut Writer) -> Result<(), ExportError> {
        text.begin_object()?;
        member(text, "ref", &self.0)?;
        member(text, "text", &self.1)?;
        Ok(text.end_object()?)
    }
}

impl ToJson for StringTable {
    fn to_json(&self, text: &mut Writer) -> Result<(), ExportError> {
        self.strings.to_json(text)
    }
}
