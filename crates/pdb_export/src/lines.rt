//! Writes line programs, their entries and rows as JSON.

use crate::export_error::ExportError;
use crate::members::{ToJson, member};
use crate::sections::section_offset;
use json::Writer;
use pdb_records::{LineInfo, LineProgram, SymbolLines};

impl ToJson for LineInfo {
    fn to_json(&self, text: &mut Writer) -> Result<(), ExportError> {
        text.begin_object()?;
        member(text, "offset", &self.offset)?;
        member(text, "file_index", &self.file_index)?;
        member(text, "line_start", &self.line_start)?;
        Ok(text.end_object()?)
    }
}

impl ToJson for SymbolLines {
    fn to_json(&self, text: &mut Writer) -> Result<(), ExportError> {
        text.begin_object()?;
        section_offset(text, self.offset)?;
        member(text, "lines", &self.lines)?;
        Ok(text.end_object()?)
    }
}

impl ToJson for LineProgram {
    fn to_json(&self, text: &mut Writer) -> Result<(), ExportError> {
        text.begin_object()?;
        member(text, "entries", &self.entries)?;
        member(text, "files", &self.files)?;
        Ok(text.end_object()?)
    }
}
