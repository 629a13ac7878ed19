//! Writes sections, address ranges and section offsets as JSON.

use crate::export_error::ExportError;
use crate::members::{ToJson, member};
use json::Writer;
use pdb_records::{AddressMap, AddressRange, ImageSectionHeader, PdbInternalSectionOffset};

/// Writes the two members of a section offset.
pub(crate) fn section_offset(
    text: &mut Writer,
    section_offset: PdbInternalSectionOffset,
) -> Result<(), ExportError> {
    member(text, "section", &section_offset.section)?;
    member(text, "offset", &section_offset.offset)
}

impl ToJson for ImageSectionHeader {
    fn to_json(&self, text: &mut Writer) -> Result<(), ExportError> {
        text.begin_object()?;
        member(text, "virtual_address", &self.virtual_address)?;
        member(text, "virtual_size", &self.virtual_size)?;
        member(text, "execute", &self.execute)?;
        Ok(text.end_object()?)
    }
}

impl ToJson for AddressRange {
    fn to_json(&self, text: &mut Writer) -> Result<(), ExportError> {
        text.begin_object()?;
        member(text, "virtual_address", &self.virtual_address)?;
        member(text, "virtual_size", &self.virtual_size)?;
        Ok(text.end_object()?)
    }
}

impl ToJson for AddressMap {
    fn to_json(&self, text: &mut Writer) -> Result<(), ExportError> {
        self.sections.to_json(text)
    }
}
