//! Writes modules, contributions and the machine type as JSON.

use crate::export_error::ExportError;
use crate::json_names::kind_name;
use crate::members::{ToJson, member};
use crate::sections::section_offset;
use json::Writer;
use pdb_json_records::MACHINES;
use pdb_records::{DebugInformation, MachineType, Module, SectionContribution};

impl ToJson for MachineType {
    fn to_json(&self, text: &mut Writer) -> Result<(), ExportError> {
        kind_name(text, &MACHINES, *self)
    }
}

impl ToJson for Module {
    fn to_json(&self, text: &mut Writer) -> Result<(), ExportError> {
        text.begin_object()?;
        member(text, "name", &self.name)?;
        Ok(text.end_object()?)
    }
}

impl ToJson for SectionContribution {
    fn to_json(&self, text: &mut Writer) -> Result<(), ExportError> {
        text.begin_object()?;
        section_offset(text, self.offset)?;
        member(text, "size", &self.size)?;
        member(text, "module", &self.module)?;
        Ok(text.end_object()?)
    }
}

impl ToJson for DebugInformation {
    fn to_json(&self, text: &mut Writer) -> Result<(), ExportError> {
        text.begin_object()?;
        member(text, "machine_type", &self.machine_type)?;
        member(text, "modules", &self.modules)?;
        member(text, "section_contributions", &self.section_contributions)?;
        Ok(text.end_object()?)
    }
}
