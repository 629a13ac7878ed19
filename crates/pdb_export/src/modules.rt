//! Writes the records of a module as JSON: symbols, lines, inlinees, imports, exports.

use crate::export_error::ExportError;
use crate::members::{ToJson, member};
use json::Writer;
use pdb_records::{CrossModuleExports, CrossModuleImports, ImportedModule, ModuleInfo};

impl ToJson for ImportedModule {
    fn to_json(&self, text: &mut Writer) -> Result<(), ExportError> {
        text.begin_object()?;
        member(text, "module", &self.module)?;
        member(text, "locals", &self.locals)?;
        Ok(text.end_object()?)
    }
}

impl ToJson for CrossModuleImports {
    fn to_json(&self, text: &mut Writer) -> Result<(), ExportError> {
        self.modules.to_json(text)
    }
}

impl ToJson for (u32, u32) {
    /// Writes an export: its number, and the index of the type or id.
    fn to_json(&self, text: &mut Writer) -> Result<(), ExportError> {
        text.begin_object()?;
        member(text, "local", &self.0)?;
        member(text, "global", &self.1)?;
        Ok(text.end_object()?)
    }
}

impl ToJson for CrossModuleExports {
    fn to_json(&self, text: &mut Writer) -> Result<(), ExportError> {
        self.exports.to_json(text)
    }
}

impl ToJson for ModuleInfo {
    fn to_json(&self, text: &mut Writer) -> Result<(), ExportError> {
        text.begin_object()?;
        member(text, "symbols", &self.symbols)?;
        member(text, "line_program", &self.line_program)?;
        member(text, "inlinees", &self.inlinees)?;
        member(text, "imports", &self.imports)?;
        member(text, "exports", &self.exports)?;
        Ok(text.end_object()?)
    }
}
