//! Writes numbers, indices and booleans as JSON.

use crate::export_error::ExportError;
use crate::members::ToJson;
use json::Writer;
use pdb_records::{FileIndex, FileInfo, IdIndex, Inlinee, StringRef, SymbolIndex, TypeIndex};

impl ToJson for bool {
    fn to_json(&self, text: &mut Writer) -> Result<(), ExportError> {
        Ok(text.boolean(*self)?)
    }
}

impl ToJson for u64 {
    fn to_json(&self, text: &mut Writer) -> Result<(), ExportError> {
        Ok(text.u64(*self)?)
    }
}

impl ToJson for u32 {
    fn to_json(&self, text: &mut Writer) -> Result<(), ExportError> {
        u64::from(*self).to_json(text)
    }
}

impl ToJson for u16 {
    fn to_json(&self, text: &mut Writer) -> Result<(), ExportError> {
        u64::from(*self).to_json(text)
    }
}

impl ToJson for u8 {
    fn to_json(&self, text: &mut Writer) -> Result<(), ExportError> {
        u64::from(*self).to_json(text)
    }
}

impl ToJson for i64 {
    fn to_json(&self, text: &mut Writer) -> Result<(), ExportError> {
        Ok(text.i64(*self)?)
    }
}

impl ToJson for usize {
    /// Writes a position, which must fit 32 bits.
    fn to_json(&self, text: &mut Writer) -> Result<(), ExportError> {
        match u32::try_from(*self) {
            Ok(position) => position.to_json(text),
            Err(_) => Err(ExportError::NoRoom),
        }
    }
}

impl ToJson for TypeIndex {
    fn to_json(&self, text: &mut Writer) -> Result<(), ExportError> {
        self.0.to_json(text)
    }
}

impl ToJson for IdIndex {
    fn to_json(&self, text: &mut Writer) -> Result<(), ExportError> {
        self.0.to_json(text)
    }
}

impl ToJson for Inlinee {
    fn to_json(&self, text: &mut Writer) -> Result<(), ExportError> {
        self.index.to_json(text)
    }
}

impl ToJson for SymbolIndex {
    fn to_json(&self, text: &mut Writer) -> Result<(), ExportError> {
        self.0.to_json(text)
    }
}

impl ToJson for FileIndex {
    fn to_json(&self, text: &mut Writer) -> Result<(), ExportError> {
        self.0.to_json(text)
    }
}

impl ToJson for FileInfo {
    fn to_json(&self, text: &mut Writer) -> Result<(), ExportError> {
        self.name.to_json(text)
    }
}

impl ToJson for StringRef {
    fn to_json(&self, text: &mut Writer) -> Result<(), ExportError> {
        self.0.to_json(text)
    }
}
