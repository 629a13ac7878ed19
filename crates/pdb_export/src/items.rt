//! Writes the list of types or of ids as JSON, each with its index, or with its error.

use crate::export_error::ExportError;
use crate::members::{ToJson, member};
use json::Writer;
use pdb_records::{Error, Item, ItemInformation};

/// A value that is written as members of an object, which has other members, too.
pub(crate) trait ToMembers {
    /// Writes the members.
    fn to_members(&self, text: &mut Writer) -> Result<(), ExportError>;
}

impl<I: ToJson, D: ToMembers> ToJson for ItemInformation<I, D> {
    fn to_json(&self, text: &mut Writer) -> Result<(), ExportError> {
        self.items.to_json(text)
    }
}

impl<I: ToJson, D: ToMembers> ToJson for Item<I, D> {
    fn to_json(&self, text: &mut Writer) -> Result<(), ExportError> {
        text.begin_object()?;
        member(text, "index", &self.index)?;
        match &self.content {
            Ok(content) => content.to_members(text)?,
            Err(error) => member(text, "error", error)?,
        }
        Ok(text.end_object()?)
    }
}

impl ToJson for Error {
    fn to_json(&self, text: &mut Writer) -> Result<(), ExportError> {
        text.begin_object()?;
        match self {
            Error::Stream(error) => member(text, "stream", &error.0)?,
            Error::UnimplementedTypeKind(kind) => member(text, "unimplemented", kind)?,
            _ => return Err(ExportError::NoRoom),
        }
        Ok(text.end_object()?)
    }
}
