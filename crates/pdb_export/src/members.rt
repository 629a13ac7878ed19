//! Writes members of JSON objects, lists, readings with their faults, and streams that can't be read.

use crate::export_error::ExportError;
use json::Writer;
use pdb_records::{Reading, StreamError};

/// A value that can be written into a records file.
pub(crate) trait ToJson {
    /// Writes the value.
    fn to_json(&self, text: &mut Writer) -> Result<(), ExportError>;
}

/// Writes a member of an object.
pub(crate) fn member<T: ToJson>(
    text: &mut Writer,
    name: &str,
    value: &T,
) -> Result<(), ExportError> {
    text.key(name)?;
    value.to_json(text)
}

/// Writes a member of an object, if it has a value.
pub(crate) fn optional<T: ToJson>(
    text: &mut Writer,
    name: &str,
    value: &Option<T>,
) -> Result<(), ExportError> {
    match value {
        Some(value) => member(text, name, value),
        None => Ok(()),
    }
}

impl<T: ToJson> ToJson for Option<T> {
    fn to_json(&self, text: &mut Writer) -> Result<(), ExportError> {
        match self {
            Some(value) => value.to_json(text),
            None => Ok(text.null()?),
        }
    }
}

impl<T: ToJson> ToJson for Vec<T> {
    fn to_json(&self, text: &mut Writer) -> Result<(), ExportError> {
        text.begin_array()?;
        for value in self {
            value.to_json(text)?;
        }
        Ok(text.end_array()?)
    }
}

impl<T: ToJson> ToJson for Reading<T> {
    fn to_json(&self, text: &mut Writer) -> Result<(), ExportError> {
        match self.fault {
            None => self.items.to_json(text),
            Some(fault) => faulty(text, &self.items, fault),
        }
    }
}

/// Writes the items of a list, and the fault at which it ends early.
fn faulty<T: ToJson>(
    text: &mut Writer,
    items: &Vec<T>,
    fault: StreamError,
) -> Result<(), ExportError> {
    text.begin_object()?;
    member(text, "items", items)?;
    member(text, "fault", &fault.0)?;
    Ok(text.end_object()?)
}

impl<T: ToJson> ToJson for Result<T, StreamError> {
    fn to_json(&self, text: &mut Writer) -> Result<(), ExportError> {
        match self {
            Ok(value) => value.to_json(text),
            Err(error) => failed(text, *error),
        }
    }
}

/// Writes the error of a stream that can't be read.
fn failed(text: &mut Writer, error: StreamError) -> Result<(), ExportError> {
    text.begin_object()?;
    member(text, "error", &error.0)?;
    Ok(text.end_object()?)
}
