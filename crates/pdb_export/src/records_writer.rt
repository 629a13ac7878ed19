//! Writes a records file, and module files: their members in order.

use crate::export_error::ExportError;
use crate::members::{ToJson, member};
use json::Writer;
use pdb_records::{ModuleInfo, PDB, StreamError};
use std::alloc::Global;
use std::io;

/// Writes the records as a records file of version 2.
///
/// `files` has the name of each module's file. If there is no name for a module, its records are written into the
/// records file itself. `write_module` writes a module file.
pub fn write_records<W: io::Write>(
    alloc: Global,
    out: &mut W,
    records: &PDB,
    files: &[String],
) -> Result<(), ExportError> {
    write_shared(alloc, out, records)?;
    for (position, info) in records.module_infos.iter().enumerate() {
        if position > 0 {
            write_bytes(out, b",")?;
        }
        write_element(alloc, out, info, files.get(position))?;
    }
    write_end(out, b"]}\n")
}

/// Writes the records of a module as a module file.
pub fn write_module<W: io::Write>(
    alloc: Global,
    out: &mut W,
    info: &ModuleInfo,
) -> Result<(), ExportError> {
    write_value(alloc, out, info)?;
    write_end(out, b"\n")
}

/// Writes the records up to those of the first module.
fn write_shared<W: io::Write>(
    alloc: Global,
    out: &mut W,
    records: &PDB,
) -> Result<(), ExportError> {
    let mut text = Writer::new(Vec::new(alloc));
    shared(&mut text, records)?;
    write_bytes(out, text.into_inner().as_slice())
}

/// Makes the text of the records up to those of the first module.
fn shared(text: &mut Writer, records: &PDB) -> Result<(), ExportError> {
    text.begin_object()?;
    member(text, "version", &2_u32)?;
    member(text, "sections", &records.sections)?;
    member(text, "address_map", &records.address_map)?;
    member(text, "global_symbols", &records.global_symbols)?;
    member(text, "debug_information", &records.debug_information)?;
    member(text, "type_information", &records.type_information)?;
    member(text, "id_information", &records.id_information)?;
    member(text, "string_table", &records.string_table)?;
    text.key("module_infos")?;
    Ok(text.begin_array()?)
}

/// Writes an element of the list of modules: the records of the module, or the name of its file.
fn write_element<W: io::Write>(
    alloc: Global,
    out: &mut W,
    info: &Result<Option<ModuleInfo>, StreamError>,
    file: Option<&String>,
) -> Result<(), ExportError> {
    match (info, file) {
        (Ok(Some(_)), Some(file)) => write_value(
            alloc,
            out,
            &ModuleFile {
                file: file.as_str(),
            },
        ),
        _ => write_value(alloc, out, info),
    }
}

/// The name of a module file.
#[derive(Drop)]
struct ModuleFile<'f> {
    file: &'f str,
}

impl ToJson for ModuleFile<'_> {
    fn to_json(&self, text: &mut Writer) -> Result<(), ExportError> {
        text.begin_object()?;
        member(text, "file", &self.file)?;
        Ok(text.end_object()?)
    }
}

/// Writes a complete value.
fn write_value<W: io::Write, T: ToJson>(
    alloc: Global,
    out: &mut W,
    value: &T,
) -> Result<(), ExportError> {
    let mut text = Writer::new(Vec::new(alloc));
    value.to_json(&mut text)?;
    write_bytes(out, text.into_inner().as_slice())
}

/// Writes the last bytes, and flushes the writer.
fn write_end<W: io::Write>(out: &mut W, bytes: &[u8]) -> Result<(), ExportError> {
    write_bytes(out, bytes)?;
    fault_of(out.flush())
}

/// Writes all bytes.
fn write_bytes<W: io::Write>(out: &mut W, bytes: &[u8]) -> Result<(), ExportError> {
    fault_of(out.write_all(bytes))
}

/// Turns a writer's error into that of the export.
fn fault_of(outcome: io::Result<()>) -> Result<(), ExportError> {
    match outcome {
        Ok(()) => Ok(()),
        Err(error) if matches!(error.kind(), io::ErrorKind::OutOfMemory) => {
            Err(ExportError::OutOfMemory)
        }
        Err(_) => Err(ExportError::CannotWrite),
    }
}
