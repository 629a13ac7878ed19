//! Records files with module files, and the names of these.

use crate::changes::{around, changed, parts};
use crate::reading_texts::{is_refused_as, is_wanted};
use pdb_json::{RecordFault, RecordsFile, module_files, read_records_with};
use pdb_records::PDB;
use std::alloc::{AllocError, Global};

/// The bytes of the module files in a part of a line.
fn files_of(alloc: Global, part: &str) -> Result<Vec<Vec<u8>>, AllocError> {
    let mut files = Vec::new(alloc);
    if part == "-" {
        return Ok(files);
    }
    for file in part.split(" & ") {
        let bytes = if file == "~" { "" } else { file };
        files.push(Vec::from_slice(alloc, bytes.as_bytes())?)?;
    }
    Ok(files)
}

/// The records of a file whose text is read once.
fn read_once(alloc: Global, text: &[u8], files: &[Vec<u8>]) -> Result<PDB, RecordFault> {
    RecordsFile::from_slice(alloc, text)?.read_records(files)
}

/// Whether reading a file with module files gives the expected result each time.
fn is_read_as(alloc: Global, text: &[u8], files: &[Vec<u8>], wanted: &str) -> bool {
    is_wanted(alloc, &read_records_with(alloc, text, files), wanted)
        && is_wanted(alloc, &read_once(alloc, text, files), wanted)
}

/// Whether reading a file with the module files in a part of a line gives the expected result.
fn is_read_with(alloc: Global, text: &[u8], files: &str, wanted: &str) -> bool {
    files_of(alloc, files).is_ok_and(|files| is_read_as(alloc, text, &files, wanted))
}

/// Whether a text with the change in a line, and with its module files, has the expected result.
pub(crate) fn is_answered(alloc: Global, text: &str, line: &str) -> bool {
    let Some((old, new, rest)) = parts(line) else {
        return false;
    };
    let Some((wanted, files)) = around(rest, " => ") else {
        return false;
    };
    changed(alloc, text, old, new).is_some_and(|text| {
        is_read_with(alloc, text.as_bytes(), files, wanted)
    })
}

/// The names of module files in a line.
fn line_of(alloc: Global, names: &[String]) -> Result<String, AllocError> {
    let mut line = String::from_str(alloc, "names:")?;
    for name in names {
        line.push_str(name.as_str())?;
        line.push_str(";")?;
    }
    Ok(line)
}

/// Whether the names of module files, or the error instead, are the expected ones.
fn are_wanted(alloc: Global, names: &Result<Vec<String>, RecordFault>, wanted: &str) -> bool {
    match names {
        Ok(names) => line_of(alloc, names).is_ok_and(|line| line.as_str() == wanted),
        Err(fault) => is_refused_as(alloc, fault, wanted),
    }
}

/// The names of module files of a file whose text is read once.
fn named_once(alloc: Global, text: &[u8]) -> Result<Vec<String>, RecordFault> {
    RecordsFile::from_slice(alloc, text)?.module_files()
}

/// Whether a file has the expected names of module files, each time that it is read.
fn is_named(alloc: Global, text: &[u8], wanted: &str) -> bool {
    are_wanted(alloc, &module_files(alloc, text), wanted)
        && are_wanted(alloc, &named_once(alloc, text), wanted)
}

/// Whether a text with the change in a line has the expected names of module files.
pub(crate) fn are_named(alloc: Global, text: &str, line: &str) -> bool {
    let Some((old, new, wanted)) = parts(line) else {
        return false;
    };
    changed(alloc, text, old, new).is_some_and(|text| is_named(alloc, text.as_bytes(), wanted))
}
