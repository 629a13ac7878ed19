//! Reads the PDB files in its arguments, and writes the records of each, or why they can't be used.
//!
//! It also writes the broken parts of a file, and two kinds of errors: a session that reads the whole file has other
//! records; or two calls find different functions at one address. `data/write_files.py` writes the files byte by byte,
//! together with the expected output. A records file in the writer's own form comes out unchanged.
#![tactic(auto)]

use anyhow::Result;
use pdb_addr2line::{Function, FunctionFrames, TypeFormatterFlags};
use pdb_container::parts::code_refusal;
use pdb_container::{PdbFile, PdbFileError, read_pdb_file};
use pdb_export::write_records;
use pdb_json::read_records;
use pdb_records::PDB;
use pdb_repairs::repair_records;
use pdb_session::{PdbSession, QuestionError, SessionError};
use std::alloc::Global;
use std::rt::Files;
use std::{env, fs, io};

fn main(rt: HostRuntime) -> Result<()> {
    for name in env::args(&rt)?.skip(1) {
        if name.ends_with(".json") {
            write_again(&rt, name.as_str())?;
        } else {
            show(&rt, name.as_str())?;
        }
    }
    Ok(())
}

/// Reads a records file, and writes its records.
fn write_again<R: Files + Print + AllocGlobal>(rt: &R, name: &str) -> Result<()> {
    println!(rt; "{name}")?;
    let records = read_records(rt.alloc(), &fs::read(rt, name)?)?;
    write_records(rt.alloc(), &mut io::writer(rt), &records, &[])?;
    Ok(())
}

/// Writes the content of a file.
fn show<R: Files + Print + AllocGlobal>(rt: &R, name: &str) -> Result<()> {
    println!(rt; "{name}")?;
    let bytes = fs::read(rt, name)?;
    match read_pdb_file(rt.alloc(), &bytes) {
        Ok(mut file) => show_file(rt, &bytes, &mut file),
        Err(fault) => {
            println!(rt; "{fault}")?;
            Ok(())
        }
    }
}

/// Writes why a file's records can't be used, or the records; and whether a session reads something else.
fn show_file<R: Print + AllocGlobal>(rt: &R, bytes: &[u8], file: &mut PdbFile) -> Result<()> {
    if file.names_only {
        println!(rt; "names only")?;
    }
    match file.refusal {
        Some(refusal) => println!(rt; "{refusal}")?,
        None => write_records(rt.alloc(), &mut io::writer(rt), &file.records, &[])?,
    }
    let alone = match code_refusal(&file.records) {
        Some(refusal) => Reading::Refused(refusal),
        None => {
            repair(rt, file)?;
            Reading::Records(records_text(rt.alloc(), &file.records)?)
        }
    };
    if read_by_session(rt.alloc(), bytes)? != Some(alone) {
        println!(rt; "a session reads something else")?;
    }
    Ok(())
}

/// Repairs the records, and writes each broken part.
fn repair<R: Print + AllocGlobal>(rt: &R, file: &mut PdbFile) -> Result<()> {
    for repair in &repair_records(rt.alloc(), &mut file.records)? {
        println!(rt; "{repair:?}")?;
    }
    Ok(())
}

/// The content of a file: its records as text, or why they can't be used.
#[derive(PartialEq, Eq, Drop)]
enum Reading {
    Refused(PdbFileError),
    Records(Vec<u8>),
}

/// The records as text.
fn records_text(alloc: Global, records: &PDB) -> Result<Vec<u8>> {
    let mut text = Vec::new(alloc);
    write_records(alloc, &mut text, records, &[])?;
    Ok(text)
}

/// The content of a file by a session that reads all of it, range by range. `None` if the file can't be read.
fn read_by_session(alloc: Global, bytes: &[u8]) -> Result<Option<Reading>> {
    match PdbSession::open(alloc, bytes, bytes.len()) {
        Ok(mut opened) => match opened.session.read_all() {
            Ok(_) if answers_alike(&opened.session) => {
                let text = records_text(alloc, opened.session.records())?;
                Ok(Some(Reading::Records(text)))
            }
            _ => Ok(None),
        },
        Err(SessionError::Refused(refusal)) => Ok(Some(Reading::Refused(refusal))),
        Err(_) => Ok(None),
    }
}

/// Whether `find_function` and `find_frames` of a session that read the whole file find the same function at each
/// function start.
fn answers_alike(session: &PdbSession<&[u8]>) -> bool {
    let Ok(data) = session.data() else {
        return false;
    };
    let Ok(mut context) = data.context(TypeFormatterFlags::default()) else {
        return false;
    };
    let Ok(starts) = context.start_addresses() else {
        return false;
    };
    for start in starts {
        if !is_same_function(context.find_function(start), context.find_frames(start)) {
            return false;
        }
    }
    true
}

/// Whether both are of one function, or of none.
fn is_same_function(
    function: Result<Option<Function>, QuestionError>,
    frames: Result<Option<FunctionFrames<'_>>, QuestionError>,
) -> bool {
    match (function, frames) {
        (Ok(Some(function)), Ok(Some(frames))) => {
            function.start_rva == frames.start_rva && function.end_rva == frames.end_rva
        }
        (Ok(None), Ok(None)) => true,
        _ => false,
    }
}
