//! Contexts over borrowed records, and the state of the records afterwards.

use crate::call_answers::text_of_error;
use pdb_addr2line::ContextPdbData;
use pdb_addr2line::pdb::PDB;
use pdb_export::write_records;
use pdb_json::read_records;
use std::alloc::Global;

/// All records as the text of a records file.
fn text_of(alloc: Global, records: &PDB) -> Option<Vec<u8>> {
    let mut text = Vec::new(alloc);
    write_records(alloc, &mut text, records, &[]).ok()?;
    Some(text)
}

/// Whether borrowed records are taken or refused as expected.
fn are_lent_as(alloc: Global, records: &mut PDB, wanted: &str) -> bool {
    match ContextPdbData::try_from_pdb_ref(alloc, records) {
        Ok(_) => wanted == "taken",
        Err(error) => text_of_error(alloc, &error).is_ok_and(|text| text.as_str() == wanted),
    }
}

/// Whether borrowed records are taken or refused as expected, and stay unchanged.
fn stay(alloc: Global, records: &mut PDB, wanted: &str) -> bool {
    let before = text_of(alloc, records);
    before.is_some() && are_lent_as(alloc, records, wanted) && text_of(alloc, records) == before
}

/// Whether the records of a file, if they are borrowed, are taken or refused as expected, and stay unchanged.
pub(crate) fn stay_as_lent(alloc: Global, file: &[u8], wanted: &str) -> bool {
    read_records(alloc, file).is_ok_and(|mut records| stay(alloc, &mut records, wanted))
}
