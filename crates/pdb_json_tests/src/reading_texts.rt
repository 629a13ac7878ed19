//! The results of reading a records file, as text: records, or a fault with its path.

use crate::changes::around;
use pdb_export::write_records;
use pdb_json::RecordFault;
use pdb_records::{Item, PDB, TypeData, TypeIndex};
use std::alloc::Global;

/// Whether the result for a file is the expected one.
pub(crate) fn is_wanted(alloc: Global, answer: &Result<PDB, RecordFault>, wanted: &str) -> bool {
    match answer {
        Ok(records) => wanted == "read" || are_read_as(alloc, records, wanted),
        Err(fault) => is_refused_as(alloc, fault, wanted),
    }
}

/// Whether a fault has this text.
pub(crate) fn is_refused_as(alloc: Global, fault: &RecordFault, wanted: &str) -> bool {
    fault
        .to_string(alloc)
        .is_ok_and(|text| text.as_str() == wanted)
}

/// Whether records have the expected variant, or are written as expected.
fn are_read_as(alloc: Global, records: &PDB, wanted: &str) -> bool {
    match around(wanted, "variant ") {
        Some((_, number)) => number
            .parse::<u8>()
            .is_ok_and(|number| variant_of(records) == Some(number)),
        None => are_written_as(alloc, records, wanted),
    }
}

/// The number of the variant of the only type in records, or of the machine if there is no type.
fn variant_of(records: &PDB) -> Option<u8> {
    let Ok(types) = &records.type_information else {
        return None;
    };
    match types.items.items.as_slice() {
        [] => machine_variant(records),
        [item] => type_variant(item),
        _ => None,
    }
}

/// The number of the variant of the machine.
fn machine_variant(records: &PDB) -> Option<u8> {
    match &records.debug_information {
        Ok(debug) => Some(debug.machine_type.ok()? as u8),
        Err(_) => None,
    }
}

/// The number of the variant of a type: of a primitive, a class or a pointer.
fn type_variant(item: &Item<TypeIndex, TypeData>) -> Option<u8> {
    match &item.content {
        Ok(TypeData::Primitive(primitive)) => Some(primitive.kind as u8),
        Ok(TypeData::Class(class)) => Some(class.class_kind as u8),
        Ok(TypeData::Pointer(pointer)) => Some(pointer.mode as u8),
        _ => None,
    }
}

/// Whether records are written as this line.
fn are_written_as(alloc: Global, records: &PDB, wanted: &str) -> bool {
    let mut text = Vec::new(alloc);
    write_records(alloc, &mut text, records, &[]).is_ok()
        && text.strip_suffix(b"\n") == Some(wanted.as_bytes())
}
