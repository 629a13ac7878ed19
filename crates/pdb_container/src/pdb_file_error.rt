//! `PdbFileError`: why nothing can be answered over the records of a PDB file, with messages.

ghost use Rattle.std.specs.Prelude.{◌≡◌, option_map};
ghost use Rattle.pdb_container.specs.PdbFileError.{code_refusal, debug_reason, reason_of, refusal_of};
ghost use Rattle.pdb_container.specs.PdbFileError.{sections_refusal, types_reason};

use pdb_msf::faults::{NO_STREAM, REARRANGED, UNKNOWN_VERSION, fault_text};
use pdb_records::{PDB, StreamError};
use thiserror::Error;

/// Why nothing can be answered over the records of a PDB file.
#[derive(Debug, Clone, Copy, PartialEq, Eq, Error)]
pub enum PdbFileError {
    /// The file is one that a compiler writes for its object files, not a linker for a program.
    #[error("a compiler's PDB file, of objects and not of a program")]
    OfObjects,
    /// The types have an unsupported format. The number is the file's version.
    #[error("types: made by a version from before 2005 ({0})")]
    OldTypes(u32),
    /// The file has no section headers, so it isn't known where the sections are loaded.
    #[error("no section headers (stripped)")]
    NoSectionHeaders,
    /// Addresses were rearranged after linking.
    #[error("rearranged addresses (OMAP): not read")]
    Rearranged,
    /// A stream is broken: its name, and why it can't be read.
    #[error("{0}: {1}")]
    Broken(&'static str, &'static str),
}

/// Why nothing can be answered over the records of a file of this version; `None` if answers are possible. The first
/// reason counts, in the order debug information, global symbols, types, ids, sections, address map.
pub fn refusal_of(version: u32, records: &PDB) -> Option<PdbFileError>
    ensures { option_map reason_of result ≡ refusal_of version records.now }
{
    if let Err(error) = &records.debug_information {
        return Some(debug_refusal(*error));
    }
    if let Err(error) = &records.global_symbols {
        return Some(PdbFileError::Broken("global symbols", fault_text(*error)));
    }
    if let Err(error) = &records.type_information {
        return Some(types_refusal(version, *error));
    }
    if let Err(error) = &records.id_information {
        return Some(PdbFileError::Broken("ids", fault_text(*error)));
    }
    sections_refusal(records)
}

/// Why nothing can be answered over the records, even if public symbols, types and ids aren't needed; `None` if answers
/// are possible. The first reason counts, in the order debug information, sections, address map.
pub fn code_refusal(records: &PDB) -> Option<PdbFileError>
    ensures { option_map reason_of result ≡ code_refusal records.now }
{
    match &records.debug_information {
        Ok(_) => sections_refusal(records),
        Err(error) => Some(debug_refusal(*error)),
    }
}

// The refusal if it isn't known where sections are loaded.
fn sections_refusal(records: &PDB) -> Option<PdbFileError>
    ensures { option_map reason_of result ≡ sections_refusal records.now }
{
    if let Err(error) = &records.sections {
        return Some(PdbFileError::Broken("section headers", fault_text(*error)));
    }
    match &records.address_map {
        Ok(_) => None,
        Err(REARRANGED) => Some(PdbFileError::Rearranged),
        Err(_) => Some(PdbFileError::NoSectionHeaders),
    }
}

// The refusal if the debug information can't be read. A file without any doesn't belong to a program.
fn debug_refusal(error: StreamError) -> PdbFileError
    ensures { reason_of result ≡ debug_reason error }
{
    match error {
        NO_STREAM => PdbFileError::OfObjects,
        _ => PdbFileError::Broken("debug information", fault_text(error)),
    }
}

fn types_refusal(version: u32, error: StreamError) -> PdbFileError
    ensures { reason_of result ≡ types_reason version error }
{
    match error {
        UNKNOWN_VERSION => PdbFileError::OldTypes(version),
        _ => PdbFileError::Broken("types", fault_text(error)),
    }
}
