//! Reads all records of a records file except those of modules.

ghost use Rattle.serde_json.specs.View.{view};
ghost use Rattle.pdb_records.specs.Sections.{listed};
ghost use Rattle.pdb_json_values.specs.RecordFault.{Agrees, AgreesBy};
ghost use Rattle.pdb_json_records.specs.AllRecords.{sections_of, shared_records_of};

use crate::members::{Elements, member};
use pdb_json_values::{Reader, RecordFault, inside, wanted};
use pdb_records::{ImageSectionHeader, PDB, StreamError};
use serde_json::Value;

// The section headers, if the file has any.
type Sections = Result<Option<Vec<ImageSectionHeader>>, StreamError>;

// Reads the section headers. The member may be null, but must not be missing.
#[tactic(auto, unfolding(crate::specs::AllRecords::sections_of))]
fn sections(reader: Reader, file: &Value) -> Result<Sections, RecordFault>
    ensures { AgreesBy listed result (sections_of (view file.now)) }
{
    if file.get("sections").is_none() {
        return inside(reader.alloc, "sections", wanted(reader.alloc, "array"));
    }
    let sections: Result<Option<Elements<ImageSectionHeader>>, StreamError> = member(
        reader, file, "sections",
    )?;
    Ok(match sections {
        Ok(Some(listed)) => Ok(Some(listed.elements)),
        Ok(None) => Ok(None),
        Err(fault) => Err(fault),
    })
}

/// Reads the records before those of modules, from a file of the reader's version. The list of modules' records stays
/// empty.
///
/// Members are read in the order of the format, and the first fault is returned.
#[tactic(auto, unfolding(crate::specs::AllRecords::shared_records_of))]
pub fn shared_records(reader: Reader, file: &Value) -> Result<PDB, RecordFault>
    ensures { Agrees result (shared_records_of reader.version (view file.now)) }
{
    let sections = sections(reader, file)?;
    let address_map = member(reader, file, "address_map")?;
    let global_symbols = member(reader, file, "global_symbols")?;
    let debug_information = member(reader, file, "debug_information")?;
    let type_information = member(reader, file, "type_information")?;
    let id_information = member(reader, file, "id_information")?;
    let string_table = member(reader, file, "string_table")?;
    let module_infos = Vec::new(reader.alloc);
    Ok(PDB {
        sections,
        address_map,
        global_symbols,
        debug_information,
        type_information,
        id_information,
        string_table,
        module_infos,
    })
}
