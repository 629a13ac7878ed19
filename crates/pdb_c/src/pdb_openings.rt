//! Opens PDB files into handles, and reads their debug ids.
ghost use Rattle.std.specs.Prelude.{◌≡◌, Ok, IfOk};
ghost use Rattle.pdb_container.specs.PdbFile.{records_of};
ghost use Rattle.pdb_c.specs.Openings.{repaired_file, LeavesOver};

use crate::call_error::CallError;
use crate::handle::Handle;
use crate::openings::accepted_records;
use pdb_addr2line::pdb::PDB;
use pdb_container::parts::code_refusal;
use pdb_container::{read_identity, read_pdb};
use pdb_identity::DebugId;
use pdb_repairs::repair_records;
use std::alloc::{AllocError, Global};

// Reads the records of a PDB file, before repairs. Refused if nothing can be answered over them after repairs.
fn records_of_file(alloc: Global, bytes: &[u8]) -> Result<PDB, CallError>
    ensures { IfOk result (λ records. records_of bytes.now ≡ Ok records) }
{
    let records = read_pdb(alloc, bytes)?;
    match code_refusal(&records) {
        None => Ok(records),
        Some(why) => Err(CallError::from(why)),
    }
}

// Reads and repairs the records of a PDB file.
fn repaired_records(alloc: Global, bytes: &[u8]) -> Result<PDB, CallError>
    ensures { IfOk result (λ records. repaired_file bytes.now ≡ Ok records) }
{
    let mut records = records_of_file(alloc, bytes)?;
    repair_records(alloc, &mut records)?;
    Ok(records)
}

// Opens the records of a PDB file in a closed handle.
pub(crate) fn open_pdb(alloc: Global, bytes: &[u8], handle: &mut Handle) -> Result<(), CallError>
    ensures { LeavesOver bytes.now result handle.old.held handle.new.held }
{
    let records = repaired_records(alloc, bytes)?;
    let records = accepted_records(alloc, records)?;
    handle.open(records)
}

// The text of a debug id in the form of symbol servers.
fn compact_text(alloc: Global, id: DebugId) -> Result<String, AllocError> {
    let id = id.compact();
    format!(in alloc; "{id}")
}

// The text of the debug id of a PDB file, as bytes.
pub(crate) fn debug_id_text(alloc: Global, bytes: &[u8]) -> Result<Vec<u8>, CallError> {
    let Some(identity) = read_identity(alloc, bytes)? else {
        return Err(CallError::NoDebugId);
    };
    let text = compact_text(alloc, identity.debug_id)?;
    Ok(Vec::from_slice(alloc, text.as_bytes())?)
}
