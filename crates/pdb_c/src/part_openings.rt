//! Parts of a PDB file that are read for some addresses, and which modules these have.
ghost use Rattle.std.specs.Prelude.{◌≡◌, Some, length, true, IfOk};
ghost use Rattle.pdb_known.specs.StrictlyClosed.{is_strictly_closed};
ghost use Rattle.pdb_session.specs.FileParts.{IsPartOfFile};
ghost use Rattle.pdb_session.specs.Session.{needs_none};
ghost use Rattle.pdb_c.specs.Buffers.{gathered};
ghost use Rattle.pdb_c.specs.Parts.{flags_of, LeavesPart};

use crate::call_error::CallError;
use crate::handle::Handle;
use crate::openings::accepted_records;
use pdb_addr2line::pdb::PDB;
use pdb_known::KnownRecords;
use pdb_session::{Opened, PdbSession};
use std::alloc::{AllocError, Global};

// What answers at these addresses need of a PDB file, without what is broken in it. Everything is read if a part would
// lead to something that wasn't read.
fn part_of_file(alloc: Global, file: &[u8], addresses: &[u32]) -> Result<KnownRecords, CallError>
    ensures part { IfOk result (λ known. IsPartOfFile known (Some file.now) (length file.now)) }
    ensures closed { IfOk result (λ known. is_strictly_closed known ≡ true) }
    ensures enough { IfOk result (λ known. needs_none known addresses.now ≡ true) }
{
    let Opened {
        mut session,
        names_only: _,
        repairs: _,
    } = PdbSession::open(alloc, file, file.len())?;
    session.read_for(addresses)?;
    if !session.is_closed() {
        session.read_all()?;
    }
    Ok(session.into_known())
}

// A flag for each module: 1 if it was read, and else 0.
fn flags_of(alloc: Global, known: &KnownRecords) -> Result<Vec<u8>, AllocError>
    ensures { IfOk result (λ flags. flags.items ≡ flags_of known.now) }
{
    let mut flags = Vec::with_capacity(alloc, known.modules.len())?;
    for &read in &known.modules {
        flags.push(u8::from(read))?;
    }
    Ok(flags)
}

// The records of what was read.
fn records_of(known: KnownRecords) -> PDB
    ensures { result ≡ known.records }
{
    let KnownRecords {
        records,
        all: _,
        modules: _,
        types: _,
        sizes: _,
        ids: _,
    } = known;
    records
}

// Puts what answers at these addresses need of a PDB file into a handle. Returns a flag for each module: 1 if it was
// read, and else 0.
pub(crate) fn open_part(
    alloc: Global,
    file: &[u8],
    addresses: &[u32],
    handle: &mut Handle,
) -> Result<Vec<u8>, CallError>
    ensures { LeavesPart file.now addresses.now (gathered result) handle.old.held handle.new.held }
{
    let known = part_of_file(alloc, file, addresses)?;
    let flags = flags_of(alloc, &known)?;
    let records = accepted_records(alloc, records_of(known))?;
    handle.open(records)?;
    Ok(flags)
}
