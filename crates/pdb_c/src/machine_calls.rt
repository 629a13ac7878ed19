//! The call for C that returns the machine of a PDB file's program.
ghost use Rattle.pdb_c.specs.Machines.{machine_number, EndsWithNumber};
ghost use Rattle.pdb_c.specs.ReportTexts.{Agrees};

use crate::call_error::CallError;
use pdb_container::read_identity;
use std::alloc::Global;

// The number of the machine of a PDB file's program.
fn machine_number(alloc: Global, pdb: &[u8]) -> Result<u16, CallError>
    ensures { Agrees (λ number. number) result (machine_number pdb.now) }
{
    let Some(identity) = read_identity(alloc, pdb)? else {
        return Err(CallError::NoDebugId);
    };
    Ok(identity.machine.map_or(0, |machine| machine.0))
}

/// Returns the number of the machine of a PDB file's program, as program headers have it; 0 if the file doesn't say it;
/// or the number of the error.
#[unsafe(no_mangle)]
pub extern "C" fn limberlime_machine_unchecked(alloc: Global, pdb: &[u8]) -> i64
    ensures { EndsWithNumber (machine_number pdb.now) result }
{
    match machine_number(alloc, pdb) {
        Ok(number) => i64::from(number),
        Err(refusal) => refusal.code(),
    }
}
