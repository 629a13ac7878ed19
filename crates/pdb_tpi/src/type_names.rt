//! Reads names in the records of types and ids.

ghost use Rattle.pdb_msf.specs.Faults.{Gives};
ghost use Rattle.pdb_tpi.specs.TypeNames.{name_in};

use pdb_msf::faults::Fault;
use pdb_msf::{Bytes, copy_name};
use pdb_records::RawString;
use std::alloc::Global;

/// Reads and copies the next name.
pub(crate) fn take_name(alloc: Global, rest: &mut Bytes<'_>) -> Result<RawString, Fault>
    ensures { Gives (λ name. (name, rest.new)) result (name_in rest.old) }
{
    copy_name(alloc, rest.text()?)
}
