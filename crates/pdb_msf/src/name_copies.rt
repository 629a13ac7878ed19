//! Copies of names.

ghost use Rattle.std.specs.Prelude.{◌≡◌, IfErr, IfOk};

use crate::faults::Fault;
use pdb_records::RawString;
use std::alloc::Global;

/// A copy of a name.
pub fn copy_name(alloc: Global, name: &[u8]) -> Result<RawString, Fault>
    ensures answer { IfOk result (λ copied. copied ≡ name.now) }
    ensures memory { IfErr result (λ fault. fault ≡ Fault.OutOfMemory) }
{
    Ok(RawString(Vec::from_slice(alloc, name)?))
}
