//! Reads whole numbers of a records file, signed or unsigned.

ghost use Rattle.pdb_json_values.specs.RecordFault.{Agrees};
ghost use Rattle.pdb_json_values.specs.Values.{found};
ghost use Rattle.pdb_json_values.specs.JsonNumbers.{u64_of, i64_of};

use crate::record_fault::{RecordFault, out_of_range, wanted};
use crate::value_reader::Reader;
use serde_json::Value;

/// Reads an unsigned whole number.
#[tactic(auto, unfolding(crate::specs::JsonNumbers::u64_of))]
pub fn unsigned(reader: Reader, value: Option<&Value>) -> Result<u64, RecordFault>
    ensures { Agrees result (u64_of (found value.entry)) }
{
    if let Some(value) = value
        && let Some(number) = value.as_number()
    {
        match number.as_u64() {
            Some(number) => Ok(number),
            None => out_of_range(reader.alloc),
        }
    } else {
        wanted(reader.alloc, "number")
    }
}

/// Reads a signed whole number.
#[tactic(auto, unfolding(crate::specs::JsonNumbers::i64_of))]
pub fn signed(reader: Reader, value: Option<&Value>) -> Result<i64, RecordFault>
    ensures { Agrees result (i64_of (found value.entry)) }
{
    if let Some(value) = value
        && let Some(number) = value.as_number()
    {
        match number.as_i64() {
            Some(number) => Ok(number),
            None => out_of_range(reader.alloc),
        }
    } else {
        wanted(reader.alloc, "number")
    }
}
