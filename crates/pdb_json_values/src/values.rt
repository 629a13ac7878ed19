//! Reads booleans, strings, arrays and objects of a records file.

ghost use Rattle.serde_json.specs.View.{view, items_view};
ghost use Rattle.pdb_json_values.specs.RecordFault.{Agrees, AgreesBy};
ghost use Rattle.pdb_json_values.specs.Values.{found, boolean_of, text_of, array_of, object_of};

use crate::record_fault::{RecordFault, wanted};
use crate::value_reader::Reader;
use serde_json::Value;

/// Reads a boolean.
#[tactic(auto, unfolding(crate::specs::Values::boolean_of))]
pub fn boolean(reader: Reader, value: Option<&Value>) -> Result<bool, RecordFault>
    ensures { Agrees result (boolean_of (found value.entry)) }
{
    if let Some(value) = value
        && let Some(boolean) = value.as_bool()
    {
        Ok(boolean)
    } else {
        wanted(reader.alloc, "boolean")
    }
}

/// Reads a string.
#[tactic(auto, unfolding(crate::specs::Values::text_of))]
pub fn text(reader: Reader, value: Option<&Value>) -> Result<&str, RecordFault>
    ensures { AgreesBy (λ text. text.now) result (text_of (found value.entry)) }
{
    if let Some(value) = value
        && let Some(text) = value.as_str()
    {
        Ok(text)
    } else {
        wanted(reader.alloc, "text")
    }
}

/// Reads the elements of an array.
#[tactic(auto, unfolding(crate::specs::Values::array_of))]
pub fn array(reader: Reader, value: Option<&Value>) -> Result<&[Value], RecordFault>
    ensures { AgreesBy (λ values. items_view values.now) result (array_of (found value.entry)) }
{
    if let Some(value) = value
        && let Some(values) = value.as_array()
    {
        Ok(values)
    } else {
        wanted(reader.alloc, "array")
    }
}

/// Reads an object.
pub fn object(reader: Reader, value: Option<&Value>) -> Result<&Value, RecordFault>
    ensures { AgreesBy (λ object. view object.now) result (object_of (found value.entry)) }
{
    if let Some(value) = value
        && value.is_object()
    {
        Ok(value)
    } else {
        wanted(reader.alloc, "object")
    }
}
