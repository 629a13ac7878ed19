//! `FromJson`, which all record readers implement, and readers for members, arrays, readings and streams.

ghost use Rattle.serde_json.specs.Data.{Data};
ghost use Rattle.serde_json.specs.View.{view};
ghost use Rattle.pdb_json_values.specs.RecordFault.{Fault, Agrees, read_inside};
ghost use Rattle.pdb_json_values.specs.Values.{found};
ghost use Rattle.pdb_json_records.specs.Members.{member_of, optional_of, list_of, stream_error_of, reading_of};
ghost use Rattle.pdb_json_records.specs.Members.{faulty_of, whole_list_of, stream_of};
ghost use Rattle.std.specs.Prelude.{Result, ℕ, decimal};

use pdb_json_values::{Reader, RecordFault, array, inside, inside_element};
use pdb_records::{Reading, StreamError};
use serde_json::Value;
use std::marker::Model;

/// A type that can be read from a JSON value of a records file.
pub trait FromJson: Drop {
    // What a JSON value means in a version of the format, or its first fault.
    ghost read: { ℕ → Data → Result Self Fault };

    /// Reads a value. A missing value is read like `null`.
    fn from_json(reader: Reader, value: Option<&Value>) -> Result<Self, RecordFault>
        ensures { Agrees result (read reader.version (found value.entry)) };
}

/// Reads the member `name` of an object. The path of a fault gets this name.
#[tactic(auto, unfolding(crate::specs::Members::member_of))]
pub fn member<T: FromJson>(reader: Reader, object: &Value, name: &str) -> Result<T, RecordFault>
    ensures { Agrees result (member_of name.now (T.read reader.version) (view object.now)) }
{
    inside(reader.alloc, name, T::from_json(reader, object.get(name)))
}

/// Reads an element of an array. The path of a fault gets its position, `number`.
pub fn element<T: FromJson>(reader: Reader, number: usize, value: &Value) -> Result<T, RecordFault>
    ensures { Agrees result (read_inside (decimal number) (T.read reader.version (view value.now))) }
{
    inside_element(reader.alloc, number, T::from_json(reader, Some(value)))
}

impl<T: FromJson> FromJson for Option<T> {
    ghost read = { λ version. optional_of (T.read version) };

    #[tactic(auto, unfolding(crate::specs::Members::optional_of))]
    fn from_json(reader: Reader, value: Option<&Value>) -> Result<Option<T>, RecordFault> {
        match value {
            Some(there) if !there.is_null() => Ok(Some(T::from_json(reader, value)?)),
            _ => Ok(None),
        }
    }
}

// A list that is read from an array.
#[derive(Drop)]
pub(crate) struct Elements<T> {
    pub elements: Vec<T>,
}

impl<T> Model for Elements<T> {
    ghost use Rattle.std.specs.Prelude.{List};

    ghost Value = { List T };

    ghost view = { λ e. e.elements.items };
}

impl<T: FromJson> FromJson for Elements<T> {
    ghost read = { λ version. list_of (T.read version) };

    #[tactic(auto, unfolding(crate::specs::Members::list_of))]
    fn from_json(reader: Reader, value: Option<&Value>) -> Result<Elements<T>, RecordFault> {
        let values = array(reader, value)?;
        let mut elements = Vec::new(reader.alloc);
        for (number, value) in values.iter().enumerate() {
            let entry = element(reader, number, value)?;
            elements.push(entry)?;
        }
        Ok(Elements { elements })
    }
}

impl FromJson for StreamError {
    ghost read = { λ _. stream_error_of };

    #[tactic(auto, unfolding(crate::specs::Members::stream_error_of))]
    fn from_json(reader: Reader, value: Option<&Value>) -> Result<StreamError, RecordFault> {
        Ok(StreamError(u32::from_json(reader, value)?))
    }
}

// Reads a reading from an object: its `items`, and the `fault` that ended it, if any.
#[tactic(auto, unfolding(crate::specs::Members::faulty_of))]
fn faulty<T: FromJson>(reader: Reader, object: &Value) -> Result<Reading<T>, RecordFault>
    ensures { Agrees result (faulty_of (T.read reader.version) (view object.now)) }
{
    let listed: Elements<T> = member(reader, object, "items")?;
    Ok(Reading {
        items: listed.elements,
        fault: member(reader, object, "fault")?,
    })
}

// Reads a complete reading, which has no fault, from an array.
#[tactic(auto, unfolding(crate::specs::Members::whole_list_of))]
fn whole_list<T: FromJson>(reader: Reader, value: Option<&Value>) -> Result<Reading<T>, RecordFault>
    ensures { Agrees result (whole_list_of (T.read reader.version) (found value.entry)) }
{
    let listed = Elements::<T>::from_json(reader, value)?;
    Ok(Reading {
        items: listed.elements,
        fault: None,
    })
}

impl<T: FromJson> FromJson for Reading<T> {
    ghost read = { λ version. reading_of (T.read version) };

    #[tactic(auto, unfolding(crate::specs::Members::reading_of))]
    fn from_json(reader: Reader, value: Option<&Value>) -> Result<Reading<T>, RecordFault> {
        match value {
            Some(object) if object.is_object() => faulty(reader, object),
            _ => whole_list(reader, value),
        }
    }
}

impl<T: FromJson> FromJson for Result<T, StreamError> {
    ghost read = { λ version. stream_of (T.read version) };

    #[tactic(auto, unfolding(crate::specs::Members::stream_of))]
    fn from_json(
        reader: Reader,
        value: Option<&Value>,
    ) -> Result<Result<T, StreamError>, RecordFault> {
        match value {
            Some(object) if object.get("error").is_some() => {
                Ok(Err(member(reader, object, "error")?))
            }
            _ => Ok(Ok(T::from_json(reader, value)?)),
        }
    }
}
