//! Reads names as bytes or as strings, and strings that name a variant.

ghost use Rattle.std.specs.Prelude.{◌≡◌, map, codes};
ghost use Rattle.serde_json.specs.View.{view};
ghost use Rattle.pdb_json_values.specs.RecordFault.{Agrees, AgreesBy};
ghost use Rattle.pdb_json_values.specs.Values.{found, text_of};
ghost use Rattle.pdb_json_records.specs.Members.{member_of};
ghost use Rattle.pdb_json_records.specs.NameValues.{name_of, variant_named, variant_of, unknown_kind};

use crate::members::{Elements, FromJson};
use pdb_json_values::{Reader, RecordFault, inside, text, wanted};
use pdb_records::RawString;
use serde_json::Value;
use std::marker::Model;

// The variant with this name.
pub(crate) fn named<T: Copy>(name: &str, names: &[(&str, T)]) -> Option<T>
    ensures { result ≡ variant_named name.now (map (λ entry. (entry.0.now, entry.1)) names.now) }
{
    for (known, variant) in names {
        if *known == name {
            return Some(*variant);
        }
    }
    None
}

// Reads a string that names a variant.
#[tactic(auto, unfolding(crate::specs::NameValues::variant_of))]
pub(crate) fn variant<T: Copy>(
    reader: Reader,
    value: Option<&Value>,
    names: &[(&str, T)],
) -> Result<T, RecordFault>
    ensures { Agrees result (variant_of (map (λ entry. (entry.0.now, entry.1)) names.now) (found value.entry)) }
{
    let name = text(reader, value)?;
    match named(name, names) {
        Some(variant) => Ok(variant),
        None => wanted(reader.alloc, "kind"),
    }
}

// Reads the name of an object's kind.
#[tactic(auto, unfolding(crate::specs::Members::member_of, pdb_json_values::specs::Values::text_of))]
pub(crate) fn kind(reader: Reader, object: &Value) -> Result<&str, RecordFault>
    ensures { AgreesBy (λ kind. kind.now) result (member_of (codes "kind") text_of (view object.now)) }
{
    if let Some(value) = object.get("kind")
        && let Some(kind) = value.as_str()
    {
        Ok(kind)
    } else {
        inside(reader.alloc, "kind", wanted(reader.alloc, "text"))
    }
}

// The fault for a kind with an unknown name.
pub(crate) fn unknown_kind<T: Drop>(reader: Reader) -> Result<T, RecordFault>
    ensures { Agrees result (Err unknown_kind) }
{
    inside(reader.alloc, "kind", wanted(reader.alloc, "kind"))
}

impl FromJson for RawString {
    ghost read = { name_of };

    #[tactic(auto, unfolding(crate::specs::NameValues::name_of))]
    fn from_json(reader: Reader, value: Option<&Value>) -> Result<RawString, RecordFault> {
        match value {
            Some(value) if value.is_array() && reader.has_names_in_bytes() => {
                let bytes = Elements::<u8>::from_json(reader, Some(value))?;
                Ok(RawString(bytes.elements))
            }
            _ => {
                let name = text(reader, value)?;
                Ok(RawString(Vec::from_slice(reader.alloc, name.as_bytes())?))
            }
        }
    }
}

/// A string value.
#[derive(Drop)]
pub struct Text {
    pub text: String,
}

impl Model for Text {
    ghost use Rattle.std.specs.Prelude.{List, ℕ, string_bytes};

    ghost Value = { List ℕ };

    ghost view = { λ t. string_bytes t.text };
}

impl FromJson for Text {
    ghost read = { λ _. text_of };

    fn from_json(reader: Reader, value: Option<&Value>) -> Result<Text, RecordFault> {
        let text = String::from_str(reader.alloc, text(reader, value)?)?;
        Ok(Text { text })
    }
}
