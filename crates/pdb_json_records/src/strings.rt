//! Reads the string table: strings with their references.

ghost use Rattle.pdb_json_records.specs.Members.{list_of};
ghost use Rattle.pdb_json_records.specs.Strings.{string_ref_of, string_of};

use crate::members::{Elements, FromJson, member};
use pdb_json_values::{Reader, RecordFault, object};
use pdb_records::{RawString, StringRef, StringTable};
use serde_json::Value;

impl FromJson for StringRef {
    ghost read = { λ _. string_ref_of };

    #[tactic(auto, unfolding(crate::specs::Strings::string_ref_of))]
    fn from_json(reader: Reader, value: Option<&Value>) -> Result<StringRef, RecordFault> {
        Ok(StringRef(FromJson::from_json(reader, value)?))
    }
}

// A string with its reference.
impl FromJson for (StringRef, RawString) {
    ghost read = { string_of };

    #[tactic(auto, unfolding(crate::specs::Strings::string_of))]
    fn from_json(
        reader: Reader,
        value: Option<&Value>,
    ) -> Result<(StringRef, RawString), RecordFault> {
        let entry = object(reader, value)?;
        Ok((
            member(reader, entry, "ref")?,
            member(reader, entry, "text")?,
        ))
    }
}

impl FromJson for StringTable {
    ghost read = { λ version. list_of (string_of version) };

    fn from_json(reader: Reader, value: Option<&Value>) -> Result<StringTable, RecordFault> {
        let texts = Elements::<(StringRef, RawString)>::from_json(reader, value)?;
        Ok(StringTable {
            strings: texts.elements,
        })
    }
}
