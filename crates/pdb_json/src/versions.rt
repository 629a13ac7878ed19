//! Reads the version of a records file.

ghost use Rattle.serde_json.specs.View.{view};
ghost use Rattle.pdb_json_values.specs.RecordFault.{Agrees};
ghost use Rattle.pdb_json.specs.Versions.{version_of, file_version_of};

use pdb_json_records::{FromJson, member};
use pdb_json_values::{FIRST_VERSION, Reader, RecordFault, SECOND_VERSION, wanted};
use serde_json::Value;
use std::marker::Model;

// The version of the format in a file.
#[derive(Drop)]
struct Version {
    number: u8,
}

impl Model for Version {
    ghost use Rattle.std.specs.Prelude.{ℕ};

    ghost Value = { ℕ };

    ghost view = { λ v. v.number };
}

impl FromJson for Version {
    ghost read = { λ _. version_of };

    #[tactic(auto, unfolding(crate::specs::Versions::version_of))]
    fn from_json(reader: Reader, value: Option<&Value>) -> Result<Version, RecordFault> {
        if let Some(value) = value
            && let Some(number) = value.as_number()
        {
            match number.as_u64() {
                Some(1) => Ok(Version {
                    number: FIRST_VERSION,
                }),
                Some(2) => Ok(Version {
                    number: SECOND_VERSION,
                }),
                _ => wanted(reader.alloc, "1 or 2"),
            }
        } else {
            wanted(reader.alloc, "number")
        }
    }
}

// Reads the version of a file: the one that it names, or else the first one.
#[tactic(auto, unfolding(crate::specs::Versions::file_version_of))]
pub(crate) fn file_version(reader: Reader, file: &Value) -> Result<u8, RecordFault>
    ensures { Agrees result (file_version_of (view file.now)) }
{
    let named: Option<Version> = member(reader, file, "version")?;
    match named {
        Some(version) => Ok(version.number),
        None => Ok(FIRST_VERSION),
    }
}
