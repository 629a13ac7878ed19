//! Reads section headers, the address map, and section offsets.

ghost use Rattle.std.specs.Prelude.{◌≡◌};
ghost use Rattle.serde_json.specs.View.{view};
ghost use Rattle.pdb_json_values.specs.RecordFault.{Agrees};
ghost use Rattle.pdb_json_records.specs.Members.{list_of};
ghost use Rattle.pdb_json_records.specs.Sections.{section_of, range_of, section_offset_of};

use crate::members::{Elements, FromJson, member};
use pdb_json_values::{Reader, RecordFault, object};
use pdb_records::{AddressMap, AddressRange, ImageSectionHeader, PdbInternalSectionOffset};
use serde_json::Value;

impl FromJson for ImageSectionHeader {
    ghost read = { λ _. section_of };

    #[tactic(auto, unfolding(crate::specs::Sections::section_of))]
    fn from_json(reader: Reader, value: Option<&Value>) -> Result<ImageSectionHeader, RecordFault> {
        let section = object(reader, value)?;
        Ok(ImageSectionHeader {
            virtual_address: member(reader, section, "virtual_address")?,
            virtual_size: member(reader, section, "virtual_size")?,
            execute: member(reader, section, "execute")?,
        })
    }
}

impl FromJson for AddressRange {
    ghost read = { λ _. range_of };

    #[tactic(auto, unfolding(crate::specs::Sections::range_of))]
    fn from_json(reader: Reader, value: Option<&Value>) -> Result<AddressRange, RecordFault> {
        let range = object(reader, value)?;
        Ok(AddressRange {
            virtual_address: member(reader, range, "virtual_address")?,
            virtual_size: member(reader, range, "virtual_size")?,
        })
    }
}

impl FromJson for AddressMap {
    ghost read = { λ _. list_of range_of };

    fn from_json(reader: Reader, value: Option<&Value>) -> Result<AddressMap, RecordFault> {
        let ranges = Elements::<AddressRange>::from_json(reader, value)?;
        Ok(AddressMap {
            sections: ranges.elements,
        })
    }
}

// Reads a section offset from the two members of an object with these names.
#[tactic(auto, unfolding(crate::specs::Sections::section_offset_of))]
pub(crate) fn section_offset(
    reader: Reader,
    object: &Value,
    section: &str,
    offset: &str,
) -> Result<PdbInternalSectionOffset, RecordFault>
    ensures { Agrees result (section_offset_of section.now offset.now (view object.now)) }
{
    Ok(PdbInternalSectionOffset {
        section: member(reader, object, section)?,
        offset: member(reader, object, offset)?,
    })
}
