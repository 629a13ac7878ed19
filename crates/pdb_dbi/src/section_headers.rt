//! Reads section headers, and makes the address map from them.

ghost use Rattle.std.specs.Prelude.{◌≡◌, ◌≤◌, length, IfErr, IfOk};
ghost use Rattle.pdb_msf.specs.Faults.{Gives};
ghost use Rattle.pdb_dbi.specs.SectionHeaders.{address_range, loaded_at, section_header, section_headers};

use pdb_msf::faults::Fault;
use pdb_msf::{Bytes, ItemReader, read_all_items, u32_at};
use pdb_records::{AddressMap, AddressRange, ImageSectionHeader};
use std::alloc::Global;

/// The size of a section header in bytes.
const HEADER: usize = 40;

/// The flag of a section that is executable.
const EXECUTE: u32 = 0x2000_0000;

/// Reads the section headers.
#[tactic(auto, unfolding(crate::specs::SectionHeaders::section_headers))]
pub fn read_sections(alloc: Global, stream: &[u8]) -> Result<Vec<ImageSectionHeader>, Fault>
    ensures { Gives (λ sections. sections.items) result (section_headers stream.now) }
{
    read_all_items(alloc, &SectionHeaders, stream)
}

/// Reads section headers in turn.
struct SectionHeaders;

impl<'a> ItemReader<'a> for SectionHeaders {
    type Item = ImageSectionHeader;

    ghost use Rattle.pdb_dbi.specs.SectionHeaders.{section_header};
    ghost use Rattle.pdb_msf.specs.ItemLists.{first_entry};

    ghost first = { λ _. first_entry section_header 40 };

    fn take(&self, rest: &mut Bytes<'a>) -> Result<ImageSectionHeader, Fault> {
        Ok(section_header(rest.take(HEADER)?))
    }
}

// Decodes a section header.
fn section_header(entry: &[u8]) -> ImageSectionHeader
    requires { length entry.now ≡ 40 }
    ensures { result ≡ section_header entry.now }
{
    ImageSectionHeader {
        virtual_address: u32_at(entry, 12),
        virtual_size: u32_at(entry, 8),
        execute: u32_at(entry, 36) & EXECUTE != 0,
    }
}

/// The address map: where these sections are loaded.
pub fn map_addresses(alloc: Global, sections: &[ImageSectionHeader]) -> Result<AddressMap, Fault>
    ensures answer { IfOk result (λ mapped. mapped ≡ loaded_at sections.now) }
    ensures memory { IfErr result (λ fault. fault ≡ Fault.OutOfMemory) }
{
    let mut ranges = Vec::new(alloc);
    for section in sections {
        ranges.push(address_range(section))?;
    }
    Ok(AddressMap { sections: ranges })
}

// The address range of a section.
fn address_range(section: &ImageSectionHeader) -> AddressRange
    ensures { result ≡ address_range section.now }
{
    AddressRange {
        virtual_address: section.virtual_address,
        virtual_size: section.virtual_size,
    }
}
