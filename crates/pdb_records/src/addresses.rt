//! Addresses, section offsets and sections, and the conversion between addresses and section offsets.

ghost use Rattle.std.specs.Prelude.{◌≡◌};
ghost use Rattle.std.specs.Option.{option_copied};
ghost use Rattle.pdb_records.specs.Addresses.{internal_offset, rva, holds};

use std::marker::Model;

/// An address relative to where the program is loaded.
#[derive(Clone, Copy, PartialEq, Eq, PartialOrd, Ord, Hash)]
pub struct Rva(pub u32);

/// A section offset: a section's number, counted from 1, and an offset in that section.
#[derive(Clone, Copy, PartialEq, Eq, PartialOrd, Ord, Hash)]
pub struct PdbInternalSectionOffset {
    /// The section's number.
    pub section: u16,
    /// The offset in bytes from the section's start.
    pub offset: u32,
}

/// A section, as the program's section headers list it.
#[derive(Clone, Copy)]
pub struct ImageSectionHeader {
    /// The start of the section, relative to where the program is loaded.
    pub virtual_address: u32,
    /// Its size in bytes.
    pub virtual_size: u32,
    /// Whether the section is executable.
    pub execute: bool,
}

/// The addresses of one section.
#[derive(Clone, Copy)]
pub struct AddressRange {
    /// The start of the section, relative to where the program is loaded.
    pub virtual_address: u32,
    /// Its size in bytes.
    pub virtual_size: u32,
}

impl AddressRange {
    // Whether the section contains the address.
    fn holds(self, address: u32) -> bool
        ensures { result ≡ holds address self }
    {
        self.virtual_address <= address
            && u64::from(address) < u64::from(self.virtual_address) + u64::from(self.virtual_size)
    }
}

/// The sections of a program in order. The first has the number 1. Sections after number 65535 can't be named.
pub struct AddressMap {
    pub sections: Vec<AddressRange>,
}

impl Drop for AddressMap {
    fn drop(self) {
        let AddressMap { sections: _ } = self;
    }
}

impl Model for AddressMap {
    ghost use Rattle.std.specs.Prelude.{List};
    ghost use Rattle.pdb_records.specs.declared.addresses.AddressRange.{AddressRange};

    ghost Value = { List AddressRange };

    ghost view = { λ m. m.sections.items };
}

impl Rva {
    /// The section offset of this address: the first section in order that contains it, and the offset from that
    /// section's start. `None` if no section contains it, or the number of the first that does is greater than 65535.
    pub fn to_internal_offset(self, address_map: &AddressMap) -> Option<PdbInternalSectionOffset>
        ensures { result ≡ internal_offset address_map.now self }
    {
        for (index, range) in address_map.sections.iter().enumerate() {
            if range.holds(self.0) {
                if index >= usize::from(u16::MAX) {
                    return None;
                }
                return Some(PdbInternalSectionOffset {
                    section: index as u16 + 1,
                    offset: self.0 - range.virtual_address,
                });
            }
        }
        None
    }
}

impl PdbInternalSectionOffset {
    /// The address of this section offset. `None` if there is no such section, or the address doesn't fit 32 bits. The
    /// offset may be after the section's end.
    pub fn to_rva(self, address_map: &AddressMap) -> Option<Rva>
        ensures { result ≡ rva address_map.now self }
    {
        let index = usize::from(self.section.checked_sub(1)?);
        let range = address_map.sections.get(index)?;
        let address = range.virtual_address.checked_add(self.offset)?;
        Some(Rva(address))
    }
}
