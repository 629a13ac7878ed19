//! `SectionTable`: finds the section offset of an address.

ghost use Rattle.std.specs.Prelude.{◌≡◌, ◌+◌, ◌*◌, ◌≤◌, length, option_and_then, IfOk};
ghost use Rattle.pdb_records.specs.Addresses.{internal_offset};
ghost use Rattle.pdb_tables.specs.Probes.{digits};
ghost use Rattle.pdb_functions.specs.SectionTables.{section_offset_in, section_segments};

use pdb_records::{AddressMap, AddressRange, PdbInternalSectionOffset, Rva};
use pdb_tables::{Probes, Segment, Segments};
use std::alloc::{AllocError, Global};
use std::marker::Model;

// The start of a section, and its position in the list of sections, counted from 0.
#[derive(Clone, Copy)]
pub(crate) struct SectionStart {
    pub(crate) index: usize,
    pub(crate) start: u32,
}

// The addresses of each section.
fn segments_of(
    alloc: Global,
    ranges: &[AddressRange],
) -> Result<Vec<Segment<SectionStart>>, AllocError>
    ensures { IfOk result (λ v. v.items ≡ section_segments 0 ranges.now) }
{
    let mut segments: Vec<Segment<SectionStart>> = Vec::new(alloc);
    for (index, range) in ranges.iter().enumerate() {
        let start = range.virtual_address;
        segments.push(Segment {
            start: u64::from(start),
            end: u64::from(start) + u64::from(range.virtual_size),
            value: SectionStart { index, start },
        })?;
    }
    Ok(segments)
}

// The section offset of an address in a section that starts at or before it. `None` if the section's number is greater
// than 65535.
fn section_offset_in(address: u32, section: SectionStart) -> Option<PdbInternalSectionOffset>
    ensures { result ≡ section_offset_in address section }
{
    if section.index >= usize::from(u16::MAX) {
        return None;
    }
    Some(PdbInternalSectionOffset {
        section: section.index as u16 + 1,
        offset: address.saturating_sub(section.start),
    })
}

/// The sections of a program, with a table of the section that contains each address.
#[derive(Drop)]
pub struct SectionTable<'a> {
    address_map: &'a AddressMap,
    segments: Segments<SectionStart>,
}

// Contracts see a table as the sections of the address map.
impl<'a> Model for SectionTable<'a> {
    ghost use Rattle.std.specs.Prelude.{◌≡◌, ◌*◌, ◌≤◌, ℕ, List, length, option_and_then};
    ghost use Rattle.pdb_records.specs.Addresses.{offset_from};
    ghost use Rattle.pdb_records.specs.declared.addresses.AddressRange.{AddressRange};
    ghost use Rattle.pdb_tables.specs.Segments.{value_at};
    ghost use Rattle.pdb_functions.specs.SectionTables.{section_offset_in};

    ghost Value = { List AddressRange };

    ghost view = { λ t. t.address_map.now };

    ghost invariant = { λ t. record {
      firsts : (x : ℕ) → option_and_then (section_offset_in x) (value_at t.segments x)
          ≡ offset_from 1 t.address_map.now x;
      at_most_two_each : length t.segments ≤ 2 * length t.address_map.now;
    } };
}

impl<'a> SectionTable<'a> {
    /// Makes a table of a program's sections. Takes O(n log n) time for n of them. `AllocError` if memory runs out.
    #[tactic(auto, using(crate::proofs::SectionLemmas::count, crate::proofs::SectionLemmas::section_of_painted))]
    pub fn new(alloc: Global, address_map: &'a AddressMap) -> Result<Self, AllocError>
        ensures { IfOk result (λ table. table ≡ address_map.now) }
    {
        let mut last_first = segments_of(alloc, &address_map.sections)?;
        last_first.reverse();
        let segments = Segments::from_overlapping(alloc, &last_first)?;
        Ok(SectionTable {
            address_map,
            segments,
        })
    }

    /// The section offset of an address: the first section in order that contains it, and the offset from that
    /// section's start. `None` if no section contains it, or the number of the first that does is greater than 65535.
    ///
    /// It is found by a binary search. `probes` counts the entries of the table that are compared: at most one more
    /// than the number of sections has binary digits.
    pub fn section_offset_of(
        &self,
        address: Rva,
        probes: &mut Probes,
    ) -> Option<PdbInternalSectionOffset>
        ensures answer { result ≡ internal_offset self.now address }
        ensures bound { probes.new ≤ probes.old + digits (length self.now) + 1 }
    {
        let section = self.segments.find(u64::from(address.0), probes)?;
        section_offset_in(address.0, section)
    }
}
