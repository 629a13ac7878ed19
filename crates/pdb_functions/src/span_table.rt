//! Tables of contributions or procedures by section offset, with section offsets as single numbers (keys).

ghost use Rattle.std.specs.Prelude.{◌≡◌, ◌+◌, ◌*◌, ◌^◌, ◌<◌, ◌≤◌, Bool, None, length, slice_get, option_and_then, IfOk};
ghost use Rattle.pdb_records.specs.declared.addresses.PdbInternalSectionOffset.{PdbInternalSectionOffset};
ghost use Rattle.pdb_tables.specs.Probes.{digits};
ghost use Rattle.pdb_tables.specs.Segments.{value_at};
ghost use Rattle.pdb_functions.specs.Keys.{key, HasKeys};
ghost use Rattle.pdb_tables.specs.Last.{last_over};

use pdb_records::PdbInternalSectionOffset;
use pdb_tables::{Probes, Segment, Segments};
use std::alloc::{AllocError, Global};

// The distance between the keys of two sections. It is more than twice the number of offsets in a section, so that a
// span which starts in a section ends before the keys of the next one.
const ROOM: u64 = 0x4_0000_0000;

// The key of a section offset.
pub(crate) fn key(section_offset: PdbInternalSectionOffset) -> u64
    ensures answer { result ≡ key section_offset }
    ensures offset { section_offset.offset < 2 ^ 32 }
    ensures room { result + 2 ^ 33 < 2 ^ 64 }
{
    u64::from(section_offset.section) * ROOM + u64::from(section_offset.offset)
}

// A range of keys: the first one, and the one after the last.
#[derive(Clone, Copy)]
pub(crate) struct Keys {
    pub(crate) start: u64,
    pub(crate) end: u64,
}

// An element that covers a range of section offsets in one section.
pub(crate) trait Span: Copy {
    // Whether it covers a section offset.
    ghost is_over: { PdbInternalSectionOffset → Self → Bool };

    // The keys of the section offsets that it covers.
    fn keys(&self) -> Keys
        ensures { HasKeys result.start result.end (λ section_offset. is_over section_offset self.now) };
}

// Makes a table that has for each section offset the position of the last span that covers it.
pub(crate) fn segments_of<T: Span>(
    alloc: Global,
    spans: &[T],
) -> Result<Segments<usize>, AllocError>
    ensures answer { IfOk result (λ table. (section_offset : PdbInternalSectionOffset) → section_offset.offset < 2 ^ 32
        → option_and_then (slice_get spans.now) (value_at table (key section_offset))
        ≡ last_over (T.is_over section_offset) None spans.now) }
    ensures bound { IfOk result (λ table. length table ≤ 2 * length spans.now) }
{
    let mut segments = Vec::new(alloc);
    for (position, span) in spans.iter().enumerate() {
        let Keys { start, end } = span.keys();
        segments.push(Segment {
            start,
            end,
            value: position,
        })?;
    }
    let table = Segments::from_overlapping(alloc, &segments)?;
    Ok(table)
}

// The span that the table has for a section offset. `position` gets its position.
pub(crate) fn find<T: Copy>(
    spans: &[T],
    table: &Segments<usize>,
    section_offset: PdbInternalSectionOffset,
    position: &mut Option<usize>,
    probes: &mut Probes,
) -> Option<T>
    ensures answer { result ≡ option_and_then (slice_get spans.now) (value_at table.now (key section_offset)) }
    ensures bound { probes.new ≤ probes.old + digits (length table.now) }
{
    *position = table.find(key(section_offset), probes);
    spans.get((*position)?).copied()
}
